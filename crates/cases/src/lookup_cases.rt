// The lookups. A line gives a prefix and a URI, and after the pool the rows that are asked: each its number and what it
// is. The lookups of a URI are asked for the prefix, the others for the URI.
use crate::lookup_report::{compared, found};
use crate::parts::{part, piece};
use crate::texts::quote;
use crate::{texts, words};
use answers::Found;
use rules::Row;
use std::io;

// The part of a line that is the first row to ask.
const FIRST_ROW: usize = 5;

// The rows to ask, if there are any, have numbers that can be read.
pub fn has_rows(line: &[u8]) -> bool {
    line.split(|byte| *byte == b'|')
        .skip(FIRST_ROW)
        .take_while(|name| !name.is_empty())
        .all(|name| words::are_numbers(piece(name, 0, b' ')))
}

// The five lookups from each row.
pub fn case(rt: &impl Print, line: &[u8], table: &[u32], pool: &[u8]) -> io::Result<()> {
    let names = line.split(|byte| *byte == b'|').skip(FIRST_ROW);
    for name in names.take_while(|name| !name.is_empty()) {
        rt.write_all(name)?;
        lookups(rt, table, pool, numbered(name), line)?;
    }
    Ok(())
}

// The parts of the pool that the first two lookups find from a row.
pub fn part_case(rt: &impl Print, line: &[u8], table: &[u32], pool: &[u8]) -> io::Result<()> {
    let name = part(line, FIRST_ROW);
    let row = numbered(name);
    rt.write_all(name)?;
    quote(
        rt,
        texts::URI_PART,
        lookups::uri_part(table, pool, row, part(line, 1)),
    )?;
    quote(
        rt,
        texts::PREFIX_PART,
        lookups::prefix_part(table, pool, row, part(line, 2)),
    )?;
    texts::write(rt, texts::PART_END)
}

// The row whose number a name starts with.
fn numbered(name: &[u8]) -> Row {
    Row(words::number(piece(name, 0, b' ')))
}

fn lookups(rt: &impl Print, table: &[u32], pool: &[u8], row: Row, line: &[u8]) -> io::Result<()> {
    let prefix = part(line, 1);
    let uri = part(line, 2);
    by_names(rt, table, pool, row, prefix, uri)?;
    default(rt, table, pool, row, uri)?;
    by_declarations(rt, table, pool, row, prefix, uri)?;
    texts::write(rt, texts::LINE)
}

// The lookups that see elements' own names.
fn by_names(
    rt: &impl Print,
    table: &[u32],
    pool: &[u8],
    row: Row,
    prefix: &[u8],
    uri: &[u8],
) -> io::Result<()> {
    let of_prefix = Found::from(lookups::uri_of_prefix(table, pool, row, prefix));
    found(rt, texts::URI, of_prefix, texts::NOTHING)?;
    let of_uri = Found::from(lookups::prefix_of_uri(table, pool, row, uri));
    found(rt, texts::PREFIX, of_uri, texts::NOTHING)
}

fn by_declarations(
    rt: &impl Print,
    table: &[u32],
    pool: &[u8],
    row: Row,
    prefix: &[u8],
    uri: &[u8],
) -> io::Result<()> {
    let of_prefix = Found::from(lookups::in_scope_uri(table, pool, row, prefix));
    found(rt, texts::IN_SCOPE_URI, of_prefix, texts::NONE)?;
    let of_uri = Found::from(lookups::in_scope_prefix(table, pool, row, uri));
    found(rt, texts::PREFIX, of_uri, texts::NONE)
}

// The default URI is asked for, and compared with the one that is given.
fn default(rt: &impl Print, table: &[u32], pool: &[u8], row: Row, uri: &[u8]) -> io::Result<()> {
    let default_uri = Found::from(lookups::default_uri(table, pool, row));
    compared(rt, pool, default_uri, uri)
}
