// The text of an element that is not refused, in an output.
#![tactic(auto)]

ghost use Rattle.std.specs.Prelude.{◌≡◌, [], ℕ, ◌*◌, ◌≤◌, ◌<◌, length, set};
ghost use Rattle.std.proofs.Math.Option.{none};
ghost use mir.Val.{bool_byte};
ghost use Rattle.rules.specs.Table.{MOST_ROWS, MOST_BYTES, row_count};
ghost use Rattle.rules.specs.Refusals.{check_refusal};
ghost use Rattle.table_size.specs.Small.{FEW_ROWS};
ghost use Rattle.markup_values.specs.Marks.{PLAIN};
ghost use Rattle.text_room.specs.Room.{fitted};
ghost use Rattle.element_text.specs.Elements.{element_text, Clear, AtHand};

use rules::{Refusal, Row};

// What clearing the lengths of the runs of any pool costs, in bytes that are looked at.
const CLEARING: usize = 8192;

// Writes the text of an element of a table that the check accepts; the rest of the output is zero. Where the text does not fit:
// refusal 22, and all is zero.
#[inline(never)]
pub fn write_any(table: &[u32], pool: &[u8], row: Row, out: &mut [u8]) -> Result<usize, Refusal>
    requires pool_value { check_refusal table.now pool.now ≡ none }
    requires row_bound { row.0 < row_count table.now }
    ensures value { result ≡ (fitted (length out.old) (element_text table.now pool.now row.0)).answer }
    ensures out_after { out.new ≡ (fitted (length out.old) (element_text table.now pool.now row.0)).bytes }
{
    let mut links = [0; checker::NOTES];
    if prepare(table, pool, &mut links) {
        let mut runs = [0; 2 * rules::MOST_BYTES];
        return write_measured(table, pool, row, &links, &mut runs, out);
    }
    write_marked(table, pool, row, &links, &[0; 0], out)
}

// The same in small arrays, of a table of few rows. Runs are not measured, so it is meant for a short pool.
pub fn write_few(table: &[u32], pool: &[u8], row: Row, out: &mut [u8]) -> Result<usize, Refusal>
    requires pool_value { check_refusal table.now pool.now ≡ none }
    requires row_bound { row.0 < row_count table.now }
    requires table_bound { row_count table.now ≤ FEW_ROWS }
    ensures value { result ≡ (fitted (length out.old) (element_text table.now pool.now row.0)).answer }
    ensures out_after { out.new ≡ (fitted (length out.old) (element_text table.now pool.now row.0)).bytes }
{
    let mut links = [0; checker::SMALL_NOTES];
    prepare(table, pool, &mut links);
    write_marked(table, pool, row, &links, &[0; 0], out)
}

// Links the rows, and notes whether no byte of the pool is escaped: one look answers for all values, which are parts of it. Answers
// whether the runs of the pool are to be measured.
fn prepare(table: &[u32], pool: &[u8], links: &mut [u16]) -> bool
    requires pool_value { check_refusal table.now pool.now ≡ none }
    requires clear { Clear table.now links.old }
    requires table_nonzero { 0 < row_count table.now }
    ensures { (e : ℕ) → e < row_count table.now → AtHand table.now pool.now links.new [] e }
{
    children::link_all(table, links);
    let plain = runs::is_plain(pool, true);
    set_plain(links, plain);
    is_measured(table, pool, plain)
}

// Notes in the links whether no byte of the pool is escaped.
fn set_plain(links: &mut [u16], plain: bool)
    requires { 0 < length links.old }
    ensures { links.new ≡ set links.old PLAIN (bool_byte plain) }
{
    links[markup_values::PLAIN] = plain as u16;
}

// Whether the runs of the pool are measured: where one of its bytes is escaped, and the values of all rows together are so long
// that a look at each of their bytes costs more.
fn is_measured(table: &[u32], pool: &[u8], plain: bool) -> bool
    requires { row_count table.now ≤ MOST_ROWS }
{
    if plain {
        return false;
    }
    let mut left = pool.len() + CLEARING;
    let rows = rows::row_count(table) as u32;
    for r in 0..rows {
        let length = rows::wide(rows::place(table, Row(r), rules::VALUE).length);
        if length >= left {
            return true;
        }
        left -= length;
    }
    false
}

// Measures the runs of the pool, and writes the text with their lengths.
fn write_measured(
    table: &[u32],
    pool: &[u8],
    row: Row,
    links: &[u16],
    runs: &mut [u16],
    out: &mut [u8],
) -> Result<usize, Refusal>
    requires pool_len_bound { (length pool.now ≤ MOST_BYTES) × (2 * length pool.now ≤ length runs.old) }
    requires at_hand { AtHand table.now pool.now links.now [] row.0 }
    ensures value { result ≡ (fitted (length out.old) (element_text table.now pool.now row.0)).answer }
    ensures out_after { out.new ≡ (fitted (length out.old) (element_text table.now pool.now row.0)).bytes }
{
    run_lengths::measure_runs(pool, runs);
    write_marked(table, pool, row, links, runs, out)
}

// Writes the text, with the lengths of the pool's runs if there are any.
fn write_marked(
    table: &[u32],
    pool: &[u8],
    row: Row,
    links: &[u16],
    runs: &[u16],
    out: &mut [u8],
) -> Result<usize, Refusal>
    requires { AtHand table.now pool.now links.now runs.now row.0 }
    ensures value { result ≡ (fitted (length out.old) (element_text table.now pool.now row.0)).answer }
    ensures out_after { out.new ≡ (fitted (length out.old) (element_text table.now pool.now row.0)).bytes }
{
    let end = content::put_element(table, pool, links, runs, out, 0, row);
    text_room::complete(out, end)
}
