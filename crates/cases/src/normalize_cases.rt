// Normalization. A line gives the case's name, and the words of the output table and the bytes of the output pool.
ghost use Rattle.std.specs.Prelude.{◌≤◌};

use crate::normalize_report::normalized;
use crate::{parts, texts, words};
use output_answers::Sizes;
use std::io;

// The outputs are not zero before.
pub fn case(rt: &impl Print, line: &[u8], table: &[u32], pool: &[u8]) -> io::Result<()> {
    rt.write_all(parts::part(line, 1))?;
    let mut out_table: [u32; words::MOST] = [7; words::MOST];
    let mut out_pool: [u8; parts::MOST] = [7; parts::MOST];
    in_room(
        rt,
        parts::part(line, 2),
        table,
        pool,
        &mut out_table,
        &mut out_pool,
    )
}

// Only as many words and bytes of the outputs are lent as the room has.
fn in_room(
    rt: &impl Print,
    room: &[u8],
    table: &[u32],
    pool: &[u8],
    out_table: &mut [u32],
    out_pool: &mut [u8],
) -> io::Result<()> {
    let words = least(room, 0, out_table.len());
    let bytes = least(room, 1, out_pool.len());
    run(
        rt,
        table,
        pool,
        &mut out_table[..words],
        &mut out_pool[..bytes],
    )
}

// One of the numbers of a text, and no more than that.
fn least(numbers: &[u8], index: usize, most: usize) -> usize
    ensures { result ≤ most }
{
    let number = words::number(parts::piece(numbers, index, b' ')) as usize;
    if number < most {
        return number;
    }
    most
}

fn run(
    rt: &impl Print,
    table: &[u32],
    pool: &[u8],
    out_table: &mut [u32],
    out_pool: &mut [u8],
) -> io::Result<()> {
    let given = Sizes::from(normalizer::normalize(table, pool, out_table, out_pool));
    let number = given.number;
    texts::refusal(rt, texts::REFUSAL, texts::ROW, texts::WORD, number)?;
    normalized(
        rt,
        table,
        pool,
        out_table,
        given.rows,
        out_pool,
        given.bytes,
        number.number,
    )
}
