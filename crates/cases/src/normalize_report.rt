// What normalization gave, as text: a line for the answer, and one for each row of the result that is not the table's.
ghost use Rattle.std.specs.Prelude.{◌*◌, ◌≤◌};
ghost use Rattle.rules.specs.Table.{WIDTH, MOST_ROWS};

use crate::parts::between;
use crate::texts;
use crate::texts::{either, say};
use std::io;

// A result of so many rows and bytes, or a refusal of that number.
pub fn normalized(
    rt: &impl Print,
    table: &[u32],
    pool: &[u8],
    out_table: &[u32],
    rows: usize,
    out_pool: &[u8],
    bytes: usize,
    number: u32,
) -> io::Result<()> {
    say(rt, texts::ROWS, rows)?;
    say(rt, texts::BYTES, bytes)?;
    texts::write(rt, texts::POOL)?;
    if number == 0 {
        pool_after(rt, pool, out_pool, bytes)?;
    }
    rows_after(rt, table, out_table, rows, out_pool, bytes)
}

// Whether the result's pool starts with the pool, and the bytes that follow.
fn pool_after(rt: &impl Print, pool: &[u8], out_pool: &[u8], bytes: usize) -> io::Result<()> {
    let kept = names::same(between(out_pool, 0, pool.len()), pool);
    either(rt, kept, texts::KEPT, texts::NOT_KEPT)?;
    rt.write_all(between(out_pool, pool.len(), bytes))?;
    texts::write(rt, texts::APPENDED)
}

// Whether both outputs are zero after the result, all of them for a refusal; and the rows of the result that the table
// does not have.
fn rows_after(
    rt: &impl Print,
    table: &[u32],
    out_table: &[u32],
    rows: usize,
    out_pool: &[u8],
    bytes: usize,
) -> io::Result<()> {
    if rows > rules::MOST_ROWS {
        return Ok(());
    }
    let end = rows * rules::WIDTH;
    let cleared = same_words(&table[..0], out_table, end, out_table.len());
    either(
        rt,
        cleared & zero_bytes(out_pool, bytes),
        texts::ZERO,
        texts::NOT_ZERO,
    )?;
    changed_rows(rt, table, out_table, end)
}

fn changed_rows(rt: &impl Print, table: &[u32], out_table: &[u32], end: usize) -> io::Result<()>
    requires { end ≤ MOST_ROWS * WIDTH }
{
    for start in (0..end).step_by(rules::WIDTH) {
        if !same_words(table, out_table, start, start + rules::WIDTH) {
            show(rt, out_table, start)?;
        }
    }
    Ok(())
}

// The words from one index to another are equal in both tables; past its end, a table has zeros.
fn same_words(table: &[u32], other: &[u32], from: usize, to: usize) -> bool {
    (from..to).all(|at| word(table, at) == word(other, at))
}

fn word(table: &[u32], at: usize) -> u32 {
    if at < table.len() {
        return table[at];
    }
    0
}

fn zero_bytes(bytes: &[u8], from: usize) -> bool {
    bytes.iter().skip(from).all(|byte| *byte == 0)
}

// The number and the words of the row that starts there.
fn show(rt: &impl Print, table: &[u32], start: usize) -> io::Result<()>
    requires { start ≤ MOST_ROWS * WIDTH }
{
    say(rt, texts::CHANGED_ROW, start / rules::WIDTH)?;
    texts::write(rt, texts::WORDS)?;
    for at in start..start + rules::WIDTH {
        say(rt, texts::SPACE, word(table, at) as usize)?;
    }
    texts::write(rt, texts::LINE)
}
