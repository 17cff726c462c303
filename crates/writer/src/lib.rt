// The tree of a table as XML text.
#![tactic(auto)]

ghost use Rattle.std.specs.Prelude.{◌≡◌, ◌<◌, ◌≤◌, length, replicate};
ghost use Rattle.rules.specs.Table.{row_count};
ghost use Rattle.table_size.specs.Small.{FEW_ROWS};
ghost use Rattle.beginning.specs.Ground.{Blank};
ghost use Rattle.scope_preparation.specs.Arrays.{Cleared};
ghost use Rattle.markup.specs.Writing.{text_written};
ghost use Rattle.text_refusals.specs.Judging.{WrittenFrom};

use rules::{Refusal, Row};

// The words of the arrays for a small table and for any: path and tops. Up to three names of each row have
// numbers.
const SMALL_PATH: usize = stacks::PATH * table_size::FEW_ROWS + stacks::PATH;

const SMALL_TOPS: usize = stacks::TOPS * (3 * table_size::FEW_ROWS + 1);

const PATH: usize = stacks::PATH * rules::MOST_ROWS + stacks::PATH;

const TOPS: usize = stacks::TOPS * (3 * rules::MOST_ROWS + 1);

// Writes the markup of an element, or of a document's element, and of all that it holds. Success answers
// the bytes that it takes; the rest of the output is zero. A refusal, by the check's numbers and then 8,
// 9, 20, 21, 23, 24 or 22, leaves the output all zero. What is small never comes where the large arrays
// are.
pub fn write(table: &[u32], pool: &[u8], row: Row, out: &mut [u8]) -> Result<usize, Refusal>
    ensures value { result ≡ (text_written table.now pool.now row.0 (length out.old)).answer }
    ensures out_after { out.new ≡ (text_written table.now pool.now row.0 (length out.old)).bytes }
{
    if rows::row_count(table) > table_size::FEW_ROWS {
        return write_any(table, pool, row, out);
    }
    if pool.len() > table_size::FEW_BYTES {
        return write_any(table, pool, row, out);
    }
    write_few(table, pool, row, out)
}

// The same with the text in arrays for any table.
#[inline(never)]
fn write_any(table: &[u32], pool: &[u8], row: Row, out: &mut [u8]) -> Result<usize, Refusal>
    ensures value { result ≡ (text_written table.now pool.now row.0 (length out.old)).answer }
    ensures out_after { out.new ≡ (text_written table.now pool.now row.0 (length out.old)).bytes }
{
    match judge(table, pool, row) {
        Ok(element) => element_text::write_any(table, pool, element, out),
        Err(why) => bundles::refuse(out, why),
    }
}

// The same in small arrays, of a table of few rows; meant for a short pool.
pub fn write_few(table: &[u32], pool: &[u8], row: Row, out: &mut [u8]) -> Result<usize, Refusal>
    requires { row_count table.now ≤ FEW_ROWS }
    ensures value { result ≡ (text_written table.now pool.now row.0 (length out.old)).answer }
    ensures out_after { out.new ≡ (text_written table.now pool.now row.0 (length out.old)).bytes }
{
    match judge(table, pool, row) {
        Ok(element) => element_text::write_few(table, pool, element, out),
        Err(why) => bundles::refuse(out, why),
    }
}

// What writing from a row is refused for, whatever the output; or the element that is written.
fn judge(table: &[u32], pool: &[u8], row: Row) -> Result<Row, Refusal>
    ensures { WrittenFrom table.now pool.now row.0 result }
{
    if rows::row_count(table) > table_size::FEW_ROWS {
        return judge_in::<{ checker::NOTES }, TOPS, PATH>(table, pool, row);
    }
    judge_in::<{ checker::SMALL_NOTES }, SMALL_TOPS, SMALL_PATH>(table, pool, row)
}

// The same, in arrays of so many words.
#[inline(never)]
fn judge_in<const NOTE_WORDS: usize, const TOP_WORDS: usize, const PATH_WORDS: usize>(
    table: &[u32],
    pool: &[u8],
    row: Row,
) -> Result<Row, Refusal>
    requires note_size { NOTE_WORDS < 65536 }
    requires top_size { TOP_WORDS < 65536 }
    requires path_size { PATH_WORDS < 65536 }
    requires blank { Blank table.now (replicate NOTE_WORDS 0) }
    requires cleared { Cleared table.now (replicate TOP_WORDS 0) (replicate PATH_WORDS 0) }
    ensures { WrittenFrom table.now pool.now row.0 result }
{
    let mut notes = [0; NOTE_WORDS];
    let mut tops = [0; TOP_WORDS];
    let mut path = [0; PATH_WORDS];
    let xml = beginning::begin(table, pool, row, b"xml", &mut notes)?;
    text_refusals::judge_asked(table, pool, row, xml, &mut notes, &mut tops, &mut path)
}
