// The bytes of values: whether the value of a row is well-formed. In a pool that is all of ASCII no byte is read for it.
// In another one values are read, by marks where they overlap so much that their bytes would be read over and over.
#![tactic(auto)]

ghost use Rattle.std.specs.Prelude.{◌≡◌, ◌+◌, ◌≤◌, ◌<◌, length};
ghost use Rattle.rules.specs.Table.{MOST_ROWS, VALUE, row_count, field_at};
ghost use Rattle.rules.specs.Utf8.{well_formed};
ghost use Rattle.marks.specs.Marks.{MOST, WORDS, Marked};
ghost use Rattle.value_bytes.specs.Judging.{Judging};

use rules::Row;

// Values overlap much where their bytes are more than so many times those of the pool.
const TIMES: usize = 4;

// The value of the row is well-formed.
pub fn is_well_formed(table: &[u32], pool: &[u8], ascii: bool, marks: &[u16], row: Row) -> bool
    requires row_bound { row.0 < row_count table.now }
    requires judging { Judging pool.now marks.now ascii }
    requires row_in_bounds { (field_at table.now pool.now row.0 VALUE).offset + (field_at table.now pool.now row.0 VALUE).size ≤ length pool.now }
    ensures { result ≡ well_formed (field_at table.now pool.now row.0 VALUE).bytes }
{
    if ascii {
        return true;
    }
    let place = rows::place(table, row, rules::VALUE);
    let start = place.offset.0 as usize;
    marks::well_formed_part(marks, pool, start, start + place.length as usize)
}

// Marks the pool, if the values of the table are read and overlap much; zeros are marks too.
pub fn mark(table: &[u32], pool: &[u8], ascii: bool, marks: &mut [u16])
    requires table_bound { (row_count table.now ≤ MOST_ROWS) × (length pool.now ≤ MOST) }
    requires in_bounds { (WORDS ≤ length marks.old) × Marked pool.now marks.old }
    ensures { Marked pool.now marks.new }
{
    if ascii {
        return;
    }
    if sum_of_lengths(table) <= TIMES * pool.len() {
        return;
    }
    marks::make(marks, pool);
}

// The lengths of all values together.
fn sum_of_lengths(table: &[u32]) -> usize
    requires { row_count table.now ≤ MOST_ROWS }
{
    let mut sum = 0;
    for r in 0..rows::row_count(table) as u32 {
        sum += length_at(table, Row(r));
    }
    sum
}

// The length of the value of a row.
fn length_at(table: &[u32], row: Row) -> usize
    requires { row.0 < row_count table.now }
    ensures { result < 4294967296 }
{
    rows::place(table, row, rules::VALUE).length as usize
}
