// Reading the rows of a lent table, and arrays of row numbers. What is read of a row is read here. A
// field is named by the word that its offset stands in, as `rules::URI`.
#![tactic(auto)]

ghost use Rattle.std.specs.Prelude.{◌≡◌, ◌<◌, length, get_or, ltb};
ghost use Rattle.rules.specs.Table.{WIDTH, TYPE, PARENT, MAKER, word, field_at, row_count, is_element, is_level1};
ghost use Rattle.rows.specs.Reading.{HasField, place_at};

use rules::{Offset, Place, Row};

// A word as an index.
pub fn wide(x: u32) -> usize
    ensures { result ≡ x }
{
    x as usize
}

// How many rows the table has.
pub fn row_count(table: &[u32]) -> usize
    ensures { result ≡ row_count table.now }
{
    table.len() / rules::WIDTH
}

// Whether the table has the row.
pub fn has_row(table: &[u32], row: Row) -> bool
    ensures { result ≡ ltb row.0 (row_count table.now) }
{
    wide(row.0) < row_count(table)
}

// The type of a row.
pub fn kind(table: &[u32], row: Row) -> u32
    requires { row.0 < row_count table.now }
    ensures { result ≡ word table.now row.0 TYPE }
{
    word(table, row, rules::TYPE)
}

// The parent of a row; of an attribute or a declaration, its owner.
pub fn parent(table: &[u32], row: Row) -> Row
    requires { row.0 < row_count table.now }
    ensures { result.0 ≡ word table.now row.0 PARENT }
{
    Row(word(table, row, rules::PARENT))
}

// The maker of a row.
pub fn maker(table: &[u32], row: Row) -> u32
    requires { row.0 < row_count table.now }
    ensures { result ≡ word table.now row.0 MAKER }
{
    word(table, row, rules::MAKER)
}

// Where a field of a row stands in the pool.
pub fn place(table: &[u32], row: Row, field: u32) -> Place
    requires { HasField table.now row.0 field }
    ensures { result ≡ place_at table.now row.0 field }
{
    let offset = Offset(word(table, row, field));
    let length = word(table, row, field + 1);
    Place { offset, length }
}

// The bytes of a field of a row.
pub fn field<'p>(table: &[u32], pool: &'p [u8], row: Row, field: u32) -> &'p [u8]
    requires { HasField table.now row.0 field }
    ensures { result.now ≡ (field_at table.now pool.now row.0 field).bytes }
{
    let offset = Offset(word(table, row, field));
    pool::part(pool, offset, word(table, row, field + 1))
}

// The type is that of an element, of DOM Level 2 or 1.
pub fn is_element(kind: u32) -> bool
    ensures { result ≡ is_element kind }
{
    (kind == rules::ELEMENT) | (kind == rules::LEVEL1_ELEMENT)
}

// The type is one of DOM Level 1.
pub fn is_level1(kind: u32) -> bool
    ensures { result ≡ is_level1 kind }
{
    (kind == rules::LEVEL1_ELEMENT) | (kind == rules::LEVEL1_ATTRIBUTE)
}

// The row that stands at a position of a list of rows.
pub fn row_at(rows: &[u32], at: usize) -> Row
    requires { at < length rows.now }
    ensures { result.0 ≡ get_or rows.now at 0 }
{
    Row(rows[at])
}

fn word(table: &[u32], row: Row, k: u32) -> u32
    requires { (row.0 < row_count table.now) × (k < WIDTH) }
    ensures { result ≡ word table.now row.0 k }
{
    let at = wide(row.0) * rules::WIDTH + wide(k);
    table[at]
}
