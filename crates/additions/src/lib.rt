// What normalization adds to a table and its pool: the place of a field, a row for a declaration, an NS prefix.
#![tactic(auto)]

ghost use Rattle.std.specs.Prelude.{◌≡◌, ◌+◌, ◌*◌, ◌≤◌, ◌<◌, length};
ghost use Rattle.rules.specs.Table.{WIDTH};
ghost use Rattle.rules.specs.Normalization.{numbered_prefix};
ghost use Rattle.buffers.specs.Writes.{written, placed, declaration_words};

use rules::{Offset, Place, Row};

// Sets a field of a row to a part of the pool. The field is the word of its offset.
pub fn set_place(table: &mut [u32], row: Row, field: u32, place: Place)
    requires { WIDTH * row.0 + field + 1 < length table.old }
    ensures { table.new ≡ placed table.old row.0 field place }
{
    let at = rules::WIDTH * row.0 as usize + field as usize;
    table[at] = place.offset.0;
    table[at + 1] = place.length;
}

// Writes a declaration of a maker as a row: the declared prefix and the URI are parts of the pool.
pub fn append_row(table: &mut [u32], row: Row, owner: Row, maker: u32, local: Place, value: Place)
    requires { WIDTH * row.0 + WIDTH ≤ length table.old }
    ensures { table.new ≡ written table.old (WIDTH * row.0) (declaration_words owner.0 maker local value) }
{
    let words = [
        rules::DECLARATION,
        owner.0,
        0,
        0,
        local.offset.0,
        local.length,
        0,
        0,
        value.offset.0,
        value.length,
        maker,
    ];
    buffers::write_rows(table, row, &words);
}

// Writes `NS` and the decimal digits of k to the pool from an offset on; answers how many bytes that are.
pub fn append_numbered(pool: &mut [u8], at: Offset, k: u32) -> usize
    requires { at.0 + length (numbered_prefix k) ≤ length pool.old }
    ensures value { result ≡ length (numbered_prefix k) }
    ensures pool_after { pool.new ≡ written pool.old at.0 (numbered_prefix k) }
{
    if k < 10 {
        let bytes = [78, 83, digit(k)];
        buffers::append_bytes(pool, at, &bytes);
        return 3;
    }
    let front = append_numbered(pool, at, k / 10);
    let end = at.0 as usize + front;
    pool[end] = digit(k % 10);
    front + 1
}

// The byte of a decimal digit.
fn digit(x: u32) -> u8
    requires { x < 10 }
    ensures { result ≡ 48 + x }
{
    48 + x as u8
}
