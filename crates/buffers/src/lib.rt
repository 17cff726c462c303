// The writes that normalization makes to the output table and the output pool.
#![tactic(auto)]

ghost use Rattle.std.specs.Prelude.{◌≡◌, ◌++◌, ◌+◌, ◌*◌, ◌≤◌, length, drop};
ghost use Rattle.rules.specs.Table.{WIDTH};
ghost use Rattle.buffers.specs.Writes.{written, cleared, Put};

use rules::{Offset, Row};

// Copies a table to the start of another.
pub fn copy_words(source: &[u32], table: &mut [u32])
    requires { length source.now ≤ length table.old }
    ensures { table.new ≡ source.now ++ drop (length source.now) table.old }
{
    write_rows(table, Row(0), source);
}

// Copies a pool to the start of another.
pub fn copy_bytes(source: &[u8], pool: &mut [u8])
    requires { length source.now ≤ length pool.old }
    ensures { pool.new ≡ source.now ++ drop (length source.now) pool.old }
{
    append_bytes(pool, Offset(0), source);
}

// Sets the words behind the first rows to 0.
pub fn clear_words(table: &mut [u32], rows: usize)
    requires { WIDTH * rows ≤ length table.old }
    ensures { table.new ≡ cleared table.old (WIDTH * rows) }
{
    table[rules::WIDTH * rows..].fill(0);
}

// Sets the bytes behind the first ones to 0.
pub fn clear_bytes(pool: &mut [u8], bytes: usize)
    requires { bytes ≤ length pool.old }
    ensures { pool.new ≡ cleared pool.old bytes }
{
    pool[bytes..].fill(0);
}

// Writes bytes to the pool from an offset on.
pub fn append_bytes(pool: &mut [u8], at: Offset, bytes: &[u8])
    requires { at.0 + length bytes.now ≤ length pool.old }
    ensures { pool.new ≡ written pool.old at.0 bytes.now }
{
    write_bytes(pool, at.0 as usize, bytes);
}

// Writes bytes to an output from a place on; answers where they end.
pub fn write_bytes(out: &mut [u8], at: usize, bytes: &[u8]) -> usize
    requires { at + length bytes.now ≤ length out.old }
    ensures value { result ≡ at + length bytes.now }
    ensures out_after { out.new ≡ written out.old at bytes.now }
{
    for i in 0..bytes.len() {
        out[at + i] = bytes[i];
    }
    at + bytes.len()
}

// Writes bytes to an output from a place on, if they fit; answers where they end, or a place past the output's end.
pub fn put_bytes(out: &mut [u8], at: usize, bytes: &[u8]) -> usize
    ensures { Put out.old at bytes.now result out.new }
{
    if at > out.len() {
        return at;
    }
    let end = at + bytes.len();
    if end > out.len() {
        return end;
    }
    write_bytes(out, at, bytes)
}

// Writes words to the table from a row on.
pub fn write_rows(table: &mut [u32], row: Row, words: &[u32])
    requires { WIDTH * row.0 + length words.now ≤ length table.old }
    ensures { table.new ≡ written table.old (WIDTH * row.0) words.now }
{
    let start = rules::WIDTH * row.0 as usize;
    for i in 0..words.len() {
        table[start + i] = words[i];
    }
}
