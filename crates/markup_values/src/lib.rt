// Values in markup: a text row, and the value of an attribute or a declaration.
#![tactic(auto)]

ghost use Rattle.std.specs.Prelude.{◌≡◌, true, false, ◌*◌, ◌<◌, eqb, length, get_or, drop};
ghost use Rattle.rules.specs.Table.{VALUE, row_count, node_at, word};
ghost use Rattle.buffers.specs.Writes.{Put};
ghost use Rattle.escapes.specs.Escapes.{escaped};
ghost use Rattle.markup_names.specs.Pooled.{Pooled};
ghost use Rattle.markup_values.specs.Marks.{PLAIN, Marked};

use rules::Row;

// The word of the marks that is 1 where no byte of the pool is escaped.
pub const PLAIN: usize = 0;

// A text row.
pub fn put_text(
    table: &[u32],
    pool: &[u8],
    marks: &[u16],
    runs: &[u16],
    out: &mut [u8],
    at: usize,
    row: Row,
) -> usize
    requires row_bound { row.0 < row_count table.now }
    requires marked { Marked pool.now marks.now runs.now }
    requires pooled { Pooled table.now pool.now }
    ensures { Put out.old at (escaped false (node_at table.now pool.now row.0).value.bytes) result out.new }
{
    let value = markup_names::field_within(table, pool, row, rules::VALUE);
    if is_plain(marks) {
        return buffers::put_bytes(out, at, value);
    }
    values::write_value(out, at, value, value_runs(table, row, runs), false)
}

// The value of an attribute or a declaration, without its quotes.
pub fn put_quoted(
    table: &[u32],
    pool: &[u8],
    marks: &[u16],
    runs: &[u16],
    out: &mut [u8],
    at: usize,
    row: Row,
) -> usize
    requires row_bound { row.0 < row_count table.now }
    requires marked { Marked pool.now marks.now runs.now }
    requires pooled { Pooled table.now pool.now }
    ensures { Put out.old at (escaped true (node_at table.now pool.now row.0).value.bytes) result out.new }
{
    let value = markup_names::field_within(table, pool, row, rules::VALUE);
    if is_plain(marks) {
        return buffers::put_bytes(out, at, value);
    }
    values::write_value(out, at, value, value_runs(table, row, runs), true)
}

// The lengths of the runs of a row's value, if they are known.
fn value_runs<'r>(table: &[u32], row: Row, runs: &'r [u16]) -> &'r [u16]
    requires { row.0 < row_count table.now }
    ensures { (length result.now ≡ 0 → ⊥) → result.now ≡ drop (2 * word table.now row.0 VALUE) runs.now }
{
    let start = 2 * rows::wide(rows::place(table, row, rules::VALUE).offset.0);
    if start < runs.len() {
        return &runs[start..];
    }
    &runs[..0]
}

// The marks tell that no byte of the pool is escaped.
fn is_plain(marks: &[u16]) -> bool
    requires { PLAIN < length marks.now }
    ensures { result ≡ eqb (get_or marks.now PLAIN 0) 1 }
{
    marks[PLAIN] == 1
}
