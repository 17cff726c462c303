// Refusals 3, 12 and 13 of a row: its fields are gone through twice, in word order, unless one look
// tells that none is drawn.
ghost use Rattle.std.specs.Prelude.{◌≡◌, ◌<◌, length};
ghost use Rattle.rules.specs.Table.{row_count, node_at};
ghost use Rattle.rules.specs.Refusals.{verdict, fields_refusal};
ghost use Rattle.fields.specs.Passes.{places_refusal, lengths_refusal};

use crate::plain;
use rules::{Refusal, Row};
use single_fields::{empty, place};

// The first refusal that a field of the row draws.
pub fn check(table: &[u32], pool: &[u8], row: Row) -> Result<(), Refusal>
    requires { row.0 < row_count table.now }
    ensures { result ≡ verdict (fields_refusal (length pool.now) row.0 (node_at table.now pool.now row.0)) }
{
    if plain::is_plain(table, pool, row) {
        return Ok(());
    }
    check_each(table, pool, row)
}

// The two passes.
fn check_each(table: &[u32], pool: &[u8], row: Row) -> Result<(), Refusal>
    requires { row.0 < row_count table.now }
    ensures { result ≡ verdict (fields_refusal (length pool.now) row.0 (node_at table.now pool.now row.0)) }
{
    check_places(table, pool, row)?;
    check_lengths(table, pool, row)
}

// The first pass: refusals 3 and 12.
fn check_places(table: &[u32], pool: &[u8], row: Row) -> Result<(), Refusal>
    requires { row.0 < row_count table.now }
    ensures { result ≡ verdict (places_refusal table.now pool.now row.0) }
{
    place::check(table, pool, row, rules::PREFIX)?;
    place::check(table, pool, row, rules::LOCAL_NAME)?;
    place::check(table, pool, row, rules::URI)?;
    place::check(table, pool, row, rules::VALUE)
}

// The second pass: refusal 13.
fn check_lengths(table: &[u32], pool: &[u8], row: Row) -> Result<(), Refusal>
    requires { row.0 < row_count table.now }
    ensures { result ≡ verdict (lengths_refusal table.now pool.now row.0) }
{
    empty::check(table, pool, row, rules::PREFIX)?;
    empty::check(table, pool, row, rules::LOCAL_NAME)?;
    empty::check(table, pool, row, rules::URI)?;
    empty::check(table, pool, row, rules::VALUE)
}
