// Rows of the types that most have, told at once to draw none of refusals 3, 12 and 13: each field is
// looked at once.
ghost use Rattle.std.specs.Prelude.{◌≡◌, true, ◌<◌, length};
ghost use Rattle.std.proofs.Math.Option.{none};
ghost use Rattle.rules.specs.Table.{PREFIX, LOCAL_NAME, URI, row_count, node_at};
ghost use Rattle.rules.specs.Refusals.{fields_refusal};
ghost use Rattle.rows.specs.Reading.{HasField};
ghost use Rattle.single_fields.specs.Single.{place_refusal_at};
ghost use Rattle.fields.specs.Passes.{is_nothing};

use rows::wide;
use rules::Row;

// The row is an element, an attribute or a text, and draws none. Of others it is not told.
pub fn is_plain(table: &[u32], pool: &[u8], row: Row) -> bool
    requires { row.0 < row_count table.now }
    ensures { result ≡ true → fields_refusal (length pool.now) row.0 (node_at table.now pool.now row.0) ≡ none }
{
    let kind = rows::kind(table, row);
    if kind == rules::TEXT {
        if !is_nameless(table, row) {
            return false;
        }
        return fits(table, pool, row, rules::VALUE);
    }
    if kind == rules::ATTRIBUTE {
        if !names_fit(table, pool, row) {
            return false;
        }
        return fits(table, pool, row, rules::VALUE);
    }
    if kind == rules::ELEMENT {
        if !names_fit(table, pool, row) {
            return false;
        }
        return is_nothing(table, row, rules::VALUE);
    }
    false
}

// Each name lies in the pool.
fn names_fit(table: &[u32], pool: &[u8], row: Row) -> bool
    requires { row.0 < row_count table.now }
    ensures { result ≡ true → (place_refusal_at table.now pool.now row.0 PREFIX ≡ none) × (place_refusal_at table.now pool.now row.0 LOCAL_NAME ≡ none) × (place_refusal_at table.now pool.now row.0 URI ≡ none) }
{
    if !fits(table, pool, row, rules::PREFIX) {
        return false;
    }
    if !fits(table, pool, row, rules::LOCAL_NAME) {
        return false;
    }
    fits(table, pool, row, rules::URI)
}

// The row has no names.
fn is_nameless(table: &[u32], row: Row) -> bool
    requires { row.0 < row_count table.now }
    ensures { result ≡ true → (is_nothing table.now row.0 PREFIX ≡ true) × (is_nothing table.now row.0 LOCAL_NAME ≡ true) × (is_nothing table.now row.0 URI ≡ true) }
{
    is_nothing(table, row, rules::PREFIX)
        & is_nothing(table, row, rules::LOCAL_NAME)
        & is_nothing(table, row, rules::URI)
}

// The field lies in the pool, and has no offset without a length.
fn fits(table: &[u32], pool: &[u8], row: Row, word: u32) -> bool
    requires { HasField table.now row.0 word }
    ensures { result ≡ true → place_refusal_at table.now pool.now row.0 word ≡ none }
{
    let place = rows::place(table, row, word);
    if place.length == 0 {
        return place.offset.0 == 0;
    }
    wide(place.offset.0) + wide(place.length) <= pool.len()
}

// The field has neither an offset nor a length.
fn is_nothing(table: &[u32], row: Row, word: u32) -> bool
    requires { HasField table.now row.0 word }
    ensures { result ≡ is_nothing table.now row.0 word }
{
    let place = rows::place(table, row, word);
    (place.offset.0 == 0) & (place.length == 0)
}
