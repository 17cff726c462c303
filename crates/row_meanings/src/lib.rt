// The name of one row: whether it means its URI where the scope stands, and in whose scope it is asked.
#![tactic(auto)]

ghost use Rattle.std.specs.Prelude.{◌≡◌, ◌≤◌, ◌<◌, length};
ghost use Rattle.rules.specs.Table.{MOST_ROWS, row_count};
ghost use Rattle.bindings.specs.Asking.{Asked};
ghost use Rattle.row_meanings.specs.Tests.{is_writable, place_of, is_unsettled};

use rules::{Position, Row};

// The row is a leaf or a document, or has a name that is settled where the arrays stand.
pub fn is_writable(table: &[u32], notes: &[u16], tops: &[u16], path: &[u16], row: Row) -> bool
    requires row_bound { row.0 < row_count table.now }
    requires asked { Asked notes.now tops.now path.now row.0 }
    ensures { result ≡ is_writable table.now notes.now tops.now path.now row.0 }
{
    let kind = rows::kind(table, row);
    if kind == rules::ELEMENT {
        return bindings::element_settled(notes, tops, path, row);
    }
    if kind == rules::ATTRIBUTE {
        return bindings::attribute_settled(notes, tops, path, row);
    }
    near_rows::is_leaf(kind) | (kind == rules::DOCUMENT)
}

// The position in whose scope the name of a row stands: an element's own, or its owner's.
pub fn place_of(table: &[u32], row: Row) -> Position
    requires { (row.0 < row_count table.now) × (row_count table.now ≤ MOST_ROWS) }
    ensures { (result.0 ≡ place_of table.now row.0) × (result.0 ≤ row_count table.now) }
{
    let position = notes::position_of(row);
    if rows::kind(table, row) == rules::ELEMENT {
        return position;
    }
    scopes::up(table, position)
}

// The row is flagged and has a name that is not settled where the arrays stand.
pub fn is_unsettled(
    table: &[u32],
    notes: &[u16],
    tops: &[u16],
    path: &[u16],
    flags: &[u16],
    row: Row,
) -> bool
    requires row_bound { (row.0 < row_count table.now) × (row_count table.now ≤ length flags.now) }
    requires asked { Asked notes.now tops.now path.now row.0 }
    ensures { result ≡ is_unsettled table.now notes.now tops.now path.now flags.now row.0 }
{
    if flags::is_named(table, flags, row) {
        if rows::kind(table, row) == rules::ELEMENT {
            return !bindings::element_settled(notes, tops, path, row);
        }
        return !bindings::attribute_settled(notes, tops, path, row);
    }
    false
}
