// The name of one row of a proposal: whether it asks for what is in scope, and whether it is settled where the arrays stand.
#![tactic(auto)]

ghost use Rattle.std.specs.Prelude.{◌≡◌, ◌+◌, ◌*◌, ◌≤◌, ◌<◌, length};
ghost use Rattle.rules.specs.Table.{row_count};
ghost use Rattle.notes.specs.Notes.{NOTES};
ghost use Rattle.bindings.specs.Asking.{Asked};
ghost use Rattle.proposal_names.specs.Tests.{is_unsettled, asks_scope};

use rules::Row;

// The row is an element, or an owned attribute with a URI: what its name means is a question of scope.
pub fn asks(table: &[u32], notes: &[u16], row: Row) -> bool
    requires { (row.0 < row_count table.now) × (NOTES * row.0 + NOTES ≤ length notes.now) }
    ensures { result ≡ asks_scope table.now notes.now row.0 }
{
    let row_kind = rows::kind(table, row);
    if row_kind == rules::ELEMENT {
        return true;
    }
    if (row_kind == rules::ATTRIBUTE) & (rows::parent(table, row).0 != rules::NONE) {
        return notes::name(notes, row, notes::URI).0 != 0;
    }
    false
}

// The row is an element or an owned attribute, and its name is not settled where the arrays stand.
pub fn is_unsettled(table: &[u32], notes: &[u16], tops: &[u16], path: &[u16], row: Row) -> bool
    requires row_bound { row.0 < row_count table.now }
    requires asked { Asked notes.now tops.now path.now row.0 }
    ensures { result ≡ is_unsettled table.now notes.now tops.now path.now row.0 }
{
    let kind = rows::kind(table, row);
    if kind == rules::ELEMENT {
        return !bindings::element_settled(notes, tops, path, row);
    }
    if (kind == rules::ATTRIBUTE) & (rows::parent(table, row).0 != rules::NONE) {
        return !bindings::attribute_settled(notes, tops, path, row);
    }
    false
}
