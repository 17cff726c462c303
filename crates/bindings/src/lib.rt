// What the path of scopes says of a row, by the numbers of its names.
#![tactic(auto)]

ghost use Rattle.std.specs.Prelude.{◌≡◌, List, ℕ, ◌*◌, ◌≤◌, length};
ghost use Rattle.rules.specs.Table.{row_count};
ghost use Rattle.notes.specs.Notes.{NOTES};
ghost use Rattle.stacks.specs.Stacks.{value_at};
ghost use Rattle.bindings.specs.Spelled.{number_at};
ghost use Rattle.bindings.specs.Asking.{top_of, element_settled, attribute_settled, Asked, own_top};

use rules::{NameId, Position, Row};

// The prefix of an element stands for its URI: its nearest declaration has that value, or the prefix is
// xml, which only goes with its own URI.
pub fn element_settled(notes: &[u16], tops: &[u16], path: &[u16], row: Row) -> bool
    requires { Asked notes.now tops.now path.now row.0 }
    ensures { result ≡ element_settled notes.now tops.now path.now row.0 }
{
    let prefix = notes::name(notes, row, notes::PREFIX);
    let value = value_of(notes, stacks::nearest(tops, prefix));
    let uri = notes::name(notes, row, notes::URI);
    (value.0 == uri.0) | (prefix.0 == stacks::xml(path).0)
}

// An attribute has no URI, or it has a prefix that stands for it.
pub fn attribute_settled(notes: &[u16], tops: &[u16], path: &[u16], row: Row) -> bool
    requires { Asked notes.now tops.now path.now row.0 }
    ensures { result ≡ attribute_settled notes.now tops.now path.now row.0 }
{
    if notes::name(notes, row, notes::URI).0 == 0 {
        return true;
    }
    if notes::name(notes, row, notes::PREFIX).0 == 0 {
        return false;
    }
    element_settled(notes, tops, path, row)
}

// The element's own declaration of its prefix, or 0.
pub fn own_declaration(table: &[u32], notes: &[u16], tops: &[u16], element: Row) -> Position
    requires by_index { (path : List ℕ) × Asked notes.now tops.now path element.0 }
    requires element_bound { top_of notes.now tops.now element.0 ≤ row_count table.now }
    ensures { result.0 ≡ own_top table.now notes.now tops.now element.0 }
{
    let prefix = notes::name(notes, element, notes::PREFIX);
    let top = stacks::nearest(tops, prefix);
    if top.0 == 0 {
        return Position(0);
    }
    let owner = rows::parent(table, notes::row_at(top));
    if owner.0 == element.0 {
        return top;
    }
    Position(0)
}

// The number of a declaration's value; 0 where there is no declaration.
fn value_of(notes: &[u16], position: Position) -> NameId
    requires { NOTES * position.0 ≤ length notes.now }
    ensures { result.0 ≡ number_at (value_at notes.now) position.0 }
{
    if position.0 == 0 {
        return NameId(0);
    }
    notes::name_at(notes, position, notes::VALUE)
}
