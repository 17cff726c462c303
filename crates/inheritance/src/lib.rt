// Refusal 24 of one row: whether an element inherits anything, and whether a declaration is inherited where the scope stands.
#![tactic(auto)]

ghost use Rattle.std.specs.Prelude.{◌≡◌, ◌+◌, ◌*◌, ◌≤◌, ◌<◌, length};
ghost use Rattle.rules.specs.Table.{MOST_ROWS, row_count};
ghost use Rattle.notes.specs.Notes.{NOTES, LOCAL_NAME, note_at};
ghost use Rattle.stacks.specs.Stacks.{TOPS};
ghost use Rattle.inheritance.specs.Tests.{is_top, is_open};

use rules::Row;

// Nothing is inherited by an element that lies in no other row, or in a document.
pub fn is_top(table: &[u32], element: Row) -> bool
    requires { element.0 < row_count table.now }
    ensures { result ≡ is_top table.now element.0 }
{
    let parent = rows::parent(table, element);
    if rows::has_row(table, parent) {
        return rows::kind(table, parent) == rules::DOCUMENT;
    }
    true
}

// The row is a declaration with a value that is not the element's own, and it is the nearest one of its
// prefix where the arrays stand.
pub fn is_open(table: &[u32], notes: &[u16], tops: &[u16], row: Row, element: Row) -> bool
    requires row_bound { (row.0 < row_count table.now) × (row_count table.now ≤ MOST_ROWS) }
    requires table_in_bounds { (NOTES * row_count table.now ≤ length notes.now) × (TOPS * note_at notes.now row.0 LOCAL_NAME + TOPS ≤ length tops.now) }
    ensures { result ≡ is_open table.now notes.now tops.now element.0 row.0 }
{
    if rows::kind(table, row) == rules::DECLARATION {
        let owner = rows::parent(table, row);
        let value = notes::name(notes, row, notes::VALUE);
        let nearest = stacks::nearest(tops, notes::name(notes, row, notes::LOCAL_NAME));
        return (owner.0 != element.0) & (value.0 != 0) & (nearest.0 == notes::position_of(row).0);
    }
    false
}
