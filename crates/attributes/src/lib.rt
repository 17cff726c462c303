// The attributes of each element in row order, as links in the notes of the rows.
#![tactic(auto)]

ghost use Rattle.std.specs.Prelude.{◌≡◌, ℕ, ◌+◌, ◌≤◌, ◌<◌};
ghost use Rattle.rules.specs.Table.{MOST_ROWS, row_count};
ghost use Rattle.notes.specs.Notes.{FIRST, note_at, HasNotes};
ghost use Rattle.attributes.specs.Following.{LinkedFrom, SameBefore};

use rules::Row;

// Links the attributes of a table, from notes that have no first one of any row.
pub fn link_attributes(table: &[u32], notes: &mut [u16])
    requires table_bound { (row_count table.now ≤ MOST_ROWS) × HasNotes notes.old (row_count table.now) }
    requires by_index { (e : ℕ) → e < row_count table.now → note_at notes.old e FIRST ≡ 0 }
    ensures linked_from { LinkedFrom table.now notes.new (row_count table.now) 0 }
    ensures same_before { SameBefore FIRST notes.old notes.new }
{
    for r in (0..rows::row_count(table) as u32).rev() {
        link(table, notes, Row(r));
    }
}

// Links a row before its owner's later attributes, if it is an attribute and its owner is a row of the
// table.
fn link(table: &[u32], notes: &mut [u16], row: Row)
    requires table_bound { (row_count table.now ≤ MOST_ROWS) × HasNotes notes.old (row_count table.now) }
    requires row_bound { row.0 < row_count table.now }
    requires linked_from { LinkedFrom table.now notes.old (row_count table.now) (row.0 + 1) }
    ensures linked_from_2 { LinkedFrom table.now notes.new (row_count table.now) row.0 }
    ensures same_before { SameBefore FIRST notes.old notes.new }
{
    if rows::kind(table, row) == rules::ATTRIBUTE {
        let owner = rows::parent(table, row);
        if rows::has_row(table, owner) {
            let next = notes::link(notes, owner, notes::FIRST);
            notes::set_link(notes, row, notes::NEXT, next);
            notes::set_link(notes, owner, notes::FIRST, notes::position_of(row));
        }
    }
}
