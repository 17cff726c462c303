// The nearest row outward that declares something, as a pass over the rows notes it: where a row declares nothing, what is in
// scope at it is what is in scope there.
#![tactic(auto)]

ghost use Rattle.std.specs.Prelude.{◌≡◌, List, ℕ, ◌+◌, ◌<◌};
ghost use Rattle.rules.specs.Table.{PARENT, row_count, word};
ghost use Rattle.scopes.specs.Standing.{Ready};
ghost use Rattle.near_rows.specs.Outward.{is_leaf, near_at, Near};

use rules::{Position, Row};

// The position of the nearest row outward from a row, itself included, that declares something; 0 where
// there is none. That of the row that it lies in is noted beside its position.
pub fn nearest(table: &[u32], notes: &[u16], path: &[u16], row: Row) -> Position
    requires by_index { (tops : List ℕ) × Ready table.now notes.now tops path.now }
    requires row_bound { row.0 < row_count table.now }
    requires near { word table.now row.0 PARENT < row.0 → Near table.now notes.now (near_at path.now (word table.now row.0 PARENT)) (word table.now row.0 PARENT + 1) }
    ensures { Near table.now notes.now result.0 (row.0 + 1) }
{
    if notes::link(notes, row, notes::LATEST).0 != 0 {
        return notes::position_of(row);
    }
    let parent = rows::parent(table, row);
    if parent.0 < row.0 {
        return stacks::beside(path, notes::position_of(parent));
    }
    Position(0)
}

// Texts and declarations hold no rows and own none.
pub fn is_leaf(kind: u32) -> bool
    ensures { result ≡ is_leaf kind }
{
    (kind == rules::TEXT) | (kind == rules::DECLARATION)
}
