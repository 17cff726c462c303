// The declarations of an element, and those along a path of elements, by the numbers of their names. A row
// that is not there is NONE.
#![tactic(auto)]

ghost use Rattle.std.specs.Prelude.{◌≡◌, cond, List, ℕ, ◌*◌, ◌≤◌, ltb, length};
ghost use Rattle.rules.specs.Lists.{first_that};
ghost use Rattle.rules.specs.Table.{nodes, row_count};
ghost use Rattle.rules.specs.Lookups.{own_declarations, declares, scope_of};
ghost use Rattle.notes.specs.Notes.{NOTES, VALUE, note_at};
ghost use Rattle.rows.specs.Reading.{found};
ghost use Rattle.ancestors.specs.Paths.{Element};
ghost use Rattle.declarations.specs.Along.{Ready, Along};
ghost use Rattle.declarations.specs.Meant.{Meant};

use rules::{NameId, Position, Row};

// An element's own declaration of a prefix.
pub fn own(table: &[u32], notes: &[u16], element: Row, prefix: NameId) -> Row
    requires ready { Ready table.now notes.now }
    requires element { Element table.now element.0 }
    ensures { (pool name : List ℕ) → Meant table.now pool notes.now prefix.0 name → found (nodes table.now pool) result.0 ≡ first_that (declares name) (own_declarations (nodes table.now pool) element.0) }
{
    let e = element.0;
    let wanted = prefix.0;
    let mut first = rules::NONE;
    let mut at = notes::link(notes, Row(e), notes::LATEST).0;
    while at > 0 {
        let row = notes::row_at(Position(at));
        let is = notes::name(notes, row, notes::LOCAL_NAME).0 == wanted;
        first = earlier(is, row, Row(first)).0;
        at = notes::link(notes, row, notes::PREVIOUS).0;
    }
    Row(first)
}

// The nearest declaration of a prefix along a path.
pub fn nearest(table: &[u32], notes: &[u16], path: &[u32], prefix: NameId) -> Row
    requires { Along table.now notes.now path.now }
    ensures { (pool name : List ℕ) → Meant table.now pool notes.now prefix.0 name → found (nodes table.now pool) result.0 ≡ first_that (declares name) (scope_of (nodes table.now pool) path.now) }
{
    for element in path {
        let declaration = own(table, notes, Row(*element), prefix);
        if rows::has_row(table, declaration) {
            return declaration;
        }
    }
    Row(rules::NONE)
}

// The number of the value of a declaration that may be missing; a missing one has the empty value.
pub fn value_of(table: &[u32], notes: &[u16], declaration: Row) -> NameId
    requires { NOTES * row_count table.now ≤ length notes.now }
    ensures { result.0 ≡ cond (ltb declaration.0 (row_count table.now)) (note_at notes.now declaration.0 VALUE) 0 }
{
    if rows::has_row(table, declaration) {
        return notes::name(notes, declaration, notes::VALUE);
    }
    NameId(0)
}

// The row, if it passes; else the one that was found behind it.
pub fn earlier(passes: bool, row: Row, later: Row) -> Row
    ensures { result.0 ≡ cond passes row.0 later.0 }
{
    if passes {
        return row;
    }
    later
}
