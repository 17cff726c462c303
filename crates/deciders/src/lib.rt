// Rows that decide the URI of a prefix: an element by its own name, a declaration by its value.
#![tactic(auto)]

ghost use Rattle.std.specs.Prelude.{◌≡◌, List, ℕ, ◌*◌, ◌≤◌, ◌<◌, length};
ghost use Rattle.rules.specs.Table.{node_at, row_count};
ghost use Rattle.rules.specs.Lookups.{names_uri};
ghost use Rattle.notes.specs.Notes.{NOTES};
ghost use Rattle.declarations.specs.Meant.{Meant};
ghost use Rattle.deciders.specs.Deciding.{decided_number};

use rules::{NameId, Row};

// The number of the URI that a row decides; that of the empty one, if the row is missing.
pub fn uri_number(table: &[u32], notes: &[u16], row: Row) -> NameId
    requires { NOTES * row_count table.now ≤ length notes.now }
    ensures { result.0 ≡ decided_number table.now notes.now row.0 }
{
    if rows::has_row(table, row) {
        if rows::kind(table, row) == rules::DECLARATION {
            return notes::name(notes, row, notes::VALUE);
        }
        return notes::name(notes, row, notes::URI);
    }
    NameId(0) // nothing equals empty
}

// The element's own name answers for the prefix.
pub fn names_uri(table: &[u32], notes: &[u16], element: Row, prefix: NameId) -> bool
    requires { (element.0 < row_count table.now) × (NOTES * row_count table.now ≤ length notes.now) }
    ensures { (pool name : List ℕ) → Meant table.now pool notes.now prefix.0 name → result ≡ names_uri name (node_at table.now pool element.0) }
{
    (rows::kind(table, element) == rules::ELEMENT)
        & (notes::name(notes, element, notes::URI).0 != 0)
        & (notes::name(notes, element, notes::PREFIX).0 == prefix.0)
}
