// What the lookups that see elements' own names find along a path, from its first element outward: here
// the URI of a prefix. Names are asked for by their numbers.
#![tactic(auto)]

ghost use Rattle.std.specs.Prelude.{◌≡◌, List, ℕ};
ghost use Rattle.rules.specs.Table.{nodes};
ghost use Rattle.rules.specs.Lookups.{uri_of_prefix, bound};
ghost use Rattle.rows.specs.Reading.{found};
ghost use Rattle.declarations.specs.Along.{Along};
ghost use Rattle.declarations.specs.Meant.{Meant};
ghost use Rattle.deciders.specs.Deciding.{Started, Ordinary, decided};

use rules::{Bound, NameId, Row};

// The URI of a prefix that has this number, or of the default.
pub fn uri_of_prefix(
    table: &[u32],
    notes: &[u16],
    path: &[u32],
    prefix: &[u8],
    number: NameId,
) -> Option<Bound>
    requires { Started table.now notes.now path.now }
    ensures { (pool : List ℕ) → Meant table.now pool notes.now number.0 prefix.now → result ≡ bound (uri_of_prefix (nodes table.now pool) prefix.now path.now) }
{
    if built_ins::is_xml(prefix) {
        return Some(Bound::Xml);
    }
    if built_ins::is_xmlns(prefix) {
        return Some(Bound::Xmlns);
    }
    let row = deciding(table, notes, path, number);
    if deciders::uri_number(table, notes, row).0 == 0 {
        return None;
    }
    if rows::kind(table, row) == rules::DECLARATION {
        return Some(Bound::At(rows::place(table, row, rules::VALUE)));
    }
    Some(Bound::At(rows::place(table, row, rules::URI)))
}

// The row that decides the URI of a prefix that is not built in: an element by its own name, or a declaration.
pub fn deciding(table: &[u32], notes: &[u16], path: &[u32], prefix: NameId) -> Row
    requires { Along table.now notes.now path.now }
    ensures { (pool name : List ℕ) → Meant table.now pool notes.now prefix.0 name → Ordinary name → decided (found (nodes table.now pool) result.0) ≡ uri_of_prefix (nodes table.now pool) name path.now }
{
    for element in path {
        let element = Row(*element);
        let named = deciders::names_uri(table, notes, element, prefix);
        let own = declarations::own(table, notes, element, prefix);
        let declared = rows::has_row(table, own);
        if named {
            return element;
        }
        if declared {
            return own;
        }
    }
    Row(rules::NONE)
}
