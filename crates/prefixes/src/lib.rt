// What the lookups that see elements' own names find along a path, from its first element outward: here
// the prefix of a URI. Names are asked for by their numbers.
#![tactic(auto)]

ghost use Rattle.std.specs.Prelude.{◌≡◌, ◌&&◌, not, List, ℕ, ◌<◌};
ghost use Rattle.rules.specs.Lists.{first_that, is_empty, same_bytes};
ghost use Rattle.rules.specs.Table.{TYPE, DECLARATION, xml_uri, nodes, node_at, word, row_count};
ghost use Rattle.rules.specs.Lookups.{own_declarations, leads_to, names_prefix, gives_prefix, prefix_of_uri, or_unbound, bound};
ghost use Rattle.rows.specs.Reading.{found};
ghost use Rattle.ancestors.specs.Paths.{Element};
ghost use Rattle.declarations.specs.Meant.{Meant};
ghost use Rattle.deciders.specs.Deciding.{Started, Together};

use rules::{Bound, NameId, Position, Row};

// The prefix of a URI that has this number. The empty URI has none.
pub fn prefix_of_uri(
    table: &[u32],
    notes: &[u16],
    path: &[u32],
    uri: &[u8],
    number: NameId,
) -> Option<Bound>
    requires { Started table.now notes.now path.now }
    ensures { (pool : List ℕ) → Meant table.now pool notes.now number.0 uri.now → result ≡ bound (or_unbound (prefix_of_uri (nodes table.now pool) uri.now path.now)) }
{
    if number.0 == 0 {
        return None;
    }
    let xml = built_ins::is_xml_uri(uri);
    for element in path {
        let element = Row(*element);
        if names_prefix(table, notes, path, element, number, xml) {
            return Some(Bound::At(rows::place(table, element, rules::PREFIX)));
        }
        let own = own_giving(table, notes, path, element, number, xml);
        if rows::has_row(table, own) {
            return Some(Bound::At(rows::place(table, own, rules::LOCAL_NAME)));
        }
    }
    None
}

// The element's own prefix answers for the URI. Here and below, xml says whether the URI is that of xml.
fn names_prefix(
    table: &[u32],
    notes: &[u16],
    path: &[u32],
    element: Row,
    uri: NameId,
    xml: bool,
) -> bool
    requires started { Started table.now notes.now path.now }
    requires element_bound { element.0 < row_count table.now }
    ensures { (pool name : List ℕ) → Meant table.now pool notes.now uri.0 name → xml ≡ same_bytes name xml_uri → result ≡ names_prefix (nodes table.now pool) path.now name (node_at table.now pool element.0) }
{
    let named = rows::kind(table, element) == rules::ELEMENT;
    if named & (notes::name(notes, element, notes::URI).0 == uri.0) {
        let prefix = notes::name(notes, element, notes::PREFIX);
        return leads_to(table, notes, path, prefix, uri, xml);
    }
    false
}

// The first of an element's own declarations whose prefix answers for the URI.
fn own_giving(
    table: &[u32],
    notes: &[u16],
    path: &[u32],
    element: Row,
    uri: NameId,
    xml: bool,
) -> Row
    requires started { Started table.now notes.now path.now }
    requires element { Element table.now element.0 }
    ensures { (pool name : List ℕ) → Meant table.now pool notes.now uri.0 name → xml ≡ same_bytes name xml_uri → found (nodes table.now pool) result.0 ≡ first_that (gives_prefix (nodes table.now pool) path.now name) (own_declarations (nodes table.now pool) element.0) }
{
    let e = element.0;
    let wanted = uri.0;
    let mut first = rules::NONE;
    let mut at = notes::link(notes, Row(e), notes::LATEST).0;
    while at > 0 {
        let row = notes::row_at(Position(at));
        let is = gives_prefix(table, notes, path, row, NameId(wanted), xml);
        first = declarations::earlier(is, row, Row(first)).0;
        at = notes::link(notes, row, notes::PREVIOUS).0;
    }
    Row(first)
}

// The declaration's prefix answers for the URI.
fn gives_prefix(
    table: &[u32],
    notes: &[u16],
    path: &[u32],
    declaration: Row,
    uri: NameId,
    xml: bool,
) -> bool
    requires started { Started table.now notes.now path.now }
    requires declaration_bound { (declaration.0 < row_count table.now) × (word table.now declaration.0 TYPE ≡ DECLARATION) }
    ensures { (pool name : List ℕ) → Meant table.now pool notes.now uri.0 name → xml ≡ same_bytes name xml_uri → result ≡ gives_prefix (nodes table.now pool) path.now name (node_at table.now pool declaration.0) }
{
    if notes::name(notes, declaration, notes::VALUE).0 == uri.0 {
        let prefix = notes::name(notes, declaration, notes::LOCAL_NAME);
        return leads_to(table, notes, path, prefix, uri, xml);
    }
    false
}

// The prefix is not empty, and its URI, looked up along the whole path, is this one; that of xml is built in.
fn leads_to(
    table: &[u32],
    notes: &[u16],
    path: &[u32],
    prefix: NameId,
    uri: NameId,
    xml: bool,
) -> bool
    requires { Started table.now notes.now path.now }
    ensures { (pool name other : List ℕ) → Meant table.now pool notes.now uri.0 name → Meant table.now pool notes.now prefix.0 other → Together xml other name → result ≡ (not (is_empty other) && leads_to (nodes table.now pool) path.now name other) }
{
    if prefix.0 == 0 {
        return false;
    }
    if xml {
        return true;
    }
    deciders::uri_number(table, notes, outward::deciding(table, notes, path, prefix)).0 == uri.0
}
