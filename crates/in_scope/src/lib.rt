// What is in scope along a path of elements by declarations alone: the URI of a prefix, and a prefix of a URI. Names are asked
// for by their numbers. A row that is not there is NONE.
#![tactic(auto)]

ghost use Rattle.std.specs.Prelude.{◌≡◌, false, List, ℕ, ◌<◌};
ghost use Rattle.rules.specs.Lists.{first_that, same_bytes};
ghost use Rattle.rules.specs.Table.{TYPE, DECLARATION, xml_uri, word, nodes, node_at, row_count};
ghost use Rattle.rules.specs.Lookups.{own_declarations, scope_of, in_scope_uri, serves, in_scope_prefix, bound};
ghost use Rattle.rows.specs.Reading.{found};
ghost use Rattle.ancestors.specs.Paths.{Element};
ghost use Rattle.declarations.specs.Along.{Along};
ghost use Rattle.declarations.specs.Meant.{Meant};

use rules::{Bound, NameId, Position, Row};

// The in-scope URI of a prefix that has this number, or of the default.
pub fn in_scope_uri(
    table: &[u32],
    notes: &[u16],
    path: &[u32],
    prefix: &[u8],
    number: NameId,
) -> Option<Bound>
    requires { Along table.now notes.now path.now }
    ensures { (pool : List ℕ) → Meant table.now pool notes.now number.0 prefix.now → result ≡ bound (in_scope_uri (scope_of (nodes table.now pool) path.now) prefix.now) }
{
    if built_ins::is_xml(prefix) {
        return Some(Bound::Xml);
    }
    if built_ins::is_xmlns(prefix) {
        return Some(Bound::Xmlns);
    }
    let row = declarations::nearest(table, notes, path, number);
    if declarations::value_of(table, notes, row).0 == 0 {
        return None;
    }
    Some(Bound::At(rows::place(table, row, rules::VALUE)))
}

// The in-scope prefix of a URI that has this number.
pub fn in_scope_prefix(
    table: &[u32],
    notes: &[u16],
    path: &[u32],
    uri: &[u8],
    number: NameId,
) -> Option<Bound>
    requires { Along table.now notes.now path.now }
    ensures { (pool : List ℕ) → Meant table.now pool notes.now number.0 uri.now → result ≡ bound (in_scope_prefix (scope_of (nodes table.now pool) path.now) uri.now) }
{
    if uri.len() == 0 {
        return None;
    }
    if built_ins::is_xml_uri(uri) {
        return Some(Bound::Xml);
    }
    if built_ins::is_xmlns_uri(uri) {
        return Some(Bound::Xmlns);
    }
    let row = serving(table, notes, path, number);
    if rows::has_row(table, row) {
        return Some(Bound::At(rows::place(table, row, rules::LOCAL_NAME)));
    }
    None
}

// The first declaration along a path that gives a URI a prefix which no nearer declaration rebinds. The
// URI is not that of xml, which no declaration but xml's own has.
fn serving(table: &[u32], notes: &[u16], path: &[u32], uri: NameId) -> Row
    requires { Along table.now notes.now path.now }
    ensures { (pool name : List ℕ) → Meant table.now pool notes.now uri.0 name → same_bytes name xml_uri ≡ false → found (nodes table.now pool) result.0 ≡ first_that (serves (scope_of (nodes table.now pool) path.now) name) (scope_of (nodes table.now pool) path.now) }
{
    for element in path {
        let declaration = own_serving(table, notes, path, Row(*element), uri);
        if rows::has_row(table, declaration) {
            return declaration;
        }
    }
    Row(rules::NONE)
}

// The first of an element's own declarations that serves along the path.
fn own_serving(table: &[u32], notes: &[u16], path: &[u32], element: Row, uri: NameId) -> Row
    requires along { Along table.now notes.now path.now }
    requires element { Element table.now element.0 }
    ensures { (pool name : List ℕ) → Meant table.now pool notes.now uri.0 name → same_bytes name xml_uri ≡ false → found (nodes table.now pool) result.0 ≡ first_that (serves (scope_of (nodes table.now pool) path.now) name) (own_declarations (nodes table.now pool) element.0) }
{
    let e = element.0;
    let wanted = uri.0;
    let mut first = rules::NONE;
    let mut at = notes::link(notes, Row(e), notes::LATEST).0;
    while at > 0 {
        let row = notes::row_at(Position(at));
        let is = serves(table, notes, path, row, NameId(wanted));
        first = declarations::earlier(is, row, Row(first)).0;
        at = notes::link(notes, row, notes::PREVIOUS).0;
    }
    Row(first)
}

// The declaration gives its prefix this URI, and so does what is in scope along the path.
fn serves(table: &[u32], notes: &[u16], path: &[u32], declaration: Row, uri: NameId) -> bool
    requires along { Along table.now notes.now path.now }
    requires declaration_bound { (declaration.0 < row_count table.now) × (word table.now declaration.0 TYPE ≡ DECLARATION) }
    ensures { (pool name : List ℕ) → Meant table.now pool notes.now uri.0 name → same_bytes name xml_uri ≡ false → result ≡ serves (scope_of (nodes table.now pool) path.now) name (node_at table.now pool declaration.0) }
{
    if notes::name(notes, declaration, notes::VALUE).0 == uri.0 {
        let prefix = notes::name(notes, declaration, notes::LOCAL_NAME);
        if prefix.0 == 0 {
            return false;
        }
        return declarations::value_of(
            table,
            notes,
            declarations::nearest(table, notes, path, prefix),
        )
        .0 == uri.0;
    }
    false
}
