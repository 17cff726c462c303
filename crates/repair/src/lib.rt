// The steps of normalization for one element and one attribute, in working buffers: a table of which
// the first rows count, a pool of which the first bytes do, the notes of the rows, and the arrays of the
// path of scopes, which stands at the element. What is in scope is asked by the numbers of names.
#![tactic(auto)]

ghost use Rattle.std.specs.Prelude.{◌≡◌, false, List, ℕ, ◌+◌, ◌≤◌, ◌<◌, length};
ghost use Rattle.rules.specs.Normalization.{repair_attribute};
ghost use Rattle.free_prefixes.specs.Free.{is_free};
ghost use Rattle.working.specs.Working.{AtElement, AtAttribute, AtUnserved, After, AfterAttribute, element_step};

use rules::Row;

// How many rows of the table and bytes of the pool count, how many names have numbers, the NS number that
// the search goes on from, and how many rows are allowed.
#[derive(Clone, Copy)]
pub struct Sizes {
    pub rows: usize,
    pub bytes: usize,
    pub names: u16,
    pub free: u16,
    pub limit: usize,
}

// Steps 1 and 2 for an element. Answers how many rows there are then, one more than the limit where that
// is too many.
pub fn repair_element(
    table: &mut [u32],
    notes: &mut [u16],
    tops: &mut [u16],
    path: &mut [u16],
    element: Row,
    rows: usize,
    limit: usize,
) -> usize
    requires { (pool : List ℕ) × (bytes : ℕ) × (names : ℕ) × AtElement table.old pool notes.old tops.old path.old rows bytes names limit element.0 }
    ensures { (pool : List ℕ) (bytes names : ℕ) (h : AtElement table.old pool notes.old tops.old path.old rows bytes names limit element.0) → After notes.old table.new pool notes.new tops.new path.new result bytes names limit (element.0 + 1) (element_step element.0 h.state) }
{
    if bindings::element_settled(notes, tops, path, element) {
        return rows;
    }
    let own = bindings::own_declaration(&table[..rules::WIDTH * rows], notes, tops, element);
    if own.0 > 0 {
        declaring::set_own(table, notes, tops, path, element, notes::row_at(own), rows);
        return rows;
    }
    declaring::append_own(table, notes, tops, path, element, rows, limit)
}

// Step 3 for an attribute of the element at which the path stands.
pub fn repair_attribute(
    table: &mut [u32],
    pool: &mut [u8],
    notes: &mut [u16],
    tops: &mut [u16],
    path: &mut [u16],
    attribute: Row,
    sizes: Sizes,
) -> Sizes
    requires at_attribute { AtAttribute table.old pool.old notes.old tops.old path.old sizes.rows sizes.bytes sizes.names sizes.limit sizes.free attribute.0 }
    requires bytes_in_bounds { (sizes.bytes + 6 ≤ length pool.old) × (length pool.old < 65536) }
    ensures { (h : AtAttribute table.old pool.old notes.old tops.old path.old sizes.rows sizes.bytes sizes.names sizes.limit sizes.free attribute.0) → AfterAttribute notes.old table.new pool.new notes.new tops.new path.new result.rows result.bytes result.names sizes.limit result.free h.owner (repair_attribute h.owner attribute.0 h.state) }
{
    let rows = sizes.rows;
    let bytes = sizes.bytes;
    if bindings::attribute_settled(notes, tops, path, attribute) {
        return sizes;
    }
    let words = &table[..rules::WIDTH * rows];
    if built_ins::is_xml_uri(rows::field(words, &pool[..bytes], attribute, rules::URI)) {
        let grown = changes::take_xml(table, pool, notes, path, attribute, bytes);
        return Sizes {
            rows,
            bytes: grown,
            names: sizes.names,
            free: sizes.free,
            limit: sizes.limit,
        };
    }
    let uri = notes::name(notes, attribute, notes::URI);
    let found = serving::nearest(notes, tops, path, uri);
    if found.0 > 0 {
        changes::take_prefix(table, notes, attribute, notes::row_at(found), rows);
        return sizes;
    }
    declare_attribute(table, pool, notes, tops, path, attribute, sizes)
}

// Step 3 for an attribute whose URI has no prefix in scope: appends a declaration of its prefix, if that
// is not declared in scope, or of an NS prefix, which it takes.
fn declare_attribute(
    table: &mut [u32],
    pool: &mut [u8],
    notes: &mut [u16],
    tops: &mut [u16],
    path: &mut [u16],
    attribute: Row,
    sizes: Sizes,
) -> Sizes
    requires { AtUnserved table.old pool.old notes.old tops.old path.old sizes.rows sizes.bytes sizes.names sizes.limit sizes.free attribute.0 }
    ensures { (h : AtUnserved table.old pool.old notes.old tops.old path.old sizes.rows sizes.bytes sizes.names sizes.limit sizes.free attribute.0) → AfterAttribute notes.old table.new pool.new notes.new tops.new path.new result.rows result.bytes result.names sizes.limit result.free h.at.owner (repair_attribute h.at.owner attribute.0 h.at.state) }
{
    let rows = sizes.rows;
    let limit = sizes.limit;
    if limit <= rows {
        return Sizes {
            rows: limit + 1,
            bytes: sizes.bytes,
            names: sizes.names,
            free: sizes.free,
            limit,
        };
    }
    if free_prefixes::is_free(notes, tops, attribute) {
        declaring::append_on_top(table, notes, tops, path, attribute, rows);
        return Sizes {
            rows: rows + 1,
            bytes: sizes.bytes,
            names: sizes.names,
            free: sizes.free,
            limit,
        };
    }
    number_attribute(table, pool, notes, tops, path, attribute, sizes)
}

// Gives an attribute the NS prefix of the least number that is free in scope, and appends its
// declaration.
fn number_attribute(
    table: &mut [u32],
    pool: &mut [u8],
    notes: &mut [u16],
    tops: &mut [u16],
    path: &mut [u16],
    attribute: Row,
    sizes: Sizes,
) -> Sizes
    requires at_unserved { AtUnserved table.old pool.old notes.old tops.old path.old sizes.rows sizes.bytes sizes.names sizes.limit sizes.free attribute.0 }
    requires rows_lt_limit { (sizes.rows < sizes.limit) × (is_free notes.old tops.old attribute.0 ≡ false) }
    ensures { (h : AtUnserved table.old pool.old notes.old tops.old path.old sizes.rows sizes.bytes sizes.names sizes.limit sizes.free attribute.0) → AfterAttribute notes.old table.new pool.new notes.new tops.new path.new result.rows result.bytes result.names sizes.limit result.free h.at.owner (repair_attribute h.at.owner attribute.0 h.at.state) }
{
    let rows = sizes.rows;
    let names = sizes.names;
    let k = free_prefixes::least_unused(tops, path, sizes.free);
    let number = free_prefixes::number_for(path, k, names);
    let bytes = changes::take_numbered(table, pool, notes, attribute, k, number, sizes.bytes);
    declaring::append_on_top(table, notes, tops, path, attribute, rows);
    Sizes {
        rows: rows + 1,
        bytes,
        names: names.max(number.0),
        free: k,
        limit: sizes.limit,
    }
}
