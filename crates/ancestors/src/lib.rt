// The elements that a row lies in, from the nearest outward, as a path: an array of their row numbers.
// No such element is NONE.
#![tactic(auto)]

ghost use Rattle.std.specs.Prelude.{◌≡◌, ◌&&◌, List, ℕ, ◌<◌, ◌≤◌, length, take, eqb};
ghost use Rattle.rules.specs.Table.{NONE, TYPE, PARENT, nodes, row_count, word, is_element};
ghost use Rattle.rules.specs.Lookups.{elements_from, ancestor_element, element_child, start_element, lookup_elements};
ghost use Rattle.rows.specs.Reading.{row_or};
ghost use Rattle.climbing.specs.Steps.{path_with};
ghost use Rattle.ancestors.specs.Paths.{PathOf};

use rules::Row;

// The elements that a lookup from the row goes through: its start element and outward. Answers how
// many there are.
pub fn lookup_elements(table: &[u32], row: Row, path: &mut [u32]) -> usize
    requires row_bound { row.0 < row_count table.now }
    requires table_in_bounds { (row_count table.now ≤ length path.old) × (row_count table.now ≤ NONE) }
    ensures path_of { PathOf table.now path.new result }
    ensures by_index { (pool : List ℕ) → take result path.new ≡ lookup_elements (nodes table.now pool) row.0 }
{
    let first = start(table, row);
    if rows::has_row(table, first) {
        return collect(table, first, path, 0);
    }
    0
}

// The nearest ancestor element.
fn ancestor(table: &[u32], row: Row) -> Row
    requires { row.0 < row_count table.now }
    ensures { (pool : List ℕ) → result.0 ≡ row_or (ancestor_element (nodes table.now pool) row.0) }
{
    let parent = rows::parent(table, row);
    if parent.0 < row.0 {
        let mut path = [rules::NONE; 1];
        if collect(table, parent, &mut path, 0) == 1 {
            return rows::row_at(&path, 0);
        }
    }
    Row(rules::NONE)
}

// The element that a lookup from the row starts at.
fn start(table: &[u32], row: Row) -> Row
    requires { (row.0 < row_count table.now) × (row_count table.now ≤ NONE) }
    ensures { (pool : List ℕ) → result.0 ≡ row_or (start_element (nodes table.now pool) row.0) }
{
    let kind = rows::kind(table, row);
    match kind {
        rules::ELEMENT | rules::LEVEL1_ELEMENT => row,
        rules::ATTRIBUTE | rules::DECLARATION | rules::LEVEL1_ATTRIBUTE => rows::parent(table, row),
        rules::DOCUMENT => element_child(table, row),
        rules::ENTITY | rules::DOCUMENT_TYPE | rules::NOTATION => Row(rules::NONE),
        rules::DOCUMENT_FRAGMENT => Row(rules::NONE),
        _ => ancestor(table, row),
    }
}

// The element child of a document.
pub fn element_child(table: &[u32], row: Row) -> Row
    requires { row_count table.now ≤ NONE }
    ensures { (pool : List ℕ) → result.0 ≡ row_or (element_child (nodes table.now pool) row.0) }
{
    let rows = rows::row_count(table) as u32;
    let child = (0..rows).find(|child| is_element_child(table, Row(*child), row));
    Row(child.unwrap_or(rules::NONE))
}

// The child is an element and its parent is the row.
fn is_element_child(table: &[u32], child: Row, row: Row) -> bool
    requires { child.0 < row_count table.now }
    ensures { result ≡ (is_element (word table.now child.0 TYPE) && eqb (word table.now child.0 PARENT) row.0) }
{
    if rows::is_element(rows::kind(table, child)) {
        return rows::parent(table, child).0 == row.0;
    }
    false
}

// Writes the row, if it is an element, and the elements outward from it behind the first places of the
// path, as many as it has room for. Answers how many places are taken then. A call makes two steps, so
// that a climb takes half the stack that it would with one.
fn collect(table: &[u32], row: Row, path: &mut [u32], count: usize) -> usize
    requires { (row.0 < row_count table.now) × (count < length path.old) }
    ensures upper_bound { result ≤ length path.new }
    ensures by_index { (pool : List ℕ) → take result path.new ≡ path_with path.old count (elements_from (nodes table.now pool) row.0) }
{
    let first = climbing::step(table, row, path, count);
    if first.row.0 < row.0 {
        let second = climbing::step(table, first.row, path, first.taken);
        if second.row.0 < first.row.0 {
            return collect(table, second.row, path, second.taken);
        }
        return second.taken;
    }
    first.taken
}
