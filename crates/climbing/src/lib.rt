// One step of the climb from a row outward, which writes the elements that it comes to to a path: an array of their row numbers.
#![tactic(auto)]

ghost use Rattle.std.specs.Prelude.{◌≡◌, cond, ◌&&◌, ◌||◌, ◌+◌, ◌<◌, length, set, eqb, ltb};
ghost use Rattle.rules.specs.Table.{ENTITY_REFERENCE, row_count, is_element};
ghost use Rattle.climbing.specs.Steps.{Stepped};

use rules::Row;

// Where a climb stands after a step: at the row that it goes on to, or at the same one where it ends; and
// how many places of the path are taken.
#[derive(Clone, Copy)]
pub struct Reached {
    pub row: Row,
    pub taken: usize,
}

// Writes the row, if it is an element, and goes on to its parent, if it leads there and the path has a
// place left.
pub fn step(table: &[u32], row: Row, path: &mut [u32], count: usize) -> Reached
    requires { (row.0 < row_count table.now) × (count < length path.old) }
    ensures { Stepped table.now path.old row.0 count path.new result.row.0 result.taken }
{
    let kind = rows::kind(table, row);
    let parent = rows::parent(table, row);
    let taken = enter(kind, row, path, count);
    if leads_out(kind, row, parent) {
        if taken < path.len() {
            return Reached { row: parent, taken };
        }
    }
    Reached { row, taken }
}

// Writes the row to the next place of the path, if it is an element.
fn enter(kind: u32, row: Row, path: &mut [u32], count: usize) -> usize
    requires { count < length path.old }
    ensures value { result ≡ cond (is_element kind) (count + 1) count }
    ensures path_after { path.new ≡ cond (is_element kind) (set path.old count row.0) path.old }
{
    if rows::is_element(kind) {
        path[count] = row.0;
        return count + 1;
    }
    count
}

// The climb goes on from the row to its parent: over elements and entity references.
fn leads_out(kind: u32, row: Row, parent: Row) -> bool
    ensures { result ≡ ((is_element kind || eqb kind ENTITY_REFERENCE) && ltb parent.0 row.0) }
{
    (rows::is_element(kind) | (kind == rules::ENTITY_REFERENCE)) & (parent.0 < row.0)
}
