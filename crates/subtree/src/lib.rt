// The element that is written, and the rows of its subtree.
#![tactic(auto)]

ghost use Rattle.std.specs.Prelude.{◌≡◌, List, ℕ, ◌+◌, ◌≤◌, ◌<◌, length};
ghost use Rattle.rules.specs.Table.{MOST_ROWS, row_count, nodes};
ghost use Rattle.rows.specs.Reading.{row_or};
ghost use Rattle.markup.specs.Writing.{element_to_write, in_subtree};
ghost use Rattle.subtree.specs.Flags.{Flagged};

use rules::Row;

// The element that is written: an element row itself, or a document's element; NONE where there is none.
pub fn element_to_write(table: &[u32], row: Row) -> Row
    requires { (row.0 < row_count table.now) × (row_count table.now ≤ MOST_ROWS) }
    ensures { (pool : List ℕ) → result.0 ≡ row_or (element_to_write (nodes table.now pool) row.0) }
{
    let kind = rows::kind(table, row);
    if rows::is_element(kind) {
        return row;
    }
    if kind == rules::DOCUMENT {
        return ancestors::element_child(table, row);
    }
    Row(rules::NONE)
}

// Flags the rows of the subtree of an element.
pub fn flag_all(table: &[u32], flags: &mut [u16], element: Row)
    requires { (row_count table.now ≤ MOST_ROWS) × (row_count table.now ≤ length flags.old) }
    ensures { Flagged table.now flags.new element.0 (row_count table.now) }
{
    let e = element.0;
    let rows = rows::row_count(table) as u32;
    for r in 0..rows {
        flag(table, flags, Row(r), Row(e));
    }
}

// Flags a row; the rows before it have their flags.
fn flag(table: &[u32], flags: &mut [u16], row: Row, element: Row)
    requires row_bound { (row.0 < row_count table.now) × (row_count table.now ≤ length flags.old) }
    requires flagged { Flagged table.now flags.old element.0 row.0 }
    ensures { Flagged table.now flags.new element.0 (row.0 + 1) }
{
    let at = row.0 as usize;
    if is_inside(table, flags, row, element) {
        flags[at] = 1;
    } else {
        flags[at] = 0;
    }
}

// The row is the element, or its parent is in the subtree.
fn is_inside(table: &[u32], flags: &[u16], row: Row, element: Row) -> bool
    requires row_bound { (row.0 < row_count table.now) × (row_count table.now ≤ length flags.now) }
    requires flagged { Flagged table.now flags.now element.0 row.0 }
    ensures { (pool : List ℕ) → result ≡ in_subtree (nodes table.now pool) element.0 row.0 }
{
    if row.0 == element.0 {
        return true;
    }
    let parent = rows::parent(table, row);
    if parent.0 < row.0 {
        return flags::is_flagged(flags, parent);
    }
    false
}
