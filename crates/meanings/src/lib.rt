// What the names of a subtree mean in scope, and what it inherits: refusals 23 and 24. The
// stacks of what is in scope go through the rows in row order. Where no row of the whole table is refused, which is the
// usual case, one pass tells.
#![tactic(auto)]

ghost use Rattle.std.specs.Prelude.{◌≡◌, true, false, List, [], ◌∷◌, ℕ, ◌+◌, ◌*◌, ◌≤◌, ◌<◌, length};
ghost use Rattle.rules.specs.Table.{MOST_ROWS, TYPE, row_count, nodes, node, word, is_element};
ghost use Rattle.rules.specs.Refusals.{first_refusal, verdict};
ghost use Rattle.rules.specs.declared.Refusal.{Refusal};
ghost use Rattle.notes.specs.Notes.{NOTES, LOCAL_NAME, note_at};
ghost use Rattle.scopes.specs.Standing.{Standing};
ghost use Rattle.stacks.specs.Stacks.{TOPS, NUMBERED, under_at};
ghost use Rattle.markup.specs.Writing.{lowest_row, is_inherited};
ghost use Rattle.subtree.specs.Flags.{Flagged};
ghost use Rattle.near_rows.specs.Outward.{is_leaf, Noted};
ghost use Rattle.unsettled.specs.Walkable.{Walkable};
ghost use Rattle.meanings.specs.Names.{undeclared};
ghost use Rattle.meanings.specs.Writable.{WritableTo};

use rules::{Position, Refusal, Row};

// The first row that is neither a document nor of a type that is written, or whose name does not mean its URI in scope there;
// NONE where there is none. The arrays stand at no row, before and after. Where a row declares nothing,
// they stand at it already if they stand at the row that it lies in: they only move between rows that
// declare something.
pub fn first_unwritable(table: &[u32], notes: &[u16], tops: &mut [u16], path: &mut [u16]) -> Row
    requires by_index { (pool : List ℕ) × Walkable table.now pool notes.now tops.old path.old }
    requires standing { Standing table.now notes.now tops.old path.old 0 }
    ensures by_index_2 { (pool : List ℕ) → Walkable table.now pool notes.now tops.old path.old → WritableTo table.now pool result.0 }
    ensures standing_2 { Standing table.now notes.now tops.new path.new 0 }
    ensures path_unchanged { under_at path.new NUMBERED 0 ≡ under_at path.old NUMBERED 0 }
{
    let mut position: u16 = 0;
    let rows = rows::row_count(table) as u32;
    for r in 0..rows {
        position = approach(table, notes, tops, path, Row(r), Position(position)).0;
        if !row_meanings::is_writable(table, notes, tops, path, Row(r)) {
            moves::go(table, notes, tops, path, Position(position), Position(0));
            return Row(r);
        }
    }
    moves::go(table, notes, tops, path, Position(position), Position(0));
    Row(rules::NONE)
}

// Goes from a position to the nearest row outward from a row that declares something, unless the row is
// a leaf, and notes it. Answers where the arrays stand then.
fn approach(
    table: &[u32],
    notes: &[u16],
    tops: &mut [u16],
    path: &mut [u16],
    row: Row,
    from: Position,
) -> Position
    requires by_index { (pool : List ℕ) × Walkable table.now pool notes.now tops.old path.old }
    requires standing { (Standing table.now notes.now tops.old path.old from.0) × (from.0 ≤ row_count table.now) }
    requires row_bound { row.0 < row_count table.now }
    requires noted { Noted table.now notes.now path.old row.0 }
    ensures standing_2 { (Standing table.now notes.now tops.new path.new result.0) × (result.0 ≤ row_count table.now) }
    ensures standing_3 { is_leaf (word table.now row.0 TYPE) ≡ false → Standing table.now notes.now tops.new path.new (row.0 + 1) }
    ensures noted_2 { Noted table.now notes.now path.new (row.0 + 1) }
    ensures path_unchanged { under_at path.new NUMBERED 0 ≡ under_at path.old NUMBERED 0 }
{
    if near_rows::is_leaf(rows::kind(table, row)) {
        return from;
    }
    let to = near_rows::nearest(table, notes, path, row);
    stacks::set_beside(path, notes::position_of(row), to);
    if to.0 == from.0 {
        return to;
    }
    moves::go(table, notes, tops, path, from, to);
    to
}

// Refusals 23 and 24 of the subtree of an element, whose rows are flagged. The rows before the first one are known to be
// writable. The arrays stand at no row.
pub fn check_names(
    table: &[u32],
    notes: &[u16],
    tops: &mut [u16],
    path: &mut [u16],
    flags: &[u16],
    element: Row,
    first: Row,
) -> Result<(), Refusal>
    requires by_index { (pool : List ℕ) × Walkable table.now pool notes.now tops.old path.old }
    requires standing { Standing table.now notes.now tops.old path.old 0 }
    requires element_bound { (element.0 < row_count table.now) × (row_count table.now ≤ length flags.now) }
    ensures { (pool : List ℕ) → Walkable table.now pool notes.now tops.old path.old → Flagged table.now flags.now element.0 (row_count table.now) → is_element (node (nodes table.now pool) element.0).type ≡ true → WritableTo table.now pool first.0 → result ≡ verdict (first_refusal (lowest_row (nodes table.now pool) (undeclared (nodes table.now pool) element.0) Refusal.Undeclared ∷ lowest_row (nodes table.now pool) (is_inherited (nodes table.now pool) element.0) Refusal.Inherited ∷ [])) }
{
    let position = notes::position_of(element);
    moves::go(table, notes, tops, path, Position(0), position);
    let inherited = check_inherited(table, notes, tops, element);
    let row = unsettled::lowest_from(table, notes, tops, path, flags, position, first);
    if rows::has_row(table, row) {
        return Err(Refusal::Undeclared(row));
    }
    inherited
}

// Refusal 24, for the lowest declaration of an ancestor that an element inherits. The arrays stand at
// the element.
fn check_inherited(table: &[u32], notes: &[u16], tops: &[u16], element: Row) -> Result<(), Refusal>
    requires table_bound { (row_count table.now ≤ MOST_ROWS) × (NOTES * row_count table.now ≤ length notes.now) }
    requires by_index { (r : ℕ) → r < row_count table.now → TOPS * note_at notes.now r LOCAL_NAME + TOPS ≤ length tops.now }
    ensures { (pool path : List ℕ) → Walkable table.now pool notes.now tops.now path → Standing table.now notes.now tops.now path (element.0 + 1) → element.0 < row_count table.now → is_element (node (nodes table.now pool) element.0).type ≡ true → result ≡ verdict (lowest_row (nodes table.now pool) (is_inherited (nodes table.now pool) element.0) Refusal.Inherited) }
{
    let e = element.0;
    let rows = rows::row_count(table) as u32;
    for r in 0..rows {
        if inheritance::is_open(table, notes, tops, Row(r), Row(e)) {
            return Err(Refusal::Inherited(Row(r)));
        }
    }
    Ok(())
}
