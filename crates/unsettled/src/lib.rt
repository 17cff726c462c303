// Of the rows that are flagged, the lowest whose name does not mean its URI in scope: what refusals 23 and 44 ask. The
// stacks of what is in scope go through the rows in row order.
#![tactic(auto)]

ghost use Rattle.std.specs.Prelude.{◌≡◌, true, List, ℕ, ◌≤◌, ◌<◌, length};
ghost use Rattle.rules.specs.Table.{row_count, nodes};
ghost use Rattle.stacks.specs.Stacks.{Untouched};
ghost use Rattle.scopes.specs.Standing.{Standing, Ready};
ghost use Rattle.flags.specs.Named.{is_named};
ghost use Rattle.row_meanings.specs.Tests.{place_of};
ghost use Rattle.unsettled.specs.Walkable.{Walkable};
ghost use Rattle.unsettled.specs.Lowest.{NoneBefore, Lowest, unmeant};

use rules::{Position, Row};

// The lowest row that is flagged, is an element or an owned attribute, and does not mean its URI in scope; NONE where
// there is none. The arrays stand at a position.
pub fn lowest_unsettled(
    table: &[u32],
    notes: &[u16],
    tops: &mut [u16],
    path: &mut [u16],
    flags: &[u16],
    from: Position,
) -> Row
    requires by_index { (pool : List ℕ) × Walkable table.now pool notes.now tops.old path.old }
    requires standing { (Standing table.now notes.now tops.old path.old from.0) × (from.0 ≤ row_count table.now) }
    requires table_in_bounds { row_count table.now ≤ length flags.now }
    ensures { (pool : List ℕ) → Walkable table.now pool notes.now tops.old path.old → Lowest (unmeant (nodes table.now pool) flags.now) (row_count table.now) result.0 }
{
    lowest_from(table, notes, tops, path, flags, from, Row(0))
}

// The same, where no row before the first one is such a row.
pub fn lowest_from(
    table: &[u32],
    notes: &[u16],
    tops: &mut [u16],
    path: &mut [u16],
    flags: &[u16],
    from: Position,
    first: Row,
) -> Row
    requires by_index { (pool : List ℕ) × Walkable table.now pool notes.now tops.old path.old }
    requires standing { (Standing table.now notes.now tops.old path.old from.0) × (from.0 ≤ row_count table.now) }
    requires table_in_bounds { row_count table.now ≤ length flags.now }
    ensures { (pool : List ℕ) → Walkable table.now pool notes.now tops.old path.old → NoneBefore (unmeant (nodes table.now pool) flags.now) (row_count table.now) first.0 → Lowest (unmeant (nodes table.now pool) flags.now) (row_count table.now) result.0 }
{
    let mut position = from.0;
    let rows = rows::row_count(table) as u32;
    for r in first.0..rows {
        position = follow(table, notes, tops, path, flags, Row(r), Position(position)).0;
        if row_meanings::is_unsettled(table, notes, tops, path, flags, Row(r)) {
            return Row(r);
        }
    }
    Row(rules::NONE)
}

// Goes from a position to the element in whose scope the name of a row stands, if the row is flagged and
// has one. Answers where the arrays stand then.
fn follow(
    table: &[u32],
    notes: &[u16],
    tops: &mut [u16],
    path: &mut [u16],
    flags: &[u16],
    row: Row,
    from: Position,
) -> Position
    requires ready { Ready table.now notes.now tops.old path.old }
    requires standing { (Standing table.now notes.now tops.old path.old from.0) × (from.0 ≤ row_count table.now) }
    requires row_bound { (row.0 < row_count table.now) × (row_count table.now ≤ length flags.now) }
    ensures standing_2 { (Standing table.now notes.now tops.new path.new result.0) × (result.0 ≤ row_count table.now) }
    ensures result_value { is_named table.now flags.now row.0 ≡ true → result.0 ≡ place_of table.now row.0 }
    ensures untouched { Untouched path.old path.new }
{
    if flags::is_named(table, flags, row) {
        let to = row_meanings::place_of(table, row);
        moves::go(table, notes, tops, path, from, to);
        return to;
    }
    from
}
