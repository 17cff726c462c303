// Going from one row to another with the arrays that hold what is in scope: which rows are left, and
// which are entered. A position is a row counted from 1; 0 is no row.
#![tactic(auto)]

ghost use Rattle.std.specs.Prelude.{◌≤◌, ◌<◌};
ghost use Rattle.rules.specs.Table.{row_count};
ghost use Rattle.stacks.specs.Stacks.{Untouched};
ghost use Rattle.scopes.specs.Standing.{Standing, Ready};

use rules::Position;

// Goes from the position where the arrays stand to another one.
pub fn go(
    table: &[u32],
    notes: &[u16],
    tops: &mut [u16],
    path: &mut [u16],
    from: Position,
    to: Position,
)
    requires ready { Ready table.now notes.now tops.old path.old }
    requires from_bound { (from.0 ≤ row_count table.now) × (to.0 ≤ row_count table.now) }
    requires standing { Standing table.now notes.now tops.old path.old from.0 }
    ensures standing_2 { Standing table.now notes.now tops.new path.new to.0 }
    ensures untouched { Untouched path.old path.new }
{
    let at = ways::retreat(table, notes, tops, path, from, to);
    if at.0 < to.0 {
        let above = scopes::up(table, to);
        let at = ways::retreat(table, notes, tops, path, at, above);
        if at.0 < above.0 {
            ways::descend(table, notes, tops, path, at, to);
        } else {
            scopes::enter(table, notes, tops, path, to);
        }
    }
}

// Goes to a later position, as from one element of a table to the next: rows are left once, until the way
// to it begins.
pub fn forward(
    table: &[u32],
    notes: &[u16],
    tops: &mut [u16],
    path: &mut [u16],
    from: Position,
    to: Position,
)
    requires ready { Ready table.now notes.now tops.old path.old }
    requires from_lt_to { (from.0 < to.0) × (to.0 ≤ row_count table.now) }
    requires standing { Standing table.now notes.now tops.old path.old from.0 }
    ensures standing_2 { Standing table.now notes.now tops.new path.new to.0 }
    ensures untouched { Untouched path.old path.new }
{
    let above = scopes::up(table, to);
    let at = ways::retreat(table, notes, tops, path, from, above);
    if at.0 < above.0 {
        ways::descend(table, notes, tops, path, at, to);
    } else {
        scopes::enter(table, notes, tops, path, to);
    }
}
