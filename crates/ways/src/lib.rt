// The ways between rows, with the arrays that hold what is in scope: leaving rows outward, and entering
// rows inward. A position is a row counted from 1; 0 is no row.
#![tactic(auto)]

ghost use Rattle.std.specs.Prelude.{ℕ, ◌+◌, ◌≤◌, ◌<◌, length, get_or};
ghost use Rattle.rules.specs.Table.{row_count};
ghost use Rattle.stacks.specs.Stacks.{Untouched};
ghost use Rattle.scopes.specs.Standing.{Standing, Ready};
ghost use Rattle.ways.specs.Ways.{Leads};

use rules::Position;

// Goes to a later position, several rows further in: climbs from it and leaves rows, in turn, until both
// meet, and then enters the rows that were climbed over, the last one first.
pub fn descend(
    table: &[u32],
    notes: &[u16],
    tops: &mut [u16],
    path: &mut [u16],
    from: Position,
    to: Position,
)
    requires ready { Ready table.now notes.now tops.old path.old }
    requires from_le_to { (from.0 ≤ to.0) × (to.0 ≤ row_count table.now) }
    requires standing { Standing table.now notes.now tops.old path.old from.0 }
    ensures standing_2 { Standing table.now notes.now tops.new path.new to.0 }
    ensures untouched { Untouched path.old path.new }
{
    let mut way = [0; rules::MOST_ROWS + 1];
    let goal = to.0;
    let mut at = from.0;
    let mut top = goal;
    let mut n: usize = 0;
    while at < top {
        n = climb(table, &mut way, Position(top), Position(at), n);
        top = way[n];
        at = retreat(table, notes, tops, path, Position(at), Position(top)).0;
    }
    for step in way[..n].iter().rev() {
        scopes::enter(table, notes, tops, path, Position(*step));
    }
}

// Writes a position, and those of the rows outward from it, to the way behind its first n places, up to
// the first one that is not after `at`. Answers the place of that one. A call goes two rows outward, so that
// a climb has half the frames that it would have with one.
fn climb(table: &[u32], way: &mut [u16], top: Position, at: Position, n: usize) -> usize
    requires { (top.0 ≤ row_count table.now) × (n + top.0 < length way.old) }
    ensures upper_bound { (result < length way.new) × (get_or way.new result 0 ≤ at.0) }
    ensures by_index { (to : ℕ) → Leads table.now way.old n to top.0 → Leads table.now way.new result to (get_or way.new result 0) }
{
    way[n] = top.0;
    if at.0 < top.0 {
        let above = scopes::up(table, top);
        way[n + 1] = above.0;
        if at.0 < above.0 {
            return climb(table, way, scopes::up(table, above), at, n + 2);
        }
        return n + 1;
    }
    n
}

// Leaves rows until the position where the arrays stand is not after another one. Answers it.
pub fn retreat(
    table: &[u32],
    notes: &[u16],
    tops: &mut [u16],
    path: &mut [u16],
    from: Position,
    to: Position,
) -> Position
    requires ready { Ready table.now notes.now tops.old path.old }
    requires from_bound { from.0 ≤ row_count table.now }
    requires standing { Standing table.now notes.now tops.old path.old from.0 }
    ensures result_le_to { result.0 ≤ to.0 }
    ensures standing_2 { Standing table.now notes.now tops.new path.new result.0 }
    ensures untouched { Untouched path.old path.new }
{
    let last = to.0;
    let mut at = from.0;
    while last < at {
        at = scopes::leave(table, notes, tops, path, Position(at)).0;
    }
    Position(at)
}
