// Which positions of a scope serve a number of a name as a URI: the nearest of them, and counting them.
#![tactic(auto)]

ghost use Rattle.std.specs.Prelude.{◌≡◌, ◌&&◌, not, List, ℕ, ◌+◌, ◌*◌, ◌≤◌, length, eqb};
ghost use Rattle.stacks.specs.Scopes.{serving, first};
ghost use Rattle.stacks.specs.Stacks.{TOPS, PREFIXES, top_at, prefix_at, value_at, Inside, NoneOrInside, On, Held, counted, replaced};

use rules::{NameId, Position};

// One more or one less serves a number: this is added, modulo 65,536.
const MORE: u16 = 1;

const LESS: u16 = 65535;

// The nearest position whose value has the number and whose prefix, not an empty one, is declared by no
// nearer one; 0 where there is none.
pub fn nearest(notes: &[u16], tops: &[u16], path: &[u16], number: NameId) -> Position
    requires held { Held notes.now tops.now path.now }
    requires number_in_bounds { TOPS * number.0 + TOPS ≤ length tops.now }
    ensures { (scope : List ℕ) → On notes.now tops.now path.now scope → result.0 ≡ first (serving (prefix_at notes.now) (value_at notes.now) scope number.0) }
{
    if stacks::tally(tops, number) == 0 {
        return Position(0);
    }
    let wanted = number.0;
    let mut at = stacks::top(tops, NameId(wanted), stacks::VALUES).0;
    while at > 0 {
        if serves(notes, tops, Position(at)) {
            return Position(at);
        }
        at = stacks::under(path, Position(at), stacks::VALUES).0;
    }
    Position(0)
}

// The prefix of the position is not empty, and no nearer position has it.
fn serves(notes: &[u16], tops: &[u16], position: Position) -> bool
    requires { (path : List ℕ) × Inside notes.now tops.now path position.0 }
    ensures { result ≡ (not (eqb (prefix_at notes.now position.0) 0) && eqb (top_at tops.now PREFIXES (prefix_at notes.now position.0)) position.0) }
{
    let prefix = notes::name_at(notes, position, notes::LOCAL_NAME);
    (prefix.0 != 0) & (stacks::nearest(tops, prefix).0 == position.0)
}

// Counts a position among those that serve its value, in place of another one of its prefix; 0 is none.
pub fn replace(notes: &[u16], tops: &mut [u16], prefix: NameId, old: Position, new: Position)
    requires { (path : List ℕ) × NoneOrInside notes.now tops.old path old.0 × NoneOrInside notes.now tops.old path new.0 }
    ensures { tops.new ≡ replaced notes.now tops.old prefix.0 old.0 new.0 }
{
    if prefix.0 != 0 {
        count(notes, tops, old, LESS);
        count(notes, tops, new, MORE);
    }
}

// Adds a step to how many serve the value of a position.
fn count(notes: &[u16], tops: &mut [u16], position: Position, step: u16)
    requires { (path : List ℕ) × NoneOrInside notes.now tops.old path position.0 }
    ensures { tops.new ≡ counted notes.now tops.old position.0 step }
{
    if position.0 > 0 {
        let value = notes::name_at(notes, position, notes::VALUE);
        let before = stacks::tally(tops, value) as u32;
        tops[stacks::TOPS * value.0 as usize + stacks::COUNTS] = ((before + step as u32)
            % 65536) as u16;
    }
}
