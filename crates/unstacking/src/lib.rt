// Taking the newest position off the stacks of a scope.
#![tactic(auto)]

ghost use Rattle.std.specs.Prelude.{◌≡◌, List, ◌∷◌, ℕ, ◌+◌, ◌*◌, ◌<◌, length, set};
ghost use Rattle.stacks.specs.Stacks.{TOPS, PATH, PREFIXES, BELOW, under_at, Inside, NoneOrInside, On, Untouched};

use rules::{NameId, Position};

// Takes the newest position off.
pub fn pop(notes: &[u16], tops: &mut [u16], path: &mut [u16])
    requires inside { Inside notes.now tops.old path.old (under_at path.old BELOW 0) }
    requires none_or_inside { NoneOrInside notes.now tops.old path.old (under_at path.old PREFIXES (under_at path.old BELOW 0)) }
    ensures by_index { (scope : List ℕ) → On notes.now tops.old path.old (under_at path.old BELOW 0 ∷ scope) → On notes.now tops.new path.new scope }
    ensures untouched { Untouched path.old path.new }
{
    let position = Position(path[stacks::BELOW]);
    let prefix = notes::name_at(notes, position, notes::LOCAL_NAME);
    let value = notes::name_at(notes, position, notes::VALUE);
    let shadowed = stacks::under(path, position, stacks::PREFIXES);
    serving::replace(notes, tops, prefix, position, shadowed);
    uncover(tops, path, position, stacks::PREFIXES, prefix);
    uncover(tops, path, position, stacks::VALUES, value);
    path[stacks::BELOW] = path[stacks::PATH * position.0 as usize + stacks::BELOW];
}

// Puts on top of a number what lies under a position.
fn uncover(tops: &mut [u16], path: &[u16], position: Position, k: usize, number: NameId)
    requires { (TOPS * number.0 + k < length tops.old) × (PATH * position.0 + k < length path.now) }
    ensures { tops.new ≡ set tops.old (TOPS * number.0 + k) (under_at path.now k position.0) }
{
    tops[stacks::TOPS * number.0 as usize + k] = path[stacks::PATH * position.0 as usize + k];
}
