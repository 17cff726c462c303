// Putting a position on the stacks of a scope.
#![tactic(auto)]

ghost use Rattle.std.specs.Prelude.{◌≡◌, List, ◌∷◌, ℕ, ◌+◌, ◌*◌, ◌<◌, length, set};
ghost use Rattle.stacks.specs.Scopes.{Each};
ghost use Rattle.stacks.specs.Stacks.{TOPS, PATH, PREFIXES, top_at, prefix_at, Inside, NoneOrInside, On, Untouched};

use rules::{NameId, Position};

// Pushes a position.
pub fn push(notes: &[u16], tops: &mut [u16], path: &mut [u16], position: Position)
    requires inside { Inside notes.now tops.old path.old position.0 }
    requires none_or_inside { NoneOrInside notes.now tops.old path.old (top_at tops.old PREFIXES (prefix_at notes.now position.0)) }
    ensures by_index { (scope : List ℕ) → Each (λ d. d ≡ position.0 → ⊥) scope → On notes.now tops.old path.old scope → On notes.now tops.new path.new (position.0 ∷ scope) }
    ensures untouched { Untouched path.old path.new }
{
    let prefix = notes::name_at(notes, position, notes::LOCAL_NAME);
    let value = notes::name_at(notes, position, notes::VALUE);
    let shadowed = stacks::nearest(tops, prefix);
    serving::replace(notes, tops, prefix, shadowed, position);
    cover(tops, path, position, stacks::PREFIXES, prefix);
    cover(tops, path, position, stacks::VALUES, value);
    path[stacks::PATH * position.0 as usize + stacks::BELOW] = path[stacks::BELOW];
    path[stacks::BELOW] = position.0;
}

// Puts a position on top of a number, and what was on top under it.
fn cover(tops: &mut [u16], path: &mut [u16], position: Position, k: usize, number: NameId)
    requires { (TOPS * number.0 + k < length tops.old) × (PATH * position.0 + k < length path.old) }
    ensures tops_after { tops.new ≡ set tops.old (TOPS * number.0 + k) position.0 }
    ensures path_after { path.new ≡ set path.old (PATH * position.0 + k) (top_at tops.old k number.0) }
{
    path[stacks::PATH * position.0 as usize + k] = tops[stacks::TOPS * number.0 as usize + k];
    tops[stacks::TOPS * number.0 as usize + k] = position.0;
}
