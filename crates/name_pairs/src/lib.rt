// Numbers of the names of two tables, held against each other: the bytes of a pair of numbers are compared once. One lent array
// has a word for each number of the first table: 0, or 1 more than the number of the second that stands for the same bytes.
#![tactic(auto)]

ghost use Rattle.std.specs.Prelude.{◌≡◌, List, ℕ, ◌+◌, ◌<◌, length, get_or, eqb};
ghost use Rattle.rules.specs.Lists.{same_bytes};
ghost use Rattle.rules.specs.Table.{part};
ghost use Rattle.name_pairs.specs.Met.{Met};

use rules::{NameId, Place};

// A word for each number: up to three names of each row have numbers.
pub const WORDS: usize = 3 * rules::MOST_ROWS + 1;

// The two numbers are known to stand for the same bytes.
pub fn is_met(met: &[u16], first: NameId, second: NameId) -> bool
    requires { (first.0 < length met.now) × (second.0 < 65535) }
    ensures { result ≡ eqb (get_or met.now first.0 0) (second.0 + 1) }
{
    met[first.0 as usize] == second.0 + 1
}

// The two numbers stand for the same bytes, which are at these places. If so, that is noted.
pub fn meet(
    met: &mut [u16],
    pool: &[u8],
    other: &[u8],
    first: NameId,
    second: NameId,
    one: Place,
    two: Place,
) -> bool
    requires { (first.0 < length met.old) × (second.0 < 65535) }
    ensures value { result ≡ same_bytes (part other.now two.offset.0 two.length) (part pool.now one.offset.0 one.length) }
    ensures by_index { (s s' : ℕ → List ℕ) → Met met.old s s' → s first.0 ≡ part pool.now one.offset.0 one.length → s' second.0 ≡ part other.now two.offset.0 two.length → Met met.new s s' }
{
    let there = pool::part(other, two.offset, two.length);
    if !names::same(there, pool::part(pool, one.offset, one.length)) {
        return false;
    }
    met[first.0 as usize] = second.0 + 1;
    true
}
