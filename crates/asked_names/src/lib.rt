// The number of a name that is asked for: that of the dictionary, or one that no name has.
#![tactic(auto)]

ghost use Rattle.std.specs.Prelude.{◌≡◌, List, ℕ, ◌+◌, ◌≤◌, ◌<◌, length, eqb};
ghost use Rattle.rules.specs.Lists.{same_bytes};
ghost use Rattle.numbers.specs.Numbers.{Names};
ghost use Rattle.entries.specs.Entries.{NAMES};
ghost use Rattle.dictionary.specs.Dictionary.{PLACES, last_of, spelling, Dictionary};

use rules::NameId;

// The number of a name, wherever its bytes stand; if it has none, the number after the last. A name longer than the pool
// has none, and is not read.
pub fn number_of_name(dictionary: &[u16], pool: &[u8], name: &[u8]) -> NameId
    requires dictionary { Dictionary dictionary.now pool.now }
    requires dictionary_bound { last_of dictionary.now < 65535 }
    ensures result_bound { result.0 ≤ last_of dictionary.now + 1 }
    ensures by_index { (n : ℕ) (bytes : List ℕ) → Names (spelling dictionary.now pool.now) (last_of dictionary.now) n bytes → eqb n result.0 ≡ same_bytes bytes name.now }
{
    if name.len() == 0 {
        return NameId(0);
    }
    if name.len() > pool.len() {
        return unused(dictionary);
    }
    let found = interning::number_of(&dictionary[dictionary::PLACES..], pool, name);
    if found.0 > 0 {
        return found;
    }
    unused(dictionary)
}

// The number after the last, which no name has.
fn unused(dictionary: &[u16]) -> NameId
    requires { (PLACES + NAMES ≤ length dictionary.now) × (last_of dictionary.now < 65535) }
    ensures { result.0 ≡ last_of dictionary.now + 1 }
{
    NameId(dictionary::last(dictionary).0 + 1)
}
