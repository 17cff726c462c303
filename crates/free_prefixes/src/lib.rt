// The prefix that a new declaration for an attribute may have: its own, if that is free in scope, or the NS prefix of the least
// free number, whose name gets a number.
#![tactic(auto)]

ghost use Rattle.std.specs.Prelude.{◌≡◌, List, ℕ, ◌+◌, ◌*◌, ◌≤◌, ◌<◌, length};
ghost use Rattle.stacks.specs.Stacks.{TOPS, PATH, NUMBERED, under_at};
ghost use Rattle.bindings.specs.Asking.{Asked, is_used, Searched, LeastUnused};
ghost use Rattle.free_prefixes.specs.Free.{is_free, number_for, path_for};

use rules::{NameId, Row};

// The attribute has a prefix, and that is not declared in scope.
pub fn is_free(notes: &[u16], tops: &[u16], attribute: Row) -> bool
    requires { (path : List ℕ) × Asked notes.now tops.now path attribute.0 }
    ensures { result ≡ is_free notes.now tops.now attribute.0 }
{
    let prefix = notes::name(notes, attribute, notes::PREFIX);
    (prefix.0 != 0) & (stacks::nearest(tops, prefix).0 == 0)
}

// The least number from another on whose NS prefix is not declared in scope.
pub fn least_unused(tops: &[u16], path: &[u16], from: u16) -> u16
    requires { (last : ℕ) × Searched tops.now path.now from last }
    ensures { LeastUnused tops.now path.now from result }
{
    let mut k = from;
    // No last number is known: a range would find an `Option` that is never `None`.
    while is_used(tops, path, k) {
        k += 1;
    }
    k
}

// The NS prefix of a number is declared in scope.
fn is_used(tops: &[u16], path: &[u16], k: u16) -> bool
    requires { (PATH * k + PATH ≤ length path.now) × (TOPS * under_at path.now NUMBERED k + TOPS ≤ length tops.now) }
    ensures { result ≡ is_used tops.now path.now k }
{
    let number = stacks::numbered(path, k);
    if number.0 == 0 {
        return false;
    }
    stacks::nearest(tops, number).0 != 0
}

// The number of the NS prefix of k; where it has none, the next one after those of so many names, which is noted.
pub fn number_for(path: &mut [u16], k: u16, names: u16) -> NameId
    requires { (PATH * k + PATH ≤ length path.old) × (names < 65535) }
    ensures result_value { result.0 ≡ number_for path.old k names }
    ensures path_after { path.new ≡ path_for path.old k names }
{
    let number = stacks::numbered(path, k);
    if number.0 > 0 {
        return number;
    }
    stacks::set_numbered(path, k, NameId(names + 1));
    NameId(names + 1)
}
