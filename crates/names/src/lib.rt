// Equality of byte strings.
#![tactic(auto)]

ghost use Rattle.std.specs.Prelude.{◌≡◌, length};
ghost use Rattle.rules.specs.Lists.{same_bytes};

// So many bytes are compared at once, of long byte strings and of others.
const MANY: usize = 1024;

const SOME: usize = 32;

// The two byte strings are equal: their lengths first, and then from the end, where most that share a length differ. The
// last byte; many at once while there are so many, then some at once, if there are so many, and what is left.
pub fn same(a: &[u8], b: &[u8]) -> bool
    ensures { result ≡ same_bytes a.now b.now }
{
    if a.len() != b.len() {
        return false;
    }
    if a.last() != b.last() {
        return false;
    }
    if a.len() < SOME {
        return short_strings::same_short(a, b);
    }
    let mut a_left = a;
    let mut b_left = b;
    while let Some((a_front, a_group)) = a_left.split_last_chunk::<MANY>() {
        let (b_front, b_group) = b_left.split_at(a_front.len());
        if !same_all(a_group, b_group) {
            return false;
        }
        a_left = a_front;
        b_left = b_front;
    }
    while let Some((a_front, a_group)) = a_left.split_last_chunk::<SOME>() {
        let (b_front, b_group) = b_left.split_at(a_front.len());
        if !same_all(a_group, b_group) {
            return false;
        }
        a_left = a_front;
        b_left = b_front;
    }
    short_strings::same_short(a_left, b_left)
}

// Two byte strings of one length are equal. No byte ends the loop, so that the compiler can take many at once.
fn same_all(a: &[u8], b: &[u8]) -> bool
    requires { length a.now ≡ length b.now }
    ensures { result ≡ same_bytes a.now b.now }
{
    let mut all = true;
    for (one, other) in a.iter().zip(b) {
        all = all & (*one == *other);
    }
    all
}
