// Equality of short byte strings.
#![tactic(auto)]

ghost use Rattle.std.specs.Prelude.{◌≡◌, ◌+◌, ◌≤◌, length};
ghost use Rattle.rules.specs.Lists.{same_bytes};
ghost use Rattle.rules.specs.Table.{part};

// The two byte strings are equal: their lengths first, and then from the end: the bytes behind the last group of four, then
// the groups.
pub fn same_short(a: &[u8], b: &[u8]) -> bool
    ensures { result ≡ same_bytes a.now b.now }
{
    if a.len() != b.len() {
        return false;
    }
    let (a_fours, a_rest) = a.as_chunks::<4>();
    let (b_fours, b_rest) = b.as_chunks::<4>();
    if a_rest != b_rest {
        return false;
    }
    for (a_four, b_four) in a_fours.iter().rev().zip(b_fours.iter().rev()) {
        if !same_four(a_four, b_four, 0) {
            return false;
        }
    }
    true
}

// The four bytes from i on are equal in both: the compiler makes one comparison of them.
pub fn same_four(a: &[u8], b: &[u8], i: usize) -> bool
    requires { (i + 4 ≤ length a.now) × (i + 4 ≤ length b.now) }
    ensures { result ≡ same_bytes (part a.now i 4) (part b.now i 4) }
{
    (a[i] == b[i]) & (a[i + 1] == b[i + 1]) & (a[i + 2] == b[i + 2]) & (a[i + 3] == b[i + 3])
}
