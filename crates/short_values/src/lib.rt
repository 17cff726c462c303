// Equality of short byte strings of one length, by groups of four or eight bytes that may overlap.
#![tactic(auto)]

ghost use Rattle.std.specs.Prelude.{◌≡◌, ◌+◌, ◌≤◌, ◌<◌, length};
ghost use Rattle.rules.specs.Lists.{same_bytes};
ghost use Rattle.rules.specs.Table.{part};

// The two byte strings are equal: from the end eight bytes at once, at last the first eight.
pub fn same(a: &[u8], b: &[u8]) -> bool
    requires { length a.now ≡ length b.now }
    ensures { result ≡ same_bytes a.now b.now }
{
    let mut i = a.len();
    if i < 8 {
        return same_few(a, b);
    }
    // A range that goes down like this, `(1..a.len() - 7).rev().step_by(8)`, is no plainer.
    while i > 8 {
        i -= 8;
        if !same_eight(a, b, i) {
            return false;
        }
    }
    same_eight(a, b, 0)
}

// Two byte strings of fewer than eight bytes are equal: the last four bytes, then the first four.
fn same_few(a: &[u8], b: &[u8]) -> bool
    requires { (length a.now ≡ length b.now) × (length a.now < 8) }
    ensures { result ≡ same_bytes a.now b.now }
{
    if a.len() < 4 {
        return short_strings::same_short(a, b);
    }
    if !short_strings::same_four(a, b, a.len() - 4) {
        return false;
    }
    short_strings::same_four(a, b, 0)
}

// The eight bytes from i on are equal in both: the compiler makes one comparison of them.
fn same_eight(a: &[u8], b: &[u8], i: usize) -> bool
    requires { (i + 8 ≤ length a.now) × (i + 8 ≤ length b.now) }
    ensures { result ≡ same_bytes (part a.now i 8) (part b.now i 8) }
{
    short_strings::same_four(a, b, i + 4) & short_strings::same_four(a, b, i)
}
