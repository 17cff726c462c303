// How far a value in XML text stands for itself: its runs of bytes that are not escaped, in a text and in quotes.
#![tactic(auto)]

ghost use Rattle.std.specs.Prelude.{◌≡◌, ◌≤◌, length, drop};
ghost use Rattle.rules.specs.Lists.{all_of};
ghost use Rattle.escapes.specs.Escapes.{is_escaped};
ghost use Rattle.runs.specs.Runs.{run, is_plain};

// The byte ends a run: by one test of a bit, which is what the compiler makes of the numbers here.
pub fn ends_run(b: u8, quoted: bool) -> bool
    ensures { result ≡ is_escaped quoted b }
{
    match b {
        13 | 34 | 38 | 60 | 62 => true,
        9 => quoted,
        10 => quoted,
        _ => false,
    }
}

// The length of the run from byte i on, looked for.
pub fn look_for_run(bytes: &[u8], i: usize, quoted: bool) -> usize
    requires { i ≤ length bytes.now }
    ensures { result ≡ length (run quoted (drop i bytes.now)) }
{
    let rest = &bytes[i..];
    rest.iter()
        .position(|b| ends_run(*b, quoted))
        .unwrap_or(rest.len())
}

// No byte is escaped. The compiler makes a loop for each of the two kinds of values.
pub fn is_plain(bytes: &[u8], quoted: bool) -> bool
    ensures { result ≡ all_of (is_plain quoted) bytes.now }
{
    if quoted {
        return all_plain(bytes, true);
    }
    all_plain(bytes, false)
}

// No byte is escaped. No byte ends the loop, and what is seen is gathered in a byte, so that the compiler can take many at once.
fn all_plain(bytes: &[u8], quoted: bool) -> bool
    ensures { result ≡ all_of (is_plain quoted) bytes.now }
{
    let mut seen: u8 = 0;
    for b in bytes {
        seen |= is_escaped(*b, quoted) as u8;
    }
    seen == 0
}

// The byte is escaped. Two bytes that differ in one bit stand together: the compiler tests them at once.
pub fn is_escaped(b: u8, quoted: bool) -> bool
    ensures { result ≡ is_escaped quoted b }
{
    ((b == 38) | (b == 34))
        | ((b == 60) | (b == 62))
        | ((b == 13) | (quoted & ((b == 9) | (b == 10))))
}
