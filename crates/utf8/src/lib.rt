// Well-formed UTF-8, by the table of byte sequences of RFC 3629, section 4.
#![tactic(auto)]

ghost use Rattle.std.specs.Prelude.{◌≡◌, ◌<◌, length, get_or};
ghost use Rattle.rules.specs.Lists.{all_of};
ghost use Rattle.rules.specs.Utf8.{well_formed, is_ascii, is_in};
ghost use Rattle.utf8.specs.Steps.{Step};

// The bytes are well-formed.
pub fn well_formed(bytes: &[u8]) -> bool
    ensures { result ≡ well_formed bytes.now }
{
    let mut i = 0;
    // Steps of one to eight bytes, so no range gives i.
    while i < bytes.len() {
        let count = step(bytes, i);
        if count == 0 {
            return false;
        }
        i += count;
    }
    true
}

// Every byte is below 128. No byte ends the loop, so that the compiler can take many at once.
pub fn is_ascii(bytes: &[u8]) -> bool
    ensures { result ≡ all_of is_ascii bytes.now }
{
    let mut all = true;
    for byte in bytes {
        all = all & (*byte < 128);
    }
    all
}

// From byte i, how many bytes are whole sequences: eight or fewer of one byte each, or one sequence, or none.
fn step(bytes: &[u8], i: usize) -> usize
    requires { i < length bytes.now }
    ensures { Step bytes.now i result }
{
    if bytes[i] >= 128 {
        return sequence(bytes, i);
    }
    if bytes.len() - i < 8 {
        return run(bytes, i);
    }
    if bytes[i + 7] >= 128 {
        return run(bytes, i);
    }
    if is_ascii(&bytes[i..i + 8]) {
        return 8;
    }
    run(bytes, i)
}

// From byte i, which is one, how many bytes of ASCII follow each other.
fn run(bytes: &[u8], i: usize) -> usize
    requires { (i < length bytes.now) × (get_or bytes.now i 0 < 128) }
    ensures { Step bytes.now i result }
{
    for j in i + 1..bytes.len() {
        if bytes[j] >= 128 {
            return j - i;
        }
    }
    bytes.len() - i
}

// The length of the sequence at byte i, or 0 where none stands there.
fn sequence(bytes: &[u8], i: usize) -> usize
    requires { i < length bytes.now }
    ensures { Step bytes.now i result }
{
    let line = utf8_table::line_of(bytes[i]);
    let length = line.length;
    if length == 0 {
        return 0;
    }
    if length == 1 {
        return 1;
    }
    if bytes.len() - i < length {
        return 0;
    }
    if !is_between(bytes[i + 1], line.low, line.high) {
        return 0;
    }
    if length == 2 {
        return 2;
    }
    if !is_between(bytes[i + 2], 0x80, 0xBF) {
        return 0;
    }
    if length == 3 {
        return 3;
    }
    if !is_between(bytes[i + 3], 0x80, 0xBF) {
        return 0;
    }
    4
}

// The byte is in the range.
fn is_between(b: u8, low: u8, high: u8) -> bool
    ensures { result ≡ is_in (low, high) b }
{
    (b >= low) & (b <= high)
}
