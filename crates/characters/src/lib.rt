// Refusal 21: the characters that a value in XML text may not hold.
#![tactic(auto)]

ghost use Rattle.std.specs.Prelude.{◌≡◌, ◌<◌, length, drop};
ghost use Rattle.rules.specs.Lists.{all_of};
ghost use Rattle.characters.specs.Characters.{is_control, starts_forbidden, forbidden_from, is_harmless};

// The value holds a byte below 32 other than tab, line feed and carriage return, or the sequence of U+FFFE or U+FFFF.
pub fn holds_forbidden(value: &[u8]) -> bool
    ensures { result ≡ forbidden_from value.now }
{
    if all_harmless(value) {
        return false;
    }
    for i in 0..value.len() {
        if starts_forbidden(value, i) {
            return true;
        }
    }
    false
}

// No byte is one below 32 that is forbidden, or starts a sequence of U+FFFE or U+FFFF. No byte ends the loop, so that the compiler
// can take many at once.
fn all_harmless(value: &[u8]) -> bool
    ensures { result ≡ all_of is_harmless value.now }
{
    let mut all = true;
    for b in value {
        all &= is_harmless(*b);
    }
    all
}

fn is_harmless(b: u8) -> bool
    ensures { result ≡ is_harmless b }
{
    !is_control(b) & (b != 0xEF)
}

fn is_control(b: u8) -> bool
    ensures { result ≡ is_control b }
{
    (b < 32) & !((b == 9) | ((b == 10) | (b == 13)))
}

// At byte i a forbidden character starts.
pub fn starts_forbidden(value: &[u8], i: usize) -> bool
    requires { i < length value.now }
    ensures { result ≡ starts_forbidden (drop i value.now) }
{
    if is_control(value[i]) {
        return true;
    }
    if value[i] != 0xEF {
        return false;
    }
    if value.len() - i < 3 {
        return false;
    }
    (value[i + 1] == 0xBF) & ((value[i + 2] == 0xBE) | (value[i + 2] == 0xBF))
}
