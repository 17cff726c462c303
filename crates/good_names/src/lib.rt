// Good names: which bytes a prefix or a local name may have.
#![tactic(auto)]

ghost use Rattle.std.specs.Prelude.{◌≡◌};
ghost use Rattle.rules.specs.Refusals.{is_first_byte, is_name_byte, good_name};

// The bytes make a good prefix or local name, or there are none.
pub fn good_name(name: &[u8], colons: bool) -> bool
    ensures { result ≡ good_name colons name.now }
{
    let Some((first, rest)) = name.split_first() else {
        return true;
    };
    if !is_first_byte(*first, colons) {
        return false;
    }
    for byte in rest {
        if !is_name_byte(*byte, colons) {
            return false;
        }
    }
    true
}

// A letter, `_` or a byte from 128; with colons, `:` too. The small letters, which most bytes of a
// name are, come first, and then what is no ASCII.
fn is_first_byte(b: u8, colons: bool) -> bool
    ensures { result ≡ is_first_byte colons b }
{
    if (b >= 97) & (b <= 122) {
        return true;
    }
    if b >= 128 {
        return true;
    }
    (b >= 65) & (b <= 90) | (b == 95) | (b >= 128) | colons & (b == 58)
}

// What may follow in a name: a first byte, a digit, `-` or `.`.
pub fn is_name_byte(b: u8, colons: bool) -> bool
    ensures { result ≡ is_name_byte colons b }
{
    is_first_byte(b, colons) | ((b >= 48) & (b <= 57) | (b == 45) | (b == 46))
}
