// What a name is, as far as the rules ask.
#![tactic(auto)]

ghost use Rattle.std.specs.Prelude.{◌≡◌, Bool, true, false};
ghost use Rattle.rules.specs.Lists.{all_of};
ghost use Rattle.rules.specs.Refusals.{good_name};
ghost use Rattle.kinds.specs.Kinds.{OTHER, first_met, uri_tests, kind_of};
ghost use Rattle.kinds.specs.Plain.{is_plain_first, is_plain_byte, is_plain};

// The kinds: empty; a good prefix or local name; one of the two built-in prefixes; good with colons;
// none of all these; one of the two built-in URIs; not well-formed UTF-8, whatever else it is.
pub const EMPTY: u16 = 0;

pub const GOOD: u16 = 1;

pub const XML: u16 = 2;

pub const XMLNS: u16 = 3;

pub const GOOD_WITH_COLONS: u16 = 4;

pub const OTHER: u16 = 5;

pub const XML_URI: u16 = 6;

pub const XMLNS_URI: u16 = 7;

pub const MALFORMED: u16 = 8;

// What the name is. Most are good names of ASCII, which one pass over the bytes shows.
pub fn kind_of(name: &[u8]) -> u16
    ensures { result ≡ kind_of name.now }
{
    if is_plain(name) {
        return plain_kind(name);
    }
    any_kind(name)
}

// What a good name of ASCII is.
fn plain_kind(name: &[u8]) -> u16
    requires { is_plain name.now ≡ true }
    ensures { result ≡ kind_of name.now }
{
    if built_ins::is_xml(name) {
        return XML;
    }
    if built_ins::is_xmlns(name) {
        return XMLNS;
    }
    GOOD
}

// What any name is.
pub fn any_kind(name: &[u8]) -> u16
    ensures { result ≡ kind_of name.now }
{
    if name.len() == 0 {
        return EMPTY;
    }
    if !utf8::well_formed(name) {
        return MALFORMED;
    }
    if built_ins::is_xml(name) {
        return XML;
    }
    if built_ins::is_xmlns(name) {
        return XMLNS;
    }
    if has_slash(name) {
        return uri_kind(name);
    }
    if good_names::good_name(name, false) {
        return GOOD;
    }
    if good_names::good_name(name, true) {
        return GOOD_WITH_COLONS;
    }
    uri_kind(name)
}

// A slash stands behind `http:` or `https:`, or where these would end: what has one there is no good name. Most names that
// are not good are URIs, and are told from it at once.
fn has_slash(name: &[u8]) -> bool
    ensures { result ≡ true → (colons : Bool) → good_name colons name.now ≡ false }
{
    if name.len() < 8 {
        return false;
    }
    (name[5] == 47) | (name[6] == 47)
}

// What a name is that is neither good nor a prefix.
fn uri_kind(name: &[u8]) -> u16
    ensures { result ≡ first_met (uri_tests name.now) OTHER }
{
    if built_ins::is_xml_uri(name) {
        return XML_URI;
    }
    if built_ins::is_xmlns_uri(name) {
        return XMLNS_URI;
    }
    OTHER
}

// The bytes are a good name of ASCII that is not empty. The compiler takes sixteen of them at once.
fn is_plain(name: &[u8]) -> bool
    ensures { result ≡ is_plain name.now }
{
    if name.len() == 0 {
        return false;
    }
    if !is_plain_first(name[0]) {
        return false;
    }
    let (many, few) = name.as_chunks::<16>();
    for bytes in many {
        if !all_plain(bytes) {
            return false;
        }
    }
    few_plain(few)
}

// Every one of a few bytes is one of a name of ASCII.
fn few_plain(bytes: &[u8]) -> bool
    ensures { result ≡ all_of is_plain_byte bytes.now }
{
    for byte in bytes {
        if !is_plain_small_first(*byte) {
            return false;
        }
    }
    true
}

// As is_plain_byte; the small letters, which most bytes of a name are, come first.
fn is_plain_small_first(b: u8) -> bool
    ensures { result ≡ is_plain_byte b }
{
    if (b >= 97) & (b <= 122) {
        return true;
    }
    is_plain_byte(b)
}

// Every byte is one of a name of ASCII. No byte ends the loop.
fn all_plain(bytes: &[u8]) -> bool
    ensures { result ≡ all_of is_plain_byte bytes.now }
{
    let mut all = true;
    for byte in bytes {
        all = all & is_plain_byte(*byte);
    }
    all
}

// An ASCII letter or `_`.
fn is_plain_first(b: u8) -> bool
    ensures { result ≡ is_plain_first b }
{
    (b >= 97) & (b <= 122) | (b >= 65) & (b <= 90) | (b == 95)
}

// An ASCII letter or digit, `_`, `-` or `.`.
fn is_plain_byte(b: u8) -> bool
    ensures { result ≡ is_plain_byte b }
{
    (b >= 97) & (b <= 122)
        | (b >= 65) & (b <= 90)
        | (b == 95)
        | (b >= 48) & (b <= 57)
        | (b == 45)
        | (b == 46)
}
