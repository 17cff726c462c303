// The names NSk that normalization makes: the number k of such a name, and which names of a dictionary
// are such.
#![tactic(auto)]

ghost use Rattle.std.specs.Prelude.{◌≡◌, ℕ};
ghost use Rattle.dictionary.specs.Dictionary.{last_of, spelling, Dictionary};
ghost use Rattle.ns_names.specs.Numbers.{follows, number_of};
ghost use Rattle.ns_names.specs.Records.{numbered_at, Entered, entered};

use rules::NameId;

// The words of a record, and the one of them that is the number of a name.
const RECORD: usize = 4;

const NUMBERED: usize = 3;

// Enters, for each k that there is a record of, the number of the name NSk; a name that has none
// keeps 0.
pub fn enter_all(dictionary: &[u16], pool: &[u8], records: &mut [u16])
    requires dictionary { Dictionary dictionary.now pool.now }
    requires by_index { (k : ℕ) → numbered_at records.old k ≡ 0 }
    ensures { Entered (spelling dictionary.now pool.now) (last_of dictionary.now) records.old records.new }
{
    let last = dictionary::last(dictionary).0;
    for n in 1..=last {
        let k = numbered(dictionary::name_of(dictionary, pool, NameId(n)));
        enter(records, k, NameId(n));
    }
}

// The k from 1 to 9999 of the name NSk, or 0.
pub fn numbered(name: &[u8]) -> u32
    ensures { result ≡ number_of name.now }
{
    if name.len() < 2 {
        return 0;
    }
    if name[0] != 78 {
        return 0;
    }
    if name[1] != 83 {
        return 0;
    }
    let mut k: u32 = 0;
    for byte in &name[2..] {
        if !follows(k, *byte) {
            return 0;
        }
        k = k * 10 + (*byte - 48) as u32;
    }
    k
}

// Enters the number of a name in record k; there is none for 0.
fn enter(records: &mut [u16], k: u32, number: NameId)
    ensures { records.new ≡ entered records.old k number.0 }
{
    let at = RECORD * k as usize + NUMBERED;
    if k > 0 {
        if at < records.len() {
            records[at] = number.0;
        }
    }
}

// The byte is a digit that may follow the digits of a number.
fn follows(front: u32, byte: u8) -> bool
    ensures { result ≡ follows front byte }
{
    (byte >= 48) & (byte <= 57) & (front < 1000) & ((front > 0) | (byte > 48))
}
