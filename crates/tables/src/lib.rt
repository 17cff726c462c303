// What is known of a whole pool: the bases of the keyed hash and their polynomials, its ends of names and its marks. With
// them a name of any length has its hash and its kind for the bytes of a few blocks. Until it is made, names have the
// plain hash.
#![tactic(auto)]

ghost use Rattle.std.specs.Prelude.{◌≡◌, ◌≤◌, ◌<◌, length, get_or};
ghost use Rattle.marks.specs.Marks.{MOST, between};
ghost use Rattle.kinds.specs.Kinds.{kind_of};
ghost use Rattle.tables.specs.Tables.{MADE, WORDS, keyed_hash, hash_in, Tables};

use keyed::Pair;

pub const MADE: usize = 0;

// The bases, each in two words.
pub const ONE: usize = 1;

pub const TWO: usize = 3;

pub const SUMS: usize = 5;

pub const PLAIN: usize = SUMS + sum_tables::WORDS;

pub const COLONS: usize = PLAIN + ends::WORDS;

pub const MARKS: usize = COLONS + ends::WORDS;

pub const WORDS: usize = MARKS + marks::WORDS;

const SHORT: usize = 96;

// The hash of a name, wherever it stands.
pub fn hash_of(tables: &[u16], name: &[u8]) -> u16
    requires { WORDS ≤ length tables.now }
    ensures { result ≡ hash_in tables.now name.now }
{
    if tables[MADE] == 0 {
        return hash::hash_of(name);
    }
    keyed_hash(name, sum_tables::pair_at(tables, ONE))
}

// The hash of a name by two bases.
fn keyed_hash(name: &[u8], bases: Pair) -> u16
    ensures { result ≡ keyed_hash bases.one bases.two name.now }
{
    let sums = keyed::summed(name, bases, Pair { one: 0, two: 0 });
    ((sums.one as u64 + sums.two as u64) % 65536) as u16
}

// The hash of the name from start to end of the pool.
pub fn hash_at(tables: &[u16], pool: &[u8], start: usize, end: usize) -> u16
    requires tables { Tables tables.now pool.now }
    requires start_le_end { (start ≤ end) × (end ≤ length pool.now) × (length pool.now ≤ MOST) }
    ensures { result ≡ hash_in tables.now (between pool.now start end) }
{
    if tables[MADE] > 0 {
        return keyed_hash_at(tables, pool, start, end);
    }
    hash::hash_of(&pool[start..end])
}

// The same by the bases. The bytes of a short name are fewer than those that its polynomials cost.
pub fn keyed_hash_at(tables: &[u16], pool: &[u8], start: usize, end: usize) -> u16
    requires tables { Tables tables.now pool.now × (0 < get_or tables.now MADE 0) }
    requires start_le_end { (start ≤ end) × (end ≤ length pool.now) × (length pool.now ≤ MOST) }
    ensures { result ≡ hash_in tables.now (between pool.now start end) }
{
    let bases = sum_tables::pair_at(tables, ONE);
    if end - start <= SHORT {
        return keyed_hash(&pool[start..end], bases);
    }
    let sums = sum_tables::sums_of(&tables[SUMS..], pool, bases, start, end);
    ((sums.one as u64 + sums.two as u64) % 65536) as u16
}

// What the name from start to end of the pool is.
pub fn kind_at(tables: &[u16], pool: &[u8], start: usize, end: usize) -> u16
    requires tables { Tables tables.now pool.now }
    requires start_le_end { (start ≤ end) × (end ≤ length pool.now) × (length pool.now ≤ MOST) }
    ensures { result ≡ kind_of (between pool.now start end) }
{
    if tables[MADE] > 0 {
        return part_kinds::kind_at(
            &tables[MARKS..],
            &tables[PLAIN..],
            &tables[COLONS..],
            pool,
            start,
            end,
        );
    }
    kinds::kind_of(&pool[start..end])
}
