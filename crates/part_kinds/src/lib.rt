// What a part of the pool is as a name. A long part is judged by the marks and the ends of the pool, which tell of most
// of its bytes without a look at them.
#![tactic(auto)]

ghost use Rattle.std.specs.Prelude.{◌≡◌, ◌≤◌, true, false, length};
ghost use Rattle.marks.specs.Marks.{MOST, between};
ghost use Rattle.kinds.specs.Kinds.{kind_of};
ghost use Rattle.part_kinds.specs.Known.{Marks, Ends};

// A longer part is none of the built-in prefixes and URIs.
const SHORT: usize = 256;

// What the bytes from start to end are, by the pool's marks and its ends of names without and with colons.
pub fn kind_at(
    marks: &[u16],
    plain: &[u16],
    colons: &[u16],
    pool: &[u8],
    start: usize,
    end: usize,
) -> u16
    requires marks { Marks pool.now marks.now }
    requires ends { Ends false pool.now plain.now }
    requires ends_2 { Ends true pool.now colons.now }
    requires start_le_end { (start ≤ end) × (end ≤ length pool.now) × (length pool.now ≤ MOST) }
    ensures { result ≡ kind_of (between pool.now start end) }
{
    if end - start <= SHORT {
        return kinds::any_kind(&pool[start..end]);
    }
    if !marks::well_formed_part(marks, pool, start, end) {
        return kinds::MALFORMED;
    }
    if ends::good_part(plain, pool, start, end, false) {
        return kinds::GOOD;
    }
    if ends::good_part(colons, pool, start, end, true) {
        return kinds::GOOD_WITH_COLONS;
    }
    kinds::OTHER
}
