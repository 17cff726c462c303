// The fields of one row that a proposal keeps: a row of the original, and the proposal's row of the same number. Names are held
// against each other by their numbers, values by their bytes. The proposal's pool is the other one.
#![tactic(auto)]

ghost use Rattle.std.specs.Prelude.{◌≡◌, true, ◌&&◌, ◌||◌, not, ◌<◌, eqb};
ghost use Rattle.rules.specs.Lists.{same_bytes};
ghost use Rattle.rules.specs.Table.{NONE, TYPE, PREFIX, LOCAL_NAME, URI, VALUE, ATTRIBUTE, DECLARATION, row_count, word, field_at};
ghost use Rattle.pairs.specs.Pairs.{Alike, Pairs};
ghost use Rattle.kept_fields.specs.Fields.{Placed, Meeting, IsName};

use rules::Row;

// The row keeps its names: the local name, the URI and, of an attribute without an owner, the prefix. A text has none.
pub fn keeps_names(
    original: &[u32],
    pool: &[u8],
    mine: &[u16],
    proposal: &[u32],
    other: &[u8],
    theirs: &[u16],
    met: &mut [u16],
    row: Row,
    kind: u32,
    owner: Row,
) -> bool
    requires placed { (Placed original.now pool.now) × (Placed proposal.now other.now) }
    requires meeting { Meeting original.now pool.now mine.now proposal.now other.now theirs.now met.old }
    requires row_bound { (row.0 < row_count original.now) × (row.0 < row_count proposal.now) }
    requires kind_value { (kind ≡ word original.now row.0 TYPE) × (kind ≡ word proposal.now row.0 TYPE) }
    ensures value { result ≡ (same_bytes (field_at proposal.now other.now row.0 LOCAL_NAME).bytes (field_at original.now pool.now row.0 LOCAL_NAME).bytes && same_bytes (field_at proposal.now other.now row.0 URI).bytes (field_at original.now pool.now row.0 URI).bytes && (not (eqb kind ATTRIBUTE && eqb owner.0 NONE) || same_bytes (field_at proposal.now other.now row.0 PREFIX).bytes (field_at original.now pool.now row.0 PREFIX).bytes)) }
    ensures meeting_2 { Meeting original.now pool.now mine.now proposal.now other.now theirs.now met.new }
{
    if kind == rules::TEXT {
        return true;
    }
    if !keeps_name(
        original,
        pool,
        mine,
        proposal,
        other,
        theirs,
        met,
        row,
        rules::LOCAL_NAME,
        notes::LOCAL_NAME,
    ) {
        return false;
    }
    if !keeps_name(
        original,
        pool,
        mine,
        proposal,
        other,
        theirs,
        met,
        row,
        rules::URI,
        notes::URI,
    ) {
        return false;
    }
    if (kind == rules::ATTRIBUTE) & (owner.0 == rules::NONE) {
        return keeps_name(
            original,
            pool,
            mine,
            proposal,
            other,
            theirs,
            met,
            row,
            rules::PREFIX,
            notes::PREFIX,
        );
    }
    true
}

// The row keeps the bytes of a name, whose number is a note of it.
fn keeps_name(
    original: &[u32],
    pool: &[u8],
    mine: &[u16],
    proposal: &[u32],
    other: &[u8],
    theirs: &[u16],
    met: &mut [u16],
    row: Row,
    field: u32,
    k: usize,
) -> bool
    requires placed { (Placed original.now pool.now) × (Placed proposal.now other.now) }
    requires meeting { Meeting original.now pool.now mine.now proposal.now other.now theirs.now met.old }
    requires row_bound { (row.0 < row_count original.now) × (row.0 < row_count proposal.now) × (IsName k field) }
    ensures value { result ≡ same_bytes (field_at proposal.now other.now row.0 field).bytes (field_at original.now pool.now row.0 field).bytes }
    ensures meeting_2 { Meeting original.now pool.now mine.now proposal.now other.now theirs.now met.new }
{
    let first = notes::name(mine, row, k);
    let second = notes::name(theirs, row, k);
    if name_pairs::is_met(met, first, second) {
        return true;
    }
    let one = rows::place(original, row, field);
    let two = rows::place(proposal, row, field);
    name_pairs::meet(met, pool, other, first, second, one, two)
}

// The row is a declaration, or keeps the bytes of its value.
pub fn keeps_value(
    original: &[u32],
    pool: &[u8],
    proposal: &[u32],
    other: &[u8],
    alike: bool,
    known: &mut [u16],
    row: Row,
    kind: u32,
) -> bool
    requires placed { (Placed original.now pool.now) × (Placed proposal.now other.now) }
    requires pairs { Pairs known.old pool.now other.now }
    requires alike { alike ≡ true → Alike pool.now other.now }
    requires row_bound { (row.0 < row_count original.now) × (row.0 < row_count proposal.now) }
    ensures value { result ≡ (eqb kind DECLARATION || same_bytes (field_at proposal.now other.now row.0 VALUE).bytes (field_at original.now pool.now row.0 VALUE).bytes) }
    ensures pairs_2 { Pairs known.new pool.now other.now }
{
    if kind == rules::DECLARATION {
        return true;
    }
    let first = rows::place(original, row, rules::VALUE);
    let second = rows::place(proposal, row, rules::VALUE);
    pairs::same(known, pool, other, alike, first, second)
}
