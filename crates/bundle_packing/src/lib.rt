// Packing of the bytes of a session bundle into another one, in tables of its own: small ones for a bundle of few rows and a short
// pool. Its packed pool may be as long as any; it is written to where it stands in the output.
#![tactic(auto)]

ghost use Rattle.std.specs.Prelude.{◌≡◌, ◌≤◌, length};
ghost use Rattle.table_size.specs.Small.{FEW_ROWS};
ghost use Rattle.bundles.specs.Opening.{NamesAtMost};
ghost use Rattle.packing.specs.Packing.{packed_into, bundle_packed};
ghost use Rattle.packer.specs.Lent.{Lent};
ghost use Rattle.packed_bundle.specs.Leaving.{Leaves};

use rules::Refusal;

// The words of the largest table, and of a small one.
const WORDS: usize = rules::WIDTH * rules::MOST_ROWS;

const FEW_WORDS: usize = rules::WIDTH * table_size::FEW_ROWS;

// Packs a bundle into a bundle whose pool is each distinct non-empty field once, end to end, in order of first use. Success answers
// the bytes that it takes; the rest of the output is zero, and all of it after a refusal.
pub fn pack(bundle: &[u8], out: &mut [u8]) -> Result<usize, Refusal>
    ensures value { result ≡ (bundle_packed bundle.now (length out.old)).answer }
    ensures out_after { out.new ≡ (bundle_packed bundle.now (length out.old)).bytes }
{
    if small_bundles::has_many_rows(bundle) {
        return pack_any(bundle, out);
    }
    if small_bundles::has_long_pool(bundle) {
        return pack_any(bundle, out);
    }
    pack_few(bundle, out)
}

// Packs any bundle. It keeps its arrays, which are large, to itself.
#[inline(never)]
fn pack_any(bundle: &[u8], out: &mut [u8]) -> Result<usize, Refusal>
    ensures value { result ≡ (bundle_packed bundle.now (length out.old)).answer }
    ensures out_after { out.new ≡ (bundle_packed bundle.now (length out.old)).bytes }
{
    let mut words = [0; WORDS];
    match bundle_opening::read_rows(bundle, &mut words) {
        Ok(n) => {
            let table = bundle_parts::table(&words, n);
            let pool = bundle_parts::pool(bundle);
            let mut packed = [0; WORDS];
            let mut dictionary = [0; checker::DICTIONARY];
            let mut notes = [0; checker::NOTES];
            let mut index = [0; packer::INDEX];
            let mut starts = [0; packer::STARTS];
            pack_lent(
                table,
                pool,
                &mut dictionary,
                &mut notes,
                &mut index,
                &mut starts,
                &mut packed,
                out,
            )
        }
        Err(x) => bundles::refuse(out, x),
    }
}

// Packs a bundle of few rows.
fn pack_few(bundle: &[u8], out: &mut [u8]) -> Result<usize, Refusal>
    requires { NamesAtMost bundle.now FEW_ROWS }
    ensures value { result ≡ (bundle_packed bundle.now (length out.old)).answer }
    ensures out_after { out.new ≡ (bundle_packed bundle.now (length out.old)).bytes }
{
    let mut words = [0; FEW_WORDS];
    match bundle_opening::read_rows(bundle, &mut words) {
        Ok(n) => {
            let table = bundle_parts::table(&words, n);
            let pool = bundle_parts::pool(bundle);
            let mut packed = [0; FEW_WORDS];
            let mut dictionary = [0; checker::SMALL_DICTIONARY];
            let mut notes = [0; checker::SMALL_NOTES];
            let mut index = [0; packer::SMALL_INDEX];
            let mut starts = [0; packer::SMALL_STARTS];
            pack_lent(
                table,
                pool,
                &mut dictionary,
                &mut notes,
                &mut index,
                &mut starts,
                &mut packed,
                out,
            )
        }
        Err(x) => bundles::refuse(out, x),
    }
}

// Packs a table and its pool into a bundle: the check first.
fn pack_lent(
    table: &[u32],
    pool: &[u8],
    dictionary: &mut [u16],
    notes: &mut [u16],
    index: &mut [u16],
    starts: &mut [u16],
    packed: &mut [u32],
    out: &mut [u8],
) -> Result<usize, Refusal>
    requires lent { Lent table.now dictionary.old notes.old index.old starts.old }
    requires table_in_bounds { length table.now ≤ length packed.old }
    ensures { Leaves (packed_into table.now pool.now (length out.old)) result out.new }
{
    match checker::check_numbered(table, pool, dictionary, notes) {
        Ok(()) => {
            packed_bundle::pack(table, pool, dictionary, notes, index, starts, packed, out)
        }
        Err(x) => bundles::refuse(out, x),
    }
}
