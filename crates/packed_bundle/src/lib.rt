// The packed form of an accepted table as a bundle: the packed pool is written to where it stands in the bundle, and the header and
// the rows before it.
#![tactic(auto)]

ghost use Rattle.std.specs.Prelude.{◌≡◌, List, ℕ, ◌+◌, ◌*◌, ◌≤◌, ◌<◌, length, take, drop};
ghost use Rattle.rules.specs.Table.{WIDTH, MOST_ROWS, MOST_BYTES};
ghost use Rattle.rules.specs.declared.Refusal.{Refusal};
ghost use Rattle.dictionary.specs.Dictionary.{Dictionary};
ghost use Rattle.bundles.specs.Bundles.{HEADER, write_bundle};
ghost use Rattle.bundles.specs.Operations.{write_refused, write_done};
ghost use Rattle.packing.specs.Packing.{packed_into};
ghost use Rattle.packed_table.specs.Packed.{Enough, Blank, Noted};
ghost use Rattle.packed_bundle.specs.Leaving.{Leaves};

use bundles::HEADER;
use rules::Refusal;

// Packs a table that the check accepts, the numbers of its names noted, into a bundle: or 11, or 33.
pub fn pack(
    table: &[u32],
    pool: &[u8],
    dictionary: &mut [u16],
    notes: &[u16],
    index: &mut [u16],
    starts: &mut [u16],
    packed: &mut [u32],
    out: &mut [u8],
) -> Result<usize, Refusal>
    requires enough { Enough table.now pool.now notes.now index.old starts.old packed.old MOST_BYTES }
    requires dictionary { Dictionary dictionary.old pool.now × Blank index.old starts.old }
    requires by_index { (spelling : ℕ → List ℕ) × (last : ℕ) × Noted table.now pool.now notes.now spelling last }
    ensures { Leaves (packed_into table.now pool.now (length out.old)) result out.new }
{
    let behind = start_of(HEADER + 4 * table.len(), out.len());
    let made = packed_table::pack(
        table,
        pool,
        dictionary,
        notes,
        index,
        starts,
        packed,
        &mut out[behind..],
        rules::MOST_BYTES,
    );
    if !made.fits {
        return bundles::refuse(out, Refusal::PoolRoom);
    }
    finish(&packed[..table.len()], made.used, out)
}

// Where the pool of a bundle starts in an output; at its end where it has no room for what stands before the pool.
fn start_of(behind: usize, size: usize) -> usize
    ensures { (result ≤ size) × (behind ≤ size → result ≡ behind) }
{
    behind.min(size)
}

// The bundle of packed rows whose pool, of so many bytes, stands in the output; or 33.
fn finish(packed: &[u32], bytes: usize, out: &mut [u8]) -> Result<usize, Refusal>
    requires { (length packed.now ≤ WIDTH * MOST_ROWS) × (bytes ≤ MOST_BYTES) }
    ensures leaves { HEADER + 4 * length packed.now + bytes ≤ length out.old → Leaves (write_done (length out.old) (write_bundle packed.now (take bytes (drop (HEADER + 4 * length packed.now) out.old)))) result out.new }
    ensures leaves_2 { length out.old < HEADER + 4 * length packed.now + bytes → Leaves (write_refused (length out.old) Refusal.BundleRoom) result out.new }
{
    if out.len() < HEADER + 4 * packed.len() + bytes {
        return bundles::refuse(out, Refusal::BundleRoom);
    }
    bundle_frame::write_before(packed, bytes, out)
}
