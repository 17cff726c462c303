// Salvage of the bytes of a session bundle into another one, with the whole pool, and a list of the rows that are dropped.
#![tactic(auto)]

ghost use Rattle.std.specs.Prelude.{◌≡◌, length, replicate, ◌<◌};
ghost use Rattle.bundles.specs.Opening.{HasRoom};
ghost use Rattle.salvage.specs.Salvage.{bundle_salvaged};

use rules::{Refusal, Rescued};

// The words of the largest table, and of a small one.
const WORDS: usize = rules::WIDTH * rules::MOST_ROWS;

const FEW_WORDS: usize = rules::WIDTH * table_size::FEW_ROWS;

// Salvages a bundle into a bundle and a list. Success answers the bytes that it takes and how many rows are dropped; the rest
// of both outputs is zero, and all of them after a refusal.
pub fn salvage(bundle: &[u8], out: &mut [u8], list: &mut [u32]) -> Result<Rescued, Refusal>
    ensures value { result ≡ (bundle_salvaged bundle.now (length out.old) (length list.old)).answer }
    ensures out_after { out.new ≡ (bundle_salvaged bundle.now (length out.old) (length list.old)).bytes }
    ensures list_after { list.new ≡ (bundle_salvaged bundle.now (length out.old) (length list.old)).list }
{
    if small_bundles::has_many_rows(bundle) {
        return salvage_in::<WORDS>(bundle, out, list);
    }
    salvage_in::<FEW_WORDS>(bundle, out, list)
}

// The same in tables of so many words.
#[inline(never)]
fn salvage_in<const TABLE_WORDS: usize>(
    bundle: &[u8],
    out: &mut [u8],
    list: &mut [u32],
) -> Result<Rescued, Refusal>
    requires table_size { TABLE_WORDS < 65536 }
    requires has_room { HasRoom bundle.now (replicate TABLE_WORDS 0) }
    ensures value { result ≡ (bundle_salvaged bundle.now (length out.old) (length list.old)).answer }
    ensures out_after { out.new ≡ (bundle_salvaged bundle.now (length out.old) (length list.old)).bytes }
    ensures list_after { list.new ≡ (bundle_salvaged bundle.now (length out.old) (length list.old)).list }
{
    let mut words = [0; TABLE_WORDS];
    match bundle_opening::read_rows(bundle, &mut words) {
        Ok(rows) => {
            let table = bundle_parts::table(&words, rows);
            let pool = bundle_parts::pool(bundle);
            let mut kept = [0; TABLE_WORDS];
            let salvaged = salvager::salvage(table, pool, &mut kept, list);
            salvaged_bundle::finish(salvaged, &kept, pool, out, list)
        }
        Err(x) => salvaged_bundle::refuse(out, list, x),
    }
}
