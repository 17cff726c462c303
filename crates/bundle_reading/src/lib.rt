// The table and the pool of a session bundle, as copies.
#![tactic(auto)]

ghost use Rattle.std.specs.Prelude.{◌≡◌, length, replicate, ◌<◌};
ghost use Rattle.bundles.specs.Operations.{bundle_read};
ghost use Rattle.bundles.specs.Opening.{HasRoom};

use rules::{Filled, Refusal};

// The words of the largest table, and of a small one.
const WORDS: usize = rules::WIDTH * rules::MOST_ROWS;

const FEW_WORDS: usize = rules::WIDTH * table_size::FEW_ROWS;

// Reads a bundle into a table and a pool. Success answers the rows and bytes that it takes; the rest of both outputs is zero,
// and all of them after a refusal.
pub fn read(bundle: &[u8], out_table: &mut [u32], out_pool: &mut [u8]) -> Result<Filled, Refusal>
    ensures value { result ≡ (bundle_read bundle.now (length out_table.old) (length out_pool.old)).answer }
    ensures out_table_after { out_table.new ≡ (bundle_read bundle.now (length out_table.old) (length out_pool.old)).table }
    ensures out_pool_after { out_pool.new ≡ (bundle_read bundle.now (length out_table.old) (length out_pool.old)).pool }
{
    if small_bundles::has_many_rows(bundle) {
        return read_in::<WORDS>(bundle, out_table, out_pool);
    }
    read_in::<FEW_WORDS>(bundle, out_table, out_pool)
}

// The same in a table of so many words.
#[inline(never)]
fn read_in<const TABLE_WORDS: usize>(
    bundle: &[u8],
    out_table: &mut [u32],
    out_pool: &mut [u8],
) -> Result<Filled, Refusal>
    requires table_size { TABLE_WORDS < 65536 }
    requires has_room { HasRoom bundle.now (replicate TABLE_WORDS 0) }
    ensures value { result ≡ (bundle_read bundle.now (length out_table.old) (length out_pool.old)).answer }
    ensures out_table_after { out_table.new ≡ (bundle_read bundle.now (length out_table.old) (length out_pool.old)).table }
    ensures out_pool_after { out_pool.new ≡ (bundle_read bundle.now (length out_table.old) (length out_pool.old)).pool }
{
    let mut words = [0; TABLE_WORDS];
    match bundle_opening::read_rows(bundle, &mut words) {
        Ok(rows) => {
            let table = bundle_parts::table(&words, rows);
            let pool = bundle_parts::pool(bundle);
            table_reading::read(
                checker::check(table, pool),
                table,
                pool,
                out_table,
                out_pool,
            )
        }
        Err(x) => outputs::refuse(out_table, out_pool, x),
    }
}
