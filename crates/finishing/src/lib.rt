// The end of a normalization into lent outputs: the room for its result is judged, and the outputs are completed or refused.
#![tactic(auto)]

ghost use Rattle.std.specs.Prelude.{◌≡◌, ◌*◌, ◌≤◌, length};
ghost use Rattle.rules.specs.Table.{WIDTH};
ghost use Rattle.outputs.specs.Ended.{ended};

use rules::{Filled, Refusal};

// Ends a normalization whose result takes so many rows of the output table and so many bytes of a working pool: judges the room
// for it, and completes the outputs or refuses. More rows than the limit stand for any result that does not fit.
pub fn finish(
    out_table: &mut [u32],
    out_pool: &mut [u8],
    work: &[u8],
    rows: usize,
    bytes: usize,
    limit: usize,
) -> Result<Filled, Refusal>
    requires { rows ≤ limit → (WIDTH * rows ≤ length out_table.old) × (bytes ≤ length work.now) }
    ensures value { result ≡ (ended limit out_table.old (length out_pool.old) work.now rows bytes).answer }
    ensures out_table_after { out_table.new ≡ (ended limit out_table.old (length out_pool.old) work.now rows bytes).table }
    ensures out_pool_after { out_pool.new ≡ (ended limit out_table.old (length out_pool.old) work.now rows bytes).pool }
{
    match outputs::room(rows, bytes, limit, out_pool.len()) {
        Ok(()) => {
            buffers::clear_words(out_table, rows);
            buffers::copy_bytes(&work[..bytes], out_pool);
            buffers::clear_bytes(out_pool, bytes);
            Ok(Filled { rows, bytes })
        }
        Err(why) => outputs::refuse(out_table, out_pool, why),
    }
}
