// The output table and the output pool that an operation fills: how many rows may stand in them, and what is left in them at the end.
#![tactic(auto)]

ghost use Rattle.std.specs.Prelude.{◌≡◌, length};
ghost use Rattle.rules.specs.Refusals.{verdict};
ghost use Rattle.rules.specs.Outputs.{refusal};
ghost use Rattle.rules.proofs.Bounds.{Limit};
ghost use Rattle.outputs.specs.Ended.{room_lack};

use rules::{Filled, Refusal};

// How many rows a result may have: as many as the output table holds whole, and no more than a table may.
pub fn row_limit(words: usize) -> usize
    ensures { Limit words result }
{
    (words / rules::WIDTH).min(rules::MOST_ROWS)
}

// Refuses, and clears both outputs.
pub fn refuse(out_table: &mut [u32], out_pool: &mut [u8], why: Refusal) -> Result<Filled, Refusal>
    ensures value { result ≡ (refusal (length out_table.old) (length out_pool.old) why).answer }
    ensures out_table_after { out_table.new ≡ (refusal (length out_table.old) (length out_pool.old) why).table }
    ensures out_pool_after { out_pool.new ≡ (refusal (length out_table.old) (length out_pool.old) why).pool }
{
    buffers::clear_words(out_table, 0);
    buffers::clear_bytes(out_pool, 0);
    Err(why)
}

// The room for so many rows and so many bytes of a pool: refusals 10 and 11.
pub fn room(rows: usize, bytes: usize, limit: usize, size: usize) -> Result<(), Refusal>
    ensures { result ≡ verdict (room_lack limit size rows bytes) }
{
    let over_rows = limit < rows;
    let over_bytes = (rules::MOST_BYTES < bytes) | (size < bytes);
    if over_rows {
        return Err(Refusal::RowRoom);
    }
    if over_bytes {
        return Err(Refusal::PoolRoom);
    }
    Ok(())
}
