// A table and its pool copied to lent outputs, once the check has judged them.
#![tactic(auto)]

ghost use Rattle.std.specs.Prelude.{◌≡◌, length};
ghost use Rattle.rules.specs.Refusals.{verdict, checked};
ghost use Rattle.bundles.specs.Operations.{table_read_refusal, table_read};

use rules::{Filled, Refusal};

// Copies a table and its pool to the outputs, if the check has accepted them and there is room: its refusals, 10 and 11.
pub fn read(
    drawn: Result<(), Refusal>,
    table: &[u32],
    pool: &[u8],
    out_table: &mut [u32],
    out_pool: &mut [u8],
) -> Result<Filled, Refusal>
    requires { drawn ≡ checked table.now pool.now }
    ensures value { result ≡ (table_read table.now pool.now (length out_table.old) (length out_pool.old)).answer }
    ensures out_table_after { out_table.new ≡ (table_read table.now pool.now (length out_table.old) (length out_pool.old)).table }
    ensures out_pool_after { out_pool.new ≡ (table_read table.now pool.now (length out_table.old) (length out_pool.old)).pool }
{
    match judge_read(drawn, table, pool, out_table.len(), out_pool.len()) {
        Ok(()) => {
            let rows = rows::row_count(table);
            buffers::copy_words(table, out_table);
            buffers::clear_words(out_table, rows);
            buffers::copy_bytes(pool, out_pool);
            buffers::clear_bytes(out_pool, pool.len());
            Ok(Filled {
                rows,
                bytes: pool.len(),
            })
        }
        Err(x) => outputs::refuse(out_table, out_pool, x),
    }
}

// What a read is refused for: what the check has drawn, and then 10 and 11.
fn judge_read(
    drawn: Result<(), Refusal>,
    table: &[u32],
    pool: &[u8],
    words: usize,
    bytes: usize,
) -> Result<(), Refusal>
    requires { drawn ≡ checked table.now pool.now }
    ensures { result ≡ verdict (table_read_refusal table.now pool.now words bytes) }
{
    drawn?;
    if words / rules::WIDTH < rows::row_count(table) {
        return Err(Refusal::RowRoom);
    }
    if bytes < pool.len() {
        return Err(Refusal::PoolRoom);
    }
    Ok(())
}
