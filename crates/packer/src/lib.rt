// Packing into lent buffers: a table over a pool that is each distinct non-empty field once, end to end, in order of first use by
// row and then word.
#![tactic(auto)]

ghost use Rattle.std.specs.Prelude.{◌≡◌, List, ℕ, ◌/◌, ◌≤◌, length, replicate, ◌<◌};
ghost use Rattle.rules.specs.Table.{WIDTH, row_count};
ghost use Rattle.dictionary.specs.Dictionary.{Dictionary};
ghost use Rattle.packing.specs.Packing.{packed};
ghost use Rattle.packed_table.specs.Packed.{Enough, Blank, Noted};
ghost use Rattle.packer.specs.Lent.{Lent, Limit};

use rules::{Filled, Refusal};

// The words of the arrays that are lent for a small table and for any.
pub const SMALL_INDEX: usize = packed_index::EMPTY_WORDS
    + 4 * table_size::FEW_ROWS * packed_index::WIDTH;

pub const SMALL_STARTS: usize = 3 * table_size::FEW_ROWS + 1;

pub const INDEX: usize = packed_index::EMPTY_WORDS + 4 * rules::MOST_ROWS * packed_index::WIDTH;

pub const STARTS: usize = 3 * rules::MOST_ROWS + 1;

// Packs a table and its pool into an output table and an output pool. Every field keeps its bytes and every other word its number.
// Success answers the rows and bytes that the result takes; the rest of both outputs is zero. A refusal, by the check's numbers
// and then 10 or 11, leaves both outputs all zero.
pub fn pack(
    table: &[u32],
    pool: &[u8],
    out_table: &mut [u32],
    out_pool: &mut [u8],
) -> Result<Filled, Refusal>
    ensures value { result ≡ (packed table.now pool.now (length out_table.old) (length out_pool.old)).answer }
    ensures out_table_after { out_table.new ≡ (packed table.now pool.now (length out_table.old) (length out_pool.old)).table }
    ensures out_pool_after { out_pool.new ≡ (packed table.now pool.now (length out_table.old) (length out_pool.old)).pool }
{
    if rows::row_count(table) <= table_size::FEW_ROWS {
        return pack_in::<
            { checker::SMALL_DICTIONARY },
            { checker::SMALL_NOTES },
            SMALL_INDEX,
            SMALL_STARTS,
        >(table, pool, out_table, out_pool);
    }
    pack_in::<{ checker::DICTIONARY }, { checker::NOTES }, INDEX, STARTS>(
        table, pool, out_table, out_pool,
    )
}

// Packing in arrays of so many words.
#[inline(never)]
fn pack_in<
    const DICTIONARY_WORDS: usize,
    const NOTE_WORDS: usize,
    const INDEX_WORDS: usize,
    const START_WORDS: usize,
>(table: &[u32], pool: &[u8], out_table: &mut [u32], out_pool: &mut [u8]) -> Result<Filled, Refusal>
    requires dictionary_size { DICTIONARY_WORDS < 65536 }
    requires note_size { NOTE_WORDS < 65536 }
    requires index_size { INDEX_WORDS < 65536 }
    requires start_size { START_WORDS < 65536 }
    requires lent { Lent table.now (replicate DICTIONARY_WORDS 0) (replicate NOTE_WORDS 0) (replicate INDEX_WORDS 0) (replicate START_WORDS 0) }
    ensures value { result ≡ (packed table.now pool.now (length out_table.old) (length out_pool.old)).answer }
    ensures out_table_after { out_table.new ≡ (packed table.now pool.now (length out_table.old) (length out_pool.old)).table }
    ensures out_pool_after { out_pool.new ≡ (packed table.now pool.now (length out_table.old) (length out_pool.old)).pool }
{
    pack_lent(
        table,
        pool,
        &mut [0; DICTIONARY_WORDS],
        &mut [0; NOTE_WORDS],
        &mut [0; INDEX_WORDS],
        &mut [0; START_WORDS],
        out_table,
        out_pool,
    )
}

// Packing of any input: the check first, and 10 before any field is entered.
fn pack_lent(
    table: &[u32],
    pool: &[u8],
    dictionary: &mut [u16],
    notes: &mut [u16],
    index: &mut [u16],
    starts: &mut [u16],
    out_table: &mut [u32],
    out_pool: &mut [u8],
) -> Result<Filled, Refusal>
    requires { Lent table.now dictionary.old notes.old index.old starts.old }
    ensures value { result ≡ (packed table.now pool.now (length out_table.old) (length out_pool.old)).answer }
    ensures out_table_after { out_table.new ≡ (packed table.now pool.now (length out_table.old) (length out_pool.old)).table }
    ensures out_pool_after { out_pool.new ≡ (packed table.now pool.now (length out_table.old) (length out_pool.old)).pool }
{
    match checker::check_numbered(table, pool, dictionary, notes) {
        Ok(()) => {
            if out_table.len() / rules::WIDTH < rows::row_count(table) {
                return outputs::refuse(out_table, out_pool, Refusal::RowRoom);
            }
            let limit = pool_limit(out_pool.len());
            pack_accepted(
                table, pool, dictionary, notes, index, starts, out_table, out_pool, limit,
            )
        }
        Err(x) => outputs::refuse(out_table, out_pool, x),
    }
}

// Packing of a table that the check accepts, into an output table that has room for its rows.
fn pack_accepted(
    table: &[u32],
    pool: &[u8],
    dictionary: &mut [u16],
    notes: &[u16],
    index: &mut [u16],
    starts: &mut [u16],
    out_table: &mut [u32],
    out_pool: &mut [u8],
    limit: usize,
) -> Result<Filled, Refusal>
    requires enough { Enough table.now pool.now notes.now index.old starts.old out_table.old limit }
    requires dictionary { Dictionary dictionary.old pool.now × Blank index.old starts.old }
    requires by_index { (spelling : ℕ → List ℕ) × (last : ℕ) × Noted table.now pool.now notes.now spelling last }
    requires table_in_bounds { (row_count table.now ≤ length out_table.old / WIDTH) × Limit (length out_pool.old) limit }
    ensures value { result ≡ (packed table.now pool.now (length out_table.old) (length out_pool.old)).answer }
    ensures out_table_after { out_table.new ≡ (packed table.now pool.now (length out_table.old) (length out_pool.old)).table }
    ensures out_pool_after { out_pool.new ≡ (packed table.now pool.now (length out_table.old) (length out_pool.old)).pool }
{
    let made = packed_table::pack(
        table, pool, dictionary, notes, index, starts, out_table, out_pool, limit,
    );
    if !made.fits {
        return outputs::refuse(out_table, out_pool, Refusal::PoolRoom);
    }
    let rows = rows::row_count(table);
    buffers::clear_words(out_table, rows);
    buffers::clear_bytes(out_pool, made.used);
    Ok(Filled {
        rows,
        bytes: made.used,
    })
}

// How many bytes a packed pool may have: as many as the output pool has, and no more than a pool may.
fn pool_limit(bytes: usize) -> usize
    ensures { Limit bytes result }
{
    bytes.min(rules::MOST_BYTES)
}
