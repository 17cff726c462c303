// Namespace normalization into lent buffers.
#![tactic(auto)]

ghost use Rattle.std.specs.Prelude.{◌≡◌, length, replicate, ◌<◌};
ghost use Rattle.rules.specs.Table.{row_count};
ghost use Rattle.rules.specs.Normalization.{normalized};
ghost use Rattle.checker.specs.Lent.{Lent as Numbering};
ghost use Rattle.input.specs.Lent.{Blank};
ghost use Rattle.normal_form.specs.Lent.{Topped};

use rules::{Filled, Refusal};

// Namespace normalization of a table and its pool into an output table and an output pool: so that
// every element and every owned attribute means its URI in scope, whatever the other rows hold.
// Success answers the rows and bytes that the result takes; the rest of both outputs is zero. A
// refusal, by the check's numbers and then 9, 10 or 11, leaves both outputs all zero.
pub fn normalize(
    table: &[u32],
    pool: &[u8],
    out_table: &mut [u32],
    out_pool: &mut [u8],
) -> Result<Filled, Refusal>
    ensures value { result ≡ (normalized table.now pool.now (length out_table.old) (length out_pool.old)).answer }
    ensures out_table_after { out_table.new ≡ (normalized table.now pool.now (length out_table.old) (length out_pool.old)).table }
    ensures out_pool_after { out_pool.new ≡ (normalized table.now pool.now (length out_table.old) (length out_pool.old)).pool }
{
    if table_size::has_many_rows(table) {
        return normalize_in::<
            { checker::DICTIONARY },
            { input::NOTES },
            { input::PATH },
            { normal_form::TOPS },
        >(table, pool, out_table, out_pool);
    }
    normalize_in::<
        { checker::SMALL_DICTIONARY },
        { input::SMALL_NOTES },
        { input::SMALL_PATH },
        { normal_form::SMALL_TOPS },
    >(table, pool, out_table, out_pool)
}

// The same, in arrays of so many words.
#[inline(never)]
fn normalize_in<
    const DICTIONARY_WORDS: usize,
    const NOTE_WORDS: usize,
    const PATH_WORDS: usize,
    const TOP_WORDS: usize,
>(table: &[u32], pool: &[u8], out_table: &mut [u32], out_pool: &mut [u8]) -> Result<Filled, Refusal>
    requires dictionary_size { DICTIONARY_WORDS < 65536 }
    requires note_size { NOTE_WORDS < 65536 }
    requires path_size { PATH_WORDS < 65536 }
    requires top_size { TOP_WORDS < 65536 }
    requires blank { Blank (row_count table.now) (replicate NOTE_WORDS 0) (replicate PATH_WORDS 0) }
    requires numbering { Numbering table.now (replicate DICTIONARY_WORDS 0) (replicate NOTE_WORDS 0) }
    requires topped { Topped (row_count table.now) (replicate TOP_WORDS 0) }
    ensures value { result ≡ (normalized table.now pool.now (length out_table.old) (length out_pool.old)).answer }
    ensures out_table_after { out_table.new ≡ (normalized table.now pool.now (length out_table.old) (length out_pool.old)).table }
    ensures out_pool_after { out_pool.new ≡ (normalized table.now pool.now (length out_table.old) (length out_pool.old)).pool }
{
    normalize_lent(
        table,
        pool,
        out_table,
        out_pool,
        &mut [0; DICTIONARY_WORDS],
        &mut [0; NOTE_WORDS],
        &mut [0; PATH_WORDS],
        &mut [0; TOP_WORDS],
    )
}

// The same, in arrays that are lent.
fn normalize_lent(
    table: &[u32],
    pool: &[u8],
    out_table: &mut [u32],
    out_pool: &mut [u8],
    dictionary: &mut [u16],
    notes: &mut [u16],
    path: &mut [u16],
    tops: &mut [u16],
) -> Result<Filled, Refusal>
    requires blank { Blank (row_count table.now) notes.old path.old }
    requires numbering { Numbering table.now dictionary.old notes.old }
    requires topped { Topped (row_count table.now) tops.old }
    ensures value { result ≡ (normalized table.now pool.now (length out_table.old) (length out_pool.old)).answer }
    ensures out_table_after { out_table.new ≡ (normalized table.now pool.now (length out_table.old) (length out_pool.old)).table }
    ensures out_pool_after { out_pool.new ≡ (normalized table.now pool.now (length out_table.old) (length out_pool.old)).pool }
{
    match input::judge(table, pool, dictionary, notes, path) {
        Ok(names) => {
            made_in_outputs::normalize_accepted(
                table, pool, out_table, out_pool, notes, path, tops, names,
            )
        }
        Err(why) => outputs::refuse(out_table, out_pool, why),
    }
}
