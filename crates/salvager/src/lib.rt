// Salvage of a table: its rows without those that draw 6, and those that draw 7 against a kept row, and a list of these.
#![tactic(auto)]

ghost use Rattle.std.specs.Prelude.{◌≡◌, length, replicate, ◌<◌};
ghost use Rattle.checker.specs.Lent.{Lent};
ghost use Rattle.salvage_judge.specs.Lent.{FatesLent};
ghost use Rattle.salvage.specs.Salvage.{salvaged};

use rules::{Refusal, Salvaged};

// Writes the kept rows to the output table, their parents by new numbers, and the dropped ones to the list, two words for each:
// the number that the row had, and 6 or 7. Success answers how many rows are kept and how many dropped; the rest of both
// outputs is zero, and all of them after a refusal.
pub fn salvage(
    table: &[u32],
    pool: &[u8],
    out_table: &mut [u32],
    list: &mut [u32],
) -> Result<Salvaged, Refusal>
    ensures value { result ≡ (salvaged table.now pool.now (length out_table.old) (length list.old)).answer }
    ensures out_table_after { out_table.new ≡ (salvaged table.now pool.now (length out_table.old) (length list.old)).table }
    ensures list_after { list.new ≡ (salvaged table.now pool.now (length out_table.old) (length list.old)).list }
{
    if rows::row_count(table) <= table_size::FEW_ROWS {
        return salvage_in::<
            { checker::SMALL_DICTIONARY },
            { checker::SMALL_NOTES },
            { table_size::FEW_ROWS },
        >(table, pool, out_table, list);
    }
    salvage_in::<{ checker::DICTIONARY }, { checker::NOTES }, { rules::MOST_ROWS }>(
        table, pool, out_table, list,
    )
}

// Salvage in arrays of so many words.
#[inline(never)]
fn salvage_in<const DICTIONARY_WORDS: usize, const NOTE_WORDS: usize, const FATE_WORDS: usize>(
    table: &[u32],
    pool: &[u8],
    out_table: &mut [u32],
    list: &mut [u32],
) -> Result<Salvaged, Refusal>
    requires dictionary_size { DICTIONARY_WORDS < 65536 }
    requires note_size { NOTE_WORDS < 65536 }
    requires fate_size { FATE_WORDS < 65536 }
    requires lent { Lent table.now (replicate DICTIONARY_WORDS 0) (replicate NOTE_WORDS 0) }
    requires fates_lent { FatesLent table.now (replicate FATE_WORDS 0) }
    ensures value { result ≡ (salvaged table.now pool.now (length out_table.old) (length list.old)).answer }
    ensures out_table_after { out_table.new ≡ (salvaged table.now pool.now (length out_table.old) (length list.old)).table }
    ensures list_after { list.new ≡ (salvaged table.now pool.now (length out_table.old) (length list.old)).list }
{
    let mut dictionary = [0; DICTIONARY_WORDS];
    let mut notes = [0; NOTE_WORDS];
    let mut fates = [0; FATE_WORDS];
    let decided = salvage_judge::judge(table, pool, &mut dictionary, &mut notes, &mut fates);
    salvage_outputs::finish(decided, table, &fates, out_table, list)
}
