// What becomes of a table that is salvaged: refusals 1 to 5 and 12 to 14, or the fate of each of its rows.
#![tactic(auto)]

ghost use Rattle.std.specs.Prelude.{◌≤◌, length};
ghost use Rattle.rules.specs.Table.{row_count, nodes};
ghost use Rattle.dictionary.specs.Dictionary.{last_of, Dictionary};
ghost use Rattle.value_bytes.specs.Judging.{Judging};
ghost use Rattle.row_checks.specs.Arrays.{Enough};
ghost use Rattle.checker.specs.Lent.{Lent};
ghost use Rattle.fates.specs.Fates.{Fated};
ghost use Rattle.salvage_outputs.specs.Decided.{Decided};
ghost use Rattle.row_checks.specs.Judging.{Judged};
ghost use Rattle.salvage_judge.specs.Lent.{FatesLent};

use rules::{Refusal, Salvaged};

// The first refusal, or how many rows are kept and how many dropped, with the fate of each.
pub fn judge(
    table: &[u32],
    pool: &[u8],
    dictionary: &mut [u16],
    notes: &mut [u16],
    fates: &mut [u32],
) -> Result<Salvaged, Refusal>
    requires lent { Lent table.now dictionary.old notes.old }
    requires fates_lent { FatesLent table.now fates.old }
    ensures { Decided table.now pool.now fates.new result }
{
    if table_size::is_bad(table, pool) {
        return Err(Refusal::Size);
    }
    let ascii = utf8::is_ascii(pool);
    let mut marks = [0; marks::WORDS];
    value_bytes::mark(table, pool, ascii, &mut marks);
    judge_sized(table, pool, ascii, &marks, dictionary, notes, fates)
}

// The same of a table whose size is not refused.
fn judge_sized(
    table: &[u32],
    pool: &[u8],
    ascii: bool,
    marks: &[u16],
    dictionary: &mut [u16],
    notes: &mut [u16],
    fates: &mut [u32],
) -> Result<Salvaged, Refusal>
    requires enough { Enough table.now pool.now dictionary.old notes.old }
    requires judging { Judging pool.now marks.now ascii }
    requires dictionary { Dictionary dictionary.old pool.now × (last_of dictionary.old ≤ 0) }
    requires table_in_bounds { row_count table.now ≤ length fates.old }
    requires fated { Fated (nodes table.now pool.now) fates.old 0 }
    ensures { Judged table.now pool.now fates.new result }
{
    let first = row_checks::judge_rows(
        table, pool, ascii, marks, dictionary, notes, fates, true, true,
    );
    if dictionary::is_hard(dictionary) {
        return judge_hard(table, pool, ascii, marks, dictionary, notes, fates);
    }
    first
}

// The same of a table whose names are hard for the plain hash, from the first row on.
fn judge_hard(
    table: &[u32],
    pool: &[u8],
    ascii: bool,
    marks: &[u16],
    dictionary: &mut [u16],
    notes: &mut [u16],
    fates: &mut [u32],
) -> Result<Salvaged, Refusal>
    requires enough { Enough table.now pool.now dictionary.old notes.old }
    requires judging { Judging pool.now marks.now ascii }
    requires table_in_bounds { row_count table.now ≤ length fates.old }
    ensures { Judged table.now pool.now fates.new result }
{
    dictionary::harden(dictionary, table, pool);
    buffers::clear_words(fates, 0);
    row_checks::judge_rows(
        table, pool, ascii, marks, dictionary, notes, fates, false, true,
    )
}
