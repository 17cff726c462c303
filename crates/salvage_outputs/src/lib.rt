// The outputs of salvage, once the fate of each row is known: 10, or the kept rows and the list of the others.
#![tactic(auto)]

ghost use Rattle.std.specs.Prelude.{◌≡◌, ◌||◌, List, ℕ, ◌/◌, ltb, length, replicate, Err};
ghost use Rattle.rules.specs.Table.{WIDTH, row_count};
ghost use Rattle.rules.specs.Outputs.{padded};
ghost use Rattle.salvage.specs.Salvage.{ENTRY, salvaged};
ghost use Rattle.salvage_outputs.specs.Decided.{Decided};
ghost use Rattle.kept_table.specs.Kept.{kept_words};
ghost use Rattle.dropped_list.specs.Dropped.{dropped_words};
ghost use Rattle.salvage_outputs.specs.Filling.{SomeDecided, Filling};

use rules::{Refusal, Salvaged};

// Writes the rows that are kept and the list of those that are dropped, if nothing is refused and both outputs have room.
pub fn finish(
    decided: Result<Salvaged, Refusal>,
    table: &[u32],
    fates: &[u32],
    out_table: &mut [u32],
    list: &mut [u32],
) -> Result<Salvaged, Refusal>
    requires { SomeDecided table.now fates.now decided }
    ensures by_index { (pool : List ℕ) → Decided table.now pool fates.now decided → result ≡ (salvaged table.now pool (length out_table.old) (length list.old)).answer }
    ensures by_index_2 { (pool : List ℕ) → Decided table.now pool fates.now decided → out_table.new ≡ (salvaged table.now pool (length out_table.old) (length list.old)).table }
    ensures by_index_3 { (pool : List ℕ) → Decided table.now pool fates.now decided → list.new ≡ (salvaged table.now pool (length out_table.old) (length list.old)).list }
{
    match decided {
        Ok(kept) => {
            if is_short(kept.rows, kept.dropped, out_table.len(), list.len()) {
                return refuse(out_table, list, Refusal::RowRoom);
            }
            fill(table, fates, kept.rows, kept.dropped, out_table, list);
            decided
        }
        Err(x) => refuse(out_table, list, x),
    }
}

// The words of a table are too few for so many rows, or those of a list for so many entries.
fn is_short(rows: usize, dropped: usize, table_words: usize, list_words: usize) -> bool
    ensures { result ≡ (ltb (table_words / WIDTH) rows || ltb (list_words / ENTRY) dropped) }
{
    (table_words / rules::WIDTH < rows) | (list_words / dropped_list::ENTRY < dropped)
}

// Fills both outputs. A table of which nothing is dropped is copied as it stands.
fn fill(
    table: &[u32],
    fates: &[u32],
    rows: usize,
    dropped: usize,
    out_table: &mut [u32],
    list: &mut [u32],
)
    requires { Filling table.now fates.now rows dropped (length out_table.old) (length list.old) }
    ensures out_table_after { out_table.new ≡ padded (length out_table.old) (kept_words table.now fates.now (row_count table.now)) }
    ensures list_after { list.new ≡ padded (length list.old) (dropped_words fates.now (row_count table.now)) }
{
    if dropped == 0 {
        buffers::copy_words(table, out_table);
        buffers::clear_words(out_table, rows);
        buffers::clear_words(list, 0);
        return;
    }
    kept_table::write(table, fates, out_table);
    buffers::clear_words(out_table, rows);
    dropped_list::write(fates, rows::row_count(table), list);
}

// Refuses, and clears both outputs.
fn refuse(out_table: &mut [u32], list: &mut [u32], why: Refusal) -> Result<Salvaged, Refusal>
    ensures value { result ≡ Err why }
    ensures out_table_after { out_table.new ≡ replicate (length out_table.old) 0 }
    ensures list_after { list.new ≡ replicate (length list.old) 0 }
{
    buffers::clear_words(out_table, 0);
    buffers::clear_words(list, 0);
    Err(why)
}
