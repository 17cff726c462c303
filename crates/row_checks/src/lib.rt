// One pass over the rows of a table, in their order: refusals 2 to 7 and 12 to 14. Each name gets a number on the way, equal
// exactly where the bytes are equal. A fault of a row ends it. So does a conflict, unless rows are dropped for theirs: then it is
// noted as the row's fate, and only kept rows are entered, with which rows behind are compared.
#![tactic(auto)]

ghost use Rattle.std.specs.Prelude.{◌≡◌, Bool, true, false, cond, ◌&&◌, not, List, ℕ, ◌+◌, ◌≤◌, ◌<◌, eqb, length, get_or, Ok};
ghost use Rattle.rules.specs.Lists.{all_of};
ghost use Rattle.rules.specs.Table.{row_count, nodes};
ghost use Rattle.rules.specs.Utf8.{is_ascii};
ghost use Rattle.rules.specs.Refusals.{verdict};
ghost use Rattle.notes.specs.Notes.{NOTES, LATEST, note_at};
ghost use Rattle.dictionary.specs.Dictionary.{last_of, is_hard, Dictionary};
ghost use Rattle.value_bytes.specs.Judging.{Judging};
ghost use Rattle.tree.specs.Parents.{Right};
ghost use Rattle.fates.specs.Fates.{Fated};
ghost use Rattle.row_checks.specs.Pass.{rows_refusal};
ghost use Rattle.row_checks.specs.Arrays.{Enough, Named};
ghost use Rattle.row_checks.specs.Judging.{checked_of, Judged, step_refusal, Going, Counted, SomeGoing};

use rules::{Refusal, Row, Salvaged};
use tree::structure;

// Refusals 2 to 7 and 12 to 14, rows ascending. Where that is wanted, it stops once the names are hard, and then its answer tells
// nothing.
pub fn check_rows(
    table: &[u32],
    pool: &[u8],
    ascii: bool,
    marks: &[u16],
    dictionary: &mut [u16],
    notes: &mut [u16],
    stops: bool,
) -> Result<(), Refusal>
    requires enough { Enough table.now pool.now dictionary.old notes.old }
    requires judging { Judging pool.now marks.now ascii }
    requires dictionary { Dictionary dictionary.old pool.now × (last_of dictionary.old ≤ 0) }
    ensures value { (stops && is_hard dictionary.new) ≡ false → result ≡ verdict (rows_refusal table.now pool.now) }
    ensures named { (stops && is_hard dictionary.new) ≡ false → result ≡ Ok tt → Named table.now pool.now dictionary.new notes.new }
    ensures by_index { (q k : ℕ) → LATEST ≤ k → k < NOTES → note_at notes.new q k ≡ note_at notes.old q k }
{
    let mut fates = [0; 1];
    judge_rows(
        table, pool, ascii, marks, dictionary, notes, &mut fates, stops, false,
    )?;
    Ok(())
}

// The first refusal of the rows, or how many are kept and how many dropped. Where rows are dropped for their conflicts, refusals 6
// and 7, only faults refuse, and the fate of each row is noted. Behind a row as many are passed at one look each, which draw
// none, as long as none is dropped.
pub fn judge_rows(
    table: &[u32],
    pool: &[u8],
    ascii: bool,
    marks: &[u16],
    dictionary: &mut [u16],
    notes: &mut [u16],
    fates: &mut [u32],
    stops: bool,
    drops: bool,
) -> Result<Salvaged, Refusal>
    requires enough { Enough table.now pool.now dictionary.old notes.old }
    requires judging { Judging pool.now marks.now ascii }
    requires dictionary { Dictionary dictionary.old pool.now × (last_of dictionary.old ≤ 0) }
    requires table_in_bounds { drops ≡ true → row_count table.now ≤ length fates.old }
    requires fated { drops ≡ true → Fated (nodes table.now pool.now) fates.old 0 }
    ensures judged { (stops && is_hard dictionary.new) ≡ false → drops ≡ true → Judged table.now pool.now fates.new result }
    ensures result_value { (stops && is_hard dictionary.new) ≡ false → drops ≡ false → checked_of result ≡ verdict (rows_refusal table.now pool.now) }
    ensures named { (stops && is_hard dictionary.new) ≡ false → checked_of result ≡ Ok tt → Named table.now pool.now dictionary.new notes.new }
    ensures by_index { (q k : ℕ) → LATEST ≤ k → k < NOTES → note_at notes.new q k ≡ note_at notes.old q k }
{
    let allowed = structure::allowed_parents();
    let mut chains = [0; doubles::WORDS];
    let mut dropped = 0;
    let mut r: u32 = 0;
    // A step goes over as many rows as `pass` passes, so no range gives r.
    while rows::has_row(table, Row(r)) {
        judge_row(
            table,
            pool,
            ascii,
            marks,
            &allowed,
            dictionary,
            notes,
            &mut chains,
            fates,
            drops,
            Row(r),
        )?;
        if stops & dictionary::is_hard(dictionary) {
            return Ok(Salvaged {
                rows: 0,
                dropped: 0,
            });
        }
        dropped = counted(fates, drops, dropped, Row(r));
        let next = r + 1;
        r = pass(
            table,
            pool,
            ascii,
            dictionary,
            notes,
            &mut chains,
            dropped,
            Row(next),
        )
        .0;
    }
    let rows = rows::wide(r) - dropped;
    Ok(Salvaged { rows, dropped })
}

// What a row is refused for. Where it is not, its names get their numbers, and it is entered if it has no conflict; if it may have
// one, its fate is noted.
fn judge_row(
    table: &[u32],
    pool: &[u8],
    ascii: bool,
    marks: &[u16],
    allowed: &[u16],
    dictionary: &mut [u16],
    notes: &mut [u16],
    chains: &mut [u16],
    fates: &mut [u32],
    drops: bool,
    row: Row,
) -> Result<(), Refusal>
    requires enough { Enough table.now pool.now dictionary.old notes.old }
    requires judging { Judging pool.now marks.now ascii }
    requires right { Right allowed.now }
    requires row_bound { row.0 < row_count table.now }
    requires table_in_bounds { drops ≡ true → row_count table.now ≤ length fates.old }
    requires going { Going drops table.now pool.now dictionary.old notes.old chains.old fates.old row.0 }
    ensures value { result ≡ verdict (step_refusal drops table.now pool.now row.0) }
    ensures going_2 { result ≡ Ok tt → Going drops table.now pool.now dictionary.new notes.new chains.new fates.new (row.0 + 1) }
    ensures by_index { (q k : ℕ) → LATEST ≤ k → k < NOTES → note_at notes.new q k ≡ note_at notes.old q k }
{
    faults::check(table, pool, ascii, marks, allowed, dictionary, notes, row)?;
    let conflict = conflicts::check(table, dictionary, notes, chains, row);
    if !drops {
        return conflict;
    }
    fates::note(fates, row, conflict);
    Ok(())
}

// How many rows are dropped up to a row, of so many before it.
fn counted(fates: &[u32], drops: bool, dropped: usize, row: Row) -> usize
    requires { (drops ≡ true → row.0 < length fates.now) × (dropped ≤ row.0) × (row.0 < 65536) }
    ensures { result ≡ cond (drops && not (eqb (get_or fates.now row.0 0) 0)) (dropped + 1) dropped }
{
    if !drops {
        return dropped;
    }
    if fates::is_dropped(fates, row) {
        return dropped + 1;
    }
    dropped
}

// The first row from this one on that is not passed at one look. Rows are passed so as long as none is dropped.
fn pass(
    table: &[u32],
    pool: &[u8],
    ascii: bool,
    dictionary: &[u16],
    notes: &mut [u16],
    chains: &mut [u16],
    dropped: usize,
    from: Row,
) -> Row
    requires ascii_value { ascii ≡ all_of is_ascii pool.now }
    requires some_going { SomeGoing table.now pool.now dictionary.now notes.old chains.old dropped from.0 }
    ensures from_le_result { from.0 ≤ result.0 }
    ensures counted { (drops : Bool) (fates : List ℕ) → Counted drops table.now pool.now dictionary.now notes.old chains.old fates dropped from.0 → Counted drops table.now pool.now dictionary.now notes.new chains.new fates dropped result.0 }
    ensures by_index { (q k : ℕ) → LATEST ≤ k → k < NOTES → note_at notes.new q k ≡ note_at notes.old q k }
{
    if dropped > 0 {
        return from;
    }
    fast_path::pass(table, pool, ascii, dictionary, notes, chains, from)
}
