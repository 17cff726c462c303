// The conflicts of one row: refusals 6 and 7, what makes it a declaration or an attribute that may not
// stand there. A row without one is entered, and later rows are held against it; whoever goes through
// the rows decides what becomes of one that has.
#![tactic(auto)]

ghost use Rattle.std.specs.Prelude.{◌≡◌, List, Bool, ℕ, ◌+◌, ◌*◌, ◌≤◌, ◌<◌, length};
ghost use Rattle.rules.specs.Table.{row_count, node_at, nodes};
ghost use Rattle.rules.specs.Refusals.{verdict, bad_declaration};
ghost use Rattle.notes.specs.Notes.{NOTES};
ghost use Rattle.numbers.specs.Noted.{NodeNumbered, Numbered};
ghost use Rattle.dictionary.specs.Dictionary.{last_of, spelling, Dictionary};
ghost use Rattle.doubles.specs.Doubles.{bucket_at, Entered, SomeEntered};
ghost use Rattle.conflicts.specs.Conflicts.{conflict_refusal, Known, settled};

use row_names::declaration;
use rules::{Refusal, Row};

// The first conflict of the row, with those entered before it. Where it has none, it is entered too.
pub fn check(
    table: &[u32],
    dictionary: &[u16],
    notes: &[u16],
    chains: &mut [u16],
    row: Row,
) -> Result<(), Refusal>
    requires row_bound { row.0 < row_count table.now }
    requires known { Known dictionary.now notes.now row.0 }
    requires some_entered { SomeEntered table.now notes.now chains.old row.0 }
    ensures by_index { (enters : ℕ → Bool) (pool : List ℕ) → Entered enters table.now notes.now chains.old row.0 → Dictionary dictionary.now pool → Numbered table.now pool notes.now (spelling dictionary.now pool) (last_of dictionary.now) (row.0 + 1) → result ≡ verdict (conflict_refusal enters (nodes table.now pool) row.0) }
    ensures chains_after { chains.new ≡ settled result chains.old (bucket_at table.now notes.now (row.0 + 1)) row.0 }
{
    if bad_declaration(table, dictionary, notes, row) {
        return Err(Refusal::Declaration(row));
    }
    let bucket = doubles::bucket_at(table, notes, row);
    if doubles::is_double(table, notes, chains, bucket, row) {
        return Err(Refusal::Double(row));
    }
    doubles::enter(chains, bucket, row);
    Ok(())
}

// The row is an illegal declaration.
fn bad_declaration(table: &[u32], dictionary: &[u16], notes: &[u16], row: Row) -> bool
    requires row_bound { (row.0 < row_count table.now) × (NOTES * row_count table.now ≤ length notes.now) }
    requires known { Known dictionary.now notes.now row.0 }
    ensures { (pool : List ℕ) → Dictionary dictionary.now pool → NodeNumbered notes.now (spelling dictionary.now pool) (last_of dictionary.now) row.0 (node_at table.now pool row.0) → result ≡ bad_declaration (node_at table.now pool row.0) }
{
    if rows::kind(table, row) != rules::DECLARATION {
        return false;
    }
    let local = dictionary::name_kind(dictionary, notes::name(notes, row, notes::LOCAL_NAME));
    let value = dictionary::name_kind(dictionary, notes::name(notes, row, notes::VALUE));
    declaration::bad(local, value)
}
