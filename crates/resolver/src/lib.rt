// One lookup for every question, at a row of a node table. It begins alike, whatever it asks: the whole check, the row, the
// number of the name, the elements outward; and then asks along these. It writes nothing.
#![tactic(auto)]

ghost use Rattle.std.specs.Prelude.{◌≡◌, ◌<◌, ◌≤◌, replicate};
ghost use Rattle.rules.specs.Table.{MOST_ROWS, row_count};
ghost use Rattle.rules.specs.Lookups.{lookup_at};
ghost use Rattle.beginning.specs.Ground.{Blank};

use rules::{Bound, Question, Refusal, Row};

// The answer to any of the questions.
pub fn lookup(
    table: &[u32],
    pool: &[u8],
    row: Row,
    question: Question,
    query: &[u8],
) -> Result<Option<Bound>, Refusal>
    ensures { result ≡ lookup_at question table.now pool.now row.0 query.now }
{
    if rows::row_count(table) <= table_size::FEW_ROWS {
        return lookup_in::<{ checker::SMALL_NOTES }, { table_size::FEW_ROWS }>(
            table, pool, row, question, query,
        );
    }
    lookup_in::<{ checker::NOTES }, { rules::MOST_ROWS }>(table, pool, row, question, query)
}

// The same, in notes of so many words and a path of so many rows.
#[inline(never)]
fn lookup_in<const NOTE_WORDS: usize, const PATH_ROWS: usize>(
    table: &[u32],
    pool: &[u8],
    row: Row,
    question: Question,
    query: &[u8],
) -> Result<Option<Bound>, Refusal>
    requires note_size { NOTE_WORDS < 65536 }
    requires path_size { PATH_ROWS < 65536 }
    requires blank { Blank table.now (replicate NOTE_WORDS 0) }
    requires rows_few { row_count table.now ≤ MOST_ROWS → row_count table.now ≤ PATH_ROWS }
    ensures { result ≡ lookup_at question table.now pool.now row.0 query.now }
{
    let mut notes = [0; NOTE_WORDS];
    let mut path = [rules::NONE; PATH_ROWS];
    let begun = beginning::begin(table, pool, row, query, &mut notes);
    questions::lookup_begun(table, row, question, query, begun, &mut notes, &mut path)
}
