// The check of a proposal, a table and its pool, for an original: refusals 40 to 44. The proposal's pool is the other one.
// Nothing is written.
#![tactic(auto)]

ghost use Rattle.std.specs.Prelude.{◌≡◌, List, [], ◌∷◌, ℕ, ◌*◌, ◌≤◌, ◌<◌, length, Err};
ghost use Rattle.std.proofs.Math.Option.{none};
ghost use Rattle.rules.specs.Table.{MOST_ROWS, row_count, nodes};
ghost use Rattle.rules.specs.Answers.{number_of};
ghost use Rattle.rules.specs.Refusals.{verdict, check_refusal};
ghost use Rattle.rules.specs.declared.Refusal.{Refusal};
ghost use Rattle.notes.specs.Notes.{NOTES};
ghost use Rattle.table_size.specs.Small.{FEW_ROWS};
ghost use Rattle.beginning.specs.Ground.{Ground};
ghost use Rattle.scope_preparation.specs.Arrays.{Cleared};
ghost use Rattle.proposals.specs.Proposals.{unresolved_refusal, proposal_checked};
ghost use Rattle.name_pairs.specs.Noted.{Noted};

use refusal_numbers::Number;
use rules::{NameId, Refusal, Row};

pub mod row_numbers;

// The words of the arrays for a small table and for any: path and tops. Up to three names of each row have numbers.
const SMALL_PATH: usize = stacks::PATH * table_size::FEW_ROWS + stacks::PATH;

const SMALL_TOPS: usize = stacks::TOPS * (3 * table_size::FEW_ROWS + 1);

const PATH: usize = stacks::PATH * rules::MOST_ROWS + stacks::PATH;

const TOPS: usize = stacks::TOPS * (3 * rules::MOST_ROWS + 1);

// What a proposal for an original is refused for, or that it is accepted. The original is checked first; what stays of that are
// the numbers of its names.
pub fn check(original: &[u32], pool: &[u8], proposal: &[u32], other: &[u8]) -> Result<(), Refusal>
    ensures { result ≡ proposal_checked original.now pool.now proposal.now other.now }
{
    if rows::row_count(original) <= table_size::FEW_ROWS {
        return check_small(original, pool, proposal, other);
    }
    let mut mine = [0; checker::NOTES];
    check_original(original, pool, &mut mine, proposal, other)
}

// The same for an original of few rows.
fn check_small(original: &[u32], pool: &[u8], proposal: &[u32], other: &[u8]) -> Result<(), Refusal>
    requires { row_count original.now ≤ FEW_ROWS }
    ensures { result ≡ proposal_checked original.now pool.now proposal.now other.now }
{
    let mut mine = [0; checker::SMALL_NOTES];
    check_original(original, pool, &mut mine, proposal, other)
}

// The same, with notes for the rows of the original.
fn check_original(
    original: &[u32],
    pool: &[u8],
    mine: &mut [u16],
    proposal: &[u32],
    other: &[u8],
) -> Result<(), Refusal>
    requires { row_count original.now ≤ MOST_ROWS → NOTES * row_count original.now ≤ length mine.old }
    ensures { result ≡ proposal_checked original.now pool.now proposal.now other.now }
{
    match row_numbers::check(original, pool, mine) {
        Ok(()) => check_proposal(original, pool, mine, proposal, other),
        Err(why) => refuse_original(why),
    }
}

// The same, where the original passes the check, and its names have their numbers.
pub fn check_proposal(
    original: &[u32],
    pool: &[u8],
    mine: &[u16],
    proposal: &[u32],
    other: &[u8],
) -> Result<(), Refusal>
    requires pool_value { check_refusal original.now pool.now ≡ none }
    requires noted { Noted original.now pool.now mine.now }
    ensures { result ≡ proposal_checked original.now pool.now proposal.now other.now }
{
    if rows::row_count(proposal) <= table_size::FEW_ROWS {
        return check_few(original, pool, mine, proposal, other);
    }
    check_any(original, pool, mine, proposal, other)
}

// The same of a proposal of many rows.
fn check_any(
    original: &[u32],
    pool: &[u8],
    mine: &[u16],
    proposal: &[u32],
    other: &[u8],
) -> Result<(), Refusal>
    requires pool_value { (check_refusal original.now pool.now ≡ none) × (0 < row_count proposal.now) }
    requires noted { Noted original.now pool.now mine.now }
    ensures { result ≡ proposal_checked original.now pool.now proposal.now other.now }
{
    let mut notes = [0; checker::NOTES];
    let mut tops = [0; TOPS];
    let mut path = [0; PATH];
    match beginning::begin(proposal, other, Row(0), b"xml", &mut notes) {
        Ok(xml) => {
            check_asked(
                original, pool, mine, proposal, other, xml, &mut notes, &mut tops, &mut path,
            )
        }
        Err(why) => refuse_proposal(why),
    }
}

// The same of a proposal of few rows, or none. A table without rows is refused for its size alone, and any notes are its notes.
pub fn check_few(
    original: &[u32],
    pool: &[u8],
    mine: &[u16],
    proposal: &[u32],
    other: &[u8],
) -> Result<(), Refusal>
    requires pool_value { (check_refusal original.now pool.now ≡ none) × (row_count proposal.now ≤ FEW_ROWS) }
    requires noted { Noted original.now pool.now mine.now }
    ensures { result ≡ proposal_checked original.now pool.now proposal.now other.now }
{
    if rows::has_row(proposal, Row(0)) {
        return check_some(original, pool, mine, proposal, other);
    }
    if table_size::is_bad(proposal, other) {
        return refuse_proposal(Refusal::Size);
    }
    proposal_rows::check(original, pool, mine, proposal, other, mine)
}

// The same of a proposal of few rows.
fn check_some(
    original: &[u32],
    pool: &[u8],
    mine: &[u16],
    proposal: &[u32],
    other: &[u8],
) -> Result<(), Refusal>
    requires pool_value { (check_refusal original.now pool.now ≡ none) × (row_count proposal.now ≤ FEW_ROWS) × (0 < row_count proposal.now) }
    requires noted { Noted original.now pool.now mine.now }
    ensures { result ≡ proposal_checked original.now pool.now proposal.now other.now }
{
    let mut notes = [0; checker::SMALL_NOTES];
    let mut tops = [0; SMALL_TOPS];
    let mut path = [0; SMALL_PATH];
    match beginning::begin(proposal, other, Row(0), b"xml", &mut notes) {
        Ok(xml) => {
            check_asked(
                original, pool, mine, proposal, other, xml, &mut notes, &mut tops, &mut path,
            )
        }
        Err(why) => refuse_proposal(why),
    }
}

// Refusals 42 to 44, where both pass the check, and xml has a number in the proposal.
fn check_asked(
    original: &[u32],
    pool: &[u8],
    mine: &[u16],
    proposal: &[u32],
    other: &[u8],
    xml: NameId,
    notes: &mut [u16],
    tops: &mut [u16],
    path: &mut [u16],
) -> Result<(), Refusal>
    requires pool_value { check_refusal original.now pool.now ≡ none }
    requires noted { Noted original.now pool.now mine.now }
    requires grounded { Ground proposal.now other.now 0 notes.old xml.0 (120 ∷ 109 ∷ 108 ∷ []) }
    requires cleared { Cleared proposal.now tops.old path.old }
    ensures { result ≡ proposal_checked original.now pool.now proposal.now other.now }
{
    proposal_rows::check(original, pool, mine, proposal, other, notes)?;
    check_names(proposal, xml, notes, tops, path)
}

// Refusal 44.
fn check_names(
    proposal: &[u32],
    xml: NameId,
    notes: &mut [u16],
    tops: &mut [u16],
    path: &mut [u16],
) -> Result<(), Refusal>
    requires by_index { (pool : List ℕ) × Ground proposal.now pool 0 notes.old xml.0 (120 ∷ 109 ∷ 108 ∷ []) }
    requires cleared { Cleared proposal.now tops.old path.old }
    ensures { (pool : List ℕ) → Ground proposal.now pool 0 notes.old xml.0 (120 ∷ 109 ∷ 108 ∷ []) → result ≡ verdict (unresolved_refusal (nodes proposal.now pool)) }
{
    scope_preparation::prepare(proposal, xml, notes, path);
    resolution::check(proposal, notes, tops, path)
}

// Refusal 40, with the row and the word that the original's check names.
pub fn refuse_original(why: Refusal) -> Result<(), Refusal>
    ensures { result ≡ Err (Refusal.Original (record { 0 = (number_of why).row }) (number_of why).word) }
{
    let told = Number::from(why);
    let row = told.row;
    Err(Refusal::Original {
        row,
        word: told.word,
    })
}

// Refusal 41, with those that the proposal's names.
pub fn refuse_proposal(why: Refusal) -> Result<(), Refusal>
    ensures { result ≡ Err (Refusal.Proposal (record { 0 = (number_of why).row }) (number_of why).word) }
{
    let told = Number::from(why);
    let row = told.row;
    Err(Refusal::Proposal {
        row,
        word: told.word,
    })
}
