// The check of a proposal for an original over the bytes of two session bundles, whose rows are read into tables of their own:
// small ones for bundles of few rows and short pools. What is no bundle fails the check: 40 or 41, with row 0 and word 0.
#![tactic(auto)]

ghost use Rattle.std.specs.Prelude.{◌≡◌, true};
ghost use Rattle.std.proofs.Math.Option.{none};
ghost use Rattle.rules.specs.Refusals.{check_refusal};
ghost use Rattle.table_size.specs.Small.{FEW_ROWS};
ghost use Rattle.bundles.specs.Opening.{NamesAtMost, HasRoom};
ghost use Rattle.proposals.specs.Proposals.{bundle_proposal_checked};
ghost use Rattle.name_pairs.specs.Noted.{Noted};
ghost use Rattle.bundle_proposals.specs.Opened.{opened_checked};
ghost use Rattle.bundle_proposals.specs.Numbering.{NotesFor, Numbers};

use rules::Refusal;

// The words of the largest table, and of a small one.
const WORDS: usize = rules::WIDTH * rules::MOST_ROWS;

const FEW_WORDS: usize = rules::WIDTH * table_size::FEW_ROWS;

// What a proposal for an original is refused for, or that it is accepted. The original is read and checked first; what stays of
// that are its rows and the numbers of its names.
pub fn check(original: &[u8], proposal: &[u8]) -> Result<(), Refusal>
    ensures { result ≡ bundle_proposal_checked original.now proposal.now }
{
    if !is_small(original) {
        return check_any(original, proposal);
    }
    if !is_small(proposal) {
        return check_any(original, proposal);
    }
    check_few(original, proposal)
}

// The bundle names few rows and a short pool.
fn is_small(bundle: &[u8]) -> bool
    ensures { result ≡ true → NamesAtMost bundle.now FEW_ROWS }
{
    if small_bundles::has_many_rows(bundle) {
        return false;
    }
    !small_bundles::has_long_pool(bundle)
}

// The check of any two bundles. It keeps its arrays, which are large, to itself.
#[inline(never)]
fn check_any(original: &[u8], proposal: &[u8]) -> Result<(), Refusal>
    ensures { result ≡ bundle_proposal_checked original.now proposal.now }
{
    let mut table = [0; WORDS];
    let mut mine = [0; checker::NOTES];
    match number_any(original, &mut table, &mut mine) {
        Ok(n) => {
            let pool = bundle_parts::pool(original);
            check_any_proposal(bundle_parts::table(&table, n), pool, &mine, proposal)
        }
        Err(why) => proposal_check::refuse_original(why),
    }
}

// The same, where the original passes the check.
fn check_any_proposal(
    table: &[u32],
    pool: &[u8],
    mine: &[u16],
    proposal: &[u8],
) -> Result<(), Refusal>
    requires pool_value { check_refusal table.now pool.now ≡ none }
    requires noted { Noted table.now pool.now mine.now }
    ensures { result ≡ opened_checked table.now pool.now proposal.now }
{
    let mut other = [0; WORDS];
    match bundle_opening::read_rows(proposal, &mut other) {
        Ok(n) => {
            let rows = bundle_parts::table(&other, n);
            proposal_check::check_proposal(table, pool, mine, rows, bundle_parts::pool(proposal))
        }
        Err(why) => proposal_check::refuse_proposal(why),
    }
}

// The check of two bundles of few rows.
fn check_few(original: &[u8], proposal: &[u8]) -> Result<(), Refusal>
    requires { (NamesAtMost original.now FEW_ROWS) × (NamesAtMost proposal.now FEW_ROWS) }
    ensures { result ≡ bundle_proposal_checked original.now proposal.now }
{
    let mut table = [0; FEW_WORDS];
    let mut mine = [0; checker::SMALL_NOTES];
    match number_few(original, &mut table, &mut mine) {
        Ok(n) => {
            let pool = bundle_parts::pool(original);
            check_few_proposal(bundle_parts::table(&table, n), pool, &mine, proposal)
        }
        Err(why) => proposal_check::refuse_original(why),
    }
}

// The same, where the original passes the check.
fn check_few_proposal(
    table: &[u32],
    pool: &[u8],
    mine: &[u16],
    proposal: &[u8],
) -> Result<(), Refusal>
    requires names_at_most { (NamesAtMost proposal.now FEW_ROWS) × (check_refusal table.now pool.now ≡ none) }
    requires noted { Noted table.now pool.now mine.now }
    ensures { result ≡ opened_checked table.now pool.now proposal.now }
{
    let mut other = [0; FEW_WORDS];
    match bundle_opening::read_rows(proposal, &mut other) {
        Ok(n) => {
            let rows = bundle_parts::table(&other, n);
            proposal_check::check_few(table, pool, mine, rows, bundle_parts::pool(proposal))
        }
        Err(why) => proposal_check::refuse_proposal(why),
    }
}

// Reads the rows of a bundle, checks them, and writes the numbers of their names to the notes. What is refused fails the check.
#[inline(never)]
fn number_any(bundle: &[u8], table: &mut [u32], notes: &mut [u16]) -> Result<usize, Refusal>
    requires { (HasRoom bundle.now table.old) × (NotesFor bundle.now notes.old) }
    ensures { Numbers bundle.now table.new notes.new result }
{
    if !small_bundles::has_many_rows(bundle) {
        return number_few(bundle, table, notes);
    }
    let rows = bundle_opening::read_rows(bundle, table)?;
    let pool = bundle_parts::pool(bundle);
    proposal_check::row_numbers::check(bundle_parts::table(table, rows), pool, notes)?;
    Ok(rows)
}

// The same of a bundle of few rows. Its dictionary is gone when the proposal is checked.
#[inline(never)]
fn number_few(bundle: &[u8], table: &mut [u32], notes: &mut [u16]) -> Result<usize, Refusal>
    requires names_at_most { NamesAtMost bundle.now FEW_ROWS }
    requires has_room { (HasRoom bundle.now table.old) × (NotesFor bundle.now notes.old) }
    ensures { Numbers bundle.now table.new notes.new result }
{
    let rows = bundle_opening::read_rows(bundle, table)?;
    let pool = bundle_parts::pool(bundle);
    proposal_check::row_numbers::check_few(bundle_parts::table(table, rows), pool, notes)?;
    Ok(rows)
}
