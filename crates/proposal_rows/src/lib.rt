// Refusals 42 and 43: the rows of an original and of its proposal, both of which pass the check.
#![tactic(auto)]

ghost use Rattle.std.specs.Prelude.{◌≡◌, List, [], ◌∷◌, ℕ, ◌≤◌};
ghost use Rattle.std.proofs.Math.Option.{none, some};
ghost use Rattle.rules.specs.Table.{MOST_ROWS, row_count, nodes};
ghost use Rattle.rules.specs.Refusals.{first_refusal, verdict, check_refusal};
ghost use Rattle.proposals.specs.Proposals.{level_refusal, changes_refusal};
ghost use Rattle.name_pairs.specs.Noted.{Noted};

use rules::{Refusal, Row};

// Refusal 42, of the original and then of the proposal, and then 43. A proposal that keeps the rows of an original without rows
// of DOM Level 1, and adds nothing but declarations, has none either: so 43 is looked for first, and 42 only before a refusal.
pub fn check(
    original: &[u32],
    pool: &[u8],
    mine: &[u16],
    proposal: &[u32],
    other: &[u8],
    theirs: &[u16],
) -> Result<(), Refusal>
    requires pool_value { (check_refusal original.now pool.now ≡ none) × (check_refusal proposal.now other.now ≡ none) }
    requires noted { (Noted original.now pool.now mine.now) × (Noted proposal.now other.now theirs.now) }
    ensures { result ≡ verdict (first_refusal (level_refusal (nodes original.now pool.now) ∷ level_refusal (nodes proposal.now other.now) ∷ changes_refusal (nodes original.now pool.now) (nodes proposal.now other.now) ∷ [])) }
{
    match kept_rows::check(original, pool, mine, proposal, other, theirs) {
        Ok(()) => Ok(()),
        Err(why) => check_both(original, proposal, why),
    }
}

// Refusal 42, of the original and then of the proposal, before another one.
fn check_both(original: &[u32], proposal: &[u32], why: Refusal) -> Result<(), Refusal>
    requires { (row_count original.now ≤ MOST_ROWS) × (row_count proposal.now ≤ MOST_ROWS) }
    ensures { (pool other : List ℕ) → result ≡ verdict (first_refusal (level_refusal (nodes original.now pool) ∷ level_refusal (nodes proposal.now other) ∷ some why ∷ [])) }
{
    check_levels(original)?;
    check_changed(proposal, why)
}

// Refusal 42 of a proposal, before another one that it draws.
fn check_changed(proposal: &[u32], why: Refusal) -> Result<(), Refusal>
    requires { row_count proposal.now ≤ MOST_ROWS }
    ensures { (pool : List ℕ) → result ≡ verdict (first_refusal (level_refusal (nodes proposal.now pool) ∷ some why ∷ [])) }
{
    check_levels(proposal)?;
    Err(why)
}

// Refusal 42, for the lowest row of DOM Level 1.
fn check_levels(table: &[u32]) -> Result<(), Refusal>
    requires { row_count table.now ≤ MOST_ROWS }
    ensures { (pool : List ℕ) → result ≡ verdict (level_refusal (nodes table.now pool)) }
{
    let rows = rows::row_count(table) as u32;
    for r in 0..rows {
        if rows::is_level1(rows::kind(table, Row(r))) {
            return Err(Refusal::ProposalLevel1(Row(r)));
        }
    }
    Ok(())
}
