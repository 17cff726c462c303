// Refusal 43 of the rows that a proposal adds: further rows that are no declarations.
#![tactic(auto)]

ghost use Rattle.std.specs.Prelude.{◌≡◌, ◌≤◌, length};
ghost use Rattle.rules.specs.Table.{MOST_ROWS, row_count, nodes};
ghost use Rattle.rules.specs.Refusals.{verdict};
ghost use Rattle.rules.specs.declared.Refusal.{Refusal};
ghost use Rattle.proposals.specs.Proposals.{lowest, is_foreign};

use rules::{Refusal, Row};

// Refusal 43, for the lowest row that is added and no declaration.
pub fn check_further(
    original: &[u32],
    pool: &[u8],
    proposal: &[u32],
    other: &[u8],
) -> Result<(), Refusal>
    requires { (row_count original.now ≤ MOST_ROWS) × (row_count proposal.now ≤ MOST_ROWS) }
    ensures { result ≡ verdict (lowest (is_foreign (nodes original.now pool.now) (nodes proposal.now other.now)) Refusal.Changed (length (nodes proposal.now other.now))) }
{
    let kept = rows::row_count(original) as u32;
    let rows = rows::row_count(proposal) as u32;
    for r in kept..rows {
        if rows::kind(proposal, Row(r)) != rules::DECLARATION {
            return Err(Refusal::Changed(Row(r)));
        }
    }
    Ok(())
}
