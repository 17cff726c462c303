// Refusal 9: rows of DOM Level 1.
#![tactic(auto)]

ghost use Rattle.std.specs.Prelude.{◌≡◌, List, ℕ, ◌≤◌};
ghost use Rattle.rules.specs.Table.{MOST_ROWS, row_count, nodes};
ghost use Rattle.rules.specs.Refusals.{verdict};
ghost use Rattle.rules.specs.Normalization.{level1_refusal};

use rules::{Refusal, Row};

// Refusal 9, for the lowest row of DOM Level 1.
pub fn level1(table: &[u32]) -> Result<(), Refusal>
    requires { row_count table.now ≤ MOST_ROWS }
    ensures { (pool : List ℕ) → result ≡ verdict (level1_refusal (nodes table.now pool)) }
{
    for r in 0..rows::row_count(table) as u32 {
        if rows::is_level1(rows::kind(table, Row(r))) {
            return Err(Refusal::Level1(Row(r)));
        }
    }
    Ok(())
}
