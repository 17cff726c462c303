// Refusal 43: the rows of an original that a proposal does not keep, and further rows that are no declarations. The proposal's
// pool is the other one. A row of DOM Level 1 ends the comparison too: what it is refused for comes first.
#![tactic(auto)]

ghost use Rattle.std.specs.Prelude.{◌≡◌, true, ◌&&◌, not, ◌<◌, length, Ok};
ghost use Rattle.std.proofs.Math.Option.{none};
ghost use Rattle.rules.specs.Table.{row_count, node_at, nodes, is_level1};
ghost use Rattle.rules.specs.Refusals.{verdict, check_refusal};
ghost use Rattle.rules.specs.declared.Refusal.{Refusal};
ghost use Rattle.proposals.specs.Proposals.{lowest, keeps_row, level_refusal, changes_refusal};
ghost use Rattle.pairs.specs.Pairs.{Alike, Pairs};
ghost use Rattle.name_pairs.specs.Noted.{Noted};
ghost use Rattle.kept_fields.specs.Fields.{Placed, Meeting};
ghost use Rattle.kept_rows.specs.Lost.{is_lost};

use rules::{Refusal, Row};

// Refusal 43, for the lowest row that is missing or changed, or that is added and no declaration, where the original has no row
// of DOM Level 1. Where it has one, something is refused.
pub fn check(
    original: &[u32],
    pool: &[u8],
    mine: &[u16],
    proposal: &[u32],
    other: &[u8],
    theirs: &[u16],
) -> Result<(), Refusal>
    requires pool_value { (check_refusal original.now pool.now ≡ none) × (check_refusal proposal.now other.now ≡ none) }
    requires noted { (Noted original.now pool.now mine.now) × (Noted proposal.now other.now theirs.now) }
    ensures pool_value_2 { result ≡ Ok tt → level_refusal (nodes original.now pool.now) ≡ none }
    ensures value { level_refusal (nodes original.now pool.now) ≡ none → result ≡ verdict (changes_refusal (nodes original.now pool.now) (nodes proposal.now other.now)) }
{
    let mut met = [0; name_pairs::WORDS];
    let mut known = [0; pairs::WORDS];
    let alike = pairs::begin_alike(pool, other);
    check_kept(
        original, pool, mine, proposal, other, theirs, alike, &mut met, &mut known,
    )?;
    further_rows::check_further(original, pool, proposal, other)
}

// The same of the rows of the original.
fn check_kept(
    original: &[u32],
    pool: &[u8],
    mine: &[u16],
    proposal: &[u32],
    other: &[u8],
    theirs: &[u16],
    alike: bool,
    met: &mut [u16],
    known: &mut [u16],
) -> Result<(), Refusal>
    requires placed { (Placed original.now pool.now) × (Placed proposal.now other.now) }
    requires meeting { Meeting original.now pool.now mine.now proposal.now other.now theirs.now met.old }
    requires pairs { Pairs known.old pool.now other.now }
    requires alike { alike ≡ true → Alike pool.now other.now }
    ensures { result ≡ verdict (lowest (is_lost (nodes original.now pool.now) (nodes proposal.now other.now)) Refusal.Changed (length (nodes original.now pool.now))) }
{
    let rows = rows::row_count(original) as u32;
    for r in 0..rows {
        if !rows::has_row(proposal, Row(r)) {
            return Err(Refusal::Changed(Row(r)));
        }
        if !keeps_row(
            original,
            pool,
            mine,
            proposal,
            other,
            theirs,
            alike,
            met,
            known,
            Row(r),
        ) {
            return Err(Refusal::Changed(Row(r)));
        }
    }
    Ok(())
}

// The original's row is not of DOM Level 1, and the proposal's keeps what it has.
fn keeps_row(
    original: &[u32],
    pool: &[u8],
    mine: &[u16],
    proposal: &[u32],
    other: &[u8],
    theirs: &[u16],
    alike: bool,
    met: &mut [u16],
    known: &mut [u16],
    row: Row,
) -> bool
    requires placed { (Placed original.now pool.now) × (Placed proposal.now other.now) }
    requires meeting { Meeting original.now pool.now mine.now proposal.now other.now theirs.now met.old }
    requires pairs { Pairs known.old pool.now other.now }
    requires alike { alike ≡ true → Alike pool.now other.now }
    requires row_bound { (row.0 < row_count original.now) × (row.0 < row_count proposal.now) }
    ensures value { result ≡ (not (is_level1 (node_at original.now pool.now row.0).type) && keeps_row (node_at original.now pool.now row.0) (node_at proposal.now other.now row.0)) }
    ensures meeting_2 { Meeting original.now pool.now mine.now proposal.now other.now theirs.now met.new }
    ensures pairs_2 { Pairs known.new pool.now other.now }
{
    let kind = rows::kind(original, row);
    let owner = rows::parent(original, row);
    if (rows::kind(proposal, row) != kind)
        | (rows::parent(proposal, row).0 != owner.0)
        | (rows::maker(proposal, row) != rows::maker(original, row))
        | rows::is_level1(kind)
    {
        return false;
    }
    if !kept_fields::keeps_names(
        original, pool, mine, proposal, other, theirs, met, row, kind, owner,
    ) {
        return false;
    }
    kept_fields::keeps_value(original, pool, proposal, other, alike, known, row, kind)
}
