// What the rows of a subtree are refused for: 20, a row without markup, and 21, a value with a forbidden character.
#![tactic(auto)]

ghost use Rattle.std.specs.Prelude.{◌≡◌, ◌&&◌, List, [], ◌∷◌, ℕ, ◌≤◌, ◌<◌, length};
ghost use Rattle.std.proofs.Math.Option.{none};
ghost use Rattle.rules.specs.Lists.{is_one_of};
ghost use Rattle.rules.specs.Table.{MOST_ROWS, ELEMENT, ATTRIBUTE, TEXT, DECLARATION, row_count, nodes, node};
ghost use Rattle.rules.specs.Refusals.{check_refusal, verdict};
ghost use Rattle.rules.specs.declared.Refusal.{Refusal};
ghost use Rattle.characters.specs.Characters.{holds_forbidden};
ghost use Rattle.clean_parts.specs.Clean.{WORDS, Reached};
ghost use Rattle.markup.specs.Writing.{in_subtree, lowest_row, has_no_markup};
ghost use Rattle.subtree.specs.Flags.{Flagged};
ghost use Rattle.markup_refusals.specs.Tests.{is_foreign, is_spoiled};

use rules::{Refusal, Row};

// Refusal 20, for the lowest row of the subtree that has no markup.
pub fn check_markup(table: &[u32], flags: &[u16]) -> Result<(), Refusal>
    requires { (row_count table.now ≤ MOST_ROWS) × (row_count table.now ≤ length flags.now) }
    ensures { (e : ℕ) (pool : List ℕ) → Flagged table.now flags.now e (row_count table.now) → result ≡ verdict (lowest_row (nodes table.now pool) (λ (q : ℕ). in_subtree (nodes table.now pool) e q && has_no_markup (nodes table.now pool) q) Refusal.NotMarkup) }
{
    let rows = rows::row_count(table) as u32;
    for r in 0..rows {
        if is_foreign(table, flags, Row(r)) {
            return Err(Refusal::NotMarkup(Row(r)));
        }
    }
    Ok(())
}

// Refusal 21, for the lowest row of the subtree whose value holds a forbidden character. The values are
// parts of the pool: where it holds none, no value does.
pub fn check_characters(table: &[u32], pool: &[u8], flags: &[u16]) -> Result<(), Refusal>
    requires pool_value { check_refusal table.now pool.now ≡ none }
    requires table_in_bounds { row_count table.now ≤ length flags.now }
    ensures { (e : ℕ) → Flagged table.now flags.now e (row_count table.now) → result ≡ verdict (lowest_row (nodes table.now pool.now) (λ (q : ℕ). in_subtree (nodes table.now pool.now) e q && holds_forbidden (node (nodes table.now pool.now) q).value.bytes) Refusal.Character) }
{
    if characters::holds_forbidden(pool) {
        let mut reaches = [0; clean_parts::WORDS];
        clean_parts::make(&mut reaches, pool);
        return check_values(table, pool, flags, &reaches);
    }
    Ok(())
}

// The same, value by value, where it is known of each block of the pool how far it holds none.
fn check_values(table: &[u32], pool: &[u8], flags: &[u16], reaches: &[u16]) -> Result<(), Refusal>
    requires pool_value { check_refusal table.now pool.now ≡ none }
    requires in_bounds { (WORDS ≤ length reaches.now) × Reached pool.now reaches.now }
    requires table_in_bounds { row_count table.now ≤ length flags.now }
    ensures { (e : ℕ) → Flagged table.now flags.now e (row_count table.now) → result ≡ verdict (lowest_row (nodes table.now pool.now) (λ (q : ℕ). in_subtree (nodes table.now pool.now) e q && holds_forbidden (node (nodes table.now pool.now) q).value.bytes) Refusal.Character) }
{
    let rows = rows::row_count(table) as u32;
    for r in 0..rows {
        if is_spoiled(table, pool, flags, reaches, Row(r)) {
            return Err(Refusal::Character(Row(r)));
        }
    }
    Ok(())
}

// The row is in the subtree, and of a type without markup.
fn is_foreign(table: &[u32], flags: &[u16], row: Row) -> bool
    requires { (row.0 < row_count table.now) × (row_count table.now ≤ length flags.now) }
    ensures { result ≡ is_foreign table.now flags.now row.0 }
{
    if flags::is_flagged(flags, row) {
        return !has_markup(rows::kind(table, row));
    }
    false
}

// Elements, attributes, texts and declarations are written.
fn has_markup(kind: u32) -> bool
    ensures { result ≡ is_one_of (ELEMENT ∷ ATTRIBUTE ∷ TEXT ∷ DECLARATION ∷ []) kind }
{
    (kind == rules::ELEMENT)
        | (kind == rules::ATTRIBUTE)
        | (kind == rules::TEXT)
        | (kind == rules::DECLARATION)
}

// The row is in the subtree, and its value holds a forbidden character.
fn is_spoiled(table: &[u32], pool: &[u8], flags: &[u16], reaches: &[u16], row: Row) -> bool
    requires pool_value { check_refusal table.now pool.now ≡ none }
    requires in_bounds { (WORDS ≤ length reaches.now) × Reached pool.now reaches.now }
    requires row_bound { (row.0 < row_count table.now) × (row_count table.now ≤ length flags.now) }
    ensures { result ≡ is_spoiled table.now pool.now flags.now row.0 }
{
    if flags::is_flagged(flags, row) {
        let value = rows::place(table, row, rules::VALUE);
        let start = rows::wide(value.offset.0);
        let end = start + rows::wide(value.length);
        return clean_parts::holds_forbidden(reaches, pool, start, end);
    }
    false
}
