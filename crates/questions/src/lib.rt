// The answer to each question of a lookup that has begun: what is found along the elements, from the start element outward.
#![tactic(auto)]

ghost use Rattle.std.specs.Prelude.{◌≡◌, List, ℕ, Ok};
ghost use Rattle.rules.specs.Table.{nodes};
ghost use Rattle.rules.specs.declared.NameId.{NameId};
ghost use Rattle.rules.specs.Lookups.{bound, findings, lookup_at};
ghost use Rattle.declarations.specs.Meant.{Meant};
ghost use Rattle.beginning.specs.Ground.{Begins};
ghost use Rattle.deciders.specs.Deciding.{Started};
ghost use Rattle.questions.specs.Lent.{Way};

use rules::{Bound, NameId, Question, Refusal, Row};

// The answer of a lookup that has begun, in arrays that are lent: the notes of the rows, and the path of elements.
pub fn lookup_begun(
    table: &[u32],
    row: Row,
    question: Question,
    query: &[u8],
    begun: Result<NameId, Refusal>,
    notes: &mut [u16],
    path: &mut [u32],
) -> Result<Option<Bound>, Refusal>
    requires { (number : NameId) → begun ≡ Ok number → Way table.now row.0 notes.old path.old }
    ensures { (pool : List ℕ) → Begins table.now pool row.0 notes.old query.now begun → result ≡ lookup_at question table.now pool row.0 query.now }
{
    let number = begun?;
    let n = beginning::climb(table, row, notes, path);
    if n == 0 {
        return Ok(None); // built-ins included
    }
    Ok(along(table, notes, &path[..n], question, query, number))
}

// What is found along a path, from its first element outward.
fn along(
    table: &[u32],
    notes: &[u16],
    path: &[u32],
    question: Question,
    query: &[u8],
    number: NameId,
) -> Option<Bound>
    requires { Started table.now notes.now path.now }
    ensures { (pool : List ℕ) → Meant table.now pool notes.now number.0 query.now → result ≡ bound (findings question (nodes table.now pool) query.now path.now) }
{
    match question {
        Question::UriOfPrefix => outward::uri_of_prefix(table, notes, path, query, number),
        Question::PrefixOfUri => prefixes::prefix_of_uri(table, notes, path, query, number),
        Question::InScopeUri => in_scope::in_scope_uri(table, notes, path, query, number),
        Question::InScopePrefix => in_scope::in_scope_prefix(table, notes, path, query, number),
    }
}
