// Refusal 13 of a field: it has a length, and must be empty in a row of this type.
ghost use Rattle.std.specs.Prelude.{◌≡◌};
ghost use Rattle.rules.specs.Refusals.{must_be_empty, verdict};
ghost use Rattle.rows.specs.Reading.{HasField};
ghost use Rattle.single_fields.specs.Single.{length_refusal_at};

use rules::{Refusal, Row};

// The refusal that the field draws whose offset is that word. Its length tells; the pool is not read.
pub fn check(table: &[u32], pool: &[u8], row: Row, word: u32) -> Result<(), Refusal>
    requires { HasField table.now row.0 word }
    ensures { result ≡ verdict (length_refusal_at table.now pool.now row.0 word) }
{
    let place = rows::place(table, row, word);
    let must = must_be_empty(rows::kind(table, row), word);
    if must & (place.length != 0) {
        return Err(Refusal::MustBeEmpty { row, word });
    }
    Ok(())
}

// The field whose offset is that word must be empty in a row of this type.
fn must_be_empty(kind: u32, word: u32) -> bool
    ensures { result ≡ must_be_empty kind word }
{
    let local_name_only = (kind == rules::DECLARATION) | rows::is_level1(kind);
    let has_names = (kind == rules::ELEMENT) | (kind == rules::ATTRIBUTE) | local_name_only;
    rows::is_element(kind) & (word == rules::VALUE)
        | local_name_only & ((word == rules::PREFIX) | (word == rules::URI))
        | !has_names
            & ((word == rules::PREFIX) | (word == rules::LOCAL_NAME) | (word == rules::URI))
}
