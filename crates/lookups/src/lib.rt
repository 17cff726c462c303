// The lookups of a node table, and two more that hand back the part of the pool that was found. Each asks the one lookup its
// question. None writes anything.
#![tactic(auto)]

ghost use Rattle.std.specs.Prelude.{◌≡◌, ◌+◌};
ghost use Rattle.rules.specs.Lookups.{uri_of_prefix_at, prefix_of_uri_at, default_uri_at, in_scope_uri_at, in_scope_prefix_at, bound_part, located_part};
ghost use Rattle.rules.specs.Answers.{bound_place, located_place};

use rules::{Bound, Place, Question, Refusal, Row};

// The URI of a prefix at a row; the empty prefix is the default.
pub fn uri_of_prefix(
    table: &[u32],
    pool: &[u8],
    row: Row,
    prefix: &[u8],
) -> Result<Option<Bound>, Refusal>
    ensures { result ≡ uri_of_prefix_at table.now pool.now row.0 prefix.now }
{
    resolver::lookup(table, pool, row, Question::UriOfPrefix, prefix)
}

// A prefix of a URI at a row.
pub fn prefix_of_uri(
    table: &[u32],
    pool: &[u8],
    row: Row,
    uri: &[u8],
) -> Result<Option<Place>, Refusal>
    ensures { result ≡ prefix_of_uri_at table.now pool.now row.0 uri.now }
{
    located::without_built_ins(resolver::lookup(table, pool, row, Question::PrefixOfUri, uri))
}

// The default URI at a row: that of the empty prefix. Whoever asks whether a URI is the default compares; nothing equals the
// empty URI.
pub fn default_uri(table: &[u32], pool: &[u8], row: Row) -> Result<Option<Place>, Refusal>
    ensures { result ≡ default_uri_at table.now pool.now row.0 }
{
    located::without_built_ins(resolver::lookup(table, pool, row, Question::UriOfPrefix, b""))
}

// The in-scope URI of a prefix at a row: by declarations alone.
pub fn in_scope_uri(
    table: &[u32],
    pool: &[u8],
    row: Row,
    prefix: &[u8],
) -> Result<Option<Bound>, Refusal>
    ensures { result ≡ in_scope_uri_at table.now pool.now row.0 prefix.now }
{
    resolver::lookup(table, pool, row, Question::InScopeUri, prefix)
}

// An in-scope prefix of a URI at a row: by declarations alone.
pub fn in_scope_prefix(
    table: &[u32],
    pool: &[u8],
    row: Row,
    uri: &[u8],
) -> Result<Option<Bound>, Refusal>
    ensures { result ≡ in_scope_prefix_at table.now pool.now row.0 uri.now }
{
    resolver::lookup(table, pool, row, Question::InScopePrefix, uri)
}

// The URI that uri_of_prefix finds, as a part of the pool; empty for a built-in, for nothing and for a refusal.
pub fn uri_part<'p, 'q>(table: &[u32], pool: &'p [u8], row: Row, prefix: &'q [u8]) -> &'p [u8]
    ensures result_value { result.now ≡ bound_part pool.now (uri_of_prefix_at table.now pool.now row.0 prefix.now) }
    ensures ref_ptr_value { result.ref_ptr.0 ≡ pool.entry.ref_ptr.0 }
    ensures ref_ptr_value_2 { result.ref_ptr.1 ≡ pool.entry.ref_ptr.1 + (bound_place (uri_of_prefix_at table.now pool.now row.0 prefix.now)).offset.0 }
{
    pool::bound_part(pool, uri_of_prefix(table, pool, row, prefix))
}

// The prefix that prefix_of_uri finds, as a part of the pool; empty for nothing and for a refusal.
pub fn prefix_part<'p, 'q>(table: &[u32], pool: &'p [u8], row: Row, uri: &'q [u8]) -> &'p [u8]
    ensures result_value { result.now ≡ located_part pool.now (prefix_of_uri_at table.now pool.now row.0 uri.now) }
    ensures ref_ptr_value { result.ref_ptr.0 ≡ pool.entry.ref_ptr.0 }
    ensures ref_ptr_value_2 { result.ref_ptr.1 ≡ pool.entry.ref_ptr.1 + (located_place (prefix_of_uri_at table.now pool.now row.0 uri.now)).offset.0 }
{
    pool::located_part(pool, prefix_of_uri(table, pool, row, uri))
}
