// The lookups over the bytes of a session bundle.
#![tactic(auto)]

ghost use Rattle.std.specs.Prelude.{◌≡◌};
ghost use Rattle.bundles.specs.Operations.{bundle_uri_of_prefix, bundle_prefix_of_uri, bundle_default_uri, bundle_in_scope_uri, bundle_in_scope_prefix};

use bundle_resolver::lookup;
use rules::{Bound, Place, Question, Refusal, Row};

// The URI of a prefix at a row; the empty prefix is the default.
pub fn uri_of_prefix(bundle: &[u8], row: Row, prefix: &[u8]) -> Result<Option<Bound>, Refusal>
    ensures { result ≡ bundle_uri_of_prefix bundle.now row.0 prefix.now }
{
    lookup(bundle, row, Question::UriOfPrefix, prefix)
}

// A prefix of a URI at a row.
pub fn prefix_of_uri(bundle: &[u8], row: Row, uri: &[u8]) -> Result<Option<Place>, Refusal>
    ensures { result ≡ bundle_prefix_of_uri bundle.now row.0 uri.now }
{
    located::without_built_ins(lookup(bundle, row, Question::PrefixOfUri, uri))
}

// The default URI at a row.
pub fn default_uri(bundle: &[u8], row: Row) -> Result<Option<Place>, Refusal>
    ensures { result ≡ bundle_default_uri bundle.now row.0 }
{
    located::without_built_ins(lookup(bundle, row, Question::UriOfPrefix, b""))
}

// The in-scope URI of a prefix at a row: by declarations alone.
pub fn in_scope_uri(bundle: &[u8], row: Row, prefix: &[u8]) -> Result<Option<Bound>, Refusal>
    ensures { result ≡ bundle_in_scope_uri bundle.now row.0 prefix.now }
{
    lookup(bundle, row, Question::InScopeUri, prefix)
}

// An in-scope prefix of a URI at a row: by declarations alone.
pub fn in_scope_prefix(bundle: &[u8], row: Row, uri: &[u8]) -> Result<Option<Bound>, Refusal>
    ensures { result ≡ bundle_in_scope_prefix bundle.now row.0 uri.now }
{
    lookup(bundle, row, Question::InScopePrefix, uri)
}
