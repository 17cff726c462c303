// The functions that a C host calls, which `noemathu_c` exports: each takes bytes and numbers, and hands over its whole answer.
#![tactic(auto)]

ghost use Rattle.std.specs.Prelude.{◌≡◌, length};
ghost use Rattle.refusal_numbers.specs.Given.{check_given};
ghost use Rattle.answers.specs.Given.{located_given, bound_given};
ghost use Rattle.output_answers.specs.Given.{filled_given, written_given};
ghost use Rattle.bundles.specs.Operations.{bundle_read, table_written, bundle_checked, bundle_uri_of_prefix, bundle_prefix_of_uri, bundle_default_uri, bundle_in_scope_uri, bundle_in_scope_prefix, bundle_normalized};
ghost use Rattle.packing.specs.Packing.{bundle_packed};
ghost use Rattle.markup.specs.Writing.{bundle_text};
ghost use Rattle.proposals.specs.Proposals.{bundle_proposal_checked};
ghost use Rattle.salvage_answers.specs.Given.{rescued_given};
ghost use Rattle.salvage.specs.Salvage.{bundle_salvaged};

use answers::Found;
use output_answers::{Sizes, Used};
use refusal_numbers::Number;
use rules::Row;
use salvage_answers::Saved;

// The first refusal that a bundle draws, or that it is accepted.
pub fn noemathu_check(bundle: &[u8]) -> Number
    ensures { result ≡ check_given (bundle_checked bundle.now) }
{
    bundle_check::check(bundle).into()
}

// What a proposal for an original is refused for, or that it is accepted.
pub fn noemathu_check_proposal(original: &[u8], proposal: &[u8]) -> Number
    ensures { result ≡ check_given (bundle_proposal_checked original.now proposal.now) }
{
    bundle_proposals::check(original, proposal).into()
}

// The URI of a prefix at a row; the empty prefix is the default.
pub fn noemathu_uri_of_prefix(bundle: &[u8], row: u32, prefix: &[u8]) -> Found
    ensures { result ≡ bound_given (bundle_uri_of_prefix bundle.now row prefix.now) }
{
    bundle_lookups::uri_of_prefix(bundle, Row(row), prefix).into()
}

// A prefix of a URI at a row.
pub fn noemathu_prefix_of_uri(bundle: &[u8], row: u32, uri: &[u8]) -> Found
    ensures { result ≡ located_given (bundle_prefix_of_uri bundle.now row uri.now) }
{
    bundle_lookups::prefix_of_uri(bundle, Row(row), uri).into()
}

// The default URI at a row. Whoever asks whether a URI is the default compares; nothing equals the empty URI.
pub fn noemathu_default_uri(bundle: &[u8], row: u32) -> Found
    ensures { result ≡ located_given (bundle_default_uri bundle.now row) }
{
    bundle_lookups::default_uri(bundle, Row(row)).into()
}

// The in-scope URI of a prefix at a row: by declarations alone.
pub fn noemathu_in_scope_uri(bundle: &[u8], row: u32, prefix: &[u8]) -> Found
    ensures { result ≡ bound_given (bundle_in_scope_uri bundle.now row prefix.now) }
{
    bundle_lookups::in_scope_uri(bundle, Row(row), prefix).into()
}

// An in-scope prefix of a URI at a row: by declarations alone.
pub fn noemathu_in_scope_prefix(bundle: &[u8], row: u32, uri: &[u8]) -> Found
    ensures { result ≡ bound_given (bundle_in_scope_prefix bundle.now row uri.now) }
{
    bundle_lookups::in_scope_prefix(bundle, Row(row), uri).into()
}

// Normalizes a bundle into a bundle: so that every element and every owned attribute means its URI in scope, whatever the
// other rows hold. Success answers the bytes that it takes; the rest of the output is zero, and all of it after a refusal.
pub fn noemathu_normalize(bundle: &[u8], out: &mut [u8]) -> Used
    ensures value { result ≡ written_given (bundle_normalized bundle.now (length out.old)).answer }
    ensures out_after { out.new ≡ (bundle_normalized bundle.now (length out.old)).bytes }
{
    bundle_normalization::normalize(bundle, out).into()
}

// Packs a bundle into a bundle whose pool is each distinct field once, end to end, in order of first use. Success answers the
// bytes that it takes; the rest of the output is zero, and all of it after a refusal.
pub fn noemathu_pack(bundle: &[u8], out: &mut [u8]) -> Used
    ensures value { result ≡ written_given (bundle_packed bundle.now (length out.old)).answer }
    ensures out_after { out.new ≡ (bundle_packed bundle.now (length out.old)).bytes }
{
    bundle_packing::pack(bundle, out).into()
}

// Salvages a bundle into a bundle, without the rows that draw 6 and those that draw 7 against a kept row, and lists these: two
// words for each, the number that the row had, and 6 or 7. Success answers the bytes that it takes and how many rows are
// dropped; the rest of both outputs is zero, and all of them after a refusal.
pub fn noemathu_salvage(bundle: &[u8], out: &mut [u8], list: &mut [u32]) -> Saved
    ensures value { result ≡ rescued_given (bundle_salvaged bundle.now (length out.old) (length list.old)).answer }
    ensures out_after { out.new ≡ (bundle_salvaged bundle.now (length out.old) (length list.old)).bytes }
    ensures list_after { list.new ≡ (bundle_salvaged bundle.now (length out.old) (length list.old)).list }
{
    bundle_salvage::salvage(bundle, out, list).into()
}

// Writes the XML text of an element, or of a document's element, and of all that it holds. Success answers the bytes that it
// takes; the rest of the output is zero, and all of it after a refusal.
pub fn noemathu_write_xml(bundle: &[u8], row: u32, out: &mut [u8]) -> Used
    ensures value { result ≡ written_given (bundle_text bundle.now row (length out.old)).answer }
    ensures out_after { out.new ≡ (bundle_text bundle.now row (length out.old)).bytes }
{
    bundle_text::write_xml(bundle, Row(row), out).into()
}

// Reads a bundle into a table and a pool. Success answers the rows and bytes that it takes; the rest of both outputs is zero,
// and all of them after a refusal.
pub fn noemathu_read(bundle: &[u8], out_table: &mut [u32], out_pool: &mut [u8]) -> Sizes
    ensures value { result ≡ filled_given (bundle_read bundle.now (length out_table.old) (length out_pool.old)).answer }
    ensures out_table_after { out_table.new ≡ (bundle_read bundle.now (length out_table.old) (length out_pool.old)).table }
    ensures out_pool_after { out_pool.new ≡ (bundle_read bundle.now (length out_table.old) (length out_pool.old)).pool }
{
    bundle_reading::read(bundle, out_table, out_pool).into()
}

// Writes a table and its pool as a bundle. Success answers the bytes that it takes; the rest of the output is zero, and all of
// it after a refusal.
pub fn noemathu_write(table: &[u32], pool: &[u8], out: &mut [u8]) -> Used
    ensures value { result ≡ written_given (table_written table.now pool.now (length out.old)).answer }
    ensures out_after { out.new ≡ (table_written table.now pool.now (length out.old)).bytes }
{
    table_writing::write(table, pool, out).into()
}
