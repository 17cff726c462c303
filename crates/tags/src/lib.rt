// Start tags and end tags. Each piece is put behind what was put before it.
#![tactic(auto)]

ghost use Rattle.std.specs.Prelude.{◌<◌};
ghost use Rattle.rules.specs.Lists.{gathered};
ghost use Rattle.rules.specs.Table.{row_count, nodes, node_at};
ghost use Rattle.buffers.specs.Writes.{Put};
ghost use Rattle.markup.specs.Trees.{qualified_name, written_attribute, written_attributes};
ghost use Rattle.markup.specs.Markup.{attribute_markup, start_tag, end_tag};
ghost use Rattle.markup_names.specs.Pooled.{Pooled};
ghost use Rattle.markup_values.specs.Marks.{Marked};
ghost use Rattle.tags.specs.Links.{Linked};

use rules::{Position, Row};

// The start tag of an element, with what it owns in row order.
pub fn put_start_tag(
    table: &[u32],
    pool: &[u8],
    links: &[u16],
    runs: &[u16],
    out: &mut [u8],
    at: usize,
    row: Row,
) -> usize
    requires linked { Linked table.now links.now }
    requires row_bound { row.0 < row_count table.now }
    requires marked { Marked pool.now links.now runs.now }
    requires pooled { Pooled table.now pool.now }
    ensures { Put out.old at (start_tag (qualified_name (node_at table.now pool.now row.0)) (written_attributes (nodes table.now pool.now) row.0)) result out.new }
{
    let name = buffers::put_bytes(out, at, &[60]);
    let owned = markup_names::put_row_name(table, pool, row, out, name);
    let end = put_owned(table, pool, links, runs, out, owned, row);
    buffers::put_bytes(out, end, &[62])
}

// The attributes and declarations of an element in row order.
fn put_owned(
    table: &[u32],
    pool: &[u8],
    links: &[u16],
    runs: &[u16],
    out: &mut [u8],
    at: usize,
    row: Row,
) -> usize
    requires linked { Linked table.now links.now }
    requires row_bound { row.0 < row_count table.now }
    requires marked { Marked pool.now links.now runs.now }
    requires pooled { Pooled table.now pool.now }
    ensures { Put out.old at (gathered attribute_markup (written_attributes (nodes table.now pool.now) row.0)) result out.new }
{
    let element = row.0;
    let mut to = at;
    let mut position = children::first(links, Row(element), true).0;
    while position > 0 {
        let owned = notes::row_at(Position(position));
        to = put_attribute(table, pool, links, runs, out, to, owned);
        position = children::next(links, owned, true).0;
    }
    to
}

// An attribute or a declaration, after one space.
fn put_attribute(
    table: &[u32],
    pool: &[u8],
    marks: &[u16],
    runs: &[u16],
    out: &mut [u8],
    at: usize,
    row: Row,
) -> usize
    requires row_bound { row.0 < row_count table.now }
    requires marked { Marked pool.now marks.now runs.now }
    requires pooled { Pooled table.now pool.now }
    ensures { Put out.old at (attribute_markup (written_attribute (node_at table.now pool.now row.0))) result out.new }
{
    let name = buffers::put_bytes(out, at, &[32]);
    let equals = markup_names::put_attribute_name(table, pool, row, out, name);
    let quote = buffers::put_bytes(out, equals, &[61, 34]);
    let end = markup_values::put_quoted(table, pool, marks, runs, out, quote, row);
    buffers::put_bytes(out, end, &[34])
}

// The end tag of an element.
pub fn put_end_tag(table: &[u32], pool: &[u8], row: Row, out: &mut [u8], at: usize) -> usize
    requires row_bound { row.0 < row_count table.now }
    requires pooled { Pooled table.now pool.now }
    ensures { Put out.old at (end_tag (qualified_name (node_at table.now pool.now row.0))) result out.new }
{
    let name = buffers::put_bytes(out, at, &[60, 47]);
    let end = markup_names::put_row_name(table, pool, row, out, name);
    buffers::put_bytes(out, end, &[62])
}
