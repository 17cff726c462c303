// An element and all that it holds as markup.
#![tactic(auto)]

ghost use Rattle.std.specs.Prelude.{◌<◌};
ghost use Rattle.rules.specs.Table.{row_count, nodes};
ghost use Rattle.buffers.specs.Writes.{Put};
ghost use Rattle.markup.specs.Trees.{written_tree};
ghost use Rattle.markup.specs.Markup.{markup};
ghost use Rattle.markup_names.specs.Pooled.{Pooled};
ghost use Rattle.markup_values.specs.Marks.{Marked};
ghost use Rattle.tags.specs.Links.{Linked};

use rules::{Position, Row};

// The markup of an element: into it and into each element that it holds, and out of it again, along the links. Behind a start tag
// come texts and end tags, up to the next element; each tag is put at one place, where the compiler puts it in line.
pub fn put_element(
    table: &[u32],
    pool: &[u8],
    links: &[u16],
    runs: &[u16],
    out: &mut [u8],
    at: usize,
    row: Row,
) -> usize
    requires linked { Linked table.now links.now }
    requires row_bound { row.0 < row_count table.now }
    requires marked { Marked pool.now links.now runs.now }
    requires pooled { Pooled table.now pool.now }
    ensures { Put out.old at (markup (written_tree (nodes table.now pool.now) row.0)) result out.new }
{
    let mut to = at;
    let mut element = row.0;
    let mut depth = 0usize;
    loop {
        to = tags::put_start_tag(table, pool, links, runs, out, to, Row(element));
        depth += 1;
        let mut position = children::first(links, Row(element), false).0;
        loop {
            if position == 0 {
                to = tags::put_end_tag(table, pool, Row(element), out, to);
                depth -= 1;
                if depth == 0 {
                    return to;
                }
                position = children::next(links, Row(element), false).0;
                element = rows::parent(table, Row(element)).0;
            } else {
                let inner = notes::row_at(Position(position));
                if rows::kind(table, inner) == rules::ELEMENT {
                    element = inner.0;
                    break;
                }
                to = markup_values::put_text(table, pool, links, runs, out, to, inner);
                position = children::next(links, inner, false).0;
            }
        }
    }
}
