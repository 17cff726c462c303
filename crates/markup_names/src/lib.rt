// Names in markup: those of elements, attributes and declarations, as their rows have them.
#![tactic(auto)]

ghost use Rattle.std.specs.Prelude.{◌≡◌, ◌<◌};
ghost use Rattle.rules.specs.Table.{row_count, field_at, node_at};
ghost use Rattle.rows.specs.Reading.{HasField};
ghost use Rattle.buffers.specs.Writes.{Put};
ghost use Rattle.markup.specs.Trees.{qualified_name, declaration_name, attribute_name};
ghost use Rattle.markup.specs.Markup.{name_markup};
ghost use Rattle.markup_names.specs.Pooled.{InPool, Pooled};

use rules::Row;

// The name of an attribute or a declaration.
pub fn put_attribute_name(table: &[u32], pool: &[u8], row: Row, out: &mut [u8], at: usize) -> usize
    requires row_bound { row.0 < row_count table.now }
    requires pooled { Pooled table.now pool.now }
    ensures { Put out.old at (name_markup (attribute_name (node_at table.now pool.now row.0))) result out.new }
{
    if rows::kind(table, row) == rules::DECLARATION {
        let prefix = field_within(table, pool, row, rules::LOCAL_NAME);
        return put_declaration_name(out, at, prefix);
    }
    put_row_name(table, pool, row, out, at)
}

// The name of the declaration of a prefix: xmlns, or xmlns: and the prefix.
fn put_declaration_name(out: &mut [u8], at: usize, prefix: &[u8]) -> usize
    ensures { Put out.old at (name_markup (declaration_name prefix.now)) result out.new }
{
    if prefix.len() == 0 {
        return put_name(out, at, prefix, &[120, 109, 108, 110, 115]);
    }
    put_name(out, at, &[120, 109, 108, 110, 115], prefix)
}

// The name of an element or an attribute, as its row has it.
pub fn put_row_name(table: &[u32], pool: &[u8], row: Row, out: &mut [u8], at: usize) -> usize
    requires row_bound { row.0 < row_count table.now }
    requires pooled { Pooled table.now pool.now }
    ensures { Put out.old at (name_markup (qualified_name (node_at table.now pool.now row.0))) result out.new }
{
    let prefix = field_within(table, pool, row, rules::PREFIX);
    let local = field_within(table, pool, row, rules::LOCAL_NAME);
    put_name(out, at, prefix, local)
}

// The bytes of a field of a row that lies in the pool.
pub fn field_within<'p>(table: &[u32], pool: &'p [u8], row: Row, field: u32) -> &'p [u8]
    requires has_field { HasField table.now row.0 field }
    requires in_pool { InPool table.now pool.now row.0 field }
    ensures { result.now ≡ (field_at table.now pool.now row.0 field).bytes }
{
    let place = rows::place(table, row, field);
    let start = rows::wide(place.offset.0);
    &pool[start..start + rows::wide(place.length)]
}

// A name: its prefix and a colon, if it has one, and its local name.
fn put_name(out: &mut [u8], at: usize, prefix: &[u8], local: &[u8]) -> usize
    ensures { Put out.old at (name_markup (record { prefix = prefix.entry.now; local = local.now })) result out.new }
{
    if prefix.len() == 0 {
        return buffers::put_bytes(out, at, local);
    }
    let colon = buffers::put_bytes(out, at, prefix);
    let name = buffers::put_bytes(out, colon, &[58]);
    buffers::put_bytes(out, name, local)
}
