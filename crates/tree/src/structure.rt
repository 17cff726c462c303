// Refusal 2: an unknown type, a parent that is not allowed, or a document's second element.
ghost use Rattle.std.specs.Prelude.{◌≡◌, List, ℕ, ◌≤◌, ◌<◌};
ghost use Rattle.rules.specs.Table.{MOST_ROWS, row_count, nodes};
ghost use Rattle.rules.specs.Refusals.{parent_rule, bad_structure};
ghost use Rattle.tree.specs.Parents.{NOTHING, line_of, rule_allows, Right};
ghost use Rattle.tree.specs.Earlier.{any_before, under};

use rows::wide;
use rules::Row;

// What may stand above a row, a bit for each: a row of a type, or nothing.
const NOTHING: u32 = rules::DECLARATION + 1;

const ALONE: u16 = 1 << NOTHING;

const ELEMENT: u16 = 1 << rules::ELEMENT;

const REFERENCE: u16 = 1 << rules::ENTITY_REFERENCE;

const DOCUMENT: u16 = 1 << rules::DOCUMENT;

const DOCUMENT_TYPE: u16 = 1 << rules::DOCUMENT_TYPE;

const FRAGMENT: u16 = 1 << rules::DOCUMENT_FRAGMENT;

const CONTENT: u16 = ALONE | ELEMENT | REFERENCE | FRAGMENT;

// The allowed parents, a line for each type from 1 to 13; line 0 is that of an unknown type.
const ALLOWED: [u16; 14] = [
    0,
    CONTENT | DOCUMENT,
    ALONE | ELEMENT,
    CONTENT,
    CONTENT,
    CONTENT,
    ALONE | DOCUMENT_TYPE,
    CONTENT | DOCUMENT,
    CONTENT | DOCUMENT,
    ALONE,
    ALONE | DOCUMENT,
    ALONE,
    ALONE | DOCUMENT_TYPE,
    ELEMENT,
];

// The table of the allowed parents. Whoever goes through rows makes it once, and lends it.
pub fn allowed_parents() -> [u16; 14]
    ensures { Right result }
{
    ALLOWED
}

// The row draws the refusal. The table is asked of every row; under a parent that comes before the
// documents in it, as most are, it alone decides.
pub fn bad(table: &[u32], allowed: &[u16], row: Row) -> bool
    requires row_bound { (row.0 < row_count table.now) × (row_count table.now ≤ MOST_ROWS) }
    requires right { Right allowed.now }
    ensures { (pool : List ℕ) → result ≡ bad_structure (nodes table.now pool) row.0 }
{
    let kind = rows::kind(table, row);
    let parent = rows::parent(table, row);
    if parent.0 == rules::NONE {
        return !allows(allowed, kind, NOTHING);
    }
    if parent.0 >= row.0 {
        return true;
    }
    let above = rows::kind(table, parent);
    if (kind <= rules::DECLARATION) & (above < rules::DOCUMENT) {
        return !has_bit(allowed, kind, above);
    }
    if !allows(allowed, kind, line(above)) {
        return true;
    }
    if above != rules::DOCUMENT {
        return false;
    }
    if !rows::is_element(kind) {
        return false;
    }
    has_element(table, parent, row)
}

// A row before this one is an element under the parent. At most one element of each document asks.
fn has_element(table: &[u32], parent: Row, row: Row) -> bool
    requires { row.0 ≤ row_count table.now }
    ensures { result ≡ any_before (under table.now parent.0) row.0 }
{
    (0..row.0).any(|earlier| is_element_under(table, parent, Row(earlier)))
}

// The row is an element under the parent.
fn is_element_under(table: &[u32], parent: Row, row: Row) -> bool
    requires { row.0 < row_count table.now }
    ensures { result ≡ under table.now parent.0 row.0 }
{
    let above = rows::parent(table, row);
    rows::is_element(rows::kind(table, row)) & (above.0 == parent.0)
}

// A row of this type may stand under a row of the line above, or under nothing.
fn allows(allowed: &[u16], kind: u32, above: u32) -> bool
    requires right { Right allowed.now }
    requires above_bound { above ≤ NOTHING }
    ensures { result ≡ rule_allows (parent_rule kind) above }
{
    has_bit(allowed, line(kind), above)
}

// The line of the table has the bit.
fn has_bit(lines: &[u16], line: u32, above: u32) -> bool
    requires right { Right lines.now }
    requires line_bound { (line < NOTHING) × (above ≤ NOTHING) }
    ensures { result ≡ rule_allows (parent_rule line) above }
{
    (lines[wide(line)] >> above) & 1 == 1
}

// The line of a type in the table: its number, a DOM Level 1 type standing with the same type of Level 2.
fn line(kind: u32) -> u32
    ensures { result ≡ line_of kind }
{
    if kind <= rules::DECLARATION {
        return kind;
    }
    if kind == rules::LEVEL1_ELEMENT {
        return rules::ELEMENT;
    }
    if kind == rules::LEVEL1_ATTRIBUTE {
        return rules::ATTRIBUTE;
    }
    0
}
