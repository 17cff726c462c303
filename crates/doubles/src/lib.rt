// Refusal 7: an earlier row of the same owner has the same name. Rows are entered into chains by owner,
// type and name, so that a row is compared only with those that share its bucket. Names are compared by
// the numbers that are noted of the rows. Testing a row and entering it are two steps: whoever goes
// through the rows decides which are entered.
#![tactic(auto)]

ghost use Rattle.std.specs.Prelude.{◌≡◌, List, Bool, true, cond, ℕ, ◌+◌, ◌*◌, ◌≤◌, ◌<◌, length, ltb};
ghost use Rattle.rules.specs.Table.{row_count, nodes};
ghost use Rattle.chains.specs.Chains.{latest};
ghost use Rattle.notes.specs.Notes.{NOTES};
ghost use Rattle.numbers.specs.Noted.{Numbered};
ghost use Rattle.doubles.specs.Doubles.{BUCKETS, is_owned, key_of, same_key, bucket_of, bucket_at, head_at, link_at, has_key, entered, Entered, SomeEntered, has_double};

use rules::{NameId, Position, Row};

const BUCKETS: usize = 1024;

// The words of the chains of so many rows as a table has at most: heads, and links from row 1 on.
pub const WORDS: usize = BUCKETS + rules::MOST_ROWS + 1;

// What decides whether rows are doubles.
#[derive(Clone, Copy)]
pub struct Key {
    pub owner: Row,
    pub kind: u32,
    pub local: NameId,
    pub uri: NameId,
}

// The bucket of a row; one that is not compared has none, and BUCKETS is told.
pub fn bucket_at(table: &[u32], notes: &[u16], row: Row) -> usize
    requires { (row.0 < row_count table.now) × (NOTES * row_count table.now ≤ length notes.now) }
    ensures { result ≡ bucket_at table.now notes.now (row.0 + 1) }
{
    if !is_owned(table, row) {
        return BUCKETS;
    }
    bucket_of(key_of(table, notes, row))
}

// The row, of this bucket, is a double of one that is entered.
pub fn is_double(table: &[u32], notes: &[u16], chains: &[u16], bucket: usize, row: Row) -> bool
    requires row_bound { row.0 < row_count table.now }
    requires some_entered { SomeEntered table.now notes.now chains.now row.0 }
    requires bucket_value { bucket ≡ bucket_at table.now notes.now (row.0 + 1) }
    ensures { (enters : ℕ → Bool) (pool : List ℕ) (spelling : ℕ → List ℕ) (last : ℕ) → Entered enters table.now notes.now chains.now row.0 → Numbered table.now pool notes.now spelling last (row.0 + 1) → result ≡ has_double enters (nodes table.now pool) row.0 }
{
    if bucket == BUCKETS {
        return false;
    }
    has_key(table, notes, chains, bucket, key_of(table, notes, row), row)
}

// Enters the row into its bucket, if it has one.
pub fn enter(chains: &mut [u16], bucket: usize, row: Row)
    requires { (row.0 + 1 < 65536) × (BUCKETS + row.0 + 1 < length chains.old) }
    ensures { chains.new ≡ entered chains.old bucket row.0 }
{
    if bucket < BUCKETS {
        let position = notes::position_of(row);
        let at = BUCKETS + position.0 as usize;
        chains[at] = chains[bucket];
        chains[bucket] = position.0;
    }
}

// Enters a row that is compared and has this key, unless it is a double of one that is entered, which is told.
pub fn add(table: &[u32], notes: &[u16], chains: &mut [u16], key: Key, row: Row) -> bool
    requires row_bound { row.0 < row_count table.now }
    requires some_entered { SomeEntered table.now notes.now chains.old row.0 }
    requires row_value { is_owned (key_of table.now notes.now row.0) ≡ true }
    requires key_value { key ≡ key_of table.now notes.now row.0 }
    ensures by_index { (enters : ℕ → Bool) (pool : List ℕ) (spelling : ℕ → List ℕ) (last : ℕ) → Entered enters table.now notes.now chains.old row.0 → Numbered table.now pool notes.now spelling last (row.0 + 1) → result ≡ has_double enters (nodes table.now pool) row.0 }
    ensures chains_after { chains.new ≡ cond result chains.old (entered chains.old (bucket_at table.now notes.now (row.0 + 1)) row.0) }
{
    let bucket = bucket_of(key);
    if has_key(table, notes, chains, bucket, key, row) {
        return true;
    }
    enter(chains, bucket, row);
    false
}

// A row that is entered has the key, which is this row's. The rows of a chain descend, and a row stands
// behind its owner: those up to the owner are not looked at.
fn has_key(table: &[u32], notes: &[u16], chains: &[u16], bucket: usize, key: Key, row: Row) -> bool
    requires row_bound { row.0 < row_count table.now }
    requires some_entered { SomeEntered table.now notes.now chains.now row.0 }
    requires row_value { is_owned (key_of table.now notes.now row.0) ≡ true }
    requires bucket_value { bucket ≡ bucket_of (key_of table.now notes.now row.0) }
    requires key_value { key ≡ key_of table.now notes.now row.0 }
    ensures { (enters : ℕ → Bool) → Entered enters table.now notes.now chains.now row.0 → result ≡ ltb 0 (latest (has_key enters table.now notes.now (key_of table.now notes.now row.0)) row.0) }
{
    let r = row.0;
    let owner = key.owner.0;
    let mut at = head(chains, bucket).0;
    while at > 0 {
        let earlier = notes::row_at(Position(at));
        if earlier.0 <= owner {
            return false;
        }
        if same_key(key_of(table, notes, earlier), key) {
            return true;
        }
        at = link(chains, Position(at)).0;
    }
    false
}

// The row entered last into a bucket.
fn head(chains: &[u16], bucket: usize) -> Position
    requires { bucket < length chains.now }
    ensures { result.0 ≡ head_at chains.now bucket }
{
    Position(chains[bucket])
}

// The row entered before this one into the same bucket.
fn link(chains: &[u16], position: Position) -> Position
    requires { BUCKETS + position.0 < length chains.now }
    ensures { result.0 ≡ link_at chains.now position.0 }
{
    Position(chains[BUCKETS + position.0 as usize])
}

// The key of a row. The URI counts for an attribute alone.
fn key_of(table: &[u32], notes: &[u16], row: Row) -> Key
    requires { (row.0 < row_count table.now) × (NOTES * row_count table.now ≤ length notes.now) }
    ensures { result ≡ key_of table.now notes.now row.0 }
{
    let owner = rows::parent(table, row);
    let kind = rows::kind(table, row);
    let local = notes::name(notes, row, notes::LOCAL_NAME);
    if kind == rules::ATTRIBUTE {
        let uri = notes::name(notes, row, notes::URI);
        return Key {
            owner,
            kind,
            local,
            uri,
        };
    }
    Key {
        owner,
        kind,
        local,
        uri: NameId(0),
    }
}

// The two keys are the same.
fn same_key(a: Key, b: Key) -> bool
    ensures { result ≡ same_key a b }
{
    (a.owner.0 == b.owner.0) & (a.kind == b.kind) & (a.local.0 == b.local.0) & (a.uri.0 == b.uri.0)
}

// The bucket of a key. Rows whose names are numbered in turn, the local names alone or the URIs with
// them, have buckets of their own.
fn bucket_of(key: Key) -> usize
    ensures { result ≡ bucket_of key }
{
    (key.owner.0 as usize * 40503
        + key.kind as usize * 7
        + key.local.0 as usize * 45053
        + key.uri.0 as usize * 57149)
        / 64
        % BUCKETS
}

// The row is an attribute or a declaration that has an owner.
fn is_owned(table: &[u32], row: Row) -> bool
    requires { row.0 < row_count table.now }
    ensures { (notes : List ℕ) → result ≡ is_owned (key_of table.now notes row.0) }
{
    let kind = rows::kind(table, row);
    let owner = rows::parent(table, row);
    ((kind == rules::ATTRIBUTE) | (kind == rules::DECLARATION) | (kind == rules::LEVEL1_ATTRIBUTE))
        & (owner.0 != rules::NONE)
}
