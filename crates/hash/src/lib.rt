// The hash of a name: from its length and its bytes, by eights from the end. Of a name that is not whole
// eights the last one overlaps the one before it. There is no key in it, so names can be made that all
// share a bucket; each then costs a walk past all the others.
#![tactic(auto)]

ghost use Rattle.std.specs.Prelude.{◌≡◌, ◌+◌, ◌≤◌, ◌<◌, length};
ghost use Rattle.hash.specs.Hash.{four, mixed, mixed_long, mixed_short, hash_of};

// The upper half of what the steps give.
pub fn hash_of(name: &[u8]) -> u16
    ensures { result ≡ hash_of name.now }
{
    if name.len() < 8 {
        return (mix_short(name) / 65536 % 65536) as u16;
    }
    (mix_long(name) / 65536 % 65536) as u16
}

// A name of eight bytes or more.
fn mix_long(name: &[u8]) -> u32
    requires { 8 ≤ length name.now }
    ensures { result ≡ mixed_long name.now }
{
    let size = name.len();
    let mut h = mix(
        (size % 65536) as u32,
        four(name, size - 8),
        four(name, size - 4),
    );
    for k in (0..(size - 1) / 8).rev() {
        h = mix(h, four(name, 8 * k), four(name, 8 * k + 4));
    }
    h
}

// A name of less: its first four and its last four, or each byte.
fn mix_short(name: &[u8]) -> u32
    requires { length name.now < 8 }
    ensures { result ≡ mixed_short name.now }
{
    let size = name.len();
    if size >= 4 {
        return mix(size as u32, four(name, 0), four(name, size - 4));
    }
    if size == 0 {
        return 0;
    }
    let bytes = wide(name[0]) + 256 * wide(name[size / 2]) + 65536 * wide(name[size - 1]);
    mix(size as u32, bytes, 0)
}

// A step of the hash: a product with eight bytes, folded.
fn mix(h: u32, low: u32, high: u32) -> u32
    ensures { result ≡ mixed h low high }
{
    let product = (h as u64 + low as u64) * 668265263 + high as u64 * 374761393;
    ((product + product / 4294967296) % 4294967296) as u32
}

// The four bytes from i on as a number: the compiler makes one read of them.
fn four(name: &[u8], i: usize) -> u32
    requires { i + 4 ≤ length name.now }
    ensures { result ≡ four name.now i }
{
    wide(name[i])
        + 256 * wide(name[i + 1])
        + 65536 * wide(name[i + 2])
        + 16777216 * wide(name[i + 3])
}

// A byte as a number.
fn wide(x: u8) -> u32
    ensures value { result ≡ x }
    ensures upper_bound { result < 256 }
{
    x as u32
}
