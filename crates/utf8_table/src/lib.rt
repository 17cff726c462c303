// The table of byte sequences of RFC 3629, section 4: what the first byte of a sequence tells.
#![tactic(auto)]

ghost use Rattle.std.specs.Prelude.{◌≡◌, ◌≤◌};
ghost use Rattle.rules.specs.Utf8.{following};
ghost use Rattle.utf8_table.specs.Lines.{ranges_of};

// The length of a sequence and the bounds of its second byte, as its first byte tells them. Length 0:
// no sequence starts with that byte.
#[derive(Clone, Copy)]
pub struct Line {
    pub length: usize,
    pub low: u8,
    pub high: u8,
}

// What a first byte tells.
pub fn line_of(first: u8) -> Line
    ensures { (ranges_of result.length result.low result.high ≡ following first) × (result.length ≤ 4) }
{
    if first <= 0x7F {
        return Line {
            length: 1,
            low: 0x80,
            high: 0xBF,
        };
    }
    if first <= 0xC1 {
        return Line {
            length: 0,
            low: 0x80,
            high: 0xBF,
        };
    }
    if first <= 0xDF {
        return Line {
            length: 2,
            low: 0x80,
            high: 0xBF,
        };
    }
    if first == 0xE0 {
        return Line {
            length: 3,
            low: 0xA0,
            high: 0xBF,
        };
    }
    if first == 0xED {
        return Line {
            length: 3,
            low: 0x80,
            high: 0x9F,
        };
    }
    if first <= 0xEF {
        return Line {
            length: 3,
            low: 0x80,
            high: 0xBF,
        };
    }
    if first == 0xF0 {
        return Line {
            length: 4,
            low: 0x90,
            high: 0xBF,
        };
    }
    if first <= 0xF3 {
        return Line {
            length: 4,
            low: 0x80,
            high: 0xBF,
        };
    }
    if first == 0xF4 {
        return Line {
            length: 4,
            low: 0x80,
            high: 0x8F,
        };
    }
    Line {
        length: 0,
        low: 0x80,
        high: 0xBF,
    }
}
