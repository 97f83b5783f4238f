// Well-formed UTF-8, by the syntax of RFC 3629, section 4.
ghost use Rattle.std.specs.Prelude.{◌≡◌};
ghost use Rattle.spelling.specs.Utf8.{announced, leads, well_formed};
ghost use Rattle.spelling.specs.Spelling.{lead_says};

// What the first byte of a character announces: so many tails, and the first of them from one byte to another.
#[derive(Clone, Copy)]
struct Lead {
    tails: u8,
    least: u8,
    most: u8,
}

fn lead_of(b: u8) -> Option<Lead>
    ensures { lead_says result ≡ announced b leads }
{
    let (tails, least, most) = match b {
        0x00..=0x7F => (0, 0x80, 0xBF),
        // Tails, and what would begin an overlong form.
        0x80..=0xC1 => return None,
        0xC2..=0xDF => (1, 0x80, 0xBF),
        0xE0 => (2, 0xA0, 0xBF),
        0xE1..=0xEC => (2, 0x80, 0xBF),
        0xED => (2, 0x80, 0x9F),
        0xEE..=0xEF => (2, 0x80, 0xBF),
        0xF0 => (3, 0x90, 0xBF),
        0xF1..=0xF3 => (3, 0x80, 0xBF),
        0xF4 => (3, 0x80, 0x8F),
        // No lead, or of a number past U+10FFFF.
        0xF5..=0xFF => return None,
    };
    Some(Lead { tails, least, most })
}

// Whether the bytes are well-formed.
pub(crate) fn is_well_formed(s: &[u8]) -> bool
    ensures { result ≡ well_formed s.now }
{
    let mut tails = 0;
    let mut lo = 0x80;
    let mut hi = 0xBF;
    for &b in s {
        if tails == 0 {
            // ASCII is the common case.
            if b < 0x80 {
                continue;
            }
            let Some(lead) = lead_of(b) else {
                return false;
            };
            tails = lead.tails;
            lo = lead.least;
            hi = lead.most;
            continue;
        }
        if b < lo {
            return false;
        }
        if b > hi {
            return false;
        }
        tails -= 1;
        lo = 0x80;
        hi = 0xBF;
    }
    tails == 0
}
