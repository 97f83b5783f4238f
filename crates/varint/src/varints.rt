// "A varint has at most ten bytes, lowest seven bits first; the tenth is 0 or 1."
ghost use Rattle.varint.specs.Answers.{outcome_of};
ghost use Rattle.std.specs.Prelude.{◌≡◌, ◌+◌, ◌<◌, min};
ghost use Rattle.varint.specs.Bytes.{byte};
ghost use Rattle.varint.specs.Varint.{varint, shortest_varint};

use crate::{Refusal, Varint, refused};

// The byte at a position, 0 past the end.
#[tactic(auto, unfolding(crate::specs::Bytes::byte))]
pub fn byte_at(s: &[u8], pos: usize) -> u64
    ensures { (result ≡ byte s.now pos) × (result < 256) }
{
    match s.get(pos) {
        Some(b) => u64::from(*b),
        None => 0,
    }
}

pub fn wide(b: u8) -> u64
    ensures { (result ≡ b) × (result < 256) }
{
    u64::from(b)
}

// Where a varint's tenth byte stands, or its message's end before that.
fn tenth_or_end(end: usize, from: usize) -> usize
    ensures { result ≡ min end (from + 9) }
{
    from.saturating_add(9).min(end)
}

// The varint at `from`, of the field whose tag is at `place`, in a message that ends at `end`. Most have one byte: those take the
// short way. The loop stops at a place, so that the compiler writes it out once and puts it where it is called.
pub fn read_varint(s: &[u8], place: usize, end: usize, from: usize) -> Result<Varint, Refusal>
    ensures { outcome_of result ≡ varint s.now place end from }
{
    if end <= from {
        return refused(Refusal::PAST_END, place);
    }
    let first = byte_at(s, from);
    if first < 128 {
        return Ok(Varint {
            value: first,
            next: from + 1,
            shortest: true,
        });
    }
    let stop = tenth_or_end(end, from);
    let mut value: u64 = 0;
    let mut scale: u64 = 1;
    for pos in from..stop {
        let b = byte_at(s, pos);
        if b < 128 {
            return Ok(Varint {
                value: value + scale * b,
                next: pos + 1,
                shortest: 0 < b,
            });
        }
        value += scale * (b - 128);
        scale *= 128;
    }
    if end <= stop {
        return refused(Refusal::PAST_END, place);
    }
    let tenth = byte_at(s, stop);
    if 1 < tenth {
        return refused(Refusal::TENTH_BYTE, place);
    }
    Ok(Varint {
        value: value + scale * tenth,
        next: stop + 1,
        shortest: 0 < tenth,
    })
}

// "every caller refuses a padded tag, value or length with 9, after 1 and 2 for that varint"
pub fn read_shortest(s: &[u8], place: usize, end: usize, from: usize) -> Result<Varint, Refusal>
    ensures { outcome_of result ≡ shortest_varint s.now place end from }
{
    let v = read_varint(s, place, end, from)?;
    if v.shortest {
        return Ok(v);
    }
    refused(Refusal::PADDED, place)
}
