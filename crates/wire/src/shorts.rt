// Varints of the usual sizes, with few tests.
ghost use Rattle.std.specs.Prelude.{◌≡◌, ◌<◌, IfSome};
ghost use Rattle.wire.specs.Quick.{Few, Many};

use varint::wide;

// A varint in its shortest form: its value, and where it ends.
#[derive(Drop)]
pub(crate) struct Number {
    pub(crate) value: u64,
    pub(crate) next: usize,
}

// Where a varint of more than one byte ends, unless it is padded.
fn end_of(next: usize, last: u64) -> Option<usize>
    ensures { IfSome result (λ end. (0 < last) × (end ≡ next)) }
{
    if last == 0 {
        return None;
    }
    Some(next)
}

// The varint at a place, if it has one to three bytes, as most have, and no fault.
pub(crate) fn few_bytes(s: &[u8], at: usize, end: usize) -> Option<Number>
    ensures { IfSome result (Few s.now end at) }
{
    if end <= at {
        return None;
    }
    if s.len() < end {
        return None;
    }
    let a = wide(s[at]);
    if a < 128 {
        return Some(Number {
            value: a,
            next: at + 1,
        });
    }
    if end <= at + 1 {
        return None;
    }
    let b = wide(s[at + 1]);
    if b < 128 {
        let next = end_of(at + 2, b)?;
        return Some(Number {
            value: a - 128 + 128 * b,
            next,
        });
    }
    if end <= at + 2 {
        return None;
    }
    let c = wide(s[at + 2]);
    if c < 128 {
        let next = end_of(at + 3, c)?;
        return Some(Number {
            value: a + 128 * b + 16384 * c - 16512,
            next,
        });
    }
    None
}

// Where the varint at a place ends, if it has room for ten bytes and no fault. The compiler writes the nine turns out.
pub(crate) fn many_end(s: &[u8], at: usize, end: usize) -> Option<usize>
    ensures { IfSome result (Many s.now end at) }
{
    if s.len() < end {
        return None;
    }
    if end < at {
        return None;
    }
    if end - at < 10 {
        return None;
    }
    for i in 0..9 {
        let b = wide(s[at + i]);
        if b < 128 {
            return end_of(at + i + 1, b);
        }
    }
    if wide(s[at + 9]) != 1 {
        return None;
    }
    Some(at + 10)
}
