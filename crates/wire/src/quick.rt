// Tags and values of the usual sizes, with few tests. Of what is not read this way, or is at fault, the general way decides.
ghost use Rattle.std.specs.Prelude.{◌≡◌, true, false, eqb, ◌+◌, ◌%◌, ◌<◌, ◌≤◌, length, IfSome};
ghost use Rattle.varint.specs.Outcome.{pass};
ghost use Rattle.varint.specs.Varint.{varint};
ghost use Rattle.wire.specs.Short.{Short, short_field};
ghost use Rattle.wire.specs.Quick.{QuickTag, Fixed, FixedEnd, QuickValue, Long, field_of};
ghost use Rattle.varint.specs.declared.Varint.{Varint};

use crate::cursors::{I32, I64, LEN, VARINT};
use crate::shorts::{Number, few_bytes, many_end};
use crate::{Field, Tag};
use varint::{read_varint, wide};

// The tag at a place, if it has one to three bytes. Its wire type is not looked at.
pub(crate) fn quick_tag(s: &[u8], at: usize, end: usize) -> Option<Tag>
    ensures { IfSome result (QuickTag s.now end at) }
{
    let t = few_bytes(s, at, end)?;
    if t.value < 8 {
        return None;
    }
    Some(Tag {
        place: at,
        number: t.value / 8,
        wire: t.value % 8,
        next: t.next,
    })
}

pub(crate) fn field_of(t: Tag, value: u64, start: usize, next: usize) -> Field
    ensures { result ≡ field_of t value start next }
{
    Field {
        place: t.place,
        number: t.number,
        wire: t.wire,
        value,
        start,
        next,
    }
}

// How many bytes a value of fixed size has; 0 for another wire type. As an `Option` it makes a jump table of `quick_value`'s tests, and
// looking for short numbers takes 1.4 times as long.
fn fixed_size(wire: u64) -> usize
    ensures { 0 < result → Fixed wire result }
{
    if wire == I32 {
        return 4;
    }
    if wire == I64 {
        return 8;
    }
    0
}

// Where a value of fixed size ends, if it has one and does not run past the message.
fn fixed_end(wire: u64, from: usize, end: usize) -> Option<usize>
    ensures { IfSome result (FixedEnd wire from end) }
{
    let size = fixed_size(wire);
    if size == 0 {
        return None;
    }
    if end < from {
        return None;
    }
    if end - from < size {
        return None;
    }
    Some(from + size)
}

// Where contents of a length end, unless they run past the message.
fn contents_end(n: Number, end: usize) -> Option<usize>
    requires { n.next ≤ end }
    ensures { IfSome result (λ next. (next ≡ n.next + n.value) × (next ≤ end)) }
{
    if ((end - n.next) as u64) < n.value {
        return None;
    }
    Some(n.next + n.value as usize)
}

// The field of a tag, if its value or length has one to three bytes, or a fixed size. The varint is read in one place: with two the
// compiler no longer puts this where it is called, and looking for fields takes up to 2.8 times as long.
pub(crate) fn quick_value(s: &[u8], t: Tag, end: usize) -> Option<Field>
    ensures { IfSome result (QuickValue s.now t end) }
{
    let wire = t.wire;
    let from = t.next;
    let few = few_bytes(s, from, end);
    if wire == LEN {
        let n = few?;
        let start = n.next;
        let next = contents_end(n, end)?;
        return Some(field_of(t, 0, start, next));
    }
    if wire == VARINT {
        let n = few?;
        return Some(field_of(t, n.value, n.next, n.next));
    }
    let next = fixed_end(wire, from, end)?;
    Some(field_of(t, 0, from, next))
}

// Where the field of a tag ends, if it is a number of any size with room for ten bytes.
pub(crate) fn long_end(s: &[u8], t: Tag, end: usize) -> Option<usize>
    ensures { IfSome result (Long s.now t end) }
{
    if t.wire != VARINT {
        return None;
    }
    many_end(s, t.next, end)
}

// The number after a tag. Where nothing asks for it, the compiler leaves it out.
pub(crate) fn number_at(s: &[u8], t: Tag, end: usize) -> u64
    ensures { (v : Varint) → pass v ≡ varint s.now t.place end t.next → result ≡ v.value }
{
    match read_varint(s, t.place, end, t.next) {
        Ok(v) => v.value,
        Err(_) => 0,
    }
}

// The size of the field at a place, if it is short: one byte of tag, one of length or of value.
pub(crate) fn short_size(s: &[u8], at: usize, end: usize) -> Option<usize>
    ensures { IfSome result (λ size. Short s.now end at (at + size)) }
{
    if end <= at {
        return None;
    }
    if s.len() < end {
        return None;
    }
    let room = end - at;
    if room < 2 {
        return None;
    }
    let t = wide(s[at]);
    if t < 8 {
        return None;
    }
    if 128 <= t {
        return None;
    }
    let n = wide(s[at + 1]);
    if 128 <= n {
        return None;
    }
    let wire = t % 8;
    if wire == VARINT {
        return Some(2);
    }
    if wire != LEN {
        return None;
    }
    let size = n as usize + 2;
    if room < size {
        return None;
    }
    Some(size)
}

fn short_value(t: u64, n: u64) -> u64
    ensures { result ≡ elim (eqb (t % 8) 0) [ true ↦ n | false ↦ 0 ] }
{
    if t % 8 == VARINT {
        return n;
    }
    0
}

// The short field from `at` to `next`.
pub(crate) fn short_field(s: &[u8], at: usize, next: usize) -> Field
    requires { (at + 2 ≤ next) × (next ≤ length s.now) }
    ensures { result ≡ short_field s.now at next }
{
    let t = wide(s[at]);
    Field {
        place: at,
        number: t / 8,
        wire: t % 8,
        value: short_value(t, wide(s[at + 1])),
        start: at + 2,
        next,
    }
}
