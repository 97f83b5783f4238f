// A cursor's methods take it by value and hand back the next one inside the answer. "A reading place moves on by whole fields."
ghost use Rattle.varint.specs.Answers.{outcome_of};
ghost use Rattle.std.specs.Prelude.{◌≡◌};
ghost use Rattle.varint.specs.Outcome.{refused};
ghost use Rattle.wire.specs.Wire.{bad_tag, tag, sized, value, field};
ghost use Rattle.wire.specs.Answers.{with_cursor, sought_says, sought_in};
ghost use Rattle.varint.specs.Lists.{contains};
ghost use Rattle.wire.specs.Quick.{wires};

use crate::quick::{
    field_of, long_end, number_at, quick_tag, quick_value, short_field, short_size,
};
use crate::{Cursor, Field, Tag};
use varint::{Refusal, read_shortest, refused};

// The wire types: varint, eight bytes, length and contents, four bytes.
pub(crate) const VARINT: u64 = 0;

pub(crate) const I64: u64 = 1;

pub(crate) const LEN: u64 = 2;

pub(crate) const I32: u64 = 5;

// "A tag is at most 2^32 - 1, its field number at least 1, its wire type 0, 1, 2 or 5."
#[tactic(auto, unfolding(crate::specs::Wire::bad_tag, varint::specs::Lists::contains))]
fn is_bad_tag(t: u64) -> bool
    ensures { result ≡ bad_tag t }
{
    0x1_0000_0000 <= t || t / 8 == 0 || !matches!(t % 8, VARINT | I64 | LEN | I32)
}

// The field of a tag with `size` bytes from `start` on: "A value or length must end inside its enclosing message."
fn sized_field(
    t: Tag,
    end: usize,
    value: u64,
    start: usize,
    size: u64,
) -> Result<(Field, Cursor), Refusal>
    ensures { outcome_of result ≡ with_cursor end (sized t end value start size) }
{
    if end < start {
        return refused(Refusal::PAST_END, t.place);
    }
    if ((end - start) as u64) < size {
        return refused(Refusal::PAST_END, t.place);
    }
    let next = start + size as usize;
    let field = Field {
        place: t.place,
        number: t.number,
        wire: t.wire,
        value,
        start,
        next,
    };
    Ok((field, Cursor { at: next, end }))
}

#[tactic(auto, unfolding(varint::specs::Lists::contains))]
fn is_wire(wire: u64) -> bool
    ensures { result ≡ contains wire wires }
{
    matches!(wire, VARINT | I64 | LEN | I32)
}

impl Cursor {
    // The tag at the cursor, whatever size it has.
    fn any_tag(self, s: &[u8]) -> Result<Tag, Refusal>
        ensures { outcome_of result ≡ tag s.now self.end self.at }
    {
        let at = self.at;
        let v = read_shortest(s, at, self.end, at)?;
        let t = v.value;
        if is_bad_tag(t) {
            return refused(Refusal::BAD_TAG, at);
        }
        Ok(Tag {
            place: at,
            number: t / 8,
            wire: t % 8,
            next: v.next,
        })
    }

    // The tag at the cursor. Most have one byte or two.
    pub fn tag(self, s: &[u8]) -> Result<Tag, Refusal>
        ensures { outcome_of result ≡ tag s.now self.end self.at }
    {
        if let Some(t) = quick_tag(s, self.at, self.end) {
            if is_wire(t.wire) {
                return Ok(t);
            }
        }
        self.any_tag(s)
    }

    // The value, or the length and the contents, after a tag: whatever size it has.
    fn any_value(self, s: &[u8], t: Tag) -> Result<(Field, Cursor), Refusal>
        ensures { outcome_of result ≡ with_cursor self.end (value s.now t self.end) }
    {
        let end = self.end;
        let wire = t.wire;
        if wire == VARINT {
            let v = read_shortest(s, t.place, end, t.next)?;
            return sized_field(t, end, v.value, v.next, 0);
        }
        if wire == LEN {
            let v = read_shortest(s, t.place, end, t.next)?;
            return sized_field(t, end, 0, v.next, v.value);
        }
        if wire == I64 {
            return sized_field(t, end, 0, t.next, 8);
        }
        sized_field(t, end, 0, t.next, 4)
    }

    // The value, or the length and the contents, after a tag that was read in this cursor's message. The last answer is made anew, so
    // that the others need no memory.
    pub fn value(self, s: &[u8], t: Tag) -> Result<(Field, Cursor), Refusal>
        ensures { outcome_of result ≡ with_cursor self.end (value s.now t self.end) }
    {
        let end = self.end;
        if let Some(quick) = quick_value(s, t, end) {
            return Ok((
                quick,
                Cursor {
                    at: quick.next,
                    end,
                },
            ));
        }
        if let Some(far) = long_end(s, t, end) {
            let long = field_of(t, number_at(s, t, end), far, far);
            return Ok((long, Cursor { at: far, end }));
        }
        match self.any_value(s, t) {
            Err(r) => Err(r),
            Ok((f, c)) => Ok((f, c)),
        }
    }

    // The field at the cursor, whatever sizes its tag and its length have. After a long tag the value may well be short.
    fn any_field(self, s: &[u8]) -> Result<(Field, Cursor), Refusal>
        ensures { outcome_of result ≡ with_cursor self.end (field s.now self.end self.at) }
    {
        let t = self.any_tag(s)?;
        if let Some(f) = quick_value(s, t, self.end) {
            return Ok((
                f,
                Cursor {
                    at: f.next,
                    end: self.end,
                },
            ));
        }
        self.any_value(s, t)
    }

    // The field at the cursor, with few tests where its sizes are usual.
    fn quick_field(self, s: &[u8]) -> Result<(Field, Cursor), Refusal>
        ensures { outcome_of result ≡ with_cursor self.end (field s.now self.end self.at) }
    {
        let end = self.end;
        let Some(t) = quick_tag(s, self.at, end) else {
            return self.any_field(s);
        };
        let Some(f) = quick_value(s, t, end) else {
            return self.any_field(s);
        };
        Ok((f, Cursor { at: f.next, end }))
    }

    // The field at the cursor. Most are short, and those are read where this is called: it is just small enough for that.
    pub fn field(self, s: &[u8]) -> Result<(Field, Cursor), Refusal>
        ensures { outcome_of result ≡ with_cursor self.end (field s.now self.end self.at) }
    {
        let at = self.at;
        let end = self.end;
        let Some(size) = short_size(s, at, end) else {
            return match self.quick_field(s) {
                Err(r) => Err(r),
                Ok((f, c)) => Ok((f, c)),
            };
        };
        let next = at + size;
        Ok((short_field(s, at, next), Cursor { at: next, end }))
    }

    // The next field with this number, from the cursor on. Fields of usual sizes are passed over where they stand, with no answer
    // made for each.
    pub fn next_of(self, s: &[u8], number: u64) -> Option<(Field, Cursor)>
        ensures { sought_says result ≡ sought_in s.now number self.end self.at }
    {
        let end = self.end;
        let mut at = self.at;
        // A `while`: the place moves by whole fields.
        while at < end {
            if let Some(t) = quick_tag(s, at, end) {
                if let Some(f) = quick_value(s, t, end) {
                    if number == f.number {
                        return Some((f, Cursor { at: f.next, end }));
                    }
                    at = f.next;
                    continue;
                }
                if let Some(far) = long_end(s, t, end) {
                    if number != t.number {
                        at = far;
                        continue;
                    }
                }
            }
            let here = Cursor { at, end };
            let Ok((field, next)) = here.quick_field(s) else {
                return None;
            };
            if number == field.number {
                return Some((field, next));
            }
            at = next.at;
        }
        None
    }
}
