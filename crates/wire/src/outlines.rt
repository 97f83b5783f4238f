// One reading of a message that several rules look into: where the first field of each of six numbers stands.
ghost use Rattle.std.specs.Prelude.{◌≡◌};
ghost use Rattle.wire.specs.Answers.{sought_says, sought_in};
ghost use Rattle.wire.specs.Outline.{Outlines, marked};

use crate::{Cursor, Field};

// The places of six fields, in the order in which their numbers were given; the message's end for one that is not there.
#[derive(Clone, Copy)]
pub struct Outline {
    pub first: usize,
    pub second: usize,
    pub third: usize,
    pub fourth: usize,
    pub fifth: usize,
    pub sixth: usize,
}

fn mark(met: usize, end: usize, at: usize, number: u64, wanted: u64) -> usize
    ensures { result ≡ marked met end at number wanted }
{
    if met < end {
        return met;
    }
    if wanted == number {
        return at;
    }
    met
}

impl Field {
    pub fn outline(self, s: &[u8], a: u64, b: u64, c: u64, d: u64, e: u64, f: u64) -> Outline
        ensures { Outlines s.now self a b c d e f result }
    {
        let end = self.next;
        let mut here = self.contents();
        let mut o = Outline {
            first: end,
            second: end,
            third: end,
            fourth: end,
            fifth: end,
            sixth: end,
        };
        // A `while`: the cursor moves by whole fields.
        while here.at < end {
            let at = here.at;
            let Ok((field, next)) = here.field(s) else {
                return o;
            };
            let number = field.number;
            o = Outline {
                first: mark(o.first, end, at, number, a),
                second: mark(o.second, end, at, number, b),
                third: mark(o.third, end, at, number, c),
                fourth: mark(o.fourth, end, at, number, d),
                fifth: mark(o.fifth, end, at, number, e),
                sixth: mark(o.sixth, end, at, number, f),
            };
            here = next;
        }
        o
    }

    // The first field with this number, from a place of the message on.
    pub fn first_from(self, s: &[u8], number: u64, at: usize) -> Option<(Field, Cursor)>
        ensures { sought_says result ≡ sought_in s.now number self.next at }
    {
        let here = Cursor { at, end: self.next };
        here.next_of(s, number)
    }
}
