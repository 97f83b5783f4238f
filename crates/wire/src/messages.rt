// The message that a field holds, its fields by number. "An absent number reads as 0, absent bytes as empty."
ghost use Rattle.std.specs.Prelude.{◌≡◌};
ghost use Rattle.wire.specs.Message.{first_of, number_of, place_of, text, bytes_of, message};
ghost use Rattle.wire.specs.Answers.{contents_of, sought_says, value_in, found_in};

use crate::{Cursor, Field};
use varint::between;

// The value in the field that was looked for.
pub fn value_in(sought: Option<(Field, Cursor)>) -> u64
    ensures { result ≡ value_in sought }
{
    match sought {
        Some((f, _)) => f.value,
        None => 0,
    }
}

impl Field {
    // The message that the field holds, from its start to its end.
    pub fn contents(self) -> Cursor
        ensures { result ≡ contents_of self }
    {
        Cursor {
            at: self.start,
            end: self.next,
        }
    }

    // The bytes of a field's contents.
    pub fn text(self, s: &[u8]) -> &[u8]
        ensures { result.now ≡ text s.now self }
    {
        let start = self.start;
        let next = self.next;
        between(s, start, next)
    }

    pub fn first_of(self, s: &[u8], number: u64) -> Option<(Field, Cursor)>
        ensures { sought_says result ≡ found_in self.next (first_of number (message s.now self)) }
    {
        self.contents().next_of(s, number)
    }

    pub fn number_of(self, s: &[u8], number: u64) -> u64
        ensures { result ≡ number_of number (message s.now self) }
    {
        value_in(self.first_of(s, number))
    }

    // "the first tag byte of the field at fault; for something absent, the tag of the message that lacks it"
    pub fn place_of(self, s: &[u8], number: u64) -> usize
        ensures { result ≡ place_of number (message s.now self) }
    {
        match self.first_of(s, number) {
            Some((f, _)) => f.place,
            None => self.place,
        }
    }

    pub fn bytes_of(self, s: &[u8], number: u64) -> &[u8]
        ensures { result.now ≡ bytes_of s.now number (message s.now self) }
    {
        match self.first_of(s, number) {
            Some((f, _)) => f.text(s),
            None => between(s, 0, 0),
        }
    }
}
