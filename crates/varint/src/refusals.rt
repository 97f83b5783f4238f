// A refusal with no second number, in place of an answer of any kind.
ghost use Rattle.std.specs.Prelude.{◌≡◌, Err};
ghost use Rattle.varint.specs.Answers.{refusal};

use crate::Refusal;

pub fn refused<T>(number: u8, place: usize) -> Result<T, Refusal>
    ensures { result ≡ Err (refusal number place) }
{
    Err(Refusal {
        number,
        place,
        first: 0,
    })
}
