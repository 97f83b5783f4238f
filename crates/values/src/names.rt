// The names of messages.
ghost use Rattle.std.specs.Prelude.{◌≡◌};
ghost use Rattle.varint.specs.Outcome.{refused};
ghost use Rattle.wire.specs.Message.{message};
ghost use Rattle.rules.specs.Names.{name_in};
ghost use Rattle.rules.specs.Walk.{Walk, naming};
ghost use Rattle.values.specs.Answers.{tally_says, naming_says, name_field};

use crate::tallies::tested;
use varint::{Refusal, refused};
use wire::Field;

// The field that holds a message's name, with 1 where it is odd and 0 where it is not. It may not be empty, refusal `empty`, and is tested: 21.
pub fn read_name(model: &[u8], m: Field, number: u64, empty: u8) -> Result<(Field, u64), Refusal>
    ensures { (w : Walk) → naming_says w result ≡ name_field model.now empty number w (message model.now m) }
{
    let Some((name, _)) = m.first_of(model, number) else {
        return refused(empty, m.place);
    };
    let text = name.text(model);
    if text.len() == 0 {
        return refused(empty, name.place);
    }
    let odd = tested(text, name.place)?;
    Ok((name, odd))
}

// A field that is a name by itself: the same.
pub fn test_name(model: &[u8], f: Field, empty: u8) -> Result<u64, Refusal>
    ensures { (w : Walk) → tally_says w result ≡ naming empty w (name_in model.now f) }
{
    let text = f.text(model);
    if text.len() == 0 {
        return refused(empty, f.place);
    }
    tested(text, f.place)
}
