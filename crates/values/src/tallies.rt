// Names that are tested, and the count of the odd ones among them.
ghost use Rattle.std.specs.Prelude.{◌≡◌};
ghost use Rattle.varint.specs.Outcome.{refused};
ghost use Rattle.rules.specs.Walk.{Walk, tested};
ghost use Rattle.values.specs.Answers.{tally_says, adding, Addable};

use spelling::{Spelling, spell};
use varint::{Refusal, refused};

// "wherever 21 is tested": here, and nowhere else.
pub fn tested(name: &[u8], place: usize) -> Result<u64, Refusal>
    ensures { (w : Walk) → tally_says w result ≡ tested w (record { bytes = name.now; place = place }) }
{
    match spell(name) {
        Spelling::Identifier => Ok(0),
        Spelling::OtherText => Ok(1),
        Spelling::NotUtf8 => refused(Refusal::NOT_UTF8, place),
    }
}

// So many more.
#[tactic(auto, unfolding(crate::specs::Answers::Addable, crate::specs::Answers::adding))]
pub fn adding(odd: u64, t: Result<u64, Refusal>) -> Result<u64, Refusal>
    requires { Addable odd t }
    ensures { result ≡ adding odd t }
{
    let more = t?;
    Ok(odd + more)
}
