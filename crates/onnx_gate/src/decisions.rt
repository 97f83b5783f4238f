// What the program prints for what it read.
ghost use Rattle.std.specs.Prelude.{◌≡◌, take};
ghost use Rattle.io.specs.Counts.{IsPrefixLen};
ghost use Rattle.report.specs.Line.{line_of};
ghost use Rattle.gate.specs.Meaning.{meaning};
ghost use Rattle.onnx_gate.specs.Program.{answered};

use gate::{Accepted, check};
use report::line;
use varint::{Refusal, refused};

// "Its whole output is one line with a newline": the first bytes of `out`, as many as are answered.
pub(crate) fn reply(
    model: &[u8],
    is_model_longer: bool,
    list: &[u8],
    is_list_longer: bool,
    out: &mut [u8; 96],
) -> usize
    ensures counts { IsPrefixLen result out.new }
    ensures text { take result out.new ≡ line_of (answered model.now is_model_longer list.now is_list_longer) }
{
    line(decide(model, is_model_longer, list, is_list_longer), out)
}

// "a longer model prints refusal 7 and a longer list 8, both at 0, 7 first"; all else is the library's answer.
#[tactic(auto, using(crate::proofs::ProgramLaws::answering), unfolding(gate::specs::Meaning::meaning))]
fn decide(
    model: &[u8],
    is_model_longer: bool,
    list: &[u8],
    is_list_longer: bool,
) -> Result<Accepted, Refusal>
    ensures { meaning result ≡ answered model.now is_model_longer list.now is_list_longer }
{
    if is_model_longer {
        return refused(Refusal::MODEL_TOO_LARGE, 0);
    }
    if is_list_longer {
        return refused(Refusal::LIST_UNSOUND, 0);
    }
    let mut cells = [0u32; 4096];
    check(model, list, &mut cells)
}
