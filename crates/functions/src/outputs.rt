// The outputs of a function, which are visible names.
ghost use Rattle.std.specs.Prelude.{◌≡◌};
ghost use Rattle.varint.specs.Outcome.{each};
ghost use Rattle.wire.specs.Message.{all_of, message};
ghost use Rattle.schema.specs.Numbers.{Function-output};
ghost use Rattle.rules.specs.Walk.{Walk};
ghost use Rattle.rules.specs.Function.{function_output};
ghost use Rattle.values.specs.Answers.{tally_says};
ghost use Rattle.scope.specs.Scope.{scope_in};
ghost use Rattle.scope.specs.Recall.{Recalling};

use scope::{Index, sees};
use values::numbers::FUNCTION_OUTPUT;
use values::test_name;
use varint::{Refusal, refused};
use wire::Field;

// "outputs (22, 21, 35)"
fn output(
    model: &[u8],
    cells: &[u32],
    extra: &[u32],
    ix: Index,
    used: usize,
    f: Field,
) -> Result<u64, Refusal>
    requires { Recalling model.now ix cells.now extra.now }
    ensures { (w : Walk) → w.scope ≡ scope_in model.now cells.now used → tally_says w result ≡ function_output model.now w f }
{
    let odd = test_name(model, f, Refusal::NAME_EMPTY)?;
    if sees(model, cells, extra, ix, used, f.text(model)) {
        return Ok(odd);
    }
    refused(Refusal::OUTPUT_NOT_VISIBLE, f.place)
}

pub(crate) fn outputs(
    model: &[u8],
    cells: &[u32],
    extra: &[u32],
    ix: Index,
    used: usize,
    f: Field,
) -> Result<u64, Refusal>
    requires { Recalling model.now ix cells.now extra.now }
    ensures { (w : Walk) → w.scope ≡ scope_in model.now cells.now used → tally_says w result ≡ each (function_output model.now) w (all_of Function-output (message model.now f)) }
{
    let mut c = f.contents();
    let mut odd = 0;
    while let Some((name, next)) = c.next_of(model, FUNCTION_OUTPUT) {
        let more = output(model, cells, extra, ix, used, name)?;
        odd += more;
        c = next;
    }
    Ok(odd)
}
