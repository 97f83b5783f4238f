// The inputs of a function, which are new names.
ghost use Rattle.std.specs.Prelude.{◌≡◌, ◌^◌, ◌<◌, length};
ghost use mathlib.Core.List.{flat_map};
ghost use Rattle.varint.specs.Outcome.{each};
ghost use Rattle.wire.specs.Message.{all_of, message};
ghost use Rattle.schema.specs.declared.Kind.TheVariants.{Function};
ghost use Rattle.schema.specs.Numbers.{Function-input};
ghost use Rattle.schema.specs.Opened.{Walked};
ghost use Rattle.rules.specs.Verdict.{fills};
ghost use Rattle.rules.specs.Function.{function_input};
ghost use Rattle.scope.specs.Scope.{walk_in, step_says, grows, Countable, Direct, Keeps};
ghost use Rattle.scope.specs.Recall.{Recalling, Recalled};
ghost use Rattle.messages.specs.Again.{field_names};

use scope::{Index, Progress, define, with_odd};
use values::numbers::FUNCTION_INPUT;
use values::test_name;
use varint::Refusal;
use wire::Field;

// "inputs (22, 21, 23, 40)"
fn input(
    model: &[u8],
    cells: &mut [u32],
    extra: &mut [u32],
    ix: Index,
    p: Progress,
    f: Field,
) -> Result<Progress, Refusal>
    requires direct { Direct model.now f }
    requires countable { Countable p (field_names model.now f) }
    requires model_len_bound { length model.now < 2 ^ 32 }
    requires recalling { Recalling model.now ix cells.old extra.old }
    ensures answer { step_says model.now cells.new result ≡ function_input model.now (fills (length cells.old)) (walk_in model.now cells.old p) f }
    ensures grown { grows p result }
    ensures kept { Keeps p.used cells.old cells.new }
    ensures memory { Recalled model.now ix cells.new extra.old extra.new }
{
    let odd = test_name(model, f, Refusal::NAME_EMPTY)?;
    define(model, cells, extra, ix, with_odd(p, odd), f)
}

pub(crate) fn inputs(
    model: &[u8],
    cells: &mut [u32],
    extra: &mut [u32],
    ix: Index,
    p: Progress,
    f: Field,
) -> Result<Progress, Refusal>
    requires model_len_bound { length model.now < 2 ^ 32 }
    requires walked { Walked model.now Function f }
    requires countable { Countable p (flat_map (field_names model.now) (all_of Function-input (message model.now f))) }
    requires recalling { Recalling model.now ix cells.old extra.old }
    ensures answer { step_says model.now cells.new result ≡ each (function_input model.now (fills (length cells.old))) (walk_in model.now cells.old p) (all_of Function-input (message model.now f)) }
    ensures grown { grows p result }
    ensures kept { Keeps p.used cells.old cells.new }
    ensures memory { Recalled model.now ix cells.new extra.old extra.new }
{
    let mut c = f.contents();
    let mut q = p;
    while let Some((name, next)) = c.next_of(model, FUNCTION_INPUT) {
        let further = input(model, cells, extra, ix, q, name)?;
        q = further;
        c = next;
    }
    Ok(q)
}
