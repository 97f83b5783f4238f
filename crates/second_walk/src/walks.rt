// The second walk: the header, the main graph, then the functions.
ghost use Rattle.std.specs.Prelude.{◌≡◌, ◌^◌, ◌≤◌, ◌<◌, length, replicate};
ghost use Rattle.wire.specs.Message.{number_of, message, whole};
ghost use Rattle.varint.specs.Outcome.{pass};
ghost use Rattle.schema.specs.FirstWalk.{first_walk};
ghost use Rattle.schema.specs.Numbers.{Model-ir_version};
ghost use Rattle.rules.specs.Header.{second_walk};
ghost use Rattle.rules.specs.Verdict.{fills};
ghost use Rattle.scope.specs.Scope.{step_says};
ghost use Rattle.headers.specs.Imported.{Outlined};

use crate::mains::main_graph;
use crate::model_functions::functions;
use crate::tables::table_at;
use headers::{model_outline, whole};
use scope::{Index, Progress};
use values::numbers::MODEL_IR_VERSION;
use varint::Refusal;
use wire::{Outline, value_in};

fn ir_version(model: &[u8], o: Outline) -> u64
    requires { Outlined model.now o }
    ensures { result ≡ number_of Model-ir_version (message model.now (whole model.now)) }
{
    value_in(whole(model).first_from(model, MODEL_IR_VERSION, o.first))
}

// With extra cells that are all zero.
pub fn second_walk(
    model: &[u8],
    list: &[u8],
    cells: &mut [u32],
    extra: &mut [u32],
    ix: Index,
) -> Result<Progress, Refusal>
    requires extra_value { extra.old ≡ replicate (length extra.old) 0 }
    requires split_in_bounds { ix.split ≤ length extra.old }
    requires model_len_bound { length model.now < 2 ^ 32 }
    requires model_value { first_walk model.now ≡ pass tt }
    ensures answer { step_says model.now cells.new result ≡ second_walk model.now list.now (fills (length cells.old)) }
    ensures size { length cells.new ≡ length cells.old }
{
    let o = model_outline(model);
    let version = ir_version(model, o);
    let last = table_at(model, o.fourth, ix.split, extra.len());
    let p = main_graph(model, list, cells, &mut extra[..last], ix, o, version)?;
    functions(model, list, cells, extra, ix, last, version, o.fourth, p)
}
