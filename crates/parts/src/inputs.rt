// The inputs of a graph. A cell holds the place of a name, so the model is shorter than the greatest number in one; the first walk
// passed the message, so that a name is found by place and length.
ghost use Rattle.std.specs.Prelude.{◌≡◌, ◌^◌, ◌<◌, length};
ghost use mathlib.Core.List.{flat_map};
ghost use Rattle.varint.specs.Outcome.{each};
ghost use Rattle.wire.specs.Message.{all_of, message};
ghost use Rattle.schema.specs.declared.Kind.TheVariants.{Graph, ValueInfo};
ghost use Rattle.schema.specs.Numbers.{Graph-input};
ghost use Rattle.schema.specs.Opened.{Walked};
ghost use Rattle.rules.specs.Verdict.{fills};
ghost use Rattle.rules.specs.Walk.{Context};
ghost use Rattle.rules.specs.Count.{value_names};
ghost use Rattle.rules.specs.Graph.{input};
ghost use Rattle.scope.specs.Scope.{walk_in, step_says, grows, Countable, Keeps};
ghost use Rattle.scope.specs.Recall.{Recalling, Recalled};

use scope::{Index, Progress, counting, define, with_odd};
use values::numbers::{GRAPH_INPUT, VALUE_INFO_NAME};
use values::{main_type, read_name};
use varint::Refusal;
use wire::Field;

// "Input: 22, 21, 23, 40; in the main graph then its type."
fn input(
    model: &[u8],
    cells: &mut [u32],
    extra: &mut [u32],
    ix: Index,
    main: bool,
    p: Progress,
    f: Field,
) -> Result<Progress, Refusal>
    requires model_len_bound { length model.now < 2 ^ 32 }
    requires walked { Walked model.now ValueInfo f }
    requires countable { Countable p (value_names model.now main f) }
    requires recalling { Recalling model.now ix cells.old extra.old }
    ensures answer { (k : Context) → k.main ≡ main → step_says model.now cells.new result ≡ input model.now (fills (length cells.old)) k (walk_in model.now cells.old p) f }
    ensures grown { grows p result }
    ensures kept { Keeps p.used cells.old cells.new }
    ensures memory { Recalled model.now ix cells.new extra.old extra.new }
{
    let (name, odd) = read_name(model, f, VALUE_INFO_NAME, Refusal::NAME_EMPTY)?;
    let q = define(model, cells, extra, ix, with_odd(p, odd), name)?;
    counting(q, main_type(model, main, f))
}

pub(crate) fn inputs(
    model: &[u8],
    cells: &mut [u32],
    extra: &mut [u32],
    ix: Index,
    main: bool,
    p: Progress,
    graph: Field,
) -> Result<Progress, Refusal>
    requires model_len_bound { length model.now < 2 ^ 32 }
    requires walked { Walked model.now Graph graph }
    requires countable { Countable p (flat_map (value_names model.now main) (all_of Graph-input (message model.now graph))) }
    requires recalling { Recalling model.now ix cells.old extra.old }
    ensures answer { (k : Context) → k.main ≡ main → step_says model.now cells.new result ≡ each (input model.now (fills (length cells.old)) k) (walk_in model.now cells.old p) (all_of Graph-input (message model.now graph)) }
    ensures grown { grows p result }
    ensures kept { Keeps p.used cells.old cells.new }
    ensures memory { Recalled model.now ix cells.new extra.old extra.new }
{
    let mut c = graph.contents();
    let mut q = p;
    while let Some((f, next)) = c.next_of(model, GRAPH_INPUT) {
        let further = input(model, cells, extra, ix, main, q, f)?;
        q = further;
        c = next;
    }
    Ok(q)
}
