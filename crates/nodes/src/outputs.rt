// The outputs of a node, which are new names, and those of a graph, which are visible ones.
ghost use Rattle.std.specs.Prelude.{◌≡◌, ◌^◌, ◌<◌, length};
ghost use mathlib.Core.List.{flat_map};
ghost use Rattle.varint.specs.Outcome.{each};
ghost use Rattle.wire.specs.Message.{all_of, message};
ghost use Rattle.schema.specs.declared.Kind.TheVariants.{Node};
ghost use Rattle.schema.specs.Numbers.{Node-output, Graph-output};
ghost use Rattle.schema.specs.Opened.{Walked};
ghost use Rattle.rules.specs.Verdict.{fills};
ghost use Rattle.rules.specs.Walk.{Context, Walk};
ghost use Rattle.rules.specs.Count.{value_names};
ghost use Rattle.rules.specs.Node.{node_output};
ghost use Rattle.rules.specs.Graph.{output};
ghost use Rattle.scope.specs.Scope.{scope_in, walk_in, step_says, grows, Countable, Direct, Keeps};
ghost use Rattle.scope.specs.Recall.{Recalling, Recalled};
ghost use Rattle.values.specs.Answers.{tally_says};
ghost use Rattle.messages.specs.Again.{field_names};

use scope::{Index, Progress, define, sees, with_odd};
use values::numbers::{GRAPH_OUTPUT, NODE_OUTPUT, VALUE_INFO_NAME};
use values::{adding, main_type, read_name, tested};
use varint::{Refusal, refused};
use wire::Field;

// "An empty input or output means "left out" and is passed over." "Output: 21, 23, 40, and is visible from then on."
fn node_output(
    model: &[u8],
    cells: &mut [u32],
    extra: &mut [u32],
    ix: Index,
    p: Progress,
    f: Field,
) -> Result<Progress, Refusal>
    requires direct { Direct model.now f }
    requires countable { Countable p (field_names model.now f) }
    requires model_len_bound { length model.now < 2 ^ 32 }
    requires recalling { Recalling model.now ix cells.old extra.old }
    ensures answer { step_says model.now cells.new result ≡ node_output model.now (fills (length cells.old)) (walk_in model.now cells.old p) f }
    ensures grown { grows p result }
    ensures kept { Keeps p.used cells.old cells.new }
    ensures memory { Recalled model.now ix cells.new extra.old extra.new }
{
    let text = f.text(model);
    if text.len() == 0 {
        return Ok(p);
    }
    let odd = tested(text, f.place)?;
    define(model, cells, extra, ix, with_odd(p, odd), f)
}

// A cell holds the place of a name, so the model is shorter than the greatest number in one; the first walk passed the message, so that
// a name is found by place and length.
pub(crate) fn node_outputs(
    model: &[u8],
    cells: &mut [u32],
    extra: &mut [u32],
    ix: Index,
    p: Progress,
    node: Field,
) -> Result<Progress, Refusal>
    requires model_len_bound { length model.now < 2 ^ 32 }
    requires walked { Walked model.now Node node }
    requires countable { Countable p (flat_map (field_names model.now) (all_of Node-output (message model.now node))) }
    requires recalling { Recalling model.now ix cells.old extra.old }
    ensures answer { step_says model.now cells.new result ≡ each (node_output model.now (fills (length cells.old))) (walk_in model.now cells.old p) (all_of Node-output (message model.now node)) }
    ensures grown { grows p result }
    ensures kept { Keeps p.used cells.old cells.new }
    ensures memory { Recalled model.now ix cells.new extra.old extra.new }
{
    let mut c = node.contents();
    let mut q = p;
    while let Some((f, next)) = c.next_of(model, NODE_OUTPUT) {
        let further = node_output(model, cells, extra, ix, q, f)?;
        q = further;
        c = next;
    }
    Ok(q)
}

// "Graph output: 22, 21, 35; in the main graph then its type. An outer name serves. The same output may be listed twice."
fn graph_output(
    model: &[u8],
    cells: &[u32],
    extra: &[u32],
    ix: Index,
    used: usize,
    main: bool,
    f: Field,
) -> Result<u64, Refusal>
    requires recalling { Recalling model.now ix cells.now extra.now }
    requires f_len_bound { length (value_names model.now main f) < 2 ^ 64 }
    ensures { (k : Context) (w : Walk) → k.main ≡ main → w.scope ≡ scope_in model.now cells.now used → tally_says w result ≡ output model.now k w f }
{
    let (name, odd) = read_name(model, f, VALUE_INFO_NAME, Refusal::NAME_EMPTY)?;
    if !sees(model, cells, extra, ix, used, name.text(model)) {
        return refused(Refusal::OUTPUT_NOT_VISIBLE, name.place);
    }
    adding(odd, main_type(model, main, f))
}

pub fn graph_outputs(
    model: &[u8],
    cells: &[u32],
    extra: &[u32],
    ix: Index,
    used: usize,
    main: bool,
    graph: Field,
) -> Result<u64, Refusal>
    requires recalling { Recalling model.now ix cells.now extra.now }
    requires graph_len_bound { length (flat_map (value_names model.now main) (all_of Graph-output (message model.now graph))) < 2 ^ 64 }
    ensures { (k : Context) (w : Walk) → k.main ≡ main → w.scope ≡ scope_in model.now cells.now used → tally_says w result ≡ each (output model.now k) w (all_of Graph-output (message model.now graph)) }
{
    let mut c = graph.contents();
    let mut odd = 0;
    while let Some((f, next)) = c.next_of(model, GRAPH_OUTPUT) {
        let more = graph_output(model, cells, extra, ix, used, main, f)?;
        odd += more;
        c = next;
    }
    Ok(odd)
}
