// The body of a function: its inputs, its nodes, its outputs.
ghost use Rattle.std.specs.Prelude.{◌≡◌, false, length};
ghost use mathlib.Core.List.{flat_map};
ghost use Rattle.wire.specs.Message.{all_of, message};
ghost use Rattle.schema.specs.declared.Kind.TheVariants.{Function};
ghost use Rattle.schema.specs.Numbers.{Function-node};
ghost use Rattle.rules.specs.Verdict.{fills};
ghost use Rattle.rules.specs.Count.{node_names, names_in};
ghost use Rattle.scope.specs.Scope.{walk_in, step_says, grows, counted, Enters, Countable, Keeps};
ghost use Rattle.scope.specs.Recall.{Minds, Minded};
ghost use Rattle.messages.specs.Around.{imports_of, attributes_of};
ghost use Rattle.functions.specs.Function.{body_names, nodes_again, body_again};

use crate::inputs::inputs;
use crate::outputs::outputs;
use cycle::node;
use index::Listing;
use messages::Surroundings;
use scope::{Index, Progress, counting, list};
use values::numbers::{FUNCTION_NODE, NODE_NAME};
use varint::Refusal;
use wire::Field;

// "nodes (29 within the function)": `left` depths are left for the graphs in them.
fn nodes(
    model: &[u8],
    cells: &mut [u32],
    extra: &mut [u32],
    ix: Index,
    top: usize,
    left: usize,
    s: Surroundings,
    p: Progress,
    f: Field,
) -> Result<Progress, Refusal>
    requires enters { Enters model.now Function p f }
    requires minds { Minds model.now (imports_of model.now s) (attributes_of model.now s) ix top cells.old extra.old }
    requires countable { Countable p (flat_map (node_names model.now (names_in model.now left false)) (all_of Function-node (message model.now f))) }
    requires nodes_value { s.nodes ≡ Function-node }
    ensures answer { step_says model.now cells.new result ≡ nodes_again model.now (fills (length cells.old)) left s (walk_in model.now cells.old p) f }
    ensures grown { grows p result }
    ensures counts { counted f p result }
    ensures kept { Keeps p.used cells.old cells.new }
    ensures memory { Minded model.now ix top cells.new extra.old extra.new }
{
    let mut c = f.contents();
    let mut q = p;
    let mut l = Listing {
        base: top,
        top,
        whole: true,
    };
    while let Some((n, next)) = c.next_of(model, FUNCTION_NODE) {
        let further = node(model, cells, extra, ix, l, left, s, f, q, n)?;
        l = list(model, extra, ix, l, n, NODE_NAME);
        q = further;
        c = next;
    }
    Ok(q)
}

pub(crate) fn body(
    model: &[u8],
    cells: &mut [u32],
    extra: &mut [u32],
    ix: Index,
    top: usize,
    left: usize,
    s: Surroundings,
    p: Progress,
    f: Field,
) -> Result<Progress, Refusal>
    requires enters { Enters model.now Function p f }
    requires minds { Minds model.now (imports_of model.now s) (attributes_of model.now s) ix top cells.old extra.old }
    requires countable { Countable p (body_names model.now (names_in model.now left false) f) }
    requires nodes_value { s.nodes ≡ Function-node }
    ensures answer { step_says model.now cells.new result ≡ body_again model.now (fills (length cells.old)) left s (walk_in model.now cells.old p) f }
    ensures grown { grows p result }
    ensures counts { counted f p result }
    ensures kept { Keeps p.used cells.old cells.new }
    ensures memory { Minded model.now ix top cells.new extra.old extra.new }
{
    let q = inputs(model, cells, extra, ix, p, f)?;
    let u = nodes(model, cells, extra, ix, top, left, s, q, f)?;
    counting(u, outputs(model, cells, extra, ix, u.used, f))
}
