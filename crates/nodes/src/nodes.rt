// What is asked of a node beside its attributes.
ghost use Rattle.std.specs.Prelude.{◌≡◌, ◌+◌, ◌^◌, ◌<◌, ◌≤◌, length, drop};
ghost use mathlib.Core.List.{flat_map};
ghost use Rattle.varint.specs.Outcome.{each};
ghost use Rattle.wire.specs.Message.{all_of, message};
ghost use Rattle.schema.specs.Numbers.{Node-input, Node-output, Node-name, Node-attribute, Attribute-name};
ghost use Rattle.schema.specs.declared.Kind.TheVariants.{Node};
ghost use Rattle.schema.specs.Opened.{Walked};
ghost use Rattle.rules.specs.Verdict.{fills};
ghost use Rattle.rules.specs.Walk.{Walk};
ghost use Rattle.rules.specs.Node.{node_input};
ghost use Rattle.index.specs.Listing.{Listed};
ghost use Rattle.values.specs.Answers.{tally_says};
ghost use Rattle.headers.specs.Earlier.{earlier_in};
ghost use Rattle.headers.specs.Imported.{Imported};
ghost use Rattle.messages.specs.Around.{imports_of, attributes_of};
ghost use Rattle.messages.specs.Heads.{attribute_rules, node_head};
ghost use Rattle.scope.specs.Scope.{scope_in, walk_in, step_says, grows, Countable, Keeps};
ghost use Rattle.scope.specs.Recall.{Recalling, Recalled};
ghost use Rattle.messages.specs.Again.{field_names, node_rules, closing};

use crate::outputs::node_outputs;
use headers::has;
use index::Listing;
use messages::{Surroundings, attribute_rules, node_head};
use scope::{Index, Progress, sees};
use values::numbers::{NODE_INPUT, NODE_OUTPUT};
use values::{adding, tested};
use varint::{Refusal, refused};
use wire::Field;

// "An empty input or output means "left out" and is passed over. Input: 21, 30."
fn node_input(
    model: &[u8],
    cells: &[u32],
    extra: &[u32],
    ix: Index,
    used: usize,
    f: Field,
) -> Result<u64, Refusal>
    requires { Recalling model.now ix cells.now extra.now }
    ensures { (w : Walk) → w.scope ≡ scope_in model.now cells.now used → tally_says w result ≡ node_input model.now w f }
{
    let text = f.text(model);
    if text.len() == 0 {
        return Ok(0);
    }
    let one = tested(text, f.place)?;
    if sees(model, cells, extra, ix, used, text) {
        return Ok(one);
    }
    refused(Refusal::INPUT_NOT_VISIBLE, f.place)
}

fn node_inputs(
    model: &[u8],
    cells: &[u32],
    extra: &[u32],
    ix: Index,
    used: usize,
    node: Field,
) -> Result<u64, Refusal>
    requires { Recalling model.now ix cells.now extra.now }
    ensures { (w : Walk) → w.scope ≡ scope_in model.now cells.now used → tally_says w result ≡ each (node_input model.now) w (all_of Node-input (message model.now node)) }
{
    let mut c = node.contents();
    let mut odd = 0;
    while let Some((f, next)) = c.next_of(model, NODE_INPUT) {
        let more = node_input(model, cells, extra, ix, used, f)?;
        odd += more;
        c = next;
    }
    Ok(odd)
}

// "op_type (27, 21); 28; a nonempty node name (21, 29)", with what the extra cells hold of imports and names.
fn head(
    model: &[u8],
    extra: &[u32],
    ix: Index,
    l: Listing,
    s: Surroundings,
    graph: Field,
    f: Field,
) -> Result<u64, Refusal>
    requires split_in_bounds { ix.split ≤ length extra.now }
    requires imported { Imported model.now ix.seed (drop ix.split extra.now) ix.imports (imports_of model.now s) }
    requires listed { Listed model.now ix.seed (drop ix.split extra.now) l (earlier_in model.now s.nodes Node-name graph f) }
    ensures { (w : Walk) → tally_says w result ≡ node_head model.now s graph w f }
{
    let split = ix.split;
    let imports = ix.imports;
    node_head(model, &extra[split..], ix.seed, imports, l, s, graph, f)
}

// "op_type (27, 21); 28; a nonempty node name (21, 29); inputs"
pub fn node_rules(
    model: &[u8],
    cells: &[u32],
    extra: &[u32],
    ix: Index,
    l: Listing,
    used: usize,
    s: Surroundings,
    graph: Field,
    f: Field,
) -> Result<u64, Refusal>
    requires recalling { Recalling model.now ix cells.now extra.now }
    requires imported { Imported model.now ix.seed (drop ix.split extra.now) ix.imports (imports_of model.now s) }
    requires listed { Listed model.now ix.seed (drop ix.split extra.now) l (earlier_in model.now s.nodes Node-name graph f) }
    requires f_bound { 2 + length (flat_map (field_names model.now) (all_of Node-input (message model.now f))) < 2 ^ 64 }
    ensures { (w : Walk) → w.scope ≡ scope_in model.now cells.now used → tally_says w result ≡ node_rules model.now s graph w f }
{
    let odd = head(model, extra, ix, l, s, graph, f)?;
    adding(odd, node_inputs(model, cells, extra, ix, used, f))
}

// "22, 21, 31, 33, 32" of an attribute, with what the extra cells hold of the names before it, and of those that it may refer to.
pub fn attribute_head(
    model: &[u8],
    extra: &[u32],
    ix: Index,
    l: Listing,
    s: Surroundings,
    node: Field,
    a: Field,
) -> Result<u64, Refusal>
    requires split_in_bounds { ix.split ≤ length extra.now }
    requires listed { Listed model.now ix.seed (drop ix.split extra.now) ix.attributes (attributes_of model.now s) }
    requires listed_2 { Listed model.now ix.seed (drop ix.split extra.now) l (earlier_in model.now Node-attribute Attribute-name node a) }
    ensures { (w : Walk) → tally_says w result ≡ attribute_rules model.now s node w a }
{
    let split = ix.split;
    let attributes = ix.attributes;
    attribute_rules(model, &extra[split..], ix.seed, attributes, l, s, node, a)
}

// "34; outputs", and the node is counted.
pub fn closing(
    model: &[u8],
    cells: &mut [u32],
    extra: &mut [u32],
    ix: Index,
    p: Progress,
    f: Field,
) -> Result<Progress, Refusal>
    requires model_len_bound { length model.now < 2 ^ 32 }
    requires walked { Walked model.now Node f }
    requires nodes_bound { p.nodes ≤ 2 ^ 33 }
    requires countable { Countable p (flat_map (field_names model.now) (all_of Node-output (message model.now f))) }
    requires recalling { Recalling model.now ix cells.old extra.old }
    ensures answer { step_says model.now cells.new result ≡ closing model.now (fills (length cells.old)) (walk_in model.now cells.old p) f }
    ensures grown { grows p result }
    ensures kept { Keeps p.used cells.old cells.new }
    ensures memory { Recalled model.now ix cells.new extra.old extra.new }
{
    if !has(model, f, NODE_OUTPUT) {
        return refused(Refusal::NO_OUTPUT, f.place);
    }
    let q = node_outputs(model, cells, extra, ix, p, f)?;
    Ok(Progress {
        used: q.used,
        nodes: q.nodes + 1,
        most: q.most,
        odd: q.odd,
    })
}
