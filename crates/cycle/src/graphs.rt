// "A graph judges nodes, a node judges attributes, and an attribute judges graphs, to depth 8, the main graph being depth 1." A graph
// inside another is shorter than it, so the three come to an end; `left` depths are left.
ghost use Rattle.std.specs.Prelude.{◌≡◌, false, length, drop};
ghost use Rattle.rules.specs.Verdict.{fills};
ghost use Rattle.rules.specs.Count.{attribute_names, node_names, names_in};
ghost use Rattle.schema.specs.declared.Kind.TheVariants.{Graph, Node, Attribute};
ghost use Rattle.schema.specs.Numbers.{Graph-node, Node-name, Node-attribute, Attribute-name};
ghost use Rattle.index.specs.Listing.{Listed};
ghost use Rattle.headers.specs.Earlier.{earlier_in};
ghost use Rattle.scope.specs.Scope.{walk_in, step_says, grows, counted, Enters, Countable, Keeps};
ghost use Rattle.scope.specs.Recall.{Minds, Minded};
ghost use Rattle.messages.specs.Around.{inside, imports_of, attributes_of};
ghost use Rattle.messages.specs.Again.{attribute_again, node_again, graph_again};

use index::Listing;
use messages::Surroundings;
use nodes::{attribute_head, closing, graph_outputs, node_rules};
use parts::opening;
use scope::{Index, Progress, counting, leaving, list};
use values::numbers::{ATTRIBUTE_NAME, ATTRIBUTE_TYPE, GRAPH_NODE, NODE_ATTRIBUTE, NODE_NAME};
use values::{carrier_of, is_body};
use varint::{Refusal, refused};
use wire::Field;

// "its name (20, 21); 16; inputs; initializers; nodes; outputs, each in list order whatever the field order on the wire"
#[cycle(attribute_graph_node)]
pub fn graph(
    model: &[u8],
    cells: &mut [u32],
    extra: &mut [u32],
    ix: Index,
    top: usize,
    left: usize,
    s: Surroundings,
    p: Progress,
    f: Field,
) -> Result<Progress, Refusal>
    requires enters { Enters model.now Graph p f }
    requires minds { Minds model.now (imports_of model.now s) (attributes_of model.now s) ix top cells.old extra.old }
    requires countable { Countable p (names_in model.now left s.main f) }
    requires nodes_value { s.nodes ≡ Graph-node }
    ensures answer { step_says model.now cells.new result ≡ graph_again model.now (fills (length cells.old)) left s (walk_in model.now cells.old p) f }
    ensures grown { grows p result }
    ensures counts { counted f p result }
    ensures kept { Keeps p.used cells.old cells.new }
    ensures memory { Minded model.now ix top cells.new extra.old extra.new }
{
    if left == 0 {
        return refused(Refusal::TOO_DEEP, f.place);
    }
    let first = opening(model, cells, extra, ix, top, s, p, f)?;
    let mut c = f.contents();
    let mut q = first;
    let mut l = Listing {
        base: top,
        top,
        whole: true,
    };
    while let Some((n, next)) = c.next_of(model, GRAPH_NODE) {
        let further = node(model, cells, extra, ix, l, left - 1, s, f, q, n)?;
        l = list(model, extra, ix, l, n, NODE_NAME);
        q = further;
        c = next;
    }
    counting(q, graph_outputs(model, cells, extra, ix, q.used, s.main, f))
}

// "Node: op_type (27, 21); 28; a nonempty node name (21, 29); inputs; attributes; 34; outputs." Of a graph, or of a function: `graph` is the one that has it.
#[cycle(attribute_graph_node)]
pub fn node(
    model: &[u8],
    cells: &mut [u32],
    extra: &mut [u32],
    ix: Index,
    l: Listing,
    left: usize,
    s: Surroundings,
    graph: Field,
    p: Progress,
    f: Field,
) -> Result<Progress, Refusal>
    requires enters { Enters model.now Node p f }
    requires minds { Minds model.now (imports_of model.now s) (attributes_of model.now s) ix l.top cells.old extra.old }
    requires listed { Listed model.now ix.seed (drop ix.split extra.old) l (earlier_in model.now s.nodes Node-name graph f) }
    requires countable { Countable p (node_names model.now (names_in model.now left false) f) }
    ensures answer { step_says model.now cells.new result ≡ node_again model.now (fills (length cells.old)) (λ v g. graph_again model.now (fills (length cells.old)) left (inside s) v g) s graph (walk_in model.now cells.old p) f }
    ensures grown { grows p result }
    ensures counts { counted f p result }
    ensures kept { Keeps p.used cells.old cells.new }
    ensures memory { Minded model.now ix l.top cells.new extra.old extra.new }
{
    let first = counting(
        p,
        node_rules(model, cells, extra, ix, l, p.used, s, graph, f),
    )?;
    let mut c = f.contents();
    let mut q = first;
    let mut own = Listing {
        base: l.top,
        top: l.top,
        whole: true,
    };
    while let Some((a, next)) = c.next_of(model, NODE_ATTRIBUTE) {
        let further = attribute(model, cells, extra, ix, own, left, s, f, q, a)?;
        own = list(model, extra, ix, own, a, ATTRIBUTE_NAME);
        q = further;
        c = next;
    }
    closing(model, cells, extra, ix, q, f)
}

// "Attribute: 22, 21, 31, 33, 32; then its graphs in order"
#[cycle(attribute_graph_node)]
fn attribute(
    model: &[u8],
    cells: &mut [u32],
    extra: &mut [u32],
    ix: Index,
    l: Listing,
    left: usize,
    s: Surroundings,
    n: Field,
    p: Progress,
    f: Field,
) -> Result<Progress, Refusal>
    requires enters { Enters model.now Attribute p f }
    requires minds { Minds model.now (imports_of model.now s) (attributes_of model.now s) ix l.top cells.old extra.old }
    requires listed { Listed model.now ix.seed (drop ix.split extra.old) l (earlier_in model.now Node-attribute Attribute-name n f) }
    requires countable { Countable p (attribute_names model.now (names_in model.now left false) f) }
    ensures answer { step_says model.now cells.new result ≡ attribute_again model.now (fills (length cells.old)) (λ v g. graph_again model.now (fills (length cells.old)) left (inside s) v g) s n (walk_in model.now cells.old p) f }
    ensures grown { grows p result }
    ensures counts { counted f p result }
    ensures kept { Keeps p.used cells.old cells.new }
    ensures memory { Minded model.now ix l.top cells.new extra.old extra.new }
{
    let first = counting(p, attribute_head(model, extra, ix, l, s, n, f))?;
    let Some(number) = carrier_of(f.number_of(model, ATTRIBUTE_TYPE)) else {
        return Ok(first);
    };
    if !is_body(number) {
        return Ok(first);
    }
    let mut c = f.contents();
    let mut q = first;
    while let Some((g, next)) = c.next_of(model, number) {
        let inside = graph(model, cells, extra, ix, l.top, left, s.nested(), q, g)?;
        q = leaving(q, inside);
        c = next;
    }
    Ok(q)
}
