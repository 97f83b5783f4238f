// What is asked of a node by itself: neither its attributes nor what it reads and binds.
ghost use Rattle.std.specs.Prelude.{◌≡◌};
ghost use Rattle.wire.specs.Message.{message};
ghost use Rattle.schema.specs.Numbers.{Node-name};
ghost use Rattle.rules.specs.Walk.{Walk};
ghost use Rattle.rules.specs.Node.{node_name};
ghost use Rattle.index.specs.Listing.{Listed};
ghost use Rattle.headers.specs.Earlier.{earlier_in};
ghost use Rattle.headers.specs.Imported.{Imported};
ghost use Rattle.messages.specs.Around.{imports_of};
ghost use Rattle.messages.specs.Heads.{walk_of, node_head};
ghost use Rattle.values.specs.Answers.{tally_says};

use crate::contexts::Surroundings;
use headers::{Imports, is_imported, is_listed};
use index::Listing;
use values::numbers::{NODE_DOMAIN, NODE_NAME, NODE_OP_TYPE};
use values::{adding, read_name, tested};
use varint::{Refusal, refused};
use wire::Field;

// "a nonempty node name (21, 29)"
fn node_name(
    model: &[u8],
    lists: &[u32],
    seed: u64,
    l: Listing,
    number: u64,
    graph: Field,
    node: Field,
) -> Result<u64, Refusal>
    requires { Listed model.now seed lists.now l (earlier_in model.now number Node-name graph node) }
    ensures { (w : Walk) → tally_says w result ≡ walk_of (node_name model.now (earlier_in model.now number Node-name graph node) w (message model.now node)) }
{
    let Some((name, _)) = node.first_of(model, NODE_NAME) else {
        return Ok(0);
    };
    let text = name.text(model);
    if text.len() == 0 {
        return Ok(0);
    }
    let odd = tested(text, name.place)?;
    if is_listed(
        model, lists, seed, l, graph, number, NODE_NAME, node.place, text,
    ) {
        return refused(Refusal::NODE_NAME_TWICE, name.place);
    }
    Ok(odd)
}

// "op_type (27, 21); 28; a nonempty node name (21, 29)"
pub fn node_head(
    model: &[u8],
    lists: &[u32],
    seed: u64,
    imports: Imports,
    l: Listing,
    s: Surroundings,
    graph: Field,
    f: Field,
) -> Result<u64, Refusal>
    requires imported { Imported model.now seed lists.now imports (imports_of model.now s) }
    requires listed { Listed model.now seed lists.now l (earlier_in model.now s.nodes Node-name graph f) }
    ensures { (w : Walk) → tally_says w result ≡ node_head model.now s graph w f }
{
    let (_, odd) = read_name(model, f, NODE_OP_TYPE, Refusal::OP_TYPE_EMPTY)?;
    let owner = s.owner.field();
    if !is_imported(
        model,
        lists,
        seed,
        imports,
        owner,
        s.import_number(),
        owner.next,
        f.bytes_of(model, NODE_DOMAIN),
    ) {
        return refused(Refusal::NOT_IMPORTED, f.place_of(model, NODE_DOMAIN));
    }
    adding(odd, node_name(model, lists, seed, l, s.nodes, graph, f))
}
