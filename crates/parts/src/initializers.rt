// The initializers of a graph: in the main graph and at IR 3 defaults of its inputs, else new names.
ghost use Rattle.std.specs.Prelude.{◌≡◌, false, not, ◌&&◌, ◌^◌, ◌<◌, ◌≤◌, length, drop};
ghost use mathlib.Core.List.{flat_map};
ghost use Rattle.varint.specs.Lists.{is_empty};
ghost use Rattle.varint.specs.Bytes.{member};
ghost use Rattle.varint.specs.Outcome.{each};
ghost use Rattle.wire.specs.Message.{all_of, text, message};
ghost use Rattle.wire.specs.declared.Field.{Field};
ghost use Rattle.schema.specs.declared.Kind.TheVariants.{Graph, Tensor};
ghost use Rattle.schema.specs.Numbers.{Graph-initializer, Tensor-name};
ghost use Rattle.schema.specs.Opened.{Walked};
ghost use Rattle.rules.specs.Names.{name_in, inputs_of};
ghost use Rattle.rules.specs.Verdict.{fills};
ghost use Rattle.rules.specs.Graph.{takes_defaults};
ghost use Rattle.index.specs.Memory.{known};
ghost use Rattle.index.specs.Listing.{Listed};
ghost use Rattle.headers.specs.Earlier.{earlier_in};
ghost use Rattle.scope.specs.Scope.{walk_in, step_says, grows, Countable, Direct, Keeps, Defaultable};
ghost use Rattle.scope.specs.Recall.{Recalling, Recalled, Minded};
ghost use Rattle.messages.specs.Around.{context};
ghost use Rattle.messages.specs.Again.{tensor_names, declaring, initializer_again};

use headers::is_listed;
use index::Listing;
use messages::Surroundings;
use scope::{Index, Progress, define, list, sees_since, with_odd};
use values::numbers::{GRAPH_INITIALIZER, TENSOR_DATA_TYPE, TENSOR_NAME};
use values::{is_element, read_name};
use varint::{Refusal, refused};
use wire::Field;

// Has an earlier initializer of the graph this name?
#[tactic(auto, unfolding(headers::specs::Earlier::earlier_in))]
fn is_repeated(
    model: &[u8],
    extra: &[u32],
    ix: Index,
    l: Listing,
    graph: Field,
    f: Field,
    name: &[u8],
) -> bool
    requires split_in_bounds { ix.split ≤ length extra.now }
    requires listed { Listed model.now ix.seed (drop ix.split extra.now) l (earlier_in model.now Graph-initializer Tensor-name graph f) }
    requires name_value { is_empty name.now ≡ false }
    ensures { result ≡ member name.now (earlier_in model.now Graph-initializer Tensor-name graph f) }
{
    let split = ix.split;
    is_listed(
        model,
        &extra[split..],
        ix.seed,
        l,
        graph,
        GRAPH_INITIALIZER,
        TENSOR_NAME,
        f.place,
        name,
    )
}

// Where the records of a graph's inputs begin and end.
#[derive(Clone, Copy)]
struct Inputs {
    outer: usize,
    inner: usize,
}

// Does it bear the name of an input of its own graph? Where no initializer can be a default it makes no difference, and none is looked for.
fn bears_input(
    model: &[u8],
    cells: &[u32],
    extra: &[u32],
    ix: Index,
    s: Surroundings,
    inputs: Inputs,
    name: &[u8],
) -> bool
    requires recalling { Recalling model.now ix cells.now extra.now }
    requires name_value { is_empty name.now ≡ false }
    ensures { (graph : Field) → Defaultable model.now graph cells.now inputs.outer inputs.inner → result ≡ (takes_defaults (context model.now s) && member name.now (inputs_of model.now (message model.now graph))) }
{
    if !s.takes_defaults() {
        return false;
    }
    sees_since(model, cells, extra, ix, inputs.outer, inputs.inner, name)
}

// "it may bear the name of an input, once: that is a default, and adds no name": `own` says whether it bears one.
fn is_default(
    model: &[u8],
    extra: &[u32],
    ix: Index,
    l: Listing,
    own: bool,
    graph: Field,
    f: Field,
    name: &[u8],
) -> bool
    requires split_in_bounds { ix.split ≤ length extra.now }
    requires listed { Listed model.now ix.seed (drop ix.split extra.now) l (earlier_in model.now Graph-initializer Tensor-name graph f) }
    requires name_value { is_empty name.now ≡ false }
    ensures { result ≡ (own && not (member name.now (earlier_in model.now Graph-initializer Tensor-name graph f))) }
{
    if !own {
        return false;
    }
    !is_repeated(model, extra, ix, l, graph, f, name)
}

// "43 (after 21, before 23)", and then a default or a new name.
fn declare(
    model: &[u8],
    cells: &mut [u32],
    extra: &mut [u32],
    ix: Index,
    l: Listing,
    s: Surroundings,
    inputs: Inputs,
    p: Progress,
    graph: Field,
    f: Field,
    name: Field,
) -> Result<Progress, Refusal>
    requires direct { Direct model.now name }
    requires model_len_bound { length model.now < 2 ^ 32 }
    requires recalling { Recalling model.now ix cells.old extra.old }
    requires defaultable { Defaultable model.now graph cells.old inputs.outer inputs.inner }
    requires listed { Listed model.now ix.seed (drop ix.split extra.old) l (earlier_in model.now Graph-initializer Tensor-name graph f) }
    requires name_value { is_empty (text model.now name) ≡ false }
    ensures answer { step_says model.now cells.new result ≡ declaring model.now (fills (length cells.old)) s graph f (walk_in model.now cells.old p) (name_in model.now name) }
    ensures grown { grows p result }
    ensures kept { Keeps p.used cells.old cells.new }
    ensures memory { Recalled model.now ix cells.new extra.old extra.new }
{
    let own = bears_input(model, cells, extra, ix, s, inputs, name.text(model));
    if s.lacks_input(own) {
        return refused(Refusal::INITIALIZER_NOT_INPUT, name.place);
    }
    if is_default(model, extra, ix, l, own, graph, f, name.text(model)) {
        return Ok(p);
    }
    define(model, cells, extra, ix, p, name)
}

// "Initializer: 22, 21, 23, 40, 26.", with 43 before 23.
fn initializer(
    model: &[u8],
    cells: &mut [u32],
    extra: &mut [u32],
    ix: Index,
    l: Listing,
    s: Surroundings,
    inputs: Inputs,
    p: Progress,
    graph: Field,
    f: Field,
) -> Result<Progress, Refusal>
    requires model_len_bound { length model.now < 2 ^ 32 }
    requires walked { Walked model.now Tensor f }
    requires countable { Countable p (tensor_names model.now f) }
    requires recalling { Recalling model.now ix cells.old extra.old }
    requires defaultable { Defaultable model.now graph cells.old inputs.outer inputs.inner }
    requires listed { Listed model.now ix.seed (drop ix.split extra.old) l (earlier_in model.now Graph-initializer Tensor-name graph f) }
    ensures answer { step_says model.now cells.new result ≡ initializer_again model.now (fills (length cells.old)) s graph (walk_in model.now cells.old p) f }
    ensures grown { grows p result }
    ensures kept { Keeps p.used cells.old cells.new }
    ensures memory { Recalled model.now ix cells.new extra.old extra.new }
{
    let (name, odd) = read_name(model, f, TENSOR_NAME, Refusal::NAME_EMPTY)?;
    let t = with_odd(p, odd);
    let q = declare(model, cells, extra, ix, l, s, inputs, t, graph, f, name)?;
    if is_element(f.number_of(model, TENSOR_DATA_TYPE)) {
        return Ok(q);
    }
    refused(Refusal::BAD_DATA_TYPE, f.place_of(model, TENSOR_DATA_TYPE))
}

// Where no initializer is a default, their names are not listed. The records of the inputs are those from `outer` on.
pub(crate) fn initializers(
    model: &[u8],
    cells: &mut [u32],
    extra: &mut [u32],
    ix: Index,
    top: usize,
    s: Surroundings,
    outer: usize,
    p: Progress,
    graph: Field,
) -> Result<Progress, Refusal>
    requires model_len_bound { length model.now < 2 ^ 32 }
    requires walked { Walked model.now Graph graph }
    requires countable { Countable p (flat_map (tensor_names model.now) (all_of Graph-initializer (message model.now graph))) }
    requires recalling { Recalling model.now ix cells.old extra.old }
    requires defaultable { Defaultable model.now graph cells.old outer p.used }
    requires top_bound { top ≤ known (drop ix.split extra.old) }
    ensures answer { step_says model.now cells.new result ≡ each (initializer_again model.now (fills (length cells.old)) s graph) (walk_in model.now cells.old p) (all_of Graph-initializer (message model.now graph)) }
    ensures grown { grows p result }
    ensures kept { Keeps p.used cells.old cells.new }
    ensures memory { Minded model.now ix top cells.new extra.old extra.new }
{
    let inputs = Inputs {
        outer,
        inner: p.used,
    };
    let mut c = graph.contents();
    let mut q = p;
    let mut l = Listing {
        base: top,
        top,
        whole: s.takes_defaults(),
    };
    while let Some((f, next)) = c.next_of(model, GRAPH_INITIALIZER) {
        let further = initializer(model, cells, extra, ix, l, s, inputs, q, graph, f)?;
        l = list(model, extra, ix, l, f, TENSOR_NAME);
        q = further;
        c = next;
    }
    Ok(q)
}
