// The header and the main graph.
ghost use Rattle.varint.specs.Answers.{outcome_of};
ghost use Rattle.std.specs.Prelude.{◌≡◌, ◌^◌, ◌<◌, length, drop};
ghost use Rattle.wire.specs.Message.{number_of, message, whole};
ghost use Rattle.varint.specs.Outcome.{pass};
ghost use Rattle.schema.specs.Answers.{silent};
ghost use Rattle.schema.specs.FirstWalk.{first_walk};
ghost use Rattle.schema.specs.Numbers.{Model-ir_version, Model-opset_import};
ghost use Rattle.rules.specs.Header.{header};
ghost use Rattle.rules.specs.Verdict.{fills};
ghost use Rattle.scope.specs.Scope.{step_says};
ghost use Rattle.scope.specs.Recall.{Remembering, Recalling, HeldOn};
ghost use Rattle.headers.specs.Imported.{Outlined, ruling_of, holds};
ghost use Rattle.second_walk.specs.Walks.{main_graph, few_counted};

use cycle::graph;
use headers::{Imports, header, whole};
use index::Listing;
use messages::{Owner, Surroundings};
use scope::{Index, Progress};
use values::numbers::{GRAPH_NODE, MODEL_GRAPH};
use varint::{Refusal, refused};
use wire::Outline;

// "to depth 8, the main graph being depth 1"
const DEEPEST: usize = 8;

// The header, with the imports in the part of the extra cells that is for lists.
fn head(
    model: &[u8],
    list: &[u8],
    extra: &mut [u32],
    ix: Index,
    o: Outline,
) -> Result<Imports, Refusal>
    requires outlined { Outlined model.now o }
    requires remembering { Remembering model.now ix extra.old }
    requires model_len_bound { length model.now < 2 ^ 32 }
    ensures answer { outcome_of (ruling_of result) ≡ silent (header model.now list.now (message model.now (whole model.now))) }
    ensures imported { holds model.now Model-opset_import (whole model.now) ix.seed 0 (drop ix.split extra.new) result }
    ensures held { HeldOn model.now ix extra.old extra.new }
{
    let split = ix.split;
    header(model, list, &mut extra[split..], ix.seed, o)
}

// "Header order: ..", "Then the main graph."
pub(crate) fn main_graph(
    model: &[u8],
    list: &[u8],
    cells: &mut [u32],
    extra: &mut [u32],
    ix: Index,
    o: Outline,
    version: u64,
) -> Result<Progress, Refusal>
    requires outlined { Outlined model.now o }
    requires version_value { version ≡ number_of Model-ir_version (message model.now (whole model.now)) }
    requires recalling { Recalling model.now ix cells.old extra.old }
    requires model_len_bound { length model.now < 2 ^ 32 }
    requires model_value { first_walk model.now ≡ pass tt }
    ensures answer { step_says model.now cells.new result ≡ main_graph model.now list.now (fills (length cells.old)) }
    ensures few { few_counted result }
    ensures size { length cells.new ≡ length cells.old }
    ensures lent { length extra.new ≡ length extra.old }
    ensures memory { Recalling model.now ix cells.new extra.new }
{
    let start = Progress {
        used: 0,
        nodes: 0,
        most: 0,
        odd: 0,
    };
    let imports = head(model, list, extra, ix, o)?;
    let m = whole(model);
    let top = imports.listing.top;
    let known = Index {
        seed: ix.seed,
        split: ix.split,
        imports,
        attributes: Listing {
            base: 0,
            top: 0,
            whole: true,
        },
    };
    let around = Surroundings {
        main: true,
        version,
        nodes: GRAPH_NODE,
        owner: Owner::Model(m),
    };
    let Some((g, _)) = m.first_from(model, MODEL_GRAPH, o.second) else {
        return refused(Refusal::NO_GRAPH, m.place);
    };
    graph(model, cells, extra, known, top, DEEPEST, around, start, g)
}
