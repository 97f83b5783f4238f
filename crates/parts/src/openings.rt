// A graph up to its nodes.
ghost use Rattle.std.specs.Prelude.{◌≡◌, ◌^◌, ◌<◌, ◌≤◌, length, drop};
ghost use Rattle.schema.specs.declared.Kind.TheVariants.{Graph};
ghost use Rattle.schema.specs.Opened.{Walked};
ghost use Rattle.rules.specs.Walk.{Walk};
ghost use Rattle.rules.specs.Verdict.{fills};
ghost use Rattle.scope.specs.Scope.{walk_in, step_says, grows, Countable, Keeps};
ghost use Rattle.scope.specs.Recall.{Recalling, Minded};
ghost use Rattle.index.specs.Memory.{known};
ghost use Rattle.values.specs.Answers.{tally_says};
ghost use Rattle.messages.specs.Again.{opening_names, graph_rules, opening};

use crate::initializers::initializers;
use crate::inputs::inputs;
use headers::has;
use messages::Surroundings;
use scope::{Index, Progress, counting};
use values::numbers::{GRAPH_NAME, GRAPH_SPARSE_INITIALIZER};
use values::read_name;
use varint::{Refusal, refused};
use wire::Field;

// "its name (20, 21); 16"
fn graph_rules(model: &[u8], f: Field) -> Result<u64, Refusal>
    ensures { (w : Walk) → tally_says w result ≡ graph_rules model.now w f }
{
    let (_, odd) = read_name(model, f, GRAPH_NAME, Refusal::GRAPH_NAME_EMPTY)?;
    if has(model, f, GRAPH_SPARSE_INITIALIZER) {
        return refused(
            Refusal::SPARSE_INITIALIZER,
            f.place_of(model, GRAPH_SPARSE_INITIALIZER),
        );
    }
    Ok(odd)
}

// "its name (20, 21); 16; inputs; initializers"
pub fn opening(
    model: &[u8],
    cells: &mut [u32],
    extra: &mut [u32],
    ix: Index,
    top: usize,
    s: Surroundings,
    p: Progress,
    f: Field,
) -> Result<Progress, Refusal>
    requires model_len_bound { length model.now < 2 ^ 32 }
    requires walked { Walked model.now Graph f }
    requires countable { Countable p (opening_names model.now s.main f) }
    requires recalling { Recalling model.now ix cells.old extra.old }
    requires top_bound { top ≤ known (drop ix.split extra.old) }
    ensures answer { step_says model.now cells.new result ≡ opening model.now (fills (length cells.old)) s (walk_in model.now cells.old p) f }
    ensures grown { grows p result }
    ensures kept { Keeps p.used cells.old cells.new }
    ensures memory { Minded model.now ix top cells.new extra.old extra.new }
{
    let first = counting(p, graph_rules(model, f))?;
    let q = inputs(model, cells, extra, ix, s.main, first, f)?;
    initializers(model, cells, extra, ix, top, s, first.used, q, f)
}
