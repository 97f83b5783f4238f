// A function: what it says before its body, and the body, which "starts with only its inputs visible and uses its own imports".
ghost use Rattle.std.specs.Prelude.{◌≡◌, false, ◌+◌, ◌≤◌, ◌<◌, ◌^◌, length, drop};
ghost use Rattle.schema.specs.declared.Kind.TheVariants.{Function};
ghost use Rattle.rules.specs.Verdict.{fills};
ghost use Rattle.rules.specs.Walk.{Walk};
ghost use Rattle.rules.specs.Count.{function_names, names_in};
ghost use Rattle.scope.specs.Scope.{walk_in, step_says, counted, Enters, Countable};
ghost use Rattle.scope.specs.Recall.{Remembering, Recalling, HeldOn};
ghost use Rattle.signatures.specs.Signature.{signature_again, signature_says, declares};
ghost use Rattle.functions.specs.Function.{function_again};

use crate::bodies::body;
use messages::{Owner, Surroundings};
use scope::{Index, Progress};
use signatures::{Declaration, read_signature};
use values::numbers::FUNCTION_NODE;
use varint::Refusal;
use wire::Field;

// What it says before its body, with its attributes and imports in the part of the extra cells that is for lists.
fn head(
    model: &[u8],
    list: &[u8],
    extra: &mut [u32],
    ix: Index,
    twice: bool,
    f: Field,
) -> Result<Declaration, Refusal>
    requires remembering { Remembering model.now ix extra.old }
    requires model_len_bound { length model.now < 2 ^ 32 }
    requires next_in_bounds { f.next ≤ length model.now }
    ensures answer { (w : Walk) → signature_says w result ≡ signature_again model.now list.now twice w f }
    ensures declared { declares model.now ix.seed (drop ix.split extra.new) f result }
    ensures held { HeldOn model.now ix extra.old extra.new }
{
    let split = ix.split;
    read_signature(model, list, &mut extra[split..], ix.seed, twice, f)
}

// `left` depths are left for the graphs in it; `twice` says whether the function stood before.
pub fn function(
    model: &[u8],
    list: &[u8],
    cells: &mut [u32],
    extra: &mut [u32],
    ix: Index,
    left: usize,
    version: u64,
    twice: bool,
    p: Progress,
    f: Field,
) -> Result<Progress, Refusal>
    requires enters { Enters model.now Function p f }
    requires recalling { Recalling model.now ix cells.old extra.old }
    requires countable { Countable p (function_names model.now (names_in model.now left false) f) }
    ensures answer { step_says model.now cells.new result ≡ function_again model.now (fills (length cells.old)) left list.now version twice (walk_in model.now cells.old p) f }
    ensures counts { counted f p result }
    ensures size { length cells.new ≡ length cells.old }
    ensures lent { length extra.new ≡ length extra.old }
    ensures memory { Recalling model.now ix cells.new extra.new }
{
    let d = head(model, list, extra, ix, twice, f)?;
    let imports = d.imports;
    let attributes = d.attributes;
    let top = imports.listing.top;
    let known = Index {
        seed: ix.seed,
        split: ix.split,
        imports,
        attributes,
    };
    let around = Surroundings {
        main: false,
        version,
        nodes: FUNCTION_NODE,
        owner: Owner::Function(f),
    };
    let start = Progress {
        used: 0,
        nodes: p.nodes,
        most: p.most,
        odd: p.odd + d.odd,
    };
    body(model, cells, extra, known, top, left, around, start, f)
}
