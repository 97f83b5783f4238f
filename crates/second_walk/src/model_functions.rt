// The functions of a model, in its order. The extra cells before `last` are for names and lists, those from there on for a table of the functions so far.
ghost use Rattle.std.specs.Prelude.{◌≡◌, [], false, ◌^◌, ◌≤◌, ◌<◌, length, take, drop};
ghost use Rattle.varint.specs.Outcome.{pass};
ghost use Rattle.wire.specs.Message.{whole};
ghost use Rattle.wire.specs.Outline.{Starts};
ghost use Rattle.schema.specs.FirstWalk.{first_walk};
ghost use Rattle.schema.specs.Numbers.{Model-functions};
ghost use Rattle.schema.specs.declared.Kind.TheVariants.{Function};
ghost use Rattle.rules.specs.Count.{names_in, function_names};
ghost use Rattle.rules.specs.Verdict.{fills};
ghost use Rattle.scope.specs.Scope.{walk_in, step_says, counted, Enters, Countable};
ghost use Rattle.scope.specs.Recall.{Recalling};
ghost use Rattle.std.specs.Prelude.{Ok, Some};
ghost use Rattle.identities.specs.Functions.{functions_before};
ghost use Rattle.identities.specs.Identified.{Identified, Added};
ghost use Rattle.functions.specs.Function.{function_again};
ghost use Rattle.second_walk.specs.Walks.{functions_again, few_counted};

use functions::function;
use identities::{add, is_defined};
use scope::{Index, Progress};
use values::numbers::MODEL_FUNCTIONS;
use varint::Refusal;
use wire::{Cursor, Field};

// "A function is at depth 1": seven more.
const INSIDE: usize = 7;

// One of them.
fn judge_function(
    model: &[u8],
    list: &[u8],
    cells: &mut [u32],
    extra: &mut [u32],
    ix: Index,
    last: usize,
    version: u64,
    twice: bool,
    p: Progress,
    f: Field,
) -> Result<Progress, Refusal>
    requires enters { Enters model.now Function p f }
    requires last_in_bounds { last ≤ length extra.old }
    requires recalling { Recalling model.now ix cells.old (take last extra.old) }
    requires countable { Countable p (function_names model.now (names_in model.now 7 false) f) }
    ensures answer { step_says model.now cells.new result ≡ function_again model.now (fills (length cells.old)) 7 list.now version twice (walk_in model.now cells.old p) f }
    ensures counts { counted f p result }
    ensures size { length cells.new ≡ length cells.old }
    ensures lent { length extra.new ≡ length extra.old }
    ensures memory { Recalling model.now ix cells.new (take last extra.new) }
    ensures table { drop last extra.new ≡ drop last extra.old }
{
    function(
        model,
        list,
        cells,
        &mut extra[..last],
        ix,
        INSIDE,
        version,
        twice,
        p,
        f,
    )
}

// It is one of those so far.
fn add_function(
    model: &[u8],
    extra: &mut [u32],
    seed: u64,
    last: usize,
    known: Option<usize>,
    version: u64,
    f: Field,
) -> Option<usize>
    requires identified { Identified model.now seed version (drop last extra.old) known (functions_before model.now f.place) }
    requires last_in_bounds { last ≤ length extra.old }
    requires model_len_bound { (length model.now < 2 ^ 32) × (f.start ≤ f.next) × (f.next ≤ length model.now) }
    ensures added { Added model.now seed version known f (drop last extra.old) (drop last extra.new) result }
    ensures names { take last extra.new ≡ take last extra.old }
    ensures lent { length extra.new ≡ length extra.old }
{
    add(model, &mut extra[last..], seed, known, version, f)
}

// "Functions are judged in list order after the main graph". They begin at `at`.
pub(crate) fn functions(
    model: &[u8],
    list: &[u8],
    cells: &mut [u32],
    extra: &mut [u32],
    ix: Index,
    last: usize,
    version: u64,
    at: usize,
    p: Progress,
) -> Result<Progress, Refusal>
    requires model_len_bound { length model.now < 2 ^ 32 }
    requires model_value { first_walk model.now ≡ pass tt }
    requires starts { Starts model.now (whole model.now) Model-functions at }
    requires last_in_bounds { last ≤ length extra.old }
    requires recalling { Recalling model.now ix cells.old (take last extra.old) }
    requires identified { Identified model.now ix.seed version (drop last extra.old) (Some 0) [] }
    requires few_counted { few_counted (Ok p) }
    ensures answer { step_says model.now cells.new result ≡ functions_again model.now list.now (fills (length cells.old)) version (walk_in model.now cells.old p) }
    ensures size { length cells.new ≡ length cells.old }
{
    let mut c = Cursor {
        at,
        end: model.len(),
    };
    let mut q = p;
    let mut known = Some(0);
    while let Some((f, next)) = c.next_of(model, MODEL_FUNCTIONS) {
        let twice = is_defined(model, &extra[last..], ix.seed, known, version, at, f);
        let further = judge_function(model, list, cells, extra, ix, last, version, twice, q, f)?;
        known = add_function(model, extra, ix.seed, last, known, version, f);
        q = further;
        c = next;
    }
    Ok(q)
}
