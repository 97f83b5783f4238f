// A function up to its inputs.
ghost use Rattle.varint.specs.Answers.{outcome_of};
ghost use Rattle.std.specs.Prelude.{◌≡◌, ◌+◌, ◌^◌, ◌≤◌, ◌<◌, length};
ghost use Rattle.wire.specs.Message.{message};
ghost use Rattle.schema.specs.Numbers.{Function-opset_import};
ghost use Rattle.schema.specs.Answers.{silent};
ghost use Rattle.rules.specs.Walk.{Walk};
ghost use Rattle.rules.specs.Function.{function_imports};
ghost use Rattle.index.specs.Table.{Indexed};
ghost use Rattle.index.specs.Memory.{known, table_of};
ghost use Rattle.index.specs.Listing.{Held};
ghost use Rattle.headers.specs.Imported.{ruling_of, holds};
ghost use Rattle.messages.specs.Around.{attributes_before};
ghost use Rattle.signatures.specs.Signature.{attributes_again, attribute_names, named_again, signature_again, attributes_says, signature_says, lists_all, declares};

use crate::attributes::{attribute_names, counting};
use crate::defaults::defaults;
use headers::{Imports, has, opset_imports};
use index::Listing;
use values::numbers::{FUNCTION_NAME, FUNCTION_OPSET_IMPORT};
use values::read_name;
use varint::{Refusal, refused};
use wire::Field;

// What a function leaves for its body: how many of its names so far are odd, its attributes and its imports.
#[derive(Drop)]
pub struct Declaration {
    pub odd: u64,
    pub attributes: Listing,
    pub imports: Imports,
}

// "field 6 names, then field 11"
fn all_attributes(
    model: &[u8],
    lists: &mut [u32],
    seed: u64,
    f: Field,
) -> Result<(Listing, u64), Refusal>
    requires indexed { Indexed model.now seed (table_of lists.old) (known lists.old) }
    requires model_len_bound { length model.now < 2 ^ 32 }
    requires next_in_bounds { f.next ≤ length model.now }
    ensures answer { (w : Walk) → attributes_says w result ≡ attributes_again model.now w f }
    ensures listed { lists_all model.now seed lists.new (attributes_before model.now f f.next f.next) (length (attribute_names model.now f)) result }
    ensures held { Held model.now seed 0 lists.old lists.new }
{
    let (l, odd) = attribute_names(model, lists, seed, f)?;
    counting(odd, defaults(model, lists, seed, l, f))
}

// "imports (12, 13, 14)"
fn imports(
    model: &[u8],
    list: &[u8],
    lists: &mut [u32],
    seed: u64,
    top: usize,
    f: Field,
) -> Result<Imports, Refusal>
    requires indexed { Indexed model.now seed (table_of lists.old) (known lists.old) }
    requires top_bound { top ≤ known lists.old }
    requires model_len_bound { length model.now < 2 ^ 32 }
    ensures answer { outcome_of (ruling_of result) ≡ silent (function_imports model.now list.now (message model.now f)) }
    ensures imported { holds model.now Function-opset_import f seed top lists.new result }
    ensures held { Held model.now seed top lists.old lists.new }
{
    if !has(model, f, FUNCTION_OPSET_IMPORT) {
        return refused(Refusal::NO_OPSET_IMPORT, f.place);
    }
    opset_imports(
        model,
        list,
        lists,
        seed,
        top,
        f,
        FUNCTION_OPSET_IMPORT,
        f.start,
    )
}

// "name (22, 21); 41; field 6 names, then field 11"
fn named(
    model: &[u8],
    lists: &mut [u32],
    seed: u64,
    twice: bool,
    f: Field,
) -> Result<(Listing, u64), Refusal>
    requires indexed { Indexed model.now seed (table_of lists.old) (known lists.old) }
    requires model_len_bound { length model.now < 2 ^ 32 }
    requires next_in_bounds { f.next ≤ length model.now }
    ensures answer { (w : Walk) → attributes_says w result ≡ named_again model.now twice w f }
    ensures listed { lists_all model.now seed lists.new (attributes_before model.now f f.next f.next) (1 + length (attribute_names model.now f)) result }
    ensures held { Held model.now seed 0 lists.old lists.new }
{
    let (_, odd) = read_name(model, f, FUNCTION_NAME, Refusal::NAME_EMPTY)?;
    if twice {
        return refused(Refusal::FUNCTION_TWICE, f.place);
    }
    counting(odd, all_attributes(model, lists, seed, f))
}

// All of it; `twice` says whether the function stood before.
pub fn read_signature(
    model: &[u8],
    list: &[u8],
    lists: &mut [u32],
    seed: u64,
    twice: bool,
    f: Field,
) -> Result<Declaration, Refusal>
    requires indexed { Indexed model.now seed (table_of lists.old) (known lists.old) }
    requires model_len_bound { length model.now < 2 ^ 32 }
    requires next_in_bounds { f.next ≤ length model.now }
    ensures answer { (w : Walk) → signature_says w result ≡ signature_again model.now list.now twice w f }
    ensures declared { declares model.now seed lists.new f result }
    ensures held { Held model.now seed 0 lists.old lists.new }
{
    let (attributes, odd) = named(model, lists, seed, twice, f)?;
    let imports = imports(model, list, lists, seed, attributes.top, f)?;
    Ok(Declaration {
        odd,
        attributes,
        imports,
    })
}
