// The attributes of a function that have a default: field 11.
ghost use Rattle.varint.specs.Answers.{outcome_of};
ghost use Rattle.std.specs.Prelude.{◌≡◌, ◌^◌, ◌≤◌, ◌<◌, length};
ghost use mathlib.Core.List.{flat_map};
ghost use Rattle.varint.specs.Outcome.{each};
ghost use Rattle.wire.specs.Message.{all_of, message};
ghost use Rattle.schema.specs.Numbers.{Function-attribute_proto};
ghost use Rattle.rules.specs.Walk.{Walk};
ghost use Rattle.index.specs.Listing.{Listed, Held};
ghost use Rattle.values.specs.Answers.{tally_says};
ghost use Rattle.messages.specs.Around.{attributes_before};
ghost use Rattle.signatures.specs.Signature.{default_rules, default_again, default_names, attributes_says, lists_all};

use headers::list_name;
use index::Listing;
use messages::is_attribute;
use values::numbers::{ATTRIBUTE_NAME, ATTRIBUTE_REF_ATTR_NAME, FUNCTION_ATTRIBUTE_PROTO};
use values::{is_bad_default, read_name};
use varint::{Refusal, refused};
use wire::Field;

// "A default may not be a graph or graphs (32) nor a reference (33)."
fn default_rules(model: &[u8], a: Field) -> Result<(), Refusal>
    ensures { outcome_of result ≡ default_rules model.now a }
{
    let reference = a.bytes_of(model, ATTRIBUTE_REF_ATTR_NAME);
    if reference.len() != 0 {
        return refused(Refusal::UNRESOLVED_REFERENCE, a.place);
    }
    if is_bad_default(model, a) {
        return refused(Refusal::BAD_VALUE, a.place);
    }
    Ok(())
}

// "22, 21, 42, 33, 32": the name may be neither in the other list nor before it in this one.
fn default_name(
    model: &[u8],
    lists: &[u32],
    seed: u64,
    l: Listing,
    f: Field,
    a: Field,
) -> Result<u64, Refusal>
    requires { Listed model.now seed lists.now l (attributes_before model.now f f.next a.place) }
    ensures { (w : Walk) → tally_says w result ≡ default_again model.now f w a }
{
    let (name, odd) = read_name(model, a, ATTRIBUTE_NAME, Refusal::NAME_EMPTY)?;
    if is_attribute(model, lists, seed, l, f, f.next, a.place, name.text(model)) {
        return refused(Refusal::FUNCTION_ATTRIBUTE_TWICE, name.place);
    }
    default_rules(model, a)?;
    Ok(odd)
}

// After the attributes that have none, which are listed.
pub(crate) fn defaults(
    model: &[u8],
    lists: &mut [u32],
    seed: u64,
    first: Listing,
    f: Field,
) -> Result<(Listing, u64), Refusal>
    requires listed_2 { Listed model.now seed lists.old first (attributes_before model.now f f.next f.start) }
    requires model_len_bound { length model.now < 2 ^ 32 }
    requires next_in_bounds { f.next ≤ length model.now }
    ensures answer { (w : Walk) → attributes_says w result ≡ each (default_again model.now f) w (all_of Function-attribute_proto (message model.now f)) }
    ensures listed { lists_all model.now seed lists.new (attributes_before model.now f f.next f.next) (length (flat_map (default_names model.now) (all_of Function-attribute_proto (message model.now f)))) result }
    ensures held { Held model.now seed 0 lists.old lists.new }
{
    let mut c = f.contents();
    let mut l = first;
    let mut odd = 0;
    while let Some((a, next)) = c.next_of(model, FUNCTION_ATTRIBUTE_PROTO) {
        let more = default_name(model, lists, seed, l, f, a)?;
        l = list_name(model, lists, seed, l, a, ATTRIBUTE_NAME);
        odd += more;
        c = next;
    }
    Ok((l, odd))
}
