// What is asked of an attribute before its graphs are judged.
ghost use Rattle.varint.specs.Answers.{outcome_of};
ghost use Rattle.std.specs.Prelude.{◌≡◌};
ghost use Rattle.varint.specs.Outcome.{refuse◌at:◌when:◌};
ghost use Rattle.schema.specs.Numbers.{Node-attribute, Attribute-name};
ghost use Rattle.index.specs.Listing.{Listed};
ghost use Rattle.headers.specs.Earlier.{earlier_in};
ghost use Rattle.messages.specs.Around.{attributes_of};
ghost use Rattle.messages.specs.Heads.{value_rules, attribute_rules};
ghost use Rattle.rules.specs.Walk.{Walk};
ghost use Rattle.values.specs.Answers.{tally_says};

use crate::contexts::Surroundings;
use crate::references::is_resolved;
use headers::is_listed;
use index::Listing;
use values::numbers::{ATTRIBUTE_NAME, ATTRIBUTE_REF_ATTR_NAME, NODE_ATTRIBUTE};
use values::{is_bad_reference, is_bad_value, read_name};
use varint::{Refusal, refused};
use wire::Field;

fn bad_value(bad: bool, place: usize) -> Result<(), Refusal>
    ensures { outcome_of result ≡ (refuse 32 at: place when: bad) }
{
    if bad {
        return refused(Refusal::BAD_VALUE, place);
    }
    Ok(())
}

// "33, 32", of a reference or of a value
fn value_rules(
    model: &[u8],
    lists: &[u32],
    seed: u64,
    attributes: Listing,
    s: Surroundings,
    a: Field,
) -> Result<(), Refusal>
    requires { Listed model.now seed lists.now attributes (attributes_of model.now s) }
    ensures { outcome_of result ≡ value_rules model.now s a }
{
    let reference = a.bytes_of(model, ATTRIBUTE_REF_ATTR_NAME);
    if reference.len() == 0 {
        return bad_value(is_bad_value(model, a), a.place);
    }
    if !is_resolved(model, lists, seed, attributes, s, reference) {
        return refused(Refusal::UNRESOLVED_REFERENCE, a.place);
    }
    bad_value(is_bad_reference(model, a), a.place)
}

// "Attribute: 22, 21, 31, 33, 32; then its graphs in order": all but the graphs.
pub fn attribute_rules(
    model: &[u8],
    lists: &[u32],
    seed: u64,
    attributes: Listing,
    l: Listing,
    s: Surroundings,
    node: Field,
    a: Field,
) -> Result<u64, Refusal>
    requires listed { Listed model.now seed lists.now attributes (attributes_of model.now s) }
    requires listed_2 { Listed model.now seed lists.now l (earlier_in model.now Node-attribute Attribute-name node a) }
    ensures { (w : Walk) → tally_says w result ≡ attribute_rules model.now s node w a }
{
    let (name, odd) = read_name(model, a, ATTRIBUTE_NAME, Refusal::NAME_EMPTY)?;
    if is_listed(
        model,
        lists,
        seed,
        l,
        node,
        NODE_ATTRIBUTE,
        ATTRIBUTE_NAME,
        a.place,
        name.text(model),
    ) {
        return refused(Refusal::ATTRIBUTE_TWICE, name.place);
    }
    value_rules(model, lists, seed, attributes, s, a)?;
    Ok(odd)
}
