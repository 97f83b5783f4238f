// The names of a function's attributes that have no default: field 6.
ghost use Rattle.std.specs.Prelude.{◌≡◌, ◌^◌, ◌≤◌, ◌<◌, length};
ghost use mathlib.Core.List.{flat_map};
ghost use Rattle.varint.specs.Outcome.{each};
ghost use Rattle.wire.specs.Message.{all_of, message};
ghost use Rattle.schema.specs.Numbers.{Function-attribute};
ghost use Rattle.rules.specs.Walk.{Walk};
ghost use Rattle.index.specs.Table.{Indexed};
ghost use Rattle.index.specs.Memory.{known, table_of};
ghost use Rattle.index.specs.Listing.{Listed, Held};
ghost use Rattle.values.specs.Answers.{tally_says};
ghost use Rattle.messages.specs.Again.{field_names};
ghost use Rattle.messages.specs.Around.{attributes_before};
ghost use Rattle.signatures.specs.Signature.{attribute_again, attributes_says, Room, counting, lists_all};

use index::Listing;
use messages::is_attribute;
use values::numbers::FUNCTION_ATTRIBUTE;
use values::test_name;
use varint::{Refusal, refused};
use wire::Field;

// So many odd names more.
#[tactic(auto, unfolding(crate::specs::Signature::Room, crate::specs::Signature::counting))]
pub(crate) fn counting(
    odd: u64,
    a: Result<(Listing, u64), Refusal>,
) -> Result<(Listing, u64), Refusal>
    requires { Room odd a }
    ensures { result ≡ counting odd a }
{
    let (l, more) = a?;
    Ok((l, odd + more))
}

// "22, 21, 42": the name may not be one of those before it.
fn attribute_name(
    model: &[u8],
    lists: &[u32],
    seed: u64,
    l: Listing,
    f: Field,
    a: Field,
) -> Result<u64, Refusal>
    requires { Listed model.now seed lists.now l (attributes_before model.now f a.place f.start) }
    ensures { (w : Walk) → tally_says w result ≡ attribute_again model.now f w a }
{
    let odd = test_name(model, a, Refusal::NAME_EMPTY)?;
    let name = a.text(model);
    if is_attribute(model, lists, seed, l, f, a.place, f.start, name) {
        return refused(Refusal::FUNCTION_ATTRIBUTE_TWICE, a.place);
    }
    Ok(odd)
}

pub(crate) fn attribute_names(
    model: &[u8],
    lists: &mut [u32],
    seed: u64,
    f: Field,
) -> Result<(Listing, u64), Refusal>
    requires indexed { Indexed model.now seed (table_of lists.old) (known lists.old) }
    requires model_len_bound { length model.now < 2 ^ 32 }
    requires next_in_bounds { f.next ≤ length model.now }
    ensures answer { (w : Walk) → attributes_says w result ≡ each (attribute_again model.now f) w (all_of Function-attribute (message model.now f)) }
    ensures listed { lists_all model.now seed lists.new (attributes_before model.now f f.next f.start) (length (flat_map (field_names model.now) (all_of Function-attribute (message model.now f)))) result }
    ensures held { Held model.now seed 0 lists.old lists.new }
{
    let mut c = f.contents();
    let mut l = Listing {
        base: 0,
        top: 0,
        whole: true,
    };
    let mut odd = 0;
    while let Some((a, next)) = c.next_of(model, FUNCTION_ATTRIBUTE) {
        let more = attribute_name(model, lists, seed, l, f, a)?;
        l = l.add(model, lists, seed, a);
        odd += more;
        c = next;
    }
    Ok((l, odd))
}
