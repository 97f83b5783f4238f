// The attributes of a function, by name: those that stood before another one, and those that a reference may name.
ghost use Rattle.std.specs.Prelude.{◌≡◌, false};
ghost use Rattle.varint.specs.Lists.{is_empty};
ghost use Rattle.varint.specs.Bytes.{member};
ghost use Rattle.index.specs.Listing.{Listed};
ghost use Rattle.messages.specs.Around.{attributes_before, attributes_of};

use crate::contexts::{Owner, Surroundings};
use headers::{is_earlier, is_earlier_field};
use index::Listing;
use values::numbers::{ATTRIBUTE_NAME, FUNCTION_ATTRIBUTE, FUNCTION_ATTRIBUTE_PROTO};
use wire::Field;

// Is the name among those of the first list that stand before `first`, and those of the second before `second`? By the listing of them, or reading again.
pub fn is_attribute(
    model: &[u8],
    lists: &[u32],
    seed: u64,
    l: Listing,
    f: Field,
    first: usize,
    second: usize,
    name: &[u8],
) -> bool
    requires listed { Listed model.now seed lists.now l (attributes_before model.now f first second) }
    requires name_value { is_empty name.now ≡ false }
    ensures { result ≡ member name.now (attributes_before model.now f first second) }
{
    if l.whole {
        return l.has(model, lists, seed, name);
    }
    if is_earlier_field(model, f, FUNCTION_ATTRIBUTE, first, name) {
        return true;
    }
    is_earlier(
        model,
        f,
        FUNCTION_ATTRIBUTE_PROTO,
        ATTRIBUTE_NAME,
        second,
        name,
    )
}

// May a reference name it?
pub(crate) fn is_resolved(
    model: &[u8],
    lists: &[u32],
    seed: u64,
    l: Listing,
    s: Surroundings,
    name: &[u8],
) -> bool
    requires listed { Listed model.now seed lists.now l (attributes_of model.now s) }
    requires name_value { is_empty name.now ≡ false }
    ensures { result ≡ member name.now (attributes_of model.now s) }
{
    let Owner::Function(f) = s.owner else {
        return false;
    };
    is_attribute(model, lists, seed, l, f, f.next, f.next, name)
}
