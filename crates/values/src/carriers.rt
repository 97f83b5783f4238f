// "Type number and carrier": the fields that hold an attribute's value, by the attribute's type.
ghost use Rattle.std.specs.Prelude.{◌≡◌, not, ◌&&◌, ◌||◌, eqb};
ghost use Rattle.varint.specs.Answers.{option_of};
ghost use Rattle.varint.specs.Lists.{contains, lookup};
ghost use Rattle.wire.specs.Message.{number_of, message};
ghost use Rattle.schema.specs.Numbers.{Attribute-type, Attribute-g, Attribute-graphs};
ghost use Rattle.rules.specs.Node.{carriers, carrier_numbers, needed, foreign, bad_value, bad_reference};
ghost use Rattle.rules.specs.Function.{bad_default};

use crate::numbers::{ATTRIBUTE_G, ATTRIBUTE_GRAPHS, ATTRIBUTE_TYPE};
use varint::Refusal;
use wire::Field;

// None for a type that is outside 1..14.
#[tactic(auto, unfolding(varint::specs::Lists::lookup, rules::specs::Node::carriers, varint::specs::Answers::option_of))]
pub fn carrier_of(code: u64) -> Option<u64>
    ensures { option_of result ≡ lookup code carriers }
{
    match code {
        1 => Some(2),
        2 => Some(3),
        3 => Some(4),
        4 => Some(5),
        5 => Some(6),
        6 => Some(7),
        7 => Some(8),
        8 => Some(9),
        9 => Some(10),
        10 => Some(11),
        11 => Some(22),
        12 => Some(23),
        13 => Some(14),
        14 => Some(15),
        _ => None,
    }
}

#[tactic(auto, unfolding(varint::specs::Lists::contains, rules::specs::Node::carriers, rules::specs::Node::carrier_numbers))]
fn is_carrier(number: u64) -> bool
    ensures { result ≡ contains number carrier_numbers }
{
    matches!(
        number,
        2 | 3 | 4 | 5 | 6 | 7 | 8 | 9 | 10 | 11 | 22 | 23 | 14 | 15
    )
}

// "types 4, 5, 11 or 13 lack theirs"
#[tactic(auto, unfolding(varint::specs::Lists::contains, rules::specs::Node::needed))]
fn is_needed(code: u64) -> bool
    ensures { result ≡ needed code }
{
    matches!(code, 4 | 5 | 11 | 13)
}

// Does the field hold graphs, one or a list?
#[tactic(auto, using(crate::proofs::CarrierLaws::body_at, crate::proofs::CarrierLaws::body_none))]
pub fn is_body(number: u64) -> bool
    ensures { result ≡ (eqb Attribute-g number || eqb Attribute-graphs number) }
{
    matches!(number, ATTRIBUTE_G | ATTRIBUTE_GRAPHS)
}

fn is_foreign(mine: u64, number: u64) -> bool
    ensures { result ≡ (not (eqb number mine) && contains number carrier_numbers) }
{
    number != mine && is_carrier(number)
}

// "another carrier occurs"
fn has_foreign(model: &[u8], a: Field, mine: u64) -> bool
    ensures { result ≡ foreign mine carriers (message model.now a) }
{
    let mut c = a.contents();
    // A `while`: the cursor moves by whole fields.
    while c.at < c.end {
        let Ok((field, next)) = c.field(model) else {
            return false;
        };
        if is_foreign(mine, field.number) {
            return true;
        }
        c = next;
    }
    false
}

// "Refusal 32 when type is outside 1..14, another carrier occurs, or types 4, 5, 11 or 13 lack theirs. The rest may be absent."
pub fn is_bad_value(model: &[u8], a: Field) -> bool
    ensures { result ≡ bad_value (number_of Attribute-type (message model.now a)) (message model.now a) }
{
    let code = a.number_of(model, ATTRIBUTE_TYPE);
    let Some(mine) = carrier_of(code) else {
        return true;
    };
    if has_foreign(model, a, mine) {
        return true;
    }
    if !is_needed(code) {
        return false;
    }
    a.first_of(model, mine).is_none()
}

// "such an attribute has a type in 1..14 and no carrier, otherwise 32"
pub fn is_bad_reference(model: &[u8], a: Field) -> bool
    ensures { result ≡ bad_reference (number_of Attribute-type (message model.now a)) (message model.now a) }
{
    if carrier_of(a.number_of(model, ATTRIBUTE_TYPE)).is_none() {
        return true;
    }
    has_foreign(model, a, 0)
}

// "A default may not be a graph or graphs (32)"
pub fn is_bad_default(model: &[u8], a: Field) -> bool
    ensures { result ≡ bad_default (number_of Attribute-type (message model.now a)) (message model.now a) }
{
    match a.number_of(model, ATTRIBUTE_TYPE) {
        5 => true,
        10 => true,
        _ => is_bad_value(model, a),
    }
}
