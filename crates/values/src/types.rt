// "Type: 24, 25, 37, then each dim: 38 for a negative dim_value, 21 for a dim_param that is present (an empty one included). A
// dim may have neither." The dim_params are counted among the odd names.
ghost use Rattle.std.specs.Prelude.{◌≡◌};
ghost use Rattle.varint.specs.Outcome.{each};
ghost use Rattle.wire.specs.Message.{all_of, message};
ghost use Rattle.schema.specs.Numbers.{Shape-dim};
ghost use Rattle.rules.specs.Walk.{Context, Walk, in_main};
ghost use Rattle.rules.specs.Types.{is_element, dim, tensor_type, declared_type};
ghost use Rattle.values.specs.Answers.{tally_says};

use crate::numbers::{
    DIMENSION_DIM_PARAM, DIMENSION_DIM_VALUE, SHAPE_DIM, TENSOR_TYPE_ELEM_TYPE, TENSOR_TYPE_SHAPE,
    TYPE_TENSOR, VALUE_INFO_TYPE,
};
use crate::tallies::tested;
use varint::{Refusal, refused};
use wire::Field;

// "A signed value is the 64-bit two's complement reading."
const SIGN_BIT: u64 = 0x8000_0000_0000_0000;

pub fn is_element(code: u64) -> bool
    ensures { result ≡ is_element code }
{
    if code < 1 {
        return false;
    }
    code <= 23
}

// "21 is given exactly to bytes that are not well-formed UTF-8 (RFC 3629) and to an empty dim_param"
fn dim(model: &[u8], d: Field) -> Result<u64, Refusal>
    ensures { (w : Walk) → tally_says w result ≡ dim model.now w d }
{
    if SIGN_BIT <= d.number_of(model, DIMENSION_DIM_VALUE) {
        return refused(
            Refusal::NEGATIVE_DIM,
            d.place_of(model, DIMENSION_DIM_VALUE),
        );
    }
    let Some((param, _)) = d.first_of(model, DIMENSION_DIM_PARAM) else {
        return Ok(0);
    };
    let text = param.text(model);
    if text.len() == 0 {
        return refused(Refusal::NOT_UTF8, param.place);
    }
    tested(text, param.place)
}

fn dims(model: &[u8], shape: Field) -> Result<u64, Refusal>
    ensures { (w : Walk) → tally_says w result ≡ each (dim model.now) w (all_of Shape-dim (message model.now shape)) }
{
    let mut c = shape.contents();
    let mut odd = 0;
    while let Some((d, next)) = c.next_of(model, SHAPE_DIM) {
        let more = dim(model, d)?;
        odd += more;
        c = next;
    }
    Ok(odd)
}

fn tensor_type(model: &[u8], t: Field) -> Result<u64, Refusal>
    ensures { (w : Walk) → tally_says w result ≡ tensor_type model.now (message model.now t) w }
{
    if !is_element(t.number_of(model, TENSOR_TYPE_ELEM_TYPE)) {
        return refused(
            Refusal::BAD_ELEM_TYPE,
            t.place_of(model, TENSOR_TYPE_ELEM_TYPE),
        );
    }
    match t.first_of(model, TENSOR_TYPE_SHAPE) {
        None => refused(Refusal::NO_SHAPE, t.place),
        Some((shape, _)) => dims(model, shape),
    }
}

// "24 the type's, if there is one": the type that a ValueInfo declares, which must be a tensor's.
fn declared_type(model: &[u8], v: Field) -> Result<u64, Refusal>
    ensures { (w : Walk) → tally_says w result ≡ declared_type model.now (message model.now v) w }
{
    let Some((declared, _)) = v.first_of(model, VALUE_INFO_TYPE) else {
        return refused(Refusal::NO_TENSOR_TYPE, v.place);
    };
    match declared.first_of(model, TYPE_TENSOR) {
        None => refused(Refusal::NO_TENSOR_TYPE, declared.place),
        Some((tensor, _)) => tensor_type(model, tensor),
    }
}

// "in the main graph then its type"
pub fn main_type(model: &[u8], main: bool, v: Field) -> Result<u64, Refusal>
    ensures { (k : Context) (w : Walk) → k.main ≡ main → tally_says w result ≡ in_main k (declared_type model.now (message model.now v)) w }
{
    if main {
        return declared_type(model, v);
    }
    Ok(0)
}
