// The model as a message, and whether a message has a field.
ghost use Rattle.std.specs.Prelude.{◌≡◌};
ghost use Rattle.varint.specs.Lists.{present};
ghost use Rattle.wire.specs.Message.{first_of, number_of, message, whole};
ghost use Rattle.wire.specs.Outline.{Starts};
ghost use Rattle.headers.specs.Imported.{Outlined};

use values::numbers::{MODEL_FUNCTIONS, MODEL_GRAPH, MODEL_IR_VERSION, MODEL_OPSET_IMPORT};
use wire::{Field, Outline, value_in};

// The wire type of a field with contents.
const LEN: u64 = 2;

// The model itself, as if it were the contents of a field: "and 0 for the model".
#[tactic(auto, unfolding(wire::specs::Message::whole))]
pub fn whole(model: &[u8]) -> Field
    ensures { result ≡ whole model.now }
{
    Field {
        place: 0,
        number: 0,
        wire: LEN,
        value: 0,
        start: 0,
        next: model.len(),
    }
}

// Does a field with this number stand in the message that a field holds?
pub fn has(model: &[u8], m: Field, number: u64) -> bool
    ensures { result ≡ present (first_of number (message model.now m)) }
{
    m.first_of(model, number).is_some()
}

// The same, from where an outline says that such fields begin.
pub(crate) fn has_from(model: &[u8], m: Field, number: u64, at: usize) -> bool
    requires { Starts model.now m number at }
    ensures { result ≡ present (first_of number (message model.now m)) }
{
    m.first_from(model, number, at).is_some()
}

pub(crate) fn number_from(model: &[u8], m: Field, number: u64, at: usize) -> u64
    requires { Starts model.now m number at }
    ensures { result ≡ number_of number (message model.now m) }
{
    value_in(m.first_from(model, number, at))
}

// One reading of the model's own fields, which may be many.
pub fn model_outline(model: &[u8]) -> Outline
    ensures { Outlined model.now result }
{
    let m = whole(model);
    m.outline(
        model,
        MODEL_IR_VERSION,
        MODEL_GRAPH,
        MODEL_OPSET_IMPORT,
        MODEL_FUNCTIONS,
        0,
        0,
    )
}
