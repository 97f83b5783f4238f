// Who a function is, read where it stands; and the functions before a place, read again.
ghost use Rattle.std.specs.Prelude.{◌≡◌, map};
ghost use Rattle.wire.specs.Message.{whole};
ghost use Rattle.wire.specs.Outline.{Starts};
ghost use Rattle.schema.specs.Numbers.{Model-functions};
ghost use Rattle.rules.specs.Identity.{same_identity, identified};
ghost use Rattle.identities.specs.Functions.{identity_by, identity_in, domain_in, functions_before};

use headers::any_before;
use operators::canonical;
use values::numbers::{FUNCTION_DOMAIN, FUNCTION_NAME, FUNCTION_OVERLOAD, MODEL_FUNCTIONS};
use varint::{between, same_bytes};
use wire::{Cursor, Field};

// "from IR 10 overload too"
const OVERLOADS: u64 = 10;

// The domain of a function: for `ai.onnx` the empty one.
pub(crate) fn domain_of(model: &[u8], f: Field) -> &[u8]
    ensures { result.now ≡ domain_in model.now f }
{
    canonical(f.bytes_of(model, FUNCTION_DOMAIN))
}

// The overload of a function: empty, where overloads do not count.
pub(crate) fn overload_of(model: &[u8], version: u64, f: Field) -> &[u8]
    ensures { result.now ≡ (identity_in model.now version f).overload }
{
    if version < OVERLOADS {
        return between(model, 0, 0);
    }
    f.bytes_of(model, FUNCTION_OVERLOAD)
}

// Is it the function of this name, domain and overload? Names come first: most others differ there, and a name stands near the front.
pub(crate) fn has_identity(
    model: &[u8],
    version: u64,
    f: Field,
    name: &[u8],
    domain: &[u8],
    overload: &[u8],
) -> bool
    ensures { result ≡ same_identity (identity_by name.now domain.now overload.now) (identity_in model.now version f) }
{
    if !same_bytes(name, f.bytes_of(model, FUNCTION_NAME)) {
        return false;
    }
    if !same_bytes(domain, domain_of(model, f)) {
        return false;
    }
    same_bytes(overload, overload_of(model, version, f))
}

// Is one of the functions before `place` the one of this name, domain and overload? They are read again, from where they begin.
pub(crate) fn has_earlier(
    model: &[u8],
    version: u64,
    at: usize,
    place: usize,
    name: &[u8],
    domain: &[u8],
    overload: &[u8],
) -> bool
    requires { Starts model.now (whole model.now) Model-functions at }
    ensures { result ≡ identified (identity_by name.now domain.now overload.now) (map (identity_in model.now version) (functions_before model.now place)) }
{
    let from = Cursor {
        at,
        end: model.len(),
    };
    any_before(
        model,
        from,
        MODEL_FUNCTIONS,
        place,
        |f| has_identity(model, version, f, name, domain, overload),
    )
}
