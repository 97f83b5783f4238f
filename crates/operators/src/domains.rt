// "The empty domain and `ai.onnx` are one domain, here and in models."
ghost use Rattle.std.specs.Prelude.{◌≡◌};
ghost use Rattle.varint.specs.Bytes.{same};
ghost use Rattle.operators.specs.Operators.{domain};

use varint::same_bytes;

// The name that a domain goes by: for `ai.onnx` the empty one.
pub fn canonical(d: &[u8]) -> &[u8]
    ensures { result.now ≡ domain d.now }
{
    if same_bytes(d, b"ai.onnx") {
        return &d[..0];
    }
    d
}

// Are the two one domain?
pub fn same_domain(a: &[u8], b: &[u8]) -> bool
    ensures { result ≡ same (domain a.now) (domain b.now) }
{
    same_bytes(canonical(a), canonical(b))
}
