// The check and the name service for a program in C, as bindings/c/onnx_gate.h declares them.
#![tactic(auto)]

ghost use Rattle.std.specs.Prelude.{◌≡◌, length, replicate};
ghost use Rattle.rules.specs.Verdict.{verdict};
ghost use Rattle.gate.specs.Meaning.{meaning, indexed};
ghost use Rattle.gate_c.specs.Exports.{outcome, shown_at};

use gate::{Accepted, check, check_indexed};
use varint::Refusal;

// An answer with no cases: a refusal of 0 is an acceptance, and what does not apply is 0.
#[repr(C)]
#[derive(Drop)]
pub struct GateAnswer {
    pub refusal: u64,
    pub place: u64,
    pub nodes: u64,
    pub names: u64,
    pub first: u64,
    pub odd: u64,
}

// Bytes of the model.
#[repr(C)]
#[derive(Drop)]
pub struct GatePart {
    pub start: u64,
    pub length: u64,
}

impl From<Result<Accepted, Refusal>> for GateAnswer {
    ghost from_gives = { λ answer r. r ≡ outcome (meaning answer) };

    fn from(answer: Result<Accepted, Refusal>) -> GateAnswer {
        match answer {
            Ok(a) => GateAnswer {
                refusal: 0,
                place: 0,
                nodes: a.nodes,
                names: a.names as u64,
                first: 0,
                odd: a.odd,
            },
            Err(r) => GateAnswer {
                refusal: r.number as u64,
                place: r.place as u64,
                nodes: 0,
                names: 0,
                first: r.first as u64,
                odd: 0,
            },
        }
    }
}

// The check. What the cells held before does not matter.
#[unsafe(no_mangle)]
pub extern "C" fn onnx_gate_check(model: &[u8], operators: &[u8], cells: &mut [u32]) -> GateAnswer
    ensures answer { result ≡ outcome (verdict model.now operators.now (length cells.old)) }
    ensures cleared { cells.new ≡ replicate (length cells.old) 0 }
{
    GateAnswer::from(check(model, operators, cells))
}

// The check with extra cells, which make it fast: 65 where they are fewer than four times the others, else the same answer, for every seed.
#[unsafe(no_mangle)]
pub extern "C" fn onnx_gate_check_indexed(
    model: &[u8],
    operators: &[u8],
    cells: &mut [u32],
    extra: &mut [u32],
    seed: u64,
) -> GateAnswer
    ensures answer { result ≡ outcome (indexed (length extra.old) (length cells.old) (verdict model.now operators.now (length cells.old))) }
    ensures cleared { cells.new ≡ replicate (length cells.old) 0 }
    ensures extras { extra.new ≡ replicate (length extra.old) 0 }
{
    GateAnswer::from(check_indexed(model, operators, cells, extra, seed))
}

// The name service. No reference crosses: C gets where the part lies in the bytes that it has. Sizes are compared with what is
// left, so that nothing wraps.
#[unsafe(no_mangle)]
pub extern "C" fn onnx_gate_show_name(model: &[u8], start: u64, size: u64) -> GatePart
    ensures { result ≡ shown_at model.now start size }
{
    let end = model.len() as u64;
    if end < start {
        return GatePart {
            start: 0,
            length: 0,
        };
    }
    if end - start < size {
        return GatePart {
            start: 0,
            length: 0,
        };
    }
    GatePart {
        start,
        length: size,
    }
}
