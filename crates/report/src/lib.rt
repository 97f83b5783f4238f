// An answer as the line that a program prints: "`accepted nodes 1 names 1` or `refused 30 at 13`", "The program's line for 23 ends ` first N`",
// and "An accepted line gains ` odd N`".
#![tactic(auto)]

ghost use Rattle.std.specs.Prelude.{◌≡◌, ◌+◌, ◌≤◌, length};
ghost use Rattle.std.proofs.Math.Seq.{paste};
ghost use Rattle.io.specs.Counts.{IsPrefixLen};
ghost use Rattle.varint.specs.Outcome.{pass, fail};
ghost use Rattle.gate.specs.Meaning.{meaning};
ghost use Rattle.report.specs.Line.{decimal, numbers_of, line_of, over};

use gate::Accepted;
use varint::Refusal;

// Puts the line, its end included, at the start of `out`, whose other bytes stay, and answers how many bytes it has. The longest
// has three numbers of 20 digits, words of 15, 7 and 5 bytes, and its end: 88.
pub fn line(answer: Result<Accepted, Refusal>, out: &mut [u8; 96]) -> usize
    ensures counts { IsPrefixLen result out.new }
    ensures size { result ≡ length (line_of (meaning answer)) }
    ensures text { out.new ≡ over (line_of (meaning answer)) out.old }
{
    match answer {
        Ok(a) => accepted(a.nodes, a.names as u64, a.odd, out),
        Err(r) => refused(r, out),
    }
}

// The line of an acceptance.
fn accepted(nodes: u64, names: u64, odd: u64, out: &mut [u8; 96]) -> usize
    ensures counts { IsPrefixLen result out.new }
    ensures size { result ≡ length (line_of (pass (record { nodes = nodes; names = names; odd = odd }))) }
    ensures text { out.new ≡ over (line_of (pass (record { nodes = nodes; names = names; odd = odd }))) out.old }
{
    let at = numbers(b"accepted nodes ", nodes, b" names ", names, out);
    let at = put(b" odd ", out, at);
    let at = put_number(odd, out, at);
    put(b"\n", out, at)
}

// The line of a refusal.
fn refused(r: Refusal, out: &mut [u8; 96]) -> usize
    ensures counts { IsPrefixLen result out.new }
    ensures size { result ≡ length (line_of (fail r)) }
    ensures text { out.new ≡ over (line_of (fail r)) out.old }
{
    let at = numbers(b"refused ", r.number as u64, b" at ", r.place as u64, out);
    if r.number == Refusal::ALREADY_VISIBLE {
        let at = put(b" first ", out, at);
        let at = put_number(r.first as u64, out, at);
        return put(b"\n", out, at);
    }
    put(b"\n", out, at)
}

// Two words, each with a number after it. What is left of `out` has room for a third, and for the line's end.
fn numbers(first: &[u8], m: u64, second: &[u8], n: u64, out: &mut [u8; 96]) -> usize
    requires { length first.now + length second.now ≤ 22 }
    ensures few { result ≤ 62 }
    ensures size { result ≡ length (numbers_of first.now m second.now n) }
    ensures text { out.new ≡ over (numbers_of first.now m second.now n) out.old }
{
    let at = put(first, out, 0);
    let at = put_number(m, out, at);
    let at = put(second, out, at);
    put_number(n, out, at)
}

// Puts `text` after the first `at` bytes, and answers where it ends.
fn put(text: &[u8], out: &mut [u8], at: usize) -> usize
    requires { at + length text.now ≤ length out.old }
    ensures size { result ≡ at + length text.now }
    ensures text { out.new ≡ paste out.old at text.now (length text.now) }
{
    let end = at + text.len();
    out[at..end].copy_from_slice(text);
    end
}

// The same for a number in decimal digits.
fn put_number(n: u64, out: &mut [u8], at: usize) -> usize
    requires { at + 20 ≤ length out.old }
    ensures few { result ≤ at + 20 }
    ensures size { result ≡ at + length (decimal n) }
    ensures text { out.new ≡ paste out.old at (decimal n) (length (decimal n)) }
{
    let mut digits = [0u8; 20];
    let k = io::decimal(n, &mut digits);
    put(&digits[..k], out, at)
}
