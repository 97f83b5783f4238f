// A file, read into a buffer of fixed size.
ghost use Rattle.std.specs.Prelude.{◌≡◌, IfOk};
ghost use Rattle.io.specs.Counts.{IsPrefixLen};
ghost use Rattle.onnx_gate.specs.Program.{held_of};

use std::io::Read;
use std::rt::Files;
use std::{fs, io};

// How many bytes of the buffer are the file's, and whether the file goes on after them: of a longer file both are asked for.
#[derive(Drop)]
pub(crate) struct Loaded {
    pub(crate) size: usize,
    pub(crate) is_longer: bool,
}

// Fills the buffer, and then asks for one byte more: only so is a file that just fits told from a longer one.
pub(crate) fn load(rt: &impl Files, path: &str, buffer: &mut [u8]) -> Loaded
    ensures { IsPrefixLen result.size buffer.new }
{
    match fs::open(rt, path) {
        Ok(mut file) => load_from(&mut file, buffer),
        Err(_) => held(0, None),
    }
}

// The same of a file that is there.
fn load_from(file: &mut impl Read, buffer: &mut [u8]) -> Loaded
    ensures { IsPrefixLen result.size buffer.new }
{
    match read_full(file, buffer) {
        Ok(size) => held(size, read_more(file)),
        Err(_) => held(0, None),
    }
}

// Reads until the buffer is full or the file ends, and answers how many bytes it put at the start of the buffer.
fn read_full(file: &mut impl Read, buffer: &mut [u8]) -> io::Result<usize>
    ensures { IfOk result (λ size. IsPrefixLen size buffer.new) }
{
    let mut size = 0;
    // A `while`: a file shorter than the buffer is the usual case, and std's `read_exact` makes it an `Err` without a count.
    while size < buffer.len() {
        let n = file.read(&mut buffer[size..])?;
        if n == 0 {
            break;
        }
        size += n;
    }
    Ok(size)
}

// How many bytes the next read gives, one or none, or nothing where it fails.
fn read_more(file: &mut impl Read) -> Option<usize> {
    let mut byte = [0u8; 1];
    match file.read(&mut byte) {
        Ok(n) => Some(n),
        Err(_) => None,
    }
}

// `size` bytes were read, and `more` is what came of the read after them: how many bytes it gave, or nothing where it failed. "an absent
// file counts as empty", and so does one that cannot be read to its end: a part of a model is never judged as the whole.
#[tactic(auto, unfolding(crate::specs::Program::held_of))]
fn held(size: usize, more: Option<usize>) -> Loaded
    ensures { result ≡ held_of size more }
{
    match more {
        Some(n) => Loaded {
            size,
            is_longer: 0 < n,
        },
        None => Loaded {
            size: 0,
            is_longer: false,
        },
    }
}
