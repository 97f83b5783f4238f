// What bench/ links: the first walk and the varint reader for a program in C or Rust.
#![tactic(auto)]

ghost use Rattle.std.specs.Prelude.{◌≡◌};
ghost use Rattle.schema.specs.FirstWalk.{first_walk};
ghost use Rattle.walk_c.specs.Exports.{answered, varint_count};

use schema::first_walk;
use varint::read_varint;

// The number and the place of document 01, both 0 where the walk passes.
#[repr(C)]
#[derive(Drop)]
pub struct Answer {
    pub number: u64,
    pub place: u64,
}

// The first walk over a whole model.
#[unsafe(no_mangle)]
pub extern "C" fn walk_c_first_walk(model: &[u8]) -> Answer
    ensures { result ≡ answered (first_walk model.now) }
{
    match first_walk(model) {
        Ok(()) => Answer {
            number: 0,
            place: 0,
        },
        Err(r) => Answer {
            number: r.number as u64,
            place: r.place as u64,
        },
    }
}

// How many varints stand one after the other, up to the end or to the first that is refused.
#[unsafe(no_mangle)]
pub extern "C" fn walk_c_varints(bytes: &[u8]) -> u64
    ensures { result ≡ varint_count bytes.now }
{
    let mut at: usize = 0;
    let mut count: u64 = 0;
    while let Ok(v) = read_varint(bytes, at, bytes.len(), at) {
        at = v.next;
        count += 1;
    }
    count
}
