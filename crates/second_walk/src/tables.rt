// The last of the extra cells find the functions of a model by who they are.
ghost use Rattle.std.specs.Prelude.{◌≤◌};

use values::numbers::MODEL_FUNCTIONS;
use wire::Cursor;

// Of a function: a bucket, its place, its length, the next in its bucket.
const CELLS_PER_FUNCTION: usize = 4;

// Fewer bytes have no room for a name and an import: such a function is refused, and none after it is judged.
const SHORTEST: usize = 5;

// Where those cells begin, of `size`: four for each function that may come to be recorded, or none of them where so many are not left beside the first
// `split`. The model's functions begin at `at`.
pub(crate) fn table_at(model: &[u8], at: usize, split: usize, size: usize) -> usize
    requires { split ≤ size }
    ensures { (split ≤ result) × (result ≤ size) }
{
    let mut c = Cursor {
        at,
        end: model.len(),
    };
    let mut r = size;
    while let Some((f, next)) = c.next_of(model, MODEL_FUNCTIONS) {
        if f.next - f.start < SHORTEST {
            return r;
        }
        if r - split < CELLS_PER_FUNCTION {
            return size;
        }
        r = r - CELLS_PER_FUNCTION;
        c = next;
    }
    r
}
