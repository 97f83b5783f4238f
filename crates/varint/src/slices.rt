// Parts of slices, and whether two of them are the same.
ghost use Rattle.std.specs.Prelude.{◌≡◌, ◌-◌};
ghost use Rattle.varint.specs.Bytes.{part, same};

// The bytes from `start` up to `end`, or as many of them as there are.
pub fn between(s: &[u8], start: usize, end: usize) -> &[u8]
    ensures { result.now ≡ part start (end - start) s.now }
{
    let last = end.min(s.len());
    let first = start.min(last);
    &s[first..last]
}

// Do all bytes of the two agree? The last eight first, in which names that are numbered differ, and then the eights from the start
// on: the machine compares eight at once, where the library's equality of slices is a call as soon as the first four agree.
// Put where it is called: as a call of its own it takes longer than what it does for most pairs.
#[inline(always)]
pub fn same_bytes(a: &[u8], b: &[u8]) -> bool
    ensures { result ≡ same a.now b.now }
{
    if a.len() != b.len() {
        return false;
    }
    let (Some(p), Some(q)) = (a.last_chunk::<8>(), b.last_chunk::<8>()) else {
        return a == b;
    };
    if p != q {
        return false;
    }
    let (x, _) = a.as_chunks::<8>();
    let (y, _) = b.as_chunks::<8>();
    for i in 0..x.len() {
        if x[i] != y[i] {
            return false;
        }
    }
    true
}
