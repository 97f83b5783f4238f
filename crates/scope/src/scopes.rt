// The scope of the second walk, in cells that the caller lends: a record holds the place of the field that holds a name and the length
// of the name, and the first `used` records are in use. What they mean stands in specs/Scope.antt.
ghost use Rattle.std.specs.Prelude.{◌≡◌, ℕ, ◌+◌, ◌*◌, ◌^◌, ◌≤◌, ◌<◌, true, List, length, get_or, replicate};
ghost use Rattle.varint.specs.Outcome.{refused_with};
ghost use Rattle.varint.specs.Bytes.{Bytes};
ghost use Rattle.varint.specs.Encoding.{encode};
ghost use Rattle.wire.specs.Encoding.{contents_at};
ghost use Rattle.rules.specs.Verdict.{WIDTH as width, room};
ghost use Rattle.scope.specs.Scope.{place_in, length_in, stored, step_says, with_odd, counting, left, grows};
ghost use Rattle.values.specs.Answers.{Addable};
ghost use Rattle.scope.specs.declared.scopes.Progress.{Progress};

use varint::Refusal;

// How many cells a record takes.
const WIDTH: usize = 2;

// How many cells a page of memory has.
const PAGE: usize = 1024;

// How far the second walk has come: how many records are used, the nodes so far, the most names visible together so far, and the odd
// names so far.
#[derive(Clone, Copy)]
pub struct Progress {
    pub used: usize,
    pub nodes: u64,
    pub most: usize,
    pub odd: u64,
}

// How many names so many cells hold.
#[tactic(auto, unfolding(rules::specs::Verdict::WIDTH, rules::specs::Verdict::room))]
pub fn room(cells: usize) -> usize
    ensures { result ≡ room cells }
{
    cells / WIDTH
}

// A cell of a record, or 0 where it is not there. A number of no record is not multiplied, since that could overflow.
#[tactic(auto, unfolding(rules::specs::Verdict::WIDTH))]
fn cell_at(cells: &[u32], i: usize, offset: usize) -> usize
    requires { offset < width }
    ensures { (result ≡ get_or cells.now (width * i + offset) 0) × (result < 2 ^ 32) }
{
    if cells.len() <= i {
        return 0;
    }
    let at = WIDTH * i + offset;
    if at < cells.len() {
        return cells[at] as usize;
    }
    0
}

#[tactic(auto, unfolding(rules::specs::Verdict::WIDTH, crate::specs::Scope::place_in))]
pub(crate) fn place_at(cells: &[u32], i: usize) -> usize
    ensures { (result ≡ place_in cells.now i) × (result < 2 ^ 32) }
{
    cell_at(cells, i, 0)
}

#[tactic(auto, unfolding(rules::specs::Verdict::WIDTH, crate::specs::Scope::length_in))]
pub(crate) fn length_at(cells: &[u32], i: usize) -> usize
    ensures { (result ≡ length_in cells.now i) × (result < 2 ^ 32) }
{
    cell_at(cells, i, 1)
}

pub(crate) fn store(cells: &mut [u32], i: usize, place: usize, len: usize)
    requires i_bound { i < room (length cells.old) }
    requires place_bound { (place < 2 ^ 32) × (len < 2 ^ 32) }
    ensures { cells.new ≡ stored cells.old i place len }
{
    let at = WIDTH * i;
    cells[at] = place as u32;
    cells[at + 1] = len as u32;
}

// How many bytes a length takes in its shortest form.
fn width_of(n: usize) -> usize
    requires { n < 2 ^ 32 }
    ensures { (result ≡ length (encode n)) × (result ≤ 5) }
{
    if n < 128 {
        return 1;
    }
    if n < 16_384 {
        return 2;
    }
    if n < 2_097_152 {
        return 3;
    }
    if n < 268_435_456 {
        return 4;
    }
    5
}

// Where the name of a record begins: after a tag of one byte and its length.
pub(crate) fn contents_at(place: usize, len: usize) -> usize
    requires { (place < 2 ^ 32) × (len < 2 ^ 32) }
    ensures { (result ≡ contents_at place len) × (result < 2 ^ 33) }
{
    place + 1 + width_of(len)
}

fn still_zero(zero: bool, cell: u32) -> bool
    ensures { result ≡ true → (zero ≡ true) × (cell ≡ 0) }
{
    if cell == 0 {
        return zero;
    }
    false
}

// With no way out before the end, so that the machine compares many at once.
fn all_zero(cells: &[u32]) -> bool
    ensures { result ≡ true → cells.now ≡ replicate (length cells.now) 0 }
{
    let mut zero = true;
    for cell in cells {
        zero = still_zero(zero, *cell);
    }
    zero
}

// Zeros are not written over zeros: memory that the system has zeroed becomes real only where it is written.
fn clear_part(cells: &mut [u32])
    ensures { cells.new ≡ replicate (length cells.old) 0 }
{
    if !all_zero(cells) {
        cells.fill(0);
    }
}

fn part_end(at: usize, end: usize) -> usize
    requires { at < end }
    ensures { (at < result) × (result ≤ end) }
{
    if end - at < PAGE {
        return end;
    }
    at + PAGE
}

pub fn clear(cells: &mut [u32])
    ensures { cells.new ≡ replicate (length cells.old) 0 }
{
    let mut i = 0;
    while i < cells.len() {
        let end = part_end(i, cells.len());
        clear_part(&mut cells[i..end]);
        i = end;
    }
}

// The cells and the extra ones, at the end.
pub fn clear_both(cells: &mut [u32], extra: &mut [u32])
    ensures cells { cells.new ≡ replicate (length cells.old) 0 }
    ensures extra { extra.new ≡ replicate (length extra.old) 0 }
{
    clear(cells);
    clear(extra);
}

// A name that record `i` has already.
#[tactic(auto, unfolding(crate::specs::Scope::grows, crate::specs::Scope::step_says))]
pub(crate) fn repeated(cells: &[u32], place: usize, i: usize) -> Result<Progress, Refusal>
    ensures answer { (model : Bytes) (later : List ℕ) → step_says model later result ≡ refused_with 23 place (place_in cells.now i) }
    ensures grown { (p : Progress) → grows p result }
{
    Err(Refusal {
        number: Refusal::ALREADY_VISIBLE,
        place,
        first: place_at(cells, i),
    })
}

// So many odd names more.
#[tactic(auto, unfolding(crate::specs::Scope::with_odd))]
pub fn with_odd(p: Progress, odd: u64) -> Progress
    requires { p.odd + odd < 2 ^ 64 }
    ensures { result ≡ with_odd p odd }
{
    Progress {
        used: p.used,
        nodes: p.nodes,
        most: p.most,
        odd: p.odd + odd,
    }
}

// A rule that tests names and adds none.
#[tactic(auto, unfolding(values::specs::Answers::Addable, crate::specs::Scope::counting))]
pub fn counting(p: Progress, t: Result<u64, Refusal>) -> Result<Progress, Refusal>
    requires { Addable p.odd t }
    ensures { result ≡ counting p t }
{
    let odd = t?;
    Ok(with_odd(p, odd))
}

// "Their names vanish when the graph ends": the walk after a nested graph, where it was `before`.
#[tactic(auto, unfolding(crate::specs::Scope::left))]
pub fn leaving(before: Progress, after: Progress) -> Progress
    ensures { result ≡ left before after }
{
    Progress {
        used: before.used,
        nodes: after.nodes,
        most: after.most,
        odd: after.odd,
    }
}
