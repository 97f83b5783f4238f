// The first walk: "The whole model is walked in byte order, depth first."
ghost use Rattle.varint.specs.Answers.{outcome_of, option_of};
ghost use Rattle.std.specs.Prelude.{◌≡◌, ◌&&◌, [], ◌≤◌, eqb};
ghost use Rattle.schema.specs.Rows.{opened, has_nodes};
ghost use Rattle.schema.specs.FirstWalk.{wire_of, fits, slot_of, kind_of, deeper, walked, first_walk};
ghost use Rattle.schema.specs.Answers.{slot_index, taken_in};

use crate::rows::row_of;
use crate::{Holds, Kind, Row};
use varint::{Refusal, refused};
use wire::Cursor;

const VARINT: u64 = 0;

const LEN: u64 = 2;

const I32: u64 = 5;

// Slots are numbered as fields are, and a field that may repeat uses up none.
const NO_SLOT: usize = 26;

// "the main graph being depth 1", and none at depth 9
const DEEPEST: usize = 8;

#[tactic(auto, unfolding(crate::specs::FirstWalk::wire_of))]
fn wire_of(h: Holds) -> u64
    ensures { result ≡ wire_of h }
{
    match h {
        Holds::Varint => VARINT,
        Holds::Bytes => LEN,
        Holds::Four => I32,
        Holds::Message(_) => LEN,
    }
}

// Does a wire type fit the row?
#[tactic(auto, unfolding(crate::specs::FirstWalk::fits))]
fn wire_fits(row: Row, wire: u64) -> bool
    ensures { result ≡ fits wire row }
{
    match row {
        Row::Once(h) => wire == wire_of(h),
        Row::Many(h) => wire == wire_of(h),
        Row::Packable(h) => { wire == wire_of(h) || wire == LEN }
        Row::OneOf(h) => wire == wire_of(h),
        Row::Unknown => true,
    }
}

// The slot that a field uses up.
#[tactic(auto, unfolding(crate::specs::Answers::slot_index, crate::specs::FirstWalk::slot_of))]
fn slot_of(row: Row, number: u64) -> usize
    ensures { result ≡ slot_index (slot_of number row) }
{
    match row {
        Row::Once(_) => {
            if number < NO_SLOT as u64 {
                return number as usize;
            }
            NO_SLOT
        }
        Row::OneOf(_) => 0,
        Row::Many(_) => NO_SLOT,
        Row::Packable(_) => NO_SLOT,
        Row::Unknown => NO_SLOT,
    }
}

#[tactic(auto, unfolding(crate::specs::Answers::taken_in))]
fn is_taken(seen: &[u8; 27], slot: usize) -> bool
    ensures { result ≡ taken_in seen.now slot }
{
    slot < NO_SLOT && seen[slot] == 1
}

#[tactic(auto, unfolding(crate::specs::Rows::opened, varint::specs::Answers::option_of))]
fn content_by(h: Holds) -> Option<Kind>
    ensures { option_of result ≡ opened h }
{
    match h {
        Holds::Message(k) => Some(k),
        Holds::Varint => None,
        Holds::Bytes => None,
        Holds::Four => None,
    }
}

// The message that a field opens.
#[tactic(auto, unfolding(crate::specs::FirstWalk::kind_of, crate::specs::Rows::holds_of, varint::specs::Answers::option_of))]
fn content_of(row: Row) -> Option<Kind>
    ensures { option_of result ≡ kind_of row }
{
    match row {
        Row::Once(h) => content_by(h),
        Row::Many(h) => content_by(h),
        Row::Packable(h) => content_by(h),
        Row::OneOf(h) => content_by(h),
        Row::Unknown => None,
    }
}

// A graph or a function.
#[tactic(auto, unfolding(crate::specs::Rows::has_nodes))]
fn has_nodes(kind: Kind) -> bool
    ensures { result ≡ has_nodes kind }
{
    matches!(kind, Kind::Graph | Kind::Function)
}

fn is_too_deep(kind: Kind, depth: usize) -> bool
    ensures { result ≡ (has_nodes kind && eqb depth 8) }
{
    has_nodes(kind) && depth == DEEPEST
}

// The graph depth inside a message that stands at `depth`.
#[tactic(auto, unfolding(crate::specs::FirstWalk::deeper))]
fn depth_in(kind: Kind, depth: usize) -> usize
    requires { depth ≤ 8 }
    ensures { result ≡ deeper kind depth }
{
    if has_nodes(kind) {
        return depth + 1;
    }
    depth
}

// The fields of a message of this kind from `start` to `end`, and the messages that they open. "For each field, in this order:
// the tag; its wire kind; whether it is a repeat; its value or length; graph depth; contents."
fn walk(s: &[u8], kind: Kind, depth: usize, start: usize, end: usize) -> Result<(), Refusal>
    requires { depth ≤ 8 }
    ensures { outcome_of result ≡ walked s.now kind depth [] end start }
{
    let mut seen: [u8; 27] = [0; 27];
    let mut c = Cursor { at: start, end };
    // A `while`: the cursor moves by whole fields.
    while c.at < end {
        let at = c.at;
        let tag = c.tag(s)?;
        let row = row_of(kind, tag.number);
        if !wire_fits(row, tag.wire) {
            return refused(Refusal::WRONG_WIRE, at);
        }
        let slot = slot_of(row, tag.number);
        if is_taken(&seen, slot) {
            return refused(Refusal::REPEATED, at);
        }
        let (field, next) = c.value(s, tag)?;
        seen[slot] = 1;
        c = next;
        let Some(inner) = content_of(row) else {
            continue;
        };
        if is_too_deep(inner, depth) {
            return refused(Refusal::TOO_DEEP, at);
        }
        walk(s, inner, depth_in(inner, depth), field.start, field.next)?;
    }
    Ok(())
}

#[tactic(auto, unfolding(crate::specs::FirstWalk::first_walk))]
pub fn first_walk(s: &[u8]) -> Result<(), Refusal>
    ensures { outcome_of result ≡ first_walk s.now }
{
    walk(s, Kind::Model, 0, 0, s.len())
}
