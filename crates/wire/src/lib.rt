// The wire of Protocol Buffers, read where it stands: tags, fields, and the parts of a message. Nothing is copied or
// decoded ahead, and every function answers for any bytes and any numbers. What the answers mean stands in specs/.
#![tactic(auto)]

mod cursors;
mod messages;
mod outlines;
mod quick;
mod shorts;

pub use messages::value_in;
pub use outlines::Outline;

// A tag that was read: where it begins, its field number and wire type, and where it ends.
#[derive(Clone, Copy)]
pub struct Tag {
    pub place: usize,
    pub number: u64,
    pub wire: u64,
    pub next: usize,
}

// A field that was read: the place, number and wire type of its tag; the value of a varint, 0 for another wire type; and the
// bytes from `start` to `next`, which hold a value of fixed size or the contents.
#[derive(Clone, Copy)]
pub struct Field {
    pub place: usize,
    pub number: u64,
    pub wire: u64,
    pub value: u64,
    pub start: usize,
    pub next: usize,
}

// A reading place, and the end of the message around it. It moves on by whole fields.
#[derive(Clone, Copy)]
pub struct Cursor {
    pub at: usize,
    pub end: usize,
}
