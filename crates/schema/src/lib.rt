// The messages of ONNX that the gate opens, the rows of each as one table, and the first walk over them.
#![tactic(auto)]

mod rows;
mod walks;

pub use rows::row_of;
pub use walks::first_walk;

// The kinds of message that the first walk opens.
#[derive(Clone, Copy)]
pub enum Kind {
    Model,
    OperatorSetId,
    Function,
    Graph,
    Node,
    Attribute,
    Tensor,
    ValueInfo,
    TypeProto,
    TensorType,
    Shape,
    Dimension,
}

// What a field holds: document 01's v, s, f, or m with the message that it opens.
#[derive(Clone, Copy)]
pub enum Holds {
    Varint,
    Bytes,
    Four,
    Message(Kind),
}

// How often a field may stand in its message: once, any number of times, the same but perhaps packed, or once in place of all
// the members of a "one of". A field that no row names is unknown.
#[derive(Clone, Copy)]
pub enum Row {
    Once(Holds),
    Many(Holds),
    Packable(Holds),
    OneOf(Holds),
    Unknown,
}
