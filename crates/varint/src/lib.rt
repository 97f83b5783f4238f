// What the wire is read with: varints, and parts of slices. Every function answers for any bytes and any numbers. What the answers
// mean stands in specs/.
#![tactic(auto)]

mod refusals;
mod slices;
mod varints;

pub use refusals::refused;
pub use slices::{between, same_bytes};
pub use varints::{byte_at, read_shortest, read_varint, wide};

// A refusal of document 01: its number, and its place in the model; of a name defined twice (23) also where it was defined first,
// else 0.
#[derive(Drop)]
pub struct Refusal {
    pub number: u8,
    pub place: usize,
    pub first: usize,
}

// A varint that was read: its value, where it ends, and whether its form was the shortest.
#[derive(Drop)]
pub struct Varint {
    pub value: u64,
    pub next: usize,
    pub shortest: bool,
}

// The numbers of document 01's table, and of document 02: 9, 41 to 43 and 65. They stay numbers, since `refused` (`Outcome.antt`),
// `verdict` and each theorem that names a refusal speak of numbers, and `values::read_name` takes any.
impl Refusal {
    pub const PAST_END: u8 = 1;

    pub const TENTH_BYTE: u8 = 2;

    pub const BAD_TAG: u8 = 3;

    pub const WRONG_WIRE: u8 = 4;

    pub const REPEATED: u8 = 5;

    pub const TOO_DEEP: u8 = 6;

    pub const MODEL_TOO_LARGE: u8 = 7;

    pub const LIST_UNSOUND: u8 = 8;

    pub const PADDED: u8 = 9;

    pub const BAD_IR_VERSION: u8 = 10;

    pub const NO_GRAPH: u8 = 11;

    pub const NO_OPSET_IMPORT: u8 = 12;

    pub const IMPORTED_TWICE: u8 = 13;

    pub const VERSION_NOT_LISTED: u8 = 14;

    pub const SPARSE_INITIALIZER: u8 = 16;

    pub const GRAPH_NAME_EMPTY: u8 = 20;

    pub const NOT_UTF8: u8 = 21;

    pub const NAME_EMPTY: u8 = 22;

    pub const ALREADY_VISIBLE: u8 = 23;

    pub const NO_TENSOR_TYPE: u8 = 24;

    pub const BAD_ELEM_TYPE: u8 = 25;

    pub const BAD_DATA_TYPE: u8 = 26;

    pub const OP_TYPE_EMPTY: u8 = 27;

    pub const NOT_IMPORTED: u8 = 28;

    pub const NODE_NAME_TWICE: u8 = 29;

    pub const INPUT_NOT_VISIBLE: u8 = 30;

    pub const ATTRIBUTE_TWICE: u8 = 31;

    pub const BAD_VALUE: u8 = 32;

    pub const UNRESOLVED_REFERENCE: u8 = 33;

    pub const NO_OUTPUT: u8 = 34;

    pub const OUTPUT_NOT_VISIBLE: u8 = 35;

    pub const NO_SHAPE: u8 = 37;

    pub const NEGATIVE_DIM: u8 = 38;

    pub const CELLS_FULL: u8 = 40;

    pub const FUNCTION_TWICE: u8 = 41;

    pub const FUNCTION_ATTRIBUTE_TWICE: u8 = 42;

    pub const INITIALIZER_NOT_INPUT: u8 = 43;

    pub const TOO_FEW_EXTRA: u8 = 65;
}
