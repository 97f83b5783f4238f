// The functions of a model by who they are: whether one stood before. Lent cells find it by a hash, where they have all functions so far;
// else the functions are read again. What the cells mean stands in specs/Identified.antt.
#![tactic(auto)]

mod functions;
mod records;

pub use records::{add, is_defined};
