// The second walk as one function, over cells that the caller holds.
#![tactic(auto)]

mod mains;
mod model_functions;
mod tables;
mod walks;

pub use walks::second_walk;
