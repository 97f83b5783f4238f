// A function: its body, and the function as a whole. These functions pass on to each other what the cells hold, by their `requires`; `gate` is what others
// call.
#![tactic(auto)]

mod bodies;
mod functions;
mod inputs;
mod outputs;

pub use functions::function;
