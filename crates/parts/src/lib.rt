// What a graph does before its nodes: its name, 16, its inputs and its initializers. These functions pass on to each other what the cells
// hold, by their `requires`; `gate` is what others call.
#![tactic(auto)]

mod initializers;
mod inputs;
mod openings;

pub use openings::opening;
