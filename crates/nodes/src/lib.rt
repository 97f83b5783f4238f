// What a node and an attribute do beside what they hold, and what a graph does after its nodes. These functions pass on to each other what
// the cells hold, by their `requires`; `gate` is what others call.
#![tactic(auto)]

mod nodes;
mod outputs;

pub use nodes::{attribute_head, closing, node_rules};
pub use outputs::graph_outputs;
