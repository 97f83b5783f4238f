// The cycle of the second walk: graph, node and attribute.
#![tactic(auto)]

mod graphs;

pub use graphs::{graph, node};
