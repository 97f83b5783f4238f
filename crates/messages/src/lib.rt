// The rules of the second walk that look at an attribute, or at the head of a node, and need no scope; what surrounds a graph; and the attributes of a function.
#![tactic(auto)]

mod attributes;
mod contexts;
mod nodes;
mod references;

pub use attributes::attribute_rules;
pub use contexts::{Owner, Surroundings};
pub use nodes::node_head;
pub use references::is_attribute;
