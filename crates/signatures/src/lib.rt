// What a function says before its body: its name, its attributes and their defaults, its imports. Names are listed in lent cells; these functions pass on
// to each other what the cells hold, by their `requires`; `gate` is what others call.
#![tactic(auto)]

mod attributes;
mod defaults;
mod signatures;

pub use signatures::{Declaration, read_signature};
