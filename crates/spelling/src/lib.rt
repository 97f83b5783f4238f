// The test of a name: whether it is an identifier, and else whether it is well-formed UTF-8. specs/Identifier.antt and specs/Utf8.antt first.
#![tactic(auto)]

mod identifiers;
mod spellings;
mod utf8;

pub use spellings::{Spelling, spell};
