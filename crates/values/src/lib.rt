// What a message holds that needs nothing around it: its name, a declared type, the value of an attribute. And the answers of the rules.
#![tactic(auto)]

mod carriers;
mod names;
pub mod numbers;
mod tallies;
mod types;

pub use carriers::{carrier_of, is_bad_default, is_bad_reference, is_bad_value, is_body};
pub use names::{read_name, test_name};
pub use tallies::{adding, tested};
pub use types::{is_element, main_type};
