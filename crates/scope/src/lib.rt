// The scope of the second walk in lent cells, and what extra cells remember of it. These functions pass on to each other what the cells hold, by
// their `requires`; `gate` is what others call.
#![tactic(auto)]

mod remembered;
mod scopes;

pub use remembered::{Index, define, list, sees, sees_since};
pub use scopes::{Progress, clear, clear_both, counting, leaving, room, with_odd};
