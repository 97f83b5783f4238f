// The operator list: which versions of which domains the runtime has. It is read where it stands: nothing is decoded ahead, and
// an entry is known by its place. The public functions answer for any bytes. What the answers mean stands in
// specs/Operators.antt.
#![tactic(auto)]

mod domains;
mod lists;

pub use domains::{canonical, same_domain};
pub use lists::{allows, is_sound};
