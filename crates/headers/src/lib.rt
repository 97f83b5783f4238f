// What a model says of itself, and names that stood earlier in a list: found by a listing, or read again where they stand.
#![tactic(auto)]

mod earlier;
mod headers;
mod imports;
mod wholes;

pub use earlier::{any_before, is_earlier, is_earlier_field, is_listed, list_name};
pub use headers::header;
pub use imports::{Imports, is_imported, opset_imports};
pub use wholes::{has, model_outline, whole};
