//! The shape of a configuration file as data, the JSON schema that says it to editors, and all
//! faults of the values of a file (`faults`).
#![tactic(auto)]

mod about;
mod expression;
mod faults;
mod file;
mod keys;
mod laws;
mod page;
mod parts;
mod profile;
mod reports;
mod rules;
mod scripts;
mod shape;
mod values;

pub use faults::{FoundFault, file_faults, unknown_keys};
pub use file::file_shape;
pub use keys::keys_of;
pub use laws::{law_keys, law_schema, law_values};
pub use page::{json_schema, schema_page};
pub use shape::{Field, Pattern, Shape, TextShape};
