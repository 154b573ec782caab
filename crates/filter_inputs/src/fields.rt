//! Fields of JSON objects. A field is read as the type of value that is wanted at its path, or the
//! error reports the kind of value that was found instead.

mod field;
mod kind;

pub use field::{JsonField, Misfit};
pub use kind::{Kind, Wanted};
