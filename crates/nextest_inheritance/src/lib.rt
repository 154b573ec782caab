//! Inheritance of profiles: what is wrong with the parents that they write, and the chain of a
//! profile.
//!
//! A profile is anything that may write the name of a parent. No file is known here, and no field
//! of a profile.
#![tactic(auto)]

mod chain;
mod cycles;
mod error;
mod inherits;
mod laws;
mod names;
mod parents;

pub use chain::chain_of;
pub use error::InheritsError;
pub use inherits::{Inherits, parent_of};
pub use laws::{law_each_has_one_chain, law_faults, law_one_chain_at_most};
pub use names::{DEFAULT_MIRI_PROFILE, DEFAULT_PROFILE, is_reserved};
pub use parents::inheritance_errors;
