//! All faults of the elements of a file, each with the steps that lead to it, and its unknown keys.
//! A load refuses a file for the first of the faults.

mod across;
mod element_places;
mod file;
mod found;
mod leaf;
mod listing;
mod parts;
mod place;
mod profile_places;
mod rule_places;
mod script_places;
mod unknown;
mod values;

pub use file::{file_faults, unknown_keys};
pub use found::FoundFault;
