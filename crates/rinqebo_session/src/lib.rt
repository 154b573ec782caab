//! A configuration that is loaded once and queried often: the session of a runner.
//!
//! A [`Session`] holds what a request's files denote. A [`Profile`] is made of it, and returns the
//! settings of each test as numbers, with no memory of its own.
#![tactic(auto)]

mod copies;
mod failure;
mod features;
mod loading;
mod named;
mod needs;
mod objects;
mod profile;
mod session;
mod settings;
pub mod status;
mod test;
pub mod version;

pub use copies::copy_out;
pub use failure::{Failure, OpenFailure};
pub use features::features_of;
pub use loading::{Config, Loaded};
pub use needs::Needs;
pub use profile::{Group, Opened, Profile};
pub use session::Session;
pub use settings::SettingNumbers;
pub use test::{CallerTest, TestFault};
