//! The language of platforms: triples and `cfg(..)` expressions, read and evaluated, and platforms
//! as data (`platforms`).
//!
//! A text is read to a [`TargetSpec`], whose value on a [`Platform`] is false, unknown or true.
#![tactic(auto)]

mod display;
mod engine;
mod expression;
mod fault;
mod keys;
pub mod laws;
mod leaves;
mod marks;
mod messages;
pub mod platforms;
mod reading;
mod spec;
mod values;

pub use engine::TargetSpecs;
pub use expression::{Expression, Function, Leaf, TargetSpec};
pub use fault::{Expected, FaultKind, Span, TargetSpecFault};
pub use platforms::{CfgLine, Platform, PlatformFault, TargetRow, targets};
pub use spec::TargetSpecError;
