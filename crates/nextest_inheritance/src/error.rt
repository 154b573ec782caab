//! Why the parents of profiles are refused.
use std::fmt;
use thiserror::Error;

/// What is wrong with the parents that profiles write.
#[derive(Debug, Drop, Error)]
pub enum InheritsError {
    /// `default`, or a profile whose name begins `default-`, writes a parent.
    #[error("profile `{0}` may not inherit from another profile")]
    DefaultProfileInheritance(String),

    /// A profile names itself as its parent.
    #[error("profile `{0}` inherits from itself")]
    SelfReferentialInheritance(String),

    /// A profile, the first, names a parent, the second, that is neither in its file nor in a lower
    /// one.
    #[error("profile `{0}` inherits from `{1}`, which is not known")]
    UnknownInheritance(String, String),

    /// Profiles inherit from one another in cycles: all of them, each from its least name along
    /// parents, in the order of these.
    #[error("profiles inherit in cycles: {cycles}", cycles = Cycles(.0.as_slice()))]
    InheritanceCycle(Vec<Vec<String>>),
}

/// Cycles, as a refusal shows them.
#[derive(Drop)]
struct Cycles<'a>(&'a [Vec<String>]);

impl fmt::Display for Cycles<'_> {
    fn fmt<W: fmt::Write>(&self, f: &mut fmt::Formatter<W>) -> fmt::Result {
        for (index, cycle) in self.0.iter().enumerate() {
            f.write_str(if index == 0 { "[" } else { ", [" })?;
            for (place, name) in cycle.iter().enumerate() {
                write!(f, "{}{name}", if place == 0 { "" } else { ", " })?;
            }
            f.write_str("]")?;
        }
        Ok(())
    }
}
