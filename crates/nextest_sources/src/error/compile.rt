//! What does not compile: default filters, overrides and script rules.
use crate::one_line::OneLine;
use nextest_engines::Refusal;
use std::fmt;
use thiserror::Error;

/// What compilation refuses of a rule or a default filter.
#[derive(Debug, Drop)]
pub enum ConfigCompileErrorKind {
    /// The rule has neither a platform nor a filter.
    ConstraintsNotSpecified {
        /// Whether it has a default filter, which is not a constraint.
        default_filter_specified: bool,
    },
    /// The override has both a filter and a default filter.
    FilterAndDefaultFilterSpecified,
    /// The engines refuse texts of the rule.
    Parse {
        /// The refusal of the host's spec.
        host_parse_error: Option<Refusal>,
        /// The refusal of the target's spec.
        target_parse_error: Option<Refusal>,
        /// The refusal of the filter.
        filter_parse_error: Option<Refusal>,
        /// The refusal of the default filter.
        default_filter_parse_error: Option<Refusal>,
    },
}

/// Where in a profile something does not compile.
#[derive(Clone, Copy, Debug, PartialEq, Eq)]
pub enum ConfigCompileSection {
    /// The profile's own default filter.
    DefaultFilter,
    /// The override of this position, from 0.
    Override(usize),
    /// The script rule of this position, from 0.
    Script(usize),
}

/// A rule or a default filter that does not compile.
#[derive(Debug, Drop, Error)]
#[error("profile.{profile_name}.{section}: {kind}")]
pub struct ConfigCompileError {
    /// The profile.
    pub profile_name: String,
    /// Where it is in the profile.
    pub section: ConfigCompileSection,
    /// What is wrong with it.
    pub kind: ConfigCompileErrorKind,
}

impl fmt::Display for ConfigCompileSection {
    fn fmt<W: fmt::Write>(&self, f: &mut fmt::Formatter<W>) -> fmt::Result {
        match self {
            ConfigCompileSection::DefaultFilter => f.write_str("default-filter"),
            ConfigCompileSection::Override(index) => write!(f, "overrides.{index}"),
            ConfigCompileSection::Script(index) => write!(f, "scripts.{index}"),
        }
    }
}

/// Writes the refusal of an engine, if there is one, behind what it refuses.
fn write_refusal<W: fmt::Write>(
    f: &mut fmt::Formatter<W>,
    what: &str,
    refusal: &Option<Refusal>,
) -> fmt::Result {
    match refusal {
        Some(refusal) => write!(f, "; {what}: {}", OneLine(refusal.message.as_str())),
        None => Ok(()),
    }
}

impl fmt::Display for ConfigCompileErrorKind {
    fn fmt<W: fmt::Write>(&self, f: &mut fmt::Formatter<W>) -> fmt::Result {
        match self {
            ConfigCompileErrorKind::ConstraintsNotSpecified {
                default_filter_specified: false,
            } => f.write_str("at least one of `platform` and `filter` must be specified"),
            ConfigCompileErrorKind::ConstraintsNotSpecified {
                default_filter_specified: true,
            } => f.write_str(
                "for override with `default-filter`, `platform` must also be specified",
            ),
            ConfigCompileErrorKind::FilterAndDefaultFilterSpecified => {
                f.write_str("at most one of `filter` and `default-filter` must be specified")
            }
            ConfigCompileErrorKind::Parse {
                host_parse_error,
                target_parse_error,
                filter_parse_error,
                default_filter_parse_error,
            } => {
                f.write_str("not understood")?;
                write_refusal(f, "host", host_parse_error)?;
                write_refusal(f, "target", target_parse_error)?;
                write_refusal(f, "filter", filter_parse_error)?;
                write_refusal(f, "filter", default_filter_parse_error)
            }
        }
    }
}

impl std::error::Error for ConfigCompileErrorKind {}
