//! What is wrong with the scripts that script rules name.
use crate::error::message::{separate, write_each};
use nextest_scripts::{ProfileScriptType, ScriptId, ScriptType};
use std::fmt;
use thiserror::Error;

/// A rule names a script that neither its own file nor a lower one defines.
#[derive(Debug, Drop, Error)]
#[error("profile `{profile_name}`: unknown script `{name}`")]
pub struct ProfileUnknownScriptError {
    /// The profile of the rule.
    pub profile_name: String,
    /// The script.
    pub name: ScriptId,
}

/// A rule names a script for a use that its kind does not serve.
#[derive(Debug, Drop, Error)]
#[error("profile `{profile_name}`: script `{name}` is named as {attempted} and is a {actual} script")]
pub struct ProfileWrongConfigScriptTypeError {
    /// The profile of the rule.
    pub profile_name: String,
    /// The script.
    pub name: ScriptId,
    /// The use that the rule names it for.
    pub attempted: ProfileScriptType,
    /// What it is defined as.
    pub actual: ScriptType,
}

/// A rule with a list wrapper has a filter that can only be decided for a test.
#[derive(Debug, Drop)]
pub struct ProfileListScriptUsesRunFiltersError {
    /// The profile of the rule.
    pub profile_name: String,
    /// The list wrapper.
    pub name: ScriptId,
    /// The parts of the filter that only a test can decide, as they are written.
    pub filters: Vec<String>,
}

impl fmt::Display for ProfileListScriptUsesRunFiltersError {
    fn fmt<W: fmt::Write>(&self, f: &mut fmt::Formatter<W>) -> fmt::Result {
        write!(
            f,
            "profile `{}`: list-wrapper `{}` stands beside filters \
             that only a running test answers",
            self.profile_name, self.name
        )?;
        for (index, filter) in self.filters.iter().enumerate() {
            separate(f, index)?;
            f.write_str(filter.as_str())?;
        }
        Ok(())
    }
}

impl std::error::Error for ProfileListScriptUsesRunFiltersError {}

/// All that is wrong with the scripts that the rules of a source name.
///
/// Each list is in the order of the profiles, `default` first and the others by name, then of
/// the rules, and in each rule of setup scripts, list wrapper and run wrapper.
#[derive(Debug, Drop)]
pub struct ProfileScriptErrors {
    /// The scripts that are not known.
    pub unknown_scripts: Vec<ProfileUnknownScriptError>,
    /// The scripts that are named for a use that their kind does not serve.
    pub wrong_script_types: Vec<ProfileWrongConfigScriptTypeError>,
    /// The list wrappers beside filters that only a test can decide.
    pub list_scripts_using_run_filters: Vec<ProfileListScriptUsesRunFiltersError>,
}

/// Details, each on a line behind two spaces.
impl fmt::Display for ProfileScriptErrors {
    fn fmt<W: fmt::Write>(&self, f: &mut fmt::Formatter<W>) -> fmt::Result {
        write_each(f, &self.unknown_scripts)?;
        write_each(f, &self.wrong_script_types)?;
        write_each(f, &self.list_scripts_using_run_filters)
    }
}

impl std::error::Error for ProfileScriptErrors {}
