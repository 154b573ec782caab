//! The checks of a load, and the sources on which its refusals depend.
ghost use Rattle.std.specs.Prelude.{◌≡◌};
ghost use Rattle.rinqebo_faults.specs.Checks.{check_name, check_of, check_place, scope_of};

use nextest_sources::ConfigParseErrorKind;

/// A check that a load makes of a source, in the order in which it makes them; the last one is of
/// all sources together.
#[derive(Clone, Copy, PartialEq, Eq, PartialOrd, Ord)]
pub enum Check {
    /// Values and keys.
    Elements,
    /// The names of groups and scripts that the source defines.
    Names,
    /// Experimental features, and the names of scripts.
    Features,
    /// The parents of profiles.
    Inheritance,
    /// Filters and platforms.
    Compilation,
    /// The groups that overrides set.
    Groups,
    /// The scripts that rules name.
    ScriptRules,
    /// The files merged.
    MergedTree,
}

/// All checks, in their order.
pub const CHECKS: [Check; 8] = [
    Check::Elements,
    Check::Names,
    Check::Features,
    Check::Inheritance,
    Check::Compilation,
    Check::Groups,
    Check::ScriptRules,
    Check::MergedTree,
];

impl Check {
    /// The name that a report has for it.
    pub fn name(self) -> &'static str
        ensures { result.now ≡ check_name self }
    {
        match self {
            Check::Elements => "elements",
            Check::Names => "names",
            Check::Features => "features",
            Check::Inheritance => "inheritance",
            Check::Compilation => "compilation",
            Check::Groups => "groups",
            Check::ScriptRules => "script rules",
            Check::MergedTree => "merged tree",
        }
    }

    /// Returns its place among all checks, from 0.
    pub fn place(self) -> usize
        ensures { result ≡ check_place self }
    {
        match self {
            Check::Elements => 0,
            Check::Names => 1,
            Check::Features => 2,
            Check::Inheritance => 3,
            Check::Compilation => 4,
            Check::Groups => 5,
            Check::ScriptRules => 6,
            Check::MergedTree => 7,
        }
    }
}

/// The sources on which a refusal of a source depends.
#[derive(Clone, Copy, PartialEq, Eq)]
pub enum Scope {
    /// The source alone.
    Own,
    /// The source and those below it.
    WithLower,
}

/// The check that fails with a refusal of this kind: none where the source could not be read.
pub fn check_of(kind: &ConfigParseErrorKind) -> Option<Check>
    ensures { result ≡ check_of kind.now }
{
    match kind {
        ConfigParseErrorKind::DuplicateToolConfigFile { .. }
        | ConfigParseErrorKind::ReadError(_)
        | ConfigParseErrorKind::BuildError(_)
        | ConfigParseErrorKind::Memory => None,
        ConfigParseErrorKind::DeserializeError(_) => Some(Check::Elements),
        ConfigParseErrorKind::InvalidTestGroupsDefined(_)
        | ConfigParseErrorKind::InvalidTestGroupsDefinedByTool(_)
        | ConfigParseErrorKind::InvalidTestGroupsDefinedByOrganisation(_)
        | ConfigParseErrorKind::BothScriptAndScriptsDefined => Some(Check::Names),
        ConfigParseErrorKind::ExperimentalFeaturesNotEnabled { .. }
        | ConfigParseErrorKind::DuplicateConfigScriptNames(_)
        | ConfigParseErrorKind::InvalidConfigScriptsDefined(_)
        | ConfigParseErrorKind::InvalidConfigScriptsDefinedByTool(_)
        | ConfigParseErrorKind::InvalidConfigScriptsDefinedByOrganisation(_) => {
            Some(Check::Features)
        }
        ConfigParseErrorKind::InheritanceErrors(_) => Some(Check::Inheritance),
        ConfigParseErrorKind::CompileErrors(_) => Some(Check::Compilation),
        ConfigParseErrorKind::UnknownTestGroups { .. } => Some(Check::Groups),
        ConfigParseErrorKind::ProfileScriptErrors { .. } => Some(Check::ScriptRules),
    }
}

/// The sources on which a refusal of this kind depends.
pub fn scope_of(kind: &ConfigParseErrorKind) -> Scope
    ensures { result ≡ scope_of kind.now }
{
    match kind {
        ConfigParseErrorKind::ReadError(_)
        | ConfigParseErrorKind::BuildError(_)
        | ConfigParseErrorKind::DeserializeError(_)
        | ConfigParseErrorKind::InvalidTestGroupsDefined(_)
        | ConfigParseErrorKind::InvalidTestGroupsDefinedByTool(_)
        | ConfigParseErrorKind::InvalidTestGroupsDefinedByOrganisation(_)
        | ConfigParseErrorKind::BothScriptAndScriptsDefined
        | ConfigParseErrorKind::ExperimentalFeaturesNotEnabled { .. }
        | ConfigParseErrorKind::DuplicateConfigScriptNames(_)
        | ConfigParseErrorKind::InvalidConfigScriptsDefined(_)
        | ConfigParseErrorKind::InvalidConfigScriptsDefinedByTool(_)
        | ConfigParseErrorKind::InvalidConfigScriptsDefinedByOrganisation(_)
        | ConfigParseErrorKind::CompileErrors(_) => Scope::Own,
        ConfigParseErrorKind::DuplicateToolConfigFile { .. }
        | ConfigParseErrorKind::InheritanceErrors(_)
        | ConfigParseErrorKind::UnknownTestGroups { .. }
        | ConfigParseErrorKind::ProfileScriptErrors { .. }
        | ConfigParseErrorKind::Memory => Scope::WithLower,
    }
}
