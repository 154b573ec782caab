//! The findings of the warnings of a load.
ghost use Rattle.std.specs.Prelude.{◌≡◌, ◌∷◌, [], IfOk, codes, map, string_bytes};
ghost use Rattle.nextest_places.specs.Spans.Paths as paths;
ghost use Rattle.nextest_sources.specs.Sources.{source_view};
ghost use Rattle.nextest_sources.specs.WarningsView.{warning_view, warnings_view};
ghost use Rattle.rinqebo_faults.specs.Paths.{profile_path};
ghost use Rattle.rinqebo_findings.specs.Each.{AreOfEach};
ghost use Rattle.rinqebo_findings.specs.Warnings.{is_other, other_warnings, profile_steps, ReportWarning, ReportWarningAt, ReportWarnings, source_of, WarnsOf, WarnsOfKey};

use crate::findings::{Label, SourceAt, key_warning, unknown_key_at};
use crate::given::value_at;
use crate::paths::spelled_path;
use nextest_places::Step;
use nextest_sources::{ConfigSource, ConfigWarning, DefaultConfigWarnings};
use nextest_tree::Tree;
use rinqebo_faults::{Fault, header_text, owned, profile_path};
use rinqebo_report::{Code, Finding};
use rinqebo_request::{Layer, place_of};
use std::alloc::{AllocError, Global};

/// What the findings of reserved names of profiles are called.
const RESERVED_PROFILE: Label = Label {
    code: Code::ReservedProfile,
    upstream: Some("UnknownReservedProfiles"),
};

/// What the findings of the old table of scripts are called.
const OLD_SCRIPT_TABLE: Label = Label {
    code: Code::OldScriptTable,
    upstream: Some("DeprecatedScriptConfig"),
};

/// What the findings of rules that name no script are called.
const EMPTY_SCRIPT_RULE: Label = Label {
    code: Code::EmptyScriptRule,
    upstream: Some("EmptyScriptSections"),
};

/// Warns of a key without effect, whose path a text spells.
fn unknown_key(alloc: Global, source: SourceAt<'_, '_>, path: &str) -> Result<Finding, AllocError>
    ensures { IfOk result (WarnsOfKey source.entry.layers.now source.entry.position) }
{
    let at = spelled_path(alloc, source, path, Fault::UnknownKey)?;
    Ok(unknown_key_at(alloc, source, &at)?)
}

/// Warns of a profile whose name is reserved.
fn reserved_profile(
    alloc: Global,
    source: SourceAt<'_, '_>,
    name: &str,
) -> Result<Finding, AllocError>
    ensures { IfOk result (WarnsOf source.entry.layers.now source.entry.position
        Code.ReservedProfile (profile_steps name.now)) }
{
    let expected = owned(alloc, Some("a name that does not begin with `default-`"))?;
    let message = format!(in alloc;
        "`{name}`: names of profiles that begin with `default-` are nextest's own"
    )?;
    let mut found = key_warning(
        alloc,
        RESERVED_PROFILE,
        source,
        &[Step::Key("profile"), Step::Key(name)],
        message,
    )?;
    found.expected = expected;
    Ok(found)
}

/// The header of the table that takes the place of the old table of scripts.
fn scripts_header(alloc: Global, source: SourceAt<'_, '_>) -> Result<String, AllocError> {
    if let Some(Tree::Table(scripts)) = value_at(source, &[Step::Key("script")]) {
        for name in scripts.keys() {
            let path = [
                Step::Key("scripts"),
                Step::Key("setup"),
                Step::Key(name.as_str()),
            ];
            return header_text(alloc, &path);
        }
    }
    String::from_str(alloc, "scripts.setup")
}

/// A finding alone.
fn only(alloc: Global, finding: Finding) -> Result<Vec<Finding>, AllocError>
    ensures { IfOk result (λ findings. findings.items ≡ finding ∷ []) }
{
    let mut findings = Vec::new(alloc);
    findings.push(finding)?;
    Ok(findings)
}

/// Warns of scripts under the old key.
fn old_scripts(alloc: Global, source: SourceAt<'_, '_>) -> Result<Vec<Finding>, AllocError>
    ensures { IfOk result (λ findings. AreOfEach
        (WarnsOf source.entry.layers.now source.entry.position Code.OldScriptTable)
        ((paths.key (codes "script") ∷ []) ∷ []) findings.items) }
{
    let header = scripts_header(alloc, source)?;
    let help = format!(in alloc; "write `[{header}]`")?;
    let message = String::from_str(
        alloc,
        "the table `script` is the old place of setup scripts",
    )?;
    let mut found = key_warning(
        alloc,
        OLD_SCRIPT_TABLE,
        source,
        &[Step::Key("script")],
        message,
    )?;
    found.help = Some(help);
    Ok(only(alloc, found)?)
}

/// Warns of script rules that name no script.
fn empty_rules(
    alloc: Global,
    source: SourceAt<'_, '_>,
    profile: &str,
    count: usize,
) -> Result<Vec<Finding>, AllocError>
    ensures { IfOk result (λ findings. AreOfEach
        (WarnsOf source.entry.layers.now source.entry.position Code.EmptyScriptRule)
        (profile_path profile.now (codes "scripts") ∷ []) findings.items) }
{
    let expected = owned(alloc, Some("`setup`, `list-wrapper` or `run-wrapper`"))?;
    let message = format!(in alloc; "rules that name no script: {count}")?;
    let mut found = key_warning(
        alloc,
        EMPTY_SCRIPT_RULE,
        source,
        &profile_path(profile, "scripts"),
        message,
    )?;
    found.expected = expected;
    Ok(only(alloc, found)?)
}

/// The source that a warning is about.
fn source_of(warning: &ConfigWarning) -> &ConfigSource
    ensures { source_view result.now ≡ source_of (warning_view warning.now) }
{
    match warning {
        ConfigWarning::UnknownConfigKeys { source, .. }
        | ConfigWarning::UnknownReservedProfiles { source, .. }
        | ConfigWarning::DeprecatedScriptConfig { source }
        | ConfigWarning::EmptyScriptSections { source, .. } => source,
    }
}

/// The findings of unknown keys, whose paths texts spell.
fn unknown_keys(
    alloc: Global,
    source: SourceAt<'_, '_>,
    paths: &[String],
) -> Result<Vec<Finding>, AllocError>
    ensures { IfOk result (λ findings. AreOfEach
        (λ key. WarnsOfKey source.entry.layers.now source.entry.position)
        (map string_bytes paths.now) findings.items) }
{
    let mut findings = Vec::new(alloc);
    for path in paths {
        findings.push(unknown_key(alloc, source, path.as_str())?)?;
    }
    Ok(findings)
}

/// The findings of profiles whose names are reserved.
fn reserved_profiles(
    alloc: Global,
    source: SourceAt<'_, '_>,
    names: &[String],
) -> Result<Vec<Finding>, AllocError>
    ensures { IfOk result (λ findings. AreOfEach (λ name. WarnsOf source.entry.layers.now
        source.entry.position Code.ReservedProfile (profile_steps name))
        (map string_bytes names.now) findings.items) }
{
    let mut findings = Vec::new(alloc);
    for name in names {
        findings.push(reserved_profile(alloc, source, name.as_str())?)?;
    }
    Ok(findings)
}

/// The findings of a warning of a source.
fn findings_at(
    alloc: Global,
    source: SourceAt<'_, '_>,
    warning: &ConfigWarning,
) -> Result<Vec<Finding>, AllocError>
    ensures { IfOk result (λ findings. ReportWarningAt source.entry.layers.now
        source.entry.position (warning_view warning.now) findings.items) }
{
    match warning {
        ConfigWarning::UnknownConfigKeys { paths, .. } => Ok(unknown_keys(alloc, source, paths)?),
        ConfigWarning::UnknownReservedProfiles { names, .. } => {
            Ok(reserved_profiles(alloc, source, names)?)
        }
        ConfigWarning::DeprecatedScriptConfig { .. } => Ok(old_scripts(alloc, source)?),
        ConfigWarning::EmptyScriptSections { profile, count, .. } => {
            Ok(empty_rules(alloc, source, profile.as_str(), *count)?)
        }
    }
}

/// The findings of a warning.
fn findings_of(
    alloc: Global,
    layers: &[Layer],
    warning: &ConfigWarning,
) -> Result<Vec<Finding>, AllocError>
    ensures { IfOk result (λ findings. ReportWarning layers.now (warning_view warning.now)
        findings.items) }
{
    let position = place_of(layers, source_of(warning));
    Ok(findings_at(alloc, SourceAt { layers, position }, warning)?)
}

/// Whether a warning is about other things than unknown keys.
fn is_other(warning: &ConfigWarning) -> bool
    ensures { result ≡ is_other (warning_view warning.now) }
{
    !matches!(warning, ConfigWarning::UnknownConfigKeys { .. })
}

/// The findings of a warning that is not about unknown keys.
fn other_findings_of(
    alloc: Global,
    layers: &[Layer],
    warning: &ConfigWarning,
) -> Result<Vec<Finding>, AllocError>
    ensures { IfOk result (λ findings. ReportWarnings layers.now
        (other_warnings (warning_view warning.now ∷ [])) findings.items) }
{
    if !is_other(warning) {
        return Ok(Vec::new(alloc));
    }
    Ok(findings_of(alloc, layers, warning)?)
}

/// The findings of some warnings other than those of unknown keys, in their order.
fn other_findings(
    alloc: Global,
    layers: &[Layer],
    warnings: &[ConfigWarning],
) -> Result<Vec<Finding>, AllocError>
    ensures { IfOk result (λ findings. ReportWarnings layers.now
        (other_warnings (map warning_view warnings.now)) findings.items) }
{
    let mut findings = Vec::new(alloc);
    for warning in warnings {
        let mut more = other_findings_of(alloc, layers, warning)?;
        findings.append(&mut more)?;
    }
    Ok(findings)
}

/// The findings of some warnings, in their order.
fn all_findings(
    alloc: Global,
    layers: &[Layer],
    warnings: &[ConfigWarning],
) -> Result<Vec<Finding>, AllocError>
    ensures { IfOk result (λ findings. ReportWarnings layers.now (map warning_view warnings.now)
        findings.items) }
{
    let mut findings = Vec::new(alloc);
    for warning in warnings {
        let mut more = findings_of(alloc, layers, warning)?;
        findings.append(&mut more)?;
    }
    Ok(findings)
}

/// The findings of warnings other than those of unknown keys, in their order.
pub fn other_warning_findings(
    alloc: Global,
    layers: &[Layer],
    warnings: &DefaultConfigWarnings,
) -> Result<Vec<Finding>, AllocError>
    ensures { IfOk result (λ findings. ReportWarnings layers.now
        (other_warnings (warnings_view warnings.now)) findings.items) }
{
    Ok(other_findings(alloc, layers, warnings.warnings())?)
}

/// The findings of warnings, in their order.
pub fn warning_findings(
    alloc: Global,
    layers: &[Layer],
    warnings: &DefaultConfigWarnings,
) -> Result<Vec<Finding>, AllocError>
    ensures { IfOk result (λ findings. ReportWarnings layers.now (warnings_view warnings.now)
        findings.items) }
{
    Ok(all_findings(alloc, layers, warnings.warnings())?)
}
