//! The warnings of a load as JSON.
ghost use Rattle.std.specs.Prelude.{◌≡◌, [], IfOk, map, string_bytes};
ghost use Rattle.serde_json.specs.Data.{null, string};
ghost use Rattle.serde_json.specs.View.{view};
ghost use Rattle.nextest_sources.specs.Sources.{source_view};
ghost use Rattle.nextest_sources.specs.WarningsView.{warning_view, warnings_view};
ghost use Rattle.rinqebo_report.specs.declared.codes.code.Code.TheVariants.{EmptyScriptRule, OldScriptTable};
ghost use Rattle.rinqebo_objects.specs.WarningObjects.{warning_data, warning_of, warnings_data};
ghost use Rattle.rinqebo_report.specs.Documents.{count_data, list_data};

use crate::values::names_json;
use nextest_sources::{ConfigSource, ConfigWarning, DefaultConfigWarnings};
use rinqebo_report::Code;
use serde_json::{Value, json};
use std::alloc::{AllocError, Global};

/// A warning of a code about a file, with names.
fn names_warning(
    alloc: Global,
    code: Code,
    source: &ConfigSource,
    names: &[String],
) -> Result<Value, AllocError>
    ensures { IfOk result (λ value. view value
        ≡ warning_of code (source_view source.now) (map string_bytes names.now) null null) }
{
    let names = names_json(alloc, names)?;
    json!(in alloc; {
        "code": code.word(),
        "file": source.path().absolute_path(),
        "names": names,
        "profile": null,
        "count": null
    })
}

/// A warning of scripts under the old key.
fn old_scripts_warning(alloc: Global, source: &ConfigSource) -> Result<Value, AllocError>
    ensures { IfOk result (λ value. view value
        ≡ warning_of OldScriptTable (source_view source.now) [] null null) }
{
    json!(in alloc; {
        "code": Code::OldScriptTable.word(),
        "file": source.path().absolute_path(),
        "names": [],
        "profile": null,
        "count": null
    })
}

/// A warning of so many script rules of a profile that name no script.
fn empty_rules_warning(
    alloc: Global,
    source: &ConfigSource,
    profile: &str,
    count: usize,
) -> Result<Value, AllocError>
    ensures { IfOk result (λ value. view value ≡ warning_of EmptyScriptRule
        (source_view source.now) [] (string profile.now) (count_data count)) }
{
    json!(in alloc; {
        "code": Code::EmptyScriptRule.word(),
        "file": source.path().absolute_path(),
        "names": [],
        "profile": profile,
        "count": count
    })
}

/// A warning.
fn warning_json(alloc: Global, warning: &ConfigWarning) -> Result<Value, AllocError>
    ensures { IfOk result (λ value. view value ≡ warning_data (warning_view warning.now)) }
{
    match warning {
        ConfigWarning::UnknownConfigKeys { source, paths } => {
            names_warning(alloc, Code::UnknownKey, source, paths)
        }
        ConfigWarning::UnknownReservedProfiles { source, names } => {
            names_warning(alloc, Code::ReservedProfile, source, names)
        }
        ConfigWarning::DeprecatedScriptConfig { source } => old_scripts_warning(alloc, source),
        ConfigWarning::EmptyScriptSections {
            source,
            profile,
            count,
        } => empty_rules_warning(alloc, source, profile.as_str(), *count),
    }
}

/// Warnings, in their order.
fn list_json(alloc: Global, warnings: &[ConfigWarning]) -> Result<Value, AllocError>
    ensures { IfOk result (λ value. view value
        ≡ list_data (λ warning. warning_data (warning_view warning)) warnings.now) }
{
    let mut list = Vec::new(alloc);
    for warning in warnings {
        list.push(warning_json(alloc, warning)?)?;
    }
    Ok(Value::Array(list))
}

/// The warnings of a load, in their order.
pub(crate) fn warnings_json(
    alloc: Global,
    warnings: &DefaultConfigWarnings,
) -> Result<Value, AllocError>
    ensures { IfOk result (λ value. view value ≡ warnings_data (warnings_view warnings.now)) }
{
    let list = list_json(alloc, warnings.warnings())?;
    Ok(list)
}
