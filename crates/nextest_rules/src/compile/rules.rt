//! Overrides and script rules: what the engines make of their texts, and what is wrong with them.
ghost use Rattle.std.specs.Prelude.{◌≡◌, ◌++◌, map, is_some, ◌||◌, IfOk, OnOk, option_map, string_bytes};
ghost use Rattle.nextest_engines.specs.Readings.{readings_view};
ghost use Rattle.nextest_engines.specs.declared.queries.FiltersetKind.TheVariants.{OverrideFilter, DefaultFilter};
ghost use Rattle.nextest_sources.specs.Errors.{compile_cause_view, compile_error_view, section_view};
ghost use Rattle.nextest_sources.specs.Sources.{source_view};
ghost use Rattle.nextest_tables.specs.View.{override_view, platform_view, script_rule_table_view};
ghost use Rattle.nextest_rules.specs.CompileFaults as faults;
ghost use Rattle.nextest_rules.specs.CompileFaults.{fault_in, override_cause, override_cause_at, override_faults, override_refusals, script_rule_cause, script_rule_cause_at, script_rule_faults, script_rule_refusals};
ghost use Rattle.nextest_rules.specs.Meaning.{override_meaning, script_rule_meaning};
ghost use Rattle.nextest_rules.specs.Refusals.{refusals_view};
ghost use Rattle.nextest_rules.specs.Rules.{filter_meaning, spec_meaning, override_rule, override_rules, script_rule};
ghost use Rattle.nextest_rules.specs.View as view;
ghost use Rattle.nextest_rules.specs.View.{id_view, override_rule_view, script_rule_id_view};

use crate::compile::texts::{Refusals, read_filter, read_platforms, with_text};
use crate::overrides::{
    CompiledOverride, CompiledProfileScripts, OverrideId, PlatformSpecs, ScriptRuleId,
};
use nextest_engines::{Filters, FiltersetKind, ParseContext, Specs};
use nextest_sources::{
    ConfigCompileError, ConfigCompileErrorKind, ConfigCompileSection, ConfigSource,
};
use nextest_tables::{OverrideTable, PlatformStrings, ScriptRuleTable};
use std::alloc::{AllocError, Global};

/// Whether a rule has a host, a target or a filter.
fn has_constraint(platform: &PlatformStrings, filter: &Option<String>) -> bool
    ensures { result ≡ faults.has_constraint (platform_view platform.now)
        (option_map string_bytes filter.now) }
{
    platform.host.is_some() || platform.target.is_some() || filter.is_some()
}

/// What is wrong with an override whose texts are refused so.
fn override_error(table: &OverrideTable, refusals: Refusals) -> Option<ConfigCompileErrorKind>
    ensures { option_map compile_cause_view result
        ≡ override_cause_at (override_view table.now) (refusals_view refusals) }
{
    if !has_constraint(&table.platform, &table.filter) {
        return Some(ConfigCompileErrorKind::ConstraintsNotSpecified {
            default_filter_specified: table.default_filter.is_some(),
        });
    }
    if let Some(error) = refusals.into_error() {
        return Some(error);
    }
    if table.filter.is_some() && table.default_filter.is_some() {
        return Some(ConfigCompileErrorKind::FilterAndDefaultFilterSpecified);
    }
    None
}

/// What is wrong with a script rule whose texts are refused so.
fn script_rule_error(table: &ScriptRuleTable, refusals: Refusals) -> Option<ConfigCompileErrorKind>
    ensures { option_map compile_cause_view result
        ≡ script_rule_cause_at (script_rule_table_view table.now) (refusals_view refusals) }
{
    if !has_constraint(&table.platform, &table.filter) {
        return Some(ConfigCompileErrorKind::ConstraintsNotSpecified {
            default_filter_specified: false,
        });
    }
    refusals.into_error()
}

/// What the engines make of the texts of an override.
#[derive(Drop)]
struct ReadOverride<F: Filters, S: Specs> {
    platforms: PlatformSpecs<S>,
    filter: Option<F::Expr>,
    default_filter: Option<F::Expr>,
    refusals: Refusals,
}

/// Reads the texts of an override.
fn read_override<F: Filters, S: Specs>(
    alloc: Global,
    pcx: &ParseContext<'_, F, S>,
    table: &OverrideTable,
) -> Result<ReadOverride<F, S>, AllocError>
    ensures host { let engines = readings_view F.Filters S.Specs pcx.now in
        IfOk result (λ read. option_map S.spec_meaning read.platforms.host
        ≡ spec_meaning engines (override_view table.now).platform.host) }
    ensures target { let engines = readings_view F.Filters S.Specs pcx.now in
        IfOk result (λ read. option_map S.spec_meaning read.platforms.target
        ≡ spec_meaning engines (override_view table.now).platform.target) }
    ensures filter { let engines = readings_view F.Filters S.Specs pcx.now in
        IfOk result (λ read. option_map F.meaning read.filter
        ≡ filter_meaning engines OverrideFilter (override_view table.now).filter) }
    ensures default_filter { let engines = readings_view F.Filters S.Specs pcx.now in
        IfOk result (λ read. option_map F.meaning read.default_filter
        ≡ filter_meaning engines DefaultFilter (override_view table.now).default_filter) }
    ensures refusals { let engines = readings_view F.Filters S.Specs pcx.now in
        IfOk result (λ read. refusals_view read.refusals
        ≡ override_refusals engines (override_view table.now)) }
{
    let (platforms, mut refusals) = read_platforms(alloc, pcx.specs, &table.platform)?;
    let kind = FiltersetKind::OverrideFilter;
    let (filter, refusal) = read_filter(alloc, pcx.filters, kind, &table.filter)?;
    refusals.filter = refusal;
    let kind = FiltersetKind::DefaultFilter;
    let (default_filter, refusal) = read_filter(alloc, pcx.filters, kind, &table.default_filter)?;
    refusals.default_filter = refusal;
    Ok(ReadOverride {
        platforms,
        filter,
        default_filter,
        refusals,
    })
}

/// The rule of an override, and what is wrong with it. A text that is refused counts as none.
pub(crate) fn compile_override<F: Filters, S: Specs>(
    alloc: Global,
    pcx: &ParseContext<'_, F, S>,
    id: OverrideId,
    table: OverrideTable,
) -> Result<(CompiledOverride<F, S>, Option<ConfigCompileErrorKind>), AllocError>
    ensures rule { let engines = readings_view F.Filters S.Specs pcx.now in
        IfOk result (λ made.
        override_meaning F.meaning S.spec_meaning (override_rule_view made.0)
        ≡ override_rule engines (id_view id) (override_view table)) }
    ensures error { let engines = readings_view F.Filters S.Specs pcx.now in
        IfOk result (λ made. option_map compile_cause_view made.1
        ≡ override_cause engines (override_view table)) }
{
    let read = read_override(alloc, pcx, &table)?;
    let ReadOverride {
        platforms,
        filter,
        default_filter,
        refusals,
    } = read;
    let error = override_error(&table, refusals);
    let OverrideTable {
        settings,
        default_filter: text,
        ..
    } = table;
    let rule = CompiledOverride {
        id,
        platforms,
        filter,
        default_filter: with_text(default_filter, text),
        settings,
    };
    Ok((rule, error))
}

/// The rule of a script rule, and what is wrong with it. A text that is refused counts as none.
pub(crate) fn compile_script_rule<F: Filters, S: Specs>(
    alloc: Global,
    pcx: &ParseContext<'_, F, S>,
    id: ScriptRuleId,
    table: ScriptRuleTable,
) -> Result<(CompiledProfileScripts<F, S>, Option<ConfigCompileErrorKind>), AllocError>
    ensures rule { let engines = readings_view F.Filters S.Specs pcx.now in
        IfOk result (λ made.
        script_rule_meaning F.meaning S.spec_meaning (view.script_rule_view made.0)
        ≡ script_rule engines (script_rule_id_view id) (script_rule_table_view table)) }
    ensures error { let engines = readings_view F.Filters S.Specs pcx.now in
        IfOk result (λ made. option_map compile_cause_view made.1
        ≡ script_rule_cause engines (script_rule_table_view table)) }
{
    let (platforms, mut refusals) = read_platforms(alloc, pcx.specs, &table.platform)?;
    let kind = FiltersetKind::DefaultFilter;
    let (filter, refusal) = read_filter(alloc, pcx.filters, kind, &table.filter)?;
    refusals.filter = refusal;
    let error = script_rule_error(&table, refusals);
    let ScriptRuleTable { scripts, .. } = table;
    let rule = CompiledProfileScripts {
        id,
        platforms,
        filter,
        scripts,
    };
    Ok((rule, error))
}

/// The id of an override.
pub(crate) fn override_id(
    alloc: Global,
    source: &ConfigSource,
    profile: &str,
    index: usize,
) -> Result<OverrideId, AllocError>
    ensures { IfOk result (λ id. id_view id
        ≡ record { source = source_view source.now; profile = profile.now; index = index }) }
{
    Ok(OverrideId {
        config_source: source.clone()?,
        profile_name: String::from_str(alloc, profile)?,
        index,
    })
}

/// The id of a script rule.
pub(crate) fn script_rule_id(
    alloc: Global,
    source: &ConfigSource,
    profile: &str,
    index: usize,
) -> Result<ScriptRuleId, AllocError>
    ensures { IfOk result (λ id. script_rule_id_view id
        ≡ record { source = source_view source.now; profile = profile.now; index = index }) }
{
    Ok(ScriptRuleId {
        config_source: source.clone()?,
        profile_name: String::from_str(alloc, profile)?,
        index,
    })
}

/// Adds what is wrong with a section of a profile, if anything is.
pub(crate) fn add_error(
    alloc: Global,
    errors: &mut Vec<ConfigCompileError>,
    profile: &str,
    section: ConfigCompileSection,
    error: Option<ConfigCompileErrorKind>,
) -> Result<(), AllocError>
    ensures { OnOk result (map compile_error_view errors.new.items
        ≡ map compile_error_view errors.old.items
        ++ fault_in profile.now (section_view section) (option_map compile_cause_view error)) }
{
    let Some(kind) = error else {
        return Ok(());
    };
    let profile_name = String::from_str(alloc, profile)?;
    errors.push(ConfigCompileError {
        profile_name,
        section,
        kind,
    })?;
    Ok(())
}
