//! The rules of a profile, in the order of the file.
ghost use Rattle.std.specs.Prelude.{◌≡◌, ◌++◌, map, IfOk, OnOk, option_map, string_bytes};
ghost use Rattle.nextest_engines.specs.Readings.{readings_view};
ghost use Rattle.nextest_sources.specs.Causes.{in_default_filter};
ghost use Rattle.nextest_sources.specs.Errors.{compile_error_view};
ghost use Rattle.nextest_sources.specs.Sources.{source_view};
ghost use Rattle.nextest_tables.specs.View.{override_view, profile_view, script_rule_table_view};
ghost use Rattle.nextest_rules.specs.CompileFaults.{default_filter_cause, fault_in, override_faults, script_rule_faults, profile_faults};
ghost use Rattle.nextest_rules.specs.Meaning.{written_meaning, override_meaning, layer_profile_meaning, script_rule_meaning};
ghost use Rattle.nextest_rules.specs.Rules.{written_filter, layer_profile, override_rules, script_rules};
ghost use Rattle.nextest_rules.specs.View as view;
ghost use Rattle.nextest_rules.specs.View.{layer_profile_view, override_rule_view, read_filter_view};

use crate::compile::rules::{
    add_error, compile_override, compile_script_rule, override_id, script_rule_id,
};
use crate::compile::texts::{Refusals, read_filter, with_text};
use crate::overrides::{CompiledOverride, CompiledProfile, CompiledProfileScripts, ReadFilter};
use nextest_engines::{Filters, FiltersetKind, ParseContext, Specs};
use nextest_sources::{ConfigCompileError, ConfigCompileSection, ConfigSource};
use nextest_tables::{OverrideTable, ProfileTable, ScriptRuleTable};
use std::alloc::{AllocError, Global};

/// The default filter of a profile, as the engine reads it. Why it is refused is added.
fn compile_default_filter<F: Filters, S: Specs>(
    alloc: Global,
    pcx: &ParseContext<'_, F, S>,
    profile: &str,
    text: Option<String>,
    errors: &mut Vec<ConfigCompileError>,
) -> Result<Option<ReadFilter<F>>, AllocError>
    ensures filter { let engines = readings_view F.Filters S.Specs pcx.now in
        IfOk result (λ filter.
        option_map (written_meaning F.meaning) (option_map read_filter_view filter)
        ≡ written_filter engines (option_map string_bytes text)) }
    ensures errors { let engines = readings_view F.Filters S.Specs pcx.now in
        OnOk result (map compile_error_view errors.new.items
        ≡ map compile_error_view errors.old.items ++ fault_in profile.now in_default_filter
        (default_filter_cause engines (option_map string_bytes text))) }
{
    let kind = FiltersetKind::DefaultFilter;
    let (expr, refusal) = read_filter(alloc, pcx.filters, kind, &text)?;
    let refusals = Refusals {
        host: None,
        target: None,
        filter: None,
        default_filter: refusal,
    };
    let error = refusals.into_error();
    let section = ConfigCompileSection::DefaultFilter;
    add_error(alloc, errors, profile, section, error)?;
    Ok(with_text(expr, text))
}

/// The rules of the overrides of a profile. Everything that is wrong with them is added, in order.
fn compile_overrides<F: Filters, S: Specs>(
    alloc: Global,
    pcx: &ParseContext<'_, F, S>,
    source: &ConfigSource,
    profile: &str,
    tables: Vec<OverrideTable>,
    errors: &mut Vec<ConfigCompileError>,
) -> Result<Vec<CompiledOverride<F, S>>, AllocError>
    ensures rules { let engines = readings_view F.Filters S.Specs pcx.now in
        IfOk result (λ rules.
        map (override_meaning F.meaning S.spec_meaning) (map override_rule_view rules.items)
        ≡ override_rules engines (source_view source.now) profile.now
        (map override_view tables.items)) }
    ensures errors { let engines = readings_view F.Filters S.Specs pcx.now in
        OnOk result (map compile_error_view errors.new.items
        ≡ map compile_error_view errors.old.items
        ++ override_faults engines profile.now (map override_view tables.items)) }
{
    let mut rules = Vec::new(alloc);
    for (index, table) in tables.into_iter().enumerate() {
        let id = override_id(alloc, source, profile, index)?;
        let (rule, error) = compile_override(alloc, pcx, id, table)?;
        rules.push(rule)?;
        let section = ConfigCompileSection::Override(index);
        add_error(alloc, errors, profile, section, error)?;
    }
    Ok(rules)
}

/// The rules of the script rules of a profile. Everything that is wrong with them is added, in
/// order.
fn compile_script_rules<F: Filters, S: Specs>(
    alloc: Global,
    pcx: &ParseContext<'_, F, S>,
    source: &ConfigSource,
    profile: &str,
    tables: Vec<ScriptRuleTable>,
    errors: &mut Vec<ConfigCompileError>,
) -> Result<Vec<CompiledProfileScripts<F, S>>, AllocError>
    ensures rules { let engines = readings_view F.Filters S.Specs pcx.now in
        IfOk result (λ rules.
        map (script_rule_meaning F.meaning S.spec_meaning) (map view.script_rule_view rules.items)
        ≡ script_rules engines (source_view source.now) profile.now
        (map script_rule_table_view tables.items)) }
    ensures errors { let engines = readings_view F.Filters S.Specs pcx.now in
        OnOk result (map compile_error_view errors.new.items
        ≡ map compile_error_view errors.old.items
        ++ script_rule_faults engines profile.now (map script_rule_table_view tables.items)) }
{
    let mut rules = Vec::new(alloc);
    for (index, table) in tables.into_iter().enumerate() {
        let id = script_rule_id(alloc, source, profile, index)?;
        let (rule, error) = compile_script_rule(alloc, pcx, id, table)?;
        rules.push(rule)?;
        let section = ConfigCompileSection::Script(index);
        add_error(alloc, errors, profile, section, error)?;
    }
    Ok(rules)
}

/// The rules of a profile. Everything that is wrong with it is added: its default filter, its
/// overrides, its script rules.
pub(crate) fn compile_profile<F: Filters, S: Specs>(
    alloc: Global,
    pcx: &ParseContext<'_, F, S>,
    source: &ConfigSource,
    name: &str,
    table: ProfileTable,
    errors: &mut Vec<ConfigCompileError>,
) -> Result<CompiledProfile<F, S>, AllocError>
    ensures profile { let engines = readings_view F.Filters S.Specs pcx.now in
        IfOk result (λ profile.
        layer_profile_meaning F.meaning S.spec_meaning (layer_profile_view profile)
        ≡ layer_profile engines (source_view source.now) name.now (profile_view table)) }
    ensures errors { let engines = readings_view F.Filters S.Specs pcx.now in
        OnOk result (map compile_error_view errors.new.items
        ≡ map compile_error_view errors.old.items
        ++ profile_faults engines name.now (profile_view table)) }
{
    let ProfileTable {
        default_filter: text,
        overrides,
        scripts,
        ..
    } = table;
    let default_filter = compile_default_filter(alloc, pcx, name, text, errors)?;
    let overrides = compile_overrides(alloc, pcx, source, name, overrides, errors)?;
    let scripts = compile_script_rules(alloc, pcx, source, name, scripts, errors)?;
    Ok(CompiledProfile {
        default_filter,
        overrides,
        scripts,
    })
}
