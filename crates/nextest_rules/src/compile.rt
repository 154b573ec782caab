//! Compilation: what the engines make of the texts of profiles, and everything that they refuse.
ghost use Rattle.std.specs.Prelude.{◌≡◌, map, IfOk};
ghost use Rattle.nextest_engines.specs.Readings.{readings_view};
ghost use Rattle.nextest_sources.specs.Endings.{ending, Found};
ghost use Rattle.nextest_sources.specs.Errors.{compile_error_view};
ghost use Rattle.nextest_sources.specs.InputFaults.{fault_at_source};
ghost use Rattle.nextest_sources.specs.Sources.{source_view};
ghost use Rattle.nextest_tables.specs.View.{by_name, profile_view};
ghost use Rattle.nextest_rules.specs.CompileFaults.{compile_faults};
ghost use Rattle.nextest_rules.specs.Meaning.{layer_meaning};
ghost use Rattle.nextest_rules.specs.Rules.{layer_of};
ghost use Rattle.nextest_rules.specs.Steps.{compile_cause};
ghost use Rattle.nextest_rules.specs.View.{layer_view, profiles_view};

mod profile;
mod rules;
mod texts;

use crate::compile::profile::compile_profile;
use crate::overrides::{CompiledProfile, LayerRules};
use crate::profile_order::DefaultFirst;
use nextest_engines::{Filters, ParseContext, Specs};
use nextest_sources::{ConfigCompileError, ConfigParseError, ConfigParseErrorKind, ConfigSource};
use nextest_tables::ProfileTable;
use std::alloc::{AllocError, Global};
use std::collections::BTreeMap;

/// The rules of profiles by name.
type Profiles<F, S> = BTreeMap<String, CompiledProfile<F, S>>;

/// The rules of profiles, and everything that is wrong with them: that of `default` first, that of
/// the others by name.
fn compile_profiles<F: Filters, S: Specs>(
    alloc: Global,
    pcx: &ParseContext<'_, F, S>,
    source: &ConfigSource,
    tables: BTreeMap<String, ProfileTable>,
) -> Result<(Profiles<F, S>, Vec<ConfigCompileError>), AllocError>
    ensures profiles { let engines = readings_view F.Filters S.Specs pcx.now in
        IfOk result (λ made.
        profiles_view F.meaning S.spec_meaning made.0.entries
        ≡ (layer_of engines (source_view source.now)
        (by_name profile_view tables.entries)).profiles) }
    ensures faults { let engines = readings_view F.Filters S.Specs pcx.now in
        IfOk result (λ made. map compile_error_view made.1.items
        ≡ compile_faults engines (by_name profile_view tables.entries)) }
{
    let mut profiles = BTreeMap::new(alloc);
    let mut errors = DefaultFirst::new(alloc);
    for (name, table) in tables {
        let mut found = Vec::new(alloc);
        let profile = compile_profile(alloc, pcx, source, name.as_str(), table, &mut found)?;
        errors.add(name.as_str(), found)?;
        drop(profiles.insert(name, profile)?);
    }
    let errors = errors.into_vec()?;
    Ok((profiles, errors))
}

/// The compiled rules of a source, or all that does not compile.
pub(crate) fn compile_layer<F: Filters, S: Specs>(
    alloc: Global,
    pcx: &ParseContext<'_, F, S>,
    source: &ConfigSource,
    tables: BTreeMap<String, ProfileTable>,
) -> Result<LayerRules<F, S>, ConfigParseError>
    ensures found { let engines = readings_view F.Filters S.Specs pcx.now in
        Found (fault_at_source (source_view source.now)
        (compile_cause engines (by_name profile_view tables.entries))) (ending result) }
    ensures rules { let engines = readings_view F.Filters S.Specs pcx.now in
        IfOk result (λ layer.
        layer_meaning F.meaning S.spec_meaning (layer_view layer)
        ≡ layer_of engines (source_view source.now) (by_name profile_view tables.entries)) }
{
    let (profiles, errors) = compile_profiles(alloc, pcx, source, tables)?;
    if !errors.is_empty() {
        let kind = ConfigParseErrorKind::CompileErrors(errors);
        return Err(ConfigParseError::at(source, kind));
    }
    let source = source.clone()?;
    Ok(LayerRules { source, profiles })
}
