//! Checks of the rules of a source, over the files below it.
ghost use Rattle.std.specs.Prelude.{◌≡◌, List, IfOk, OnOk};
ghost use Rattle.nextest_engines.specs.Readings.{readings_view};
ghost use Rattle.nextest_inheritance.specs.Names.{default_first};
ghost use Rattle.nextest_rules.specs.Known.{known_names, known_to, sets_of};
ghost use Rattle.nextest_rules.specs.KnownView.{known_view};
ghost use Rattle.nextest_rules.specs.Meaning.{layer_meaning};
ghost use Rattle.nextest_rules.specs.Rules.{layer_of};
ghost use Rattle.nextest_rules.specs.Steps.{name_steps, rule_steps};
ghost use Rattle.nextest_rules.specs.View.{layer_view, order_view, profiles_view};
ghost use Rattle.nextest_sources.specs.Endings.{ending, Ran};
ghost use Rattle.nextest_sources.specs.Sources.{source_view};
ghost use Rattle.nextest_tables.specs.FileTexts.{FileText};
ghost use Rattle.nextest_tables.specs.View.{file_table_view};
ghost use Rattle.nextest_tree.specs.Schema.{is_one_of};

use crate::compile::compile_layer;
use crate::empty_sections::warn_of_empty_sections;
use crate::groups::check_groups;
use crate::known::KnownNames;
use crate::overrides::{CompiledProfile, LayerRules};
use crate::parents::check_parents;
use crate::profile_order::{self, NamedProfile};
use crate::scripts::check_scripts;
use nextest_engines::{Filters, ParseContext, Specs};
use nextest_sources::{ConfigParseError, ConfigSource, ConfigWarnings};
use nextest_tables::FileTable;
use std::alloc::Global;
use std::collections::BTreeMap;

/// Checks the groups and the scripts that the rules of profiles name, and warns of script rules
/// that name none, in the order of the profiles.
fn check_in_order<F: Filters, S: Specs, W: ConfigWarnings>(
    alloc: Global,
    source: &ConfigSource,
    known: &KnownNames,
    order: &[NamedProfile<'_, F, S>],
    warnings: &mut W,
) -> Result<(), ConfigParseError>
    ensures { Ran (name_steps F.leaves (known_view known.now) (source_view source.now)
        (order_view F.meaning S.spec_meaning order.now))
        (W.warnings warnings.old) (W.warnings warnings.new) (ending result) }
{
    check_groups(alloc, source, &known.groups, order)?;
    warn_of_empty_sections(alloc, source, order, warnings)?;
    check_scripts(alloc, source, known, order)
}

/// Checks the groups and the scripts that the rules of profiles name, and warns of script rules
/// that name none.
fn check_names<F: Filters, S: Specs, W: ConfigWarnings>(
    alloc: Global,
    source: &ConfigSource,
    known: &KnownNames,
    profiles: &BTreeMap<String, CompiledProfile<F, S>>,
    warnings: &mut W,
) -> Result<(), ConfigParseError>
    ensures { Ran (name_steps F.leaves (known_view known.now) (source_view source.now)
        (default_first (profiles_view F.meaning S.spec_meaning profiles.now.entries)))
        (W.warnings warnings.old) (W.warnings warnings.new) (ending result) }
{
    let order = profile_order::default_first(alloc, profiles)?;
    check_in_order(alloc, source, known, &order, warnings)
}

/// The compiled rules of a source over lower files, or its first fault. Its names go to those that
/// are known.
pub fn check_rules<F: Filters, S: Specs, W: ConfigWarnings>(
    alloc: Global,
    pcx: &ParseContext<'_, F, S>,
    source: &ConfigSource,
    known: &mut KnownNames,
    file: FileTable,
    warnings: &mut W,
) -> Result<LayerRules<F, S>, ConfigParseError>
    ensures ran { let engines = readings_view F.Filters S.Specs pcx.now in
        (below : List FileText) → known_view known.old ≡ sets_of (known_names below)
        → Ran (rule_steps engines (is_one_of (known_names below).profiles)
        (sets_of (known_to below (file_table_view file))) (source_view source.now)
        (file_table_view file))
        (W.warnings warnings.old) (W.warnings warnings.new) (ending result) }
    ensures rules { let engines = readings_view F.Filters S.Specs pcx.now in
        IfOk result
        (λ layer. layer_meaning F.meaning S.spec_meaning (layer_view layer)
        ≡ layer_of engines (source_view source.now) (file_table_view file).profiles) }
    ensures known { (below : List FileText) → known_view known.old ≡ sets_of (known_names below)
        → OnOk result (known_view known.new ≡ sets_of (known_to below (file_table_view file))) }
{
    check_parents(alloc, source, &known.profiles, &file.profiles)?;
    known.add(&file)?;
    let FileTable { profiles, .. } = file;
    let layer = compile_layer(alloc, pcx, source, profiles)?;
    check_names(alloc, source, known, &layer.profiles, warnings)?;
    Ok(layer)
}
