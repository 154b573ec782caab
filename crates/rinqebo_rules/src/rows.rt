//! The rows of a test: settings, each with its value and with where it comes from.
ghost use Rattle.std.specs.Prelude.{◌≡◌, IfOk, filter, option_map};
ghost use Rattle.std.specs.List.{AllZip};
ghost use Rattle.nextest_rules.specs.View.{script_rule_id_view};
ghost use Rattle.nextest_elements.specs.Settings.{settings as all_settings};
ghost use Rattle.nextest_settings.specs.SettingsView.{origin_at, value_at};
ghost use Rattle.nextest_settings.specs.SourceView.{setting_source_view};
ghost use Rattle.rinqebo_origins.specs.TestOrigins.{AreOriginsBy, wrapping_at, wrapping_places};
ghost use Rattle.rinqebo_origins.specs.Settings.{is_by_rule, reported_settings, IsSettingReported};
ghost use Rattle.rinqebo_origins.specs.Origins.{IsOriginOf, key_steps};

use crate::values::SourcedSettings;
use nextest_elements::{NextestRunMode, Setting};
use nextest_engines::{Filters, Specs};
use nextest_rules::ScriptRuleId;
use nextest_settings::{SettingSource, SettingValues};
use rinqebo_keys::SettingKey;
use rinqebo_origins::{Origins, RulePlace, built_in, node_of_origins, reported_if_set};
use rinqebo_report::{Origin, SettingRow};
use rinqebo_request::RequestedSettings;
use std::alloc::{AllocError, Global};

/// Whether a rule decides a setting of a test.
fn is_by_rule<'c, F: Filters, S: Specs>(
    settings: &SourcedSettings<'c, F, S>,
    setting: Setting,
) -> bool
    ensures { result ≡ is_by_rule (origin_at settings.now setting) }
{
    matches!(
        settings.source_of(setting),
        Some(SettingSource::Override(_) | SettingSource::Script(_))
    )
}

/// The settings of a test that rules decide.
fn decided_settings<'c, F: Filters, S: Specs>(
    alloc: Global,
    settings: &SourcedSettings<'c, F, S>,
) -> Result<Vec<Setting>, AllocError>
    ensures { IfOk result (λ decided. decided.items
        ≡ filter (λ s. is_by_rule (origin_at settings.now s)) all_settings) }
{
    let mut decided = Vec::new(alloc);
    for setting in Setting::ALL.iter() {
        if is_by_rule(settings, *setting) {
            decided.push(*setting)?;
        }
    }
    Ok(decided)
}

/// What decides a setting of a test, if it has a value.
pub(crate) fn source_of<'c, F: Filters, S: Specs>(
    settings: &SourcedSettings<'c, F, S>,
    setting: Setting,
) -> Option<SettingSource<'c, F, S>>
    ensures { option_map setting_source_view result ≡ origin_at settings.now setting }
{
    settings.source_of(setting)
}

/// The id of the script rule that gives a test its run wrapper, if one does.
pub(crate) fn wrapping_rule<'c, F: Filters, S: Specs>(
    settings: &SourcedSettings<'c, F, S>,
) -> Option<&'c ScriptRuleId>
    ensures { option_map (λ id. script_rule_id_view id.now) result ≡ wrapping_at settings.now }
{
    match settings.source_of(Setting::RunWrapper) {
        Some(SettingSource::Script(rule)) => Some(rule.id()),
        _ => None,
    }
}

/// Where the run wrapper of a test comes from, if a script rule gives it one.
fn wrapping_origins<'c>(
    alloc: Global,
    rule: Option<&'c ScriptRuleId>,
    key: SettingKey,
    origins: &mut Origins<'_, '_, 'c>,
) -> Result<Vec<Origin>, AllocError>
    ensures same { origins.new ≡ origins.old }
    ensures told { IfOk result (λ told. AllZip (λ place. IsOriginOf origins.old.layers place
        (key_steps (option_map (λ table. table.now) key.table) key.key.now))
        (wrapping_places (option_map (λ id. script_rule_id_view id.now) rule.entry)) told.items) }
{
    match rule {
        Some(id) => origins.of(alloc, Some(RulePlace::of_script(id)), key),
        None => Ok(Vec::new(alloc)),
    }
}

/// Where the value of a setting comes from, by what decides it.
fn origins_by<'c, F: Filters, S: Specs>(
    alloc: Global,
    source: Option<SettingSource<'c, F, S>>,
    wrapping: Option<&'c ScriptRuleId>,
    key: SettingKey,
    origins: &mut Origins<'_, '_, 'c>,
) -> Result<Vec<Origin>, AllocError>
    ensures same { origins.new ≡ origins.old }
    ensures told { IfOk result (λ told. AreOriginsBy origins.old
        (option_map (λ id. script_rule_id_view id.now) wrapping.entry)
        (option_map (λ table. table.now) key.table) key.key.now
        (option_map setting_source_view source.entry) told.items) }
{
    match source {
        None => Ok(Vec::new(alloc)),
        Some(SettingSource::Default) => built_in(alloc),
        Some(SettingSource::Profile) => origins.of(alloc, None, key),
        Some(SettingSource::Override(rule)) => {
            origins.of(alloc, Some(RulePlace::of_override(rule.id())), key)
        }
        Some(SettingSource::Script(_)) => wrapping_origins(alloc, wrapping, key, origins),
    }
}

/// The row of a setting.
#[tactic(auto, using(crate::proofs::ReportedOf::reported_by_kind))]
fn setting_row<'c, F: Filters, S: Specs>(
    alloc: Global,
    settings: &SourcedSettings<'c, F, S>,
    setting: Setting,
    mode: NextestRunMode,
    origins: &mut Origins<'_, '_, 'c>,
) -> Result<SettingRow, AllocError>
    ensures same { origins.new ≡ origins.old }
    ensures told { IfOk result (IsSettingReported origins.old (wrapping_at settings.now)
        (value_at settings.now) (origin_at settings.now) mode setting) }
{
    let key = SettingKey::of(setting, mode);
    let source = source_of(settings, setting);
    let wrapping = wrapping_rule(settings);
    let layers = origins.layers();
    let found = origins_by(alloc, source, wrapping, key, origins)?;
    let node = node_of_origins(layers, key, &found);
    Ok(SettingRow {
        key: key.text(alloc)?,
        value: reported_if_set(alloc, settings.value(setting, mode), node)?,
        origins: found,
    })
}

/// The rows of settings, in their order.
fn these_rows<'c, F: Filters, S: Specs>(
    alloc: Global,
    settings: &SourcedSettings<'c, F, S>,
    told: &[Setting],
    mode: NextestRunMode,
    origins: &mut Origins<'_, '_, 'c>,
) -> Result<Vec<SettingRow>, AllocError>
    ensures same { origins.new ≡ origins.old }
    ensures told { IfOk result (λ rows. AllZip (IsSettingReported origins.old
        (wrapping_at settings.now) (value_at settings.now) (origin_at settings.now) mode)
        told.now rows.items) }
{
    let mut rows = Vec::new(alloc);
    for setting in told {
        rows.push(setting_row(alloc, settings, *setting, mode, origins)?)?;
    }
    Ok(rows)
}

/// The rows of a test.
pub fn rows_of<'c, F: Filters, S: Specs>(
    alloc: Global,
    settings: &SourcedSettings<'c, F, S>,
    asked: &RequestedSettings,
    mode: NextestRunMode,
    origins: &mut Origins<'_, '_, 'c>,
) -> Result<Vec<SettingRow>, AllocError>
    ensures same { origins.new ≡ origins.old }
    ensures told { IfOk result (λ rows. AllZip (IsSettingReported origins.old
        (wrapping_at settings.now) (value_at settings.now) (origin_at settings.now) mode)
        (reported_settings asked.now (origin_at settings.now)) rows.items) }
{
    match asked {
        RequestedSettings::Decided => {
            let decided = decided_settings(alloc, settings)?;
            these_rows(alloc, settings, &decided, mode, origins)
        }
        RequestedSettings::These {
            settings: these,
            ..
        } => { these_rows(alloc, settings, these, mode, origins) }
    }
}
