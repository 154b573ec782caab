//! What the settings of a test show of overrides: how far the walk over them went for each setting.
ghost use Rattle.std.specs.Prelude.{◌≡◌, ◌↔◌, IfOk, IfSome, IsTrue, None, map, option_map, slice_get};
ghost use Rattle.std.specs.List.{AllZip};
ghost use Rattle.nextest_settings.specs.Profiles.SettingsOf.{AreSettingsOf};
ghost use Rattle.nextest_rules.specs.View.{id_view};
ghost use Rattle.nextest_settings.specs.Deciding.{QueryContext};
ghost use Rattle.nextest_settings.specs.Profile.{EvaluatableModel};
ghost use Rattle.nextest_elements.specs.Settings.{index_of, settings as all_settings};
ghost use Rattle.nextest_settings.specs.Settings.{is_set};
ghost use Rattle.nextest_settings.specs.SettingsView.{origin_at};
ghost use Rattle.nextest_settings.specs.View.{meant_override};
ghost use Rattle.rinqebo_rules.specs.Passed.{AreWritten, IsHidden, IsPassed, IsPlaceOf, IsShown, IsShownAt, IsShownBy, override_in};

use crate::rows::source_of;
use crate::values::SourcedSettings;
use nextest_elements::{NextestRunMode, SETTING_COUNT, Setting};
use nextest_engines::{Filters, Specs};
use nextest_rules::OverrideId;
use nextest_settings::{EvaluatedOverride, SettingSource, SettingValues};
use rinqebo_origins::is_same_source;
use std::alloc::{AllocError, Global};

/// Whether two ids are of one override.
fn is_same_override(id: &OverrideId, other: &OverrideId) -> bool
    ensures { IsTrue result ↔ (id_view id.now ≡ id_view other.now) }
{
    id.index == other.index
        && id.profile_name.as_str() == other.profile_name.as_str()
        && is_same_source(&id.config_source, &other.config_source)
}

/// The place of the first override of an id. Where none has it, the place is behind all.
fn place_of_id<F: Filters, S: Specs>(
    rules: &[EvaluatedOverride<'_, F, S>],
    id: &OverrideId,
) -> usize
    ensures { IsPlaceOf (λ w. w.id) (id_view id.now) result
        (map (meant_override F.meaning) rules.now) }
{
    for (number, rule) in rules.iter().enumerate() {
        if is_same_override(rule.rule().id(), id) {
            return number;
        }
    }
    rules.len()
}

/// The id of the override that decides a setting of a test, if one does.
fn deciding_id<'c, F: Filters, S: Specs>(
    settings: &SourcedSettings<'c, F, S>,
    setting: Setting,
) -> Option<&'c OverrideId>
    ensures { option_map (λ id. id_view id.now) result
        ≡ override_in (origin_at settings.now setting) }
{
    match source_of(settings, setting) {
        Some(SettingSource::Override(rule)) => Some(rule.id()),
        _ => None,
    }
}

/// How many of the first overrides do not decide a setting of a test: those before the one that
/// does, or all.
fn passed_for<'c, F: Filters, S: Specs>(
    rules: &[EvaluatedOverride<'c, F, S>],
    settings: &SourcedSettings<'c, F, S>,
    setting: Setting,
) -> usize
    ensures { (query : QueryContext F.Meaning) (mode : NextestRunMode)
        (profile : EvaluatableModel F.Meaning)
        → profile.overrides ≡ map (meant_override F.meaning) rules.now
        → AreSettingsOf F.meaning query mode profile settings.now
        → IsPassed query (λ w. is_set w.settings mode setting) (λ w. w.id) profile.overrides
        result }
{
    match deciding_id(settings, setting) {
        Some(id) => place_of_id(rules, id),
        None => rules.len(),
    }
}

/// Of each setting of a test, how many of the first overrides do not decide it.
pub(crate) fn passed_in<'c, F: Filters, S: Specs>(
    rules: &[EvaluatedOverride<'c, F, S>],
    settings: &SourcedSettings<'c, F, S>,
) -> [usize; SETTING_COUNT]
    ensures { (query : QueryContext F.Meaning) (mode : NextestRunMode)
        (profile : EvaluatableModel F.Meaning)
        → profile.overrides ≡ map (meant_override F.meaning) rules.now
        → AreSettingsOf F.meaning query mode profile settings.now
        → AllZip (λ s. IsPassed query (λ w. is_set w.settings mode s) (λ w. w.id)
        profile.overrides) all_settings result }
{
    let mut counts = [0; SETTING_COUNT];
    for (place, setting) in Setting::ALL.iter().enumerate() {
        counts[place] = passed_for(rules, settings, *setting);
    }
    counts
}

/// Whether an override writes a setting in a mode.
fn writes<F: Filters, S: Specs>(
    rule: &EvaluatedOverride<'_, F, S>,
    setting: Setting,
    mode: NextestRunMode,
) -> bool
    ensures { result
        ≡ is_set (meant_override F.meaning rule.now).writes.settings mode setting }
{
    rule.rule().settings().value(setting, mode).is_some()
}

/// The settings that an override writes in a mode.
fn written_by<F: Filters, S: Specs>(
    alloc: Global,
    rule: &EvaluatedOverride<'_, F, S>,
    mode: NextestRunMode,
) -> Result<Vec<Setting>, AllocError>
    ensures { IfOk result (AreWritten mode (meant_override F.meaning rule.now)) }
{
    let mut written = Vec::new(alloc);
    for setting in Setting::ALL.iter() {
        if writes(rule, *setting, mode) {
            written.push(*setting)?;
        }
    }
    Ok(written)
}

/// Of each override, the settings that it writes in a mode.
pub(crate) fn all_written<F: Filters, S: Specs>(
    alloc: Global,
    rules: &[EvaluatedOverride<'_, F, S>],
    mode: NextestRunMode,
) -> Result<Vec<Vec<Setting>>, AllocError>
    ensures { IfOk result (λ written. AllZip (AreWritten mode)
        (map (meant_override F.meaning) rules.now) written.items) }
{
    let mut written = Vec::new(alloc);
    for rule in rules {
        written.push(written_by(alloc, rule, mode)?)?;
    }
    Ok(written)
}

/// The position of a setting among all.
fn place(setting: Setting) -> usize
    ensures { result ≡ index_of setting }
{
    setting as usize
}

/// How many of the first overrides do not decide a setting, by what counts say of all settings.
fn passed_at(passed: &[usize], setting: Setting) -> Option<usize>
    ensures { result ≡ slice_get passed.now (index_of setting) }
{
    passed.get(place(setting)).copied()
}

/// What is known of a rule that writes something, if so many of the first rules do not decide that,
/// and the next one does: the rule does not hold if it is one of them, and holds if it is the next
/// one. Which one is next is known if no two rules have one id.
pub(crate) fn shown_by(number: usize, passed: usize, are_distinct: bool) -> Option<bool>
    ensures shown { IfSome result (IsShown are_distinct number passed) }
    ensures hidden { result ≡ None → IsHidden (IsShown are_distinct number passed) }
{
    if number < passed {
        Some(false)
    } else if are_distinct && number == passed {
        Some(true)
    } else {
        None
    }
}

/// What a setting that an override writes shows of it.
fn shown_at(setting: Setting, number: usize, passed: &[usize], are_distinct: bool) -> Option<bool>
    ensures shown { IfSome result (IsShownAt setting number passed.now are_distinct) }
    ensures hidden { result ≡ None
        → IsHidden (IsShownAt setting number passed.now are_distinct) }
{
    match passed_at(passed, setting) {
        Some(count) => shown_by(number, count, are_distinct),
        None => None,
    }
}

/// What the settings that an override writes show of it: whether it holds, if the search for what
/// decides one of them reached it.
pub(crate) fn shown_of(
    written: &[Setting],
    number: usize,
    passed: &[usize],
    are_distinct: bool,
) -> Option<bool>
    ensures shown { IfSome result (IsShownBy written.now number passed.now are_distinct) }
    ensures hidden { result ≡ None
        → IsHidden (IsShownBy written.now number passed.now are_distinct) }
{
    for setting in written {
        if let Some(holds) = shown_at(*setting, number, passed, are_distinct) {
            return Some(holds);
        }
    }
    None
}
