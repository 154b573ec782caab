//! What decides the settings of a test, as values of their own.
ghost use Rattle.std.specs.Prelude.{◌≡◌, IfOk, map, option_map};
ghost use Rattle.nextest_elements.specs.Settings.{settings};
ghost use Rattle.nextest_settings.specs.SettingsView.{origin_at};
ghost use Rattle.nextest_settings.specs.SourceView.{setting_source_view};
ghost use Rattle.nextest_config.specs.RowView.{origin_view};

use crate::run::row::PlainSource;
use nextest_elements::Setting;
use nextest_engines::{Filters, Specs};
use nextest_settings::{SettingSource, TestSettings};
use std::alloc::{AllocError, Global};

/// A source as a value of its own.
pub(super) fn plain_source<F: Filters, S: Specs>(
    alloc: Global,
    source: SettingSource<'_, F, S>,
) -> Result<PlainSource, AllocError>
    ensures { IfOk result (λ plain. origin_view plain ≡ setting_source_view source.entry) }
{
    match source {
        SettingSource::Default => Ok(PlainSource::Default),
        SettingSource::Profile => Ok(PlainSource::Profile),
        SettingSource::Override(rule) => {
            let id = rule.id();
            Ok(PlainSource::Override {
                source: id.config_source.clone()?,
                profile: String::from_str(alloc, &id.profile_name)?,
                index: id.index,
            })
        }
        SettingSource::Script(_) => Ok(PlainSource::Script),
    }
}

/// What decides a setting, if it has a value.
fn source_at<'cfg, F: Filters, S: Specs>(
    alloc: Global,
    settings: &TestSettings<'cfg, F, S, SettingSource<'cfg, F, S>>,
    setting: Setting,
) -> Result<Option<PlainSource>, AllocError>
    ensures { IfOk result (λ plain. option_map origin_view plain ≡ origin_at settings.now setting) }
{
    match settings.source_of(setting) {
        Some(source) => Ok(Some(plain_source(alloc, source)?)),
        None => Ok(None),
    }
}

/// What decides each setting, in the order of all settings.
pub(super) fn sources_of<'cfg, F: Filters, S: Specs>(
    alloc: Global,
    test_settings: &TestSettings<'cfg, F, S, SettingSource<'cfg, F, S>>,
) -> Result<Vec<Option<PlainSource>>, AllocError>
    ensures { IfOk result (λ sources. map (option_map origin_view) sources.items
        ≡ map (origin_at test_settings.now) settings) }
{
    let mut sources = Vec::with_capacity(alloc, Setting::ALL.len())?;
    for setting in Setting::ALL.iter() {
        sources.push(source_at(alloc, test_settings, *setting)?)?;
    }
    Ok(sources)
}
