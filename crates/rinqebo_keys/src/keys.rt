//! The keys of settings, as files write them.
ghost use Rattle.std.specs.Prelude.{◌≡◌, ◌≢◌, ◌↔◌, IfOk, IsTrue, MatchOption, Some, codes, map, option_map, string_bytes};
ghost use Rattle.nextest_elements.specs.Settings.{settings};
ghost use Rattle.nextest_elements.specs.declared.setting.Setting.{Setting};
ghost use Rattle.std.specs.List.{filter};
ghost use Rattle.rinqebo_keys.specs.Keys.{key_table, key_name, is_named_by, is_report, is_table, dotted, key_text};

use nextest_elements::{NextestRunMode, Setting};
use std::alloc::{AllocError, Global};

/// The key of whether a test runs, which no file has.
pub const RUNS: &str = "runs";

/// The keys of a profile whose values hold for the whole run.
const RUN_KEYS: [&str; 9] = [
    "archive",
    "default-filter",
    "fail-fast",
    "final-status-level",
    "global-timeout",
    "junit.path",
    "junit.report-name",
    "status-level",
    "test-threads",
];

/// Where a profile or a rule writes a setting: the table within it, if there is one, and the key.
#[derive(Clone, Copy, PartialEq, Eq)]
pub struct SettingKey {
    /// The table, as `junit`. Without it, the key is in the profile or the rule itself.
    pub table: Option<&'static str>,
    /// The key in that table.
    pub key: &'static str,
}

/// A key of the report's table.
fn in_report(key: &'static str) -> SettingKey
    ensures table { option_map (λ table. table.now) result.table ≡ Some (codes "junit") }
    ensures key { result.key.now ≡ key.entry.now }
{
    SettingKey {
        table: Some("junit"),
        key,
    }
}

impl SettingKey {
    /// Where a setting is written. Benchmarks have a slow timeout of their own.
    pub fn of(setting: Setting, mode: NextestRunMode) -> SettingKey
        ensures table { option_map (λ table. table.now) result.table ≡ key_table setting mode }
        ensures key { result.key.now ≡ key_name setting }
    {
        match (setting, mode) {
            (Setting::SlowTimeout, NextestRunMode::Benchmark) => SettingKey {
                table: Some("bench"),
                key: setting.name(),
            },
            (Setting::JunitStoreSuccessOutput, _) => in_report("store-success-output"),
            (Setting::JunitStoreFailureOutput, _) => in_report("store-failure-output"),
            (Setting::JunitReportSkipped, _) => in_report("report-skipped"),
            (Setting::JunitFlakyFailStatus, _) => in_report("flaky-fail-status"),
            _ => SettingKey {
                table: None,
                key: setting.name(),
            },
        }
    }

    /// Whether it is in the report's table.
    pub fn is_of_report(self) -> bool
        ensures { result ≡ is_report (option_map (λ table. table.now) self.table) }
    {
        match self.table {
            Some(table) => table == "junit",
            None => false,
        }
    }

    /// Whether it is in a table of a name.
    fn is_in(self, table: &str) -> bool
        ensures { result ≡ is_table (option_map (λ table. table.now) self.table) table.now }
    {
        match self.table {
            Some(name) => name == table,
            None => false,
        }
    }

    /// The keys with a dot between them.
    pub fn text(self, alloc: Global) -> Result<String, AllocError>
        ensures { IfOk result (λ text. string_bytes text
            ≡ dotted (option_map (λ table. table.now) self.table) self.key.now) }
    {
        let key = self.key;
        match self.table {
            Some(table) => format!(in alloc; "{table}.{key}"),
            None => String::from_str(alloc, key),
        }
    }
}

/// The key of a setting, with its table.
fn text_of(alloc: Global, setting: Setting, mode: NextestRunMode) -> Result<String, AllocError>
    ensures { IfOk result (λ text. string_bytes text ≡ key_text setting mode) }
{
    SettingKey::of(setting, mode).text(alloc)
}

/// Whether a setting has a key.
fn has_key(
    alloc: Global,
    setting: Setting,
    mode: NextestRunMode,
    key: &str,
) -> Result<bool, AllocError>
    ensures { IfOk result (λ has. IsTrue has ↔ (key_text setting mode ≡ key.now)) }
{
    let text = text_of(alloc, setting, mode)?;
    Ok(text.as_str() == key)
}

/// The keys of all settings.
pub fn all_keys(alloc: Global, mode: NextestRunMode) -> Result<Vec<String>, AllocError>
    ensures { IfOk result (λ keys. map string_bytes keys.items
        ≡ map (λ setting. key_text setting mode) settings) }
{
    let mut keys = Vec::new(alloc);
    for setting in Setting::ALL.iter() {
        keys.push(text_of(alloc, *setting, mode)?)?;
    }
    Ok(keys)
}

/// The setting of a key.
pub fn setting_of(
    alloc: Global,
    key: &str,
    mode: NextestRunMode,
) -> Result<Option<Setting>, AllocError>
    ensures { IfOk result (λ found. MatchOption found
        ((setting : Setting) → key_text setting mode ≢ key.now)
        (λ setting. key_text setting mode ≡ key.now)) }
{
    for setting in Setting::ALL.iter() {
        if has_key(alloc, *setting, mode, key)? {
            return Ok(Some(*setting));
        }
    }
    Ok(None)
}

/// Whether a key names a setting: it is the key of the setting, or of the table that has it.
fn is_named_by(
    alloc: Global,
    setting: Setting,
    mode: NextestRunMode,
    key: &str,
) -> Result<bool, AllocError>
    ensures { IfOk result (λ is. is ≡ is_named_by key.now mode setting) }
{
    let is_key = has_key(alloc, setting, mode, key)?;
    Ok(is_key || SettingKey::of(setting, mode).is_in(key))
}

/// The settings that a key names, in the order of all settings: the one of the key, or those of a
/// table.
pub fn settings_of(
    alloc: Global,
    key: &str,
    mode: NextestRunMode,
) -> Result<Vec<Setting>, AllocError>
    ensures { IfOk result (λ found. found.items ≡ filter (is_named_by key.now mode) settings) }
{
    let mut found = Vec::new(alloc);
    for setting in Setting::ALL.iter() {
        if is_named_by(alloc, *setting, mode, key)? {
            found.push(*setting)?;
        }
    }
    Ok(found)
}

/// The key by which `show-config` shows what a key sets for the whole run, if it sets something
/// there.
pub fn run_key(key: &str) -> Option<&'static str> {
    if key == "max-fail" {
        return Some("fail-fast");
    }
    RUN_KEYS.iter().find(|known| **known == key).copied()
}
