//! What a side gives to the whole run, in rows: leaves of the configuration that no test has a
//! setting for, setup scripts, and what wraps binaries while they list their tests.
ghost use Rattle.std.specs.Prelude.{◌≡◌, IfOk, OnOk, filter, string_bytes};
ghost use Rattle.std.specs.List.{AllZip};
ghost use Rattle.rinqebo_keys.specs.Keys.{key_text};
ghost use Rattle.rinqebo_changes.specs.Sides.RunRows.{is_end, is_below, is_of_setting, is_of_tests, is_of_run, IsEntryRow, AddsEntry, IsSetupRow, IsWrapperRow, AreRunRows};

use nextest_elements::{NextestRunMode, Setting};
use rinqebo_keys::SettingKey;
use rinqebo_report::{Entry, ListScripts, ListWrapper, Scalar, SettingRow, Value};
use std::alloc::{AllocError, Global};

/// The key of the setup scripts that run, in their order.
const SETUP_SCRIPTS: &str = "setup-scripts";

/// The key of the filter that says which tests run.
const DEFAULT_FILTER: &str = "default-filter";

/// Whether a text is what follows a whole key: nothing, or a dot and more.
fn is_end(rest: &str) -> bool
    ensures { result ≡ is_end rest.now }
{
    rest.is_empty() || rest.starts_with('.')
}

/// Whether a key is another one, or is in its table.
fn is_below(key: &str, above: &str) -> bool
    ensures { result ≡ is_below key.now above.now }
{
    match key.strip_prefix(above) {
        Some(rest) => is_end(rest),
        None => false,
    }
}

/// The key of a setting of tests, with its table.
fn text_of(alloc: Global, setting: Setting, mode: NextestRunMode) -> Result<String, AllocError>
    ensures { IfOk result (λ text. string_bytes text ≡ key_text setting mode) }
{
    SettingKey::of(setting, mode).text(alloc)
}

/// Whether a key is that of a setting of tests for what they are run, or is in its table.
fn is_of_mode(
    alloc: Global,
    key: &str,
    setting: Setting,
    mode: NextestRunMode,
) -> Result<bool, AllocError>
    ensures { IfOk result (λ is. is ≡ is_below key.now (key_text setting mode)) }
{
    let text = text_of(alloc, setting, mode)?;
    Ok(is_below(key, text.as_str()))
}

/// Whether a key is that of a setting of tests, or is in its table.
fn is_of_setting(alloc: Global, key: &str, setting: Setting) -> Result<bool, AllocError>
    ensures { IfOk result (λ is. is ≡ is_of_setting key.now setting) }
{
    let of_test = is_of_mode(alloc, key, setting, NextestRunMode::Test)?;
    let of_benchmark = is_of_mode(alloc, key, setting, NextestRunMode::Benchmark)?;
    Ok(of_test || of_benchmark)
}

/// Whether a key is that of a value that tests have.
fn is_of_tests(alloc: Global, key: &str) -> Result<bool, AllocError>
    ensures { IfOk result (λ is. is ≡ is_of_tests key.now) }
{
    for setting in Setting::ALL.iter() {
        if is_of_setting(alloc, key, *setting)? {
            return Ok(true);
        }
    }
    Ok(is_below(key, DEFAULT_FILTER))
}

/// The row of a leaf.
fn entry_row(alloc: Global, entry: Entry) -> Result<SettingRow, AllocError>
    ensures { IfOk result (IsEntryRow entry) }
{
    let mut origins = Vec::new(alloc);
    origins.push(entry.origin)?;
    Ok(SettingRow {
        key: entry.key,
        value: Some(entry.value),
        origins,
    })
}

/// Adds the row of a leaf, if it is one of the whole run.
fn add_entry(alloc: Global, rows: &mut Vec<SettingRow>, entry: Entry) -> Result<(), AllocError>
    ensures { OnOk result (AddsEntry entry rows.old.items rows.new.items) }
{
    if is_of_tests(alloc, entry.key.as_str())? {
        return Ok(());
    }
    rows.push(entry_row(alloc, entry)?)?;
    Ok(())
}

/// The rows of the leaves of the whole run.
fn entry_rows(alloc: Global, entries: Vec<Entry>) -> Result<Vec<SettingRow>, AllocError>
    ensures { IfOk result (λ rows. AllZip IsEntryRow (filter is_of_run entries.items)
        rows.items) }
{
    let mut rows = Vec::new(alloc);
    for entry in entries {
        add_entry(alloc, &mut rows, entry)?;
    }
    Ok(rows)
}

/// The row of the setup scripts.
fn setup_row(alloc: Global, ids: Vec<String>) -> Result<SettingRow, AllocError>
    ensures { IfOk result (IsSetupRow ids) }
{
    Ok(SettingRow {
        key: String::from_str(alloc, SETUP_SCRIPTS)?,
        value: Some(Value::Texts(ids)),
        origins: Vec::new(alloc),
    })
}

/// The row of what wraps a binary.
fn wrapper_row(alloc: Global, wrapper: ListWrapper) -> Result<SettingRow, AllocError>
    ensures { IfOk result (IsWrapperRow wrapper) }
{
    let binary = wrapper.binary;
    Ok(SettingRow {
        key: format!(in alloc; "list-wrapper of {binary}")?,
        value: Some(Value::Scalar(Scalar::Text(wrapper.value))),
        origins: Vec::new(alloc),
    })
}

/// The rows of what wraps binaries.
fn wrapper_rows(alloc: Global, wrappers: Vec<ListWrapper>) -> Result<Vec<SettingRow>, AllocError>
    ensures { IfOk result (λ rows. AllZip IsWrapperRow wrappers.items rows.items) }
{
    let mut rows = Vec::new(alloc);
    for wrapper in wrappers {
        rows.push(wrapper_row(alloc, wrapper)?)?;
    }
    Ok(rows)
}

/// What a side gives to the whole run, from the leaves that count and the scripts of its list.
pub fn run_rows(
    alloc: Global,
    entries: Vec<Entry>,
    scripts: ListScripts,
) -> Result<Vec<SettingRow>, AllocError>
    ensures { IfOk result (λ rows. AreRunRows entries.items scripts rows.items) }
{
    let mut rows = entry_rows(alloc, entries)?;
    rows.push(setup_row(alloc, scripts.setup)?)?;
    let mut wrappers = wrapper_rows(alloc, scripts.list_wrappers)?;
    rows.append(&mut wrappers)?;
    Ok(rows)
}
