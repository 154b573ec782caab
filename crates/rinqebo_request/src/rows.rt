//! The rows of a test that a command line names: whether the test runs, and settings.
ghost use Rattle.std.specs.List.{filter};
ghost use Rattle.std.specs.Prelude.{◌≡◌, ◌≢◌, [], true, IfErr, IfOk, OnOk, None, Some, if◌then◌else◌, map};
ghost use Rattle.nextest_elements.specs.Settings.{settings};
ghost use Rattle.nextest_elements.specs.declared.setting.Setting.{Setting};
ghost use Rattle.rinqebo_keys.specs.Keys.{is_named_by, key_text};
ghost use Rattle.rinqebo_request.specs.Lines.{line_of};
ghost use Rattle.rinqebo_request.specs.NamedView.{named_view};
ghost use Rattle.rinqebo_request.specs.Rows.{AreExplainedRows, AreKnownKeys, AreListedRows, IsKnownKey, IsRowOf, all_rows, is_no_row, keys_of, requested, rows_by, with_all, with_key};
ghost use Rattle.rinqebo_request.specs.Refusals.{IsRefusedWith, SaysNoSetting};
ghost use Rattle.rinqebo_request.specs.Stops.{IsInvalid, IsRefusedFor};

use crate::hints::key_hint;
use crate::line::{is_on, value, values};
use crate::request::RequestedSettings;
use crate::words::{ParseStop, usage};
use clap::ArgMatches;
use nextest_elements::{NextestRunMode, Setting};
use rinqebo_keys::{RUNS, run_key, setting_of, settings_of};
use std::alloc::{AllocError, Global};

/// Why a key names no setting of a test.
fn no_setting(alloc: Global, key: &str, mode: NextestRunMode) -> Result<ParseStop, AllocError>
    ensures { IfOk result (SaysNoSetting mode key.now) }
{
    if let Some(shown) = run_key(key) {
        let message = format!(in alloc;
            "`{key}` is a setting of the whole run: see `rinqebo show-config {shown}`"
        )?;
        return usage(alloc, message.as_str(), None);
    }
    let message = format!(in alloc; "unknown setting `{key}`")?;
    let hint = key_hint(alloc, key, mode)?;
    usage(alloc, message.as_str(), hint)
}

/// The settings that a key names: one, or those of a table.
fn named_settings(alloc: Global, key: &str, mode: NextestRunMode) -> Result<Vec<Setting>, ParseStop>
    ensures ok { IfOk result (λ named.
        (named.items ≡ filter (is_named_by key.now mode) settings) × (named.items ≢ [])) }
    ensures err { IfErr result (IsRefusedWith (filter (is_named_by key.now mode) settings ≡ [])
        (SaysNoSetting mode key.now)) }
{
    let settings = settings_of(alloc, key, mode)?;
    if settings.is_empty() {
        return Err(no_setting(alloc, key, mode)?);
    }
    Ok(settings)
}

/// Why a key is not that of one setting: it is that of a table.
fn is_table(alloc: Global, option: &str, key: &str) -> Result<ParseStop, AllocError>
    ensures { IfOk result IsInvalid }
{
    let message = format!(in alloc;
        "`{option}` takes one setting, and `{key}` is a table of them"
    )?;
    usage(alloc, message.as_str(), None)
}

/// The setting that the value of an option names. The option takes one setting.
pub fn one_setting(
    alloc: Global,
    option: &str,
    key: &str,
    mode: NextestRunMode,
) -> Result<Setting, ParseStop>
    ensures ok { IfOk result (λ setting. key_text setting mode ≡ key.now) }
    ensures err { IfErr result
        (IsRefusedFor ((setting : Setting) → key_text setting mode ≢ key.now)) }
{
    if let Some(setting) = setting_of(alloc, key, mode)? {
        return Ok(setting);
    }
    named_settings(alloc, key, mode)?;
    Err(is_table(alloc, option, key)?)
}

/// The rows of a test that a user names: whether the test runs, and settings.
#[derive(Drop)]
struct NamedRows {
    runs: bool,
    settings: Vec<Setting>,
}

impl NamedRows {
    /// Whether the user names no row.
    fn is_empty(&self) -> bool
        ensures { result ≡ is_no_row (named_view self.now) }
    {
        !self.runs && self.settings.is_empty()
    }

    /// Adds the rows that a key names.
    fn add(&mut self, alloc: Global, key: &str, mode: NextestRunMode) -> Result<(), ParseStop>
        ensures { OnOk result ((named_view self.new ≡ with_key mode (named_view self.old) key.now)
            × IsKnownKey mode key.now) }
    {
        if key == RUNS {
            self.runs = true;
            return Ok(());
        }
        let settings = named_settings(alloc, key, mode)?;
        self.settings.extend_from_slice(settings.as_slice())?;
        Ok(())
    }

    /// Adds the rows that keys name.
    fn add_all(
        &mut self,
        alloc: Global,
        keys: &[&str],
        mode: NextestRunMode,
    ) -> Result<(), ParseStop>
        ensures { let names = map (λ key. key.now) keys.now in
            OnOk result ((named_view self.new ≡ with_all mode (named_view self.old) names)
            × AreKnownKeys mode names) }
    {
        for key in keys {
            self.add(alloc, *key, mode)?;
        }
        Ok(())
    }

    /// The rows, as a request has them.
    fn requested(self) -> RequestedSettings
        ensures { requested result ≡ Some (named_view self) }
    {
        let NamedRows { runs, settings } = self;
        RequestedSettings::These { runs, settings }
    }
}

/// The rows of a test that the words and options of a command line name.
fn named_rows(
    alloc: Global,
    matches: &ArgMatches<'_>,
    mode: NextestRunMode,
) -> Result<NamedRows, ParseStop>
    ensures { IfOk result (λ named. let keys = keys_of (line_of matches.now) in
        (named_view named ≡ rows_by mode keys) × AreKnownKeys mode keys) }
{
    let mut named = NamedRows {
        runs: false,
        settings: Vec::new(alloc),
    };
    named.add_all(alloc, values(matches, "KEY").unwrap_or(&[]), mode)?;
    named.add_all(alloc, values(matches, "key").unwrap_or(&[]), mode)?;
    Ok(named)
}

/// All rows: whether a test runs, and all settings.
fn all_rows(alloc: Global) -> Result<RequestedSettings, AllocError>
    ensures { IfOk result (λ rows. requested rows ≡ Some all_rows) }
{
    Ok(RequestedSettings::These {
        runs: true,
        settings: Vec::from_slice(alloc, &Setting::ALL)?,
    })
}

/// The requested rows of a test: all, if the user names none.
pub fn explained_rows(
    alloc: Global,
    matches: &ArgMatches<'_>,
    mode: NextestRunMode,
) -> Result<RequestedSettings, ParseStop>
    ensures { IfOk result (AreExplainedRows mode (line_of matches.now)) }
{
    let named = named_rows(alloc, matches, mode)?;
    if named.is_empty() {
        return Ok(all_rows(alloc)?);
    }
    Ok(named.requested())
}

/// The row that the value of an option names. The option takes one row.
fn one_row(
    alloc: Global,
    option: &str,
    key: &str,
    mode: NextestRunMode,
) -> Result<RequestedSettings, ParseStop>
    ensures { IfOk result (IsRowOf mode key.now) }
{
    if key == RUNS {
        return Ok(RequestedSettings::These {
            runs: true,
            settings: Vec::new(alloc),
        });
    }
    let setting = one_setting(alloc, option, key, mode)?;
    Ok(RequestedSettings::These {
        runs: false,
        settings: Vec::from_slice(alloc, &[setting])?,
    })
}

/// The requested rows of each test if the user requests all.
fn all_listed(
    alloc: Global,
    named: &NamedRows,
    by: Option<&str>,
) -> Result<RequestedSettings, ParseStop>
    ensures { IfOk result (λ rows. (is_no_row (named_view named.now) ≡ true) × (by.entry ≡ None)
        × (requested rows ≡ Some all_rows)) }
{
    if !named.is_empty() {
        return Err(usage(alloc, "`--all` cannot be used with KEYs", None)?);
    }
    if by.is_some() {
        return Err(usage(alloc, "`--by` cannot be used with KEYs", None)?);
    }
    Ok(all_rows(alloc)?)
}

/// The requested row of each test if the user groups the tests by its value.
fn grouping_row(
    alloc: Global,
    named: &NamedRows,
    key: &str,
    mode: NextestRunMode,
) -> Result<RequestedSettings, ParseStop>
    ensures { IfOk result (λ rows. (is_no_row (named_view named.now) ≡ true)
        × IsRowOf mode key.now rows) }
{
    if !named.is_empty() {
        return Err(usage(alloc, "`--by` cannot be used with KEYs", None)?);
    }
    one_row(alloc, "--by", key, mode)
}

/// The rows that the user names, or if there are none, the settings that rules decide.
fn named_or_decided(named: NamedRows) -> RequestedSettings
    ensures { requested result
        ≡ (if is_no_row (named_view named) then None else Some (named_view named)) }
{
    if named.is_empty() {
        RequestedSettings::Decided
    } else {
        named.requested()
    }
}

/// The requested rows of each test: if the user names none, the settings that rules decide.
pub fn listed_rows(
    alloc: Global,
    matches: &ArgMatches<'_>,
    mode: NextestRunMode,
) -> Result<RequestedSettings, ParseStop>
    ensures { IfOk result (AreListedRows mode (line_of matches.now)) }
{
    let named = named_rows(alloc, matches, mode)?;
    let by = value(matches, "by");
    if is_on(matches, "all") {
        return all_listed(alloc, &named, by);
    }
    match by {
        Some(key) => grouping_row(alloc, &named, key, mode),
        None => Ok(named_or_decided(named)),
    }
}
