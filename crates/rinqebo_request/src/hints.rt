//! Hints: the known name that a user most likely means by a wrong one.
ghost use Rattle.std.specs.Prelude.{◌≡◌, IfOk, map, option_map, string_bytes};
ghost use Rattle.rinqebo_request.specs.Hints.{IsKeyHint, IsNameHint, IsTextHint, hint_text, other_mode};

use nextest_elements::NextestRunMode;
use rinqebo_keys::{RUNS, SettingKey, all_keys, setting_of};
use rinqebo_report::nearest_name;
use std::alloc::{AllocError, Global};

/// The hint that names what a user means.
fn did_you_mean(alloc: Global, name: Option<&str>) -> Result<Option<String>, AllocError>
    ensures { IfOk result (λ hint. option_map string_bytes hint
        ≡ option_map (λ name. hint_text name.now) name.entry) }
{
    match name {
        Some(name) => Ok(Some(format!(in alloc; "did you mean `{name}`?")?)),
        None => Ok(None),
    }
}

/// The hint that names the nearest of some known names, if one is near.
pub fn name_hint(alloc: Global, name: &str, known: &[&str]) -> Result<Option<String>, AllocError>
    ensures names { IfOk result (IsNameHint name.now known.now) }
    ensures texts { IfOk result (IsTextHint name.now (map (λ name. name.now) known.now)) }
{
    did_you_mean(alloc, nearest_name(alloc, name, known)?)
}

/// The hint that names the nearest of some known texts, if one is near.
pub fn text_hint(alloc: Global, name: &str, known: &[String]) -> Result<Option<String>, AllocError>
    ensures { IfOk result (IsTextHint name.now (map string_bytes known.now)) }
{
    let mut names = Vec::new(alloc);
    for text in known {
        names.push(text.as_str())?;
    }
    name_hint(alloc, name, &names)
}

/// The other mode.
fn other_mode(mode: NextestRunMode) -> NextestRunMode
    ensures { result ≡ other_mode mode }
{
    match mode {
        NextestRunMode::Test => NextestRunMode::Benchmark,
        NextestRunMode::Benchmark => NextestRunMode::Test,
    }
}

/// The hint that names a key of a mode: the one of the setting that has the key in the other mode,
/// else a near one.
pub fn key_hint(
    alloc: Global,
    key: &str,
    mode: NextestRunMode,
) -> Result<Option<String>, AllocError>
    ensures { IfOk result (IsKeyHint key.now mode) }
{
    match setting_of(alloc, key, other_mode(mode))? {
        Some(setting) => {
            let known = SettingKey::of(setting, mode).text(alloc)?;
            did_you_mean(alloc, Some(known.as_str()))
        }
        None => {
            let mut known = all_keys(alloc, mode)?;
            known.push(String::from_str(alloc, RUNS)?)?;
            text_hint(alloc, key, &known)
        }
    }
}
