//! What files are read without where a value is refused.
ghost use Rattle.std.specs.Prelude.{◌≡◌, ◌-◌, ◌<◌, ◌^◌, ◌&&◌, [], ◌∷◌, OnOk, codes, is_some, length};
ghost use Rattle.std.specs.Option.{option_and_then, option_copied};
ghost use Rattle.rinqebo_faults.specs.Edits.{edits_view, omit_rule, with_edits};
ghost use Rattle.rinqebo_faults.specs.ElementRepairs.{cause_edits, element_edits, ends_with_key, group_edits, is_bad_name, is_condition, is_either, is_in_rules, missing_edit, needed_edit, profile_edits, rules_edits, rules_note, rules_path, script_edits, setting_edit, setting_steps, sound_entry, sound_rule, sound_value, table_edit, value_edits};
ghost use Rattle.rinqebo_faults.specs.Paths.{shown_path};
ghost use Rattle.rinqebo_faults.specs.Tables.{has_key, key_at};

use crate::edits::Edits;
use crate::tables::{has_key, is_script_kind, key_at};
use nextest_places::Step;
use nextest_tree::ElementCause;
use std::alloc::AllocError;

/// A group.
const GROUP: &str = "{ max-threads = 1 }";

/// A script.
const SCRIPT: &str = "{ command = \"true\" }";

/// A profile.
const PROFILE: &str = "{}";

/// Whether a key is one of two.
#[tactic(auto, unfolding(crate::specs::ElementRepairs::is_either))]
fn is_either(key: &str, one: &str, other: &str) -> bool
    ensures { result ≡ is_either key.now one.now other.now }
{
    key == one || key == other
}

/// A value that a key takes which tables have to have.
#[tactic(auto, unfolding(crate::specs::ElementRepairs::sound_value))]
fn sound_value(key: &str) -> Option<&'static str>
    ensures { option_copied result ≡ sound_value key.now }
{
    if is_either(key, "max-threads", "count") {
        return Some("1");
    }
    if is_either(key, "command", "command-line") {
        return Some("\"true\"");
    }
    if key == "backoff" {
        return Some("\"fixed\"");
    }
    if is_either(key, "period", "delay") {
        return Some("\"1s\"");
    }
    if is_either(key, "filter", "default-filter") {
        return Some("\"all()\"");
    }
    if key == "platform" {
        return Some("\"cfg(unix)\"");
    }
    None
}

/// A key that tables have to have, with a value that it takes.
#[tactic(auto, unfolding(crate::specs::ElementRepairs::sound_entry))]
fn sound_entry(key: &str) -> Option<&'static str>
    ensures { option_copied result ≡ sound_entry key.now }
{
    match key {
        "max-threads" => Some("max-threads = 1"),
        "command" => Some("command = \"true\""),
        "command-line" => Some("command-line = \"true\""),
        "backoff" => Some("backoff = \"fixed\""),
        "count" => Some("count = 1"),
        "period" => Some("period = \"1s\""),
        "delay" => Some("delay = \"1s\""),
        _ => None,
    }
}

/// Whether the last key of a path is a name that is refused.
fn is_bad_name(cause: &ElementCause, path: &[Step<'_>]) -> bool
    ensures { result ≡ is_bad_name cause.now path.now }
{
    match cause {
        ElementCause::BadValue { given, .. } => ends_with_key(path, given.as_str()),
        ElementCause::WrongKind
        | ElementCause::Missing(_)
        | ElementCause::OutOfRange
        | ElementCause::UnknownField
        | ElementCause::Memory => false,
    }
}

/// Whether the last step of a path is one to a key.
#[tactic(auto, unfolding(crate::specs::ElementRepairs::ends_with_key))]
pub fn ends_with_key(path: &[Step<'_>], key: &str) -> bool
    ensures { result ≡ ends_with_key path.now key.now }
{
    !path.is_empty() && has_key(path, path.len().saturating_sub(1), key)
}

/// Returns a value to read in place of the one at a path, if the key that ends it has one.
fn sound_value_at(path: &[Step<'_>]) -> Option<&'static str>
    ensures { option_copied result
        ≡ option_and_then sound_value (key_at path.now (length path.now - 1)) }
{
    sound_value(key_at(path, path.len().saturating_sub(1))?)
}

/// Reads a value in place of one that its table has to have, or leaves out the one at a path.
#[tactic(auto, unfolding(crate::specs::ElementRepairs::needed_edit))]
fn leave_out_needed(
    edits: &mut Edits,
    place: usize,
    path: &[Step<'_>],
    end: usize,
) -> Result<(), AllocError>
    ensures { OnOk result (edits_view edits.new ≡ with_edits (edits_view edits.old)
        (needed_edit place path.now end ∷ [])) }
{
    let Some(needed) = path.get(..end) else {
        return edits.remove(place, path);
    };
    match sound_value_at(needed) {
        Some(value) => edits.replace(place, needed, value),
        None => edits.remove(place, needed),
    }
}

/// Leaves out a group or a script whose name is refused, or reads a sound one in its place.
#[tactic(auto, unfolding(crate::specs::ElementRepairs::table_edit))]
fn leave_out_table(
    edits: &mut Edits,
    place: usize,
    cause: &ElementCause,
    path: &[Step<'_>],
    sound: &'static str,
) -> Result<(), AllocError>
    ensures { OnOk result (edits_view edits.new ≡ with_edits (edits_view edits.old)
        (table_edit place cause.now path.now sound.now ∷ [])) }
{
    if is_bad_name(cause, path) {
        edits.remove(place, path)
    } else {
        edits.replace(place, path, sound)
    }
}

/// Leaves out a value of scripts, of which a path to one has some steps.
#[tactic(auto, unfolding(crate::specs::ElementRepairs::script_edits))]
fn leave_out_of_script(
    edits: &mut Edits,
    place: usize,
    cause: &ElementCause,
    path: &[Step<'_>],
    steps: usize,
) -> Result<(), AllocError>
    ensures { steps < 2 ^ 63 → OnOk result (edits_view edits.new
        ≡ with_edits (edits_view edits.old) (script_edits place cause.now path.now steps)) }
{
    if path.len() < steps {
        edits.omit_scripts();
        return edits.remove(place, path);
    }
    if path.len() == steps {
        return leave_out_table(edits, place, cause, path, SCRIPT);
    }
    if has_key(path, steps, "command") {
        return leave_out_needed(edits, place, path, steps.saturating_add(1));
    }
    leave_out_needed(edits, place, path, path.len())
}

/// Leaves out a value of groups.
#[tactic(auto, unfolding(crate::specs::ElementRepairs::group_edits))]
fn leave_out_of_group(
    edits: &mut Edits,
    place: usize,
    cause: &ElementCause,
    path: &[Step<'_>],
) -> Result<(), AllocError>
    ensures { OnOk result (edits_view edits.new ≡ with_edits (edits_view edits.old)
        (group_edits place cause.now path.now)) }
{
    if path.len() == 1 {
        edits.omit_groups();
        return edits.remove(place, path);
    }
    if path.len() == 2 {
        return leave_out_table(edits, place, cause, path, GROUP);
    }
    leave_out_needed(edits, place, path, path.len())
}

/// Whether a key of a rule is one of its conditions.
#[tactic(auto, unfolding(crate::specs::ElementRepairs::is_condition))]
fn is_condition(path: &[Step<'_>]) -> bool
    ensures { result ≡ is_condition path.now }
{
    has_key(path, 4, "filter") || has_key(path, 4, "default-filter") || has_key(path, 4, "platform")
}

/// Whether a path is one into the rules of a profile.
#[tactic(auto, unfolding(crate::specs::ElementRepairs::is_in_rules))]
fn is_in_rules(path: &[Step<'_>]) -> bool
    ensures { result ≡ is_in_rules path.now }
{
    has_key(path, 2, "overrides") || has_key(path, 2, "scripts")
}

/// A rule.
#[tactic(auto, unfolding(crate::specs::ElementRepairs::sound_rule))]
fn sound_rule() -> &'static str
    ensures { result.now ≡ sound_rule }
{
    "{ platform = \"cfg(unix)\" }"
}

/// Leaves out a value of the rules of a profile.
#[tactic(auto, unfolding(crate::specs::ElementRepairs::rules_edits))]
fn leave_out_of_rules(edits: &mut Edits, place: usize, path: &[Step<'_>]) -> Result<(), AllocError>
    ensures { OnOk result (edits_view edits.new ≡ with_edits (edits_view edits.old)
        (rules_edits place path.now)) }
{
    if path.len() == 4 {
        return edits.replace(place, path, sound_rule());
    }
    if is_condition(path) {
        return leave_out_needed(edits, place, path, 5);
    }
    leave_out_needed(edits, place, path, path.len())
}

/// Leaves out a value of a profile.
#[tactic(auto, unfolding(crate::specs::ElementRepairs::profile_edits))]
fn leave_out_of_profile(
    edits: &mut Edits,
    place: usize,
    path: &[Step<'_>],
) -> Result<(), AllocError>
    ensures { OnOk result (edits_view edits.new ≡ with_edits (edits_view edits.old)
        (profile_edits place path.now)) }
{
    if path.len() == 2 {
        return edits.replace(place, path, PROFILE);
    }
    if is_in_rules(path) {
        return leave_out_of_rules(edits, place, path);
    }
    leave_out_needed(edits, place, path, path.len())
}

/// Leaves out a value that is refused.
#[tactic(auto, unfolding(crate::specs::ElementRepairs::value_edits))]
fn leave_out_value(
    edits: &mut Edits,
    place: usize,
    cause: &ElementCause,
    path: &[Step<'_>],
) -> Result<(), AllocError>
    ensures { OnOk result (edits_view edits.new ≡ with_edits (edits_view edits.old)
        (value_edits place cause.now path.now)) }
{
    if has_key(path, 0, "test-groups") {
        return leave_out_of_group(edits, place, cause, path);
    }
    if has_key(path, 0, "scripts") {
        return leave_out_of_script(edits, place, cause, path, 3);
    }
    if has_key(path, 0, "script") {
        return leave_out_of_script(edits, place, cause, path, 2);
    }
    if has_key(path, 0, "profile") {
        return leave_out_of_profile(edits, place, path);
    }
    leave_out_needed(edits, place, path, path.len())
}

/// Adds a key that a table lacks, or leaves out the table.
fn add_missing(
    edits: &mut Edits,
    place: usize,
    key: &str,
    path: &[Step<'_>],
) -> Result<(), AllocError>
    ensures { OnOk result (edits_view edits.new ≡ with_edits (edits_view edits.old)
        (missing_edit place path.now (sound_entry key.now) ∷ [])) }
{
    match sound_entry(key) {
        Some(entry) if !is_script_kind(path) => edits.add(place, path, entry),
        _ => edits.remove(place, path),
    }
}

/// Whether a path is one into the script rules of a profile.
fn is_in_script_rules(path: &[Step<'_>]) -> bool
    ensures { result ≡ (has_key path.now 0 (codes "profile") && (is_some (key_at path.now 1)
        && has_key path.now 2 (codes "scripts"))) }
{
    has_key(path, 0, "profile") && key_at(path, 1).is_some() && has_key(path, 2, "scripts")
}

/// Notes the script rules that a path is in.
#[tactic(auto, unfolding(crate::specs::ElementRepairs::rules_path))]
fn omit_rules_of(edits: &mut Edits, path: &[Step<'_>]) -> Result<(), AllocError>
    ensures { OnOk result (edits_view edits.new ≡ with_edits (edits_view edits.old)
        (omit_rule (shown_path (rules_path path.now)) ∷ [])) }
{
    match path.get(..3) {
        Some(rules) => edits.omit_rules(rules),
        None => edits.omit_rules(path),
    }
}

/// Notes the profile of a script rule of which a value is refused.
#[tactic(auto, unfolding(crate::specs::ElementRepairs::rules_note))]
fn note_rules(edits: &mut Edits, path: &[Step<'_>]) -> Result<(), AllocError>
    ensures { OnOk result (edits_view edits.new
        ≡ with_edits (edits_view edits.old) (rules_note path.now)) }
{
    if !is_in_script_rules(path) {
        return Ok(());
    }
    omit_rules_of(edits, path)
}

/// Leaves out what is refused for a cause.
fn leave_out_cause(
    edits: &mut Edits,
    place: usize,
    cause: &ElementCause,
    path: &[Step<'_>],
) -> Result<(), AllocError>
    ensures { OnOk result (edits_view edits.new ≡ with_edits (edits_view edits.old)
        (cause_edits place cause.now path.now)) }
{
    match cause {
        ElementCause::Missing(key) => add_missing(edits, place, key.as_str(), path),
        ElementCause::UnknownField => edits.remove(place, path),
        ElementCause::WrongKind
        | ElementCause::BadValue { .. }
        | ElementCause::OutOfRange
        | ElementCause::Memory => leave_out_value(edits, place, cause, path),
    }
}

/// Leaves out an element of a source that is refused.
pub fn leave_out_element(
    edits: &mut Edits,
    place: usize,
    cause: &ElementCause,
    path: &[Step<'_>],
) -> Result<(), AllocError>
    ensures { OnOk result (edits_view edits.new ≡ with_edits (edits_view edits.old)
        (element_edits place cause.now path.now)) }
{
    note_rules(edits, path)?;
    leave_out_cause(edits, place, cause, path)
}

/// Returns how many steps lead to the setting that a path is in.
#[tactic(auto, unfolding(crate::specs::ElementRepairs::setting_steps))]
fn setting_steps(path: &[Step<'_>]) -> usize
    ensures { result ≡ setting_steps path.now }
{
    if has_key(path, 0, "profile") && is_in_rules(path) {
        return 5;
    }
    if has_key(path, 0, "profile") || has_key(path, 0, "scripts") {
        return 3;
    }
    if has_key(path, 0, "script") || has_key(path, 0, "test-groups") {
        return 2;
    }
    1
}

/// Leaves out a setting with an element that is refused although others were left out.
#[tactic(auto, unfolding(crate::specs::ElementRepairs::setting_edit))]
pub fn leave_out_setting(
    edits: &mut Edits,
    place: usize,
    path: &[Step<'_>],
) -> Result<(), AllocError>
    ensures { OnOk result (edits_view edits.new ≡ with_edits (edits_view edits.old)
        (setting_edit place path.now ∷ [])) }
{
    match path.get(..setting_steps(path)) {
        Some(setting) => edits.remove(place, setting),
        None => edits.remove(place, path),
    }
}
