//! The objects of a profile that a runner needs.
ghost use Rattle.std.specs.Prelude.{◌≡◌, ◌++◌, IfOk, None, Some, map, option_map, string_bytes};
ghost use Rattle.serde_json.specs.Data.{Data};
ghost use Rattle.serde_json.specs.View.{view};
ghost use Rattle.serde_json.specs.Written.{compact_text};
ghost use Rattle.nextest_engines.specs.Engines.{binary_view, test_view};
ghost use Rattle.nextest_settings.specs.Profiles.Meaning.{profile_meaning};
ghost use Rattle.nextest_sources.specs.WarningsView.{warnings_view};
ghost use Rattle.rinqebo_objects.specs.Objects.{AreObjectsOf, objects_data};
ghost use Rattle.rinqebo_objects.specs.Scripts.{directories_view};
ghost use Rattle.rinqebo_objects.specs.Used.{evaluated_for_lists, listed_view, used_in};
ghost use Rattle.rinqebo_objects.specs.Uses.{AreUsesIn, used_by};

use crate::evaluated_uses::uses_of;
use crate::groups::groups_json;
use crate::list_use::{ListUse, known_use};
use crate::listed::Listed;
use crate::origins::{ObjectOrigins, optional_origins_json};
use crate::run::{RunSettings, run_json};
use crate::script_use::ScriptUse;
use crate::scripts::{Directories, setup_scripts_json, wrapper_scripts_json};
use crate::warnings::warnings_json;
use crate::wrappers::ids_used;
use nextest_engines::{Filters, Specs, Tally};
use nextest_settings::EvaluatableProfile;
use nextest_sources::DefaultConfigWarnings;
use rinqebo_report::ExactValue;
use serde_json::{Value, json};
use std::alloc::{AllocError, Global};

/// What the objects of a profile have from its configuration.
#[derive(Clone, Copy)]
pub struct Surroundings<'a> {
    /// The names of all profiles.
    pub profiles: &'a [String],
    /// The warnings of the load.
    pub warnings: &'a DefaultConfigWarnings,
    /// The directories that programs are relative to, if they are joined.
    pub directories: Option<Directories<'a>>,
    /// Where the values of the run and the groups come from, if that is known.
    pub origins: Option<&'a ObjectOrigins>,
}

/// The objects of a profile, with the values that it has for a whole run.
fn objects_with<F: Filters, S: Specs>(
    alloc: Global,
    profile: &EvaluatableProfile<'_, F, S>,
    run: &RunSettings<'_>,
    around: Surroundings<'_>,
    list: Option<ListUse<'_, '_>>,
) -> Result<Value, AllocError>
    ensures { let profiles = map string_bytes around.entry.profiles.now in
        let warnings = warnings_view around.entry.warnings.now in
        let directories = directories_view around.entry.directories in
        let used = used_by list.entry in
        let origins = option_map (λ origins. origins.now) around.entry.origins in
        IfOk result (λ value. view value
        ≡ objects_data profile.now.facts run.now profiles warnings directories used origins) }
{
    let scripts = profile.script_config();
    let findings = warnings_json(alloc, around.warnings)?;
    let groups = groups_json(alloc, profile.test_group_config())?;
    let run = run_json(alloc, run, around.profiles)?;
    let setup = setup_scripts_json(alloc, around.directories, &scripts.setup, list)?;
    let wrappers = wrapper_scripts_json(alloc, around.directories, &scripts.wrapper, list)?;
    let origins = optional_origins_json(alloc, around.origins)?;
    json!(in alloc; {
        "run": run,
        "groups": groups,
        "setup-scripts": setup,
        "wrappers": wrappers,
        "findings": findings,
        "origins": origins
    })
}

/// The objects of a profile, with what a list uses of its scripts, if there is a list.
fn objects_of<F: Filters, S: Specs>(
    alloc: Global,
    profile: &EvaluatableProfile<'_, F, S>,
    around: Surroundings<'_>,
    list: Option<ListUse<'_, '_>>,
) -> Result<ExactValue, AllocError>
    ensures { let profiles = map string_bytes around.entry.profiles.now in
        let warnings = warnings_view around.entry.warnings.now in
        let directories = directories_view around.entry.directories in
        let used = used_by list.entry in
        let origins = option_map (λ origins. origins.now) around.entry.origins in
        IfOk result (λ objects. AreObjectsOf profile.now.facts profile.now.default_filter.text
        profiles warnings directories used origins (view objects.value)) }
{
    let run = RunSettings::of(alloc, profile)?;
    let value = objects_with(alloc, profile, &run, around, list)?;
    Ok(ExactValue { value })
}

/// The objects of a profile with a list, if it is known what each of its tests uses of the scripts
/// of the profile. They are those of `objects_json`. No rule is evaluated for a test, but only for
/// the list wrappers of binaries.
pub fn objects_by_uses<'c, F: Filters, S: Specs>(
    alloc: Global,
    profile: &EvaluatableProfile<'c, F, S>,
    around: Surroundings<'_>,
    list: Listed<'_>,
    uses: &[ScriptUse<'c>],
    tally: &mut F::Tally,
) -> Result<ExactValue, AllocError>
    ensures objects { let profiles = map string_bytes around.entry.profiles.now in
        let warnings = warnings_view around.entry.warnings.now in
        let directories = directories_view around.entry.directories in
        let meant = profile_meaning F.meaning profile.now in
        let used = used_in F.holds F.holds_binary meant (listed_view (Some list.entry)) in
        let origins = option_map (λ origins. origins.now) around.entry.origins in
        AreUsesIn F.holds meant (map test_view list.entry.tests.now) uses.now
        → IfOk result (λ objects. AreObjectsOf profile.now.facts profile.now.default_filter.text
        profiles warnings directories used origins (view objects.value)) }
    ensures tally { let meant = profile_meaning F.meaning profile.now in
        IfOk result (λ _. F.Tally.numbers tally.new ≡ F.Tally.numbers tally.old
        ++ evaluated_for_lists F.holds_binary meant (map binary_view list.entry.binaries.now)) }
{
    let wrappers = ids_used(alloc, profile, uses, list.binaries, tally)?;
    let known = known_use(list.tests, uses, &wrappers);
    let objects = objects_of(alloc, profile, around, Some(known))?;
    Ok(objects)
}

/// The objects of a profile with a list.
fn objects_of_list<F: Filters, S: Specs>(
    alloc: Global,
    profile: &EvaluatableProfile<'_, F, S>,
    around: Surroundings<'_>,
    list: Listed<'_>,
    tally: &mut F::Tally,
) -> Result<ExactValue, AllocError>
    ensures { let profiles = map string_bytes around.entry.profiles.now in
        let warnings = warnings_view around.entry.warnings.now in
        let directories = directories_view around.entry.directories in
        let meant = profile_meaning F.meaning profile.now in
        let used = used_in F.holds F.holds_binary meant (listed_view (Some list.entry)) in
        let origins = option_map (λ origins. origins.now) around.entry.origins in
        IfOk result (λ objects. AreObjectsOf profile.now.facts profile.now.default_filter.text
        profiles warnings directories used origins (view objects.value)) }
{
    let uses = uses_of(alloc, profile, list.tests, tally)?;
    let objects = objects_by_uses(alloc, profile, around, list, &uses, tally)?;
    Ok(objects)
}

/// The objects of a profile: an object with the members `run`, `groups`, `setup-scripts`,
/// `wrappers`, `findings` and `origins`. If the directories are given, programs are joined to them.
/// If a list is given, each setup script has those of its tests that enable it, and the wrappers are
/// those that the list uses: they wrap the run of some test or the listing of some binary. If it is
/// not given where the values of the run and the groups come from, `origins` is null.
pub fn objects_json<F: Filters, S: Specs>(
    alloc: Global,
    profile: &EvaluatableProfile<'_, F, S>,
    around: Surroundings<'_>,
    list: Option<Listed<'_>>,
    tally: &mut F::Tally,
) -> Result<ExactValue, AllocError>
    ensures { let profiles = map string_bytes around.entry.profiles.now in
        let warnings = warnings_view around.entry.warnings.now in
        let directories = directories_view around.entry.directories in
        let meant = profile_meaning F.meaning profile.now in
        let used = used_in F.holds F.holds_binary meant (listed_view list.entry) in
        let origins = option_map (λ origins. origins.now) around.entry.origins in
        IfOk result (λ objects. AreObjectsOf profile.now.facts profile.now.default_filter.text
        profiles warnings directories used origins (view objects.value)) }
{
    match list {
        Some(list) => objects_of_list(alloc, profile, around, list, tally),
        None => objects_of(alloc, profile, around, None),
    }
}

/// The objects of a profile without a list of tests, as a text without spaces.
pub fn objects_text<F: Filters, S: Specs>(
    alloc: Global,
    profile: &EvaluatableProfile<'_, F, S>,
    around: Surroundings<'_>,
    tally: &mut F::Tally,
) -> Result<String, AllocError>
    ensures { let profiles = map string_bytes around.entry.profiles.now in
        let warnings = warnings_view around.entry.warnings.now in
        let directories = directories_view around.entry.directories in
        let origins = option_map (λ origins. origins.now) around.entry.origins in
        IfOk result (λ text. (value : Data)
        × AreObjectsOf profile.now.facts profile.now.default_filter.text profiles warnings
        directories None origins value
        × (string_bytes text ≡ compact_text value)) }
{
    let objects = objects_json(alloc, profile, around, None, tally)?;
    let text = objects.text(alloc)?;
    Ok(text)
}
