//! The objects of a profile beside a list: what a runner needs beside the settings of tests.
ghost use Rattle.std.specs.Prelude.{◌≡◌, IfOk, Some, map, option_map, string_bytes};
ghost use Rattle.filter_language.specs.Filtersets.{marks_view};
ghost use Rattle.filter_engine.specs.Compiling.{names_of};
ghost use Rattle.filter_engine.specs.Engine.{filter_holds, filter_holds_binary};
ghost use Rattle.filter_inputs.specs.Lists.ListView.{list_view};
ghost use Rattle.filter_inputs.specs.Lists.Lists.{all_tests};
ghost use Rattle.nextest_inheritance.specs.View.{borrowed_view};
ghost use Rattle.nextest_settings.specs.Profiles.Meaning.{profile_meaning};
ghost use Rattle.nextest_sources.specs.WarningsView.{warnings_view};
ghost use Rattle.nextest_tables.specs.FileTexts.{names_in};
ghost use Rattle.serde_json.specs.View.{view};
ghost use Rattle.rinqebo_objects.specs.Scripts.{directories_view};
ghost use Rattle.rinqebo_objects.specs.Uses.{AreUsesIn};
ghost use Rattle.rinqebo_results.specs.ListedBy.{basis_of};
ghost use Rattle.rinqebo_results.specs.Listed.{AreObjectsListed, FindsWarnings, directories_for};

use crate::list_report::Profile;
use filter_engine::NextestTally;
use nextest_config::{DefaultConfigWarnings, MergedProfile};
use rinqebo_load::{Config, Session};
use rinqebo_object_origins::object_origins;
use rinqebo_objects::{
    Directories, Listed, ObjectOrigins, ScriptUse, Surroundings, objects_by_uses,
};
use rinqebo_report::ExactValue;
use std::alloc::{AllocError, Global};
use std::collections::BTreeMap;

/// The names of profiles, in the order of their bytes.
fn names_of_profiles(
    alloc: Global,
    profiles: &BTreeMap<String, MergedProfile>,
) -> Result<Vec<String>, AllocError>
    ensures { IfOk result (λ names. map string_bytes names.items
        ≡ map (λ e. string_bytes e.0) profiles.now.entries) }
{
    let mut names = Vec::new(alloc);
    for name in profiles.keys() {
        names.push(name.clone()?)?;
    }
    Ok(names)
}

/// The names of the profiles of a configuration, in the order of their bytes.
fn profile_names(alloc: Global, config: &Config) -> Result<Vec<String>, AllocError>
    ensures { IfOk result (λ names. map string_bytes names.items
        ≡ names_in config.now.config.profiles) }
{
    let names = names_of_profiles(alloc, config.profiles())?;
    Ok(names)
}

/// Directories that programs are relative to.
fn directories<'a>(root: &'a str, target: &'a str) -> Directories<'a>
    ensures root { result.root.now ≡ root.now }
    ensures target { result.target.now ≡ target.now }
{
    Directories { root, target }
}

/// The directories that programs are relative to: the root of the workspace, and the target
/// directory of the list of a session, if that has one.
fn directories_of<'a>(session: &'a Session<'_>) -> Option<Directories<'a>>
    ensures { directories_view result
        ≡ directories_for (string_bytes session.now.gathered.now.paths.workspace_root)
        (list_view session.now.tests) }
{
    match &session.tests.target_directory {
        Some(target) => {
            let root = session.gathered.paths.workspace_root.as_str();
            Some(directories(root, target.as_str()))
        }
        None => None,
    }
}

/// What the objects of a profile have from its configuration, from the list and from the files.
fn surroundings<'a>(
    profiles: &'a [String],
    warnings: &'a DefaultConfigWarnings,
    directories: Option<Directories<'a>>,
    origins: &'a ObjectOrigins,
) -> Surroundings<'a>
    ensures profiles { result.profiles.now ≡ profiles.now }
    ensures warnings { result.warnings.now ≡ warnings.now }
    ensures directories { result.directories ≡ directories.entry }
    ensures origins { option_map (λ origins. origins.now) result.origins ≡ Some origins.now }
{
    Surroundings {
        profiles,
        warnings,
        directories,
        origins: Some(origins),
    }
}

/// The objects of a profile of a configuration, with the warnings of its load, with what the list of
/// a session uses of its scripts, and with where the values of the run and the groups come from:
/// each setup script has the tests that enable it, and the wrappers are those of tests and binaries
/// of the list. It is known what each test uses, so no filter is evaluated for a test. Programs are
/// joined to the root and to the target directory of the list, if that has one.
pub fn objects_of_list<'c>(
    alloc: Global,
    session: &Session<'_>,
    config: &Config,
    warnings: &DefaultConfigWarnings,
    profile: &Profile<'c>,
    chain: &[&str],
    uses: &[ScriptUse<'c>],
) -> Result<ExactValue, AllocError>
    ensures objects { let profile = profile_meaning (marks_view names_of) profile.now in
        AreUsesIn filter_holds profile (all_tests (list_view session.now.tests)) uses.now
        → IfOk result (λ objects. AreObjectsListed filter_holds filter_holds_binary
        (basis_of session.now (borrowed_view chain.now)) profile
        (string_bytes session.now.gathered.now.paths.workspace_root)
        (list_view session.now.tests) (names_in config.now.config.profiles)
        (view objects.value)) }
    ensures findings { let profile = profile_meaning (marks_view names_of) profile.now in
        AreUsesIn filter_holds profile (all_tests (list_view session.now.tests)) uses.now
        → IfOk result (λ objects.
        FindsWarnings (warnings_view warnings.now) (view objects.value)) }
{
    let names = profile_names(alloc, config)?;
    let tests = session.tests.queries(alloc)?;
    let binaries = session.tests.binary_queries(alloc)?;
    let origins = object_origins(alloc, &session.layers, chain, profile)?;
    let mut tally = NextestTally::new();
    let around = surroundings(&names, &*warnings, directories_of(session), &origins);
    let list = Listed {
        tests: &tests,
        binaries: &binaries,
    };
    let objects = objects_by_uses(alloc, profile, around, list, uses, &mut tally)?;
    Ok(objects)
}
