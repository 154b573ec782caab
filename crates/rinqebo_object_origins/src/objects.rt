//! Where the values of a run and the groups of a profile come from.
ghost use Rattle.std.specs.Prelude.{◌∷◌, [], IfOk, None, codes, option_map};
ghost use Rattle.std.specs.List.{AllZip};
ghost use Rattle.filter_language.specs.Filtersets.{marks_view};
ghost use Rattle.filter_engine.specs.Compiling.{names_of};
ghost use Rattle.nextest_elements.specs.TestGroup.{custom_group_text};
ghost use Rattle.nextest_inheritance.specs.View.{borrowed_view};
ghost use Rattle.nextest_load.specs.ConfigView.{groups_view};
ghost use Rattle.nextest_settings.specs.Profiles.Meaning.{profile_meaning};
ghost use Rattle.rinqebo_origins.specs.KnownOrigins.{AreOriginsAt};
ghost use Rattle.rinqebo_origins.specs.ProfileOrigins.{AreProfileOrigins};
ghost use Rattle.rinqebo_origins.specs.RulePlaces.{place_view};
ghost use Rattle.rinqebo_rules.specs.Runs.{filtering_place};
ghost use Rattle.rinqebo_object_origins.specs.ObjectOrigins.{AreBoundOrigins, AreGroupOrigins, AreNameOrigins, AreObjectOrigins, AreOutputOrigins, AreRunOrigins};

use crate::beside::origins_beside;
use filter_engine::NextestFilters;
use nextest_elements::{CustomTestGroup, TestGroupConfig};
use nextest_settings::EvaluatableProfile;
use platform_language::TargetSpecs;
use rinqebo_keys::SettingKey;
use rinqebo_objects::{
    BoundOrigins, GroupOrigins, NameOrigins, ObjectOrigins, OutputOrigins, RunOrigins,
};
use rinqebo_origins::{RulePlace, profile_grounds};
use rinqebo_report::Origin;
use rinqebo_request::Layer;
use rinqebo_rules::filtering_place;
use std::alloc::{AllocError, Global};
use std::collections::BTreeMap;

/// A profile on the platforms of a build.
type Profile<'c> = EvaluatableProfile<'c, NextestFilters, TargetSpecs>;

/// Where the value at a key comes from that the nearest profile of a chain writes.
fn of_chain(
    alloc: Global,
    layers: &[Layer],
    chain: &[&str],
    table: Option<&'static str>,
    name: &'static str,
) -> Result<Vec<Origin>, AllocError>
    ensures { IfOk result (λ origins. AreProfileOrigins layers.now (borrowed_view chain.now)
        (option_map (λ table. table.now) table.entry) name.entry.now origins.items) }
{
    profile_grounds(alloc, layers, chain, SettingKey { table, key: name })
}

/// Where what bounds a run comes from.
fn bound_origins(
    alloc: Global,
    layers: &[Layer],
    chain: &[&str],
) -> Result<BoundOrigins, AllocError>
    ensures { IfOk result (AreBoundOrigins
        (record { layers = layers.now; chain = borrowed_view chain.now })) }
{
    Ok(BoundOrigins {
        test_threads: of_chain(alloc, layers, chain, None, "test-threads")?,
        max_fail: of_chain(alloc, layers, chain, None, "fail-fast")?,
        global_timeout: of_chain(alloc, layers, chain, None, "global-timeout")?,
        benchmark_timeout: of_chain(alloc, layers, chain, Some("bench"), "global-timeout")?,
    })
}

/// Where what a run shows and stores comes from.
fn output_origins(
    alloc: Global,
    layers: &[Layer],
    chain: &[&str],
) -> Result<OutputOrigins, AllocError>
    ensures { IfOk result (AreOutputOrigins
        (record { layers = layers.now; chain = borrowed_view chain.now })) }
{
    Ok(OutputOrigins {
        status_level: of_chain(alloc, layers, chain, None, "status-level")?,
        final_status_level: of_chain(alloc, layers, chain, None, "final-status-level")?,
        report_path: of_chain(alloc, layers, chain, Some("junit"), "path")?,
        report_name: of_chain(alloc, layers, chain, Some("junit"), "report-name")?,
        store_dir: origins_beside(alloc, layers, &["store", "dir"])?,
    })
}

/// Where the default filter that counts comes from: the override at a place, or without one the
/// nearest profile of a chain that writes one.
fn filter_origins(
    alloc: Global,
    layers: &[Layer],
    chain: &[&str],
    place: Option<RulePlace<'_>>,
) -> Result<Vec<Origin>, AllocError>
    ensures { IfOk result (λ origins. AreOriginsAt
        (record { layers = layers.now; chain = borrowed_view chain.now })
        (option_map place_view place.entry) None (codes "default-filter") origins.items) }
{
    let key = SettingKey {
        table: None,
        key: "default-filter",
    };
    match place {
        Some(place) => place.origins_at_key(alloc, layers, key),
        None => profile_grounds(alloc, layers, chain, key),
    }
}

/// Where the default filter that counts in a profile comes from.
fn default_filter_origins(
    alloc: Global,
    layers: &[Layer],
    chain: &[&str],
    profile: &Profile<'_>,
) -> Result<Vec<Origin>, AllocError>
    ensures { let meant = profile_meaning (marks_view names_of) profile.now in
        IfOk result (λ origins. AreOriginsAt
        (record { layers = layers.now; chain = borrowed_view chain.now }) (filtering_place meant)
        None (codes "default-filter") origins.items) }
{
    let place = filtering_place(profile);
    filter_origins(alloc, layers, chain, place)
}

/// Where the parent of a profile comes from, which the profile alone writes.
fn parent_origins(
    alloc: Global,
    layers: &[Layer],
    profile: &Profile<'_>,
) -> Result<Vec<Origin>, AllocError>
    ensures { IfOk result (λ origins. AreProfileOrigins layers.now
        (profile.now.facts.name ∷ []) None (codes "inherits") origins.items) }
{
    let name = profile.name();
    of_chain(alloc, layers, &[name], None, "inherits")
}

/// Where the parent of a profile, its default filter, and the arguments of tests come from.
fn name_origins(
    alloc: Global,
    layers: &[Layer],
    chain: &[&str],
    profile: &Profile<'_>,
) -> Result<NameOrigins, AllocError>
    ensures { let meant = profile_meaning (marks_view names_of) profile.now in
        IfOk result (AreNameOrigins
        (record { layers = layers.now; chain = borrowed_view chain.now }) (filtering_place meant)
        meant.facts.name) }
{
    Ok(NameOrigins {
        inherits: parent_origins(alloc, layers, profile)?,
        default_filter: default_filter_origins(alloc, layers, chain, profile)?,
        run_extra_args: of_chain(alloc, layers, chain, None, "run-extra-args")?,
    })
}

/// Where the values that a profile has for a whole run come from.
fn run_origins(
    alloc: Global,
    layers: &[Layer],
    chain: &[&str],
    profile: &Profile<'_>,
) -> Result<RunOrigins, AllocError>
    ensures { let meant = profile_meaning (marks_view names_of) profile.now in
        IfOk result (AreRunOrigins
        (record { layers = layers.now; chain = borrowed_view chain.now }) (filtering_place meant)
        meant.facts.name) }
{
    Ok(RunOrigins {
        names: name_origins(alloc, layers, chain, profile)?,
        output: output_origins(alloc, layers, chain)?,
        bounds: bound_origins(alloc, layers, chain)?,
    })
}

/// Where the number of threads of a group comes from.
fn group_origins(
    alloc: Global,
    layers: &[Layer],
    group: &CustomTestGroup,
) -> Result<GroupOrigins, AllocError>
    ensures { IfOk result (AreGroupOrigins layers.now (custom_group_text group.now)) }
{
    let name = group.as_str();
    let origins = origins_beside(alloc, layers, &["test-groups", name, "max-threads"])?;
    Ok(GroupOrigins {
        name: String::from_str(alloc, name)?,
        origins,
    })
}

/// Where the numbers of threads of groups come from.
fn all_group_origins(
    alloc: Global,
    layers: &[Layer],
    groups: &BTreeMap<CustomTestGroup, TestGroupConfig>,
) -> Result<Vec<GroupOrigins>, AllocError>
    ensures { IfOk result (λ told. AllZip (λ entry. AreGroupOrigins layers.now entry.0)
        (groups_view groups.now.entries) told.items) }
{
    let mut told = Vec::new(alloc);
    for (group, _) in groups.iter() {
        told.push(group_origins(alloc, layers, group)?)?;
    }
    Ok(told)
}

/// Where the numbers of threads of the groups of a profile's configuration come from.
fn origins_of_groups(
    alloc: Global,
    layers: &[Layer],
    profile: &Profile<'_>,
) -> Result<Vec<GroupOrigins>, AllocError>
    ensures { IfOk result (λ told. AllZip (λ entry. AreGroupOrigins layers.now entry.0)
        profile.now.facts.groups told.items) }
{
    all_group_origins(alloc, layers, profile.test_group_config())
}

/// Where the values that a profile has for a whole run come from, and the groups of its
/// configuration.
pub fn object_origins(
    alloc: Global,
    layers: &[Layer],
    chain: &[&str],
    profile: &Profile<'_>,
) -> Result<ObjectOrigins, AllocError>
    ensures { let meant = profile_meaning (marks_view names_of) profile.now in
        IfOk result (AreObjectOrigins
        (record { layers = layers.now; chain = borrowed_view chain.now }) meant) }
{
    let run = run_origins(alloc, layers, chain, profile)?;
    let groups = origins_of_groups(alloc, layers, profile)?;
    Ok(ObjectOrigins { run, groups })
}
