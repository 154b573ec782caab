//! The groups that rules write: each custom one has to be known.
ghost use Rattle.std.specs.Prelude.{◌≡◌, ◌++◌, ◌||◌, map, ℕ, List, IfOk, OnOk, option_map, filter_map};
ghost use Rattle.std.specs.BTreeSet.{contains_text};
ghost use Rattle.nextest_sources.specs.Endings.{ending, Found};
ghost use Rattle.nextest_sources.specs.Errors.{group_error_view};
ghost use Rattle.nextest_sources.specs.InputFaults.{fault_at_source};
ghost use Rattle.nextest_sources.specs.Sources.{source_view};
ghost use Rattle.nextest_rules.specs.Known as known_specs;
ghost use Rattle.nextest_rules.specs.Meaning.{override_meaning};
ghost use Rattle.nextest_rules.specs.RuleFaults.{group_fault, group_faults_in};
ghost use Rattle.nextest_rules.specs.Steps.{group_cause_in};
ghost use Rattle.nextest_rules.specs.View.{order_view, override_rule_view};

use crate::lists::push_some;
use crate::names::copy_names;
use crate::overrides::CompiledOverride;
use crate::profile_order::NamedProfile;
use nextest_elements::TestGroup;
use nextest_engines::{Filters, Specs};
use nextest_sources::{
    ConfigParseError, ConfigParseErrorKind, ConfigSource, UnknownTestGroupError,
};
use std::alloc::{AllocError, Global};
use std::collections::BTreeSet;

/// What is wrong with the group that a rule of a profile writes, if it is one that is not known.
fn unknown_group(
    alloc: Global,
    known: &BTreeSet<String>,
    profile: &str,
    group: &Option<TestGroup>,
) -> Result<Option<UnknownTestGroupError>, AllocError>
    ensures { IfOk result (λ error. option_map group_error_view error
        ≡ group_fault (contains_text known.now) profile.now group.now) }
{
    let Some(group) = group else {
        return Ok(None);
    };
    let TestGroup::Custom(group) = group else {
        return Ok(None);
    };
    if known.contains(group.as_str()) {
        return Ok(None);
    }
    Ok(Some(UnknownTestGroupError {
        profile_name: String::from_str(alloc, profile)?,
        name: group.clone()?,
    }))
}

/// Adds what is wrong with the groups that the overrides of a profile write.
fn add_unknown<F: Filters, S: Specs>(
    alloc: Global,
    known: &BTreeSet<String>,
    profile: &str,
    overrides: &[CompiledOverride<F, S>],
    errors: &mut Vec<UnknownTestGroupError>,
) -> Result<(), AllocError>
    ensures { OnOk result (map group_error_view errors.new.items
        ≡ map group_error_view errors.old.items ++ filter_map
        (λ r. group_fault (contains_text known.now) profile.now r.writes.settings.test_group)
        (map (override_meaning F.meaning S.spec_meaning) (map override_rule_view overrides.now))) }
{
    for rule in overrides {
        let group = &rule.settings.outputs.test_group;
        push_some(errors, unknown_group(alloc, known, profile, group)?)?;
    }
    Ok(())
}

/// What is wrong with the groups that the overrides of profiles write.
fn groups_not_known<F: Filters, S: Specs>(
    alloc: Global,
    known: &BTreeSet<String>,
    order: &[NamedProfile<'_, F, S>],
) -> Result<Vec<UnknownTestGroupError>, AllocError>
    ensures { IfOk result (λ errors. map group_error_view errors.items ≡ group_faults_in
        (contains_text known.now) (order_view F.meaning S.spec_meaning order.now)) }
{
    let mut errors = Vec::new(alloc);
    for (name, profile) in order {
        add_unknown(alloc, known, name, &profile.overrides, &mut errors)?;
    }
    Ok(errors)
}

/// The groups that are known, with the global one.
fn with_global(alloc: Global, known: &BTreeSet<String>) -> Result<BTreeSet<String>, AllocError>
    ensures { IfOk result (λ all. (q : List ℕ) → contains_text all q
        ≡ known_specs.with_global (contains_text known.now) q) }
{
    let mut all = BTreeSet::new(alloc);
    all.insert(String::from_str(alloc, TestGroup::GLOBAL_STR)?)?;
    copy_names(&mut all, known)?;
    Ok(all)
}

/// Refuses groups that overrides write and that are not known, with all of them and with the groups
/// that are.
pub(crate) fn check_groups<F: Filters, S: Specs>(
    alloc: Global,
    source: &ConfigSource,
    known: &BTreeSet<String>,
    order: &[NamedProfile<'_, F, S>],
) -> Result<(), ConfigParseError>
    ensures { Found (fault_at_source (source_view source.now) (group_cause_in
        (contains_text known.now) (order_view F.meaning S.spec_meaning order.now)))
        (ending result) }
{
    let errors = groups_not_known(alloc, known, order)?;
    if errors.is_empty() {
        return Ok(());
    }
    let known_groups = with_global(alloc, known)?;
    let kind = ConfigParseErrorKind::UnknownTestGroups {
        errors,
        known_groups,
    };
    Err(ConfigParseError::at(source, kind))
}
