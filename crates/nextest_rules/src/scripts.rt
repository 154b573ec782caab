//! The scripts that rules name: each has to be known, and to be of the kind that its use requires.
ghost use Rattle.std.specs.Prelude.{◌≡◌, ◌∷◌, [], map, ℕ, List, IfOk, OnOk, option_map, option_to_list};
ghost use Rattle.std.specs.BTreeSet.{contains_text};
ghost use Rattle.nextest_scripts.specs.ScriptId.{script_text};
ghost use Rattle.nextest_scripts.specs.declared.script_type.ProfileScriptType.TheVariants as script_uses;
ghost use Rattle.nextest_sources.specs.Endings.{ending, Found};
ghost use Rattle.nextest_sources.specs.Errors.{list_filter_view, script_errors_view, unknown_script_view, wrong_script_view};
ghost use Rattle.nextest_sources.specs.InputFaults.{fault_at_source};
ghost use Rattle.nextest_sources.specs.Sources.{source_view};
ghost use Rattle.nextest_tables.specs.View.{uses_view};
ghost use Rattle.nextest_rules.specs.Known.{known_scripts};
ghost use Rattle.nextest_rules.specs.KnownView.{known_view};
ghost use Rattle.nextest_rules.specs.Meaning.{script_rule_meaning};
ghost use Rattle.nextest_rules.specs.RuleFaults as faults;
ghost use Rattle.nextest_rules.specs.RuleFaults.{AreMore, rule_script_faults, script_faults_in, use_faults, uses_of};
ghost use Rattle.nextest_rules.specs.Steps as steps;
ghost use Rattle.nextest_rules.specs.Steps.{script_cause_in};
ghost use Rattle.nextest_rules.specs.View.{order_view, script_rule_view};

use crate::known::KnownNames;
use crate::lists::push_some;
use crate::names::copy_names;
use crate::overrides::CompiledProfileScripts;
use crate::profile_order::NamedProfile;
use nextest_engines::{Filters, Specs};
use nextest_scripts::{ProfileScriptType, ScriptId, ScriptType};
use nextest_sources::{
    ConfigParseError, ConfigParseErrorKind, ConfigSource, ProfileListScriptUsesRunFiltersError,
    ProfileScriptErrors, ProfileUnknownScriptError, ProfileWrongConfigScriptTypeError,
};
use nextest_tables::ScriptUses;
use std::alloc::{AllocError, Global};
use std::collections::BTreeSet;

/// Whether a script is known, for any use.
fn is_known(known: &KnownNames, id: &ScriptId) -> bool
    ensures { result ≡ faults.is_known_script (known_view known.now) (script_text id.now) }
{
    let name = id.as_identifier().as_str();
    known.setup_scripts.contains(name) || known.wrapper_scripts.contains(name)
}

/// Whether a script is known for a use.
fn serves(known: &KnownNames, attempted: ProfileScriptType, id: &ScriptId) -> bool
    ensures { result ≡ faults.serves (known_view known.now) attempted (script_text id.now) }
{
    let name = id.as_identifier().as_str();
    match attempted {
        ProfileScriptType::Setup => known.setup_scripts.contains(name),
        ProfileScriptType::ListWrapper | ProfileScriptType::RunWrapper => {
            known.wrapper_scripts.contains(name)
        }
    }
}

/// The kind that a use does not require.
fn other_kind(attempted: ProfileScriptType) -> ScriptType
    ensures { result ≡ faults.other_kind attempted }
{
    match attempted {
        ProfileScriptType::Setup => ScriptType::Wrapper,
        ProfileScriptType::ListWrapper | ProfileScriptType::RunWrapper => ScriptType::Setup,
    }
}

/// What is wrong with a script that a rule of a profile names, if it is not known.
fn unknown_script(
    alloc: Global,
    known: &KnownNames,
    profile: &str,
    id: &ScriptId,
) -> Result<Option<ProfileUnknownScriptError>, AllocError>
    ensures { IfOk result (λ error. option_map unknown_script_view error
        ≡ faults.unknown_script (known_view known.now) profile.now (script_text id.now)) }
{
    if is_known(known, id) {
        return Ok(None);
    }
    Ok(Some(ProfileUnknownScriptError {
        profile_name: String::from_str(alloc, profile)?,
        name: id.clone()?,
    }))
}

/// What is wrong with a script that a rule of a profile names, if it is known and not for this use.
fn wrong_script(
    alloc: Global,
    known: &KnownNames,
    profile: &str,
    id: &ScriptId,
    attempted: ProfileScriptType,
) -> Result<Option<ProfileWrongConfigScriptTypeError>, AllocError>
    ensures { IfOk result (λ error. option_map wrong_script_view error
        ≡ faults.wrong_script (known_view known.now) profile.now (script_text id.now, attempted)) }
{
    if !is_known(known, id) || serves(known, attempted, id) {
        return Ok(None);
    }
    Ok(Some(ProfileWrongConfigScriptTypeError {
        profile_name: String::from_str(alloc, profile)?,
        name: id.clone()?,
        attempted,
        actual: other_kind(attempted),
    }))
}

/// What is wrong with the filter of a rule of a profile that is beside a list wrapper.
fn list_filter<F: Filters>(
    alloc: Global,
    known: &KnownNames,
    profile: &str,
    filter: &Option<F::Expr>,
    wrapper: &Option<ScriptId>,
) -> Result<Option<ProfileListScriptUsesRunFiltersError>, AllocError>
    ensures { IfOk result (λ error. option_map list_filter_view error
        ≡ faults.list_filter F.leaves (known_view known.now) profile.now
        (option_map F.meaning filter.now) (option_map script_text wrapper.now)) }
{
    let Some(id) = wrapper else {
        return Ok(None);
    };
    let Some(filter) = filter else {
        return Ok(None);
    };
    if !is_known(known, id) {
        return Ok(None);
    }
    let filters = F::runtime_only_leaves(alloc, filter)?;
    if filters.is_empty() {
        return Ok(None);
    }
    Ok(Some(ProfileListScriptUsesRunFiltersError {
        profile_name: String::from_str(alloc, profile)?,
        name: id.clone()?,
        filters,
    }))
}

/// Adds what is wrong with one use of a script.
fn add_use(
    alloc: Global,
    known: &KnownNames,
    profile: &str,
    id: &ScriptId,
    attempted: ProfileScriptType,
    errors: &mut ProfileScriptErrors,
) -> Result<(), AllocError>
    ensures { OnOk result (AreMore (script_errors_view errors.old)
        (use_faults (known_view known.now) profile.now ((script_text id.now, attempted) ∷ []))
        (script_errors_view errors.new)) }
{
    let error = unknown_script(alloc, known, profile, id)?;
    push_some(&mut errors.unknown_scripts, error)?;
    let error = wrong_script(alloc, known, profile, id, attempted)?;
    push_some(&mut errors.wrong_script_types, error)
}

/// Adds what is wrong with the setup scripts that a rule names.
fn add_setup(
    alloc: Global,
    known: &KnownNames,
    profile: &str,
    ids: &[ScriptId],
    errors: &mut ProfileScriptErrors,
) -> Result<(), AllocError>
    ensures { OnOk result (AreMore (script_errors_view errors.old)
        (use_faults (known_view known.now) profile.now
        (map (λ id. (id, script_uses.Setup)) (map script_text ids.now)))
        (script_errors_view errors.new)) }
{
    for id in ids {
        add_use(alloc, known, profile, id, ProfileScriptType::Setup, errors)?;
    }
    Ok(())
}

/// Adds what is wrong with a wrapper, if a rule names one.
fn add_wrapper(
    alloc: Global,
    known: &KnownNames,
    profile: &str,
    id: &Option<ScriptId>,
    attempted: ProfileScriptType,
    errors: &mut ProfileScriptErrors,
) -> Result<(), AllocError>
    ensures { OnOk result (AreMore (script_errors_view errors.old)
        (use_faults (known_view known.now) profile.now
        (map (λ id. (id, attempted)) (option_to_list (option_map script_text id.now))))
        (script_errors_view errors.new)) }
{
    let Some(id) = id else {
        return Ok(());
    };
    add_use(alloc, known, profile, id, attempted, errors)
}

/// Adds what is wrong with the scripts that a rule names.
fn add_uses(
    alloc: Global,
    known: &KnownNames,
    profile: &str,
    scripts: &ScriptUses,
    errors: &mut ProfileScriptErrors,
) -> Result<(), AllocError>
    ensures { OnOk result (AreMore (script_errors_view errors.old)
        (use_faults (known_view known.now) profile.now (uses_of (uses_view scripts.now)))
        (script_errors_view errors.new)) }
{
    add_setup(alloc, known, profile, &scripts.setup, errors)?;
    let attempted = ProfileScriptType::ListWrapper;
    add_wrapper(
        alloc,
        known,
        profile,
        &scripts.list_wrapper,
        attempted,
        errors,
    )?;
    let attempted = ProfileScriptType::RunWrapper;
    add_wrapper(
        alloc,
        known,
        profile,
        &scripts.run_wrapper,
        attempted,
        errors,
    )
}

/// Adds what is wrong with the scripts that script rules of a profile name, and with the filters
/// beside list wrappers.
fn add_rules<F: Filters, S: Specs>(
    alloc: Global,
    known: &KnownNames,
    profile: &str,
    rules: &[CompiledProfileScripts<F, S>],
    errors: &mut ProfileScriptErrors,
) -> Result<(), AllocError>
    ensures { OnOk result (AreMore (script_errors_view errors.old)
        (rule_script_faults F.leaves (known_view known.now) profile.now
        (map (script_rule_meaning F.meaning S.spec_meaning) (map script_rule_view rules.now)))
        (script_errors_view errors.new)) }
{
    for rule in rules {
        let scripts = &rule.scripts;
        add_uses(alloc, known, profile, scripts, errors)?;
        let error = list_filter::<F>(alloc, known, profile, &rule.filter, &scripts.list_wrapper)?;
        push_some(&mut errors.list_scripts_using_run_filters, error)?;
    }
    Ok(())
}

/// All that is wrong with the scripts that the rules of profiles name.
fn script_errors<F: Filters, S: Specs>(
    alloc: Global,
    known: &KnownNames,
    order: &[NamedProfile<'_, F, S>],
) -> Result<ProfileScriptErrors, AllocError>
    ensures { IfOk result (λ errors. script_errors_view errors
        ≡ script_faults_in F.leaves (known_view known.now)
        (order_view F.meaning S.spec_meaning order.now)) }
{
    let mut errors = ProfileScriptErrors {
        unknown_scripts: Vec::new(alloc),
        wrong_script_types: Vec::new(alloc),
        list_scripts_using_run_filters: Vec::new(alloc),
    };
    for (name, profile) in order {
        add_rules(alloc, known, name, &profile.scripts, &mut errors)?;
    }
    Ok(errors)
}

/// The scripts that are known, of either kind.
fn known_ids(alloc: Global, known: &KnownNames) -> Result<BTreeSet<String>, AllocError>
    ensures { IfOk result (λ ids. (q : List ℕ) → contains_text ids q
        ≡ known_scripts (known_view known.now) q) }
{
    let mut ids = BTreeSet::new(alloc);
    copy_names(&mut ids, &known.setup_scripts)?;
    copy_names(&mut ids, &known.wrapper_scripts)?;
    Ok(ids)
}

/// Whether nothing is wrong with scripts.
fn are_none(errors: &ProfileScriptErrors) -> bool
    ensures { result ≡ steps.are_none (script_errors_view errors.now) }
{
    errors.unknown_scripts.is_empty()
        && errors.wrong_script_types.is_empty()
        && errors.list_scripts_using_run_filters.is_empty()
}

/// Refuses what is wrong with the scripts that rules name, with all of it and with the scripts that
/// are known.
pub(crate) fn check_scripts<F: Filters, S: Specs>(
    alloc: Global,
    source: &ConfigSource,
    known: &KnownNames,
    order: &[NamedProfile<'_, F, S>],
) -> Result<(), ConfigParseError>
    ensures { Found (fault_at_source (source_view source.now)
        (script_cause_in F.leaves (known_view known.now)
        (order_view F.meaning S.spec_meaning order.now))) (ending result) }
{
    let errors = script_errors(alloc, known, order)?;
    if are_none(&errors) {
        return Ok(());
    }
    let known_scripts = known_ids(alloc, known)?;
    let kind = ConfigParseErrorKind::ProfileScriptErrors {
        errors,
        known_scripts,
    };
    Err(ConfigParseError::at(source, kind))
}
