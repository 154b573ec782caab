//! Script rules that name no script.
ghost use Rattle.std.specs.Prelude.{◌≡◌, filter, length, map};
ghost use Rattle.nextest_sources.specs.Endings.{ending, Ran};
ghost use Rattle.nextest_sources.specs.Sources.{source_view};
ghost use Rattle.nextest_tables.specs.View.{uses_view};
ghost use Rattle.nextest_rules.specs.Meaning.{script_rule_meaning};
ghost use Rattle.nextest_rules.specs.RuleFaults as faults;
ghost use Rattle.nextest_rules.specs.Steps.{empty_steps_in, empty_steps_of};
ghost use Rattle.nextest_rules.specs.View.{order_view, profile_meaning_view, script_rule_view};

use crate::overrides::{CompiledProfile, CompiledProfileScripts};
use crate::profile_order::NamedProfile;
use nextest_engines::{Filters, Specs};
use nextest_sources::{ConfigParseError, ConfigSource, ConfigWarnings};
use nextest_tables::ScriptUses;
use std::alloc::Global;

/// Whether a script rule names no script.
fn names_none(scripts: &ScriptUses) -> bool
    ensures { result ≡ faults.names_none (uses_view scripts.now) }
{
    scripts.setup.is_empty() && scripts.list_wrapper.is_none() && scripts.run_wrapper.is_none()
}

/// How many script rules name no script.
fn count_empty<F: Filters, S: Specs>(rules: &[CompiledProfileScripts<F, S>]) -> usize
    ensures { result ≡ length (filter (λ r. faults.names_none r.writes.scripts)
        (map (script_rule_meaning F.meaning S.spec_meaning) (map script_rule_view rules.now))) }
{
    let mut count = 0;
    for rule in rules {
        if !names_none(&rule.scripts) {
            continue;
        }
        count += 1;
    }
    count
}

/// Warns of the script rules of a profile that name no script, if there are any.
fn warn_of_profile<F: Filters, S: Specs, W: ConfigWarnings>(
    alloc: Global,
    source: &ConfigSource,
    name: &str,
    profile: &CompiledProfile<F, S>,
    warnings: &mut W,
) -> Result<(), ConfigParseError>
    ensures { Ran (empty_steps_of (source_view source.now) name.now
        (profile_meaning_view F.meaning S.spec_meaning profile.now))
        (W.warnings warnings.old) (W.warnings warnings.new) (ending result) }
{
    let count = count_empty(&profile.scripts);
    if count == 0 {
        return Ok(());
    }
    warnings.empty_script_sections(alloc, source, name, count)?;
    Ok(())
}

/// Warns of script rules that name no script, once a profile.
pub(crate) fn warn_of_empty_sections<F: Filters, S: Specs, W: ConfigWarnings>(
    alloc: Global,
    source: &ConfigSource,
    order: &[NamedProfile<'_, F, S>],
    warnings: &mut W,
) -> Result<(), ConfigParseError>
    ensures { Ran (empty_steps_in (source_view source.now)
        (order_view F.meaning S.spec_meaning order.now))
        (W.warnings warnings.old) (W.warnings warnings.new) (ending result) }
{
    for (name, profile) in order {
        warn_of_profile(alloc, source, name, profile, warnings)?;
    }
    Ok(())
}
