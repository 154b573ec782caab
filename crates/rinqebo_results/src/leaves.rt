//! The leaves of a configuration, and what writes each.
ghost use Rattle.std.specs.Prelude.{◌≡◌, false, IfErr, IfOk, MatchOption, map, option_map};
ghost use Rattle.filter_engine.specs.Compiling.{names_of};
ghost use Rattle.filter_language.specs.Filtersets.{marks_view};
ghost use Rattle.nextest_documents.specs.Entries.{leaf_view};
ghost use Rattle.nextest_documents.specs.Layers.{keys_view};
ghost use Rattle.nextest_settings.specs.Profiles.Meaning.{configured_meaning};
ghost use Rattle.nextest_tables.specs.FileTexts.{names_in, IsIn};
ghost use Rattle.rinqebo_origins.specs.LeafValue.{is_tellable};
ghost use Rattle.rinqebo_checks.specs.Failures.{IsFailureAbout};
ghost use Rattle.rinqebo_checks.specs.Reports.{IsReportOf};
ghost use Rattle.platform_language.specs.Expressions.{spec_view};
ghost use Rattle.rinqebo_origins.specs.RulePlaces.{place_view};
ghost use Rattle.rinqebo_results.specs.ListedBy.{read_by};
ghost use Rattle.rinqebo_results.specs.Warned.{ShowsWarningsOf};
ghost use Rattle.rinqebo_results.specs.ShownConfig.{ReportsLeaf, TellLeaves, AreShown, AreShownOf, IsShownBy, shown_status, ShowsConfig};

use crate::answer::Answer;
use crate::asked::requested_of;
use crate::in_force::with_default_in_force;
use crate::list_report::profile_on;
use crate::reporting::answer_with;
use crate::status::Status;
use nextest_config::{DefaultConfigWarnings, NextestRunMode};
use nextest_documents::{LayerLeaf, entries_of};
use rinqebo_checks::config_with;
use rinqebo_load::{Config, Failure, Session, chain_of_profile};
use rinqebo_origins::{RulePlace, reported_entry, spelled_entries, steps_of, trees_of};
use rinqebo_report::{Content, Entry};
use rinqebo_request::{Layer, path_place};
use rinqebo_rules::filtering_place;
use std::alloc::{AllocError, Global};

/// A leaf as a report shows it, with its place in the file of its layer. There is none where its
/// value can't be shown.
fn reported_leaf(
    alloc: Global,
    layers: &[Layer],
    leaf: &LayerLeaf<'_>,
) -> Result<Option<Entry>, AllocError>
    ensures { IfOk result (λ told. MatchOption told
        (is_tellable (leaf_view leaf.now).value ≡ false)
        (ReportsLeaf layers.now (leaf_view leaf.now))) }
{
    let path = steps_of(alloc, leaf)?;
    let place = path_place(layers, leaf.layer, &path);
    reported_entry(alloc, leaf, place)
}

/// Leaves as a report shows them.
fn reported_leaves(
    alloc: Global,
    layers: &[Layer],
    leaves: &[LayerLeaf<'_>],
) -> Result<Vec<Entry>, AllocError>
    ensures { IfOk result (λ entries.
        TellLeaves layers.now (map leaf_view leaves.now) entries.items) }
{
    let mut entries = Vec::new(alloc);
    for leaf in leaves {
        match reported_leaf(alloc, layers, leaf)? {
            Some(entry) => entries.push(entry)?,
            None => {}
        }
    }
    Ok(entries)
}

/// The leaves of a chain of profiles below keys, as a report shows them.
pub fn entries_in(
    alloc: Global,
    layers: &[Layer],
    chain: &[&str],
    keys: &[&str],
    with_hidden: bool,
) -> Result<Vec<Entry>, AllocError>
    ensures { IfOk result (λ entries. AreShown layers.now (keys_view chain.now)
        (keys_view keys.now) with_hidden entries.items) }
{
    let trees = trees_of(alloc, layers)?;
    let leaves = entries_of(alloc, &trees, chain, keys, with_hidden)?;
    reported_leaves(alloc, layers, &leaves)
}

/// The entries of a chain of profiles below keys: the leaves that count, with the default filter of
/// the override at a place, if there is one, and what the files write there, as it is written.
fn shown_entries(
    alloc: Global,
    layers: &[Layer],
    place: Option<RulePlace<'_>>,
    chain: &[&str],
    keys: &[&str],
    with_hidden: bool,
) -> Result<Vec<Entry>, AllocError>
    ensures { IfOk result (λ entries. AreShownOf layers.now (option_map place_view place.entry)
        (keys_view chain.now) (keys_view keys.now) with_hidden entries.items) }
{
    let counted = entries_in(alloc, layers, chain, keys, with_hidden)?;
    let mut entries = with_default_in_force(alloc, layers, place, keys, with_hidden, counted)?;
    let mut spelled = spelled_entries(alloc, layers, chain, keys)?;
    entries.append(&mut spelled)?;
    Ok(entries)
}

/// The entries of a profile below keys, by a configuration.
fn shown<'c>(
    alloc: Global,
    session: &'c Session<'_>,
    config: &'c Config,
    profile: &'c str,
    keys: &[&str],
    with_hidden: bool,
) -> Result<Content, AllocError>
    requires { IsIn (names_in config.now.config.profiles) profile.now }
    ensures { IfOk result (IsShownBy session.now
        (configured_meaning (marks_view names_of) spec_view (read_by session.now config.now))
        profile.now (keys_view keys.now) with_hidden) }
{
    let chain = chain_of_profile(alloc, config, profile)?;
    let asked = requested_of(alloc, session, profile, &chain, NextestRunMode::Test)?;
    let on = profile_on(alloc, session, config, profile)?;
    let place = filtering_place(&on);
    let entries = shown_entries(alloc, &session.layers, place, &chain, keys, with_hidden)?;
    Ok(Content::ShowConfig { asked, entries })
}

/// The exit status for what a report shows: 1 where that is nothing.
fn status_of(content: &Content) -> u8
    ensures { result ≡ shown_status content.now }
{
    match content {
        Content::ShowConfig { entries, .. } if entries.is_empty() => Status::Negative as u8,
        _ => Status::Success as u8,
    }
}

/// The leaves of a profile below keys, and what writes each.
pub fn show(
    alloc: Global,
    session: &Session<'_>,
    profile: &str,
    keys: &[&str],
    with_hidden: bool,
) -> Result<Answer, Failure>
    ensures ok { IfOk result (λ answer. ShowsConfig session.now profile.now (keys_view keys.now)
        with_hidden answer.report answer.status) }
    ensures about { IfOk result (λ answer. IsReportOf session.now answer.report) }
    ensures warned { IfOk result (λ answer. ShowsWarningsOf session.now answer.report) }
    ensures err { IfErr result (IsFailureAbout session.now profile.now) }
{
    let mut warnings = DefaultConfigWarnings::new(alloc);
    let config = config_with(alloc, session, profile, &mut warnings)?;
    let content = shown(alloc, &*session, &config, profile, keys, with_hidden)?;
    let status = status_of(&content);
    let answer = answer_with(alloc, session, &warnings, status, None, content)?;
    Ok(answer)
}
