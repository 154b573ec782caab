//! A diff as notices of GitHub's workflows, beside the lines of the right side.
ghost use Rattle.std.specs.Prelude.{◌≡◌, ◌++◌, OnOk, IfOk, flat_map, string_bytes};
ghost use Rattle.rinqebo_changes.specs.GithubPage.{place_in, first_place, site_of, change_text, properties_text, notice_text, group_notice, run_notice, IsGithubText};

use crate::change::{RowChange, SideRow};
use crate::diff::Diff;
use crate::groups::{Group, groups_of};
use crate::texts::{other_key, setting_text};
use rinqebo_report::{FilePlace, Origin, add_file, add_message, add_property};
use std::alloc::{AllocError, Global};

/// The place of an origin, if it is in a file.
fn place_in(origin: &Origin) -> Option<FilePlace>
    ensures { result ≡ place_in origin.now }
{
    match origin {
        Origin::Written(written) => Some(written.place),
        Origin::File(place) => Some(*place),
        Origin::BuiltIn | Origin::DefaultTable => None,
    }
}

/// The place of the first of origins, if it is in a file.
fn first_place(origins: &[Origin]) -> Option<FilePlace>
    ensures { result ≡ first_place origins.now }
{
    match origins.first() {
        Some(origin) => place_in(origin),
        None => None,
    }
}

/// The place from which the value of a side comes, if it is in a file.
fn site_of(given: &SideRow) -> Option<FilePlace>
    ensures { result ≡ site_of given.now }
{
    if given.is_ignored {
        None
    } else {
        first_place(&given.row.origins)
    }
}

/// A change on one line.
fn change_text(alloc: Global, row: &RowChange) -> Result<String, AllocError>
    ensures { IfOk result (λ text. string_bytes text ≡ change_text row.now) }
{
    let from = setting_text(alloc, &row.from.row.value)?;
    let other = other_key(alloc, row)?;
    let to = setting_text(alloc, &row.to.row.value)?;
    let mut text = String::from_str(alloc, row.from.row.key.as_str())?;
    text.push_str(": ")?;
    text.push_str(from.as_str())?;
    text.push_str(" -> ")?;
    text.push_str(other.as_str())?;
    text.push_str(to.as_str())?;
    Ok(text)
}

/// Writes the properties of a notice: the place of the right side, and the setting.
fn add_properties(
    out: &mut String,
    workspace: &str,
    diff: &Diff,
    row: &RowChange,
) -> Result<(), AllocError>
    ensures { OnOk result (string_bytes out.new ≡ string_bytes out.old
        ++ properties_text workspace.now diff.now row.now) }
{
    add_file(out, workspace, &diff.to.sources, site_of(&row.to))?;
    out.push_str("title=")?;
    add_property(out, row.from.row.key.as_str())
}

/// Writes a notice about a change.
fn add_notice(
    alloc: Global,
    out: &mut String,
    workspace: &str,
    diff: &Diff,
    row: &RowChange,
    tests: &str,
) -> Result<(), AllocError>
    ensures { OnOk result (string_bytes out.new ≡ string_bytes out.old
        ++ notice_text workspace.now diff.now row.now tests.now) }
{
    let text = change_text(alloc, row)?;
    out.push_str("::notice ")?;
    add_properties(out, workspace, diff, row)?;
    out.push_str("::")?;
    add_message(out, text.as_str())?;
    out.push_str(tests)?;
    out.push_str("\n")
}

/// Writes a notice about a group.
fn add_group_notice(
    alloc: Global,
    out: &mut String,
    workspace: &str,
    diff: &Diff,
    group: &Group<'_>,
) -> Result<(), AllocError>
    ensures { OnOk result (string_bytes out.new ≡ string_bytes out.old
        ++ group_notice workspace.now diff.now group.now) }
{
    let count = group.count;
    let tests = format!(in alloc; " (tests: {count})")?;
    add_notice(alloc, out, workspace, diff, group.head.row, tests.as_str())
}

/// Writes a notice about each group.
fn add_groups(
    alloc: Global,
    out: &mut String,
    workspace: &str,
    diff: &Diff,
    groups: &[Group<'_>],
) -> Result<(), AllocError>
    ensures { OnOk result (string_bytes out.new ≡ string_bytes out.old
        ++ flat_map (group_notice workspace.now diff.now) groups.now) }
{
    for group in groups {
        add_group_notice(alloc, out, workspace, diff, group)?;
    }
    Ok(())
}

/// Writes a notice about each change of the whole run.
fn add_runs(alloc: Global, out: &mut String, workspace: &str, diff: &Diff) -> Result<(), AllocError>
    ensures { OnOk result (string_bytes out.new ≡ string_bytes out.old
        ++ flat_map (run_notice workspace.now diff.now) diff.now.run.items) }
{
    for row in &diff.run {
        add_notice(alloc, out, workspace, diff, row, "")?;
    }
    Ok(())
}

/// The notices of a diff: one for each group, and one for each change of the whole run.
pub fn diff_github(alloc: Global, workspace: &str, diff: &Diff) -> Result<String, AllocError>
    ensures { IfOk result (λ text.
        IsGithubText workspace.now diff.now (string_bytes text)) }
{
    let groups = groups_of(alloc, &diff.changed)?;
    let mut text = String::new(alloc);
    add_groups(alloc, &mut text, workspace, diff, &groups)?;
    add_runs(alloc, &mut text, workspace, diff)?;
    Ok(text)
}
