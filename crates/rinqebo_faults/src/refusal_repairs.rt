//! What files are read without where a later check refuses them.
ghost use Rattle.std.specs.Prelude.{◌≡◌, ℕ, List, [], ◌∷◌, IfOk, OnOk, codes, flat_map, map, option_map, string_bytes};
ghost use Rattle.std.specs.BTreeSet.{contains_text};
ghost use Rattle.std.specs.List.{list_any};
ghost use Rattle.std.specs.Option.{option_and_then, option_copied};
ghost use Rattle.nextest_tree.specs.Node.{as_array, as_table, keys, member_of};
ghost use Rattle.nextest_places.specs.Spans.Paths.{path_step};
ghost use Rattle.nextest_tree.specs.View.{entries_view, nodes_view, tree_view};
ghost use Rattle.rinqebo_faults.specs.Edits.{edits_view, mark_of, omit_script, remove, with_edits};
ghost use Rattle.rinqebo_faults.specs.Repairs.{group_edits, group_of, groups_edits, kind_edits, kind_path, names_group, old_scripts_edits, overrides_edits, overrides_in, parent_edits, parents_edits, profiles_edits, refused_children, rule_edits, rules_edit, script_edits, script_rules_edits, scripts_edits, section_edits, sections_edits, text_edits, unknown_groups_edits};

use crate::edits::Edits;
use crate::given::profiles_of;
use crate::namings::naming_mark;
use crate::paths::{parent_path, path_with, profile_path, section_path};
use nextest_elements::CustomTestGroup;
use nextest_inheritance::InheritsError;
use nextest_places::Step;
use nextest_scripts::ScriptId;
use nextest_sources::{
    ConfigCompileError, ConfigCompileErrorKind, ConfigCompileSection,
    ProfileListScriptUsesRunFiltersError, ProfileScriptErrors, ProfileUnknownScriptError,
    ProfileWrongConfigScriptTypeError, UnknownTestGroupError,
};
use nextest_tree::Tree;
use std::alloc::{AllocError, Global};
use std::collections::{BTreeMap, BTreeSet};

/// Any filter, in place of one that is refused.
const FILTER: &str = "\"all()\"";

/// Any platform, in place of one that is refused.
const PLATFORM: &str = "\"cfg(unix)\"";

/// Any platform, for a rule that has no condition.
const CONDITION: &str = "platform = \"cfg(unix)\"";

/// The key at which an override sets a group.
const GROUP_KEY: &str = "test-group";

/// Leaves out a group of a source.
fn leave_out_named_group(edits: &mut Edits, place: usize, name: &str) -> Result<(), AllocError>
    ensures { OnOk result (edits_view edits.new
        ≡ with_edits (edits_view edits.old) (group_edits place name.now)) }
{
    edits.remove(place, &[Step::Key("test-groups"), Step::Key(name)])?;
    edits.omit_group(name)
}

/// Leaves out groups of a source.
pub fn leave_out_foreign_groups(
    alloc: Global,
    edits: &mut Edits,
    place: usize,
    groups: &BTreeSet<CustomTestGroup>,
) -> Result<(), AllocError>
    ensures { OnOk result (edits_view edits.new
        ≡ with_edits (edits_view edits.old) (groups_edits place groups.now.keys)) }
{
    for group in groups.iter() {
        let name = group.to_string(alloc)?;
        leave_out_named_group(edits, place, name.as_str())?;
    }
    Ok(())
}

/// Leaves out a script of a kind.
fn leave_out_kind<'n>(
    edits: &mut Edits,
    place: usize,
    kind: &'n str,
    name: &'n str,
) -> Result<(), AllocError>
    ensures { OnOk result (edits_view edits.new ≡ with_edits (edits_view edits.old)
        (remove (mark_of place (kind_path kind.entry.now name.entry.now)) ∷ [])) }
{
    let path = [Step::Key("scripts"), Step::Key(kind), Step::Key(name)];
    edits.remove(place, &path)
}

/// Leaves out a script of a source, wherever the source defines it.
fn leave_out_named_script(edits: &mut Edits, place: usize, name: &str) -> Result<(), AllocError>
    ensures { OnOk result (edits_view edits.new
        ≡ with_edits (edits_view edits.old) (script_edits place name.now)) }
{
    leave_out_kind(edits, place, "setup", name)?;
    leave_out_kind(edits, place, "wrapper", name)?;
    edits.remove(place, &[Step::Key("script"), Step::Key(name)])?;
    edits.omit_script(name)
}

/// Leaves out scripts of a source.
pub fn leave_out_scripts(
    alloc: Global,
    edits: &mut Edits,
    place: usize,
    scripts: &BTreeSet<ScriptId>,
) -> Result<(), AllocError>
    ensures { OnOk result (edits_view edits.new
        ≡ with_edits (edits_view edits.old) (scripts_edits place scripts.now.keys)) }
{
    for script in scripts.iter() {
        let name = script.to_string(alloc)?;
        leave_out_named_script(edits, place, name.as_str())?;
    }
    Ok(())
}

/// The old table of scripts of a file.
fn old_scripts(tree: Option<&Tree>) -> Option<&BTreeMap<String, Tree>>
    ensures { option_map (λ scripts. entries_view scripts.now.entries) result
        ≡ option_and_then as_table (option_and_then (member_of (codes "script"))
        (option_map (λ tree. tree_view tree.now) tree.entry)) }
{
    tree?.get("script")?.as_table()
}

/// Notes that the scripts of a table are left out.
fn omit_names(edits: &mut Edits, scripts: &BTreeMap<String, Tree>) -> Result<(), AllocError>
    ensures { OnOk result (edits_view edits.new ≡ with_edits (edits_view edits.old)
        (map omit_script (keys (entries_view scripts.now.entries)))) }
{
    for (name, _script) in scripts.iter() {
        edits.omit_script(name.as_str())?;
    }
    Ok(())
}

/// Leaves out the old table of scripts of a source.
pub fn leave_out_old_scripts(
    edits: &mut Edits,
    place: usize,
    tree: Option<&Tree>,
) -> Result<(), AllocError>
    ensures { OnOk result (edits_view edits.new ≡ with_edits (edits_view edits.old)
        (old_scripts_edits place (option_map (λ tree. tree_view tree.now) tree.entry))) }
{
    edits.remove(place, &[Step::Key("script")])?;
    match old_scripts(tree) {
        Some(scripts) => omit_names(edits, scripts),
        None => Ok(()),
    }
}

/// Leaves out the parent of a profile, in any source.
fn leave_out_parent(edits: &mut Edits, sources: usize, profile: &str) -> Result<(), AllocError>
    ensures { OnOk result (edits_view edits.new
        ≡ with_edits (edits_view edits.old) (parent_edits sources profile.now)) }
{
    for place in 0..sources {
        edits.remove(place, &parent_path(profile))?;
    }
    Ok(())
}

/// Leaves out the parents of some profiles.
fn leave_out_each(edits: &mut Edits, sources: usize, profiles: &[String]) -> Result<(), AllocError>
    ensures { OnOk result (edits_view edits.new ≡ with_edits (edits_view edits.old)
        (flat_map (parent_edits sources) (map string_bytes profiles.now))) }
{
    for profile in profiles {
        leave_out_parent(edits, sources, profile.as_str())?;
    }
    Ok(())
}

/// Leaves out the parents of the profiles of some cycles.
fn leave_out_cycles(
    edits: &mut Edits,
    sources: usize,
    cycles: &[Vec<String>],
) -> Result<(), AllocError>
    ensures { OnOk result (edits_view edits.new ≡ with_edits (edits_view edits.old)
        (flat_map (parent_edits sources)
        (flat_map (λ cycle. map string_bytes cycle.items) cycles.now))) }
{
    for cycle in cycles {
        leave_out_each(edits, sources, cycle)?;
    }
    Ok(())
}

/// Leaves out the parents of the profiles that an error is about.
fn leave_out_children(
    edits: &mut Edits,
    sources: usize,
    error: &InheritsError,
) -> Result<(), AllocError>
    ensures { OnOk result (edits_view edits.new ≡ with_edits (edits_view edits.old)
        (flat_map (parent_edits sources) (refused_children error.now))) }
{
    match error {
        InheritsError::DefaultProfileInheritance(profile)
        | InheritsError::SelfReferentialInheritance(profile)
        | InheritsError::UnknownInheritance(profile, _) => {
            leave_out_parent(edits, sources, profile.as_str())
        }
        InheritsError::InheritanceCycle(cycles) => leave_out_cycles(edits, sources, cycles),
    }
}

/// Leaves out parents that profiles may not have.
pub fn leave_out_parents(
    edits: &mut Edits,
    sources: usize,
    errors: &[InheritsError],
) -> Result<(), AllocError>
    ensures { OnOk result (edits_view edits.new
        ≡ with_edits (edits_view edits.old) (parents_edits sources errors.now)) }
{
    for error in errors {
        leave_out_children(edits, sources, error)?;
    }
    Ok(())
}

/// Reads a text in place of what is at a key of a section, if that is refused.
fn replace_key<'p>(
    alloc: Global,
    edits: &mut Edits,
    place: usize,
    section: &[Step<'p>],
    key: &'p str,
    text: &'static str,
    is_refused: bool,
) -> Result<(), AllocError>
    ensures { OnOk result (edits_view edits.new ≡ with_edits (edits_view edits.old)
        (text_edits place (map path_step section.now) key.entry.now text.now is_refused)) }
{
    if !is_refused {
        return Ok(());
    }
    edits.replace(place, &path_with(alloc, section, key)?, text)
}

/// Reads something in place of a section that is refused for some kind of fault.
fn leave_out_kind_of_section(
    alloc: Global,
    edits: &mut Edits,
    place: usize,
    section: &[Step<'_>],
    kind: &ConfigCompileErrorKind,
) -> Result<(), AllocError>
    ensures { OnOk result (edits_view edits.new ≡ with_edits (edits_view edits.old)
        (kind_edits place (map path_step section.now) kind.now)) }
{
    match kind {
        ConfigCompileErrorKind::ConstraintsNotSpecified { .. } => {
            edits.add(place, section, CONDITION)
        }
        ConfigCompileErrorKind::FilterAndDefaultFilterSpecified => {
            edits.remove_key(place, section, "filter")
        }
        ConfigCompileErrorKind::Parse {
            host_parse_error,
            target_parse_error,
            filter_parse_error,
            default_filter_parse_error,
        } => {
            let platform = host_parse_error.is_some() || target_parse_error.is_some();
            replace_key(alloc, edits, place, section, "platform", PLATFORM, platform)?;
            let filter = filter_parse_error.is_some();
            replace_key(alloc, edits, place, section, "filter", FILTER, filter)?;
            let default = default_filter_parse_error.is_some();
            replace_key(
                alloc,
                edits,
                place,
                section,
                "default-filter",
                FILTER,
                default,
            )
        }
    }
}

/// Reads something in place of what does not compile.
fn leave_out_section(
    alloc: Global,
    edits: &mut Edits,
    place: usize,
    error: &ConfigCompileError,
) -> Result<(), AllocError>
    ensures { OnOk result (edits_view edits.new
        ≡ with_edits (edits_view edits.old) (section_edits place error.now)) }
{
    let section = section_path(alloc, error.profile_name.as_str(), error.section)?;
    match error.section {
        ConfigCompileSection::DefaultFilter => edits.replace(place, &section, FILTER),
        ConfigCompileSection::Override(_) | ConfigCompileSection::Script(_) => {
            leave_out_kind_of_section(alloc, edits, place, &section, &error.kind)
        }
    }
}

/// Reads something in place of all that does not compile.
pub fn leave_out_sections(
    alloc: Global,
    edits: &mut Edits,
    place: usize,
    errors: &[ConfigCompileError],
) -> Result<(), AllocError>
    ensures { OnOk result (edits_view edits.new
        ≡ with_edits (edits_view edits.old) (sections_edits place errors.now)) }
{
    for error in errors {
        leave_out_section(alloc, edits, place, error)?;
    }
    Ok(())
}

/// The group that an override sets.
fn group_of(rule: &Tree) -> Option<&str>
    ensures { option_copied result ≡ group_of (tree_view rule.now) }
{
    rule.get(GROUP_KEY)?.as_str()
}

/// The overrides of a profile.
fn overrides_of(profile: &Tree) -> Option<&[Tree]>
    ensures { option_map (λ rules. nodes_view rules.now) result
        ≡ option_and_then as_array (member_of (codes "overrides") (tree_view profile.now)) }
{
    profile.get("overrides")?.as_array()
}

/// Leaves out the group that the override at a position of a profile sets, if it is among those
/// with some marks.
fn leave_out_group(
    alloc: Global,
    edits: &mut Edits,
    place: usize,
    profile: &str,
    index: usize,
    rule: &Tree,
    marks: &BTreeSet<String>,
) -> Result<(), AllocError>
    ensures { OnOk result (edits_view edits.new ≡ with_edits (edits_view edits.old)
        (rule_edits place (contains_text marks.now) profile.now index
        (group_of (tree_view rule.now)))) }
{
    let Some(group) = group_of(rule) else {
        return Ok(());
    };
    let mark = naming_mark(alloc, profile, GROUP_KEY, group)?;
    if !marks.contains(mark.as_str()) {
        return Ok(());
    }
    let path = [
        Step::Key("profile"),
        Step::Key(profile),
        Step::Key("overrides"),
        Step::Position(index),
        Step::Key(GROUP_KEY),
    ];
    edits.remove(place, &path)
}

/// Leaves out the groups that overrides of a profile set and that are among those with some marks.
fn leave_out_groups_of(
    alloc: Global,
    edits: &mut Edits,
    place: usize,
    profile: &str,
    table: &Tree,
    marks: &BTreeSet<String>,
) -> Result<(), AllocError>
    ensures { OnOk result (edits_view edits.new ≡ with_edits (edits_view edits.old)
        (overrides_edits place (contains_text marks.now) profile.now 0
        (overrides_in (tree_view table.now)))) }
{
    let Some(overrides) = overrides_of(table) else {
        return Ok(());
    };
    for (index, rule) in overrides.iter().enumerate() {
        leave_out_group(alloc, edits, place, profile, index, rule, marks)?;
    }
    Ok(())
}

/// Returns the marks of groups that no file defines.
fn marks_of(alloc: Global, errors: &[UnknownTestGroupError]) -> Result<BTreeSet<String>, AllocError>
    ensures { IfOk result (λ marks. (mark : List ℕ)
        → (contains_text marks mark ≡ list_any (names_group mark) errors.now)) }
{
    let mut marks = BTreeSet::new(alloc);
    for error in errors {
        let name = error.name.to_string(alloc)?;
        let profile = error.profile_name.as_str();
        let mark = naming_mark(alloc, profile, GROUP_KEY, name.as_str())?;
        marks.insert(mark)?;
    }
    Ok(marks)
}

/// Leaves out the groups that overrides of some profiles set and that are among those with some
/// marks.
fn leave_out_marked(
    alloc: Global,
    edits: &mut Edits,
    place: usize,
    profiles: &BTreeMap<String, Tree>,
    marks: &BTreeSet<String>,
) -> Result<(), AllocError>
    ensures { OnOk result (edits_view edits.new ≡ with_edits (edits_view edits.old)
        (profiles_edits place (contains_text marks.now) (entries_view profiles.now.entries))) }
{
    for (name, table) in profiles.iter() {
        leave_out_groups_of(alloc, edits, place, name.as_str(), table, marks)?;
    }
    Ok(())
}

/// Leaves out groups that overrides set and no file defines.
pub fn leave_out_groups(
    alloc: Global,
    edits: &mut Edits,
    place: usize,
    tree: Option<&Tree>,
    errors: &[UnknownTestGroupError],
) -> Result<(), AllocError>
    ensures { OnOk result (edits_view edits.new ≡ with_edits (edits_view edits.old)
        (unknown_groups_edits place (option_map (λ tree. tree_view tree.now) tree.entry)
        errors.now)) }
{
    let marks = marks_of(alloc, errors)?;
    match profiles_of(tree) {
        Some(profiles) => leave_out_marked(alloc, edits, place, profiles, &marks),
        None => Ok(()),
    }
}

/// Leaves out the script rules of a profile.
fn leave_out_rules(edits: &mut Edits, place: usize, profile: &str) -> Result<(), AllocError>
    ensures { OnOk result (edits_view edits.new
        ≡ with_edits (edits_view edits.old) (rules_edit place profile.now ∷ [])) }
{
    edits.remove(place, &profile_path(profile, "scripts"))
}

/// Leaves out the script rules of the profiles that errors about unknown scripts name.
fn leave_out_unknown(
    edits: &mut Edits,
    place: usize,
    errors: &[ProfileUnknownScriptError],
) -> Result<(), AllocError>
    ensures { OnOk result (edits_view edits.new ≡ with_edits (edits_view edits.old)
        (map (rules_edit place) (map (λ error. string_bytes error.profile_name) errors.now))) }
{
    for error in errors {
        leave_out_rules(edits, place, error.profile_name.as_str())?;
    }
    Ok(())
}

/// Leaves out the script rules of the profiles that errors about kinds of scripts name.
fn leave_out_wrong(
    edits: &mut Edits,
    place: usize,
    errors: &[ProfileWrongConfigScriptTypeError],
) -> Result<(), AllocError>
    ensures { OnOk result (edits_view edits.new ≡ with_edits (edits_view edits.old)
        (map (rules_edit place) (map (λ error. string_bytes error.profile_name) errors.now))) }
{
    for error in errors {
        leave_out_rules(edits, place, error.profile_name.as_str())?;
    }
    Ok(())
}

/// Leaves out the script rules of the profiles that errors about filters of list wrappers name.
fn leave_out_filtered(
    edits: &mut Edits,
    place: usize,
    errors: &[ProfileListScriptUsesRunFiltersError],
) -> Result<(), AllocError>
    ensures { OnOk result (edits_view edits.new ≡ with_edits (edits_view edits.old)
        (map (rules_edit place) (map (λ error. string_bytes error.profile_name) errors.now))) }
{
    for error in errors {
        leave_out_rules(edits, place, error.profile_name.as_str())?;
    }
    Ok(())
}

/// Leaves out the script rules of the profiles in which a rule names a script that it may not.
pub fn leave_out_script_rules(
    edits: &mut Edits,
    place: usize,
    errors: &ProfileScriptErrors,
) -> Result<(), AllocError>
    ensures { OnOk result (edits_view edits.new
        ≡ with_edits (edits_view edits.old) (script_rules_edits place errors.now)) }
{
    leave_out_unknown(edits, place, &errors.unknown_scripts)?;
    leave_out_wrong(edits, place, &errors.wrong_script_types)?;
    leave_out_filtered(edits, place, &errors.list_scripts_using_run_filters)
}
