//! Edits that leave out what is refused in the files of a run, so that the rest can be checked.
ghost use Rattle.std.specs.Prelude.{◌≡◌, [], ◌++◌, ◌∷◌, IfOk, OnOk, decimal, map, string_bytes};
ghost use Rattle.std.specs.Option.{option_copied};
ghost use Rattle.nextest_places.specs.Spans.Paths.{path_step};
ghost use Rattle.nextest_places.specs.Spans.Paths as paths;
ghost use Rattle.rinqebo_faults.specs.Paths.{shown_path};
ghost use Rattle.rinqebo_faults.specs.Edits.{add, edit_count, edits_view, entries_with, mark_below, mark_of, no_edits, omit_group, omit_groups, omit_rule, omit_script, omit_scripts, remove, replace, with_edit};

use crate::left_out::LeftOut;
use nextest_places::Step;
use std::alloc::{AllocError, Global};
use std::collections::{BTreeMap, BTreeSet};

/// A path below another one, both as marks: texts of which no two paths have the same.
#[tactic(auto, unfolding(crate::specs::Edits::mark_below))]
pub fn mark_below(alloc: Global, mark: &str, step: Step<'_>) -> Result<String, AllocError>
    ensures { IfOk result (λ below. string_bytes below ≡ mark_below mark.now (path_step step.entry)) }
{
    match step {
        Step::Key(key) => {
            let length = key.len();
            format!(in alloc; "{mark}/{length}:{key}")
        }
        Step::Position(position) => format!(in alloc; "{mark}/{position}"),
    }
}

/// The mark of the whole source at a place among the layers.
pub fn mark_of_source(alloc: Global, place: usize) -> Result<String, AllocError>
    ensures { IfOk result (λ mark. string_bytes mark ≡ decimal place) }
{
    format!(in alloc; "{place}")
}

/// The mark of a path in the source at a place among the layers.
#[tactic(auto, unfolding(crate::specs::Edits::mark_of))]
pub fn mark_of(alloc: Global, place: usize, path: &[Step<'_>]) -> Result<String, AllocError>
    ensures { IfOk result (λ mark. string_bytes mark ≡ mark_of place (map path_step path.now)) }
{
    let mut mark = mark_of_source(alloc, place)?;
    for step in path {
        mark = mark_below(alloc, mark.as_str(), *step)?;
    }
    Ok(mark)
}

/// An entry before those that are there.
fn entries_with(alloc: Global, entry: &str, earlier: Option<&str>) -> Result<String, AllocError>
    ensures { IfOk result (λ entries. string_bytes entries
        ≡ entries_with entry.now (option_copied earlier.entry)) }
{
    match earlier {
        Some(earlier) => format!(in alloc; "{entry}, {earlier}"),
        None => String::from_str(alloc, entry),
    }
}

/// What the files of a run are read without, and with in its place.
#[derive(Drop)]
pub struct Edits {
    alloc: Global,
    /// The paths whose values are left out.
    removed: BTreeSet<String>,
    /// What is read in place of the values at paths.
    replaced: BTreeMap<String, &'static str>,
    /// What is read behind the keys of the tables at paths.
    added: BTreeMap<String, String>,
    /// The names whose definitions are left out.
    pub left_out: LeftOut,
}

impl Edits {
    /// No edits.
    pub fn new(alloc: Global) -> Edits
        ensures { edits_view result ≡ no_edits }
    {
        Edits {
            alloc,
            removed: BTreeSet::new(alloc),
            replaced: BTreeMap::new(alloc),
            added: BTreeMap::new(alloc),
            left_out: LeftOut::new(alloc),
        }
    }

    /// How many there are.
    pub fn count(&self) -> usize
        ensures { result ≡ edit_count self.now }
    {
        self.removed
            .len()
            .saturating_add(self.replaced.len())
            .saturating_add(self.added.len())
    }

    /// Leaves out the value at a path of a source.
    pub fn remove(&mut self, place: usize, path: &[Step<'_>]) -> Result<(), AllocError>
        ensures { OnOk result (edits_view self.new
            ≡ with_edit (edits_view self.old) (remove (mark_of place (map path_step path.now)))) }
    {
        let mark = mark_of(self.alloc, place, path)?;
        self.removed.insert(mark)?;
        Ok(())
    }

    /// Leaves out the value at a key of the table at a path of a source.
    pub fn remove_key(
        &mut self,
        place: usize,
        table: &[Step<'_>],
        key: &str,
    ) -> Result<(), AllocError>
        ensures { OnOk result (edits_view self.new ≡ with_edit (edits_view self.old)
            (remove (mark_of place (map path_step table.now ++ paths.key key.now ∷ [])))) }
    {
        let above = mark_of(self.alloc, place, table)?;
        let mark = mark_below(self.alloc, above.as_str(), Step::Key(key))?;
        self.removed.insert(mark)?;
        Ok(())
    }

    /// Reads something in place of the value at a path of a source.
    pub fn replace(
        &mut self,
        place: usize,
        path: &[Step<'_>],
        text: &'static str,
    ) -> Result<(), AllocError>
        ensures { OnOk result (edits_view self.new ≡ with_edit (edits_view self.old)
            (replace (mark_of place (map path_step path.now)) text.now)) }
    {
        let mark = mark_of(self.alloc, place, path)?;
        drop(self.replaced.insert(mark, text)?);
        Ok(())
    }

    /// Reads one more key in the table at a path of a source.
    pub fn add(&mut self, place: usize, path: &[Step<'_>], entry: &str) -> Result<(), AllocError>
        ensures { OnOk result (edits_view self.new ≡ with_edit (edits_view self.old)
            (add (mark_of place (map path_step path.now)) entry.now)) }
    {
        let mark = mark_of(self.alloc, place, path)?;
        let earlier = self.additions(mark.as_str());
        let entries = entries_with(self.alloc, entry, earlier)?;
        drop(self.added.insert(mark, entries)?);
        Ok(())
    }

    /// Notes that the definition of a group is left out.
    #[tactic(auto, unfolding(crate::specs::Edits::edits_view, crate::specs::Edits::with_edit, crate::specs::Edits::left_out_view))]
    pub fn omit_group(&mut self, name: &str) -> Result<(), AllocError>
        ensures { OnOk result (edits_view self.new
            ≡ with_edit (edits_view self.old) (omit_group name.now)) }
    {
        self.left_out.groups.add(name)
    }

    /// Notes that the definitions of all groups are left out.
    #[tactic(auto, unfolding(crate::specs::Edits::edits_view, crate::specs::Edits::with_edit, crate::specs::Edits::left_out_view, crate::specs::Edits::names_view))]
    pub fn omit_groups(&mut self)
        ensures { edits_view self.new ≡ with_edit (edits_view self.old) omit_groups }
    {
        self.left_out.groups.is_any = true;
    }

    /// Notes that the definition of a script is left out.
    #[tactic(auto, unfolding(crate::specs::Edits::edits_view, crate::specs::Edits::with_edit, crate::specs::Edits::left_out_view))]
    pub fn omit_script(&mut self, name: &str) -> Result<(), AllocError>
        ensures { OnOk result (edits_view self.new
            ≡ with_edit (edits_view self.old) (omit_script name.now)) }
    {
        self.left_out.scripts.add(name)
    }

    /// Notes that the definitions of all scripts are left out.
    #[tactic(auto, unfolding(crate::specs::Edits::edits_view, crate::specs::Edits::with_edit, crate::specs::Edits::left_out_view, crate::specs::Edits::names_view))]
    pub fn omit_scripts(&mut self)
        ensures { edits_view self.new ≡ with_edit (edits_view self.old) omit_scripts }
    {
        self.left_out.scripts.is_any = true;
    }

    /// Notes that a value of the script rules at a path is left out.
    #[tactic(auto, unfolding(crate::specs::Edits::edits_view, crate::specs::Edits::with_edit, crate::specs::Edits::left_out_view))]
    pub fn omit_rules(&mut self, path: &[Step<'_>]) -> Result<(), AllocError>
        ensures { OnOk result (edits_view self.new
            ≡ with_edit (edits_view self.old) (omit_rule (shown_path path.now))) }
    {
        self.left_out.rules.add_path(path)
    }

    /// Whether the value at a mark is left out.
    #[tactic(auto, unfolding(crate::specs::Edits::edits_view))]
    pub fn removes(&self, mark: &str) -> bool
        ensures { result ≡ (edits_view self.now).removed mark.now }
    {
        self.removed.contains(mark)
    }

    /// What is read in place of the value at a mark.
    #[tactic(auto, unfolding(crate::specs::Edits::edits_view))]
    pub fn replacement(&self, mark: &str) -> Option<&'static str>
        ensures { option_copied result ≡ (edits_view self.now).replaced mark.now }
    {
        match self.replaced.get(mark) {
            Some(text) => Some(*text),
            None => None,
        }
    }

    /// What is read behind the keys of the table at a mark.
    #[tactic(auto, unfolding(crate::specs::Edits::edits_view))]
    pub fn additions(&self, mark: &str) -> Option<&str>
        ensures { option_copied result ≡ (edits_view self.now).added mark.now }
    {
        match self.added.get(mark) {
            Some(entries) => Some(entries.as_str()),
            None => None,
        }
    }
}
