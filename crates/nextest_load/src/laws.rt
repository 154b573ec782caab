//! Laws of loads: of their trees, and of what is accepted.
ghost use Rattle.std.specs.Prelude.{List, ◌∷◌, map};
ghost use Rattle.nextest_documents.specs.Shown.{HasExactly, IsShown};
ghost use Rattle.nextest_engines.specs.Readings.{Readings};
ghost use Rattle.nextest_load.specs.Laws.{AcceptedAreClosed, RefusesCycles, RefusesLeast};
ghost use Rattle.nextest_load.specs.OwnSteps.{KeepOwnSteps};
ghost use Rattle.nextest_load.specs.Steps.{no_profiles};
ghost use Rattle.nextest_load.specs.Trees.{tree_in, own_tree, own_file, merged_tree, merged_file};
ghost use Rattle.nextest_sources.specs.Causes.{NameSet};
ghost use Rattle.nextest_sources.specs.Inputs.{SourceText};
ghost use Rattle.nextest_tables.specs.Defaults.{defaults};
ghost use Rattle.nextest_tree.specs.Node.{IsSorted};

use nextest_engines::{Filters, Specs};

/// An element that a load refuses, of a source over the defaults or of the merged tree, is the
/// least fault of that tree in the order of places, and not merely the first of a list.
pub fn law_least_element()
    ensures own { (s : SourceText) → RefusesLeast (own_tree s) }
    ensures merged { (ss : List SourceText) → RefusesLeast (merged_tree ss) }
{}

/// Where a load refuses the parents that a source writes, or those of the merged tree, it names
/// exactly the cycles of that tree: each once, from its least name, and in the order of these.
///
/// A profile has no chain exactly if following parents from it leads into one of them, if no
/// base profile has a parent and none names itself.
pub fn law_cycles()
    ensures own { (lower : NameSet) (s : SourceText) → RefusesCycles lower (own_file s) }
    ensures merged { (ss : List SourceText) → RefusesCycles no_profiles (merged_file ss) }
{}

/// In each table of a source's tree over the defaults, and of the merged tree, the keys ascend by
/// their bytes: profiles, groups and scripts are sorted by name.
pub fn law_keys_ascend()
    ensures own { (s : SourceText) → IsSorted (own_tree s) }
    ensures merged { (ss : List SourceText) → IsSorted (merged_tree ss) }
{}

/// The merged tree has exactly the nodes of the defaults and of all sources that no higher source
/// hides.
pub fn law_shown()
    ensures { (ss : List SourceText)
        → HasExactly (merged_tree ss) (IsShown (defaults ∷ map tree_in ss)) }
{}

/// A configuration of accepted files is closed: no rule of it names an undefined script or group,
/// each profile has one chain, and `default` is complete.
pub fn law_closed<F: Filters, S: Specs>()
    ensures { (engines : Readings F.Meaning S.SpecMeaning S.Platform) → AcceptedAreClosed engines }
{}

/// What a source is refused or warned for is the same under any lower files, but for its parents and
/// for the groups and scripts that its rules name: so a file that is loaded by itself has these
/// faults beside all others too.
pub fn law_own_steps<F: Filters, S: Specs>()
    ensures { (engines : Readings F.Meaning S.SpecMeaning S.Platform) → KeepOwnSteps engines }
{}
