//! Laws of what files must satisfy.
ghost use Rattle.std.specs.Prelude.{◌≡◌, ◌↔◌, List, [], None, Some};
ghost use Rattle.nextest_sources.specs.Causes.{LoadFault};
ghost use Rattle.nextest_sources.specs.InputFaults.{HaveOneFileEach, IsFirstDuplicate, tool_steps};
ghost use Rattle.nextest_sources.specs.Sources.{ToolFile};
ghost use Rattle.nextest_sources.specs.Steps.{first_fault};

/// The fault of a tool's second file is at the first argument that has an earlier one of its
/// tool, and names the first file of that tool; and there is none exactly if no tool has two
/// files.
pub fn law_first_duplicate()
    ensures some { (tools : List ToolFile) (fault : LoadFault)
        → (first_fault (tool_steps [] tools) ≡ Some fault) ↔ IsFirstDuplicate tools fault }
    ensures none { (tools : List ToolFile)
        → (first_fault (tool_steps [] tools) ≡ None) ↔ HaveOneFileEach tools }
{}
