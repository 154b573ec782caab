//! Laws of what changes between two sides, as contracts.
ghost use Rattle.std.specs.Prelude.{◌≡◌, Bool, false, true, List};
ghost use Rattle.nextest_elements.specs.declared.run_mode.NextestRunMode.{NextestRunMode as Mode};
ghost use Rattle.rinqebo_changes.specs.Changes.{is_change};
ghost use Rattle.rinqebo_changes.specs.declared.change.TestChanges.{TestChanges as Changed};
ghost use Rattle.rinqebo_changes.specs.declared.diff.Diff.{Diff as Comparison};
ghost use Rattle.rinqebo_report.specs.declared.origin.Source.{Source as File};
ghost use Rattle.rinqebo_request.specs.declared.files.gathering.Gathered.{Gathered as Files};
ghost use Rattle.rinqebo_request.specs.declared.request.RequestedSettings.{RequestedSettings as Asked};
ghost use Rattle.rinqebo_changes.specs.Sides.Matched.{ArePairs, TestPair};
ghost use Rattle.rinqebo_changes.specs.Sides.Own.{NamesOnce};
ghost use Rattle.rinqebo_diff.specs.Asked.{compares_runs};
ghost use Rattle.rinqebo_diff.specs.Compared.{AreCompared};
ghost use Rattle.rinqebo_diff.specs.Differences.{SideReports, tests_of, diff_status, IsDiffOf};
ghost use Rattle.rinqebo_diff.specs.EqualSides.{NoTestChanges};
ghost use Rattle.rinqebo_diff.specs.Sides.{Evaluation, IsEvaluationOf};
ghost use Rattle.rinqebo_diff.specs.SwappedSides.{HaveSwapped};
ghost use Rattle.rinqebo_diff.specs.TurnedSides.{swapped_request, AreTurnedAlike, AreTurnedAlone, AreTurnedRuns, AreTurnedTests};
ghost use Rattle.rinqebo_diff.specs.declared.request.DiffRequest.{DiffRequest as Requested};

/// Nothing changes between a side and itself: by the same session, profile and mode each test has
/// the same values, none is on one side alone, and the whole run has the same. So without
/// `--origins` the exit status is 0. With `--origins` it is too, where the side is one of files:
/// each value comes from the same.
pub fn law_equal_sides()
    ensures tests { (side : Evaluation) (mode : Mode) (asked : Asked) (files others : List File)
        (pairs : List TestPair) (changed : List Changed) → NamesOnce (tests_of side)
        → ArePairs (tests_of side) (tests_of side) pairs
        → AreCompared (SideReports side mode asked) (SideReports side mode asked)
        (is_change files others false) (compares_runs asked) pairs changed
        → NoTestChanges (tests_of side) changed }
    ensures whole { (request : Requested) (side : Evaluation) (diff : Comparison)
        → request.with_origins ≡ false → request.from.mode ≡ request.to.mode
        → NamesOnce (tests_of side) → IsDiffOf request side side diff → diff_status diff ≡ 0 }
    ensures origins { (request : Requested) (files : Files) (side : Evaluation)
        (diff : Comparison) → IsEvaluationOf request.from files side
        → request.from.mode ≡ request.to.mode → NamesOnce (tests_of side)
        → IsDiffOf request side side diff → diff_status diff ≡ 0 }
{}

/// What changes between two sides changes between the swapped sides, the other way.
///
/// What one diff lists as removed, the other one lists as added, and the other way round. The same
/// settings of the same tests change, and the same rows of the whole run, each with its two sides
/// swapped; and the exit status is the same. With `--origins` it is so of sides of files, and each
/// value comes from the same in both diffs: a setting is reported in both, or in neither.
pub fn law_swapped_sides()
    ensures tests { (left right : Evaluation) (one two : Mode) (asked : Asked)
        (files others : List File) (with_origins : Bool) (pairs : List TestPair)
        (changed : List Changed)
        → AreCompared (SideReports left one asked) (SideReports right two asked)
        (is_change files others with_origins) (compares_runs asked) pairs changed
        → HaveSwapped (SideReports left one asked) (SideReports right two asked)
        (is_change others files with_origins) (compares_runs asked) pairs changed }
    ensures alone { (request : Requested) (left right : Evaluation) (diff other : Comparison)
        → IsDiffOf request left right diff → IsDiffOf (swapped_request request) right left other
        → AreTurnedAlone diff other }
    ensures run { (request : Requested) (left right : Evaluation) (diff other : Comparison)
        → IsDiffOf request left right diff → IsDiffOf (swapped_request request) right left other
        → AreTurnedRuns diff.run.items other.run.items }
    ensures changed { (request : Requested) (left right : Evaluation) (diff other : Comparison)
        → request.with_origins ≡ false → NamesOnce (tests_of left) → NamesOnce (tests_of right)
        → IsDiffOf request left right diff → IsDiffOf (swapped_request request) right left other
        → AreTurnedTests diff.changed.items other.changed.items }
    ensures status { (request : Requested) (left right : Evaluation) (diff other : Comparison)
        → request.with_origins ≡ false → NamesOnce (tests_of left) → NamesOnce (tests_of right)
        → IsDiffOf request left right diff → IsDiffOf (swapped_request request) right left other
        → diff_status diff ≡ diff_status other }
    ensures origins { (request : Requested) (from to : Files) (left right : Evaluation)
        (diff other : Comparison) → IsEvaluationOf request.from from left
        → IsEvaluationOf request.to to right → NamesOnce (tests_of left)
        → NamesOnce (tests_of right) → IsDiffOf request left right diff
        → IsDiffOf (swapped_request request) right left other → AreTurnedAlike diff other }
    ensures alike_status { (request : Requested) (from to : Files) (left right : Evaluation)
        (diff other : Comparison) → IsEvaluationOf request.from from left
        → IsEvaluationOf request.to to right → NamesOnce (tests_of left)
        → NamesOnce (tests_of right) → IsDiffOf request left right diff
        → IsDiffOf (swapped_request request) right left other
        → diff_status diff ≡ diff_status other }
{}
