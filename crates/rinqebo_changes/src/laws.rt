//! Laws of what changes, as contracts.
ghost use Rattle.std.specs.Prelude.{◌≡◌, ℕ, List, [], option_map, map};
ghost use Rattle.std.specs.Bool.{Decides};
ghost use Rattle.std.specs.List.{AllByRecursion, AllZip};
ghost use Rattle.std.specs.Option.{option_eq};
ghost use Rattle.rinqebo_report.specs.Columns.{lines_of, solid_page, Fits, IsOnLine};
ghost use Rattle.rinqebo_report.specs.Pieces.{Run};
ghost use Rattle.rinqebo_report.specs.declared.piece.Style.{Style as Shown};
ghost use Rattle.rinqebo_report.specs.declared.report.SettingRow.{SettingRow as Row};
ghost use Rattle.rinqebo_changes.specs.declared.change.RowChange.{RowChange as Changed};
ghost use Rattle.rinqebo_changes.specs.declared.change.SideRow.{SideRow as Given};
ghost use Rattle.rinqebo_changes.specs.declared.change.TestChanges.{TestChanges as Tests};
ghost use Rattle.rinqebo_changes.specs.declared.classes.Item.{Item as Change};
ghost use Rattle.rinqebo_changes.specs.declared.groups.Group.{Group as Grouped};
ghost use Rattle.rinqebo_changes.specs.Arrows.{arrow_runs, behind_arrow};
ghost use Rattle.rinqebo_changes.specs.Changes.{is_change};
ghost use Rattle.rinqebo_changes.specs.Classes.{same_item, AreClasses};
ghost use Rattle.rinqebo_changes.specs.Groups.{AreGroups};
ghost use Rattle.rinqebo_changes.specs.Keyed.{AreAlike, AreKeyedChanges};
ghost use Rattle.rinqebo_changes.specs.Laws.{AreExactly, AreFair, AreWhole, Changes};
ghost use Rattle.rinqebo_changes.specs.WholeGroups.{AreWholeGroups};
ghost use Rattle.rinqebo_changes.specs.OriginViews.{origin_view};
ghost use Rattle.rinqebo_changes.specs.Same.{same_value};
ghost use Rattle.rinqebo_changes.specs.SameOrigin.{like_origins, same_origins};
ghost use Rattle.rinqebo_changes.specs.SourceViews.{owned_view};
ghost use Rattle.rinqebo_changes.specs.ValueViews.{value_view};

use crate::change::Comparison;
use crate::classes::ClassRule;
use crate::same_origin::TwoSources;
use rinqebo_report::{Origin, Value};

/// The values of a setting are the same exactly if they are equal: as values, not as they are
/// kept.
pub fn law_values(a: &Option<Value>, b: &Option<Value>)
    ensures { Decides (option_eq same_value a.now b.now)
        (option_map value_view a.now ≡ option_map value_view b.now) }
{}

/// The origins of a value of one side are the same exactly if they are equal.
pub fn law_origins(a: &[Origin], b: &[Origin])
    ensures { Decides (same_origins a.now b.now) (map origin_view a.now ≡ map origin_view b.now) }
{}

/// The origins of two values, one of each side, are alike exactly if they are equal as parts of
/// profiles in files of owners, whatever the paths and the lines are.
pub fn law_like_origins(sources: &TwoSources<'_>, a: &[Origin], b: &[Origin])
    ensures { Decides (like_origins sources.now.from.now sources.now.to.now a.now b.now)
        (map (owned_view sources.now.from.now) a.now ≡ map (owned_view sources.now.to.now) b.now) }
{}

/// A setting is reported exactly if its value changes, or, where that counts, what the value comes
/// from.
pub fn law_changes(compare: &Comparison<'_>)
    ensures { (left right : Given) → Decides (is_change compare.now.sources.from.now
        compare.now.sources.to.now compare.now.with_origins left right)
        (Changes compare.now.sources.from.now compare.now.sources.to.now
        compare.now.with_origins left right) }
{}

/// The rows that change are exactly those between which something changes, each once.
pub fn law_exactly(compare: &Comparison<'_>)
    ensures { (from to : List Given) → AreExactly (is_change compare.now.sources.from.now
        compare.now.sources.to.now compare.now.with_origins) from to }
{}

/// Nothing changes between equal rows, and swapped sides swap what changes.
pub fn law_swapped(compare: &Comparison<'_>)
    ensures { AreFair compare.now.sources.from.now compare.now.sources.to.now
        compare.now.with_origins }
{}

/// Nothing changes between rows that are one by one of the same key and have the same value.
pub fn law_keyed()
    ensures { (from to : List Row) (changes : List Changed) → AllZip AreAlike from to
        → AreKeyedChanges from to changes → changes ≡ [] }
{}

/// A row with an arrow shows the same for every number of columns: its text is the same but for
/// blanks, ends of lines, commas and number signs. Each of its lines fits if each side of the arrow
/// fits on a line of its own.
pub fn law_arrows()
    ensures rows { (columns others indent : ℕ) (style : Shown) (left right : List Run)
        → solid_page (arrow_runs columns indent style left right)
        ≡ solid_page (arrow_runs others indent style left right) }
    ensures lines { (columns indent : ℕ) (style : Shown) (left right : List Run) → IsOnLine left
        → IsOnLine right → Fits columns left → Fits columns (behind_arrow indent style right)
        → AllByRecursion (Fits columns) (lines_of (arrow_runs columns indent style left right)) }
{}

/// Groups have all changes of tests and no others, each once: nothing is lost. The changes of a
/// group are of the same setting, from the same value and origins to the same value and origins.
pub fn law_groups()
    ensures { (tests : List Tests) (groups : List Grouped) → AreGroups tests groups
        → AreWholeGroups tests groups }
{}

/// Classes have all changes and no others, each once, and those of a class are put together by the
/// rule.
pub fn law_classes(rule: ClassRule)
    ensures { (items : List Change) (classes : List (List Change))
        → AreClasses (same_item rule) items classes → AreWhole rule items classes }
{}
