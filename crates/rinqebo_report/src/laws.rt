//! Laws of pages.
ghost use Rattle.std.specs.Prelude.{◌≡◌, ◌<◌, ◌^◌, ◌∷◌, ◌++◌, [], ℕ, List, Some, codes};
ghost use Rattle.std.specs.List.{AllByRecursion};
ghost use Rattle.rinqebo_report.specs.Columns.{solid_page, lines_of, IsOnLine, Fits};
ghost use Rattle.rinqebo_report.specs.Durations.{duration_text, read_duration};
ghost use Rattle.rinqebo_report.specs.Groups.{grouped_content_runs};
ghost use Rattle.rinqebo_report.specs.Headers.{header_runs};
ghost use Rattle.rinqebo_report.specs.Layout.{Said, below_line, mark_text, remarked_runs};
ghost use Rattle.rinqebo_report.specs.Pages.{content_runs};
ghost use Rattle.rinqebo_report.specs.Pieces.{Run, page_text, styled};
ghost use Rattle.rinqebo_report.specs.Uncoloured.{uncoloured};
ghost use Rattle.rinqebo_report.specs.declared.piece.Colour.{Colour};
ghost use Rattle.rinqebo_report.specs.declared.piece.Style.TheVariants.{Remark};
ghost use Rattle.rinqebo_report.specs.declared.report.Content.{Content};
ghost use Rattle.rinqebo_report.specs.declared.report.Report.{Report};

/// Without its escapes a page in colour is the plain page, whatever texts are on it.
pub fn law_colours()
    ensures { (runs : List Run)
        → uncoloured (page_text Colour.Coloured runs) ≡ page_text Colour.Plain runs }
{}

/// How a duration is spelled reads back as the duration.
pub fn law_durations()
    ensures { (n : ℕ) → n < 2 ^ 128 → read_duration (duration_text n) ≡ Some n }
{}

/// A page has the same text for every number of columns, apart from blanks, ends of lines, commas
/// and number signs.
pub fn law_columns()
    ensures pages { (columns others : ℕ) (report : Report) (content : Content)
        → solid_page (content_runs columns report content)
        ≡ solid_page (content_runs others report content) }
    ensures groups { (columns others : ℕ) (report : Report) (content : Content)
        → solid_page (grouped_content_runs columns report content)
        ≡ solid_page (grouped_content_runs others report content) }
{}

/// Each line of a row and its remarks fits if the row alone fits, and each remark on a line of its
/// own. Each line of a header fits if each part fits on a line of its own.
pub fn law_lines()
    ensures rows { (columns : ℕ) (front : List Run) (said : Said) → IsOnLine front
        → Fits columns front → AllByRecursion (λ text. Fits columns
        (below_line said (mark_text said.mark ++ text))) said.texts
        → AllByRecursion (Fits columns) (lines_of (remarked_runs columns front said)) }
    ensures headers { (columns : ℕ) (first : List ℕ) (parts : List (List ℕ))
        → AllByRecursion (λ part. Fits columns (styled Remark (codes "# " ++ part) ∷ []))
        (first ∷ parts)
        → AllByRecursion (Fits columns) (lines_of (header_runs columns first parts)) }
{}
