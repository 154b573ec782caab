//! The laws of whole lines: no text adds a line to a page, or to the commands of GitHub's workflows.
ghost use Rattle.std.specs.Prelude.{◌≡◌, ℕ, List, chars, flat_map, length};
ghost use Rattle.std.specs.List.{AllByRecursion};
ghost use Rattle.rinqebo_laws.specs.Lines.{HasNo, IsOneLine, IsPageCharacter, IsPlainByte, IsWrittenIn, colon, comma, line_ends, line_feeds};
ghost use Rattle.rinqebo_report.specs.Github.{github_line, github_text, properties_text, property_char};
ghost use Rattle.rinqebo_report.specs.Pages.{concise_line_runs, concise_runs};
ghost use Rattle.rinqebo_report.specs.Pieces.{Run, page_text};
ghost use Rattle.rinqebo_report.specs.declared.finding.Finding.{Finding};
ghost use Rattle.rinqebo_report.specs.declared.origin.Source.{Source};
ghost use Rattle.rinqebo_report.specs.declared.piece.Colour.{Colour};
ghost use Rattle.rinqebo_report.specs.declared.report.Report.{Report};

/// A page has exactly as many line feeds as its pieces end lines, whatever texts are on it. Without
/// colours it has no other control character, so no carriage return and no escape; with colours it
/// has also the escapes of its styles.
pub fn law_page_lines()
    ensures lines { (colour : Colour) (runs : List Run)
        → line_feeds (page_text colour runs) ≡ line_ends runs }
    ensures characters { (colour : Colour) (runs : List Run)
        → IsWrittenIn (IsPageCharacter colour) (page_text colour runs) }
    ensures bytes { (runs : List Run)
        → AllByRecursion IsPlainByte (page_text Colour.Plain runs) }
{}

/// Each finding is one line of a concise page, whatever texts it has.
pub fn law_concise_lines()
    ensures one { (colour : Colour) (root : List ℕ) (sources : List Source) (finding : Finding)
        → IsOneLine (page_text colour (concise_line_runs root sources finding)) }
    ensures all { (colour : Colour) (report : Report)
        → line_feeds (page_text colour (concise_runs report)) ≡ length report.findings.items }
{}

/// Each finding is one command of GitHub's workflows, on one line, whatever texts it has. No text
/// ends the properties of the command, or one of them, early: there is no colon in the properties,
/// and no comma in the value of one.
pub fn law_github_lines()
    ensures one { (workspace : List ℕ) (sources : List Source) (finding : Finding)
        → IsOneLine (github_line workspace sources finding) }
    ensures all { (workspace : List ℕ) (report : Report)
        → line_feeds (github_text workspace report) ≡ length report.findings.items }
    ensures properties { (workspace : List ℕ) (sources : List Source) (finding : Finding)
        → HasNo colon (properties_text workspace sources finding) }
    ensures values { (text : List ℕ) → HasNo colon (flat_map property_char (chars text))
        × HasNo comma (flat_map property_char (chars text)) }
{}
