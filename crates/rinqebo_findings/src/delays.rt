//! The finding of retries whose longest delay is shorter than the first one.
ghost use Rattle.std.specs.Prelude.{◌≡◌, ℕ, IfOk, List, Option, codes, option_map, string_bytes};
ghost use Rattle.std.specs.Option.{option_copied};
ghost use Rattle.rinqebo_findings.specs.Placed.{file_and_lines};
ghost use Rattle.rinqebo_findings.specs.Subjects.{IsDelaysError, IsDelaysFinding, IsErrorAt, subject};
ghost use Rattle.rinqebo_findings.specs.Words.{IsOtherLine, IsOtherNote, is_in, message_alone, raise_to, with_note, words_of};
ghost use Rattle.rinqebo_findings.specs.Written.{text_at};

use crate::below::file_at;
use crate::findings::with_note;
use crate::given::value_at;
use crate::refused::Refused;
use nextest_places::Step;
use rinqebo_faults::{Mark, lines_of, path_with};
use rinqebo_report::{Code, FilePlace, Finding, Range, Sign, SourceLine};
use rinqebo_request::{SpanPart, part_place};
use std::alloc::AllocError;

/// The range of a key and its value, in the source at a position.
fn entry_range(refused: &Refused<'_, '_>, source: usize, path: &[Step<'_>]) -> Option<Range> {
    let layers = refused.source.layers;
    let key = part_place(layers, source, path, SpanPart::Key).range?;
    let value = part_place(layers, source, path, SpanPart::Value).range?;
    Some(Range {
        start: key.start,
        end: value.end,
    })
}

/// Marks in the order of their starts.
fn in_order(one: Mark, other: Mark) -> [Mark; 2] {
    let (first, second) = (one.range.start, other.range.start);
    let is_before = first.line < second.line
        || (first.line == second.line && first.column <= second.column);
    if is_before {
        [one, other]
    } else {
        [other, one]
    }
}

/// The lines that show a range of a source, and another entry where both are in one file.
fn entry_lines(
    refused: &Refused<'_, '_>,
    source: usize,
    range: Range,
    related: &[Step<'_>],
) -> Result<Vec<SourceLine>, AllocError> {
    let (Some(other), Some(text)) = (entry_range(refused, source, related), refused.text) else {
        return Ok(Vec::new(refused.alloc));
    };
    if refused.source.position != Some(source) {
        return Ok(Vec::new(refused.alloc));
    }
    let fault = Mark {
        sign: Sign::Fault,
        range,
    };
    let related = Mark {
        sign: Sign::Related,
        range: other,
    };
    lines_of(refused.alloc, text, &in_order(fault, related))
}

/// Returns a finding about a key and its value, with their range, and with the lines that show them
/// and another entry.
fn with_entry(
    refused: &Refused<'_, '_>,
    found: Finding,
    fault: &[Step<'_>],
    related: &[Step<'_>],
) -> Result<Finding, AllocError>
    ensures about { IfOk result (λ shown. subject shown ≡ subject found) }
    ensures place { IfOk result
        (λ shown. file_and_lines shown.place ≡ file_and_lines found.place) }
    ensures words { IfOk result (λ shown. words_of shown ≡ words_of found) }
{
    let Some(FilePlace { source, lines, .. }) = found.place else {
        return Ok(found);
    };
    let Some(range) = entry_range(refused, source, fault) else {
        return Ok(found);
    };
    let shown_lines = entry_lines(refused, source, range, related)?;
    let mut shown = found;
    shown.place = Some(FilePlace {
        source,
        lines,
        range: Some(range),
    });
    shown.lines = shown_lines;
    Ok(shown)
}

/// The text at a path, in the refused source or else in the highest one that has it.
fn text_of<'r>(refused: &Refused<'r, '_>, path: &[Step<'_>]) -> Option<&'r str>
    ensures { option_copied result
        ≡ text_at refused.now.source.layers.now refused.now.source.position path.now }
{
    value_at(refused.source, path)?.as_str()
}

/// Whether the refused source writes a path.
fn writes(refused: &Refused<'_, '_>, path: &[Step<'_>]) -> bool {
    match refused.source.spans() {
        Some(spans) => spans.at(path).is_some(),
        None => false,
    }
}

/// Whether a place is in the file of the refused source.
pub fn is_own(refused: &Refused<'_, '_>, place: FilePlace) -> bool
    ensures { result ≡ is_in refused.now.source.position place }
{
    match refused.source.position {
        Some(position) => position == place.source,
        None => false,
    }
}

/// The line and the path of the file of a value that another file writes.
fn other_line<'r>(refused: &Refused<'r, '_>, path: &[Step<'_>]) -> Option<(u64, &'r str)>
    ensures { IsOtherLine refused.now.source.layers.now refused.now.source.position path.now
        (option_map (λ line. (line.0, line.1.now)) result) }
{
    let place = refused.place_at(path)?;
    if is_own(refused, place) {
        return None;
    }
    let lines = place.lines?;
    let file = file_at(refused.source.layers, place.source)?;
    Some((lines.first, file))
}

/// The note that names the file and the line of a key of another file.
fn elsewhere_note(
    refused: &Refused<'_, '_>,
    key: &str,
    path: &[Step<'_>],
) -> Result<Option<String>, AllocError>
    ensures { IfOk result (λ note. IsOtherNote refused.now.source.layers.now
        refused.now.source.position key.now path.now (option_map string_bytes note)) }
{
    let Some((line, file)) = other_line(refused, path) else {
        return Ok(None);
    };
    Ok(Some(format!(in refused.alloc; "`{key}` is in line {line} of {file}")?))
}

/// The finding that the longest delay of retries is shorter than the first one, at one of the two.
fn entry_finding(
    refused: &Refused<'_, '_>,
    fault: &[Step<'_>],
    wrong: &str,
    least: &str,
) -> Result<Finding, AllocError>
    ensures error { IfOk result (IsErrorAt refused.now.source.layers.now
        refused.now.source.position Code.MaxDelayBelowDelay SpanPart.Value fault.now) }
    ensures words { IfOk result (λ found. words_of found ≡ raise_to wrong.now least.now) }
{
    let help = format!(in refused.alloc; "raise `max-delay` to at least `{least}`")?;
    let mut found = refused.at(Code::MaxDelayBelowDelay, fault, wrong)?;
    found.help = Some(help);
    Ok(found)
}

/// Returns a finding about an entry of a table, with what it says of the other entry that it does
/// not agree with.
fn with_other(
    refused: &Refused<'_, '_>,
    found: Finding,
    fault: &[Step<'_>],
    related: &[Step<'_>],
    key: &str,
) -> Result<Finding, AllocError>
    ensures about { IfOk result (λ shown. subject shown ≡ subject found) }
    ensures place { IfOk result
        (λ shown. file_and_lines shown.place ≡ file_and_lines found.place) }
    ensures words { IfOk result (λ shown. (note : Option (List ℕ))
        × IsOtherNote refused.now.source.layers.now refused.now.source.position key.now
        related.now note × (words_of shown ≡ with_note (words_of found) note)) }
{
    let note = elsewhere_note(refused, key, related)?;
    let noted = with_note(found, note)?;
    Ok(with_entry(refused, noted, fault, related)?)
}

/// The finding about one of the two delays, which does not agree with the other one.
fn delay_finding(
    refused: &Refused<'_, '_>,
    fault: &[Step<'_>],
    related: &[Step<'_>],
    key: &str,
    wrong: &str,
    least: &str,
) -> Result<Finding, AllocError>
    ensures error { IfOk result
        (IsDelaysError refused.now.source.layers.now refused.now.source.position fault.now) }
    ensures words { IfOk result (λ found. (note : Option (List ℕ))
        × IsOtherNote refused.now.source.layers.now refused.now.source.position key.now
        related.now note × (words_of found ≡ with_note (raise_to wrong.now least.now) note)) }
{
    let found = entry_finding(refused, fault, wrong, least)?;
    Ok(with_other(refused, found, fault, related, key)?)
}

/// The finding that the longest delay of retries is shorter than the first one, at their table.
fn table_finding(refused: &Refused<'_, '_>, table: &[Step<'_>]) -> Result<Finding, AllocError>
    ensures error { IfOk result
        (IsDelaysError refused.now.source.layers.now refused.now.source.position table.now) }
    ensures words { IfOk result (λ found. words_of found
        ≡ message_alone (codes "`max-delay` is shorter than `delay`")) }
{
    let wrong = "`max-delay` is shorter than `delay`";
    Ok(refused.at(Code::MaxDelayBelowDelay, table, wrong)?)
}

/// The finding that the longest delay of retries is shorter than the first one: at the longest one,
/// unless another file writes it, or at their table where they are not both texts.
pub fn delays_finding(refused: &Refused<'_, '_>, path: &[Step<'_>]) -> Result<Finding, AllocError>
    ensures { IfOk result
        (IsDelaysFinding refused.now.source.layers.now refused.now.source.position path.now) }
{
    let alloc = refused.alloc;
    let last_path = path_with(alloc, path, "max-delay")?;
    let first_path = path_with(alloc, path, "delay")?;
    let longest = last_path.as_slice();
    let first = first_path.as_slice();
    let Some(most) = text_of(refused, longest) else {
        return Ok(table_finding(refused, path)?);
    };
    let Some(least) = text_of(refused, first) else {
        return Ok(table_finding(refused, path)?);
    };
    let wrong = format!(in alloc; "`max-delay` ({most}) is shorter than `delay` ({least})")?;
    if writes(refused, longest) {
        let key = "delay";
        Ok(delay_finding(refused, longest, first, key, wrong.as_str(), least)?)
    } else {
        let key = "max-delay";
        Ok(delay_finding(refused, first, longest, key, wrong.as_str(), least)?)
    }
}
