//! The findings of a refused source.
ghost use Rattle.std.specs.Prelude.{◌≡◌, ℕ, IfOk, IfSome, Option, OnOk, None, Some, ◌++◌, ◌∷◌, [], map, option_map, string_bytes};
ghost use Rattle.std.specs.Option.{option_copied};
ghost use Rattle.rinqebo_request.specs.Files.Origins.{IsPartPlace};
ghost use Rattle.rinqebo_findings.specs.Placed.{IsPlaceIn, IsPlacedAt};
ghost use Rattle.rinqebo_findings.specs.Subjects.{error_at, subject};
ghost use Rattle.rinqebo_faults.specs.Hints.{texts};
ghost use Rattle.rinqebo_findings.specs.LaterWords.{one_of, says, says_none_of};
ghost use Rattle.rinqebo_findings.specs.Words.{message_alone, words_of};
ghost use Rattle.rinqebo_report.specs.Codes.Codes.{code_word};
ghost use Rattle.rinqebo_report.specs.declared.finding.Finding.{Finding};
ghost use Rattle.nextest_places.specs.Spans.Paths.{path_step};
ghost use Rattle.rinqebo_findings.specs.Later.{AddsLater, at, of_file, whole_place};

use crate::findings::{Label, SourceAt, finding, finding_at, with_note};
use nextest_places::Step;
use rinqebo_faults::{LeftOut, near_hint, owned, quoted};
use rinqebo_report::{Code, FilePlace, Finding, Level};
use rinqebo_request::{Layer, SpanPart, part_place};
use std::alloc::{AllocError, Global};

/// What is refused: the source, and the name of the refusal.
#[derive(Clone, Copy)]
pub struct Refused<'r, 't> {
    pub alloc: Global,
    /// The source that is refused.
    pub source: SourceAt<'r, 't>,
    /// Its text, if it has one.
    pub text: Option<&'r str>,
    /// The name that nextest-runner has for the refusal.
    pub upstream: &'static str,
    /// The names whose definitions are left out.
    pub left_out: &'r LeftOut,
}

impl Refused<'_, '_> {
    /// What its findings of a code are called.
    fn label(&self, code: Code) -> Label
        ensures { result.code ≡ code }
    {
        Label {
            code,
            upstream: Some(self.upstream),
        }
    }

    /// Adds a finding with more than a message.
    pub fn add_finding(&self, findings: &mut Vec<Finding>, found: Finding) -> Result<(), AllocError>
        ensures { OnOk result (findings.new.items ≡ findings.old.items ++ found ∷ []) }
    {
        findings.push(found)?;
        Ok(())
    }

    /// A finding about the value at a path or about its key: the path, and what is wrong there. A
    /// source that does not write the path is refused for what it makes of those below it: the
    /// highest source that writes the path counts.
    pub fn part_at(
        &self,
        code: Code,
        path: &[Step<'_>],
        part: SpanPart,
        wrong: &str,
    ) -> Result<Finding, AllocError>
        ensures about { IfOk result (λ found. subject found ≡ error_at code path.now) }
        ensures place { IfOk result (λ found. IsPlacedAt part self.now.source.layers.now
            self.now.source.position path.now found.place) }
        ensures words { IfOk result (λ found. words_of found ≡ message_alone wrong.now) }
    {
        let alloc = self.alloc;
        let message = String::from_str(alloc, wrong)?;
        let level = Level::Error;
        let label = self.label(code);
        let mut found = finding_at(alloc, level, label, self.source, path, part, message)?;
        found.place = written_place(self.source.layers, found.place, path, part);
        Ok(found)
    }

    /// A finding about the value at a path.
    pub fn at(&self, code: Code, path: &[Step<'_>], wrong: &str) -> Result<Finding, AllocError>
        ensures about { IfOk result (λ found. subject found ≡ error_at code path.now) }
        ensures place { IfOk result (λ found. IsPlacedAt SpanPart.Value self.now.source.layers.now
            self.now.source.position path.now found.place) }
        ensures words { IfOk result (λ found. words_of found ≡ message_alone wrong.now) }
    {
        Ok(self.part_at(code, path, SpanPart::Value, wrong)?)
    }

    /// A finding with a message alone.
    pub fn finding(&self, code: Code, message: String) -> Result<Finding, AllocError>
        ensures about { IfOk result (λ found. subject found
            ≡ record { level = Level.Error; code = code_word code; path = None }) }
        ensures place { IfOk result (λ found. found.place
            ≡ option_map whole_place self.now.source.position) }
        ensures words { IfOk result (λ found. words_of found
            ≡ message_alone (string_bytes message)) }
    {
        let label = self.label(code);
        Ok(finding(self.alloc, Level::Error, label, self.source, message)?)
    }

    /// Adds what is wrong with the value at a path or with its key, what is expected there, if that
    /// is known, and what to do.
    pub fn add_fault(
        &self,
        findings: &mut Vec<Finding>,
        code: Code,
        path: &[Step<'_>],
        part: SpanPart,
        wrong: &str,
        expected: Option<&str>,
        help: Option<String>,
    ) -> Result<(), AllocError>
        ensures { OnOk result (AddsLater self.now.source.layers.now self.now.source.position
            (at part code (map path_step path.now)
            (says wrong.now (option_copied expected.entry) (option_map string_bytes help)) ∷ [])
            findings.old.items findings.new.items) }
    {
        let expected = owned(self.alloc, expected)?;
        let mut found = self.part_at(code, path, part, wrong)?;
        found.expected = expected;
        found.help = help;
        self.add_finding(findings, found)?;
        Ok(())
    }

    /// Adds that a name, which is the value at a path, is none of some known ones: these are
    /// expected, and the one that is meant is the help.
    pub fn add_none_of(
        &self,
        findings: &mut Vec<Finding>,
        code: Code,
        path: &[Step<'_>],
        wrong: &str,
        name: &str,
        known: &[&str],
    ) -> Result<(), AllocError>
        ensures { OnOk result (AddsLater self.now.source.layers.now self.now.source.position
            (at SpanPart.Value code (map path_step path.now)
            (says_none_of wrong.now name.now (texts known.now)) ∷ []) findings.old.items
            findings.new.items) }
    {
        let help = near_hint(self.alloc, name, known)?;
        let expected = one_of(self.alloc, known)?;
        let mut found = self.at(code, path, wrong)?;
        found.expected = expected;
        found.help = help;
        self.add_finding(findings, found)?;
        Ok(())
    }

    /// Adds what is wrong with the value at a path, what is expected there, and what to do.
    pub fn add_value(
        &self,
        findings: &mut Vec<Finding>,
        code: Code,
        path: &[Step<'_>],
        wrong: &str,
        expected: &str,
        help: Option<String>,
    ) -> Result<(), AllocError>
        ensures { OnOk result (AddsLater self.now.source.layers.now self.now.source.position
            (at SpanPart.Value code (map path_step path.now)
            (says wrong.now (Some expected.now) (option_map string_bytes help)) ∷ [])
            findings.old.items findings.new.items) }
    {
        self.add_fault(
            findings,
            code,
            path,
            SpanPart::Value,
            wrong,
            Some(expected),
            help,
        )
    }

    /// Adds what is wrong with the key at the end of a path, what is expected there, and what to do.
    pub fn add_key(
        &self,
        findings: &mut Vec<Finding>,
        code: Code,
        path: &[Step<'_>],
        wrong: &str,
        expected: &str,
        help: Option<String>,
    ) -> Result<(), AllocError>
        ensures { OnOk result (AddsLater self.now.source.layers.now self.now.source.position
            (at SpanPart.Key code (map path_step path.now)
            (says wrong.now (Some expected.now) (option_map string_bytes help)) ∷ [])
            findings.old.items findings.new.items) }
    {
        self.add_fault(
            findings,
            code,
            path,
            SpanPart::Key,
            wrong,
            Some(expected),
            help,
        )
    }

    /// Adds a finding with one more note.
    pub fn add_noted(
        &self,
        findings: &mut Vec<Finding>,
        found: Finding,
        note: String,
    ) -> Result<(), AllocError>
        ensures { OnOk result ((noted : Finding)
            × (findings.new.items ≡ findings.old.items ++ noted ∷ [])
            × (subject noted ≡ subject found) × (noted.place ≡ found.place)) }
    {
        let noted = with_note(found, Some(note))?;
        self.add_finding(findings, noted)?;
        Ok(())
    }

    /// The place of the value at a path, as its findings have it.
    pub fn place_at(&self, path: &[Step<'_>]) -> Option<FilePlace>
        ensures { IsPlacedAt SpanPart.Value self.now.source.layers.now
            self.now.source.position path.now result }
    {
        let part = SpanPart::Value;
        written_place(
            self.source.layers,
            self.source.place_at(path, part),
            path,
            part,
        )
    }

    /// Adds what is wrong with the whole source.
    pub fn add_whole(
        &self,
        findings: &mut Vec<Finding>,
        code: Code,
        wrong: &str,
    ) -> Result<(), AllocError>
        ensures { OnOk result (AddsLater self.now.source.layers.now self.now.source.position
            (of_file code (says wrong.now None None) ∷ []) findings.old.items
            findings.new.items) }
    {
        let found = self.finding(code, String::from_str(self.alloc, wrong)?)?;
        self.add_finding(findings, found)?;
        Ok(())
    }
}

/// One of the known names, in words, if there are some.
fn one_of(alloc: Global, known: &[&str]) -> Result<Option<String>, AllocError>
    ensures { IfOk result (λ expected. option_map string_bytes expected
        ≡ one_of (texts known.now)) }
{
    if known.is_empty() {
        return Ok(None);
    }
    Ok(Some(quoted(alloc, known, " or ")?))
}

/// The place of the value at a path, or of its key: the one that is given, if it has lines, or else
/// that in the highest layer that writes it.
fn written_place(
    layers: &[Layer],
    place: Option<FilePlace>,
    path: &[Step<'_>],
    part: SpanPart,
) -> Option<FilePlace>
    ensures { (source : Option ℕ) → IsPlaceIn part layers.now source path.now place
        → IsPlacedAt part layers.now source path.now result }
{
    let Some(own) = place else {
        return place;
    };
    if own.lines.is_some() {
        return place;
    }
    match highest_place(layers, path, part) {
        Some(other) => Some(other),
        None => place,
    }
}

/// The place of the value at a path, or of its key, in the highest layer that writes it.
fn highest_place(layers: &[Layer], path: &[Step<'_>], part: SpanPart) -> Option<FilePlace>
    ensures { IfSome result (λ place.
        (other : ℕ) × IsPartPlace part layers.now other path.now place) }
{
    for (source, _layer) in layers.iter().enumerate().rev() {
        let place = part_place(layers, source, path, part);
        if place.lines.is_some() {
            return Some(place);
        }
    }
    None
}
