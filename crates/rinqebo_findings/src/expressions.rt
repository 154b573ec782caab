//! Filters and platforms that are refused, with the part that is wrong.
ghost use Rattle.std.specs.Prelude.{◌≡◌, ◌∷◌, ◌++◌, [], IfOk, None, OnOk, codes, map, option_map, string_bytes};
ghost use Rattle.nextest_places.specs.Spans.Paths.{path_step};
ghost use Rattle.nextest_places.specs.Spans.Paths as paths;
ghost use Rattle.nextest_tree.specs.View.{tree_view};
ghost use Rattle.rinqebo_request.specs.Files.RuleTables.{text_in};
ghost use Rattle.rinqebo_findings.specs.Compile.{filter_fault, host_fault, parsed_faults, refused_part, refused_texts, section_in, section_node, table_path, target_fault, target_keys, text_fault, texts_of};
ghost use Rattle.rinqebo_faults.specs.Filters.{filter_help};
ghost use Rattle.rinqebo_findings.specs.Later.{AddsLater, document_at, in_text};
ghost use Rattle.rinqebo_findings.specs.LaterWords.{AreTableWords, plain_words, SaysOfText, table_words};
ghost use Rattle.rinqebo_findings.specs.Placed.{file_and_lines, IsOnLines};
ghost use Rattle.rinqebo_findings.specs.Subjects.{error_at, subject};
ghost use Rattle.rinqebo_findings.specs.Words.{words_of};

use crate::refused::Refused;
use nextest_engines::{LabeledSpan, Refusal};
use nextest_places::Step;
use nextest_sources::{ConfigCompileError, ConfigCompileErrorKind, ConfigCompileSection};
use nextest_tree::Tree;
use rinqebo_faults::{
    Stopped, Worded, char_span, expression, filter_help, filter_words, owned, platform_words,
    range_in, section_path,
};
use rinqebo_report::{CharSpan, Code, FilePlace, Finding, Range};
use rinqebo_request::{SpanPart, host_text, profile_table, rule_table, target_text, text_at};
use std::alloc::{AllocError, Global};

/// Returns the token of the value at a path of the refused source, if its text has one.
fn token_at<'r>(refused: &Refused<'r, '_>, path: &[Step<'_>]) -> Option<&'r str> {
    let value = refused.source.spans()?.at(path)?.value?;
    refused.text?.get(value.start..value.end)
}

/// Returns the range in the file of the part of a text at a path that is at fault, if the refused
/// source writes the text.
fn fault_range(
    refused: &Refused<'_, '_>,
    path: &[Step<'_>],
    place: Option<FilePlace>,
    span: Option<CharSpan>,
) -> Result<Option<Range>, AllocError> {
    let (
        Some(
            FilePlace {
                source,
                range: Some(range),
                ..
            },
        ),
        Some(span),
        Some(token),
    ) = (place, span, token_at(refused, path))
    else {
        return Ok(None);
    };
    if refused.source.position != Some(source) {
        return Ok(None);
    }
    range_in(refused.alloc, range.start, token, span)
}

/// What is wrong with a refused text, in words: there are none for what its reader words well.
fn text_words(alloc: Global, code: Code, stopped: Stopped<'_>) -> Result<Option<Worded>, AllocError>
    ensures { IfOk result (λ words. AreTableWords code stopped.entry.text.now
        stopped.entry.label.now stopped.entry.start words) }
{
    match code {
        Code::InvalidFilter => filter_words(alloc, stopped),
        _ => platform_words(alloc, stopped),
    }
}

/// Returns a finding about a text at a path with the range in the file of a part of the text, if
/// the file has one.
fn with_part(
    refused: &Refused<'_, '_>,
    found: Finding,
    path: &[Step<'_>],
    part: Option<CharSpan>,
) -> Result<Finding, AllocError>
    ensures about { IfOk result (λ shown. subject shown ≡ subject found) }
    ensures place { IfOk result (λ shown. file_and_lines shown.place ≡ file_and_lines found.place) }
    ensures words { IfOk result (λ shown. words_of shown ≡ words_of found) }
{
    let Some(FilePlace { source, lines, .. }) = found.place else {
        return Ok(found);
    };
    let Some(range) = fault_range(refused, path, found.place, part)? else {
        return Ok(found);
    };
    let mut shown = found;
    shown.place = Some(FilePlace {
        source,
        lines,
        range: Some(range),
    });
    Ok(shown)
}

/// The finding of a text that is refused, in words.
fn worded_finding(
    refused: &Refused<'_, '_>,
    code: Code,
    path: &[Step<'_>],
    text: &str,
    worded: Worded,
) -> Result<Finding, AllocError>
    ensures about { IfOk result (λ found. subject found ≡ error_at code path.now) }
    ensures place { IfOk result (λ found. IsOnLines refused.now.source.layers.now
        refused.now.source.position path.now found.place) }
    ensures words { IfOk result (λ found. words_of found ≡ table_words worded) }
{
    let Worded {
        start,
        end,
        message,
        expected,
        help,
    } = worded;
    let found = refused.at(code, path, message.as_str())?;
    let mut shown = with_part(refused, found, path, Some(char_span(text, start, end)))?;
    shown.expected = expected;
    shown.help = help;
    Ok(shown)
}

/// The finding of a text that is refused, as its reader words it.
fn labelled_finding(
    refused: &Refused<'_, '_>,
    code: Code,
    path: &[Step<'_>],
    stopped: Stopped<'_>,
) -> Result<Finding, AllocError>
    ensures about { IfOk result (λ found. subject found ≡ error_at code path.now) }
    ensures place { IfOk result (λ found. IsOnLines refused.now.source.layers.now
        refused.now.source.position path.now found.place) }
    ensures words { IfOk result (λ found. words_of found
        ≡ plain_words stopped.entry.label.now None (filter_help stopped.entry.label.now)) }
{
    let help = owned(refused.alloc, filter_help(stopped.label))?;
    let span = char_span(stopped.text, stopped.start, stopped.end);
    let found = refused.at(code, path, stopped.label)?;
    let mut shown = with_part(refused, found, path, Some(span))?;
    shown.help = help;
    Ok(shown)
}

/// The finding of a text that is refused where its reader stopped.
fn stopped_finding(
    refused: &Refused<'_, '_>,
    code: Code,
    path: &[Step<'_>],
    stopped: Stopped<'_>,
) -> Result<Finding, AllocError>
    ensures about { IfOk result (λ found. subject found ≡ error_at code path.now) }
    ensures place { IfOk result (λ found. IsOnLines refused.now.source.layers.now
        refused.now.source.position path.now found.place) }
    ensures words { IfOk result (λ found. SaysOfText code stopped.entry.text.now
        stopped.entry.label.now stopped.entry.start (words_of found)) }
{
    match text_words(refused.alloc, code, stopped)? {
        Some(worded) => Ok(worded_finding(refused, code, path, stopped.text, worded)?),
        None => Ok(labelled_finding(refused, code, path, stopped)?),
    }
}

/// Adds what is wrong with a part of a text at a path.
fn add_part(
    refused: &Refused<'_, '_>,
    findings: &mut Vec<Finding>,
    code: Code,
    path: &[Step<'_>],
    text: &str,
    span: &LabeledSpan,
) -> Result<(), AllocError>
    ensures { OnOk result (AddsLater refused.now.source.layers.now refused.now.source.position
        (in_text code (map path_step path.now) text.now span.now ∷ []) findings.old.items
        findings.new.items) }
{
    let stopped = Stopped {
        text,
        start: span.bytes.start,
        end: span.bytes.end,
        label: span.label.as_str(),
    };
    let shown = expression(refused.alloc, text, &span.bytes)?;
    let mut found = stopped_finding(refused, code, path, stopped)?;
    found.expression = Some(shown);
    refused.add_finding(findings, found)?;
    Ok(())
}

/// Adds what is wrong with a text at a path.
fn add_text(
    refused: &Refused<'_, '_>,
    findings: &mut Vec<Finding>,
    code: Code,
    path: &[Step<'_>],
    text: &str,
    refusal: &Refusal,
) -> Result<(), AllocError>
    ensures { OnOk result (AddsLater refused.now.source.layers.now refused.now.source.position
        (refused_part code (map path_step path.now) text.now
        (string_bytes refusal.now.message) refusal.now.span ∷ []) findings.old.items
        findings.new.items) }
{
    match &refusal.span {
        Some(span) => add_part(refused, findings, code, path, text, span),
        None => {
            let wrong = refusal.message.as_str();
            refused.add_fault(findings, code, path, SpanPart::Value, wrong, None, None)
        }
    }
}

/// Where the texts of a section are: its path, and its table.
#[derive(Clone, Copy)]
struct Section<'s> {
    path: &'s [Step<'s>],
    table: Option<&'s Tree>,
}

/// A path, and then a key.
fn path_at<'p>(alloc: Global, path: &[Step<'p>], key: &'p str) -> Result<Vec<Step<'p>>, AllocError>
    ensures { IfOk result (λ longer. map path_step longer.items
        ≡ map path_step path.now ++ paths.key key.entry.now ∷ []) }
{
    let mut longer = Vec::from_slice(alloc, path)?;
    longer.push(Step::Key(key))?;
    Ok(longer)
}

/// A path, and then `platform` and a key.
fn platform_path<'p>(
    alloc: Global,
    path: &[Step<'p>],
    key: &'p str,
) -> Result<Vec<Step<'p>>, AllocError>
    ensures { IfOk result (λ longer. map path_step longer.items ≡ map path_step path.now
        ++ paths.key (codes "platform") ∷ paths.key key.entry.now ∷ []) }
{
    let mut longer = Vec::from_slice(alloc, path)?;
    longer.push(Step::Key("platform"))?;
    longer.push(Step::Key(key))?;
    Ok(longer)
}

/// Adds what is wrong with a text at a path, if there is one and it is refused.
fn add_if_refused(
    refused: &Refused<'_, '_>,
    findings: &mut Vec<Finding>,
    code: Code,
    path: &[Step<'_>],
    text: Option<&str>,
    refusal: &Option<Refusal>,
) -> Result<(), AllocError>
    ensures { OnOk result (AddsLater refused.now.source.layers.now refused.now.source.position
        (text_fault code (map path_step path.now) (option_map (λ text. text.now) text.entry)
        refusal.now) findings.old.items findings.new.items) }
{
    let Some(text) = text else {
        return Ok(());
    };
    match refusal {
        Some(refusal) => add_text(refused, findings, code, path, text, refusal),
        None => Ok(()),
    }
}

/// Adds what is wrong with the filter of a section at a key, if it is refused.
fn add_filter(
    refused: &Refused<'_, '_>,
    findings: &mut Vec<Finding>,
    section: Section<'_>,
    key: &str,
    refusal: &Option<Refusal>,
) -> Result<(), AllocError>
    ensures { OnOk result (AddsLater refused.now.source.layers.now refused.now.source.position
        (filter_fault (map path_step section.entry.path.now)
        (option_map (λ table. tree_view table.now) section.entry.table) key.now refusal.now)
        findings.old.items findings.new.items) }
{
    let path = path_at(refused.alloc, section.path, key)?;
    let text = text_at(section.table, key);
    add_if_refused(refused, findings, Code::InvalidFilter, &path, text, refusal)?;
    Ok(())
}

/// Adds what is wrong with a rule's expression for the host, if it is refused.
fn add_host(
    refused: &Refused<'_, '_>,
    findings: &mut Vec<Finding>,
    section: Section<'_>,
    refusal: &Option<Refusal>,
) -> Result<(), AllocError>
    ensures { OnOk result (AddsLater refused.now.source.layers.now refused.now.source.position
        (host_fault (map path_step section.entry.path.now)
        (option_map (λ table. tree_view table.now) section.entry.table) refusal.now)
        findings.old.items findings.new.items) }
{
    let path = platform_path(refused.alloc, section.path, "host")?;
    let text = host_text(section.table);
    let code = Code::InvalidPlatform;
    add_if_refused(refused, findings, code, &path, text, refusal)?;
    Ok(())
}

/// The path at which a rule writes what the platform has to meet which a binary runs on.
fn target_path<'p>(alloc: Global, section: Section<'p>) -> Result<Vec<Step<'p>>, AllocError>
    ensures { IfOk result (λ path. map path_step path.items
        ≡ map path_step section.entry.path.now ++ target_keys (text_in (codes "platform")
        (option_map (λ table. tree_view table.now) section.entry.table))) }
{
    match text_at(section.table, "platform") {
        Some(_) => Ok(path_at(alloc, section.path, "platform")?),
        None => Ok(platform_path(alloc, section.path, "target")?),
    }
}

/// Adds what is wrong with a rule's expression for the platform which a binary runs on, if it is
/// refused.
fn add_target(
    refused: &Refused<'_, '_>,
    findings: &mut Vec<Finding>,
    section: Section<'_>,
    refusal: &Option<Refusal>,
) -> Result<(), AllocError>
    ensures { OnOk result (AddsLater refused.now.source.layers.now refused.now.source.position
        (target_fault (map path_step section.entry.path.now)
        (option_map (λ table. tree_view table.now) section.entry.table) refusal.now)
        findings.old.items findings.new.items) }
{
    let path = target_path(refused.alloc, section)?;
    let text = target_text(section.table);
    let code = Code::InvalidPlatform;
    add_if_refused(refused, findings, code, &path, text, refusal)?;
    Ok(())
}

/// Adds what is wrong with the texts of a section whose reading is refused.
fn add_parsed(
    refused: &Refused<'_, '_>,
    findings: &mut Vec<Finding>,
    section: Section<'_>,
    host: &Option<Refusal>,
    target: &Option<Refusal>,
    filter: &Option<Refusal>,
    default_filter: &Option<Refusal>,
) -> Result<(), AllocError>
    ensures { OnOk result (AddsLater refused.now.source.layers.now refused.now.source.position
        (parsed_faults (map path_step section.entry.path.now)
        (option_map (λ table. tree_view table.now) section.entry.table) host.now target.now
        filter.now default_filter.now) findings.old.items findings.new.items) }
{
    add_host(refused, findings, section, host)?;
    add_target(refused, findings, section, target)?;
    add_filter(refused, findings, section, "filter", filter)?;
    add_filter(refused, findings, section, "default-filter", default_filter)?;
    Ok(())
}

/// Adds what is wrong with the texts of a section: its host, its target, its filter and its default
/// filter.
fn add_texts(
    refused: &Refused<'_, '_>,
    findings: &mut Vec<Finding>,
    section: Section<'_>,
    kind: &ConfigCompileErrorKind,
) -> Result<(), AllocError>
    ensures { OnOk result (AddsLater refused.now.source.layers.now refused.now.source.position
        (texts_of (map path_step section.entry.path.now)
        (option_map (λ table. tree_view table.now) section.entry.table) kind.now)
        findings.old.items findings.new.items) }
{
    match kind {
        ConfigCompileErrorKind::ConstraintsNotSpecified { .. }
        | ConfigCompileErrorKind::FilterAndDefaultFilterSpecified => Ok(()),
        ConfigCompileErrorKind::Parse {
            host_parse_error: host,
            target_parse_error: target,
            filter_parse_error: filter,
            default_filter_parse_error: default_filter,
        } => add_parsed(
            refused,
            findings,
            section,
            host,
            target,
            filter,
            default_filter,
        ),
    }
}

/// The path of the table of a section of a profile.
fn table_path<'p>(
    alloc: Global,
    profile: &'p str,
    section: ConfigCompileSection,
) -> Result<Vec<Step<'p>>, AllocError>
    ensures { IfOk result (λ path. map path_step path.items
        ≡ table_path profile.entry.now section) }
{
    match section {
        ConfigCompileSection::DefaultFilter => {
            Vec::from_slice(alloc, &[Step::Key("profile"), Step::Key(profile)])
        }
        ConfigCompileSection::Override(_) | ConfigCompileSection::Script(_) => {
            section_path(alloc, profile, section)
        }
    }
}

/// The table of a section of a profile in a tree: that of the profile, or of a rule of it.
fn table_in<'t>(tree: &'t Tree, profile: &str, section: ConfigCompileSection) -> Option<&'t Tree>
    ensures { option_map (λ found. tree_view found.now) result
        ≡ section_in profile.now section (tree_view tree.now) }
{
    match section {
        ConfigCompileSection::DefaultFilter => profile_table(tree, profile),
        ConfigCompileSection::Override(index) => rule_table(tree, profile, "overrides", index),
        ConfigCompileSection::Script(index) => rule_table(tree, profile, "scripts", index),
    }
}

/// The table of a section of a profile of a file.
fn section_table<'t>(
    tree: Option<&'t Tree>,
    profile: &str,
    section: ConfigCompileSection,
) -> Option<&'t Tree>
    ensures { option_map (λ found. tree_view found.now) result
        ≡ section_node (option_map (λ tree. tree_view tree.now) tree.entry) profile.now section }
{
    table_in(tree?, profile, section)
}

/// Adds what is wrong with the refused texts of a section of a profile.
pub fn add_refused_texts(
    refused: &Refused<'_, '_>,
    findings: &mut Vec<Finding>,
    error: &ConfigCompileError,
) -> Result<(), AllocError>
    ensures { let layers = refused.now.source.layers.now in
        let position = refused.now.source.position in
        OnOk result (AddsLater layers position
        (refused_texts (document_at layers position) error.now) findings.old.items
        findings.new.items) }
{
    let profile = error.profile_name.as_str();
    let path = table_path(refused.alloc, profile, error.section)?;
    let section = Section {
        path: &path,
        table: section_table(refused.source.tree(), profile, error.section),
    };
    add_texts(refused, findings, section, &error.kind)?;
    Ok(())
}
