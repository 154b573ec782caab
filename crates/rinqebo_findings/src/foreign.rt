//! Findings of groups and scripts that a file may not define.
ghost use Rattle.std.specs.Prelude.{◌≡◌, ◌∷◌, [], IfOk, None, OnOk, Some, map, option_map, string_bytes};
ghost use Rattle.nextest_places.specs.Spans.Paths.{path_step};
ghost use Rattle.rinqebo_request.specs.declared.files.places.SpanPart.TheVariants as parts;
ghost use Rattle.rinqebo_findings.specs.Later.{AddsLater, at, document_at, group_fault, group_faults, says_script, script_code, script_fault, script_faults};
ghost use Rattle.rinqebo_findings.specs.LaterWords.{own_prefix, owner_words, prefix_help, prefix_of, says_foreign, says_twice};

use crate::refused::Refused;
use nextest_elements::CustomTestGroup;
use nextest_places::Step;
use nextest_scripts::ScriptId;
use rinqebo_faults::script_path;
use rinqebo_report::{Code, Finding, SourceKind};
use std::alloc::{AllocError, Global};
use std::collections::BTreeSet;

/// What the names begin with that a source of a kind defines, if they begin with something.
fn prefix_of(alloc: Global, kind: &SourceKind) -> Result<Option<String>, AllocError>
    ensures { IfOk result (λ prefix. option_map string_bytes prefix ≡ prefix_of kind.now) }
{
    match kind {
        SourceKind::Tool(tool) => Ok(Some(format!(in alloc; "@tool:{tool}:")?)),
        SourceKind::Organisation => Ok(Some(String::from_str(alloc, "@org:")?)),
        SourceKind::Default | SourceKind::Explicit | SourceKind::Discovered => Ok(None),
    }
}

/// What names of the refused source begin with, if it is one whose names begin with something.
fn own_prefix(refused: &Refused<'_, '_>) -> Result<Option<String>, AllocError>
    ensures { IfOk result (λ prefix. option_map string_bytes prefix
        ≡ own_prefix refused.now.source.layers.now refused.now.source.position) }
{
    let Some(position) = refused.source.position else {
        return Ok(None);
    };
    match refused.source.layers.get(position) {
        Some(layer) => prefix_of(refused.alloc, &layer.source.kind),
        None => Ok(None),
    }
}

/// The owner of a name that begins as one of a tool or of the organisation does.
#[tactic(auto, using(std::proofs::lemmas::Str::Pattern::starts_text))]
fn owner_words(name: &str) -> &'static str
    ensures { result.now ≡ owner_words name.now }
{
    if name.starts_with("@org:") {
        "the organisation"
    } else {
        "a tool"
    }
}

/// Adds that the name at the end of a path is that of a group or a script of another owner, as a
/// word says, in a source whose names begin with nothing.
fn add_owned(
    refused: &Refused<'_, '_>,
    findings: &mut Vec<Finding>,
    code: Code,
    path: &[Step<'_>],
    what: &str,
    name: &str,
) -> Result<(), AllocError>
    ensures { OnOk result (AddsLater refused.now.source.layers.now refused.now.source.position
        (at parts.Key code (map path_step path.now) (says_foreign what.now name.now None) ∷ [])
        findings.old.items findings.new.items) }
{
    let owner = owner_words(name);
    let wrong = format!(in refused.alloc; "`{name}` is a {what} of {owner}")?;
    let expected = "a name that begins neither with `@tool:` nor with `@org:`";
    refused.add_key(findings, code, path, wrong.as_str(), expected, None)?;
    Ok(())
}

/// What to do about a name that does not begin as those of its source do.
#[tactic(auto, using(std::proofs::lemmas::Str::Pattern::starts_text))]
fn prefix_help(alloc: Global, prefix: &str, name: &str) -> Result<Option<String>, AllocError>
    ensures { IfOk result (λ help. option_map string_bytes help
        ≡ prefix_help prefix.now name.now) }
{
    if name.starts_with("@") {
        return Ok(None);
    }
    Ok(Some(format!(in alloc; "write `{prefix}{name}`")?))
}

/// Adds that the name at the end of a path is not that of a group or a script of the source's own,
/// as a word says, in a source whose names have to begin with a prefix.
fn add_unprefixed(
    refused: &Refused<'_, '_>,
    findings: &mut Vec<Finding>,
    code: Code,
    path: &[Step<'_>],
    what: &str,
    name: &str,
    prefix: &str,
) -> Result<(), AllocError>
    ensures { OnOk result (AddsLater refused.now.source.layers.now refused.now.source.position
        (at parts.Key code (map path_step path.now)
        (says_foreign what.now name.now (Some prefix.now)) ∷ []) findings.old.items
        findings.new.items) }
{
    let alloc = refused.alloc;
    let wrong = format!(in alloc; "`{name}` is not a {what} of this file's own")?;
    let expected = format!(in alloc; "a name that begins with `{prefix}`")?;
    let help = prefix_help(alloc, prefix, name)?;
    refused.add_key(
        findings,
        code,
        path,
        wrong.as_str(),
        expected.as_str(),
        help,
    )?;
    Ok(())
}

/// Adds that a group or a script, as a word says, may not be defined at the key at the end of a
/// path: a name has to begin as those of its source do.
fn add_foreign(
    refused: &Refused<'_, '_>,
    findings: &mut Vec<Finding>,
    code: Code,
    path: &[Step<'_>],
    what: &str,
    name: &str,
) -> Result<(), AllocError>
    ensures { let layers = refused.now.source.layers.now in
        let position = refused.now.source.position in
        OnOk result (AddsLater layers position (at parts.Key code (map path_step path.now)
        (says_foreign what.now name.now (own_prefix layers position)) ∷ []) findings.old.items
        findings.new.items) }
{
    match own_prefix(refused)? {
        Some(prefix) => {
            add_unprefixed(refused, findings, code, path, what, name, prefix.as_str())?;
            Ok(())
        }
        None => {
            add_owned(refused, findings, code, path, what, name)?;
            Ok(())
        }
    }
}

/// Adds that a source may not define the group of a name.
fn add_group(
    refused: &Refused<'_, '_>,
    findings: &mut Vec<Finding>,
    name: &str,
) -> Result<(), AllocError>
    ensures { let layers = refused.now.source.layers.now in
        let position = refused.now.source.position in
        OnOk result (AddsLater layers position
        (group_fault (own_prefix layers position) name.now ∷ []) findings.old.items
        findings.new.items) }
{
    let path = [Step::Key("test-groups"), Step::Key(name)];
    add_foreign(refused, findings, Code::ForeignGroup, &path, "group", name)
}

/// Adds the groups that a source may not define.
pub fn add_groups(
    refused: &Refused<'_, '_>,
    findings: &mut Vec<Finding>,
    groups: &BTreeSet<CustomTestGroup>,
) -> Result<(), AllocError>
    ensures { let layers = refused.now.source.layers.now in
        let position = refused.now.source.position in
        OnOk result (AddsLater layers position
        (group_faults (own_prefix layers position) groups.now.keys) findings.old.items
        findings.new.items) }
{
    for group in groups.iter() {
        add_group(refused, findings, group.as_str())?;
    }
    Ok(())
}

/// Adds that scripts of both kinds have one name.
fn add_twice(
    refused: &Refused<'_, '_>,
    findings: &mut Vec<Finding>,
    path: &[Step<'_>],
    name: &str,
) -> Result<(), AllocError>
    ensures { OnOk result (AddsLater refused.now.source.layers.now refused.now.source.position
        (at parts.Key Code.DuplicateScript (map path_step path.now) (says_twice name.now) ∷ [])
        findings.old.items findings.new.items) }
{
    let wrong = format!(in refused.alloc; "`{name}` is a setup script and a wrapper script")?;
    let expected = "a name of its own for each script";
    let code = Code::DuplicateScript;
    refused.add_key(findings, code, path, wrong.as_str(), expected, None)?;
    Ok(())
}

/// Why a source may not define scripts.
#[derive(Clone, Copy)]
pub enum ScriptFault {
    /// Their names do not begin as those of the source do.
    Foreign,
    /// Scripts of both kinds have one name.
    Twice,
}

/// Adds that a source may not define the script of a name, at its path.
fn add_script_at(
    refused: &Refused<'_, '_>,
    findings: &mut Vec<Finding>,
    path: &[Step<'_>],
    name: &str,
    fault: ScriptFault,
) -> Result<(), AllocError>
    ensures { let layers = refused.now.source.layers.now in
        let position = refused.now.source.position in
        OnOk result (AddsLater layers position
        (at parts.Key (script_code fault) (map path_step path.now)
        (says_script fault name.now (own_prefix layers position)) ∷ []) findings.old.items
        findings.new.items) }
{
    match fault {
        ScriptFault::Foreign => {
            add_foreign(refused, findings, Code::ForeignScript, path, "script", name)
        }
        ScriptFault::Twice => add_twice(refused, findings, path, name),
    }
}

/// Adds that a source may not define the script of a name.
fn add_script(
    refused: &Refused<'_, '_>,
    findings: &mut Vec<Finding>,
    name: &str,
    fault: ScriptFault,
) -> Result<(), AllocError>
    ensures { let layers = refused.now.source.layers.now in
        let position = refused.now.source.position in
        OnOk result (AddsLater layers position
        (script_fault (document_at layers position) (own_prefix layers position) fault name.now
        ∷ []) findings.old.items findings.new.items) }
{
    let path = script_path(refused.alloc, refused.source.tree(), name)?;
    add_script_at(refused, findings, &path, name, fault)?;
    Ok(())
}

/// Adds the scripts that a source may not define.
pub fn add_scripts(
    refused: &Refused<'_, '_>,
    findings: &mut Vec<Finding>,
    scripts: &BTreeSet<ScriptId>,
    fault: ScriptFault,
) -> Result<(), AllocError>
    ensures { let layers = refused.now.source.layers.now in
        let position = refused.now.source.position in
        OnOk result (AddsLater layers position
        (script_faults (document_at layers position) (own_prefix layers position) fault
        scripts.now.keys) findings.old.items findings.new.items) }
{
    let alloc = refused.alloc;
    for script in scripts.iter() {
        let name = script.to_string(alloc)?;
        add_script(refused, findings, name.as_str(), fault)?;
    }
    Ok(())
}
