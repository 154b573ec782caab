//! A report as one document of JSON, for other programs.
ghost use Rattle.std.specs.Prelude.{◌≡◌, ◌++◌, [], ◌∷◌, Some, IfOk, OnOk, string_bytes};
ghost use Rattle.serde_json.specs.Read.{read};
ghost use Rattle.serde_json.specs.View.{members_view, view};
ghost use Rattle.serde_json.specs.Written.{compact_text};
ghost use Rattle.rinqebo_report.specs.Document.{check_members, common_members, document_data, document_members, is_check, with_checks, with_content, with_files};

use crate::config_page::put_config;
use crate::explain_page::put_explain;
use crate::filled::put_filled;
use crate::json_findings::{findings_json, summary_json};
use crate::json_parts::{all_unreached_json, sources_json};
use crate::json_request::request_json;
use crate::json_requested::put_text;
use crate::list_page::put_list;
use crate::report::{Content, Report};
use crate::why_page::put_why;
use serde_json::{Map, Value, put};
use std::alloc::{AllocError, Global};

/// The members that every document has but that of `check`. What only some commands report is empty
/// or null.
fn common_members(alloc: Global, report: &Report) -> Result<Map<String, Value>, AllocError>
    ensures { IfOk result (λ members. members_view members.entries ≡ common_members report.now) }
{
    let findings = findings_json(alloc, &report.findings)?;
    let root = Value::try_from_str(alloc, report.root.as_str())?;
    let sources = sources_json(alloc, &report.sources)?;
    let unreached = all_unreached_json(alloc, &report.unreached)?;
    let mut members = Map::new(alloc);
    put(&mut members, alloc, "chain", Value::Array(Vec::new(alloc)))?;
    put(
        &mut members,
        alloc,
        "entries",
        Value::Array(Vec::new(alloc)),
    )?;
    put(&mut members, alloc, "findings", findings)?;
    put(&mut members, alloc, "host", Value::Null)?;
    put(
        &mut members,
        alloc,
        "list-wrappers",
        Value::Array(Vec::new(alloc)),
    )?;
    put(&mut members, alloc, "mode", Value::Null)?;
    put(&mut members, alloc, "profile", Value::Null)?;
    put(&mut members, alloc, "root", root)?;
    put(&mut members, alloc, "rules", Value::Array(Vec::new(alloc)))?;
    put(
        &mut members,
        alloc,
        "setup-scripts",
        Value::Array(Vec::new(alloc)),
    )?;
    put(&mut members, alloc, "sources", sources)?;
    put(&mut members, alloc, "target", Value::Null)?;
    put(&mut members, alloc, "tests", Value::Array(Vec::new(alloc)))?;
    put(&mut members, alloc, "unreached", unreached)?;
    put(&mut members, alloc, "unused", Value::Array(Vec::new(alloc)))?;
    put(&mut members, alloc, "version", Value::from(1u64))?;
    Ok(members)
}

impl Content {
    /// Whether it is nothing: the report has findings alone.
    fn is_check(&self) -> bool
        ensures { result ≡ is_check self.now }
    {
        match self {
            Content::Check => true,
            Content::Explain { .. }
            | Content::Why { .. }
            | Content::List { .. }
            | Content::ShowConfig { .. } => false,
        }
    }

    /// Puts among members those of the page of a command's result.
    fn put_members(&self, members: &mut Map<String, Value>, alloc: Global) -> Result<(), AllocError>
        ensures { OnOk result (members_view members.new.entries
            ≡ with_content self.now (members_view members.old.entries)) }
    {
        match self {
            Content::Explain { asked, test } => put_explain(members, alloc, asked, test),
            Content::Why {
                asked,
                test,
                key,
                rules,
                is_ignored,
            } => {
                let key = key.as_str();
                put_why(members, alloc, asked, test, key, rules, *is_ignored)
            }
            Content::List {
                asked,
                tests,
                unused,
                scripts,
                objects,
            } => put_list(members, alloc, asked, tests, unused, scripts, objects),
            Content::ShowConfig { asked, entries } => put_config(members, alloc, asked, entries),
            Content::Check => Ok(()),
        }
    }
}

/// Puts the workspace and the files among members.
fn put_files(
    members: &mut Map<String, Value>,
    alloc: Global,
    report: &Report,
) -> Result<(), AllocError>
    ensures { OnOk result (members_view members.new.entries
        ≡ with_files report.now (members_view members.old.entries)) }
{
    put_text(members, alloc, "root", report.root.as_str())?;
    let sources = sources_json(alloc, &report.sources)?;
    put(members, alloc, "sources", sources)
}

/// Puts among members what is wrong, how much that is, and which checks were not reached, if there
/// are some.
fn put_checks(
    members: &mut Map<String, Value>,
    alloc: Global,
    report: &Report,
) -> Result<(), AllocError>
    ensures { OnOk result (members_view members.new.entries
        ≡ with_checks report.now (members_view members.old.entries)) }
{
    let findings = findings_json(alloc, &report.findings)?;
    put(members, alloc, "findings", findings)?;
    let summary = summary_json(alloc, &report.findings)?;
    put(members, alloc, "summary", summary)?;
    let unreached = all_unreached_json(alloc, &report.unreached)?;
    put_filled(members, alloc, "unreached", unreached)
}

/// The members of the document of `check`.
fn check_members(alloc: Global, report: &Report) -> Result<Map<String, Value>, AllocError>
    ensures { IfOk result (λ members. members_view members.entries ≡ check_members report.now) }
{
    let mut members = Map::new(alloc);
    put_text(&mut members, alloc, "command", "check")?;
    put_files(&mut members, alloc, report)?;
    put_checks(&mut members, alloc, report)?;
    put(&mut members, alloc, "version", Value::from(1u64))?;
    Ok(members)
}

/// The members of the document of a report, without its request.
fn document_members(alloc: Global, report: &Report) -> Result<Map<String, Value>, AllocError>
    ensures { IfOk result (λ members.
        members_view members.entries ≡ document_members report.now) }
{
    if report.content.is_check() {
        return check_members(alloc, report);
    }
    let mut members = common_members(alloc, report)?;
    report.content.put_members(&mut members, alloc)?;
    Ok(members)
}

/// The document of a report.
pub fn document(alloc: Global, report: &Report) -> Result<Value, AllocError>
    ensures { IfOk result (λ value. view value ≡ document_data report.now) }
{
    let mut members = document_members(alloc, report)?;
    let request = request_json(alloc, &report.request)?;
    put(&mut members, alloc, "request", request)?;
    Ok(Value::Object(members))
}

/// The document of a report as a text without spaces, which reads back.
fn document_text(alloc: Global, report: &Report) -> Result<String, AllocError>
    ensures text { IfOk result (λ text. string_bytes text
        ≡ compact_text (document_data report.now)) }
    ensures reads_back { IfOk result (λ text. read (string_bytes text)
        ≡ Some (document_data report.now)) }
{
    let document = document(alloc, report)?;
    let text = document.to_string(alloc)?;
    Ok(text)
}

/// The document of a report, on one line. Without the end of the line it reads back.
pub fn render_json(alloc: Global, report: &Report) -> Result<String, AllocError>
    ensures text { IfOk result (λ text. string_bytes text
        ≡ compact_text (document_data report.now) ++ 10 ∷ []) }
    ensures reads_back { IfOk result (λ text.
        read (compact_text (document_data report.now)) ≡ Some (document_data report.now)) }
{
    let mut text = document_text(alloc, report)?;
    text.push('\n')?;
    Ok(text)
}
