//! Findings as JSON.
ghost use Rattle.std.specs.Prelude.{◌≡◌, IfOk, OnOk};
ghost use Rattle.serde_json.specs.View.{members_view, view};
ghost use Rattle.rinqebo_report.specs.Documents.{list_data, step_data, place_source_data, place_lines_data, place_range_data, span_data, expression_data, expression_span_data, with_fault, with_site, with_expression, with_advice, finding_data, summary_data};

use crate::check_page::{errors_of, warnings_of};
use crate::filled::put_filled;
use crate::finding::{CharSpan, Finding, FindingStep, RefusedExpression};
use crate::json_parts::{
    lines_json, optional_count_json, optional_text_json, range_json, texts_json,
};
use crate::origin::FilePlace;
use serde_json::{Map, Value, json, put};
use std::alloc::{AllocError, Global};

/// The place of a finding's source, or null.
fn place_source_json(place: Option<FilePlace>) -> Value
    ensures { view result ≡ place_source_data place }
{
    match place {
        Some(place) => Value::from(place.source),
        None => Value::Null,
    }
}

/// The lines of a finding, or null.
fn place_lines_json(alloc: Global, place: Option<FilePlace>) -> Result<Value, AllocError>
    ensures { IfOk result (λ value. view value ≡ place_lines_data place) }
{
    match place {
        Some(place) => lines_json(alloc, place.lines),
        None => Ok(Value::Null),
    }
}

/// The range of a finding, or null.
fn place_range_json(alloc: Global, place: Option<FilePlace>) -> Result<Value, AllocError>
    ensures { IfOk result (λ value. view value ≡ place_range_data place) }
{
    match place {
        Some(place) => range_json(alloc, place.range),
        None => Ok(Value::Null),
    }
}

/// A step of a path: a key, or a position.
fn step_json(alloc: Global, step: &FindingStep) -> Result<Value, AllocError>
    ensures { IfOk result (λ value. view value ≡ step_data step.now) }
{
    match step {
        FindingStep::Key(key) => Value::try_from_str(alloc, key.as_str()),
        FindingStep::Position(position) => Ok(Value::from(*position)),
    }
}

/// The steps of a path.
fn steps_json(alloc: Global, steps: &[FindingStep]) -> Result<Value, AllocError>
    ensures { IfOk result (λ value. view value ≡ list_data step_data steps.now) }
{
    let mut list = Vec::new(alloc);
    for step in steps {
        list.push(step_json(alloc, step)?)?;
    }
    Ok(Value::Array(list))
}

/// The text of an expression, or null.
fn expression_json(
    alloc: Global,
    expression: &Option<RefusedExpression>,
) -> Result<Value, AllocError>
    ensures { IfOk result (λ value. view value ≡ expression_data expression.now) }
{
    match expression {
        Some(expression) => Value::try_from_str(alloc, expression.text.as_str()),
        None => Ok(Value::Null),
    }
}

/// A span, or null.
fn span_json(alloc: Global, span: Option<CharSpan>) -> Result<Value, AllocError>
    ensures { IfOk result (λ value. view value ≡ span_data span) }
{
    match span {
        Some(CharSpan { from, to }) => json!(in alloc; [from, to]),
        None => Ok(Value::Null),
    }
}

/// The span of an expression, or null.
fn expression_span_json(
    alloc: Global,
    expression: &Option<RefusedExpression>,
) -> Result<Value, AllocError>
    ensures { IfOk result (λ value. view value ≡ expression_span_data expression.now) }
{
    match expression {
        Some(expression) => span_json(alloc, expression.span),
        None => Ok(Value::Null),
    }
}

/// Puts what is wrong among members.
fn put_fault(
    members: &mut Map<String, Value>,
    alloc: Global,
    finding: &Finding,
) -> Result<(), AllocError>
    ensures { OnOk result (members_view members.new.entries
        ≡ with_fault finding.now (members_view members.old.entries)) }
{
    let code = Value::try_from_str(alloc, finding.code.as_str())?;
    put(members, alloc, "code", code)?;
    let level = Value::try_from_str(alloc, finding.level.word())?;
    put(members, alloc, "level", level)?;
    let message = Value::try_from_str(alloc, finding.message.as_str())?;
    put(members, alloc, "message", message)?;
    let upstream = optional_text_json(alloc, &finding.upstream)?;
    put_filled(members, alloc, "upstream", upstream)
}

/// Puts where it is among members.
fn put_site(
    members: &mut Map<String, Value>,
    alloc: Global,
    finding: &Finding,
) -> Result<(), AllocError>
    ensures { OnOk result (members_view members.new.entries
        ≡ with_site finding.now (members_view members.old.entries)) }
{
    let column = optional_count_json(finding.column);
    put_filled(members, alloc, "column", column)?;
    let lines = place_lines_json(alloc, finding.place)?;
    put_filled(members, alloc, "lines", lines)?;
    let path = steps_json(alloc, &finding.steps)?;
    put_filled(members, alloc, "path", path)?;
    let range = place_range_json(alloc, finding.place)?;
    put_filled(members, alloc, "range", range)?;
    let source = place_source_json(finding.place);
    put_filled(members, alloc, "source", source)
}

/// Puts the expression that it is about among members.
fn put_expression(
    members: &mut Map<String, Value>,
    alloc: Global,
    finding: &Finding,
) -> Result<(), AllocError>
    ensures { OnOk result (members_view members.new.entries
        ≡ with_expression finding.now (members_view members.old.entries)) }
{
    let expression = expression_json(alloc, &finding.expression)?;
    put_filled(members, alloc, "expression", expression)?;
    let span = expression_span_json(alloc, &finding.expression)?;
    put_filled(members, alloc, "span", span)
}

/// Puts what to do among members.
fn put_advice(
    members: &mut Map<String, Value>,
    alloc: Global,
    finding: &Finding,
) -> Result<(), AllocError>
    ensures { OnOk result (members_view members.new.entries
        ≡ with_advice finding.now (members_view members.old.entries)) }
{
    let expected = optional_text_json(alloc, &finding.expected)?;
    put_filled(members, alloc, "expected", expected)?;
    let help = optional_text_json(alloc, &finding.help)?;
    put_filled(members, alloc, "help", help)?;
    let notes = texts_json(alloc, &finding.notes)?;
    put_filled(members, alloc, "notes", notes)
}

/// A finding. Members that would be empty are left out.
fn finding_json(alloc: Global, finding: &Finding) -> Result<Value, AllocError>
    ensures { IfOk result (λ value. view value ≡ finding_data finding.now) }
{
    let mut members = Map::new(alloc);
    put_fault(&mut members, alloc, finding)?;
    put_site(&mut members, alloc, finding)?;
    put_expression(&mut members, alloc, finding)?;
    put_advice(&mut members, alloc, finding)?;
    Ok(Value::Object(members))
}

/// How many findings there are, of both levels and of each.
pub(crate) fn summary_json(alloc: Global, findings: &[Finding]) -> Result<Value, AllocError>
    ensures { IfOk result (λ value. view value ≡ summary_data findings.now) }
{
    let errors = errors_of(findings);
    let warnings = warnings_of(findings);
    let count = findings.len();
    json!(in alloc; {"errors": errors, "findings": count, "warnings": warnings})
}

/// Findings.
pub(crate) fn findings_json(alloc: Global, findings: &[Finding]) -> Result<Value, AllocError>
    ensures { IfOk result (λ value. view value ≡ list_data finding_data findings.now) }
{
    let mut list = Vec::new(alloc);
    for finding in findings {
        list.push(finding_json(alloc, finding)?)?;
    }
    Ok(Value::Array(list))
}
