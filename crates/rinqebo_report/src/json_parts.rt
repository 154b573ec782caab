//! Parts of a report as JSON.
ghost use Rattle.std.specs.Prelude.{◌≡◌, IfOk, codes, fold};
ghost use Rattle.serde_json.specs.Data.{null, object, no_members};
ghost use Rattle.serde_json.specs.View.{members_view, view};
ghost use Rattle.rinqebo_report.specs.Documents.{count_data, text_data, optional_text_data, optional_count_data, list_data, lines_data, range_data, scalar_data, with_field, value_data, optional_value_data, part_word, part_data, kind_data, origin_data, setting_data, runs_data, with_setting, test_data, test_id_data, entry_data, answer_word, rule_data, kind_word, tool_data, source_data, unreached_data, wrapper_data};

use crate::duration::add_duration;
use crate::origin::{FileLines, FilePlace, Origin, Part, Range, Source, SourceKind, Written};
use crate::report::{
    ConditionAnswer, Entry, ListWrapper, Rule, SettingRow, TestId, TestRows, Unreached,
};
use crate::value::{Scalar, TableMember, Value as SettingValue};
use serde_json::{Map, Value, json, put};
use std::alloc::{AllocError, Global};

/// A text, or null.
pub fn optional_text_json(alloc: Global, text: &Option<String>) -> Result<Value, AllocError>
    ensures { IfOk result (λ value. view value ≡ optional_text_data text.now) }
{
    match text {
        Some(text) => Value::try_from_str(alloc, text.as_str()),
        None => Ok(Value::Null),
    }
}

/// A number, or null.
pub(crate) fn optional_count_json(count: Option<u64>) -> Value
    ensures { view result ≡ optional_count_data count }
{
    match count {
        Some(count) => Value::from(count),
        None => Value::Null,
    }
}

/// A list of texts.
pub fn texts_json(alloc: Global, texts: &[String]) -> Result<Value, AllocError>
    ensures { IfOk result (λ value. view value ≡ list_data text_data texts.now) }
{
    let mut list = Vec::new(alloc);
    for text in texts {
        list.push(Value::try_from_str(alloc, text.as_str())?)?;
    }
    Ok(Value::Array(list))
}

/// Lines, or null.
pub(crate) fn lines_json(alloc: Global, lines: Option<FileLines>) -> Result<Value, AllocError>
    ensures { IfOk result (λ value. view value ≡ lines_data lines) }
{
    match lines {
        Some(FileLines { first, last }) => json!(in alloc; [first, last]),
        None => Ok(Value::Null),
    }
}

/// A range, where it starts and where it ends, or null.
pub(crate) fn range_json(alloc: Global, range: Option<Range>) -> Result<Value, AllocError>
    ensures { IfOk result (λ value. view value ≡ range_data range) }
{
    match range {
        Some(Range { start, end }) => {
            json!(in alloc; [[start.line, start.column], [end.line, end.column]])
        }
        None => Ok(Value::Null),
    }
}

/// A value that holds no others: a duration is its text in one number.
fn scalar_json(alloc: Global, scalar: &Scalar) -> Result<Value, AllocError>
    ensures { IfOk result (λ value. view value ≡ scalar_data scalar.now) }
{
    match scalar {
        Scalar::Boolean(truth) => Ok(Value::Bool(*truth)),
        Scalar::Integer(number) => Ok(Value::from(*number)),
        Scalar::Text(text) => Value::try_from_str(alloc, text.as_str()),
        Scalar::Duration(duration) => {
            let mut text = String::new(alloc);
            add_duration(&mut text, duration.nanoseconds)?;
            Ok(Value::String(text))
        }
    }
}

/// A table.
fn fields_json(alloc: Global, fields: &[TableMember]) -> Result<Value, AllocError>
    ensures { IfOk result (λ value.
        view value ≡ object (fold with_field no_members fields.now)) }
{
    let mut members = Map::new(alloc);
    for field in fields {
        let value = scalar_json(alloc, &field.value)?;
        put(&mut members, alloc, field.key.as_str(), value)?;
    }
    Ok(Value::Object(members))
}

/// A value.
fn value_json(alloc: Global, value: &SettingValue) -> Result<Value, AllocError>
    ensures { IfOk result (λ json. view json ≡ value_data value.now) }
{
    match value {
        SettingValue::Scalar(scalar) => scalar_json(alloc, scalar),
        SettingValue::Texts(texts) => texts_json(alloc, texts),
        SettingValue::Table(fields) => fields_json(alloc, fields),
    }
}

/// A value, or null.
pub fn optional_value_json(alloc: Global, value: &Option<SettingValue>) -> Result<Value, AllocError>
    ensures { IfOk result (λ json. view json ≡ optional_value_data value.now) }
{
    match value {
        Some(value) => value_json(alloc, value),
        None => Ok(Value::Null),
    }
}

impl Part {
    /// The word for it.
    fn word(self) -> &'static str
        ensures { result.now ≡ part_word self }
    {
        match self {
            Part::Fields => "profile",
            Part::Override(_) => "override",
            Part::Script(_) => "script",
        }
    }

    /// Its position in its file, or null.
    fn index_json(self) -> Value
        ensures { view result ≡ part_data self }
    {
        match self {
            Part::Fields => Value::Null,
            Part::Override(index) | Part::Script(index) => Value::from(index),
        }
    }
}

/// An origin that no file writes.
fn unwritten_json(alloc: Global, kind: &str) -> Result<Value, AllocError>
    ensures { IfOk result (λ value. view value ≡ kind_data kind.now null null null null null) }
{
    json!(in alloc; {
        "kind": kind,
        "profile": null,
        "index": null,
        "source": null,
        "lines": null,
        "range": null
    })
}

/// What is written in a file.
fn written_json(alloc: Global, written: &Written) -> Result<Value, AllocError>
    ensures { IfOk result (λ value. view value ≡ kind_data (part_word written.now.part)
        (part_data written.now.part) (lines_data written.now.place.lines)
        (text_data written.now.profile) (range_data written.now.place.range)
        (count_data written.now.place.source)) }
{
    let lines = lines_json(alloc, written.place.lines)?;
    let range = range_json(alloc, written.place.range)?;
    json!(in alloc; {
        "kind": written.part.word(),
        "profile": written.profile.as_str(),
        "index": written.part.index_json(),
        "source": written.place.source,
        "lines": lines,
        "range": range
    })
}

/// What is written in a file beside all profiles.
fn beside_json(alloc: Global, place: FilePlace) -> Result<Value, AllocError>
    ensures { IfOk result (λ value. view value ≡ kind_data (codes "file") null
        (lines_data place.lines) null (range_data place.range) (count_data place.source)) }
{
    let lines = lines_json(alloc, place.lines)?;
    let range = range_json(alloc, place.range)?;
    json!(in alloc; {
        "kind": "file",
        "profile": null,
        "index": null,
        "source": place.source,
        "lines": lines,
        "range": range
    })
}

/// An origin.
fn origin_json(alloc: Global, origin: &Origin) -> Result<Value, AllocError>
    ensures { IfOk result (λ value. view value ≡ origin_data origin.now) }
{
    match origin {
        Origin::BuiltIn => unwritten_json(alloc, "built-in"),
        Origin::DefaultTable => unwritten_json(alloc, "default-table"),
        Origin::Written(written) => written_json(alloc, written),
        Origin::File(place) => beside_json(alloc, *place),
    }
}

/// Origins.
pub fn origins_json(alloc: Global, origins: &[Origin]) -> Result<Value, AllocError>
    ensures { IfOk result (λ value. view value ≡ list_data origin_data origins.now) }
{
    let mut list = Vec::new(alloc);
    for origin in origins {
        list.push(origin_json(alloc, origin)?)?;
    }
    Ok(Value::Array(list))
}

/// A setting of a test.
fn setting_json(alloc: Global, row: &SettingRow) -> Result<Value, AllocError>
    ensures { IfOk result (λ value. view value ≡ setting_data row.now) }
{
    let origins = origins_json(alloc, &row.origins)?;
    let value = optional_value_json(alloc, &row.value)?;
    json!(in alloc; {"value": value, "origins": origins})
}

/// Whether a test runs, and whether a list says that it is ignored.
fn runs_json(alloc: Global, row: &SettingRow, is_ignored: bool) -> Result<Value, AllocError>
    ensures { IfOk result (λ value. view value ≡ runs_data is_ignored row.now) }
{
    if !is_ignored {
        return setting_json(alloc, row);
    }
    let origins = origins_json(alloc, &row.origins)?;
    let value = optional_value_json(alloc, &row.value)?;
    json!(in alloc; {"ignored": true, "value": value, "origins": origins})
}

/// Settings, by their keys.
fn settings_json(alloc: Global, rows: &[SettingRow]) -> Result<Value, AllocError>
    ensures { IfOk result (λ value.
        view value ≡ object (fold with_setting no_members rows.now)) }
{
    let mut members = Map::new(alloc);
    for row in rows {
        let value = setting_json(alloc, row)?;
        put(&mut members, alloc, row.key.as_str(), value)?;
    }
    Ok(Value::Object(members))
}

/// A test.
pub(crate) fn test_json(alloc: Global, test: &TestRows) -> Result<Value, AllocError>
    ensures { IfOk result (λ value. view value ≡ test_data test.now) }
{
    let runs = runs_json(alloc, &test.runs, test.is_ignored)?;
    let settings = settings_json(alloc, &test.settings)?;
    json!(in alloc; {
        "binary-id": test.binary.as_str(),
        "name": test.name.as_str(),
        "platform": test.platform.word(),
        "runs": runs,
        "settings": settings
    })
}

/// The names of a test.
pub fn test_id_json(alloc: Global, test: &TestId) -> Result<Value, AllocError>
    ensures { IfOk result (λ value. view value ≡ test_id_data test.now) }
{
    json!(in alloc; {
        "binary-id": test.binary.as_str(),
        "name": test.name.as_str(),
        "platform": test.platform.word()
    })
}

/// Tests.
pub(crate) fn tests_json(alloc: Global, tests: &[TestRows]) -> Result<Value, AllocError>
    ensures { IfOk result (λ value. view value ≡ list_data test_data tests.now) }
{
    let mut list = Vec::new(alloc);
    for test in tests {
        list.push(test_json(alloc, test)?)?;
    }
    Ok(Value::Array(list))
}

/// The list wrapper of a binary.
fn wrapper_json(alloc: Global, wrapper: &ListWrapper) -> Result<Value, AllocError>
    ensures { IfOk result (λ value. view value ≡ wrapper_data wrapper.now) }
{
    json!(in alloc; {
        "binary-id": wrapper.binary.as_str(),
        "value": wrapper.value.as_str()
    })
}

/// The list wrappers of binaries.
pub fn wrappers_json(alloc: Global, wrappers: &[ListWrapper]) -> Result<Value, AllocError>
    ensures { IfOk result (λ value. view value ≡ list_data wrapper_data wrappers.now) }
{
    let mut list = Vec::new(alloc);
    for wrapper in wrappers {
        list.push(wrapper_json(alloc, wrapper)?)?;
    }
    Ok(Value::Array(list))
}

/// A leaf of the configuration.
fn entry_json(alloc: Global, entry: &Entry) -> Result<Value, AllocError>
    ensures { IfOk result (λ value. view value ≡ entry_data entry.now) }
{
    let origin = origin_json(alloc, &entry.origin)?;
    let value = value_json(alloc, &entry.value)?;
    json!(in alloc; {
        "hidden": entry.is_hidden,
        "key": entry.key.as_str(),
        "origin": origin,
        "value": value
    })
}

/// Leaves of the configuration.
pub(crate) fn entries_json(alloc: Global, entries: &[Entry]) -> Result<Value, AllocError>
    ensures { IfOk result (λ value. view value ≡ list_data entry_data entries.now) }
{
    let mut list = Vec::new(alloc);
    for entry in entries {
        list.push(entry_json(alloc, entry)?)?;
    }
    Ok(Value::Array(list))
}

impl ConditionAnswer {
    /// Its word.
    fn word(self) -> &'static str
        ensures { result.now ≡ answer_word self }
    {
        match self {
            ConditionAnswer::Absent => "absent",
            ConditionAnswer::Yes => "yes",
            ConditionAnswer::No => "no",
            ConditionAnswer::Unknown => "unknown",
            ConditionAnswer::Unrequested => "unasked",
        }
    }
}

/// A rule.
fn rule_json(alloc: Global, rule: &Rule) -> Result<Value, AllocError>
    ensures { IfOk result (λ value. view value ≡ rule_data rule.now) }
{
    let origin = origin_json(alloc, &rule.origin)?;
    let others = origins_json(alloc, &rule.others)?;
    let value = optional_value_json(alloc, &rule.value)?;
    json!(in alloc; {
        "verdict": rule.verdict.text(),
        "origin": origin,
        "other-origins": others,
        "host": rule.host.answer.word(),
        "target": rule.target.answer.word(),
        "filter": rule.filter.answer.word(),
        "value": value
    })
}

/// Rules.
pub(crate) fn rules_json(alloc: Global, rules: &[Rule]) -> Result<Value, AllocError>
    ensures { IfOk result (λ value. view value ≡ list_data rule_data rules.now) }
{
    let mut list = Vec::new(alloc);
    for rule in rules {
        list.push(rule_json(alloc, rule)?)?;
    }
    Ok(Value::Array(list))
}

impl SourceKind {
    /// Its word.
    fn word(&self) -> &'static str
        ensures { result.now ≡ kind_word self.now }
    {
        match self {
            SourceKind::Default => "default",
            SourceKind::Tool(_) => "tool",
            SourceKind::Organisation => "organisation",
            SourceKind::Explicit => "explicit",
            SourceKind::Discovered => "discovered",
        }
    }
}

/// The tool of a kind of source, or null.
fn tool_json(alloc: Global, kind: &SourceKind) -> Result<Value, AllocError>
    ensures { IfOk result (λ value. view value ≡ tool_data kind.now) }
{
    match kind {
        SourceKind::Tool(name) => Value::try_from_str(alloc, name.as_str()),
        SourceKind::Default
        | SourceKind::Organisation
        | SourceKind::Explicit
        | SourceKind::Discovered => Ok(Value::Null),
    }
}

/// A source.
fn source_json(alloc: Global, source: &Source) -> Result<Value, AllocError>
    ensures { IfOk result (λ value. view value ≡ source_data source.now) }
{
    let tool = tool_json(alloc, &source.kind)?;
    let path = optional_text_json(alloc, &source.path)?;
    json!(in alloc; {"kind": source.kind.word(), "tool": tool, "path": path})
}

/// Sources.
pub fn sources_json(alloc: Global, sources: &[Source]) -> Result<Value, AllocError>
    ensures { IfOk result (λ value. view value ≡ list_data source_data sources.now) }
{
    let mut list = Vec::new(alloc);
    for source in sources {
        list.push(source_json(alloc, source)?)?;
    }
    Ok(Value::Array(list))
}

/// Checks of a source that were not reached.
fn unreached_json(alloc: Global, unreached: &Unreached) -> Result<Value, AllocError>
    ensures { IfOk result (λ value. view value ≡ unreached_data unreached.now) }
{
    let checks = texts_json(alloc, &unreached.checks)?;
    json!(in alloc; {"source": unreached.source, "checks": checks})
}

/// Checks of sources that were not reached.
pub(crate) fn all_unreached_json(alloc: Global, all: &[Unreached]) -> Result<Value, AllocError>
    ensures { IfOk result (λ value. view value ≡ list_data unreached_data all.now) }
{
    let mut list = Vec::new(alloc);
    for unreached in all {
        list.push(unreached_json(alloc, unreached)?)?;
    }
    Ok(Value::Array(list))
}
