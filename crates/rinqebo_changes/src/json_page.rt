//! A diff as one document of JSON.
ghost use Rattle.std.specs.Prelude.{◌≡◌, ◌++◌, IfOk, OnOk, map, string_bytes};
ghost use Rattle.serde_json.specs.View.{view};
ghost use Rattle.rinqebo_report.specs.Documents.{list_data, test_id_data};
ghost use Rattle.rinqebo_changes.specs.Documents.{given_data, change_data, item_data, group_tests_data, group_data, side_data, diff_data, IsDiffDocument, IsDiffJson};

use crate::change::{RowChange, SideRow};
use crate::classes::Item;
use crate::diff::{Diff, Side};
use crate::groups::{Group, groups_of};
use rinqebo_report::{
    TestId, optional_text_json, optional_value_json, origins_json, sources_json, test_id_json,
    texts_json,
};
use serde_json::{Value, json};
use std::alloc::{AllocError, Global};

/// What a side gives to a setting.
fn given_json(alloc: Global, given: &SideRow) -> Result<Value, AllocError>
    ensures { IfOk result (λ value. view value ≡ given_data given.now) }
{
    let key = given.row.key.as_str();
    let origins = origins_json(alloc, &given.row.origins)?;
    let value = optional_value_json(alloc, &given.row.value)?;
    if given.is_ignored {
        json!(in alloc; {"ignored": true, "key": key, "origins": origins, "value": value})
    } else {
        json!(in alloc; {"key": key, "origins": origins, "value": value})
    }
}

/// Adds the tests of changes to a list.
fn add_items(alloc: Global, list: &mut Vec<Value>, items: &[Item<'_>]) -> Result<(), AllocError>
    ensures { OnOk result (map view list.new.items
        ≡ map view list.old.items ++ map item_data items.now) }
{
    for item in items {
        list.push(test_id_json(alloc, item.test)?)?;
    }
    Ok(())
}

/// The tests of a group.
fn group_tests_json(alloc: Global, group: &Group<'_>) -> Result<Value, AllocError>
    ensures { IfOk result (λ value. view value ≡ group_tests_data group.now) }
{
    let mut list = Vec::new(alloc);
    for binary in &group.binaries {
        add_items(alloc, &mut list, &binary.items)?;
    }
    Ok(Value::Array(list))
}

/// A change and its tests.
fn group_json(alloc: Global, group: &Group<'_>) -> Result<Value, AllocError>
    ensures { IfOk result (λ value. view value ≡ group_data group.now) }
{
    let from = given_json(alloc, &group.head.row.from)?;
    let to = given_json(alloc, &group.head.row.to)?;
    let tests = group_tests_json(alloc, group)?;
    json!(in alloc; {"from": from, "tests": tests, "to": to})
}

/// Changes and their tests.
fn groups_json(alloc: Global, groups: &[Group<'_>]) -> Result<Value, AllocError>
    ensures { IfOk result (λ value. view value ≡ list_data group_data groups.now) }
{
    let mut list = Vec::new(alloc);
    for group in groups {
        list.push(group_json(alloc, group)?)?;
    }
    Ok(Value::Array(list))
}

/// What changes for the whole run.
fn run_json(alloc: Global, rows: &[RowChange]) -> Result<Value, AllocError>
    ensures { IfOk result (λ value. view value ≡ list_data change_data rows.now) }
{
    let mut list = Vec::new(alloc);
    for row in rows {
        let from = given_json(alloc, &row.from)?;
        let to = given_json(alloc, &row.to)?;
        list.push(json!(in alloc; {"from": from, "to": to})?)?;
    }
    Ok(Value::Array(list))
}

/// Names of tests.
fn ids_json(alloc: Global, tests: &[TestId]) -> Result<Value, AllocError>
    ensures { IfOk result (λ value. view value ≡ list_data test_id_data tests.now) }
{
    let mut list = Vec::new(alloc);
    for test in tests {
        list.push(test_id_json(alloc, test)?)?;
    }
    Ok(Value::Array(list))
}

/// A side.
fn side_json(alloc: Global, side: &Side) -> Result<Value, AllocError>
    ensures { IfOk result (λ value. view value ≡ side_data side.now) }
{
    let chain = texts_json(alloc, &side.asked.chain)?;
    let sources = sources_json(alloc, &side.sources)?;
    let target = optional_text_json(alloc, &side.asked.target)?;
    json!(in alloc; {
        "chain": chain,
        "host": side.asked.host.as_str(),
        "mode": side.asked.mode.word(),
        "profile": side.asked.profile.as_str(),
        "root": side.root.as_str(),
        "sources": sources,
        "target": target
    })
}

/// The document of a diff, whose changes are in groups.
fn document_of(alloc: Global, diff: &Diff, groups: &[Group<'_>]) -> Result<Value, AllocError>
    ensures { IfOk result (λ value. view value ≡ diff_data diff.now groups.now) }
{
    let added = ids_json(alloc, &diff.added)?;
    let changes = groups_json(alloc, groups)?;
    let from = side_json(alloc, &diff.from)?;
    let removed = ids_json(alloc, &diff.removed)?;
    let run = run_json(alloc, &diff.run)?;
    let to = side_json(alloc, &diff.to)?;
    json!(in alloc; {
        "added": added,
        "changed": diff.changed.len(),
        "changes": changes,
        "command": "diff",
        "compared": diff.compared,
        "from": from,
        "removed": removed,
        "run": run,
        "to": to,
        "version": 1u64
    })
}

/// The document of a diff.
pub fn diff_document(alloc: Global, diff: &Diff) -> Result<Value, AllocError>
    ensures { IfOk result (λ value. IsDiffDocument diff.now (view value)) }
{
    let groups = groups_of(alloc, &diff.changed)?;
    document_of(alloc, diff, &groups)
}

/// The document of a diff, on one line.
pub fn diff_json(alloc: Global, diff: &Diff) -> Result<String, AllocError>
    ensures { IfOk result (λ text. IsDiffJson diff.now (string_bytes text)) }
{
    let document = diff_document(alloc, diff)?;
    let mut text = document.to_string(alloc)?;
    text.push_str("\n")?;
    Ok(text)
}
