//! Test groups as JSON.
ghost use Rattle.std.specs.Prelude.{◌≡◌, IfOk, Some};
ghost use Rattle.serde_json.specs.View.{view};
ghost use Rattle.nextest_elements.specs.TestGroup.{custom_group_text};
ghost use Rattle.nextest_load.specs.ConfigView.{groups_view};
ghost use Rattle.rinqebo_objects.specs.Scripts.{group_data};
ghost use Rattle.rinqebo_report.specs.Documents.{list_data};

use crate::values::threads_json;
use nextest_elements::{CustomTestGroup, TestGroupConfig};
use serde_json::{Value, json};
use std::alloc::{AllocError, Global};
use std::collections::BTreeMap;

/// A test group.
fn group_json(
    alloc: Global,
    group: &CustomTestGroup,
    config: &TestGroupConfig,
) -> Result<Value, AllocError>
    ensures { IfOk result (λ value. view value
        ≡ group_data (custom_group_text group.now, Some config.now)) }
{
    let threads = threads_json(alloc, config.max_threads)?;
    json!(in alloc; {"name": group.as_str(), "max-threads": threads})
}

/// Test groups, by name.
pub(crate) fn groups_json(
    alloc: Global,
    groups: &BTreeMap<CustomTestGroup, TestGroupConfig>,
) -> Result<Value, AllocError>
    ensures { IfOk result (λ value. view value
        ≡ list_data group_data (groups_view groups.now.entries)) }
{
    let mut list = Vec::new(alloc);
    for (group, config) in groups.iter() {
        list.push(group_json(alloc, group, config)?)?;
    }
    Ok(Value::Array(list))
}
