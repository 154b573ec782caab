//! The request of a user, as JSON.
ghost use Rattle.std.specs.Prelude.{◌≡◌, IfOk, OnOk};
ghost use Rattle.serde_json.specs.View.{members_view, view};
ghost use Rattle.rinqebo_report.specs.Requests.{named_test_data, put_given, put_test, request_data};

use crate::filled::put_filled;
use crate::json_parts::texts_json;
use crate::json_requested::put_text;
use crate::reported_request::{NamedTest, ReportedRequest};
use serde_json::{Map, Value, put};
use std::alloc::{AllocError, Global};

/// Puts a text among members, if there is one.
fn put_given(
    members: &mut Map<String, Value>,
    alloc: Global,
    key: &str,
    text: &Option<String>,
) -> Result<(), AllocError>
    ensures { OnOk result (members_view members.new.entries
        ≡ put_given key.now text.now (members_view members.old.entries)) }
{
    match text {
        Some(text) => put_text(members, alloc, key, text.as_str()),
        None => Ok(()),
    }
}

/// A test that a user names.
fn named_test_json(alloc: Global, test: &NamedTest) -> Result<Value, AllocError>
    ensures { IfOk result (λ value. view value ≡ named_test_data test.now) }
{
    let mut members = Map::new(alloc);
    put_given(&mut members, alloc, "binary-id", &test.binary)?;
    put_text(&mut members, alloc, "name", test.name.as_str())?;
    Ok(Value::Object(members))
}

/// Puts the test that a user names among members, if there is one.
fn put_test(
    members: &mut Map<String, Value>,
    alloc: Global,
    test: &Option<NamedTest>,
) -> Result<(), AllocError>
    ensures { OnOk result (members_view members.new.entries
        ≡ put_test test.now (members_view members.old.entries)) }
{
    match test {
        Some(test) => {
            let value = named_test_json(alloc, test)?;
            put(members, alloc, "test", value)
        }
        None => Ok(()),
    }
}

/// The request of a user.
pub(crate) fn request_json(alloc: Global, request: &ReportedRequest) -> Result<Value, AllocError>
    ensures { IfOk result (λ value. view value ≡ request_data request.now) }
{
    let mut members = Map::new(alloc);
    put_text(&mut members, alloc, "command", request.command.word())?;
    put_given(&mut members, alloc, "by", &request.by)?;
    let keys = texts_json(alloc, &request.keys)?;
    put_filled(&mut members, alloc, "keys", keys)?;
    put_given(&mut members, alloc, "list", &request.list)?;
    put_test(&mut members, alloc, &request.test)?;
    put_given(&mut members, alloc, "why", &request.why)?;
    Ok(Value::Object(members))
}
