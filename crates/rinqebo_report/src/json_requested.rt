//! What was requested, as members of a document.
ghost use Rattle.std.specs.Prelude.{◌≡◌, OnOk};
ghost use Rattle.serde_json.specs.Data.{put as with_member, string};
ghost use Rattle.serde_json.specs.View.{members_view};
ghost use Rattle.rinqebo_report.specs.Document.{with_requested};

use crate::json_parts::{optional_text_json, texts_json};
use crate::report::Asked;
use serde_json::{Map, Value, put};
use std::alloc::{AllocError, Global};

/// Puts a text among members.
pub fn put_text(
    members: &mut Map<String, Value>,
    alloc: Global,
    key: &str,
    text: &str,
) -> Result<(), AllocError>
    ensures { OnOk result (members_view members.new.entries
        ≡ with_member key.now (string text.now) (members_view members.old.entries)) }
{
    let value = Value::try_from_str(alloc, text)?;
    put(members, alloc, key, value)
}

/// Puts among members a command, and what was requested.
pub(crate) fn put_requested(
    members: &mut Map<String, Value>,
    alloc: Global,
    command: &str,
    asked: &Asked,
) -> Result<(), AllocError>
    ensures { OnOk result (members_view members.new.entries
        ≡ with_requested command.now asked.now (members_view members.old.entries)) }
{
    put(members, alloc, "chain", texts_json(alloc, &asked.chain)?)?;
    put_text(members, alloc, "command", command)?;
    put_text(members, alloc, "host", asked.host.as_str())?;
    put_text(members, alloc, "mode", asked.mode.word())?;
    put_text(members, alloc, "profile", asked.profile.as_str())?;
    put(
        members,
        alloc,
        "target",
        optional_text_json(alloc, &asked.target)?,
    )
}
