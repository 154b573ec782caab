//! What may be at scripts.
ghost use Rattle.std.specs.Prelude.{◌≡◌, IfOk};
ghost use Rattle.nextest_scripts.specs.Command.{a_command};
ghost use Rattle.nextest_scripts.specs.CommandLine.{a_command_line};
ghost use Rattle.nextest_scripts.specs.SetupScript.{a_setup_junit, a_setup_script, a_setup_timeout};
ghost use Rattle.nextest_scripts.specs.WrapperScript.{a_wrapper_script};
ghost use Rattle.nextest_shape.specs.Faults.Places.{place_view};

use crate::faults::across::{Across, AcrossItems, Names};
use crate::faults::element_places::leak;
use crate::faults::leaf::Leaf;
use crate::faults::parts::{map_by, may, must, table, table_or, value};
use crate::faults::place::{Others, Place};
use nextest_tree::Key;
use std::alloc::{AllocError, Global};

/// A line, or a list of texts with the program first.
#[tactic(auto, unfolding(nextest_scripts::specs::CommandLine::a_command_line))]
fn command_line(alloc: Global) -> Result<Place, AllocError>
    ensures { IfOk result (λ place. place_view place ≡ a_command_line) }
{
    Ok(Place::List {
        other: Box::new(alloc, value(Leaf::CommandLine))?,
        items: Box::new(alloc, value(Leaf::Text))?,
        across: AcrossItems::First,
    })
}

/// A command: a line, a list, or a table, which refuses other keys.
#[tactic(auto, unfolding(nextest_scripts::specs::EnvMap::an_env_map, nextest_scripts::specs::Command::a_command))]
fn command(alloc: Global) -> Result<Place, AllocError>
    ensures { IfOk result (λ place. place_view place ≡ a_command) }
{
    let line = command_line(alloc)?;
    let env = map_by(alloc, Names::Variables, value(Leaf::Text))?;
    let fields = vec![in alloc;
        must(Key::CommandLine, line),
        may(Key::Env, env),
        may(Key::RelativeTo, value(Leaf::RelativeTo)),
    ]?;
    Ok(Place::Table {
        others: Others::Refused,
        other: Box::new(alloc, command_line(alloc)?)?,
        fields,
        across: Across::Nothing,
    })
}

/// When a setup script counts as slow, and when it is ended.
fn setup_timeout(alloc: Global) -> Result<Place, AllocError>
    ensures { IfOk result (λ place. place_view place ≡ a_setup_timeout) }
{
    let fields = vec![in alloc;
        must(Key::Period, value(Leaf::Duration)),
        may(Key::TerminateAfter, value(Leaf::Positive)),
        may(Key::GracePeriod, value(Leaf::Duration)),
        may(Key::OnTimeout, value(Leaf::SetupResult)),
    ]?;
    table_or(alloc, value(Leaf::Duration), fields)
}

/// What a report keeps of a setup script.
fn setup_junit(alloc: Global) -> Result<Place, AllocError>
    ensures { IfOk result (λ place. place_view place ≡ a_setup_junit) }
{
    let fields = vec![in alloc;
        may(Key::StoreSuccessOutput, value(Leaf::Boolean)),
        may(Key::StoreFailureOutput, value(Leaf::Boolean)),
    ]?;
    table(alloc, fields)
}

/// A setup script.
#[tactic(auto, unfolding(nextest_scripts::specs::SetupScript::a_setup_script))]
pub(crate) fn setup_script(alloc: Global) -> Result<Place, AllocError>
    ensures { IfOk result (λ place. place_view place ≡ a_setup_script) }
{
    let command = command(alloc)?;
    let slow = setup_timeout(alloc)?;
    let leak = leak(alloc)?;
    let junit = setup_junit(alloc)?;
    let fields = vec![in alloc;
        must(Key::Command, command),
        may(Key::SlowTimeout, slow),
        may(Key::LeakTimeout, leak),
        may(Key::CaptureStdout, value(Leaf::Boolean)),
        may(Key::CaptureStderr, value(Leaf::Boolean)),
        may(Key::Junit, junit),
    ]?;
    table(alloc, fields)
}

/// A wrapper script.
#[tactic(auto, unfolding(nextest_scripts::specs::WrapperScript::a_wrapper_script))]
pub(crate) fn wrapper_script(alloc: Global) -> Result<Place, AllocError>
    ensures { IfOk result (λ place. place_view place ≡ a_wrapper_script) }
{
    let command = command(alloc)?;
    let fields = vec![in alloc;
        must(Key::Command, command),
        may(Key::TargetRunner, value(Leaf::TargetRunner)),
    ]?;
    table(alloc, fields)
}
