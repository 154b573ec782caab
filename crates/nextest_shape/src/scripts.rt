//! The shapes of scripts.
ghost use Rattle.std.specs.Prelude.{◌≡◌, IfOk};
ghost use Rattle.nextest_shape.specs.FileForm.{command_line_form, command_form, stored_fields, setup_script_form, wrapper_script_form, scripts_form};
ghost use Rattle.nextest_shape.specs.Form.{a_table, no_fields};
ghost use Rattle.nextest_shape.specs.View.{shape_view};

use crate::parts::{list, map_by, one_of, one_or_other, optional, required, text, text_of};
use crate::shape::{Pattern, Shape};
use crate::values::{leak_timeout, slow_timeout};
use nextest_tree::Key;
use std::alloc::{AllocError, Global};

const DIRECTORIES: &[&str] = &["none", "workspace-root", "target"];

const SETUP_RESULTS: &[&str] = &["fail"];

const TARGET_RUNNERS: &[&str] = &[
    "ignore",
    "overrides-wrapper",
    "within-wrapper",
    "around-wrapper",
];

/// A line, or a list of texts with the program first.
fn command_line(alloc: Global) -> Result<Shape, AllocError>
    ensures { IfOk result (λ shape. shape_view shape ≡ command_line_form) }
{
    let texts = list(alloc, 1, text())?;
    one_or_other(alloc, text_of(Pattern::CommandLine), texts)
}

/// A command: a line, a list, or a table.
#[tactic(auto, unfolding(crate::specs::FileForm::command_form))]
fn command(alloc: Global) -> Result<Shape, AllocError>
    ensures { IfOk result (λ shape. shape_view shape ≡ command_form) }
{
    let line = command_line(alloc)?;
    let env = map_by(alloc, Pattern::EnvironmentKey, text())?;
    let table = Shape::Table(vec![in alloc;
        required(Key::CommandLine, line),
        optional(Key::Env, env),
        optional(Key::RelativeTo, one_of(DIRECTORIES)),
    ]?);
    one_or_other(alloc, command_line(alloc)?, table)
}

/// What a report keeps of a setup script.
fn setup_junit(alloc: Global) -> Result<Shape, AllocError>
    ensures { IfOk result (λ shape. shape_view shape ≡ a_table (stored_fields no_fields)) }
{
    Ok(Shape::Table(vec![in alloc;
        optional(Key::StoreSuccessOutput, Shape::Boolean),
        optional(Key::StoreFailureOutput, Shape::Boolean),
    ]?))
}

/// A setup script.
#[tactic(auto, unfolding(crate::specs::FileForm::setup_script_form))]
pub(crate) fn setup_script(alloc: Global) -> Result<Shape, AllocError>
    ensures { IfOk result (λ shape. shape_view shape ≡ setup_script_form) }
{
    let command = command(alloc)?;
    let slow = slow_timeout(alloc, true, SETUP_RESULTS)?;
    let leak = leak_timeout(alloc)?;
    let junit = setup_junit(alloc)?;
    Ok(Shape::Table(vec![in alloc;
        required(Key::Command, command),
        optional(Key::SlowTimeout, slow),
        optional(Key::LeakTimeout, leak),
        optional(Key::CaptureStdout, Shape::Boolean),
        optional(Key::CaptureStderr, Shape::Boolean),
        optional(Key::Junit, junit),
    ]?))
}

/// A wrapper script.
#[tactic(auto, unfolding(crate::specs::FileForm::wrapper_script_form))]
fn wrapper_script(alloc: Global) -> Result<Shape, AllocError>
    ensures { IfOk result (λ shape. shape_view shape ≡ wrapper_script_form) }
{
    let command = command(alloc)?;
    Ok(Shape::Table(vec![in alloc;
        required(Key::Command, command),
        optional(Key::TargetRunner, one_of(TARGET_RUNNERS)),
    ]?))
}

/// The table of scripts.
pub(crate) fn scripts(alloc: Global) -> Result<Shape, AllocError>
    ensures { IfOk result (λ shape. shape_view shape ≡ scripts_form) }
{
    let setup = map_by(alloc, Pattern::Identifier, setup_script(alloc)?)?;
    let wrapper = map_by(alloc, Pattern::Identifier, wrapper_script(alloc)?)?;
    Ok(Shape::Table(vec![in alloc;
        optional(Key::Setup, setup),
        optional(Key::Wrapper, wrapper),
    ]?))
}
