//! The message of a finding on one line, with its advice.
ghost use Rattle.std.specs.Prelude.{◌≡◌, ◌++◌, OnOk, IfOk, string_bytes};
ghost use Rattle.rinqebo_report.specs.Advice.{advice_text, message_with_advice};

use crate::finding::Finding;
use std::alloc::{AllocError, Global};
use std::fmt::Write;

/// Writes in parentheses what is expected, and behind it the help.
fn add_advice(
    out: &mut String,
    expected: &Option<String>,
    help: &Option<String>,
) -> Result<(), AllocError>
    ensures { OnOk result (string_bytes out.new
        ≡ string_bytes out.old ++ advice_text expected.now help.now) }
{
    match (expected, help) {
        (None, None) => Ok(()),
        (Some(expected), None) => write!(out, " (expected {expected})"),
        (None, Some(help)) => write!(out, " ({help})"),
        (Some(expected), Some(help)) => write!(out, " (expected {expected}; {help})"),
    }
}

impl Finding {
    /// The message, and behind it the advice.
    pub(crate) fn message_with_advice(&self, alloc: Global) -> Result<String, AllocError>
        ensures { IfOk result (λ text. string_bytes text ≡ message_with_advice self.now) }
    {
        let mut text = String::from_str(alloc, self.message.as_str())?;
        add_advice(&mut text, &self.expected, &self.help)?;
        Ok(text)
    }
}
