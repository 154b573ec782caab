//! Notes on variables that override all files.
ghost use Rattle.std.specs.Prelude.{◌≡◌, ◌++◌, ◌&&◌, IfOk, OnOk, is_some, string_bytes};
ghost use Rattle.std.specs.List.{list_any};
ghost use Rattle.std.specs.Str.{bytes_eq};
ghost use Rattle.nextest_elements.specs.Settings.{setting_name};
ghost use Rattle.rinqebo_request.specs.NoteTexts.{is_below, note_on, note_text, notes_text, requests};
ghost use Rattle.rinqebo_request.specs.Variables.{text_set};

use crate::environment::{Environment, set};
use crate::request::{Question, Request};
use nextest_elements::Setting;
use std::alloc::{AllocError, Global};

/// Whether a key is the name of a setting.
fn is_among(keys: &[&str], setting: Setting) -> bool
    ensures { result ≡ list_any (λ key. bytes_eq key.now (setting_name setting)) keys.now }
{
    keys.iter().any(|key| *key == setting.name())
}

/// Whether the leaves below keys include the value of a setting. Without a key, they are all
/// leaves.
fn is_below(keys: &[&str], setting: Setting) -> bool
    ensures { result ≡ is_below keys.now setting }
{
    keys.is_empty() || is_among(keys, setting)
}

/// Whether a user requests a setting of a test.
fn requests(question: &Question<'_>, setting: Setting) -> bool
    ensures { result ≡ requests question.now setting }
{
    match question {
        Question::Explain { asked, .. } | Question::List { asked, .. } => asked.may_report(setting),
        Question::Why { setting: asked, .. } => asked.name() == setting.name(),
        Question::ShowConfig { keys, .. } => is_below(keys, setting),
        Question::WhyRuns { .. } | Question::Check { .. } => false,
    }
}

/// A variable that overrides all files in a run of nextest.
#[derive(Clone, Copy)]
struct RunVariable<'a> {
    /// Its name.
    name: &'static str,
    /// What it is set to.
    value: &'a Option<String>,
    /// The setting in place of which it is.
    setting: Setting,
}

impl RunVariable<'_> {
    /// Whether there is a note on the variable: it is set, and the user requests its setting.
    fn is_noted(&self, question: &Question<'_>) -> bool
        ensures { result ≡ (is_some (text_set self.now.value.now)
            && requests question.now self.now.setting) }
    {
        set(self.value).is_some() && requests(question, self.setting)
    }

    /// Adds the note on the variable.
    fn add_note(&self, notes: &mut String) -> Result<(), AllocError>
        ensures { OnOk result (string_bytes notes.new ≡ string_bytes notes.old
            ++ note_text self.now.name.now self.now.setting) }
    {
        notes.push_str("note: ")?;
        notes.push_str(self.name)?;
        notes.push_str(" is set: a run of nextest takes `")?;
        notes.push_str(self.setting.name())?;
        notes.push_str("` from it, whatever the files say\n")?;
        Ok(())
    }

    /// Adds the note on the variable, if there is one.
    fn add_if_noted(&self, question: &Question<'_>, notes: &mut String) -> Result<(), AllocError>
        ensures { OnOk result (string_bytes notes.new ≡ string_bytes notes.old
            ++ note_on question.now self.now.name.now self.now.value.now self.now.setting) }
    {
        if self.is_noted(question) {
            self.add_note(notes)?;
        }
        Ok(())
    }
}

/// Notes on the variables that override all files in a run of nextest: a line for each that is set,
/// if the user requests its setting.
pub fn notes_of(
    alloc: Global,
    request: &Request<'_>,
    environment: &Environment,
) -> Result<String, AllocError>
    ensures { IfOk result (λ notes. string_bytes notes
        ≡ notes_text request.now.question environment.now.run) }
{
    let run = &environment.run;
    let retries = RunVariable {
        name: "NEXTEST_RETRIES",
        value: &run.retries,
        setting: Setting::Retries,
    };
    let flaky_result = RunVariable {
        name: "NEXTEST_FLAKY_RESULT",
        value: &run.flaky_result,
        setting: Setting::FlakyResult,
    };
    let success_output = RunVariable {
        name: "NEXTEST_SUCCESS_OUTPUT",
        value: &run.success_output,
        setting: Setting::SuccessOutput,
    };
    let failure_output = RunVariable {
        name: "NEXTEST_FAILURE_OUTPUT",
        value: &run.failure_output,
        setting: Setting::FailureOutput,
    };
    let question = &request.question;
    let mut notes = String::new(alloc);
    retries.add_if_noted(question, &mut notes)?;
    flaky_result.add_if_noted(question, &mut notes)?;
    success_output.add_if_noted(question, &mut notes)?;
    failure_output.add_if_noted(question, &mut notes)?;
    Ok(notes)
}
