//! The request of a user, as reports have it.
ghost use Rattle.std.specs.Prelude.{◌≡◌, IfOk, map, option_map, string_bytes};
ghost use Rattle.rinqebo_report.specs.Requests.{command_word, request_shown, test_shown};

use std::alloc::{AllocError, Global};

/// A command whose reports have the request.
#[derive(Clone, Copy)]
pub enum ReportCommand {
    /// `explain`.
    Explain,
    /// `list`.
    List,
    /// `show-config`.
    ShowConfig,
    /// `check`.
    Check,
    /// `diff`, which has a report if one of its sides has no result.
    Diff,
}

impl ReportCommand {
    /// The name of the command.
    pub fn word(self) -> &'static str
        ensures { result.now ≡ command_word self }
    {
        match self {
            ReportCommand::Explain => "explain",
            ReportCommand::List => "list",
            ReportCommand::ShowConfig => "show-config",
            ReportCommand::Check => "check",
            ReportCommand::Diff => "diff",
        }
    }
}

/// A test, as a user names it.
#[derive(Drop)]
pub struct NamedTest {
    /// The id of its binary, if the user names the binary.
    pub binary: Option<String>,
    /// Its name.
    pub name: String,
}

/// The request of a user, as a report has it: the command, and what the user names.
pub struct ReportedRequest {
    /// The command.
    pub command: ReportCommand,
    /// The test, if the command is about one.
    pub test: Option<NamedTest>,
    /// The KEYs, in their order.
    pub keys: Vec<String>,
    /// The KEY of `--why`.
    pub why: Option<String>,
    /// The KEY of `--by`.
    pub by: Option<String>,
    /// The path of LIST. `-` is standard input.
    pub list: Option<String>,
}

// Written out, so that the proof of a caller sees one call and not the drop of each part.
impl Drop for ReportedRequest {
    fn drop(self) {
        let ReportedRequest {
            command: _command,
            test: _test,
            keys: _keys,
            why: _why,
            by: _by,
            list: _list,
        } = self;
    }
}

/// A copy of a text, if there is one.
fn copied_text(text: &Option<String>) -> Result<Option<String>, AllocError>
    ensures { IfOk result (λ copy. option_map string_bytes copy
        ≡ option_map string_bytes text.now) }
{
    match text {
        Some(text) => Ok(Some(text.clone()?)),
        None => Ok(None),
    }
}

/// Copies of texts.
fn copied_texts(alloc: Global, texts: &[String]) -> Result<Vec<String>, AllocError>
    ensures { IfOk result (λ copies. map string_bytes copies.items ≡ map string_bytes texts.now) }
{
    let mut copies = Vec::new(alloc);
    for text in texts {
        copies.push(text.clone()?)?;
    }
    Ok(copies)
}

/// A copy of a test, if there is one.
fn copied_test(test: &Option<NamedTest>) -> Result<Option<NamedTest>, AllocError>
    ensures { IfOk result (λ copy. option_map test_shown copy ≡ option_map test_shown test.now) }
{
    match test {
        Some(test) => Ok(Some(NamedTest {
            binary: copied_text(&test.binary)?,
            name: test.name.clone()?,
        })),
        None => Ok(None),
    }
}

impl ReportedRequest {
    /// A copy of the request.
    pub fn copied(&self, alloc: Global) -> Result<ReportedRequest, AllocError>
        ensures { IfOk result (λ copy. request_shown copy ≡ request_shown self.now) }
    {
        Ok(ReportedRequest {
            command: self.command,
            test: copied_test(&self.test)?,
            keys: copied_texts(alloc, &self.keys)?,
            why: copied_text(&self.why)?,
            by: copied_text(&self.by)?,
            list: copied_text(&self.list)?,
        })
    }
}
