//! Requests for what changes between two sides.
ghost use Rattle.std.specs.Prelude.{◌≡◌, ◌||◌};
ghost use Rattle.rinqebo_request.specs.Requests.{reads_input};

use crate::asked::ComparedSettings;
use nextest_config::NextestRunMode;
use rinqebo_report::Paper;
use rinqebo_request::{Command, Request};

/// A side of a request.
#[derive(Drop)]
pub struct DiffSide<'a> {
    /// Its files, engines, features and list.
    pub request: Request<'a>,
    /// The name of the profile.
    pub profile: &'a str,
    /// The run mode.
    pub mode: NextestRunMode,
}

/// How a diff is written.
#[derive(Clone, Copy)]
pub enum DiffFormat<'a> {
    /// The page.
    Text,
    /// One document of JSON, on a line.
    Json,
    /// Notices of GitHub's workflows, with paths below the folder in which a workflow runs: the
    /// empty text, if that is not known.
    Github(&'a str),
    /// A table for a comment.
    Markdown,
}

/// A request for what changes between two sides.
#[derive(Drop)]
pub struct DiffRequest<'a> {
    /// The left side, from which something changes.
    pub from: DiffSide<'a>,
    /// The right side, to which something changes.
    pub to: DiffSide<'a>,
    /// Which settings of tests are compared.
    pub compared: ComparedSettings,
    /// Whether what changes for the whole run is compared too.
    pub with_run: bool,
    /// Whether a value that is the same and comes from elsewhere is a change too.
    pub with_origins: bool,
    /// Whether each test of a group is listed, even if the group has all tests of a binary.
    pub lists_all: bool,
    /// How the diff is written.
    pub format: DiffFormat<'a>,
    /// What the page is written on: whether it has colours, and how many columns its lines have.
    pub paper: Paper,
    /// Whether standard error shows how far the diff is.
    pub shows_progress: bool,
}

impl DiffRequest<'_> {
    /// Whether standard input is read.
    pub fn reads_input(&self) -> bool
        ensures { result
            ≡ (reads_input self.now.from.request || reads_input self.now.to.request) }
    {
        self.from.request.reads_input() || self.to.request.reads_input()
    }
}

/// What arguments request: a diff, or another command.
#[derive(Drop)]
pub enum AnyCommand<'a> {
    /// What changes between two sides.
    Diff(DiffRequest<'a>),
    /// Another command.
    Other(Command<'a>),
}
