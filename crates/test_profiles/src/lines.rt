//! The lines of a report.
use nextest_config::ConfigSource;
use std::alloc::{AllocError, Global};
use std::fmt::Debug;

/// A call that may want memory.
#[derive(Debug, Drop)]
pub enum Call {
    FromSources,
    Lines,
    Profile,
    KnownGroups,
    ApplyBuildPlatforms,
    DisplayConfig,
    Junit,
    SetupScripts,
    PrecomputeGroupMemberships,
    Resolve,
}

/// What a call returns, which is made once more if it returns a refusal of memory.
macro_rules! once_more {
    ($lines:ident, $call:ident, $memory:pat, $answer:expr) => {
        match $answer {
            $memory => {
                $lines.note_again(Call::$call);
                $answer
            }
            answer => answer,
        }
    };
}

pub(crate) use once_more;

/// The lines of a report, of which those are kept that are shown.
///
/// A refusal of memory is kept too, and returned at the end in place of the lines.
#[derive(Drop)]
pub struct Lines<'a> {
    text: String,
    shown: Option<&'a str>,
    again: Option<Call>,
    wants_memory: bool,
}

impl<'a> Lines<'a> {
    /// The first two lines alone: the names of a case and of a profile. Of those that are added,
    /// only those are kept that begin with one of some words, or all without them.
    pub fn new(alloc: Global, case: &str, profile: &str, shown: Option<&'a str>) -> Lines<'a> {
        let mut text = String::new(alloc);
        let wants_memory = write!(text, "case {case}\nprofile {profile}\n").is_err();
        Lines {
            text,
            shown,
            again: None,
            wants_memory,
        }
    }

    /// Keeps that a call is made once more.
    pub fn note_again(&mut self, call: Call) {
        self.again = Some(call);
    }

    /// Keeps that memory is wanted.
    pub fn want_memory(&mut self) {
        self.wants_memory = true;
    }

    /// What was made, or `None` where memory is wanted, which is kept.
    pub fn made<T>(&mut self, made: Result<T, AllocError>) -> Option<T> {
        match made {
            Ok(value) => Some(value),
            Err(AllocError) => {
                self.want_memory();
                None
            }
        }
    }

    /// Adds a line: a name, and a value.
    pub fn add<V: Debug>(&mut self, name: &str, value: &V) {
        if self.shows(name) && write!(self.text, "  {name}: {value:?}\n").is_err() {
            self.want_memory();
        }
    }

    /// Adds a line: a name, what the value is of, and a value.
    pub fn add_of<V: Debug>(&mut self, name: &str, of: &str, value: &V) {
        if self.shows(name) && write!(self.text, "  {name} {of}: {value:?}\n").is_err() {
            self.want_memory();
        }
    }

    /// The text of all lines. The last names the last call that was made once more, if one was.
    pub fn into_text(self) -> Result<String, AllocError> {
        let Lines {
            mut text,
            again,
            wants_memory,
            ..
        } = self;
        if let Some(call) = again {
            write!(text, "  again: {call:?}\n")?;
        }
        if wants_memory {
            Err(AllocError)
        } else {
            Ok(text)
        }
    }

    /// Whether a line of this name is kept.
    pub fn shows(&self, name: &str) -> bool {
        match self.shown {
            Some(words) => words.split(' ').any(|word| word == name),
            None => true,
        }
    }
}

/// An override, by the profile and the file in which it is at a position.
pub fn override_text(
    alloc: Global,
    source: &ConfigSource,
    profile: &str,
    index: usize,
) -> Result<String, AllocError> {
    let path = source.path().absolute_path();
    format!(in alloc; "override {index} of {profile} in {path}")
}
