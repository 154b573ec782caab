//! What is wrong with the list of tests, the metadata or the platforms that a request names.
ghost use Rattle.std.specs.Prelude.{◌≡◌};
ghost use Rattle.rinqebo_forms.specs.declared.machines.EngineFault.TheVariants.{Platform};
ghost use Rattle.rinqebo_load.specs.InputFaults.{engine_fault};

use filter_engine::Field;
use filter_inputs::ListFault;
use platform_language::PlatformFault;
use rinqebo_forms::EngineFault;
use rinqebo_request::NamedFile;
use std::alloc::AllocError;
use std::fmt;
use thiserror::Error;

/// What gives the triple of a platform.
#[derive(Clone, Copy, Debug, PartialEq, Eq, Drop)]
pub enum TripleSource {
    /// The option `--host`.
    Host,
    /// What the compiler prints of itself.
    RustcVersion,
    /// The option `--target`.
    Target,
    /// The list of tests.
    List,
    /// The variable `CARGO_BUILD_TARGET`.
    Variable,
    /// None of them: the host is [`rinqebo_request::HOST`], or there is no target.
    Fallback,
}

impl fmt::Display for TripleSource {
    fn fmt<W: fmt::Write>(&self, f: &mut fmt::Formatter<W>) -> fmt::Result {
        f.write_str(match self {
            TripleSource::Host => "--host",
            TripleSource::RustcVersion => "--rustc-version",
            TripleSource::Target => "--target",
            TripleSource::List => "LIST",
            TripleSource::Variable => "CARGO_BUILD_TARGET",
            TripleSource::Fallback => "default",
        })
    }
}

/// What a fault is about, as messages begin with it.
#[derive(Debug, Drop)]
pub enum Subject {
    /// A file.
    File(NamedFile),
    /// A triple, which no file gives.
    Triple(TripleSource),
}

impl fmt::Display for Subject {
    fn fmt<W: fmt::Write>(&self, f: &mut fmt::Formatter<W>) -> fmt::Result {
        match self {
            Subject::File(file) => write!(f, "{file}"),
            Subject::Triple(source) => write!(f, "{source}"),
        }
    }
}

/// A filter that is evaluated, and has a set of packages that was not looked up.
#[derive(Debug, Drop)]
pub struct OpenFilter {
    /// Where it is written, as messages show it.
    pub place: String,
    /// What the set is of: [`Field::Deps`] or [`Field::Rdeps`].
    pub set: Field,
}

impl fmt::Display for OpenFilter {
    fn fmt<W: fmt::Write>(&self, f: &mut fmt::Formatter<W>) -> fmt::Result {
        let OpenFilter { place, set } = self;
        let word = set.word();
        write!(
            f,
            "{place}: this filter uses `{word}()`, which needs `--metadata FILE` (the output of `cargo metadata --format-version 1`)"
        )
    }
}

/// What is wrong with the list of tests, the metadata or the platforms that a request names.
#[derive(Debug, Drop, Error)]
pub enum InputFault {
    /// The list of tests has no text.
    #[error("{0} is empty: expected the output of `cargo nextest list --message-format json`")]
    EmptyList(NamedFile),
    /// What was read at a path isn't a list of tests, which would say the platforms of the build.
    #[error("no list of tests in `{0}`: {1}")]
    List(String, ListFault),
    /// The output of `rustc -vV` has no line with the triple of the host.
    #[error("{0}: no line `host: TRIPLE`: expected the output of `rustc -vV`")]
    NoHost(NamedFile),
    /// The metadata have no graph of packages, or no platform is known for a triple.
    #[error("{0}: {1}")]
    Engine(Subject, EngineFault),
    /// A user names what the compiler prints for a target, and there is no target.
    #[error("`--target-cfg` goes with a target, and there is none")]
    NoTarget,
    /// There are no metadata, and the program evaluates a filter that needs them.
    #[error("{0}")]
    NoMetadata(OpenFilter),
    /// Memory was refused.
    #[error("out of memory")]
    Memory,
}

impl InputFault {
    /// The fault of an engine about a subject. A refusal of memory is about none.
    pub fn of_engine(subject: Subject, fault: EngineFault) -> InputFault
        ensures { result ≡ engine_fault subject fault }
    {
        match fault {
            EngineFault::Metadata(fault) => {
                InputFault::Engine(subject, EngineFault::Metadata(fault))
            }
            EngineFault::Platform(triple, fault) => of_platform(subject, triple, fault),
            EngineFault::Memory => InputFault::Memory,
        }
    }
}

/// The fault of the platform of a triple, about a subject.
fn of_platform(subject: Subject, triple: String, fault: PlatformFault) -> InputFault
    ensures { result ≡ engine_fault subject (Platform triple fault) }
{
    match fault {
        PlatformFault::Memory => InputFault::Memory,
        fault => InputFault::Engine(subject, EngineFault::Platform(triple, fault)),
    }
}

impl From<AllocError> for InputFault {
    ghost use Rattle.std.specs.Prelude.{◌≡◌};
    ghost use Rattle.rinqebo_load.specs.declared.fault.InputFault.TheVariants.{Memory};

    ghost from_gives = { λ _ fault. fault ≡ Memory };

    fn from(_error: AllocError) -> InputFault {
        InputFault::Memory
    }
}
