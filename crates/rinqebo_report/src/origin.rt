//! Where a value, a rule or a finding comes from.
ghost use Rattle.std.specs.Prelude.{◌≡◌, None};

/// Where a source comes from.
#[derive(Drop)]
pub enum SourceKind {
    /// The defaults, which have no file.
    Default,
    /// The tool with this name.
    Tool(String),
    /// The organisation.
    Organisation,
    /// The user, who named the file.
    Explicit,
    /// The workspace, which has the file below its root.
    Discovered,
}

/// A source of the configuration.
#[derive(Drop)]
pub struct Source {
    /// Where it comes from.
    pub kind: SourceKind,
    /// The path of the file. The defaults have none.
    pub path: Option<String>,
}

/// Lines of a file.
#[derive(Clone, Copy)]
pub struct FileLines {
    /// The first line, from 1.
    pub first: u64,
    /// The last line: the first one again if there is only one.
    pub last: u64,
}

/// A position in a file, before a character or at the end of a line.
#[derive(Clone, Copy)]
pub struct Position {
    /// The line, from 1.
    pub line: u64,
    /// The column, in characters from 1.
    pub column: u64,
}

/// A range of a file.
#[derive(Clone, Copy)]
pub struct Range {
    /// Where it starts.
    pub start: Position,
    /// Where it ends: the position after its last character.
    pub end: Position,
}

/// A place in a file.
#[derive(Clone, Copy)]
pub struct FilePlace {
    /// The place of the source among those of the report, from 0.
    pub source: usize,
    /// The lines, if they are known.
    pub lines: Option<FileLines>,
    /// The range in these lines, if it is known.
    pub range: Option<Range>,
}

impl FilePlace {
    /// Returns a place in a source, without lines and without a range.
    pub fn in_source(source: usize) -> FilePlace
        ensures { result ≡ record { source = source; lines = None; range = None } }
    {
        FilePlace {
            source,
            lines: None,
            range: None,
        }
    }
}

/// A part of a profile.
#[derive(Clone, Copy)]
pub enum Part {
    /// Its own fields.
    Fields,
    /// The override at this position of its file, from 0.
    Override(usize),
    /// The script rule at this position of its file, from 0.
    Script(usize),
}

/// What is written in a file.
#[derive(Drop)]
pub struct Written {
    /// Where it is.
    pub place: FilePlace,
    /// The profile under which it is.
    pub profile: String,
    /// The part of the profile.
    pub part: Part,
}

/// Where a value comes from.
#[derive(Drop)]
pub enum Origin {
    /// Nothing writes it.
    BuiltIn,
    /// The defaults write it.
    DefaultTable,
    /// A file writes it, under a profile.
    Written(Written),
    /// A file writes it outside of all profiles.
    File(FilePlace),
}
