//! Where a part of a glob is.
ghost use Rattle.std.specs.Prelude.{◌≡◌};
ghost use Rattle.filter_engine.specs.Globs as globs;

use crate::glob::part::GlobPart;

/// Where a part is in a row. A glob is a row, and so is each branch of a group.
#[derive(Clone, Copy)]
pub enum Place {
    /// At the start.
    Start,
    /// Behind folders, with nothing else in front.
    BehindFolders,
    /// Behind another slash.
    BehindSlash,
    /// Behind anything else.
    Elsewhere,
}

impl Place {
    /// Whether folders are allowed here.
    pub fn opens(self) -> bool
        ensures { result ≡ globs.opens self }
    {
        !matches!(self, Place::Elsewhere)
    }

    /// Whether there is nothing but folders in front.
    pub fn leads(self) -> bool
        ensures { result ≡ globs.leads self }
    {
        matches!(self, Place::Start | Place::BehindFolders)
    }

    /// The place behind a part.
    pub fn behind(self, part: GlobPart) -> Place
        ensures { result ≡ globs.behind self part }
    {
        match part {
            GlobPart::Byte(b'/') => Place::BehindSlash,
            GlobPart::Folders if self.leads() => Place::BehindFolders,
            GlobPart::Folders => Place::BehindSlash,
            _ => Place::Elsewhere,
        }
    }
}
