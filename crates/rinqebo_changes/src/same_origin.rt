//! Whether two origins are the same: within one side, and across the two sides.
ghost use Rattle.std.specs.Prelude.{◌≡◌, Some};
ghost use Rattle.std.specs.Option.{option_eq};
ghost use Rattle.rinqebo_changes.specs.SameOrigin.{same_lines, same_position, same_range, same_place, same_part, same_written, same_origin, same_origins, like_kind, like_source, like_origin, like_origins};

use rinqebo_report::{
    FileLines, FilePlace, Origin, Part, Position, Range, Source, SourceKind, Written,
};

/// Whether lines are the same, or both unknown.
fn are_same_lines(a: Option<FileLines>, b: Option<FileLines>) -> bool
    ensures { result ≡ option_eq same_lines a b }
{
    match (a, b) {
        (Some(a), Some(b)) => a.first == b.first && a.last == b.last,
        (None, None) => true,
        _ => false,
    }
}

/// Whether two positions are the same.
fn is_same_position(a: Position, b: Position) -> bool
    ensures { result ≡ same_position a b }
{
    a.line == b.line && a.column == b.column
}

/// Whether ranges are the same, or both unknown.
fn are_same_ranges(a: Option<Range>, b: Option<Range>) -> bool
    ensures { result ≡ option_eq same_range a b }
{
    match (a, b) {
        (Some(a), Some(b)) => is_same_position(a.start, b.start) && is_same_position(a.end, b.end),
        (None, None) => true,
        _ => false,
    }
}

/// Whether two places are the same lines and the same range of the same source.
fn is_same_place(a: FilePlace, b: FilePlace) -> bool
    ensures { result ≡ same_place a b }
{
    a.source == b.source && are_same_lines(a.lines, b.lines) && are_same_ranges(a.range, b.range)
}

/// Whether two parts of a profile are the same.
fn is_same_part(a: Part, b: Part) -> bool
    ensures { result ≡ same_part a b }
{
    match (a, b) {
        (Part::Fields, Part::Fields) => true,
        (Part::Override(a), Part::Override(b)) => a == b,
        (Part::Script(a), Part::Script(b)) => a == b,
        _ => false,
    }
}

/// Whether two values are written in the same part of the same profile.
fn is_same_written(a: &Written, b: &Written) -> bool
    ensures { result ≡ same_written a.now b.now }
{
    a.profile.as_str() == b.profile.as_str() && is_same_part(a.part, b.part)
}

/// Whether two origins of one side are the same.
fn is_same_origin(a: &Origin, b: &Origin) -> bool
    ensures { result ≡ same_origin a.now b.now }
{
    match (a, b) {
        (Origin::BuiltIn, Origin::BuiltIn) => true,
        (Origin::DefaultTable, Origin::DefaultTable) => true,
        (Origin::Written(a), Origin::Written(b)) => {
            is_same_place(a.place, b.place) && is_same_written(a, b)
        }
        (Origin::File(a), Origin::File(b)) => is_same_place(*a, *b),
        _ => false,
    }
}

/// Whether the origins of two values of one side are the same, in the same order.
pub fn are_same_origins(a: &[Origin], b: &[Origin]) -> bool
    ensures { result ≡ same_origins a.now b.now }
{
    let Some((first, others)) = a.split_first() else {
        return b.is_empty();
    };
    match b.split_first() {
        Some((one, rest)) => is_same_origin(first, one) && are_same_origins(others, rest),
        None => false,
    }
}

/// Whether two sources have the same owner, whatever their paths are.
fn is_like_kind(a: &SourceKind, b: &SourceKind) -> bool
    ensures { result ≡ like_kind a.now b.now }
{
    match (a, b) {
        (SourceKind::Tool(a), SourceKind::Tool(b)) => a.as_str() == b.as_str(),
        (SourceKind::Default, SourceKind::Default) => true,
        (SourceKind::Organisation, SourceKind::Organisation) => true,
        (
            SourceKind::Explicit | SourceKind::Discovered,
            SourceKind::Explicit | SourceKind::Discovered,
        ) => true,
        _ => false,
    }
}

/// The sources of two sides.
#[derive(Clone, Copy)]
pub struct TwoSources<'s> {
    /// Those of the left side.
    pub from: &'s [Source],
    /// Those of the right side.
    pub to: &'s [Source],
}

impl TwoSources<'_> {
    /// Whether a place of the left side and one of the right side are in files of the same owner.
    fn is_like_source(&self, a: usize, b: usize) -> bool
        ensures { result ≡ like_source self.now.from.now self.now.to.now a b }
    {
        match (self.from.get(a), self.to.get(b)) {
            (Some(a), Some(b)) => is_like_kind(&a.kind, &b.kind),
            (None, None) => true,
            _ => false,
        }
    }

    /// Whether an origin of the left side is the same part of the same profile of a file of the
    /// same owner as one of the right side. Paths and lines may differ.
    fn is_like_origin(&self, a: &Origin, b: &Origin) -> bool
        ensures { result ≡ like_origin self.now.from.now self.now.to.now a.now b.now }
    {
        match (a, b) {
            (Origin::BuiltIn, Origin::BuiltIn) => true,
            (Origin::DefaultTable, Origin::DefaultTable) => true,
            (Origin::Written(a), Origin::Written(b)) => {
                self.is_like_source(a.place.source, b.place.source) && is_same_written(a, b)
            }
            (Origin::File(a), Origin::File(b)) => self.is_like_source(a.source, b.source),
            _ => false,
        }
    }

    /// Whether the origins of a value of the left side are like those of one of the right side, in
    /// the same order.
    pub fn are_like_origins(&self, a: &[Origin], b: &[Origin]) -> bool
        ensures { result ≡ like_origins self.now.from.now self.now.to.now a.now b.now }
    {
        let Some((first, others)) = a.split_first() else {
            return b.is_empty();
        };
        match b.split_first() {
            Some((one, rest)) => {
                self.is_like_origin(first, one) && self.are_like_origins(others, rest)
            }
            None => false,
        }
    }
}
