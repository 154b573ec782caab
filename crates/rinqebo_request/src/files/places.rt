//! The places of the values at paths of files.
ghost use Rattle.std.specs.Prelude.{◌≡◌, ◌+◌, ◌^◌, ◌<◌, Some};
ghost use Rattle.std.specs.Str.{IsCharBoundary};
ghost use Rattle.rinqebo_request.specs.Files.Origins.{IsPartPlace, IsPathPlace, IsPlaceIn, part_span, range_of};

use crate::files::layers::Layer;
use nextest_places::{PathSpan, PathSpans, Span, Step};
use rinqebo_report::{FileLines, FilePlace, Position, Range};

/// What the range of a place is of.
#[derive(Clone, Copy)]
pub enum SpanPart {
    /// The key that leads to a value, or else the value.
    Key,
    /// A value, or else the key that leads to it.
    Value,
}

impl SpanPart {
    /// The bytes of this part, or else those of the other one.
    fn span(self, found: &PathSpan) -> Option<Span>
        ensures { result ≡ part_span self found.now }
    {
        match self {
            SpanPart::Key => found.key.or(found.value),
            SpanPart::Value => found.value.or(found.key),
        }
    }
}

/// A position of a text, as it is reported: its line and its column from 1.
fn reported(line: usize, column: usize) -> Position
    requires { line + column + 1 < 2 ^ 64 }
    ensures { result ≡ record { line = line + 1; column = column + 1 } }
{
    Position {
        line: line as u64 + 1,
        column: column as u64 + 1,
    }
}

/// The range of some bytes of a text.
fn range_of(spans: &PathSpans, span: Span) -> Range
    requires start { IsCharBoundary spans.now span.start }
    requires end { IsCharBoundary spans.now span.end }
    ensures { result ≡ range_of spans.now span }
{
    let start = spans.position_at(span.start);
    let end = spans.position_at(span.end);
    Range {
        start: reported(start.line, start.column),
        end: reported(end.line, end.column),
    }
}

/// The place of the value at a path of a text, or of its key, in a source.
#[tactic(auto, using(crate::proofs::files::Ranges::part_is_whole))]
fn place_of_part(spans: &PathSpans, source: usize, path: &[Step], part: SpanPart) -> FilePlace
    ensures { IsPlaceIn part (Some spans.now) source path.now result }
{
    let Some(found) = spans.at(path) else {
        return FilePlace::in_source(source);
    };
    let lines = FileLines {
        first: found.lines.first as u64,
        last: found.lines.last as u64,
    };
    let range = match part.span(&found) {
        Some(span) => Some(range_of(spans, span)),
        None => None,
    };
    FilePlace {
        source,
        lines: Some(lines),
        range,
    }
}

/// The place of the value at a path of a layer, or of its key, in a source.
fn place_in(layer: &Layer, source: usize, path: &[Step], part: SpanPart) -> FilePlace
    ensures { IsPlaceIn part layer.now.places source path.now result }
{
    match &layer.places {
        Some(document) => place_of_part(document.spans(), source, path, part),
        None => FilePlace::in_source(source),
    }
}

/// The place of the value at a path, or of its key, in the layer at a position.
pub fn part_place(layers: &[Layer], source: usize, path: &[Step], part: SpanPart) -> FilePlace
    ensures { IsPartPlace part layers.now source path.now result }
{
    match layers.get(source) {
        Some(layer) => place_in(layer, source, path, part),
        None => FilePlace::in_source(source),
    }
}

/// The place of the value at a path in the layer at a position. Its range is the value's, or else
/// the key's.
pub fn path_place(layers: &[Layer], source: usize, path: &[Step]) -> FilePlace
    ensures { IsPathPlace layers.now source path.now result }
{
    part_place(layers, source, path, SpanPart::Value)
}
