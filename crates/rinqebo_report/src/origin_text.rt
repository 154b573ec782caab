//! Origins as pages show them.
ghost use Rattle.std.specs.Prelude.{◌≡◌, ◌∷◌, ◌++◌, MatchOption, None, Some, option_map, OnOk, IfOk, codes, map, string_bytes};
ghost use Rattle.rinqebo_report.specs.Joined.{joined};
ghost use Rattle.rinqebo_report.specs.OriginText.{after_prefix, ends_with_slash, below, path_at, lines_text, position_text, range_text, tool_at, tool_text, place_text, part_text, written_text, origin_text, origin_texts};

use crate::origin::{
    FileLines, FilePlace, Origin, Part, Position, Range, Source, SourceKind, Written,
};
use crate::toml_text::add_key;
use std::alloc::{AllocError, Global};
use std::fmt::Write;

/// The rest of a text after a prefix, if the text begins with it.
fn after_prefix<'a>(prefix: &str, text: &'a str) -> Option<&'a str>
    ensures { MatchOption result (after_prefix prefix.now text.now ≡ None)
        (λ rest. after_prefix prefix.now text.now ≡ Some rest.now) }
{
    text.strip_prefix(prefix)
}

/// Whether a path ends with a slash.
fn ends_with_slash(path: &str) -> bool
    ensures { result ≡ ends_with_slash path.now }
{
    path.ends_with('/')
}

/// A path below a root without the root and the slash after it, and another path as it is. No path
/// is below an empty root.
pub(crate) fn below<'a>(root: &str, path: &'a str) -> &'a str
    ensures { result.now ≡ below root.now path.now }
{
    if root.is_empty() {
        return path;
    }
    match after_prefix(root, path) {
        Some(rest) if ends_with_slash(root) => rest,
        Some(rest) => after_prefix("/", rest).unwrap_or(path),
        None => path,
    }
}

/// The path of a source, below the root where it is. The defaults have none.
pub fn path_at<'a>(root: &str, sources: &'a [Source], source: usize) -> &'a str
    ensures { result.now ≡ path_at root.now sources.now source }
{
    match sources.get(source) {
        Some(
            Source {
                path: Some(path),
                ..
            },
        ) => below(root, path.as_str()),
        _ => "default table",
    }
}

/// Writes a colon and lines.
fn add_lines(out: &mut String, lines: Option<FileLines>) -> Result<(), AllocError>
    ensures { OnOk result (string_bytes out.new ≡ string_bytes out.old ++ lines_text lines) }
{
    let Some(FileLines { first, last }) = lines else {
        return Ok(());
    };
    if first == last {
        write!(out, ":{first}")
    } else {
        write!(out, ":{first}-{last}")
    }
}

/// Writes a colon and a line, and then a colon and a column.
pub(crate) fn add_position(out: &mut String, position: Position) -> Result<(), AllocError>
    ensures { OnOk result (string_bytes out.new ≡ string_bytes out.old ++ position_text position) }
{
    let Position { line, column } = position;
    write!(out, ":{line}:{column}")
}

/// Writes where a range starts, or else lines.
fn add_range(
    out: &mut String,
    range: Option<Range>,
    lines: Option<FileLines>,
) -> Result<(), AllocError>
    ensures { OnOk result (string_bytes out.new ≡ string_bytes out.old ++ range_text range lines) }
{
    match range {
        Some(Range { start, .. }) => add_position(out, start),
        None => add_lines(out, lines),
    }
}

/// The tool that a source comes from, if it comes from one.
fn tool_at(sources: &[Source], source: usize) -> Option<&str>
    ensures { option_map (λ tool. tool.now) result ≡ tool_at sources.now source }
{
    match sources.get(source) {
        Some(
            Source {
                kind: SourceKind::Tool(name),
                ..
            },
        ) => Some(name.as_str()),
        _ => None,
    }
}

/// Writes a tool, in parentheses.
fn add_tool(out: &mut String, tool: Option<&str>) -> Result<(), AllocError>
    ensures { OnOk result (string_bytes out.new ≡ string_bytes out.old
        ++ tool_text (option_map (λ tool. tool.now) tool.entry)) }
{
    match tool {
        Some(name) => write!(out, " (tool {name})"),
        None => Ok(()),
    }
}

/// Writes a place.
fn add_place(
    out: &mut String,
    root: &str,
    sources: &[Source],
    place: FilePlace,
) -> Result<(), AllocError>
    ensures { OnOk result (string_bytes out.new
        ≡ string_bytes out.old ++ place_text root.now sources.now place) }
{
    out.push_str(path_at(root, sources, place.source))?;
    add_range(out, place.range, place.lines)?;
    add_tool(out, tool_at(sources, place.source))
}

/// Writes a part of a profile.
fn add_part(out: &mut String, part: Part) -> Result<(), AllocError>
    ensures { OnOk result (string_bytes out.new ≡ string_bytes out.old ++ part_text part) }
{
    match part {
        Part::Fields => Ok(()),
        Part::Override(index) => write!(out, ".overrides.{index}"),
        Part::Script(index) => write!(out, ".scripts.{index}"),
    }
}

/// Writes what is written in a file.
fn add_written(
    out: &mut String,
    root: &str,
    sources: &[Source],
    written: &Written,
) -> Result<(), AllocError>
    ensures { OnOk result (string_bytes out.new
        ≡ string_bytes out.old ++ written_text root.now sources.now written.now) }
{
    add_place(out, root, sources, written.place)?;
    out.push_str(" profile.")?;
    add_key(out, written.profile.as_str())?;
    add_part(out, written.part)
}

/// Writes an origin.
fn add_origin(
    out: &mut String,
    root: &str,
    sources: &[Source],
    origin: &Origin,
) -> Result<(), AllocError>
    ensures { OnOk result (string_bytes out.new
        ≡ string_bytes out.old ++ origin_text root.now sources.now origin.now) }
{
    match origin {
        Origin::BuiltIn => out.push_str("built in"),
        Origin::DefaultTable => out.push_str("default table"),
        Origin::Written(written) => add_written(out, root, sources, written),
        Origin::File(place) => add_place(out, root, sources, *place),
    }
}

/// An origin as a text.
pub(crate) fn origin_text(
    alloc: Global,
    root: &str,
    sources: &[Source],
    origin: &Origin,
) -> Result<String, AllocError>
    ensures { IfOk result (λ text.
        string_bytes text ≡ origin_text root.now sources.now origin.now) }
{
    let mut text = String::new(alloc);
    add_origin(&mut text, root, sources, origin)?;
    Ok(text)
}

/// Adds the texts of origins to other texts.
fn push_origins(
    alloc: Global,
    texts: &mut Vec<String>,
    root: &str,
    sources: &[Source],
    origins: &[Origin],
) -> Result<(), AllocError>
    ensures { OnOk result (map string_bytes texts.new.items ≡ map string_bytes texts.old.items
        ++ origin_texts root.now sources.now origins.now) }
{
    for origin in origins {
        texts.push(origin_text(alloc, root, sources, origin)?)?;
    }
    Ok(())
}

/// Origins as texts.
pub(crate) fn origin_texts(
    alloc: Global,
    root: &str,
    sources: &[Source],
    origins: &[Origin],
) -> Result<Vec<String>, AllocError>
    ensures { IfOk result (λ texts. map string_bytes texts.items
        ≡ origin_texts root.now sources.now origins.now) }
{
    let mut texts = Vec::new(alloc);
    push_origins(alloc, &mut texts, root, sources, origins)?;
    Ok(texts)
}

/// An origin and then others as texts.
pub(crate) fn all_origin_texts(
    alloc: Global,
    root: &str,
    sources: &[Source],
    first: &Origin,
    others: &[Origin],
) -> Result<Vec<String>, AllocError>
    ensures { IfOk result (λ texts. map string_bytes texts.items
        ≡ origin_texts root.now sources.now (first.now ∷ others.now)) }
{
    let mut texts = Vec::new(alloc);
    texts.push(origin_text(alloc, root, sources, first)?)?;
    push_origins(alloc, &mut texts, root, sources, others)?;
    Ok(texts)
}

/// Writes origins, with commas between them.
pub fn add_origins(
    out: &mut String,
    root: &str,
    sources: &[Source],
    origins: &[Origin],
) -> Result<(), AllocError>
    ensures { OnOk result (string_bytes out.new ≡ string_bytes out.old
        ++ joined (codes ", ") (origin_text root.now sources.now) origins.now) }
{
    let mut separator = "";
    for origin in origins {
        out.push_str(separator)?;
        add_origin(out, root, sources, origin)?;
        separator = ", ";
    }
    Ok(())
}
