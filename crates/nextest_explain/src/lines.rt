//! The lines of rows: each setting with its value and where it comes from.
ghost use Rattle.std.specs.Prelude.{◌≡◌, ◌++◌, IfOk, OnOk, Some, map, option_map, string_bytes};
ghost use Rattle.nextest_config.specs.RowView.{origin_view, row_view};
ghost use Rattle.nextest_sources.specs.Sources.{source_view};
ghost use Rattle.nextest_explain.specs.Lines as lines;

use crate::options::Places;
use nextest_config::run::{PlainSource, TestRow};
use nextest_config::{ConfigSource, IdentifierOwner, Setting};
use std::alloc::{AllocError, Global};

/// A source in a line: the path of its file as it is, and who provides it.
fn where_text(alloc: Global, source: &ConfigSource) -> Result<String, AllocError>
    ensures { IfOk result (λ text. string_bytes text ≡ lines.where_text (source_view source.now)) }
{
    let path = source.path();
    match source.kind().owner() {
        IdentifierOwner::Tool(tool) => format!(in alloc; "{path} provided by tool `{tool}`"),
        IdentifierOwner::Organisation => format!(in alloc; "{path} provided by organisation"),
        IdentifierOwner::Nobody => path.to_string(alloc),
    }
}

/// An override in a line, by where it is.
fn override_text(
    alloc: Global,
    source: &ConfigSource,
    profile: &str,
    index: usize,
    places: Places,
) -> Result<String, AllocError>
    ensures { IfOk result (λ text. string_bytes text ≡ lines.told_override places (record {
      source = source_view source.now;
      profile = profile.now;
      index = index;
    })) }
{
    match places {
        Places::Words => String::from_str(alloc, "override"),
        Places::Whole => {
            let place = where_text(alloc, source)?;
            format!(in alloc; "override profile.{profile}.overrides.{index} in {place}")
        }
    }
}

/// The place of a value, or a dash where nothing decides it.
fn place_text(
    alloc: Global,
    source: Option<&PlainSource>,
    places: Places,
) -> Result<String, AllocError>
    ensures { IfOk result (λ text. string_bytes text
        ≡ lines.told_place places (option_map (λ source. origin_view source.now) source.entry)) }
{
    let Some(source) = source else {
        return String::from_str(alloc, "-");
    };
    match source {
        PlainSource::Default => String::from_str(alloc, "default"),
        PlainSource::Profile => String::from_str(alloc, "profile"),
        PlainSource::Override {
            source,
            profile,
            index,
        } => override_text(alloc, source, profile.as_str(), *index, places),
        PlainSource::Script => String::from_str(alloc, "script"),
    }
}

/// Adds the line that a row has of a setting.
fn add_line(
    alloc: Global,
    text: &mut String,
    row: &TestRow,
    setting: Setting,
    places: Places,
) -> Result<(), AllocError>
    ensures { OnOk result (string_bytes text.new
        ≡ string_bytes text.old ++ lines.line_of places (row_view row.now) setting) }
{
    let name = setting.name();
    let value = row.value_text(alloc, setting)?;
    let place = place_text(alloc, row.source(setting), places)?;
    write!(text, "{name}: {value} [{place}]\n")
}

/// The lines of a row.
fn lines_of_row(alloc: Global, row: &TestRow, places: Places) -> Result<String, AllocError>
    ensures { IfOk result (λ text. string_bytes text
        ≡ lines.row_lines places (row_view row.now)) }
{
    let mut text = String::new(alloc);
    for setting in Setting::ALL.iter() {
        add_line(alloc, &mut text, row, *setting, places)?;
    }
    Ok(text)
}

/// The lines of rows.
pub fn lines_of_rows(alloc: Global, rows: &[TestRow], places: Places) -> Result<String, AllocError>
    ensures { IfOk result (λ text. string_bytes text
        ≡ lines.lines_telling places (map row_view rows.now)) }
{
    let mut text = String::new(alloc);
    for row in rows {
        let row_lines = lines_of_row(alloc, row, places)?;
        text.push_str(row_lines.as_str())?;
    }
    Ok(text)
}
