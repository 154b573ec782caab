//! The page of a configuration: each leaf with its value and where it comes from.
ghost use Rattle.std.specs.Prelude.{◌≡◌, ◌++◌, List, OnOk, map, string_bytes};
ghost use Rattle.serde_json.specs.View.{members_view};
ghost use Rattle.rinqebo_report.specs.Document.{with_config};
ghost use Rattle.rinqebo_report.specs.Pages.{entry_width, widest_entry, entry_column, hidden_runs, entry_runs, config_runs};
ghost use Rattle.rinqebo_report.specs.Pieces.{page_text};

use crate::explain_page::add_valued;
use crate::json_parts::entries_json;
use crate::json_requested::put_requested;
use crate::layout::{KeyColumn, Mark, Paper, Remarks, add_remarked, width};
use crate::origin::Source;
use crate::origin_text::all_origin_texts;
use crate::piece::{Piece, Style};
use crate::report::{Asked, Entry};
use crate::toml_text::value_text;
use serde_json::{Map, Value, put};
use std::alloc::{AllocError, Global};

/// How wide the key of a leaf is: 0 if another leaf hides it.
fn entry_width(entry: &Entry) -> usize
    ensures { result ≡ entry_width entry.now }
{
    if entry.is_hidden {
        0
    } else {
        width(entry.key.as_str())
    }
}

/// The width of the widest key of leaves.
fn widest_entry(entries: &[Entry]) -> usize
    ensures { result ≡ widest_entry entries.now }
{
    let mut most = 0usize;
    for entry in entries {
        most = most.max(entry_width(entry));
    }
    most
}

/// The column of the keys of leaves.
fn entry_column(entries: &[Entry]) -> KeyColumn
    ensures { result ≡ entry_column entries.now }
{
    KeyColumn {
        indent: 0,
        width: widest_entry(entries),
    }
}

/// Writes a leaf that another one hides.
fn add_hidden(
    alloc: Global,
    out: &mut String,
    paper: Paper,
    key: &str,
    value: &str,
    texts: Vec<String>,
) -> Result<(), AllocError>
    ensures { OnOk result (string_bytes out.new ≡ string_bytes out.old ++ page_text paper.colour
        (hidden_runs paper.columns key.now value.now (map string_bytes texts.items))) }
{
    let text = format!(in alloc; "# hidden: {key} = {value}")?;
    let remarks = Remarks {
        mark: Mark::Comment,
        gap: 2,
        indent: 4,
        texts,
    };
    let front = [Piece::Text(Style::Remark, text.as_str())];
    add_remarked(alloc, out, paper, &front, &remarks)
}

/// Writes a leaf.
fn add_entry(
    alloc: Global,
    out: &mut String,
    paper: Paper,
    root: &str,
    sources: &[Source],
    keys: KeyColumn,
    entry: &Entry,
) -> Result<(), AllocError>
    ensures { OnOk result (string_bytes out.new ≡ string_bytes out.old
        ++ page_text paper.colour
        (entry_runs paper.columns root.now sources.now keys entry.now)) }
{
    let key = entry.key.as_str();
    let value = value_text(alloc, &entry.value)?;
    let texts = all_origin_texts(alloc, root, sources, &entry.origin, &[])?;
    if entry.is_hidden {
        add_hidden(alloc, out, paper, key, value.as_str(), texts)
    } else {
        add_valued(alloc, out, paper, keys, key, value.as_str(), texts)
    }
}

/// Writes the page of a configuration.
pub(crate) fn add_config(
    alloc: Global,
    out: &mut String,
    paper: Paper,
    root: &str,
    sources: &[Source],
    entries: &[Entry],
) -> Result<(), AllocError>
    ensures { OnOk result (string_bytes out.new ≡ string_bytes out.old ++ page_text paper.colour
        (config_runs paper.columns root.now sources.now entries.now)) }
{
    let keys = entry_column(entries);
    for entry in entries {
        add_entry(alloc, out, paper, root, sources, keys, entry)?;
    }
    Ok(())
}

/// Puts among members those of the page of a configuration.
pub(crate) fn put_config(
    members: &mut Map<String, Value>,
    alloc: Global,
    asked: &Asked,
    entries: &[Entry],
) -> Result<(), AllocError>
    ensures { OnOk result (members_view members.new.entries
        ≡ with_config asked.now entries.now (members_view members.old.entries)) }
{
    put_requested(members, alloc, "show-config", asked)?;
    put(members, alloc, "entries", entries_json(alloc, entries)?)
}
