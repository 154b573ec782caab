// Rows of a table of platforms, and the lines that a row means.

ghost use Rattle.std.specs.Prelude.{◌≡◌, ◌++◌, map, flat_map, IfOk, OnOk};
ghost use Rattle.platform_language.specs.Platforms.Platforms.{line_view, platform_view};
ghost use Rattle.platform_language.specs.Platforms.Rows.{row_view, texts_of, value_line, name_line, lines_of_cell, parts_of, value_columns, list_columns, platform_of_row};

use crate::platforms::lines::push_line;
use crate::platforms::{CfgLine, Platform};
use std::alloc::{AllocError, Global};

/// A row of a table of platforms: what the compiler prints for a triple, but `debug_assertions`.
///
/// Several values or names are separated by commas.
#[derive(Clone, Copy, Debug, Drop)]
pub struct TargetRow<'a> {
    /// The name of the platform.
    pub triple: &'a str,
    /// The value of `target_arch`.
    pub arch: &'a str,
    /// The value of `target_vendor`.
    pub vendor: &'a str,
    /// The value of `target_os`.
    pub os: &'a str,
    /// The value of `target_env`, perhaps empty.
    pub env: &'a str,
    /// The value of `target_abi`, perhaps empty.
    pub abi: &'a str,
    /// The value of `target_endian`.
    pub endian: &'a str,
    /// The value of `target_pointer_width`.
    pub pointer_width: &'a str,
    /// The value of `panic`.
    pub panic: &'a str,
    /// The values of `target_family`.
    pub families: &'a str,
    /// The values of `target_has_atomic`.
    pub atomics: &'a str,
    /// The values of `target_feature`.
    pub features: &'a str,
    /// The lines that are names.
    pub names: &'a str,
}

impl<'a> TargetRow<'a> {
    /// The platform of this row. Its features are not given.
    pub fn platform(&self, alloc: Global) -> Result<Platform, AllocError>
        ensures { IfOk result (λ made. platform_view made ≡ platform_of_row (row_view self.now)) }
    {
        let mut lines = Vec::new(alloc);
        push_values(alloc, &mut lines, &self.value_columns())?;
        push_lists(alloc, &mut lines, &self.list_columns())?;
        push_names(alloc, &mut lines, self.names)?;
        Ok(Platform {
            triple: String::from_str(alloc, self.triple)?,
            lines,
            features_given: false,
        })
    }

    // The keys that have one value each.
    fn value_columns(&self) -> [(&'static str, &'a str); 8]
        ensures { map texts_of result ≡ value_columns (row_view self.now) }
    {
        [
            ("target_arch", self.arch),
            ("target_vendor", self.vendor),
            ("target_os", self.os),
            ("target_env", self.env),
            ("target_abi", self.abi),
            ("target_endian", self.endian),
            ("target_pointer_width", self.pointer_width),
            ("panic", self.panic),
        ]
    }

    // The keys that may have several values.
    fn list_columns(&self) -> [(&'static str, &'a str); 3]
        ensures { map texts_of result ≡ list_columns (row_view self.now) }
    {
        [
            ("target_family", self.families),
            ("target_has_atomic", self.atomics),
            ("target_feature", self.features),
        ]
    }
}

// Adds a line for each key with its value.
fn push_values(
    alloc: Global,
    lines: &mut Vec<CfgLine>,
    columns: &[(&str, &str)],
) -> Result<(), AllocError>
    ensures { OnOk result (map line_view lines.new.items
        ≡ map line_view lines.old.items ++ map value_line (map texts_of columns.now)) }
{
    for (key, value) in columns {
        push_line(alloc, lines, key, Some(value))?;
    }
    Ok(())
}

// Adds a line for each key with each of its values.
fn push_lists(
    alloc: Global,
    lines: &mut Vec<CfgLine>,
    columns: &[(&str, &str)],
) -> Result<(), AllocError>
    ensures { OnOk result (map line_view lines.new.items
        ≡ map line_view lines.old.items ++ flat_map lines_of_cell (map texts_of columns.now)) }
{
    for (key, cell) in columns {
        push_list(alloc, lines, key, cell)?;
    }
    Ok(())
}

// Adds a line for the key with each value of the cell.
fn push_list(
    alloc: Global,
    lines: &mut Vec<CfgLine>,
    key: &str,
    cell: &str,
) -> Result<(), AllocError>
    ensures { OnOk result (map line_view lines.new.items
        ≡ map line_view lines.old.items ++ lines_of_cell (key.now, cell.now)) }
{
    for value in &parts_of(alloc, cell)? {
        push_line(alloc, lines, key, Some(value))?;
    }
    Ok(())
}

// Adds a line for each name of the cell.
fn push_names(alloc: Global, lines: &mut Vec<CfgLine>, cell: &str) -> Result<(), AllocError>
    ensures { OnOk result (map line_view lines.new.items
        ≡ map line_view lines.old.items ++ map name_line (parts_of cell.now)) }
{
    for name in &parts_of(alloc, cell)? {
        push_line(alloc, lines, name, None)?;
    }
    Ok(())
}

// What is between the commas of a cell.
fn parts_of(alloc: Global, cell: &str) -> Result<Vec<&str>, AllocError>
    ensures { IfOk result (λ parts. map (λ part. part.now) parts.items ≡ parts_of cell.now) }
{
    if cell.is_empty() {
        return Ok(Vec::new(alloc));
    }
    cell.split(',').collect(alloc)
}
