//! Values as TOML, on one line.
ghost use Rattle.std.specs.Prelude.{◌≡◌, ◌==◌, ◌||◌, ◌/◌, ◌%◌, ◌++◌, ◌<◌, [], ◌∷◌, OnOk, IfOk, codes, flat_map, string_bytes, if◌then◌else◌};
ghost use Rattle.std.specs.List.{list_all};
ghost use Rattle.std.specs.Str.{chars};
ghost use Rattle.rinqebo_report.specs.Joined.{joined};
ghost use Rattle.rinqebo_report.specs.TomlText.{hex_digit, toml_char, quoted, is_bare_byte, is_bare as bare_test, key_text, canonical_duration, written_duration, spelled_duration, scalar_text, field_text, item_text, spelled_value, value_text, canonical_text};

use crate::duration::add_duration;
use crate::value::{ReportedDuration, Scalar, TableMember, Value};
use std::alloc::{AllocError, Global};
use std::fmt::Write;

/// How the durations of a value are spelled.
#[derive(Clone, Copy)]
enum Spelling {
    /// As a file writes them, if one file alone writes the value.
    AsWritten,
    /// As one number, with the longest unit that divides them.
    Canonical,
}

/// Writes a control character as a text of TOML spells it.
fn add_control(out: &mut String, c: char) -> Result<(), AllocError>
    requires { c < 256 }
    ensures { OnOk result (string_bytes out.new ≡ string_bytes out.old
        ++ (codes "\\u00" ++ hex_digit (c / 16) ∷ hex_digit (c % 16) ∷ [])) }
{
    let number = u32::from(c);
    write!(out, "\\u00{number:02x}")
}

/// Writes a character within a text of TOML.
fn add_toml_char(out: &mut String, c: char) -> Result<(), AllocError>
    ensures { OnOk result (string_bytes out.new ≡ string_bytes out.old ++ toml_char c) }
{
    if c == '"' || c == '\\' {
        out.push('\\')?;
        out.push(c)
    } else if c.is_control() {
        add_control(out, c)
    } else {
        out.push(c)
    }
}

/// Writes the characters within a text of TOML.
fn add_toml_chars(out: &mut String, text: &str) -> Result<(), AllocError>
    ensures { OnOk result (string_bytes out.new
        ≡ string_bytes out.old ++ flat_map toml_char (chars text.now)) }
{
    for c in text.chars() {
        add_toml_char(out, c)?;
    }
    Ok(())
}

/// Writes a text of TOML.
fn add_quoted(out: &mut String, text: &str) -> Result<(), AllocError>
    ensures { OnOk result (string_bytes out.new ≡ string_bytes out.old ++ quoted text.now) }
{
    out.push('"')?;
    add_toml_chars(out, text)?;
    out.push('"')
}

/// Whether a key has only bytes that need no quotes.
fn has_bare_bytes(key: &str) -> bool
    ensures { result ≡ list_all is_bare_byte key.now }
{
    key.as_bytes().iter().all(|byte| byte.is_ascii_alphanumeric() || matches!(*byte, b'_' | b'-'))
}

/// Whether a key needs no quotes.
fn is_bare(key: &str) -> bool
    ensures { result ≡ bare_test key.now }
{
    !key.is_empty() && has_bare_bytes(key)
}

/// Writes a key of a path, in quotes where it needs them.
pub(crate) fn add_key(out: &mut String, key: &str) -> Result<(), AllocError>
    ensures { OnOk result (string_bytes out.new ≡ string_bytes out.old ++ key_text key.now) }
{
    if is_bare(key) {
        out.push_str(key)
    } else {
        add_quoted(out, key)
    }
}

/// Writes a duration in quotes, as one number and a unit.
fn add_canonical_duration(out: &mut String, nanoseconds: u128) -> Result<(), AllocError>
    ensures { OnOk result (string_bytes out.new
        ≡ string_bytes out.old ++ canonical_duration nanoseconds) }
{
    out.push('"')?;
    add_duration(out, nanoseconds)?;
    out.push('"')
}

/// Writes a duration in quotes, as a file writes it, if that is known.
fn add_written_duration(out: &mut String, duration: &ReportedDuration) -> Result<(), AllocError>
    ensures { OnOk result (string_bytes out.new ≡ string_bytes out.old
        ++ written_duration duration.now.nanoseconds duration.now.written) }
{
    match &duration.written {
        Some(written) => add_quoted(out, written.as_str()),
        None => add_canonical_duration(out, duration.nanoseconds),
    }
}

/// Writes a duration in quotes.
fn add_spelled_duration(
    out: &mut String,
    spelling: Spelling,
    duration: &ReportedDuration,
) -> Result<(), AllocError>
    ensures { OnOk result (string_bytes out.new
        ≡ string_bytes out.old ++ spelled_duration spelling duration.now) }
{
    match spelling {
        Spelling::AsWritten => add_written_duration(out, duration),
        Spelling::Canonical => add_canonical_duration(out, duration.nanoseconds),
    }
}

/// Writes a value that holds no others.
fn add_scalar(out: &mut String, spelling: Spelling, scalar: &Scalar) -> Result<(), AllocError>
    ensures { OnOk result (string_bytes out.new
        ≡ string_bytes out.old ++ scalar_text spelling scalar.now) }
{
    match scalar {
        Scalar::Boolean(truth) => write!(out, "{truth}"),
        Scalar::Integer(number) => write!(out, "{number}"),
        Scalar::Text(text) => add_quoted(out, text.as_str()),
        Scalar::Duration(duration) => add_spelled_duration(out, spelling, duration),
    }
}

/// Writes texts of a list.
fn add_items(out: &mut String, items: &[String]) -> Result<(), AllocError>
    ensures { OnOk result (string_bytes out.new
        ≡ string_bytes out.old ++ joined (codes ", ") item_text items.now) }
{
    let mut separator = "";
    for item in items {
        out.push_str(separator)?;
        add_quoted(out, item.as_str())?;
        separator = ", ";
    }
    Ok(())
}

/// Writes a member of a table.
fn add_field(out: &mut String, spelling: Spelling, field: &TableMember) -> Result<(), AllocError>
    ensures { OnOk result (string_bytes out.new
        ≡ string_bytes out.old ++ field_text spelling field.now) }
{
    out.push_str(field.key.as_str())?;
    out.push_str(" = ")?;
    add_scalar(out, spelling, &field.value)
}

/// Writes members of a table.
fn add_fields(
    out: &mut String,
    spelling: Spelling,
    fields: &[TableMember],
) -> Result<(), AllocError>
    ensures { OnOk result (string_bytes out.new
        ≡ string_bytes out.old ++ joined (codes ", ") (field_text spelling) fields.now) }
{
    let mut separator = "";
    for field in fields {
        out.push_str(separator)?;
        add_field(out, spelling, field)?;
        separator = ", ";
    }
    Ok(())
}

/// Writes a value.
fn add_value(out: &mut String, spelling: Spelling, value: &Value) -> Result<(), AllocError>
    ensures { OnOk result (string_bytes out.new
        ≡ string_bytes out.old ++ spelled_value spelling value.now) }
{
    match value {
        Value::Scalar(scalar) => add_scalar(out, spelling, scalar),
        Value::Texts(items) => {
            out.push('[')?;
            add_items(out, items)?;
            out.push(']')
        }
        Value::Table(fields) => {
            out.push_str("{ ")?;
            add_fields(out, spelling, fields)?;
            out.push_str(" }")
        }
    }
}

/// A value as TOML, on one line, with its durations as a file writes them, where one file alone
/// writes the value.
pub fn value_text(alloc: Global, value: &Value) -> Result<String, AllocError>
    ensures { IfOk result (λ text. string_bytes text ≡ value_text value.now) }
{
    let mut text = String::new(alloc);
    add_value(&mut text, Spelling::AsWritten, value)?;
    Ok(text)
}

/// A value as TOML, on one line, the same however files write its durations.
pub(crate) fn canonical_text(alloc: Global, value: &Value) -> Result<String, AllocError>
    ensures { IfOk result (λ text. string_bytes text ≡ canonical_text value.now) }
{
    let mut text = String::new(alloc);
    add_value(&mut text, Spelling::Canonical, value)?;
    Ok(text)
}
