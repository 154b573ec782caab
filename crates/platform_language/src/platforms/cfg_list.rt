// Platforms that are read from what `rustc --print cfg` prints.

ghost use Rattle.std.specs.Prelude.{◌≡◌, ◌≢◌, ℕ, List, map, IfOk, IfErr, OnOk, MatchOption};
ghost use Rattle.std.specs.Str.Lines.{lines};
ghost use Rattle.platform_language.specs.Platforms.Platforms.{Line, line_view, line_of, platform_view};
ghost use Rattle.platform_language.specs.Platforms.CfgLines.{is_word, starts_word, continues_word, quoted, WritesLine, WritesLines, IsNoLine};
ghost use Rattle.platform_language.specs.Platforms.CfgList.{has_value, with_empty, platform_with, ReadsLines, IsPlatformOf, IsRefusedFor};

use crate::platforms::fault::PlatformFault;
use crate::platforms::lines::push_line;
use crate::platforms::{CfgLine, Platform};
use std::alloc::{AllocError, Global};

impl Platform {
    /// The platform of this triple, of which `rustc --print cfg` prints this text. Its features are
    /// not given.
    ///
    /// Lines end with LF or CR LF, and empty ones say nothing. An older compiler prints no line of
    /// `target_env` or `target_abi`: then one with the empty value is added.
    ///
    /// # Errors
    ///
    /// [`PlatformFault::BadLine`] for the first line that is neither a word nor a word with a value
    /// in quotes, and [`PlatformFault::NotACfgList`] where all are but no line has a value of
    /// `target_arch`, or none has one of `target_os`.
    pub fn from_rustc_cfg(
        alloc: Global,
        triple: &str,
        text: &str,
    ) -> Result<Platform, PlatformFault>
        ensures ok { IfOk result (λ made. IsPlatformOf triple.now text.now (platform_view made)) }
        ensures refused { IfErr result (IsRefusedFor text.now) }
        ensures only { (a b : List Line) → WritesLines (lines text.now) a
            → WritesLines (lines text.now) b → a ≡ b }
    {
        let lines = read_lines(alloc, text)?;
        if !has_value(&lines, "target_arch") || !has_value(&lines, "target_os") {
            return Err(PlatformFault::NotACfgList);
        }
        Ok(platform_of(alloc, triple, lines)?)
    }
}

// The platform of this triple and these lines, with those that an older compiler leaves out.
fn platform_of(alloc: Global, triple: &str, mut lines: Vec<CfgLine>) -> Result<Platform, AllocError>
    ensures { IfOk result (λ made.
        platform_view made ≡ platform_with triple.now (map line_view lines.items)) }
{
    complete(alloc, &mut lines, "target_env")?;
    complete(alloc, &mut lines, "target_abi")?;
    Ok(Platform {
        triple: String::from_str(alloc, triple)?,
        lines,
        features_given: false,
    })
}

// The lines that the text writes.
fn read_lines(alloc: Global, text: &str) -> Result<Vec<CfgLine>, PlatformFault>
    ensures { ReadsLines (lines text.now) result }
{
    read_texts(alloc, &texts_of(alloc, text)?)
}

fn texts_of(alloc: Global, text: &str) -> Result<Vec<&str>, AllocError>
    ensures { IfOk result (λ texts. map (λ text. text.now) texts.items ≡ lines text.now) }
{
    text.lines().collect(alloc)
}

// The lines that these texts write, each its own, unless it is empty.
fn read_texts(alloc: Global, texts: &[&str]) -> Result<Vec<CfgLine>, PlatformFault>
    ensures { ReadsLines (map (λ text. text.now) texts.now) result }
{
    let mut read = Vec::new(alloc);
    for (index, text) in texts.iter().enumerate() {
        if text.is_empty() {
            continue;
        }
        let Some((key, value)) = read_line(text) else {
            return Err(PlatformFault::BadLine(index + 1));
        };
        push_line(alloc, &mut read, key, value)?;
    }
    Ok(read)
}

// The key of a line, and its value if it has one.
fn read_line(line: &str) -> Option<(&str, Option<&str>)>
    ensures { MatchOption result (IsNoLine line.now)
        (λ read. WritesLine line.now (line_of read.0.now read.1)) }
{
    match line.split_once('=') {
        None if is_word(line) => Some((line, None)),
        Some((key, value)) if is_word(key) => Some((key, Some(unquoted(value)?))),
        _ => None,
    }
}

// What is between two quotes, which begin and end the text.
fn unquoted(text: &str) -> Option<&str>
    ensures { MatchOption result ((value : List ℕ) → text.now ≢ quoted value)
        (λ value. text.now ≡ quoted value.now) }
{
    text.strip_prefix('"')?.strip_suffix('"')
}

// Whether the text is a letter or `_`, and then letters, digits and `_`.
fn is_word(text: &str) -> bool
    ensures { result ≡ is_word text.now }
{
    match text.as_bytes() {
        [first, rest @ ..] => starts_word(*first) && rest.iter().all(|byte| continues_word(*byte)),
        [] => false,
    }
}

fn starts_word(byte: u8) -> bool
    ensures { result ≡ starts_word byte }
{
    byte == b'_' || byte.is_ascii_alphabetic()
}

fn continues_word(byte: u8) -> bool
    ensures { result ≡ continues_word byte }
{
    byte == b'_' || byte.is_ascii_alphanumeric()
}

// Whether some line has a value of this key.
fn has_value(lines: &[CfgLine], key: &str) -> bool
    ensures { result ≡ has_value key.now (map line_view lines.now) }
{
    for line in lines {
        if line.key.as_str() == key && line.value.is_some() {
            return true;
        }
    }
    false
}

// Adds a line with the empty value of this key, where none has a value of it.
fn complete(alloc: Global, lines: &mut Vec<CfgLine>, key: &str) -> Result<(), AllocError>
    ensures { OnOk result (map line_view lines.new.items
        ≡ with_empty key.now (map line_view lines.old.items)) }
{
    if !has_value(lines, key) {
        push_line(alloc, lines, key, Some(""))?;
    }
    Ok(())
}
