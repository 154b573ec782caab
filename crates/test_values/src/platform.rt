//! Specs of platforms, and their values.
//!
//! A row is `TEXT<TAB>PLATFORM`. In the text `\n`, `\t`, `\r`, `\\` and `\u{hex}` are written for
//! characters. The platform is a triple, of the table or of a row above, and `+features` behind it
//! gives its features; with `-` the row prints the reading alone. A row that is the word `platform` and
//! the columns of a row of the table, with tabs between, defines a triple for the rows below, and prints
//! nothing.
//!
//! Each other row is printed with ` -> ` behind it, and then
//!
//! | Result | Printed |
//! |---|---|
//! | the value on the platform | `true`, `false` or `unknown` |
//! | the reading alone | `spec` and the expression, with `\n`, `\t`, `\r` and `\\` for characters |
//! | the text is refused | `refused`, the name of the fault, and its bytes as `start..end`, perhaps with what was expected in brackets |
//! | the platform is not known | `refused UnknownTriple` |
use crate::escapes::{Escapes, push_escaped, unescaped};
use crate::row::{RowError, name_of};
use platform_language::{
    FaultKind, Platform, PlatformFault, TargetRow, TargetSpec, TargetSpecError, TargetSpecFault,
};
use std::alloc::{AllocError, Global};

/// What is printed for a row, if it defines no triple.
pub fn answer_to<'a>(
    alloc: Global,
    defined: &mut Vec<TargetRow<'a>>,
    row: &'a str,
) -> Result<Option<String>, RowError> {
    match defined_row(alloc, row)? {
        Some(target) => {
            defined.push(target)?;
            Ok(None)
        }
        None => {
            let answer = answer(alloc, defined, row)?;
            Ok(Some(format!(in alloc; "{row} -> {answer}")?))
        }
    }
}

/// The row of the table that a row defines, if it is the word `platform` and as many columns.
fn defined_row(alloc: Global, row: &str) -> Result<Option<TargetRow<'_>>, AllocError> {
    let columns: Vec<&str> = row.split('\t').collect(alloc)?;
    match columns.as_slice() {
        [
            "platform",
            triple,
            arch,
            vendor,
            os,
            env,
            abi,
            endian,
            pointer_width,
            panic,
            families,
            atomics,
            features,
            names,
        ] => Ok(Some(TargetRow {
            triple,
            arch,
            vendor,
            os,
            env,
            abi,
            endian,
            pointer_width,
            panic,
            families,
            atomics,
            features,
            names,
        })),
        _ => Ok(None),
    }
}

/// The result of reading the text of a row, and its value on the platform that the row names.
fn answer(alloc: Global, defined: &[TargetRow<'_>], row: &str) -> Result<String, RowError> {
    let (text, platform) = row.split_once('\t').ok_or(RowError::NoRow)?;
    let text = unescaped(alloc, text, Escapes::Numbered)?;
    match TargetSpec::parse(alloc, text.as_str()) {
        Ok(spec) if platform == "-" => Ok(reading(alloc, &spec)?),
        Ok(spec) => value_on(alloc, &spec, defined, platform),
        Err(TargetSpecError::Refused(fault)) => Ok(refusal(alloc, &fault)?),
        Err(TargetSpecError::Memory) => Err(RowError::Memory),
    }
}

/// The expression of a spec, on one line.
fn reading(alloc: Global, spec: &TargetSpec) -> Result<String, AllocError> {
    let expression = spec.to_string(alloc)?;
    let mut line = String::from_str(alloc, "spec ")?;
    for character in expression.chars() {
        push_escaped(&mut line, character)?;
    }
    Ok(line)
}

/// The value of a spec on the platform of a name, if there is such a platform.
fn value_on(
    alloc: Global,
    spec: &TargetSpec,
    defined: &[TargetRow<'_>],
    name: &str,
) -> Result<String, RowError> {
    match platform_of(alloc, defined, name) {
        Ok(platform) => Ok(String::from_str(alloc, name_of(spec.eval(&platform)))?),
        Err(PlatformFault::Memory) => Err(RowError::Memory),
        Err(_) => Ok(String::from_str(alloc, "refused UnknownTriple")?),
    }
}

/// The platform of this name: a triple, and perhaps `+features`, which gives its features. The last
/// row that defines the triple counts, and the table after them.
fn platform_of(
    alloc: Global,
    defined: &[TargetRow<'_>],
    name: &str,
) -> Result<Platform, PlatformFault> {
    let triple = name.strip_suffix("+features").unwrap_or(name);
    let platform = match defined.iter().rev().find(|row| row.triple == triple) {
        Some(row) => row.platform(alloc)?,
        None => Platform::builtin(alloc, triple)?,
    };
    if triple == name {
        Ok(platform)
    } else {
        Ok(platform.with_features())
    }
}

/// A fault by its name, with its bytes and what was expected.
fn refusal(alloc: Global, fault: &TargetSpecFault) -> Result<String, AllocError> {
    let start = fault.span.start;
    let end = fault.span.end;
    match (fault.kind, fault.expected) {
        (FaultKind::NotTakesOne(count), _) => {
            format!(in alloc; "refused NotTakesOne {start}..{end} [{count}]")
        }
        (kind, Some(expected)) => {
            let words = expected.words();
            format!(in alloc; "refused {kind:?} {start}..{end} [{words}]")
        }
        (kind, None) => format!(in alloc; "refused {kind:?} {start}..{end}"),
    }
}
