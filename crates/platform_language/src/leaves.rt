//! Keys and values, read to leaves.
ghost use Rattle.std.specs.Prelude.{◌≡◌, Ok, Err, IfOk, IfErr, option_map, string_bytes};
ghost use Rattle.platform_language.specs.Expressions.{leaf_view};
ghost use Rattle.platform_language.specs.Faults.{IfFault};
ghost use Rattle.platform_language.specs.Leaves.{piece_view, plain_to, has_line as has_line_of, has_name as has_name_of, endian_leaf as endian_leaf_of, width_leaf as width_leaf_of, atomic_leaf as atomic_leaf_of, feature_leaf as feature_leaf_of, leaf_alone as leaf_alone_of, leaf_with as leaf_with_of};

use crate::expression::Leaf;
use crate::fault::{FaultKind, Place, Stop, fault};
use crate::keys::KeyKind;
use crate::platforms::CfgLine;
use std::alloc::{AllocError, Global};

/// A part of a body that has a text.
#[derive(Clone, Copy, Debug)]
pub struct Piece<'t> {
    pub text: &'t str,
    pub place: Place,
}

/// The question for a line of a key and a value.
fn has_line(alloc: Global, key: &str, value: &str) -> Result<Leaf, AllocError>
    ensures { IfOk result (λ leaf. leaf_view leaf ≡ has_line_of key.now value.now) }
{
    let key = String::from_str(alloc, key)?;
    let value = String::from_str(alloc, value)?;
    Ok(Leaf::Has(CfgLine {
        key,
        value: Some(value),
    }))
}

/// The question for a line of a key alone.
fn has_name(alloc: Global, name: &str) -> Result<Leaf, AllocError>
    ensures { IfOk result (λ leaf. leaf_view leaf ≡ has_name_of name.now) }
{
    Ok(Leaf::Has(CfgLine {
        key: String::from_str(alloc, name)?,
        value: None,
    }))
}

/// A number to 255 as it is written plainly, without `+` and zeros in front.
fn plain_width(alloc: Global, text: &str) -> Result<Option<String>, AllocError>
    ensures { IfOk result (λ plain. option_map string_bytes plain ≡ plain_to 255 text.now) }
{
    match text.parse::<u8>() {
        Ok(number) => Ok(Some(format!(in alloc; "{number}")?)),
        Err(_) => Ok(None),
    }
}

/// A number to 65535 as it is written plainly, without `+` and zeros in front.
fn plain_size(alloc: Global, text: &str) -> Result<Option<String>, AllocError>
    ensures { IfOk result (λ plain. option_map string_bytes plain ≡ plain_to 65535 text.now) }
{
    match text.parse::<u16>() {
        Ok(number) => Ok(Some(format!(in alloc; "{number}")?)),
        Err(_) => Ok(None),
    }
}

fn endian_leaf(alloc: Global, value: Piece<'_>) -> Result<Leaf, Stop>
    ensures ok { IfOk result
        (λ leaf. endian_leaf_of (piece_view value.entry) ≡ Ok (leaf_view leaf)) }
    ensures err { IfErr result
        (λ stop. IfFault stop
        (λ fault. endian_leaf_of (piece_view value.entry) ≡ Err fault)) }
{
    if value.text == "big" || value.text == "little" {
        return Ok(has_line(alloc, "target_endian", value.text)?);
    }
    Err(fault(FaultKind::BadEndian, value.place))
}

fn width_leaf(alloc: Global, value: Piece<'_>) -> Result<Leaf, Stop>
    ensures ok { IfOk result
        (λ leaf. width_leaf_of (piece_view value.entry) ≡ Ok (leaf_view leaf)) }
    ensures err { IfErr result
        (λ stop. IfFault stop
        (λ fault. width_leaf_of (piece_view value.entry) ≡ Err fault)) }
{
    match plain_width(alloc, value.text)? {
        Some(width) => Ok(has_line(alloc, "target_pointer_width", width.as_str())?),
        None => Err(fault(FaultKind::BadWidth, value.place)),
    }
}

fn atomic_leaf(alloc: Global, value: Piece<'_>) -> Result<Leaf, Stop>
    ensures ok { IfOk result
        (λ leaf. atomic_leaf_of (piece_view value.entry) ≡ Ok (leaf_view leaf)) }
    ensures err { IfErr result
        (λ stop. IfFault stop
        (λ fault. atomic_leaf_of (piece_view value.entry) ≡ Err fault)) }
{
    if value.text == "ptr" {
        return Ok(has_line(alloc, "target_has_atomic", value.text)?);
    }
    match plain_size(alloc, value.text)? {
        Some(size) => Ok(has_line(alloc, "target_has_atomic", size.as_str())?),
        None => Err(fault(FaultKind::BadAtomic, value.place)),
    }
}

fn feature_leaf(alloc: Global, value: Piece<'_>) -> Result<Leaf, Stop>
    ensures ok { IfOk result
        (λ leaf. feature_leaf_of (piece_view value.entry) ≡ Ok (leaf_view leaf)) }
    ensures err { IfErr result
        (λ stop. IfFault stop
        (λ fault. feature_leaf_of (piece_view value.entry) ≡ Err fault)) }
{
    if value.text.is_empty() {
        return Err(fault(FaultKind::EmptyFeature, value.place));
    }
    Ok(Leaf::Feature(String::from_str(alloc, value.text)?))
}

/// The leaf that a key alone writes.
pub fn leaf_alone(alloc: Global, key: Piece<'_>) -> Result<Leaf, Stop>
    ensures ok { IfOk result (λ leaf. leaf_alone_of (piece_view key.entry) ≡ Ok (leaf_view leaf)) }
    ensures err { IfErr result
        (λ stop. IfFault stop
        (λ fault. leaf_alone_of (piece_view key.entry) ≡ Err fault)) }
{
    match KeyKind::of(key.text) {
        KeyKind::Family => Ok(has_line(alloc, "target_family", key.text)?),
        KeyKind::Never => Ok(Leaf::Never),
        KeyKind::Other => Ok(has_name(alloc, key.text)?),
        KeyKind::CrateFeature
        | KeyKind::Free
        | KeyKind::Endian
        | KeyKind::Width
        | KeyKind::Atomic
        | KeyKind::TargetFeature
        | KeyKind::UnknownTarget => Err(fault(FaultKind::ValueWanted, key.place)),
    }
}

/// The leaf that a key with a value writes.
pub fn leaf_with(alloc: Global, key: Piece<'_>, value: Piece<'_>) -> Result<Leaf, Stop>
    ensures ok { IfOk result
        (λ leaf. leaf_with_of (piece_view key.entry) (piece_view value.entry)
        ≡ Ok (leaf_view leaf)) }
    ensures err { IfErr result
        (λ stop. IfFault stop
        (λ fault. leaf_with_of (piece_view key.entry) (piece_view value.entry) ≡ Err fault)) }
{
    match KeyKind::of(key.text) {
        KeyKind::Family | KeyKind::Never => Err(fault(FaultKind::ValueNotAllowed, value.place)),
        KeyKind::CrateFeature | KeyKind::Other => Ok(Leaf::Never),
        KeyKind::Free => Ok(has_line(alloc, key.text, value.text)?),
        KeyKind::Endian => endian_leaf(alloc, value),
        KeyKind::Width => width_leaf(alloc, value),
        KeyKind::Atomic => atomic_leaf(alloc, value),
        KeyKind::TargetFeature => feature_leaf(alloc, value),
        KeyKind::UnknownTarget => Err(fault(FaultKind::UnknownTargetKey, key.place)),
    }
}
