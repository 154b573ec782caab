//! Classes of globs.
ghost use Rattle.std.specs.Prelude.{◌≡◌, ℕ, ◌<◌, ◌≤◌, ◌↔◌, List, [], ◌∷◌, ◌++◌, length, drop, IfOk, IfErr, IsTrue};
ghost use Rattle.regex_hir.specs.Meaning.{meaning};
ghost use Rattle.filter_engine.specs.Patterns.{MatchesKind, MeansRanges};
ghost use Rattle.filter_engine.specs.GlobClasses as classes;
ghost use Rattle.filter_engine.specs.GlobClasses.{BeginsWith, BeginsNegated, ClassTakes, EndsClass, NoBody, NoClass, ReadsItem, ReadsRanges, TakesItem, WritesNegation, WritesOneClass};

use crate::glob::fault::RowFault;
use regex_class::Class;
use regex_hir::Hir;
use std::alloc::{AllocError, Global};

/// What follows the first byte of a class.
#[derive(Clone, Copy)]
pub enum ClassItem {
    /// A byte of its own.
    Own(u8),
    /// The byte to which the range in front reaches: `-c`.
    Reach(u8),
}

/// The pattern of the class behind an opening bracket, and how many bytes write it, the closing
/// bracket among them.
///
/// # Errors
///
/// [`RowFault::Malformed`] where there is no class, and [`RowFault::Memory`] where memory
/// ran out.
pub fn read_class(alloc: Global, text: &[u8]) -> Result<(Hir, usize), RowFault>
    ensures class { IfOk result (λ read. (class : classes.GlobClass)
        × WritesOneClass text.now class (drop read.1 text.now)
        × MatchesKind (ClassTakes class) (meaning read.0)) }
    ensures len { IfOk result (λ read. read.1 ≤ length text.now) }
    ensures refused { IfErr result (NoClass text.now) }
{
    let (negated, sign) = read_sign(text);
    let (ranges, len) = read_ranges(alloc, &text[sign..])?;
    let pattern = class_pattern(ranges, negated)?;
    Ok((pattern, sign + len))
}

// Whether the sign of a negated class is at the front of a text, and how many bytes write it.
fn read_sign(text: &[u8]) -> (bool, usize)
    ensures sign { WritesNegation result.0 text.now (drop result.1 text.now) }
    ensures len { result.1 ≤ length text.now }
{
    if is_negated(text) {
        (true, 1)
    } else {
        (false, 0)
    }
}

// The pattern of the bytes in the ranges, or of the others.
fn class_pattern(ranges: Vec<(u32, u32)>, negated: bool) -> Result<Hir, AllocError>
    ensures { IfOk result (λ hir. MeansRanges negated ranges.items (meaning hir)) }
{
    let class = Class::new(ranges)?;
    if negated {
        return Ok(Hir::Bytes(class.negate(255)?));
    }
    Ok(Hir::Bytes(class))
}

fn is_negated(text: &[u8]) -> bool
    ensures { IsTrue result ↔ BeginsNegated text.now }
{
    begins_with(text, b'!') || begins_with(text, b'^')
}

// The ranges of the class, its sign left out, at the front of a text, and how many bytes write it.
fn read_ranges(alloc: Global, text: &[u8]) -> Result<(Vec<(u32, u32)>, usize), RowFault>
    ensures ranges { IfOk result
        (λ read. ReadsRanges text.now read.0.items (drop read.1 text.now)) }
    ensures len { IfOk result (λ read. read.1 ≤ length text.now) }
    ensures refused { IfErr result (NoBody text.now) }
{
    if text.len() == 0 || text[0] >= 128 {
        return Err(RowFault::Malformed);
    }
    let mut range = (text[0], text[0]);
    let mut ranges = Vec::new(alloc);
    let mut at = 1;
    while !begins_with(&text[at..], b']') {
        let (item, len) = read_item(&text[at..], range.0)?;
        range = take_item(&mut ranges, range, item)?;
        at += len;
    }
    add_range(&mut ranges, range)?;
    Ok((ranges, at + 1))
}

// The range that is open behind an item. A byte of its own adds the one that was.
fn take_item(
    ranges: &mut Vec<(u32, u32)>,
    range: (u8, u8),
    item: ClassItem,
) -> Result<(u8, u8), AllocError>
    ensures { IfOk result (λ next. TakesItem item range ranges.old.items ranges.new.items next) }
{
    match item {
        ClassItem::Own(byte) => {
            add_range(ranges, range)?;
            Ok((byte, byte))
        }
        ClassItem::Reach(byte) => Ok((range.0, byte)),
    }
}

fn add_range(ranges: &mut Vec<(u32, u32)>, range: (u8, u8)) -> Result<(), AllocError>
    ensures { IfOk result (λ _. ranges.new.items ≡ ranges.old.items ++ range ∷ []) }
{
    ranges.push((range.0 as u32, range.1 as u32))?;
    Ok(())
}

fn begins_with(text: &[u8], byte: u8) -> bool
    ensures { IsTrue result ↔ BeginsWith byte text.now }
{
    text.len() > 0 && text[0] == byte
}

// The item at the front of a text that begins with no closing bracket, and how many bytes write it,
// behind a range with this start.
fn read_item(text: &[u8], start: u8) -> Result<(ClassItem, usize), RowFault>
    requires { EndsClass text.now → ⊥ }
    ensures item { ReadsItem start text.now result }
    ensures len { IfOk result (λ read. (0 < read.1) × (read.1 ≤ length text.now)) }
{
    if text.len() == 0 || text[0] >= 128 {
        return Err(RowFault::Malformed);
    }
    if text[0] != b'-' || begins_with(&text[1..], b']') {
        return Ok((ClassItem::Own(text[0]), 1));
    }
    if text.len() < 2 || text[1] >= 128 || text[1] < start {
        return Err(RowFault::Malformed);
    }
    Ok((ClassItem::Reach(text[1]), 2))
}
