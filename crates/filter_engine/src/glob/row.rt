//! Rows of parts, as a glob is and each branch of a group.
ghost use Rattle.std.specs.Prelude.{◌≡◌, ◌<◌, ◌≤◌, ◌+◌, true, false, length, drop, IfOk, IfErr};
ghost use Rattle.filter_engine.specs.Globs as globs;
ghost use Rattle.filter_engine.specs.GlobReading.{AddsBranch, AddsPattern, MatchesAny, NoGroup, NoRow, ReadsGroup, ReadsPiece, ReadsRow};
ghost use Rattle.filter_engine.specs.declared.glob.place.Place.TheVariants as places;

use crate::glob::class::read_class;
use crate::glob::fault::RowFault;
use crate::glob::part::{ends_row, read_part};
use crate::glob::pattern::part_pattern;
use crate::glob::place::Place;
use regex_hir::Hir;
use std::alloc::{AllocError, Global};

/// A part, a class or a group that is read: its pattern, if it is not empty, how many bytes write
/// it, and the place behind it.
#[derive(Drop)]
struct Piece {
    pattern: Option<Hir>,
    len: usize,
    place: Place,
}

/// The patterns of the row at the front of a text, and how many bytes write it, in a branch or in
/// none. So many levels of groups may still open.
///
/// # Errors
///
/// [`RowFault::Malformed`] where there is no row, and [`RowFault::Memory`] where memory ran
/// out.
#[cycle(rows)]
pub fn read_row(
    alloc: Global,
    text: &[u8],
    inside: bool,
    levels: u8,
) -> Result<(Vec<Hir>, usize), RowFault>
    ensures row { IfOk result
        (λ read. ReadsRow inside levels text.now read.0.items (drop read.1 text.now)) }
    ensures ends { IfOk result (λ read. (read.1 ≤ length text.now)
        × (globs.ends_row inside (drop read.1 text.now) ≡ true)) }
    ensures refused { IfErr result (NoRow inside levels places.Start text.now) }
{
    let mut patterns = Vec::new(alloc);
    let mut place = Place::Start;
    let mut at = 0;
    while !ends_row(inside, &text[at..]) {
        let piece = read_piece(alloc, &text[at..], inside, place, levels)?;
        add_pattern(&mut patterns, piece.pattern)?;
        place = piece.place;
        at += piece.len;
    }
    Ok((patterns, at))
}

// The piece at the front of a text before which no row ends.
#[cycle(rows)]
fn read_piece(
    alloc: Global,
    text: &[u8],
    inside: bool,
    place: Place,
    levels: u8,
) -> Result<Piece, RowFault>
    requires { globs.ends_row inside text.now ≡ false }
    ensures piece { IfOk result (λ piece.
        ReadsPiece inside levels place text.now piece.pattern piece.place (drop piece.len text.now)) }
    ensures len { IfOk result (λ piece. (0 < piece.len) × (piece.len ≤ length text.now)) }
    ensures refused { IfErr result (NoRow inside levels place text.now) }
{
    if text.len() == 0 {
        return Err(RowFault::Malformed);
    }
    if text[0] == b'{' && levels > 0 {
        let (group, len) = read_group(alloc, &text[1..], levels - 1)?;
        return Ok(Piece {
            pattern: group,
            len: len + 1,
            place: Place::Elsewhere,
        });
    }
    if text[0] == b'[' {
        let (class, len) = read_class(alloc, &text[1..])?;
        return Ok(Piece {
            pattern: Some(class),
            len: len + 1,
            place: Place::Elsewhere,
        });
    }
    let (part, len) = read_part(text, inside, place)?;
    let pattern = part_pattern(alloc, part)?;
    Ok(Piece {
        pattern: Some(pattern),
        len,
        place: place.behind(part),
    })
}

// The pattern of the group behind an opening brace, if one of its branches is not empty, and how
// many bytes write it, the closing brace among them.
#[cycle(rows)]
fn read_group(alloc: Global, text: &[u8], levels: u8) -> Result<(Option<Hir>, usize), RowFault>
    ensures group { IfOk result (λ read. ReadsGroup levels text.now read.0 (drop read.1 text.now)) }
    ensures len { IfOk result (λ read. read.1 ≤ length text.now) }
    ensures refused { IfErr result (NoGroup levels text.now) }
{
    let mut branches = Vec::new(alloc);
    let mut at = 0;
    loop {
        let (patterns, len) = read_row(alloc, &text[at..], true, levels)?;
        add_branch(&mut branches, patterns)?;
        at += len + 1;
        if text[at - 1] == b'}' {
            return Ok((any_of(branches), at));
        }
    }
}

// Adds the pattern of a piece, if there is one.
fn add_pattern(patterns: &mut Vec<Hir>, pattern: Option<Hir>) -> Result<(), AllocError>
    ensures { IfOk result (λ _. AddsPattern pattern patterns.old.items patterns.new.items) }
{
    if let Some(pattern) = pattern {
        patterns.push(pattern)?;
    }
    Ok(())
}

// Adds the pattern of a branch, if the branch is not empty.
fn add_branch(branches: &mut Vec<Hir>, patterns: Vec<Hir>) -> Result<(), AllocError>
    ensures { IfOk result (λ _. AddsBranch patterns.items branches.old.items branches.new.items) }
{
    if patterns.len() > 0 {
        branches.push(Hir::Concat(patterns))?;
    }
    Ok(())
}

// The pattern that matches what one of these does, if there is one.
fn any_of(branches: Vec<Hir>) -> Option<Hir>
    ensures { MatchesAny branches.items result }
{
    if branches.len() > 0 {
        Some(Hir::Alternation(branches))
    } else {
        None
    }
}
