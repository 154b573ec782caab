//! Reads the texts of filters. Each atom ends with the next `)`, so a text is read by the pieces
//! before each.
ghost use Rattle.std.specs.Prelude.{◌≡◌, ◌<◌, ◌∷◌, [], length, None, Some, Ok, IfOk, IfSome, MatchOption, option_map};
ghost use Rattle.std.specs.List.{list_all};
ghost use Rattle.nextest_explain.specs.Engines.FilterValues.{Filter, atom_of, term_of};
ghost use Rattle.nextest_explain.specs.Engines.FilterTexts.{is_no_parenthesis, name_after, atom_in, term_in, parts_so_far, joined_piece, pieces, filter_in, reading_view, SpellsFilter};
ghost use Rattle.nextest_explain.specs.Engines.FilterTexts.{is_name as name_test};

use crate::engines::expr::{Leaf, Term};
use crate::engines::texts::after;
use std::alloc::{AllocError, Global};

/// What was read so far: the lists of terms that are complete, and the last one.
#[derive(Drop)]
struct Alternatives {
    complete: Vec<Vec<Term>>,
    last: Vec<Term>,
}

/// What a text is read as.
#[derive(Drop)]
pub enum Reading<'a> {
    /// The lists of terms of a filter.
    Filter(Vec<Vec<Term>>),
    /// No filter: the text breaks at this piece, which ends before the next `)`.
    BreaksAt(&'a str),
}

fn lacks_parentheses(text: &str) -> bool
    ensures { result ≡ list_all is_no_parenthesis text.now }
{
    text.as_bytes()
        .iter()
        .all(|byte| *byte != b'(' && *byte != b')')
}

fn is_name(text: &str) -> bool
    ensures { result ≡ name_test text.now }
{
    !text.is_empty() && lacks_parentheses(text)
}

/// The name that follows a prefix.
fn name_behind<'a>(prefix: &str, piece: &'a str) -> Option<&'a str>
    ensures { MatchOption result (name_after prefix.now piece.now ≡ None)
        (λ name. name_after prefix.now piece.now ≡ Some name.now) }
{
    let name = after(prefix, piece)?;
    if is_name(name) { Some(name) } else { None }
}

/// The leaf that a piece writes.
fn read_leaf(alloc: Global, piece: &str) -> Result<Option<Leaf>, AllocError>
    ensures { IfOk result (λ leaf. option_map atom_of leaf ≡ atom_in piece.now) }
{
    if piece == "all(" {
        return Ok(Some(Leaf::All));
    }
    if piece == "none(" {
        return Ok(Some(Leaf::Nothing));
    }
    if piece == "default(" {
        return Ok(Some(Leaf::Default));
    }
    if let Some(part) = name_behind("test(", piece) {
        return Ok(Some(Leaf::Test(String::from_str(alloc, part)?)));
    }
    if let Some(id) = name_behind("binary_id(", piece) {
        return Ok(Some(Leaf::BinaryId(String::from_str(alloc, id)?)));
    }
    Ok(None)
}

/// The term that a piece writes.
fn read_term(alloc: Global, piece: &str) -> Result<Option<Term>, AllocError>
    ensures { IfOk result (λ term. option_map term_of term ≡ term_in piece.now) }
{
    let mut negations = 0;
    let mut rest = piece;
    while let Some(behind) = after("not ", rest) {
        negations += 1;
        rest = behind;
    }
    match read_leaf(alloc, rest)? {
        Some(leaf) => Ok(Some(Term { negations, leaf })),
        None => Ok(None),
    }
}

/// What was read with one more piece.
fn read_joined(
    alloc: Global,
    before: Alternatives,
    piece: &str,
) -> Result<Option<Alternatives>, AllocError>
    ensures { IfOk result (λ more.
        option_map parts_so_far more ≡ joined_piece (parts_so_far before) piece.now) }
{
    let Alternatives {
        mut complete,
        mut last,
    } = before;
    if let Some(text) = after(" and ", piece) {
        let Some(term) = read_term(alloc, text)? else {
            return Ok(None);
        };
        last.push(term)?;
        return Ok(Some(Alternatives { complete, last }));
    }
    let Some(text) = after(" or ", piece) else {
        return Ok(None);
    };
    let Some(term) = read_term(alloc, text)? else {
        return Ok(None);
    };
    complete.push(last)?;
    let last = vec![in alloc; term]?;
    Ok(Some(Alternatives { complete, last }))
}

/// What is before the first `)` of a text, and behind it.
fn cut(text: &str) -> Option<(&str, &str)>
    ensures parts { MatchOption result (pieces text.now ≡ text.now ∷ [])
        (λ parts. pieces text.now ≡ parts.0.now ∷ pieces parts.1.now) }
    ensures shorter { IfSome result (λ parts. length parts.1.now < length text.now) }
{
    text.split_once(')')
}

/// Reads the lists of terms that a text writes.
pub fn read_filter<'a>(alloc: Global, text: &'a str) -> Result<Reading<'a>, AllocError>
    ensures { IfOk result (λ reading. reading_view reading ≡ filter_in text.now) }
{
    let Some((piece, mut rest)) = cut(text) else {
        return Ok(Reading::BreaksAt(text));
    };
    let Some(term) = read_term(alloc, piece)? else {
        return Ok(Reading::BreaksAt(piece));
    };
    let mut read = Alternatives {
        complete: Vec::new(alloc),
        last: vec![in alloc; term]?,
    };
    while let Some((piece, behind)) = cut(rest) {
        let Some(more) = read_joined(alloc, read, piece)? else {
            return Ok(Reading::BreaksAt(piece));
        };
        read = more;
        rest = behind;
    }
    if !rest.is_empty() {
        return Ok(Reading::BreaksAt(rest));
    }
    let Alternatives { mut complete, last } = read;
    complete.push(last)?;
    Ok(Reading::Filter(complete))
}

/// Each filter that is read from a text is spelled by it.
pub fn law_grammar(text: &str)
    ensures { (filter : Filter) → filter_in text.now ≡ Ok filter → SpellsFilter text.now filter }
{
    let _text = text;
}
