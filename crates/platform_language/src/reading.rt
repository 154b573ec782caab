//! Reads bodies of expressions, mark by mark, with what is open on a stack of its own: no call
//! nests as deep as the text.
ghost use Rattle.std.specs.Prelude.{◌≡◌, ◌++◌, ◌∷◌, [], Ok, Err, IfOk, IfErr, map, option_map};
ghost use Rattle.platform_language.specs.Expressions.{expression_view};
ghost use Rattle.platform_language.specs.Faults.{IfFault};
ghost use Rattle.platform_language.specs.Leaves.{piece_view};
ghost use Rattle.platform_language.specs.Marks.{mark_view};
ghost use Rattle.platform_language.specs.Reading.{before_view, level_view, levels_view, reading_view, expected_after, ends_leaf, entered, opened_by, separated, closed, advanced, finished};
ghost use Rattle.platform_language.specs.Reading.{with_leaf as with_leaf_of, only_part as only_part_of, call as call_of, count_parts as count_parts_of, behind as behind_of, value_piece as value_piece_of, step as step_of, read_body as read_body_of};

use crate::expression::{Expression, Function};
use crate::fault::{Expected, FaultKind, Place, Stop, expecting, fault};
use crate::leaves::{Piece, leaf_alone, leaf_with};
use crate::marks::{Front, Mark, front_of};
use std::alloc::{AllocError, Global};

/// How many functions may be open at once.
const DEEPEST: usize = 128;

/// The mark that was read last, with what waits there for further ones.
#[derive(Clone, Copy, Debug)]
enum Before<'t> {
    /// No mark was read.
    Nothing,
    /// A function waits for its `(`.
    Function(Function, Place),
    Open,
    Comma,
    /// A key that is alone, unless `=` follows.
    Key(Piece<'t>),
    /// A key waits for its value.
    Equals(Piece<'t>),
    /// A key with its value.
    Value(Piece<'t>, Piece<'t>),
    Close,
}

/// A function that is open.
#[derive(Drop)]
struct Level {
    function: Function,
    /// Where its name is.
    name: Place,
    /// Where its `(` is.
    open: Place,
    /// The parts before it, of what is around it.
    outside: Vec<Expression>,
}

/// How far a body was read.
#[derive(Drop)]
struct Reader<'t> {
    before: Before<'t>,
    /// The parts so far of the innermost function that is open, or else of the body.
    parts: Vec<Expression>,
    /// The functions that are open, the innermost last.
    levels: Vec<Level>,
}

impl Before<'_> {
    /// What may follow.
    fn expected(self) -> Expected
        ensures { result ≡ expected_after (before_view self.entry) }
    {
        match self {
            Before::Nothing => Expected::Expression,
            Before::Function(_, _) => Expected::Parenthesis,
            Before::Open => Expected::FirstPart,
            Before::Comma => Expected::FurtherPart,
            Before::Key(_) => Expected::BehindKey,
            Before::Equals(_) => Expected::Value,
            Before::Value(_, _) => Expected::BehindValue,
            Before::Close => Expected::BehindClose,
        }
    }

    /// Whether a leaf ends here that is not judged yet.
    fn is_leaf(self) -> bool
        ensures { result ≡ ends_leaf (before_view self.entry) }
    {
        matches!(self, Before::Key(_) | Before::Value(_, _))
    }
}

/// The parts and one more.
fn with_part(parts: Vec<Expression>, part: Expression) -> Result<Vec<Expression>, AllocError>
    ensures { IfOk result (λ more. map expression_view more.items
        ≡ map expression_view parts.items ++ (expression_view part ∷ [])) }
{
    let mut parts = parts;
    parts.push(part)?;
    Ok(parts)
}

/// The functions that are open and one more.
fn with_level(levels: Vec<Level>, level: Level) -> Result<Vec<Level>, AllocError>
    ensures { IfOk result (λ more. levels_view more.items
        ≡ level_view level ∷ levels_view levels.items) }
{
    let mut levels = levels;
    levels.push(level)?;
    Ok(levels)
}

/// The parts with the leaf that ends here, if any.
fn with_leaf(
    alloc: Global,
    before: Before<'_>,
    parts: Vec<Expression>,
) -> Result<Vec<Expression>, Stop>
    ensures ok { IfOk result
        (λ more. with_leaf_of (before_view before.entry) (map expression_view parts.items)
        ≡ Ok (map expression_view more.items)) }
    ensures err { IfErr result
        (λ stop. IfFault stop
        (λ fault. with_leaf_of (before_view before.entry) (map expression_view parts.items)
        ≡ Err fault)) }
{
    match before {
        Before::Key(key) => {
            let leaf = leaf_alone(alloc, key)?;
            Ok(with_part(parts, Expression::Leaf(leaf))?)
        }
        Before::Value(key, value) => {
            let leaf = leaf_with(alloc, key, value)?;
            Ok(with_part(parts, Expression::Leaf(leaf))?)
        }
        Before::Nothing
        | Before::Function(_, _)
        | Before::Open
        | Before::Comma
        | Before::Equals(_)
        | Before::Close => Ok(parts),
    }
}

/// The only one of some parts.
fn only_part(parts: Vec<Expression>) -> Option<Expression>
    ensures { option_map expression_view result ≡ only_part_of (map expression_view parts.items) }
{
    let mut parts = parts;
    let part = parts.pop()?;
    if parts.is_empty() { Some(part) } else { None }
}

/// A function of parts, or `None` where it does not take so many.
fn call(
    alloc: Global,
    function: Function,
    parts: Vec<Expression>,
) -> Result<Option<Expression>, AllocError>
    ensures { IfOk result (λ part. option_map expression_view part
        ≡ call_of function (map expression_view parts.items)) }
{
    match function {
        Function::All => Ok(Some(Expression::All(parts))),
        Function::Any => Ok(Some(Expression::Any(parts))),
        Function::Not => match only_part(parts) {
            Some(part) => Ok(Some(Expression::Not(Box::new(alloc, part)?))),
            None => Ok(None),
        },
    }
}

/// A function's name.
#[tactic(auto, using(crate::proofs::Levels::levels_len))]
fn enter(reader: Reader<'_>, function: Function, place: Place) -> Result<Reader<'_>, Stop>
    ensures ok { IfOk result
        (λ next. entered function place (reading_view reader.entry) ≡ Ok (reading_view next)) }
    ensures err { IfErr result
        (λ stop. IfFault stop
        (λ fault. entered function place (reading_view reader.entry) ≡ Err fault)) }
{
    if reader.levels.len() >= DEEPEST {
        return Err(fault(FaultKind::TooDeep, place));
    }
    let Reader {
        before: _,
        parts,
        levels,
    } = reader;
    Ok(Reader {
        before: Before::Function(function, place),
        parts,
        levels,
    })
}

/// The `(` of a function.
fn open<'t>(
    alloc: Global,
    reader: Reader<'t>,
    function: Function,
    name: Place,
    place: Place,
) -> Result<Reader<'t>, Stop>
    ensures ok { IfOk result
        (λ next. opened_by function name place (reading_view reader.entry) ≡ reading_view next) }
    ensures err { IfErr result (λ stop. stop ≡ Stop.Memory) }
{
    let Reader {
        before: _,
        parts,
        levels,
    } = reader;
    let level = Level {
        function,
        name,
        open: place,
        outside: parts,
    };
    Ok(Reader {
        before: Before::Open,
        parts: Vec::new(alloc),
        levels: with_level(levels, level)?,
    })
}

/// A `,` behind what it may follow.
fn comma(alloc: Global, reader: Reader<'_>) -> Result<Reader<'_>, Stop>
    ensures ok { IfOk result
        (λ next. separated (reading_view reader.entry) ≡ Ok (reading_view next)) }
    ensures err { IfErr result
        (λ stop. IfFault stop
        (λ fault. separated (reading_view reader.entry) ≡ Err fault)) }
{
    let Reader {
        before,
        parts,
        levels,
    } = reader;
    Ok(Reader {
        before: Before::Comma,
        parts: with_leaf(alloc, before, parts)?,
        levels,
    })
}

/// How many parts there are, with the leaf that ends here.
fn count_parts(before: Before<'_>, parts: &[Expression]) -> usize
    ensures { result ≡ count_parts_of (before_view before.entry) (map expression_view parts.now) }
{
    if before.is_leaf() {
        parts.len() + 1
    } else {
        parts.len()
    }
}

/// A `)` behind what it may follow.
fn close(alloc: Global, reader: Reader<'_>, place: Place) -> Result<Reader<'_>, Stop>
    ensures ok { IfOk result
        (λ next. (let r = reading_view reader.entry in closed r.before r.parts r.levels place)
        ≡ Ok (reading_view next)) }
    ensures err { IfErr result
        (λ stop. IfFault stop
        (λ fault. (let r = reading_view reader.entry in closed r.before r.parts r.levels place)
        ≡ Err fault)) }
{
    let Reader {
        before,
        parts,
        levels,
    } = reader;
    let mut levels = levels;
    let Some(
        Level {
            function,
            name,
            open: _,
            outside,
        },
    ) = levels.pop()
    else {
        return Err(fault(FaultKind::UnopenedParens, place));
    };
    let whole = Place {
        from: name.from,
        to: place.to,
    };
    let count = count_parts(before, &parts);
    if function == Function::Not && count != 1 {
        return Err(fault(FaultKind::NotTakesOne(count), whole));
    }
    let parts = with_leaf(alloc, before, parts)?;
    let Some(part) = call(alloc, function, parts)? else {
        return Err(fault(FaultKind::NotTakesOne(count), whole));
    };
    Ok(Reader {
        before: Before::Close,
        parts: with_part(outside, part)?,
        levels,
    })
}

/// The same parts and functions behind another mark.
fn behind<'t>(reader: Reader<'t>, before: Before<'t>) -> Reader<'t>
    ensures { reading_view result
        ≡ behind_of (before_view before.entry) (reading_view reader.entry) }
{
    let Reader {
        before: _,
        parts,
        levels,
    } = reader;
    Reader {
        before,
        parts,
        levels,
    }
}

/// The piece between the quotes of a value.
fn value_piece(text: &str, place: Place) -> Piece<'_>
    ensures { piece_view result ≡ value_piece_of text.now place }
{
    let from = place.from.saturating_sub(1);
    Piece {
        text,
        place: Place {
            from,
            to: from.saturating_sub(text.len()),
        },
    }
}

/// One more mark.
fn step<'t>(
    alloc: Global,
    reader: Reader<'t>,
    mark: Mark<'t>,
    place: Place,
) -> Result<Reader<'t>, Stop>
    ensures ok { IfOk result
        (λ next. step_of (reading_view reader.entry) (mark_view mark.entry) place
        ≡ Ok (reading_view next)) }
    ensures err { IfErr result
        (λ stop. IfFault stop
        (λ fault. step_of (reading_view reader.entry) (mark_view mark.entry) place ≡ Err fault)) }
{
    match (reader.before, mark) {
        (Before::Nothing | Before::Open | Before::Comma, Mark::Name(text)) => {
            Ok(behind(reader, Before::Key(Piece { text, place })))
        }
        (Before::Nothing | Before::Open | Before::Comma, Mark::Function(function)) => {
            enter(reader, function, place)
        }
        (Before::Function(function, name), Mark::Open) => {
            open(alloc, reader, function, name, place)
        }
        (Before::Key(key), Mark::Equals) => Ok(behind(reader, Before::Equals(key))),
        (Before::Equals(key), Mark::Value(text)) => Ok(behind(
            reader,
            Before::Value(key, value_piece(text, place)),
        )),
        (Before::Comma | Before::Key(_) | Before::Value(_, _) | Before::Close, Mark::Comma) =>
            comma(alloc, reader),
        (
            Before::Open | Before::Comma | Before::Key(_) | Before::Value(_, _) | Before::Close,
            Mark::Close,
        ) => close(alloc, reader, place),
        (before, _) => Err(expecting(FaultKind::Unexpected, place, before.expected())),
    }
}

/// The mark that a text without blanks in front begins with, and the text behind it without blanks
/// in front.
#[tactic(auto, unfolding(crate::specs::Reading::advanced))]
fn advance<'t>(
    alloc: Global,
    reader: Reader<'t>,
    text: &'t str,
) -> Result<(Reader<'t>, &'t str), Stop>
    ensures ok { IfOk result
        (λ next. advanced (reading_view reader.entry) text.now
        ≡ Ok (reading_view next.0, next.1.now)) }
    ensures err { IfErr result
        (λ stop. IfFault stop
        (λ fault. advanced (reading_view reader.entry) text.now ≡ Err fault)) }
{
    match front_of(text) {
        Front::Mark(mark, behind) => {
            let place = Place {
                from: text.len(),
                to: behind.len(),
            };
            let next = step(alloc, reader, mark, place)?;
            Ok((next, behind.trim_start()))
        }
        Front::Unclosed => Err(fault(
            FaultKind::UnclosedQuotes,
            Place {
                from: text.len(),
                to: 0,
            },
        )),
        Front::Foreign => Err(expecting(
            FaultKind::ForeignCharacter,
            Place {
                from: text.len(),
                to: text.len().saturating_sub(1),
            },
            Expected::Expression,
        )),
    }
}

/// The expression that a body is of so many bytes, when all its marks were read.
fn finish(alloc: Global, reader: Reader<'_>, len: usize) -> Result<Expression, Stop>
    ensures ok { IfOk result
        (λ e. finished len (reading_view reader.entry) ≡ Ok (expression_view e)) }
    ensures err { IfErr result
        (λ stop. IfFault stop
        (λ fault. finished len (reading_view reader.entry) ≡ Err fault)) }
{
    let end = Place { from: 0, to: 0 };
    let body = Place { from: len, to: 0 };
    let Reader {
        before,
        parts,
        levels,
    } = reader;
    if let Before::Equals(_) = before {
        return Err(expecting(FaultKind::Unexpected, end, Expected::ValueAtEnd));
    }
    if let Before::Function(_, place) = before {
        return Err(expecting(FaultKind::Unexpected, place, Expected::Parenthesis));
    }
    if let Some(level) = levels.last() {
        return Err(fault(
            FaultKind::UnclosedParens,
            Place {
                from: level.open.from,
                to: 0,
            },
        ));
    }
    let parts = with_leaf(alloc, before, parts)?;
    if parts.is_empty() {
        return Err(fault(FaultKind::Empty, body));
    }
    only_part(parts).ok_or(fault(FaultKind::SeveralRoots, body))
}

/// The expression that a body is.
pub fn read_body(alloc: Global, body: &str) -> Result<Expression, Stop>
    ensures ok { IfOk result (λ e. read_body_of body.now ≡ Ok (expression_view e)) }
    ensures err { IfErr result (λ stop. IfFault stop (λ fault. read_body_of body.now ≡ Err fault)) }
{
    let mut reader = Reader {
        before: Before::Nothing,
        parts: Vec::new(alloc),
        levels: Vec::new(alloc),
    };
    let mut rest = body.trim_start();
    // Each mark has a byte, so there are no more marks than bytes.
    let mut left = body.len();
    while left > 0 && !rest.is_empty() {
        left -= 1;
        let (next, behind) = advance(alloc, reader, rest)?;
        reader = next;
        rest = behind;
    }
    finish(alloc, reader, body.len())
}
