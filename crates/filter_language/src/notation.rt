//! A filter in prefix notation, as `(or all (not (test .~ "a")))`.
ghost use Rattle.std.specs.Prelude.{◌<◌, length, IfSome};

use crate::filterset::Filterset;
use crate::mark::{Mark, Match, Question};
use crate::words::Sign;
use nextest_engines::BuildPlatform;
use std::fmt;

impl fmt::Display for Sign {
    fn fmt<W: fmt::Write>(&self, f: &mut fmt::Formatter<W>) -> fmt::Result {
        f.write_str(match self {
            Sign::Equal => "=",
            Sign::Contains => "~",
            Sign::Glob => "#",
            Sign::Regex => "/",
        })
    }
}

/// A text in double quotes.
#[derive(Clone, Copy)]
struct Quoted<'a>(&'a str);

impl fmt::Display for Quoted<'_> {
    fn fmt<W: fmt::Write>(&self, f: &mut fmt::Formatter<W>) -> fmt::Result {
        f.write_str("\"")?;
        for character in self.0.chars() {
            match character {
                '\n' => f.write_str("\\n")?,
                '\r' => f.write_str("\\r")?,
                '\t' => f.write_str("\\t")?,
                '"' => f.write_str("\\\"")?,
                '\\' => f.write_str("\\\\")?,
                other => f.write_char(other)?,
            }
        }
        f.write_str("\"")
    }
}

impl<M> fmt::Display for Match<M> {
    fn fmt<W: fmt::Write>(&self, f: &mut fmt::Formatter<W>) -> fmt::Result {
        let dot = if self.is_default { "." } else { "" };
        let text = Quoted(self.text.as_str());
        write!(f, "({} {dot}{} {text})", self.field.word(), self.sign)
    }
}

impl<M> fmt::Display for Question<M> {
    fn fmt<W: fmt::Write>(&self, f: &mut fmt::Formatter<W>) -> fmt::Result {
        match self {
            Question::All => f.write_str("all"),
            Question::Nothing => f.write_str("none"),
            Question::Default => f.write_str("default"),
            Question::Platform(BuildPlatform::Host) => f.write_str("host"),
            Question::Platform(BuildPlatform::Target) => f.write_str("target"),
            Question::Matches(matching) => write!(f, "{matching}"),
        }
    }
}

/// The place of the last operator in no parentheses of which something is true.
fn last_joint<M>(marks: &[Mark<M>], is_or: bool) -> Option<usize>
    ensures { IfSome result (λ place. place < length marks.now) }
{
    let mut open: usize = 0;
    let mut last = None;
    for (place, mark) in marks.iter().enumerate() {
        match mark {
            Mark::Open => open = open.saturating_add(1),
            Mark::Close => open = open.saturating_sub(1),
            Mark::Or if open == 0 && is_or => last = Some(place),
            Mark::And | Mark::Minus if open == 0 && !is_or => last = Some(place),
            Mark::Predicate(_) | Mark::Not | Mark::And | Mark::Or | Mark::Minus => {}
        }
    }
    last
}

/// The sides of an operator, as `or` where it is one.
#[cycle(marks)]
fn write_joint<M, W: fmt::Write>(
    marks: &[Mark<M>],
    place: usize,
    word: &str,
    f: &mut fmt::Formatter<W>,
) -> fmt::Result
    requires { place < length marks.now }
{
    write!(f, "({word} ")?;
    write_marks(&marks[..place], f)?;
    f.write_str(" ")?;
    write_marks(&marks[place + 1..], f)?;
    f.write_str(")")
}

/// Marks in prefix notation.
#[cycle(marks)]
fn write_marks<M, W: fmt::Write>(marks: &[Mark<M>], f: &mut fmt::Formatter<W>) -> fmt::Result {
    if let Some(place) = last_joint(marks, true) {
        return write_joint(marks, place, "or", f);
    }
    if let Some(place) = last_joint(marks, false) {
        let word = match marks[place] {
            Mark::And => "and",
            _ => "minus",
        };
        return write_joint(marks, place, word, f);
    }
    match marks {
        [Mark::Predicate(question)] => write!(f, "{question}"),
        [Mark::Not, operand @ ..] => {
            f.write_str("(not ")?;
            write_marks(operand, f)?;
            f.write_str(")")
        }
        [Mark::Open, inside @ .., Mark::Close] => {
            f.write_str("(par ")?;
            write_marks(inside, f)?;
            f.write_str(")")
        }
        _ => Ok(()),
    }
}

impl<M> fmt::Display for Filterset<M> {
    fn fmt<W: fmt::Write>(&self, f: &mut fmt::Formatter<W>) -> fmt::Result {
        match self {
            Filterset::Everything => f.write_str("all"),
            Filterset::Marks(marks) => write_marks(&marks.marks, f),
        }
    }
}
