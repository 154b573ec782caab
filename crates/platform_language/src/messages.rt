//! The message of a fault.
ghost use Rattle.std.specs.Prelude.{◌≡◌, Some};
ghost use Rattle.platform_language.specs.Messages.{expected_label, kind_label, label_of, message, words as words_of, subject as subject_of};

use crate::fault::{Expected, FaultKind, TargetSpecFault};
use std::fmt::{Display, Error, Formatter, Write};

impl Expected {
    /// What is allowed there, with blanks between.
    pub fn words(self) -> &'static str
        ensures { result.now ≡ words_of self }
    {
        match self {
            Expected::Expression => "<key> all any not",
            Expected::Parenthesis => "(",
            Expected::FirstPart => "<key> ) all any not",
            Expected::FurtherPart => ") <key>",
            Expected::BehindKey => "= , )",
            Expected::Value => "\"",
            Expected::ValueAtEnd => "\"<value>\"",
            Expected::BehindValue => ", )",
            Expected::BehindClose => ") ,",
        }
    }

    /// The message if something else is there.
    fn label(self) -> &'static str
        ensures { result.now ≡ expected_label self }
    {
        match self {
            Expected::Expression => "expected one of `<key>`, `all`, `any`, `not` here",
            Expected::Parenthesis => "expected a `(` here",
            Expected::FirstPart => "expected one of `<key>`, `)`, `all`, `any`, `not` here",
            Expected::FurtherPart => "expected one of `)`, `<key>` here",
            Expected::BehindKey => "expected one of `=`, `,`, `)` here",
            Expected::Value => "expected a `\"` here",
            Expected::ValueAtEnd => "expected a `\"<value>\"` here",
            Expected::BehindValue => "expected one of `,`, `)` here",
            Expected::BehindClose => "expected one of `)`, `,` here",
        }
    }
}

impl FaultKind {
    /// The message for it, if nothing else is expected.
    fn label(self) -> &'static str
        ensures { result.now ≡ kind_label self }
    {
        match self {
            FaultKind::EmptyText => "expected a triple or `cfg(`",
            FaultKind::BadTripleCharacter => "expected a letter, a digit, `_`, `-` or `.`",
            FaultKind::ForeignCharacter => "foreign character",
            FaultKind::UnclosedQuotes => "unclosed quotes",
            FaultKind::Unexpected => "unexpected",
            FaultKind::UnopenedParens => "unopened parentheses",
            FaultKind::UnclosedParens => "unclosed parentheses",
            FaultKind::NotTakesOne(_) => "`not` takes one part",
            FaultKind::Empty => "expected an expression",
            FaultKind::SeveralRoots => "expected one expression, and not several",
            FaultKind::TooDeep => "functions nest more than 128 deep",
            FaultKind::ValueWanted => "expected `= \"<value>\"` behind this key",
            FaultKind::UnknownTargetKey => "unknown key",
            FaultKind::ValueNotAllowed => "this key takes no value",
            FaultKind::EmptyFeature => "expected a feature",
            FaultKind::BadEndian => "expected `big` or `little`",
            FaultKind::BadWidth => "expected a number to 255",
            FaultKind::BadAtomic => "expected `ptr` or a number to 65535",
        }
    }

    /// Of what kind of text it is a fault.
    fn subject(self) -> &'static str
        ensures { result.now ≡ subject_of self }
    {
        match self {
            FaultKind::EmptyText | FaultKind::BadTripleCharacter => "invalid triple",
            _ => "error parsing cfg() expression",
        }
    }
}

impl TargetSpecFault {
    /// Its message, without its place.
    pub fn label(&self) -> &'static str
        ensures { result.now ≡ label_of self.now.kind self.now.expected }
    {
        match (self.kind, self.expected) {
            (FaultKind::Unexpected, Some(expected)) => expected.label(),
            (kind, _) => kind.label(),
        }
    }
}

impl Display for TargetSpecFault {
    ghost output = { λ fault. Some (message fault) };

    fn fmt<W: Write>(&self, f: &mut Formatter<W>) -> Result<(), Error> {
        let subject = self.kind.subject();
        let label = self.label();
        let start = self.span.start;
        let end = self.span.end;
        write!(f, "{subject}: {label} at bytes {start}..{end}")
    }
}
