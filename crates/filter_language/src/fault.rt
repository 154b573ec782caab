//! What is wrong with a text.
ghost use Rattle.std.specs.Prelude.{◌≡◌, Some};
ghost use Rattle.filter_language.specs.Messages.{ban_summary, ban_label, name, summary, label, message};

use std::alloc::AllocError;
use std::fmt;
use thiserror::Error;

/// A set that is not allowed where it appears.
#[derive(Clone, Copy, Debug, PartialEq, Eq)]
pub enum Ban {
    /// `default()` in a default filter.
    DefaultInDefaultFilter,
    /// `group(..)` in a default filter.
    GroupInDefaultFilter,
    /// `group(..)` in an override's filter.
    GroupInOverrideFilter,
}

/// What is wrong with a text.
#[derive(Clone, Copy, Debug, PartialEq, Eq)]
pub enum FaultKind {
    /// No operand where one is due.
    ExpectedExpr,
    /// A `not` or a parenthesis within 128 of them.
    TooDeeplyNested,
    /// No `(` behind a predicate's word.
    ExpectedOpenParenthesis,
    /// No `)` behind an argument or an operand in parentheses.
    ExpectedCloseParenthesis,
    /// An argument of a set that takes none.
    UnexpectedArgument,
    /// A further argument.
    UnexpectedComma,
    /// A text of no character.
    InvalidString,
    /// A `\` that begins no escape.
    InvalidEscapeCharacter,
    /// A malformed glob.
    InvalidGlob,
    /// A malformed regex.
    InvalidRegex,
    /// A glob or a regex that is too large.
    TooLarge,
    /// A regex without its closing `/`.
    ExpectedCloseRegex,
    /// A platform that is neither `host` nor `target`.
    InvalidPlatformArgument,
    /// `||` or `OR`.
    InvalidOrOperator,
    /// `&&` or `AND`.
    InvalidAndOperator,
    /// More than a filter.
    ExpectedEndOfExpression,
    /// A set that is not allowed in such a filter.
    BannedPredicate(Ban),
    /// `group(..)` where no test has a group.
    NoTestGroups,
    /// `deps(..)` or `rdeps(..)` without the package graph.
    NoPackageGraph,
}

/// A part of a text, in bytes.
#[derive(Clone, Copy, Debug, PartialEq, Eq)]
pub struct Span {
    pub start: usize,
    pub length: usize,
}

/// What is wrong with a text, and where.
#[derive(Clone, Copy, Debug, PartialEq, Eq)]
pub struct FiltersetFault {
    pub kind: FaultKind,
    pub span: Span,
}

/// Why a text was not read.
#[derive(Debug, Drop, Error)]
pub enum ParseFault {
    /// The text is not a filter of its kind.
    #[error("{0}")]
    Refused(FiltersetFault),
    /// A growth of memory was refused.
    #[error("out of memory")]
    Memory,
}

/// What is wrong from one place of a text until another. A place is what is left of the text from
/// there on.
#[derive(Clone, Copy)]
pub struct Misread<'a> {
    pub kind: FaultKind,
    pub from: &'a str,
    pub until: &'a str,
}

/// Why reading stopped.
#[derive(Drop)]
pub enum Stop<'a> {
    /// The text is not a filter.
    Misread(Misread<'a>),
    /// A growth of memory was refused.
    Memory,
}

impl From<AllocError> for Stop<'_> {
    ghost use Rattle.filter_language.specs.declared.fault.Stop.TheVariants.{Memory};

    ghost from_gives = { λ _ stop. stop ≡ Memory };

    fn from(_error: AllocError) -> Self {
        Stop::Memory
    }
}

impl<'a> Stop<'a> {
    /// What is wrong from one place until another.
    pub fn between(kind: FaultKind, from: &'a str, until: &'a str) -> Stop<'a>
        ensures { result
            ≡ Stop.Misread (record { kind = kind; from = from.entry; until = until.entry }) }
    {
        Stop::Misread(Misread { kind, from, until })
    }

    /// What is wrong at a place.
    pub fn at(kind: FaultKind, place: &'a str) -> Stop<'a>
        ensures { result
            ≡ Stop.Misread (record { kind = kind; from = place.entry; until = place.entry }) }
    {
        Stop::between(kind, place, place)
    }
}

impl Ban {
    /// What is wrong.
    fn summary(self) -> &'static str
        ensures { result.now ≡ ban_summary self }
    {
        match self {
            Ban::DefaultInDefaultFilter | Ban::GroupInDefaultFilter => {
                "predicate not allowed in `default-filter` expressions"
            }
            Ban::GroupInOverrideFilter => "predicate not allowed in `override-filter` expressions",
        }
    }

    /// Why it is wrong.
    fn label(self) -> &'static str
        ensures { result.now ≡ ban_label self }
    {
        match self {
            Ban::DefaultInDefaultFilter => "default() causes infinite recursion",
            Ban::GroupInDefaultFilter | Ban::GroupInOverrideFilter =>
                "group() depends on overrides",
        }
    }
}

impl FaultKind {
    /// Its name.
    pub fn name(self) -> &'static str
        ensures { result.now ≡ name self }
    {
        match self {
            FaultKind::ExpectedExpr => "ExpectedExpr",
            FaultKind::TooDeeplyNested => "TooDeeplyNested",
            FaultKind::ExpectedOpenParenthesis => "ExpectedOpenParenthesis",
            FaultKind::ExpectedCloseParenthesis => "ExpectedCloseParenthesis",
            FaultKind::UnexpectedArgument => "UnexpectedArgument",
            FaultKind::UnexpectedComma => "UnexpectedComma",
            FaultKind::InvalidString => "InvalidString",
            FaultKind::InvalidEscapeCharacter => "InvalidEscapeCharacter",
            FaultKind::InvalidGlob => "InvalidGlob",
            FaultKind::InvalidRegex => "InvalidRegex",
            FaultKind::TooLarge => "TooLarge",
            FaultKind::ExpectedCloseRegex => "ExpectedCloseRegex",
            FaultKind::InvalidPlatformArgument => "InvalidPlatformArgument",
            FaultKind::InvalidOrOperator => "InvalidOrOperator",
            FaultKind::InvalidAndOperator => "InvalidAndOperator",
            FaultKind::ExpectedEndOfExpression => "ExpectedEndOfExpression",
            FaultKind::BannedPredicate(_) => "BannedPredicate",
            FaultKind::NoTestGroups => "NoTestGroups",
            FaultKind::NoPackageGraph => "NoPackageGraph",
        }
    }

    /// What is wrong.
    fn summary(self) -> &'static str
        ensures { result.now ≡ summary self }
    {
        match self {
            FaultKind::ExpectedExpr => "expected expression",
            FaultKind::TooDeeplyNested => "expression nests too deep",
            FaultKind::ExpectedOpenParenthesis => "expected open parenthesis",
            FaultKind::ExpectedCloseParenthesis => "expected close parenthesis",
            FaultKind::UnexpectedArgument => "unexpected argument",
            FaultKind::UnexpectedComma => "unexpected comma",
            FaultKind::InvalidString => "invalid string",
            FaultKind::InvalidEscapeCharacter => "invalid escape character",
            FaultKind::InvalidGlob => "invalid glob",
            FaultKind::InvalidRegex => "invalid regex",
            FaultKind::TooLarge => "pattern too large",
            FaultKind::ExpectedCloseRegex => "expected close regex",
            FaultKind::InvalidPlatformArgument => "invalid argument for platform",
            FaultKind::InvalidOrOperator => "invalid OR operator",
            FaultKind::InvalidAndOperator => "invalid AND operator",
            FaultKind::ExpectedEndOfExpression => "expected end of expression",
            FaultKind::BannedPredicate(ban) => ban.summary(),
            FaultKind::NoTestGroups => "test groups are not known",
            FaultKind::NoPackageGraph => "the package graph is not known",
        }
    }

    /// Why a text is refused, in a few words: the label of its span.
    pub fn label(self) -> &'static str
        ensures { result.now ≡ label self }
    {
        match self {
            FaultKind::ExpectedExpr => "missing expression",
            FaultKind::TooDeeplyNested => "more than 128 levels",
            FaultKind::ExpectedOpenParenthesis => "missing `(`",
            FaultKind::ExpectedCloseParenthesis => "missing `)`",
            FaultKind::UnexpectedArgument => "this set doesn't take an argument",
            FaultKind::UnexpectedComma => "this set doesn't take multiple arguments",
            FaultKind::InvalidString => "invalid string",
            FaultKind::InvalidEscapeCharacter => "invalid escape character",
            FaultKind::InvalidGlob => "invalid glob",
            FaultKind::InvalidRegex => "invalid regex",
            FaultKind::TooLarge => "its automaton may have too many states",
            FaultKind::ExpectedCloseRegex => "missing `/`",
            FaultKind::InvalidPlatformArgument => "expected \"target\" or \"host\"",
            FaultKind::InvalidOrOperator => "expected `|`, `+`, or `or`",
            FaultKind::InvalidAndOperator => "expected `&` or `and`",
            FaultKind::ExpectedEndOfExpression => "unparsed input",
            FaultKind::BannedPredicate(ban) => ban.label(),
            FaultKind::NoTestGroups => "group() needs the test groups",
            FaultKind::NoPackageGraph => "this set needs the package graph",
        }
    }
}

impl fmt::Display for FiltersetFault {
    ghost output = { λ fault. Some (message fault) };

    fn fmt<W: fmt::Write>(&self, f: &mut fmt::Formatter<W>) -> fmt::Result {
        let summary = self.kind.summary();
        let label = self.kind.label();
        let start = self.span.start;
        let length = self.span.length;
        write!(f, "{summary}: {label} (offset {start}, length {length})")
    }
}
