//! Why a text is not a spec.
ghost use Rattle.std.specs.Prelude.{◌≡◌};
ghost use Rattle.platform_language.specs.Faults.{in_text, fault_at, expecting_at};

use std::alloc::AllocError;

/// Why a text is not a spec, by name.
#[derive(Clone, Copy, Debug, PartialEq, Eq)]
pub enum FaultKind {
    /// The text is empty.
    EmptyText,
    /// A byte is not allowed in a triple.
    BadTripleCharacter,
    /// A character begins no mark.
    ForeignCharacter,
    /// A `"` has no second one.
    UnclosedQuotes,
    /// A mark, or the end, is not allowed there.
    Unexpected,
    /// A `)` ends nothing.
    UnopenedParens,
    /// A `(` is not ended.
    UnclosedParens,
    /// A `not` has this many parts.
    NotTakesOne(usize),
    /// There is no expression.
    Empty,
    /// There are several expressions, and nothing joins them.
    SeveralRoots,
    /// Functions are nested too deep.
    TooDeep,
    /// A key needs a value.
    ValueWanted,
    /// A key begins `target_` and is not known.
    UnknownTargetKey,
    /// A key takes no value.
    ValueNotAllowed,
    /// A feature has no name.
    EmptyFeature,
    /// An endianness is neither `big` nor `little`.
    BadEndian,
    /// A width is not a number up to 255.
    BadWidth,
    /// An atomic is neither `ptr` nor a number to 65535.
    BadAtomic,
}

/// What is allowed where something else is.
#[derive(Clone, Copy, Debug, PartialEq, Eq)]
pub enum Expected {
    /// An expression.
    Expression,
    /// The `(` of a function.
    Parenthesis,
    /// A first part, or `)`.
    FirstPart,
    /// One more part, or `)`.
    FurtherPart,
    /// What follows a key.
    BehindKey,
    /// The value behind `=`.
    Value,
    /// The value behind `=`, at the end.
    ValueAtEnd,
    /// What follows a value.
    BehindValue,
    /// What follows a `)`.
    BehindClose,
}

/// A part of a text, by bytes.
#[derive(Clone, Copy, Debug, PartialEq, Eq)]
pub struct Span {
    /// How many bytes are before it.
    pub start: usize,
    /// How many bytes are before its end.
    pub end: usize,
}

/// Why a text is not a spec, and where.
#[derive(Clone, Copy, Debug, PartialEq, Eq, Drop)]
pub struct TargetSpecFault {
    /// Why it is none.
    pub kind: FaultKind,
    /// The part of the text that is at fault.
    pub span: Span,
    /// What is allowed there, where something else is.
    pub expected: Option<Expected>,
}

/// Where something is in a body: how many bytes are left where it begins and where it ends.
#[derive(Clone, Copy, Debug)]
pub struct Place {
    pub from: usize,
    pub to: usize,
}

/// Why a body is not an expression, and where.
#[derive(Clone, Copy, Debug, Drop)]
pub struct BodyFault {
    pub kind: FaultKind,
    pub place: Place,
    pub expected: Option<Expected>,
}

/// Why a body was not read.
#[derive(Debug, Drop)]
pub enum Stop {
    Fault(BodyFault),
    Memory,
}

impl From<AllocError> for Stop {
    ghost use Rattle.platform_language.specs.declared.fault.Stop.TheVariants.{Memory};

    ghost from_gives = { λ _ stop. stop ≡ Memory };

    fn from(_error: AllocError) -> Stop {
        Stop::Memory
    }
}

impl BodyFault {
    /// The fault of a text of so many bytes.
    pub fn in_text(self, len: usize) -> TargetSpecFault
        ensures { result ≡ in_text len self }
    {
        let last = len.saturating_sub(1);
        TargetSpecFault {
            kind: self.kind,
            span: Span {
                start: last.saturating_sub(self.place.from),
                end: last.saturating_sub(self.place.to),
            },
            expected: self.expected,
        }
    }
}

/// A fault at a place.
pub fn fault(kind: FaultKind, place: Place) -> Stop
    ensures { result ≡ Stop.Fault (fault_at kind place) }
{
    Stop::Fault(BodyFault {
        kind,
        place,
        expected: None,
    })
}

/// A fault at a place where something else is allowed.
pub fn expecting(kind: FaultKind, place: Place, expected: Expected) -> Stop
    ensures { result ≡ Stop.Fault (expecting_at kind place expected) }
{
    Stop::Fault(BodyFault {
        kind,
        place,
        expected: Some(expected),
    })
}
