//! What is wrong with regular expressions, where that is plain.
ghost use Rattle.std.specs.Prelude.{◌≡◌, IfOk, string_bytes};
ghost use Rattle.rinqebo_faults.specs.Regexes.{end_flaw, flaw_expected, flaw_message, flaw_of, read, within, without};

use std::alloc::{AllocError, Global};

/// What is wrong with a regular expression.
#[derive(Clone, Copy)]
enum Flaw {
    /// A group is not closed.
    OpenGroup,
    /// A parenthesis closes no group.
    StrayClose,
    /// A class is not closed.
    OpenClass,
    /// A range of a class ends before it starts.
    Range(char, char),
}

/// What was read of a regular expression.
#[derive(Clone, Copy)]
struct Scan {
    /// How many groups are open.
    depth: usize,
    /// Whether a class is open.
    in_class: bool,
    /// Whether the last character was a backslash.
    is_escaped: bool,
    /// The last character of a class.
    last: Option<char>,
    /// The character with which a range of a class starts.
    from: Option<char>,
}

impl Scan {
    /// Reads a character of a class.
    #[tactic(auto, unfolding(crate::specs::Regexes::within))]
    fn within(self, c: char) -> Result<Scan, Flaw>
        ensures { result ≡ within self c }
    {
        let mut next = self;
        if c == '-' {
            next.from = self.last;
            next.last = None;
            return Ok(next);
        }
        next.in_class = c != ']';
        next.last = Some(c);
        next.from = None;
        match self.from {
            Some(from) if next.in_class && from > c => Err(Flaw::Range(from, c)),
            _ => Ok(next),
        }
    }

    /// Reads a character outside classes.
    #[tactic(auto, unfolding(crate::specs::Regexes::without))]
    fn without(self, c: char) -> Result<Scan, Flaw>
        ensures { result ≡ without self c }
    {
        let mut next = self;
        if c == '[' {
            next.in_class = true;
            next.last = None;
            next.from = None;
        } else if c == '(' {
            next.depth = self.depth.saturating_add(1);
        } else if c == ')' {
            if self.depth == 0 {
                return Err(Flaw::StrayClose);
            }
            next.depth = self.depth.saturating_sub(1);
        }
        Ok(next)
    }

    /// Reads a character.
    #[tactic(auto, unfolding(crate::specs::Regexes::read))]
    fn read(self, c: char) -> Result<Scan, Flaw>
        ensures { result ≡ read self c }
    {
        let mut next = self;
        if self.is_escaped || c == '\\' {
            next.is_escaped = !self.is_escaped;
            next.last = None;
            next.from = None;
            return Ok(next);
        }
        if self.in_class {
            self.within(c)
        } else {
            self.without(c)
        }
    }

    /// What is wrong at the end.
    #[tactic(auto, unfolding(crate::specs::Regexes::end_flaw))]
    fn end(self) -> Option<Flaw>
        ensures { result ≡ end_flaw self }
    {
        if self.in_class {
            return Some(Flaw::OpenClass);
        }
        if self.depth > 0 {
            return Some(Flaw::OpenGroup);
        }
        None
    }
}

/// What is wrong with a regular expression, where that is plain.
fn flaw_of(pattern: &str) -> Option<Flaw>
    ensures { result ≡ flaw_of pattern.now }
{
    let mut scan = Scan {
        depth: 0,
        in_class: false,
        is_escaped: false,
        last: None,
        from: None,
    };
    for c in pattern.chars() {
        match scan.read(c) {
            Ok(next) => scan = next,
            Err(flaw) => return Some(flaw),
        }
    }
    scan.end()
}

/// A flaw of a regular expression, in words.
fn flaw_message(alloc: Global, pattern: &str, flaw: Option<Flaw>) -> Result<String, AllocError>
    ensures { IfOk result (λ message. string_bytes message ≡ flaw_message pattern.now flaw) }
{
    match flaw {
        Some(Flaw::OpenGroup) => { format!(in alloc; "`{pattern}` has a group that is not closed") }
        Some(Flaw::StrayClose) => {
            format!(in alloc; "`{pattern}` has a `)` that closes no group")
        }
        Some(Flaw::OpenClass) => { format!(in alloc; "`{pattern}` has a class that is not closed") }
        Some(Flaw::Range(from, to)) => {
            format!(in alloc; "the range `{from}-{to}` ends before it starts")
        }
        None => format!(in alloc; "`{pattern}` is not a regular expression"),
    }
}

/// What is expected in place of a regular expression that is refused.
fn flaw_expected(flaw: Option<Flaw>) -> &'static str
    ensures { result.now ≡ flaw_expected flaw }
{
    match flaw {
        Some(Flaw::OpenGroup) => "a regular expression with a closing `)`",
        Some(Flaw::StrayClose) => "a regular expression with a `(` for each `)`",
        Some(Flaw::OpenClass) => "a regular expression with a closing `]`",
        Some(Flaw::Range(_, _)) => "a regular expression whose ranges ascend",
        None => "a regular expression",
    }
}

/// What is wrong with a regular expression that is refused, and what is expected instead.
pub fn regex_fault(alloc: Global, pattern: &str) -> Result<(String, &'static str), AllocError>
    ensures message { IfOk result (λ fault. string_bytes fault.0
        ≡ flaw_message pattern.now (flaw_of pattern.now)) }
    ensures expected { IfOk result (λ fault. fault.1.now ≡ flaw_expected (flaw_of pattern.now)) }
{
    let flaw = flaw_of(pattern);
    let message = flaw_message(alloc, pattern, flaw)?;
    Ok((message, flaw_expected(flaw)))
}
