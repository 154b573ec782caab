//! What may come next in a text.
ghost use Rattle.std.specs.Prelude.{◌≡◌, List, [], OnOk, Some};
ghost use Rattle.std.specs.Bool.{OnTrue};
ghost use Rattle.nextest_places.specs.Spans.Nesting.{IsCloseIn, NestsAs, last_of};

use crate::spans::lens::{
    bare_len, blank_len, is_multi, line_string_len, multi_string_len, word_len,
};
use crate::spans::token::{Container, TokenKind};
use std::alloc::{AllocError, Global};
use toml_parser::bytes::is_bare;
use toml_parser::starts_string;
use toml_parser::text::{byte_at, first};

/// The first of the three bytes of a byte order mark.
const BYTE_ORDER_MARK: u8 = 0xEF;

/// A token whose text is not looked into.
#[derive(Clone, Copy)]
pub(crate) enum Raw {
    TableHeader,
    ElementHeader,
    Key,
    Dotted,
    Open(Container),
    Close(Container),
    String,
    Word,
    /// What is between tokens.
    Gap,
    /// What is in no place of a token.
    Other,
}

/// What begins a text.
#[derive(Clone, Copy)]
pub(crate) struct Front {
    pub(crate) raw: Raw,
    /// How many bytes it takes.
    pub(crate) len: usize,
}

/// What comes next.
#[derive(Clone, Copy)]
enum Next {
    /// An expression, at the start of a line.
    Expression,
    /// A part of a header's key, or what is behind it.
    Header,
    /// A part of a pair's key, or what is behind it.
    Key,
    /// A value.
    Value,
    /// What is behind a value.
    Behind,
}

/// What was read of a text.
#[derive(Drop)]
pub(crate) struct State {
    next: Next,
    /// Whether a dot is right before, so that a part continues a key.
    is_dotted: bool,
    /// The lists and tables that are not closed, from the outermost.
    nest: Vec<Container>,
}

impl State {
    /// The start of a text.
    pub(crate) fn new(alloc: Global) -> State
        ensures { result.nest.items ≡ [] }
    {
        State {
            next: Next::Expression,
            is_dotted: false,
            nest: Vec::new(alloc),
        }
    }

    /// Whether the key that is read is a header's.
    pub(crate) fn is_header(&self) -> bool {
        match self.next {
            Next::Header => true,
            Next::Expression | Next::Key | Next::Value | Next::Behind => false,
        }
    }

    /// What begins the rest of the text.
    pub(crate) fn take(&mut self, text: &str) -> Front
        ensures nest { self.new.nest ≡ self.old.nest }
        ensures closes { IsCloseIn self.old.nest.items result.raw }
    {
        let blank = blank_len(text);
        if byte_at(text, blank) == b'\n' {
            if self.nest.is_empty() {
                self.next = Next::Expression;
                self.is_dotted = false;
            }
            return gap(blank.saturating_add(1));
        }
        if blank > 0 {
            return gap(blank);
        }
        match self.next {
            Next::Expression => self.expression(text),
            Next::Header => self.header(text),
            Next::Key => self.key(text),
            Next::Value => self.value(text),
            Next::Behind => self.behind(text),
        }
    }

    /// A header, or a key.
    fn expression(&mut self, text: &str) -> Front
        ensures nest { self.new.nest ≡ self.old.nest }
        ensures closes { IsCloseIn self.old.nest.items result.raw }
    {
        if first(text) == BYTE_ORDER_MARK {
            return piece(Raw::Other, 3);
        }
        if first(text) != b'[' {
            self.next = Next::Key;
            return self.key(text);
        }
        self.next = Next::Header;
        if byte_at(text, 1) == b'[' {
            piece(Raw::ElementHeader, 2)
        } else {
            piece(Raw::TableHeader, 1)
        }
    }

    /// A part of a header's key. Behind the closing bracket nothing is read up to the line's end.
    fn header(&mut self, text: &str) -> Front
        ensures nest { self.new.nest ≡ self.old.nest }
        ensures closes { IsCloseIn self.old.nest.items result.raw }
    {
        if let Some(len) = part_len(text) {
            return self.part(len);
        }
        self.is_dotted = first(text) == b'.';
        if first(text) == b']' {
            self.next = Next::Behind;
        }
        gap(1)
    }

    /// A part of a pair's key, or the sign behind it. A table's end closes it.
    fn key(&mut self, text: &str) -> Front
        ensures nest { self.new.nest ≡ self.old.nest }
        ensures closes { IsCloseIn self.old.nest.items result.raw }
    {
        if let Some(len) = part_len(text) {
            return self.part(len);
        }
        self.is_dotted = first(text) == b'.';
        match first(text) {
            b'=' => {
                self.next = Next::Value;
                gap(1)
            }
            b'}' => self.close(Container::Table),
            _ => gap(1),
        }
    }

    /// A part of a key.
    fn part(&mut self, len: usize) -> Front
        ensures nest { self.new.nest ≡ self.old.nest }
        ensures closes { IsCloseIn self.old.nest.items result.raw }
    {
        let raw = if self.is_dotted {
            Raw::Dotted
        } else {
            Raw::Key
        };
        self.is_dotted = false;
        piece(raw, len)
    }

    /// A value, or the end of the list that was to hold it.
    fn value(&mut self, text: &str) -> Front
        ensures nest { self.new.nest ≡ self.old.nest }
        ensures closes { IsCloseIn self.old.nest.items result.raw }
    {
        match first(text) {
            b'[' => self.opened(Container::List, Next::Value),
            b'{' => self.opened(Container::Table, Next::Key),
            b']' | b'}' | b',' => self.behind(text),
            _ => {
                self.next = Next::Behind;
                scalar(text)
            }
        }
    }

    /// What separates values or closes what holds them.
    fn behind(&mut self, text: &str) -> Front
        ensures nest { self.new.nest ≡ self.old.nest }
        ensures closes { IsCloseIn self.old.nest.items result.raw }
    {
        match first(text) {
            b']' => self.close(Container::List),
            b'}' => self.close(Container::Table),
            b',' => {
                self.next = match self.nest.last() {
                    Some(Container::List) => Next::Value,
                    Some(Container::Table) => Next::Key,
                    None => Next::Behind,
                };
                gap(1)
            }
            _ => piece(Raw::Other, word_len(text)),
        }
    }

    /// A list or a table that opens, with what comes next in it.
    fn opened(&mut self, container: Container, next: Next) -> Front
        ensures nest { self.new.nest ≡ self.old.nest }
        ensures closes { IsCloseIn self.old.nest.items result.raw }
    {
        self.next = next;
        piece(Raw::Open(container), 1)
    }

    /// Whether the innermost that is open is such a one.
    fn is_innermost(&self, container: Container) -> bool
        ensures { OnTrue result (last_of self.now.nest.items ≡ Some container) }
    {
        match self.nest.last() {
            Some(last) => *last == container,
            None => false,
        }
    }

    /// The end of a list or a table, if it is the innermost that is open.
    fn close(&mut self, container: Container) -> Front
        ensures nest { self.new.nest ≡ self.old.nest }
        ensures closes { IsCloseIn self.old.nest.items result.raw }
    {
        if !self.is_innermost(container) {
            return gap(1);
        }
        self.next = Next::Behind;
        piece(Raw::Close(container), 1)
    }

    /// A token was read. What it opens is the innermost from here on, and what it closes is open no
    /// more.
    pub(crate) fn follow(&mut self, kind: &TokenKind) -> Result<(), AllocError>
        ensures { OnOk result (NestsAs kind.now self.old.nest.items self.new.nest.items) }
    {
        match kind {
            TokenKind::Open(container) => self.nest.push(*container)?,
            TokenKind::Close(_) => {
                let _closed = self.nest.pop();
            }
            TokenKind::TableHeader
            | TokenKind::ElementHeader
            | TokenKind::Key(_)
            | TokenKind::Dotted(_)
            | TokenKind::String
            | TokenKind::Word
            | TokenKind::Other => {}
        }
        Ok(())
    }
}

/// The length of a part of a key, if one begins the text.
fn part_len(text: &str) -> Option<usize> {
    if starts_string(text) {
        return Some(line_string_len(text));
    }
    if is_bare(first(text)) {
        return Some(bare_len(text));
    }
    None
}

/// A string or a word.
fn scalar(text: &str) -> Front
    ensures { (nest : List Container) → IsCloseIn nest result.raw }
{
    if !starts_string(text) {
        return piece(Raw::Word, word_len(text));
    }
    let len = if is_multi(text) {
        multi_string_len(text)
    } else {
        line_string_len(text)
    };
    piece(Raw::String, len)
}

fn piece(raw: Raw, len: usize) -> Front
    ensures { result.raw ≡ raw }
{
    Front { raw, len }
}

fn gap(len: usize) -> Front
    ensures { result.raw ≡ Raw.Gap }
{
    piece(Raw::Gap, len)
}
