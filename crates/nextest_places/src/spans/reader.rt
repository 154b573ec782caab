//! Tokens as items.
ghost use Rattle.std.specs.Prelude.{◌≡◌, ◌++◌, ◌∷◌, [], false, IfOk, OnOk, Some, None, option_map};
ghost use Rattle.std.specs.Option.{option_or};
ghost use Rattle.nextest_places.specs.Spans.Nesting.{last_of};
ghost use Rattle.nextest_places.specs.Spans.Tree.{held_in, list_of};
ghost use Rattle.nextest_places.specs.Spans.Tree as spec;
ghost use Rattle.nextest_places.specs.Spans.Turns.{IsCloseTurn, IsPartTurn, IsTurn, IsValueTurn, holders};

use crate::spans::item::{KeyKind, Role, earlier};
use crate::spans::sections::Sections;
use crate::spans::token::{Container, TokenKind};
use std::alloc::{AllocError, Global};

/// What a token does.
#[derive(Drop)]
pub(crate) enum Turn {
    /// It begins no item and ends none.
    Nothing,
    /// It begins an item.
    Begins {
        /// The earlier item that this is inside.
        parent: Option<usize>,
        role: Role,
    },
    /// It closes the value of this index.
    Closes(usize),
}

/// Where a token is.
#[derive(Clone, Copy)]
pub(crate) struct Place {
    /// How many items there are by now.
    pub(crate) index: usize,
    /// Whether a header is read.
    pub(crate) is_header: bool,
    /// Whether no dot follows.
    pub(crate) is_last: bool,
}

/// A list or a table that is not closed.
#[derive(Clone, Copy)]
struct Holder {
    item: usize,
    container: Container,
    /// How many items it has by now, if it is a list.
    count: usize,
}

/// What was read of a text.
#[derive(Drop)]
pub(crate) struct Reader {
    /// What the last header is.
    kind: KeyKind,
    /// The last part of the last header's key.
    section: Option<usize>,
    /// The part of a key that is right before, if one is.
    key: Option<usize>,
    held: Vec<Holder>,
    sections: Sections,
}

impl Reader {
    /// Nothing was read.
    pub(crate) fn new(alloc: Global) -> Reader
        ensures held { holders result ≡ [] }
        ensures none { (result.key ≡ None) × (result.section ≡ None)
            × (spec.is_pair result.kind ≡ false) }
    {
        Reader {
            kind: KeyKind::Table,
            section: None,
            key: None,
            held: Vec::new(alloc),
            sections: Sections::new(alloc),
        }
    }

    /// What the next token does.
    pub(crate) fn turn(
        &mut self,
        alloc: Global,
        kind: TokenKind,
        place: Place,
    ) -> Result<Turn, AllocError>
        ensures { IfOk result (IsTurn self.old self.new place.index place.is_header kind) }
    {
        match kind {
            TokenKind::TableHeader => {
                self.header(alloc, KeyKind::Table)?;
                Ok(Turn::Nothing)
            }
            TokenKind::ElementHeader => {
                self.header(alloc, KeyKind::Element)?;
                Ok(Turn::Nothing)
            }
            TokenKind::Key(name) => self.first_part(alloc, name, place),
            TokenKind::Dotted(name) => self.dotted_part(alloc, name, place),
            TokenKind::Open(container) => self.opened(container, place.index),
            TokenKind::Close(_) => Ok(self.closed()),
            TokenKind::String | TokenKind::Word => Ok(self.value(None, place.index)),
            TokenKind::Other => {
                self.key = None;
                Ok(Turn::Nothing)
            }
        }
    }

    /// A header begins.
    fn header(&mut self, alloc: Global, kind: KeyKind) -> Result<(), AllocError>
        ensures kind { OnOk result (self.new.kind ≡ kind) }
        ensures none { OnOk result ((self.new.key ≡ None) × (self.new.section ≡ None)) }
        ensures held { OnOk result (holders self.new ≡ holders self.old) }
    {
        self.kind = kind;
        self.section = None;
        self.key = None;
        self.sections.restart(alloc)
    }

    /// The innermost list or table that is open, or else the last header's key.
    fn base(&self) -> Option<usize>
        ensures { result ≡ held_in (last_of (holders self.now)) self.now.section }
    {
        match self.held.last() {
            Some(holder) => Some(holder.item),
            None => self.section,
        }
    }

    /// What the first part of a key is inside.
    fn first_in(&self, is_header: bool) -> Option<usize>
        ensures { result
            ≡ spec.first_in is_header (last_of (holders self.now)) self.now.section }
    {
        if is_header { None } else { self.base() }
    }

    /// The first part of a key.
    fn first_part(
        &mut self,
        alloc: Global,
        name: Option<String>,
        place: Place,
    ) -> Result<Turn, AllocError>
        ensures { let held = last_of (holders self.old) in
            IfOk result (IsPartTurn self.old self.new place.index place.is_header
            (spec.first_in place.is_header held self.old.section) name) }
    {
        let parent = self.first_in(place.is_header);
        self.part(alloc, parent, name, place)
    }

    /// A part behind a dot, which is inside the part before it, if there is one.
    fn dotted_part(
        &mut self,
        alloc: Global,
        name: Option<String>,
        place: Place,
    ) -> Result<Turn, AllocError>
        ensures { let held = last_of (holders self.old) in
            let first = spec.first_in place.is_header held self.old.section in
            IfOk result (IsPartTurn self.old self.new place.index place.is_header
            (option_or self.old.key first) name) }
    {
        let parent = self.key.or(self.first_in(place.is_header));
        self.part(alloc, parent, name, place)
    }

    /// A part of a key.
    fn part(
        &mut self,
        alloc: Global,
        parent: Option<usize>,
        name: Option<String>,
        place: Place,
    ) -> Result<Turn, AllocError>
        ensures { IfOk result
            (IsPartTurn self.old self.new place.index place.is_header parent name) }
    {
        let kind = if place.is_header {
            self.kind
        } else {
            KeyKind::Pair
        };
        let mut element = None;
        if place.is_header {
            self.section = Some(place.index);
            let begins = self.kind == KeyKind::Element && place.is_last;
            element = self.sections.enter(alloc, name.as_deref(), begins)?;
        }
        self.key = Some(place.index);
        Ok(Turn::Begins {
            parent: earlier(parent, place.index),
            role: Role::Key {
                name,
                kind,
                element,
            },
        })
    }

    /// A value: an item of the list that is open, or else the value of the key before it.
    fn value(&mut self, container: Option<Container>, index: usize) -> Turn
        ensures { let held = last_of (holders self.old) in
            IsValueTurn self.old self.new index
            (option_or (list_of held) (option_or self.old.key (held_in held self.old.section)))
            container (holders self.old) result }
    {
        let base = self.key.or(self.base());
        let (parent, position) = match self.next_in_list() {
            Some((list, position)) => (Some(list), Some(position)),
            None => (base, None),
        };
        self.key = None;
        Turn::Begins {
            parent: earlier(parent, index),
            role: Role::Value {
                position,
                container,
            },
        }
    }

    /// The innermost that is open, if it is a list, with the position of its next item.
    fn next_in_list(&mut self) -> Option<(usize, usize)>
        ensures list { option_map (λ next. next.0) result ≡ list_of (last_of (holders self.old)) }
        ensures held { holders self.new ≡ holders self.old }
        ensures rest { (self.new.key ≡ self.old.key) × (self.new.section ≡ self.old.section)
            × (self.new.kind ≡ self.old.kind) }
    {
        let holder = self.held.last_mut()?;
        if holder.container != Container::List {
            return None;
        }
        let position = holder.count;
        holder.count = position.saturating_add(1);
        Some((holder.item, position))
    }

    /// A list or a table opens.
    fn opened(&mut self, container: Container, index: usize) -> Result<Turn, AllocError>
        ensures { let held = last_of (holders self.old) in
            IfOk result (IsValueTurn self.old self.new index
            (option_or (list_of held) (option_or self.old.key (held_in held self.old.section)))
            (Some container) (holders self.old ++ (index, container) ∷ [])) }
    {
        let turn = self.value(Some(container), index);
        self.held.push(Holder {
            item: index,
            container,
            count: 0,
        })?;
        Ok(turn)
    }

    /// The innermost list or table that is open is closed.
    fn closed(&mut self) -> Turn
        ensures { IsCloseTurn self.old self.new result }
    {
        self.key = None;
        match self.held.pop() {
            Some(holder) => Turn::Closes(holder.item),
            None => Turn::Nothing,
        }
    }
}
