//! The items of a text, token by token.
ghost use Rattle.std.specs.Prelude.{◌≡◌, ◌<◌, IfOk, MatchOption, OnOk, Some};
ghost use Rattle.std.specs.Str.{IsCharBoundary};
ghost use Rattle.nextest_places.specs.Spans.Items.{IsTextAt, KeepsItems};
ghost use Rattle.nextest_places.specs.Spans.Tree.{AreItems};
ghost use Rattle.nextest_places.specs.Spans.Turns.{Ends};
ghost use Rattle.nextest_places.specs.Spans.Items as spec;

use crate::spans::item::{Item, Role, ValueKind, read_kind};
use crate::spans::reader::{Place, Reader, Turn};
use crate::spans::scan::next_token;
use crate::spans::state::State;
use crate::spans::token::{Container, Span, Token};
use std::alloc::{AllocError, Global};
use toml_parser::text::{first, skip_ws};

/// The items of a text, in the order of where they begin: the parts of keys, the values, and the
/// items of lists. The text need not be a document.
///
/// # Errors
/// Memory was refused.
pub fn items_of(alloc: Global, text: &str) -> Result<Vec<Item>, AllocError>
    ensures { IfOk result (λ items. AreItems text.now items.items) }
{
    let mut items = Vec::new(alloc);
    let mut reader = Reader::new(alloc);
    let mut state = State::new(alloc);
    let mut rest = text;
    'tokens: while !rest.is_empty() {
        let (token, own, behind) = next_token(alloc, &mut state, text, rest)?;
        match token {
            None => {}
            Some(token) => {
                let Token { kind, span } = token;
                let place = Place {
                    index: items.len(),
                    is_header: state.is_header(),
                    is_last: first(skip_ws(behind)) != b'.',
                };
                match reader.turn(alloc, kind, place)? {
                    Turn::Nothing => {}
                    Turn::Begins { parent, role } => {
                        let kind = kind_in(alloc, &role, own)?;
                        items.push(Item {
                            parent,
                            role,
                            span,
                            kind,
                        })?;
                    }
                    Turn::Closes(index) => close(alloc, text, &mut items, index, span.end)?,
                }
            }
        }
        rest = behind;
    }
    Ok(items)
}

/// The kind of the value that the bytes of an item read as, if it is a value and they read as one.
fn kind_in(alloc: Global, role: &Role, own: &str) -> Result<Option<ValueKind>, AllocError>
    ensures { IfOk result (λ kind. kind ≡ spec.kind_by_sort own.now (spec.role_sort role.now)) }
{
    match role {
        Role::Key { .. } => Ok(None),
        Role::Value { .. } => read_kind(alloc, own),
    }
}

/// The value of this index, if it is a list or a table, ends here.
fn close(
    alloc: Global,
    text: &str,
    items: &mut Vec<Item>,
    index: usize,
    end: usize,
) -> Result<(), AllocError>
    ensures keeps { OnOk result (KeepsItems text.now items.old.items items.new.items) }
    ensures ends { OnOk result (Ends text.now index end items.old.items items.new.items) }
{
    if index >= items.len() {
        return Ok(());
    }
    let Some(_container) = container_of(&items[index].role) else {
        return Ok(());
    };
    let start = items[index].span.start;
    let Some(own) = span_text(text, start, end) else {
        return Ok(());
    };
    let kind = read_kind(alloc, own)?;
    items[index].end_at(Span { start, end }, kind);
    Ok(())
}

/// What the first byte of an item opens, if it is a list or a table.
fn container_of(role: &Role) -> Option<Container>
    ensures { let sort = spec.role_sort role.now in
        MatchOption result ((c : Container) → ¬ (sort ≡ spec.value (Some c)))
        (λ c. sort ≡ spec.value (Some c)) }
{
    match role {
        Role::Key { .. } => None,
        Role::Value { container, .. } => *container,
    }
}

/// The bytes of a text from one place up to another, if there are some and they are whole
/// characters.
pub(crate) fn span_text(text: &str, start: usize, end: usize) -> Option<&str>
    ensures { MatchOption result
        (start < end → IsCharBoundary text.now start → ¬ (IsCharBoundary text.now end))
        (λ own. IsTextAt text.now start end own.now) }
{
    if start < end {
        text.get(start..end)
    } else {
        None
    }
}
