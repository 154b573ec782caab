//! Items and tokens as text.
//!
//! The items of a text come in their order, with `; ` between them. A part of a key is its path,
//! its span and what its key is of: `a.b 0..1 pair`, `a 1..2 table` or `a 2..3 element 0`, in which
//! the number is the position of the element that the keys below it are inside. A value is its
//! path, `=`, its span and its kind, or `-` if its bytes read as no value: `a = 4..5 integer`. A
//! name with other characters than those of a key without quotes is written in double quotes. One that
//! reads as no key is `?`.

use nextest_places::{
    Container, Item, KeyKind, Role, Token, TokenKind, ValueKind, items_of, nodes_of, reads_as,
    tokens_of,
};
use std::alloc::{AllocError, Global};
use toml::Value;

/// The items of a text.
pub fn shown_items(alloc: Global, text: &str) -> Result<String, AllocError> {
    let items = items_of(alloc, text)?;
    let mut line = String::new(alloc);
    let mut paths = Vec::new(alloc);
    for item in &items {
        let path = path_of(alloc, item, &paths)?;
        if !line.is_empty() {
            line.push_str("; ")?;
        }
        line.push_str(shown_item(alloc, item, path.as_str())?.as_str())?;
        paths.push(below(alloc, item, path)?)?;
    }
    Ok(line)
}

/// The path of an item, given those below the items before it.
fn path_of(alloc: Global, item: &Item, paths: &[String]) -> Result<String, AllocError> {
    let mut path = String::new(alloc);
    if let Some(parent) = item.parent
        && let Some(base) = paths.get(parent)
    {
        path.push_str(base.as_str())?;
    }
    match &item.role {
        Role::Key { name, .. } => {
            dot(&mut path)?;
            match name {
                Some(name) => push_name(&mut path, name.as_str())?,
                None => path.push('?')?,
            }
        }
        Role::Value { position, .. } => {
            if let Some(position) = position {
                dot(&mut path)?;
                path.push_str(format!(in alloc; "{position}")?.as_str())?;
            }
        }
    }
    Ok(path)
}

/// The path of what is inside an item.
fn below(alloc: Global, item: &Item, path: String) -> Result<String, AllocError> {
    match &item.role {
        Role::Key {
            element: Some(position),
            ..
        } => format!(in alloc; "{path}.{position}"),
        _ => Ok(path),
    }
}

fn dot(path: &mut String) -> Result<(), AllocError> {
    if path.is_empty() {
        Ok(())
    } else {
        path.push('.')
    }
}

fn push_name(path: &mut String, name: &str) -> Result<(), AllocError> {
    let is_bare = !name.is_empty()
        && name.bytes().all(|byte| byte.is_ascii_alphanumeric() || byte == b'_' || byte == b'-');
    if is_bare {
        return path.push_str(name);
    }
    path.push('"')?;
    for character in name.chars() {
        match character {
            '\n' => path.push_str("\\n")?,
            '"' => path.push_str("\\\"")?,
            '\\' => path.push_str("\\\\")?,
            other => path.push(other)?,
        }
    }
    path.push('"')
}

fn shown_item(alloc: Global, item: &Item, path: &str) -> Result<String, AllocError> {
    let start = item.span.start;
    let end = item.span.end;
    match &item.role {
        Role::Key { kind, element, .. } => {
            let word = key_word(*kind);
            match element {
                Some(position) => format!(in alloc; "{path} {start}..{end} {word} {position}"),
                None => format!(in alloc; "{path} {start}..{end} {word}"),
            }
        }
        Role::Value { .. } => {
            let word = value_word(item.kind);
            format!(in alloc; "{path} = {start}..{end} {word}")
        }
    }
}

fn key_word(kind: KeyKind) -> &'static str {
    match kind {
        KeyKind::Table => "table",
        KeyKind::Element => "element",
        KeyKind::Pair => "pair",
    }
}

fn value_word(kind: Option<ValueKind>) -> &'static str {
    match kind {
        None => "-",
        Some(ValueKind::String) => "string",
        Some(ValueKind::Integer) => "integer",
        Some(ValueKind::Float) => "float",
        Some(ValueKind::Boolean) => "boolean",
        Some(ValueKind::Datetime) => "datetime",
        Some(ValueKind::Array) => "array",
        Some(ValueKind::Table) => "table",
    }
}

/// The tokens of a text, each as its kind, where it is and, of a part of a key, its name.
pub fn shown_tokens(alloc: Global, text: &str) -> Result<String, AllocError> {
    let mut line = String::new(alloc);
    for token in &tokens_of(alloc, text)? {
        if !line.is_empty() {
            line.push_str(", ")?;
        }
        line.push_str(shown_token(alloc, token)?.as_str())?;
    }
    Ok(line)
}

fn shown_token(alloc: Global, token: &Token) -> Result<String, AllocError> {
    let start = token.span.start;
    let end = token.span.end;
    let word = token_word(&token.kind);
    let mut shown = format!(in alloc; "{word} {start}..{end}")?;
    match &token.kind {
        TokenKind::Key(name) | TokenKind::Dotted(name) => {
            shown.push(' ')?;
            match name {
                Some(name) => push_name(&mut shown, name.as_str())?,
                None => shown.push('?')?,
            }
        }
        TokenKind::TableHeader
        | TokenKind::ElementHeader
        | TokenKind::Open(_)
        | TokenKind::Close(_)
        | TokenKind::String
        | TokenKind::Word
        | TokenKind::Other => {}
    }
    Ok(shown)
}

fn token_word(kind: &TokenKind) -> &'static str {
    match kind {
        TokenKind::TableHeader => "table",
        TokenKind::ElementHeader => "element",
        TokenKind::Key(_) => "key",
        TokenKind::Dotted(_) => "dotted",
        TokenKind::Open(Container::List) => "open-list",
        TokenKind::Open(Container::Table) => "open-table",
        TokenKind::Close(Container::List) => "close-list",
        TokenKind::Close(Container::Table) => "close-table",
        TokenKind::String => "string",
        TokenKind::Word => "word",
        TokenKind::Other => "other",
    }
}

/// Of each item of a document `+` or `-`: whether a part of a key leads to a node, and whether a
/// value reads as its node. A text that is not a document prints `none`.
pub fn shown_nodes(alloc: Global, text: &str) -> Result<String, AllocError> {
    let root = match toml::table_from_str(alloc, text) {
        Ok(table) => Value::Table(table),
        Err(error) => {
            if error.is_memory() {
                return Err(AllocError);
            }
            return String::from_str(alloc, "none");
        }
    };
    let items = items_of(alloc, text)?;
    let nodes = nodes_of(alloc, &root, &items)?;
    let mut line = String::new(alloc);
    for (item, node) in items.iter().zip(nodes.iter()) {
        if !line.is_empty() {
            line.push(' ')?;
        }
        line.push(if is_right(alloc, text, item, *node)? {
            '+'
        } else {
            '-'
        })?;
    }
    Ok(line)
}

fn is_right(
    alloc: Global,
    text: &str,
    item: &Item,
    node: Option<&Value>,
) -> Result<bool, AllocError> {
    let Some(node) = node else {
        return Ok(false);
    };
    match &item.role {
        Role::Key { .. } => Ok(true),
        Role::Value { .. } => reads_as(alloc, text, item, node),
    }
}

/// How many items each front of a text has that ends between two characters.
pub fn cuts_of(alloc: Global, text: &str) -> Result<String, AllocError> {
    let mut line = String::new(alloc);
    for len in 0..=text.len() {
        let Some(front) = text.get(..len) else {
            continue;
        };
        let count = items_of(alloc, front)?.len();
        if len > 0 {
            line.push(' ')?;
        }
        line.push_str(format!(in alloc; "{count}")?.as_str())?;
    }
    Ok(line)
}
