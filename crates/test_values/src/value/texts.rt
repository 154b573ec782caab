//! What readers of texts read.
use super::{refusal, shown};
use crate::row::RowError;
use nextest_documents::{TextFault, lay_over, tree_from_text};
use nextest_elements::{ConfigIdentifier, InvalidIdentifier, Key, ToolName, Tree, parse_duration};
use nextest_places::ids_in_order;
use nextest_scripts::{ScriptId, ShellWordsError, split_shell_words, validate_env_var_key};
use std::alloc::{AllocError, Global};

/// What the reader of a name makes of a text.
pub fn text_answer(alloc: Global, reader: &str, text: &str) -> Result<String, RowError> {
    match reader {
        "duration" => duration_answer(alloc, text),
        "identifier" => identifier_answer(alloc, text),
        "tool-name" => shown(alloc, ToolName::new(alloc, text)),
        "script-id" => shown(alloc, ScriptId::new(alloc, text)),
        "shell-words" => words_answer(alloc, text),
        "env-key" => key_answer(alloc, text),
        "document" => document_answer(alloc, tree_from_text(alloc, text)),
        "setup-order" => order_answer(alloc, text, Key::Setup),
        "wrapper-order" => order_answer(alloc, text, Key::Wrapper),
        _ => Err(RowError::NoRow),
    }
}

fn duration_answer(alloc: Global, text: &str) -> Result<String, RowError> {
    match parse_duration(text) {
        Ok(nanoseconds) => Ok(format!(in alloc; "{nanoseconds}ns")?),
        Err(cause) => Ok(format!(in alloc; "refused: {cause:?}")?),
    }
}

/// The identifier and its parts, or the cause of the refusal.
fn identifier_answer(alloc: Global, text: &str) -> Result<String, RowError> {
    let read = match ConfigIdentifier::new(alloc, text) {
        Err(InvalidIdentifier::Memory) => ConfigIdentifier::new(alloc, text),
        read => read,
    };
    match read {
        Ok(identifier) => match identifier.clone() {
            Ok(copy) => Ok(parts_answer(alloc, &copy)?),
            Err(_) => Ok(parts_answer(alloc, &identifier.clone()?)?),
        },
        Err(cause) => refusal(alloc, &cause),
    }
}

/// An identifier, and its parts if it is one of a tool or of the organisation.
fn parts_answer(alloc: Global, identifier: &ConfigIdentifier) -> Result<String, AllocError> {
    if let Some((tool, name)) = identifier.tool_components() {
        return format!(in alloc; "{identifier}, `{name}` of tool `{tool}`");
    }
    match identifier.organisation_component() {
        Some(name) => format!(in alloc; "{identifier}, `{name}` of the organisation"),
        None => identifier.to_string(alloc),
    }
}

/// The words of a line, or the cause of the refusal.
fn words_answer(alloc: Global, text: &str) -> Result<String, RowError> {
    let read = match split_shell_words(alloc, text) {
        Err(ShellWordsError::Memory) => split_shell_words(alloc, text),
        read => read,
    };
    match read {
        Ok(words) => Ok(format!(in alloc; "{words:?}")?),
        Err(cause) => refusal(alloc, &cause),
    }
}

fn key_answer(alloc: Global, text: &str) -> Result<String, RowError> {
    match validate_env_var_key(alloc, text) {
        Ok(()) => Ok(String::from_str(alloc, "accepted")?),
        Err(cause) => refusal(alloc, &cause),
    }
}

/// The tree of a document. The cause of a refusal is the message of the reader of TOML.
pub fn document_answer(alloc: Global, read: Result<Tree, TextFault>) -> Result<String, RowError> {
    match read {
        Ok(tree) => Ok(format!(in alloc; "{tree:?}")?),
        Err(TextFault::NotDocument(_)) => Ok(String::from_str(alloc, "refused: no document")?),
        Err(TextFault::Memory) => Err(RowError::Memory),
    }
}

/// The ids of scripts of a kind, in the order in which a document defines them.
fn order_answer(alloc: Global, text: &str, kind: Key) -> Result<String, RowError> {
    match tree_from_text(alloc, text) {
        Ok(tree) => {
            let ids = ids_in_order(alloc, text, &tree, &[Key::Scripts, kind])?;
            Ok(format!(in alloc; "{ids:?}")?)
        }
        Err(TextFault::NotDocument(_)) => Ok(String::from_str(alloc, "refused: no document")?),
        Err(TextFault::Memory) => Err(RowError::Memory),
    }
}

/// The tree that documents merge to, the lowest first.
pub fn merged(alloc: Global, documents: &[Tree]) -> Result<Tree, TextFault> {
    let mut tree = tree_from_text(alloc, "")?;
    for document in documents {
        let text = document.as_str().unwrap_or("");
        let above = tree_from_text(alloc, text)?;
        tree = lay_over(alloc, &above, tree)?;
    }
    Ok(tree)
}
