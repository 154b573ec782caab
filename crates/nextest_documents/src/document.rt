//! Trees of texts.
ghost use Rattle.std.specs.Prelude.{◌≡◌, ℕ, List, IfOk, IfErr, Some, None};
ghost use Rattle.nextest_tree.specs.Node.{IsSorted};
ghost use Rattle.nextest_tree.specs.View.{tree_view};
ghost use Rattle.toml.specs.Errors.{IsMemory, IsWithin};
ghost use Rattle.nextest_documents.specs.Text.{IsNotDocument, IsWithinText, tree_of};

use nextest_tree::Tree;
use std::alloc::{AllocError, Global};
use std::ops::Range;
use thiserror::Error;

/// Why a text is not a TOML document.
#[derive(Debug, Drop, Error)]
#[error("{message}")]
pub struct DocumentFault {
    /// The whole message, for people to read: the line, the column and the reason, on two lines.
    pub message: String,
    /// The reason alone.
    pub reason: String,
    /// The bytes of the text that are at fault.
    pub span: Range<usize>,
}

/// Why a text gives no tree.
#[derive(Debug, Drop, Error)]
pub enum TextFault {
    /// The text is not a TOML document.
    #[error("{0}")]
    NotDocument(DocumentFault),
    /// A refusal of memory, which says nothing of the text.
    #[error("out of memory")]
    Memory,
}

impl From<AllocError> for TextFault {
    ghost use Rattle.nextest_documents.specs.declared.document.TextFault.{TextFault};

    ghost from_gives = { λ _ e. e ≡ TextFault.Memory };

    fn from(_error: AllocError) -> TextFault {
        TextFault::Memory
    }
}

impl TextFault {
    /// The fault that a text has by an error of its reader.
    fn of(alloc: Global, error: &toml::de::Error) -> Result<TextFault, AllocError>
        ensures memory { IsMemory error.now → IfOk result (λ fault. fault ≡ TextFault.Memory) }
        ensures span { (text : List ℕ) → IsWithin text error.now → IfOk result (IsWithinText text) }
    {
        let Some(span) = error.span() else {
            return Ok(TextFault::Memory);
        };
        Ok(TextFault::NotDocument(DocumentFault {
            message: error.to_string(alloc)?,
            reason: error.message().to_string(alloc)?,
            span,
        }))
    }
}

/// The tree of a text that is a TOML document.
///
/// # Errors
///
/// [`TextFault::NotDocument`] if the text is not a TOML document, with the bytes at fault.
/// [`TextFault::Memory`] if memory ran out.
pub fn tree_from_text(alloc: Global, text: &str) -> Result<Tree, TextFault>
    ensures is { IfOk result (λ tree. tree_of text.now ≡ Some (tree_view tree)) }
    ensures sorted { IfOk result (λ tree. IsSorted (tree_view tree)) }
    ensures refused { IfErr result (λ fault. IsNotDocument fault → tree_of text.now ≡ None) }
    ensures span { IfErr result (IsWithinText text.now) }
{
    let document = match toml::table_from_str(alloc, text) {
        Ok(document) => document,
        Err(error) => return Err(TextFault::of(alloc, &error)?),
    };
    Ok(Tree::from_value(alloc, toml::Value::Table(document))?)
}
