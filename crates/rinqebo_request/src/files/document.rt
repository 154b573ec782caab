//! The tree and the places of a file's text, or why the text is not a document.
ghost use Rattle.std.specs.Prelude.{◌≡◌, IfOk, MatchOption, None, Some};
ghost use Rattle.toml.specs.View.{view};
ghost use Rattle.nextest_documents.specs.Text.{tree_of};
ghost use Rattle.nextest_places.specs.Spans.Spans.{IsDocumentOf};
ghost use Rattle.nextest_tree.specs.View.{tree_view};
ghost use Rattle.rinqebo_request.specs.Files.Layers.{text_read};

use nextest_places::{ColumnUnit, PathSpans, Places, TextPosition, position_at};
use nextest_sources::ReadOutcome;
use nextest_tree::Tree;
use std::alloc::{AllocError, Global};
use std::marker::Model;
use toml::Value;

/// Why a text is not a TOML document.
#[derive(Drop)]
pub struct NoDocument {
    /// Where the text is at fault: columns count characters.
    pub position: Option<TextPosition>,
    /// The reason, as the reader of TOML words it.
    pub reason: String,
    /// The whole message of the reader of TOML: the line, the column and the reason.
    pub message: String,
}

/// Returns the position of a byte of a text, if a character begins there.
fn position_in(text: &str, byte: usize) -> Option<TextPosition> {
    if text.is_char_boundary(byte) {
        Some(position_at(text, byte, ColumnUnit::Char))
    } else {
        None
    }
}

/// A text that was read, with its tree, if it is a document, and with the places of its values.
#[derive(Drop)]
pub struct Document<'t> {
    text: &'t str,
    spans: PathSpans<'t>,
}

impl<'t> Model for Document<'t> {
    ghost use Rattle.std.specs.Prelude.{◌≡◌, ℕ, List};

    ghost Value = { List ℕ };

    ghost view = { λ document. document.text.now };

    ghost invariant = { λ document. document.spans ≡ document.text.now };
}

impl<'t> Document<'t> {
    /// A text with the places of its values.
    fn new(text: &'t str, spans: PathSpans<'t>) -> Document<'t>
        requires { spans ≡ text.now }
        ensures { result ≡ text.now }
    {
        Document { text, spans }
    }

    /// The text.
    pub fn text(&self) -> &'t str
        ensures { result.now ≡ self.now }
    {
        self.text
    }

    /// Where the paths and values of the text are written.
    pub fn spans(&self) -> &PathSpans<'t>
        ensures { result.now ≡ self.now }
    {
        &self.spans
    }

    /// The tree of the text, if the text is a document.
    pub fn tree(&self) -> Option<&Tree>
        ensures { MatchOption result (tree_of self.now ≡ None)
            (λ tree. tree_of self.now ≡ Some (tree_view tree.now)) }
    {
        self.spans.document()
    }
}

/// Returns the document that a text is, or why it is not one.
fn document_of(alloc: Global, text: &str) -> Result<Result<Value, NoDocument>, AllocError>
    ensures { IfOk result (λ read. IfOk read (λ root. IsDocumentOf text.now (view root))) }
{
    let error = match toml::table_from_str(alloc, text) {
        Ok(table) => return Ok(Ok(Value::Table(table))),
        Err(error) => error,
    };
    let Some(span) = error.span() else {
        return Err(AllocError);
    };
    Ok(Err(NoDocument {
        position: position_in(text, span.start),
        reason: error.message().to_string(alloc)?,
        message: error.to_string(alloc)?,
    }))
}

/// Returns where the paths and values of a document are written in its text. The text is not parsed
/// again.
#[tactic(auto, using(crate::proofs::files::Documents::tree_is))]
fn spans_of<'t>(alloc: Global, text: &'t str, root: &Value) -> Result<PathSpans<'t>, AllocError>
    requires { IsDocumentOf text.now (view root.now) }
    ensures { IfOk result (λ spans. spans ≡ text.now) }
{
    let tree = Tree::from_toml(alloc, root)?;
    let places = Places::of_document(alloc, text, tree)?;
    PathSpans::of_document(alloc, text, places, root)
}

/// Returns where the paths and values of a text are written, and why the text is not a document, if
/// it is not one. A text that is a document is parsed once for these.
fn spans_in<'t>(
    alloc: Global,
    text: &'t str,
) -> Result<(PathSpans<'t>, Option<NoDocument>), AllocError>
    ensures { IfOk result (λ read. read.0 ≡ text.now) }
{
    match document_of(alloc, text)? {
        Ok(root) => Ok((spans_of(alloc, text, &root)?, None)),
        Err(fault) => {
            let places = Places::of(alloc, text)?;
            Ok((PathSpans::of_fronts(alloc, text, places)?, Some(fault)))
        }
    }
}

/// Returns the text that was read, if one was, with its tree and its places, and why it is not a
/// document, if it is not one.
pub fn read_document<'t>(
    alloc: Global,
    outcome: &'t ReadOutcome,
) -> Result<(Option<Document<'t>>, Option<NoDocument>), AllocError>
    ensures { IfOk result (λ read. read.0 ≡ text_read outcome.entry.now) }
{
    match outcome {
        ReadOutcome::Text(text) => {
            let text = text.as_str();
            let (spans, fault) = spans_in(alloc, text)?;
            Ok((Some(Document::new(text, spans)), fault))
        }
        ReadOutcome::NotFound | ReadOutcome::NotADirectory | ReadOutcome::Failed(_) => {
            Ok((None, None))
        }
    }
}
