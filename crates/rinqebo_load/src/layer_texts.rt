//! The texts of layers as they were parsed, so that a load does not parse them again.
ghost use Rattle.std.specs.Prelude.{IfSome};
ghost use Rattle.nextest_load.specs.Parsed.{IsParseOf};

use nextest_load::{ParsedText, ParsedTexts};
use rinqebo_request::{Document, Layer, NoDocument};

/// The texts of the files of a load, which are the layers of a session above the defaults.
#[derive(Clone, Copy)]
pub(crate) struct LayerTexts<'l> {
    /// The layers of the session. The first one is the defaults.
    pub(crate) layers: &'l [Layer<'l>],
}

/// Returns what a text was parsed to, if that is known.
fn parse_of_document<'l>(
    document: &'l Document<'_>,
    fault: &'l Option<NoDocument>,
) -> Option<ParsedText<'l>>
    ensures { IfSome result (IsParseOf document.now) }
{
    match (document.tree(), fault) {
        (Some(tree), _) => Some(ParsedText::Document(tree)),
        (None, Some(fault)) => Some(ParsedText::NotDocument(fault.message.as_str())),
        (None, None) => None,
    }
}

/// Returns what a text was parsed to, if it is the text of a layer.
fn parse_in_layer<'l>(layer: &'l Layer<'_>, text: &str) -> Option<ParsedText<'l>>
    ensures { IfSome result (IsParseOf text.now) }
{
    match &layer.places {
        Some(document) if document.text() == text => parse_of_document(document, &layer.fault),
        _ => None,
    }
}

impl ParsedTexts for LayerTexts<'_> {
    fn parse_of(&self, place: usize, text: &str) -> Option<ParsedText<'_>> {
        let position = place.checked_add(1)?;
        parse_in_layer(self.layers.get(position)?, text)
    }
}
