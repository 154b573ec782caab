//! Texts that a caller parses before the load.
ghost use Rattle.std.specs.Prelude.{IfSome};
ghost use Rattle.nextest_load.specs.Parsed.{IsParseOf};

use nextest_tree::Tree;

/// What a text was parsed to.
#[derive(Clone, Copy)]
pub enum ParsedText<'a> {
    /// The text is a TOML document, and this is its tree.
    Document(&'a Tree),
    /// The text is not a TOML document, and this is the message of its fault.
    NotDocument(&'a str),
}

/// The texts that a caller parsed before the load.
///
/// A load looks for the parse of each text when the turn of its file comes. It copies the tree, and
/// so lends all that it is given.
pub trait ParsedTexts {
    /// Returns what the text of a file was parsed to, or nothing, so that the load parses it. The
    /// place counts the files of the load, the lowest first.
    fn parse_of(&self, place: usize, text: &str) -> Option<ParsedText<'_>>
        ensures { IfSome result (IsParseOf text.now) };
}

/// No text was parsed before the load.
pub(crate) struct Unparsed;

impl ParsedTexts for Unparsed {
    fn parse_of(&self, _place: usize, _text: &str) -> Option<ParsedText<'_>> {
        None
    }
}
