//! The values that a file may have at a place.
use nextest_tree::Key;

/// The kinds of text that the program distinguishes by their form.
#[derive(Clone, Copy, Debug, PartialEq, Eq)]
pub enum Pattern {
    /// A duration, as `1h 30m`.
    Duration,
    /// An identifier of a script or of a custom group.
    Identifier,
    /// `@global`, or the identifier of a custom group.
    TestGroup,
    /// The line of a command, which has a word.
    CommandLine,
    /// The key of an environment variable.
    EnvironmentKey,
}

/// The texts that a file may have at a place.
#[derive(Clone, Copy, Debug)]
pub enum TextShape {
    /// Any text.
    Any,
    /// One of these words.
    OneOf(&'static [&'static str]),
    /// A text of this pattern.
    Of(Pattern),
}

/// A key of a table, and the shape of what is allowed there.
#[derive(Debug, Drop)]
pub struct Field<S> {
    /// The key.
    pub key: Key,
    /// Whether a file has to write it.
    pub is_required: bool,
    /// The values that the key may have.
    pub shape: S,
}

/// The values that a file may have at a place.
#[derive(Debug, Drop)]
pub enum Shape {
    /// Anything at all.
    Anything,
    /// A boolean.
    Boolean,
    /// An integer from the least to the greatest one, where there is one.
    Integer {
        /// The least number, if there is one.
        least: Option<i64>,
        /// The greatest number, if there is one.
        greatest: Option<i64>,
    },
    /// A text.
    Text(TextShape),
    /// A list with at least so many items, each of one shape.
    List {
        /// The least number of items.
        least: u64,
        /// What each item is.
        items: Box<Shape>,
    },
    /// A table with these fields and no other keys.
    Table(Vec<Field<Shape>>),
    /// A table with values of one shape under names, but for those that are fields.
    Map {
        /// What each name is.
        names: TextShape,
        /// The names with a shape of their own.
        fields: Vec<Field<Shape>>,
        /// What is at every other name.
        values: Box<Shape>,
    },
    /// One of several shapes.
    Either(Vec<Shape>),
}
