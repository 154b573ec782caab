//! Places in files: the lines of a text that define the value at a path, the order in which a text
//! defines the ids of a table, and the spans of keys and values (`spans`).
//!
//! The place of a path ends with the fewest first lines of the text that are a document with the
//! path. It is found by one walk over the expressions of the text, each read on its own lines.
#![tactic(auto)]

mod branch;
mod entries;
mod entry;
mod expression;
mod fronts;
mod id_lines;
mod ids;
mod index;
mod law;
mod lines;
mod order;
mod piece;
mod place;
mod spans;
mod step;
mod walk;

pub use law::{law_longer_documents_keep, law_longer_documents_keep_paths, law_one_order};
pub use order::ids_in_order;
pub use place::{Lines, Places};
pub use spans::{
    ColumnUnit, Container, Item, KeyKind, LineIndex, PathSpan, PathSpans, Role, Span, TextPosition,
    Token, TokenKind, ValueKind, byte_at, items_of, law_offsets_reopen, law_positions,
    law_positions_rise, nodes_of, offsets_of, position_at, reads_as, tokens_of,
};
pub use step::Step;
