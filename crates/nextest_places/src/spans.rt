//! The spans of the keys and values of a TOML text, by a scan that no fault stops, the spans at a
//! path, and positions in a text.

mod cut;
mod gap;
mod item;
mod items;
mod law;
mod lens;
mod lines;
mod node;
mod offsets;
mod path;
mod path_lines;
mod path_spans;
mod piece;
mod position;
mod reader;
mod scan;
mod sections;
mod state;
mod step;
mod token;

pub use item::{Item, KeyKind, Role, ValueKind};
pub use items::items_of;
pub use law::{law_offsets_reopen, law_positions, law_positions_rise};
pub use lines::LineIndex;
pub use node::{nodes_of, reads_as};
pub use offsets::offsets_of;
pub use path_spans::{PathSpan, PathSpans};
pub use position::{ColumnUnit, TextPosition, byte_at, position_at};
pub use scan::tokens_of;
pub use token::{Container, Span, Token, TokenKind};
