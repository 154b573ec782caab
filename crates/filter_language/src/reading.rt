//! Reads filters, mark by mark.
mod argument;
mod nesting;
mod next;
mod operator;
mod predicate;
mod reader;
mod texts;

pub use nesting::MAX_NESTING;
pub use reader::read_marks;
