//! Two small engines with which the program and tests run: a language of filters and one of
//! platforms.
//!
//! A filter is one or more lists of terms with ` or ` between the lists and ` and ` between the
//! terms. A term is an atom behind any number of `not `, and an atom is `all()`, `none()`,
//! `default()`, `test(T)` or `binary_id(T)`, where T is one or more characters other than
//! parentheses.

pub mod expr;
pub mod filters;
pub mod parse;
pub mod platforms;
pub mod texts;
