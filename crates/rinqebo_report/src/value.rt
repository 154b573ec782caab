//! Values of settings.

/// A length of time.
#[derive(Drop)]
pub struct ReportedDuration {
    /// Its nanoseconds.
    pub nanoseconds: u128,
    /// The text that a file writes it with, where one file alone writes the value.
    pub written: Option<String>,
}

/// A value that holds no others.
#[derive(Drop)]
pub enum Scalar {
    /// `true` or `false`.
    Boolean(bool),
    /// An integer.
    Integer(i64),
    /// A text, as it is: pages put it in quotes.
    Text(String),
    /// A length of time.
    Duration(ReportedDuration),
}

/// A member of a table.
#[derive(Drop)]
pub struct TableMember {
    /// Its key, which is on pages as it is.
    pub key: String,
    /// Its value.
    pub value: Scalar,
}

/// The value of a setting.
#[derive(Drop)]
pub enum Value {
    /// A value that holds no others.
    Scalar(Scalar),
    /// A list of texts.
    Texts(Vec<String>),
    /// A table, whose keys are apart from each other.
    Table(Vec<TableMember>),
}
