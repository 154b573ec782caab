//! The words of the language.
ghost use Rattle.std.specs.Prelude.{◌≡◌};
ghost use Rattle.filter_language.specs.Predicates.{default_sign};

/// What a predicate with a pattern is about.
#[derive(Clone, Copy, Debug, PartialEq, Eq)]
pub enum Field {
    /// The name of the test.
    TestName,
    /// The name of the package.
    Package,
    /// The packages that one with such a name depends on, itself among them.
    Deps,
    /// The packages that depend on one with such a name, itself among them.
    Rdeps,
    /// The id of the binary.
    BinaryId,
    /// The name of the binary.
    BinaryName,
    /// The kind of the binary.
    Kind,
    /// The test group.
    Group,
}

/// How a name is compared.
#[derive(Clone, Copy, Debug, PartialEq, Eq)]
pub enum Sign {
    /// `=`: the name is the text.
    Equal,
    /// `~`: the text is a part of the name.
    Contains,
    /// `#`: the text is a glob.
    Glob,
    /// `/`: the text is a regex.
    Regex,
}

/// What a predicate begins with.
#[derive(Clone, Copy, Debug, PartialEq, Eq)]
pub enum Word {
    /// `all`
    All,
    /// `none`
    Nothing,
    /// `default`
    Default,
    /// `platform`
    Platform,
    /// A word that takes a pattern.
    Matches(Field),
}

impl Field {
    /// The sign of a text without one.
    pub fn default_sign(self) -> Sign
        ensures { result ≡ default_sign self }
    {
        match self {
            Field::TestName => Sign::Contains,
            Field::Kind => Sign::Equal,
            Field::Package
            | Field::Deps
            | Field::Rdeps
            | Field::BinaryId
            | Field::BinaryName
            | Field::Group => Sign::Glob,
        }
    }

    /// The word that it is written by.
    pub fn word(self) -> &'static str {
        match self {
            Field::TestName => "test",
            Field::Package => "package",
            Field::Deps => "deps",
            Field::Rdeps => "rdeps",
            Field::BinaryId => "binary_id",
            Field::BinaryName => "binary",
            Field::Kind => "kind",
            Field::Group => "group",
        }
    }
}
