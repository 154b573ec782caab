//! The codes of findings.
ghost use Rattle.std.specs.Prelude.{◌≡◌, ◌≢◌, ◌↔◌, Contains, IsTrue, MatchOption, option_map};
ghost use Rattle.rinqebo_report.specs.Codes.Codes.{code_word, code_upstream};
ghost use Rattle.rinqebo_report.specs.declared.codes.code.Code.{Code};

/// What a finding says, in a word.
#[derive(Clone, Copy, Debug, PartialEq, Eq)]
pub enum Code {
    /// No table of a configuration has the key here, so it has no effect.
    UnknownKey,
    /// Names of profiles that begin with `default-` are nextest's own.
    ReservedProfile,
    /// Setup scripts are in the table `script`, their place in earlier versions.
    OldScriptTable,
    /// A rule under `scripts` of a profile names no script, so it has no effect.
    EmptyScriptRule,
    /// A setting of the JUnit report has no effect if no `junit.path` is set.
    JunitWithoutPath,
    /// Two `--tool-config-file` options name one tool, which may provide one file.
    SecondToolFile,
    /// A file that an option names cannot be read.
    UnreadableFile,
    /// The text of the file is not a TOML document.
    NotToml,
    /// A value has another kind than its key takes.
    WrongKind,
    /// A table lacks a key that it has to have.
    MissingKey,
    /// A string is not one that its key takes, or has another form.
    InvalidValue,
    /// A value is too small, too large or empty.
    OutOfRange,
    /// Delays grow from `delay` up to `max-delay`, which may not be the shorter one.
    MaxDelayBelowDelay,
    /// A table that refuses unknown keys has one.
    RefusedKey,
    /// The name of a group begins as another file's: `@tool:NAME:`, `@org:` or neither.
    ForeignGroup,
    /// The name of a script begins as another file's: `@tool:NAME:`, `@org:` or neither.
    ForeignScript,
    /// A file has the table `scripts` and its old spelling `script`.
    TwoScriptTables,
    /// A file uses an experimental feature that is not enabled.
    FeatureOff,
    /// A setup script and a wrapper script have the same name.
    DuplicateScript,
    /// The profile `default` may not inherit from another profile.
    DefaultInherits,
    /// A profile inherits from itself.
    InheritsItself,
    /// A profile inherits from a profile that no file has.
    UnknownParent,
    /// Profiles inherit from each other in a cycle.
    InheritanceCycle,
    /// A filter is not an expression of the filter language.
    InvalidFilter,
    /// A platform is neither the name of a target nor a `cfg` expression.
    InvalidPlatform,
    /// A rule has neither a platform nor a filter.
    RuleWithoutCondition,
    /// An override has `filter` and `default-filter`, of which it may have one.
    TwoFilters,
    /// An override sets a group that no file defines.
    UnknownGroup,
    /// A rule names a script that no file defines.
    UnknownScript,
    /// A rule names a script at a key that takes scripts of another kind.
    WrongScriptKind,
    /// A list wrapper wraps a whole binary, so its filter may not use tests.
    ListWrapperFilter,
    /// No file has the given profile.
    UnknownProfile,
    /// The list has no test of the given name.
    UnknownTest,
    /// Several tests have the given name.
    SeveralTests,
}

/// All codes, in the order in which they are listed.
pub const CODES: [Code; 34] = [
    Code::UnknownKey,
    Code::ReservedProfile,
    Code::OldScriptTable,
    Code::EmptyScriptRule,
    Code::JunitWithoutPath,
    Code::SecondToolFile,
    Code::UnreadableFile,
    Code::NotToml,
    Code::WrongKind,
    Code::MissingKey,
    Code::InvalidValue,
    Code::OutOfRange,
    Code::MaxDelayBelowDelay,
    Code::RefusedKey,
    Code::ForeignGroup,
    Code::ForeignScript,
    Code::TwoScriptTables,
    Code::FeatureOff,
    Code::DuplicateScript,
    Code::DefaultInherits,
    Code::InheritsItself,
    Code::UnknownParent,
    Code::InheritanceCycle,
    Code::InvalidFilter,
    Code::InvalidPlatform,
    Code::RuleWithoutCondition,
    Code::TwoFilters,
    Code::UnknownGroup,
    Code::UnknownScript,
    Code::WrongScriptKind,
    Code::ListWrapperFilter,
    Code::UnknownProfile,
    Code::UnknownTest,
    Code::SeveralTests,
];

impl Code {
    /// Its word, in kebab case.
    #[tactic(auto, unfolding(crate::specs::Codes::Codes::code_word))]
    pub fn word(self) -> &'static str
        ensures { result.now ≡ code_word self }
    {
        match self {
            Code::UnknownKey => "unknown-key",
            Code::ReservedProfile => "reserved-profile",
            Code::OldScriptTable => "old-script-table",
            Code::EmptyScriptRule => "empty-script-rule",
            Code::JunitWithoutPath => "junit-without-path",
            Code::SecondToolFile => "second-tool-file",
            Code::UnreadableFile => "unreadable-file",
            Code::NotToml => "not-toml",
            Code::WrongKind => "wrong-kind",
            Code::MissingKey => "missing-key",
            Code::InvalidValue => "invalid-value",
            Code::OutOfRange => "out-of-range",
            Code::MaxDelayBelowDelay => "max-delay-below-delay",
            Code::RefusedKey => "refused-key",
            Code::ForeignGroup => "foreign-group",
            Code::ForeignScript => "foreign-script",
            Code::TwoScriptTables => "two-script-tables",
            Code::FeatureOff => "feature-off",
            Code::DuplicateScript => "duplicate-script",
            Code::DefaultInherits => "default-inherits",
            Code::InheritsItself => "inherits-itself",
            Code::UnknownParent => "unknown-parent",
            Code::InheritanceCycle => "inheritance-cycle",
            Code::InvalidFilter => "invalid-filter",
            Code::InvalidPlatform => "invalid-platform",
            Code::RuleWithoutCondition => "rule-without-condition",
            Code::TwoFilters => "two-filters",
            Code::UnknownGroup => "unknown-group",
            Code::UnknownScript => "unknown-script",
            Code::WrongScriptKind => "wrong-script-kind",
            Code::ListWrapperFilter => "list-wrapper-filter",
            Code::UnknownProfile => "unknown-profile",
            Code::UnknownTest => "unknown-test",
            Code::SeveralTests => "several-tests",
        }
    }

    /// The name that nextest-runner has for it, if it has one.
    #[tactic(auto, unfolding(crate::specs::Codes::Codes::code_upstream))]
    pub fn upstream(self) -> Option<&'static str>
        ensures { option_map (λ name. name.now) result ≡ code_upstream self }
    {
        match self {
            Code::UnknownKey => Some("UnknownConfigKeys"),
            Code::ReservedProfile => Some("UnknownReservedProfiles"),
            Code::OldScriptTable => Some("DeprecatedScriptConfig"),
            Code::EmptyScriptRule => Some("EmptyScriptSections"),
            Code::JunitWithoutPath => None,
            Code::SecondToolFile => Some("DuplicateToolConfigFile"),
            Code::UnreadableFile => Some("ReadError"),
            Code::NotToml => Some("BuildError"),
            Code::WrongKind => Some("DeserializeError"),
            Code::MissingKey => Some("DeserializeError"),
            Code::InvalidValue => Some("DeserializeError"),
            Code::OutOfRange => Some("DeserializeError"),
            Code::MaxDelayBelowDelay => Some("DeserializeError"),
            Code::RefusedKey => Some("DeserializeError"),
            Code::ForeignGroup => Some("InvalidTestGroupsDefined"),
            Code::ForeignScript => Some("InvalidConfigScriptsDefined"),
            Code::TwoScriptTables => Some("BothScriptAndScriptsDefined"),
            Code::FeatureOff => Some("ExperimentalFeaturesNotEnabled"),
            Code::DuplicateScript => Some("DuplicateConfigScriptNames"),
            Code::DefaultInherits => Some("InheritanceErrors"),
            Code::InheritsItself => Some("InheritanceErrors"),
            Code::UnknownParent => Some("InheritanceErrors"),
            Code::InheritanceCycle => Some("InheritanceErrors"),
            Code::InvalidFilter => Some("CompileErrors"),
            Code::InvalidPlatform => Some("CompileErrors"),
            Code::RuleWithoutCondition => Some("CompileErrors"),
            Code::TwoFilters => Some("CompileErrors"),
            Code::UnknownGroup => Some("UnknownTestGroups"),
            Code::UnknownScript => Some("ProfileScriptErrors"),
            Code::WrongScriptKind => Some("ProfileScriptErrors"),
            Code::ListWrapperFilter => Some("ProfileScriptErrors"),
            Code::UnknownProfile => None,
            Code::UnknownTest => None,
            Code::SeveralTests => None,
        }
    }
}

/// Whether a code has a word.
fn has_word(code: Code, word: &str) -> bool
    ensures { IsTrue result ↔ (code_word code ≡ word.now) }
{
    code.word() == word
}

/// Returns the code of a word, if there is one.
pub fn find_code(word: &str) -> Option<Code>
    ensures { MatchOption result ((code : Code) → code_word code ≢ word.now)
        (λ code. code_word code ≡ word.now) }
{
    for code in CODES.iter() {
        if has_word(*code, word) {
            return Some(*code);
        }
    }
    None
}

/// Each code is among all.
pub fn law_all_codes()
    ensures { (code : Code) → Contains CODES code }
{}
