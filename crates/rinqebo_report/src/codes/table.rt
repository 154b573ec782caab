//! What each code means, an example, what to do, and the example corrected.
ghost use Rattle.std.specs.Prelude.{◌≡◌, map};
ghost use Rattle.rinqebo_report.specs.Codes.Codes.{code_meaning, code_example, code_advice, code_correction};

use crate::codes::code::Code;

impl Code {
    /// What it means.
    #[tactic(auto, unfolding(crate::specs::Codes::Codes::code_meaning))]
    pub fn meaning(self) -> &'static str
        ensures { result.now ≡ code_meaning self }
    {
        match self {
            Code::UnknownKey =>
                "No table of a configuration has the key here, so it has no effect.",
            Code::ReservedProfile =>
                "Names of profiles that begin with `default-` are nextest's own.",
            Code::OldScriptTable =>
                "Setup scripts are in the table `script`, their place in earlier versions.",
            Code::EmptyScriptRule =>
                "A rule under `scripts` of a profile names no script, so it has no effect.",
            Code::JunitWithoutPath =>
                "A setting of the JUnit report has no effect if no `junit.path` is set.",
            Code::SecondToolFile =>
                "Two `--tool-config-file` options name one tool, which may provide one file.",
            Code::UnreadableFile => "A file that an option names cannot be read.",
            Code::NotToml => "The text of the file is not a TOML document.",
            Code::WrongKind => "A value has another kind than its key takes.",
            Code::MissingKey => "A table lacks a key that it has to have.",
            Code::InvalidValue => "A string is not one that its key takes, or has another form.",
            Code::OutOfRange => "A value is too small, too large or empty.",
            Code::MaxDelayBelowDelay =>
                "Delays grow from `delay` up to `max-delay`, which may not be the shorter one.",
            Code::RefusedKey => "A table that refuses unknown keys has one.",
            Code::ForeignGroup =>
                "The name of a group begins as another file's: `@tool:NAME:`, `@org:` or neither.",
            Code::ForeignScript =>
                "The name of a script begins as another file's: `@tool:NAME:`, `@org:` or neither.",
            Code::TwoScriptTables =>
                "A file has the table `scripts` and its old spelling `script`.",
            Code::FeatureOff => "A file uses an experimental feature that is not enabled.",
            Code::DuplicateScript => "A setup script and a wrapper script have the same name.",
            Code::DefaultInherits => "The profile `default` may not inherit from another profile.",
            Code::InheritsItself => "A profile inherits from itself.",
            Code::UnknownParent => "A profile inherits from a profile that no file has.",
            Code::InheritanceCycle => "Profiles inherit from each other in a cycle.",
            Code::InvalidFilter => "A filter is not an expression of the filter language.",
            Code::InvalidPlatform =>
                "A platform is neither the name of a target nor a `cfg` expression.",
            Code::RuleWithoutCondition => "A rule has neither a platform nor a filter.",
            Code::TwoFilters =>
                "An override has `filter` and `default-filter`, of which it may have one.",
            Code::UnknownGroup => "An override sets a group that no file defines.",
            Code::UnknownScript => "A rule names a script that no file defines.",
            Code::WrongScriptKind =>
                "A rule names a script at a key that takes scripts of another kind.",
            Code::ListWrapperFilter =>
                "A list wrapper wraps a whole binary, so its filter may not use tests.",
            Code::UnknownProfile => "No file has the given profile.",
            Code::UnknownTest => "The list has no test of the given name.",
            Code::SeveralTests => "Several tests have the given name.",
        }
    }

    /// The lines of an example.
    #[tactic(auto, unfolding(crate::specs::Codes::Codes::code_example))]
    pub fn example(self) -> &'static [&'static str]
        ensures { map (λ line. line.now) result.now ≡ code_example self }
    {
        match self {
            Code::UnknownKey => &["[profile.default]", "retires = 2"],
            Code::ReservedProfile => &["[profile.default-ci]", "retries = 2"],
            Code::OldScriptTable => &["[script.db]", "command = 'make db'"],
            Code::EmptyScriptRule => &["[[profile.ci.scripts]]", "filter = 'test(db)'"],
            Code::JunitWithoutPath => &["[profile.ci.junit]", "report-name = 'ci'"],
            Code::SecondToolFile => &[
                "--tool-config-file lint:a.toml --tool-config-file lint:b.toml",
            ],
            Code::UnreadableFile => &["--config-file nextest.tml"],
            Code::NotToml => &["retries: 2"],
            Code::WrongKind => &["[profile.ci]", "retries = '2'"],
            Code::MissingKey => &["[test-groups.db]"],
            Code::InvalidValue => &["[profile.ci]", "status-level = 'loud'"],
            Code::OutOfRange => &["[profile.ci]", "retries = -1"],
            Code::MaxDelayBelowDelay => &[
                "[profile.ci.retries]",
                "backoff = 'exponential'",
                "count = 2",
                "delay = '10s'",
                "max-delay = '1s'",
            ],
            Code::RefusedKey => &[
                "[scripts.setup.db]",
                "command = { command-line = 'make db', dir = 'x' }",
            ],
            Code::ForeignGroup => &["[test-groups.'@tool:lint:db']", "max-threads = 1"],
            Code::ForeignScript => &["[scripts.setup.'@tool:lint:db']", "command = 'make db'"],
            Code::TwoScriptTables => &[
                "[script.db]",
                "command = 'make db'",
                "[scripts.setup.user]",
                "command = 'make user'",
            ],
            Code::FeatureOff => &["[scripts.setup.db]", "command = 'make db'"],
            Code::DuplicateScript => &[
                "[scripts.setup.db]",
                "command = 'make db'",
                "[scripts.wrapper.db]",
                "command = 'with-db'",
            ],
            Code::DefaultInherits => &["[profile.default]", "inherits = 'ci'"],
            Code::InheritsItself => &["[profile.ci]", "inherits = 'ci'"],
            Code::UnknownParent => &["[profile.ci]", "inherits = 'bse'", "[profile.base]"],
            Code::InheritanceCycle => &[
                "[profile.a]",
                "inherits = 'b'",
                "[profile.b]",
                "inherits = 'a'",
            ],
            Code::InvalidFilter => &["[profile.ci]", "default-filter = 'test(db'"],
            Code::InvalidPlatform => &[
                "[[profile.ci.overrides]]",
                "platform = 'cfg(unix'",
                "retries = 1",
            ],
            Code::RuleWithoutCondition => &["[[profile.ci.overrides]]", "retries = 1"],
            Code::TwoFilters => &[
                "[[profile.ci.overrides]]",
                "platform = 'cfg(unix)'",
                "filter = 'all()'",
                "default-filter = 'all()'",
            ],
            Code::UnknownGroup => &[
                "[test-groups.db]",
                "max-threads = 1",
                "[[profile.ci.overrides]]",
                "filter = 'test(db)'",
                "test-group = 'bd'",
            ],
            Code::UnknownScript => &[
                "[scripts.setup.db]",
                "command = 'make db'",
                "[[profile.ci.scripts]]",
                "filter = 'test(db)'",
                "setup = 'bd'",
            ],
            Code::WrongScriptKind => &[
                "[scripts.setup.db]",
                "command = 'make db'",
                "[[profile.ci.scripts]]",
                "filter = 'test(db)'",
                "run-wrapper = 'db'",
            ],
            Code::ListWrapperFilter => &[
                "[[profile.ci.scripts]]",
                "filter = 'test(db)'",
                "list-wrapper = 'db'",
            ],
            Code::UnknownProfile => &["rinqebo explain --profile cii api db_test"],
            Code::UnknownTest => &["rinqebo explain --list list.json api db_tset"],
            Code::SeveralTests => &["rinqebo explain --list list.json db_test"],
        }
    }

    /// What to do.
    #[tactic(auto, unfolding(crate::specs::Codes::Codes::code_advice))]
    pub fn advice(self) -> &'static str
        ensures { result.now ≡ code_advice self }
    {
        match self {
            Code::UnknownKey => "Write the key that is meant.",
            Code::ReservedProfile => "Choose another name.",
            Code::OldScriptTable => "Move them to `scripts.setup`.",
            Code::EmptyScriptRule => "Name a script, or remove the rule.",
            Code::JunitWithoutPath => "Set the path of the report.",
            Code::SecondToolFile => "Name one file of the tool.",
            Code::UnreadableFile => "Name a file that is there and that may be read.",
            Code::NotToml => "Write TOML.",
            Code::WrongKind => "Write a value of a kind that the key takes.",
            Code::MissingKey => "Add the key.",
            Code::InvalidValue => "Write one of the strings that the key takes.",
            Code::OutOfRange => "Write a value in the range that the key takes.",
            Code::MaxDelayBelowDelay => "Raise `max-delay`, or lower `delay`.",
            Code::RefusedKey => "Remove the key.",
            Code::ForeignGroup => "Choose a name of the file's own.",
            Code::ForeignScript => "Choose a name of the file's own.",
            Code::TwoScriptTables => "Move all scripts to `scripts.setup`.",
            Code::FeatureOff => "Switch it on, in the file or by `--experimental`.",
            Code::DuplicateScript => "Rename one of them.",
            Code::DefaultInherits => "Remove `inherits`.",
            Code::InheritsItself => "Name another profile, or remove `inherits`.",
            Code::UnknownParent => "Name a profile that is there.",
            Code::InheritanceCycle => "Remove one `inherits`.",
            Code::InvalidFilter => "Correct the part that is marked.",
            Code::InvalidPlatform => "Correct the part that is marked.",
            Code::RuleWithoutCondition => "Add `filter` or `platform`.",
            Code::TwoFilters => "Remove one of them.",
            Code::UnknownGroup => "Name a group that is defined, or define it.",
            Code::UnknownScript => "Name a script that is defined, or define it.",
            Code::WrongScriptKind => "Name the script at the key of its kind.",
            Code::ListWrapperFilter => "Use packages, binaries or kinds.",
            Code::UnknownProfile => "Name a profile that is there.",
            Code::UnknownTest => "Name a test that is in the list.",
            Code::SeveralTests => "Name the binary, too.",
        }
    }

    /// The lines of the example, corrected.
    #[tactic(auto, unfolding(crate::specs::Codes::Codes::code_correction))]
    pub fn correction(self) -> &'static [&'static str]
        ensures { map (λ line. line.now) result.now ≡ code_correction self }
    {
        match self {
            Code::UnknownKey => &["[profile.default]", "retries = 2"],
            Code::ReservedProfile => &["[profile.ci]", "retries = 2"],
            Code::OldScriptTable => &["[scripts.setup.db]", "command = 'make db'"],
            Code::EmptyScriptRule => &[
                "[[profile.ci.scripts]]",
                "filter = 'test(db)'",
                "setup = 'db'",
            ],
            Code::JunitWithoutPath => &[
                "[profile.ci.junit]",
                "path = 'junit.xml'",
                "report-name = 'ci'",
            ],
            Code::SecondToolFile => &["--tool-config-file lint:a.toml"],
            Code::UnreadableFile => &["--config-file nextest.toml"],
            Code::NotToml => &["retries = 2"],
            Code::WrongKind => &["[profile.ci]", "retries = 2"],
            Code::MissingKey => &["[test-groups.db]", "max-threads = 1"],
            Code::InvalidValue => &["[profile.ci]", "status-level = 'all'"],
            Code::OutOfRange => &["[profile.ci]", "retries = 1"],
            Code::MaxDelayBelowDelay => &[
                "[profile.ci.retries]",
                "backoff = 'exponential'",
                "count = 2",
                "delay = '1s'",
                "max-delay = '10s'",
            ],
            Code::RefusedKey => &[
                "[scripts.setup.db]",
                "command = { command-line = 'make db' }",
            ],
            Code::ForeignGroup => &["[test-groups.db]", "max-threads = 1"],
            Code::ForeignScript => &["[scripts.setup.db]", "command = 'make db'"],
            Code::TwoScriptTables => &[
                "[scripts.setup.db]",
                "command = 'make db'",
                "[scripts.setup.user]",
                "command = 'make user'",
            ],
            Code::FeatureOff => &[
                "experimental = ['setup-scripts']",
                "[scripts.setup.db]",
                "command = 'make db'",
            ],
            Code::DuplicateScript => &[
                "[scripts.setup.db]",
                "command = 'make db'",
                "[scripts.wrapper.with-db]",
                "command = 'with-db'",
            ],
            Code::DefaultInherits => &["[profile.default]"],
            Code::InheritsItself => &["[profile.ci]", "inherits = 'default'"],
            Code::UnknownParent => &["[profile.ci]", "inherits = 'base'", "[profile.base]"],
            Code::InheritanceCycle => &["[profile.a]", "inherits = 'b'", "[profile.b]"],
            Code::InvalidFilter => &["[profile.ci]", "default-filter = 'test(db)'"],
            Code::InvalidPlatform => &[
                "[[profile.ci.overrides]]",
                "platform = 'cfg(unix)'",
                "retries = 1",
            ],
            Code::RuleWithoutCondition => &[
                "[[profile.ci.overrides]]",
                "filter = 'all()'",
                "retries = 1",
            ],
            Code::TwoFilters => &[
                "[[profile.ci.overrides]]",
                "platform = 'cfg(unix)'",
                "default-filter = 'all()'",
            ],
            Code::UnknownGroup => &[
                "[test-groups.db]",
                "max-threads = 1",
                "[[profile.ci.overrides]]",
                "filter = 'test(db)'",
                "test-group = 'db'",
            ],
            Code::UnknownScript => &[
                "[scripts.setup.db]",
                "command = 'make db'",
                "[[profile.ci.scripts]]",
                "filter = 'test(db)'",
                "setup = 'db'",
            ],
            Code::WrongScriptKind => &[
                "[scripts.setup.db]",
                "command = 'make db'",
                "[[profile.ci.scripts]]",
                "filter = 'test(db)'",
                "setup = 'db'",
            ],
            Code::ListWrapperFilter => &[
                "[[profile.ci.scripts]]",
                "filter = 'package(db)'",
                "list-wrapper = 'db'",
            ],
            Code::UnknownProfile => &["rinqebo explain --profile ci api db_test"],
            Code::UnknownTest => &["rinqebo explain --list list.json api db_test"],
            Code::SeveralTests => &["rinqebo explain --list list.json api db_test"],
        }
    }
}
