//! Reports: what commands print.
use crate::exact_value::ExactValue;
use crate::finding::Finding;
use crate::origin::{Origin, Source};
use crate::reported_request::ReportedRequest;
use crate::value::Value;

/// For what tests are run.
#[derive(Clone, Copy)]
pub enum RunMode {
    /// To be tested.
    Test,
    /// To be measured.
    Benchmark,
}

/// For what a binary is built.
#[derive(Clone, Copy)]
pub enum BuiltFor {
    /// For the machine that builds.
    Host,
    /// For the machine that is built for.
    Target,
}

/// What was requested.
pub struct Asked {
    /// The profile.
    pub profile: String,
    /// The profiles that count, the nearest first.
    pub chain: Vec<String>,
    /// For what tests are run.
    pub mode: RunMode,
    /// The triple of the host.
    pub host: String,
    /// Whether the triple of the host is only assumed: neither an option nor a list says it.
    pub assumes_host: bool,
    /// The triple of the target, where there is one.
    pub target: Option<String>,
}

// Written out, so that the proof of a caller sees one call and not the drop of each part.
impl Drop for Asked {
    fn drop(self) {
        let Asked {
            profile: _profile,
            chain: _chain,
            mode: _mode,
            host: _host,
            assumes_host: _assumes_host,
            target: _target,
        } = self;
    }
}

/// A setting of a test.
pub struct SettingRow {
    /// The keys that lead to it, with dots between them.
    pub key: String,
    /// Its value, if it has one.
    pub value: Option<Value>,
    /// What decides it, each once.
    pub origins: Vec<Origin>,
}

// Written out, so that the proof of a caller sees one call and not the drop of each part.
impl Drop for SettingRow {
    fn drop(self) {
        let SettingRow {
            key: _key,
            value: _value,
            origins: _origins,
        } = self;
    }
}

/// A test, whether it runs, and its settings.
#[derive(Drop)]
pub struct TestRows {
    /// The id of its binary.
    pub binary: String,
    /// Its name within the binary.
    pub name: String,
    /// For what the binary is built.
    pub platform: BuiltFor,
    /// Whether it runs: the row of `runs`.
    pub runs: SettingRow,
    /// Whether a list says that it is ignored. Such a test does not run, whatever selects it.
    pub is_ignored: bool,
    /// Whether pages show whether it runs. A document of JSON always has it.
    pub shows_runs: bool,
    /// Its settings that are reported. The keys are apart from each other.
    pub settings: Vec<SettingRow>,
}

/// The names of a test.
#[derive(Drop)]
pub struct TestId {
    /// The id of its binary.
    pub binary: String,
    /// Its name within the binary.
    pub name: String,
    /// For what the binary is built.
    pub platform: BuiltFor,
}

/// A leaf of the configuration.
#[derive(Drop)]
pub struct Entry {
    /// The keys that lead to it, with dots between them.
    pub key: String,
    /// The value that the origin gives it.
    pub value: Value,
    /// What writes it.
    pub origin: Origin,
    /// Whether another source's value counts in place of this one.
    pub is_hidden: bool,
}

/// The result of a rule for a test and a setting.
#[derive(Clone, Copy)]
pub enum Verdict {
    /// Its platforms do not hold.
    PlatformNo,
    /// Its filter does not match.
    FilterNo,
    /// It does not write the setting.
    SetsNothing,
    /// It would decide, but a rule before it does.
    DecidedBefore,
    /// It decides.
    Decides,
    /// It counts if no rule decides.
    Fallback,
}

/// The result of a condition of a rule for a test.
#[derive(Clone, Copy)]
pub enum ConditionAnswer {
    /// The rule has no such condition.
    Absent,
    /// It holds.
    Yes,
    /// It does not hold.
    No,
    /// It cannot be decided, which counts as met.
    Unknown,
    /// It was not evaluated.
    Unrequested,
}

/// A condition of a rule.
#[derive(Drop)]
pub struct Condition {
    /// How the rule writes it.
    pub text: String,
    /// Its result.
    pub answer: ConditionAnswer,
}

/// A rule, and its result.
pub struct Rule {
    /// Its result.
    pub verdict: Verdict,
    /// Where it is, or where the value comes from that counts if no rule decides.
    pub origin: Origin,
    /// The other origins of a value that several files write parts of.
    pub others: Vec<Origin>,
    /// Its condition on the host.
    pub host: Condition,
    /// Its condition on the target.
    pub target: Condition,
    /// Its condition on the test.
    pub filter: Condition,
    /// What it writes for the setting, if it decides or would.
    pub value: Option<Value>,
}

// Written out, so that the proof of a caller sees one call and not the drop of each part.
impl Drop for Rule {
    fn drop(self) {
        let Rule {
            verdict: _verdict,
            origin: _origin,
            others: _others,
            host: _host,
            target: _target,
            filter: _filter,
            value: _value,
        } = self;
    }
}

/// The script that wraps a binary while it lists its tests.
#[derive(Drop)]
pub struct ListWrapper {
    /// The id of the binary.
    pub binary: String,
    /// The id of the script.
    pub value: String,
}

/// The scripts of a list that a run needs beside the settings of each test.
#[derive(Drop)]
pub struct ListScripts {
    /// The ids of the setup scripts that the tests enable, in the order in which they run.
    pub setup: Vec<String>,
    /// The list wrappers of the binaries that have one, in the order of the binaries.
    pub list_wrappers: Vec<ListWrapper>,
}

/// Checks of a source that were not reached.
#[derive(Drop)]
pub struct Unreached {
    /// The place of the source among those of the report, from 0.
    pub source: usize,
    /// The names of the checks.
    pub checks: Vec<String>,
}

/// What a command reports beside its findings.
pub enum Content {
    /// The settings of a test.
    Explain {
        asked: Asked,
        /// The test.
        test: TestRows,
    },
    /// The rules of a setting, in order, and then what counts if none decides.
    Why {
        asked: Asked,
        /// The test that the rules are applied to.
        test: TestId,
        /// The key of the setting.
        key: String,
        rules: Vec<Rule>,
        /// Whether the key is that of whether the test runs, and a list says that it is ignored.
        is_ignored: bool,
    },
    /// What is set for each test.
    List {
        asked: Asked,
        tests: Vec<TestRows>,
        /// The rules that hold for no test.
        unused: Vec<Origin>,
        /// The scripts that run before the tests, or around the binaries.
        scripts: ListScripts,
        /// What a runner needs of the profile as a whole, where it is listed. Pages do not show it.
        objects: Option<ExactValue>,
    },
    /// Leaves of the configuration.
    ShowConfig {
        asked: Asked,
        entries: Vec<Entry>,
    },
    /// Nothing else.
    Check,
}

// Written out, so that the proof of a caller sees one call and not the drop of each part.
impl Drop for Content {
    fn drop(self) {
        match self {
            Content::Explain {
                asked: _asked,
                test: _test,
            } => {}
            Content::Why {
                asked: _asked,
                test: _test,
                key: _key,
                rules: _rules,
                is_ignored: _is_ignored,
            } => {}
            Content::List {
                asked: _asked,
                tests: _tests,
                unused: _unused,
                scripts: _scripts,
                objects: _objects,
            } => {}
            Content::ShowConfig {
                asked: _asked,
                entries: _entries,
            } => {}
            Content::Check => {}
        }
    }
}

/// A report: what a command prints.
pub struct Report {
    /// The request of the user.
    pub request: ReportedRequest,
    /// The root of the workspace.
    pub root: String,
    /// The sources, the lowest first.
    pub sources: Vec<Source>,
    /// The findings in them.
    pub findings: Vec<Finding>,
    /// The checks that were not reached because of errors.
    pub unreached: Vec<Unreached>,
    /// What the command reports beside the findings.
    pub content: Content,
}

// Written out, so that the proof of a caller sees one call and not the drop of each part.
impl Drop for Report {
    fn drop(self) {
        let Report {
            request: _request,
            root: _root,
            sources: _sources,
            findings: _findings,
            unreached: _unreached,
            content: _content,
        } = self;
    }
}
