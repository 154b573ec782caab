//! Puts a report together, line by line.
use crate::reports::found::{complete, finding_of};
use crate::reports::line::Line;
use crate::reports::parts::{answer_of, origin_of, scalar_of, verdict_of, written_of};
use crate::reports::requests::{bare_request, request_of};
use crate::row::RowError;
use rinqebo_report::{
    Asked, BuiltFor, Condition, ConditionAnswer, Content, Entry, Finding, ListScripts, ListWrapper,
    Origin, Report, ReportCommand, ReportedRequest, Rule, RunMode, Scalar, SettingRow, Source,
    SourceKind, TableMember, TestId, TestRows, Unreached, Value,
};
use std::alloc::{AllocError, Global};
use std::mem;

/// The command of a report: `check`, unless another one is named.
#[derive(Drop)]
enum Command {
    Explain,
    Why(String),
    List,
    ShowConfig,
}

/// A report as far as it is put together.
#[derive(Drop)]
pub struct Builder {
    alloc: Global,
    pub name: String,
    root: String,
    request: Option<ReportedRequest>,
    sources: Vec<Source>,
    command: Option<Command>,
    asked: Option<Asked>,
    tests: Vec<TestRows>,
    rules: Vec<Rule>,
    entries: Vec<Entry>,
    unused: Vec<Origin>,
    scripts: ListScripts,
    findings: Vec<Finding>,
    unreached: Vec<Unreached>,
}

/// No words yet, for a condition.
fn absent(alloc: Global) -> Condition {
    Condition {
        text: String::new(alloc),
        answer: ConditionAnswer::Absent,
    }
}

/// No scripts yet, for a list.
fn no_scripts(alloc: Global) -> ListScripts {
    ListScripts {
        setup: Vec::new(alloc),
        list_wrappers: Vec::new(alloc),
    }
}

/// The row of a test that runs, which has no origin yet.
fn runs_row(alloc: Global) -> Result<SettingRow, AllocError> {
    Ok(SettingRow {
        key: String::from_str(alloc, "runs")?,
        value: Some(Value::Scalar(Scalar::Boolean(true))),
        origins: Vec::new(alloc),
    })
}

impl Builder {
    /// No report yet.
    pub fn new(alloc: Global) -> Builder {
        Builder {
            alloc,
            name: String::new(alloc),
            root: String::new(alloc),
            request: None,
            sources: Vec::new(alloc),
            command: None,
            asked: None,
            tests: Vec::new(alloc),
            rules: Vec::new(alloc),
            entries: Vec::new(alloc),
            unused: Vec::new(alloc),
            scripts: no_scripts(alloc),
            findings: Vec::new(alloc),
            unreached: Vec::new(alloc),
        }
    }

    /// The report that is put together. None is there after it.
    pub fn take_report(&mut self) -> Result<Report, RowError> {
        let alloc = self.alloc;
        let request = self.take_request();
        let content = self.take_content()?;
        Ok(Report {
            request,
            root: mem::replace(&mut self.root, String::new(alloc)),
            sources: mem::replace(&mut self.sources, Vec::new(alloc)),
            findings: mem::replace(&mut self.findings, Vec::new(alloc)),
            unreached: mem::replace(&mut self.unreached, Vec::new(alloc)),
            content,
        })
    }

    /// The request: without a line of its own, it names the command alone.
    fn take_request(&mut self) -> ReportedRequest {
        let command = match &self.command {
            Some(Command::Explain) | Some(Command::Why(_)) => ReportCommand::Explain,
            Some(Command::List) => ReportCommand::List,
            Some(Command::ShowConfig) => ReportCommand::ShowConfig,
            None => ReportCommand::Check,
        };
        match self.request.take() {
            Some(request) => request,
            None => bare_request(self.alloc, command),
        }
    }

    fn take_content(&mut self) -> Result<Content, RowError> {
        let Some(asked) = self.asked.take() else {
            return Ok(Content::Check);
        };
        let alloc = self.alloc;
        match self.command.take() {
            Some(Command::Explain) => Ok(Content::Explain {
                asked,
                test: self.tests.pop().ok_or(RowError::NoRow)?,
            }),
            Some(Command::Why(key)) => Ok(Content::Why {
                asked,
                is_ignored: self.is_ignored(),
                test: self.take_test_id()?,
                key,
                rules: mem::replace(&mut self.rules, Vec::new(alloc)),
            }),
            Some(Command::List) => Ok(Content::List {
                asked,
                tests: mem::replace(&mut self.tests, Vec::new(alloc)),
                unused: mem::replace(&mut self.unused, Vec::new(alloc)),
                scripts: mem::replace(&mut self.scripts, no_scripts(alloc)),
                objects: None,
            }),
            Some(Command::ShowConfig) => Ok(Content::ShowConfig {
                asked,
                entries: mem::replace(&mut self.entries, Vec::new(alloc)),
            }),
            None => Err(RowError::NoRow),
        }
    }

    /// Whether a list marks the last test as ignored.
    fn is_ignored(&self) -> bool {
        match self.tests.last() {
            Some(test) => test.is_ignored,
            None => false,
        }
    }

    /// The names of the last test.
    fn take_test_id(&mut self) -> Result<TestId, RowError> {
        let test = self.tests.pop().ok_or(RowError::NoRow)?;
        Ok(TestId {
            binary: test.binary,
            name: test.name,
            platform: test.platform,
        })
    }

    /// Takes a line of a report.
    pub fn take(&mut self, line: &Line) -> Result<(), RowError> {
        match line.word(0)? {
            "case" => self.begin(line),
            "request" => {
                self.request = Some(request_of(self.alloc, line)?);
                Ok(())
            }
            "source" => self.add_source(line),
            "asked" => self.set_requested(line),
            "assumed" => self.assume_host(),
            "explain" | "why" | "list" | "show-config" => self.set_command(line),
            "test" => self.add_test(line),
            "runs" => self.show_runs(line),
            "ignored" => self.ignore_test(),
            "setting" => self.add_setting(line),
            "rule" => self.add_rule(line),
            "entry" | "hidden" => self.add_entry(line),
            "unused" => self.add_unused(line),
            "setup" => self.set_setup(line),
            "list-wrapper" => self.add_list_wrapper(line),
            "host" | "target" | "filter" => self.set_condition(line),
            "value" | "texts" | "table" => self.set_value(line),
            "field" => self.add_field(line),
            "built-in" | "default-table" | "profile" | "override" | "script" | "file" => {
                self.add_origin(line)
            }
            "finding" => self.add_finding(line),
            "findings" => self.add_findings(line),
            "at"
            | "path"
            | "line"
            | "part"
            | "expression"
            | "expected"
            | "upstream"
            | "note"
            | "help"
            | "help-beside" => self.complete_finding(line),
            "unreached" => self.add_unreached(line),
            _ => Err(RowError::NoRow),
        }
    }

    fn begin(&mut self, line: &Line) -> Result<(), RowError> {
        let mut fresh = Builder::new(self.alloc);
        fresh.name = line.text(self.alloc, 1)?;
        fresh.root = line.text(self.alloc, 2)?;
        *self = fresh;
        Ok(())
    }

    fn add_source(&mut self, line: &Line) -> Result<(), RowError> {
        let kind = match line.word(1)? {
            "default" => SourceKind::Default,
            "tool" => SourceKind::Tool(line.text(self.alloc, 2)?),
            "organisation" => SourceKind::Organisation,
            "explicit" => SourceKind::Explicit,
            "discovered" => SourceKind::Discovered,
            _ => return Err(RowError::NoRow),
        };
        let path = line.optional_text(self.alloc, 3)?;
        self.sources
            .push(Source { kind, path })
            .map_err(AllocError::from)?;
        Ok(())
    }

    fn set_requested(&mut self, line: &Line) -> Result<(), RowError> {
        let mut chain = Vec::new(self.alloc);
        for profile in line.word(2)?.split(' ') {
            let profile = String::from_str(self.alloc, profile)?;
            chain.push(profile).map_err(AllocError::from)?;
        }
        let mode = match line.word(3)? {
            "test" => RunMode::Test,
            "benchmark" => RunMode::Benchmark,
            _ => return Err(RowError::NoRow),
        };
        self.asked = Some(Asked {
            profile: line.text(self.alloc, 1)?,
            chain,
            mode,
            host: line.text(self.alloc, 4)?,
            assumes_host: false,
            target: line.optional_text(self.alloc, 5)?,
        });
        Ok(())
    }

    fn assume_host(&mut self) -> Result<(), RowError> {
        let Some(asked) = &mut self.asked else {
            return Err(RowError::NoRow);
        };
        asked.assumes_host = true;
        Ok(())
    }

    fn add_test(&mut self, line: &Line) -> Result<(), RowError> {
        let platform = match line.word(3)? {
            "host" => BuiltFor::Host,
            "target" => BuiltFor::Target,
            _ => return Err(RowError::NoRow),
        };
        let test = TestRows {
            binary: line.text(self.alloc, 1)?,
            name: line.text(self.alloc, 2)?,
            platform,
            runs: runs_row(self.alloc)?,
            is_ignored: false,
            shows_runs: false,
            settings: Vec::new(self.alloc),
        };
        self.tests.push(test).map_err(AllocError::from)?;
        Ok(())
    }

    fn set_command(&mut self, line: &Line) -> Result<(), RowError> {
        let command = match line.word(0)? {
            "explain" => Command::Explain,
            "why" => Command::Why(line.text(self.alloc, 1)?),
            "list" => Command::List,
            _ => Command::ShowConfig,
        };
        self.command = Some(command);
        Ok(())
    }

    fn show_runs(&mut self, line: &Line) -> Result<(), RowError> {
        let runs = match line.word(1)? {
            "true" => true,
            "false" => false,
            _ => return Err(RowError::NoRow),
        };
        let Some(test) = self.tests.last_mut() else {
            return Err(RowError::NoRow);
        };
        test.runs.value = Some(Value::Scalar(Scalar::Boolean(runs)));
        test.shows_runs = true;
        Ok(())
    }

    fn ignore_test(&mut self) -> Result<(), RowError> {
        let Some(test) = self.tests.last_mut() else {
            return Err(RowError::NoRow);
        };
        test.is_ignored = true;
        Ok(())
    }

    fn add_setting(&mut self, line: &Line) -> Result<(), RowError> {
        let key = line.text(self.alloc, 1)?;
        let origins = Vec::new(self.alloc);
        let Some(test) = self.tests.last_mut() else {
            return Err(RowError::NoRow);
        };
        let row = SettingRow {
            key,
            value: None,
            origins,
        };
        test.settings.push(row).map_err(AllocError::from)?;
        Ok(())
    }

    fn add_rule(&mut self, line: &Line) -> Result<(), RowError> {
        let verdict = verdict_of(line.word(1)?).ok_or(RowError::NoRow)?;
        let rule = Rule {
            verdict,
            origin: Origin::BuiltIn,
            others: Vec::new(self.alloc),
            host: absent(self.alloc),
            target: absent(self.alloc),
            filter: absent(self.alloc),
            value: None,
        };
        self.rules.push(rule).map_err(AllocError::from)?;
        Ok(())
    }

    fn add_entry(&mut self, line: &Line) -> Result<(), RowError> {
        let entry = Entry {
            key: line.text(self.alloc, 1)?,
            value: Value::Table(Vec::new(self.alloc)),
            origin: Origin::BuiltIn,
            is_hidden: line.word(0)? == "hidden",
        };
        self.entries.push(entry).map_err(AllocError::from)?;
        Ok(())
    }

    fn add_unused(&mut self, line: &Line) -> Result<(), RowError> {
        let origin = written_of(self.alloc, line, 1)?;
        self.unused.push(origin).map_err(AllocError::from)?;
        Ok(())
    }

    fn set_setup(&mut self, line: &Line) -> Result<(), RowError> {
        self.scripts.setup = line.texts(self.alloc, 1)?;
        Ok(())
    }

    fn add_list_wrapper(&mut self, line: &Line) -> Result<(), RowError> {
        let wrapper = ListWrapper {
            binary: line.text(self.alloc, 1)?,
            value: line.text(self.alloc, 2)?,
        };
        let wrappers = &mut self.scripts.list_wrappers;
        wrappers.push(wrapper).map_err(AllocError::from)?;
        Ok(())
    }

    fn set_condition(&mut self, line: &Line) -> Result<(), RowError> {
        let answer = answer_of(line.word(1)?).ok_or(RowError::NoRow)?;
        let text = line.text(self.alloc, 2)?;
        let Some(rule) = self.rules.last_mut() else {
            return Err(RowError::NoRow);
        };
        let condition = Condition { text, answer };
        match line.word(0)? {
            "host" => rule.host = condition,
            "target" => rule.target = condition,
            _ => rule.filter = condition,
        }
        Ok(())
    }

    fn set_value(&mut self, line: &Line) -> Result<(), RowError> {
        let value = match line.word(0)? {
            "value" => Value::Scalar(scalar_of(self.alloc, line, 1)?),
            "texts" => Value::Texts(line.texts(self.alloc, 1)?),
            _ => Value::Table(Vec::new(self.alloc)),
        };
        if let Some(entry) = self.entries.last_mut() {
            entry.value = value;
        } else if let Some(rule) = self.rules.last_mut() {
            rule.value = Some(value);
        } else {
            self.last_setting()?.value = Some(value);
        }
        Ok(())
    }

    /// The last setting of the last test, or else the row of whether it runs.
    fn last_setting(&mut self) -> Result<&mut SettingRow, RowError> {
        match self.tests.last_mut() {
            Some(test) if test.settings.is_empty() => Ok(&mut test.runs),
            Some(test) => test.settings.last_mut().ok_or(RowError::NoRow),
            None => Err(RowError::NoRow),
        }
    }

    fn add_field(&mut self, line: &Line) -> Result<(), RowError> {
        let field = TableMember {
            key: line.text(self.alloc, 1)?,
            value: scalar_of(self.alloc, line, 2)?,
        };
        if let Some(entry) = self.entries.last_mut() {
            push_field(&mut entry.value, field)
        } else if let Some(rule) = self.rules.last_mut() {
            push_optional_field(&mut rule.value, field)
        } else {
            push_optional_field(&mut self.last_setting()?.value, field)
        }
    }

    fn add_origin(&mut self, line: &Line) -> Result<(), RowError> {
        let origin = origin_of(self.alloc, line)?;
        if let Some(entry) = self.entries.last_mut() {
            entry.origin = origin;
        } else if let Some(rule) = self.rules.last_mut() {
            rule.origin = origin;
        } else {
            let row = self.last_setting()?;
            row.origins.push(origin).map_err(AllocError::from)?;
        }
        Ok(())
    }

    fn add_finding(&mut self, line: &Line) -> Result<(), RowError> {
        let finding = finding_of(self.alloc, line)?;
        self.findings.push(finding).map_err(AllocError::from)?;
        Ok(())
    }

    /// Adds as many findings as the number behind the message says.
    fn add_findings(&mut self, line: &Line) -> Result<(), RowError> {
        for _index in 0..line.number(4)? {
            self.add_finding(line)?;
        }
        Ok(())
    }

    fn complete_finding(&mut self, line: &Line) -> Result<(), RowError> {
        match self.findings.last_mut() {
            Some(finding) => complete(self.alloc, finding, line),
            None => Err(RowError::NoRow),
        }
    }

    fn add_unreached(&mut self, line: &Line) -> Result<(), RowError> {
        let unreached = Unreached {
            source: line.number(1)? as usize,
            checks: line.texts(self.alloc, 2)?,
        };
        self.unreached.push(unreached).map_err(AllocError::from)?;
        Ok(())
    }
}

/// Adds a member to a value, which is to be a table.
fn push_field(value: &mut Value, field: TableMember) -> Result<(), RowError> {
    match value {
        Value::Table(fields) => {
            fields.push(field).map_err(AllocError::from)?;
            Ok(())
        }
        Value::Scalar(_) | Value::Texts(_) => Err(RowError::NoRow),
    }
}

/// Adds a member to a value, which is to be there.
fn push_optional_field(value: &mut Option<Value>, field: TableMember) -> Result<(), RowError> {
    match value {
        Some(value) => push_field(value, field),
        None => Err(RowError::NoRow),
    }
}
