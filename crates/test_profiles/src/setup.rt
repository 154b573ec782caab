//! The lines of a case that are not about its files: a build, tests, and the profiles to run.
use nextest_config::{
    BinaryQuery, BuildPlatform, ConfigPath, ConfigPaths, FileInput, InvalidIdentifier, TestQuery,
    ToolConfigFile, ToolName,
};
use nextest_sources::FileReader;
use std::alloc::{AllocError, Global};
use test_cases::{Case, CaseError, StoredFiles};

/// The host if a case names none.
const LINUX: &str = "x86_64-unknown-linux-gnu";

/// The files of a case, a build, tests, and the profiles to run.
#[derive(Drop)]
pub struct Setup<'a> {
    pub name: &'a str,
    pub paths: ConfigPaths,
    pub organisation: Option<FileInput>,
    pub tools: Vec<ToolConfigFile>,
    pub host: &'a str,
    pub target: Option<&'a str>,
    pub tests: Vec<TestQuery<'a>>,
    pub binaries: Vec<BinaryQuery<'a>>,
    pub groups: Vec<&'a str>,
    /// The words of which one begins each line that is printed. Without them all lines are.
    pub shown: Option<&'a str>,
    /// The names of the profiles that the case is run for.
    pub profiles: Vec<&'a str>,
}

/// Adds an item to a list.
fn push<T: Drop>(items: &mut Vec<T>, item: T) -> Result<(), AllocError> {
    items.push(item)?;
    Ok(())
}

/// The query for a binary of this id.
fn binary_of(binary_id: &str, platform: BuildPlatform) -> BinaryQuery<'_> {
    BinaryQuery {
        package_id: "",
        binary_id,
        kind: "",
        binary_name: "",
        platform,
    }
}

/// The query for a test of this name, of the binary `b`.
fn test_of(test_name: &str, platform: BuildPlatform) -> TestQuery<'_> {
    TestQuery {
        binary_query: binary_of("b", platform),
        test_name,
    }
}

/// The file of a case at a path.
fn file_at(alloc: Global, files: &StoredFiles<'_>, path: &str) -> Result<FileInput, AllocError> {
    Ok(FileInput {
        path: ConfigPath::new(alloc, path)?,
        outcome: files.read(alloc, path)?,
    })
}

impl<'a> Setup<'a> {
    /// A case of which no line is taken yet, on the usual host.
    fn new(alloc: Global, case: &Case<'a>) -> Result<Setup<'a>, AllocError> {
        let paths = ConfigPaths {
            workspace_root: String::from_str(alloc, "/w")?,
            shared: file_at(alloc, &case.files, "/w/.config/nextest.toml")?,
        };
        Ok(Setup {
            name: case.name,
            paths,
            organisation: None,
            tools: Vec::new(alloc),
            host: LINUX,
            target: None,
            tests: Vec::new(alloc),
            binaries: Vec::new(alloc),
            groups: Vec::new(alloc),
            shown: None,
            profiles: Vec::new(alloc),
        })
    }

    /// Adds the file of a tool, which is at `/NAME.toml`.
    fn add_tool(
        &mut self,
        alloc: Global,
        files: &StoredFiles<'_>,
        line: &'a str,
        name: &str,
    ) -> Result<(), CaseError<'a>> {
        let tool = match ToolName::new(alloc, name) {
            Ok(tool) => tool,
            Err(InvalidIdentifier::Memory) => return Err(CaseError::Memory),
            Err(_) => return Err(CaseError::Line(line)),
        };
        let path = format!(in alloc; "/{name}.toml")?;
        let config_file = file_at(alloc, files, path.as_str())?;
        push(&mut self.tools, ToolConfigFile { tool, config_file })?;
        Ok(())
    }

    /// Takes a line of a case that is not about the texts of its files.
    fn take_line(
        &mut self,
        alloc: Global,
        files: &StoredFiles<'_>,
        line: &'a str,
    ) -> Result<(), CaseError<'a>> {
        let (word, rest) = line.split_once(' ').unwrap_or((line, ""));
        match word {
            "organisation" => self.organisation = Some(file_at(alloc, files, rest)?),
            "tool" => self.add_tool(alloc, files, line, rest)?,
            "host" => self.host = rest,
            "target" => self.target = Some(rest),
            "test" => push(&mut self.tests, test_of(rest, BuildPlatform::Target))?,
            "host-test" => push(&mut self.tests, test_of(rest, BuildPlatform::Host))?,
            "binary" => push(&mut self.binaries, binary_of(rest, BuildPlatform::Target))?,
            "group" => push(&mut self.groups, rest)?,
            "show" => self.shown = Some(rest),
            "profile" => push(&mut self.profiles, rest)?,
            _ => return Err(CaseError::Line(line)),
        }
        Ok(())
    }

    /// The lines of a case.
    pub fn of(alloc: Global, case: &Case<'a>) -> Result<Setup<'a>, CaseError<'a>> {
        let mut setup = Setup::new(alloc, case)?;
        for line in &case.lines {
            setup.take_line(alloc, &case.files, *line)?;
        }
        if setup.profiles.is_empty() {
            return Err(CaseError::NoRun(case.name));
        }
        Ok(setup)
    }
}
