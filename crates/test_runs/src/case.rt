//! The lines of a case beside its files: the environment, and the command lines that run.
use rinqebo_request::{Environment, RunVariables};
use std::alloc::{AllocError, Global};
use test_cases::{Case, CaseError};

/// The environment of a case, and the command lines of the runs over its files.
#[derive(Drop)]
pub struct Setup<'a> {
    pub environment: Environment,
    /// How many bytes standard output takes before it is closed.
    pub output_room: usize,
    pub runs: Vec<&'a str>,
}

/// The environment of a case, without variables but `COLUMNS`, which is so large that rows fit.
fn environment_in(alloc: Global, folder: &str) -> Result<Environment, AllocError> {
    Ok(Environment {
        folder: String::from_str(alloc, folder)?,
        profile: None,
        target: None,
        colour: None,
        no_colour: None,
        columns: Some(String::from_str(alloc, "200")?),
        workflow_folder: None,
        setup_scripts: None,
        wrapper_scripts: None,
        run: RunVariables::default(),
        is_terminal: false,
        is_error_terminal: false,
    })
}

impl<'a> Setup<'a> {
    /// Takes a line of a case.
    fn take_line(&mut self, alloc: Global, line: &'a str) -> Result<(), CaseError<'a>> {
        let (word, rest) = line.split_once(' ').unwrap_or((line, ""));
        match word {
            "folder" => self.environment.folder = String::from_str(alloc, rest)?,
            "set" => {
                let (name, value) = rest.split_once(' ').unwrap_or((rest, ""));
                let value = String::from_str(alloc, value)?;
                self.put_variable(line, name, Some(value))?;
            }
            "unset" => self.put_variable(line, rest, None)?,
            "terminal" => self.environment.is_terminal = true,
            "closes-after" => {
                self.output_room = rest.parse::<usize>().ok().ok_or(CaseError::Line(line))?;
            }
            "error-terminal" => self.environment.is_error_terminal = true,
            "run" => self.runs.push(rest).map_err(AllocError::from)?,
            _ => return Err(CaseError::Line(line)),
        }
        Ok(())
    }

    /// Sets a variable of the environment, or removes it.
    fn put_variable(
        &mut self,
        line: &'a str,
        name: &str,
        value: Option<String>,
    ) -> Result<(), CaseError<'a>> {
        match name {
            "NEXTEST_PROFILE" => self.environment.profile = value,
            "CARGO_BUILD_TARGET" => self.environment.target = value,
            "CARGO_TERM_COLOR" => self.environment.colour = value,
            "NO_COLOR" => self.environment.no_colour = value,
            "COLUMNS" => self.environment.columns = value,
            "GITHUB_WORKSPACE" => self.environment.workflow_folder = value,
            "NEXTEST_EXPERIMENTAL_SETUP_SCRIPTS" => self.environment.setup_scripts = value,
            "NEXTEST_EXPERIMENTAL_WRAPPER_SCRIPTS" => self.environment.wrapper_scripts = value,
            "NEXTEST_RETRIES" => self.environment.run.retries = value,
            _ => return Err(CaseError::Line(line)),
        }
        Ok(())
    }

    /// The lines of a case beside its files.
    pub fn of(alloc: Global, case: &Case<'a>) -> Result<Setup<'a>, CaseError<'a>> {
        let mut setup = Setup {
            environment: environment_in(alloc, "/w")?,
            output_room: usize::MAX,
            runs: Vec::new(alloc),
        };
        for line in &case.lines {
            setup.take_line(alloc, *line)?;
        }
        Ok(setup)
    }
}
