//! What the program reads from its process: variables, and whether its streams are terminals.
ghost use Rattle.std.specs.Prelude.{◌≡◌, ◌↔◌, IsTrue, option_map};
ghost use Rattle.rinqebo_request.specs.Variables.{IsSwitchedOn, some_text, text_set};

use nextest_elements::ConfigExperimental;

/// The variables that override all files in a run of nextest. A variable that is not set is absent.
#[derive(Debug, Default, Drop)]
pub struct RunVariables {
    /// `NEXTEST_RETRIES`, in place of `retries`.
    pub retries: Option<String>,
    /// `NEXTEST_FLAKY_RESULT`, in place of `flaky-result`.
    pub flaky_result: Option<String>,
    /// `NEXTEST_SUCCESS_OUTPUT`, in place of `success-output`.
    pub success_output: Option<String>,
    /// `NEXTEST_FAILURE_OUTPUT`, in place of `failure-output`.
    pub failure_output: Option<String>,
}

/// What the program reads from its process. A variable that is not set is absent, and an empty one
/// counts as not set.
#[derive(Debug, Drop)]
pub struct Environment {
    /// The absolute path of the current folder. The program looks for the root from here upward.
    pub folder: String,
    /// `NEXTEST_PROFILE`, the profile if no option names one.
    pub profile: Option<String>,
    /// `CARGO_BUILD_TARGET`, the triple of the target if no option names one.
    pub target: Option<String>,
    /// `CARGO_TERM_COLOR`, when to use colours if no option says so.
    pub colour: Option<String>,
    /// `NO_COLOR`. If it is not empty, a terminal has colours only if the user requests them.
    pub no_colour: Option<String>,
    /// `COLUMNS`, how many columns a line of a page has.
    pub columns: Option<String>,
    /// `GITHUB_WORKSPACE`, the folder that `--format github` writes paths from.
    pub workflow_folder: Option<String>,
    /// `NEXTEST_EXPERIMENTAL_SETUP_SCRIPTS`. The value `1` enables setup scripts.
    pub setup_scripts: Option<String>,
    /// `NEXTEST_EXPERIMENTAL_WRAPPER_SCRIPTS`. The value `1` enables wrapper scripts.
    pub wrapper_scripts: Option<String>,
    /// The variables that override all files in a run of nextest.
    pub run: RunVariables,
    /// Whether standard output is a terminal.
    pub is_terminal: bool,
    /// Whether standard error is a terminal.
    pub is_error_terminal: bool,
}

/// Returns the text of a variable if it is set and not empty.
pub fn set(variable: &Option<String>) -> Option<&str>
    ensures { option_map (λ text. text.now) result ≡ text_set variable.now }
{
    match variable {
        Some(value) => some_text(value.as_str()),
        None => None,
    }
}

/// Returns a text, if it is not empty.
fn some_text(text: &str) -> Option<&str>
    ensures { option_map (λ text. text.now) result ≡ some_text text.now }
{
    if text.is_empty() { None } else { Some(text) }
}

impl Environment {
    /// Whether a variable enables a feature.
    pub fn switches_on(&self, feature: ConfigExperimental) -> bool
        ensures { IsTrue result ↔ IsSwitchedOn self.now feature }
    {
        let variable = match feature {
            ConfigExperimental::SetupScripts => &self.setup_scripts,
            ConfigExperimental::WrapperScripts => &self.wrapper_scripts,
        };
        set(variable) == Some("1")
    }
}
