//! Scripts of a configuration: the words of a command line, the keys of a script's environment, and
//! the kinds of scripts.
#![tactic(auto)]

pub mod command;
mod command_line;
pub mod env_key;
pub mod env_map;
pub mod paths;
pub mod script_id;
mod script_id_reader;
pub mod script_type;
pub mod setup_script;
pub mod setup_timeout;
pub mod shell_words;
pub mod wrapper_script;

pub use command::{ScriptCommand, ScriptCommandRelativeTo};
pub use env_key::{EnvVarError, is_env_var_key, validate_env_var_key};
pub use env_map::ScriptCommandEnvMap;
pub use paths::join_paths;
pub use script_id::{InvalidConfigScriptName, ScriptId, ScriptInfo};
pub use script_type::{ProfileScriptType, ScriptType};
pub use setup_script::{SetupScriptConfig, SetupScriptJunitConfig};
pub use setup_timeout::SetupScriptSlowTimeout;
pub use shell_words::{ShellWordsError, law_shell_words, split_shell_words};
pub use wrapper_script::{WrapperScriptConfig, WrapperScriptTargetRunner};
