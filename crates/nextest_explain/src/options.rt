//! The options among the words of the command line.
ghost use Rattle.std.specs.Prelude.{◌≡◌, [], ◌∷◌, ◌++◌, IfSome, OnOk, codes};
ghost use Rattle.nextest_explain.specs.Words.{given, AreOptionsOf};
ghost use Rattle.nextest_explain.specs.Taking.{option_word, TakesOption};
ghost use Rattle.nextest_elements.specs.Experimental.{experimental_text};
ghost use Rattle.nextest_elements.specs.IdentifierText.{tool_name_text};

use crate::command::CommandError;
use nextest_config::{BuildPlatform, ConfigExperimental, ToolName};
use std::alloc::{AllocError, Global};
use std::collections::BTreeSet;

/// How lines show where a value comes from.
#[derive(Clone, Copy, Debug, PartialEq, Eq)]
pub enum Places {
    /// In one word.
    Words,
    /// Whole: an override by its profile, its position there, and its file.
    Whole,
}

/// The options among the words.
#[derive(Debug, Drop)]
pub struct Options<'a> {
    /// The path of the file that is read in place of the repository's own.
    pub config_file: Option<&'a str>,
    /// The path of the organisation's file.
    pub organisation_config_file: Option<&'a str>,
    /// The files of tools, in the order of the words.
    pub tool_files: Vec<ToolFile<'a>>,
    /// The experimental features that are switched on.
    pub features: BTreeSet<ConfigExperimental>,
    /// The triple of the host, where it is named.
    pub host: Option<&'a str>,
    /// The triple of the target, where there is one.
    pub target: Option<&'a str>,
    /// What the test's binary is built for.
    pub platform: BuildPlatform,
    /// How lines show where a value comes from.
    pub places: Places,
}

/// A file that a tool provides.
#[derive(Debug, Drop)]
pub struct ToolFile<'a> {
    pub tool: ToolName,
    pub path: &'a str,
}

/// An option whose value is the next word.
#[derive(Clone, Copy)]
pub enum OptionName {
    ConfigFile,
    OrganisationConfigFile,
    ToolConfigFile,
    Experimental,
    Host,
    Target,
}

impl OptionName {
    /// The option that a word spells.
    pub fn of(word: &str) -> Option<OptionName>
        ensures { IfSome result (λ name. word.now ≡ option_word name) }
    {
        match word {
            "--config-file" => Some(OptionName::ConfigFile),
            "--organisation-config-file" => Some(OptionName::OrganisationConfigFile),
            "--tool-config-file" => Some(OptionName::ToolConfigFile),
            "--experimental" => Some(OptionName::Experimental),
            "--host" => Some(OptionName::Host),
            "--target" => Some(OptionName::Target),
            _ => None,
        }
    }
}

impl<'a> Options<'a> {
    /// No option yet.
    pub fn new(alloc: Global) -> Options<'a>
        ensures { AreOptionsOf [] result }
    {
        Options {
            config_file: None,
            organisation_config_file: None,
            tool_files: Vec::new(alloc),
            features: BTreeSet::new(alloc),
            host: None,
            target: None,
            platform: BuildPlatform::Target,
            places: Places::Words,
        }
    }

    /// Sets an option to a value.
    pub fn set(
        &mut self,
        alloc: Global,
        name: OptionName,
        value: &'a str,
    ) -> Result<(), CommandError>
        ensures { OnOk result
            (TakesOption (option_word name ∷ value.now ∷ []) self.old self.new) }
    {
        match name {
            OptionName::ConfigFile => set_once(&mut self.config_file, value),
            OptionName::OrganisationConfigFile => {
                set_once(&mut self.organisation_config_file, value)
            }
            OptionName::ToolConfigFile => self.add_tool_file(alloc, value),
            OptionName::Experimental => self.add_feature(value),
            OptionName::Host => set_once(&mut self.host, value),
            OptionName::Target => set_once(&mut self.target, value),
        }
    }

    /// Says that the test's binary is built for the host.
    pub fn set_host_binary(&mut self) -> Result<(), CommandError>
        ensures { OnOk result (TakesOption (codes "--host-binary" ∷ []) self.old self.new) }
    {
        match self.platform {
            BuildPlatform::Host => Err(CommandError::Usage),
            BuildPlatform::Target => {
                self.platform = BuildPlatform::Host;
                Ok(())
            }
        }
    }

    /// Sets that lines show the whole place of each value.
    pub fn set_whole_places(&mut self) -> Result<(), CommandError>
        ensures { OnOk result (TakesOption (codes "--all" ∷ []) self.old self.new) }
    {
        match self.places {
            Places::Whole => Err(CommandError::Usage),
            Places::Words => {
                self.places = Places::Whole;
                Ok(())
            }
        }
    }

    fn add_tool_file(&mut self, alloc: Global, value: &'a str) -> Result<(), CommandError>
        ensures { OnOk result
            (TakesOption (codes "--tool-config-file" ∷ value.now ∷ []) self.old self.new) }
    {
        let Some((tool, path)) = split_at_colon(value) else {
            return Err(CommandError::Usage);
        };
        let tool = ToolName::new(alloc, tool)?;
        self.push_tool_file(ToolFile { tool, path })?;
        Ok(())
    }

    fn push_tool_file(&mut self, file: ToolFile<'a>) -> Result<(), AllocError>
        ensures { let value = tool_name_text file.entry.tool ++ 58 ∷ file.entry.path.now in
            OnOk result (TakesOption (codes "--tool-config-file" ∷ value ∷ []) self.old self.new) }
    {
        self.tool_files.push(file)?;
        Ok(())
    }

    fn add_feature(&mut self, value: &str) -> Result<(), CommandError>
        ensures { OnOk result
            (TakesOption (codes "--experimental" ∷ value.now ∷ []) self.old self.new) }
    {
        let Some(feature) = feature_of(value) else {
            return Err(CommandError::Usage);
        };
        self.switch_on(feature)?;
        Ok(())
    }

    fn switch_on(&mut self, feature: ConfigExperimental) -> Result<(), AllocError>
        ensures { OnOk result (TakesOption
            (codes "--experimental" ∷ experimental_text feature ∷ []) self.old self.new) }
    {
        self.features.insert(feature)?;
        Ok(())
    }
}

/// What is before the first colon of a text, and behind it.
fn split_at_colon(text: &str) -> Option<(&str, &str)>
    ensures { IfSome result (λ parts. text.now ≡ parts.0.now ++ 58 ∷ parts.1.now) }
{
    text.split_once(':')
}

/// Sets an option that may be given once.
fn set_once<'a>(option: &mut Option<&'a str>, value: &'a str) -> Result<(), CommandError>
    ensures { OnOk result (given option.new ≡ given option.old ++ value.now ∷ []) }
{
    match option.replace(value) {
        Some(_) => Err(CommandError::Usage),
        None => Ok(()),
    }
}

/// The feature of a name.
fn feature_of(name: &str) -> Option<ConfigExperimental>
    ensures { IfSome result (λ feature. name.now ≡ experimental_text feature) }
{
    match name {
        "setup-scripts" => Some(ConfigExperimental::SetupScripts),
        "wrapper-scripts" => Some(ConfigExperimental::WrapperScripts),
        _ => None,
    }
}
