//! Receivers of warnings.
ghost use Rattle.std.specs.Prelude.{◌≡◌, ◌++◌, ◌∷◌, [], List, map, IfOk, OnOk, OnErr, string_bytes};
ghost use Rattle.nextest_sources.specs.Sources.{source_view};
ghost use Rattle.nextest_sources.specs.Warnings.{Warning, unknown_keys, reserved_profiles, deprecated_scripts, empty_sections, texts_view};
ghost use Rattle.nextest_sources.specs.WarningsView.{warning_view};

use crate::one_line::OneLine;
use crate::sources::ConfigSource;
use std::alloc::{AllocError, Global};
use std::collections::BTreeSet;
use std::fmt;

/// A receiver of a load's warnings. Its meaning is the list of them: a call that returns Ok
/// appends exactly one, and one that returns Err leaves the list as it was.
pub trait ConfigWarnings {
    /// The warnings that were reported, the latest last.
    ghost warnings: { Self → List Warning };

    /// Keys that no schema knows, by their paths. They have no effect.
    fn unknown_config_keys(
        &mut self,
        alloc: Global,
        source: &ConfigSource,
        keys: &BTreeSet<String>,
    ) -> Result<(), AllocError>
        ensures ok { OnOk result (warnings self.new ≡ warnings self.old
            ++ unknown_keys (source_view source.now) (map string_bytes keys.now.keys) ∷ []) }
        ensures err { OnErr result (warnings self.new ≡ warnings self.old) };

    /// Profiles whose names begin `default-` and that nextest does not know.
    fn unknown_reserved_profiles(
        &mut self,
        alloc: Global,
        source: &ConfigSource,
        names: &[&str],
    ) -> Result<(), AllocError>
        ensures ok { OnOk result (warnings self.new ≡ warnings self.old
            ++ reserved_profiles (source_view source.now) (texts_view names.now) ∷ []) }
        ensures err { OnErr result (warnings self.new ≡ warnings self.old) };

    /// Scripts under the old key `script`.
    fn deprecated_script_config(
        &mut self,
        alloc: Global,
        source: &ConfigSource,
    ) -> Result<(), AllocError>
        ensures ok { OnOk result (warnings self.new ≡ warnings self.old
            ++ deprecated_scripts (source_view source.now) ∷ []) }
        ensures err { OnErr result (warnings self.new ≡ warnings self.old) };

    /// So many script rules of a profile that name no script.
    fn empty_script_sections(
        &mut self,
        alloc: Global,
        source: &ConfigSource,
        profile: &str,
        count: usize,
    ) -> Result<(), AllocError>
        ensures ok { OnOk result (warnings self.new ≡ warnings self.old
            ++ empty_sections (source_view source.now) profile.now count ∷ []) }
        ensures err { OnErr result (warnings self.new ≡ warnings self.old) };
}

/// A warning that was reported.
#[derive(Debug, Drop)]
pub enum ConfigWarning {
    /// Keys that no schema knows, by their paths.
    UnknownConfigKeys {
        /// The source.
        source: ConfigSource,
        /// Their paths.
        paths: Vec<String>,
    },
    /// Profiles whose names are reserved.
    UnknownReservedProfiles {
        /// The source.
        source: ConfigSource,
        /// The profiles' names.
        names: Vec<String>,
    },
    /// Scripts under the old key.
    DeprecatedScriptConfig {
        /// The source.
        source: ConfigSource,
    },
    /// So many script rules of a profile that name no script.
    EmptyScriptSections {
        /// The source.
        source: ConfigSource,
        /// The profile.
        profile: String,
        /// How many rules.
        count: usize,
    },
}

/// Collects the warnings of a load.
#[derive(Debug)]
pub struct DefaultConfigWarnings {
    warnings: Vec<ConfigWarning>,
}

// Written out, so that the proof of a caller sees one call and not the drop of each part.
impl Drop for DefaultConfigWarnings {
    fn drop(self) {
        let DefaultConfigWarnings {
            warnings: _warnings,
        } = self;
    }
}

impl DefaultConfigWarnings {
    ghost use Rattle.nextest_sources.specs.WarningsView.{warnings_view};

    /// No warning yet.
    pub fn new(alloc: Global) -> DefaultConfigWarnings
        ensures { warnings_view result ≡ [] }
    {
        DefaultConfigWarnings {
            warnings: Vec::new(alloc),
        }
    }

    /// The warnings that were reported, the latest last.
    pub fn warnings(&self) -> &[ConfigWarning]
        ensures { map warning_view result.now ≡ warnings_view self.now }
    {
        &self.warnings
    }

    /// The lines of all warnings, in order and without their line ends.
    pub fn lines(&self, alloc: Global) -> Result<Vec<String>, AllocError> {
        let mut lines = Vec::new(alloc);
        for warning in &self.warnings {
            let text = warning.to_string(alloc)?;
            for line in text.split('\n') {
                lines.push(String::from_str(alloc, line)?)?;
            }
        }
        Ok(lines)
    }
}

/// Writes unknown keys: one on the line itself, several on lines of their own.
fn write_keys<W: fmt::Write>(f: &mut fmt::Formatter<W>, paths: &[String]) -> fmt::Result {
    if let [path] = paths {
        let path = OneLine(path.as_str());
        return write!(f, "ignoring unknown configuration key: {path}");
    }
    f.write_str("ignoring unknown configuration keys:\n")?;
    for path in paths {
        write!(f, "\n  - {}", OneLine(path.as_str()))?;
    }
    Ok(())
}

/// Writes the names of reserved profiles, each on a line of its own.
fn write_profiles<W: fmt::Write>(f: &mut fmt::Formatter<W>, names: &[String]) -> fmt::Result {
    f.write_str("ignoring unknown profiles in the reserved `default-` namespace:")?;
    for name in names {
        write!(f, "\n  {}", OneLine(name.as_str()))?;
    }
    Ok(())
}

/// Writes how many script rules of a profile name no script.
fn write_sections<W: fmt::Write>(
    f: &mut fmt::Formatter<W>,
    profile: &str,
    count: usize,
) -> fmt::Result {
    let profile = OneLine(profile);
    let sections = if count == 1 { "section" } else { "sections" };
    write!(
        f,
        "[[profile.{profile}.scripts]] has {count} {sections} \
         with neither setup nor wrapper scripts"
    )
}

impl ConfigWarning {
    /// The source that it is about.
    fn source(&self) -> &ConfigSource {
        match self {
            ConfigWarning::UnknownConfigKeys { source, .. }
            | ConfigWarning::UnknownReservedProfiles { source, .. }
            | ConfigWarning::DeprecatedScriptConfig { source }
            | ConfigWarning::EmptyScriptSections { source, .. } => source,
        }
    }
}

/// One line or more, the last without its end. No text leaves its line.
impl fmt::Display for ConfigWarning {
    fn fmt<W: fmt::Write>(&self, f: &mut fmt::Formatter<W>) -> fmt::Result {
        write!(f, "in config file {}, ", self.source())?;
        match self {
            ConfigWarning::UnknownConfigKeys { paths, .. } => write_keys(f, paths),
            ConfigWarning::UnknownReservedProfiles { names, .. } => write_profiles(f, names),
            ConfigWarning::DeprecatedScriptConfig { .. } => f.write_str(
                "[script.*] is deprecated and will be removed in a future version of nextest; \
                 use the `scripts.setup` table instead",
            ),
            ConfigWarning::EmptyScriptSections { profile, count, .. } => {
                write_sections(f, profile.as_str(), *count)
            }
        }
    }
}

/// Copies of keys.
fn copied_keys(alloc: Global, keys: &BTreeSet<String>) -> Result<Vec<String>, AllocError>
    ensures { IfOk result
        (λ copies. map string_bytes copies.items ≡ map string_bytes keys.now.keys) }
{
    let mut copies = Vec::new(alloc);
    for key in keys.iter() {
        copies.push(key.clone()?)?;
    }
    Ok(copies)
}

/// Copies of texts.
fn copied_texts(alloc: Global, texts: &[&str]) -> Result<Vec<String>, AllocError>
    ensures { IfOk result (λ copies. map string_bytes copies.items ≡ texts_view texts.now) }
{
    let mut copies = Vec::new(alloc);
    for text in texts {
        copies.push(String::from_str(alloc, text)?)?;
    }
    Ok(copies)
}

impl ConfigWarnings for DefaultConfigWarnings {
    ghost use Rattle.nextest_sources.specs.WarningsView.{warnings_view};

    ghost warnings = { warnings_view };

    fn unknown_config_keys(
        &mut self,
        alloc: Global,
        source: &ConfigSource,
        keys: &BTreeSet<String>,
    ) -> Result<(), AllocError> {
        let paths = copied_keys(alloc, keys)?;
        let source = source.clone()?;
        self.warnings
            .push(ConfigWarning::UnknownConfigKeys { source, paths })?;
        Ok(())
    }

    fn unknown_reserved_profiles(
        &mut self,
        alloc: Global,
        source: &ConfigSource,
        names: &[&str],
    ) -> Result<(), AllocError> {
        let names = copied_texts(alloc, names)?;
        let source = source.clone()?;
        self.warnings
            .push(ConfigWarning::UnknownReservedProfiles { source, names })?;
        Ok(())
    }

    fn deprecated_script_config(
        &mut self,
        _alloc: Global,
        source: &ConfigSource,
    ) -> Result<(), AllocError> {
        let source = source.clone()?;
        self.warnings
            .push(ConfigWarning::DeprecatedScriptConfig { source })?;
        Ok(())
    }

    fn empty_script_sections(
        &mut self,
        alloc: Global,
        source: &ConfigSource,
        profile: &str,
        count: usize,
    ) -> Result<(), AllocError> {
        let profile = String::from_str(alloc, profile)?;
        let source = source.clone()?;
        self.warnings.push(ConfigWarning::EmptyScriptSections {
            source,
            profile,
            count,
        })?;
        Ok(())
    }
}
