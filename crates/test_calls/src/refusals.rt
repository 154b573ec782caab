//! An engine that has memory for so many filters, and that refuses texts with `!`.
use crate::engines::{Anywhere, Names};
use crate::loads::{ends_by_room, load_files, load_text};
use nextest_config::{
    ConfigCompileSection, ConfigParseError, ConfigParseErrorKind, ConfigPath,
    DefaultConfigWarnings, FileInput, NextestConfig, ParseContext, ReadOutcome, ToolConfigFile,
    ToolName,
};
use std::alloc::{AllocError, Global};
use std::test::Fail;

/// A file with four filters: of a profile, of overrides of two profiles, and of a script rule.
static FILTERED: &str = r#"
[scripts.wrapper.w]
command = "x"
[profile.default]
default-filter = "a"
[[profile.default.overrides]]
filter = "b"
retries = 1
[[profile.ci.overrides]]
filter = "c"
retries = 2
[[profile.default.scripts]]
filter = "d"
run-wrapper = "w"
"#;

/// Whether a load ends as it has to with an engine that has memory for so many readings.
fn ends_by_readings(alloc: Global, room: usize) -> bool {
    let names = Names::with_room(room);
    let engines = ParseContext {
        filters: &names,
        specs: &Anywhere,
    };
    let mut warnings = DefaultConfigWarnings::new(alloc);
    let loaded = load_text(alloc, &engines, FILTERED, &mut warnings);
    ends_by_room(&loaded, 4, room)
}

#[test]
fn filters_without_memory(rt: HostRuntime) -> Result<(), Fail> {
    for room in 0..6 {
        assert!(rt; ends_by_readings(rt.alloc(), room), "with room for {room}");
    }
    Ok(())
}

/// The lowest file, which has no text with `!`.
static LOWEST: &str = r#"
[[profile.default.overrides]]
filter = "a"
retries = 1
"#;

/// The lowest file that has such texts, three of them.
static REFUSED: &str = r#"
[scripts.wrapper."@tool:first:w"]
command = "x"
[profile.default]
default-filter = "!"
[[profile.default.overrides]]
filter = "b"
retries = 1
[[profile.default.overrides]]
filter = "b!c"
retries = 2
[[profile.default.scripts]]
filter = "d!"
run-wrapper = "@tool:first:w"
"#;

/// A higher file, which has one more.
static HIGHER: &str = r#"
[[profile.default.overrides]]
filter = "!e"
retries = 1
"#;

/// A file of a tool.
fn tool_file(
    alloc: Global,
    name: &str,
    path: &str,
    text: &str,
) -> Result<ToolConfigFile, AllocError> {
    let Ok(tool) = ToolName::new(alloc, name) else {
        return Err(AllocError);
    };
    Ok(ToolConfigFile {
        tool,
        config_file: FileInput {
            path: ConfigPath::new(alloc, path)?,
            outcome: ReadOutcome::Text(String::from_str(alloc, text)?),
        },
    })
}

/// Loads the three files. The first tool's file is above the second's.
fn load_refused(alloc: Global) -> Result<NextestConfig<Names, Anywhere>, ConfigParseError> {
    let names = Names::with_room(usize::MAX);
    let engines = ParseContext {
        filters: &names,
        specs: &Anywhere,
    };
    let tools = [
        tool_file(alloc, "first", "/first.toml", REFUSED)?,
        tool_file(alloc, "second", "/second.toml", LOWEST)?,
    ];
    let mut warnings = DefaultConfigWarnings::new(alloc);
    load_files(alloc, &engines, HIGHER, &tools, &mut warnings)
}

/// Whether what does not compile is in these sections.
fn is_in(error: &ConfigParseError, sections: &[ConfigCompileSection]) -> bool {
    match error.kind() {
        ConfigParseErrorKind::CompileErrors(errors) => errors
            .iter()
            .map(|error| error.section)
            .eq(sections.iter().copied()),
        _ => false,
    }
}

#[test]
fn the_lowest_file_with_refused_filters_is_reported(rt: HostRuntime) -> Result<(), Fail> {
    let loaded = load_refused(rt.alloc());
    let Err(error) = loaded else {
        return Err(Fail::from(AllocError));
    };
    let sections = [
        ConfigCompileSection::DefaultFilter,
        ConfigCompileSection::Override(1),
        ConfigCompileSection::Script(0),
    ];
    let path = error.config_file().map(|path| path.absolute_path());
    assert!(rt; path == Some("/first.toml"), "told of another file");
    assert!(rt; is_in(&error, &sections), "told of other rules");
    Ok(())
}
