//! How often filters are evaluated: a configuration of twenty overrides and five script rules, by
//! an engine that counts.
use crate::engines::{Anywhere, Counted, Counts, Names, RULES};
use crate::loads::load_text;
use crate::queries::{binary_of, test_in};
use crate::texts::add_number;
use nextest_config::{
    BuildPlatforms, DefaultConfigWarnings, EvaluatableProfile, NextestConfig, NextestRunMode,
    ParseContext, Setting, SettingSource, WrapperScriptConfig,
};
use std::alloc::{AllocError, Global};
use std::test::Fail;

/// How many of the rules are overrides.
const OVERRIDES: usize = 20;

/// Appends an override that has its number as its filter and as its retries.
fn add_override(alloc: Global, text: &mut String, number: usize) -> Result<(), AllocError> {
    let before = "[[profile.default.overrides]]\nfilter = '";
    add_number(alloc, text, before, number, "'\n")?;
    add_number(alloc, text, "retries = ", number, "\n")
}

/// Appends a script rule that has its number as its filter.
fn add_script_rule(alloc: Global, text: &mut String, number: usize) -> Result<(), AllocError> {
    let before = "[[profile.default.scripts]]\nlist-wrapper = 'w'\nrun-wrapper = 'w'\nfilter = '";
    add_number(alloc, text, before, number, "'\n")
}

/// Twenty overrides and five script rules, each with its own number as its filter, behind a text.
fn text_of_rules(alloc: Global, scripts: &str) -> Result<String, AllocError> {
    let mut text = String::from_str(alloc, scripts)?;
    for number in 0..OVERRIDES {
        add_override(alloc, &mut text, number)?;
    }
    for number in OVERRIDES..RULES {
        add_script_rule(alloc, &mut text, number)?;
    }
    Ok(text)
}

/// A configuration of rules that are counted.
type CountedConfig = NextestConfig<Names, Anywhere>;

/// A profile of rules that are counted.
type CountedProfile<'cfg> = EvaluatableProfile<'cfg, Names, Anywhere>;

/// Loads the rules.
fn load_rules(alloc: Global) -> Result<CountedConfig, Fail> {
    let text = text_of_rules(alloc, "[scripts.wrapper.w]\ncommand = 'x'\n")?;
    let names = Names::with_room(RULES);
    let engines = ParseContext {
        filters: &names,
        specs: &Anywhere,
    };
    let mut warnings = DefaultConfigWarnings::new(alloc);
    Ok(load_text(alloc, &engines, text.as_str(), &mut warnings)?)
}

/// A profile of the rules, on any platform.
fn profile_of<'cfg>(
    alloc: Global,
    config: &'cfg CountedConfig,
    name: &str,
) -> Result<CountedProfile<'cfg>, Fail> {
    let platforms = BuildPlatforms {
        host: (),
        target: None,
    };
    let profile = config.profile(alloc, name)?;
    match profile.apply_build_platforms(alloc, &platforms) {
        Ok(profile) => Ok(profile),
        Err(_) => Err(Fail::from(AllocError)),
    }
}

/// Whether each rule from the first on was evaluated once, or at most once where some rule holds,
/// and those below not at all.
fn is_counted(counts: &Counts, first: usize, is_matched: bool) -> bool {
    for (rule, times) in counts.times.iter().enumerate() {
        let is_allowed = if rule < first {
            *times == 0
        } else {
            *times == 1 || (is_matched && *times == 0)
        };
        if !is_allowed {
            return false;
        }
    }
    counts.is_numbered
}

/// The id of a binary, how often its tests are tried again, and whether a wrapper wraps them.
type Asked = (&'static str, u32, bool);

static ASKED: [Asked; 4] = [
    ("none", 0, false),
    ("7", 7, false),
    ("19", 19, false),
    ("22", 0, true),
];

/// Whether the program of a wrapper is `x`, or there is none.
fn is_wrapper(wrapper: Option<&WrapperScriptConfig>, is_wrapped: bool) -> bool {
    match wrapper {
        Some(wrapper) => is_wrapped && wrapper.command.program.as_str() == "x",
        None => !is_wrapped,
    }
}

/// Whether a test gets its settings, and filters were evaluated as few times as may be.
fn is_decided(profile: &CountedProfile<'_>, asked: &Asked) -> bool {
    let (name, retries, is_wrapped) = *asked;
    let mut tally = Counted::new();
    let settings = profile.settings_for(NextestRunMode::Test, &test_in(name), &mut tally);
    settings.retries().count() == retries
        && is_wrapper(settings.run_wrapper(), is_wrapped)
        && is_counted(&tally.counts, 0, name != "none")
}

/// Whether a test gets its settings with their sources, and filters were evaluated as few times as
/// may be.
fn is_traced(profile: &CountedProfile<'_>, asked: &Asked) -> bool {
    let (name, retries, is_wrapped) = *asked;
    let mut tally = Counted::new();
    let mode = NextestRunMode::Benchmark;
    let settings = profile.settings_with_source_for(mode, &test_in(name), &mut tally);
    let source = settings.source_of(Setting::RunWrapper);
    settings.retries().count() == retries
        && matches!(source, Some(SettingSource::Script(_))) == is_wrapped
        && is_counted(&tally.counts, 0, name != "none")
}

/// Whether the listing of a binary gets its wrapper, and no filter of an override was evaluated.
fn is_listed(profile: &CountedProfile<'_>, asked: &Asked) -> bool {
    let (name, _, is_wrapped) = *asked;
    let mut tally = Counted::new();
    let settings = profile.list_settings_for(&binary_of(name), &mut tally);
    is_wrapper(settings.list_wrapper(), is_wrapped)
        && is_counted(&tally.counts, OVERRIDES, is_wrapped)
}

/// Whether each row gets what it names, by as few evaluations as may be.
fn are_answered(profile: &CountedProfile<'_>, rows: &[Asked]) -> bool {
    for asked in rows {
        if !is_decided(profile, asked) || !is_traced(profile, asked) || !is_listed(profile, asked) {
            return false;
        }
    }
    true
}

/// Whether the profile `default` of the rules gives each row what it names.
fn is_answered(alloc: Global, config: &CountedConfig) -> Result<bool, Fail> {
    let profile = profile_of(alloc, config, "default")?;
    Ok(are_answered(&profile, &ASKED))
}

#[test]
fn each_filter_is_evaluated_at_most_once(rt: HostRuntime) -> Result<(), Fail> {
    let config = load_rules(rt.alloc())?;
    assert!(rt; is_answered(rt.alloc(), &config)?);
    Ok(())
}
