//! What a profile gives to tests and binaries.
use crate::lines::{Call, Lines, once_more, override_text};
use crate::run::{Profile, Run};
use nextest_config::{
    BinaryQuery, EvalContext, Filters, GroupLookup, ListSettings, NameMatcher, NextestRunMode,
    OverrideId, PrecomputedGroupMembership, SettingSource, SetupScript, TestQuery, TestSettings,
    WrapperScriptConfig,
};
use nextest_explain::engines::filters::{ToyFilters, ToyTally};
use nextest_explain::engines::platforms::ToySpecs;
use std::alloc::{AllocError, Global};
use std::fmt::Debug;

type Source<'cfg> = SettingSource<'cfg, ToyFilters, ToySpecs>;

/// Settings that know where they come from.
type Settings<'cfg> = TestSettings<'cfg, ToyFilters, ToySpecs, Source<'cfg>>;

/// Adds whether the default filter holds for a test, and some of its settings with their sources.
pub fn add_test(alloc: Global, lines: &mut Lines<'_>, profile: &Profile<'_>, test: &TestQuery<'_>) {
    let mut tally = ToyTally::new();
    let context = profile.filterset_ecx();
    let filter = context.default_filter;
    let is_default = ToyFilters::matches_test(filter, 0, test, &context, &mut tally);
    lines.add_of("is-default", test.test_name, &is_default);
    let settings = profile.settings_with_source_for(NextestRunMode::Test, test, &mut tally);
    add_settings(alloc, lines, test.test_name, &settings);
}

/// Adds some settings of a test with their sources.
fn add_settings(alloc: Global, lines: &mut Lines<'_>, test: &str, settings: &Settings<'_>) {
    let (threads, source) = settings.threads_required_with_source();
    add_setting(alloc, lines, "threads-of", test, &threads, source);
    let (retries, source) = settings.retries_with_source();
    add_setting(alloc, lines, "retries-of", test, &retries, source);
    let (slow, source) = settings.slow_timeout_with_source();
    add_setting(alloc, lines, "slow-timeout-of", test, &slow, source);
    let (leak, source) = settings.leak_timeout_with_source();
    add_setting(alloc, lines, "leak-timeout-of", test, &leak, source);
    let (group, source) = settings.test_group_with_source();
    if let Some(group) = lines.made(group.to_string(alloc)) {
        add_setting(alloc, lines, "test-group-of", test, &group, source);
    }
}

/// Adds a setting of a test with what decides it.
fn add_setting<V: Debug>(
    alloc: Global,
    lines: &mut Lines<'_>,
    name: &str,
    test: &str,
    value: &V,
    source: Source<'_>,
) {
    if let Some(source) = lines.made(source_text(alloc, source)) {
        lines.add_of(name, test, &(value, source));
    }
}

/// What decides a setting.
fn source_text(alloc: Global, source: Source<'_>) -> Result<String, AllocError> {
    let word = match source {
        SettingSource::Default => "default",
        SettingSource::Profile => "profile",
        SettingSource::Script(_) => "script",
        SettingSource::Override(rule) => return id_text(alloc, rule.id()),
    };
    String::from_str(alloc, word)
}

/// An override by a copy of its id, which is made once more after memory was refused.
fn id_text(alloc: Global, id: &OverrideId) -> Result<String, AllocError> {
    let copy = match id.clone() {
        Ok(copy) => copy,
        Err(_) => id.clone()?,
    };
    override_text(
        alloc,
        &copy.config_source,
        copy.profile_name.as_str(),
        copy.index,
    )
}

/// Adds the program that wraps the listing of a binary's tests.
pub fn add_binary(lines: &mut Lines<'_>, profile: &Profile<'_>, binary: &BinaryQuery<'_>) {
    let settings = profile.list_settings_for(binary, &mut ToyTally::new());
    let program = program_of(settings.list_wrapper());
    lines.add_of("list-wrapper-of", binary.binary_id, &program);
}

/// The program of a wrapper, if there is one.
fn program_of(wrapper: Option<&WrapperScriptConfig>) -> Option<&str> {
    match wrapper {
        Some(wrapper) => Some(wrapper.command.program.as_str()),
        None => None,
    }
}

/// Adds, for each wrapper script, the programs that wrap a listing by settings that are made empty,
/// before and after the wrapper is set.
pub fn add_debug_settings(lines: &mut Lines<'_>, profile: &Profile<'_>) {
    for (id, wrapper) in profile.script_config().wrapper.iter() {
        let mut settings = ListSettings::debug_empty();
        let before = program_of(settings.list_wrapper());
        settings.debug_set_list_wrapper(wrapper);
        let after = program_of(settings.list_wrapper());
        let id = id.as_identifier().as_str();
        lines.add_of("debug-list-wrapper", id, &(before, after));
    }
}

/// Adds the setup scripts that tests enable, in order, and which test enables which.
pub fn add_setup_scripts(run: &Run<'_>, lines: &mut Lines<'_>, profile: &Profile<'_>) {
    let tests = &run.case.tests;
    let made = once_more!(
        lines,
        SetupScripts,
        Err(AllocError),
        profile.setup_scripts(run.alloc, tests, &mut ToyTally::new())
    );
    let Some(scripts) = lines.made(made) else {
        return;
    };
    lines.add("setup-scripts", &scripts.len());
    let context = profile.filterset_ecx();
    for script in scripts.iter() {
        add_setup_script(run.alloc, lines, &script, tests, &context);
    }
}

/// Adds the program of a setup script, and the names of the tests that enable it.
fn add_setup_script(
    alloc: Global,
    lines: &mut Lines<'_>,
    script: &SetupScript<'_, '_, ToyFilters, ToySpecs>,
    tests: &[TestQuery<'_>],
    context: &EvalContext<'_, <ToyFilters as Filters>::Expr>,
) {
    if let Some(names) = lines.made(names_of(alloc, script, tests, context)) {
        let id = script.id().as_identifier().as_str();
        let program = script.config().command.program.as_str();
        lines.add_of("setup-script", id, &(program, names));
    }
}

/// The names of the tests that enable a setup script.
fn names_of<'a>(
    alloc: Global,
    script: &SetupScript<'_, '_, ToyFilters, ToySpecs>,
    tests: &[TestQuery<'a>],
    context: &EvalContext<'_, <ToyFilters as Filters>::Expr>,
) -> Result<Vec<&'a str>, AllocError> {
    let mut names = Vec::new(alloc);
    let mut tally = ToyTally::new();
    for test in tests {
        if script.is_enabled(test, context, &mut tally) {
            names.push(test.test_name)?;
        }
    }
    Ok(names)
}

/// Matches one name.
#[derive(Drop)]
struct Named<'a>(&'a str);

impl<'a> NameMatcher for Named<'a> {
    ghost use Rattle.std.specs.Str.{bytes_eq};

    ghost accepts = { λ named name. bytes_eq name named.0.now };

    fn is_match(&self, name: &str) -> bool {
        name == self.0
    }
}

/// Adds the names of the members of some groups if no test is in a group of its own.
pub fn add_empty_groups(run: &Run<'_>, lines: &mut Lines<'_>) {
    let members = PrecomputedGroupMembership::empty(run.alloc);
    for group in &run.case.groups {
        if let Some(names) = lines.made(members_of(run.alloc, &members, &run.case.tests, group)) {
            lines.add_of("empty-members-of", group, &names);
        }
    }
}

/// Adds how many tests are in groups, and the names of the members of some groups.
pub fn add_groups(run: &Run<'_>, lines: &mut Lines<'_>, profile: &Profile<'_>) {
    let tests = &run.case.tests;
    let made = once_more!(
        lines,
        PrecomputeGroupMemberships,
        Err(AllocError),
        profile.precompute_group_memberships(run.alloc, tests, &mut ToyTally::new())
    );
    let Some(members) = lines.made(made) else {
        return;
    };
    lines.add("memberships", &members);
    for group in &run.case.groups {
        if let Some(names) = lines.made(members_of(run.alloc, &members, tests, group)) {
            lines.add_of("members-of", group, &names);
        }
    }
}

/// The names of the tests that are members of a group.
fn members_of<'a>(
    alloc: Global,
    members: &PrecomputedGroupMembership,
    tests: &[TestQuery<'a>],
    group: &str,
) -> Result<Vec<&'a str>, AllocError> {
    let mut names = Vec::new(alloc);
    for test in tests {
        if members.is_member_test(test, &Named(group)) {
            names.push(test.test_name)?;
        }
    }
    Ok(names)
}
