//! A repository's file of usual shape: regexes, sets of packages, globs and platforms.
use crate::inputs::{inputs_of, workspace_paths};
use filter_engine::{NextestFilters, NextestTally, PackageGraph};
use nextest_config::run::{ResolveFault, TestRow, resolve};
use nextest_config::{
    BinaryQuery, BuildPlatform, BuildPlatforms, DefaultConfigWarnings, NextestRunMode,
    ParseContext, Setting, TestQuery,
};
use platform_language::{Platform, TargetSpecs};
use std::alloc::{AllocError, Global};
use std::collections::BTreeSet;
use std::test::Fail;

/// Three members, of which `api` depends on `core`, and `cli` on none.
const METADATA: &str = r#"{
 "packages": [
  {"name": "api", "id": "path:w/api#0.1.0", "version": "0.1.0"},
  {"name": "core", "id": "path:w/core#0.1.0", "version": "0.1.0"},
  {"name": "cli", "id": "path:w/cli#0.1.0", "version": "0.1.0"}
 ],
 "workspace_members": ["path:w/api#0.1.0", "path:w/core#0.1.0", "path:w/cli#0.1.0"],
 "resolve": {
  "nodes": [
   {"id": "path:w/api#0.1.0", "deps": [{"name": "core", "pkg": "path:w/core#0.1.0"}]},
   {"id": "path:w/core#0.1.0", "deps": []},
   {"id": "path:w/cli#0.1.0", "deps": []}
  ],
  "root": null
 },
 "version": 1
}"#;

const FILE: &str = r#"
[profile.ci]
retries = 1
[test-groups.database]
max-threads = 1
[[profile.ci.overrides]]
filter = 'package(api) & test(/^db::/)'
test-group = "database"
[[profile.ci.overrides]]
filter = 'rdeps(core) & kind(test)'
retries = 4
[[profile.ci.overrides]]
filter = 'not (test(fast) or binary_id(cli))'
priority = 50
[[profile.default.overrides]]
platform = 'cfg(windows)'
filter = 'all()'
threads-required = 8
[[profile.default.overrides]]
platform = 'cfg(unix)'
filter = 'test(#*::slow_*)'
threads-required = 2
"#;

/// The settings that the file speaks of.
const ASKED: [Setting; 4] = [
    Setting::Priority,
    Setting::ThreadsRequired,
    Setting::Retries,
    Setting::TestGroup,
];

/// A test of a binary that is built for the host.
fn test_of<'a>(binary_id: &'a str, kind: &'a str, test_name: &'a str) -> TestQuery<'a> {
    TestQuery {
        binary_query: BinaryQuery {
            package_id: "",
            binary_id,
            kind,
            binary_name: "",
            platform: BuildPlatform::Host,
        },
        test_name,
    }
}

/// The platforms of a build on Linux.
fn platforms(alloc: Global) -> Result<BuildPlatforms<Platform>, Fail> {
    Ok(BuildPlatforms {
        host: Platform::builtin(alloc, "x86_64-unknown-linux-gnu")?,
        target: None,
    })
}

/// What the profile `ci` of the file gives to tests.
fn rows_of(
    alloc: Global,
    filters: &NextestFilters,
    platforms: &BuildPlatforms<Platform>,
    tests: &[TestQuery<'_>],
) -> Result<Vec<TestRow>, ResolveFault> {
    let paths = workspace_paths(alloc, FILE)?;
    let features = BTreeSet::new(alloc);
    let engines = ParseContext {
        filters,
        specs: &TargetSpecs,
    };
    resolve(
        alloc,
        &inputs_of(&paths, &features),
        &engines,
        "ci",
        platforms,
        NextestRunMode::Test,
        tests,
        &mut DefaultConfigWarnings::new(alloc),
        &mut NextestTally::new(),
    )
}

/// The values of a row, one a line.
fn values_of(alloc: Global, row: &TestRow) -> Result<String, AllocError> {
    let mut text = String::new(alloc);
    for setting in ASKED {
        let value = row.value_text(alloc, setting)?;
        text.push_str(value.as_str())?;
        text.push_str("\n")?;
    }
    Ok(text)
}

#[test]
fn each_test_gets_what_its_rules_write(rt: HostRuntime) -> Result<(), Fail> {
    let alloc = rt.alloc();
    let filters = NextestFilters::with_graph(PackageGraph::from_metadata(alloc, METADATA)?);
    let tests = [
        test_of("api::it", "test", "db::reads"),
        test_of("core", "lib", "fast::slow_sum"),
        test_of("cli", "test", "words::slow_help"),
    ];
    let rows = rows_of(alloc, &filters, &platforms(alloc)?, &tests)?;
    let expected = [
        "50\n1\nfixed count=4 delay=0ns jitter=false\ndatabase\n",
        "0\n2\nfixed count=1 delay=0ns jitter=false\n@global\n",
        "0\n2\nfixed count=1 delay=0ns jitter=false\n@global\n",
    ];
    assert!(rt; rows.len() == expected.len());
    for (row, values) in rows.iter().zip(expected) {
        assert!(rt; values_of(alloc, row)?.as_str() == values);
    }
    Ok(())
}

#[test]
fn without_the_graph_the_file_is_refused(rt: HostRuntime) -> Result<(), Fail> {
    let alloc = rt.alloc();
    let refused = rows_of(alloc, &NextestFilters::new(), &platforms(alloc)?, &[]);
    assert!(rt; matches!(refused, Err(ResolveFault::Config(_))));
    Ok(())
}
