//! Tests that a request names, and what is known of them.
ghost use Rattle.std.specs.Prelude.{◌≡◌, ◌++◌, IfOk, MatchOption, codes};
ghost use Rattle.std.specs.List.{after_first, before_first};
ghost use Rattle.filter_language.specs.Values.{package_name};
ghost use Rattle.filter_inputs.specs.Packages.TargetView.{target_view};
ghost use Rattle.filter_inputs.specs.Lists.ListView.{list_test_view};
ghost use Rattle.rinqebo_load.specs.FoundTests.{HasNoSlash, HasSlash, IsOnePart, IsReadAs, IsTestOfId, found_view, is_slash, platform_for, test_of_target};
ghost use Rattle.rinqebo_load.specs.declared.found_test.TestSource.TheVariants as sources;

use filter_inputs::{ListedTest, PackageTarget};
use nextest_config::{BinaryQuery, BuildPlatform, NextestRunMode, TestQuery};
use rinqebo_request::RequestedTest;
use std::alloc::{AllocError, Global};

/// What gives the package, the kind, the name and the platform of the binary of a test.
#[derive(Clone, Copy, Debug, PartialEq, Eq, Drop)]
pub enum TestSource {
    /// The list of tests, which has the test itself, too.
    List,
    /// The metadata of the workspace, by the targets of its packages.
    Metadata,
    /// The id of the binary alone.
    Id,
}

/// A test that was found.
#[derive(Debug, Drop)]
pub struct FoundTest {
    /// The id of its package, as Cargo prints it. It is empty if the package is not known.
    pub package_id: String,
    /// The id of its binary, as nextest prints it.
    pub binary: String,
    /// The kind of the target of its binary.
    pub kind: String,
    /// The name of the target of its binary.
    pub target: String,
    /// The platform that its binary is built for.
    pub platform: BuildPlatform,
    /// Its name within the binary.
    pub name: String,
    /// Whether the list says that it is ignored.
    pub ignored: bool,
    /// What the test is run for.
    pub mode: NextestRunMode,
    /// What gives all this of its binary.
    pub source: TestSource,
}

impl FoundTest {
    /// The test, as a list has tests.
    pub fn listed(&self) -> ListedTest<'_>
        ensures { list_test_view result ≡ found_view self.now }
    {
        ListedTest {
            query: TestQuery {
                binary_query: BinaryQuery {
                    package_id: self.package_id.as_str(),
                    binary_id: self.binary.as_str(),
                    kind: self.kind.as_str(),
                    binary_name: self.target.as_str(),
                    platform: self.platform,
                },
                test_name: self.name.as_str(),
            },
            ignored: self.ignored,
        }
    }

    /// A test of a list.
    pub fn of_list(
        alloc: Global,
        test: &ListedTest<'_>,
        mode: NextestRunMode,
    ) -> Result<FoundTest, AllocError>
        ensures test { IfOk result (λ found. found_view found ≡ list_test_view test.now) }
        ensures mode { IfOk result (λ found. found.mode ≡ mode) }
        ensures source { IfOk result (λ found. found.source ≡ sources.List) }
    {
        let binary = &test.query.binary_query;
        Ok(FoundTest {
            package_id: String::from_str(alloc, binary.package_id)?,
            binary: String::from_str(alloc, binary.binary_id)?,
            kind: String::from_str(alloc, binary.kind)?,
            target: String::from_str(alloc, binary.binary_name)?,
            platform: binary.platform,
            name: String::from_str(alloc, test.query.test_name)?,
            ignored: test.ignored,
            mode,
            source: TestSource::List,
        })
    }

    /// A test of the binary that is built from a target.
    pub fn of_target(
        alloc: Global,
        target: &PackageTarget,
        requested: &RequestedTest<'_>,
    ) -> Result<FoundTest, AllocError>
        ensures test { IfOk result (λ found. found_view found
            ≡ test_of_target (target_view target.now) requested.now) }
        ensures mode { IfOk result (λ found. found.mode ≡ requested.now.mode) }
        ensures source { IfOk result (λ found. found.source ≡ sources.Metadata) }
    {
        Ok(FoundTest {
            package_id: target.package_id.clone()?,
            binary: target.binary_id(alloc)?,
            kind: target.kind.clone()?,
            target: target.name.clone()?,
            platform: platform_for(target.kind.as_str(), requested.platform),
            name: String::from_str(alloc, requested.name)?,
            ignored: false,
            mode: requested.mode,
            source: TestSource::Metadata,
        })
    }

    /// A test of the binary of an id, of which no more is known.
    pub fn of_id(
        alloc: Global,
        binary: &str,
        requested: &RequestedTest<'_>,
    ) -> Result<FoundTest, AllocError>
        ensures test { IfOk result (λ found.
            IsTestOfId requested.now binary.now (found_view found)) }
        ensures mode { IfOk result (λ found. found.mode ≡ requested.now.mode) }
        ensures source { IfOk result (λ found. found.source ≡ sources.Id) }
    {
        let target = read_id(binary);
        Ok(FoundTest {
            package_id: String::new(alloc),
            binary: String::from_str(alloc, binary)?,
            kind: String::from_str(alloc, target.kind)?,
            target: String::from_str(alloc, target.name)?,
            platform: requested.platform,
            name: String::from_str(alloc, requested.name)?,
            ignored: false,
            mode: requested.mode,
            source: TestSource::Id,
        })
    }
}

/// The platform that a binary of a kind is built for, if not the stated one: a proc-macro is built
/// for the host.
fn platform_for(kind: &str, stated: BuildPlatform) -> BuildPlatform
    ensures { result ≡ platform_for kind.now stated }
{
    if kind == "proc-macro" {
        BuildPlatform::Host
    } else {
        stated
    }
}

/// The kind of the target of a binary, and its name.
#[derive(Clone, Copy)]
struct Target<'a> {
    kind: &'a str,
    name: &'a str,
}

/// The package and the target of an id that has `::`.
fn parts_of(id: &str) -> Option<(&str, &str)>
    ensures { MatchOption result (IsOnePart id.now)
        (λ parts. id.now ≡ package_name id.now ++ (codes "::" ++ parts.1.now)) }
{
    id.split_once("::")
}

/// The kind and the name of a target that has a slash between them.
fn kind_and_name(target: &str) -> Option<(&str, &str)>
    ensures { MatchOption result (HasNoSlash target.now)
        (λ parts. HasSlash target.now × (parts.0.now ≡ before_first is_slash target.now)
        × (parts.1.now ≡ after_first is_slash target.now)) }
{
    target.split_once('/')
}

/// The target in the id of a binary: `p` is the library of a package, `p::x` an integration test,
/// and `p::bin/x` a target of the kind before the slash.
fn read_id(id: &str) -> Target<'_>
    ensures { IsReadAs id.now result.kind.now result.name.now }
{
    let Some((_, target)) = parts_of(id) else {
        return Target {
            kind: "lib",
            name: id,
        };
    };
    match kind_and_name(target) {
        Some((kind, name)) => Target { kind, name },
        None => Target {
            kind: "test",
            name: target,
        },
    }
}
