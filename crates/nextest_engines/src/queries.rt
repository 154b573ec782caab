//! What filters are evaluated for: tests and binaries, and the platforms of a build.
ghost use Rattle.std.specs.Prelude.{◌≡◌};
ghost use Rattle.nextest_engines.specs.Engines.{named_test, test_view};

/// What a filter is written for.
#[derive(Clone, Copy, Debug, PartialEq, Eq)]
pub enum FiltersetKind {
    /// A filter that a user requests.
    Test,
    /// The filter of a rule.
    OverrideFilter,
    /// The filter that says which tests run where no other is given.
    DefaultFilter,
}

/// Where a binary is built to run.
#[derive(Clone, Copy, Debug, PartialEq, Eq)]
pub enum BuildPlatform {
    /// On the machine that builds, as build scripts and proc macros are.
    Host,
    /// On the machine that is built for.
    Target,
}

/// The platforms of a build. Without a target, what is built runs on the host.
#[derive(Debug, Drop)]
pub struct BuildPlatforms<P> {
    /// The platform of the machine that builds.
    pub host: P,
    /// The platform that is built for, where it is not the host.
    pub target: Option<P>,
}

/// A test binary, as filters see it.
#[derive(Clone, Copy, Debug)]
pub struct BinaryQuery<'a> {
    /// The id of its package, as cargo writes it.
    pub package_id: &'a str,
    /// Its id, as nextest writes it: `db`, or `db::integration` for a target of its own.
    pub binary_id: &'a str,
    /// The kind of its target: `lib`, `bin`, `test`, `bench`, `example` or `proc-macro`.
    pub kind: &'a str,
    /// The name of its target.
    pub binary_name: &'a str,
    /// Which of the platforms of a build it is built for.
    pub platform: BuildPlatform,
}

/// A test, as filters see it.
#[derive(Clone, Copy, Debug)]
pub struct TestQuery<'a> {
    /// The binary that it is part of.
    pub binary_query: BinaryQuery<'a>,
    /// Its name in the binary: its path of modules, as `net::tests::slow`.
    pub test_name: &'a str,
}

impl<'a> TestQuery<'a> {
    /// The test of a name in the binary of an id, which is built for the target. What else filters
    /// may use of the binary is empty.
    pub fn of(binary_id: &'a str, test_name: &'a str) -> TestQuery<'a>
        ensures { test_view result ≡ named_test binary_id.now test_name.now }
    {
        let binary_query = BinaryQuery {
            package_id: "",
            binary_id,
            kind: "",
            binary_name: "",
            platform: BuildPlatform::Target,
        };
        TestQuery {
            binary_query,
            test_name,
        }
    }
}

/// What an evaluation knows besides the query: the default filter, for `default()`.
#[derive_where(Clone, Copy)]
pub struct EvalContext<'a, E> {
    /// What `default()` means, which is never `default()` itself.
    pub default_filter: &'a E,
}
