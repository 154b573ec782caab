//! Lists of tests.
ghost use Rattle.std.specs.Prelude.{◌≡◌, ◌++◌, IfOk, map, string_bytes};
ghost use Rattle.nextest_engines.specs.Engines.{binary_view as query_view, test_view};
ghost use Rattle.filter_inputs.specs.Lists.Lists.{all_binaries, all_tests, list_tests, test_of, tests_in};
ghost use Rattle.filter_inputs.specs.Lists.ListView.{binary_view, case_view, list_test_view, list_view, listed_view};

use nextest_engines::{BinaryQuery, BuildPlatform, TestQuery};
use std::alloc::{AllocError, Global};

/// A test of a binary of a list.
#[derive(Debug, Drop)]
pub struct TestCase {
    /// Its name.
    pub name: String,
    /// Whether the list says that it is ignored.
    pub ignored: bool,
}

/// A test of a list, as filters see it.
#[derive(Clone, Copy, Debug)]
pub struct ListedTest<'a> {
    /// What filters see of it.
    pub query: TestQuery<'a>,
    /// Whether the list says that it is ignored.
    pub ignored: bool,
}

/// A binary of a list, and its tests.
#[derive(Debug, Drop)]
pub struct ListedBinary {
    /// The name of its package.
    pub package_name: String,
    /// The id of its package, as cargo prints it.
    pub package_id: String,
    /// Its id, as nextest prints it.
    pub id: String,
    /// The name of its target.
    pub name: String,
    /// The kind of its target.
    pub kind: String,
    /// The platform that it is built for.
    pub platform: BuildPlatform,
    /// Its tests, in the order of the bytes of their names.
    pub tests: Vec<TestCase>,
}

impl ListedBinary {
    /// Returns the binary, as filters see it.
    pub fn binary_query(&self) -> BinaryQuery<'_>
        ensures { query_view result ≡ binary_view self.now }
    {
        BinaryQuery {
            package_id: &self.package_id,
            binary_id: &self.id,
            kind: &self.kind,
            binary_name: &self.name,
            platform: self.platform,
        }
    }

    /// Returns a test of the binary, as filters see it.
    pub fn query<'a>(&'a self, test: &'a str) -> TestQuery<'a>
        ensures { test_view result ≡ record { binary = binary_view self.now; name = test.now } }
    {
        TestQuery {
            binary_query: self.binary_query(),
            test_name: test,
        }
    }

    /// Returns a test of the binary, and whether the list says that it is ignored.
    fn listed<'a>(&'a self, case: &'a TestCase) -> ListedTest<'a>
        ensures { list_test_view result ≡ test_of (binary_view self.now) (case_view case.now) }
    {
        ListedTest {
            query: self.query(case.name.as_str()),
            ignored: case.ignored,
        }
    }
}

/// The tests of a list, by their binaries, and the triples and the target directory of the build.
#[derive(Debug, Drop)]
pub struct ListedTests {
    /// The triple of the host, if the list has the platforms of the build.
    pub host: Option<String>,
    /// The triple of the target, if the list has one: the first, if there are several.
    pub target: Option<String>,
    /// The target directory of the build, if the list has it.
    pub target_directory: Option<String>,
    /// The binaries, in the order of their keys in the list.
    pub binaries: Vec<ListedBinary>,
}

/// Adds the tests of a binary to some tests.
fn with_tests<'a>(
    found: Vec<ListedTest<'a>>,
    binary: &'a ListedBinary,
) -> Result<Vec<ListedTest<'a>>, AllocError>
    ensures { IfOk result (λ more. map list_test_view more.items
        ≡ map list_test_view found.entry.items ++ tests_in (listed_view binary.now)) }
{
    let mut found = found;
    for case in &binary.tests {
        found.push(binary.listed(case))?;
    }
    Ok(found)
}

/// Returns tests, as filters see them.
pub fn queries_of<'a>(
    alloc: Global,
    tests: &[ListedTest<'a>],
) -> Result<Vec<TestQuery<'a>>, AllocError>
    ensures { IfOk result (λ queries. map test_view queries.items
        ≡ map (λ t. t.test) (map list_test_view tests.now)) }
{
    let mut queries = Vec::new(alloc);
    for test in tests {
        queries.push(test.query)?;
    }
    Ok(queries)
}

impl ListedTests {
    /// Returns the tests of all binaries, in order.
    pub fn tests(&self, alloc: Global) -> Result<Vec<ListedTest<'_>>, AllocError>
        ensures { IfOk result (λ tests. map list_test_view tests.items
            ≡ list_tests (list_view self.now)) }
    {
        let mut tests = Vec::new(alloc);
        for binary in &self.binaries {
            tests = with_tests(tests, binary)?;
        }
        Ok(tests)
    }

    /// Returns the tests of all binaries, in order, as filters see them.
    pub fn queries(&self, alloc: Global) -> Result<Vec<TestQuery<'_>>, AllocError>
        ensures { IfOk result (λ queries. map test_view queries.items
            ≡ all_tests (list_view self.now)) }
    {
        let tests = self.tests(alloc)?;
        queries_of(alloc, &tests)
    }

    /// Returns all binaries, in order, as filters see them. Some may have no tests.
    pub fn binary_queries(&self, alloc: Global) -> Result<Vec<BinaryQuery<'_>>, AllocError>
        ensures { IfOk result (λ queries. map query_view queries.items
            ≡ all_binaries (list_view self.now)) }
    {
        let mut queries = Vec::new(alloc);
        for binary in &self.binaries {
            queries.push(binary.binary_query())?;
        }
        Ok(queries)
    }
}
