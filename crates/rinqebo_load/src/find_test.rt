//! Finds the test that a request names.
ghost use Rattle.std.specs.Prelude.{◌≡◌, ◌↔◌, ◌++◌, ◌≢◌, eqb, Contains, IfErr, IfOk, IsTrue, MatchOption, Ok, codes, map};
ghost use Rattle.std.specs.List.{ends_with};
ghost use Rattle.filter_inputs.specs.Packages.Targets.{TargetText, binary_id, targets_of_text};
ghost use Rattle.filter_inputs.specs.Packages.TargetView.{target_view, targets_view};
ghost use Rattle.filter_inputs.specs.Lists.ListView.{list_test_view};
ghost use Rattle.rinqebo_load.specs.FindTests.{AreNoTargets, IsFoundFor, IsNotFound, IsNotOfMetadata, IsNotOne, IsOfMetadata, IsOnlyOne, named_in};
ghost use Rattle.rinqebo_load.specs.FoundTests.{is_end_of, is_named, named_tests};
ghost use Rattle.rinqebo_load.specs.InputFaults.{IsAnySubject, OfEngine, OrMemory};

use crate::fault::{InputFault, Subject};
use crate::found_test::FoundTest;
use crate::missing::{Missing, TestFault, several_tests};
use crate::session::Session;
use filter_inputs::{ListedTest, MetadataFault, PackageTarget, targets_of};
use rinqebo_forms::EngineFault;
use rinqebo_request::{FileOption, NamedFile, RequestedTest};
use std::alloc::{AllocError, Global};

/// Whether a text ends with another.
fn ends_with(text: &str, end: &str) -> bool
    ensures { result ≡ ends_with eqb text.now end.now }
{
    text.ends_with(end)
}

/// Whether a word is the name of a test, or its end that follows a `::`.
fn is_end_of(word: &str, end: &str, name: &str) -> bool
    requires { end.now ≡ codes "::" ++ word.now }
    ensures { result ≡ is_end_of word.now name.now }
{
    name == word || ends_with(name, end)
}

/// Whether a request names a test of a list. The end is its name behind `::`.
fn is_named(requested: &RequestedTest<'_>, end: &str, test: &ListedTest<'_>) -> bool
    requires { end.now ≡ codes "::" ++ requested.now.name.now }
    ensures { result
        ≡ is_named requested.now.binary requested.now.name.now (list_test_view test.now) }
{
    let query = &test.query;
    match requested.binary {
        Some(binary) => {
            query.binary_query.binary_id == binary && query.test_name == requested.name
        }
        None => is_end_of(requested.name, end, query.test_name),
    }
}

/// The tests of a list that a request names.
fn named_tests<'t>(
    alloc: Global,
    requested: &RequestedTest<'_>,
    tests: &[ListedTest<'t>],
) -> Result<Vec<ListedTest<'t>>, AllocError>
    ensures { IfOk result (λ named. map list_test_view named.items
        ≡ named_tests requested.now (map list_test_view tests.now)) }
{
    let name = requested.name;
    let end = format!(in alloc; "::{name}")?;
    let mut named = Vec::new(alloc);
    for test in tests {
        if is_named(requested, end.as_str(), test) {
            named.push(*test)?;
        }
    }
    Ok(named)
}

/// The targets of the metadata that were read at a path.
fn metadata_targets(
    alloc: Global,
    path: Option<&str>,
    metadata: &str,
) -> Result<Vec<PackageTarget>, InputFault>
    ensures ok { IfOk result (λ targets.
        targets_of_text metadata.now ≡ Ok (targets_view targets.items)) }
    ensures err { IfErr result
        (OrMemory (OfEngine IsAnySubject (AreNoTargets metadata.now))) }
{
    match targets_of(alloc, metadata) {
        Ok(targets) => Ok(targets),
        Err(MetadataFault::Memory) => Err(InputFault::Memory),
        Err(fault) => {
            let file = NamedFile::new(alloc, path, FileOption::Metadata)?;
            let fault = EngineFault::Metadata(fault);
            Err(InputFault::Engine(Subject::File(file), fault))
        }
    }
}

/// Whether a target builds the binary of an id.
fn builds(alloc: Global, target: &PackageTarget, id: &str) -> Result<bool, AllocError>
    ensures { IfOk result (λ is. IsTrue is ↔ (binary_id (target_view target.now) ≡ id.now)) }
{
    let built = target.binary_id(alloc)?;
    Ok(built.as_str() == id)
}

/// The target that builds the binary of an id, if there is one.
fn target_for<'t>(
    alloc: Global,
    targets: &'t [PackageTarget],
    id: &str,
) -> Result<Option<&'t PackageTarget>, AllocError>
    ensures { IfOk result (λ found. MatchOption found
        ((target : TargetText) → Contains (targets_view targets.now) target
        → binary_id target ≢ id.now)
        (λ target. Contains (targets_view targets.now) (target_view target.now)
        × (binary_id (target_view target.now) ≡ id.now))) }
{
    for target in targets {
        if builds(alloc, target, id)? {
            return Ok(Some(target));
        }
    }
    Ok(None)
}

/// The test of the binary of an id, by the metadata that were read at a path.
fn test_of_metadata(
    alloc: Global,
    path: Option<&str>,
    metadata: &str,
    id: &str,
    requested: &RequestedTest<'_>,
) -> Result<FoundTest, TestFault>
    ensures ok { IfOk result (λ found. IsOfMetadata metadata.now id.now requested.now found) }
    ensures err { IfErr result (IsNotOfMetadata metadata.now id.now) }
{
    let targets = metadata_targets(alloc, path, metadata)?;
    match target_for(alloc, &targets, id)? {
        Some(target) => Ok(FoundTest::of_target(alloc, target, requested)?),
        None => Err(TestFault::NoTest(Missing::in_metadata(alloc, id, &targets)?)),
    }
}

impl Session<'_> {
    /// The test of the list that a request names.
    fn test_of_list(
        &self,
        alloc: Global,
        requested: &RequestedTest<'_>,
    ) -> Result<FoundTest, TestFault>
        ensures ok { IfOk result (IsOnlyOne (named_in self.now requested.now) requested.now) }
        ensures err { IfErr result (IsNotOne (named_in self.now requested.now)) }
    {
        let tests = self.tests.tests(alloc)?;
        let named = named_tests(alloc, requested, &tests)?;
        match named.len() {
            0 => Err(TestFault::NoTest(Missing::in_list(alloc, requested, &self.tests)?)),
            1 => Ok(FoundTest::of_list(alloc, &named[0], requested.mode)?),
            _ => Err(TestFault::SeveralTests(several_tests(alloc, requested, &named)?)),
        }
    }

    /// The test that a request names: one of the list, if there is a list; else one of the binary
    /// that it names, which is that of the metadata at a path, if there are any, and else is known
    /// by its id.
    ///
    /// # Errors
    ///
    /// Returns [`TestFault::NoTest`] if the list has no such test, or the metadata have no such
    /// binary, [`TestFault::SeveralTests`] if the list has several, [`TestFault::Input`] if the
    /// metadata have no targets, and [`TestFault::Memory`] if memory runs out.
    pub fn find_test(
        &self,
        alloc: Global,
        requested: &RequestedTest<'_>,
        path: Option<&str>,
    ) -> Result<FoundTest, TestFault>
        ensures found { IfOk result (IsFoundFor self.now requested.now) }
        ensures err { IfErr result (IsNotFound self.now requested.now) }
    {
        let Some(id) = requested.binary else {
            return self.test_of_list(alloc, requested);
        };
        if self.gathered.list.is_some() {
            return self.test_of_list(alloc, requested);
        }
        match &self.gathered.metadata {
            Some(metadata) => test_of_metadata(alloc, path, metadata.as_str(), id, requested),
            None => Ok(FoundTest::of_id(alloc, id, requested)?),
        }
    }
}
