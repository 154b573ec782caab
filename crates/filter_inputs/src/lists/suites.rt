//! Reading the suites of a list: each is a binary, with its tests.
ghost use Rattle.std.specs.Prelude.{◌≡◌, ℕ, List, None, Some, IfOk, IfErr, codes, flat_map, map, string_bytes};
ghost use Rattle.std.specs.List.{AllZip};
ghost use Rattle.serde_json.specs.Data.{string, object, Members};
ghost use Rattle.serde_json.specs.Find.{get};
ghost use Rattle.serde_json.specs.View.{members_view, view};
ghost use Rattle.filter_inputs.specs.Lists.Demands.{a_platform, of_kind, platform_of, member_demand, listed, place_text, unknown_platform, suite_demands, suites_demands, first_fault};
ghost use Rattle.filter_inputs.specs.Lists.Faults.{fault_view, Tells, TellsFirst};
ghost use Rattle.filter_inputs.specs.Lists.Lists.{IsSuiteOf, cases_in, is_ignored, values};
ghost use Rattle.filter_inputs.specs.Lists.ListView.{case_view, listed_view};
ghost use Rattle.filter_inputs.specs.Lists.SuiteView.{suite_view};
ghost use Rattle.filter_inputs.specs.declared.fields.kind.Wanted.TheVariants.{Text};

use crate::fields::JsonField;
use crate::lists::fault::ListFault;
use crate::lists::list::{ListedBinary, TestCase};
use crate::lists::place::Place;
use crate::lists::values::{members_at, text_at};
use nextest_engines::BuildPlatform;
use serde_json::{Map, Value};
use std::alloc::{AllocError, Global};

/// The properties of a suite.
#[derive(Clone, Copy)]
pub struct Suite<'v> {
    package_name: &'v str,
    package_id: &'v str,
    binary_id: &'v str,
    binary_name: &'v str,
    kind: &'v str,
    platform: BuildPlatform,
    cases: &'v Map<String, Value>,
}

/// Returns the platform with a name.
fn platform_of(name: &str) -> Option<BuildPlatform>
    ensures { result ≡ platform_of name.now }
{
    if name == "host" {
        Some(BuildPlatform::Host)
    } else if name == "target" {
        Some(BuildPlatform::Target)
    } else {
        None
    }
}

/// Returns the fault of a string that doesn't name a platform.
fn unknown_platform(alloc: Global, place: Place<'_>, name: &str) -> Result<ListFault, AllocError>
    ensures { IfOk result (λ fault. fault_view fault
        ≡ Some (unknown_platform (place_text place.entry) name.now)) }
{
    Ok(ListFault::UnknownPlatform {
        place: place.text(alloc)?,
        given: String::from_str(alloc, name)?,
    })
}

/// Reads the string at a key of a suite.
fn member_text<'v>(
    alloc: Global,
    id: &str,
    suite: &'v Value,
    key: &str,
) -> Result<&'v str, ListFault>
    ensures ok { IfOk result (λ text. get key.now (view suite.now) ≡ Some (string text.now)) }
    ensures err { IfErr result (Tells (member_demand id.now (view suite.now) key.now
        (of_kind Text))) }
{
    text_at(alloc, JsonField::under(suite, key, Place::Member(id, key)))
}

/// Reads the platform of a suite.
fn platform_in(alloc: Global, id: &str, suite: &Value) -> Result<BuildPlatform, ListFault>
    ensures ok { IfOk result (λ platform. (name : List ℕ)
        × (get (codes "build-platform") (view suite.now) ≡ Some (string name))
        × (platform_of name ≡ Some platform)) }
    ensures err { IfErr result (Tells (member_demand id.now (view suite.now)
        (codes "build-platform") a_platform)) }
{
    let name = member_text(alloc, id, suite, "build-platform")?;
    match platform_of(name) {
        Some(platform) => Ok(platform),
        None => Err(unknown_platform(alloc, Place::Member(id, "build-platform"), name)?),
    }
}

/// Reads the suite with an id.
pub fn suite_of<'v>(alloc: Global, id: &str, suite: &'v Value) -> Result<Suite<'v>, ListFault>
    ensures ok { IfOk result (λ found. IsSuiteOf (view suite.now) (suite_view found)) }
    ensures met { IfOk result (λ _. first_fault (suite_demands (id.now, view suite.now)) ≡ None) }
    ensures err { IfErr result (TellsFirst (suite_demands (id.now, view suite.now))) }
{
    let whole = JsonField {
        found: Some(suite),
        place: Place::Suite(id),
    };
    members_at(alloc, whole)?;
    Ok(Suite {
        package_name: member_text(alloc, id, suite, "package-name")?,
        package_id: member_text(alloc, id, suite, "package-id")?,
        binary_id: member_text(alloc, id, suite, "binary-id")?,
        binary_name: member_text(alloc, id, suite, "binary-name")?,
        kind: member_text(alloc, id, suite, "kind")?,
        platform: platform_in(alloc, id, suite)?,
        cases: members_at(
            alloc,
            JsonField::under(suite, "testcases", Place::Member(id, "testcases")),
        )?,
    })
}

/// Returns whether a test case says that its test is ignored.
pub fn is_ignored(case: &Value) -> bool
    ensures { result ≡ is_ignored (view case.now) }
{
    match case.get("ignored") {
        Some(Value::Bool(ignored)) => *ignored,
        _ => false,
    }
}

/// Returns the tests of test cases.
fn cases_of(alloc: Global, cases: &Map<String, Value>) -> Result<Vec<TestCase>, AllocError>
    ensures { IfOk result (λ tests. map case_view tests.items
        ≡ cases_in (members_view cases.now.entries)) }
{
    let mut tests = Vec::new(alloc);
    for (name, case) in cases.iter() {
        tests.push(TestCase {
            name: name.clone()?,
            ignored: is_ignored(case),
        })?;
    }
    Ok(tests)
}

/// Returns the binary of a suite.
pub fn binary_of(alloc: Global, suite: &Suite<'_>) -> Result<ListedBinary, AllocError>
    ensures { IfOk result (λ binary. listed_view binary ≡ suite_view suite.now) }
{
    Ok(ListedBinary {
        package_name: String::from_str(alloc, suite.package_name)?,
        package_id: String::from_str(alloc, suite.package_id)?,
        id: String::from_str(alloc, suite.binary_id)?,
        name: String::from_str(alloc, suite.binary_name)?,
        kind: String::from_str(alloc, suite.kind)?,
        platform: suite.platform,
        tests: cases_of(alloc, suite.cases)?,
    })
}

/// Reads the binaries of suites.
fn binaries_in(alloc: Global, suites: &Map<String, Value>) -> Result<Vec<ListedBinary>, ListFault>
    ensures ok { IfOk result (λ binaries. AllZip IsSuiteOf
        (values (members_view suites.now.entries)) (map listed_view binaries.items)) }
    ensures met { IfOk result (λ _.
        first_fault (flat_map suite_demands (listed (members_view suites.now.entries))) ≡ None) }
    ensures err { IfErr result
        (TellsFirst (flat_map suite_demands (listed (members_view suites.now.entries)))) }
{
    let mut binaries = Vec::new(alloc);
    for (id, suite) in suites.iter() {
        let suite = suite_of(alloc, id.as_str(), suite)?;
        binaries.push(binary_of(alloc, &suite)?)?;
    }
    Ok(binaries)
}

/// Reads the binaries of a list.
pub fn binaries_of(alloc: Global, document: &Value) -> Result<Vec<ListedBinary>, ListFault>
    ensures ok { IfOk result (λ binaries. (suites : Members)
        × (get (codes "rust-suites") (view document.now) ≡ Some (object suites))
        × AllZip IsSuiteOf (values suites) (map listed_view binaries.items)) }
    ensures met { IfOk result (λ _.
        first_fault (suites_demands (get (codes "rust-suites") (view document.now))) ≡ None) }
    ensures err { IfErr result
        (TellsFirst (suites_demands (get (codes "rust-suites") (view document.now)))) }
{
    let suites = JsonField::under(document, "rust-suites", Place::Suites);
    binaries_in(alloc, members_at(alloc, suites)?)
}
