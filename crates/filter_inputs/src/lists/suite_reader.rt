//! Reading suites from the tokens of a text.
ghost use Rattle.std.specs.Prelude.{◌≡◌, ◌<◌, length, None, IfOk, OnOk, flat_map, map};
ghost use Rattle.std.specs.List.{AllZip};
ghost use Rattle.serde_json.specs.Data.{Data, object, put, Members};
ghost use Rattle.filter_inputs.specs.Lists.Demands.{first_fault, listed, suite_demands};
ghost use Rattle.filter_inputs.specs.Lists.Lists.{IsSuiteOf, values};
ghost use Rattle.filter_inputs.specs.Lists.ListView.{listed_view};
ghost use Rattle.filter_inputs.specs.Lists.Parts.{AreEntriesOf, AreSuiteParts, IsBinaryOf};
ghost use Rattle.filter_inputs.specs.Lists.Tokens.{AreMembersIn, IsValueIn};

use crate::lists::case_reader::tests_in;
use crate::lists::list::{ListedBinary, TestCase};
use crate::lists::suites::{binary_of, suite_of};
use crate::lists::tokens::{Stop, open_object, with_member};
use json::Reader;
use serde_json::{Map, Value};
use std::alloc::{AllocError, Global};

/// What a suite has.
#[derive(Drop)]
struct SuiteParts {
    /// Its members, but its test cases.
    members: Map<String, Value>,
    /// Its tests, if it has test cases.
    tests: Option<Vec<TestCase>>,
}

impl SuiteParts {
    /// Reads the value at a key of the suite, and adds it.
    fn read(
        self,
        alloc: Global,
        key: &str,
        reader: &mut Reader<'_>,
        depth: usize,
    ) -> Result<SuiteParts, Stop>
        ensures ok { IfOk result (λ more. (value : Data)
            × IsValueIn depth reader.old reader.new value
            × ((suite : Members) → AreSuiteParts suite self.members.entries self.tests
            → AreSuiteParts (put key.now value suite) more.members.entries more.tests)) }
        ensures shorter { OnOk result (length reader.new < length reader.old) }
    {
        let SuiteParts { members, tests } = self;
        if key == "testcases" {
            let tests = tests_in(alloc, reader, depth)?;
            return Ok(SuiteParts {
                members,
                tests: Some(tests),
            });
        }
        let members = with_member(alloc, members, key, reader, depth)?;
        Ok(SuiteParts { members, tests })
    }
}

/// Reads what a suite has, up to its end.
fn suite_parts(alloc: Global, reader: &mut Reader<'_>, depth: usize) -> Result<SuiteParts, Stop>
    ensures ok { IfOk result (λ parts. (suite : Members)
        × AreMembersIn depth reader.old reader.new suite
        × AreSuiteParts suite parts.members.entries parts.tests) }
    ensures shorter { OnOk result (length reader.new < length reader.old) }
{
    let mut parts = SuiteParts {
        members: Map::new(alloc),
        tests: None,
    };
    'members: while let Some(key) = reader.next_key()? {
        parts = parts.read(alloc, key, reader, depth)?;
    }
    Ok(parts)
}

/// Returns the binary of the suite with an id, by what it has.
fn binary_by_parts(alloc: Global, id: &str, parts: SuiteParts) -> Result<ListedBinary, Stop>
    ensures { IfOk result (λ binary. (suite : Members)
        → AreSuiteParts suite parts.members.entries parts.tests
        → IsBinaryOf (id.now, object suite) binary) }
{
    let SuiteParts { members, tests } = parts;
    let tests = tests.ok_or(Stop::Refused)?;
    let mut members = members;
    let key = String::from_str(alloc, "testcases")?;
    drop(members.insert(key, Value::Object(Map::new(alloc)))?);
    let suite = Value::Object(members);
    let found = suite_of(alloc, id, &suite)?;
    let mut binary = binary_of(alloc, &found)?;
    binary.tests = tests;
    Ok(binary)
}

/// Reads the suite with an id.
fn binary_in(
    alloc: Global,
    id: &str,
    reader: &mut Reader<'_>,
    depth: usize,
) -> Result<ListedBinary, Stop>
    ensures ok { IfOk result (λ binary. (suite : Data)
        × IsValueIn depth reader.old reader.new suite
        × IsBinaryOf (id.now, suite) binary) }
    ensures shorter { OnOk result (length reader.new < length reader.old) }
{
    let within = open_object(reader, depth)?;
    let parts = suite_parts(alloc, reader, within)?;
    binary_by_parts(alloc, id, parts)
}

/// Reads suites up to the end of their object: the binary of each, by its id.
fn binaries_by_id(
    alloc: Global,
    reader: &mut Reader<'_>,
    depth: usize,
) -> Result<Map<String, ListedBinary>, Stop>
    ensures ok { IfOk result (λ found. (suites : Members)
        × AreMembersIn depth reader.old reader.new suites
        × AreEntriesOf IsBinaryOf suites found.entries) }
    ensures shorter { OnOk result (length reader.new < length reader.old) }
{
    let mut found = Map::new(alloc);
    'suites: while let Some(id) = reader.next_key()? {
        let binary = binary_in(alloc, id, reader, depth)?;
        let key = String::from_str(alloc, id)?;
        drop(found.insert(key, binary)?);
    }
    Ok(found)
}

/// Returns the binaries of suites, in the order of their ids.
fn in_order(
    alloc: Global,
    suites: Map<String, ListedBinary>,
) -> Result<Vec<ListedBinary>, AllocError>
    ensures { IfOk result (λ binaries. binaries.items ≡ map (λ e. e.1) suites.entries) }
{
    let mut binaries = Vec::new(alloc);
    for (_, binary) in suites {
        binaries.push(binary)?;
    }
    Ok(binaries)
}

/// Reads an object of suites.
pub fn binaries_in(
    alloc: Global,
    reader: &mut Reader<'_>,
    depth: usize,
) -> Result<Vec<ListedBinary>, Stop>
    ensures ok { IfOk result (λ binaries. (suites : Members)
        × IsValueIn depth reader.old reader.new (object suites)
        × AllZip IsSuiteOf (values suites) (map listed_view binaries.items)
        × (first_fault (flat_map suite_demands (listed suites)) ≡ None)) }
    ensures shorter { OnOk result (length reader.new < length reader.old) }
{
    let within = open_object(reader, depth)?;
    let suites = binaries_by_id(alloc, reader, within)?;
    let binaries = in_order(alloc, suites)?;
    Ok(binaries)
}
