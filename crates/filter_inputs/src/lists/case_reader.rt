//! Reading test cases from the tokens of a text.
ghost use Rattle.std.specs.Prelude.{◌≡◌, ◌<◌, length, IfOk, OnOk, map};
ghost use Rattle.serde_json.specs.Data.{object, Members};
ghost use Rattle.filter_inputs.specs.Lists.Lists.{cases_in};
ghost use Rattle.filter_inputs.specs.Lists.ListView.{case_view};
ghost use Rattle.filter_inputs.specs.Lists.Parts.{AreEntriesOf, IsCaseOf, entry_case};
ghost use Rattle.filter_inputs.specs.Lists.Tokens.{AreMembersIn, IsValueIn};

use crate::lists::list::TestCase;
use crate::lists::suites::is_ignored;
use crate::lists::tokens::{Stop, open_object, value_in};
use json::Reader;
use serde_json::Map;
use std::alloc::{AllocError, Global};

/// Reads test cases up to the end of their object: whether each is ignored, by its name.
fn cases_by_name(
    alloc: Global,
    reader: &mut Reader<'_>,
    depth: usize,
) -> Result<Map<String, bool>, Stop>
    ensures ok { IfOk result (λ found. (cases : Members)
        × AreMembersIn depth reader.old reader.new cases
        × AreEntriesOf IsCaseOf cases found.entries) }
    ensures shorter { OnOk result (length reader.new < length reader.old) }
{
    let mut found = Map::new(alloc);
    'cases: while let Some(name) = reader.next_key()? {
        let key = String::from_str(alloc, name)?;
        let case = value_in(alloc, reader, depth)?;
        drop(found.insert(key, is_ignored(&case))?);
    }
    Ok(found)
}

/// Returns the tests of test cases, in the order of their names.
fn in_order(alloc: Global, cases: Map<String, bool>) -> Result<Vec<TestCase>, AllocError>
    ensures { IfOk result (λ tests. map case_view tests.items ≡ map entry_case cases.entries) }
{
    let mut tests = Vec::new(alloc);
    for (name, ignored) in cases {
        tests.push(TestCase { name, ignored })?;
    }
    Ok(tests)
}

/// Reads an object of test cases.
pub fn tests_in(alloc: Global, reader: &mut Reader<'_>, depth: usize) -> Result<Vec<TestCase>, Stop>
    ensures ok { IfOk result (λ tests. (cases : Members)
        × IsValueIn depth reader.old reader.new (object cases)
        × (map case_view tests.items ≡ cases_in cases)) }
    ensures shorter { OnOk result (length reader.new < length reader.old) }
{
    let within = open_object(reader, depth)?;
    let cases = cases_by_name(alloc, reader, within)?;
    let tests = in_order(alloc, cases)?;
    Ok(tests)
}
