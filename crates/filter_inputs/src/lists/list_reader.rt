//! Reading a list of tests from the tokens of a text, with no value of the whole text.
ghost use Rattle.std.specs.Prelude.{◌≡◌, ◌<◌, length, IfOk, OnOk};
ghost use Rattle.serde_json.specs.Data.{Data, object, put, Members};
ghost use Rattle.filter_inputs.specs.Lists.Demands.{demands, first_fault};
ghost use Rattle.filter_inputs.specs.Lists.Lists.{IsListOf};
ghost use Rattle.filter_inputs.specs.Lists.ListView.{list_view};
ghost use Rattle.filter_inputs.specs.Lists.Parts.{AreListParts};
ghost use Rattle.filter_inputs.specs.Lists.Reading.{IsListIn};
ghost use Rattle.filter_inputs.specs.Lists.Tokens.{AreMembersIn, IsValueIn};

use crate::lists::list::{ListedBinary, ListedTests};
use crate::lists::platforms::triples_of;
use crate::lists::suite_reader::binaries_in;
use crate::lists::text::{copied, target_directory_in};
use crate::lists::tokens::{Stop, open_object, with_member};
use json::{Reader, Scratch};
use serde_json::{Map, Value};
use std::alloc::Global;

/// How deep arrays and objects may nest.
const MAX_DEPTH: usize = 127;

/// What a list has.
#[derive(Drop)]
struct ListParts {
    /// Its members, but its suites.
    members: Map<String, Value>,
    /// The binaries of its suites, if it has suites.
    binaries: Option<Vec<ListedBinary>>,
}

impl ListParts {
    /// Reads the value at a key of the list, and adds it.
    fn read(
        self,
        alloc: Global,
        key: &str,
        reader: &mut Reader<'_>,
        depth: usize,
    ) -> Result<ListParts, Stop>
        ensures ok { IfOk result (λ more. (value : Data)
            × IsValueIn depth reader.old reader.new value
            × ((list : Members) → AreListParts list self.members.entries self.binaries
            → AreListParts (put key.now value list) more.members.entries more.binaries)) }
        ensures shorter { OnOk result (length reader.new < length reader.old) }
    {
        let ListParts { members, binaries } = self;
        if key == "rust-suites" {
            let binaries = binaries_in(alloc, reader, depth)?;
            return Ok(ListParts {
                members,
                binaries: Some(binaries),
            });
        }
        let members = with_member(alloc, members, key, reader, depth)?;
        Ok(ListParts { members, binaries })
    }
}

/// Reads what a list has, up to its end.
fn list_parts(alloc: Global, reader: &mut Reader<'_>, depth: usize) -> Result<ListParts, Stop>
    ensures ok { IfOk result (λ parts. (list : Members)
        × AreMembersIn depth reader.old reader.new list
        × AreListParts list parts.members.entries parts.binaries) }
    ensures shorter { OnOk result (length reader.new < length reader.old) }
{
    let mut parts = ListParts {
        members: Map::new(alloc),
        binaries: None,
    };
    'members: while let Some(key) = reader.next_key()? {
        parts = parts.read(alloc, key, reader, depth)?;
    }
    Ok(parts)
}

/// Returns the list of tests, by what it has.
fn list_by_parts(alloc: Global, parts: ListParts) -> Result<ListedTests, Stop>
    ensures ok { IfOk result (λ list. (document : Members)
        → AreListParts document parts.members.entries parts.binaries
        → IsListOf (object document) (list_view list)) }
    ensures met { IfOk result (λ list. (document : Members)
        → AreListParts document parts.members.entries parts.binaries
        → first_fault (demands (object document)) ≡ None) }
{
    let ListParts { members, binaries } = parts;
    let binaries = binaries.ok_or(Stop::Refused)?;
    let document = Value::Object(members);
    let triples = triples_of(alloc, &document)?;
    Ok(ListedTests {
        host: copied(alloc, triples.host)?,
        target: copied(alloc, triples.target)?,
        target_directory: copied(alloc, target_directory_in(&document))?,
        binaries,
    })
}

/// Reads a list from its text.
fn list_with(alloc: Global, text: &str, scratch: &mut Scratch) -> Result<ListedTests, Stop>
    ensures { IfOk result (λ list. IsListIn text.now (list_view list)) }
{
    let mut reader = Reader::new(text, scratch)?;
    let depth = open_object(&mut reader, MAX_DEPTH)?;
    let parts = list_parts(alloc, &mut reader, depth)?;
    if reader.next().is_some() {
        return Err(Stop::Refused);
    }
    list_by_parts(alloc, parts)
}

/// Reads a list from its text, without a value of the whole text.
///
/// A text that isn't JSON, or isn't a list, is refused.
pub fn list_in(alloc: Global, text: &str) -> Result<ListedTests, Stop>
    ensures { IfOk result (λ list. IsListIn text.now (list_view list)) }
{
    let mut scratch = Scratch::new(alloc);
    list_with(alloc, text, &mut scratch)
}
