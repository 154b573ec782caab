//! Reading values from the tokens of a text.
ghost use Rattle.std.specs.Prelude.{◌≡◌, ◌<◌, length, Some, IfOk, OnOk, option_map};
ghost use Rattle.json.specs.Json.{items, value};
ghost use Rattle.json.specs.Print.{IsNumber};
ghost use Rattle.serde_json.specs.Data.{Data, number, put};
ghost use Rattle.serde_json.specs.Read.{converted, number_of, of_items};
ghost use Rattle.serde_json.specs.View.{view, items_view, members_view};
ghost use Rattle.filter_inputs.specs.Lists.Tokens.{AreMembersIn, IsValueIn, OpensObject};

use crate::lists::fault::ListFault;
use json::{Invalid, Reader, Token};
use serde_json::{Map, Value};
use std::alloc::{AllocError, AllocFailed, Global};

/// Why the tokens of a text aren't read.
#[derive(Drop)]
pub enum Stop {
    /// They aren't what the reader takes.
    Refused,
    /// An allocation failed.
    Memory,
}

impl From<Invalid> for Stop {
    fn from(_invalid: Invalid) -> Stop {
        Stop::Refused
    }
}

impl From<AllocError> for Stop {
    fn from(_error: AllocError) -> Stop {
        Stop::Memory
    }
}

impl<T: Drop> From<AllocFailed<T>> for Stop {
    fn from(_error: AllocFailed<T>) -> Stop {
        Stop::Memory
    }
}

impl From<ListFault> for Stop {
    fn from(fault: ListFault) -> Stop {
        match fault {
            ListFault::Memory => Stop::Memory,
            _ => Stop::Refused,
        }
    }
}

/// Reads a number.
fn number_in(alloc: Global, text: &str) -> Result<Value, Stop>
    ensures { IfOk result (λ v. IsNumber text.now
        → option_map number (number_of text.now) ≡ Some (view v)) }
{
    match Value::from_str(alloc, text) {
        Ok(value) => Ok(value),
        Err(error) if error.is_memory() => Err(Stop::Memory),
        Err(_) => Err(Stop::Refused),
    }
}

/// Reads the next value, in which arrays and objects nest at most so deep.
#[cycle(value_in)]
pub fn value_in(alloc: Global, reader: &mut Reader<'_>, depth: usize) -> Result<Value, Stop>
    ensures ok { IfOk result (λ v. IsValueIn depth reader.old reader.new (view v)) }
    ensures shorter { OnOk result (length reader.new < length reader.old) }
{
    let token = reader.next().ok_or(Stop::Refused)?;
    match token {
        Token::String(text) => Ok(Value::String(String::from_str(alloc, text)?)),
        Token::Number(text) => number_in(alloc, text),
        Token::Bool(flag) => Ok(Value::Bool(flag)),
        Token::Null => Ok(Value::Null),
        Token::EndObject | Token::EndArray | Token::Key(_) | Token::Bad => Err(Stop::Refused),
        Token::BeginArray => {
            if depth == 0 {
                return Err(Stop::Refused);
            }
            Ok(Value::Array(items_in(alloc, reader, depth - 1)?))
        }
        Token::BeginObject => {
            if depth == 0 {
                return Err(Stop::Refused);
            }
            Ok(Value::Object(members_in(alloc, reader, depth - 1)?))
        }
    }
}

/// Reads the values of an array up to its end.
#[cycle(value_in)]
fn items_in(alloc: Global, reader: &mut Reader<'_>, depth: usize) -> Result<Vec<Value>, Stop>
    ensures ok { IfOk result (λ found.
        converted of_items (items (value depth) (length reader.old) reader.old)
        ≡ Some (items_view found.items, reader.new)) }
    ensures shorter { OnOk result (length reader.new < length reader.old) }
{
    let mut found = Vec::new(alloc);
    'items: while !reader.take_end_array() {
        let item = value_in(alloc, reader, depth)?;
        found.push(item)?;
    }
    Ok(found)
}

/// Reads the members of an object up to its end.
#[cycle(value_in)]
fn members_in(
    alloc: Global,
    reader: &mut Reader<'_>,
    depth: usize,
) -> Result<Map<String, Value>, Stop>
    ensures ok { IfOk result (λ found.
        AreMembersIn depth reader.old reader.new (members_view found.entries)) }
    ensures shorter { OnOk result (length reader.new < length reader.old) }
{
    let mut found = Map::new(alloc);
    'members: while let Some(name) = reader.next_key()? {
        let key = String::from_str(alloc, name)?;
        let member = value_in(alloc, reader, depth)?;
        drop(found.insert(key, member)?);
    }
    Ok(found)
}

/// Reads the value at a key of an object, and adds it to members that were read.
pub fn with_member(
    alloc: Global,
    members: Map<String, Value>,
    key: &str,
    reader: &mut Reader<'_>,
    depth: usize,
) -> Result<Map<String, Value>, Stop>
    ensures ok { IfOk result (λ more. (value : Data)
        × IsValueIn depth reader.old reader.new value
        × (members_view more.entries ≡ put key.now value (members_view members.entries))) }
    ensures shorter { OnOk result (length reader.new < length reader.old) }
{
    let mut members = members;
    let name = String::from_str(alloc, key)?;
    let member = value_in(alloc, reader, depth)?;
    drop(members.insert(name, member)?);
    Ok(members)
}

/// Reads the token that opens an object, and returns how deep values nest in it.
pub fn open_object(reader: &mut Reader<'_>, depth: usize) -> Result<usize, Stop>
    ensures { IfOk result (λ within. OpensObject depth within reader.old reader.new) }
{
    let token = reader.next().ok_or(Stop::Refused)?;
    match token {
        Token::BeginObject if depth > 0 => Ok(depth - 1),
        _ => Err(Stop::Refused),
    }
}
