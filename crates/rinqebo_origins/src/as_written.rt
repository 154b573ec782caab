//! Durations as files write them.
ghost use Rattle.std.specs.Prelude.{◌≡◌, ◌↔◌, ℕ, List, Some, IfOk, IfSome, IsTrue, MatchOption, All, map, option_and_then, option_map, string_bytes};
ghost use Rattle.std.specs.Option.{option_copied};
ghost use Rattle.nextest_tree.specs.Node.{as_text};
ghost use Rattle.nextest_tree.specs.View.{tree_view};
ghost use Rattle.rinqebo_origins.specs.AsWritten.{member_text, IsReadAs, WritesDuration, IsAsWritten, IsScalarAsWritten, IsMemberAsWritten, IsValueAsWritten};
ghost use Rattle.rinqebo_origins.specs.Reported.{scalar_view, field_view, value_view};

use nextest_elements::parse_duration;
use nextest_tree::Tree;
use rinqebo_report::{ReportedDuration, Scalar, TableMember, Value};
use std::alloc::{AllocError, Global};

/// The text that a node has for the member of a value at a key. A text is itself the period.
fn member_text<'t>(node: &'t Tree, key: &str) -> Option<&'t str>
    ensures { option_copied result ≡ member_text key.now (tree_view node.now) }
{
    match node {
        Tree::Text(text) => {
            if key == "period" {
                Some(text.as_str())
            } else {
                None
            }
        }
        _ => node.get(key)?.as_str(),
    }
}

/// The text that a node, if there is one, has for the member of a value at a key.
fn text_for<'t>(node: Option<&'t Tree>, key: &str) -> Option<&'t str>
    ensures { option_copied result ≡ option_and_then (member_text key.now)
        (option_map (λ tree. tree_view tree.now) node.entry) }
{
    member_text(node?, key)
}

/// The text that a node, if there is one, is.
fn text_of<'t>(node: Option<&'t Tree>) -> Option<&'t str>
    ensures { option_copied result ≡ option_and_then as_text
        (option_map (λ tree. tree_view tree.now) node.entry) }
{
    node?.as_str()
}

/// Whether a text is read as a duration of so many nanoseconds.
fn is_read_as(text: &str, nanoseconds: u128) -> bool
    ensures { IsTrue result ↔ IsReadAs text.now nanoseconds }
{
    match parse_duration(text) {
        Ok(read) => read == nanoseconds,
        Err(_) => false,
    }
}

/// A text, if it writes a duration of so many nanoseconds.
fn written_text(
    alloc: Global,
    text: Option<&str>,
    nanoseconds: u128,
) -> Result<Option<String>, AllocError>
    ensures { let found = option_copied text.entry in
        IfOk result (λ written. MatchOption written
        ((other : List ℕ) → ¬ WritesDuration found nanoseconds other)
        (λ written. WritesDuration found nanoseconds (string_bytes written))) }
{
    match text {
        Some(text) if is_read_as(text, nanoseconds) => Ok(Some(String::from_str(alloc, text)?)),
        _ => Ok(None),
    }
}

/// A duration with the text that writes it, if one does.
fn duration_as_written(
    alloc: Global,
    duration: ReportedDuration,
    text: Option<&str>,
) -> Result<ReportedDuration, AllocError>
    ensures same { IfOk result (λ told. told.nanoseconds ≡ duration.nanoseconds) }
    ensures written { IfOk result (IsAsWritten (option_copied text.entry)) }
{
    let nanoseconds = duration.nanoseconds;
    Ok(ReportedDuration {
        nanoseconds,
        written: written_text(alloc, text, nanoseconds)?,
    })
}

/// A value that holds no others: a duration with the text that writes it, if one does.
fn scalar_as_written(
    alloc: Global,
    scalar: Scalar,
    text: Option<&str>,
) -> Result<Scalar, AllocError>
    ensures same { IfOk result (λ told. scalar_view told ≡ scalar_view scalar) }
    ensures written { IfOk result (IsScalarAsWritten (option_copied text.entry)) }
{
    match scalar {
        Scalar::Boolean(truth) => Ok(Scalar::Boolean(truth)),
        Scalar::Integer(number) => Ok(Scalar::Integer(number)),
        Scalar::Text(held) => Ok(Scalar::Text(held)),
        Scalar::Duration(duration) => {
            let duration = duration_as_written(alloc, duration, text)?;
            Ok(Scalar::Duration(duration))
        }
    }
}

/// A member of a table, with the text that a node has for it, if that writes its duration.
fn member_as_written(
    alloc: Global,
    member: TableMember,
    node: Option<&Tree>,
) -> Result<TableMember, AllocError>
    ensures same { IfOk result (λ told. field_view told ≡ field_view member) }
    ensures written { IfOk result (IsMemberAsWritten
        (option_map (λ tree. tree_view tree.now) node.entry)) }
{
    let text = text_for(node, member.key.as_str());
    let value = scalar_as_written(alloc, member.value, text)?;
    Ok(TableMember {
        key: member.key,
        value,
    })
}

/// Members of a table, with the texts that a node has for them.
fn members_as_written(
    alloc: Global,
    members: Vec<TableMember>,
    node: Option<&Tree>,
) -> Result<Vec<TableMember>, AllocError>
    ensures same { IfOk result (λ told. map field_view told.items
        ≡ map field_view members.items) }
    ensures written { IfOk result (λ told. All (IsMemberAsWritten
        (option_map (λ tree. tree_view tree.now) node.entry)) told.items) }
{
    let mut told = Vec::new(alloc);
    for member in members {
        told.push(member_as_written(alloc, member, node)?)?;
    }
    Ok(told)
}

/// A value with its durations as a node writes them.
pub(crate) fn value_as_written(
    alloc: Global,
    value: Value,
    node: Option<&Tree>,
) -> Result<Value, AllocError>
    ensures same { IfOk result (λ told. value_view told ≡ value_view value) }
    ensures written { IfOk result (IsValueAsWritten
        (option_map (λ tree. tree_view tree.now) node.entry)) }
{
    match value {
        Value::Scalar(scalar) => {
            let scalar = scalar_as_written(alloc, scalar, text_of(node))?;
            Ok(Value::Scalar(scalar))
        }
        Value::Texts(texts) => Ok(Value::Texts(texts)),
        Value::Table(members) => Ok(Value::Table(members_as_written(alloc, members, node)?)),
    }
}
