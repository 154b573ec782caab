//! Whether two values are the same.
ghost use Rattle.std.specs.Prelude.{◌≡◌};
ghost use Rattle.std.specs.Option.{option_eq};
ghost use Rattle.rinqebo_changes.specs.Same.{same_scalar, same_member, same_members, same_texts, same_value};

use rinqebo_report::{Scalar, TableMember, Value};

/// Whether two values that hold no others are the same: two durations are, however files write
/// them.
fn is_same_scalar(a: &Scalar, b: &Scalar) -> bool
    ensures { result ≡ same_scalar a.now b.now }
{
    match (a, b) {
        (Scalar::Boolean(a), Scalar::Boolean(b)) => *a == *b,
        (Scalar::Integer(a), Scalar::Integer(b)) => *a == *b,
        (Scalar::Text(a), Scalar::Text(b)) => a.as_str() == b.as_str(),
        (Scalar::Duration(a), Scalar::Duration(b)) => a.nanoseconds == b.nanoseconds,
        _ => false,
    }
}

/// Whether two members of tables are the same.
fn is_same_member(a: &TableMember, b: &TableMember) -> bool
    ensures { result ≡ same_member a.now b.now }
{
    a.key.as_str() == b.key.as_str() && is_same_scalar(&a.value, &b.value)
}

/// Whether tables have the same members, in the same order.
fn are_same_members(a: &[TableMember], b: &[TableMember]) -> bool
    ensures { result ≡ same_members a.now b.now }
{
    let Some((first, others)) = a.split_first() else {
        return b.is_empty();
    };
    match b.split_first() {
        Some((one, rest)) => is_same_member(first, one) && are_same_members(others, rest),
        None => false,
    }
}

/// Whether lists have the same texts, in the same order.
fn are_same_texts(a: &[String], b: &[String]) -> bool
    ensures { result ≡ same_texts a.now b.now }
{
    a == b
}

/// Whether two values are the same.
pub fn is_same_value(a: &Value, b: &Value) -> bool
    ensures { result ≡ same_value a.now b.now }
{
    match (a, b) {
        (Value::Scalar(a), Value::Scalar(b)) => is_same_scalar(a, b),
        (Value::Texts(a), Value::Texts(b)) => are_same_texts(a, b),
        (Value::Table(a), Value::Table(b)) => are_same_members(a, b),
        _ => false,
    }
}

/// Whether two settings have the same value, or neither has one.
pub fn is_same_setting(a: &Option<Value>, b: &Option<Value>) -> bool
    ensures { result ≡ option_eq same_value a.now b.now }
{
    match (a, b) {
        (Some(a), Some(b)) => is_same_value(a, b),
        (None, None) => true,
        _ => false,
    }
}
