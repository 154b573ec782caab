//! The JSON schema of a shape.
ghost use Rattle.std.specs.Prelude.{◌≡◌, ◌++◌, [], ◌∷◌, IfOk, OnOk, map, codes, string_bytes};
ghost use Rattle.serde_json.specs.Data.{array, no_members, member};
ghost use Rattle.serde_json.specs.View.{view, members_view, items_of};
ghost use Rattle.serde_json.specs.Written.{compact_text};
ghost use Rattle.nextest_shape.specs.FileForm.{file_form};
ghost use Rattle.nextest_shape.specs.Page.{typed, texts_data, text_members, with_bound, number_members, array_members, table_members, map_members, required_keys, schema_members, with_properties, schemas_of, schema_data};
ghost use Rattle.nextest_shape.specs.View.{text_view, shape_view, fields_view, shapes_view};

use crate::about::about;
use crate::expression::expression_of;
use crate::file::file_shape;
use crate::shape::{Field, Shape, TextShape};
use serde_json::{Map, Value, put};
use std::alloc::{AllocError, Global};

/// The members of a schema for values of a type.
fn typed(alloc: Global, name: &str) -> Result<Map<String, Value>, AllocError>
    ensures { IfOk result (λ members. members_view members.entries ≡ typed name.now) }
{
    let mut members = Map::new(alloc);
    put(
        &mut members,
        alloc,
        "type",
        Value::try_from_str(alloc, name)?,
    )?;
    Ok(members)
}

/// A list of words.
fn words_json(alloc: Global, words: &[&str]) -> Result<Value, AllocError>
    ensures { IfOk result (λ value. view value ≡ texts_data (map (λ word. word.now) words.now)) }
{
    let mut list = Vec::new(alloc);
    for word in words {
        list.push(Value::try_from_str(alloc, word)?)?;
    }
    Ok(Value::Array(list))
}

/// The members of the schema of texts.
fn text_members(alloc: Global, text: TextShape) -> Result<Map<String, Value>, AllocError>
    ensures { IfOk result (λ members. members_view members.entries
        ≡ text_members (text_view text)) }
{
    let mut members = typed(alloc, "string")?;
    match text {
        TextShape::Any => {}
        TextShape::OneOf(words) => put(&mut members, alloc, "enum", words_json(alloc, words)?)?,
        TextShape::Of(pattern) => {
            let expression = Value::try_from_str(alloc, expression_of(pattern))?;
            put(&mut members, alloc, "pattern", expression)?;
        }
    }
    Ok(members)
}

/// Puts a bound among members, if there is one.
fn put_bound(
    members: &mut Map<String, Value>,
    alloc: Global,
    name: &str,
    bound: Option<i64>,
) -> Result<(), AllocError>
    ensures { OnOk result (members_view members.new.entries
        ≡ with_bound name.now bound (members_view members.old.entries)) }
{
    match bound {
        Some(bound) => put(members, alloc, name, Value::from(bound)),
        None => Ok(()),
    }
}

/// The members of the schema of numbers.
fn number_members(
    alloc: Global,
    least: Option<i64>,
    greatest: Option<i64>,
) -> Result<Map<String, Value>, AllocError>
    ensures { IfOk result (λ members. members_view members.entries
        ≡ number_members least greatest) }
{
    let mut members = typed(alloc, "integer")?;
    put_bound(&mut members, alloc, "minimum", least)?;
    put_bound(&mut members, alloc, "maximum", greatest)?;
    Ok(members)
}

/// The members of the schema of arrays.
fn array_members(alloc: Global, least: u64, items: Value) -> Result<Map<String, Value>, AllocError>
    ensures { IfOk result (λ members. members_view members.entries
        ≡ array_members least (view items)) }
{
    let mut members = typed(alloc, "array")?;
    put(&mut members, alloc, "items", items)?;
    put(&mut members, alloc, "minItems", Value::from(least))?;
    Ok(members)
}

/// The keys of the fields that a file has to write.
fn required_json(alloc: Global, fields: &[Field<Shape>]) -> Result<Value, AllocError>
    ensures { IfOk result (λ value. view value
        ≡ texts_data (required_keys (fields_view fields.now))) }
{
    let mut list = Vec::new(alloc);
    for field in fields {
        if field.is_required {
            list.push(Value::try_from_str(alloc, field.key.text())?)?;
        }
    }
    Ok(Value::Array(list))
}

/// The members of the schema of tables with these properties and no others.
fn table_members(
    alloc: Global,
    properties: Map<String, Value>,
    required: Value,
) -> Result<Map<String, Value>, AllocError>
    ensures { IfOk result (λ members. members_view members.entries
        ≡ table_members (members_view properties.entries) (view required)) }
{
    let mut members = typed(alloc, "object")?;
    put(&mut members, alloc, "required", required)?;
    put(&mut members, alloc, "properties", Value::Object(properties))?;
    put(
        &mut members,
        alloc,
        "additionalProperties",
        Value::Bool(false),
    )?;
    Ok(members)
}

/// The members of the schema of tables with these properties, and others of this schema.
fn map_members(
    alloc: Global,
    names: Value,
    others: Value,
    properties: Map<String, Value>,
    required: Value,
) -> Result<Map<String, Value>, AllocError>
    ensures { IfOk result (λ members. members_view members.entries
        ≡ map_members (view names) (view others) (members_view properties.entries)
        (view required)) }
{
    let mut members = typed(alloc, "object")?;
    put(&mut members, alloc, "required", required)?;
    put(&mut members, alloc, "propertyNames", names)?;
    put(&mut members, alloc, "properties", Value::Object(properties))?;
    put(&mut members, alloc, "additionalProperties", others)?;
    Ok(members)
}

/// The members of the schema of several shapes.
fn either_members(alloc: Global, schemas: Vec<Value>) -> Result<Map<String, Value>, AllocError>
    ensures { IfOk result (λ members. members_view members.entries
        ≡ member (codes "anyOf") (array (items_of (map view schemas.items))) no_members) }
{
    let mut members = Map::new(alloc);
    put(&mut members, alloc, "anyOf", Value::Array(schemas))?;
    Ok(members)
}

/// The members of the schema of a shape.
#[cycle(page)]
fn schema_members(alloc: Global, shape: &Shape) -> Result<Map<String, Value>, AllocError>
    ensures { IfOk result (λ members. members_view members.entries
        ≡ schema_members (shape_view shape.now)) }
{
    match shape {
        Shape::Anything => Ok(Map::new(alloc)),
        Shape::Boolean => Ok(typed(alloc, "boolean")?),
        Shape::Integer { least, greatest } => Ok(number_members(alloc, *least, *greatest)?),
        Shape::Text(text) => Ok(text_members(alloc, *text)?),
        Shape::List { least, items } => {
            let items = schema_members(alloc, items)?;
            Ok(array_members(alloc, *least, Value::Object(items))?)
        }
        Shape::Table(fields) => {
            let properties = properties(alloc, fields)?;
            Ok(table_members(alloc, properties, required_json(alloc, fields)?)?)
        }
        Shape::Map {
            names,
            fields,
            values,
        } => {
            let names = Value::Object(text_members(alloc, *names)?);
            let others = Value::Object(schema_members(alloc, values)?);
            let properties = properties(alloc, fields)?;
            let required = required_json(alloc, fields)?;
            Ok(map_members(alloc, names, others, properties, required)?)
        }
        Shape::Either(shapes) => Ok(either_members(alloc, schemas(alloc, shapes)?)?),
    }
}

/// The properties of fields, each at its key, which says what the key is for.
#[cycle(page)]
fn properties(alloc: Global, fields: &Vec<Field<Shape>>) -> Result<Map<String, Value>, AllocError>
    ensures { IfOk result (λ properties. members_view properties.entries
        ≡ with_properties (fields_view fields.now.items) no_members) }
{
    let mut properties = Map::new(alloc);
    for field in fields {
        let mut members = schema_members(alloc, &field.shape)?;
        let about = Value::try_from_str(alloc, about(field.key))?;
        put(&mut members, alloc, "description", about)?;
        put(
            &mut properties,
            alloc,
            field.key.text(),
            Value::Object(members),
        )?;
    }
    Ok(properties)
}

/// The schemas of several shapes.
#[cycle(page)]
fn schemas(alloc: Global, shapes: &Vec<Shape>) -> Result<Vec<Value>, AllocError>
    ensures { IfOk result (λ schemas. map view schemas.items
        ≡ schemas_of (shapes_view shapes.now.items)) }
{
    let mut schemas = Vec::new(alloc);
    for shape in shapes {
        schemas.push(Value::Object(schema_members(alloc, shape)?))?;
    }
    Ok(schemas)
}

/// The JSON schema of a shape, as a document of its own.
pub fn json_schema(alloc: Global, shape: &Shape) -> Result<Value, AllocError>
    ensures { IfOk result (λ value. view value ≡ schema_data (shape_view shape.now)) }
{
    let mut members = schema_members(alloc, shape)?;
    let version = Value::try_from_str(alloc, "http://json-schema.org/draft-07/schema#")?;
    let title = Value::try_from_str(alloc, "Configuration of cargo-nextest")?;
    put(&mut members, alloc, "$schema", version)?;
    put(&mut members, alloc, "title", title)?;
    Ok(Value::Object(members))
}

/// The JSON schema of a configuration file, as a text without spaces between its marks.
fn schema_text(alloc: Global) -> Result<String, AllocError>
    ensures { IfOk result (λ text. string_bytes text ≡ compact_text (schema_data file_form)) }
{
    let shape = file_shape(alloc)?;
    let schema = json_schema(alloc, &shape)?;
    let text = schema.to_string(alloc)?;
    Ok(text)
}

/// The JSON schema of a configuration file, on one line.
pub fn schema_page(alloc: Global) -> Result<String, AllocError>
    ensures { IfOk result (λ text. string_bytes text
        ≡ compact_text (schema_data file_form) ++ 10 ∷ []) }
{
    let mut text = schema_text(alloc)?;
    text.push('\n')?;
    Ok(text)
}
