//! Texts as JSON.
ghost use Rattle.std.specs.Prelude.{◌≡◌, ◌++◌, ◌∷◌, [], IfOk, OnOk, map};
ghost use Rattle.serde_json.specs.View.{members_view, view};
ghost use Rattle.root_json.specs.Objects.{◌with◌being◌, bytes_data, text_data, texts_data};

use crate::objects::{Object, put_value};
use serde_json::Value;
use std::alloc::{AllocError, Global};
use std::str;

/// A text: a string, or the object of its bytes if it isn't UTF-8.
pub(crate) fn text_value(alloc: Global, text: &[u8]) -> Result<Value, AllocError>
    ensures { IfOk result (λ value. view value ≡ text_data text.now) }
{
    match str::from_utf8(text) {
        Ok(text) => Value::try_from_str(alloc, text),
        Err(_) => bytes_value(alloc, text),
    }
}

/// An object with the hexadecimal digits of bytes.
fn bytes_value(alloc: Global, bytes: &[u8]) -> Result<Value, AllocError>
    ensures { IfOk result (λ value. view value ≡ bytes_data bytes.now) }
{
    let digits = hex::encode(alloc, bytes)?;
    let mut object = Object::new(alloc);
    put_value(alloc, &mut object, "bytes", Value::String(digits))?;
    Ok(Value::Object(object))
}

/// Puts a text under a key.
pub(crate) fn put_text(
    alloc: Global,
    object: &mut Object,
    key: &str,
    text: &[u8],
) -> Result<(), AllocError>
    ensures { OnOk result (members_view object.new.entries ≡ (members_view object.old.entries with key.now being text_data text.now)) }
{
    let value = text_value(alloc, text)?;
    put_value(alloc, object, key, value)
}

/// Adds a text to an array.
pub(crate) fn push_text(
    alloc: Global,
    values: &mut Vec<Value>,
    text: &[u8],
) -> Result<(), AllocError>
    ensures { OnOk result (map view values.new.items ≡ map view values.old.items ++ text_data text.now ∷ []) }
{
    let value = text_value(alloc, text)?;
    serde_json::push(values, value)
}

fn push_texts(alloc: Global, values: &mut Vec<Value>, texts: &[&[u8]]) -> Result<(), AllocError>
    ensures { OnOk result (map view values.new.items ≡ map view values.old.items ++ map text_data (map (λ text. text.now) texts.now)) }
{
    for text in texts {
        push_text(alloc, values, text)?;
    }
    Ok(())
}

/// An array of texts.
pub(crate) fn texts_value(alloc: Global, texts: &[&[u8]]) -> Result<Value, AllocError>
    ensures { IfOk result (λ value. view value ≡ texts_data (map (λ text. text.now) texts.now)) }
{
    let mut values = Vec::new(alloc);
    push_texts(alloc, &mut values, texts)?;
    Ok(Value::Array(values))
}
