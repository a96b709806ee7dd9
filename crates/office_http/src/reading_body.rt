//! The body of a point's readings.
ghost use Rattle.std.specs.Prelude.{◌≡◌, IfOk, map, string_bytes};
ghost use Rattle.serde_json.specs.View.{view};
ghost use Rattle.serde_json.specs.Data.{array};
ghost use Rattle.serde_json.specs.View.{items_of};
ghost use Rattle.office_http.specs.Answers.{listed_data, reading_data, readings_text, value_data};
ghost use Rattle.office_http.specs.Shown.{shown, text_in};

use serde_json::{Value, json};
use std::alloc::{AllocError, Global};

/// What a point gave in a slot: the text of its value, or `None` where the device has none.
#[derive(Debug, Drop)]
pub struct Shown {
    pub slot: u32,
    pub text: Option<String>,
}

fn value_of(alloc: Global, text: &Option<String>) -> Result<Value, AllocError>
    ensures { IfOk result (λ value. view value ≡ value_data (text_in text.now)) }
{
    match text {
        Some(text) => json!(in alloc; text.as_str()),
        None => Ok(Value::Null),
    }
}

fn reading_of(alloc: Global, reading: &Shown) -> Result<Value, AllocError>
    ensures { IfOk result (λ value. view value ≡ reading_data (shown reading.now)) }
{
    let value = value_of(alloc, &reading.text)?;
    json!(in alloc; [reading.slot, value])
}

fn items_of(alloc: Global, readings: &[Shown]) -> Result<Vec<Value>, AllocError>
    ensures { IfOk result (λ items. map view items.items ≡ map (λ r. reading_data (shown r)) readings.now) }
{
    let mut items = Vec::with_capacity(alloc, readings.len())?;
    for reading in readings {
        items.push(reading_of(alloc, reading)?)?;
    }
    Ok(items)
}

/// The slots with their values, as an array.
fn list_of(alloc: Global, readings: &[Shown]) -> Result<Value, AllocError>
    ensures { IfOk result (λ list. view list ≡ array (items_of (map reading_data (map shown readings.now)))) }
{
    let items = items_of(alloc, readings)?;
    Ok(Value::Array(items))
}

/// A body with a point's name and a list.
fn listed(alloc: Global, point: &str, list: Value) -> Result<Value, AllocError>
    ensures { IfOk result (λ body. view body ≡ listed_data point.now (view list)) }
{
    json!(in alloc; {"point": point, "readings": list})
}

pub(crate) fn readings_body(
    alloc: Global,
    point: &str,
    readings: &[Shown],
) -> Result<String, AllocError>
    ensures { IfOk result (λ body. string_bytes body ≡ readings_text point.now (map shown readings.now)) }
{
    let list = list_of(alloc, readings)?;
    let body = listed(alloc, point, list)?;
    let text = body.to_string(alloc)?;
    Ok(text)
}
