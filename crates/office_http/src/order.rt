//! The body of an order.
ghost use Rattle.std.specs.Prelude.{◌≡◌, IfOk, option_and_then};
ghost use Rattle.serde_json.specs.Find.{as_number, as_integer};
ghost use Rattle.serde_json.specs.View.{view};
ghost use Rattle.office_http.specs.Orders.{order_of, order_of_data, order_view};

use crate::document::{document_of, member_count};
use serde_json::Value;
use std::alloc::{AllocError, Global};

/// The whole number that a value is.
fn whole_number(value: &Value) -> Option<i128>
    ensures { result ≡ option_and_then as_integer (as_number (view value.now)) }
{
    match value.as_number() {
        Some(number) => number.as_i128(),
        None => None,
    }
}

/// The order that a value names.
fn order_in(alloc: Global, value: &Value) -> Result<Option<(String, i128)>, AllocError>
    ensures { IfOk result (λ order. order_view order ≡ order_of_data (view value.now)) }
{
    if member_count(value) != 2 {
        return Ok(None);
    }
    let point = value.get("point").and_then(Value::as_str);
    let number = value.get("value").and_then(whole_number);
    match (point, number) {
        (Some(point), Some(number)) => Ok(Some((String::from_str(alloc, point)?, number))),
        _ => Ok(None),
    }
}

/// The order that a body names, or nothing where it isn't in form.
pub(crate) fn order_of(alloc: Global, body: &[u8]) -> Result<Option<(String, i128)>, AllocError>
    ensures { IfOk result (λ order. order_view order ≡ order_of body.now) }
{
    match document_of(alloc, body)? {
        Some(value) => order_in(alloc, &value),
        None => Ok(None),
    }
}
