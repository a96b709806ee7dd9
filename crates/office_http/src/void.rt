//! The body of a void.
ghost use Rattle.std.specs.Prelude.{◌≡◌, IfOk, option_and_then};
ghost use Rattle.serde_json.specs.Find.{as_number, as_u64};
ghost use Rattle.serde_json.specs.View.{view};
ghost use Rattle.office_http.specs.Voids.{slot_in, void_of, void_of_data, void_view};

use crate::document::{document_of, member_count};
use serde_json::Value;
use std::alloc::{AllocError, Global};

/// The slot that a value is.
fn slot_of(value: &Value) -> Option<u32>
    ensures { result ≡ slot_in (option_and_then as_u64 (as_number (view value.now))) }
{
    let number = value.as_u64()?;
    if number <= 4_294_967_295 {
        Some(number as u32)
    } else {
        None
    }
}

/// The void that a value names.
fn void_in(alloc: Global, value: &Value) -> Result<Option<(String, u32)>, AllocError>
    ensures { IfOk result (λ void. void_view void ≡ void_of_data (view value.now)) }
{
    if member_count(value) != 2 {
        return Ok(None);
    }
    let point = value.get("point").and_then(Value::as_str);
    let slot = value.get("slot").and_then(slot_of);
    match (point, slot) {
        (Some(point), Some(slot)) => Ok(Some((String::from_str(alloc, point)?, slot))),
        _ => Ok(None),
    }
}

/// The void that a body names, or nothing where it isn't in form.
pub(crate) fn void_of(alloc: Global, body: &[u8]) -> Result<Option<(String, u32)>, AllocError>
    ensures { IfOk result (λ void. void_view void ≡ void_of body.now) }
{
    match document_of(alloc, body)? {
        Some(value) => void_in(alloc, &value),
        None => Ok(None),
    }
}
