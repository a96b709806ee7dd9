//! The bodies of answers.
ghost use Rattle.std.specs.Prelude.{◌≡◌, IfOk, codes, string_bytes};
ghost use Rattle.serde_json.specs.Data.{string};
ghost use Rattle.serde_json.specs.Written.{compact_text};
ghost use Rattle.office_http.specs.Answers.{error_text, list_refused_text, one_text, order_text, points_text, refused_order_text, state_text, total_text, void_text};

use poll_book::OrderState;
use serde_json::json;
use std::alloc::{AllocError, Global};

pub(crate) fn error_body(alloc: Global, text: &str) -> Result<String, AllocError>
    ensures { IfOk result (λ body. string_bytes body ≡ error_text text.now) }
{
    json!(in alloc; {"error": text})?.to_string(alloc)
}

pub(crate) fn refused_body(alloc: Global, text: &str) -> Result<String, AllocError>
    ensures { IfOk result (λ body. string_bytes body ≡ one_text (codes "refused") text.now) }
{
    json!(in alloc; {"refused": text})?.to_string(alloc)
}

pub(crate) fn points_body(alloc: Global, count: u32) -> Result<String, AllocError>
    ensures { IfOk result (λ body. string_bytes body ≡ points_text count) }
{
    json!(in alloc; {"points": count})?.to_string(alloc)
}

/// A text in JSON's quotes.
fn quoted(alloc: Global, text: &str) -> Result<String, AllocError>
    ensures { IfOk result (λ value. string_bytes value ≡ compact_text (string text.now)) }
{
    json!(in alloc; text)?.to_string(alloc)
}

pub(crate) fn list_refused_body(
    alloc: Global,
    row: u32,
    column: u8,
    text: &str,
) -> Result<String, AllocError>
    ensures { IfOk result (λ body. string_bytes body ≡ list_refused_text row column text.now) }
{
    let refused = quoted(alloc, text)?;
    let column = column.to_string(alloc)?;
    let row = row.to_string(alloc)?;
    let mut body = String::from_str(alloc, "{\"column\":")?;
    body.push_str(column.as_str())?;
    body.push_str(",\"refused\":")?;
    body.push_str(refused.as_str())?;
    body.push_str(",\"row\":")?;
    body.push_str(row.as_str())?;
    body.push_str("}")?;
    Ok(body)
}

fn state_body(alloc: Global, order: u32, name: &str) -> Result<String, AllocError>
    ensures { IfOk result (λ body. string_bytes body ≡ state_text order name.now) }
{
    json!(in alloc; {"order": order, "state": name})?.to_string(alloc)
}

fn refused_order_body(alloc: Global, order: u32, code: u8) -> Result<String, AllocError>
    ensures { IfOk result (λ body. string_bytes body ≡ refused_order_text order code) }
{
    json!(in alloc; {"code": code, "order": order, "state": "refused"})?.to_string(alloc)
}

/// How an order stands.
pub(crate) fn order_body(alloc: Global, order: u32, state: OrderState) -> Result<String, AllocError>
    ensures { IfOk result (λ body. string_bytes body ≡ order_text order state) }
{
    match state {
        OrderState::Waiting => state_body(alloc, order, "waiting"),
        OrderState::Done => state_body(alloc, order, "done"),
        OrderState::Refused(code) => refused_order_body(alloc, order, code),
    }
}

pub(crate) fn void_body(alloc: Global, point: &str, slot: u32) -> Result<String, AllocError>
    ensures { IfOk result (λ body. string_bytes body ≡ void_text point.now slot) }
{
    json!(in alloc; {"point": point, "slot": slot})?.to_string(alloc)
}

pub(crate) fn total_body(alloc: Global, point: &str, total: &str) -> Result<String, AllocError>
    ensures { IfOk result (λ body. string_bytes body ≡ total_text point.now total.now) }
{
    json!(in alloc; {"point": point, "total": total})?.to_string(alloc)
}
