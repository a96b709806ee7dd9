//! The bytes of an answer.
ghost use Rattle.std.specs.Prelude.{◌≡◌, [], IfOk, codes, map, string_bytes};
ghost use Rattle.office_http.specs.Answers.{answer_of_parts, answer_text, error_text, first_status, list_refused_text, methods_text, one_text, order_text, page_head, page_type, plain_answer, points_text, readings_text, refusal_text, total_text, unavailable_text, void_text};
ghost use Rattle.office_http.specs.declared.status.Status.TheVariants.{Conflict, Done, Unprocessable};
ghost use Rattle.office_http.specs.Shown.{shown};
ghost use Rattle.poll_book.specs.declared.rows.OrderState.TheVariants.{Waiting};

use crate::bodies::{
    error_body, list_refused_body, order_body, points_body, refused_body, total_body, void_body,
};
use crate::heard::{Methods, Page, Refusal};
use crate::reading_body::{Shown, readings_body};
use crate::status::Status;
use poll_book::OrderState;
use std::alloc::{AllocError, Global};

/// The whole answer, of its parts.
fn whole(
    alloc: Global,
    status: &str,
    kind: &str,
    length: usize,
    allow: &str,
    body: &str,
) -> Result<String, AllocError>
    ensures { IfOk result (λ text. string_bytes text ≡ answer_of_parts status.now kind.now length allow.now body.now) }
{
    let mut text = String::from_str(alloc, "HTTP/1.1 ")?;
    text.push_str(status)?;
    text.push_str("\r\nContent-Type: ")?;
    text.push_str(kind)?;
    text.push_str("\r\nContent-Length: ")?;
    let digits = length.to_string(alloc)?;
    text.push_str(digits.as_str())?;
    text.push_str("\r\nConnection: close\r\n")?;
    text.push_str(allow)?;
    text.push_str("\r\n")?;
    text.push_str(body)?;
    Ok(text)
}

fn answer(alloc: Global, status: Status, allow: &str, body: &str) -> Result<String, AllocError>
    ensures { IfOk result (λ text. string_bytes text ≡ answer_text status allow.now body.now) }
{
    whole(
        alloc,
        status.text(),
        "application/json",
        body.len(),
        allow,
        body,
    )
}

fn error(alloc: Global, status: Status, allow: &str, text: &str) -> Result<String, AllocError>
    ensures { IfOk result (λ answer. string_bytes answer ≡ answer_text status allow.now (error_text text.now)) }
{
    let body = error_body(alloc, text)?;
    answer(alloc, status, allow, body.as_str())
}

fn allowed(methods: Methods) -> &'static str
    ensures { result.now ≡ methods_text methods }
{
    match methods {
        Methods::Get => "Allow: GET\r\n",
        Methods::Put => "Allow: PUT\r\n",
        Methods::GetPut => "Allow: GET, PUT\r\n",
    }
}

fn first(is_first: bool) -> Status
    ensures { result ≡ first_status is_first }
{
    if is_first {
        Status::Created
    } else {
        Status::Done
    }
}

/// To a request that asks for nothing.
pub fn refusal(alloc: Global, refusal: Refusal) -> Result<String, AllocError>
    ensures { IfOk result (λ answer. string_bytes answer ≡ refusal_text refusal) }
{
    match refusal {
        Refusal::BadRequest => error(alloc, Status::BadRequest, "", "bad request"),
        Refusal::NotFound => error(alloc, Status::NotFound, "", "not found"),
        Refusal::NotAllowed(methods) => {
            error(alloc, Status::NotAllowed, allowed(methods), "method")
        }
        Refusal::LengthRequired => error(alloc, Status::LengthRequired, "", "length required"),
        Refusal::TooLarge => error(alloc, Status::TooLarge, "", "too large"),
    }
}

/// To a request under a key that another one used.
pub fn key_reused(alloc: Global) -> Result<String, AllocError>
    ensures { IfOk result (λ answer. string_bytes answer ≡ answer_text Conflict [] (error_text (codes "key reused"))) }
{
    error(alloc, Status::Conflict, "", "key reused")
}

/// To a list that was accepted: of so many points.
pub fn loaded(alloc: Global, is_first: bool, points: u32) -> Result<String, AllocError>
    ensures { IfOk result (λ answer. string_bytes answer ≡ answer_text (first_status is_first) [] (points_text points)) }
{
    let body = points_body(alloc, points)?;
    answer(alloc, first(is_first), "", body.as_str())
}

/// To a list that was refused at a record and a column.
pub fn list_refused(alloc: Global, row: u32, column: u8, text: &str) -> Result<String, AllocError>
    ensures { IfOk result (λ answer. string_bytes answer ≡ answer_text Unprocessable [] (list_refused_text row column text.now)) }
{
    let body = list_refused_body(alloc, row, column, text)?;
    answer(alloc, Status::Unprocessable, "", body.as_str())
}

/// To an order that was accepted.
pub fn ordered(alloc: Global, is_first: bool, number: u32) -> Result<String, AllocError>
    ensures { IfOk result (λ answer. string_bytes answer ≡ answer_text (first_status is_first) [] (order_text number Waiting)) }
{
    let body = order_body(alloc, number, OrderState::Waiting)?;
    answer(alloc, first(is_first), "", body.as_str())
}

/// To an order or a void that was refused.
pub fn request_refused(alloc: Global, text: &str) -> Result<String, AllocError>
    ensures { IfOk result (λ answer. string_bytes answer ≡ answer_text Unprocessable [] (one_text (codes "refused") text.now)) }
{
    let body = refused_body(alloc, text)?;
    answer(alloc, Status::Unprocessable, "", body.as_str())
}

/// To a void that was accepted.
pub fn voided(alloc: Global, is_first: bool, point: &str, slot: u32) -> Result<String, AllocError>
    ensures { IfOk result (λ answer. string_bytes answer ≡ answer_text (first_status is_first) [] (void_text point.now slot)) }
{
    let body = void_body(alloc, point, slot)?;
    answer(alloc, first(is_first), "", body.as_str())
}

/// How an order stands.
pub fn order_stands(alloc: Global, number: u32, state: OrderState) -> Result<String, AllocError>
    ensures { IfOk result (λ answer. string_bytes answer ≡ answer_text Done [] (order_text number state)) }
{
    let body = order_body(alloc, number, state)?;
    answer(alloc, Status::Done, "", body.as_str())
}

/// The readings of a point.
pub fn readings(alloc: Global, point: &str, readings: &[Shown]) -> Result<String, AllocError>
    ensures { IfOk result (λ answer. string_bytes answer ≡ answer_text Done [] (readings_text point.now (map shown readings.now))) }
{
    let body = readings_body(alloc, point, readings)?;
    answer(alloc, Status::Done, "", body.as_str())
}

/// How far a counter went.
pub fn total(alloc: Global, point: &str, total: &str) -> Result<String, AllocError>
    ensures { IfOk result (λ answer. string_bytes answer ≡ answer_text Done [] (total_text point.now total.now)) }
{
    let body = total_body(alloc, point, total)?;
    answer(alloc, Status::Done, "", body.as_str())
}

/// A text as it stands.
pub fn plain(alloc: Global, text: &str) -> Result<String, AllocError>
    ensures { IfOk result (λ answer. string_bytes answer ≡ plain_answer text.now) }
{
    let kind = "text/plain; charset=utf-8";
    whole(alloc, Status::Done.text(), kind, text.len(), "", text)
}

/// The type of what is shown piece by piece.
fn page_type(page: Page) -> &'static str
    ensures { result.now ≡ page_type page }
{
    match page {
        Page::Points => "application/json",
        Page::Metrics => "application/openmetrics-text; version=1.0.0; charset=utf-8",
        Page::Office | Page::Device(_) => "text/html; charset=utf-8",
    }
}

/// The head before what is shown piece by piece, which ends as the connection is closed (RFC 9112, section 6.3).
pub fn page(alloc: Global, page: Page) -> Result<String, AllocError>
    ensures { IfOk result (λ head. string_bytes head ≡ page_head page) }
{
    let mut head = String::from_str(alloc, "HTTP/1.1 200 OK\r\nContent-Type: ")?;
    head.push_str(page_type(page))?;
    head.push_str("\r\nConnection: close\r\n\r\n")?;
    Ok(head)
}

/// Where the store or memory refused. It takes no memory.
pub fn unavailable() -> &'static [u8]
    ensures { result.now ≡ unavailable_text }
{
    b"HTTP/1.1 503 Service Unavailable\r\nContent-Type: application/json\r\nContent-Length: 17\r\nConnection: close\r\n\r\n{\"error\":\"store\"}"
}
