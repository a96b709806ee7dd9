//! The requests of callers in memory, by callers and their keys.
ghost use Rattle.std.specs.Prelude.{◌≡◌, Some, IfOk, OnOk, OnErr};
ghost use Rattle.poll_book.specs.Requests.{request_at};
ghost use Rattle.poll_book.specs.Changes.{with_asked};

use crate::caller::{Caller, Key};
use crate::requests::{Body, KeptRequest, RequestRow};
use point_list::Items;
use std::alloc::{AllocError, Global};
use std::collections::BTreeMap;

fn copy_of_body(alloc: Global, body: &Body) -> Result<Body, AllocError>
    ensures { IfOk result (λ copy. copy ≡ body.now) }
{
    Ok(match body {
        Body::List(bytes) => Body::List(Items::from_vec(Vec::from_slice(alloc, bytes.as_slice())?)),
        Body::Order { point, value } => Body::Order {
            point: point.clone()?,
            value: *value,
        },
        Body::Void { point, slot } => Body::Void {
            point: point.clone()?,
            slot: *slot,
        },
    })
}

fn copy_of(alloc: Global, request: &KeptRequest) -> Result<KeptRequest, AllocError>
    ensures { IfOk result (λ copy. copy ≡ request.now) }
{
    Ok(KeptRequest {
        body: copy_of_body(alloc, &request.body)?,
        outcome: request.outcome,
    })
}

fn copy_of_row(alloc: Global, row: &RequestRow) -> Result<RequestRow, AllocError>
    ensures { IfOk result (λ copy. copy ≡ row.now) }
{
    Ok(RequestRow {
        caller: row.caller,
        key: row.key,
        body: copy_of_body(alloc, &row.body)?,
        outcome: row.outcome,
    })
}

/// A copy of the request of a change, if it has one.
pub(crate) fn copy_of_request(
    alloc: Global,
    request: &Option<RequestRow>,
) -> Result<Option<RequestRow>, AllocError>
    ensures { IfOk result (λ copy. copy ≡ request.now) }
{
    match request {
        Some(row) => Ok(Some(copy_of_row(alloc, row)?)),
        None => Ok(None),
    }
}

/// The request of a caller under a key, if there is one.
pub(crate) fn request_at(
    alloc: Global,
    requests: &BTreeMap<(Caller, Key), KeptRequest>,
    caller: &Caller,
    key: &Key,
) -> Result<Option<KeptRequest>, AllocError>
    ensures { IfOk result (λ found. found ≡ request_at requests.now.entries (caller.now, key.now)) }
{
    match requests.get(&(*caller, *key)) {
        Some(request) => Ok(Some(copy_of(alloc, request)?)),
        None => Ok(None),
    }
}

fn put_row(
    requests: &mut BTreeMap<(Caller, Key), KeptRequest>,
    row: RequestRow,
) -> Result<(), AllocError>
    ensures put { OnOk result (requests.new.entries ≡ with_asked (Some row) requests.old.entries) }
    ensures same { OnErr result (requests.new.entries ≡ requests.old.entries) }
{
    let request = KeptRequest {
        body: row.body,
        outcome: row.outcome,
    };
    match requests.insert((row.caller, row.key), request) {
        Ok(_) => Ok(()),
        Err(_) => Err(AllocError),
    }
}

/// Puts the request of a change, if it has one, under its caller and key.
pub(crate) fn put_request(
    requests: &mut BTreeMap<(Caller, Key), KeptRequest>,
    request: Option<RequestRow>,
) -> Result<(), AllocError>
    ensures put { OnOk result (requests.new.entries ≡ with_asked request requests.old.entries) }
    ensures same { OnErr result (requests.new.entries ≡ requests.old.entries) }
{
    match request {
        Some(row) => put_row(requests, row),
        None => Ok(()),
    }
}
