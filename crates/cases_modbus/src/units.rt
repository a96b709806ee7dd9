//! Requests and replies as bytes and back.
use crate::texts::{refusal, shown, unless};
use case_pages::{Trouble, hex_of};
use mb_pdu::{Reply, Request, UnitError};
use std::alloc::Global;

/// What is added where a value isn't spelled as it was read.
pub(crate) const OTHERWISE: &str = ", spelled OTHER BYTES";

// Decoding and encoding stand in functions without clauses: a player needs none of their promises, and each would
// be a fact in each of its goals.

fn request_of(bytes: &[u8]) -> Result<Request, UnitError> {
    Request::decode(bytes)
}

fn reply_of(request: &Request, bytes: &[u8]) -> Result<Reply, UnitError> {
    Reply::decode(request, bytes)
}

fn is_spelled(request: &Request, bytes: &[u8]) -> bool {
    request.is_valid() && request.encode().as_bytes() == bytes
}

fn is_reply_spelled(request: &Request, reply: &Reply, bytes: &[u8]) -> bool {
    reply.fits(request) && reply.encode(request).as_bytes() == bytes
}

/// The request that a unit is, or why it is none.
pub(crate) fn request(alloc: Global, input: &str) -> Result<String, Trouble> {
    let bytes = hex_of(alloc, input)?;
    match request_of(&bytes) {
        Ok(request) => unless(
            is_spelled(&request, &bytes),
            OTHERWISE,
            shown(alloc, &request)?,
        ),
        Err(error) => refusal(alloc, &error),
    }
}

/// What a unit says in reply to a request, or that it is no reply to it.
pub(crate) fn reply(alloc: Global, input: &str) -> Result<String, Trouble> {
    let Some((asked, answered)) = input.split_once(" / ") else {
        return Err(Trouble::Page("no request and reply"));
    };
    let answered = hex_of(alloc, answered)?;
    let Ok(request) = request_of(&hex_of(alloc, asked)?) else {
        return Err(Trouble::Page("a reply to no request"));
    };
    match reply_of(&request, &answered) {
        Ok(reply) => {
            let is_spelled = is_reply_spelled(&request, &reply, &answered);
            unless(is_spelled, OTHERWISE, shown(alloc, &reply)?)
        }
        Err(error) => refusal(alloc, &error),
    }
}
