//! The head of a request.
ghost use Rattle.office_http.specs.Judged.{JudgedMeans};

use httparse::Status;
use httparse::spans::{HeaderSpan, RequestSpans, parse_request};

/// A head has so many bytes at most.
pub(crate) const MOST_HEAD: usize = 8_192;

/// A head has so many fields at most.
pub(crate) const MOST_FIELDS: usize = 32;

/// What httparse says of the bytes so far.
#[derive(Clone, Copy)]
pub(crate) enum Judged {
    Partial,
    Refused,
    Whole(RequestSpans),
}

/// Asks httparse, which has room for 32 fields.
pub(crate) fn judge_head(bytes: &[u8], headers: &mut [HeaderSpan; MOST_FIELDS]) -> Judged
    ensures { JudgedMeans bytes.now headers.new result }
{
    match parse_request(bytes, headers) {
        Ok(Status::Complete(spans)) => Judged::Whole(spans),
        Ok(Status::Partial) => Judged::Partial,
        Err(_) => Judged::Refused,
    }
}
