//! What is known of the bytes of a connection by their head.
ghost use Rattle.std.specs.Prelude.{◌≡◌, ◌<◌, ℕ, List, IfOk, length};
ghost use Rattle.httparse.specs.Grammar.{RequestHead};
ghost use Rattle.httparse.specs.Spans.{IsRequestAt, IsRequestOf, IsRequestWithin};
ghost use Rattle.office_http.specs.Awaiting.{asked_with};
ghost use Rattle.office_http.specs.Heads.{IsAsked};
ghost use Rattle.office_http.specs.Verdicts.{IsJudged};

use crate::asked::{Asked, Awaited};
use crate::head::{Judged, MOST_FIELDS, MOST_HEAD, judge_head};
use crate::heard::{Heard, Refusal};
use crate::judge::{Head, asked_at};
use crate::place::place_of;
use crate::routes::{Routes, router_of};
use httparse::spans::{EMPTY_HEADER_SPAN, HeaderSpan, RequestSpans};
use std::alloc::{AllocError, Global};
use std::str;

/// What is known of the bytes so far by their head.
#[derive(Drop)]
pub(crate) enum Verdict {
    /// They begin with no whole head, and may with more of them.
    Partial,
    /// They begin with none within the limits, whatever follows.
    Refused,
    /// They begin with one that asks for this, whatever follows.
    Known(Heard),
    /// They begin with one of so many bytes, behind which this body is awaited.
    Awaits { start: usize, awaited: Awaited },
}

/// What a whole head at the front of the bytes asks for.
fn asked_by_head(
    alloc: Global,
    routes: Routes,
    front: &[u8],
    fields: &[HeaderSpan],
    spans: RequestSpans,
) -> Result<Asked, AllocError>
    requires reads { IsRequestOf front.now fields.now spans }
    requires within { IsRequestWithin front.now fields.now spans }
    ensures { IfOk result (λ asked. (head : RequestHead) → IsRequestAt front.now fields.now spans head
        → (rest : List ℕ) → IsAsked routes head rest (asked_with asked rest)) }
{
    let router = router_of(alloc, routes)?;
    let Ok(target) = str::from_utf8(spans.path.of(front)) else {
        return Ok(Asked::Known(Heard::Refused(Refusal::NotFound)));
    };
    let head = Head {
        method: spans.method.of(front),
        bytes: front,
        fields: &fields[..spans.headers],
    };
    asked_at(alloc, place_of(&router, target), head)
}

/// What is known of the bytes so far by their head.
pub(crate) fn verdict_of(alloc: Global, routes: Routes, bytes: &[u8]) -> Result<Verdict, AllocError>
    requires { 0 < length bytes.now }
    ensures { IfOk result (IsJudged routes bytes.now) }
{
    let mut fields = [EMPTY_HEADER_SPAN; MOST_FIELDS];
    let front = &bytes[..bytes.len().min(MOST_HEAD)];
    match judge_head(front, &mut fields) {
        Judged::Whole(spans) => match asked_by_head(alloc, routes, front, &fields, spans)? {
            Asked::Known(heard) => Ok(Verdict::Known(heard)),
            Asked::Awaits(awaited) => {
                let start = spans.len;
                Ok(Verdict::Awaits { start, awaited })
            }
        },
        Judged::Partial => {
            if bytes.len() < MOST_HEAD {
                return Ok(Verdict::Partial);
            }
            Ok(Verdict::Refused)
        }
        Judged::Refused => Ok(Verdict::Refused),
    }
}
