//! How far a request came.
ghost use Rattle.std.specs.Prelude.{◌≡◌, ◌<◌, ◌≤◌, IfOk, OnErr, OnOk, length};
ghost use Rattle.office_http.specs.Awaiting.{Asks, asked_with};
ghost use Rattle.office_http.specs.Judging.{IsShort, Judges};
ghost use Rattle.office_http.specs.Stages.{IsAt, IsPast};
ghost use Rattle.office_http.specs.declared.asked.Asked.TheVariants.{Awaits};
ghost use Rattle.office_http.specs.declared.routes.Routes.{Routes as Offered};

use crate::asked::Awaited;
use crate::body::heard_in;
use crate::heard::{Heard, Refusal};
use crate::routes::Routes;
use crate::verdict::{Verdict, verdict_of};
use std::alloc::{AllocError, Global};

/// How far a request came.
#[derive(Drop)]
pub(crate) enum Stage {
    /// No whole head is there, or none within the limits.
    Headless,
    /// A head is there, and what it asks for was told.
    Headed,
    /// A head is there, and this body is awaited behind it.
    InBody { start: usize, awaited: Awaited },
}

/// Judges the body of a request. Where it lacks bytes, there is room for them then.
fn judge_body(
    alloc: Global,
    bytes: &mut Vec<u8>,
    start: usize,
    awaited: &Awaited,
) -> Result<Option<Heard>, AllocError>
    requires { start ≤ 8192 }
    ensures same { bytes.new.items ≡ bytes.old.items }
    ensures asked { IfOk result (λ asked. (routes : Offered) → Asks routes bytes.old.items start (asked_with (Awaits awaited.now)) → Judges routes bytes.old.items asked) }
    ensures short { IfOk result (IsShort bytes.old.items) }
{
    let end = start + awaited.count;
    if bytes.len() < end {
        bytes.reserve(end - bytes.len())?;
        return Ok(None);
    }
    let heard = heard_in(alloc, awaited, &bytes[start..end])?;
    Ok(Some(heard))
}

/// Judges a request from its head on.
fn judge_head(
    alloc: Global,
    routes: Routes,
    bytes: &mut Vec<u8>,
    stage: &mut Stage,
) -> Result<Option<Heard>, AllocError>
    requires { 0 < length bytes.old.items }
    ensures same { bytes.new.items ≡ bytes.old.items }
    ensures at { OnOk result (IsAt routes bytes.old.items stage.new) }
    ensures memory { OnErr result (stage.new ≡ stage.old) }
    ensures asked { IfOk result (Judges routes bytes.old.items) }
    ensures short { IfOk result (IsShort bytes.old.items) }
{
    match verdict_of(alloc, routes, bytes)? {
        Verdict::Partial => {
            *stage = Stage::Headless;
            Ok(None)
        }
        Verdict::Refused => {
            *stage = Stage::Headless;
            Ok(Some(Heard::Refused(Refusal::BadRequest)))
        }
        Verdict::Known(heard) => {
            *stage = Stage::Headed;
            Ok(Some(heard))
        }
        Verdict::Awaits { start, awaited } => {
            let heard = judge_body(alloc, bytes, start, &awaited)?;
            *stage = Stage::InBody { start, awaited };
            Ok(heard)
        }
    }
}

/// Judges the bytes, of which some are new: the head once it is whole, then the body once it is.
pub(crate) fn go_on(
    alloc: Global,
    routes: Routes,
    bytes: &mut Vec<u8>,
    stage: &mut Stage,
) -> Result<Option<Heard>, AllocError>
    requires some { 0 < length bytes.old.items }
    requires past { IsPast routes bytes.old.items stage.old }
    ensures same { bytes.new.items ≡ bytes.old.items }
    ensures at { OnOk result (IsAt routes bytes.old.items stage.new) }
    ensures memory { OnErr result (stage.new ≡ stage.old) }
    ensures asked { IfOk result (Judges routes bytes.old.items) }
    ensures short { IfOk result (IsShort bytes.old.items) }
{
    match stage {
        Stage::InBody { start, awaited } => judge_body(alloc, bytes, *start, awaited),
        Stage::Headless | Stage::Headed => judge_head(alloc, routes, bytes, stage),
    }
}
