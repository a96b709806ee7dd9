//! What a whole body asks for.
ghost use Rattle.std.specs.Prelude.{◌≡◌, IfOk};
ghost use Rattle.office_http.specs.Awaiting.{made_by};
ghost use Rattle.office_http.specs.Heard.{meaning_of};
ghost use Rattle.office_http.specs.Meanings.{load, ordered, voided};
ghost use Rattle.office_http.specs.Orders.{order_of};
ghost use Rattle.office_http.specs.Voids.{void_of};

use crate::asked::{Awaited, Purpose};
use crate::heard::{Heard, Refusal};
use crate::order::order_of;
use crate::void::void_of;
use poll_book::{Caller, Key};
use std::alloc::{AllocError, Global};

fn loaded(alloc: Global, caller: Caller, key: Key, body: &[u8]) -> Result<Heard, AllocError>
    ensures { IfOk result (λ asked. meaning_of asked ≡ load caller key body.now) }
{
    let mut list = Vec::with_capacity(alloc, body.len())?;
    list.extend_from_slice(body)?;
    Ok(Heard::Load { caller, key, list })
}

fn ordered(alloc: Global, caller: Caller, key: Key, body: &[u8]) -> Result<Heard, AllocError>
    ensures { IfOk result (λ asked. meaning_of asked ≡ ordered caller key (order_of body.now)) }
{
    Ok(match order_of(alloc, body)? {
        Some((point, value)) => Heard::Order {
            caller,
            key,
            point,
            value,
        },
        None => Heard::Refused(Refusal::BadRequest),
    })
}

fn voided(alloc: Global, caller: Caller, key: Key, body: &[u8]) -> Result<Heard, AllocError>
    ensures { IfOk result (λ asked. meaning_of asked ≡ voided caller key (void_of body.now)) }
{
    Ok(match void_of(alloc, body)? {
        Some((point, slot)) => Heard::Void {
            caller,
            key,
            point,
            slot,
        },
        None => Heard::Refused(Refusal::BadRequest),
    })
}

/// What a body that was awaited asks for, now that it is whole.
pub(crate) fn heard_in(alloc: Global, awaited: &Awaited, body: &[u8]) -> Result<Heard, AllocError>
    ensures { IfOk result (λ asked. meaning_of asked ≡ made_by awaited.now body.now) }
{
    let (caller, key) = (awaited.caller, awaited.key);
    match awaited.purpose {
        Purpose::List => loaded(alloc, caller, key, body),
        Purpose::Order => ordered(alloc, caller, key, body),
        Purpose::Void => voided(alloc, caller, key, body),
    }
}
