//! What the office does at one line, and what is printed of it.
ghost use Rattle.std.specs.Prelude.{◌≡◌, ◌++◌, OnOk};
ghost use Rattle.office_core.specs.History.{History};
ghost use Rattle.office_core.specs.Standing as standing;
ghost use Rattle.office_script.specs.Commands.{Comes};
ghost use Rattle.office_script.specs.Scripts.{printed_for, then_before};
ghost use Rattle.office_script.specs.Playing.{Follows};

use crate::printing::push_answer;
use office_core::{Event, EventAnswer, Office, OfficeError};
use poll_book::MemKeeper;
use std::alloc::{AllocError, Global};

/// Whether the store refused.
fn is_store(told: &EventAnswer) -> bool
    ensures { result ≡ standing.is_store told.now }
{
    match told {
        EventAnswer::Refused(OfficeError::Store(_)) => true,
        _ => false,
    }
}

/// Does what an event asks for, and writes the answer.
pub(crate) fn act(
    alloc: Global,
    office: &mut Office<MemKeeper>,
    out: &mut Vec<u8>,
    event: &Event,
) -> Result<(), AllocError>
    ensures { OnOk result ((before : History) → Follows office.old before → Comes event.now
        → Follows office.new (then_before before event.now)
        × (out.new.items ≡ out.old.items ++ printed_for before event.now)) }
{
    let told = office.step(event);
    // A keeper in memory refuses for want of it alone.
    if is_store(&told) {
        return Err(AllocError);
    }
    push_answer(alloc, out, &told)
}
