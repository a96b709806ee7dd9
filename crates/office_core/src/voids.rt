//! What becomes of a slot that is voided.
ghost use Rattle.std.specs.Prelude.{◌≡◌, IfOk};
ghost use Rattle.poll_book.specs.Fault.{Accounts};
ghost use Rattle.poll_book.specs.Looks.{IsRaisedAtMost};
ghost use Rattle.poll_book.specs.Tables.{Tables, Within};
ghost use Rattle.office_core.specs.Keeping.{IsCopy};
ghost use Rattle.office_core.specs.ByName.{AreNamesOf};
ghost use Rattle.office_core.specs.Loads.{known_named};
ghost use Rattle.office_core.specs.Voids as voiding;
ghost use Rattle.office_core.specs.Voids.{VoidsIn};

use crate::by_name::ByName;
use crate::limits::MOST_KEPT;
use point_list::Role;
use poll_book::{Change, Keeper, Outcome, PointRow, Reason, RequestFault, StoreFault, void_one};
use std::alloc::Global;

fn refused(fault: RequestFault) -> Outcome
    ensures { result ≡ voiding.refused_void fault }
{
    Outcome::RefusedFor(Reason {
        fault,
        row: 0,
        column: 0,
    })
}

/// Whether no slot more can be voided, and this one isn't.
fn is_full<K: Keeper>(keeper: &mut K, known: &PointRow, slot: u32) -> Result<bool, StoreFault>
    ensures value { K.is_clean keeper.new → (kept : Tables) → K.holds keeper.old kept
        → IfOk result (λ full. full ≡ voiding.is_full kept.voids (known.now.number, slot)) }
    ensures cause { Accounts K.may_refuse (K.refused keeper.old) (K.refused keeper.new) result }
    ensures looks { IsRaisedAtMost 1 (K.looked keeper.old) (K.looked keeper.new) }
    ensures same { Within (K.holds keeper.old) (K.holds keeper.new) }
    ensures leaves { K.is_clean keeper.new → Within (K.may_leave keeper.new) (K.may_leave keeper.old) }
    ensures clean { K.is_clean keeper.new → K.is_clean keeper.old }
{
    let voids = keeper.voids()?;
    Ok(voids >= u64::from(MOST_KEPT) && !keeper.voided(known, slot)?)
}

/// What becomes of a slot of the point of a name that is voided: its outcome, and the change of it.
pub(crate) fn judge_void<K: Keeper>(
    alloc: Global,
    keeper: &mut K,
    known: &[PointRow],
    names: &ByName,
    point: &str,
    slot: u32,
) -> Result<(Outcome, Change), StoreFault>
    requires { AreNamesOf known.now names.now }
    ensures outcome { K.is_clean keeper.new → (kept : Tables) → K.holds keeper.old kept
        → IfOk result (λ x. x.0 ≡ voiding.voided slot (voiding.voiding_of kept.voids (known_named known.now point.now) slot)) }
    ensures change { K.is_clean keeper.new → (kept : Tables) → K.holds keeper.old kept → IsCopy known.now kept
        → IfOk result (λ x. VoidsIn kept slot (voiding.voiding_of kept.voids (known_named known.now point.now) slot) x.1) }
    ensures cause { Accounts K.may_refuse (K.refused keeper.old) (K.refused keeper.new) result }
    ensures looks { IsRaisedAtMost 6 (K.looked keeper.old) (K.looked keeper.new) }
    ensures same { Within (K.holds keeper.old) (K.holds keeper.new) }
    ensures leaves { K.is_clean keeper.new → Within (K.may_leave keeper.new) (K.may_leave keeper.old) }
    ensures clean { K.is_clean keeper.new → K.is_clean keeper.old }
{
    let Some(row) = names.find(known, point.as_bytes()) else {
        return Ok((refused(RequestFault::UnknownPoint), Change::none(alloc)));
    };
    let Role::Counter = row.point.role else {
        return Ok((refused(RequestFault::NotACounter), Change::none(alloc)));
    };
    if is_full(keeper, &row, slot)? {
        return Ok((refused(RequestFault::TooManyVoids), Change::none(alloc)));
    }
    let change = void_one(alloc, keeper, &row, slot)?;
    Ok((Outcome::Voided(slot), change))
}
