//! Which reads bring what isn't there yet.
ghost use Rattle.std.specs.Prelude.{◌≡◌, ◌∷◌, [], IfOk};
ghost use Rattle.poll_book.specs.Tables.{Tables, Within};
ghost use Rattle.poll_book.specs.Fault.{Accounts};
ghost use Rattle.office_core.specs.ByDevice.{AreDevicesOf, points_at};
ghost use Rattle.office_core.specs.Lacking as lacking;

use crate::by_device::ByDevice;
use crate::cover::covers;
use poll_book::{Keeper, PointRow, StoreFault};
use read_planner::Read;

/// Whether some point that a read covers has no reading in the slot.
fn one_lacks<K: Keeper>(
    keeper: &mut K,
    known: &[PointRow],
    device: &[u8],
    slot: u32,
    read: &Read,
) -> Result<bool, StoreFault>
    ensures value { K.is_clean keeper.new → (kept : Tables) → K.holds keeper.old kept
        → IfOk result (λ some. some ≡ lacking.some_lacks known.now kept.readings device.now slot read.now) }
    ensures cause { Accounts K.may_refuse (K.refused keeper.old) (K.refused keeper.new) result }
    ensures same { Within (K.holds keeper.old) (K.holds keeper.new) }
    ensures leaves { K.is_clean keeper.new → Within (K.may_leave keeper.new) (K.may_leave keeper.old) }
    ensures clean { K.is_clean keeper.new → K.is_clean keeper.old }
{
    for row in known {
        if brings_new(keeper, row, device, slot, read)? {
            return Ok(true);
        }
    }
    Ok(false)
}

/// Whether a read covers a point that has no reading in the slot.
#[inline(always)]
fn brings_new<K: Keeper>(
    keeper: &mut K,
    row: &PointRow,
    device: &[u8],
    slot: u32,
    read: &Read,
) -> Result<bool, StoreFault>
    ensures value { K.is_clean keeper.new → (kept : Tables) → K.holds keeper.old kept
        → IfOk result (λ so. so ≡ lacking.brings_new kept.readings device.now slot read.now row.now) }
    ensures cause { Accounts K.may_refuse (K.refused keeper.old) (K.refused keeper.new) result }
    ensures same { Within (K.holds keeper.old) (K.holds keeper.new) }
    ensures leaves { K.is_clean keeper.new → Within (K.may_leave keeper.new) (K.may_leave keeper.old) }
    ensures clean { K.is_clean keeper.new → K.is_clean keeper.old }
{
    if !covers(device, read, &row.point) {
        return Ok(false);
    }
    Ok(!keeper.has_reading(row, slot)?)
}

/// The same of the point at a place, if there is one.
#[inline(always)]
fn lacks_at<K: Keeper>(
    keeper: &mut K,
    known: &[PointRow],
    place: u32,
    device: &[u8],
    slot: u32,
    read: &Read,
) -> Result<bool, StoreFault>
    ensures value { K.is_clean keeper.new → (kept : Tables) → K.holds keeper.old kept
        → IfOk result (λ so. so ≡ lacking.some_lacks (points_at known.now (place ∷ [])) kept.readings device.now slot read.now) }
    ensures cause { Accounts K.may_refuse (K.refused keeper.old) (K.refused keeper.new) result }
    ensures same { Within (K.holds keeper.old) (K.holds keeper.new) }
    ensures leaves { K.is_clean keeper.new → Within (K.may_leave keeper.new) (K.may_leave keeper.old) }
    ensures clean { K.is_clean keeper.new → K.is_clean keeper.old }
{
    match known.get(place as usize) {
        Some(row) => brings_new(keeper, row, device, slot, read),
        None => Ok(false),
    }
}

/// Whether some point at these places that a read covers has no reading in the slot.
fn one_lacks_at<K: Keeper>(
    keeper: &mut K,
    known: &[PointRow],
    places: &[u32],
    device: &[u8],
    slot: u32,
    read: &Read,
) -> Result<bool, StoreFault>
    ensures value { K.is_clean keeper.new → (kept : Tables) → K.holds keeper.old kept
        → IfOk result (λ some. some ≡ lacking.some_lacks (points_at known.now places.now) kept.readings device.now slot read.now) }
    ensures cause { Accounts K.may_refuse (K.refused keeper.old) (K.refused keeper.new) result }
    ensures same { Within (K.holds keeper.old) (K.holds keeper.new) }
    ensures leaves { K.is_clean keeper.new → Within (K.may_leave keeper.new) (K.may_leave keeper.old) }
    ensures clean { K.is_clean keeper.new → K.is_clean keeper.old }
{
    for place in places {
        if lacks_at(keeper, known, *place, device, slot, read)? {
            return Ok(true);
        }
    }
    Ok(false)
}

/// Whether some point that a read covers has no reading in the slot.
pub(crate) fn some_lacks<K: Keeper>(
    keeper: &mut K,
    known: &[PointRow],
    devices: &ByDevice,
    device: &[u8],
    slot: u32,
    read: &Read,
) -> Result<bool, StoreFault>
    requires { AreDevicesOf known.now devices.now }
    ensures value { K.is_clean keeper.new → (kept : Tables) → K.holds keeper.old kept
        → IfOk result (λ some. some ≡ lacking.some_lacks known.now kept.readings device.now slot read.now) }
    ensures cause { Accounts K.may_refuse (K.refused keeper.old) (K.refused keeper.new) result }
    ensures same { Within (K.holds keeper.old) (K.holds keeper.new) }
    ensures leaves { K.is_clean keeper.new → Within (K.may_leave keeper.new) (K.may_leave keeper.old) }
    ensures clean { K.is_clean keeper.new → K.is_clean keeper.old }
{
    match devices.places(known, device) {
        Some(places) => one_lacks_at(keeper, known, places, device, slot, read),
        None => one_lacks(keeper, known, device, slot, read),
    }
}
