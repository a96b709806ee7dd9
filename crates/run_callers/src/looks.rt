//! What is looked up for pages: each of these asks the office alone.
ghost use Rattle.std.specs.Prelude.{◌≡◌, Contains, IfOk, option_map, slice_get};
ghost use Rattle.office_core.specs.Following.{Follows};
ghost use Rattle.office_core.specs.History.{History, points};
ghost use Rattle.office_core.specs.Offices.{keeper_of, last_reading_at, total_at};
ghost use Rattle.office_core.specs.Proceeding.{GoesAlong, Nothing};
ghost use Rattle.poll_book.specs.Orders.{point_at};
ghost use Rattle.poll_book.specs.Showing.{as_shown};
ghost use Rattle.run_callers.specs.Pages.{IsSeen};

use office_core::laws::numbered_points;
use office_core::{Office, OfficeError};
use office_pages::Seen;
use poll_book::{Keeper, PointRow, SettingRow, ShownReading, StoreFault};

/// What the store refused, of an office that was only asked.
pub(crate) fn fault_of(error: OfficeError) -> StoreFault {
    match error {
        OfficeError::Store(fault) => fault,
        _ => StoreFault::Other,
    }
}

/// The last reading of the point of a number.
fn last_of<K: Keeper>(
    office: &mut Office<K>,
    number: u32,
) -> Result<Option<ShownReading>, OfficeError>
    ensures along { GoesAlong Nothing office.old office.new }
    ensures value { K.is_clean (keeper_of office.new) → (now : History) → Follows office.old now
        → IfOk result (λ last. option_map as_shown last ≡ last_reading_at now (point_at (points now) number)) }
{
    office.last_numbered(number)
}

/// How far the counter of a number went.
fn total_of<K: Keeper>(office: &mut Office<K>, number: u32) -> Result<Option<u128>, OfficeError>
    ensures along { GoesAlong Nothing office.old office.new }
    ensures value { K.is_clean (keeper_of office.new) → (now : History) → Follows office.old now
        → IfOk result (λ total. total ≡ total_at now (point_at (points now) number)) }
{
    office.total_numbered(number)
}

/// The readings of the point of a number in the slots from the one to the other.
fn readings_of<K: Keeper>(
    office: &mut Office<K>,
    number: u32,
    from: u32,
    to: u32,
) -> Result<Option<Vec<ShownReading>>, OfficeError>
    ensures { GoesAlong Nothing office.old office.new }
{
    office.readings_numbered(number, from, to)
}

/// The oldest order that waits on a device.
fn waiting_on<K: Keeper>(
    office: &mut Office<K>,
    device: &str,
) -> Result<Option<SettingRow>, OfficeError>
    ensures { GoesAlong Nothing office.old office.new }
{
    office.waiting(device)
}

/// A point with its last reading.
pub(crate) fn with_last<K: Keeper>(
    office: &mut Office<K>,
    known: &PointRow,
) -> Result<Seen, StoreFault>
    ensures along { GoesAlong Nothing office.old office.new }
    ensures point { IfOk result (λ seen. seen.point ≡ known.now.point) }
    ensures last { K.is_clean (keeper_of office.new) → (now : History) → Follows office.old now
        → IfOk result (λ seen. option_map as_shown seen.last ≡ last_reading_at now (point_at (points now) known.now.number)) }
{
    match last_of(office, known.number) {
        Ok(last) => Ok(Seen {
            point: known.point,
            last,
            total: None,
        }),
        Err(error) => Err(fault_of(error)),
    }
}

/// A point with its total, where it is a counter.
pub(crate) fn with_total<K: Keeper>(
    office: &mut Office<K>,
    known: &PointRow,
) -> Result<Seen, StoreFault>
    ensures along { GoesAlong Nothing office.old office.new }
    ensures total { K.is_clean (keeper_of office.new) → (now : History) → Follows office.old now
        → IfOk result (λ seen. seen.total ≡ total_at now (point_at (points now) known.now.number)) }
{
    match total_of(office, known.number) {
        Ok(total) => Ok(Seen {
            point: known.point,
            last: None,
            total,
        }),
        Err(error) => Err(fault_of(error)),
    }
}

/// A point with both.
pub(crate) fn with_both<K: Keeper>(
    office: &mut Office<K>,
    known: &PointRow,
) -> Result<Seen, StoreFault>
    ensures along { GoesAlong Nothing office.old office.new }
    ensures seen { K.is_clean (keeper_of office.new) → (now : History) → Follows office.old now
        → IfOk result (λ seen. Contains (points now) known.now → IsSeen now known.now seen) }
{
    numbered_points();
    let with_last = with_last(office, known)?;
    let with_total = with_total(office, known)?;
    Ok(Seen {
        point: with_last.point,
        last: with_last.last,
        total: with_total.total,
    })
}

/// The readings of a point in the slots from the one to the other; none of a point that isn't known.
pub(crate) fn curve<K: Keeper>(
    office: &mut Office<K>,
    known: &PointRow,
    from: u32,
    to: u32,
) -> Result<Option<Vec<ShownReading>>, StoreFault>
    ensures { GoesAlong Nothing office.old office.new }
{
    match readings_of(office, known.number, from, to) {
        Ok(rows) => Ok(rows),
        Err(error) => Err(fault_of(error)),
    }
}

/// The oldest order that waits on a device, if one does.
pub(crate) fn order_on<K: Keeper>(
    office: &mut Office<K>,
    device: &str,
) -> Result<Option<SettingRow>, StoreFault>
    ensures { GoesAlong Nothing office.old office.new }
{
    match waiting_on(office, device) {
        Ok(order) => Ok(order),
        Err(error) => Err(fault_of(error)),
    }
}

/// The known point at a place of the list, from 0 on.
pub(crate) fn point_at<K: Keeper>(office: &Office<K>, at: usize) -> Option<PointRow>
    ensures { (now : History) → Follows office.now now → result ≡ slice_get (points now) at }
{
    office.points().get(at).copied()
}

/// The known point of a number.
pub(crate) fn point_of<K: Keeper>(office: &Office<K>, number: u32) -> Option<PointRow>
    ensures { (now : History) → Follows office.now now → result ≡ point_at (points now) number }
{
    office.point_numbered(number)
}
