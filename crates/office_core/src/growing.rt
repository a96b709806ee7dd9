//! The copy of the points that an office has grows: the rows, and what finds them by device, name and number.
ghost use Rattle.std.specs.Prelude.{◌≡◌, ◌≤◌, ◌++◌, ◌+◌, IfSome, List, length, vec_len, vec_capacity};
ghost use Rattle.poll_book.specs.declared.rows.PointRow.{PointRow};
ghost use Rattle.point_list.specs.Lists.{point_limit};
ghost use Rattle.office_core.specs.ByDevice.{AreDevicesOf};
ghost use Rattle.office_core.specs.ByName.{AreNamesOf};
ghost use Rattle.office_core.specs.ByNumber.{AreNumbersOf};

use crate::by_device::ByDevice;
use crate::by_name::ByName;
use crate::by_number::ByNumber;
use crate::event::Arrival;
use poll_book::PointRow;

/// Takes all points by name in the place of some of them, where there are all.
pub(crate) fn take_names(by_name: &mut ByName, all: Option<ByName>)
    ensures { (known : List PointRow) → AreNamesOf known by_name.old → IfSome all (AreNamesOf known) → AreNamesOf known by_name.new }
{
    if let Some(all) = all {
        *by_name = all;
    }
}

/// So many points that no map has yet are put into both beside those that a list adds.
const BESIDE: usize = 16;

/// Adds rows to a copy of the points that has room for them.
fn push_points(points: &mut Vec<PointRow>, rows: &[PointRow])
    requires { vec_len points.old + length rows.now ≤ vec_capacity points.old }
    ensures { points.new.items ≡ points.old.items ++ rows.now }
{
    for row in rows {
        let _ = points.push(*row);
    }
}

/// The same, with their devices, names and numbers.
pub(crate) fn add_points(
    points: &mut Vec<PointRow>,
    by_device: &mut ByDevice,
    by_name: &mut ByName,
    by_number: &mut ByNumber,
    rows: &[PointRow],
)
    requires room { vec_len points.old + length rows.now ≤ vec_capacity points.old }
    requires few { length points.old.items + length rows.now ≤ point_limit }
    requires devices { AreDevicesOf points.old.items by_device.old }
    requires names { AreNamesOf points.old.items by_name.old }
    requires numbers { AreNumbersOf points.old.items by_number.old }
    ensures points { points.new.items ≡ points.old.items ++ rows.now }
    ensures devices { AreDevicesOf points.new.items by_device.new }
    ensures names { AreNamesOf points.new.items by_name.new }
    ensures numbers { AreNumbersOf points.new.items by_number.new }
{
    push_points(points, rows);
    let count = rows.len().saturating_add(BESIDE);
    by_device.catch_up(points, count);
    let _ = by_name.catch_up(points, count);
    by_number.catch_up(points);
}

/// Puts one point in behind an arrival that looked for those of a device.
pub(crate) fn follow_behind(by_device: &mut ByDevice, points: &[PointRow], arrival: &Arrival)
    requires few { length points.now ≤ point_limit }
    requires devices { AreDevicesOf points.now by_device.old }
    ensures { AreDevicesOf points.now by_device.new }
{
    if let Arrival::Recorded(_) = arrival {
        by_device.catch_up_one(points);
    }
}
