//! Known points by their numbers, and the orders that wait on their devices.
ghost use Rattle.std.specs.Prelude.{◌≡◌, ◌+◌, ◌++◌, ◌≤◌, option_copied, length, vec_len, vec_capacity};
ghost use Rattle.poll_book.specs.Orders.{as_setting, is_of, is_waiting, point_at, waits_on};
ghost use Rattle.poll_book.specs.Marks.{AreCounted};

use crate::rows::{OrderState, PointRow, SettingRow};
use point_list::is_same_name;

/// The point of a number. Points are numbered from 1: one of the first, which are counted as numbered
/// so, stands at its number less 1.
fn point_of(points: &[PointRow], counted: usize, number: u32) -> Option<&PointRow>
    requires { AreCounted points.now counted }
    ensures { option_copied result ≡ point_at points.now number }
{
    let place = number as usize;
    if 1 <= place && place <= counted {
        return Some(&points[place - 1]);
    }
    points.iter().find(|known| known.number == number)
}

/// Whether the point of a number is of the device.
fn is_of(points: &[PointRow], counted: usize, number: u32, device: &str) -> bool
    requires { AreCounted points.now counted }
    ensures { result ≡ is_of device.now (point_at points.now number) }
{
    match point_of(points, counted, number) {
        Some(known) => is_same_name(known.point.device.as_bytes(), device.as_bytes()),
        None => false,
    }
}

pub(crate) fn is_waiting(state: OrderState) -> bool
    ensures { result ≡ is_waiting state }
{
    match state {
        OrderState::Waiting => true,
        OrderState::Done => false,
        OrderState::Refused(_) => false,
    }
}

/// Whether an order waits on the device.
pub(crate) fn waits_on(points: &[PointRow], counted: usize, device: &str, row: &SettingRow) -> bool
    requires { AreCounted points.now counted }
    ensures { result ≡ waits_on points.now device.now (as_setting row.now) }
{
    is_waiting(row.state) && is_of(points, counted, row.point, device)
}

/// How many of the first points are numbered on from 1, of which so many are known to be.
fn count_on(points: &[PointRow], counted: usize) -> usize
    requires { AreCounted points.now counted }
    ensures { AreCounted points.now result }
{
    let mut count = counted;
    while count < points.len() && points[count].number as usize == count + 1 {
        count += 1;
    }
    count
}

/// Adds points, for which there is room, and answers how many of the first are numbered on from 1
/// then.
pub(crate) fn add_points(points: &mut Vec<PointRow>, counted: usize, added: &[PointRow]) -> usize
    requires counted { AreCounted points.old.items counted }
    requires room { vec_len points.old + length added.now ≤ vec_capacity points.old }
    ensures added { points.new.items ≡ points.old.items ++ added.now }
    ensures counted { AreCounted points.new.items result }
{
    let _ = points.extend_from_slice(added);
    count_on(points, counted)
}
