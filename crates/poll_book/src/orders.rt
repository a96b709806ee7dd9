//! Orders in memory, by their numbers.
ghost use Rattle.std.specs.Prelude.{◌≡◌, ◌<◌, IfOk, IfErr, Some, slice_get, vec_len, vec_capacity, List};
ghost use Rattle.poll_book.specs.Orders.{last_order, setting_at};
ghost use Rattle.poll_book.specs.Changes.{with_order};
ghost use Rattle.poll_book.specs.Histories.{IsAt, IsGap, IsRising};
ghost use Rattle.poll_book.specs.Marks.{AreRight, number_of, settings_of};
ghost use Rattle.poll_book.specs.declared.rows.PointRow.{PointRow as Known};

use crate::keyed::{Keyed, place_numbered};
use crate::marks::Marks;
use crate::points::is_waiting;
use crate::rows::{Setting, SettingRow};
use std::alloc::AllocError;

impl Keyed for SettingRow {
    ghost key_of = { number_of };

    fn key(&self) -> u32 {
        self.number
    }
}

/// Where the order of a number stands, or where it would go. Orders are numbered from 1.
fn order_place(orders: &[SettingRow], number: u32) -> Result<usize, usize>
    requires { IsRising number_of orders.now }
    ensures found { IfOk result (IsAt number_of orders.now number) }
    ensures absent { IfErr result (IsGap number_of orders.now number) }
{
    place_numbered(orders, number)
}

fn copy_of(row: &SettingRow) -> Result<SettingRow, AllocError>
    ensures { IfOk result (λ copy. copy ≡ row.now) }
{
    Ok(SettingRow {
        number: row.number,
        point: row.point,
        words: row.words.clone()?,
        state: row.state,
    })
}

/// A copy of the order of a change, if it has one.
pub(crate) fn copy_of_setting(
    setting: &Option<SettingRow>,
) -> Result<Option<SettingRow>, AllocError>
    ensures { IfOk result (λ copy. copy ≡ setting.now) }
{
    match setting {
        Some(row) => Ok(Some(copy_of(row)?)),
        None => Ok(None),
    }
}

/// The order at a place, if there is one.
pub(crate) fn order_at(
    orders: &[SettingRow],
    place: usize,
) -> Result<Option<SettingRow>, AllocError>
    ensures { IfOk result (λ found. found ≡ slice_get orders.now place) }
{
    match orders.get(place) {
        Some(row) => Ok(Some(copy_of(row)?)),
        None => Ok(None),
    }
}

/// What the order of a number sets, if there is one.
pub(crate) fn setting_at(orders: &[SettingRow], number: u32) -> Result<Option<Setting>, AllocError>
    requires { IsRising number_of orders.now }
    ensures { IfOk result (λ found. found ≡ setting_at (settings_of orders.now) number) }
{
    let Ok(place) = order_place(orders, number) else {
        return Ok(None);
    };
    let row = &orders[place];
    Ok(Some(Setting {
        point: row.point,
        words: row.words.clone()?,
        state: row.state,
    }))
}

/// The number of the last order, 0 before the first.
pub(crate) fn last_number(orders: &[SettingRow]) -> u32
    ensures { result ≡ last_order (settings_of orders.now) }
{
    match orders.last() {
        Some(row) => row.number,
        None => 0,
    }
}

/// Puts an order under its number. There is room for one more. The marks stay where it comes last, or
/// settles another; else an order may wait that they have passed, and they are forgotten.
fn put_row(orders: &mut Vec<SettingRow>, marks: &mut Marks, row: SettingRow)
    requires rising { IsRising number_of orders.old.items }
    requires room { vec_len orders.old < vec_capacity orders.old }
    ensures rising { IsRising number_of orders.new.items }
    ensures put { settings_of orders.new.items ≡ with_order (Some row) (settings_of orders.old.items) }
    ensures right { (points : List Known) → AreRight points orders.old.items marks.old
        → AreRight points orders.new.items marks.new }
{
    match order_place(orders, row.number) {
        Ok(place) => {
            if is_waiting(row.state) {
                marks.forget();
            }
            orders[place] = row;
        }
        Err(place) => {
            if place < orders.len() {
                marks.forget();
            }
            let _ = orders.insert(place, row);
        }
    }
}

/// Puts the order of a change, if it has one, under its number. There is room for one more.
pub(crate) fn put_order(
    orders: &mut Vec<SettingRow>,
    marks: &mut Marks,
    setting: Option<SettingRow>,
)
    requires rising { IsRising number_of orders.old.items }
    requires room { vec_len orders.old < vec_capacity orders.old }
    ensures rising { IsRising number_of orders.new.items }
    ensures put { settings_of orders.new.items ≡ with_order setting (settings_of orders.old.items) }
    ensures right { (points : List Known) → AreRight points orders.old.items marks.old
        → AreRight points orders.new.items marks.new }
{
    if let Some(row) = setting {
        put_row(orders, marks, row);
    }
}
