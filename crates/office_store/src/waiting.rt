//! The orders that wait: they are read once, and followed as they come and are settled. The device of each is looked up
//! once.

ghost use Rattle.std.specs.Prelude.{◌≡◌, ◌++◌, ◌∷◌, [], List, false, true, find, IfOk, IfSome, IsSome, IsSomeAnd, OnOk, map, option_map};
ghost use Rattle.std.specs.List.{filter};
ghost use Rattle.sqlite.specs.Held.{state};
ghost use Rattle.sqlite.specs.State.{HasCleanDisk};
ghost use Rattle.poll_book.specs.declared.rows.PointRow.{PointRow as APoint};
ghost use Rattle.poll_book.specs.Changes.{IsNextOrSettled, IsNextOrSettledAs, with_order};
ghost use Rattle.poll_book.specs.Orders.{Settings, as_setting, is_of, is_waiting, oldest_waiting, point_at, with_setting};
ghost use Rattle.poll_book.specs.Tables.{Tables};
ghost use Rattle.office_store.specs.Kept.{Holds, Keeps};
ghost use Rattle.office_store.specs.Waiting.{AreKnown, AreOfTheirDevices, AreRead, AreThose, HoldsBy, IsLookedUp, IsOfItsDevice, OnlyLookedUp, entry_of, is_other, not_looked_up};

use crate::points::plain_at;
use crate::settings::all_waiting;
use point_list::Label;
use poll_book::{OrderState, SettingRow, StoreFault};
use sqlite::{Alter, Connection};
use std::alloc::{AllocError, Global};

/// An order that waits.
#[derive(Drop)]
pub(crate) struct WaitingOrder {
    order: SettingRow,
    /// The device of its point, once it was looked up.
    device: Option<Label>,
}

fn is_waiting(state: OrderState) -> bool
    ensures { result ≡ is_waiting state }
{
    match state {
        OrderState::Waiting => true,
        OrderState::Done => false,
        OrderState::Refused(_) => false,
    }
}

/// Looks up the device of an order's point, if the point is there: once, since points stay as they are.
fn look_up<S: Alter>(
    connection: &mut Connection<S>,
    waiting: &mut WaitingOrder,
) -> Result<(), StoreFault>
    requires { connection.old.in_transaction ≡ false }
    ensures ok { HasCleanDisk (state S.Store connection.new) → (kept : Tables) → Holds (state S.Store connection.old) kept
        → IsOfItsDevice kept.points waiting.old → OnOk result (IsLookedUp kept.points waiting.new) }
    ensures known { HasCleanDisk (state S.Store connection.new) → (kept : Tables) → Holds (state S.Store connection.old) kept
        → IsOfItsDevice kept.points waiting.old → IsOfItsDevice kept.points waiting.new }
    ensures order { waiting.new.order ≡ waiting.old.order }
    ensures once { IsSome waiting.old.device → (connection.new ≡ connection.old) × (waiting.new ≡ waiting.old) }
    ensures keeps { Keeps (state S.Store connection.old) (state S.Store connection.new) }
    ensures idle { connection.new.in_transaction ≡ false }
{
    if waiting.device.is_some() {
        return Ok(());
    }
    let point = plain_at(connection, waiting.order.point)?;
    waiting.device = point.map(|known| known.point.device);
    Ok(())
}

/// Whether an order that was looked up is of the device.
fn is_of(waiting: &WaitingOrder, device: &str) -> bool
    ensures { (points : List APoint) → IsLookedUp points waiting.now → result ≡ is_of device.now (point_at points waiting.now.order.point) }
{
    match &waiting.device {
        Some(known) => known.as_str() == device,
        None => false,
    }
}

fn copy_of(order: &SettingRow) -> Result<SettingRow, StoreFault>
    ensures { IfOk result (λ copy. copy ≡ order.now) }
{
    Ok(SettingRow {
        number: order.number,
        point: order.point,
        words: order.words.clone()?,
        state: order.state,
    })
}

/// The first of these orders whose point is of the device.
fn first_of<S: Alter>(
    connection: &mut Connection<S>,
    orders: &mut [WaitingOrder],
    device: &str,
) -> Result<Option<SettingRow>, StoreFault>
    requires { connection.old.in_transaction ≡ false }
    ensures value { HasCleanDisk (state S.Store connection.new) → (kept : Tables) → Holds (state S.Store connection.old) kept → AreOfTheirDevices kept.points orders.old
        → IfOk result (λ found. option_map as_setting found ≡ find (λ row. is_of device.now (point_at kept.points row.1.point)) (map entry_of orders.old)) }
    ensures looked { OnlyLookedUp (state S.Store connection.old) (state S.Store connection.new) orders.old orders.new }
    ensures once { AreKnown orders.old → connection.new ≡ connection.old }
    ensures idle { connection.new.in_transaction ≡ false }
{
    for waiting in orders.iter_mut() {
        look_up(connection, waiting)?;
        if is_of(waiting, device) {
            return Ok(Some(copy_of(&waiting.order)?));
        }
    }
    Ok(None)
}

/// Orders, of which no device was looked up yet.
fn not_looked_up(alloc: Global, orders: Vec<SettingRow>) -> Result<Vec<WaitingOrder>, AllocError>
    ensures { IfOk result (λ waiting. waiting.items ≡ map not_looked_up orders.items) }
{
    orders
        .into_iter()
        .map(|order| WaitingOrder {
            order,
            device: None,
        })
        .collect(alloc)
}

/// The orders that wait: those that were read, or else all that the tables have.
fn those_of<S: Alter>(
    alloc: Global,
    connection: &mut Connection<S>,
    waiting: Option<Vec<WaitingOrder>>,
) -> Result<Vec<WaitingOrder>, StoreFault>
    requires { connection.old.in_transaction ≡ false }
    ensures value { HasCleanDisk (state S.Store connection.new) → (kept : Tables) → HoldsBy (state S.Store connection.old) waiting kept
        → IfOk result (λ orders. AreThose kept.settings (map entry_of orders.items) × AreOfTheirDevices kept.points orders.items) }
    ensures same { IfSome waiting (λ orders. result ≡ Ok orders) }
    ensures once { IsSome waiting → connection.new ≡ connection.old }
    ensures keeps { Keeps (state S.Store connection.old) (state S.Store connection.new) }
    ensures idle { connection.new.in_transaction ≡ false }
{
    match waiting {
        Some(orders) => Ok(orders),
        None => Ok(not_looked_up(alloc, all_waiting(alloc, connection)?)?),
    }
}

/// The oldest order that waits on the device, if one does.
pub(crate) fn oldest_waiting<S: Alter>(
    alloc: Global,
    connection: &mut Connection<S>,
    waiting: &mut Option<Vec<WaitingOrder>>,
    device: &str,
) -> Result<Option<SettingRow>, StoreFault>
    requires { connection.old.in_transaction ≡ false }
    ensures value { HasCleanDisk (state S.Store connection.new) → (kept : Tables) → HoldsBy (state S.Store connection.old) waiting.old kept
        → IfOk result (λ found. option_map as_setting found ≡ oldest_waiting kept.points device.now kept.settings) }
    ensures same { (kept : Tables) → HoldsBy (state S.Store connection.old) waiting.old kept → HoldsBy (state S.Store connection.new) waiting.new kept }
    ensures once { IsSomeAnd waiting.old (λ orders. AreKnown orders.items) → connection.new ≡ connection.old }
    ensures keeps { Keeps (state S.Store connection.old) (state S.Store connection.new) }
    ensures idle { connection.new.in_transaction ≡ false }
{
    let mut orders = those_of(alloc, connection, waiting.take())?;
    let found = first_of(connection, &mut orders, device);
    *waiting = Some(orders);
    found
}

/// These orders and one more; none where memory is refused to it.
fn with_one(mut orders: Vec<WaitingOrder>, order: &SettingRow) -> Option<Vec<WaitingOrder>>
    ensures { IfSome result (λ more. more.items ≡ orders.items ++ not_looked_up order.now ∷ []) }
{
    let Ok(order) = copy_of(order) else {
        return None;
    };
    let one = WaitingOrder {
        order,
        device: None,
    };
    match orders.push(one) {
        Ok(()) => Some(orders),
        Err(_) => None,
    }
}

/// These orders but that of a number.
fn without(mut orders: Vec<WaitingOrder>, number: u32) -> Vec<WaitingOrder>
    ensures { result.items ≡ filter (is_other number) orders.items }
{
    orders.retain(|waiting| waiting.order.number != number);
    orders
}

/// The orders that wait once an order came or was settled; none, so that they are read again, where memory is refused
/// to a new one.
fn with_change(orders: Vec<WaitingOrder>, order: &SettingRow) -> Option<Vec<WaitingOrder>>
    ensures { (points : List APoint) → (table : Settings) → IsNextOrSettledAs (is_waiting order.now.state) table order.now
        → AreRead points table (Some orders) → AreRead points (with_setting order.now.number (as_setting order.now).1 table) result }
{
    if is_waiting(order.state) {
        with_one(orders, order)
    } else {
        Some(without(orders, order.number))
    }
}

/// The same after a change, if it was written.
pub(crate) fn followed(
    waiting: Option<Vec<WaitingOrder>>,
    order: &Option<SettingRow>,
    is_written: bool,
) -> Option<Vec<WaitingOrder>>
    ensures written { is_written ≡ true → (points : List APoint) → (table : Settings) → IsNextOrSettled table order.now
        → AreRead points table waiting → AreRead points (with_order order.now table) result }
    ensures same { is_written ≡ false → result ≡ waiting }
{
    match (waiting, order) {
        (Some(orders), Some(order)) if is_written => with_change(orders, order),
        (waiting, _) => waiting,
    }
}
