//! What becomes of an order, and what is sent for it.
ghost use Rattle.std.specs.Prelude.{◌≡◌, ◌≤◌, ℕ, IfErr, IfOk, MatchResult, Some, None, true, length};
ghost use Rattle.poll_match.specs.Queries.{is_valid};
ghost use Rattle.poll_book.specs.Tables.{Tables, Within};
ghost use Rattle.poll_book.specs.Orders.{Settings, last_order, oldest_waiting};
ghost use Rattle.poll_book.specs.Fault.{Accounts};
ghost use Rattle.office_core.specs.Errors.{IsCaused, IsCounted};
ghost use Rattle.office_core.specs.ByNumber.{AreNumbersOf};
ghost use Rattle.office_core.specs.ByName.{AreNamesOf};
ghost use Rattle.office_core.specs.Loads.{known_named};
ghost use Rattle.office_core.specs.Orders as order;
ghost use Rattle.office_core.specs.Registers as registers;
ghost use Rattle.office_core.specs.Sending.{IsAddressed, IsRefused, IsSent};

use crate::by_name::ByName;
use crate::by_number::ByNumber;
use crate::error::OfficeError;
use crate::limits::MOST_KEPT;
use crate::site::{Target, find_target};
use mb_pdu::Registers;
use point_list::{Point, Role, Site};
use poll_book::{
    Keeper, OrderState, Outcome, PointRow, Reason, RequestFault, Setting, SettingRow, StoreFault,
    Words,
};
use poll_match::{Asked, Payload};
use std::alloc::{AllocError, Global};
use sunspec::to_ordered;

fn refused(fault: RequestFault) -> (Outcome, Option<SettingRow>)
    ensures outcome { (orders : ℕ) → result.0 ≡ order.ordered orders (order.Refused fault) }
    ensures row { result.1 ≡ None }
{
    let reason = Reason {
        fault,
        row: 0,
        column: 0,
    };
    (Outcome::RefusedFor(reason), None)
}

/// The registers of a point whose value is the number, as they are sent, if there are any.
fn registers_for(point: &Point, number: i128) -> Option<Registers>
    ensures { result ≡ registers.registers_for point.now number }
{
    match to_ordered(&point.kind, point.order, number) {
        Ok(words) => Some(words),
        Err(_) => None,
    }
}

/// What becomes of an order for this point, where so many orders exist: its outcome, and the row of
/// what it sets.
fn place_order(
    alloc: Global,
    orders: u32,
    known: Option<PointRow>,
    value: i128,
) -> Result<(Outcome, Option<SettingRow>), AllocError>
    ensures outcome { IfOk result (λ x. x.0 ≡ order.ordered orders (order.ordering_of orders known value)) }
    ensures row { IfOk result (λ x. x.1 ≡ order.ordering_row orders (order.ordering_of orders known value)) }
{
    let Some(known) = known else {
        return Ok(refused(RequestFault::UnknownPoint));
    };
    let Role::Setting = known.point.role else {
        return Ok(refused(RequestFault::NotASetting));
    };
    let Some(registers) = registers_for(&known.point, value) else {
        return Ok(refused(RequestFault::OutOfRange));
    };
    if orders >= MOST_KEPT {
        return Ok(refused(RequestFault::TooManyOrders));
    }
    let number = orders + 1;
    let row = SettingRow {
        number,
        point: known.number,
        words: Words::new(alloc, registers.as_slice())?,
        state: OrderState::Waiting,
    };
    Ok((Outcome::Ordered(number), Some(row)))
}

/// What becomes of an order for the point of a name: its outcome, and the row of what it sets.
pub(crate) fn judge_order<K: Keeper>(
    alloc: Global,
    keeper: &mut K,
    known: &[PointRow],
    names: &ByName,
    point: &str,
    value: i128,
) -> Result<(Outcome, Option<SettingRow>), StoreFault>
    requires { AreNamesOf known.now names.now }
    ensures outcome { K.is_clean keeper.new → (kept : Tables) → K.holds keeper.old kept
        → IfOk result (λ x. x.0 ≡ order.ordered (last_order kept.settings) (order.ordering_of (last_order kept.settings) (known_named known.now point.now) value)) }
    ensures row { K.is_clean keeper.new → (kept : Tables) → K.holds keeper.old kept
        → IfOk result (λ x. x.1 ≡ order.ordering_row (last_order kept.settings) (order.ordering_of (last_order kept.settings) (known_named known.now point.now) value)) }
    ensures cause { Accounts K.may_refuse (K.refused keeper.old) (K.refused keeper.new) result }
    ensures same { Within (K.holds keeper.old) (K.holds keeper.new) }
    ensures leaves { K.is_clean keeper.new → Within (K.may_leave keeper.new) (K.may_leave keeper.old) }
    ensures clean { K.is_clean keeper.new → K.is_clean keeper.old }
{
    let orders = keeper.orders()?;
    let known = names.find(known, point.as_bytes());
    Ok(place_order(alloc, orders, known, value)?)
}

/// The point that is set and its device, where the device is one of the line and the order waits; or
/// the first refusal that holds.
fn judge_setting(
    site: &Site,
    known: &[PointRow],
    numbers: &ByNumber,
    line: u16,
    setting: &Setting,
) -> Result<(PointRow, Target), OfficeError>
    requires few { length site.now.devices ≤ 65536 }
    requires numbers { AreNumbersOf known.now numbers.now }
    ensures { MatchResult result (IsAddressed site.now known.now line setting.now)
        (λ e. (table : Settings) (made number : ℕ) → order.send_fault_of (Some setting.now) line site.now known.now table made number ≡ Some e) }
{
    let Some(row) = numbers.find(known, setting.point) else {
        return Err(OfficeError::WrongLine);
    };
    let Some(to) = find_target(site, row.point.device.as_str()) else {
        return Err(OfficeError::WrongLine);
    };
    if to.line != line {
        return Err(OfficeError::WrongLine);
    }
    if setting.state != OrderState::Waiting {
        return Err(OfficeError::Settled);
    }
    Ok((row, to))
}

/// Whether the order is the oldest that waits on the device of a name.
fn is_next<K: Keeper>(keeper: &mut K, device: &str, number: u32) -> Result<bool, StoreFault>
    ensures value { K.is_clean keeper.new → (kept : Tables) → K.holds keeper.old kept
        → IfOk result (λ next. next ≡ order.is_number (oldest_waiting kept.points device.now kept.settings) number) }
    ensures cause { IfErr result (IsCounted K.may_refuse (K.refused keeper.old) (K.refused keeper.new)) }
    ensures counted { K.refused keeper.old ≤ K.refused keeper.new }
    ensures same { Within (K.holds keeper.old) (K.holds keeper.new) }
    ensures leaves { K.is_clean keeper.new → Within (K.may_leave keeper.new) (K.may_leave keeper.old) }
    ensures clean { K.is_clean keeper.new → K.is_clean keeper.old }
{
    match keeper.oldest_waiting(device)? {
        Some(row) => Ok(row.number == number),
        None => Ok(false),
    }
}

/// What is sent for an order over a connection of this line, or the first refusal that holds, but
/// for that of a connection that made all its queries.
pub(crate) fn judge_send<K: Keeper>(
    keeper: &mut K,
    site: &Site,
    known: &[PointRow],
    numbers: &ByNumber,
    line: Option<u16>,
    number: u32,
) -> Result<Asked, OfficeError>
    requires few { length site.now.devices ≤ 65536 }
    requires numbers { AreNumbersOf known.now numbers.now }
    ensures value { K.is_clean keeper.new → (kept : Tables) → K.holds keeper.old kept → known.now ≡ kept.points
        → MatchResult result (λ asked. IsSent line site.now known.now kept.settings number asked)
        (λ e. IsRefused line site.now known.now kept.settings number e) }
    ensures valid { IfOk result (λ asked. is_valid asked ≡ true) }
    ensures cause { IfErr result (λ e. IsCaused (IsCounted K.may_refuse (K.refused keeper.old) (K.refused keeper.new)) e) }
    ensures counted { K.refused keeper.old ≤ K.refused keeper.new }
    ensures same { Within (K.holds keeper.old) (K.holds keeper.new) }
    ensures leaves { K.is_clean keeper.new → Within (K.may_leave keeper.new) (K.may_leave keeper.old) }
    ensures clean { K.is_clean keeper.new → K.is_clean keeper.old }
{
    let Some(line) = line else {
        return Err(OfficeError::NoConnection);
    };
    let Some(setting) = keeper.setting(number)? else {
        return Err(OfficeError::NoOrder);
    };
    let (row, to) = judge_setting(site, known, numbers, line, &setting)?;
    if !is_next(keeper, row.point.device.as_str(), number)? {
        return Err(OfficeError::NotNext);
    }
    Ok(Asked::Write {
        unit_id: to.unit_id,
        order: number,
        address: row.point.address,
        payload: Payload::new(&row.point.kind, setting.words.as_slice()),
    })
}
