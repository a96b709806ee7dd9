//! What a reply to a query brings.
ghost use Rattle.std.specs.Prelude.{◌≡◌, ◌≤◌, ◌*◌, IfOk, OnErr, MatchResult, is_err, length};
ghost use Rattle.poll_book.specs.Tables.{Tables, Within};
ghost use Rattle.poll_book.specs.Fault.{Accounts};
ghost use Rattle.poll_book.specs.Looks.{IsRaisedAtMost};
ghost use Rattle.point_list.specs.Lists.{point_limit};
ghost use Rattle.office_core.specs.ByDevice.{AreDevicesOf};
ghost use Rattle.office_core.specs.Orders as orders;
ghost use Rattle.office_core.specs.Queries.{Answers, AnswersRead};
ghost use Rattle.office_core.specs.Keeping as keeping;
ghost use Rattle.office_core.specs.Keeping.{IsCopy, arrival_of, brought, brought_read, read_arrival, with_state, write_arrival};
ghost use Rattle.office_core.specs.Leavings.{LeftAfter};
ghost use Rattle.office_core.specs.Looking.{covered_at, covered_by};

use crate::by_device::ByDevice;
use crate::commit::{keep_readings, keep_state};
use crate::cover::{Asking, covered_by};
use crate::event::Arrival;
use mb_pdu::Reply;
use point_list::Site;
use poll_book::{Keeper, OrderState, PointRow, StoreFault};
use poll_match::Asked;
use std::alloc::Global;

/// Writes the readings that a reply to a read gives, and tells what it was.
fn bring_readings<K: Keeper>(
    alloc: Global,
    keeper: &mut K,
    site: &Site,
    known: &[PointRow],
    devices: &ByDevice,
    asking: &Asking,
    reply: &Reply,
) -> Result<Arrival, StoreFault>
    requires few { length known.now ≤ point_limit }
    requires devices { AreDevicesOf known.now devices.now }
    requires answers { AnswersRead asking.now.read reply.now }
    ensures told { K.is_clean keeper.new → (kept : Tables) → K.holds keeper.old kept
        → IfOk result (λ arrival. arrival ≡ read_arrival site.now known.now asking.now reply.now kept) }
    ensures kept { K.is_clean keeper.new → (kept : Tables) → K.holds keeper.old kept → IsCopy known.now kept
        → MatchResult result (λ _. K.holds keeper.new (brought_read site.now known.now asking.now reply.now kept)) (λ _. K.holds keeper.new kept) }
    ensures leaves { K.is_clean keeper.new → (kept : Tables) → K.holds keeper.old kept → IsCopy known.now kept
        → Within (K.may_leave keeper.new) (LeftAfter (K.may_leave keeper.old) kept (brought_read site.now known.now asking.now reply.now kept) (is_err result)) }
    ensures cause { Accounts K.may_refuse (K.refused keeper.old) (K.refused keeper.new) result }
    ensures looks { IsRaisedAtMost (5 * length (covered_at site.now known.now asking.now)) (K.looked keeper.old) (K.looked keeper.new) }
    ensures err { OnErr result (Within (K.holds keeper.old) (K.holds keeper.new)) }
    ensures clean { K.is_clean keeper.new → K.is_clean keeper.old }
{
    match reply {
        Reply::Excepted(code) => Ok(Arrival::Excepted(*code)),
        reply => {
            let covered = covered_by(alloc, site, known, devices, asking, reply)?;
            let count = keep_readings(alloc, keeper, &covered, asking.slot)?;
            Ok(Arrival::Recorded(count))
        }
    }
}

/// Whether an exception of this code says that a device took a request and isn't done with it: acknowledge (5) or server
/// device busy (6). An order that is answered so waits on (Modbus Application Protocol V1.1b3, section 7).
pub fn is_busy(code: u8) -> bool
    ensures { result ≡ orders.is_busy code }
{
    matches!(code, 5 | 6)
}

/// How an order stands after an exception, if the exception settles it.
fn state_after(code: u8) -> Option<OrderState>
    ensures { result ≡ orders.state_after code }
{
    if is_busy(code) {
        return None;
    }
    Some(OrderState::Refused(code))
}

fn reply_state(reply: &Reply) -> Option<OrderState>
    ensures { result ≡ keeping.reply_state reply.now }
{
    match reply {
        Reply::Excepted(code) => state_after(*code),
        _ => Some(OrderState::Done),
    }
}

/// What a reply to a write is told as.
fn written(reply: &Reply) -> Arrival
    ensures { result ≡ write_arrival reply.now }
{
    match reply {
        Reply::Excepted(code) => Arrival::Excepted(*code),
        _ => Arrival::Settled,
    }
}

/// Writes what a reply to a query brings: readings, or how an order stands. Tells what it was.
pub(crate) fn keep_brought<K: Keeper>(
    alloc: Global,
    keeper: &mut K,
    site: &Site,
    known: &[PointRow],
    devices: &ByDevice,
    asked: &Asked,
    reply: &Reply,
) -> Result<Arrival, StoreFault>
    requires few { length known.now ≤ point_limit }
    requires devices { AreDevicesOf known.now devices.now }
    requires answers { Answers asked.now reply.now }
    ensures told { K.is_clean keeper.new → (kept : Tables) → K.holds keeper.old kept
        → IfOk result (λ arrival. arrival ≡ arrival_of site.now known.now asked.now reply.now kept) }
    ensures kept { K.is_clean keeper.new → (kept : Tables) → K.holds keeper.old kept → IsCopy known.now kept
        → MatchResult result (λ _. K.holds keeper.new (brought site.now known.now asked.now reply.now kept)) (λ _. K.holds keeper.new kept) }
    ensures leaves { K.is_clean keeper.new → (kept : Tables) → K.holds keeper.old kept → IsCopy known.now kept
        → Within (K.may_leave keeper.new) (LeftAfter (K.may_leave keeper.old) kept (brought site.now known.now asked.now reply.now kept) (is_err result)) }
    ensures cause { Accounts K.may_refuse (K.refused keeper.old) (K.refused keeper.new) result }
    ensures looks { IsRaisedAtMost (5 * length (covered_by site.now known.now asked.now)) (K.looked keeper.old) (K.looked keeper.new) }
    ensures err { OnErr result (Within (K.holds keeper.old) (K.holds keeper.new)) }
    ensures clean { K.is_clean keeper.new → K.is_clean keeper.old }
{
    match asked {
        Asked::Read {
            device,
            slot,
            read,
            known: before,
            ..
        } => {
            let asking = Asking {
                device: *device,
                slot: *slot,
                read: *read,
                known: *before,
            };
            bring_readings(alloc, keeper, site, known, devices, &asking, reply)
        }
        Asked::Write { order, .. } => {
            keep_state(alloc, keeper, *order, reply_state(reply))?;
            Ok(written(reply))
        }
    }
}
