//! Calls between which others may have the office: what they promise holds of every history that it follows.
ghost use Rattle.std.specs.Prelude.{◌≡◌, IfErr, IfOk, MatchResult, is_some};
ghost use Rattle.poll_book.specs.Orders as orders;
ghost use Rattle.office_core.specs.Errors.{IsCaused, IsOfStore};
ghost use Rattle.office_core.specs.History.{History, settings};
ghost use Rattle.office_core.specs.Offices.{AccountsFor, arrived, keeper_of};
ghost use Rattle.office_net.specs.Counting.{Learnt};
ghost use Rattle.office_core.specs.Following.{Follows};
ghost use Rattle.office_core.specs.Lacking.{lacks};
ghost use Rattle.office_core.specs.Proceeding.{GoesAlong, Nothing};
ghost use Rattle.office_net.specs.Kinds.{Asks, Hears, IsOldest, Opens};
ghost use Rattle.office_net.specs.Querying.{Answered, IsRefusal, Makes, Misses, Tries};
ghost use Rattle.office_core.specs.declared.event.EventAnswer.TheVariants as answer;

use crate::turns::ask_lacking;
use mb_mbap::Frame;
use office_core::{Arrival, Office, OfficeError};
use poll_book::Keeper;
use poll_match::Conn;
use read_planner::Read;

/// Opens a line by its name, and closes its former connection. It refuses as `Office::open_line` does.
pub fn open_line<K: Keeper>(office: &mut Office<K>, line: &str) -> Result<Conn, OfficeError>
    ensures made { MatchResult result (λ conn. Answered (Opens line.now) office.old office.new (answer.Opened conn)) (λ _. Misses (Opens line.now) office.old office.new) }
    ensures refused { IfErr result (IsRefusal (Opens line.now) office.old office.new) }
    ensures accounts { AccountsFor IsCaused office.old office.new result }
{
    office.open_line(line)
}

/// Takes a frame, whenever it comes: the reply to a query, of this round or of an earlier one, or noise. It refuses as
/// `Office::arrive` does.
pub fn take_late<K: Keeper>(
    office: &mut Office<K>,
    conn: Conn,
    frame: &Frame,
) -> Result<Arrival, OfficeError>
    ensures came { Tries (Hears conn frame.now) office.old office.new (arrived result) }
    ensures accounts { AccountsFor IsCaused office.old office.new result }
{
    office.arrive(conn, frame)
}

/// The number of the last order, 0 before the first.
pub fn last_order<K: Keeper>(office: &mut Office<K>) -> Result<u32, OfficeError>
    ensures value { K.is_clean (keeper_of office.new) → (now : History) → Follows office.old now
        → IfOk result (λ number. number ≡ orders.last_order (settings now)) }
    ensures along { GoesAlong Nothing office.old office.new }
    ensures accounts { AccountsFor IsOfStore office.old office.new result }
{
    office.orders()
}

/// Asks a read of a device, if some point that it covers has no reading in the slot. It refuses as `Office::lacks` and
/// `Office::ask` do.
pub fn ask_among<K: Keeper>(
    office: &mut Office<K>,
    conn: Conn,
    slot: u32,
    device: &str,
    read: &Read,
) -> Result<Option<Frame>, OfficeError>
    ensures made { MatchResult result (Makes (Asks conn slot device.now read.now) office.old office.new) (λ _. Misses (Asks conn slot device.now read.now) office.old office.new) }
    ensures due { K.is_clean (keeper_of office.new) → (now : History) → Follows office.old now
        → IfOk result (λ query. is_some query ≡ lacks now device.now slot read.now) }
    ensures refused { IfErr result (IsRefusal (Asks conn slot device.now read.now) office.old office.new) }
    ensures accounts { AccountsFor IsCaused office.old office.new result }
{
    ask_lacking(office, conn, slot, device, read)
}

/// The number of the oldest order that waits on a device, if one does. It refuses as `Office::waiting` does.
pub fn oldest_order<K: Keeper>(
    office: &mut Office<K>,
    device: &str,
) -> Result<Option<u32>, OfficeError>
    ensures value { IfOk result (λ number. Learnt office.old office.new (λ now. IsOldest now device.now number)) }
    ensures along { GoesAlong Nothing office.old office.new }
    ensures accounts { AccountsFor IsOfStore office.old office.new result }
{
    let found = office.waiting(device)?;
    match found {
        Some(order) => Ok(Some(order.number)),
        None => Ok(None),
    }
}
