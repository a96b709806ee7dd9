//! Jobs at their turn.
ghost use Rattle.std.specs.Prelude.{ℕ, MatchResult};
ghost use Rattle.office_core.specs.Errors.{IsCaused};
ghost use Rattle.office_core.specs.Offices.{AccountsFor, keeper_of};
ghost use Rattle.office_core.specs.Following.{Follows, MayLeave};
ghost use Rattle.office_net.specs.Turning.{TurnFails, Turns};
ghost use Rattle.office_net.specs.declared.job.LineJob.TheVariants as jobs;

use crate::job::LineJob;
use mb_mbap::Frame;
use office_core::{Office, OfficeError};
use poll_book::Keeper;
use poll_match::Conn;
use read_planner::Read;

/// Sends the oldest order that waits on a device, if one does.
fn send_next<K: Keeper>(
    office: &mut Office<K>,
    conn: Conn,
    device: &str,
) -> Result<Option<Frame>, OfficeError>
    ensures turned { K.is_clean (keeper_of office.new) → (slot : ℕ) → MatchResult result
        (λ query. Turns (Follows office.old) (Follows office.new) (MayLeave office.old) (MayLeave office.new) conn slot (jobs.Order device.now) query)
        (λ e. TurnFails (Follows office.old) (Follows office.new) (MayLeave office.old) (MayLeave office.new) conn slot (jobs.Order device.now) e) }
    ensures accounts { AccountsFor IsCaused office.old office.new result }
{
    let Some(order) = office.waiting(device)? else {
        return Ok(None);
    };
    Ok(Some(office.send_order(conn, order.number)?))
}

/// Asks a read, if some point that it covers has no reading in the slot.
pub(crate) fn ask_lacking<K: Keeper>(
    office: &mut Office<K>,
    conn: Conn,
    slot: u32,
    device: &str,
    read: &Read,
) -> Result<Option<Frame>, OfficeError>
    ensures turned { K.is_clean (keeper_of office.new) → MatchResult result
        (λ query. Turns (Follows office.old) (Follows office.new) (MayLeave office.old) (MayLeave office.new) conn slot (jobs.Read device.now read.now) query)
        (λ e. TurnFails (Follows office.old) (Follows office.new) (MayLeave office.old) (MayLeave office.new) conn slot (jobs.Read device.now read.now) e) }
    ensures accounts { AccountsFor IsCaused office.old office.new result }
{
    if !office.lacks(device, slot, read)? {
        return Ok(None);
    }
    Ok(Some(office.ask(conn, device, slot, *read)?))
}

/// The turn of a job: its query, or none where it has nothing to do.
pub(crate) fn turn<K: Keeper>(
    office: &mut Office<K>,
    conn: Conn,
    slot: u32,
    job: &LineJob,
) -> Result<Option<Frame>, OfficeError>
    ensures turned { K.is_clean (keeper_of office.new) → MatchResult result
        (λ query. Turns (Follows office.old) (Follows office.new) (MayLeave office.old) (MayLeave office.new) conn slot job.now query)
        (λ e. TurnFails (Follows office.old) (Follows office.new) (MayLeave office.old) (MayLeave office.new) conn slot job.now e) }
    ensures accounts { AccountsFor IsCaused office.old office.new result }
{
    match job {
        LineJob::Order { device } => send_next(office, conn, device.as_str()),
        LineJob::Read { device, read } => ask_lacking(office, conn, slot, device.as_str(), read),
    }
}
