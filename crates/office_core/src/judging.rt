//! What becomes of a read that is to be asked.
ghost use Rattle.std.specs.Prelude.{◌≡◌, ℕ, MatchResult, Some, true};
ghost use Rattle.point_list.specs.Sites.{IsSound};
ghost use Rattle.office_core.specs.ByDevice.{AreDevicesOf};
ghost use Rattle.office_core.specs.Cover.{is_readable};
ghost use Rattle.office_core.specs.History as history;
ghost use Rattle.office_core.specs.Sites as sites;

use crate::by_device::ByDevice;
use crate::cover::is_readable;
use crate::error::OfficeError;
use crate::site::{Target, find_target};
use point_list::Site;
use poll_book::PointRow;
use read_planner::Read;

/// The device to ask, or the first refusal that holds, but for that of a connection that made all
/// its queries.
pub(crate) fn judge_ask(
    site: &Site,
    known: &[PointRow],
    devices: &ByDevice,
    line: Option<u16>,
    device: &str,
    read: &Read,
) -> Result<Target, OfficeError>
    requires sound { IsSound site.now }
    requires devices { AreDevicesOf known.now devices.now }
    ensures { MatchResult result
        (λ to. (line ≡ Some to.line) × (sites.target site.now device.now ≡ Some to) × (is_readable known.now device.now read.now ≡ true))
        (λ e. (made : ℕ) → history.ask_fault line site.now known.now made device.now read.now ≡ Some e) }
{
    let Some(line) = line else {
        return Err(OfficeError::NoConnection);
    };
    let Some(to) = find_target(site, device) else {
        return Err(OfficeError::WrongLine);
    };
    if to.line != line {
        return Err(OfficeError::WrongLine);
    }
    if !is_readable(known, devices, device.as_bytes(), read) {
        return Err(OfficeError::NoRead);
    }
    Ok(to)
}
