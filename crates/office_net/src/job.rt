//! What a round has to do for a device.
use point_list::Text;
use read_planner::Read;

/// What a round has to do for a device, by the device's name.
#[derive(Debug, Drop)]
pub enum LineJob {
    /// The oldest order that waits on it is sent, if one waits.
    Order { device: Text },
    /// A read is asked, if some point that it covers has no reading in the slot.
    Read { device: Text, read: Read },
}
