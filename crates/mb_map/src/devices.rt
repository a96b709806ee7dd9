//! Devices behind one connection, told apart by their unit identifiers.
ghost use Rattle.std.specs.Prelude.{ℕ, ◌≡◌, ◌≢◌, ◌↔◌, ◌<◌, ◌==◌, All, IfNone, IfSome, IsTrue, length, is_none, slice_index_or};
ghost use Rattle.std.specs.Bool.{OnFalse, OnTrue};
ghost use Rattle.std.specs.List.{position};
ghost use Rattle.mb_map.specs.Queue.{HaveOwnIds, differ};
ghost use Rattle.mb_map.specs.Schedule.{CanSet, Serves, tables_at, with_set};
ghost use Rattle.mb_map.specs.Tables.{Tables};

use crate::device::exception;
use crate::mapping::Mapping;
use mb_mbap::Frame;
use mb_pdu::Table;

/// Exception 0B: the gateway's target device failed to respond.
const NO_TARGET: u8 = 0x0B;

/// The place of the device of a unit identifier.
fn place_of(devices: &[(u8, Mapping)], unit_id: u8) -> Option<usize>
    ensures place { IfSome result (λ place. place < length devices.now) }
    ensures found { IfSome result (λ place. (d : ℕ × Tables) → (slice_index_or devices.now place d).0 ≡ unit_id) }
    ensures none { IfNone result (All (λ d. d.0 ≢ unit_id) devices.now) }
{
    devices.iter().position(|device| device.0 == unit_id)
}

/// Performs the request of a frame on the device of its unit identifier and answers it.
pub(crate) fn serve(devices: &mut [(u8, Mapping)], frame: &Frame) -> Frame
    requires { HaveOwnIds devices.old }
    ensures serves { Serves devices.old frame.now result devices.new }
    ensures apart { HaveOwnIds devices.new }
{
    let unit = match place_of(devices, frame.unit_id) {
        Some(place) => {
            let (_, mapping) = &mut devices[place];
            mapping.reply(&frame.unit)
        }
        None => exception(&frame.unit, NO_TARGET),
    };
    Frame {
        transaction: frame.transaction,
        unit_id: frame.unit_id,
        unit,
    }
}

/// Puts a number at an address of a table of the device of a unit identifier. It is refused, and
/// nothing is changed, where there is no such device or the device refuses.
pub(crate) fn set_number(
    devices: &mut [(u8, Mapping)],
    unit_id: u8,
    table: Table,
    address: u16,
    number: u16,
) -> bool
    requires { HaveOwnIds devices.old }
    ensures test { IsTrue result ↔ CanSet (tables_at unit_id devices.old) table address number }
    ensures done { OnTrue result (devices.new ≡ with_set unit_id table address number devices.old) }
    ensures refused { OnFalse result (devices.new ≡ devices.old) }
    ensures apart { HaveOwnIds devices.new }
{
    let Some(place) = place_of(devices, unit_id) else {
        return false;
    };
    let (_, mapping) = &mut devices[place];
    mapping.set(table, address, number)
}

/// The place of a device whose unit identifier an earlier one has.
pub(crate) fn repeated_id(devices: &[(u8, Mapping)]) -> Option<usize>
    ensures none { is_none result ≡ differ devices.now }
    ensures within { IfSome result (λ index. index < length devices.now) }
{
    let (first, rest) = devices.split_first()?;
    match device_of(rest, first.0) {
        Some(index) => Some(index + 1),
        None => Some(repeated_id(rest)? + 1),
    }
}

fn device_of(devices: &[(u8, Mapping)], id: u8) -> Option<usize>
    ensures { result ≡ position (λ d. d.0 == id) devices.now }
{
    devices.iter().position(|device| device.0 == id)
}
