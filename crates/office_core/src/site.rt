//! Lines and devices of a site, by their names.
ghost use Rattle.std.specs.Prelude.{◌≡◌, ◌≤◌, length};
ghost use Rattle.std.specs.List.{position};
ghost use Rattle.std.specs.Str.{bytes_eq};
ghost use Rattle.point_list.specs.Columns.{is_device};
ghost use Rattle.office_core.specs.Sites as sites;

use point_list::{Device, Line, Point, Site};
use poll_book::PointRow;

/// A device to be asked: its place in the site, its line's place, and its unit identifier.
#[derive(Clone, Copy)]
pub(crate) struct Target {
    pub(crate) place: u16,
    pub(crate) line: u16,
    pub(crate) unit_id: u8,
}

/// The place of the line of a name.
pub(crate) fn line_place(site: &Site, name: &str) -> Option<u16>
    requires { length site.now.lines ≤ 65536 }
    ensures { result ≡ sites.line_place site.now name.now }
{
    match Line::place(site.lines.as_slice(), name) {
        Some(place) => Some(place as u16),
        None => None,
    }
}

/// The device of a name.
pub(crate) fn find_target(site: &Site, name: &str) -> Option<Target>
    requires { length site.now.devices ≤ 65536 }
    ensures { result ≡ sites.target site.now name.now }
{
    let devices = site.devices.as_slice();
    match Device::place(devices, name) {
        Some(place) => Some(Target {
            place: place as u16,
            line: devices[place].line,
            unit_id: devices[place].unit,
        }),
        None => None,
    }
}

/// Whether a site has the device of a point.
fn has_device_of(site: &Site, point: &Point) -> bool
    ensures { result ≡ is_device site.now point.now.device }
{
    site.has_device(point.device.as_str())
}

/// Whether a site has the devices of these points.
pub(crate) fn has_devices(site: &Site, known: &[PointRow]) -> bool
    ensures { result ≡ sites.has_devices site.now known.now }
{
    known.iter().all(|row| has_device_of(site, &row.point))
}
