//! Whether the parts of a site agree, and where they don't.
ghost use Rattle.std.specs.Prelude.{◌≡◌, ◌≢◌, ◌+◌, ◌<◌, ◌^◌, ◌&&◌, ◌==◌, length, IfSome, is_none, slice_get};
ghost use Rattle.std.specs.List.{list_all, position};
ghost use Rattle.point_list.specs.Sites.{all_differ, have_lines, have_room, has_room, is_limited, is_sound, same_device_name, same_line_name, same_place};
ghost use Rattle.point_list.specs.declared.site_error.SiteFault.TheVariants.{Memory};

use crate::site::{Device, Line, MOST_DEVICES, MOST_LINES};
use crate::site_error::{Quoted, SiteError, SiteFault, SitePlace};
use crate::text::Text;
use sunspec::Model;
use toml_members::MemberFault;

/// What keeps lines and devices from being a site, if anything does.
pub(crate) fn disagreement(lines: &[Line], devices: &[Device]) -> Option<SiteError>
    ensures sound { is_none result ≡ is_sound lines.now devices.now }
    ensures memory { IfSome result (λ e. e.fault ≢ Memory) }
{
    if lines.len() > MOST_LINES {
        return Some(SiteFault::TooManyLines.into());
    }
    if devices.len() > MOST_DEVICES {
        return Some(SiteFault::TooManyDevices.into());
    }
    if let Some(index) = repeated_line(lines) {
        return Some(name_twice(SitePlace::line(index), &lines[index].name));
    }
    if let Some(error) = unlimited(lines) {
        return Some(error);
    }
    if let Some(index) = repeated_device(devices) {
        return Some(name_twice(SitePlace::device(index), &devices[index].name));
    }
    if !have_lines(lines, devices) {
        return Some(SiteFault::WithoutLine.into());
    }
    if let Some(index) = repeated_place(devices) {
        let line = &lines[devices[index].line as usize];
        return Some(unit_twice(SitePlace::device(index), &devices[index], line));
    }
    past_end(devices)
}

fn name_twice(place: SitePlace, name: &Text) -> SiteError
    ensures { result.fault ≢ Memory }
{
    SiteError::new(place, SiteFault::NameTwice(Quoted::new(name.as_bytes())))
}

fn unit_twice(place: SitePlace, device: &Device, line: &Line) -> SiteError
    ensures { result.fault ≢ Memory }
{
    let fault = SiteFault::UnitTwice {
        unit: device.unit,
        line: Quoted::new(line.name.as_bytes()),
    };
    SiteError::new(place, fault)
}

/// The place of a line whose name an earlier one has.
fn repeated_line(lines: &[Line]) -> Option<usize>
    ensures none { is_none result ≡ all_differ same_line_name lines.now }
    ensures within { IfSome result (λ index. index < length lines.now) }
{
    let (first, rest) = lines.split_first()?;
    match Line::place(rest, first.name.as_str()) {
        Some(index) => Some(index + 1),
        None => Some(repeated_line(rest)? + 1),
    }
}

/// What is wrong with the first line that lets no query wait, or too many.
fn unlimited(lines: &[Line]) -> Option<SiteError>
    ensures none { is_none result ≡ list_all is_limited lines.now }
    ensures memory { IfSome result (λ e. e.fault ≢ Memory) }
{
    for (index, line) in lines.iter().enumerate() {
        if !line.is_limited() {
            let fault = SiteFault::of_outstanding(MemberFault::OutOfRange);
            return Some(SiteError::new(SitePlace::line(index), fault));
        }
    }
    None
}

/// The place of a device whose name an earlier one has.
fn repeated_device(devices: &[Device]) -> Option<usize>
    ensures none { is_none result ≡ all_differ same_device_name devices.now }
    ensures within { IfSome result (λ index. index < length devices.now) }
{
    let (first, rest) = devices.split_first()?;
    match Device::place(rest, first.name.as_str()) {
        Some(index) => Some(index + 1),
        None => Some(repeated_device(rest)? + 1),
    }
}

fn device_at(devices: &[Device], line: u16, unit: u8) -> Option<usize>
    ensures { result ≡ position (λ x. (x.line == line) && (x.unit == unit)) devices.now }
{
    devices
        .iter()
        .position(|device| device.line == line && device.unit == unit)
}

/// The place of a device whose line and unit identifier an earlier one has.
fn repeated_place(devices: &[Device]) -> Option<usize>
    ensures none { is_none result ≡ all_differ same_place devices.now }
    ensures within { IfSome result (λ index. index < length devices.now) }
{
    let (first, rest) = devices.split_first()?;
    match device_at(rest, first.line, first.unit) {
        Some(index) => Some(index + 1),
        None => Some(repeated_place(rest)? + 1),
    }
}

fn have_lines(lines: &[Line], devices: &[Device]) -> bool
    ensures { result ≡ have_lines (length lines.now) devices.now }
{
    devices
        .iter()
        .all(|device| (device.line as usize) < lines.len())
}

fn has_room(model: &Model) -> bool
    ensures { result ≡ has_room model.now }
{
    model.address as u32 + 2 + model.length as u32 <= 65535
}

/// The identifier of a model that doesn't end before the last address.
fn model_past_end(models: &[Model]) -> Option<u16>
    ensures { is_none result ≡ list_all has_room models.now }
{
    for model in models {
        if !has_room(model) {
            return Some(model.id);
        }
    }
    None
}

/// The same of devices: what is wrong with the first of them that has such a model.
fn past_end(devices: &[Device]) -> Option<SiteError>
    ensures none { is_none result ≡ have_room devices.now }
    ensures memory { IfSome result (λ e. e.fault ≢ Memory) }
{
    for (index, device) in devices.iter().enumerate() {
        if let Some(id) = model_past_end(device.models.as_slice()) {
            return Some(SiteError::new(SitePlace::device(index), SiteFault::PastEnd(id)));
        }
    }
    None
}
