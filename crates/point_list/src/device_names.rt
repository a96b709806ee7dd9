//! The names of a site's devices, to look for the devices of a list in.
ghost use Rattle.std.specs.Prelude.{◌≡◌, ◌&&◌, ◌||◌, ℕ, List, IfOk, OnOk};
ghost use Rattle.std.specs.List.{list_any};
ghost use Rattle.std.specs.Str.{bytes_eq};
ghost use Rattle.point_list.specs.Label.{is_label};
ghost use Rattle.point_list.specs.Texts.{has_text};
ghost use Rattle.point_list.specs.DeviceNames.{has_device};

use crate::label::is_label;
use crate::naming::is_same_name;
use crate::site::Device;
use crate::texts::Texts;
use std::alloc::{AllocError, Global};

/// To sort names costs more than so many searches through all of them, also where all end alike: from so many names to
/// look for on it pays to sort those that are looked through.
pub const SEARCHES_OF_A_SORT: usize = 16;

/// The names of devices that points can have.
#[derive(Drop)]
pub(crate) enum DeviceNames<'a> {
    /// As the site has them.
    Plain(&'a [Device]),
    Sorted(Texts<'a>),
}

/// Adds the name of a device, if points can have it.
fn add_device<'a>(names: &mut Texts<'a>, name: &'a [u8]) -> Result<(), AllocError>
    ensures { OnOk result ((text : List ℕ) → has_text names.new text ≡ ((is_label text && bytes_eq text name.now) || has_text names.old text)) }
{
    if is_label(name) {
        match names.add(name) {
            Ok(_) => Ok(()),
            Err(e) => Err(e),
        }
    } else {
        Ok(())
    }
}

fn sorted<'a>(alloc: Global, devices: &'a [Device]) -> Result<Texts<'a>, AllocError>
    ensures { IfOk result (λ names. (text : List ℕ) → has_text names text ≡ (is_label text && list_any (λ d. bytes_eq text d.name) devices.now)) }
{
    let mut names = Texts::new(alloc);
    for device in devices {
        if add_device(&mut names, device.name.as_bytes()).is_err() {
            return Err(AllocError);
        }
    }
    Ok(names)
}

fn is_among(devices: &[Device], text: &[u8]) -> bool
    ensures { result ≡ list_any (λ d. bytes_eq text.now d.name) devices.now }
{
    devices
        .iter()
        .any(|device| is_same_name(text, device.name.as_bytes()))
}

impl<'a> DeviceNames<'a> {
    /// The names, to be searched once for each of so many records.
    pub(crate) fn of(
        alloc: Global,
        devices: &'a [Device],
        records: usize,
    ) -> Result<DeviceNames<'a>, AllocError>
        ensures { IfOk result (λ names. (text : List ℕ) → has_device names text ≡ (is_label text && list_any (λ d. bytes_eq text d.name) devices.now)) }
    {
        if records < SEARCHES_OF_A_SORT {
            return Ok(DeviceNames::Plain(devices));
        }
        match sorted(alloc, devices) {
            Ok(names) => Ok(DeviceNames::Sorted(names)),
            Err(e) => Err(e),
        }
    }

    pub(crate) fn has(&self, text: &[u8]) -> bool
        ensures { result ≡ has_device self.now text.now }
    {
        match self {
            DeviceNames::Plain(devices) => is_label(text) && is_among(devices, text),
            DeviceNames::Sorted(names) => is_label(text) && names.has(text),
        }
    }
}
