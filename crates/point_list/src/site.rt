//! A site: its lines, devices and models.
ghost use Rattle.std.specs.Prelude.{[], ◌≡◌, ◌≤◌, option_map};
ghost use Rattle.std.specs.List.{list_any};
ghost use Rattle.std.specs.Str.{bytes_eq};
ghost use Rattle.point_list.specs.Sites.{IsSound, device_of, is_limited, line_of};

use crate::agreeing::disagreement;
use crate::items::Items;
use crate::text::Text;
use std::alloc::Global;
use sunspec::Model;

/// The most lines of a site.
pub const MOST_LINES: usize = 64;

/// The most devices of a site.
pub const MOST_DEVICES: usize = 256;

/// The most queries of a line that may wait for their replies at once.
pub const MOST_OUTSTANDING: u8 = 16;

/// A line: a TCP connection behind which devices answer.
#[derive(Debug, Drop)]
pub struct Line {
    pub name: Text,
    /// Where it is reached, as `host:port`. Whether it can be shows when the line is opened.
    pub address: Text,
    /// How many of its queries may wait for their replies at once, 1 to `MOST_OUTSTANDING`.
    pub outstanding: u8,
}

impl Line {
    /// A line of which `MOST_OUTSTANDING` queries may wait.
    pub fn new(name: Text, address: Text) -> Line
        ensures { result ≡ record { name = name; address = address; outstanding = 16 } }
    {
        Line {
            name,
            address,
            outstanding: MOST_OUTSTANDING,
        }
    }

    /// The same line, of which so many queries may wait. A site that has one with another number than 1
    /// to `MOST_OUTSTANDING` isn't sound.
    pub fn with_outstanding(mut self, outstanding: u8) -> Line
        ensures { result ≡ record self { outstanding = outstanding } }
    {
        self.outstanding = outstanding;
        self
    }

    /// Whether 1 to `MOST_OUTSTANDING` of its queries may wait.
    pub(crate) fn is_limited(&self) -> bool
        ensures { result ≡ is_limited self.now }
    {
        (1..=MOST_OUTSTANDING).contains(&self.outstanding)
    }

    /// The place of the line of this name.
    pub fn place(lines: &[Line], name: &str) -> Option<usize>
        ensures { result ≡ line_of lines.now name.now }
    {
        lines.iter().position(|line| line.name.as_str() == name)
    }
}

/// A device behind a line.
#[derive(Debug, Drop)]
pub struct Device {
    pub name: Text,
    /// The place of its line among the site's lines.
    pub line: u16,
    /// Its unit identifier.
    pub unit: u8,
    /// How many addresses that no point lists may be read along between two that are, 0 to 124.
    pub gap: u16,
    /// Its chain of models, as `sunspec::discover` finds it; empty where it isn't known or there is none.
    pub models: Items<Model>,
}

impl Device {
    /// A device with no gap, of whose models nothing is known.
    pub fn new(alloc: Global, name: Text, line: u16, unit: u8) -> Device
        ensures { result ≡ record { name = name; line = line; unit = unit; gap = 0; models = [] } }
    {
        Device {
            name,
            line,
            unit,
            gap: 0,
            models: Items::from_vec(Vec::new(alloc)),
        }
    }

    /// The same device with this gap.
    pub fn with_gap(mut self, gap: u16) -> Device
        ensures { result ≡ record self { gap = gap } }
    {
        self.gap = gap;
        self
    }

    /// The same device with these models.
    pub fn with_models(mut self, models: Items<Model>) -> Device
        ensures { result ≡ record self { models = models } }
    {
        self.models = models;
        self
    }

    /// The place of the device of this name.
    pub fn place(devices: &[Device], name: &str) -> Option<usize>
        ensures { result ≡ device_of devices.now name.now }
    {
        devices
            .iter()
            .position(|device| device.name.as_str() == name)
    }
}

/// The lines and devices of a site, in the order of its file.
#[derive(Debug, Drop)]
pub struct Site {
    pub lines: Items<Line>,
    pub devices: Items<Device>,
}

impl Site {
    ghost use Rattle.point_list.specs.Sites as sites;

    /// A site of these lines and devices, whether it is sound or not: `read_site` gives sound ones.
    pub fn new(lines: Vec<Line>, devices: Vec<Device>) -> Site
        ensures { result ≡ record { lines = lines.items; devices = devices.items } }
    {
        Site {
            lines: Items::from_vec(lines),
            devices: Items::from_vec(devices),
        }
    }

    /// Whether its parts agree: at most `MOST_LINES` lines and `MOST_DEVICES` devices, names that
    /// differ, 1 to `MOST_OUTSTANDING` queries of each line that may wait, a line for each device, no
    /// two devices that share line and unit identifier, and models that end before the last address. A
    /// site that `from_toml` gives is so.
    pub fn is_sound(&self) -> bool
        ensures { result ≡ sites.is_sound self.now.lines self.now.devices }
    {
        disagreement(self.lines.as_slice(), self.devices.as_slice()).is_none()
    }

    /// The line of this name.
    pub fn line(&self, name: &str) -> Option<&Line>
        ensures { option_map (λ line. line.now) result ≡ sites.line_named self.now name.now }
    {
        self.lines.iter().find(|line| line.name.as_str() == name)
    }

    /// How many queries of the line at this place may wait for their replies at once; where the site
    /// has no such line, `MOST_OUTSTANDING`.
    pub fn outstanding(&self, line: u16) -> u8
        ensures value { result ≡ sites.outstanding_on self.now line }
        ensures within { IsSound self.now → (1 ≤ result) × (result ≤ 16) }
    {
        match self.lines.as_slice().get(line as usize) {
            Some(line) => line.outstanding,
            None => MOST_OUTSTANDING,
        }
    }

    /// The device of this name.
    pub fn device(&self, name: &str) -> Option<&Device>
        ensures { option_map (λ device. device.now) result ≡ sites.device_named self.now name.now }
    {
        self.devices
            .iter()
            .find(|device| device.name.as_str() == name)
    }

    /// Whether it has a device of this name. A point names its device by a `Label`, whose
    /// `as_str` is such a name; a device whose name is no label has no points.
    pub fn has_device(&self, name: &str) -> bool
        ensures { result ≡ list_any (λ device. bytes_eq name.now device.name) self.now.devices }
    {
        self.devices
            .iter()
            .any(|device| name == device.name.as_str())
    }
}
