//! Devices of one form on some lines.
use crate::points::{SETTING, addresses, kind_of};
use std::alloc::{AllocError, Global};

/// The unit identifier of the first device of a line.
pub const UNIT: u32 = 17;

/// So many devices with so many points each, in turn on so many lines.
#[derive(Clone, Copy)]
pub struct Plant {
    pub lines: u32,
    pub devices: u32,
    pub points: u32,
    pub seed: u32,
}

impl Plant {
    pub fn line_of(&self, device: u32) -> u32 {
        device % self.lines.max(1)
    }

    pub fn unit_of(&self, device: u32) -> u32 {
        UNIT.wrapping_add(device / self.lines.max(1))
    }

    /// A site file with the lines and devices.
    pub fn site(&self, alloc: Global) -> Result<String, AllocError> {
        let mut text = String::new(alloc);
        for line in 0..self.lines {
            writeln!(
                text,
                "[[line]]\nname = \"line-{line}\"\naddress = \"127.0.0.1:1502\""
            )?;
        }
        for device in 0..self.devices {
            let (line, unit) = (self.line_of(device), self.unit_of(device));
            writeln!(
                text,
                "[[device]]\nname = \"meter-{device}\"\nline = \"line-{line}\""
            )?;
            writeln!(text, "unit = {unit}\ngap = 8")?;
            writeln!(text, "models = [[1, 40002, 66], [103, 40070, 50]]")?;
        }
        Ok(text)
    }

    /// The record of a point of a device.
    fn push_record(
        &self,
        text: &mut String,
        device: u32,
        place: u32,
        address: u32,
    ) -> Result<(), AllocError> {
        let kind = kind_of(place);
        let (what, length, meaning) = (kind.text, kind.length, kind.meaning);
        writeln!(
            text,
            "meter-{device}.p{place},meter-{device},holding,{address},{what},{length},{meaning}"
        )
    }

    /// The records of a device's points, each behind a word.
    pub fn push_points(
        &self,
        alloc: Global,
        text: &mut String,
        word: &str,
        device: u32,
    ) -> Result<(), AllocError> {
        let addresses = addresses(alloc, self.points)?;
        let mut place = 0u32;
        for address in &addresses {
            text.push_str(word)?;
            self.push_record(text, device, place, *address)?;
            place = place.wrapping_add(1);
        }
        Ok(())
    }

    /// The record of a device's setting, behind a word.
    pub fn push_setting(
        &self,
        text: &mut String,
        word: &str,
        device: u32,
    ) -> Result<(), AllocError> {
        writeln!(
            text,
            "{word}meter-{device}.limit,meter-{device},holding,{SETTING},uint16,,,setting,"
        )
    }
}
