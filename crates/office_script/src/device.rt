//! The devices that a script declares.
ghost use Rattle.std.specs.Prelude.{◌≡◌, ◌≤◌, IfOk, IfSome, OnOk, length};
ghost use Rattle.point_list.specs.Sites.{IsSound, line_of};
ghost use Rattle.office_script.specs.Words.{texts};
ghost use Rattle.office_script.specs.Devices as devices;
ghost use Rattle.office_script.specs.Devices.{device_of, device_of_words, lines_with, place_with, with_device};

use crate::cutting::words;
use crate::word::{is_text, number, text};
use point_list::{Device, Line, Site, Text};
use std::alloc::{AllocError, Global};

/// A device that a line declares: its name, its line's name, and its unit identifier.
#[derive(Drop)]
pub(crate) struct Declared {
    pub(crate) name: Text,
    pub(crate) line: Text,
    pub(crate) unit: u8,
}

/// The device of these names, where its unit identifier could be read.
fn declaring(
    alloc: Global,
    name: &[u8],
    line: &[u8],
    unit: Option<u32>,
) -> Result<Option<Declared>, AllocError>
    requires { IfSome unit (λ unit. unit ≤ 255) }
    ensures { IfOk result (λ said. said ≡ devices.declaring name.now line.now unit) }
{
    let Some(unit) = unit else {
        return Ok(None);
    };
    if !is_text(name) {
        return Ok(None);
    }
    if !is_text(line) {
        return Ok(None);
    }
    Ok(Some(Declared {
        name: text(alloc, name)?,
        line: text(alloc, line)?,
        unit: unit as u8,
    }))
}

/// `device NAME LINE UNIT`.
fn device_of_words(alloc: Global, words: &[&[u8]]) -> Result<Option<Declared>, AllocError>
    ensures { IfOk result (λ said. said ≡ device_of_words (texts words.now)) }
{
    if words.len() != 4 {
        return Ok(None);
    }
    if words[0] != b"device".as_slice() {
        return Ok(None);
    }
    declaring(alloc, words[1], words[2], number(words[3], 255))
}

/// The device that a line declares.
pub(crate) fn device(alloc: Global, line: &[u8]) -> Result<Option<Declared>, AllocError>
    ensures { IfOk result (λ said. said ≡ device_of line.now) }
{
    let words = words(alloc, line)?;
    device_of_words(alloc, &words)
}

/// The place of a line of this name, which is added where there is none.
fn place_in(alloc: Global, lines: &mut Vec<Line>, name: Text) -> Result<usize, AllocError>
    ensures place { IfOk result (λ place. place ≡ place_with lines.old.items (line_of lines.old.items name)) }
    ensures lines { OnOk result (lines.new.items ≡ lines_with lines.old.items name (line_of lines.old.items name)) }
    ensures small { IfOk result (λ place. place ≤ length lines.old.items) }
{
    if let Some(place) = Line::place(lines, name.as_str()) {
        return Ok(place);
    }
    let place = lines.len();
    let address = Text::from_string(String::new(alloc));
    lines.push(Line::new(name, address))?;
    Ok(place)
}

/// The site with a device more, and with its line.
pub(crate) fn with_device(alloc: Global, site: Site, said: Declared) -> Result<Site, AllocError>
    requires { IsSound site }
    ensures { IfOk result (λ grown. grown ≡ with_device site said) }
{
    let mut lines = site.lines.into_vec();
    let mut devices = site.devices.into_vec();
    let line = place_in(alloc, &mut lines, said.line)? as u16;
    devices.push(Device::new(alloc, said.name, line, said.unit))?;
    Ok(Site::new(lines, devices))
}
