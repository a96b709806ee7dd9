//! Devices and steps that a simulator's file has.
ghost use Rattle.std.specs.Char.{is_ascii_digit};
ghost use Rattle.std.specs.List.{list_all};
ghost use Rattle.std.specs.Str.Parse.{digits_value};
ghost use Rattle.std.specs.Prelude.{length, true, ◌≡◌, ◌≢◌, ◌≤◌, ◌<◌, All, IfOk, IfErr, IfSome, IsTrue, Some, None, []};
ghost use Rattle.toml.specs.Data.{Members};
ghost use Rattle.toml.specs.View.{items_view, table_view, view};
ghost use Rattle.toml_members.specs.Members.{IsDocument, each, number_in};
ghost use Rattle.mb_map.specs.Image.{Gives, GivesAt, cells_at, device_in, frames_of, image_of, step_in, step_of};
ghost use Rattle.mb_map.specs.Queue.{is_sound};
ghost use Rattle.mb_map.specs.Schedule.{StandsFor};

use crate::cells::Cells;
use crate::devices::repeated_id;
use crate::error::MapError;
use crate::image_error::{ImageError, ImageFault, ImagePlace, placed};
use crate::mapping::Mapping;
use crate::sim::Sim;
use crate::step::Step;
use std::alloc::Global;
use toml::{Table, Value};
use toml_members::{
    DocumentError, document, number_at, number_in, optional_at, optional_entries_at,
};

fn numbers_in(
    alloc: Global,
    key: &'static str,
    entries: &[Value],
    greatest: u16,
) -> Result<Vec<u16>, ImageFault>
    ensures gives { Gives (λ v. v.items) result (each (number_in greatest) (items_view entries.now)) }
    ensures within { IfOk result (λ v. All (λ n. n ≤ greatest) v.items) }
{
    let mut numbers = Vec::new(alloc);
    for (index, entry) in entries.iter().enumerate() {
        let number = match number_in(entry, u32::from(greatest)) {
            Ok(number) => number,
            Err(fault) => {
                let entry = index + 1;
                return Err(ImageFault::Entry { key, entry, fault });
            }
        };
        numbers.push(number as u16)?;
    }
    Ok(numbers)
}

fn is_digits(text: &[u8]) -> bool
    ensures { result ≡ list_all is_ascii_digit text.now }
{
    text.iter().all(|b| b.is_ascii_digit())
}

// The number that at most three digits spell.
fn value_of(digits: &[u8]) -> u16
    requires digits { list_all is_ascii_digit digits.now ≡ true }
    requires short { length digits.now ≤ 3 }
    ensures { result ≡ digits_value 10 digits.now }
{
    let mut value = 0;
    for digit in digits {
        value = 10 * value + u16::from(*digit - b'0');
    }
    value
}

// A number of frames, 1 to 255 without a leading zero.
fn frames_of(text: &[u8]) -> Option<u8>
    ensures gives { result ≡ frames_of text.now }
    ensures some { IfSome result (λ frames. 0 < frames) }
{
    if text.is_empty() || text.len() > 3 || text[0] == b'0' || !is_digits(text) {
        return None;
    }
    u8::try_from(value_of(text)).ok()
}

#[tactic(auto, unfolding(crate::specs::Image::step_of))]
fn step_of(text: &str) -> Option<Step>
    ensures gives { result ≡ step_of text.now }
    ensures sound { IfSome result (λ step. IsTrue (is_sound step)) }
{
    if text == "pass" {
        return Some(Step::Pass);
    }
    if text == "drop" {
        return Some(Step::Drop);
    }
    if text == "twice" {
        return Some(Step::Twice);
    }
    let digits = text.as_bytes().strip_prefix(b"hold ".as_slice())?;
    Some(Step::Hold(frames_of(digits)?))
}

#[tactic(auto, unfolding(crate::specs::Image::step_in))]
fn step_in(entry: &Value) -> Option<Step>
    ensures gives { result ≡ step_in (view entry.now) }
    ensures sound { IfSome result (λ step. IsTrue (is_sound step)) }
{
    step_of(entry.as_str()?)
}

fn script_in(alloc: Global, entries: &[Value]) -> Result<Vec<Step>, ImageFault>
    ensures gives { Gives (λ v. v.items) result (each step_in (items_view entries.now)) }
    ensures sound { IfOk result (λ v. IsTrue (list_all is_sound v.items)) }
{
    let mut script = Vec::new(alloc);
    for (index, entry) in entries.iter().enumerate() {
        let step = step_in(entry).ok_or(ImageFault::NoStep(index + 1))?;
        script.push(step)?;
    }
    Ok(script)
}

// The cells of a list from its start on.
#[tactic(auto, unfolding(crate::specs::Image::cells_at))]
fn cells_at(
    alloc: Global,
    table: &Table,
    key: &'static str,
    start_key: &'static str,
    greatest: u16,
) -> Result<Cells, ImageFault>
    ensures gives { Gives (λ c. c) result (cells_at key.now start_key.now greatest (table_view table.now)) }
    ensures small { IfOk result (λ c. All (λ x. x.1 ≤ greatest) c) }
{
    let entries = optional_entries_at(table, key)?;
    let numbers = numbers_in(alloc, key, entries, greatest)?;
    let start = optional_at(table, start_key, 65536)?;
    if start as usize + numbers.len() > 65536 {
        return Err(ImageFault::PastEnd(key));
    }
    Ok(Cells::from_numbers(start, numbers))
}

#[tactic(auto, unfolding(crate::specs::Image::device_in))]
fn device_in(alloc: Global, unit: &Value) -> Result<(u8, Mapping), ImageFault>
    ensures { Gives (λ d. d) result (device_in (view unit.now)) }
{
    let table = unit.as_table().ok_or(ImageFault::NoTable)?;
    let id = number_at(table, "id", 255)?;
    let coils = cells_at(alloc, table, "coils", "coils_start", 1)?;
    let discrete = cells_at(alloc, table, "discrete", "discrete_start", 1)?;
    let input = cells_at(alloc, table, "input", "input_start", u16::MAX)?;
    let holding = cells_at(alloc, table, "holding", "holding_start", u16::MAX)?;
    let mapping = Mapping {
        coils,
        discrete,
        input,
        holding,
    };
    Ok((id as u8, mapping))
}

fn devices_in(alloc: Global, units: &[Value]) -> Result<Vec<(u8, Mapping)>, ImageError>
    ensures { GivesAt (λ v. v.items) result (each device_in (items_view units.now)) }
{
    let mut devices = Vec::new(alloc);
    for (index, unit) in units.iter().enumerate() {
        let device = placed(ImagePlace::unit(index), device_in(alloc, unit))?;
        devices.push(device)?;
    }
    Ok(devices)
}

// The simulator of a document.
#[tactic(auto, unfolding(crate::specs::Image::image_of))]
fn sim_in(alloc: Global, document: &Table) -> Result<Sim, ImageError>
    ensures gives { GivesAt (λ s. s) result (image_of (table_view document.now)) }
    ensures stands { IfOk result (λ sim. StandsFor sim.devices sim.script [] [] sim) }
{
    let units = optional_entries_at(document, "unit")?;
    let devices = devices_in(alloc, units)?;
    let steps = optional_entries_at(document, "script")?;
    let script = placed(ImagePlace::Script, script_in(alloc, steps))?;
    if let Some(index) = repeated_id(devices.as_slice()) {
        let (id, _) = &devices[index];
        return Err(ImageError::new(ImagePlace::unit(index), ImageFault::IdTwice(*id)));
    }
    Ok(Sim::new(alloc, devices, script))
}

impl Sim {
    /// The simulator of a file of TOML: `script` lists `"pass"`, `"drop"`, `"twice"` or
    /// `"hold K"`, K from 1 to 255; each `[[unit]]` has an `id` and, for each of `coils`,
    /// `discrete`, `input` and `holding`, a list of numbers that begins at the address
    /// `coils_start` and so on. Missing lists and starts are empty and 0, and other members are
    /// ignored.
    ///
    /// `docs/FORMATS.md` has the members one by one, with an example.
    pub fn from_image(alloc: Global, bytes: &[u8]) -> Result<Sim, ImageError>
        // What is read is the simulator of the document that the bytes are.
        ensures image { IfOk result (λ sim. (document : Members) × IsDocument bytes.now document × (image_of document ≡ Some sim)) }
        ensures stands { IfOk result (λ sim. StandsFor sim.devices sim.script [] [] sim) }
        // The bytes are refused for want of memory, or where they are no document, or one of no simulator.
        ensures bad { IfErr result (λ e. e.fault ≢ ImageFault.Memory → (document : Members) → IsDocument bytes.now document → image_of document ≡ None) }
    {
        match document(alloc, bytes) {
            Ok(document) => sim_in(alloc, &document),
            Err(DocumentError::NotToml(line)) => Err(ImageFault::NotToml(line).into()),
            Err(DocumentError::Memory) => Err(ImageFault::Memory.into()),
        }
    }

    /// The same, where the place of the fault isn't asked for: `BadImage` comes exactly where the text
    /// is no such file, for another cause than memory.
    pub fn from_toml(alloc: Global, bytes: &[u8]) -> Result<Sim, MapError>
        ensures image { IfOk result (λ sim. (document : Members) × IsDocument bytes.now document × (image_of document ≡ Some sim)) }
        ensures stands { IfOk result (λ sim. StandsFor sim.devices sim.script [] [] sim) }
        ensures bad { IfErr result (λ e. e ≡ MapError.BadImage → (document : Members) → IsDocument bytes.now document → image_of document ≡ None) }
        ensures fits { IfErr result (λ e. e ≢ MapError.TooLarge) }
    {
        match Sim::from_image(alloc, bytes) {
            Ok(sim) => Ok(sim),
            Err(e) if e.is_memory() => Err(MapError::Memory),
            Err(_) => Err(MapError::BadImage),
        }
    }
}
