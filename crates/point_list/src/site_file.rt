//! Site files, as TOML.
ghost use Rattle.std.specs.Prelude.{◌≡◌, ◌≢◌, ◌≤◌, ◌⊎◌, length, IfOk, IfErr, Some, None};
ghost use Rattle.toml.specs.Data.{Members};
ghost use Rattle.toml.specs.View.{table_view, view, items_view};
ghost use Rattle.point_list.specs.Sites.{IsSound, line_of};
ghost use Rattle.toml_members.specs.Members.{IsDocument, each, text_at};
ghost use Rattle.point_list.specs.SiteFile.{Gives, GivesAt, bad_site, no_memory, device_in, devices_of, line_in, lines_of, model_in, model_of, models_of, name_at, outstanding_at, site_of};

use crate::agreeing::disagreement;
use crate::error::{ListError, ListFault};
use crate::items::Items;
use crate::name::is_name;
use crate::site::{Device, Line, MOST_LINES, MOST_OUTSTANDING, Site};
use crate::site_error::{Quoted, SiteError, SiteFault, SitePlace, placed};
use crate::text::Text;
use std::alloc::{AllocError, Global};
use sunspec::Model;
use toml::{Table, Value};
use toml_members::{
    DocumentError, MemberFault, document, entries_at, member, number_at, number_in, optional_at,
    optional_entries_at, text_at,
};

/// A text of its own.
fn copied(alloc: Global, text: &str) -> Result<Text, AllocError>
    ensures { IfOk result (λ copy. copy ≡ text.now) }
{
    Ok(Text::from_string(String::from_str(alloc, text)?))
}

#[tactic(auto, unfolding(crate::specs::SiteFile::name_at))]
fn name_at(alloc: Global, table: &Table, key: &'static str) -> Result<Text, SiteFault>
    ensures { Gives (λ n. n) result (name_at key.now (table_view table.now)) }
{
    let text = text_at(table, key)?;
    if !is_name(text.as_bytes()) {
        return Err(SiteFault::NoName(Quoted::new(text.as_bytes())));
    }
    Ok(copied(alloc, text)?)
}

/// The address at a key.
fn address_at(alloc: Global, table: &Table, key: &'static str) -> Result<Text, SiteFault>
    ensures { Gives (λ a. a) result (text_at key.now (table_view table.now)) }
{
    let text = text_at(table, key)?;
    Ok(copied(alloc, text)?)
}

/// How many queries of a line may wait, which may be missing.
#[tactic(auto, unfolding(crate::specs::SiteFile::outstanding_at))]
fn outstanding_at(table: &Table) -> Result<u8, SiteFault>
    ensures { Gives (λ n. n) result (outstanding_at (table_view table.now)) }
{
    let Some(value) = member(table, "outstanding") else {
        return Ok(MOST_OUTSTANDING);
    };
    match number_in(value, MOST_OUTSTANDING as u32) {
        Ok(0) => Err(SiteFault::of_outstanding(MemberFault::OutOfRange)),
        Ok(count) => Ok(count as u8),
        Err(fault) => Err(SiteFault::of_outstanding(fault)),
    }
}

#[tactic(auto, unfolding(crate::specs::SiteFile::line_in))]
fn line_in(alloc: Global, entry: &Value) -> Result<Line, SiteFault>
    ensures { Gives (λ line. line) result (line_in (view entry.now)) }
{
    let table = entry.as_table().ok_or(SiteFault::NoTable)?;
    let name = name_at(alloc, table, "name")?;
    let address = address_at(alloc, table, "address")?;
    let outstanding = outstanding_at(table)?;
    Ok(Line::new(name, address).with_outstanding(outstanding))
}

fn lines_in(alloc: Global, entries: &[Value]) -> Result<Vec<Line>, SiteError>
    ensures { GivesAt (λ v. v.items) result (each line_in (items_view entries.now)) }
{
    let mut lines = Vec::new(alloc);
    for (index, entry) in entries.iter().enumerate() {
        let line = placed(SitePlace::line(index), line_in(alloc, entry))?;
        lines.push(line)?;
    }
    Ok(lines)
}

fn line_named(lines: &[Line], name: &str) -> Option<u16>
    requires { length lines.now ≤ 64 }
    ensures { result ≡ line_of lines.now name.now }
{
    let place = Line::place(lines, name)?;
    Some(place as u16)
}

/// The model of three numbers.
fn model_of(entries: &[Value]) -> Option<Model>
    ensures { result ≡ model_of (items_view entries.now) }
{
    if entries.len() != 3 {
        return None;
    }
    let Ok(id) = number_in(&entries[0], 65534) else {
        return None;
    };
    let Ok(address) = number_in(&entries[1], 65535) else {
        return None;
    };
    let Ok(length) = number_in(&entries[2], 65535) else {
        return None;
    };
    Some(Model {
        id: id as u16,
        address: address as u16,
        length: length as u16,
    })
}

fn model_in(entry: &Value) -> Option<Model>
    ensures { result ≡ model_in (view entry.now) }
{
    match entry {
        Value::Array(entries) => model_of(entries.as_slice()),
        _ => None,
    }
}

fn models_in(alloc: Global, entries: &[Value]) -> Result<Vec<Model>, SiteFault>
    ensures { Gives (λ v. v.items) result (each model_in (items_view entries.now)) }
{
    let mut models = Vec::new(alloc);
    for (index, entry) in entries.iter().enumerate() {
        let model = model_in(entry).ok_or(SiteFault::NoModel(index + 1))?;
        models.push(model)?;
    }
    Ok(models)
}

#[tactic(auto, unfolding(crate::specs::SiteFile::models_of))]
fn models_of(alloc: Global, table: &Table) -> Result<Items<Model>, SiteFault>
    ensures { Gives (λ models. models) result (models_of (table_view table.now)) }
{
    let entries = optional_entries_at(table, "models")?;
    let models = models_in(alloc, entries)?;
    Ok(Items::from_vec(models))
}

#[tactic(auto, unfolding(crate::specs::SiteFile::device_in))]
fn device_in(alloc: Global, lines: &[Line], entry: &Value) -> Result<Device, SiteFault>
    requires { length lines.now ≤ 64 }
    ensures { Gives (λ d. d) result (device_in lines.now (view entry.now)) }
{
    let table = entry.as_table().ok_or(SiteFault::NoTable)?;
    let name = name_at(alloc, table, "name")?;
    let line = text_at(table, "line")?;
    let place = line_named(lines, line).ok_or(SiteFault::UnknownLine(Quoted::new(
        line.as_bytes(),
    )))?;
    let unit = number_at(table, "unit", 255)?;
    let gap = optional_at(table, "gap", 124)?;
    let models = models_of(alloc, table)?;
    Ok(
        Device::new(alloc, name, place, unit as u8)
            .with_gap(gap as u16)
            .with_models(models),
    )
}

fn devices_in(alloc: Global, lines: &[Line], entries: &[Value]) -> Result<Vec<Device>, SiteError>
    requires { length lines.now ≤ 64 }
    ensures { GivesAt (λ v. v.items) result (each (device_in lines.now) (items_view entries.now)) }
{
    let mut devices = Vec::new(alloc);
    for (index, entry) in entries.iter().enumerate() {
        let device = placed(SitePlace::device(index), device_in(alloc, lines, entry))?;
        devices.push(device)?;
    }
    Ok(devices)
}

#[tactic(auto, unfolding(crate::specs::SiteFile::lines_of))]
fn lines_of(alloc: Global, document: &Table) -> Result<Vec<Line>, SiteError>
    ensures gives { GivesAt (λ v. v.items) result (lines_of (table_view document.now)) }
    ensures few { IfOk result (λ v. length v.items ≤ 64) }
{
    let entries = entries_at(document, "line")?;
    let lines = lines_in(alloc, entries)?;
    if lines.len() > MOST_LINES {
        return Err(SiteFault::TooManyLines.into());
    }
    Ok(lines)
}

#[tactic(auto, unfolding(crate::specs::SiteFile::devices_of))]
fn devices_of(alloc: Global, lines: &[Line], document: &Table) -> Result<Vec<Device>, SiteError>
    requires { length lines.now ≤ 64 }
    ensures { GivesAt (λ v. v.items) result (devices_of lines.now (table_view document.now)) }
{
    let entries = entries_at(document, "device")?;
    devices_in(alloc, lines, entries)
}

/// The site of a document, if it is one.
#[tactic(auto, unfolding(crate::specs::SiteFile::site_of))]
fn site_in(alloc: Global, document: &Table) -> Result<Site, SiteError>
    ensures gives { GivesAt (λ s. s) result (site_of (table_view document.now)) }
    ensures sound { IfOk result (λ s. IsSound s) }
{
    let lines = lines_of(alloc, document)?;
    let devices = devices_of(alloc, lines.as_slice(), document)?;
    match disagreement(lines.as_slice(), devices.as_slice()) {
        Some(e) => Err(e),
        None => Ok(Site::new(lines, devices)),
    }
}

impl Site {
    /// Reads a site file: TOML with the tables `[[line]]` (`name`, `address`, and `outstanding` 1 to 16,
    /// which is 16 if missing) and `[[device]]` (`name`, `line`, `unit` 0 to 255, `gap` 0 to 124, which
    /// is 0 if missing, and `models`, which may be missing: of each model its identifier 0 to 65,534,
    /// its address and its length). Other members are ignored. It is refused where the text is no TOML, a member is missing or ill-typed,
    /// a name is used twice, a line is unknown, two devices share line and unit identifier, a model
    /// passes the last address but one, or there are more than `MOST_LINES` lines or `MOST_DEVICES`
    /// devices. `docs/FORMATS.md` has an example.
    pub fn from_toml(alloc: Global, bytes: &[u8]) -> Result<Site, SiteError>
        // What is read is the site of the document that the bytes are.
        ensures site { IfOk result (λ s. (doc : Members) × IsDocument bytes.now doc × (site_of doc ≡ Some s)) }
        ensures sound { IfOk result (λ s. IsSound s) }
        // The bytes are refused for want of memory, or where they are no document that is a site.
        ensures none { IfErr result (λ e. e.fault ≢ SiteFault.Memory → (doc : Members) → IsDocument bytes.now doc → site_of doc ≡ None) }
    {
        match document(alloc, bytes) {
            Ok(document) => site_in(alloc, &document),
            Err(DocumentError::NotToml(line)) => Err(SiteFault::NotToml(line).into()),
            Err(DocumentError::Memory) => Err(SiteFault::Memory.into()),
        }
    }
}

/// The same, where the place of the fault isn't asked for.
pub fn read_site(alloc: Global, bytes: &[u8]) -> Result<Site, ListError>
    ensures site { IfOk result (λ s. (doc : Members) × IsDocument bytes.now doc × (site_of doc ≡ Some s)) }
    ensures sound { IfOk result (λ s. IsSound s) }
    ensures refused { IfErr result (λ e. (e ≡ no_memory) ⊎ (e ≡ bad_site)) }
    ensures none { IfErr result (λ e. e ≡ bad_site → (doc : Members) → IsDocument bytes.now doc → site_of doc ≡ None) }
{
    match Site::from_toml(alloc, bytes) {
        Ok(site) => Ok(site),
        Err(e) if e.is_memory() => Err(ListError::memory()),
        Err(_) => Err(ListError::of_whole(ListFault::BadSite)),
    }
}
