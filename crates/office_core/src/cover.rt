//! Which points a read covers, and what a reply gives to them.
ghost use Rattle.std.specs.Prelude.{◌≡◌, ◌&&◌, ◌≤◌, ◌<◌, ◌+◌, ◌∷◌, [], true, false, ℕ, List, IfOk, length, take, drop, get_or};
ghost use Rattle.sunspec.specs.PointType.{row};
ghost use Rattle.poll_book.specs.declared.rows.PointRow.{PointRow as ARow};
ghost use Rattle.office_core.specs.Cover as cover;
ghost use Rattle.office_core.specs.ByDevice.{AreDevicesOf, AreTheirs, points_at, places_from};
ghost use Rattle.office_core.specs.Cover.{Brings};

use crate::by_device::ByDevice;
use mb_pdu::{Bits, Registers, Reply, Table};
use point_list::{Point, Site, is_same_name};
use poll_book::PointRow;
use read_planner::Read;
use std::alloc::{AllocError, Global};

/// A read that was asked: of the device at this place of the site, for this slot, when so many points
/// were known.
#[derive(Clone, Copy)]
pub(crate) struct Asking {
    pub(crate) device: u16,
    pub(crate) slot: u32,
    pub(crate) read: Read,
    pub(crate) known: u32,
}

fn reads_table(function: u8, table: Table) -> bool
    ensures { result ≡ cover.reads_table function table }
{
    match table {
        Table::Coil => function == 1,
        Table::Discrete => function == 2,
        Table::Holding => function == 3,
        Table::Input => function == 4,
    }
}

fn has_size(table: Table, count: u16) -> bool
    ensures { result ≡ cover.has_size table count }
{
    match table {
        Table::Coil | Table::Discrete => count == 1,
        Table::Holding | Table::Input => count >= 1,
    }
}

fn lies_in(read: &Read, address: u16, count: u16) -> bool
    ensures { result ≡ cover.lies_in read.now address count }
{
    let end = read.span.start as u32 + read.span.quantity as u32;
    read.span.start <= address && address as u32 + count as u32 <= end
}

/// Whether the read has the cell at an address. It costs less than the point's length.
fn starts_in(read: &Read, address: u16) -> bool
    ensures { result ≡ cover.lies_in read.now address 1 }
{
    lies_in(read, address, 1)
}

/// The point is of the table that is read and lies whole in the read.
fn lies_whole(read: &Read, point: &Point) -> bool
    ensures { result ≡ (cover.reads_table read.now.function point.now.table
        && (cover.has_size point.now.table (row point.now.kind).registers && cover.lies_in read.now point.now.address (row point.now.kind).registers)) }
{
    let count = point.kind.registers();
    reads_table(read.function, point.table)
        && has_size(point.table, count)
        && lies_in(read, point.address, count)
}

/// The point is of the device and of the table that is read, and lies whole in the read.
// Each reply tries all points of its device that were known, or all that were, most of which `starts_in` rejects.
#[inline(always)]
pub(crate) fn covers(device: &[u8], read: &Read, point: &Point) -> bool
    ensures { result ≡ cover.covers device.now read.now point.now }
{
    starts_in(read, point.address)
        && is_same_name(point.device.as_bytes(), device)
        && lies_whole(read, point)
}

fn ends_in_time(read: &Read) -> bool
    ensures { result ≡ cover.ends_in_time read.now }
{
    read.span.start as u32 + read.span.quantity as u32 <= 65536
}

fn some_covered(known: &[PointRow], device: &[u8], read: &Read) -> bool
    ensures { result ≡ cover.some_covered known.now device.now read.now }
{
    known.iter().any(|point| covers(device, read, &point.point))
}

/// Whether a read covers the point at a place, if there is one.
fn covers_at(known: &[PointRow], place: u32, device: &[u8], read: &Read) -> bool
    ensures { result ≡ cover.some_covered (points_at known.now (place ∷ [])) device.now read.now }
{
    match known.get(place as usize) {
        Some(point) => covers(device, read, &point.point),
        None => false,
    }
}

fn some_covered_at(known: &[PointRow], places: &[u32], device: &[u8], read: &Read) -> bool
    requires { places.now ≡ places_from 0 device.now known.now }
    ensures { result ≡ cover.some_covered known.now device.now read.now }
{
    for place in places {
        if covers_at(known, *place, device, read) {
            return true;
        }
    }
    false
}

/// Whether a read covers some known point.
fn is_covered(known: &[PointRow], devices: &ByDevice, device: &[u8], read: &Read) -> bool
    requires { AreDevicesOf known.now devices.now }
    ensures { result ≡ cover.some_covered known.now device.now read.now }
{
    match devices.places(known, device) {
        Some(places) => some_covered_at(known, places, device, read),
        None => some_covered(known, device, read),
    }
}

/// A valid read that ends by the last address and holds a known point of the device whole.
pub(crate) fn is_readable(
    known: &[PointRow],
    devices: &ByDevice,
    device: &[u8],
    read: &Read,
) -> bool
    requires { AreDevicesOf known.now devices.now }
    ensures { result ≡ cover.is_readable known.now device.now read.now }
{
    read.is_valid() && ends_in_time(read) && is_covered(known, devices, device, read)
}

fn registers_at(words: &Registers, start: usize, count: usize) -> Registers
    requires some { 0 < count }
    requires within { start + count ≤ length words.now }
    ensures { result ≡ take count (drop start words.now) }
{
    match Registers::from_slice(&words.as_slice()[start..start + count]) {
        Some(words) => words,
        None => unreachable!(),
    }
}

fn cell_at(bits: &Bits, place: usize) -> Registers
    requires { place < length bits.now }
    ensures { result ≡ cover.one_or_zero (get_or bits.now place false) ∷ [] }
{
    match Registers::from_slice(&[bits.as_slice()[place] as u16]) {
        Some(words) => words,
        None => unreachable!(),
    }
}

/// A point's words at its place in a reply.
fn words_in(read: &Read, reply: &Reply, point: &Point) -> Registers
    requires brings { Brings read.now reply.now }
    requires covered { cover.covers point.now.device read.now point.now ≡ true }
    ensures { result ≡ cover.words_in read.now (cover.reply_cells reply.now) point.now }
{
    let start = (point.address - read.span.start) as usize;
    match reply {
        Reply::Registers(words) => registers_at(words, start, point.kind.registers() as usize),
        Reply::Bits(bits) => cell_at(bits, start),
        _ => unreachable!(),
    }
}

/// What a reply gives to those of these points that its query covers.
fn covered(
    alloc: Global,
    known: &[PointRow],
    device: &[u8],
    read: &Read,
    reply: &Reply,
) -> Result<Vec<(PointRow, Registers)>, AllocError>
    requires { Brings read.now reply.now }
    ensures rows { IfOk result (λ rows. rows.items ≡ cover.given_of known.now device.now read.now (cover.reply_cells reply.now)) }
    ensures few { IfOk result (λ rows. length rows.items ≤ length known.now) }
{
    let most = known.len().min(read.span.quantity as usize);
    let mut rows = Vec::with_capacity(alloc, most)?;
    for point in known {
        if covers(device, read, &point.point) {
            rows.push((*point, words_in(read, reply, &point.point)))?;
        }
    }
    Ok(rows)
}

/// The same of the points at these places.
fn covered_at(
    alloc: Global,
    known: &[PointRow],
    places: &[u32],
    device: &[u8],
    read: &Read,
    reply: &Reply,
) -> Result<Vec<(PointRow, Registers)>, AllocError>
    requires { Brings read.now reply.now }
    ensures { IfOk result (λ rows. rows.items ≡ cover.given_of (points_at known.now places.now) device.now read.now (cover.reply_cells reply.now)) }
{
    let most = places.len().min(read.span.quantity as usize);
    let mut rows = Vec::with_capacity(alloc, most)?;
    for place in places {
        if let Some(point) = known.get(*place as usize) {
            if covers(device, read, &point.point) {
                rows.push((*point, words_in(read, reply, &point.point)))?;
            }
        }
    }
    Ok(rows)
}

/// Those of rising places that stand before so many points.
fn before(places: &[u32], count: usize) -> &[u32]
    ensures { (known : List ARow) (device : List ℕ) → places.now ≡ places_from 0 device known → points_at (take count known) result.now ≡ points_at (take count known) places.now }
{
    &places[..places.partition_point(|place| (*place as usize) < count)]
}

/// What a reply gives to the points that its query covers, of those the first `count` ones, that were known.
fn covered_of(
    alloc: Global,
    known: &[PointRow],
    devices: &ByDevice,
    count: usize,
    device: &[u8],
    read: &Read,
    reply: &Reply,
) -> Result<Vec<(PointRow, Registers)>, AllocError>
    requires devices { AreDevicesOf known.now devices.now }
    requires brings { Brings read.now reply.now }
    requires few { count ≤ length known.now }
    ensures { IfOk result (λ rows. rows.items ≡ cover.given_of (take count known.now) device.now read.now (cover.reply_cells reply.now)) }
{
    match devices.places(known, device) {
        Some(places) => {
            let places = before(places, count);
            covered_at(alloc, &known[..count], places, device, read, reply)
        }
        None => covered(alloc, &known[..count], device, read, reply),
    }
}

/// What a reply gives to the points that a read covers.
pub(crate) fn covered_by(
    alloc: Global,
    site: &Site,
    known: &[PointRow],
    devices: &ByDevice,
    asking: &Asking,
    reply: &Reply,
) -> Result<Vec<(PointRow, Registers)>, AllocError>
    requires devices { AreDevicesOf known.now devices.now }
    requires brings { Brings asking.now.read reply.now }
    ensures rows { IfOk result (λ rows. rows.items ≡ cover.given_at site.now known.now asking.now (cover.reply_cells reply.now)) }
    ensures few { IfOk result (λ rows. length rows.items ≤ length known.now) }
{
    let count = known.len().min(asking.known as usize);
    match site.devices.as_slice().get(asking.device as usize) {
        Some(device) => {
            let name = device.name.as_bytes();
            covered_of(alloc, known, devices, count, name, &asking.read, reply)
        }
        None => Ok(Vec::new(alloc)),
    }
}
