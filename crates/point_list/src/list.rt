//! Point lists, as CSV.
ghost use Rattle.std.specs.Prelude.{◌≡◌, ◌≢◌, ◌⊎◌, ℕ, List, Some, IfOk, IfErr, map, true};
ghost use Rattle.csv.specs.Records.{fields_of};
ghost use Rattle.point_list.specs.Label.{is_label};
ghost use Rattle.point_list.specs.Columns.{is_device};
ghost use Rattle.point_list.specs.DeviceNames.{has_device};
ghost use Rattle.point_list.specs.Lists.{AreRows, IsFaultOf, FaultlessBelow, IsFirstInBody, IsMemory, SayRows, records_of};
ghost use Rattle.point_list.specs.Edition.{Second};
ghost use Rattle.point_list.specs.Header.{begins_as_header, is_header, is_header_with_words, is_plain_header};
ghost use Rattle.std.specs.Prelude.{length};

use crate::columns::field_of;
use crate::device_names::DeviceNames;
use crate::error::{ListError, ListFault};
use crate::judge::row_in;
use crate::point::ListRow;
use crate::records::records;
use crate::site::Site;
use crate::texts::Texts;
use csv::ByteRecord;
use std::alloc::Global;

/// The most points of a list.
pub const MOST_POINTS: usize = 10_000;

/// Whether a record begins with the columns that each list has.
fn begins_as_header(record: &ByteRecord) -> bool
    ensures { result ≡ begins_as_header (fields_of record.now) }
{
    field_of(record, 0) == b"name".as_slice()
        && field_of(record, 1) == b"device".as_slice()
        && field_of(record, 2) == b"table".as_slice()
        && field_of(record, 3) == b"address".as_slice()
        && field_of(record, 4) == b"type".as_slice()
        && field_of(record, 5) == b"length".as_slice()
        && field_of(record, 6) == b"scale".as_slice()
        && field_of(record, 7) == b"role".as_slice()
        && field_of(record, 8) == b"roll".as_slice()
}

fn is_plain_header(record: &ByteRecord) -> bool
    ensures { result ≡ is_plain_header (fields_of record.now) }
{
    record.len() == 9 && begins_as_header(record)
}

fn is_header_with_words(record: &ByteRecord) -> bool
    ensures { result ≡ is_header_with_words (fields_of record.now) }
{
    record.len() == 10 && begins_as_header(record) && field_of(record, 9) == b"words".as_slice()
}

/// Whether a record is a header: one with the column of orders, or one without it.
fn is_header(record: &ByteRecord) -> bool
    ensures { result ≡ is_header Second (fields_of record.now) }
{
    is_plain_header(record) || is_header_with_words(record)
}

/// The rows of a body of records below so many columns, or its first fault.
fn rows_of(
    alloc: Global,
    columns: usize,
    devices: &DeviceNames<'_>,
    body: &[ByteRecord],
) -> Result<Vec<ListRow>, ListError>
    requires { (text : List ℕ) → has_device devices.now text ≡ true → is_label text ≡ true }
    ensures rows { IfOk result (λ v. FaultlessBelow columns (has_device devices.now) (map fields_of body.now) (length (map fields_of body.now))
        × SayRows 2 (map fields_of body.now) v.items) }
    ensures fault { IfErr result (λ e. IsMemory e ⊎ IsFirstInBody columns (has_device devices.now) (map fields_of body.now) e) }
{
    let mut rows = Vec::new(alloc);
    // Room for all at once; where that is refused, it is asked for as rows come.
    let _ = rows.reserve(body.len().min(MOST_POINTS));
    let mut names = Texts::new(alloc);
    let mut number = 2;
    for record in body {
        let row = match row_in(columns, devices, rows.as_slice(), number, record) {
            Ok(row) => row,
            Err((fault, column)) => return Err(ListError::new(fault, number, column)),
        };
        let is_new = match names.add(field_of(record, 0)) {
            Ok(is_new) => is_new,
            Err(_) => return Err(ListError::memory()),
        };
        if !is_new {
            return Err(ListError::new(ListFault::Twice, number, 1));
        }
        if rows.push(row).is_err() {
            return Err(ListError::memory());
        }
        number += 1;
    }
    Ok(rows)
}

/// The rows of a list of records, or its first fault.
fn rows_in(alloc: Global, site: &Site, list: &[ByteRecord]) -> Result<Vec<ListRow>, ListError>
    ensures rows { IfOk result (λ v. AreRows Second (is_device site.now) (map fields_of list.now) v.items) }
    ensures fault { IfErr result (λ e. IsMemory e ⊎ IsFaultOf Second (is_device site.now) (map fields_of list.now) e) }
{
    let Some((first, body)) = list.split_first() else {
        return Err(ListError::new(ListFault::BadHeader, 1, 0));
    };
    if !is_header(first) {
        return Err(ListError::new(ListFault::BadHeader, 1, 0));
    }
    let devices = match DeviceNames::of(alloc, site.devices.as_slice(), body.len()) {
        Ok(devices) => devices,
        Err(_) => return Err(ListError::memory()),
    };
    match rows_of(alloc, first.len(), &devices, body) {
        Ok(rows) => Ok(rows),
        Err(e) => Err(e),
    }
}

/// The rows of a point list in the order of its records, or the first fault of its first faulty
/// record. The list is CSV as the crate `csv` reads it by default, a byte order mark in front
/// dropped; its first record is
/// `name,device,table,address,type,length,scale,role,roll`, and may have `words` behind that. A record
/// is checked for its number of fields, which is its header's, then for how many points stand before it, then column by column, then for its range of
/// addresses, then for a name that stands earlier. At most `MOST_POINTS` points. `docs/FORMATS.md` has
/// the columns, the point types and each fault with an example.
pub fn read_list(alloc: Global, bytes: &[u8], site: &Site) -> Result<Vec<ListRow>, ListError>
    ensures rows { IfOk result (λ v. AreRows Second (is_device site.now) (records_of bytes.now) v.items) }
    ensures fault { IfErr result (λ e. IsMemory e ⊎ IsFaultOf Second (is_device site.now) (records_of bytes.now) e) }
{
    match records(alloc, bytes) {
        Ok(list) => rows_in(alloc, site, list.as_slice()),
        Err(_) => Err(ListError::memory()),
    }
}
