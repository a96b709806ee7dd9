//! What a record of a list says, or its first fault.
ghost use Rattle.std.specs.Prelude.{◌≡◌, ℕ, List, length, None, Some, IfOk, IfErr, if◌then◌else◌, true};
ghost use Rattle.std.specs.List.{All};
ghost use Rattle.csv.specs.Records.{fields_of};
ghost use Rattle.point_list.specs.Label.{is_label};
ghost use Rattle.point_list.specs.DeviceNames.{has_device};
ghost use Rattle.point_list.specs.Lists.{SaysRow, ends_in_time, fault_below, first_failed, meaning_checks, place_checks, names_of, table_in};
ghost use Rattle.point_list.specs.Judged.{SaysPlace, SaysMeaning, fault_of_name};

use crate::columns::{
    address_unless, field_of, is_left_out, model_in, order_in, role_in, roll_in, scale_in,
    table_named, type_named, type_sized,
};
use crate::device_names::DeviceNames;
use crate::error::ListFault;
use crate::label::Label;
use crate::list::MOST_POINTS;
use crate::name::Name;
use crate::naming::is_same_name;
use crate::point::{ListRow, Point, Role};
use csv::ByteRecord;
use mb_pdu::Table;
use sunspec::{PointType, WordOrder};

/// Columns 1 to 4: where a point is.
#[derive(Clone, Copy)]
pub(crate) struct Place {
    name: Name,
    device: Label,
    table: Table,
    address: u16,
    model: Option<(u16, u16)>,
}

/// Columns 5 to 10: what a point means.
#[derive(Clone, Copy)]
pub(crate) struct Meaning {
    kind: PointType,
    scale: i8,
    role: Role,
    roll: u64,
    order: WordOrder,
}

/// The device of this name, if there is one. Mostly it is that of the row before, which needn't be looked for
/// again.
fn device_named(devices: &DeviceNames<'_>, rows: &[ListRow], text: &[u8]) -> Option<Label>
    requires labels { has_device devices.now text.now ≡ true → is_label text.now ≡ true }
    requires rows { All (λ row. has_device devices.now row.point.device ≡ true) rows.now }
    ensures { result ≡ (if has_device devices.now text.now then Some text.now else None) }
{
    if let Some(row) = rows.last()
        && is_same_name(row.point.device.as_bytes(), text)
    {
        return Some(row.point.device);
    }
    if !devices.has(text) {
        return None;
    }
    match Label::new(text) {
        Some(label) => Some(label),
        None => unreachable!(),
    }
}

#[tactic(auto, unfolding(crate::specs::Lists::table_in, crate::specs::Lists::model_in, crate::specs::Lists::address_in))]
fn place_in(
    columns: usize,
    devices: &DeviceNames<'_>,
    rows: &[ListRow],
    record: &ByteRecord,
) -> Result<Place, (ListFault, u8)>
    requires devices { (text : List ℕ) → has_device devices.now text ≡ true → is_label text ≡ true }
    requires rows { All (λ row. has_device devices.now row.point.device ≡ true) rows.now }
    ensures place { IfOk result (λ x. (first_failed (place_checks columns (has_device devices.now) (length rows.now) (fields_of record.now)) ≡ None)
        × SaysPlace (fields_of record.now) x) }
    ensures fault { IfErr result (λ e. first_failed (place_checks columns (has_device devices.now) (length rows.now) (fields_of record.now)) ≡ Some e) }
{
    if record.len() != columns {
        return Err((ListFault::BadCsv, 0));
    }
    if rows.len() >= MOST_POINTS {
        return Err((ListFault::TooManyPoints, 0));
    }
    let Some(name) = Name::new(field_of(record, 0)) else {
        return Err((ListFault::BadName, 1));
    };
    let Some(device) = device_named(devices, rows, field_of(record, 1)) else {
        return Err((ListFault::UnknownDevice, 2));
    };
    let Some(table) = table_named(field_of(record, 2)) else {
        return Err((ListFault::BadTable, 3));
    };
    let model = model_in(table, field_of(record, 3));
    let Some(address) = address_unless(model, field_of(record, 3)) else {
        return Err((ListFault::BadAddress, 4));
    };
    Ok(Place {
        name,
        device,
        table,
        address,
        model,
    })
}

#[tactic(auto, unfolding(crate::specs::Lists::name_of_type_in, crate::specs::Lists::type_in, crate::specs::Lists::scale_in, crate::specs::Lists::role_in, crate::specs::Lists::roll_in, crate::specs::Lists::order_in))]
fn meaning_in(table: Table, record: &ByteRecord) -> Result<Meaning, (ListFault, u8)>
    requires { table_in (fields_of record.now) ≡ Some table }
    ensures meaning { IfOk result (λ x. (first_failed (meaning_checks (fields_of record.now)) ≡ None) × SaysMeaning (fields_of record.now) x) }
    ensures fault { IfErr result (λ e. first_failed (meaning_checks (fields_of record.now)) ≡ Some e) }
{
    if is_left_out(field_of(record, 4)) {
        return Err((ListFault::LeftOutType, 5));
    }
    let Some(kind) = type_named(table, field_of(record, 4)) else {
        return Err((ListFault::BadType, 5));
    };
    let Some(kind) = type_sized(kind, field_of(record, 5)) else {
        return Err((ListFault::BadLength, 6));
    };
    let Some(scale) = scale_in(kind, field_of(record, 6)) else {
        return Err((ListFault::BadScale, 7));
    };
    let Some(role) = role_in(table, kind, field_of(record, 7)) else {
        return Err((ListFault::BadRole, 8));
    };
    let Some(roll) = roll_in(kind, role, field_of(record, 8)) else {
        return Err((ListFault::BadRoll, 9));
    };
    let Some(order) = order_in(kind, field_of(record, 9)) else {
        return Err((ListFault::BadWords, 10));
    };
    Ok(Meaning {
        kind,
        scale,
        role,
        roll,
        order,
    })
}

/// Whether the point ends by the last address.
fn ends_in_time(address: u16, kind: PointType) -> bool
    ensures { result ≡ ends_in_time (Some address) (Some kind) }
{
    address as u32 + kind.registers() as u32 <= 65536
}

/// The row of a record of this number below so many columns and these rows, or its first fault. Its name
/// is left to check among those of the rows, which is the last check of a record.
#[tactic(auto, unfolding(crate::specs::Lists::fault_below))]
pub(crate) fn row_in(
    columns: usize,
    devices: &DeviceNames<'_>,
    rows: &[ListRow],
    number: u32,
    record: &ByteRecord,
) -> Result<ListRow, (ListFault, u8)>
    requires devices { (text : List ℕ) → has_device devices.now text ≡ true → is_label text ≡ true }
    requires rows { All (λ row. has_device devices.now row.point.device ≡ true) rows.now }
    ensures row { IfOk result (λ x. (fault_below columns (has_device devices.now) (names_of rows.now) (fields_of record.now) ≡ fault_of_name (names_of rows.now) (fields_of record.now))
        × SaysRow number (fields_of record.now) x) }
    ensures fault { IfErr result (λ e. fault_below columns (has_device devices.now) (names_of rows.now) (fields_of record.now) ≡ Some e) }
{
    let place = place_in(columns, devices, rows, record)?;
    let meaning = meaning_in(place.table, record)?;
    if !ends_in_time(place.address, meaning.kind) {
        return Err((ListFault::BadAddress, 4));
    }
    let point = Point {
        name: place.name,
        device: place.device,
        table: place.table,
        address: place.address,
        kind: meaning.kind,
        scale: meaning.scale,
        role: meaning.role,
        roll: meaning.roll,
        order: meaning.order,
    };
    Ok(ListRow {
        row: number,
        point,
        model: place.model,
    })
}
