//! Reading the columns of a record.
ghost use Rattle.std.specs.Prelude.{◌≡◌, ◌≤◌, ◌-◌, ◌^◌, ◌==◌};
ghost use Rattle.std.specs.List.{list_any, position};
ghost use Rattle.std.specs.Str.{bytes_eq};
ghost use Rattle.csv.specs.Records.{fields_of};
ghost use Rattle.sunspec.specs.PointType.{IsSized, named};
ghost use Rattle.point_list.specs.Columns.{field, table_of, address_of, address_unless, by_model, model_id_of, model_of, parts_of, is_left_out, in_table, named_in, sized, scaled_by, can_be_written, role_of, roll_of, roll_given, scale_in, greatest_of, order_of};

use crate::point::Role;
use csv::ByteRecord;
use mb_pdu::Table;
use std::str;
use sunspec::{PointType, WordOrder, digits};

/// The field of a record at a place, or nothing.
pub(crate) fn field_of(record: &ByteRecord, place: usize) -> &[u8]
    ensures { result.now ≡ field (fields_of record.now) place }
{
    match record.get(place) {
        Some(text) => text,
        None => b"",
    }
}

pub(crate) fn table_named(text: &[u8]) -> Option<Table>
    ensures { result ≡ table_of text.now }
{
    if text == b"coil".as_slice() {
        Some(Table::Coil)
    } else if text == b"discrete".as_slice() {
        Some(Table::Discrete)
    } else if text == b"input".as_slice() {
        Some(Table::Input)
    } else if text == b"holding".as_slice() {
        Some(Table::Holding)
    } else {
        None
    }
}

fn address_in(text: &[u8]) -> Option<u16>
    ensures { result ≡ address_of text.now }
{
    match digits::number(text, 5, 65535) {
        Some(address) => Some(address as u16),
        None => None,
    }
}

/// The identifier of a model; 65,535 is that of the end.
fn model_id_in(text: &[u8]) -> Option<u16>
    ensures { result ≡ model_id_of text.now }
{
    match digits::number(text, 5, 65534) {
        Some(id) if id >= 1 => Some(id as u16),
        _ => None,
    }
}

fn plus_in(text: &[u8]) -> Option<usize>
    ensures { result ≡ position (λ byte. byte == 43) text.now }
{
    text.iter().position(|byte| *byte == b'+')
}

/// The identifier of a model and an offset in it, with a plus between them.
#[tactic(auto, unfolding(crate::specs::Columns::parts_of))]
fn parts_in(text: &[u8]) -> Option<(u16, u16)>
    ensures { result ≡ parts_of text.now }
{
    let Some(at) = plus_in(text) else {
        return None;
    };
    let Some(id) = model_id_in(&text[..at]) else {
        return None;
    };
    let Some(offset) = address_in(&text[at + 1..]) else {
        return None;
    };
    Some((id, offset))
}

/// The same behind an `m`.
fn by_model(text: &[u8]) -> Option<(u16, u16)>
    ensures { result ≡ by_model text.now }
{
    match text.split_first() {
        Some((first, rest)) if *first == b'm' => parts_in(rest),
        _ => None,
    }
}

/// The place by model that an address of holding registers may be: the identifier and the offset.
pub(crate) fn model_in(table: Table, text: &[u8]) -> Option<(u16, u16)>
    ensures { result ≡ model_of table text.now }
{
    match table {
        Table::Holding => by_model(text),
        _ => None,
    }
}

/// The address of its column: 0 for a place by model.
pub(crate) fn address_unless(model: Option<(u16, u16)>, text: &[u8]) -> Option<u16>
    ensures { result ≡ address_unless model text.now }
{
    match model {
        Some(_) => Some(0),
        None => address_in(text),
    }
}

/// Whether this is one of SunSpec's types that the office leaves out.
pub(crate) fn is_left_out(text: &[u8]) -> bool
    ensures { result ≡ is_left_out text.now }
{
    text == b"float32".as_slice()
        || text == b"float64".as_slice()
        || text == b"eui48".as_slice()
        || text == b"ipv6addr".as_slice()
        || text == b"count".as_slice()
        || text == b"raw16".as_slice()
        || text == b"pad".as_slice()
}

/// A type where it may stand: a bit exactly in the tables of bits.
fn in_table(table: Table, kind: PointType) -> Option<PointType>
    ensures { result ≡ in_table table kind }
{
    let of_bits = matches!(table, Table::Coil | Table::Discrete);
    let is_bit = matches!(kind, PointType::Bit);
    if of_bits == is_bit { Some(kind) } else { None }
}

/// The type of a name, which a field that is no text can't be.
fn kind_named(text: &[u8]) -> Option<PointType>
    ensures { result ≡ named text.now }
{
    match str::from_utf8(text) {
        Ok(name) => PointType::from_name(name),
        Err(_) => None,
    }
}

/// The type of a name in a table, a string as one of one register.
#[tactic(auto, unfolding(crate::specs::Columns::named_in))]
pub(crate) fn type_named(table: Table, text: &[u8]) -> Option<PointType>
    ensures { result ≡ named_in table text.now }
{
    match kind_named(text) {
        Some(kind) => in_table(table, kind),
        None => None,
    }
}

/// The type with the length of its column: empty for all but strings, or the number of registers.
#[tactic(auto, unfolding(crate::specs::Columns::sized))]
pub(crate) fn type_sized(kind: PointType, text: &[u8]) -> Option<PointType>
    ensures { result ≡ sized kind text.now }
{
    if text.is_empty() {
        return match kind {
            PointType::Str(_) => None,
            kind => Some(kind),
        };
    }
    match digits::within(text, 125) {
        Some(registers) => kind.with_registers(registers as u16),
        None => None,
    }
}

fn scale_text(text: &[u8]) -> Option<i8>
    ensures { result ≡ scale_in text.now }
{
    if text.is_empty() {
        Some(0)
    } else {
        digits::scale(text)
    }
}

/// The scale of its column, 0 where it is empty or the type has none.
#[tactic(auto, unfolding(crate::specs::Columns::scaled_by))]
pub(crate) fn scale_in(kind: PointType, text: &[u8]) -> Option<i8>
    ensures { result ≡ scaled_by kind text.now }
{
    match scale_text(text) {
        Some(scale) => {
            if kind.is_scaled() || scale == 0 {
                Some(scale)
            } else {
                None
            }
        }
        None => None,
    }
}

fn can_be_written(table: Table) -> bool
    ensures { result ≡ can_be_written table }
{
    matches!(table, Table::Coil | Table::Holding)
}

/// The role of a text, as far as the table and the type can have it.
#[tactic(auto, unfolding(crate::specs::Columns::role_of))]
pub(crate) fn role_in(table: Table, kind: PointType, text: &[u8]) -> Option<Role>
    ensures { result ≡ role_of table kind text.now }
{
    if text == b"gauge".as_slice() {
        Some(Role::Gauge)
    } else if text == b"counter".as_slice() {
        if kind.counts() {
            Some(Role::Counter)
        } else {
            None
        }
    } else if text == b"setting".as_slice() {
        if can_be_written(table) && kind.can_be_set() {
            Some(Role::Setting)
        } else {
            None
        }
    } else {
        None
    }
}

fn roll_given(greatest: u64, text: &[u8]) -> Option<u64>
    ensures { result ≡ roll_given greatest text.now }
{
    if text.is_empty() {
        return Some(greatest);
    }
    match digits::number(text, 20, greatest as u128) {
        Some(roll) if roll >= 1 => Some(roll as u64),
        _ => None,
    }
}

/// The roll of its column: a counter's, the greatest number of its bits where it is empty; 0 for
/// other points, whose column is empty.
#[tactic(auto, unfolding(crate::specs::Columns::roll_of))]
pub(crate) fn roll_in(kind: PointType, role: Role, text: &[u8]) -> Option<u64>
    ensures { result ≡ roll_of kind role text.now }
{
    match role {
        Role::Counter => roll_given(kind.greatest(), text),
        Role::Gauge | Role::Setting => { if text.is_empty() { Some(0) } else { None } }
    }
}

/// The order of the registers of its column, as far as the type can have it: the most significant one
/// first where it is empty.
#[tactic(auto, unfolding(crate::specs::Columns::order_of))]
pub(crate) fn order_in(kind: PointType, text: &[u8]) -> Option<WordOrder>
    ensures { result ≡ order_of kind text.now }
{
    if text.is_empty() || text == b"big".as_slice() {
        Some(WordOrder::Big)
    } else if text == b"swapped".as_slice() {
        if kind.can_be_swapped() {
            Some(WordOrder::Swapped)
        } else {
            None
        }
    } else {
        None
    }
}
