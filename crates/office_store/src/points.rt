//! The table of points.

ghost use Rattle.std.specs.Prelude.{◌≡◌, ◌↔◌, false, pos, IfErr, IfOk, IsTrue, OnOk, Some, map, option_and_then, option_map};
ghost use Rattle.sqlite.specs.Held.{state};
ghost use Rattle.sqlite.specs.State.{HasCleanDisk};
ghost use Rattle.sqlite_value.specs.Value.{owned};
ghost use Rattle.sqlite_value.specs.Order.{column};
ghost use Rattle.point_list.specs.Name.{is_name};
ghost use Rattle.point_list.specs.Label.{is_label};
ghost use Rattle.poll_book.specs.Orders.{point_at};
ghost use Rattle.poll_book.specs.Tables.{Tables};
ghost use Rattle.office_store.specs.Kept.{Holds, Keeps};
ghost use Rattle.sunspec.specs.Text.{IsScale};
ghost use Rattle.point_list.specs.Columns.{is_scaled};
ghost use Rattle.office_store.specs.Swaps.{AreInOrder, plain};
ghost use Rattle.office_store.specs.Faults.{IsOfForm};
ghost use Rattle.office_store.specs.Rows.{CanBeListed, can_be, can_roll_at, described, holds, kind_of, number_below, role_coded, shown_point, table_coded, text_that};

use crate::ask::ask;
use crate::error::fault_of;
use crate::from_row::{FromRow, all_of};
use crate::swaps::{all_swaps, with_swaps};
use crate::values::{address_of, byte_of, long_of, number_of, small_of, value_at};
use mb_pdu::Table;
use point_list::{Label, Name, Point, Role};
use poll_book::{PointRow, StoreFault};
use sqlite::types::ValueRef;
use sqlite::{Alter, Connection, Row, params};
use std::alloc::Global;
use sunspec::{PointType, WordOrder};

fn name_of(value: ValueRef<'_>) -> Option<Name>
    ensures { result ≡ text_that is_name (owned value.entry) }
{
    match value {
        ValueRef::Text(text) => Name::new(text),
        _ => None,
    }
}

fn label_of(value: ValueRef<'_>) -> Option<Label>
    ensures { result ≡ text_that is_label (owned value.entry) }
{
    match value {
        ValueRef::Text(text) => Label::new(text),
        _ => None,
    }
}

fn table_of(value: ValueRef<'_>) -> Option<Table>
    ensures { result ≡ option_and_then table_coded (number_below 256 (owned value.entry)) }
{
    match byte_of(value)? {
        1 => Some(Table::Coil),
        2 => Some(Table::Discrete),
        3 => Some(Table::Holding),
        4 => Some(Table::Input),
        _ => None,
    }
}

fn role_of(value: ValueRef<'_>) -> Option<Role>
    ensures { result ≡ option_and_then role_coded (number_below 256 (owned value.entry)) }
{
    match byte_of(value)? {
        1 => Some(Role::Gauge),
        2 => Some(Role::Counter),
        3 => Some(Role::Setting),
        _ => None,
    }
}

fn kind_of(kind: ValueRef<'_>, len: ValueRef<'_>) -> Option<PointType>
    ensures { result ≡ kind_of (owned kind.entry) (owned len.entry) }
{
    let code = byte_of(kind)?;
    let registers = byte_of(len)?;
    match PointType::from_code(code)? {
        PointType::Str(_) => Some(PointType::Str(registers)),
        kind => {
            if kind.registers() == u16::from(registers) {
                Some(kind)
            } else {
                None
            }
        }
    }
}

fn described(name: Name, device: Label, row: &Row) -> Option<Point>
    ensures { result ≡ described name device (column row.now 3) (column row.now 4) (column row.now 5) (column row.now 6) (column row.now 7) (column row.now 8) (column row.now 9) }
{
    Some(Point {
        name,
        device,
        table: table_of(value_at(row, 3))?,
        address: address_of(value_at(row, 4))?,
        kind: kind_of(value_at(row, 5), value_at(row, 6))?,
        scale: small_of(value_at(row, 7))?,
        role: role_of(value_at(row, 8))?,
        roll: long_of(value_at(row, 9))?,
        order: WordOrder::Big,
    })
}

/// The point that a row of an answer stands for, if it is in the form.
fn point_of(row: &Row) -> Option<PointRow>
    ensures { result ≡ shown_point row.now }
{
    let number = number_of(value_at(row, 0))?;
    let name = name_of(value_at(row, 1))?;
    let device = label_of(value_at(row, 2))?;
    let point = described(name, device, row)?;
    Some(PointRow { number, point })
}

/// Whether points of the type stand in the table: a bit among bits, and everything else among registers.
fn holds(table: Table, kind: PointType) -> bool
    ensures { result ≡ holds table kind }
{
    matches!(table, Table::Coil | Table::Discrete) == matches!(kind, PointType::Bit)
}

/// Whether a point of the type in the table can have the role.
fn can_be(role: Role, table: Table, kind: PointType) -> bool
    ensures { result ≡ can_be role table kind }
{
    match role {
        Role::Gauge => true,
        Role::Counter => kind.counts(),
        Role::Setting => matches!(table, Table::Coil | Table::Holding) && kind.can_be_set(),
    }
}

/// Whether a point of the role and type can have the roll.
fn can_roll_at(role: Role, kind: PointType, roll: u64) -> bool
    ensures { result ≡ can_roll_at role kind roll }
{
    match role {
        Role::Counter => 1 <= roll && roll <= kind.greatest(),
        Role::Gauge | Role::Setting => roll == 0,
    }
}

/// Whether a point of the type can have the scale.
fn can_be_scaled(kind: PointType, scale: i8) -> bool
    ensures { IsTrue result ↔ (IsScale scale × (is_scaled kind ≡ false → scale ≡ pos 0)) }
{
    -10 <= scale && scale <= 10 && (scale == 0 || kind.is_scaled())
}

/// Whether a list can say the point.
#[tactic(auto, unfolding(sunspec::specs::PointType::row))]
fn can_be_listed(point: &Point) -> bool
    ensures { IsTrue result ↔ CanBeListed point.now }
{
    point.kind.is_sized()
        && holds(point.table, point.kind)
        && u32::from(point.address) + u32::from(point.kind.registers()) <= 65536
        && can_be_scaled(point.kind, point.scale)
        && can_be(point.role, point.table, point.kind)
        && can_roll_at(point.role, point.kind, point.roll)
}

/// A point, if a list can say it. No office keeps another.
fn listed(point: Option<PointRow>) -> Result<PointRow, StoreFault>
    ensures value { IfOk result (λ known. point ≡ Some known) }
    ensures listed { IfOk result (λ known. CanBeListed known.point) }
    ensures told { IfErr result IsOfForm }
{
    match point {
        Some(known) if can_be_listed(&known.point) => Ok(known),
        _ => Err(StoreFault::Other),
    }
}

impl FromRow for PointRow {
    ghost use Rattle.poll_book.specs.declared.rows.PointRow.{PointRow};
    ghost use Rattle.office_store.specs.Rows.{shown_point};

    ghost Entry = { PointRow };

    ghost as_entry = { λ point. point };

    ghost shown = { shown_point };

    fn from_row(_alloc: Global, row: &Row) -> Result<PointRow, StoreFault> {
        listed(point_of(row))
    }
}

/// The points, by their numbers, each with its registers in the usual order, since their rows don't tell it.
fn plain_points<S: Alter>(
    alloc: Global,
    connection: &mut Connection<S>,
) -> Result<Vec<PointRow>, StoreFault>
    requires { connection.old.in_transaction ≡ false }
    ensures value { HasCleanDisk (state S.Store connection.new) → (kept : Tables) → Holds (state S.Store connection.old) kept
        → IfOk result (λ points. points.items ≡ map plain kept.points) }
    ensures in_order { HasCleanDisk (state S.Store connection.new) → (kept : Tables) → Holds (state S.Store connection.old) kept
        → OnOk result (AreInOrder kept.points) }
    ensures keeps { Keeps (state S.Store connection.old) (state S.Store connection.new) }
    ensures idle { connection.new.in_transaction ≡ false }
{
    match ask(
        connection,
        "SELECT number, name, device, tab, addr, kind, len, scale, role, roll FROM point ORDER BY number",
        &[],
    ) {
        Ok(rows) => all_of(alloc, &rows),
        Err(error) => Err(fault_of(error)),
    }
}

/// The points, by their numbers.
pub(crate) fn all_points<S: Alter>(
    alloc: Global,
    connection: &mut Connection<S>,
) -> Result<Vec<PointRow>, StoreFault>
    requires { connection.old.in_transaction ≡ false }
    ensures value { HasCleanDisk (state S.Store connection.new) → (kept : Tables) → Holds (state S.Store connection.old) kept
        → IfOk result (λ points. points.items ≡ kept.points) }
    ensures keeps { Keeps (state S.Store connection.old) (state S.Store connection.new) }
    ensures idle { connection.new.in_transaction ≡ false }
{
    let points = plain_points(alloc, connection)?;
    let swaps = all_swaps(alloc, connection)?;
    with_swaps(alloc, &points, &swaps)
}

/// The point of a number, if it is known, with its registers in the usual order.
pub(crate) fn plain_at<S: Alter>(
    connection: &mut Connection<S>,
    number: u32,
) -> Result<Option<PointRow>, StoreFault>
    requires { connection.old.in_transaction ≡ false }
    ensures value { HasCleanDisk (state S.Store connection.new) → (kept : Tables) → Holds (state S.Store connection.old) kept
        → IfOk result (λ found. found ≡ option_map plain (point_at kept.points number)) }
    ensures keeps { Keeps (state S.Store connection.old) (state S.Store connection.new) }
    ensures idle { connection.new.in_transaction ≡ false }
{
    let rows = match ask(
        connection,
        "SELECT number, name, device, tab, addr, kind, len, scale, role, roll FROM point WHERE number = ?1 ORDER BY number",
        params![number],
    ) {
        Ok(rows) => rows,
        Err(error) => return Err(fault_of(error)),
    };
    match rows.as_slice() {
        [] => Ok(None),
        [row] => {
            let found = listed(point_of(row))?;
            Ok(Some(found))
        }
        _ => Err(StoreFault::Other),
    }
}
