//! Rows of points are written.

ghost use Rattle.std.specs.Prelude.{◌≡◌, ◌⊎◌, ◌++◌, ◌∷◌, [], ◌<◌, IsTrue, OnOk, true};
ghost use Rattle.std.specs.List.{AllByRecursion};
ghost use Rattle.sqlite.specs.Effect.{Database};
ghost use Rattle.sqlite.specs.Held.{state};
ghost use Rattle.sqlite.specs.State.{HasCleanDisk, KeepsCommit, Survives};
ghost use Rattle.sunspec.specs.PointType.{row};
ghost use Rattle.point_list.specs.declared.point.Point.{Point};
ghost use Rattle.poll_book.specs.Tables.{Tables};
ghost use Rattle.poll_book.specs.Changes.{AreNumbered};
ghost use Rattle.office_store.specs.PointNumbers.{role_number, table_number};
ghost use Rattle.office_store.specs.Swaps.{comes_swapped, plain};
ghost use Rattle.office_store.specs.Writing.{Within};

use crate::run::run;
use mb_pdu::Table;
use point_list::{Point, Role};
use poll_book::{PointRow, StoreFault};
use sqlite::types::{ToSql, ValueRef};
use sqlite::{Alter, Transaction, params};
use sunspec::{PointType, WordOrder};

fn table_number(table: Table) -> u32
    ensures { result ≡ table_number table }
{
    match table {
        Table::Coil => 1,
        Table::Discrete => 2,
        Table::Holding => 3,
        Table::Input => 4,
    }
}

fn role_number(role: Role) -> u32
    ensures { result ≡ role_number role }
{
    match role {
        Role::Gauge => 1,
        Role::Counter => 2,
        Role::Setting => 3,
    }
}

/// How many registers a point of the type takes. What is read back has to fit a byte.
#[tactic(auto, unfolding(sunspec::specs::PointType::row))]
fn registers_of(kind: PointType) -> u8
    ensures { result ≡ (row kind).registers }
{
    match kind {
        PointType::Str(registers) => registers,
        kind => kind.registers() as u8,
    }
}

/// Adds a point after those that are there, with its registers in the usual order, since its row doesn't tell it.
fn put_plain<S: Alter>(
    tx: &mut Transaction<'_, S>,
    number: u32,
    point: &Point,
) -> Result<usize, StoreFault>
    ensures same_reference { tx.new.conn.ghost_name ≡ tx.old.conn.ghost_name }
    ensures put { HasCleanDisk (state S.Store tx.new.conn.now) → (base : Database) → (kept : Tables) → Within (state S.Store tx.old.conn.now) base kept
        → AllByRecursion (λ p. p.number < number) kept.points
        → OnOk result (Within (state S.Store tx.new.conn.now) base (record kept { points = kept.points ++ plain (record { number = number; point = point.now }) ∷ [] })) }
    ensures inside { HasCleanDisk (state S.Store tx.new.conn.now) → IsTrue (state S.Store tx.old.conn.now).in_transaction → OnOk result (IsTrue (state S.Store tx.new.conn.now).in_transaction) }
    ensures opened { HasCleanDisk (state S.Store tx.new.conn.now) → IsTrue (state S.Store tx.old.conn.now).in_transaction → OnOk result (IsTrue (state S.Store tx.old.conn.now).is_open) }
    ensures kept { HasCleanDisk (state S.Store tx.new.conn.now) → KeepsCommit (state S.Store tx.old.conn.now) (state S.Store tx.new.conn.now) }
    ensures survives { Survives (state S.Store tx.old.conn.now) (state S.Store tx.new.conn.now) (λ _. ⊥) }
{
    let roll = point.roll.to_be_bytes();
    run(
        tx,
        "INSERT INTO point(number, name, device, tab, addr, kind, len, scale, role, roll) VALUES (?1, ?2, ?3, ?4, ?5, ?6, ?7, ?8, ?9, ?10)",
        &[
            number.to_sql(),
            ValueRef::Text(point.name.as_bytes()),
            ValueRef::Text(point.device.as_bytes()),
            table_number(point.table).to_sql(),
            u32::from(point.address).to_sql(),
            u32::from(point.kind.code()).to_sql(),
            u32::from(registers_of(point.kind)).to_sql(),
            i32::from(point.scale).to_sql(),
            role_number(point.role).to_sql(),
            roll.as_slice().to_sql(),
        ],
    )
}

/// Swaps the last point.
fn put_swap<S: Alter>(tx: &mut Transaction<'_, S>, number: u32) -> Result<usize, StoreFault>
    ensures same_reference { tx.new.conn.ghost_name ≡ tx.old.conn.ghost_name }
    ensures put { HasCleanDisk (state S.Store tx.new.conn.now) → (base : Database) → (kept : Tables) → (point : Point) → comes_swapped point.order ≡ true
        → AllByRecursion (λ p. p.number < number) kept.points → Within (state S.Store tx.old.conn.now) base (record kept { points = kept.points ++ plain (record { number = number; point = point }) ∷ [] })
        → OnOk result (Within (state S.Store tx.new.conn.now) base (record kept { points = kept.points ++ (record { number = number; point = point }) ∷ [] })) }
    ensures inside { HasCleanDisk (state S.Store tx.new.conn.now) → IsTrue (state S.Store tx.old.conn.now).in_transaction → OnOk result (IsTrue (state S.Store tx.new.conn.now).in_transaction) }
    ensures opened { HasCleanDisk (state S.Store tx.new.conn.now) → IsTrue (state S.Store tx.old.conn.now).in_transaction → OnOk result (IsTrue (state S.Store tx.old.conn.now).is_open) }
    ensures kept { HasCleanDisk (state S.Store tx.new.conn.now) → KeepsCommit (state S.Store tx.old.conn.now) (state S.Store tx.new.conn.now) }
    ensures survives { Survives (state S.Store tx.old.conn.now) (state S.Store tx.new.conn.now) (λ _. ⊥) }
{
    run(
        tx,
        "INSERT INTO swapped(point) VALUES (?1)",
        params![number],
    )
}

/// Adds a point after those that are there.
pub(crate) fn put_point<S: Alter>(
    tx: &mut Transaction<'_, S>,
    number: u32,
    point: &Point,
) -> Result<(), StoreFault>
    ensures same_reference { tx.new.conn.ghost_name ≡ tx.old.conn.ghost_name }
    ensures put { HasCleanDisk (state S.Store tx.new.conn.now) → (base : Database) → (kept : Tables) → Within (state S.Store tx.old.conn.now) base kept
        → AllByRecursion (λ p. p.number < number) kept.points
        → OnOk result (Within (state S.Store tx.new.conn.now) base (record kept { points = kept.points ++ (record { number = number; point = point.now }) ∷ [] })) }
    ensures inside { HasCleanDisk (state S.Store tx.new.conn.now) → IsTrue (state S.Store tx.old.conn.now).in_transaction → OnOk result (IsTrue (state S.Store tx.new.conn.now).in_transaction) }
    ensures opened { HasCleanDisk (state S.Store tx.new.conn.now) → IsTrue (state S.Store tx.old.conn.now).in_transaction → OnOk result (IsTrue (state S.Store tx.old.conn.now).is_open) }
    ensures kept { HasCleanDisk (state S.Store tx.new.conn.now) → KeepsCommit (state S.Store tx.old.conn.now) (state S.Store tx.new.conn.now) }
    ensures survives { Survives (state S.Store tx.old.conn.now) (state S.Store tx.new.conn.now) (λ _. ⊥) }
{
    put_plain(tx, number, point)?;
    if let WordOrder::Swapped = point.order {
        put_swap(tx, number)?;
    }
    Ok(())
}

/// Adds points after those that are there.
pub(crate) fn put_points<S: Alter>(
    tx: &mut Transaction<'_, S>,
    points: &[PointRow],
) -> Result<(), StoreFault>
    ensures same_reference { tx.new.conn.ghost_name ≡ tx.old.conn.ghost_name }
    ensures put { HasCleanDisk (state S.Store tx.new.conn.now) → (base : Database) → (kept : Tables) → Within (state S.Store tx.old.conn.now) base kept
        → AreNumbered 0 (kept.points ++ points.now)
        → OnOk result (Within (state S.Store tx.new.conn.now) base (record kept { points = kept.points ++ points.now })) }
    ensures inside { HasCleanDisk (state S.Store tx.new.conn.now) → IsTrue (state S.Store tx.old.conn.now).in_transaction → OnOk result (IsTrue (state S.Store tx.new.conn.now).in_transaction) }
    ensures opened { HasCleanDisk (state S.Store tx.new.conn.now) → IsTrue (state S.Store tx.old.conn.now).in_transaction → OnOk result ((points.now ≡ []) ⊎ IsTrue (state S.Store tx.old.conn.now).is_open) }
    ensures kept { HasCleanDisk (state S.Store tx.new.conn.now) → KeepsCommit (state S.Store tx.old.conn.now) (state S.Store tx.new.conn.now) }
    ensures survives { Survives (state S.Store tx.old.conn.now) (state S.Store tx.new.conn.now) (λ _. ⊥) }
{
    for row in points {
        put_point(tx, row.number, &row.point)?;
    }
    Ok(())
}
