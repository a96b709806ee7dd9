//! The table of readings.

ghost use Rattle.std.specs.Prelude.{◌≡◌, ◌≤◌, ◌^◌, false, IfOk, IfSome, IsTrue, OnOk, is_some};
ghost use Rattle.sqlite.specs.Held.{state};
ghost use Rattle.sqlite.specs.State.{HasCleanDisk};
ghost use Rattle.poll_book.specs.Tables.{Tables, reading_at, readings_between};
ghost use Rattle.poll_book.specs.Totals.{value_after, value_before};
ghost use Rattle.poll_book.specs.Histories.{end_of};
ghost use Rattle.poll_book.specs.Changes.{as_rows};
ghost use Rattle.office_store.specs.Kept.{Holds, Keeps};
ghost use Rattle.office_store.specs.Ends.{IsEndOf, ShowEnd};
ghost use Rattle.office_store.specs.Counting.{CanBeOf, ShowValue, number_in};
ghost use Rattle.office_store.specs.Rows.{shown_reading};

use crate::ask::ask;
use crate::error::fault_of;
use crate::from_row::{FromRow, all_of};
use crate::values::{flag_of, number_of, value_at, words_of};
use point_list::Point;
use poll_book::{PointRow, Reading, ReadingRow, StoreFault, counted_number};
use sqlite::{Alter, Connection, Row, params};
use std::alloc::Global;

impl FromRow for ReadingRow {
    ghost use Rattle.poll_book.specs.declared.rows.Reading.{Reading};
    ghost use Rattle.poll_book.specs.Changes.{as_row};
    ghost use Rattle.poll_book.specs.Tables.{Key};

    ghost Entry = { Key × Reading };

    ghost as_entry = { as_row };

    ghost shown = { shown_reading };

    fn from_row(alloc: Global, row: &Row) -> Result<ReadingRow, StoreFault> {
        let point = number_of(value_at(row, 0)).ok_or(StoreFault::Other)?;
        let slot = number_of(value_at(row, 1)).ok_or(StoreFault::Other)?;
        let words = words_of(alloc, value_at(row, 2))?;
        let counted = flag_of(value_at(row, 3)).ok_or(StoreFault::Other)?;
        Ok(ReadingRow {
            point,
            slot,
            words,
            counted,
        })
    }
}

/// The readings of a point in the slots from the one to the other, by slot.
pub(crate) fn rows_between<S: Alter>(
    alloc: Global,
    connection: &mut Connection<S>,
    point: u32,
    from: u32,
    to: u32,
) -> Result<Vec<ReadingRow>, StoreFault>
    requires { connection.old.in_transaction ≡ false }
    ensures value { HasCleanDisk (state S.Store connection.new) → (kept : Tables) → Holds (state S.Store connection.old) kept
        → IfOk result (λ rows. as_rows rows.items ≡ readings_between point from to kept.readings) }
    ensures open { HasCleanDisk (state S.Store connection.new) → OnOk result (IsTrue (state S.Store connection.old).is_open) }
    ensures keeps { Keeps (state S.Store connection.old) (state S.Store connection.new) }
    ensures idle { connection.new.in_transaction ≡ false }
{
    match ask(
        connection,
        "SELECT point, slot, words, counted FROM reading WHERE point = ?1 AND slot >= ?2 AND slot <= ?3 ORDER BY slot",
        params![point, from, to],
    ) {
        Ok(rows) => all_of(alloc, &rows),
        Err(error) => Err(fault_of(error)),
    }
}

/// A reading, if it may be one of the point: it has the registers of the point's type, and one that is marked as
/// counted has a number from 0 to the roll.
fn judged(point: &Point, reading: Reading) -> Result<Reading, StoreFault>
    ensures same { IfOk result (λ told. told ≡ reading) }
    ensures judged { IfOk result (CanBeOf point.now) }
{
    let words = reading.words.as_slice();
    let can_count = counted_number(point, words).is_some();
    if !point.kind.has_registers(words) || (reading.counted && !can_count) {
        return Err(StoreFault::Other);
    }
    Ok(reading)
}

/// The reading of a point in a slot, if there is one. It is judged by the point alone, since no void is read.
pub(crate) fn reading_at<S: Alter>(
    alloc: Global,
    connection: &mut Connection<S>,
    point: &PointRow,
    slot: u32,
) -> Result<Option<Reading>, StoreFault>
    requires { connection.old.in_transaction ≡ false }
    ensures value { HasCleanDisk (state S.Store connection.new) → (kept : Tables) → Holds (state S.Store connection.old) kept
        → IfOk result (λ found. found ≡ reading_at kept.readings (point.now.number, slot)) }
    ensures judged { IfOk result (λ found. IfSome found (CanBeOf point.now.point)) }
    ensures keeps { Keeps (state S.Store connection.old) (state S.Store connection.new) }
    ensures idle { connection.new.in_transaction ≡ false }
{
    let mut rows = rows_between(alloc, connection, point.number, slot, slot)?;
    rows.truncate(1);
    match rows.pop() {
        Some(row) => {
            let reading = Reading {
                words: row.words,
                counted: row.counted,
            };
            Ok(Some(judged(&point.point, reading)?))
        }
        None => Ok(None),
    }
}

/// Whether a point has a reading in a slot.
pub(crate) fn has_reading<S: Alter>(
    connection: &mut Connection<S>,
    point: u32,
    slot: u32,
) -> Result<bool, StoreFault>
    requires { connection.old.in_transaction ≡ false }
    ensures value { HasCleanDisk (state S.Store connection.new) → (kept : Tables) → Holds (state S.Store connection.old) kept
        → IfOk result (λ has. has ≡ is_some (reading_at kept.readings (point, slot))) }
    ensures keeps { Keeps (state S.Store connection.old) (state S.Store connection.new) }
    ensures idle { connection.new.in_transaction ≡ false }
{
    match ask(
        connection,
        "SELECT point, slot FROM reading WHERE point = ?1 AND slot = ?2",
        params![point, slot],
    ) {
        Ok(rows) => Ok(!rows.is_empty()),
        Err(error) => Err(fault_of(error)),
    }
}

/// The slot behind the row of a point that an answer shows, and 0 where it shows none.
pub(crate) fn end_shown(rows: &[Row]) -> Result<u64, StoreFault>
    ensures shown { IfOk result (ShowEnd rows.now) }
    ensures bound { IfOk result (λ end. end ≤ 2 ^ 32) }
{
    match rows {
        [] => Ok(0),
        [row] => match number_of(value_at(row, 1)) {
            Some(slot) => Ok(u64::from(slot) + 1),
            None => Err(StoreFault::Other),
        },
        _ => Err(StoreFault::Other),
    }
}

/// The slot behind the last reading of a point, whether it counts or not; 0 if the point has none.
pub(crate) fn end_of<S: Alter>(
    connection: &mut Connection<S>,
    point: u32,
) -> Result<u64, StoreFault>
    requires { connection.old.in_transaction ≡ false }
    ensures value { HasCleanDisk (state S.Store connection.new) → (kept : Tables) → Holds (state S.Store connection.old) kept
        → IfOk result (λ end. IsEndOf point end kept.readings) }
    ensures exact { HasCleanDisk (state S.Store connection.new) → (kept : Tables) → Holds (state S.Store connection.old) kept
        → IfOk result (λ end. end ≡ end_of point kept.readings) }
    ensures bound { IfOk result (λ end. end ≤ 2 ^ 32) }
    ensures keeps { Keeps (state S.Store connection.old) (state S.Store connection.new) }
    ensures idle { connection.new.in_transaction ≡ false }
{
    match ask(
        connection,
        "SELECT point, slot, words, counted FROM reading WHERE point = ?1 ORDER BY slot DESC LIMIT 1",
        params![point],
    ) {
        Ok(rows) => end_shown(&rows),
        Err(error) => Err(fault_of(error)),
    }
}

fn number_in(point: &Point, row: &ReadingRow) -> Option<u64>
    ensures number { result ≡ number_in point.now row.now }
    ensures bound { IfSome result (λ number. number ≤ point.now.roll) }
{
    if row.counted {
        counted_number(point, row.words.as_slice())
    } else {
        None
    }
}

/// The value of the reading that the rows of an answer show, which is marked as counted, if they show one.
fn value_shown(alloc: Global, point: &Point, rows: &[Row]) -> Result<Option<u64>, StoreFault>
    ensures value { IfOk result (λ value. ShowValue point.now rows.now value) }
    ensures bound { IfOk result (λ value. IfSome value (λ number. number ≤ point.now.roll)) }
{
    match rows {
        [] => Ok(None),
        [row] => {
            let reading = ReadingRow::from_row(alloc, row)?;
            match number_in(point, &reading) {
                Some(number) => Ok(Some(number)),
                None => Err(StoreFault::Other),
            }
        }
        _ => Err(StoreFault::Other),
    }
}

/// The value of the nearest counted reading of a point before a slot, if there is one.
pub(crate) fn value_before<S: Alter>(
    alloc: Global,
    connection: &mut Connection<S>,
    point: &PointRow,
    slot: u32,
) -> Result<Option<u64>, StoreFault>
    requires { connection.old.in_transaction ≡ false }
    ensures value { HasCleanDisk (state S.Store connection.new) → (kept : Tables) → Holds (state S.Store connection.old) kept
        → IfOk result (λ found. found ≡ value_before point.now slot kept.readings) }
    ensures bound { IfOk result (λ found. IfSome found (λ number. number ≤ point.now.point.roll)) }
    ensures keeps { Keeps (state S.Store connection.old) (state S.Store connection.new) }
    ensures idle { connection.new.in_transaction ≡ false }
{
    match ask(
        connection,
        "SELECT point, slot, words, counted FROM reading WHERE point = ?1 AND slot < ?2 AND counted = 1 ORDER BY slot DESC LIMIT 1",
        params![point.number, slot],
    ) {
        Ok(rows) => value_shown(alloc, &point.point, &rows),
        Err(error) => Err(fault_of(error)),
    }
}

/// The value of the nearest counted reading of a point after a slot, if there is one.
pub(crate) fn value_after<S: Alter>(
    alloc: Global,
    connection: &mut Connection<S>,
    point: &PointRow,
    slot: u32,
) -> Result<Option<u64>, StoreFault>
    requires { connection.old.in_transaction ≡ false }
    ensures value { HasCleanDisk (state S.Store connection.new) → (kept : Tables) → Holds (state S.Store connection.old) kept
        → IfOk result (λ found. found ≡ value_after point.now slot kept.readings) }
    ensures bound { IfOk result (λ found. IfSome found (λ number. number ≤ point.now.point.roll)) }
    ensures keeps { Keeps (state S.Store connection.old) (state S.Store connection.new) }
    ensures idle { connection.new.in_transaction ≡ false }
{
    match ask(
        connection,
        "SELECT point, slot, words, counted FROM reading WHERE point = ?1 AND slot > ?2 AND counted = 1 ORDER BY slot LIMIT 1",
        params![point.number, slot],
    ) {
        Ok(rows) => value_shown(alloc, &point.point, &rows),
        Err(error) => Err(fault_of(error)),
    }
}
