//! Readings in memory, by points and slots.
ghost use Rattle.std.specs.Prelude.{All, ◌≡◌, ◌==◌, ◌<◌, count_by, ℕ, ◌++◌, ◌∷◌, [], IfOk, OnOk, Contains, List, map};
ghost use Rattle.poll_book.specs.declared.rows.ReadingRow.{ReadingRow as Row};
ghost use Rattle.poll_book.specs.Tables.{with_row, with_rows};
ghost use Rattle.poll_book.specs.Changes.{as_row, as_rows};
ghost use Rattle.poll_book.specs.Histories.{AreOrdered, HaveHistories, HaveRoom, IsRising, own, point_of, readings_of, slot_of, slots_of};

use crate::history::{History, SlotRow, history_place};
use crate::rows::{Reading, ReadingRow};
use std::alloc::{AllocError, Global};

/// What is kept of a point, by slot.
pub(crate) fn slots_in(histories: &[History], point: u32) -> &[SlotRow]
    requires { AreOrdered histories.now }
    ensures own { slots_of point result.now ≡ own point (readings_of histories.now) }
    ensures rising { IsRising slot_of result.now }
{
    match history_place(histories, point) {
        Ok(place) => histories[place].slots.as_slice(),
        Err(_) => &[],
    }
}

/// Gives each row's point a history.
pub(crate) fn make_histories(
    alloc: Global,
    histories: &mut Vec<History>,
    added: &[ReadingRow],
) -> Result<(), AllocError>
    requires { AreOrdered histories.old.items }
    ensures ordered { AreOrdered histories.new.items }
    ensures same { readings_of histories.new.items ≡ readings_of histories.old.items }
    ensures made { OnOk result (HaveHistories histories.new.items added.now) }
{
    for row in added {
        make_history(alloc, histories, row.point)?;
    }
    Ok(())
}

fn make_history(alloc: Global, histories: &mut Vec<History>, point: u32) -> Result<(), AllocError>
    requires { AreOrdered histories.old.items }
    ensures ordered { AreOrdered histories.new.items }
    ensures same { readings_of histories.new.items ≡ readings_of histories.old.items }
    ensures made { OnOk result (Contains (map point_of histories.new.items) point) }
    ensures kept { (q : ℕ) → Contains (map point_of histories.old.items) q
        → Contains (map point_of histories.new.items) q }
{
    if let Err(place) = history_place(histories, point) {
        histories.insert(
            place,
            History {
                point,
                slots: Vec::new(alloc),
            },
        )?;
    }
    Ok(())
}

/// Copies the rows and makes room for them in the histories of their points.
pub(crate) fn staged(
    alloc: Global,
    histories: &mut Vec<History>,
    added: &[ReadingRow],
) -> Result<Vec<ReadingRow>, AllocError>
    requires ordered { AreOrdered histories.old.items }
    requires made { HaveHistories histories.old.items added.now }
    ensures ordered { AreOrdered histories.new.items }
    ensures same { readings_of histories.new.items ≡ readings_of histories.old.items }
    ensures copied { IfOk result (λ rows. rows.items ≡ added.now) }
    ensures made { HaveHistories histories.new.items added.now }
    ensures room { OnOk result (HaveRoom histories.new.items added.now) }
{
    let mut rows = Vec::with_capacity(alloc, added.len())?;
    let mut bound = 0;
    for row in added {
        make_room(histories, &rows, bound, row.point)?;
        rows.push(copy_of(row)?)?;
        bound = bound.max(u64::from(row.point) + 1);
    }
    Ok(rows)
}

fn copy_of(row: &ReadingRow) -> Result<ReadingRow, AllocError>
    ensures { IfOk result (λ copy. copy ≡ row.now) }
{
    Ok(ReadingRow {
        point: row.point,
        slot: row.slot,
        words: row.words.clone()?,
        counted: row.counted,
    })
}

fn counted(rows: &[ReadingRow], point: u32) -> usize
    ensures { result ≡ count_by (λ row. row.point == point) rows.now }
{
    rows.iter().filter(|row| row.point == point).count()
}

/// How many rows are of the point. The points of all are below a bound, so that none is counted
/// where rows come by point.
fn count_of(rows: &[ReadingRow], bound: u64, point: u32) -> usize
    requires { All (λ row. row.point < bound) rows.now }
    ensures { result ≡ count_by (λ row. row.point == point) rows.now }
{
    if bound <= u64::from(point) {
        return 0;
    }
    counted(rows, point)
}

// Makes room for one more row of the point, beside these, whose points are below the bound.
fn make_room(
    histories: &mut Vec<History>,
    rows: &[ReadingRow],
    bound: u64,
    point: u32,
) -> Result<(), AllocError>
    requires below { All (λ row. row.point < bound) rows.now }
    requires ordered { AreOrdered histories.old.items }
    requires made { Contains (map point_of histories.old.items) point }
    requires room { HaveRoom histories.old.items rows.now }
    ensures ordered { AreOrdered histories.new.items }
    ensures same { readings_of histories.new.items ≡ readings_of histories.old.items }
    ensures kept { (q : ℕ) → Contains (map point_of histories.old.items) q
        → Contains (map point_of histories.new.items) q }
    ensures room { OnOk result ((row : Row) → row.point ≡ point
        → HaveRoom histories.new.items (rows.now ++ row ∷ [])) }
{
    let count = count_of(rows, bound, point);
    let place = history_place(histories, point).unwrap();
    histories[place].slots.reserve(count + 1)
}

/// Puts the rows under their keys. Where two have one key, the first stays.
pub(crate) fn put_all(histories: &mut Vec<History>, mut rows: Vec<ReadingRow>)
    requires ordered { AreOrdered histories.old.items }
    requires made { HaveHistories histories.old.items rows.items }
    requires room { HaveRoom histories.old.items rows.items }
    ensures ordered { AreOrdered histories.new.items }
    ensures put { readings_of histories.new.items
        ≡ with_rows (as_rows rows.items) (readings_of histories.old.items) }
{
    while let Some(row) = rows.pop() {
        put_row(histories, row);
    }
}

fn put_row(histories: &mut Vec<History>, row: ReadingRow)
    requires ordered { AreOrdered histories.old.items }
    requires made { Contains (map point_of histories.old.items) row.point }
    requires room { HaveRoom histories.old.items (row ∷ []) }
    ensures ordered { AreOrdered histories.new.items }
    ensures put { readings_of histories.new.items
        ≡ with_rows (as_row row ∷ []) (readings_of histories.old.items) }
    ensures kept { (q : ℕ) → Contains (map point_of histories.old.items) q
        → Contains (map point_of histories.new.items) q }
    ensures room { (rows : List Row) → HaveRoom histories.old.items (rows ++ row ∷ [])
        → HaveRoom histories.new.items rows }
{
    let place = history_place(histories, row.point).unwrap();
    let reading = Reading {
        words: row.words,
        counted: row.counted,
    };
    histories[place].put(row.slot, reading);
}
