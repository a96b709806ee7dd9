//! Rows of totals are written.

ghost use Rattle.std.specs.Prelude.{◌≡◌, ◌⊎◌, ◌∷◌, [], IsTrue, None, OnOk, is_some, true};
ghost use Rattle.sqlite.specs.Effect.{Database};
ghost use Rattle.sqlite.specs.Held.{state};
ghost use Rattle.sqlite.specs.State.{HasCleanDisk, KeepsCommit, Survives};
ghost use Rattle.poll_book.specs.Tables.{Tables, sum_at, with_sum, with_sums};
ghost use Rattle.poll_book.specs.Totals.{totals_of};
ghost use Rattle.poll_book.specs.Changes.{AreThere, as_sums};
ghost use Rattle.office_store.specs.Writing.{AreFree, Within};

use crate::run::run;
use point_list::Role;
use poll_book::{PointRow, StoreFault, TotalRow};
use sqlite::types::ToSql;
use sqlite::{Alter, Transaction};

/// Adds a total for a point that has none.
fn put_total<S: Alter>(
    tx: &mut Transaction<'_, S>,
    point: u32,
    total: u128,
) -> Result<usize, StoreFault>
    ensures same_reference { tx.new.conn.ghost_name ≡ tx.old.conn.ghost_name }
    ensures put { HasCleanDisk (state S.Store tx.new.conn.now) → (base : Database) → (kept : Tables) → Within (state S.Store tx.old.conn.now) base kept
        → sum_at kept.totals point ≡ None
        → OnOk result (Within (state S.Store tx.new.conn.now) base (record kept { totals = with_sum point total kept.totals })) }
    ensures inside { HasCleanDisk (state S.Store tx.new.conn.now) → IsTrue (state S.Store tx.old.conn.now).in_transaction → OnOk result (IsTrue (state S.Store tx.new.conn.now).in_transaction) }
    ensures kept { HasCleanDisk (state S.Store tx.new.conn.now) → KeepsCommit (state S.Store tx.old.conn.now) (state S.Store tx.new.conn.now) }
    ensures survives { Survives (state S.Store tx.old.conn.now) (state S.Store tx.new.conn.now) (λ _. ⊥) }
{
    let bytes = total.to_be_bytes();
    run(
        tx,
        "INSERT INTO total(point, value) VALUES (?1, ?2)",
        &[point.to_sql(), bytes.as_slice().to_sql()],
    )
}

/// Adds the total 0 of a point that is a counter.
fn put_first_total<S: Alter>(tx: &mut Transaction<'_, S>, row: &PointRow) -> Result<(), StoreFault>
    ensures same_reference { tx.new.conn.ghost_name ≡ tx.old.conn.ghost_name }
    ensures put { HasCleanDisk (state S.Store tx.new.conn.now) → (base : Database) → (kept : Tables) → Within (state S.Store tx.old.conn.now) base kept
        → AreFree kept.totals (totals_of (row.now ∷ []) [])
        → OnOk result (Within (state S.Store tx.new.conn.now) base (record kept { totals = with_sums (totals_of (row.now ∷ []) []) kept.totals })) }
    ensures inside { HasCleanDisk (state S.Store tx.new.conn.now) → IsTrue (state S.Store tx.old.conn.now).in_transaction → OnOk result (IsTrue (state S.Store tx.new.conn.now).in_transaction) }
    ensures kept { HasCleanDisk (state S.Store tx.new.conn.now) → KeepsCommit (state S.Store tx.old.conn.now) (state S.Store tx.new.conn.now) }
    ensures survives { Survives (state S.Store tx.old.conn.now) (state S.Store tx.new.conn.now) (λ _. ⊥) }
{
    if let Role::Counter = row.point.role {
        put_total(tx, row.number, 0)?;
    }
    Ok(())
}

/// Adds the total 0 for each of these points that is a counter.
fn put_first_totals<S: Alter>(
    tx: &mut Transaction<'_, S>,
    points: &[PointRow],
) -> Result<(), StoreFault>
    ensures same_reference { tx.new.conn.ghost_name ≡ tx.old.conn.ghost_name }
    ensures put { HasCleanDisk (state S.Store tx.new.conn.now) → (base : Database) → (kept : Tables) → Within (state S.Store tx.old.conn.now) base kept
        → AreFree kept.totals (totals_of points.now [])
        → OnOk result (Within (state S.Store tx.new.conn.now) base (record kept { totals = with_sums (totals_of points.now []) kept.totals })) }
    ensures inside { HasCleanDisk (state S.Store tx.new.conn.now) → IsTrue (state S.Store tx.old.conn.now).in_transaction → OnOk result (IsTrue (state S.Store tx.new.conn.now).in_transaction) }
    ensures kept { HasCleanDisk (state S.Store tx.new.conn.now) → KeepsCommit (state S.Store tx.old.conn.now) (state S.Store tx.new.conn.now) }
    ensures survives { Survives (state S.Store tx.old.conn.now) (state S.Store tx.new.conn.now) (λ _. ⊥) }
{
    // The last one goes first, and so on to the first.
    let mut left = points.len();
    while left > 0 {
        left -= 1;
        put_first_total(tx, &points[left])?;
    }
    Ok(())
}

/// Writes over the total of a point that has one.
fn set_total<S: Alter>(
    tx: &mut Transaction<'_, S>,
    point: u32,
    total: u128,
) -> Result<usize, StoreFault>
    ensures same_reference { tx.new.conn.ghost_name ≡ tx.old.conn.ghost_name }
    ensures put { HasCleanDisk (state S.Store tx.new.conn.now) → (base : Database) → (kept : Tables) → Within (state S.Store tx.old.conn.now) base kept
        → is_some (sum_at kept.totals point) ≡ true
        → OnOk result (Within (state S.Store tx.new.conn.now) base (record kept { totals = with_sum point total kept.totals })) }
    ensures inside { HasCleanDisk (state S.Store tx.new.conn.now) → IsTrue (state S.Store tx.old.conn.now).in_transaction → OnOk result (IsTrue (state S.Store tx.new.conn.now).in_transaction) }
    ensures opened { HasCleanDisk (state S.Store tx.new.conn.now) → IsTrue (state S.Store tx.old.conn.now).in_transaction → OnOk result (IsTrue (state S.Store tx.old.conn.now).is_open) }
    ensures kept { HasCleanDisk (state S.Store tx.new.conn.now) → KeepsCommit (state S.Store tx.old.conn.now) (state S.Store tx.new.conn.now) }
    ensures survives { Survives (state S.Store tx.old.conn.now) (state S.Store tx.new.conn.now) (λ _. ⊥) }
{
    let bytes = total.to_be_bytes();
    run(
        tx,
        "UPDATE total SET value = ?2 WHERE point = ?1",
        &[point.to_sql(), bytes.as_slice().to_sql()],
    )
}

/// Writes over totals that are there.
fn set_totals<S: Alter>(tx: &mut Transaction<'_, S>, rows: &[TotalRow]) -> Result<(), StoreFault>
    ensures same_reference { tx.new.conn.ghost_name ≡ tx.old.conn.ghost_name }
    ensures put { HasCleanDisk (state S.Store tx.new.conn.now) → (base : Database) → (kept : Tables) → Within (state S.Store tx.old.conn.now) base kept
        → AreThere kept.totals (as_sums rows.now)
        → OnOk result (Within (state S.Store tx.new.conn.now) base (record kept { totals = with_sums (as_sums rows.now) kept.totals })) }
    ensures inside { HasCleanDisk (state S.Store tx.new.conn.now) → IsTrue (state S.Store tx.old.conn.now).in_transaction → OnOk result (IsTrue (state S.Store tx.new.conn.now).in_transaction) }
    ensures opened { HasCleanDisk (state S.Store tx.new.conn.now) → IsTrue (state S.Store tx.old.conn.now).in_transaction → OnOk result ((rows.now ≡ []) ⊎ IsTrue (state S.Store tx.old.conn.now).is_open) }
    ensures kept { HasCleanDisk (state S.Store tx.new.conn.now) → KeepsCommit (state S.Store tx.old.conn.now) (state S.Store tx.new.conn.now) }
    ensures survives { Survives (state S.Store tx.old.conn.now) (state S.Store tx.new.conn.now) (λ _. ⊥) }
{
    // The last one goes first, and so on to the first.
    let mut left = rows.len();
    while left > 0 {
        left -= 1;
        let row = &rows[left];
        set_total(tx, row.point, row.total)?;
    }
    Ok(())
}

/// Adds the total 0 for each of these points that is a counter, and writes over totals that are there.
pub(crate) fn put_totals<S: Alter>(
    tx: &mut Transaction<'_, S>,
    points: &[PointRow],
    rows: &[TotalRow],
) -> Result<(), StoreFault>
    ensures same_reference { tx.new.conn.ghost_name ≡ tx.old.conn.ghost_name }
    ensures put { HasCleanDisk (state S.Store tx.new.conn.now) → (base : Database) → (kept : Tables) → Within (state S.Store tx.old.conn.now) base kept
        → AreFree kept.totals (totals_of points.now []) → AreThere kept.totals (as_sums rows.now)
        → OnOk result (Within (state S.Store tx.new.conn.now) base (record kept { totals = with_sums (as_sums rows.now) (with_sums (totals_of points.now []) kept.totals) })) }
    ensures inside { HasCleanDisk (state S.Store tx.new.conn.now) → IsTrue (state S.Store tx.old.conn.now).in_transaction → OnOk result (IsTrue (state S.Store tx.new.conn.now).in_transaction) }
    ensures opened { HasCleanDisk (state S.Store tx.new.conn.now) → IsTrue (state S.Store tx.old.conn.now).in_transaction → OnOk result ((rows.now ≡ []) ⊎ IsTrue (state S.Store tx.old.conn.now).is_open) }
    ensures kept { HasCleanDisk (state S.Store tx.new.conn.now) → KeepsCommit (state S.Store tx.old.conn.now) (state S.Store tx.new.conn.now) }
    ensures survives { Survives (state S.Store tx.old.conn.now) (state S.Store tx.new.conn.now) (λ _. ⊥) }
{
    put_first_totals(tx, points)?;
    set_totals(tx, rows)
}
