//! Voided slots are written.

ghost use Rattle.std.specs.Prelude.{◌≡◌, ◌⊎◌, IsTrue, None, OnOk, false};
ghost use Rattle.sqlite.specs.Effect.{Database};
ghost use Rattle.sqlite.specs.Held.{state};
ghost use Rattle.sqlite.specs.State.{HasCleanDisk, KeepsCommit, Survives};
ghost use Rattle.poll_book.specs.Tables.{Tables, is_void, with_void};
ghost use Rattle.poll_book.specs.Changes.{IsNotVoided, with_voided};
ghost use Rattle.office_store.specs.Writing.{Within};

use crate::run::run;
use poll_book::{StoreFault, VoidRow};
use sqlite::{Alter, Transaction, params};

/// Adds a pair that was not voided.
fn add_void<S: Alter>(
    tx: &mut Transaction<'_, S>,
    point: u32,
    slot: u32,
) -> Result<usize, StoreFault>
    ensures same_reference { tx.new.conn.ghost_name ≡ tx.old.conn.ghost_name }
    ensures put { HasCleanDisk (state S.Store tx.new.conn.now) → (base : Database) → (kept : Tables) → Within (state S.Store tx.old.conn.now) base kept
        → is_void kept.voids (point, slot) ≡ false
        → OnOk result (Within (state S.Store tx.new.conn.now) base (record kept { voids = with_void (point, slot) kept.voids })) }
    ensures inside { HasCleanDisk (state S.Store tx.new.conn.now) → IsTrue (state S.Store tx.old.conn.now).in_transaction → OnOk result (IsTrue (state S.Store tx.new.conn.now).in_transaction) }
    ensures opened { HasCleanDisk (state S.Store tx.new.conn.now) → IsTrue (state S.Store tx.old.conn.now).in_transaction → OnOk result (IsTrue (state S.Store tx.old.conn.now).is_open) }
    ensures kept { HasCleanDisk (state S.Store tx.new.conn.now) → KeepsCommit (state S.Store tx.old.conn.now) (state S.Store tx.new.conn.now) }
    ensures survives { Survives (state S.Store tx.old.conn.now) (state S.Store tx.new.conn.now) (λ _. ⊥) }
{
    run(
        tx,
        "INSERT INTO void(point, slot) VALUES (?1, ?2)",
        params![point, slot],
    )
}

/// Adds the voided pair of a change, if it has one.
pub(crate) fn put_void<S: Alter>(
    tx: &mut Transaction<'_, S>,
    void: Option<VoidRow>,
) -> Result<(), StoreFault>
    ensures same_reference { tx.new.conn.ghost_name ≡ tx.old.conn.ghost_name }
    ensures put { HasCleanDisk (state S.Store tx.new.conn.now) → (base : Database) → (kept : Tables) → Within (state S.Store tx.old.conn.now) base kept
        → IsNotVoided kept.voids void
        → OnOk result (Within (state S.Store tx.new.conn.now) base (record kept { voids = with_voided void kept.voids })) }
    ensures inside { HasCleanDisk (state S.Store tx.new.conn.now) → IsTrue (state S.Store tx.old.conn.now).in_transaction → OnOk result (IsTrue (state S.Store tx.new.conn.now).in_transaction) }
    ensures opened { HasCleanDisk (state S.Store tx.new.conn.now) → IsTrue (state S.Store tx.old.conn.now).in_transaction → OnOk result ((void ≡ None) ⊎ IsTrue (state S.Store tx.old.conn.now).is_open) }
    ensures kept { HasCleanDisk (state S.Store tx.new.conn.now) → KeepsCommit (state S.Store tx.old.conn.now) (state S.Store tx.new.conn.now) }
    ensures survives { Survives (state S.Store tx.old.conn.now) (state S.Store tx.new.conn.now) (λ _. ⊥) }
{
    if let Some(row) = void {
        add_void(tx, row.point, row.slot)?;
    }
    Ok(())
}
