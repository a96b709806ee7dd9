//! A change is written, whole or not at all.

ghost use Rattle.std.specs.Prelude.{◌≡◌, ◌⊎◌, false, IsTrue, OnOk, OnErr, true};
ghost use Rattle.sqlite.specs.Effect.{Database};
ghost use Rattle.sqlite.specs.Held.{state};
ghost use Rattle.sqlite.specs.State.{HasCleanDisk, IsLive, KeepsCommit, Survives};
ghost use Rattle.poll_book.specs.Tables as book;
ghost use Rattle.poll_book.specs.Tables.{Tables};
ghost use Rattle.poll_book.specs.Changes.{IsNew, applied};
ghost use Rattle.office_store.specs.Kept.{Holds, Keeps, MayLeave};
ghost use Rattle.office_store.specs.Writing.{IsEmpty, Within};

use crate::error::fault_of;
use crate::numbers::last_connection;
use crate::write_numbers::put_connections;
use crate::write_points::put_points;
use crate::write_readings::put_readings;
use crate::write_requests::put_asked;
use crate::write_settings::put_order;
use crate::write_totals::put_totals;
use crate::write_voids::put_void;
use poll_book::{Change, StoreFault};
use sqlite::{Alter, Connection, Transaction};
use std::alloc::Global;

/// Whether a change has no row and no number.
fn is_empty(change: &Change) -> bool
    ensures same { (kept : Tables) → result ≡ true → applied change.now kept ≡ kept }
    ensures filled { result ≡ false → ¬ IsEmpty change.now }
{
    change.points.as_slice().is_empty()
        && change.readings.as_slice().is_empty()
        && change.totals.as_slice().is_empty()
        && change.void.is_none()
        && change.setting.is_none()
        && change.request.is_none()
        && change.connections.is_none()
}

fn put_change<S: Alter>(
    alloc: Global,
    tx: &mut Transaction<'_, S>,
    change: &Change,
) -> Result<(), StoreFault>
    ensures same_reference { tx.new.conn.ghost_name ≡ tx.old.conn.ghost_name }
    ensures put { HasCleanDisk (state S.Store tx.new.conn.now) → (base : Database) → (kept : Tables) → Within (state S.Store tx.old.conn.now) base kept
        → IsNew change.now kept
        → OnOk result (Within (state S.Store tx.new.conn.now) base (applied change.now kept)) }
    ensures inside { HasCleanDisk (state S.Store tx.new.conn.now) → IsTrue (state S.Store tx.old.conn.now).in_transaction → OnOk result (IsTrue (state S.Store tx.new.conn.now).in_transaction) }
    ensures opened { HasCleanDisk (state S.Store tx.new.conn.now) → IsTrue (state S.Store tx.old.conn.now).in_transaction → OnOk result (IsEmpty change.now ⊎ IsTrue (state S.Store tx.old.conn.now).is_open) }
    ensures kept { HasCleanDisk (state S.Store tx.new.conn.now) → KeepsCommit (state S.Store tx.old.conn.now) (state S.Store tx.new.conn.now) }
    ensures survives { Survives (state S.Store tx.old.conn.now) (state S.Store tx.new.conn.now) (λ _. ⊥) }
{
    put_points(tx, change.points.as_slice())?;
    put_readings(tx, change.readings.as_slice())?;
    put_totals(tx, change.points.as_slice(), change.totals.as_slice())?;
    put_void(tx, change.void)?;
    put_order(tx, &change.setting)?;
    put_asked(alloc, tx, &change.request)?;
    put_connections(tx, change.connections)
}

/// Asks alone. A store that is shut tells so.
fn write_nothing<S: Alter>(connection: &mut Connection<S>) -> Result<(), StoreFault>
    requires { connection.old.in_transaction ≡ false }
    ensures keeps { Keeps (state S.Store connection.old) (state S.Store connection.new) }
    ensures durable { HasCleanDisk (state S.Store connection.new) → (kept : Tables) → Holds (state S.Store connection.old) kept
        → OnOk result ((left : Tables) → MayLeave (state S.Store connection.new) left → left ≡ kept) }
    ensures idle { connection.new.in_transaction ≡ false }
{
    last_connection(connection)?;
    let _ = connection.schema();
    Ok(())
}

/// Writes a change that isn't empty in one transaction.
fn write<S: Alter>(
    alloc: Global,
    connection: &mut Connection<S>,
    change: &Change,
) -> Result<(), StoreFault>
    requires idle { connection.old.in_transaction ≡ false }
    requires live { IsLive (state S.Store connection.old) }
    requires filled { ¬ IsEmpty change.now }
    ensures ok { (kept : Tables) → Holds (state S.Store connection.old) kept → IsNew change.now kept → OnOk result (Holds (state S.Store connection.new) (applied change.now kept)) }
    ensures err { OnErr result (book.Within (Holds (state S.Store connection.old)) (Holds (state S.Store connection.new))) }
    ensures clean { HasCleanDisk (state S.Store connection.new) → HasCleanDisk (state S.Store connection.old) }
    ensures was_open { HasCleanDisk (state S.Store connection.new) → IsTrue (state S.Store connection.new).is_open → IsTrue (state S.Store connection.old).is_open }
    ensures crash { HasCleanDisk (state S.Store connection.new) → (kept : Tables) → Holds (state S.Store connection.old) kept → IsNew change.now kept
        → (left : Tables) → MayLeave (state S.Store connection.new) left → MayLeave (state S.Store connection.old) left ⊎ (left ≡ applied change.now kept) }
    ensures durable { HasCleanDisk (state S.Store connection.new) → (kept : Tables) → Holds (state S.Store connection.old) kept → IsNew change.now kept
        → OnOk result ((left : Tables) → MayLeave (state S.Store connection.new) left → left ≡ applied change.now kept) }
    ensures idle { connection.new.in_transaction ≡ false }
{
    let mut tx = connection.transaction();
    put_change(alloc, &mut tx, change)?;
    match tx.commit() {
        Ok(()) => Ok(()),
        Err(error) => Err(fault_of(error)),
    }
}

/// Writes the whole change or nothing. An empty change is no transaction.
pub(crate) fn apply<S: Alter>(
    alloc: Global,
    connection: &mut Connection<S>,
    change: &Change,
) -> Result<(), StoreFault>
    requires { connection.old.in_transaction ≡ false }
    ensures ok { (kept : Tables) → Holds (state S.Store connection.old) kept → IsNew change.now kept → OnOk result (Holds (state S.Store connection.new) (applied change.now kept)) }
    ensures err { OnErr result (book.Within (Holds (state S.Store connection.old)) (Holds (state S.Store connection.new))) }
    ensures clean { HasCleanDisk (state S.Store connection.new) → HasCleanDisk (state S.Store connection.old) }
    ensures was_open { HasCleanDisk (state S.Store connection.new) → IsTrue (state S.Store connection.new).is_open → IsTrue (state S.Store connection.old).is_open }
    ensures crash { HasCleanDisk (state S.Store connection.new) → (kept : Tables) → Holds (state S.Store connection.old) kept → IsNew change.now kept
        → (left : Tables) → MayLeave (state S.Store connection.new) left → MayLeave (state S.Store connection.old) left ⊎ (left ≡ applied change.now kept) }
    ensures durable { HasCleanDisk (state S.Store connection.new) → (kept : Tables) → Holds (state S.Store connection.old) kept → IsNew change.now kept
        → OnOk result ((left : Tables) → MayLeave (state S.Store connection.new) left → left ≡ applied change.now kept) }
    ensures idle { connection.new.in_transaction ≡ false }
{
    if is_empty(change) {
        return write_nothing(connection);
    }
    let _ = connection.schema();
    write(alloc, connection, change)
}
