//! Numbers with names are written.

ghost use Rattle.std.specs.Prelude.{◌≡◌, ◌⊎◌, IsTrue, None, OnOk, unwrap_or};
ghost use Rattle.sqlite.specs.Effect.{Database};
ghost use Rattle.sqlite.specs.Held.{state};
ghost use Rattle.sqlite.specs.State.{HasCleanDisk, KeepsCommit, Survives};
ghost use Rattle.poll_book.specs.Tables.{Tables};
ghost use Rattle.office_store.specs.Writing.{Within};

use crate::run::run;
use poll_book::StoreFault;
use sqlite::{Alter, Transaction, params};

/// Writes the number of the last connection.
pub(crate) fn put_connection<S: Alter>(
    tx: &mut Transaction<'_, S>,
    number: u32,
) -> Result<usize, StoreFault>
    ensures same_reference { tx.new.conn.ghost_name ≡ tx.old.conn.ghost_name }
    ensures put { HasCleanDisk (state S.Store tx.new.conn.now) → (base : Database) → (kept : Tables) → Within (state S.Store tx.old.conn.now) base kept
        → OnOk result (Within (state S.Store tx.new.conn.now) base (record kept { connections = number })) }
    ensures inside { HasCleanDisk (state S.Store tx.new.conn.now) → IsTrue (state S.Store tx.old.conn.now).in_transaction → OnOk result (IsTrue (state S.Store tx.new.conn.now).in_transaction) }
    ensures opened { HasCleanDisk (state S.Store tx.new.conn.now) → IsTrue (state S.Store tx.old.conn.now).in_transaction → OnOk result (IsTrue (state S.Store tx.old.conn.now).is_open) }
    ensures kept { HasCleanDisk (state S.Store tx.new.conn.now) → KeepsCommit (state S.Store tx.old.conn.now) (state S.Store tx.new.conn.now) }
    ensures survives { Survives (state S.Store tx.old.conn.now) (state S.Store tx.new.conn.now) (λ _. ⊥) }
{
    run(
        tx,
        "UPDATE meta SET value = ?1 WHERE name = 'connections'",
        params![number],
    )
}

/// Writes the connection number of a change, if it has one.
pub(crate) fn put_connections<S: Alter>(
    tx: &mut Transaction<'_, S>,
    connections: Option<u32>,
) -> Result<(), StoreFault>
    ensures same_reference { tx.new.conn.ghost_name ≡ tx.old.conn.ghost_name }
    ensures put { HasCleanDisk (state S.Store tx.new.conn.now) → (base : Database) → (kept : Tables) → Within (state S.Store tx.old.conn.now) base kept
        → OnOk result (Within (state S.Store tx.new.conn.now) base (record kept { connections = unwrap_or connections kept.connections })) }
    ensures inside { HasCleanDisk (state S.Store tx.new.conn.now) → IsTrue (state S.Store tx.old.conn.now).in_transaction → OnOk result (IsTrue (state S.Store tx.new.conn.now).in_transaction) }
    ensures opened { HasCleanDisk (state S.Store tx.new.conn.now) → IsTrue (state S.Store tx.old.conn.now).in_transaction → OnOk result ((connections ≡ None) ⊎ IsTrue (state S.Store tx.old.conn.now).is_open) }
    ensures kept { HasCleanDisk (state S.Store tx.new.conn.now) → KeepsCommit (state S.Store tx.old.conn.now) (state S.Store tx.new.conn.now) }
    ensures survives { Survives (state S.Store tx.old.conn.now) (state S.Store tx.new.conn.now) (λ _. ⊥) }
{
    if let Some(number) = connections {
        put_connection(tx, number)?;
    }
    Ok(())
}
