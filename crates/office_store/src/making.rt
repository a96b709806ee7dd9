//! The tables are made.

ghost use Rattle.std.specs.Prelude.{◌≡◌, ◌⊎◌, [], false, IfErr, OnOk, OnErr, IsTrue};
ghost use Rattle.sqlite.specs.Held.{state};
ghost use Rattle.sqlite.specs.State.{HasCleanDisk, KeepsCommit, Survives};
ghost use Rattle.sqlite_trees.specs.Tree.{Trees};
ghost use Rattle.poll_book.specs.Tables.{no_tables};
ghost use Rattle.office_store.specs.Schema.{no_schema, office_schema};
ghost use Rattle.poll_book.specs.declared.fault.StoreFault.{StoreFault};
ghost use Rattle.office_store.specs.Kept.{IsHeld, StandFor};
ghost use Rattle.office_store.specs.Blank.{AreFirst, AreSix, AreBlank, IsEmptyOffice, six_schema};
ghost use Rattle.office_store.specs.Earlier.{AreAdded};

use crate::error::{StoreError, fault_of};
use crate::run::run;
use poll_book::StoreFault;
use sqlite::{Alter, Connection, Transaction};

fn make_first<S: Alter>(tx: &mut Transaction<'_, S>) -> Result<usize, StoreFault>
    ensures same_reference { tx.new.conn.ghost_name ≡ tx.old.conn.ghost_name }
    ensures made { HasCleanDisk (state S.Store tx.new.conn.now) → IsTrue (state S.Store tx.old.conn.now).in_transaction → (state S.Store tx.old.conn.now).now.schema ≡ no_schema
        → OnOk result (AreFirst (state S.Store tx.new.conn.now).now) }
    ensures open { HasCleanDisk (state S.Store tx.new.conn.now) → IsTrue (state S.Store tx.old.conn.now).in_transaction
        → OnOk result (IsTrue (state S.Store tx.old.conn.now).is_open × IsTrue (state S.Store tx.new.conn.now).in_transaction) }
    ensures kept { HasCleanDisk (state S.Store tx.new.conn.now) → KeepsCommit (state S.Store tx.old.conn.now) (state S.Store tx.new.conn.now) }
    ensures survives { Survives (state S.Store tx.old.conn.now) (state S.Store tx.new.conn.now) (λ _. ⊥) }
{
    run(
        tx,
        "CREATE TABLE meta(name TEXT NOT NULL PRIMARY KEY, value INTEGER NOT NULL) STRICT",
        &[],
    )?;
    run(
        tx,
        "CREATE TABLE point(number INTEGER PRIMARY KEY, name TEXT NOT NULL UNIQUE, device TEXT NOT NULL, tab INTEGER NOT NULL, addr INTEGER NOT NULL, kind INTEGER NOT NULL, len INTEGER NOT NULL, scale INTEGER NOT NULL, role INTEGER NOT NULL, roll BLOB NOT NULL) STRICT",
        &[],
    )?;
    run(
        tx,
        "CREATE TABLE reading(point INTEGER NOT NULL REFERENCES point(number), slot INTEGER NOT NULL, words BLOB NOT NULL, counted INTEGER NOT NULL CHECK(counted IN (0,1)), PRIMARY KEY(point, slot)) STRICT",
        &[],
    )
}

fn make_others<S: Alter>(tx: &mut Transaction<'_, S>) -> Result<usize, StoreFault>
    ensures same_reference { tx.new.conn.ghost_name ≡ tx.old.conn.ghost_name }
    ensures made { HasCleanDisk (state S.Store tx.new.conn.now) → IsTrue (state S.Store tx.old.conn.now).in_transaction → AreFirst (state S.Store tx.old.conn.now).now
        → OnOk result (AreSix (state S.Store tx.new.conn.now).now) }
    ensures open { HasCleanDisk (state S.Store tx.new.conn.now) → IsTrue (state S.Store tx.old.conn.now).in_transaction
        → OnOk result (IsTrue (state S.Store tx.old.conn.now).is_open × IsTrue (state S.Store tx.new.conn.now).in_transaction) }
    ensures kept { HasCleanDisk (state S.Store tx.new.conn.now) → KeepsCommit (state S.Store tx.old.conn.now) (state S.Store tx.new.conn.now) }
    ensures survives { Survives (state S.Store tx.old.conn.now) (state S.Store tx.new.conn.now) (λ _. ⊥) }
{
    run(
        tx,
        "CREATE TABLE setting(number INTEGER PRIMARY KEY, point INTEGER NOT NULL REFERENCES point(number), words BLOB NOT NULL, state INTEGER NOT NULL, code INTEGER NOT NULL) STRICT",
        &[],
    )?;
    run(
        tx,
        "CREATE TABLE request(caller TEXT NOT NULL, rkey TEXT NOT NULL, kind INTEGER NOT NULL, body BLOB NOT NULL, answer INTEGER NOT NULL, a INTEGER NOT NULL, b INTEGER NOT NULL, c INTEGER NOT NULL, PRIMARY KEY(caller, rkey)) STRICT",
        &[],
    )?;
    run(
        tx,
        "CREATE TABLE total(point INTEGER PRIMARY KEY REFERENCES point(number), value BLOB NOT NULL) STRICT",
        &[],
    )
}

/// Makes the tables that version 1 lacks.
pub(crate) fn make_last<S: Alter>(tx: &mut Transaction<'_, S>) -> Result<usize, StoreFault>
    ensures same_reference { tx.new.conn.ghost_name ≡ tx.old.conn.ghost_name }
    ensures added { HasCleanDisk (state S.Store tx.new.conn.now) → IsTrue (state S.Store tx.old.conn.now).in_transaction → (state S.Store tx.old.conn.now).now.schema ≡ six_schema
        → OnOk result (AreAdded (state S.Store tx.old.conn.now).now (state S.Store tx.new.conn.now).now) }
    ensures open { HasCleanDisk (state S.Store tx.new.conn.now) → IsTrue (state S.Store tx.old.conn.now).in_transaction
        → OnOk result (IsTrue (state S.Store tx.old.conn.now).is_open × IsTrue (state S.Store tx.new.conn.now).in_transaction) }
    ensures kept { HasCleanDisk (state S.Store tx.new.conn.now) → KeepsCommit (state S.Store tx.old.conn.now) (state S.Store tx.new.conn.now) }
    ensures survives { Survives (state S.Store tx.old.conn.now) (state S.Store tx.new.conn.now) (λ _. ⊥) }
{
    run(
        tx,
        "CREATE TABLE void(point INTEGER NOT NULL REFERENCES point(number), slot INTEGER NOT NULL, PRIMARY KEY(point, slot)) STRICT",
        &[],
    )?;
    run(
        tx,
        "CREATE TABLE swapped(point INTEGER PRIMARY KEY REFERENCES point(number)) STRICT",
        &[],
    )
}

fn put_numbers<S: Alter>(tx: &mut Transaction<'_, S>) -> Result<usize, StoreFault>
    ensures same_reference { tx.new.conn.ghost_name ≡ tx.old.conn.ghost_name }
    ensures made { HasCleanDisk (state S.Store tx.new.conn.now) → IsTrue (state S.Store tx.old.conn.now).in_transaction → AreBlank (state S.Store tx.old.conn.now).now
        → OnOk result (((state S.Store tx.new.conn.now).now.schema ≡ office_schema) × StandFor (state S.Store tx.new.conn.now).now.trees no_tables) }
    ensures office { HasCleanDisk (state S.Store tx.new.conn.now) → IsTrue (state S.Store tx.old.conn.now).in_transaction → AreBlank (state S.Store tx.old.conn.now).now
        → OnOk result (IsEmptyOffice (state S.Store tx.new.conn.now).now.trees) }
    ensures open { HasCleanDisk (state S.Store tx.new.conn.now) → IsTrue (state S.Store tx.old.conn.now).in_transaction
        → OnOk result (IsTrue (state S.Store tx.old.conn.now).is_open × IsTrue (state S.Store tx.new.conn.now).in_transaction) }
    ensures kept { HasCleanDisk (state S.Store tx.new.conn.now) → KeepsCommit (state S.Store tx.old.conn.now) (state S.Store tx.new.conn.now) }
    ensures survives { Survives (state S.Store tx.old.conn.now) (state S.Store tx.new.conn.now) (λ _. ⊥) }
{
    run(
        tx,
        "INSERT INTO meta(name, value) VALUES ('version', 2), ('connections', 0)",
        &[],
    )
}

fn make_all<S: Alter>(tx: &mut Transaction<'_, S>) -> Result<usize, StoreFault>
    ensures same_reference { tx.new.conn.ghost_name ≡ tx.old.conn.ghost_name }
    ensures made { HasCleanDisk (state S.Store tx.new.conn.now) → IsTrue (state S.Store tx.old.conn.now).in_transaction → (state S.Store tx.old.conn.now).now.schema ≡ no_schema
        → OnOk result (((state S.Store tx.new.conn.now).now.schema ≡ office_schema) × StandFor (state S.Store tx.new.conn.now).now.trees no_tables) }
    ensures office { HasCleanDisk (state S.Store tx.new.conn.now) → IsTrue (state S.Store tx.old.conn.now).in_transaction → (state S.Store tx.old.conn.now).now.schema ≡ no_schema
        → OnOk result (IsEmptyOffice (state S.Store tx.new.conn.now).now.trees) }
    ensures open { HasCleanDisk (state S.Store tx.new.conn.now) → IsTrue (state S.Store tx.old.conn.now).in_transaction
        → OnOk result (IsTrue (state S.Store tx.old.conn.now).is_open × IsTrue (state S.Store tx.new.conn.now).in_transaction) }
    ensures kept { HasCleanDisk (state S.Store tx.new.conn.now) → KeepsCommit (state S.Store tx.old.conn.now) (state S.Store tx.new.conn.now) }
    ensures survives { Survives (state S.Store tx.old.conn.now) (state S.Store tx.new.conn.now) (λ _. ⊥) }
{
    make_first(tx)?;
    make_others(tx)?;
    make_last(tx)?;
    put_numbers(tx)
}

/// Makes the tables of an office that knows nothing, in one transaction, or changes nothing. A stop
/// inside it leaves what could be left before, or the tables of an office that knows nothing, all of them.
pub fn create<S: Alter>(connection: &mut Connection<S>) -> Result<(), StoreError>
    requires { connection.old.in_transaction ≡ false }
    ensures made { HasCleanDisk (state S.Store connection.new) → (state S.Store connection.old).now.schema ≡ no_schema → OnOk result (IsHeld (state S.Store connection.new) no_tables) }
    ensures kept { HasCleanDisk (state S.Store connection.new) → (state S.Store connection.old).now ≡ (state S.Store connection.old).committed
        → OnErr result (IsTrue (state S.Store connection.new).is_open → ((state S.Store connection.new).now ≡ (state S.Store connection.old).now) × ((state S.Store connection.new).committed ≡ (state S.Store connection.old).committed)) }
    ensures cause { IfErr result (λ error. (fault : StoreFault) × (error ≡ StoreError.Store fault)) }
    ensures crash { HasCleanDisk (state S.Store connection.new) → OnOk result ((db : Trees) → (state S.Store connection.new).may_leave db → db ≡ (state S.Store connection.new).committed.trees) }
    ensures stop { HasCleanDisk (state S.Store connection.new) → (state S.Store connection.old).now.schema ≡ no_schema → (db : Trees) → (state S.Store connection.new).may_leave db
        → (state S.Store connection.old).may_leave db ⊎ IsEmptyOffice db }
    ensures idle { connection.new.in_transaction ≡ false }
{
    let mut tx = connection.transaction();
    if let Err(fault) = make_all(&mut tx) {
        return Err(StoreError::Store(fault));
    }
    match tx.commit() {
        Ok(()) => Ok(()),
        Err(error) => Err(StoreError::Store(fault_of(error))),
    }
}
