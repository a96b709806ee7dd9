//! Tables of version 1 become an office's.

ghost use Rattle.std.specs.Prelude.{◌≡◌, ◌≢◌, ◌⊎◌, ◌∷◌, [], false, IfErr, IfOk, IsTrue, None, OnErr, OnOk, Some};
ghost use Rattle.sqlite.specs.Held.{state};
ghost use Rattle.sqlite.specs.State.{HasCleanDisk, IsUnchanged, KeepsCommit, Shown, Survives};
ghost use Rattle.sqlite_trees.specs.Tree.{Trees};
ghost use Rattle.sqlite_value.specs.Order.{Row, column};
ghost use Rattle.poll_book.specs.Tables.{Tables};
ghost use Rattle.poll_book.specs.declared.fault.StoreFault.{StoreFault};
ghost use Rattle.office_store.specs.Blank.{six_schema};
ghost use Rattle.office_store.specs.Earlier.{AreBetween, HaveMoved, IsOfficeOf, StoodFor, WasHeld};
ghost use Rattle.office_store.specs.Kept.{IsHeld, Keeps};
ghost use Rattle.office_store.specs.Rows.{number_of};
ghost use Rattle.office_store.specs.Texts.{version_text};

use crate::ask::ask;
use crate::error::{StoreError, fault_of};
use crate::making::make_last;
use crate::run::run;
use crate::values::{number_of, value_at};
use poll_book::StoreFault;
use sqlite::{Alter, Connection, Error, Row, Transaction};

/// What became of tables that were to be of version 2.
#[derive(Clone, Copy, Debug, PartialEq, Eq)]
pub enum Migrated {
    /// They were of version 1.
    Done,
    /// They are as they were.
    Already,
}

fn set_version<S: Alter>(tx: &mut Transaction<'_, S>) -> Result<usize, StoreFault>
    ensures same_reference { tx.new.conn.ghost_name ≡ tx.old.conn.ghost_name }
    ensures moved { HasCleanDisk (state S.Store tx.new.conn.now) → IsTrue (state S.Store tx.old.conn.now).in_transaction → (kept : Tables) → AreBetween (state S.Store tx.old.conn.now).now kept
        → OnOk result (HaveMoved (state S.Store tx.new.conn.now).now kept) }
    ensures open { HasCleanDisk (state S.Store tx.new.conn.now) → IsTrue (state S.Store tx.old.conn.now).in_transaction
        → OnOk result (IsTrue (state S.Store tx.old.conn.now).is_open × IsTrue (state S.Store tx.new.conn.now).in_transaction) }
    ensures kept { HasCleanDisk (state S.Store tx.new.conn.now) → KeepsCommit (state S.Store tx.old.conn.now) (state S.Store tx.new.conn.now) }
    ensures survives { Survives (state S.Store tx.old.conn.now) (state S.Store tx.new.conn.now) (λ _. ⊥) }
{
    run(tx, "UPDATE meta SET value = 2 WHERE name = 'version'", &[])
}

fn move_all<S: Alter>(tx: &mut Transaction<'_, S>) -> Result<usize, StoreFault>
    ensures same_reference { tx.new.conn.ghost_name ≡ tx.old.conn.ghost_name }
    ensures moved { HasCleanDisk (state S.Store tx.new.conn.now) → IsTrue (state S.Store tx.old.conn.now).in_transaction → (kept : Tables) → (state S.Store tx.old.conn.now).now.schema ≡ six_schema
        → StoodFor (state S.Store tx.old.conn.now).now.trees kept → OnOk result (HaveMoved (state S.Store tx.new.conn.now).now kept) }
    ensures open { HasCleanDisk (state S.Store tx.new.conn.now) → IsTrue (state S.Store tx.old.conn.now).in_transaction
        → OnOk result (IsTrue (state S.Store tx.old.conn.now).is_open × IsTrue (state S.Store tx.new.conn.now).in_transaction) }
    ensures kept { HasCleanDisk (state S.Store tx.new.conn.now) → KeepsCommit (state S.Store tx.old.conn.now) (state S.Store tx.new.conn.now) }
    ensures survives { Survives (state S.Store tx.old.conn.now) (state S.Store tx.new.conn.now) (λ _. ⊥) }
{
    make_last(tx)?;
    set_version(tx)
}

fn upgrade<S: Alter>(connection: &mut Connection<S>) -> Result<(), StoreError>
    requires { connection.old.in_transaction ≡ false }
    ensures made { HasCleanDisk (state S.Store connection.new) → (kept : Tables) → WasHeld (state S.Store connection.old) kept → OnOk result (IsHeld (state S.Store connection.new) kept) }
    ensures office { HasCleanDisk (state S.Store connection.new) → (kept : Tables) → WasHeld (state S.Store connection.old) kept → OnOk result (IsOfficeOf (state S.Store connection.new).committed.trees kept) }
    ensures kept { HasCleanDisk (state S.Store connection.new) → (state S.Store connection.old).now ≡ (state S.Store connection.old).committed
        → OnErr result (IsTrue (state S.Store connection.new).is_open → ((state S.Store connection.new).now ≡ (state S.Store connection.old).now) × ((state S.Store connection.new).committed ≡ (state S.Store connection.old).committed)) }
    ensures cause { IfErr result (λ error. (fault : StoreFault) × (error ≡ StoreError.Store fault)) }
    ensures crash { HasCleanDisk (state S.Store connection.new) → OnOk result ((db : Trees) → (state S.Store connection.new).may_leave db → db ≡ (state S.Store connection.new).committed.trees) }
    ensures stop { HasCleanDisk (state S.Store connection.new) → (kept : Tables) → WasHeld (state S.Store connection.old) kept → (db : Trees) → (state S.Store connection.new).may_leave db
        → (state S.Store connection.old).may_leave db ⊎ IsOfficeOf db kept }
    ensures clean { HasCleanDisk (state S.Store connection.new) → HasCleanDisk (state S.Store connection.old) }
    ensures idle { connection.new.in_transaction ≡ false }
{
    let mut tx = connection.transaction();
    if let Err(fault) = move_all(&mut tx) {
        return Err(StoreError::Store(fault));
    }
    match tx.commit() {
        Ok(()) => Ok(()),
        Err(error) => Err(StoreError::Store(fault_of(error))),
    }
}

fn ask_version<S: Alter>(connection: &mut Connection<S>) -> Result<Vec<Row>, Error>
    requires { connection.old.in_transaction ≡ false }
    ensures rows { HasCleanDisk (state S.Store connection.new) → IfOk result (λ rows. Shown version_text [] (state S.Store connection.old) (state S.Store connection.new) rows.items) }
    ensures same { HasCleanDisk (state S.Store connection.new) → OnOk result (IsUnchanged (state S.Store connection.old) (state S.Store connection.new)) }
    ensures was { HasCleanDisk (state S.Store connection.new) → (kept : Tables) → WasHeld (state S.Store connection.old) kept
        → IsTrue (state S.Store connection.new).is_open → WasHeld (state S.Store connection.new) kept }
    ensures still { HasCleanDisk (state S.Store connection.new) → (state S.Store connection.old).now ≡ (state S.Store connection.old).committed → IsTrue (state S.Store connection.new).is_open
        → ((state S.Store connection.new).now ≡ (state S.Store connection.old).now) × ((state S.Store connection.new).committed ≡ (state S.Store connection.old).committed) }
    ensures keeps { Keeps (state S.Store connection.old) (state S.Store connection.new) }
    ensures idle { connection.new.in_transaction ≡ false }
{
    ask(
        connection,
        "SELECT value FROM meta WHERE name = 'version'",
        &[],
    )
}

fn version_in(rows: &[Row]) -> Result<u32, StoreError>
    ensures version { IfOk result (λ version. (row : Row) × (rows.now ≡ row ∷ []) × (number_of (column row 0) ≡ Some version)) }
    ensures bad_version { IfErr result (λ error. error ≡ StoreError.BadVersion → (row : Row) × (rows.now ≡ row ∷ []) × (number_of (column row 0) ≡ None)) }
{
    match rows {
        [] => Err(StoreError::NotOffice),
        [row] => match number_of(value_at(row, 0)) {
            Some(version) => Ok(version),
            None => Err(StoreError::BadVersion),
        },
        _ => Err(StoreError::Store(StoreFault::Other)),
    }
}

/// Why the version of tables isn't told. Text that isn't understood speaks of no office's tables.
fn told_of(error: Error) -> StoreError
    ensures { result ≢ StoreError.BadVersion }
{
    match fault_of(error) {
        StoreFault::Other => StoreError::NotOffice,
        fault => StoreError::Store(fault),
    }
}

fn version_of<S: Alter>(connection: &mut Connection<S>) -> Result<u32, StoreError>
    requires { connection.old.in_transaction ≡ false }
    ensures earlier { HasCleanDisk (state S.Store connection.new) → (kept : Tables) → WasHeld (state S.Store connection.old) kept → IfOk result (λ version. version ≡ 1) }
    ensures office { HasCleanDisk (state S.Store connection.new) → (kept : Tables) → IsHeld (state S.Store connection.old) kept → IfOk result (λ version. version ≡ 2) }
    ensures shown { HasCleanDisk (state S.Store connection.new) → IfOk result (λ version. (row : Row) × Shown version_text [] (state S.Store connection.old) (state S.Store connection.new) (row ∷ []) × (number_of (column row 0) ≡ Some version)) }
    ensures bad_version { HasCleanDisk (state S.Store connection.new) → IfErr result (λ error. error ≡ StoreError.BadVersion
        → (row : Row) × Shown version_text [] (state S.Store connection.old) (state S.Store connection.new) (row ∷ []) × (number_of (column row 0) ≡ None)) }
    ensures same { HasCleanDisk (state S.Store connection.new) → OnOk result (IsUnchanged (state S.Store connection.old) (state S.Store connection.new)) }
    ensures was { HasCleanDisk (state S.Store connection.new) → (kept : Tables) → WasHeld (state S.Store connection.old) kept
        → IsTrue (state S.Store connection.new).is_open → WasHeld (state S.Store connection.new) kept }
    ensures still { HasCleanDisk (state S.Store connection.new) → (state S.Store connection.old).now ≡ (state S.Store connection.old).committed → IsTrue (state S.Store connection.new).is_open
        → ((state S.Store connection.new).now ≡ (state S.Store connection.old).now) × ((state S.Store connection.new).committed ≡ (state S.Store connection.old).committed) }
    ensures keeps { Keeps (state S.Store connection.old) (state S.Store connection.new) }
    ensures idle { connection.new.in_transaction ≡ false }
{
    match ask_version(connection) {
        Ok(rows) => version_in(&rows),
        Err(error) => Err(told_of(error)),
    }
}

/// Makes tables of version 1 an office's, which keep the same and no void, in one transaction; tables that
/// are an office's already stay as they are, and so does what is neither. A stop inside it leaves what could
/// be left before, or the office's tables, all of them.
pub fn migrate<S: Alter>(connection: &mut Connection<S>) -> Result<Migrated, StoreError>
    requires { connection.old.in_transaction ≡ false }
    ensures done { HasCleanDisk (state S.Store connection.new) → (kept : Tables) → WasHeld (state S.Store connection.old) kept → OnOk result (IsHeld (state S.Store connection.new) kept) }
    ensures told { HasCleanDisk (state S.Store connection.new) → (kept : Tables) → WasHeld (state S.Store connection.old) kept → IfOk result (λ told. told ≡ Migrated.Done) }
    ensures kept { HasCleanDisk (state S.Store connection.new) → (state S.Store connection.old).now ≡ (state S.Store connection.old).committed
        → OnErr result (IsTrue (state S.Store connection.new).is_open → ((state S.Store connection.new).now ≡ (state S.Store connection.old).now) × ((state S.Store connection.new).committed ≡ (state S.Store connection.old).committed)) }
    ensures durable { HasCleanDisk (state S.Store connection.new) → (kept : Tables) → WasHeld (state S.Store connection.old) kept
        → OnOk result ((db : Trees) → (state S.Store connection.new).may_leave db → IsOfficeOf db kept) }
    ensures stop { HasCleanDisk (state S.Store connection.new) → (kept : Tables) → WasHeld (state S.Store connection.old) kept → (db : Trees) → (state S.Store connection.new).may_leave db
        → (state S.Store connection.old).may_leave db ⊎ IsOfficeOf db kept }
    ensures already { HasCleanDisk (state S.Store connection.new) → (kept : Tables) → IsHeld (state S.Store connection.old) kept → IfOk result (λ told. told ≡ Migrated.Already) }
    ensures same { HasCleanDisk (state S.Store connection.new) → (kept : Tables) → IsHeld (state S.Store connection.old) kept → Keeps (state S.Store connection.old) (state S.Store connection.new) }
    ensures unmoved { IfOk result (λ told. told ≡ Migrated.Already → Keeps (state S.Store connection.old) (state S.Store connection.new)) }
    ensures bad_version { IfErr result (λ error. error ≡ StoreError.BadVersion → HasCleanDisk (state S.Store connection.new)
        → (row : Row) × Shown version_text [] (state S.Store connection.old) (state S.Store connection.new) (row ∷ []) × (number_of (column row 0) ≢ Some 1) × (number_of (column row 0) ≢ Some 2)) }
    ensures idle { connection.new.in_transaction ≡ false }
{
    match version_of(connection)? {
        1 => {
            upgrade(connection)?;
            Ok(Migrated::Done)
        }
        2 => Ok(Migrated::Already),
        _ => Err(StoreError::BadVersion),
    }
}
