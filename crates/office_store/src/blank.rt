//! Whether a database has a table at all.

ghost use Rattle.std.specs.Prelude.{◌≡◌, ◌↔◌, [], List, false, IfOk, IfErr, IsTrue};
ghost use Rattle.sqlite.specs.Held.{state};
ghost use Rattle.sqlite.specs.State.{HasCleanDisk, FailsToQuery, Shown};
ghost use Rattle.sqlite_value.specs.Order.{Row};
ghost use Rattle.poll_book.specs.declared.fault.StoreFault.{StoreFault};
ghost use Rattle.office_store.specs.Faults.{fault_of};
ghost use Rattle.office_store.specs.Kept.{Keeps};
ghost use Rattle.office_store.specs.Texts.{names_text};

use crate::ask::ask;
use crate::error::{StoreError, fault_of};
use sqlite::{Alter, Connection};

/// Whether a database has nothing at all: no table, and no index, view or trigger either. A creation that was
/// stopped may leave one so. It changes nothing.
pub fn is_blank<S: Alter>(connection: &mut Connection<S>) -> Result<bool, StoreError>
    requires { connection.old.in_transaction ≡ false }
    ensures shown { HasCleanDisk (state S.Store connection.new) → IfOk result (λ blank. (rows : List Row)
        × Shown names_text [] (state S.Store connection.old) (state S.Store connection.new) rows × (IsTrue blank ↔ (rows ≡ []))) }
    ensures failed { IfErr result (λ error. HasCleanDisk (state S.Store connection.new) → (cause : _)
        × FailsToQuery names_text [] (state S.Store connection.old) (state S.Store connection.new) cause × (error ≡ StoreError.Store (fault_of cause))) }
    ensures named { IfErr result (λ error. (fault : StoreFault) × (error ≡ StoreError.Store fault)) }
    ensures keeps { Keeps (state S.Store connection.old) (state S.Store connection.new) }
    ensures idle { connection.new.in_transaction ≡ false }
{
    match ask(connection, "SELECT name FROM sqlite_schema LIMIT 1", &[]) {
        Ok(rows) => Ok(rows.is_empty()),
        Err(error) => Err(StoreError::Store(fault_of(error))),
    }
}
