//! The table of numbers with names.

ghost use Rattle.std.specs.Prelude.{◌≡◌, false, IfOk, IsTrue, OnOk};
ghost use Rattle.sqlite.specs.Held.{state};
ghost use Rattle.sqlite.specs.State.{HasCleanDisk};
ghost use Rattle.poll_book.specs.Tables.{Tables};
ghost use Rattle.office_store.specs.Kept.{Holds, Keeps};

use crate::ask::ask;
use crate::error::fault_of;
use crate::values::{number_of, value_at};
use poll_book::StoreFault;
use sqlite::{Alter, Connection};

/// The number of the last connection, 0 before the first.
pub(crate) fn last_connection<S: Alter>(connection: &mut Connection<S>) -> Result<u32, StoreFault>
    requires { connection.old.in_transaction ≡ false }
    ensures value { HasCleanDisk (state S.Store connection.new) → (kept : Tables) → Holds (state S.Store connection.old) kept
        → IfOk result (λ number. number ≡ kept.connections) }
    ensures open { HasCleanDisk (state S.Store connection.new) → OnOk result (IsTrue (state S.Store connection.old).is_open × IsTrue (state S.Store connection.new).is_open) }
    ensures keeps { Keeps (state S.Store connection.old) (state S.Store connection.new) }
    ensures idle { connection.new.in_transaction ≡ false }
{
    let rows = match ask(
        connection,
        "SELECT value FROM meta WHERE name = 'connections'",
        &[],
    ) {
        Ok(rows) => rows,
        Err(error) => return Err(fault_of(error)),
    };
    match rows.as_slice() {
        [row] => match number_of(value_at(row, 0)) {
            Some(number) => Ok(number),
            None => Err(StoreFault::Other),
        },
        _ => Err(StoreFault::Other),
    }
}
