//! The table of totals.

ghost use Rattle.std.specs.Prelude.{◌≡◌, ◌<◌, ◌^◌, All, IfOk, OnOk, Some, false};
ghost use Rattle.sqlite.specs.Held.{state};
ghost use Rattle.sqlite.specs.State.{HasCleanDisk};
ghost use Rattle.sqlite_value.specs.Order.{column};
ghost use Rattle.poll_book.specs.Tables.{Tables};
ghost use Rattle.poll_book.specs.Totals.{stored_total};
ghost use Rattle.office_store.specs.Kept.{Holds, Keeps};
ghost use Rattle.office_store.specs.Rows.{wide_of};

use crate::ask::ask;
use crate::error::fault_of;
use crate::values::{value_at, wide_of};
use poll_book::StoreFault;
use sqlite::{Alter, Connection, Row, params};

/// The total that a row of an answer shows. No counter goes so far that it passes 127 bits.
fn sum_of(row: &Row) -> Result<u128, StoreFault>
    ensures { IfOk result (λ sum. wide_of (column row.now 1) ≡ Some sum) }
{
    match wide_of(value_at(row, 1)) {
        Some(sum) if sum <= i128::MAX as u128 => Ok(sum),
        _ => Err(StoreFault::Other),
    }
}

/// What is stored of how far a counter went; 0 for a point that has no total.
pub(crate) fn total<S: Alter>(
    connection: &mut Connection<S>,
    point: u32,
) -> Result<u128, StoreFault>
    requires { connection.old.in_transaction ≡ false }
    ensures value { HasCleanDisk (state S.Store connection.new) → (kept : Tables) → Holds (state S.Store connection.old) kept
        → IfOk result (λ sum. sum ≡ stored_total kept.totals point) }
    ensures slots { HasCleanDisk (state S.Store connection.new) → (kept : Tables) → Holds (state S.Store connection.old) kept
        → OnOk result (All (λ row. row.0.1 < 2 ^ 32) kept.readings) }
    ensures keeps { Keeps (state S.Store connection.old) (state S.Store connection.new) }
    ensures idle { connection.new.in_transaction ≡ false }
{
    match ask(
        connection,
        "SELECT point, value FROM total WHERE point = ?1 ORDER BY point",
        params![point],
    ) {
        Ok(rows) => match rows.as_slice() {
            [] => Ok(0),
            [row] => sum_of(row),
            _ => Err(StoreFault::Other),
        },
        Err(error) => Err(fault_of(error)),
    }
}
