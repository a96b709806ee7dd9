//! Queries, which change nothing.

ghost use Rattle.std.specs.Prelude.{◌≡◌, false, IfOk, IfErr};
ghost use Rattle.sqlite.specs.Values.{bound};
ghost use Rattle.sqlite.specs.Held.{state};
ghost use Rattle.sqlite.specs.State.{HasCleanDisk, Shown, FailsToQuery};
ghost use Rattle.office_store.specs.Kept.{IsQuery, Keeps};

use sqlite::types::ValueRef;
use sqlite::{Alter, Connection, Error, Row};

/// All rows of the answer.
pub(crate) fn ask<S: Alter>(
    connection: &mut Connection<S>,
    sql: &str,
    params: &[ValueRef<'_>],
) -> Result<Vec<Row>, Error>
    requires idle { connection.old.in_transaction ≡ false }
    requires query { IsQuery sql.now }
    ensures rows { HasCleanDisk (state S.Store connection.new) → IfOk result (λ rows. Shown sql.now (bound params.now) (state S.Store connection.old) (state S.Store connection.new) rows.items) }
    ensures fails { HasCleanDisk (state S.Store connection.new) → IfErr result (FailsToQuery sql.now (bound params.now) (state S.Store connection.old) (state S.Store connection.new)) }
    ensures keeps { Keeps (state S.Store connection.old) (state S.Store connection.new) }
    ensures idle { connection.new.in_transaction ≡ false }
{
    connection.query_all(sql, params)
}
