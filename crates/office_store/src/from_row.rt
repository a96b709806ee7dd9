//! What the rows of an answer stand for.

ghost use Rattle.std.specs.Prelude.{◌≡◌, IfErr, IfOk, Some, map};
ghost use Rattle.office_store.specs.Faults.{IsOfForm};

use poll_book::StoreFault;
use sqlite::Row;
use std::alloc::Global;

/// A value that a row of an answer may stand for.
pub(crate) trait FromRow {
    ghost use Rattle.std.specs.Prelude.{Option};
    ghost use Rattle.sqlite_value.specs.Order.{Row};

    /// What the tables are said to hold of such values.
    ghost Entry: { Type 0 };

    ghost as_entry: { Self → Entry };

    /// The entry that a row shows, if it is in the form.
    ghost shown: { Row → Option Entry };

    fn from_row(alloc: Global, row: &Row) -> Result<Self, StoreFault>
        ensures shown { IfOk result (λ value. shown row.now ≡ Some (as_entry value)) }
        ensures told { IfErr result IsOfForm };
}

/// The values of all rows.
pub(crate) fn all_of<T: FromRow + Drop>(alloc: Global, rows: &[Row]) -> Result<Vec<T>, StoreFault>
    ensures shown { IfOk result (λ values. map T.shown rows.now ≡ map Some (map T.as_entry values.items)) }
    ensures told { IfErr result IsOfForm }
{
    let mut values = Vec::new(alloc);
    for row in rows {
        values.push(T::from_row(alloc, row)?)?;
    }
    Ok(values)
}
