//! The table of points whose device sends the least significant register first.

ghost use Rattle.std.specs.Prelude.{◌≡◌, All, IfOk, false, map};
ghost use Rattle.sqlite.specs.Held.{state};
ghost use Rattle.sqlite.specs.State.{HasCleanDisk};
ghost use Rattle.poll_book.specs.Tables.{Tables};
ghost use Rattle.office_store.specs.Kept.{Holds, Keeps};
ghost use Rattle.office_store.specs.Swaps.{CanHaveOrder, as_swap, is_swapped, plain, swaps_of};

use crate::ask::ask;
use crate::error::fault_of;
use crate::from_row::{FromRow, all_of};
use crate::values::{number_of, value_at};
use point_list::Point;
use poll_book::{PointRow, StoreFault};
use sqlite::{Alter, Connection, Row};
use std::alloc::Global;
use sunspec::WordOrder;

/// The number of a point that is swapped.
#[derive(Clone, Copy)]
pub(crate) struct Swap {
    point: u32,
}

impl FromRow for Swap {
    ghost use Rattle.std.specs.Prelude.{⊤, ℕ};
    ghost use Rattle.office_store.specs.Rows.{stored_swap};
    ghost use Rattle.office_store.specs.Swaps.{as_swap};

    ghost Entry = { ℕ × ⊤ };

    ghost as_entry = { as_swap };

    ghost shown = { stored_swap };

    fn from_row(_alloc: Global, row: &Row) -> Result<Swap, StoreFault> {
        match number_of(value_at(row, 0)) {
            Some(point) => Ok(Swap { point }),
            None => Err(StoreFault::Other),
        }
    }
}

/// The swapped points, by their numbers.
pub(crate) fn all_swaps<S: Alter>(
    alloc: Global,
    connection: &mut Connection<S>,
) -> Result<Vec<Swap>, StoreFault>
    requires { connection.old.in_transaction ≡ false }
    ensures value { HasCleanDisk (state S.Store connection.new) → (kept : Tables) → Holds (state S.Store connection.old) kept
        → IfOk result (λ swaps. map as_swap swaps.items ≡ swaps_of kept.points) }
    ensures keeps { Keeps (state S.Store connection.old) (state S.Store connection.new) }
    ensures idle { connection.new.in_transaction ≡ false }
{
    match ask(connection, "SELECT point FROM swapped ORDER BY point", &[]) {
        Ok(rows) => all_of(alloc, &rows),
        Err(error) => Err(fault_of(error)),
    }
}

/// A point in the order that is told, if its type can have it. No office keeps another.
fn with_order(row: &PointRow, swaps: bool) -> Result<PointRow, StoreFault>
    ensures plain { IfOk result (λ known. plain known ≡ plain row.now) }
    ensures order { IfOk result (λ known. is_swapped known ≡ swaps) }
    ensures listed { IfOk result (λ known. CanHaveOrder known) }
{
    if swaps && !row.point.kind.can_be_swapped() {
        return Err(StoreFault::Other);
    }
    let order = if swaps {
        WordOrder::Swapped
    } else {
        WordOrder::Big
    };
    Ok(PointRow {
        number: row.number,
        point: Point { order, ..row.point },
    })
}

/// These points, of which those are swapped that have a row in the table, each of whose rows names one of them.
pub(crate) fn with_swaps(
    alloc: Global,
    points: &[PointRow],
    swaps: &[Swap],
) -> Result<Vec<PointRow>, StoreFault>
    ensures plain { IfOk result (λ known. map plain known.items ≡ map plain points.now) }
    ensures swaps { IfOk result (λ known. swaps_of known.items ≡ map as_swap swaps.now) }
    ensures listed { IfOk result (λ known. All CanHaveOrder known.items) }
{
    let mut known = Vec::new(alloc);
    let mut next = 0;
    for row in points {
        let is_next = next < swaps.len() && swaps[next].point == row.number;
        known.push(with_order(row, is_next)?)?;
        if is_next {
            next += 1;
        }
    }
    if next < swaps.len() {
        return Err(StoreFault::Other);
    }
    Ok(known)
}
