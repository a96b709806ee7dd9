//! The table of voided slots.

ghost use Rattle.std.specs.Prelude.{◌≡◌, ◌-◌, ◌^◌, ℕ, false, IfErr, IfOk, length};
ghost use Rattle.std.specs.List.{list_any};
ghost use Rattle.std.specs.Ordering.{nat_cmp};
ghost use Rattle.std.specs.BTreeSet.{contains};
ghost use Rattle.sqlite.specs.Held.{state};
ghost use Rattle.sqlite.specs.State.{HasCleanDisk};
ghost use Rattle.poll_book.specs.Tables.{Tables};
ghost use Rattle.office_store.specs.Kept.{Holds, Keeps};
ghost use Rattle.office_store.specs.Ends.{FailsToTell, ShowFrom, TellsFrom};
ghost use Rattle.office_store.specs.Rows.{number_below};
ghost use Rattle.office_store.specs.Voids.{AreVoidsOf, shows_slot};
ghost use Rattle.sqlite_value.specs.Value.{owned};

use crate::ask::ask;
use crate::error::fault_of;
use crate::values::{number_of, value_at};
use poll_book::StoreFault;
use sqlite::types::ValueRef;
use sqlite::{Alter, Connection, Row, params};
use std::alloc::Global;
use std::collections::BTreeSet;

/// What a point has of voided slots from one on.
#[derive(Clone, Copy)]
pub(crate) enum VoidsFrom {
    /// The slot is voided.
    Here,
    /// It isn't, and a row stands behind it.
    Later,
    /// It isn't, nor is one behind it.
    NoneLeft,
}

/// What an answer tells that shows the first voided slot from one on, if there is one. A row whose slot no office writes
/// stands behind it.
fn shown_from(rows: &[Row], slot: u32) -> VoidsFrom
    ensures { ShowFrom slot rows.now result }
{
    match rows {
        [] => VoidsFrom::NoneLeft,
        [row, ..] if number_of(value_at(row, 1)) == Some(slot) => VoidsFrom::Here,
        _ => VoidsFrom::Later,
    }
}

/// What a point has of voided slots from one on.
pub(crate) fn voids_from<S: Alter>(
    connection: &mut Connection<S>,
    point: u32,
    slot: u32,
) -> Result<VoidsFrom, StoreFault>
    requires { connection.old.in_transaction ≡ false }
    ensures value { HasCleanDisk (state S.Store connection.new) → (kept : Tables) → Holds (state S.Store connection.old) kept
        → IfOk result (TellsFrom point slot kept.voids) }
    ensures fails { HasCleanDisk (state S.Store connection.new)
        → IfErr result (FailsToTell point slot (state S.Store connection.old) (state S.Store connection.new)) }
    ensures keeps { Keeps (state S.Store connection.old) (state S.Store connection.new) }
    ensures idle { connection.new.in_transaction ≡ false }
{
    match ask(
        connection,
        "SELECT point, slot FROM void WHERE point = ?1 AND slot >= ?2 ORDER BY slot LIMIT 1",
        params![point, slot],
    ) {
        Ok(rows) => Ok(shown_from(&rows, slot)),
        Err(error) => Err(fault_of(error)),
    }
}

/// The slots that the rows of an answer show.
fn slots_shown(alloc: Global, rows: &[Row]) -> Result<BTreeSet<u32>, StoreFault>
    ensures { IfOk result (λ slots. (slot : ℕ) → contains nat_cmp slots slot ≡ list_any (shows_slot slot) rows.now) }
{
    let mut slots = BTreeSet::new(alloc);
    for row in rows {
        let Some(slot) = number_of(value_at(row, 1)) else {
            return Err(StoreFault::Other);
        };
        if slots.insert(slot).is_err() {
            return Err(StoreFault::Memory);
        }
    }
    Ok(slots)
}

/// The voided slots of a point from the one to the other.
pub(crate) fn slots_between<S: Alter>(
    alloc: Global,
    connection: &mut Connection<S>,
    point: u32,
    from: u32,
    to: u32,
) -> Result<BTreeSet<u32>, StoreFault>
    requires { connection.old.in_transaction ≡ false }
    ensures value { HasCleanDisk (state S.Store connection.new) → (kept : Tables) → Holds (state S.Store connection.old) kept
        → IfOk result (AreVoidsOf point from to kept.voids) }
    ensures keeps { Keeps (state S.Store connection.old) (state S.Store connection.new) }
    ensures idle { connection.new.in_transaction ≡ false }
{
    match ask(
        connection,
        "SELECT point, slot FROM void WHERE point = ?1 AND slot >= ?2 AND slot <= ?3 ORDER BY slot",
        params![point, from, to],
    ) {
        Ok(rows) => slots_shown(alloc, &rows),
        Err(error) => Err(fault_of(error)),
    }
}

/// The number that a count is, short of the greatest one, which stands for more as well.
fn count_of(value: ValueRef<'_>) -> Option<u64>
    ensures { result ≡ number_below (2 ^ 63 - 1) (owned value.entry) }
{
    match value {
        ValueRef::Int(n) if n < i64::MAX => match u64::try_from(n) {
            Ok(n) => Some(n),
            Err(_) => None,
        },
        _ => None,
    }
}

/// How many slots of points are voided.
pub(crate) fn count<S: Alter>(connection: &mut Connection<S>) -> Result<u64, StoreFault>
    requires { connection.old.in_transaction ≡ false }
    ensures value { HasCleanDisk (state S.Store connection.new) → (kept : Tables) → Holds (state S.Store connection.old) kept
        → IfOk result (λ count. count ≡ length kept.voids) }
    ensures keeps { Keeps (state S.Store connection.old) (state S.Store connection.new) }
    ensures idle { connection.new.in_transaction ≡ false }
{
    let rows = match ask(connection, "SELECT COUNT(*) FROM void", &[]) {
        Ok(rows) => rows,
        Err(error) => return Err(fault_of(error)),
    };
    match rows.as_slice() {
        [row] => match count_of(value_at(row, 0)) {
            Some(count) => Ok(count),
            None => Err(StoreFault::Other),
        },
        _ => Err(StoreFault::Other),
    }
}
