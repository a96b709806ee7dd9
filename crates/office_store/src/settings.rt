//! The table of settings.

ghost use Rattle.std.specs.Prelude.{◌≡◌, false, IfOk, IsTrue, OnOk, map};
ghost use Rattle.sqlite.specs.Held.{state};
ghost use Rattle.sqlite.specs.State.{HasCleanDisk};
ghost use Rattle.sqlite_value.specs.Value.{owned};
ghost use Rattle.poll_book.specs.Tables.{Tables};
ghost use Rattle.poll_book.specs.Orders.{as_setting, last_order, setting_at};
ghost use Rattle.office_store.specs.Kept.{Holds, Keeps};
ghost use Rattle.office_store.specs.Rows.{state_of};
ghost use Rattle.office_store.specs.Waiting.{AreThose};

use crate::ask::ask;
use crate::error::fault_of;
use crate::from_row::{FromRow, all_of};
use crate::values::{byte_of, number_of, value_at, words_of};
use poll_book::{OrderState, Setting, SettingRow, StoreFault};
use sqlite::types::ValueRef;
use sqlite::{Alter, Connection, Row, params};
use std::alloc::Global;

fn state_of(state: ValueRef<'_>, code: ValueRef<'_>) -> Option<OrderState>
    ensures { result ≡ state_of (owned state.entry) (owned code.entry) }
{
    let state = byte_of(state)?;
    let code = byte_of(code)?;
    match (state, code) {
        (2, _) => Some(OrderState::Refused(code)),
        (0, 0) => Some(OrderState::Waiting),
        (1, 0) => Some(OrderState::Done),
        _ => None,
    }
}

impl FromRow for SettingRow {
    ghost use Rattle.std.specs.Prelude.{ℕ};
    ghost use Rattle.poll_book.specs.declared.rows.Setting.{Setting};
    ghost use Rattle.poll_book.specs.Orders.{as_setting};
    ghost use Rattle.office_store.specs.Rows.{shown_setting};

    ghost Entry = { ℕ × Setting };

    ghost as_entry = { as_setting };

    ghost shown = { shown_setting };

    fn from_row(alloc: Global, row: &Row) -> Result<SettingRow, StoreFault> {
        let number = number_of(value_at(row, 0)).ok_or(StoreFault::Other)?;
        let point = number_of(value_at(row, 1)).ok_or(StoreFault::Other)?;
        let words = words_of(alloc, value_at(row, 2))?;
        let state = state_of(value_at(row, 3), value_at(row, 4)).ok_or(StoreFault::Other)?;
        Ok(SettingRow {
            number,
            point,
            words,
            state,
        })
    }
}

/// The orders that wait, by their numbers.
pub(crate) fn all_waiting<S: Alter>(
    alloc: Global,
    connection: &mut Connection<S>,
) -> Result<Vec<SettingRow>, StoreFault>
    requires { connection.old.in_transaction ≡ false }
    ensures value { HasCleanDisk (state S.Store connection.new) → (kept : Tables) → Holds (state S.Store connection.old) kept
        → IfOk result (λ orders. AreThose kept.settings (map as_setting orders.items)) }
    ensures keeps { Keeps (state S.Store connection.old) (state S.Store connection.new) }
    ensures idle { connection.new.in_transaction ≡ false }
{
    match ask(
        connection,
        "SELECT number, point, words, state, code FROM setting WHERE state = 0 ORDER BY number",
        &[],
    ) {
        Ok(rows) => all_of(alloc, &rows),
        Err(error) => Err(fault_of(error)),
    }
}

/// What the order of a number sets, if there is one.
pub(crate) fn setting_at<S: Alter>(
    connection: &mut Connection<S>,
    number: u32,
) -> Result<Option<Setting>, StoreFault>
    requires { connection.old.in_transaction ≡ false }
    ensures value { HasCleanDisk (state S.Store connection.new) → (kept : Tables) → Holds (state S.Store connection.old) kept
        → IfOk result (λ found. found ≡ setting_at kept.settings number) }
    ensures keeps { Keeps (state S.Store connection.old) (state S.Store connection.new) }
    ensures idle { connection.new.in_transaction ≡ false }
{
    let rows = match ask(
        connection,
        "SELECT number, point, words, state, code FROM setting WHERE number = ?1 ORDER BY number",
        params![number],
    ) {
        Ok(rows) => rows,
        Err(error) => return Err(fault_of(error)),
    };
    match rows.as_slice() {
        [] => Ok(None),
        [row] => {
            let found = SettingRow::from_row(*rows.allocator(), row)?;
            Ok(Some(Setting {
                point: found.point,
                words: found.words,
                state: found.state,
            }))
        }
        _ => Err(StoreFault::Other),
    }
}

/// The number of the last order, 0 before the first.
pub(crate) fn last_order<S: Alter>(connection: &mut Connection<S>) -> Result<u32, StoreFault>
    requires { connection.old.in_transaction ≡ false }
    ensures value { HasCleanDisk (state S.Store connection.new) → (kept : Tables) → Holds (state S.Store connection.old) kept
        → IfOk result (λ number. number ≡ last_order kept.settings) }
    ensures open { HasCleanDisk (state S.Store connection.new) → OnOk result (IsTrue (state S.Store connection.old).is_open) }
    ensures keeps { Keeps (state S.Store connection.old) (state S.Store connection.new) }
    ensures idle { connection.new.in_transaction ≡ false }
{
    let rows = match ask(
        connection,
        "SELECT number, point, words, state, code FROM setting ORDER BY number DESC LIMIT 1",
        &[],
    ) {
        Ok(rows) => rows,
        Err(error) => return Err(fault_of(error)),
    };
    match rows.as_slice() {
        [] => Ok(0),
        [row] => match number_of(value_at(row, 0)) {
            Some(number) => Ok(number),
            None => Err(StoreFault::Other),
        },
        _ => Err(StoreFault::Other),
    }
}
