//! Rows of settings are written.

ghost use Rattle.std.specs.Prelude.{◌≡◌, ◌⊎◌, ◌+◌, IsTrue, None, OnOk, Some};
ghost use Rattle.sqlite.specs.Effect.{Database};
ghost use Rattle.sqlite.specs.Held.{state};
ghost use Rattle.sqlite.specs.State.{HasCleanDisk, KeepsCommit, Survives};
ghost use Rattle.poll_book.specs.declared.rows.Setting.{Setting};
ghost use Rattle.poll_book.specs.Tables.{Tables};
ghost use Rattle.poll_book.specs.Changes.{IsNextOrSettled, with_order};
ghost use Rattle.poll_book.specs.Orders.{last_order, setting_at, with_setting};
ghost use Rattle.office_store.specs.States.{code_number, state_number};
ghost use Rattle.office_store.specs.Writing.{Within};

use crate::run::run;
use crate::write_readings::put_words;
use poll_book::{OrderState, SettingRow, StoreFault, Words};
use sqlite::{Alter, Transaction, params};

fn state_number(state: OrderState) -> u8
    ensures { result ≡ state_number state }
{
    match state {
        OrderState::Waiting => 0,
        OrderState::Done => 1,
        OrderState::Refused(_) => 2,
    }
}

fn code_number(state: OrderState) -> u8
    ensures { result ≡ code_number state }
{
    match state {
        OrderState::Waiting | OrderState::Done => 0,
        OrderState::Refused(code) => code,
    }
}

/// Adds the next order.
pub(crate) fn put_setting<S: Alter>(
    tx: &mut Transaction<'_, S>,
    number: u32,
    point: u32,
    words: &Words,
    standing: OrderState,
) -> Result<usize, StoreFault>
    ensures same_reference { tx.new.conn.ghost_name ≡ tx.old.conn.ghost_name }
    ensures put { HasCleanDisk (state S.Store tx.new.conn.now) → (base : Database) → (kept : Tables) → Within (state S.Store tx.old.conn.now) base kept
        → number ≡ last_order kept.settings + 1
        → OnOk result (Within (state S.Store tx.new.conn.now) base (record kept { settings = with_setting number (record { point = point; words = words.now; state = standing }) kept.settings })) }
    ensures inside { HasCleanDisk (state S.Store tx.new.conn.now) → IsTrue (state S.Store tx.old.conn.now).in_transaction → OnOk result (IsTrue (state S.Store tx.new.conn.now).in_transaction) }
    ensures opened { HasCleanDisk (state S.Store tx.new.conn.now) → IsTrue (state S.Store tx.old.conn.now).in_transaction → OnOk result (IsTrue (state S.Store tx.old.conn.now).is_open) }
    ensures kept { HasCleanDisk (state S.Store tx.new.conn.now) → KeepsCommit (state S.Store tx.old.conn.now) (state S.Store tx.new.conn.now) }
    ensures survives { Survives (state S.Store tx.old.conn.now) (state S.Store tx.new.conn.now) (λ _. ⊥) }
{
    let mut bytes = [0; 250];
    let len = put_words(words.as_slice(), &mut bytes);
    run(
        tx,
        "INSERT INTO setting(number, point, words, state, code) VALUES (?1, ?2, ?3, ?4, ?5)",
        params![
            number,
            point,
            &bytes[..len],
            u32::from(state_number(standing)),
            u32::from(code_number(standing))
        ],
    )
}

/// Writes how an order stands that is there.
pub(crate) fn settle<S: Alter>(
    tx: &mut Transaction<'_, S>,
    number: u32,
    standing: OrderState,
) -> Result<usize, StoreFault>
    ensures same_reference { tx.new.conn.ghost_name ≡ tx.old.conn.ghost_name }
    ensures put { HasCleanDisk (state S.Store tx.new.conn.now) → (base : Database) → (kept : Tables) → (before : Setting) → Within (state S.Store tx.old.conn.now) base kept
        → setting_at kept.settings number ≡ Some before
        → OnOk result (Within (state S.Store tx.new.conn.now) base (record kept { settings = with_setting number (record before { state = standing }) kept.settings })) }
    ensures inside { HasCleanDisk (state S.Store tx.new.conn.now) → IsTrue (state S.Store tx.old.conn.now).in_transaction → OnOk result (IsTrue (state S.Store tx.new.conn.now).in_transaction) }
    ensures opened { HasCleanDisk (state S.Store tx.new.conn.now) → IsTrue (state S.Store tx.old.conn.now).in_transaction → OnOk result (IsTrue (state S.Store tx.old.conn.now).is_open) }
    ensures kept { HasCleanDisk (state S.Store tx.new.conn.now) → KeepsCommit (state S.Store tx.old.conn.now) (state S.Store tx.new.conn.now) }
    ensures survives { Survives (state S.Store tx.old.conn.now) (state S.Store tx.new.conn.now) (λ _. ⊥) }
{
    run(
        tx,
        "UPDATE setting SET state = ?2, code = ?3 WHERE number = ?1",
        params![
            number,
            u32::from(state_number(standing)),
            u32::from(code_number(standing))
        ],
    )
}

/// Adds the order of a change, or writes how it stands, if it has one.
pub(crate) fn put_order<S: Alter>(
    tx: &mut Transaction<'_, S>,
    setting: &Option<SettingRow>,
) -> Result<(), StoreFault>
    ensures same_reference { tx.new.conn.ghost_name ≡ tx.old.conn.ghost_name }
    ensures put { HasCleanDisk (state S.Store tx.new.conn.now) → (base : Database) → (kept : Tables) → Within (state S.Store tx.old.conn.now) base kept
        → IsNextOrSettled kept.settings setting.now
        → OnOk result (Within (state S.Store tx.new.conn.now) base (record kept { settings = with_order setting.now kept.settings })) }
    ensures inside { HasCleanDisk (state S.Store tx.new.conn.now) → IsTrue (state S.Store tx.old.conn.now).in_transaction → OnOk result (IsTrue (state S.Store tx.new.conn.now).in_transaction) }
    ensures opened { HasCleanDisk (state S.Store tx.new.conn.now) → IsTrue (state S.Store tx.old.conn.now).in_transaction → OnOk result ((setting.now ≡ None) ⊎ IsTrue (state S.Store tx.old.conn.now).is_open) }
    ensures kept { HasCleanDisk (state S.Store tx.new.conn.now) → KeepsCommit (state S.Store tx.old.conn.now) (state S.Store tx.new.conn.now) }
    ensures survives { Survives (state S.Store tx.old.conn.now) (state S.Store tx.new.conn.now) (λ _. ⊥) }
{
    let Some(row) = setting else {
        return Ok(());
    };
    match row.state {
        OrderState::Waiting => put_setting(tx, row.number, row.point, &row.words, row.state)?,
        _ => settle(tx, row.number, row.state)?,
    };
    Ok(())
}
