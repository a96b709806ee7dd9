//! What is written to a keeper.
ghost use Rattle.std.specs.Prelude.{◌≡◌, ◌⊎◌, ◌≤◌, ◌*◌, IfOk, IfSome, OnErr, MatchResult, false, is_err, length};
ghost use Rattle.poll_book.specs.Tables.{Tables, Within, new_rows};
ghost use Rattle.poll_book.specs.Changes.{IsNew, applied, keyed};
ghost use Rattle.poll_book.specs.Fault.{Accounts};
ghost use Rattle.poll_book.specs.Looks.{IsRaisedAtMost};
ghost use Rattle.poll_book.specs.Orders.{is_waiting, setting_at};
ghost use Rattle.point_list.specs.Lists.{point_limit};
ghost use Rattle.office_core.specs.Orders.{waiting_at};
ghost use Rattle.office_core.specs.Keeping.{AreCovered, IsCounted, with_given, with_state};
ghost use Rattle.office_core.specs.Leavings.{LeftAfter};

use crate::changes::state_change;
use mb_pdu::Registers;
use poll_book::{Change, Keeper, OrderState, PointRow, Setting, StoreFault, reply_change};
use std::alloc::Global;

/// Writes a change, whole or not at all.
pub(crate) fn commit<K: Keeper>(keeper: &mut K, change: &Change) -> Result<(), StoreFault>
    ensures kept { K.is_clean keeper.new → (kept : Tables) → K.holds keeper.old kept → IsNew change.now kept
        → MatchResult result (λ _. K.holds keeper.new (applied change.now kept)) (λ _. K.holds keeper.new kept) }
    ensures leaves { K.is_clean keeper.new → (kept : Tables) → K.holds keeper.old kept → IsNew change.now kept → (left : Tables) → K.may_leave keeper.new left
        → MatchResult result (λ _. left ≡ applied change.now kept) (λ _. K.may_leave keeper.old left ⊎ (left ≡ applied change.now kept)) }
    ensures cause { Accounts K.may_refuse (K.refused keeper.old) (K.refused keeper.new) result }
    ensures looked { K.looked keeper.new ≡ K.looked keeper.old }
    ensures err { OnErr result (Within (K.holds keeper.old) (K.holds keeper.new)) }
    ensures clean { K.is_clean keeper.new → K.is_clean keeper.old }
{
    keeper.apply(change)
}

/// Writes a change that nothing needs afterwards.
// A change is given back here alone: each place that does so is proved for every form of its parts.
pub(crate) fn write<K: Keeper>(keeper: &mut K, change: Change) -> Result<(), StoreFault>
    ensures kept { K.is_clean keeper.new → (kept : Tables) → K.holds keeper.old kept → IsNew change kept
        → MatchResult result (λ _. K.holds keeper.new (applied change kept)) (λ _. K.holds keeper.new kept) }
    ensures leaves { K.is_clean keeper.new → (kept : Tables) → K.holds keeper.old kept → IsNew change kept → (left : Tables) → K.may_leave keeper.new left
        → MatchResult result (λ _. left ≡ applied change kept) (λ _. K.may_leave keeper.old left ⊎ (left ≡ applied change kept)) }
    ensures cause { Accounts K.may_refuse (K.refused keeper.old) (K.refused keeper.new) result }
    ensures looked { K.looked keeper.new ≡ K.looked keeper.old }
    ensures err { OnErr result (Within (K.holds keeper.old) (K.holds keeper.new)) }
    ensures clean { K.is_clean keeper.new → K.is_clean keeper.old }
{
    commit(keeper, &change)
}

/// Writes the readings that the keeper lacks, and tells how many they are.
pub(crate) fn keep_readings<K: Keeper>(
    alloc: Global,
    keeper: &mut K,
    covered: &[(PointRow, Registers)],
    slot: u32,
) -> Result<u32, StoreFault>
    requires { length covered.now ≤ point_limit }
    ensures count { K.is_clean keeper.new → (kept : Tables) → K.holds keeper.old kept
        → IfOk result (λ count. count ≡ length (new_rows kept.readings (keyed slot covered.now))) }
    ensures kept { K.is_clean keeper.new → (kept : Tables) → K.holds keeper.old kept → IsCounted kept → AreCovered kept.points slot covered.now
        → MatchResult result (λ _. K.holds keeper.new (with_given (keyed slot covered.now) kept)) (λ _. K.holds keeper.new kept) }
    ensures leaves { K.is_clean keeper.new → (kept : Tables) → K.holds keeper.old kept → IsCounted kept → AreCovered kept.points slot covered.now
        → Within (K.may_leave keeper.new) (LeftAfter (K.may_leave keeper.old) kept (with_given (keyed slot covered.now) kept) (is_err result)) }
    ensures cause { Accounts K.may_refuse (K.refused keeper.old) (K.refused keeper.new) result }
    ensures looks { IsRaisedAtMost (5 * length covered.now) (K.looked keeper.old) (K.looked keeper.new) }
    ensures err { OnErr result (Within (K.holds keeper.old) (K.holds keeper.new)) }
    ensures clean { K.is_clean keeper.new → K.is_clean keeper.old }
{
    let change = reply_change(alloc, keeper, covered, slot)?;
    let count = change.readings.as_slice().len() as u32;
    if count == 0 {
        return Ok(0);
    }
    write(keeper, change)?;
    Ok(count)
}

/// What an order sets, where it waits.
fn waiting_setting<K: Keeper>(keeper: &mut K, order: u32) -> Result<Option<Setting>, StoreFault>
    ensures value { K.is_clean keeper.new → (kept : Tables) → K.holds keeper.old kept
        → IfOk result (λ found. found ≡ waiting_at (setting_at kept.settings order)) }
    ensures cause { Accounts K.may_refuse (K.refused keeper.old) (K.refused keeper.new) result }
    ensures looked { K.looked keeper.new ≡ K.looked keeper.old }
    ensures same { Within (K.holds keeper.old) (K.holds keeper.new) }
    ensures leaves { K.is_clean keeper.new → Within (K.may_leave keeper.new) (K.may_leave keeper.old) }
    ensures clean { K.is_clean keeper.new → K.is_clean keeper.old }
{
    match keeper.setting(order)? {
        Some(setting) if setting.state == OrderState::Waiting => Ok(Some(setting)),
        _ => Ok(None),
    }
}

/// Settles an order that waits. One that is settled stays as it is.
pub(crate) fn keep_state<K: Keeper>(
    alloc: Global,
    keeper: &mut K,
    order: u32,
    state: Option<OrderState>,
) -> Result<(), StoreFault>
    requires { IfSome state (λ s. is_waiting s ≡ false) }
    ensures kept { K.is_clean keeper.new → (kept : Tables) → K.holds keeper.old kept → IsCounted kept
        → MatchResult result (λ _. K.holds keeper.new (with_state order state kept)) (λ _. K.holds keeper.new kept) }
    ensures leaves { K.is_clean keeper.new → (kept : Tables) → K.holds keeper.old kept → IsCounted kept
        → Within (K.may_leave keeper.new) (LeftAfter (K.may_leave keeper.old) kept (with_state order state kept) (is_err result)) }
    ensures cause { Accounts K.may_refuse (K.refused keeper.old) (K.refused keeper.new) result }
    ensures looked { K.looked keeper.new ≡ K.looked keeper.old }
    ensures err { OnErr result (Within (K.holds keeper.old) (K.holds keeper.new)) }
    ensures clean { K.is_clean keeper.new → K.is_clean keeper.old }
{
    let Some(state) = state else {
        return Ok(());
    };
    let Some(setting) = waiting_setting(keeper, order)? else {
        return Ok(());
    };
    write(keeper, state_change(alloc, order, setting, state))
}
