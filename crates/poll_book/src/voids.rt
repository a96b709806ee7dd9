//! Voided slots in memory.
ghost use Rattle.std.specs.Prelude.{◌≡◌, ◌≤◌, ℕ, false, IfOk, IfSome, OnErr, OnOk};
ghost use Rattle.poll_book.specs.Changes.{void_key, with_voided};
ghost use Rattle.poll_book.specs.Tables.{Voids as Pairs, is_void, with_void};

use crate::rows::VoidRow;
use std::alloc::AllocError;
use std::collections::BTreeMap;

/// The pairs of a point's number and a slot that are voided.
pub(crate) type Voids = BTreeMap<(u32, u32), ()>;

/// Whether the slot of a point is voided.
pub(crate) fn is_void(voids: &Voids, point: u32, slot: u32) -> bool
    ensures { result ≡ is_void voids.now.entries (point, slot) }
{
    voids.contains_key(&(point, slot))
}

/// Whether slots of a point from the one to the other may be voided: if not, none of them is.
pub(crate) fn may_be_void(voids: &Voids, point: u32, from: u32, to: u32) -> bool
    ensures { result ≡ false → (slot : ℕ) → from ≤ slot → slot ≤ to → is_void voids.now.entries (point, slot) ≡ false }
{
    from <= to && voids.range((point, from)..=(point, to)).next().is_some()
}

/// Puts a pair, and answers it if it is new.
fn put_row(voids: &mut Voids, row: VoidRow) -> Result<Option<VoidRow>, AllocError>
    ensures put { OnOk result (voids.new.entries ≡ with_void (void_key row) voids.old.entries) }
    ensures new { IfOk result (λ new. voids.new.entries ≡ with_voided new voids.old.entries) }
    ensures fresh { IfOk result (λ new. IfSome new (λ row. is_void voids.old.entries (void_key row) ≡ false)) }
    ensures same { OnErr result (voids.new.entries ≡ voids.old.entries) }
{
    match voids.insert((row.point, row.slot), ()) {
        Ok(Some(())) => Ok(None),
        Ok(None) => Ok(Some(row)),
        Err(_) => Err(AllocError),
    }
}

/// Puts the pair of a change, if it has one, and answers it if it is new.
pub(crate) fn put_void(
    voids: &mut Voids,
    row: Option<VoidRow>,
) -> Result<Option<VoidRow>, AllocError>
    ensures put { OnOk result (voids.new.entries ≡ with_voided row voids.old.entries) }
    ensures new { IfOk result (λ new. voids.new.entries ≡ with_voided new voids.old.entries) }
    ensures fresh { IfOk result (λ new. IfSome new (λ row. is_void voids.old.entries (void_key row) ≡ false)) }
    ensures same { OnErr result (voids.new.entries ≡ voids.old.entries) }
{
    match row {
        Some(row) => put_row(voids, row),
        None => Ok(None),
    }
}

/// Takes a pair out again that was put, where it was new.
pub(crate) fn take_void(voids: &mut Voids, row: Option<VoidRow>)
    ensures { (before : Pairs) → IfSome row (λ row. is_void before (void_key row) ≡ false)
        → voids.old.entries ≡ with_voided row before → voids.new.entries ≡ before }
{
    if let Some(row) = row {
        voids.remove(&(row.point, row.slot));
    }
}
