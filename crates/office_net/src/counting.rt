//! The last slot in which a counter is counted.
ghost use Rattle.std.specs.Prelude.{◌≡◌, ◌<◌, ◌+◌, IfOk};
ghost use Rattle.office_net.specs.Counting as counting;
ghost use Rattle.office_net.specs.Counting.{IsLastCounted, Learnt};
ghost use Rattle.office_core.specs.Errors.{IsOfStore};
ghost use Rattle.office_core.specs.Offices.{AccountsFor};
ghost use Rattle.office_core.specs.Proceeding.{GoesAlong, Nothing};

use office_core::{Office, OfficeError};
use poll_book::Keeper;

/// Whether the counter of a number is counted in some slot behind one.
fn is_counted_after<K: Keeper>(
    office: &mut Office<K>,
    number: u32,
    slot: u32,
) -> Result<bool, OfficeError>
    ensures value { IfOk result (λ is. Learnt office.old office.new (λ now. is ≡ counting.is_counted_after now number slot)) }
    ensures along { GoesAlong Nothing office.old office.new }
    ensures accounts { AccountsFor IsOfStore office.old office.new result }
{
    let value = office.value_after(number, slot)?;
    Ok(value.is_some())
}

/// A slot between two others.
fn between(low: u32, high: u32) -> u32
    requires { low + 1 < high }
    ensures above { low < result }
    ensures below { result < high }
{
    low + (high - low) / 2
}

/// The last slot behind one in which the counter of a number is counted; `None` where it is counted in none, or where no
/// counter of this number is known. Of a slot that may be, it takes 33 queries of the store at most, and one where it is `None`.
pub fn last_counted<K: Keeper>(
    office: &mut Office<K>,
    number: u32,
    after: u32,
) -> Result<Option<u32>, OfficeError>
    ensures value { IfOk result (λ last. Learnt office.old office.new (λ now. IsLastCounted now number after last)) }
    ensures along { GoesAlong Nothing office.old office.new }
    ensures accounts { AccountsFor IsOfStore office.old office.new result }
{
    let is_ahead = is_counted_after(office, number, after)?;
    if !is_ahead || after == u32::MAX {
        return Ok(None);
    }
    let mut low = after;
    let mut high = u32::MAX;
    while high - low > 1 {
        let middle = between(low, high);
        let is_later = is_counted_after(office, number, middle)?;
        if is_later {
            low = middle;
        } else {
            high = middle;
        }
    }
    Ok(Some(high))
}
