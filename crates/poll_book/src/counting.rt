//! How readings count for a total: their numbers, and the steps between them.
ghost use Rattle.std.specs.Prelude.{◌≡◌, ◌≤◌, ◌<◌, ◌+◌, ◌-◌, ◌%◌, ◌^◌, IfSome};
ghost use Rattle.poll_book.specs.Totals as counting;

use crate::rows::Reading;
use point_list::{Point, Role};
use sunspec::read_number;

/// The number of a reading that counts for its point's total: the point is a counter, the registers
/// are as its type has them, they don't mean unimplemented in its order of words, and the number is at
/// most the roll.
pub fn counted_number(point: &Point, words: &[u16]) -> Option<u64>
    ensures number { result ≡ counting.counted_number point.now words.now }
    ensures bound { IfSome result (λ number. number ≤ point.now.roll) }
{
    let Role::Counter = point.role else {
        return None;
    };
    match read_number(&point.kind, point.order, words) {
        Some(number) if 0 <= number && number <= point.roll as i128 => Some(number as u64),
        _ => None,
    }
}

/// The number of a reading, if it is marked as counted.
pub(crate) fn number_of(point: &Point, reading: &Reading) -> Option<u64>
    ensures number { result ≡ counting.reading_number point.now reading.now }
    ensures bound { IfSome result (λ number. number ≤ point.now.roll) }
{
    if reading.counted {
        counted_number(point, reading.words.as_slice())
    } else {
        None
    }
}

/// How far a counter that begins again at 0 after `roll` went from a to b at least: (b - a) modulo
/// roll + 1.
pub fn step_between(a: u64, b: u64, roll: u64) -> u64
    requires first { a ≤ roll }
    requires second { b ≤ roll }
    ensures { result ≡ (b + (roll + 1) - a) % (roll + 1) }
{
    if a <= b { b - a } else { roll - (a - b) + 1 }
}

fn step_across(before: Option<u64>, after: Option<u64>, roll: u64) -> u64
    requires before { IfSome before (λ number. number ≤ roll) }
    requires after { IfSome after (λ number. number ≤ roll) }
    ensures { result ≡ counting.step_across roll before after }
{
    match (before, after) {
        (Some(a), Some(b)) => step_between(a, b, roll),
        _ => 0,
    }
}

// The greatest total: 2^127 - 1.
const GREATEST: u128 = i128::MAX as u128;

/// A point's total with a value put in between the nearest values before and after it: the step
/// between these is taken out, and then the two steps by way of the value are put in. A side that is
/// missing gives no step. The total stays from 0 to 2^127 - 1.
pub fn repaired(total: u128, before: Option<u64>, value: u64, after: Option<u64>, roll: u64) -> u128
    requires before { IfSome before (λ number. number ≤ roll) }
    requires value { value ≤ roll }
    requires after { IfSome after (λ number. number ≤ roll) }
    ensures { result ≡ counting.repaired total before value after roll }
{
    let without = total.saturating_sub(step_across(before, after, roll) as u128);
    let first = step_across(before, Some(value), roll) as u128;
    let second = step_across(Some(value), after, roll) as u128;
    without
        .saturating_add(first)
        .saturating_add(second)
        .min(GREATEST)
}

/// A point's total without the value between the nearest values before and after it: the two steps by way
/// of the value are taken out, and then the step between these is put in. A side that is missing gives no
/// step. The total stays from 0 to 2^127 - 1.
pub fn removed(total: u128, before: Option<u64>, value: u64, after: Option<u64>, roll: u64) -> u128
    requires before { IfSome before (λ number. number ≤ roll) }
    requires value { value ≤ roll }
    requires after { IfSome after (λ number. number ≤ roll) }
    ensures { result ≡ counting.removed total before value after roll }
{
    let first = step_across(before, Some(value), roll) as u128;
    let second = step_across(Some(value), after, roll) as u128;
    total
        .saturating_sub(first + second)
        .saturating_add(step_across(before, after, roll) as u128)
        .min(GREATEST)
}
