//! Numbers as registers.
ghost use Rattle.std.specs.Prelude.{◌≡◌, ◌≢◌, ◌≤◌, ◌<◌, ◌^◌, ◌*◌, ℕ, List, pos, length, IfErr, IfNone, IfOk, IfSome};
ghost use Rattle.sunspec.specs.declared.value.Value.{Value};
ghost use Rattle.sunspec.specs.Value.{AreRegistersOf, AreWords, number_meant, register_sum, twos_complement, value};
ghost use Rattle.sunspec.specs.WordOrder.{arranged};

use crate::error::SunError;
use crate::point_type::{Content, PointType, greatest_of};
use crate::word_order::{WordOrder, swapped};
use mb_pdu::Registers;

/// The registers of a type whose value is the number. `OutOfRange` comes exactly where there are
/// none: the number is outside the type, it means that the point is not implemented, or the type
/// is a string.
pub fn to_registers(kind: &PointType, number: i128) -> Result<Registers, SunError>
    ensures registers { IfOk result (λ words. AreWords words × AreRegistersOf kind.now words) }
    ensures value { IfOk result (λ words. value kind.now words ≡ Value.Number number) }
    ensures refused { IfErr result (λ e. e ≡ SunError.OutOfRange) }
    ensures none { IfErr result (λ _. (words : List ℕ) → AreWords words
        → AreRegistersOf kind.now words → value kind.now words ≢ Value.Number number) }
{
    let row = kind.row();
    match row.content {
        Content::Text => Err(SunError::OutOfRange),
        content => {
            let Some(sum) = sum_of(content, row.bits(), number) else {
                return Err(SunError::OutOfRange);
            };
            if row.is_unimplemented(sum) {
                return Err(SunError::OutOfRange);
            }
            Ok(words_of(sum, row.registers))
        }
    }
}

/// The registers of a type whose value is the number where they are sent in the order: swapped ones
/// have the most significant register last. `OutOfRange` comes exactly where there are none, which
/// is in no order or in both. `to_registers` is this for `Big`.
pub fn to_ordered(kind: &PointType, order: WordOrder, number: i128) -> Result<Registers, SunError>
    ensures registers { IfOk result (λ words. AreWords words × AreRegistersOf kind.now words) }
    ensures value { IfOk result (λ words. value kind.now (arranged order words) ≡ Value.Number number) }
    ensures refused { IfErr result (λ e. e ≡ SunError.OutOfRange) }
    ensures none { IfErr result (λ _. (words : List ℕ) → AreWords words
        → AreRegistersOf kind.now words → value kind.now (arranged order words) ≢ Value.Number number) }
{
    let words = to_registers(kind, number)?;
    Ok(match order {
        WordOrder::Big => words,
        WordOrder::Swapped => swapped(words.as_slice()),
    })
}

// The sum of the registers that mean the number.
fn sum_of(content: Content, bits: u32, number: i128) -> Option<u64>
    requires some { 0 < bits }
    requires few { bits ≤ 64 }
    ensures some { IfSome result (λ sum. (sum < 2 ^ bits) × (number_meant content bits sum ≡ number)) }
    ensures none { IfNone result ((sum : ℕ) → sum < 2 ^ bits → number_meant content bits sum ≢ number) }
{
    match content {
        Content::Signed => signed_sum(bits, number),
        _ => unsigned_sum(bits, number),
    }
}

fn unsigned_sum(bits: u32, number: i128) -> Option<u64>
    requires { bits ≤ 64 }
    ensures some { IfSome result (λ sum. (sum < 2 ^ bits) × (pos sum ≡ number)) }
    ensures none { IfNone result ((sum : ℕ) → sum < 2 ^ bits → pos sum ≢ number) }
{
    if number < 0 || number > greatest_of(bits) as i128 {
        return None;
    }
    Some(number as u64)
}

fn signed_sum(bits: u32, number: i128) -> Option<u64>
    requires some { 0 < bits }
    requires few { bits ≤ 64 }
    ensures some { IfSome result (λ sum. (sum < 2 ^ bits) × (twos_complement bits sum ≡ number)) }
    ensures none { IfNone result ((sum : ℕ) → sum < 2 ^ bits → twos_complement bits sum ≢ number) }
{
    let greatest = greatest_of(bits - 1) as i128;
    if number >= 0 {
        return unsigned_sum(bits - 1, number);
    }
    let below = -1 - number;
    if below > greatest {
        return None;
    }
    Some(greatest_of(bits) - below as u64)
}

// So many registers of this sum, the most significant first.
fn words_of(sum: u64, count: u16) -> Registers
    requires some { 0 < count }
    requires few { count ≤ 4 }
    requires fits { sum < 2 ^ (16 * count) }
    ensures words { AreWords result }
    ensures count { length result ≡ count }
    ensures sum { register_sum result ≡ sum }
{
    let words = [
        (sum / 0x1_0000_0000_0000) as u16,
        (sum / 0x1_0000_0000 % 0x1_0000) as u16,
        (sum / 0x1_0000 % 0x1_0000) as u16,
        (sum % 0x1_0000) as u16,
    ];
    Registers::from_slice(&words[4 - count as usize..]).unwrap()
}
