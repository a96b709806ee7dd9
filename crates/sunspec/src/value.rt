//! Values, and how registers are read as them.
ghost use Rattle.std.specs.Prelude.{reverse, ◌≡◌, ◌≢◌, ◌≤◌, ◌<◌, ◌^◌, ◌*◌, ◌==◌, if◌then◌else◌, length, position, take};
ghost use Rattle.std.specs.List.{before_first, list_all};
ghost use Rattle.mb_pdu.specs.Packing.{words_text};
ghost use Rattle.sunspec.specs.PointType.{IsSized, bits, row};
ghost use Rattle.sunspec.specs.Value.{AreRegistersOf, is_sum_of, number_in, number_meant, register_sum, text_meant, value};
ghost use Rattle.sunspec.specs.WordOrder.{arranged, number_read};

use crate::fixed_text::ShortText;
use crate::point_type::{Content, PointType, greatest_of};
use crate::word_order::{WordOrder, swapped};

/// What the registers of a point mean.
#[derive(Clone, Copy, Debug, PartialEq, Eq)]
pub enum Value {
    /// Before any scale.
    Number(i128),
    /// Before the first zero byte.
    Text(ShortText),
    /// The registers say that the device doesn't have the point.
    Unimplemented,
}

/// What registers of a type mean: as many as the type has, and 0 or 1 for a bit. The most
/// significant register comes first; signed numbers are two's complement (SunSpec Device
/// Information Model, point types).
// A caller that wants a number then doesn't move the room that a value has for a text.
#[inline(always)]
pub fn read_value(kind: &PointType, words: &[u16]) -> Value
    requires sized { IsSized kind.now }
    requires registers { AreRegistersOf kind.now words.now }
    ensures { result ≡ value kind.now words.now }
{
    if let Content::Text = kind.row().content {
        return text_value(words);
    }
    match plain_number(kind, words) {
        Some(number) => Value::Number(number),
        None => Value::Unimplemented,
    }
}

/// The number that registers of a type mean which is no string's; `None` where they say that the device doesn't
/// have the point.
// Inlined, so that its caller finds the type's row once.
#[inline(always)]
pub(crate) fn plain_number(kind: &PointType, words: &[u16]) -> Option<i128>
    requires number { (row kind.now).content ≢ Content.Text }
    requires registers { AreRegistersOf kind.now words.now }
    ensures { result ≡ number_in (value kind.now words.now) }
{
    let row = kind.row();
    let sum = register_sum_of(words);
    if row.is_unimplemented(sum) {
        return None;
    }
    Some(number_of(row.content, row.bits(), sum))
}

/// What registers of a type mean that are sent in an order: of swapped ones the last is the most
/// significant. `read_value` is this for `Big`.
#[inline(always)]
pub fn read_ordered(kind: &PointType, order: WordOrder, words: &[u16]) -> Value
    requires sized { IsSized kind.now }
    requires registers { AreRegistersOf kind.now words.now }
    ensures { result ≡ value kind.now (arranged order words.now) }
{
    match order {
        WordOrder::Big => read_value(kind, words),
        WordOrder::Swapped => {
            let words = swapped(words);
            read_value(kind, words.as_slice())
        }
    }
}

/// The number that registers of a type mean which are sent in an order; `None` where they aren't as the type
/// has them, where they mean a text, and where they say that the device doesn't have the point. `read_ordered`
/// gives more, and takes the room of a text.
pub fn read_number(kind: &PointType, order: WordOrder, words: &[u16]) -> Option<i128>
    ensures { result ≡ number_read kind.now order words.now }
{
    let row = kind.row();
    if let Content::Text = row.content {
        return None;
    }
    if words.len() != row.registers as usize {
        return None;
    }
    let sum = arranged_sum(order, words);
    if !is_sum_of(row.content, sum) || row.is_unimplemented(sum) {
        return None;
    }
    Some(number_of(row.content, row.bits(), sum))
}

// Whether registers can have this sum: a bit's is 0 or 1.
fn is_sum_of(content: Content, sum: u64) -> bool
    ensures { result ≡ is_sum_of content sum }
{
    match content {
        Content::Bit => sum <= 1,
        _ => true,
    }
}

#[inline]
fn arranged_sum(order: WordOrder, words: &[u16]) -> u64
    requires some { 0 < length words.now }
    requires few { length words.now ≤ 4 }
    ensures { result ≡ register_sum (arranged order words.now) }
{
    match order {
        WordOrder::Big => register_sum_of(words),
        WordOrder::Swapped => swapped_sum(words),
    }
}

// Out of line, since most registers come in the usual order and need no room to be turned round in.
#[inline(never)]
fn swapped_sum(words: &[u16]) -> u64
    requires some { 0 < length words.now }
    requires few { length words.now ≤ 4 }
    ensures { result ≡ register_sum (reverse words.now) }
{
    let words = swapped(words);
    register_sum_of(words.as_slice())
}

// A string is not implemented where all registers are zero.
#[inline(never)]
pub(crate) fn text_value(words: &[u16]) -> Value
    requires { length words.now ≤ 125 }
    ensures { result ≡ (if register_sum words.now == 0 then Value.Unimplemented
        else Value.Text (text_meant words.now)) }
{
    if are_zero(words) {
        return Value::Unimplemented;
    }
    let bytes = bytes_of(words);
    Value::Text(text_before_zero(&bytes[..2 * words.len()]))
}

fn are_zero(words: &[u16]) -> bool
    ensures { result ≡ list_all (λ word. word == 0) words.now }
{
    words.iter().all(|word| *word == 0)
}

// The bytes of the registers, high byte first, at the front of the array.
fn bytes_of(words: &[u16]) -> [u8; 250]
    requires { length words.now ≤ 125 }
    ensures { take (2 * length words.now) result ≡ words_text words.now }
{
    let mut bytes = [0; 250];
    for (place, word) in words.iter().enumerate() {
        bytes[2 * place] = (*word / 256) as u8;
        bytes[2 * place + 1] = (*word % 256) as u8;
    }
    bytes
}

fn text_before_zero(bytes: &[u8]) -> ShortText
    requires { length bytes.now ≤ 250 }
    ensures { result ≡ before_first (λ byte. byte == 0) bytes.now }
{
    let end = zero_place(bytes).unwrap_or(bytes.len());
    ShortText::from_bytes(&bytes[..end]).unwrap()
}

fn zero_place(bytes: &[u8]) -> Option<usize>
    ensures { result ≡ position (λ byte. byte == 0) bytes.now }
{
    bytes.iter().position(|byte| *byte == 0)
}

fn register_sum_of(words: &[u16]) -> u64
    requires { length words.now ≤ 4 }
    ensures { result ≡ register_sum words.now }
{
    // Most points have one register.
    if let [only] = words {
        return u64::from(*only);
    }
    let mut sum = 0;
    for word in words {
        sum = 65536 * sum + *word as u64;
    }
    sum
}

fn number_of(content: Content, bits: u32, sum: u64) -> i128
    requires some { 0 < bits }
    requires few { bits ≤ 64 }
    requires fits { sum < 2 ^ bits }
    ensures { result ≡ number_meant content bits sum }
{
    match content {
        Content::Signed if sum > greatest_of(bits - 1) => {
            sum as i128 - greatest_of(bits) as i128 - 1
        }
        _ => sum as i128,
    }
}
