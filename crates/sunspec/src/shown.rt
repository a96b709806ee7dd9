//! Registers as they are shown.
ghost use Rattle.std.specs.Prelude.{[], ◌≡◌, ◌<◌, ◌≤◌, ◌⊎◌, ◌<ℤ◌, ◌↔◌, IfErr, IfOk, IsErrOf, OnOk, length, map, negsuc, option_map, pos, reverse, string_bytes};
ghost use Rattle.mb_pdu.specs.Packing.{words_text};
ghost use Rattle.sunspec.specs.declared.error.SunError.{SunError};
ghost use Rattle.sunspec.specs.PointType.{IsSized, row};
ghost use Rattle.sunspec.specs.Text.{IsScale, dotted, number_shown, printable, shown, string_shown, value_shown};
ghost use Rattle.sunspec.specs.Value.{AreRegistersOf};
ghost use Rattle.sunspec.specs.WordOrder.{arranged};

use crate::error::SunError;
use crate::point_type::{Content, PointType};
use crate::scaled::{is_scale, text_at};
use crate::value::{Value, plain_number, text_value};
use crate::word_order::{WordOrder, swapped};
use std::alloc::{AllocError, Global};

/// The text of registers as reports, scripts and answers show it, or `None` where the point is not
/// implemented: a string with `?` for each byte that can't be printed, an address as four numbers
/// with points, every other number by `scaled_text`. `BadScale` comes exactly for a scale outside
/// -10 to 10, whatever the type.
pub fn shown_text(
    alloc: Global,
    kind: &PointType,
    words: &[u16],
    scale: i32,
) -> Result<Option<String>, SunError>
    requires sized { IsSized kind.now }
    requires registers { AreRegistersOf kind.now words.now }
    ensures text { IfOk result (λ text. option_map string_bytes text
        ≡ shown kind.now scale words.now) }
    ensures within { OnOk result (IsScale scale) }
    ensures bad_scale { IsErrOf result SunError.BadScale
        ↔ ((scale <ℤ negsuc 9) ⊎ (pos 10 <ℤ scale)) }
    ensures memory { IfErr result (λ e. (e ≡ SunError.BadScale)
        ⊎ ((e ≡ SunError.Memory) × IsScale scale)) }
{
    if !is_scale(scale) {
        return Err(SunError::BadScale);
    }
    Ok(text_within(alloc, kind, words, scale)?)
}

/// The text of registers that are sent in an order; `shown_text` is this for `Big`.
pub fn shown_ordered(
    alloc: Global,
    kind: &PointType,
    order: WordOrder,
    words: &[u16],
    scale: i32,
) -> Result<Option<String>, SunError>
    requires sized { IsSized kind.now }
    requires registers { AreRegistersOf kind.now words.now }
    ensures text { IfOk result (λ text. option_map string_bytes text
        ≡ shown kind.now scale (arranged order words.now)) }
    ensures within { OnOk result (IsScale scale) }
    ensures bad_scale { IsErrOf result SunError.BadScale
        ↔ ((scale <ℤ negsuc 9) ⊎ (pos 10 <ℤ scale)) }
    ensures memory { IfErr result (λ e. (e ≡ SunError.BadScale)
        ⊎ ((e ≡ SunError.Memory) × IsScale scale)) }
{
    match order {
        WordOrder::Big => shown_text(alloc, kind, words, scale),
        WordOrder::Swapped => shown_swapped(alloc, kind, words, scale),
    }
}

// Out of line, since most registers come in the usual order and need no room to be turned round in.
#[inline(never)]
fn shown_swapped(
    alloc: Global,
    kind: &PointType,
    words: &[u16],
    scale: i32,
) -> Result<Option<String>, SunError>
    requires sized { IsSized kind.now }
    requires registers { AreRegistersOf kind.now words.now }
    ensures text { IfOk result (λ text. option_map string_bytes text
        ≡ shown kind.now scale (reverse words.now)) }
    ensures within { OnOk result (IsScale scale) }
    ensures bad_scale { IsErrOf result SunError.BadScale
        ↔ ((scale <ℤ negsuc 9) ⊎ (pos 10 <ℤ scale)) }
    ensures memory { IfErr result (λ e. (e ≡ SunError.BadScale)
        ⊎ ((e ≡ SunError.Memory) × IsScale scale)) }
{
    let words = swapped(words);
    shown_text(alloc, kind, words.as_slice(), scale)
}

fn text_within(
    alloc: Global,
    kind: &PointType,
    words: &[u16],
    scale: i32,
) -> Result<Option<String>, AllocError>
    requires sized { IsSized kind.now }
    requires registers { AreRegistersOf kind.now words.now }
    requires scale { IsScale scale }
    ensures { IfOk result (λ text. option_map string_bytes text ≡ shown kind.now scale words.now) }
{
    if let Content::Text = kind.row().content {
        return string_text(alloc, words);
    }
    match plain_number(kind, words) {
        Some(number) => Ok(Some(number_text(alloc, kind, words, number, scale)?)),
        None => Ok(None),
    }
}

// Out of line, since most points are numbers and need no room for a text.
#[inline(never)]
fn string_text(alloc: Global, words: &[u16]) -> Result<Option<String>, AllocError>
    requires { length words.now ≤ 125 }
    ensures { IfOk result (λ text. option_map string_bytes text ≡ string_shown words.now) }
{
    match text_value(words) {
        Value::Text(text) => Ok(Some(printable_text(alloc, text.as_bytes())?)),
        _ => Ok(None),
    }
}

/// The text of a value on its own, without a scale, as reports and answers show it: a string with `?`
/// for each byte that can't be printed, a number in decimal digits; `None` where the point is not
/// implemented.
pub fn value_text(alloc: Global, value: &Value) -> Result<Option<String>, AllocError>
    ensures { IfOk result (λ text. option_map string_bytes text
        ≡ value_shown Content.Unsigned (pos 0) [] value.now) }
{
    Ok(match value {
        Value::Unimplemented => None,
        Value::Text(text) => Some(printable_text(alloc, text.as_bytes())?),
        Value::Number(number) => Some(text_at(alloc, *number, 0)?),
    })
}

fn number_text(
    alloc: Global,
    kind: &PointType,
    words: &[u16],
    number: i128,
    scale: i32,
) -> Result<String, AllocError>
    requires registers { AreRegistersOf kind.now words.now }
    requires scale { IsScale scale }
    ensures { IfOk result (λ text. string_bytes text
        ≡ number_shown (row kind.now).content number scale words.now) }
{
    match kind.row().content {
        Content::Address => dotted_text(alloc, words),
        _ => text_at(alloc, number, scale),
    }
}

fn printable_text(alloc: Global, bytes: &[u8]) -> Result<String, AllocError>
    ensures { IfOk result (λ text. string_bytes text ≡ map printable bytes.now) }
{
    let mut text = String::new(alloc);
    for byte in bytes {
        text.push(char::from(printable(*byte)))?;
    }
    Ok(text)
}

/// A byte of a text as it is shown: `?` where it can't be printed.
pub fn printable(byte: u8) -> u8
    ensures shown { result ≡ printable byte }
    ensures ascii { result < 128 }
{
    if (0x20..=0x7E).contains(&byte) {
        byte
    } else {
        b'?'
    }
}

fn dotted_text(alloc: Global, words: &[u16]) -> Result<String, AllocError>
    requires { length words.now ≡ 2 }
    ensures { IfOk result (λ text. string_bytes text ≡ dotted (words_text words.now)) }
{
    let (a, b) = (words[0] / 256, words[0] % 256);
    let (c, d) = (words[1] / 256, words[1] % 256);
    format!(in alloc; "{a}.{b}.{c}.{d}")
}
