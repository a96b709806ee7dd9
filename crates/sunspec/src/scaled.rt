//! Numbers with their scales, as exact texts.
ghost use Rattle.std.specs.Prelude.{◌≡◌, ◌<◌, ◌≤◌, ◌^◌, ◌++◌, ◌⊎◌, ◌*ℤ◌, ◌<ℤ◌, ◌↔◌, IfErr, IfOk, IsErrOf, IsTrue, OnOk, negsuc, pos, replicate, string_bytes};
ghost use Rattle.std.specs.Fmt.{signed_decimal};
ghost use Rattle.sunspec.specs.declared.error.SunError.{SunError};
ghost use Rattle.sunspec.specs.Text.{IsScale, IsScaledText, pointed, scaled};

use crate::error::SunError;
use std::alloc::{AllocError, Global};

/// The exact text of a number times ten to the power of the scale. Below 0 the scale tells the
/// digits after the point, as `-0.005` for -5 at -3; from 0 on there is no point. `BadScale`
/// comes exactly for a scale outside -10 to 10.
pub fn scaled_text(alloc: Global, number: i128, scale: i32) -> Result<String, SunError>
    ensures text { IfOk result (λ text. string_bytes text ≡ scaled number scale) }
    ensures places { IfOk result (λ text. IsScaledText number scale (string_bytes text)) }
    ensures within { OnOk result (IsScale scale) }
    ensures bad_scale { IsErrOf result SunError.BadScale
        ↔ ((scale <ℤ negsuc 9) ⊎ (pos 10 <ℤ scale)) }
    ensures memory { IfErr result (λ e. (e ≡ SunError.BadScale)
        ⊎ ((e ≡ SunError.Memory) × IsScale scale)) }
{
    if !is_scale(scale) {
        return Err(SunError::BadScale);
    }
    Ok(text_at(alloc, number, scale)?)
}

pub(crate) fn is_scale(scale: i32) -> bool
    ensures { IsTrue result ↔ IsScale scale }
{
    (-10..=10).contains(&scale)
}

pub(crate) fn text_at(alloc: Global, number: i128, scale: i32) -> Result<String, AllocError>
    requires { IsScale scale }
    ensures { IfOk result (λ text. string_bytes text ≡ scaled number scale) }
{
    if scale < 0 {
        text_with_places(alloc, number, scale.unsigned_abs())
    } else {
        text_with_zeros(alloc, number, scale as u32)
    }
}

// The number with a point before its last places.
fn text_with_places(alloc: Global, number: i128, places: u32) -> Result<String, AllocError>
    requires some { 0 < places }
    requires few { places ≤ 10 }
    ensures { IfOk result (λ text. string_bytes text ≡ pointed number places) }
{
    let one = 10u128.pow(places);
    let magnitude = number.unsigned_abs();
    let sign = if number < 0 { "-" } else { "" };
    let whole = magnitude / one;
    let fraction = (magnitude % one).to_string(alloc)?;
    let mut text = format!(in alloc; "{sign}{whole}.")?;
    push_zeros(&mut text, places as usize - fraction.len())?;
    text.push_str(&fraction)?;
    Ok(text)
}

// The number with zeros behind it, which multiply it unless it is 0. The text goes past what 128
// bits hold, so nothing is multiplied.
fn text_with_zeros(alloc: Global, number: i128, zeros: u32) -> Result<String, AllocError>
    requires { zeros ≤ 10 }
    ensures { IfOk result (λ text. string_bytes text ≡ signed_decimal (number *ℤ pos (10 ^ zeros))) }
{
    let mut text = number.to_string(alloc)?;
    if number != 0 {
        push_zeros(&mut text, zeros as usize)?;
    }
    Ok(text)
}

fn push_zeros(text: &mut String, count: usize) -> Result<(), AllocError>
    ensures { OnOk result (string_bytes text.new ≡ string_bytes text.old ++ replicate count 48) }
{
    for _ in 0..count {
        text.push('0')?;
    }
    Ok(())
}
