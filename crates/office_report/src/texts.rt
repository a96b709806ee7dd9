//! Readings and totals as texts.
ghost use Rattle.std.specs.Prelude.{◌≡◌, IfOk, option_map, pos, string_bytes};
ghost use Rattle.sunspec.specs.Text.{scaled};
ghost use Rattle.sunspec.specs.Value.{AreRegistersOf};
ghost use Rattle.office_core.specs.Fitting.{HasForm, point_text};

use point_list::Point;
use std::alloc::{AllocError, Global};
use sunspec::{scaled_text, shown_ordered};

/// What registers of a point show; `None` where the point isn't implemented, and where the registers
/// don't have the form of its type, as none have that an office recorded.
pub fn reading_text(
    alloc: Global,
    point: &Point,
    words: &[u16],
) -> Result<Option<String>, AllocError>
    ensures { HasForm point.now → AreRegistersOf point.now.kind words.now
        → IfOk result (λ text. option_map string_bytes text ≡ point_text point.now words.now) }
{
    if !point.kind.is_sized() || !point.kind.has_registers(words) {
        return Ok(None);
    }
    shown_ordered(
        alloc,
        &point.kind,
        point.order,
        words,
        i32::from(point.scale),
    )
    .map_err(|_| AllocError)
}

/// How far a counter went, with its scale.
pub fn total_text(alloc: Global, point: &Point, total: u128) -> Result<String, AllocError>
    ensures { IfOk result (λ text. string_bytes text ≡ scaled (pos total) point.now.scale) }
{
    // A total of 2^127 takes 2^63 readings, more than memory has room for.
    let Ok(number) = i128::try_from(total) else {
        return Err(AllocError);
    };
    scaled_text(alloc, number, i32::from(point.scale)).map_err(|_| AllocError)
}
