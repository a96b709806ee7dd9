//! The report at a script's end: all readings, the totals of counters, and the orders.
ghost use Rattle.std.specs.Prelude.{All, ◌≡◌, ◌++◌, ◌∷◌, [], OnOk, codes, flat_map, pos, unwrap_or};
ghost use Rattle.sunspec.specs.Value.{AreRegistersOf};
ghost use Rattle.sunspec.specs.Text.{scaled};
ghost use Rattle.poll_book.specs.Orders.{setting_at};
ghost use Rattle.poll_book.specs.Tables.{readings_between};
ghost use Rattle.poll_book.specs.Changes.{as_row};
ghost use Rattle.office_core.specs.Fitting.{AreOf, HasForm, IsFitting, point_text};
ghost use Rattle.office_script.specs.Printing.{line_end, order_line, order_line_of, order_lines, reading_line, reading_lines, readings_in, report_of, state_text, total_line};

use crate::printing::push_number;
use office_report::{reading_text, total_text};
use point_list::{Point, Role};
use poll_book::{Keeper, MemKeeper, Neighbours, OrderState, PointRow, ReadingRow, ShownReading};
use std::alloc::{AllocError, Global};

/// Writes what registers of a point show, or a dash where it is not implemented.
fn push_text(
    alloc: Global,
    out: &mut Vec<u8>,
    point: &Point,
    words: &[u16],
) -> Result<(), AllocError>
    requires form { HasForm point.now }
    requires registers { AreRegistersOf point.now.kind words.now }
    ensures { OnOk result (out.new.items ≡ out.old.items ++ unwrap_or (point_text point.now words.now) (45 ∷ [])) }
{
    match reading_text(alloc, point, words)? {
        Some(text) => out.extend_from_slice(text.as_bytes()),
        None => Ok(out.push(b'-')?),
    }
}

fn push_reading(
    alloc: Global,
    out: &mut Vec<u8>,
    known: &PointRow,
    row: &ReadingRow,
) -> Result<(), AllocError>
    requires form { HasForm known.now.point }
    requires registers { AreRegistersOf known.now.point.kind row.now.words }
    ensures { OnOk result (out.new.items ≡ out.old.items ++ reading_line known.now (as_row row.now)) }
{
    out.extend_from_slice(b"reading ")?;
    out.extend_from_slice(known.point.name.as_bytes())?;
    out.push(b' ')?;
    push_number(out, row.slot)?;
    out.push(b' ')?;
    push_text(alloc, out, &known.point, row.words.as_slice())?;
    Ok(out.push(b'\n')?)
}

fn push_rows(
    alloc: Global,
    out: &mut Vec<u8>,
    known: &PointRow,
    rows: &[ShownReading],
) -> Result<(), AllocError>
    requires form { HasForm known.now.point }
    requires registers { AreOf known.now.point (readings_in rows.now) }
    ensures { OnOk result (out.new.items ≡ out.old.items ++ flat_map (reading_line known.now) (readings_in rows.now)) }
{
    for row in rows {
        push_reading(alloc, out, known, &row.reading)?;
    }
    Ok(())
}

/// Writes all readings of a point, by slot.
fn push_readings(
    alloc: Global,
    out: &mut Vec<u8>,
    keeper: &mut MemKeeper,
    known: &PointRow,
) -> Result<(), AllocError>
    requires { HasForm known.now.point × AreOf known.now.point (readings_between known.now.number 0 4294967295 keeper.old.0.readings) }
    ensures text { OnOk result (out.new.items ≡ out.old.items ++ reading_lines keeper.old.0.readings known.now) }
    ensures same { keeper.new.0 ≡ keeper.old.0 }
{
    let Ok(rows) = keeper.readings(alloc, known, 0, u32::MAX) else {
        return Err(AllocError);
    };
    push_rows(alloc, out, known, &rows)
}

/// Writes the line of a total.
fn push_sum(alloc: Global, out: &mut Vec<u8>, point: &Point, total: u128) -> Result<(), AllocError>
    ensures { OnOk result (out.new.items ≡ out.old.items
        ++ (codes "total " ++ point.now.name ++ 32 ∷ scaled (pos total) point.now.scale ++ line_end)) }
{
    let text = total_text(alloc, point, total)?;
    out.extend_from_slice(b"total ")?;
    out.extend_from_slice(point.name.as_bytes())?;
    out.push(b' ')?;
    out.extend_from_slice(text.as_bytes())?;
    Ok(out.push(b'\n')?)
}

/// Writes how far a counter went; nothing for another point.
fn push_total(
    alloc: Global,
    out: &mut Vec<u8>,
    keeper: &mut MemKeeper,
    known: &PointRow,
) -> Result<(), AllocError>
    ensures text { OnOk result (out.new.items ≡ out.old.items ++ total_line keeper.old.0.totals known.now) }
    ensures same { keeper.new.0 ≡ keeper.old.0 }
{
    if known.point.role != Role::Counter {
        return Ok(());
    }
    let Ok(total) = keeper.total(known) else {
        return Err(AllocError);
    };
    push_sum(alloc, out, &known.point, total)
}

fn push_all_readings(
    alloc: Global,
    out: &mut Vec<u8>,
    keeper: &mut MemKeeper,
    points: &[PointRow],
) -> Result<(), AllocError>
    requires { All (λ known. HasForm known.point × AreOf known.point (readings_between known.number 0 4294967295 keeper.old.0.readings)) points.now }
    ensures text { OnOk result (out.new.items ≡ out.old.items ++ flat_map (reading_lines keeper.old.0.readings) points.now) }
    ensures same { keeper.new.0 ≡ keeper.old.0 }
{
    for known in points {
        push_readings(alloc, out, keeper, known)?;
    }
    Ok(())
}

fn push_all_totals(
    alloc: Global,
    out: &mut Vec<u8>,
    keeper: &mut MemKeeper,
    points: &[PointRow],
) -> Result<(), AllocError>
    ensures text { OnOk result (out.new.items ≡ out.old.items ++ flat_map (total_line keeper.old.0.totals) points.now) }
    ensures same { keeper.new.0 ≡ keeper.old.0 }
{
    for known in points {
        push_total(alloc, out, keeper, known)?;
    }
    Ok(())
}

/// Writes how an order stands.
fn push_state(out: &mut Vec<u8>, state: OrderState) -> Result<(), AllocError>
    ensures { OnOk result (out.new.items ≡ out.old.items ++ state_text state) }
{
    match state {
        OrderState::Waiting => out.extend_from_slice(b"waiting"),
        OrderState::Done => out.extend_from_slice(b"done"),
        OrderState::Refused(code) => {
            out.extend_from_slice(b"refused ")?;
            push_number(out, u32::from(code))
        }
    }
}

fn push_order(out: &mut Vec<u8>, number: u32, state: OrderState) -> Result<(), AllocError>
    ensures { OnOk result (out.new.items ≡ out.old.items ++ order_line number state) }
{
    out.extend_from_slice(b"order ")?;
    push_number(out, number)?;
    out.push(b' ')?;
    push_state(out, state)?;
    Ok(out.push(b'\n')?)
}

/// Writes the line of the order of a number; nothing where there is none.
fn push_order_of(out: &mut Vec<u8>, keeper: &mut MemKeeper, number: u32) -> Result<(), AllocError>
    ensures text { OnOk result (out.new.items ≡ out.old.items ++ order_line_of number (setting_at keeper.old.0.settings number)) }
    ensures same { keeper.new.0 ≡ keeper.old.0 }
{
    match keeper.setting(number) {
        Ok(Some(setting)) => push_order(out, number, setting.state),
        Ok(None) => Ok(()),
        Err(_) => Err(AllocError),
    }
}

fn push_all_orders(out: &mut Vec<u8>, keeper: &mut MemKeeper) -> Result<(), AllocError>
    ensures text { OnOk result (out.new.items ≡ out.old.items ++ order_lines keeper.old.0.settings) }
    ensures same { keeper.new.0 ≡ keeper.old.0 }
{
    let Ok(last) = keeper.orders() else {
        return Err(AllocError);
    };
    let mut number = 0;
    while number < last {
        number += 1;
        push_order_of(out, keeper, number)?;
    }
    Ok(())
}

/// Writes the readings of all points, then the totals of the counters, and then the orders.
pub(crate) fn push_report(
    alloc: Global,
    out: &mut Vec<u8>,
    keeper: &mut MemKeeper,
) -> Result<(), AllocError>
    requires { IsFitting keeper.old.0 }
    ensures { OnOk result (out.new.items ≡ out.old.items ++ report_of keeper.old.0) }
{
    let Ok(points) = keeper.points(alloc) else {
        return Err(AllocError);
    };
    push_all_readings(alloc, out, keeper, &points)?;
    push_all_totals(alloc, out, keeper, &points)?;
    push_all_orders(out, keeper)
}
