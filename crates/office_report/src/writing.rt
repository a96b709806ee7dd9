//! Reports of an office's points.
ghost use Rattle.std.specs.Prelude.{◌≡◌, ◌≤◌, IfOk, OnOk, false, option_map, string_bytes};
ghost use Rattle.mb_mbap.specs.Counted.{HasRisen, failures_of, inner_of};
ghost use Rattle.office_core.specs.History.{History};
ghost use Rattle.office_core.specs.Legal.{Legal};
ghost use Rattle.office_core.specs.Offices.{AccountsFor, OnlyAsked, Stands, keeper_of};
ghost use Rattle.office_report.specs.Faults.{IsCaused, may_have_written};
ghost use Rattle.office_report.specs.Reports as reports;
ghost use Rattle.office_report.specs.Reports.{Tells};

use crate::fault::ReportFault;
use crate::report::report_text;
use mb_mbap::Counted;
use office_core::Office;
use office_core::laws::fitting_tables;
use poll_book::Keeper;
use std::alloc::Global;
use std::io::Write;

/// The report of the point of a name over the slots `from` to `to`: its name, its readings by slot, and
/// for a counter how far it went by all its readings, whatever their slots. `None` is told of a point
/// that isn't known. The fault is the store's or memory's.
pub fn report_of<K: Keeper>(
    alloc: Global,
    office: &mut Office<K>,
    point: &str,
    from: u32,
    to: u32,
) -> Result<Option<String>, ReportFault>
    ensures text { K.is_clean (keeper_of office.new) → (before : History) → Stands office.old before → Legal before
        → IfOk result (λ text. option_map string_bytes text ≡ reports.report_text before point.now from to) }
    ensures accounts { AccountsFor (IsCaused ⊥) office.old office.new result }
    ensures asked { OnlyAsked office.old office.new }
{
    fitting_tables();
    let Some(known) = office.point(point) else {
        return Ok(None);
    };
    let Some(rows) = office.readings(point, from, to)? else {
        return Ok(None);
    };
    let total = office.total(point)?;
    let report = report_text(alloc, &known.point, &rows, total)?;
    Ok(Some(report))
}

/// Writes the report of a point, as `report_of` gives it. False is told of a point that isn't known, of
/// which nothing is written. The text is whole before any of it is written, so a fault of the store or
/// of memory leaves the writer as it was.
pub fn write_report<K: Keeper, W: Write>(
    alloc: Global,
    office: &mut Office<K>,
    point: &str,
    from: u32,
    to: u32,
    writer: &mut Counted<W>,
) -> Result<bool, ReportFault>
    requires { from ≤ to }
    ensures text { K.is_clean (keeper_of office.new) → (before : History) → Stands office.old before → Legal before
        → IfOk result (λ told. Tells (reports.report_text before point.now from to) told (W.contents (inner_of writer.old)) (W.contents (inner_of writer.new))) }
    ensures unwritten { may_have_written result ≡ false → writer.new ≡ writer.old }
    ensures calm { OnOk result (failures_of writer.new ≡ failures_of writer.old) }
    ensures accounts { AccountsFor (IsCaused (HasRisen (failures_of writer.old) (failures_of writer.new))) office.old office.new result }
    ensures asked { OnlyAsked office.old office.new }
{
    let Some(report) = report_of(alloc, office, point, from, to)? else {
        return Ok(false);
    };
    match writer.write_all(report.as_bytes()) {
        Ok(()) => Ok(true),
        Err(_) => Err(ReportFault::Write),
    }
}
