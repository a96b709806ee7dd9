//! The jobs of a line.
ghost use Rattle.std.specs.Prelude.{◌≡◌, ◌++◌, ◌==◌, All, IfOk, List, false, true};
ghost use Rattle.std.specs.Str.{bytes_eq};
ghost use Rattle.read_planner.specs.declared.Read.{Read};
ghost use Rattle.read_planner.specs.Place.{CanBeRead};
ghost use Rattle.office_net.specs.declared.job.LineJob.TheVariants as jobs;
ghost use Rattle.office_net.specs.Jobs.{AreDeviceJobs, ArePlanned, can_read, device_jobs, devices_on, points_on, readable};

use crate::job::LineJob;
use point_list::{Device, Point, Site, Text, is_same_name};
use poll_book::PointRow;
use read_planner::{Read, can_be_read, plan};
use std::alloc::{AllocError, Global};

/// Whether a point is of the device of a name.
fn is_of(row: &PointRow, device: &str) -> bool
    ensures { result ≡ bytes_eq row.now.point.device device.now }
{
    is_same_name(row.point.device.as_bytes(), device.as_bytes())
}

/// Whether a point can be read.
fn is_readable(row: &PointRow) -> bool
    ensures { result ≡ can_read row.now.point }
{
    can_be_read(&row.point)
}

/// The known points of a device that can be read. Most are of other devices, so that is asked first.
fn points_of(alloc: Global, known: &[PointRow], device: &str) -> Result<Vec<Point>, AllocError>
    ensures read { IfOk result (λ points. points.items ≡ points_on (readable known.now) device.now) }
    ensures all { IfOk result (λ points. All CanBeRead points.items) }
{
    known
        .iter()
        .filter(|row| is_of(row, device) && is_readable(row))
        .map(|row| row.point)
        .collect(alloc)
}

/// The reads of a device: those that are planned for its known points, where all of them can be read, as an office's
/// can. One that can't be, which no list says, is left out alone.
pub fn reads_of(alloc: Global, known: &[PointRow], device: &Device) -> Result<Vec<Read>, AllocError>
    ensures all { All (λ row. CanBeRead row.point) known.now → IfOk result (λ reads. ArePlanned known.now device.now reads.items) }
    ensures others { IfOk result (λ reads. ArePlanned (readable known.now) device.now reads.items) }
{
    let points = points_of(alloc, known, device.name.as_str())?;
    let reads = plan(alloc, points.as_slice(), device.gap)?;
    Ok(reads)
}

/// The job of a read.
fn read_job(device: &Text, read: Read) -> Result<LineJob, AllocError>
    ensures { IfOk result (λ job. job ≡ jobs.Read device.now read) }
{
    let device = device.clone()?;
    Ok(LineJob::Read { device, read })
}

/// Adds the jobs of a device: its order, and then its reads.
fn add_jobs(all: &mut Vec<LineJob>, device: &Text, reads: &[Read]) -> Result<(), AllocError>
    ensures { IfOk result (λ _. all.new.items ≡ all.old.items ++ device_jobs device.now reads.now) }
{
    let order = device.clone()?;
    all.push(LineJob::Order { device: order })?;
    for read in reads {
        all.push(read_job(device, *read)?)?;
    }
    Ok(())
}

/// Adds the jobs of a device, if it is one of the line.
fn add_device(
    alloc: Global,
    all: &mut Vec<LineJob>,
    device: &Device,
    known: &[PointRow],
    line: u16,
) -> Result<(), AllocError>
    ensures other { (device.now.line == line) ≡ false → IfOk result (λ _. all.new.items ≡ all.old.items) }
    ensures own { (device.now.line == line) ≡ true → All (λ row. CanBeRead row.point) known.now
        → IfOk result (λ _. (reads : List Read) × ArePlanned known.now device.now reads × (all.new.items ≡ all.old.items ++ device_jobs device.now.name reads)) }
{
    if device.line != line {
        return Ok(());
    }
    let reads = reads_of(alloc, known, device)?;
    add_jobs(all, &device.name, reads.as_slice())?;
    Ok(())
}

/// The jobs of a line: of each of its devices, in the site's order, first its order and then the reads
/// that are planned for its known points.
pub fn jobs_of(
    alloc: Global,
    site: &Site,
    known: &[PointRow],
    line: u16,
) -> Result<Vec<LineJob>, AllocError>
    ensures { All (λ row. CanBeRead row.point) known.now
        → IfOk result (λ all. AreDeviceJobs known.now (devices_on site.now line) all.items) }
{
    let mut all = Vec::new(alloc);
    for device in site.devices.as_slice() {
        add_device(alloc, &mut all, device, known, line)?;
    }
    Ok(all)
}
