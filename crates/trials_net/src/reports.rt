//! Reports that aren't written, or not to their end.
use mb_mbap::Counted;
use office_core::{Office, OfficeError};
use office_plays::builders::office_after;
use office_plays::refusing::Refusing;
use office_plays::steps::Happens::{self, Arrive, Ask, Load, Open};
use office_report::{ReportFault, write_report};
use poll_book::{Keeper, MemKeeper, StoreFault};
use std::alloc::{AllocError, Global};
use std::test::Fail;
use telling::{Outgoing, Trial, twice};

/// A counter, and a late reading of it.
const HAPPENINGS: &[Happens] = &[
    Load("l1", "e,m1,holding,107,uint16,,,counter,\n"),
    Open("roof"),
    Ask(1, "m1", 1, (3, 107, 1)),
    Ask(1, "m1", 3, (3, 107, 1)),
    Ask(1, "m1", 2, (3, 107, 1)),
    Arrive(1, 0, 17, &[3, 2, 0xFD, 0xE8]),
    Arrive(1, 1, 17, &[3, 2, 0x01, 0xF4]),
    Arrive(1, 2, 17, &[3, 2, 0xFA, 0x00]),
];

const REPORT: &str = "point e\n         1  65000\n         2  64000\ntotal 66572\n";

/// An office over a keeper, with its readings.
fn read_office<K: Keeper + Drop>(alloc: Global, keeper: K) -> Result<Office<K>, OfficeError> {
    office_after(alloc, keeper, HAPPENINGS)
}

/// What a report came to, and what was written of it.
#[derive(Debug, PartialEq, Drop)]
struct Reported {
    ended: Result<bool, ReportFault>,
    text: Vec<u8>,
}

/// The report of the first two slots, of whose writes the one behind `writes` others fails.
fn report_of<K: Keeper>(
    alloc: Global,
    office: &mut Office<K>,
    writes: usize,
) -> Result<Reported, AllocError> {
    let mut writer = Counted::new(Outgoing::with_room(alloc, 100, 16, writes)?);
    let ended = write_report(alloc, office, "e", 1, 2, &mut writer);
    let text = writer.into_inner().sent;
    Ok(Reported { ended, text })
}

fn told(trial: &Trial<'_>, reported: &Reported, ended: Result<bool, ReportFault>, text: &str) {
    trial.told(&text, &reported.ended, &ended);
    trial.told(&text, &reported.text.as_slice(), &text.as_bytes());
}

fn each_write_fails(trial: &Trial<'_>, office: &mut Office<MemKeeper>) -> Result<(), OfficeError> {
    for writes in 0..4usize {
        let reported = report_of(trial.alloc(), office, writes)?;
        let written = REPORT.get(..writes * 16).unwrap_or("");
        told(trial, &reported, Err(ReportFault::Write), written);
    }
    Ok(())
}

fn writers_fail(trial: &Trial<'_>) -> Result<(), OfficeError> {
    let mut office = read_office(trial.alloc(), MemKeeper::new(trial.alloc()))?;
    each_write_fails(trial, &mut office)
}

/// Expects how a report ends that is written at once, and its text.
fn is_reported<K: Keeper>(
    trial: &Trial<'_>,
    office: &mut Office<K>,
    ended: Result<bool, ReportFault>,
    text: &str,
) -> Result<(), OfficeError> {
    let reported = report_of(trial.alloc(), office, 1000)?;
    told(trial, &reported, ended, text);
    Ok(())
}

/// How many calls of its keeper an office makes before its report.
fn calls(alloc: Global) -> Result<u32, OfficeError> {
    let keeper = Refusing::new(alloc, u32::MAX, StoreFault::Other);
    Ok(read_office(alloc, keeper)?.into_keeper().calls)
}

fn is_told_again(
    trial: &Trial<'_>,
    office: &mut Office<Refusing>,
    fault: StoreFault,
) -> Result<(), OfficeError> {
    is_reported(trial, office, Err(ReportFault::Store(fault)), "")?;
    is_reported(trial, office, Ok(true), REPORT)
}

/// Refuses the call of this number, which a report makes: for the readings with their marks, or for the total. Then
/// asks for the report again.
fn is_refused(trial: &Trial<'_>, at: u32, fault: StoreFault) -> Result<(), OfficeError> {
    let alloc = trial.alloc();
    let mut office = read_office(alloc, Refusing::new(alloc, at, fault))?;
    is_told_again(trial, &mut office, fault)
}

fn stores_refuse(trial: &Trial<'_>) -> Result<(), OfficeError> {
    let before = calls(trial.alloc())?;
    for fault in [StoreFault::Full, StoreFault::Disk, StoreFault::Other] {
        for at in before..before.saturating_add(2) {
            is_refused(trial, at, fault)?;
        }
    }
    Ok(())
}

/// An office, and its report before memory that is refused to it.
fn first_report(alloc: Global) -> Result<(Office<MemKeeper>, Reported), OfficeError> {
    let mut office = read_office(alloc, MemKeeper::new(alloc))?;
    let reported = report_of(alloc, &mut office, 1000)?;
    Ok((office, reported))
}

/// Expects the whole report, or that it was refused for want of memory and that nothing is written.
fn is_whole_or_refused(trial: &Trial<'_>, first: &Reported) {
    if let Err(ReportFault::Memory | ReportFault::Store(StoreFault::Memory)) = first.ended {
        trial.told(&"memory", &first.text.is_empty(), &true);
    } else {
        told(trial, first, Ok(true), REPORT);
    }
}

/// Run under `rt try --test --fail-alloc N`, this one sees each allocation of a report refused.
fn refused_memory(trial: &Trial<'_>) -> Result<(), OfficeError> {
    let alloc = trial.alloc();
    let (mut office, first) = match first_report(alloc) {
        Ok(first) => first,
        Err(_) => first_report(alloc)?,
    };
    is_whole_or_refused(trial, &first);
    is_reported(trial, &mut office, Ok(true), REPORT)
}

fn all(trial: &Trial<'_>) -> Result<(), OfficeError> {
    writers_fail(trial)?;
    stores_refuse(trial)?;
    refused_memory(trial)
}

#[test]
fn reports_break_off(rt: HostRuntime) -> Result<(), Fail> {
    Ok(twice!(rt, all)?)
}
