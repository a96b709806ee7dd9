//! How faults are told, and what they come of.
use mb_map::MapError;
use mb_mbap::FrameFault;
use office_commands::Fault;
use office_core::OfficeError;
use office_net::PollFault;
use office_script::ReplayFault;
use poll_book::StoreFault;
use std::alloc::AllocError;
use std::test::Fail;
use sunspec::SunError;
use telling::{Trial, twice};

/// Each fault, its text behind the program's name, and the program's status.
const FAULTS: &[(Fault, &str, u8)] = &[
    (Fault::Command, "command", 2),
    (Fault::BadSite, "bad site", 2),
    (Fault::BadList, "bad list", 2),
    (Fault::Unknown, "unknown", 2),
    (Fault::FrameLine, "frames", 2),
    (Fault::File, "file", 1),
    (Fault::Line, "line", 1),
    (Fault::Noise, "noise", 1),
    (Fault::Frames, "frames", 1),
    (Fault::NoMarker, "no marker", 1),
    (Fault::PastEnd, "past end", 1),
    (Fault::TooManyModels, "too many models", 1),
    (Fault::Memory, "memory", 1),
    (Fault::Store(StoreFault::Memory), "store memory", 1),
    (Fault::Store(StoreFault::Full), "store full", 1),
    (Fault::Store(StoreFault::Disk), "store disk", 1),
    (Fault::Store(StoreFault::Other), "store other", 1),
    (Fault::BadVersion, "bad version", 1),
    (Fault::NotOffice, "not an office", 1),
    (Fault::SiteDiffers, "site differs", 1),
];

fn faults_are_told(trial: &Trial<'_>) -> Result<(), AllocError> {
    for (fault, text, status) in FAULTS {
        let told = fault.to_string(trial.alloc())?;
        trial.told(fault, &(told.as_str(), fault.status()), &(*text, *status));
    }
    Ok(())
}

fn faults_come_of_others(trial: &Trial<'_>) {
    let frames = PollFault::Frames(FrameFault::NotModbus);
    let full = Fault::Store(StoreFault::Full);
    for (fault, expected) in [
        (Fault::from(OfficeError::WrongLine), Fault::Unknown),
        (Fault::from(OfficeError::SiteDiffers), Fault::SiteDiffers),
        (Fault::from(OfficeError::Exhausted), Fault::Line),
        (Fault::from(OfficeError::Store(StoreFault::Full)), full),
        (Fault::from(PollFault::Line), Fault::Line),
        (Fault::from(PollFault::Closed), Fault::Line),
        (Fault::from(PollFault::Noise), Fault::Noise),
        (Fault::from(frames), Fault::Frames),
        (Fault::from(PollFault::Store(StoreFault::Full)), full),
        (Fault::from(PollFault::Memory), Fault::Memory),
        (Fault::from(ReplayFault::Read), Fault::File),
        (Fault::from(ReplayFault::Write), Fault::File),
        (Fault::from(ReplayFault::Memory), Fault::Memory),
        (Fault::from(MapError::BadImage), Fault::File),
        (Fault::from(MapError::Memory), Fault::Memory),
        (Fault::from(SunError::NoMarker), Fault::NoMarker),
        (Fault::from(SunError::PastEnd), Fault::PastEnd),
        (Fault::from(SunError::TooManyModels), Fault::TooManyModels),
        (Fault::from(SunError::SourceFault), Fault::Line),
        (Fault::from(SunError::Memory), Fault::Memory),
        (Fault::from(AllocError), Fault::Memory),
    ] {
        trial.told(&expected, &fault, &expected);
    }
}

fn all(trial: &Trial<'_>) -> Result<(), AllocError> {
    faults_come_of_others(trial);
    faults_are_told(trial)
}

#[test]
fn faults_are_told_and_come_of_others(rt: HostRuntime) -> Result<(), Fail> {
    Ok(twice!(rt, all)?)
}
