//! What is shown of errors that no page can meet.
use mb_map::MapError;
use point_list::{ListError, ListFault};
use std::alloc::AllocError;
use std::test::Fail;
use sunspec::SunError;
use telling::{Trial, twice};

const MEMORY: ListError = ListError {
    fault: ListFault::Memory,
    row: 0,
    column: 0,
};

const LAST: ListError = ListError {
    fault: ListFault::BadCsv,
    row: 4294967295,
    column: 0,
};

fn errors(trial: &Trial<'_>) -> Result<(), AllocError> {
    let alloc = trial.alloc();
    let (map, sun, source) = (MapError::Memory, SunError::Memory, SunError::SourceFault);
    let shown = format!(in alloc; "{map}, {sun}, {source}, {MEMORY}, {LAST}")?;
    trial.told(
        &"shown",
        &shown.as_str(),
        &"out of memory, out of memory, the source failed, memory, bad csv row 4294967295",
    );
    Ok(())
}

#[test]
fn texts_of_errors(rt: HostRuntime) -> Result<(), Fail> {
    Ok(twice!(rt, errors)?)
}
