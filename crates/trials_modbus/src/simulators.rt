//! With which devices and scripts a simulator begins.
use mb_map::{MapError, Mapping, Sim, Step};
use std::alloc::Global;
use std::test::Fail;
use telling::{Trial, twice};

fn devices(alloc: Global, ids: &[u8]) -> Result<Vec<(u8, Mapping)>, MapError> {
    let mut devices = Vec::new(alloc);
    for id in ids {
        let mapping = Mapping::new(alloc, 1, 1, 1, 1)?;
        if devices.push((*id, mapping)).is_err() {
            return Err(MapError::Memory);
        }
    }
    Ok(devices)
}

/// Whether a simulator begins with devices of these identifiers and this script.
fn begins(alloc: Global, ids: &[u8], script: &[Step]) -> Result<bool, MapError> {
    Ok(Sim::can_begin(devices(alloc, ids)?.as_slice(), script))
}

const BEGINNINGS: &[(&[u8], &[Step], bool)] = &[
    (&[], &[], true),
    (
        &[0, 17, 255],
        &[Step::Drop, Step::Hold(1), Step::Hold(255)],
        true,
    ),
    (&[17, 18, 17], &[], false),
    (&[17], &[Step::Pass, Step::Hold(0)], false),
];

fn beginnings(trial: &Trial<'_>) -> Result<(), MapError> {
    for (ids, script, expected) in BEGINNINGS {
        trial.told(ids, &begins(trial.alloc(), ids, script)?, expected);
    }
    Ok(())
}

#[test]
fn identifiers_differ_and_steps_hold_for_some_frames(rt: HostRuntime) -> Result<(), Fail> {
    Ok(twice!(rt, beginnings)?)
}
