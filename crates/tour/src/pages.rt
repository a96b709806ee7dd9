//! `office_pages`: a point and its last reading, as a row of JSON and as a sample of OpenMetrics.
use crate::lists::points;
use anyhow::{Result, bail};
use office_pages::{Seen, json, metrics};
use poll_book::{ReadingRow, ShownReading, Words};
use run_beat::Slots;
use std::alloc::Global;

/// The first point of the list, which read 555 in slot 1.
fn seen(alloc: Global) -> Result<Seen> {
    let Some(point) = points(alloc)?.as_slice().first().copied() else {
        bail!("no point");
    };
    let reading = ReadingRow {
        point: 1,
        slot: 1,
        words: Words::new(alloc, &[555])?,
        counted: true,
    };
    Ok(Seen {
        point,
        last: Some(ShownReading {
            reading,
            voided: false,
        }),
        total: Some(0),
    })
}

pub(crate) fn show(rt: &HostRuntime) -> Result<()> {
    let alloc = rt.alloc();
    let Some(slots) = Slots::new(60) else {
        bail!("slots of no seconds");
    };
    let seen = seen(alloc)?;
    let mut text = String::new(alloc);
    json::push_point(alloc, &mut text, &seen, slots)?;
    text.push('\n')?;
    metrics::push_value(alloc, &mut text, &seen)?;
    print!(rt; "{text}")?;
    Ok(())
}
