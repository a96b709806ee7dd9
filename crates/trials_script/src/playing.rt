//! Playing a script, and what came of it.
use mb_mbap::Counted;
use office_script::{ReplayFault, Replayed, replay};
use std::alloc::Global;
use std::io::Read;
use std::str;
use telling::{Outgoing, Trial};

/// The readings of one counter, of which the second came last.
pub(crate) const COUNTER: &str = "device m1 roof 17
point e,m1,holding,107,uint16,,,counter,
open roof
ask 1 m1 1 3 107 1
ask 1 m1 3 3 107 1
ask 1 m1 2 3 107 1
reply 1 00 00 00 00 00 05 11 03 02 FD E8
reply 1 00 01 00 00 00 05 11 03 02 01 F4
reply 1 00 01 00 00 00 05 11 03 02 01 F4
reply 1 00 02 00 00 00 05 11 03 02 FA 00
";

pub(crate) const COUNTER_TEXT: &str = "loaded 1
connection 1
query 00 00 00 00 00 06 11 03 00 6B 00 01
query 00 01 00 00 00 06 11 03 00 6B 00 01
query 00 02 00 00 00 06 11 03 00 6B 00 01
recorded 1
recorded 1
refused Repeat
recorded 1
reading e 1 65000
reading e 2 64000
reading e 3 500
total e 66572
";

fn played<R: Read + Drop>(
    alloc: Global,
    reader: &mut Counted<R>,
    writer: &mut Counted<Outgoing>,
) -> Result<Replayed, ReplayFault> {
    replay(alloc, reader, writer)
}

/// Expects what comes of a script: its text, how it ended, how many calls failed. Where memory was refused a front of
/// the text was written, and the attempt ends.
pub(crate) fn comes<R: Read + Drop>(
    trial: &Trial<'_>,
    reader: R,
    writer: Outgoing,
    text: &str,
    ended: Result<Replayed, ReplayFault>,
    failures: u64,
) -> Result<(), ReplayFault> {
    let calls = (writer.most, writer.writes);
    let (mut reader, mut writer) = (Counted::new(reader), Counted::new(writer));
    let told = played(trial.alloc(), &mut reader, &mut writer);
    let failed = reader.failures().saturating_add(writer.failures());
    let sent = writer.into_inner().sent;
    let written = str::from_utf8(&sent).unwrap_or("no text");
    if told == Err(ReplayFault::Memory) {
        trial.told(&calls, &text.starts_with(written), &true);
        return Err(ReplayFault::Memory);
    }
    trial.told(&calls, &(written, told, failed), &(text, ended, failures));
    Ok(())
}
