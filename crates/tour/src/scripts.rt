//! `office_script`: what a script prints. `docs/SCRIPTS.md` has the lines that it may have.
use anyhow::Result;
use mb_mbap::Counted;
use office_script::replay;

const SCRIPT: &[u8] = b"device meter roof 17\n\
    point energy,meter,holding,107,uint16,,,counter,\n\
    open roof\n\
    ask 1 meter 1 3 107 1\n\
    reply 1 00 00 00 00 00 05 11 03 02 02 2B\n";

pub(crate) fn show(rt: &HostRuntime) -> Result<()> {
    let (mut reader, mut writer) = (Counted::new(SCRIPT), Counted::new(Vec::new(rt.alloc())));
    let ended = replay(rt.alloc(), &mut reader, &mut writer)?;
    let text = String::from_utf8(writer.into_inner())?;
    print!(rt; "{text}")?;
    println!(rt; "{ended}")?;
    Ok(())
}
