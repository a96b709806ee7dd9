//! `run_beat`: slots by the clock, and how long a line that fails again and again is left alone.
use anyhow::{Result, bail};
use run_beat::{ClockTime, Delay, Slots};

fn show_slots(rt: &HostRuntime) -> Result<()> {
    let Some(slots) = Slots::new(60) else {
        bail!("slots of no seconds");
    };
    let time = ClockTime::new(125_000);
    let slot = slots.slot_at(time);
    let rest = slots.until_next(time);
    println!(rt; "slot {slot:?}, the next one in {rest} ms")?;
    Ok(())
}

fn show_delays(rt: &HostRuntime) -> Result<()> {
    let mut delay = Delay::none();
    for _ in 0..3 {
        delay = delay.longer();
        println!(rt; "left alone for {} ms", delay.millis())?;
    }
    Ok(())
}

pub(crate) fn show(rt: &HostRuntime) -> Result<()> {
    show_slots(rt)?;
    show_delays(rt)
}
