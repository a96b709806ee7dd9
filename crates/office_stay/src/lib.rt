//! Keeps an office up for the command `run`, over sockets that are handed in, and tells what ended it as the other
//! commands tell theirs. These stand apart in `office_commands`, which waits for nothing that stays up.
#![tactic(auto)]

ghost use Rattle.std.specs.Prelude.{◌≡◌};
ghost use Rattle.office_commands.specs.declared.fault.Fault.TheVariants.{Line};
ghost use Rattle.office_stay.specs.Conversions.{of_run};

use office_commands::{Failure, Fault, Stay, Why};
use office_core::Office;
use office_run::RunFault;
use poll_book::Keeper;
use run_beat::{Slots, SocketFault, Sockets};
use std::alloc::Global;

/// The counter of a number is counted in a slot in which it can't have been polled yet.
fn ahead<K: Keeper>(alloc: Global, office: &Office<K>, number: u32, slot: u32) -> Failure
    ensures { result.fault ≡ Line }
{
    let failure = Failure::new(
        Fault::Line,
        Why::Words(
            "it is counted there, a day from now or later: was the clock or --every another?",
        ),
    );
    let Some(row) = office.points().iter().find(|row| row.number == number) else {
        return failure;
    };
    match format!(in alloc; "{} in slot {slot}", row.point.name) {
        Ok(place) => failure.of(alloc, place.as_str()),
        Err(_) => failure,
    }
}

fn failure_of<K: Keeper>(alloc: Global, office: &Office<K>, fault: RunFault) -> Failure
    ensures { result.fault ≡ of_run fault }
{
    match fault {
        RunFault::Ahead { point, slot } => ahead(alloc, office, point, slot),
        RunFault::Memory => Failure::from(Fault::Memory),
        RunFault::Store(fault) => Failure::from(Fault::Store(fault)),
        RunFault::Sockets(SocketFault::Clock) => {
            Failure::new(
                Fault::Line,
                Why::Words("the clock can't be read, or has no slot"),
            )
        }
        RunFault::Sockets(_) => {
            Failure::new(Fault::Line, Why::Words("the system can't wait for sockets"))
        }
    }
}

/// Keeps an office up until the run is to end, by `office_run::run`.
pub fn stay_up<K: Keeper, S: Sockets>(
    alloc: Global,
    office: &mut Office<K>,
    sockets: &mut S,
    stay: &Stay<'_>,
) -> Result<(), Failure> {
    let Some(slots) = Slots::new(stay.every) else {
        return Err(Failure::from(Fault::Command));
    };
    match office_run::run(
        alloc,
        office,
        sockets,
        slots,
        u32::from(stay.timeout) * 1000,
    ) {
        Ok(()) => Ok(()),
        Err(fault) => Err(failure_of(alloc, office, fault)),
    }
}
