//! A keeper that refuses, each call in turn, by each fault; and an office begun anew over a keeper.
use office_core::{Event, EventAnswer, Office, OfficeError};
use office_plays::builders::{
    BARE, MEMORY, TWO, begun, events_of, office_after, office_over, shown,
};
use office_plays::refusing::Refusing;
use office_plays::steps::Happens::{self, Arrive, Ask, Load, Open, Order, Send, Void};
use office_plays::steps::{answered, has_words, is_refused, opened, state, take, take_happening};
use poll_book::StoreFault::{self, Disk, Full, Memory, Other};
use poll_book::{MemKeeper, OrderState};
use std::alloc::Global;
use std::test::Fail;
use telling::{Trial, twice};

const PAIR: &str = "a,m1,holding,107,uint16,,,gauge,\ne,m1,holding,108,uint16,,,counter,\n";

/// Three registers: 555, 0, 100.
const THREE: &[u8] = &[3, 6, 0x02, 0x2B, 0, 0, 0, 0x64];

const OTHERS: &[u8] = &[3, 6, 0, 1, 0, 2, 0, 3];

pub(crate) const HAPPENINGS: &[Happens] = &[
    Load("l1", PAIR),
    Open("roof"),
    Ask(1, "m1", 5, (3, 107, 3)),
    Ask(1, "m1", 4, (3, 107, 3)),
    Void("v1", "e", 4),
    Arrive(1, 0, 17, THREE),
    Arrive(1, 0, 17, THREE),
    Load("l2", "c,m1,holding,109,uint16,,,gauge,\n"),
    Arrive(1, 1, 17, OTHERS),
    Void("v2", "e", 5),
    Void("v2", "e", 5),
    Void("v3", "e", 5),
    Void("v4", "a", 5),
    Ask(1, "m1", 5, (3, 107, 3)),
    Arrive(1, 2, 17, &[0x83, 2]),
    Ask(1, "m1", 5, (3, 107, 3)),
    Arrive(1, 3, 17, OTHERS),
    Open("roof"),
    Load("l3", "lim,m1,holding,40,uint16,,,setting,\n"),
    Order("k1", "lim", 80),
    Order("k1", "lim", 80),
    Order("k2", "lim", 65535),
    Send(2, 1),
    Arrive(2, 0, 17, &[6, 0, 40, 0, 80]),
    Send(2, 1),
];

/// The office and what it answers to a keeper's first refusal.
fn refusing_office(
    alloc: Global,
    at: u32,
    fault: StoreFault,
) -> Result<(Office<Refusing>, Option<OfficeError>), OfficeError> {
    match begun(alloc, Refusing::new(alloc, at, fault), TWO)? {
        Ok(office) => Ok((office, None)),
        Err((error, keeper)) => Ok((office_over(alloc, keeper)?, Some(error))),
    }
}

/// Takes an event, once more where it was refused, as the twin does that nothing refuses; and tells
/// how often it was refused. Memory that was refused to the test ends the attempt.
fn take_as(
    trial: &Trial<'_>,
    office: &mut Office<Refusing>,
    twin: &mut Office<MemKeeper>,
    event: &Event,
    fault: StoreFault,
) -> Result<u32, OfficeError> {
    let alloc = trial.alloc();
    let answer = answered(office, event);
    if is_refused(&answer, fault) {
        trial.told(&fault, &shown(alloc, office)?, &shown(alloc, twin)?);
        trial.told(&fault, &take(office, event)?, &take(twin, event)?);
        return Ok(1);
    }
    if is_refused(&answer, Memory) {
        return Err(MEMORY);
    }
    trial.told(&fault, &answer, &take(twin, event)?);
    Ok(0)
}

/// Takes the events, and tells how often the office was refused.
fn take_all_as(
    trial: &Trial<'_>,
    office: &mut Office<Refusing>,
    twin: &mut Office<MemKeeper>,
    events: &[Event],
    fault: StoreFault,
) -> Result<u32, OfficeError> {
    let mut refused = 0u32;
    for event in events {
        let more = take_as(trial, office, twin, event, fault)?;
        refused = refused.saturating_add(more);
    }
    let alloc = trial.alloc();
    trial.told(&fault, &shown(alloc, office)?, &shown(alloc, twin)?);
    Ok(refused)
}

/// Whether an office was refused once, as it began or by an event.
fn is_once(begun: Option<OfficeError>, refused: u32, fault: StoreFault) -> bool {
    match begun {
        None => refused == 1,
        Some(error) => refused == 0 && error == OfficeError::Store(fault),
    }
}

/// Takes the events, of which one meets the refusal, or the office's beginning does. Another number of
/// refusals is told as an error: it can be of memory refused to the test.
fn refuse_once(
    trial: &Trial<'_>,
    twin: &mut Office<MemKeeper>,
    events: &[Event],
    at: u32,
    fault: StoreFault,
) -> Result<(), OfficeError> {
    let (mut office, error) = refusing_office(trial.alloc(), at, fault)?;
    let refused = take_all_as(trial, &mut office, twin, events, fault)?;
    if is_once(error, refused, fault) {
        Ok(())
    } else {
        Err(OfficeError::Exhausted)
    }
}

fn is_refused_once(
    trial: &Trial<'_>,
    events: &[Event],
    at: u32,
    fault: StoreFault,
) -> Result<(), OfficeError> {
    let mut twin = office_over(trial.alloc(), MemKeeper::new(trial.alloc()))?;
    refuse_once(trial, &mut twin, events, at, fault)
}

fn answer_all(office: &mut Office<Refusing>, events: &[Event]) {
    for event in events {
        let _ = answered(office, event);
    }
}

/// How many calls of a keeper the events make.
fn calls(alloc: Global, events: &[Event]) -> Result<u32, OfficeError> {
    let (mut office, _) = refusing_office(alloc, u32::MAX, Other)?;
    answer_all(&mut office, events);
    Ok(office.into_keeper().calls)
}

fn calls_refused(trial: &Trial<'_>) -> Result<(), OfficeError> {
    let events = events_of(trial.alloc(), HAPPENINGS)?;
    let count = calls(trial.alloc(), &events)?;
    // They make more calls than they are. Fewer are told as an error: it can be of memory refused to
    // the test.
    if count as usize <= events.len() {
        return Err(OfficeError::Exhausted);
    }
    for fault in [Memory, Full, Disk, Other] {
        for at in 0..count {
            is_refused_once(trial, &events, at, fault)?;
        }
    }
    Ok(())
}

#[test]
fn each_call_refused_once(rt: HostRuntime) -> Result<(), Fail> {
    Ok(twice!(rt, calls_refused)?)
}

/// A keeper to which all has happened.
fn used_keeper(alloc: Global) -> Result<MemKeeper, OfficeError> {
    Ok(office_after(alloc, MemKeeper::new(alloc), HAPPENINGS)?.into_keeper())
}

fn is_refused_for(
    trial: &Trial<'_>,
    office: &mut Office<MemKeeper>,
    happens: &Happens,
    error: OfficeError,
) -> Result<(), OfficeError> {
    let told = take_happening(trial.alloc(), office, happens)?;
    trial.told(&error, &told, &EventAnswer::Refused(error));
    Ok(())
}

fn is_numbered(
    trial: &Trial<'_>,
    office: &mut Office<MemKeeper>,
    number: u32,
) -> Result<(), OfficeError> {
    trial.told(&"number", &opened(office, "roof")?, &number);
    Ok(())
}

/// Expects that an office over a used keeper has its points and readings, and no connection.
fn is_begun(trial: &Trial<'_>, office: &mut Office<MemKeeper>) -> Result<(), OfficeError> {
    trial.told(&"points", &office.points().len(), &4);
    trial.told(&"devices", &office.site().devices.len(), &2);
    trial.told(&"reading", &has_words(office, "a", 5, &[555])?, &true);
    trial.told(&"order", &state(office, 1)?, &Some(OrderState::Done));
    let late = Arrive(2, 0, 17, THREE);
    is_refused_for(trial, office, &late, OfficeError::NoConnection)?;
    is_refused_for(trial, office, &Open(""), OfficeError::WrongLine)?;
    is_numbered(trial, office, 3)?;
    let unnamed = Ask(3, "", 1, (3, 107, 3));
    is_refused_for(trial, office, &unnamed, OfficeError::WrongLine)
}

/// The keeper of such an office.
fn begun_keeper(trial: &Trial<'_>) -> Result<MemKeeper, OfficeError> {
    let mut office = office_over(trial.alloc(), used_keeper(trial.alloc())?)?;
    is_begun(trial, &mut office)?;
    Ok(office.into_keeper())
}

/// The keeper that an office of another site gives back.
fn given_back(alloc: Global, keeper: MemKeeper) -> Result<MemKeeper, OfficeError> {
    match begun(alloc, keeper, BARE)? {
        Ok(_) => Err(OfficeError::NoRead),
        Err((OfficeError::SiteDiffers, keeper)) => Ok(keeper),
        Err((error, _)) => Err(error),
    }
}

fn goes_on(trial: &Trial<'_>) -> Result<(), OfficeError> {
    let keeper = given_back(trial.alloc(), begun_keeper(trial)?)?;
    let mut last = office_over(trial.alloc(), keeper)?;
    is_numbered(trial, &mut last, 4)
}

#[test]
fn a_second_office_goes_on(rt: HostRuntime) -> Result<(), Fail> {
    Ok(twice!(rt, goes_on)?)
}
