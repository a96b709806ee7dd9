//! Memory that is refused to a call is told, changes nothing, and the call succeeds once more.
use crate::faults::HAPPENINGS;
use office_core::{Event, EventAnswer, Office, OfficeError};
use office_plays::builders::{MEMORY, events_of, office_over, shown};
use office_plays::steps::{answered, is_refused, take};
use poll_book::{Keeper, MemKeeper, StoreFault};
use std::alloc::{AllocError, Global};
use std::test::Fail;
use store_plays::stored;
use telling::{Trial, twice};

/// What is answered to an event, once more where memory was refused to it and nothing changed.
fn taken<K: Keeper>(
    trial: &Trial<'_>,
    office: &mut Office<K>,
    event: &Event,
) -> Result<EventAnswer, OfficeError> {
    let before = shown(trial.alloc(), office)?;
    let answer = answered(office, event);
    if !is_refused(&answer, StoreFault::Memory) {
        return Ok(answer);
    }
    trial.told(&"tables", &shown(trial.alloc(), office)?, &before);
    Ok(answered(office, event))
}

/// Expects the answers of an office that is refused nothing.
fn take_all<K: Keeper>(
    trial: &Trial<'_>,
    office: &mut Office<K>,
    twin: &mut Office<MemKeeper>,
) -> Result<(), OfficeError> {
    for event in &events_of(trial.alloc(), HAPPENINGS)? {
        let expected = take(twin, event)?;
        trial.told(&"event", &taken(trial, office, event)?, &expected);
    }
    Ok(())
}

fn twin(alloc: Global) -> Result<Office<MemKeeper>, OfficeError> {
    office_over(alloc, MemKeeper::new(alloc))
}

fn take_beside_twin<K: Keeper>(
    trial: &Trial<'_>,
    office: &mut Office<K>,
) -> Result<(), OfficeError> {
    let mut twin = twin(trial.alloc())?;
    take_all(trial, office, &mut twin)
}

fn calls_over<K: Keeper + Drop>(trial: &Trial<'_>, keeper: K) -> Result<(), OfficeError> {
    let mut office = office_over(trial.alloc(), keeper)?;
    take_beside_twin(trial, &mut office)
}

fn refused_calls(trial: &Trial<'_>) -> Result<(), OfficeError> {
    calls_over(trial, MemKeeper::new(trial.alloc()))?;
    calls_over(trial, stored(trial.alloc())?)
}

/// Run under `rt try --test --fail-alloc N`, this one sees each allocation of a call refused.
#[test]
fn refused_memory_is_told(rt: HostRuntime) -> Result<(), Fail> {
    Ok(twice!(rt, refused_calls)?)
}

fn run(office: &mut Office<MemKeeper>, events: &[Event]) -> Result<Vec<EventAnswer>, AllocError> {
    office.run(events)
}

/// The answers of a run, made once more where memory was refused to it and nothing changed.
fn answers(
    trial: &Trial<'_>,
    office: &mut Office<MemKeeper>,
    events: &[Event],
) -> Result<Vec<EventAnswer>, OfficeError> {
    let before = shown(trial.alloc(), office)?;
    if let Ok(answers) = run(office, events) {
        return Ok(answers);
    }
    trial.told(&"tables", &shown(trial.alloc(), office)?, &before);
    Ok(run(office, events)?)
}

/// Expects the answers of a run, of which one may be that memory was refused.
fn are_answers(
    trial: &Trial<'_>,
    answers: &[EventAnswer],
    events: &[Event],
    twin: &mut Office<MemKeeper>,
) -> Result<(), OfficeError> {
    trial.told(&"answers", &answers.len(), &events.len());
    for (answer, event) in answers.iter().zip(events) {
        if is_refused(answer, StoreFault::Memory) {
            return Err(MEMORY);
        }
        trial.told(&"answer", answer, &take(twin, event)?);
    }
    Ok(())
}

fn run_answers(trial: &Trial<'_>, events: &[Event]) -> Result<Vec<EventAnswer>, OfficeError> {
    let mut office = twin(trial.alloc())?;
    answers(trial, &mut office, events)
}

fn is_run(trial: &Trial<'_>, events: &[Event]) -> Result<(), OfficeError> {
    let answers = run_answers(trial, events)?;
    are_answers(trial, &answers, events, &mut twin(trial.alloc())?)
}

fn refused_run(trial: &Trial<'_>) -> Result<(), OfficeError> {
    let events = events_of(trial.alloc(), HAPPENINGS)?;
    is_run(trial, &events)
}

#[test]
fn a_run_without_memory_takes_nothing(rt: HostRuntime) -> Result<(), Fail> {
    Ok(twice!(rt, refused_run)?)
}
