//! What happens to an office, as a constant can say it, and the office's calls.
use crate::builders::{MEMORY, event_of};
use office_core::{Event, EventAnswer, Office, OfficeError};
use poll_book::{Keeper, OrderState, ShownReading, StoreFault};
use std::alloc::Global;

/// What happens to an office, as a constant can say it.
#[derive(Drop)]
pub enum Happens {
    /// Records of a list, below its header, and before them its key.
    Load(&'static str, &'static str),
    /// The same of a list that says the order of registers.
    LoadOrdered(&'static str, &'static str),
    /// A value for a point, under a key.
    Order(&'static str, &'static str, i128),
    /// A slot of a counter that doesn't count, under a key.
    Void(&'static str, &'static str, u32),
    /// Over a connection, the order of this number.
    Send(u32, u32),
    Open(&'static str),
    /// Over a connection, a device is asked in a slot, by a read's function, start and quantity.
    Ask(u32, &'static str, u32, (u8, u16, u16)),
    /// Over a connection, with a transaction identifier and a unit identifier, a unit comes.
    Arrive(u32, u16, u8, &'static [u8]),
    Restart,
}

pub fn is_refused(answer: &EventAnswer, fault: StoreFault) -> bool {
    match answer {
        EventAnswer::Refused(OfficeError::Store(told)) => *told == fault,
        _ => false,
    }
}

// The calls of an office stand in functions that promise nothing of them: a test needs none of
// their clauses, and each would be a fact in each of its goals.

pub fn answered<K: Keeper>(office: &mut Office<K>, event: &Event) -> EventAnswer {
    office.step(event)
}

pub fn total<K: Keeper>(office: &mut Office<K>, point: &str) -> Result<Option<u128>, OfficeError> {
    office.total(point)
}

pub fn rows<K: Keeper>(
    office: &mut Office<K>,
    point: &str,
    from: u32,
    to: u32,
) -> Result<Option<Vec<ShownReading>>, OfficeError> {
    office.readings(point, from, to)
}

pub fn last<K: Keeper>(
    office: &mut Office<K>,
    point: &str,
) -> Result<Option<ShownReading>, OfficeError> {
    office.last(point)
}

pub fn total_numbered<K: Keeper>(
    office: &mut Office<K>,
    number: u32,
) -> Result<Option<u128>, OfficeError> {
    office.total_numbered(number)
}

pub fn last_numbered<K: Keeper>(
    office: &mut Office<K>,
    number: u32,
) -> Result<Option<ShownReading>, OfficeError> {
    office.last_numbered(number)
}

pub fn state<K: Keeper>(
    office: &mut Office<K>,
    number: u32,
) -> Result<Option<OrderState>, OfficeError> {
    office.order_state(number)
}

/// Puts an item behind the others.
pub fn push<T: Drop>(items: &mut Vec<T>, item: T) -> Result<(), OfficeError> {
    items.push(item).map_err(|_| MEMORY)
}

/// How the orders stand, by their numbers.
pub fn states<K: Keeper>(
    alloc: Global,
    office: &mut Office<K>,
) -> Result<Vec<OrderState>, OfficeError> {
    let mut states = Vec::new(alloc);
    for before in 0..office.orders()? {
        if let Some(state) = state(office, before.saturating_add(1))? {
            push(&mut states, state)?;
        }
    }
    Ok(states)
}

/// The number of a line's new connection.
pub fn opened<K: Keeper>(office: &mut Office<K>, line: &str) -> Result<u32, OfficeError> {
    Ok(office.open_line(line)?.number())
}

/// Takes an event. Refused memory ends the attempt.
pub fn take<K: Keeper>(office: &mut Office<K>, event: &Event) -> Result<EventAnswer, OfficeError> {
    let answer = answered(office, event);
    if is_refused(&answer, StoreFault::Memory) {
        return Err(MEMORY);
    }
    Ok(answer)
}

/// Whether a point has these words in a slot, which are none where it has no reading.
pub fn has_words<K: Keeper>(
    office: &mut Office<K>,
    point: &str,
    slot: u32,
    words: &[u16],
) -> Result<bool, OfficeError> {
    let Some(rows) = rows(office, point, slot, slot)? else {
        return Ok(false);
    };
    Ok(match rows.as_slice() {
        [] => words.is_empty(),
        [row] => row.reading.slot == slot && row.reading.words.as_slice() == words,
        _ => false,
    })
}

/// Takes what happens, as a constant says it.
pub fn take_happening<K: Keeper>(
    alloc: Global,
    office: &mut Office<K>,
    happens: &Happens,
) -> Result<EventAnswer, OfficeError> {
    take(office, &event_of(alloc, happens)?)
}
