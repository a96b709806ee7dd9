//! An office beside the slow model.
use crate::draws::{Chance, SLOTS, draw};
use crate::events::event_of;
use crate::model::{Book, Happened, Placed, Row};
use office_core::{Arrival, EventAnswer, Office, OfficeError, RequestAnswer};
use office_plays::builders::office_over;
use office_plays::steps::{
    last, last_numbered, rows, state, take, total as total_of, total_numbered,
};
use office_plays::tables::text_of;
use point_list::Role;
use poll_book::{Keeper, MemKeeper, Outcome, PointRow, ShownReading};
use std::test::Fail;
use store_plays::stored;
use telling::{Trial, twice};

const HISTORIES: u64 = 150;

const EVENTS: u32 = 43;

/// The keys under which anything is drawn.
const KEYS: &[&str] = &[
    "k0", "k1", "k2", "k3", "k4", "k5", "k6", "k7", "k8", "k9", "k10", "k11", "k12", "k13", "k14",
    "k15", "k16", "k17", "k18", "k19", "k20", "k21", "k22", "k23", "k30",
];

/// Expects that a reading was given with these words, and that it is marked where its slot is voided.
fn is_given(trial: &Trial<'_>, book: &Book, point: usize, row: &Row, shown: &ShownReading) {
    let reading = &shown.reading;
    let words = reading.words.as_slice();
    let given = book.reading(point, reading.slot);
    trial.told(reading, &given.is_some(), &true);
    trial.told(reading, &shown.voided, &book.is_voided(point, reading.slot));
    trial.told(reading, &words.len(), &(row.registers as usize));
    for (word, place) in words.iter().zip(0u16..125) {
        let expected = given.map(|given| given.word(place));
        trial.told(reading, &Some(*word), &expected);
    }
}

fn slot_of(shown: Option<&ShownReading>) -> Option<u32> {
    Some(shown?.reading.slot)
}

/// Expects the readings of a known point, and its last one.
fn is_kept<K: Keeper>(
    trial: &Trial<'_>,
    office: &mut Office<K>,
    book: &Book,
    point: usize,
    row: &Row,
) -> Result<(), OfficeError> {
    let readings = rows(office, row.name, 0, u32::MAX)?.ok_or(OfficeError::NoRead)?;
    let count = book
        .given
        .iter()
        .filter(|reading| reading.point == point)
        .count();
    trial.told(&row.name, &readings.len(), &count);
    for reading in &readings {
        is_given(trial, book, point, row, reading);
    }
    let told = last(office, row.name)?;
    trial.told(
        &row.name,
        &slot_of(told.as_ref()),
        &slot_of(readings.last()),
    );
    if let Some(reading) = &told {
        is_given(trial, book, point, row, reading);
    }
    Ok(())
}

/// Expects that a known point is told by its number as by its name.
fn is_told_by_number<K: Keeper>(
    trial: &Trial<'_>,
    office: &mut Office<K>,
    number: u32,
    row: &Row,
) -> Result<(), OfficeError> {
    let told = last_numbered(office, number)?;
    let named = last(office, row.name)?;
    trial.told(&number, &slot_of(told.as_ref()), &slot_of(named.as_ref()));
    let total = total_numbered(office, number)?;
    trial.told(&number, &total, &total_of(office, row.name)?);
    Ok(())
}

/// Expects of each known point that what is stored of it is the plain sum of its steps.
fn are_totals<K: Keeper>(
    trial: &Trial<'_>,
    office: &mut Office<K>,
    book: &Book,
) -> Result<(), OfficeError> {
    for (point, row) in book.known.iter().enumerate() {
        let sum = if row.role == Role::Counter {
            Some(book.total(point, row, SLOTS))
        } else {
            None
        };
        trial.told(&row.name, &total_of(office, row.name)?, &sum);
    }
    Ok(())
}

fn are_named(trial: &Trial<'_>, points: &[PointRow], known: &[Row]) {
    trial.told(&"points", &points.len(), &known.len());
    for (point, row) in points.iter().zip(known) {
        trial.told(&point.number, &point.point.name.as_str(), &row.name);
    }
}

/// Expects how the orders stand, and that there is no order more.
fn are_ordered<K: Keeper>(
    trial: &Trial<'_>,
    office: &mut Office<K>,
    orders: &[Placed],
) -> Result<(), OfficeError> {
    let mut number = 0u32;
    for placed in orders {
        number = number.saturating_add(1);
        trial.told(&number, &state(office, number)?, &Some(placed.state));
    }
    let next = number.saturating_add(1);
    trial.told(&next, &state(office, next)?, &None);
    Ok(())
}

fn are_tables<K: Keeper>(
    trial: &Trial<'_>,
    office: &mut Office<K>,
    book: &Book,
) -> Result<(), OfficeError> {
    are_named(trial, office.points(), &book.known);
    let mut number = 0u32;
    for (point, row) in book.known.iter().enumerate() {
        number = number.saturating_add(1);
        is_kept(trial, office, book, point, row)?;
        is_told_by_number(trial, office, number, row)?;
    }
    are_ordered(trial, office, &book.orders)
}

/// How many frames were taken, how many of them were normal replies to orders, how many voids were taken, and of points
/// with the least significant register first how many readings there are, and how many orders were done.
#[derive(Clone, Copy, Debug)]
struct Taken {
    arrived: u32,
    settled: u32,
    voided: u32,
    readings: usize,
    orders: usize,
}

/// Whether a void was taken that is the first request under its key.
fn is_void(told: &EventAnswer) -> bool {
    matches!(
        told,
        EventAnswer::Request(RequestAnswer::Kept {
            first: true,
            outcome: Outcome::Voided(_),
        })
    )
}

impl Taken {
    fn count(&mut self, told: &EventAnswer) {
        let arrived = matches!(told, EventAnswer::Arrived(_));
        let settled = matches!(told, EventAnswer::Arrived(Arrival::Settled));
        self.arrived = self.arrived.saturating_add(u32::from(arrived));
        self.settled = self.settled.saturating_add(u32::from(settled));
        self.voided = self.voided.saturating_add(u32::from(is_void(told)));
    }

    /// Counts what a history came to.
    fn count_swapped(&mut self, book: &Book) {
        let (readings, orders) = book.swapped();
        self.readings = self.readings.saturating_add(readings);
        self.orders = self.orders.saturating_add(orders);
    }
}

// The office and the book are made in one function and used in another, by reference: each early
// exit of a function that owns them has to be proved to give back all that they hold.

/// Expects the book's answer to what happens, and gives it.
fn happen<K: Keeper>(
    trial: &Trial<'_>,
    office: &mut Office<K>,
    book: &mut Book,
    happened: Happened,
) -> Result<EventAnswer, OfficeError> {
    let told = take(office, &event_of(trial.alloc(), happened)?)?;
    trial.told(&happened, &told, &book.happen(happened)?);
    Ok(told)
}

/// Expects each answer of an office and its totals after each, and its tables where what is taken is counted.
fn go<K: Keeper>(
    trial: &Trial<'_>,
    office: &mut Office<K>,
    book: &mut Book,
    seed: u64,
    mut taken: Option<&mut Taken>,
) -> Result<(), OfficeError> {
    let mut chance = Chance { state: seed };
    for place in 0..EVENTS {
        let happened = draw(trial.alloc(), &mut chance, book, place)?;
        let told = happen(trial, office, book, happened)?;
        are_totals(trial, office, book)?;
        if let Some(taken) = &mut taken {
            taken.count(&told);
            are_tables(trial, office, book)?;
        }
    }
    if let Some(taken) = taken {
        taken.count_swapped(book);
    }
    Ok(())
}

/// How many calls a keeper refused.
fn refusals<K: Keeper>(keeper: &K) -> u64 {
    keeper.refusals()
}

/// The same of an office over an empty keeper, which refuses nothing and whose tables are given as text.
fn tables_after<K: Keeper + Drop>(
    trial: &Trial<'_>,
    keeper: K,
    seed: u64,
    taken: Option<&mut Taken>,
) -> Result<String, OfficeError> {
    let before = refusals(&keeper);
    let mut office = office_over(trial.alloc(), keeper)?;
    let mut book = Book::new(trial.alloc());
    go(trial, &mut office, &mut book, seed, taken)?;
    let mut keeper = office.into_keeper();
    trial.told(&seed, &refusals(&keeper), &before);
    text_of(trial.alloc(), &mut keeper, KEYS)
}

/// Histories over each keeper, of which both hold the same at its end. What is in a database takes long to
/// look at, so but for the totals it is looked at there alone.
fn histories(trial: &Trial<'_>) -> Result<(), OfficeError> {
    let alloc = trial.alloc();
    let mut taken = Taken {
        arrived: 0,
        settled: 0,
        voided: 0,
        readings: 0,
        orders: 0,
    };
    for seed in 0..HISTORIES {
        let stored = tables_after(trial, stored(alloc)?, seed, None)?;
        let kept = tables_after(trial, MemKeeper::new(alloc), seed, Some(&mut taken))?;
        trial.told(&seed, &stored, &kept);
    }
    let are_many = taken.arrived > 250 && taken.settled > 25 && taken.voided > 100;
    trial.told(&taken, &are_many, &true);
    let are_swapped = taken.readings > 100 && taken.orders > 10;
    trial.told(&taken, &are_swapped, &true);
    Ok(())
}

#[test]
fn answers_and_tables_of_histories(rt: HostRuntime) -> Result<(), Fail> {
    Ok(twice!(rt, histories)?)
}
