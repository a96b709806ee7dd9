//! Events drawn by chance, of which most come to something.
use crate::model::{Asked, Book, Brought, Happened, Query, Read, Reply, Wanted, written_by};
use office_core::OfficeError;
use std::alloc::Global;

/// Slots are below so many.
pub(crate) const SLOTS: u32 = 4;

/// Numbers that follow from the first one alone.
#[derive(Drop)]
pub(crate) struct Chance {
    pub(crate) state: u64,
}

impl Chance {
    /// A number below so many.
    fn below(&mut self, count: u16) -> u16 {
        self.state = self
            .state
            .wrapping_mul(6_364_136_223_846_793_005)
            .wrapping_add(1_442_695_040_888_963_407);
        let drawn = (self.state >> 40) % (count.max(1) as u64);
        (drawn % 65536) as u16
    }
}

/// Mostly the newest connection.
fn draw_conn(chance: &mut Chance, book: &Book) -> u32 {
    let made = book.made();
    match chance.below(8) {
        0 => made.saturating_sub(1),
        1 => made.saturating_add(1),
        _ => made,
    }
}

fn draw_number(chance: &mut Chance) -> u16 {
    match chance.below(4) {
        0 => 0,
        1 => 990u16.wrapping_add(chance.below(20)),
        2 => 65_520u16.wrapping_add(chance.below(16)),
        _ => chance.below(999),
    }
}

fn draw_code(chance: &mut Chance) -> u8 {
    match chance.below(4) {
        0 => 6,
        1 => 3,
        _ => 2,
    }
}

/// Mostly a reply to the query.
fn draw_brought(chance: &mut Chance, query: Option<&Query>) -> Brought {
    let Some(query) = query else {
        return Brought::Words(0, 1);
    };
    match (query.asked, chance.below(10)) {
        (Asked::Read { .. }, 0) => Brought::Exception(3, 2),
        (Asked::Write { has_many, .. }, 0 | 1 | 2) => {
            Brought::Exception(written_by(has_many), draw_code(chance))
        }
        (_, 1) => Brought::Other,
        (Asked::Read { read, .. }, 2) => {
            Brought::Words(draw_number(chance), read.quantity.saturating_add(1))
        }
        (Asked::Read { read, .. }, _) => Brought::Words(draw_number(chance), read.quantity),
        (
            Asked::Write {
                address,
                number,
                has_many,
                ..
            },
            place,
        ) => {
            let other = if place == 3 { 1 } else { 0 };
            Brought::Echo(written_by(has_many), address, number ^ other)
        }
    }
}

fn draw_arrival(alloc: Global, chance: &mut Chance, book: &Book) -> Result<Happened, OfficeError> {
    let conn = draw_conn(chance, book);
    let queries = book.queries(alloc, conn)?;
    let count = (queries.len() % 1000) as u16;
    // Mostly a query that was made, and the newest more often than the others.
    let transaction = match chance.below(8) {
        0 => count,
        1 | 2 => count.saturating_sub(1),
        _ => chance.below(count),
    };
    let unit_id = if chance.below(10) == 0 { 18 } else { 17 };
    let brought = draw_brought(chance, queries.get(transaction as usize));
    Ok(Happened::Arrive(Reply {
        conn,
        transaction,
        unit_id,
        brought,
    }))
}

/// Mostly of a counter.
fn draw_void(chance: &mut Chance) -> Happened {
    let name = match chance.below(10) {
        0 => "a",
        1 => "z",
        2 | 3 => "g",
        4 | 5 => "h",
        _ => "e",
    };
    Happened::Request {
        key: chance.below(24) as u32,
        wanted: Wanted::Void(name, chance.below(SLOTS as u16) as u32),
    }
}

fn draw_wanted(chance: &mut Chance) -> Wanted {
    let name = match chance.below(10) {
        0 => "a",
        1 => "z",
        2 => "t",
        3 | 4 | 5 => "u",
        6 | 7 => "v",
        _ => "s",
    };
    let value = match chance.below(16) {
        0 => 65535,
        1 => u32::MAX,
        2 => 305_419_896,
        _ => chance.below(3) as u32,
    };
    match chance.below(3) {
        0 => Wanted::List(chance.below(4) as u32),
        _ => Wanted::Value(name, value),
    }
}

/// Mostly under a new key, and else under one that may have been used.
fn draw_request(chance: &mut Chance) -> Happened {
    Happened::Request {
        key: chance.below(24) as u32,
        wanted: draw_wanted(chance),
    }
}

fn draw_ask(chance: &mut Chance, book: &Book) -> Happened {
    Happened::Ask {
        conn: draw_conn(chance, book),
        read: Read {
            slot: chance.below(SLOTS as u16) as u32,
            start: 105u16.wrapping_add(chance.below(6)),
            quantity: 2u16.wrapping_add(chance.below(14)),
        },
    }
}

/// Mostly the oldest order that waits.
fn draw_send(chance: &mut Chance, book: &Book) -> Happened {
    let oldest = book.oldest().unwrap_or(0);
    let order = match chance.below(4) {
        0 => chance.below(6) as u32,
        _ => (oldest % 65536) as u32 + 1,
    };
    Happened::Send {
        conn: draw_conn(chance, book),
        order,
    }
}

/// The first two make a point known and open a line.
pub(crate) fn draw(
    alloc: Global,
    chance: &mut Chance,
    book: &Book,
    place: u32,
) -> Result<Happened, OfficeError> {
    match place {
        0 => {
            let wanted = Wanted::List(chance.below(3) as u32);
            return Ok(Happened::Request { key: 30, wanted });
        }
        1 => return Ok(Happened::Open(0)),
        _ => {}
    }
    match chance.below(43) {
        0..7 => Ok(draw_request(chance)),
        7 => Ok(Happened::Open(chance.below(3) as u32)),
        8 => Ok(Happened::Open(0)),
        9 => Ok(Happened::Restart),
        10..18 => Ok(draw_ask(chance, book)),
        18..23 => Ok(draw_send(chance, book)),
        40..43 => Ok(draw_void(chance)),
        _ => draw_arrival(alloc, chance, book),
    }
}
