//! What an office holds and answers, by a book that keeps all that ever happened: every query, and
//! what each reply gave, with nothing left out.
use office_core::{Arrival, EventAnswer, OfficeError, RequestAnswer};
use office_plays::builders::frame;
use office_plays::steps::push;
use point_list::{ListFault, Role};
use poll_book::{OrderState, Outcome, Reason, RequestFault};
use poll_match::Conn;
use std::alloc::Global;

/// A point of device m1 in the holding registers, of which a counter has a roll. That of one register is a uint16,
/// that of two a uint32, that of four a uint64.
#[derive(Clone, Copy, PartialEq)]
pub(crate) struct Row {
    pub(crate) name: &'static str,
    pub(crate) address: u16,
    pub(crate) registers: u16,
    pub(crate) role: Role,
    pub(crate) roll: u64,
    /// Whether its first register has the least significant bits.
    pub(crate) is_swapped: bool,
}

#[derive(Clone, Copy, Debug)]
pub(crate) enum Brought {
    /// So many registers that follow from this number, as `register` says.
    Words(u16, u16),
    /// Of a function: the write of a register again, by its address and its number, or of several, by the first and
    /// how many.
    Echo(u8, u16, u16),
    /// An exception to a function, with its code.
    Exception(u8, u8),
    /// A reply to another function.
    Other,
}

/// What a caller asks for: a list by its number, of which there are four, a value for a point, or that a slot of a
/// point doesn't count.
#[derive(Clone, Copy, Debug, PartialEq)]
pub(crate) enum Wanted {
    List(u32),
    Value(&'static str, u32),
    Void(&'static str, u32),
}

/// A read of so many registers, for a slot.
#[derive(Clone, Copy, Debug)]
pub(crate) struct Read {
    pub(crate) slot: u32,
    pub(crate) start: u16,
    pub(crate) quantity: u16,
}

/// A frame that comes over a connection.
#[derive(Clone, Copy, Debug)]
pub(crate) struct Reply {
    pub(crate) conn: u32,
    pub(crate) transaction: u16,
    pub(crate) unit_id: u8,
    pub(crate) brought: Brought,
}

#[derive(Clone, Copy, Debug)]
pub(crate) enum Happened {
    /// Under a key by its number.
    Request { key: u32, wanted: Wanted },
    /// A line by its place; there are two.
    Open(u32),
    Ask { conn: u32, read: Read },
    Send { conn: u32, order: u32 },
    Arrive(Reply),
    Restart,
}

fn point(name: &'static str, address: u16, registers: u16, role: Role) -> Row {
    Row {
        name,
        address,
        registers,
        role,
        roll: 0,
        is_swapped: false,
    }
}

/// A counter that begins again behind this number.
fn counter(name: &'static str, address: u16, registers: u16, roll: u64) -> Row {
    Row {
        roll,
        ..point(name, address, registers, Role::Counter)
    }
}

fn swapped(row: Row) -> Row {
    Row {
        is_swapped: true,
        ..row
    }
}

/// The rows of a list. The last list has a fault of its own besides. Where a counter begins again is among the numbers
/// that come. Of two lists the point g differs in its order alone.
pub(crate) fn rows_of(list: u32) -> [Row; 7] {
    let a = point("a", 107, 1, Role::Gauge);
    let c = point("c", 109, 1, Role::Gauge);
    let e = counter("e", 110, 1, 999);
    let f = point("f", 111, 2, Role::Gauge);
    let g = counter("g", 113, 2, 33_000_000);
    let h = swapped(counter("h", 115, 4, 141_000_000_000_000_000));
    let i = swapped(point("i", 109, 2, Role::Gauge));
    let s = point("s", 40, 1, Role::Setting);
    let t = point("t", 112, 1, Role::Setting);
    let u = swapped(point("u", 50, 2, Role::Setting));
    let v = swapped(point("v", 54, 4, Role::Setting));
    match list {
        0 => [a, point("b", 108, 1, Role::Gauge), c, s, swapped(g), u, i],
        1 => [e, a, f, t, h, v, u],
        2 => [g, point("b", 113, 1, Role::Gauge), c, s, f, e, a],
        _ => [a, e, c, t, s, f, g],
    }
}

/// Whether a list has the column for orders of registers.
pub(crate) fn has_orders(list: u32) -> bool {
    list < 2
}

/// The register at an offset of a reply whose first one has this number. Half of it stands at odd offsets, so that a
/// number of several registers is another one in another order, and goes other steps.
pub(crate) fn register(number: u16, offset: u16) -> u16 {
    let half = if offset % 2 == 0 { number } else { number / 2 };
    half.wrapping_add(offset)
}

pub(crate) fn is_faulty(list: u32) -> bool {
    list >= 3
}

/// The first request under a key, and what became of it.
#[derive(Clone, Copy)]
struct Request {
    key: u32,
    wanted: Wanted,
    outcome: Outcome,
}

/// What is written for an order, and how it stands.
#[derive(Clone, Copy)]
pub(crate) struct Placed {
    pub(crate) row: Row,
    value: u32,
    pub(crate) state: OrderState,
}

#[derive(Clone, Copy)]
pub(crate) enum Asked {
    /// How many points were known then.
    Read {
        read: Read,
        known: usize,
    },
    /// The place of an order, and what comes back: the first address, and the register that is written there, or how
    /// many are.
    Write {
        order: usize,
        address: u16,
        number: u16,
        has_many: bool,
    },
}

/// A query that a connection made.
#[derive(Clone, Copy)]
pub(crate) struct Query {
    conn: u32,
    pub(crate) asked: Asked,
    is_answered: bool,
}

/// A reading: the place of its point, its slot, the number of its reply and the offset there.
#[derive(Clone, Copy)]
pub(crate) struct Given {
    pub(crate) point: usize,
    pub(crate) slot: u32,
    number: u16,
    offset: u16,
}

impl Given {
    /// One of its registers.
    pub(crate) fn word(self, place: u16) -> u16 {
        register(self.number, self.offset.wrapping_add(place))
    }

    /// The number that registers of a row mean.
    fn value(self, row: &Row) -> u64 {
        let mut value = 0u64;
        for place in 0..row.registers {
            let word = if row.is_swapped {
                self.word(row.registers.saturating_sub(place).saturating_sub(1))
            } else {
                self.word(place)
            };
            value = (value << 16) | u64::from(word);
        }
        value
    }
}

/// All that happened.
#[derive(Drop)]
pub(crate) struct Book {
    pub(crate) known: Vec<Row>,
    requests: Vec<Request>,
    pub(crate) orders: Vec<Placed>,
    /// The line of each connection, while it is open.
    lines: Vec<Option<u32>>,
    queries: Vec<Query>,
    pub(crate) given: Vec<Given>,
    /// The place of a point and a slot that doesn't count for it.
    voids: Vec<(usize, u32)>,
}

fn differs(known: &[Row], row: &Row) -> bool {
    known
        .iter()
        .any(|there| there.name == row.name && there != row)
}

fn refused(fault: RequestFault, row: u32, column: u8) -> Outcome {
    Outcome::RefusedFor(Reason { fault, row, column })
}

/// What becomes of a list by the points that are known.
fn list_outcome(known: &[Row], list: u32) -> Outcome {
    if is_faulty(list) {
        return refused(RequestFault::List(ListFault::UnknownDevice), 9, 2);
    }
    for (row, number) in rows_of(list).iter().zip(2u32..9) {
        if differs(known, row) {
            return refused(RequestFault::PointDiffers, number, 1);
        }
    }
    Outcome::Loaded(7)
}

fn covers(read: Read, row: &Row) -> bool {
    let end = read.start as u32 + read.quantity as u32;
    read.start <= row.address && row.address as u32 + row.registers as u32 <= end
}

fn fits(asked: Asked, brought: Brought) -> bool {
    match (asked, brought) {
        (Asked::Read { read, .. }, Brought::Words(_, count)) => count == read.quantity,
        (Asked::Read { .. }, Brought::Exception(function, _)) => function == 3,
        (Asked::Write { has_many, .. }, Brought::Exception(function, _)) => {
            function == written_by(has_many)
        }
        (
            Asked::Write {
                address,
                number,
                has_many,
                ..
            },
            Brought::Echo(function, at, there),
        ) => function == written_by(has_many) && at == address && there == number,
        _ => false,
    }
}

/// The function that writes a register, or several.
pub(crate) fn written_by(has_many: bool) -> u8 {
    if has_many { 16 } else { 6 }
}

/// How far a counter went from one number to the next.
fn step(before: u64, after: u64, roll: u64) -> u64 {
    if after >= before {
        after - before
    } else {
        after
            .saturating_add(1)
            .saturating_add(roll.saturating_sub(before))
    }
}

/// The registers of a number in an order's point, as bytes.
fn bytes_of(alloc: Global, row: &Row, value: u32) -> Result<Vec<u8>, OfficeError> {
    let mut bytes = Vec::new(alloc);
    for place in 0..row.registers {
        let behind = if row.is_swapped {
            place
        } else {
            row.registers.saturating_sub(place).saturating_sub(1)
        };
        let word = match behind {
            0 => value % 65536,
            1 => value / 65536,
            _ => 0,
        };
        bytes.extend_from_slice(&((word % 65536) as u16).to_be_bytes())?;
    }
    Ok(bytes)
}

/// The unit that writes a number for an order.
fn writing(alloc: Global, row: &Row, value: u32) -> Result<Vec<u8>, OfficeError> {
    let registers = bytes_of(alloc, row, value)?;
    let [high, low] = row.address.to_be_bytes();
    let mut unit = Vec::from_slice(alloc, &[written_by(row.registers > 1), high, low])?;
    if row.registers > 1 {
        let count = (row.registers % 128) as u8;
        unit.extend_from_slice(&[0, count, count.wrapping_mul(2)])?;
    }
    unit.extend_from_slice(&registers)?;
    Ok(unit)
}

impl Book {
    pub(crate) fn new(alloc: Global) -> Book {
        Book {
            known: Vec::new(alloc),
            requests: Vec::new(alloc),
            orders: Vec::new(alloc),
            lines: Vec::new(alloc),
            queries: Vec::new(alloc),
            given: Vec::new(alloc),
            voids: Vec::new(alloc),
        }
    }

    pub(crate) fn is_voided(&self, point: usize, slot: u32) -> bool {
        self.voids.contains(&(point, slot))
    }

    /// The reading of a point in a slot.
    pub(crate) fn reading(&self, point: usize, slot: u32) -> Option<Given> {
        self.given
            .iter()
            .find(|given| given.point == point && given.slot == slot)
            .copied()
    }

    /// The number of a counter in a slot, but for one that is too great for it, and where the slot is voided.
    fn number_in(&self, point: usize, row: &Row, slot: u32) -> Option<u64> {
        let value = self.reading(point, slot)?.value(row);
        if value > row.roll || self.is_voided(point, slot) {
            return None;
        }
        Some(value)
    }

    /// The total of a counter, of slots below so many.
    pub(crate) fn total(&self, point: usize, row: &Row, slots: u32) -> u128 {
        let mut sum = 0u128;
        let mut last = None;
        for slot in 0..slots {
            if let Some(number) = self.number_in(point, row, slot) {
                let further = step(last.unwrap_or(number), number, row.roll);
                sum = sum.saturating_add(u128::from(further));
                last = Some(number);
            }
        }
        sum
    }

    /// How many readings of swapped points there are, and how many orders for such that were done.
    pub(crate) fn swapped(&self) -> (usize, usize) {
        let readings = self.given.iter().filter(|given| self
            .known
            .get(given.point)
            .is_some_and(|row| row.is_swapped));
        let orders = self.orders.iter().filter(|placed| placed.row.is_swapped
            && placed.state == OrderState::Done);
        (readings.count(), orders.count())
    }

    /// How many connections were made.
    pub(crate) fn made(&self) -> u32 {
        (self.lines.len() % 65536) as u32
    }

    fn line_of(&self, conn: u32) -> Option<u32> {
        let place = (conn as usize).checked_sub(1)?;
        *self.lines.get(place)?
    }

    /// The queries of a connection in their order.
    pub(crate) fn queries(&self, alloc: Global, of: u32) -> Result<Vec<Query>, OfficeError> {
        let mut queries = Vec::new(alloc);
        for query in &self.queries {
            if query.conn == of {
                push(&mut queries, *query)?;
            }
        }
        Ok(queries)
    }

    fn order_outcome(&self, name: &str, value: u32) -> Outcome {
        let Some(row) = self.known.iter().find(|row| row.name == name) else {
            return refused(RequestFault::UnknownPoint, 0, 0);
        };
        if row.role != Role::Setting {
            return refused(RequestFault::NotASetting, 0, 0);
        }
        let is_out = match row.registers {
            1 => value >= 65535,
            2 => value == u32::MAX,
            _ => false,
        };
        if is_out {
            return refused(RequestFault::OutOfRange, 0, 0);
        }
        Outcome::Ordered((self.orders.len() % 65536) as u32 + 1)
    }

    fn void_outcome(&self, name: &str, slot: u32) -> Outcome {
        let Some(row) = self.known.iter().find(|row| row.name == name) else {
            return refused(RequestFault::UnknownPoint, 0, 0);
        };
        if row.role != Role::Counter {
            return refused(RequestFault::NotACounter, 0, 0);
        }
        Outcome::Voided(slot)
    }

    fn outcome(&self, wanted: Wanted) -> Outcome {
        match wanted {
            Wanted::List(list) => list_outcome(&self.known, list),
            Wanted::Value(name, value) => self.order_outcome(name, value),
            Wanted::Void(name, slot) => self.void_outcome(name, slot),
        }
    }

    fn add_points(&mut self, list: u32) -> Result<(), OfficeError> {
        for row in rows_of(list) {
            if !self.known.contains(&row) {
                push(&mut self.known, row)?;
            }
        }
        Ok(())
    }

    fn add_order(&mut self, name: &str, value: u32) -> Result<(), OfficeError> {
        let Some(row) = self.known.iter().find(|row| row.name == name) else {
            return Ok(());
        };
        let placed = Placed {
            row: *row,
            value,
            state: OrderState::Waiting,
        };
        push(&mut self.orders, placed)
    }

    fn add_void(&mut self, name: &str, slot: u32) -> Result<(), OfficeError> {
        let Some(point) = self.known.iter().position(|row| row.name == name) else {
            return Ok(());
        };
        if self.is_voided(point, slot) {
            return Ok(());
        }
        push(&mut self.voids, (point, slot))
    }

    fn add(&mut self, wanted: Wanted, outcome: Outcome) -> Result<(), OfficeError> {
        match (wanted, outcome) {
            (Wanted::List(list), Outcome::Loaded(_)) => self.add_points(list),
            (Wanted::Value(name, value), Outcome::Ordered(_)) => self.add_order(name, value),
            (Wanted::Void(name, slot), Outcome::Voided(_)) => self.add_void(name, slot),
            _ => Ok(()),
        }
    }

    fn take_request(&mut self, key: u32, wanted: Wanted) -> Result<RequestAnswer, OfficeError> {
        if let Some(first) = self.requests.iter().find(|request| request.key == key) {
            return Ok(if first.wanted == wanted {
                RequestAnswer::Kept {
                    first: false,
                    outcome: first.outcome,
                }
            } else {
                RequestAnswer::KeyReused
            });
        }
        let outcome = self.outcome(wanted);
        let request = Request {
            key,
            wanted,
            outcome,
        };
        push(&mut self.requests, request)?;
        self.add(wanted, outcome)?;
        Ok(RequestAnswer::Kept {
            first: true,
            outcome,
        })
    }

    fn open(&mut self, line: u32) -> Result<EventAnswer, OfficeError> {
        if line >= 2 {
            return Ok(EventAnswer::Refused(OfficeError::WrongLine));
        }
        for former in self.lines.as_mut_slice() {
            if *former == Some(line) {
                *former = None;
            }
        }
        push(&mut self.lines, Some(line))?;
        Ok(EventAnswer::Opened(Conn::new(self.made())))
    }

    /// How many queries a connection made.
    fn count(&self, conn: u32) -> u16 {
        let count = self
            .queries
            .iter()
            .filter(|query| query.conn == conn)
            .count();
        (count % 65536) as u16
    }

    /// The answer to a query of this unit, which is kept.
    fn make_query(
        &mut self,
        conn: u32,
        asked: Asked,
        unit: &[u8],
    ) -> Result<EventAnswer, OfficeError> {
        let number = self.count(conn);
        let query = Query {
            conn,
            asked,
            is_answered: false,
        };
        push(&mut self.queries, query)?;
        Ok(EventAnswer::Query(frame(number, 17, unit)?))
    }

    fn ask(&mut self, conn: u32, read: Read) -> Result<EventAnswer, OfficeError> {
        let some = self.known.iter().any(|row| covers(read, row));
        let refusal = match self.line_of(conn) {
            None => OfficeError::NoConnection,
            Some(0) if some => {
                let known = self.known.len();
                let [high, low] = read.start.to_be_bytes();
                let [above, below] = read.quantity.to_be_bytes();
                let asked = Asked::Read { read, known };
                return self.make_query(conn, asked, &[3, high, low, above, below]);
            }
            Some(0) => OfficeError::NoRead,
            Some(_) => OfficeError::WrongLine,
        };
        Ok(EventAnswer::Refused(refusal))
    }

    /// The place of the oldest order that waits. All are of device m1.
    pub(crate) fn oldest(&self) -> Option<usize> {
        self.orders
            .iter()
            .position(|placed| placed.state == OrderState::Waiting)
    }

    /// Sends the order at a place.
    fn write(
        &mut self,
        conn: u32,
        order: usize,
        placed: Placed,
    ) -> Result<EventAnswer, OfficeError> {
        let has_many = placed.row.registers > 1;
        let asked = Asked::Write {
            order,
            address: placed.row.address,
            number: if has_many {
                placed.row.registers
            } else {
                (placed.value % 65536) as u16
            },
            has_many,
        };
        let unit = writing(*self.orders.allocator(), &placed.row, placed.value)?;
        self.make_query(conn, asked, &unit)
    }

    fn send(&mut self, conn: u32, order: u32) -> Result<EventAnswer, OfficeError> {
        let place = (order as usize).wrapping_sub(1);
        let placed = self.orders.get(place).copied();
        let refusal = match (self.line_of(conn), placed) {
            (None, _) => OfficeError::NoConnection,
            (Some(_), None) => OfficeError::NoOrder,
            (Some(0), Some(placed)) if placed.state != OrderState::Waiting => OfficeError::Settled,
            (Some(0), Some(_)) if self.oldest() != Some(place) => OfficeError::NotNext,
            (Some(0), Some(placed)) => {
                return self.write(conn, place, placed);
            }
            (Some(_), Some(_)) => OfficeError::WrongLine,
        };
        Ok(EventAnswer::Refused(refusal))
    }

    /// What a reply to a read gives to the point at a place, if the read covers it and nothing is there.
    fn given_at(&self, read: Read, point: usize, number: u16) -> Option<Given> {
        let row = self.known.get(point)?;
        if !covers(read, row) || self.reading(point, read.slot).is_some() {
            return None;
        }
        Some(Given {
            point,
            slot: read.slot,
            number,
            offset: row.address.wrapping_sub(read.start),
        })
    }

    /// Adds what the first reply to a read gives, but for what is there, and counts it.
    fn give(&mut self, asked: Asked, number: u16) -> Result<u32, OfficeError> {
        let Asked::Read { read, known } = asked else {
            return Ok(0);
        };
        let mut count = 0u32;
        for point in 0..known.min(self.known.len()) {
            if let Some(given) = self.given_at(read, point, number) {
                push(&mut self.given, given)?;
                count = count.saturating_add(1);
            }
        }
        Ok(count)
    }

    fn settle(&mut self, asked: Asked, state: OrderState) {
        if let Asked::Write { order, .. } = asked
            && let Some(placed) = self.orders.as_mut_slice().get_mut(order)
            && placed.state == OrderState::Waiting
        {
            placed.state = state;
        }
    }

    /// What a reply to a query brings.
    fn take_brought(&mut self, asked: Asked, brought: Brought) -> Result<Arrival, OfficeError> {
        match brought {
            Brought::Words(number, _) => Ok(Arrival::Recorded(self.give(asked, number)?)),
            Brought::Exception(_, code) => {
                if code != 5 && code != 6 {
                    self.settle(asked, OrderState::Refused(code));
                }
                Ok(Arrival::Excepted(code))
            }
            _ => {
                self.settle(asked, OrderState::Done);
                Ok(Arrival::Settled)
            }
        }
    }

    /// The place of a query of a connection by its number.
    fn place(&self, conn: u32, number: u16) -> Option<usize> {
        let mut left = number;
        for (place, query) in self.queries.iter().enumerate() {
            if query.conn == conn {
                if left == 0 {
                    return Some(place);
                }
                left = left.saturating_sub(1);
            }
        }
        None
    }

    /// The place of the query that a frame answers, or its refusal.
    fn answered(&self, reply: Reply) -> Result<usize, OfficeError> {
        if self.line_of(reply.conn).is_none() {
            return Err(OfficeError::NoConnection);
        }
        let place = self.place(reply.conn, reply.transaction);
        let place = place.ok_or(OfficeError::NoQuery)?;
        let query = self.queries.get(place).ok_or(OfficeError::NoQuery)?;
        if reply.unit_id != 17 {
            Err(OfficeError::WrongUnit)
        } else if query.is_answered {
            Err(OfficeError::Repeat)
        } else if !fits(query.asked, reply.brought) {
            Err(OfficeError::WrongReply)
        } else {
            Ok(place)
        }
    }

    fn arrive(&mut self, reply: Reply) -> Result<EventAnswer, OfficeError> {
        let place = match self.answered(reply) {
            Ok(place) => place,
            Err(error) => return Ok(EventAnswer::Refused(error)),
        };
        let Some(query) = self.queries.as_mut_slice().get_mut(place) else {
            return Ok(EventAnswer::Refused(OfficeError::NoQuery));
        };
        query.is_answered = true;
        let asked = query.asked;
        Ok(EventAnswer::Arrived(self.take_brought(asked, reply.brought)?))
    }

    fn restart(&mut self) {
        for line in self.lines.as_mut_slice() {
            *line = None;
        }
    }

    /// The answer to what happens.
    pub(crate) fn happen(&mut self, happened: Happened) -> Result<EventAnswer, OfficeError> {
        match happened {
            Happened::Request { key, wanted } => {
                Ok(EventAnswer::Request(self.take_request(key, wanted)?))
            }
            Happened::Open(line) => self.open(line),
            Happened::Ask { conn, read } => self.ask(conn, read),
            Happened::Send { conn, order } => self.send(conn, order),
            Happened::Arrive(reply) => self.arrive(reply),
            Happened::Restart => {
                self.restart();
                Ok(EventAnswer::Restarted)
            }
        }
    }
}
