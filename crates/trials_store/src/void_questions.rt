//! Questions for voids, of points and slots that a keeper knows the ends of or doesn't, in memory, over files that fail
//! and over a closed database. Each is told as the statement tells it by which a keeper asked at first, or is refused
//! and counted once; each takes one statement, or none behind an end that is remembered.
use crate::damage::{Harm, are_harmed};
use crate::disks::{Failing, Which};
use crate::opening::run;
use crate::plays::{Reached, Task, copies, done_on, empty_files, left, options};
use office_core::OfficeError;
use office_plays::builders::{MEMORY, office_after};
use office_plays::steps::Happens::{self, Load};
use office_store::SqlKeeper;
use poll_book::{Change, Keeper, MemKeeper, PointRow, StoreFault, VoidRow};
use sqlite::{Alter, Connection, Error, ErrorCode, Files, params};
use sqlite_disk::Memory;
use std::alloc::Global;
use std::test::Fail;
use store_plays::{begin, empty, opened};
use telling::{Trial, twice};

/// The statement by which a keeper asked at first.
const FIRST: &str = "SELECT point, slot FROM void WHERE point = ?1 AND slot = ?2";

const POINTS: &[Happens] = &[Load(
    "l1",
    "a,m1,holding,107,uint16,,,gauge,\nb,m1,holding,108,uint16,,,gauge,\nc,m1,holding,109,uint16,,,gauge,\nd,m1,holding,110,uint16,,,gauge,\ne,m1,holding,111,uint16,,,gauge,\n",
)];

/// The points get the numbers that are asked for, and one that isn't.
const NUMBERED: &str =
    "UPDATE point SET number = 9999 WHERE number = 2; UPDATE point SET number = 10000 WHERE number = 3; UPDATE point SET number = 10001 WHERE number = 4; UPDATE point SET number = 5000 WHERE number = 5";

/// The first point, the last ones of which ends are remembered, and one behind them.
const NUMBERS: [u32; 4] = [1, 9_999, 10_000, 10_001];

const SLOTS: [u32; 7] = [0, 2, 3, 5, 7, 8, u32::MAX];

/// So many questions are asked over files that fail.
const FIRST_FEW: usize = 4;

/// Each slot of each point is asked for.
const QUESTIONS: usize = NUMBERS.len() * SLOTS.len();

/// One more than the questions: a prime number.
const PRIME: usize = QUESTIONS + 1;

/// Orders of the questions: by so much each is ahead of the one before it.
const STEPS: &[usize] = &[1, 28, 5, 12];

/// So many questions for the greatest number bring its place.
const NEAR: u32 = 626;

/// Voids of each point.
const SOME: &str =
    "INSERT INTO void(point, slot) SELECT number, 3 FROM point; INSERT INTO void(point, slot) SELECT number, 7 FROM point";

/// Voids of the point that isn't asked for, twice as many a statement. They take several pages, so that each statement
/// reads some, where one is kept in memory. The last statement changes nothing, but the log may be copied before it.
const CROWD: &str =
    "INSERT INTO void(point, slot) VALUES (5000, 64); INSERT INTO void(point, slot) SELECT point, slot + 64 FROM void WHERE point = 5000 AND slot > 63; INSERT INTO void(point, slot) SELECT point, slot + 128 FROM void WHERE point = 5000 AND slot > 63; INSERT INTO void(point, slot) SELECT point, slot + 256 FROM void WHERE point = 5000 AND slot > 63; INSERT INTO void(point, slot) SELECT point, slot + 512 FROM void WHERE point = 5000 AND slot > 63; INSERT INTO void(point, slot) SELECT point, slot + 1024 FROM void WHERE point = 5000 AND slot > 63; INSERT INTO void(point, slot) SELECT point, slot + 2048 FROM void WHERE point = 5000 AND slot > 63; INSERT INTO void(point, slot) SELECT point, slot + 4096 FROM void WHERE point = 5000 AND slot > 63; INSERT INTO void(point, slot) SELECT point, slot + 8192 FROM void WHERE point = 5000 AND slot > 63; INSERT INTO void(point, slot) SELECT point, slot + 16384 FROM void WHERE point = 5000 AND slot > 63; UPDATE meta SET value = 2 WHERE name = 'version'";

/// What stands in the table of voids, also rows that no office writes, and whether the place of the last point is
/// brought near before.
const TABLES: &[(&str, bool)] = &[
    ("DELETE FROM void", false),
    (SOME, false),
    (SOME, true),
    (
        "INSERT INTO void(point, slot) SELECT number, 0 FROM point",
        false,
    ),
    (
        "INSERT INTO void(point, slot) SELECT number, 4294967295 FROM point",
        false,
    ),
    (
        "INSERT INTO void(point, slot) SELECT number, -1 FROM point; INSERT INTO void(point, slot) SELECT number, 7 FROM point",
        false,
    ),
    (
        "INSERT INTO void(point, slot) SELECT number, 4294967296 FROM point",
        false,
    ),
    (
        "INSERT INTO void(point, slot) SELECT number, 2 FROM point; INSERT INTO void(point, slot) SELECT number, 4294967298 FROM point",
        false,
    ),
    (
        "INSERT INTO void(point, slot) VALUES (1, 5), (9999, 3), (9999, 5), (10001, 7)",
        false,
    ),
    (
        "INSERT INTO void(point, slot) SELECT number, 3 FROM point; INSERT INTO void(point, slot) SELECT point, slot + 8 FROM void; INSERT INTO void(point, slot) SELECT point, slot + 16 FROM void; INSERT INTO void(point, slot) SELECT point, slot + 32 FROM void; INSERT INTO void(point, slot) SELECT point, slot + 64 FROM void; INSERT INTO void(point, slot) SELECT point, slot + 128 FROM void",
        false,
    ),
];

/// So many steps at most a question takes, however many voids there are: a step is a query, a row that it visits, and one
/// that it answers.
const FEW: u64 = 4;

/// What a question tells. Refused memory ends the attempt.
type Told = Result<bool, StoreFault>;

/// The question of this place in an order, from 1 on.
fn question(count: usize, step: usize) -> (u32, u32) {
    let at = (count.saturating_mul(step) % PRIME).saturating_sub(1);
    (
        NUMBERS[at % NUMBERS.len()],
        SLOTS[at / NUMBERS.len() % SLOTS.len()],
    )
}

/// What the statement tells that was asked at first.
fn first_told<S: Alter>(
    beside: &mut Connection<S>,
    number: u32,
    slot: u32,
) -> Result<Told, OfficeError> {
    match beside.query_all(FIRST, params![number, slot]) {
        Ok(rows) => Ok(Ok(!rows.is_empty())),
        Err(Error::SqliteFailure(ErrorCode::OutOfMemory)) => Err(MEMORY),
        Err(
            Error::SqliteFailure(
                ErrorCode::SystemIoFailure | ErrorCode::DatabaseCorrupt | ErrorCode::Closed,
            ),
        ) => Ok(Err(StoreFault::Disk)),
        Err(_) => Ok(Err(StoreFault::Other)),
    }
}

/// What a keeper tells, which counts a refusal once.
fn asked<K: Keeper>(
    trial: &Trial<'_>,
    keeper: &mut K,
    point: &PointRow,
    slot: u32,
) -> Result<Told, OfficeError> {
    let before = keeper.refusals();
    let told = keeper.voided(point, slot);
    let counted = keeper.refusals().saturating_sub(before);
    let case = ("counted", point.number, slot);
    trial.told(&case, &counted, &u64::from(told.is_err()));
    match told {
        Err(StoreFault::Memory) => Err(MEMORY),
        told => Ok(told),
    }
}

/// The points, as a twin's in memory.
fn points_of(alloc: Global) -> Result<Vec<PointRow>, OfficeError> {
    let twin = office_after(alloc, MemKeeper::new(alloc), POINTS)?;
    let mut points = twin.into_keeper().points(alloc)?;
    for (point, number) in points.iter_mut().zip(NUMBERS) {
        point.number = number;
    }
    Ok(points)
}

/// The point of a number.
fn numbered(points: &[PointRow], number: u32) -> Result<&PointRow, OfficeError> {
    for point in points {
        if point.number == number {
            return Ok(point);
        }
    }
    Err(OfficeError::NoRead)
}

/// Asks each question, in an order, and expects what is told beside it.
fn are_told<K: Keeper, S: Alter>(
    trial: &Trial<'_>,
    keeper: &mut K,
    beside: &mut Connection<S>,
    points: &[PointRow],
    step: usize,
) -> Result<(), OfficeError> {
    for count in 1..PRIME {
        let (number, slot) = question(count, step);
        let expected = first_told(beside, number, slot)?;
        let told = asked(trial, keeper, numbered(points, number)?, slot)?;
        trial.told(&(step, number, slot), &told, &expected);
    }
    Ok(())
}

/// Asks for the last slot of a great number so often that its place is there, if none is voided from that slot on.
fn come_near<K: Keeper, S: Alter>(
    trial: &Trial<'_>,
    keeper: &mut K,
    beside: &mut Connection<S>,
    point: &PointRow,
) -> Result<(), OfficeError> {
    let expected = first_told(beside, point.number, u32::MAX)?;
    for count in 0..NEAR {
        let told = asked(trial, keeper, point, u32::MAX)?;
        trial.told(&("near", count), &told, &expected);
    }
    Ok(())
}

/// Voids a slot of a point, and beside it.
fn void_both<K: Keeper, S: Alter>(
    alloc: Global,
    keeper: &mut K,
    beside: &mut Connection<S>,
    point: u32,
) -> Result<(), OfficeError> {
    let change = Change {
        void: Some(VoidRow { point, slot: 8 }),
        ..Change::none(alloc)
    };
    keeper.apply(&change)?;
    let row = params![point, 8u32];
    match beside.execute("INSERT INTO void(point, slot) VALUES (?1, ?2)", row) {
        Ok(_) => Ok(()),
        Err(Error::SqliteFailure(ErrorCode::OutOfMemory)) => Err(MEMORY),
        Err(_) => Err(OfficeError::NoRead),
    }
}

/// Asks in several orders, before and behind a void of each point.
fn told_throughout<K: Keeper, S: Alter>(
    trial: &Trial<'_>,
    keeper: &mut K,
    beside: &mut Connection<S>,
    points: &[PointRow],
) -> Result<(), OfficeError> {
    for (step, point) in STEPS.iter().zip(points) {
        are_told(trial, keeper, beside, points, *step)?;
        void_both(trial.alloc(), keeper, beside, point.number)?;
    }
    are_told(trial, keeper, beside, points, 3)
}

/// The same, once the place of the last point of which the end is remembered is there, if it is to be.
fn told_from_near<K: Keeper, S: Alter>(
    trial: &Trial<'_>,
    keeper: &mut K,
    beside: &mut Connection<S>,
    is_near: bool,
) -> Result<(), OfficeError> {
    let points = points_of(trial.alloc())?;
    if is_near {
        come_near(trial, keeper, beside, numbered(&points, 10_000)?)?;
    }
    told_throughout(trial, keeper, beside, &points)
}

/// The tables of an office that knows the points, with these voids.
fn prepared<S: Alter + Drop>(
    alloc: Global,
    connection: Connection<S>,
    voids: &str,
) -> Result<Connection<S>, OfficeError> {
    let keeper = begin(connection).map_err(|(error, _connection)| error)?;
    let office = office_after(alloc, keeper, POINTS)?;
    let mut connection = office.into_keeper().into_connection();
    run(&mut connection, NUMBERED)?;
    run(&mut connection, voids)?;
    Ok(connection)
}

/// A keeper of a database's tables, whose questions take few steps each.
fn kept_in<S: Alter + Drop>(mut connection: Connection<S>) -> Result<SqlKeeper<S>, OfficeError> {
    connection.set_step_limit(Some(FEW));
    opened(connection).map_err(|(error, _connection)| error)
}

/// A keeper over these voids in one empty database is told as beside it, in another.
fn told_over<S: Alter + Drop, B: Alter + Drop>(
    trial: &Trial<'_>,
    connection: Connection<S>,
    beside: Connection<B>,
    (voids, is_near): (&str, bool),
) -> Result<(), OfficeError> {
    let mut beside = prepared(trial.alloc(), beside, voids)?;
    let mut keeper = kept_in(prepared(trial.alloc(), connection, voids)?)?;
    told_from_near(trial, &mut keeper, &mut beside, is_near)
}

/// The same of a keeper in memory.
fn told_beside<S: Alter + Drop>(
    trial: &Trial<'_>,
    beside: Connection<S>,
    table: (&str, bool),
) -> Result<(), OfficeError> {
    told_over(trial, empty(trial.alloc())?, beside, table)
}

fn questions(trial: &Trial<'_>) -> Result<(), OfficeError> {
    for (voids, is_near) in TABLES {
        told_beside(trial, empty(trial.alloc())?, (voids, *is_near))?;
    }
    Ok(())
}

#[test]
fn questions_for_voids_are_told_as_at_first(rt: HostRuntime) -> Result<(), Fail> {
    Ok(twice!(rt, questions)?)
}

/// Whether a slot of a point is voided by `SOME`.
fn is_some(slot: u32) -> bool {
    slot == 3 || slot == 7
}

/// Asks a few questions over `SOME`, which it is told rightly unless the disk refuses. Tells how often that was.
fn refused_of<K: Keeper>(
    trial: &Trial<'_>,
    keeper: &mut K,
    points: &[PointRow],
    step: usize,
) -> Result<u32, OfficeError> {
    let mut refused = 0u32;
    for count in 1..=FIRST_FEW {
        let (number, slot) = question(count, step);
        let told = asked(trial, keeper, numbered(points, number)?, slot)?;
        if told == Err(StoreFault::Disk) {
            refused = refused.saturating_add(1);
        } else {
            trial.told(&(number, slot), &told, &Ok(is_some(slot)));
        }
    }
    Ok(refused)
}

/// The same, of the points.
fn refused<K: Keeper>(trial: &Trial<'_>, keeper: &mut K, step: usize) -> Result<u32, OfficeError> {
    let points = points_of(trial.alloc())?;
    refused_of(trial, keeper, &points, step)
}

/// What is done with a keeper, and then by the statement over its connection.
pub(crate) trait Asking {
    /// Tells how often the keeper refused.
    fn asks<K: Keeper>(&self, trial: &Trial<'_>, keeper: &mut K) -> Result<u32, OfficeError>;

    /// Asks the statement that was asked at first, where that tells something.
    fn asks_first<S: Alter>(
        &self,
        _trial: &Trial<'_>,
        _connection: &mut Connection<S>,
        _refused: u32,
    ) -> Result<(), OfficeError> {
        Ok(())
    }
}

/// Opens a keeper, and does that.
#[derive(Clone, Copy)]
pub(crate) struct Over<A>(pub(crate) A);

impl<A: Asking> Task for Over<A> {
    fn done_in<S: Alter + Drop>(
        &self,
        trial: &Trial<'_>,
        connection: Connection<S>,
    ) -> Result<(Option<Reached>, S), OfficeError> {
        match opened(connection) {
            Ok(mut keeper) => {
                let refused = self.0.asks(trial, &mut keeper)?;
                let mut connection = keeper.into_connection();
                self.0.asks_first(trial, &mut connection, refused)?;
                let reached = Reached { events: 0, refused };
                Ok((Some(reached), connection.into_store()))
            }
            Err((error, connection)) => Ok((None, left(error, connection)?)),
        }
    }
}

/// Asks a few questions.
#[derive(Clone, Copy)]
struct Few;

impl Asking for Few {
    fn asks<K: Keeper>(&self, trial: &Trial<'_>, keeper: &mut K) -> Result<u32, OfficeError> {
        refused(trial, keeper, 12)
    }
}

/// Makes the tables with `SOME`, and with `CROWD` or without.
#[derive(Clone, Copy)]
struct Making {
    is_crowded: bool,
}

impl Task for Making {
    fn done_in<S: Alter + Drop>(
        &self,
        trial: &Trial<'_>,
        connection: Connection<S>,
    ) -> Result<(Option<Reached>, S), OfficeError> {
        let mut connection = prepared(trial.alloc(), connection, SOME)?;
        if self.is_crowded {
            run(&mut connection, CROWD)?;
        }
        let reached = Reached {
            events: 0,
            refused: 0,
        };
        Ok((Some(reached), connection.into_store()))
    }
}

/// The files of those tables: the log is copied into the database file after so many frames.
fn files_of(
    trial: &Trial<'_>,
    frames: usize,
    is_crowded: bool,
) -> Result<Files<Memory>, OfficeError> {
    let files = empty_files(trial.alloc());
    let (made, files) = done_on(trial, files, options(64, frames), &Making { is_crowded })?;
    trial.told(&"made", &made.is_some(), &true);
    Ok(files)
}

/// Does a task with copies of files, of which one fails the call of a number.
fn done_failing<T: Task>(
    trial: &Trial<'_>,
    tables: &Files<Memory>,
    which: Which,
    call: u64,
    task: &T,
) -> Result<(Option<Reached>, Files<Failing<Memory>>), OfficeError> {
    let (log, db) = which.both(call, u64::MAX);
    let files = copies(trial.alloc(), &tables.log, &tables.db)?;
    let files = Files {
        log: Failing::new(files.log, usize::MAX, log),
        db: Failing::new(files.db, usize::MAX, db),
    };
    done_on(trial, files, options(1, 1_000), task)
}

/// Asks a few questions where a call of a file fails. Where that was a question's, it alone is refused. Tells whether
/// there was that call.
fn is_refused(
    trial: &Trial<'_>,
    tables: &Files<Memory>,
    which: Which,
    call: u64,
) -> Result<bool, OfficeError> {
    let (reached, files) = done_failing(trial, tables, which, call, &Over(Few))?;
    let has_failed = files.log.has_failed() || files.db.has_failed();
    if let Some(reached) = reached {
        trial.told(&(which, call), &reached.refused, &u32::from(has_failed));
    }
    Ok(has_failed)
}

/// Asks so often for a slot of a point, of the keeper or by the statement.
#[derive(Clone, Copy)]
struct Again {
    number: u32,
    slot: u32,
    times: u32,
    is_first: bool,
}

impl Again {
    fn again<K: Keeper>(
        &self,
        trial: &Trial<'_>,
        keeper: &mut K,
        point: &PointRow,
    ) -> Result<(), OfficeError> {
        for _ in 0..self.times {
            let told = asked(trial, keeper, point, self.slot)?;
            trial.told(&(self.number, self.slot), &told, &Ok(is_some(self.slot)));
        }
        Ok(())
    }
}

impl Asking for Again {
    fn asks<K: Keeper>(&self, trial: &Trial<'_>, keeper: &mut K) -> Result<u32, OfficeError> {
        if !self.is_first {
            let points = points_of(trial.alloc())?;
            self.again(trial, keeper, numbered(&points, self.number)?)?;
        }
        Ok(0)
    }

    fn asks_first<S: Alter>(
        &self,
        trial: &Trial<'_>,
        connection: &mut Connection<S>,
        _refused: u32,
    ) -> Result<(), OfficeError> {
        let times = if self.is_first { self.times } else { 0 };
        for _ in 0..times {
            let told = first_told(connection, self.number, self.slot)?;
            trial.told(&(self.number, self.slot), &told, &Ok(is_some(self.slot)));
        }
        Ok(())
    }
}

/// A keeper is opened, and not asked.
const NONE: Again = Again {
    number: 1,
    slot: 0,
    times: 0,
    is_first: false,
};

/// A point and a slot, how often a keeper is asked for it, and how many statements that takes. It takes none behind an
/// end that is remembered, for which the list has to reach the point: it gets 16 places longer a question.
const COUNTS: &[(u32, u32, u32, u32)] = &[
    (1, 3, 9, 9),
    (1, 5, 9, 9),
    (1, 7, 9, 9),
    (1, 8, 1, 1),
    (1, 8, 9, 1),
    (1, u32::MAX, 9, 1),
    (9_999, 7, 9, 9),
    (10_000, 8, 640, 626),
    (10_001, 8, 640, 640),
];

/// How many calls of the log and of the database file it takes.
fn calls(
    trial: &Trial<'_>,
    tables: &Files<Memory>,
    again: Again,
) -> Result<(u64, u64), OfficeError> {
    let (_, files) = done_failing(trial, tables, Which::Log, u64::MAX, &Over(again))?;
    Ok((files.log.calls(), files.db.calls()))
}

/// A keeper's questions take as many calls of files as so many statements.
fn statements(trial: &Trial<'_>) -> Result<(), OfficeError> {
    let tables = files_of(trial, 1_000, true)?;
    for (number, slot, times, first) in COUNTS {
        let again = Again {
            number: *number,
            slot: *slot,
            times: *times,
            is_first: false,
        };
        let told = calls(trial, &tables, again)?;
        let first = Again {
            times: *first,
            is_first: true,
            ..again
        };
        trial.told(
            &(number, slot, times),
            &told,
            &calls(trial, &tables, first)?,
        );
    }
    Ok(())
}

#[test]
fn a_question_takes_one_statement_or_none(rt: HostRuntime) -> Result<(), Fail> {
    Ok(twice!(rt, statements)?)
}

/// Each call of a file that questions make fails in turn, and there are as many as questions or more.
fn each_fails(trial: &Trial<'_>, which: Which, frames: usize) -> Result<(), OfficeError> {
    let tables = files_of(trial, frames, true)?;
    let (log, db) = calls(trial, &tables, NONE)?;
    let first = match which {
        Which::Log => log,
        Which::Db => db,
    };
    let mut failed = 0usize;
    for call in first..u64::MAX {
        if !is_refused(trial, &tables, which, call)? {
            break;
        }
        failed = failed.saturating_add(1);
    }
    trial.told(&(which, failed), &(failed >= FIRST_FEW), &true);
    Ok(())
}

fn reads(trial: &Trial<'_>) -> Result<(), OfficeError> {
    each_fails(trial, Which::Log, 1_000)?;
    each_fails(trial, Which::Db, 1)
}

#[test]
fn a_read_that_fails_is_told_by_its_question(rt: HostRuntime) -> Result<(), Fail> {
    Ok(twice!(rt, reads)?)
}

/// The void of a slot that isn't asked for.
const NEXT: VoidRow = VoidRow { point: 1, slot: 6 };

/// Voids it. Tells whether that was refused.
fn is_next_refused<K: Keeper>(alloc: Global, keeper: &mut K) -> Result<bool, OfficeError> {
    let change = Change {
        void: Some(NEXT),
        ..Change::none(alloc)
    };
    match keeper.apply(&change) {
        Ok(()) => Ok(false),
        Err(StoreFault::Memory) => Err(MEMORY),
        Err(_) => Ok(true),
    }
}

/// Asks, voids a slot, which copies the log into the database file, and asks again.
#[derive(Clone, Copy)]
struct Copying;

impl Asking for Copying {
    fn asks<K: Keeper>(&self, trial: &Trial<'_>, keeper: &mut K) -> Result<u32, OfficeError> {
        let before = refused(trial, keeper, 12)?;
        let _is_refused = is_next_refused(trial.alloc(), keeper)?;
        Ok(before.saturating_add(refused(trial, keeper, 12)?))
    }
}

fn bytes(trial: &Trial<'_>) -> Result<(), OfficeError> {
    let tables = files_of(trial, 1_000, false)?;
    let log = (Harm::Byte, Which::Log);
    are_harmed(trial, &tables, log, &Over(Copying), 40, 1)
}

#[test]
fn a_damaged_page_is_told_by_questions(rt: HostRuntime) -> Result<(), Fail> {
    Ok(twice!(rt, bytes)?)
}

/// Asks, voids a slot, which a file that fails may refuse, and asks again.
#[derive(Clone, Copy)]
struct Closing;

impl Asking for Closing {
    /// Tells how many questions were refused behind a void that was.
    fn asks<K: Keeper>(&self, trial: &Trial<'_>, keeper: &mut K) -> Result<u32, OfficeError> {
        let _before = refused(trial, keeper, 28)?;
        if is_next_refused(trial.alloc(), keeper)? {
            refused(trial, keeper, 5)
        } else {
            Ok(0)
        }
    }

    /// All questions were refused where the statement is, and none where it isn't. One call of a file fails, if any.
    fn asks_first<S: Alter>(
        &self,
        trial: &Trial<'_>,
        connection: &mut Connection<S>,
        refused: u32,
    ) -> Result<(), OfficeError> {
        let first = first_told(connection, 1, 0)?;
        let is_closed = first.is_err() && first_told(connection, 1, 0)?.is_err();
        let all = if is_closed { FIRST_FEW } else { 0 };
        trial.told(&"closed", &(refused as usize), &all);
        Ok(())
    }
}

fn closings(trial: &Trial<'_>) -> Result<(), OfficeError> {
    let tables = files_of(trial, 1_000, false)?;
    let log = (Harm::Call, Which::Log);
    are_harmed(trial, &tables, log, &Over(Closing), usize::MAX, 1)
}

#[test]
fn questions_of_a_closed_database_are_refused_as_at_first(rt: HostRuntime) -> Result<(), Fail> {
    Ok(twice!(rt, closings)?)
}
