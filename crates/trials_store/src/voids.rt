//! Voids behind a change that a file refused: where they end is remembered beside the tables, but the database may be
//! closed then, and a question has to tell that.
use crate::damage::{Harm, are_harmed};
use crate::disks::Which;
use crate::plays::{POINTS, Playing, Reached, Task, left, tables_of};
use office_core::OfficeError;
use office_plays::builders::{MEMORY, office_after};
use office_plays::steps::Happens::Load;
use poll_book::{Change, Keeper, MemKeeper, PointRow, StoreFault, VoidRow};
use sqlite::{Alter, Connection};
use std::alloc::Global;
use std::test::Fail;
use store_plays::opened;
use telling::{Trial, twice};

/// So often the slot behind those that are voided is voided.
const TURNS: u32 = 3;

/// The tables of an office that knows points.
const MAKING: Playing = Playing {
    is_new: true,
    happenings: &[Load("l1", POINTS)],
    fault: StoreFault::Disk,
};

/// What is told, unless it is refused. Refused memory ends the attempt.
fn told<T>(answer: Result<T, StoreFault>) -> Result<Option<T>, OfficeError> {
    match answer {
        Ok(told) => Ok(Some(told)),
        Err(StoreFault::Memory) => Err(MEMORY),
        Err(_) => Ok(None),
    }
}

/// Voids a slot of a point. Tells whether that was refused.
fn is_refused<K: Keeper>(
    alloc: Global,
    keeper: &mut K,
    point: &PointRow,
    slot: u32,
) -> Result<bool, OfficeError> {
    let change = Change {
        void: Some(VoidRow {
            point: point.number,
            slot,
        }),
        ..Change::none(alloc)
    };
    Ok(told(keeper.apply(&change))?.is_none())
}

/// The first so many slots of a point are voided, and no other, as far as it is told.
fn are_right<K: Keeper>(
    trial: &Trial<'_>,
    keeper: &mut K,
    point: &PointRow,
    end: u32,
) -> Result<(), OfficeError> {
    for slot in 0..TURNS {
        if let Some(is) = told(keeper.voided(point, slot))? {
            trial.told(&(slot, end), &is, &(slot < end));
        }
    }
    Ok(())
}

/// Behind a refused change no call of a file fails any more. So each slot is told, and told again, where it is told how
/// many are voided, which a statement tells each time. Else the database is closed, and none is. Tells whether it is.
fn is_closed<K: Keeper>(
    trial: &Trial<'_>,
    keeper: &mut K,
    point: &PointRow,
    end: u32,
) -> Result<bool, OfficeError> {
    let mut is_closed = false;
    for slot in 0..TURNS {
        let first = told(keeper.voided(point, slot))?;
        let second = told(keeper.voided(point, slot))?;
        let count = told(keeper.voids())?;
        let expected = count.map(|_| slot < end);
        trial.told(&(slot, end), &(first, second), &(expected, expected));
        trial.told(&"count", &count.unwrap_or(u64::from(end)), &u64::from(end));
        is_closed = count.is_none();
    }
    Ok(is_closed)
}

/// Asks for the slots, and voids one more. Tells how often that was refused and the database closed.
fn voided<K: Keeper>(
    trial: &Trial<'_>,
    keeper: &mut K,
    point: &PointRow,
) -> Result<u32, OfficeError> {
    let (mut end, mut closed) = (0u32, 0u32);
    for _ in 0..TURNS {
        are_right(trial, keeper, point, end)?;
        if !is_refused(trial.alloc(), keeper, point, end)? {
            end = end.saturating_add(1);
        } else if is_closed(trial, keeper, point, end)? {
            closed = closed.saturating_add(1);
        }
    }
    are_right(trial, keeper, point, end)?;
    Ok(closed)
}

/// Slots of the first known point are voided, one behind the other.
struct Voiding;

impl Voiding {
    /// Tells how often that closed the database. The point is a twin's in memory.
    fn closed<K: Keeper>(&self, trial: &Trial<'_>, keeper: &mut K) -> Result<u32, OfficeError> {
        let alloc = trial.alloc();
        let twin = office_after(alloc, MemKeeper::new(alloc), MAKING.happenings)?;
        let points = twin.into_keeper().points(alloc)?;
        let point = points.first().ok_or(OfficeError::NoRead)?;
        voided(trial, keeper, point)
    }
}

impl Task for Voiding {
    fn done_in<S: Alter + Drop>(
        &self,
        trial: &Trial<'_>,
        connection: Connection<S>,
    ) -> Result<(Option<Reached>, S), OfficeError> {
        match opened(connection) {
            Ok(mut keeper) => {
                let refused = self.closed(trial, &mut keeper)?;
                let store = keeper.into_connection().into_store();
                Ok((Some(Reached { events: 0, refused }), store))
            }
            Err((error, connection)) => Ok((None, left(error, connection)?)),
        }
    }
}

fn voids(trial: &Trial<'_>) -> Result<(), OfficeError> {
    let tables = tables_of(trial, &MAKING)?;
    let log = (Harm::Call, Which::Log);
    are_harmed(trial, &tables, log, &Voiding, usize::MAX, 20)?;
    let db = (Harm::Call, Which::Db);
    are_harmed(trial, &tables, db, &Voiding, usize::MAX, 2)
}

#[test]
fn a_void_behind_a_refused_change_is_asked_for(rt: HostRuntime) -> Result<(), Fail> {
    Ok(twice!(rt, voids)?)
}
