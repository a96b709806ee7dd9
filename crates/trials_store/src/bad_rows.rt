//! Rows that no office writes, in a sound database: whoever comes upon one is told so, and nothing changes.
use crate::opening::run;
use office_core::{EventAnswer, Office, OfficeError};
use office_plays::builders::{MEMORY, TWO, begun, office_after, office_over, shown};
use office_plays::steps::Happens::{self, Arrive, Ask, Load, Open, Void};
use office_plays::steps::{rows, take_happening, total};
use office_store::SqlKeeper;
use poll_book::{Keeper, StoreFault};
use sqlite::Alter;
use std::alloc::Global;
use std::test::Fail;
use store_plays::{opened, stored};
use telling::{Trial, twice};

/// A counter, a gauge and a string, and what they had in slot 1.
const HAPPENED: &[Happens] = &[
    Load(
        "l1",
        "e,m1,holding,107,uint16,,,counter,\nb,m1,holding,108,uint16,,,gauge,\nc,m1,holding,109,string,2,,gauge,\n",
    ),
    Open("roof"),
    Ask(1, "m1", 1, (3, 107, 4)),
    Arrive(1, 0, 17, &[3, 8, 0, 7, 0, 8, 65, 66, 67, 68]),
];

/// A reply for the counter in slot 2.
const NEXT: &[Happens] = &[
    Open("roof"),
    Ask(2, "m1", 2, (3, 107, 1)),
    Arrive(2, 0, 17, &[3, 2, 0, 9]),
];

/// A void of the counter's slot.
const VOIDED: &[Happens] = &[Void("v1", "e", 1)];

/// Who comes upon a row.
#[derive(Clone, Copy, Debug)]
enum Comes {
    /// An office that is opened, as each command opens one.
    Opening,
    /// A report of this point, as a page and a caller get its readings.
    Readings(&'static str),
    /// A report of the counter, and a caller who asks for its total.
    Total,
    /// A reply, as a round gets it.
    Reply,
    /// A void of the slot that has the counter's reading.
    Voiding,
}

use Comes::{Opening, Readings, Reply, Total, Voiding};

/// What makes a row wrong, what makes it right again, and who comes upon it. The last rows tell of the second point,
/// which has one register, of the string, and of a point that isn't there, that they are swapped.
const CASES: &[(&str, &str, &[Comes])] = &[
    (
        "UPDATE point SET len = 0 WHERE number = 3",
        "UPDATE point SET len = 2 WHERE number = 3",
        &[Opening],
    ),
    (
        "UPDATE point SET len = 126 WHERE number = 3",
        "UPDATE point SET len = 2 WHERE number = 3",
        &[Opening],
    ),
    (
        "UPDATE point SET addr = 65535 WHERE number = 3",
        "UPDATE point SET addr = 109 WHERE number = 3",
        &[Opening],
    ),
    (
        "UPDATE point SET scale = 11 WHERE number = 1",
        "UPDATE point SET scale = 0 WHERE number = 1",
        &[Opening],
    ),
    (
        "UPDATE point SET scale = -11 WHERE number = 1",
        "UPDATE point SET scale = 0 WHERE number = 1",
        &[Opening],
    ),
    (
        "UPDATE point SET roll = x'0000000000000001' WHERE number = 2",
        "UPDATE point SET roll = x'0000000000000000' WHERE number = 2",
        &[Opening],
    ),
    (
        "UPDATE point SET roll = x'0000000000000000' WHERE number = 1",
        "UPDATE point SET roll = x'000000000000FFFE' WHERE number = 1",
        &[Opening],
    ),
    (
        "UPDATE point SET roll = x'0000000000010000' WHERE number = 1",
        "UPDATE point SET roll = x'000000000000FFFE' WHERE number = 1",
        &[Opening],
    ),
    (
        "UPDATE point SET role = 2, roll = x'0000000000000001' WHERE number = 3",
        "UPDATE point SET role = 1, roll = x'0000000000000000' WHERE number = 3",
        &[Opening],
    ),
    (
        "UPDATE point SET role = 3 WHERE number = 3",
        "UPDATE point SET role = 1 WHERE number = 3",
        &[Opening],
    ),
    (
        "UPDATE point SET role = 3, tab = 4 WHERE number = 2",
        "UPDATE point SET role = 1, tab = 3 WHERE number = 2",
        &[Opening],
    ),
    (
        "UPDATE point SET kind = 17 WHERE number = 2",
        "UPDATE point SET kind = 2 WHERE number = 2",
        &[Opening],
    ),
    (
        "UPDATE point SET tab = 1 WHERE number = 2",
        "UPDATE point SET tab = 3 WHERE number = 2",
        &[Opening],
    ),
    (
        "UPDATE point SET scale = 1 WHERE number = 3",
        "UPDATE point SET scale = 0 WHERE number = 3",
        &[Opening],
    ),
    (
        "UPDATE reading SET counted = 1 WHERE point = 2",
        "UPDATE reading SET counted = 0 WHERE point = 2",
        &[Readings("b")],
    ),
    (
        "UPDATE reading SET counted = 0 WHERE point = 1",
        "UPDATE reading SET counted = 1 WHERE point = 1",
        &[Readings("e")],
    ),
    (
        "INSERT INTO void(point, slot) VALUES (1, 1)",
        "DELETE FROM void",
        &[Readings("e")],
    ),
    (
        "UPDATE reading SET words = x'FFFF' WHERE point = 1",
        "UPDATE reading SET words = x'0007' WHERE point = 1",
        &[Readings("e"), Reply, Voiding],
    ),
    (
        "UPDATE reading SET words = x'00070000' WHERE point = 1",
        "UPDATE reading SET words = x'0007' WHERE point = 1",
        &[Readings("e"), Reply, Voiding],
    ),
    (
        "UPDATE reading SET words = x'4142' WHERE point = 3",
        "UPDATE reading SET words = x'41424344' WHERE point = 3",
        &[Readings("c")],
    ),
    (
        "UPDATE total SET value = x'80000000000000000000000000000000' WHERE point = 1",
        "UPDATE total SET value = x'00000000000000000000000000000000' WHERE point = 1",
        &[Total, Reply],
    ),
    (
        "INSERT INTO swapped(point) VALUES (2)",
        "DELETE FROM swapped",
        &[Opening],
    ),
    (
        "INSERT INTO swapped(point) VALUES (3)",
        "DELETE FROM swapped",
        &[Opening],
    ),
    (
        "DROP TABLE swapped; CREATE TABLE swapped(point INTEGER PRIMARY KEY) STRICT; INSERT INTO swapped(point) VALUES (9)",
        "DELETE FROM swapped",
        &[Opening],
    ),
];

/// What is answered at last where this happens.
fn last_of<K: Keeper>(
    alloc: Global,
    office: &mut Office<K>,
    all: &[Happens],
) -> Result<Option<OfficeError>, OfficeError> {
    let mut last = None;
    for happens in all {
        last = match take_happening(alloc, office, happens)? {
            EventAnswer::Refused(error) => Some(error),
            _ => None,
        };
    }
    Ok(last)
}

/// Why an office refuses it.
fn refusal_of<K: Keeper>(
    alloc: Global,
    office: &mut Office<K>,
    comes: Comes,
) -> Result<Option<OfficeError>, OfficeError> {
    match comes {
        Opening => Ok(None),
        Readings(point) => Ok(rows(office, point, 0, u32::MAX).err()),
        Total => Ok(total(office, "e").err()),
        Reply => last_of(alloc, office, NEXT),
        Voiding => last_of(alloc, office, VOIDED),
    }
}

/// Comes upon a row over a keeper, and gives the keeper back with why it was refused.
fn come<K: Keeper + Drop>(
    alloc: Global,
    keeper: K,
    comes: Comes,
) -> Result<(K, Option<OfficeError>), OfficeError> {
    match begun(alloc, keeper, TWO)? {
        Ok(mut office) => {
            let refusal = refusal_of(alloc, &mut office, comes)?;
            Ok((office.into_keeper(), refusal))
        }
        Err((error, keeper)) => Ok((keeper, Some(error))),
    }
}

/// The keeper of the same tables once a statement was run on them.
fn changed<S: Alter + Drop>(
    keeper: SqlKeeper<S>,
    statement: &str,
) -> Result<SqlKeeper<S>, OfficeError> {
    let mut connection = keeper.into_connection();
    run(&mut connection, statement)?;
    opened(connection).map_err(|(error, _)| error)
}

/// The readings and totals of a keeper, as text.
fn tables<K: Keeper + Drop>(alloc: Global, keeper: K) -> Result<(K, String), OfficeError> {
    let mut office = office_over(alloc, keeper)?;
    let text = shown(alloc, &mut office)?;
    Ok((office.into_keeper(), text))
}

/// The same once an office over it took what happened.
fn used<K: Keeper + Drop>(alloc: Global, keeper: K) -> Result<(K, String), OfficeError> {
    let office = office_after(alloc, keeper, HAPPENED)?;
    tables(alloc, office.into_keeper())
}

/// Expects that a wrong row is refused as `Other`, and gives the keeper back.
fn is_refused<K: Keeper + Drop>(
    trial: &Trial<'_>,
    keeper: K,
    wrong: &str,
    comes: Comes,
) -> Result<K, OfficeError> {
    let (keeper, refusal) = come(trial.alloc(), keeper, comes)?;
    if refusal == Some(MEMORY) {
        return Err(MEMORY);
    }
    let other = Some(OfficeError::Store(StoreFault::Other));
    trial.told(&(wrong, comes), &refusal, &other);
    Ok(keeper)
}

/// Expects that it is refused over a wrong row, and that the tables are as before once that is right again.
fn is_told<S: Alter + Drop>(
    trial: &Trial<'_>,
    keeper: SqlKeeper<S>,
    (wrong, right): (&str, &str),
    comes: Comes,
) -> Result<(), OfficeError> {
    let (keeper, before) = used(trial.alloc(), keeper)?;
    let keeper = is_refused(trial, changed(keeper, wrong)?, wrong, comes)?;
    let (_, after) = tables(trial.alloc(), changed(keeper, right)?)?;
    trial.told(&(wrong, comes), &after, &before);
    Ok(())
}

fn bad_rows(trial: &Trial<'_>) -> Result<(), OfficeError> {
    for (wrong, right, all) in CASES {
        for comes in *all {
            is_told(trial, stored(trial.alloc())?, (*wrong, *right), *comes)?;
        }
    }
    Ok(())
}

#[test]
fn rows_that_no_office_writes_are_told(rt: HostRuntime) -> Result<(), Fail> {
    Ok(twice!(rt, bad_rows)?)
}
