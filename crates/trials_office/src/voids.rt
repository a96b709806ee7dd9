//! Slots of a counter that are voided before their readings come, and behind them, over each keeper.
use office_core::{Arrival, EventAnswer, Office, OfficeError, RequestAnswer};
use office_plays::builders::office_after;
use office_plays::steps::Happens::{self, Arrive, Ask, Load, Open, Void};
use office_plays::steps::{rows, take_happening, total};
use poll_book::{Keeper, MemKeeper, Outcome};
use std::alloc::Global;
use std::test::Fail;
use store_plays::stored;
use telling::{Trial, twice};

/// A counter that begins again behind 65535, asked for in slots 1, 3 and 2.
const ASKED: &[Happens] = &[
    Load("l1", "e,m1,holding,107,uint16,,,counter,65535\n"),
    Open("roof"),
    Ask(1, "m1", 1, (3, 107, 1)),
    Ask(1, "m1", 3, (3, 107, 1)),
    Ask(1, "m1", 2, (3, 107, 1)),
];

/// The replies: 65000 in slot 1, 500 in slot 3, and late 64000 in slot 2.
const FIRST: Happens = Arrive(1, 0, 17, &[3, 2, 0xFD, 0xE8]);

const LAST: Happens = Arrive(1, 1, 17, &[3, 2, 0x01, 0xF4]);

const LATE: Happens = Arrive(1, 2, 17, &[3, 2, 0xFA, 0x00]);

/// What happens one behind the other, with the counter's total then, and in the end its readings.
struct Case {
    all: &'static [(Happens, u128)],
    readings: &'static str,
}

const CASES: &[Case] = &[
    Case {
        all: &[
            (FIRST, 0),
            (LAST, 1036),
            (LATE, 66572),
            (Void("v1", "e", 2), 1036),
            (Void("v2", "e", 2), 1036),
        ],
        readings: "1 65000\n2 64000 void\n3 500\n",
    },
    Case {
        all: &[
            (Void("v1", "e", 2), 0),
            (FIRST, 0),
            (LAST, 1036),
            (LATE, 1036),
        ],
        readings: "1 65000\n2 64000 void\n3 500\n",
    },
    Case {
        all: &[
            (FIRST, 0),
            (LAST, 1036),
            (LATE, 66572),
            (Void("v1", "e", 1), 2036),
            (Void("v2", "e", 3), 0),
        ],
        readings: "1 65000 void\n2 64000\n3 500 void\n",
    },
];

/// What is answered to a reply that gives a reading, or to a void under a new key.
fn expected(happens: &Happens) -> EventAnswer {
    if let Void(_, _, slot) = happens {
        return EventAnswer::Request(RequestAnswer::Kept {
            first: true,
            outcome: Outcome::Voided(*slot),
        });
    }
    EventAnswer::Arrived(Arrival::Recorded(1))
}

/// The readings of the counter, with those marked whose slots are voided.
fn readings<K: Keeper>(alloc: Global, office: &mut Office<K>) -> Result<String, OfficeError> {
    let rows = rows(office, "e", 0, u32::MAX)?.ok_or(OfficeError::NoRead)?;
    let mut text = String::new(alloc);
    for row in &rows {
        let (slot, mark) = (row.reading.slot, if row.voided { " void" } else { "" });
        for word in row.reading.words.as_slice() {
            writeln!(text, "{slot} {word}{mark}")?;
        }
    }
    Ok(text)
}

/// Expects each answer of an office, each total, and the readings in the end.
fn is_told<K: Keeper>(
    trial: &Trial<'_>,
    office: &mut Office<K>,
    case: &Case,
) -> Result<(), OfficeError> {
    for (happens, sum) in case.all {
        let told = take_happening(trial.alloc(), office, happens)?;
        trial.told(sum, &told, &expected(happens));
        trial.told(&"total", &total(office, "e")?, &Some(*sum));
    }
    let readings = readings(trial.alloc(), office)?;
    trial.told(&"readings", &readings.as_str(), &case.readings);
    Ok(())
}

fn is_told_over<K: Keeper + Drop>(
    trial: &Trial<'_>,
    keeper: K,
    case: &Case,
) -> Result<(), OfficeError> {
    let mut office = office_after(trial.alloc(), keeper, ASKED)?;
    is_told(trial, &mut office, case)
}

fn voids(trial: &Trial<'_>) -> Result<(), OfficeError> {
    let alloc = trial.alloc();
    for case in CASES {
        is_told_over(trial, MemKeeper::new(alloc), case)?;
        is_told_over(trial, stored(alloc)?, case)?;
    }
    Ok(())
}

#[test]
fn voided_slots_count_no_more(rt: HostRuntime) -> Result<(), Fail> {
    Ok(twice!(rt, voids)?)
}
