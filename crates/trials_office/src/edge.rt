//! The edge of a connection's window of queries, over an office.
use office_core::{Arrival, EventAnswer, Office, OfficeError};
use office_plays::builders::{office_after, shown};
use office_plays::steps::Happens::{self, Arrive, Ask, Load, Open};
use office_plays::steps::take_happening;
use poll_book::{Keeper, MemKeeper};
use std::alloc::Global;
use std::test::Fail;
use telling::{Trial, twice};

/// A counter that was asked for in slot 1.
const ASKED: &[Happens] = &[
    Load("l1", "e,m1,holding,107,uint16,,,counter,\n"),
    Open("roof"),
    Ask(1, "m1", 1, (3, 107, 1)),
];

/// The reply to that.
const REPLY: Happens = Arrive(1, 0, 17, &[3, 2, 0xFD, 0xE8]);

/// How many queries come behind it, each of two registers, and what is answered to the reply then.
const CASES: &[(u32, Result<Arrival, OfficeError>)] = &[
    (65_535, Ok(Arrival::Recorded(1))),
    (65_536, Err(OfficeError::WrongReply)),
];

fn ask_again<K: Keeper>(
    alloc: Global,
    office: &mut Office<K>,
    slot: u32,
) -> Result<(), OfficeError> {
    take_happening(alloc, office, &Ask(1, "m1", slot, (3, 107, 2)))?;
    Ok(())
}

/// Expects what is answered to the reply, and that the tables stay where it is refused.
fn is_told<K: Keeper>(
    trial: &Trial<'_>,
    office: &mut Office<K>,
    (later, expected): (u32, Result<Arrival, OfficeError>),
) -> Result<(), OfficeError> {
    for slot in 0..later {
        ask_again(trial.alloc(), office, slot)?;
    }
    let before = shown(trial.alloc(), office)?;
    let told = take_happening(trial.alloc(), office, &REPLY)?;
    trial.told(&later, &told, &EventAnswer::from(expected));
    let stays = shown(trial.alloc(), office)? == before;
    trial.told(&later, &stays, &expected.is_err());
    Ok(())
}

fn edge(trial: &Trial<'_>) -> Result<(), OfficeError> {
    for case in CASES {
        let mut office = office_after(trial.alloc(), MemKeeper::new(trial.alloc()), ASKED)?;
        is_told(trial, &mut office, *case)?;
    }
    Ok(())
}

#[test]
fn a_reply_at_the_edge_of_the_window(rt: HostRuntime) -> Result<(), Fail> {
    Ok(twice!(rt, edge)?)
}
