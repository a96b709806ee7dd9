//! Drills of an office and simulated devices whose script loses, repeats and holds replies.
use mb_map::Sim;
use mb_pdu::{Span, Table};
use office_core::{Event, EventAnswer, Office, OfficeError};
use office_net::{DrillStep, drill};
use office_plays::builders::{MEMORY, office_after, shown, text};
use office_plays::steps::Happens::{self, Load, Open, Order, Void};
use office_plays::steps::{push, total};
use poll_book::MemKeeper;
use poll_match::Conn;
use read_planner::Read;
use std::alloc::Global;
use std::test::Fail;
use telling::{Trial, twice};

/// The registers of the device with the unit identifier 17.
const UNIT: &str = "[[unit]]\nid = 17\nholding = [0, 0]\nholding_start = 107\n";

/// The same registers, and one that an order sets, at 40.
const UNITS: &str =
    "[[unit]]\nid = 17\nholding_start = 40\nholding = [0, 0, 0, 0, 0, 0, 0, 0, 0, 0, 0, 0, 0, 0, 0, 0, 0, 0, 0, 0, 0, 0, 0, 0, 0, 0, 0, 0, 0, 0, 0, 0, 0, 0, 0, 0, 0, 0, 0, 0, 0, 0, 0, 0, 0, 0, 0, 0, 0, 0, 0, 0, 0, 0, 0, 0, 0, 0, 0, 0, 0, 0, 0, 0, 0, 0, 0, 0, 0]\n";

fn office(alloc: Global, all: &[Happens]) -> Result<Office<MemKeeper>, OfficeError> {
    office_after(alloc, MemKeeper::new(alloc), all)
}

/// The devices of an image, under a script.
fn devices(alloc: Global, script: &str, units: &str) -> Result<Sim, OfficeError> {
    let image = format!(in alloc; "script = [{script}]\n{units}")?;
    Sim::from_toml(alloc, image.as_bytes()).map_err(|_| MEMORY)
}

/// Registers from 107 on are asked for a slot.
fn ask(alloc: Global, slot: u32, quantity: u16) -> Result<DrillStep, OfficeError> {
    let span = Span {
        start: 107,
        quantity,
    };
    let read = Read { function: 3, span };
    Ok(DrillStep::Make(Event::Ask(Conn::new(1), text(alloc, "m1")?, slot, read)))
}

/// A register is set, and then asked for a slot, for each value one slot after the other.
fn asks(alloc: Global, values: &[u16]) -> Result<Vec<DrillStep>, OfficeError> {
    let mut steps = Vec::new(alloc);
    for (slot, value) in (1..u32::MAX).zip(values.iter()) {
        push(&mut steps, DrillStep::Set(17, Table::Holding, 107, *value))?;
        push(&mut steps, ask(alloc, slot, 1)?)?;
    }
    Ok(steps)
}

fn played(
    alloc: Global,
    office: &mut Office<MemKeeper>,
    sim: &mut Sim,
    steps: &[DrillStep],
) -> Result<Vec<EventAnswer>, OfficeError> {
    drill(alloc, office, sim, steps).map_err(|_| MEMORY)
}

/// The answers to frames, as a text.
fn arrived(alloc: Global, told: &[EventAnswer]) -> Result<String, OfficeError> {
    let mut all = String::new(alloc);
    for answer in told {
        match answer {
            EventAnswer::Arrived(arrival) => writeln!(all, "{arrival:?}")?,
            EventAnswer::Refused(error) => writeln!(all, "{error:?}")?,
            _ => {}
        }
    }
    Ok(all)
}

const ONE: &[Happens] = &[
    Load("l1", "e,m1,holding,107,uint16,,,counter,\n"),
    Open("roof"),
];

/// A lost, a repeated and a held reply: what is lost is missing until it is asked for again.
fn lost_and_held(trial: &Trial<'_>) -> Result<(), OfficeError> {
    let alloc = trial.alloc();
    let mut office = office(alloc, ONE)?;
    let mut sim = devices(alloc, "\"pass\", \"drop\", \"twice\", \"hold 1\"", UNIT)?;
    let steps = asks(alloc, &[100, 250, 400, 600, 900])?;
    let told = played(alloc, &mut office, &mut sim, &steps)?;
    let text = arrived(alloc, &told)?;
    let expected = "Recorded(1)\nRecorded(1)\nRepeat\nRecorded(1)\nRecorded(1)\n";
    trial.told(&"arrivals", &text.as_str(), &expected);
    trial.told(&"without slot 2", &total(&mut office, "e")?, &Some(800));
    let mut again = Vec::new(alloc);
    push(&mut again, ask(alloc, 2, 1)?)?;
    played(alloc, &mut office, &mut sim, &again)?;
    trial.told(&"with slot 2", &total(&mut office, "e")?, &Some(66_336));
    Ok(())
}

#[test]
fn a_lost_and_a_held_reply(rt: HostRuntime) -> Result<(), Fail> {
    Ok(twice!(rt, lost_and_held)?)
}

const SEVERAL: &[Happens] = &[
    Load(
        "l1",
        "e,m1,holding,107,uint16,,,counter,9999\ng,m1,holding,108,int16,,,gauge,\nlim,m1,holding,40,uint16,,,setting,\n",
    ),
    Order("k1", "lim", 80),
    Void("v1", "e", 3),
    Open("roof"),
];

/// Numbers that follow from a seed.
#[derive(Drop)]
struct Chance(u32);

impl Chance {
    fn below(&mut self, count: u16) -> u16 {
        self.0 = self.0.wrapping_mul(1_664_525).wrapping_add(1_013_904_223);
        ((self.0 >> 16) % u32::from(count.max(1))) as u16
    }
}

/// A script that loses nothing.
fn script(alloc: Global, chance: &mut Chance) -> Result<String, OfficeError> {
    let mut steps = String::from_str(alloc, "\"pass\"")?;
    for _ in 0..10u8 {
        match chance.below(4) {
            0 => steps.push_str(", \"pass\"")?,
            1 => steps.push_str(", \"twice\"")?,
            hold => write!(steps, ", \"hold {hold}\"")?,
        }
    }
    Ok(steps)
}

/// Values that change, and each slot asked for once; in some slot the order is sent.
fn steps(alloc: Global, chance: &mut Chance) -> Result<Vec<DrillStep>, OfficeError> {
    let mut steps = Vec::new(alloc);
    let sent = u32::from(chance.below(8));
    for slot in 0..8u32 {
        let value = chance.below(10_000);
        push(&mut steps, DrillStep::Set(17, Table::Holding, 107, value))?;
        push(
            &mut steps,
            DrillStep::Set(17, Table::Holding, 108, value ^ 0x5A5A),
        )?;
        if slot == sent {
            push(&mut steps, DrillStep::Make(Event::Send(Conn::new(1), 1)))?;
        }
        push(&mut steps, ask(alloc, slot, 2)?)?;
    }
    Ok(steps)
}

/// What an office keeps after steps under a script.
fn kept(
    alloc: Global,
    script: &str,
    units: &str,
    steps: &[DrillStep],
) -> Result<String, OfficeError> {
    let mut office = office(alloc, SEVERAL)?;
    let mut sim = devices(alloc, script, units)?;
    played(alloc, &mut office, &mut sim, steps)?;
    shown(alloc, &mut office)
}

/// Scripts that repeat and hold replies beside one that passes all on.
fn scripts(trial: &Trial<'_>) -> Result<(), OfficeError> {
    let alloc = trial.alloc();
    let mut chance = Chance(1);
    for number in 0..200u32 {
        let script = script(alloc, &mut chance)?;
        let steps = steps(alloc, &mut chance)?;
        let told = kept(alloc, script.as_str(), UNITS, &steps)?;
        let expected = kept(alloc, "", UNITS, &steps)?;
        trial.told(&number, &told.as_str(), &expected.as_str());
    }
    Ok(())
}

#[test]
fn repeated_and_held_replies_change_nothing(rt: HostRuntime) -> Result<(), Fail> {
    Ok(twice!(rt, scripts)?)
}
