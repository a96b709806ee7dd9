//! A drill: an office asks simulated devices, in one process and without a line.
ghost use Rattle.std.specs.Prelude.{◌≡◌, ◌⊎◌, List, [], ◌∷◌, ◌++◌, IfOk, MatchResult, OnErr, OnOk, Vec, option_map, reverse};
ghost use Rattle.mb_map.specs.Schedule.{Continues};
ghost use Rattle.mb_map.specs.Schedule.Call.{Rest};
ghost use Rattle.std.specs.Global.{Global};
ghost use Rattle.mb_mbap.specs.declared.frame.Frame.{Frame};
ghost use Rattle.office_core.specs.declared.event.Event.{Event};
ghost use Rattle.office_core.specs.declared.event.EventAnswer.{EventAnswer};
ghost use Rattle.office_core.specs.Offices.{Counts, keeper_of};
ghost use Rattle.office_net.specs.Drills.{Begins, BreaksOff, BringsHeld, DoAll, Does, Drills, IsGiven, Leads, Makes, arrivals, conn_of, last_over, query_in};

use mb_map::{MapError, Sim};
use mb_mbap::Frame;
use mb_pdu::Table;
use office_core::{Event, EventAnswer, Office};
use poll_book::Keeper;
use poll_match::Conn;
use std::alloc::{AllocError, Global};
use thiserror::Error;

/// A step of a drill.
#[derive(Debug, Drop)]
pub enum DrillStep {
    /// A number at an address of a table of the device of a unit identifier. Where `Sim::set` refuses it nothing is
    /// changed.
    Set(u8, Table, u16, u16),
    /// An ask or a send. Any other event is skipped.
    Make(Event),
}

/// Why a drill broke off.
#[derive(Clone, Copy, Debug, PartialEq, Eq, Error)]
pub enum DrillFault {
    /// Memory was refused. What earlier steps did stands, and a query under way counts as lost.
    #[error("memory was refused")]
    Memory,
}

impl From<AllocError> for DrillFault {
    fn from(_: AllocError) -> DrillFault {
        DrillFault::Memory
    }
}

impl From<MapError> for DrillFault {
    /// Of a simulator that was made, which refuses for memory alone.
    fn from(_: MapError) -> DrillFault {
        DrillFault::Memory
    }
}

/// The connection over which an event makes a query, if it is such a one.
fn conn_of(event: &Event) -> Option<Conn>
    ensures { result ≡ conn_of event.now }
{
    match event {
        Event::Ask(conn, ..) | Event::Send(conn, _) => Some(*conn),
        _ => None,
    }
}

/// Has frames come over a connection, each answered with room that is made first.
fn arrive_all<K: Keeper>(
    office: &mut Office<K>,
    conn: Conn,
    frames: Vec<Frame>,
    told: &mut Vec<EventAnswer>,
) -> Result<(), AllocError>
    ensures ok { K.is_clean (keeper_of office.new) → OnOk result ((more : List EventAnswer) × (told.new.items ≡ told.old.items ++ more)
        × Leads office.old office.new (arrivals conn frames.items) more) }
    ensures err { OnErr result ((office.new ≡ office.old) × (told.new.items ≡ told.old.items)) }
    ensures counts { Counts office.old office.new }
{
    told.reserve(frames.len())?;
    for frame in frames {
        let answer = office.step(&Event::Arrive(conn, frame));
        let _ = told.push(answer);
    }
    Ok(())
}

/// What devices give for a query, if one was made.
fn given_for(sim: &mut Sim, answer: &EventAnswer) -> Result<Option<Vec<Frame>>, MapError>
    ensures ok { IfOk result (λ given. IsGiven sim.old (query_in answer.now) (option_map (λ (g : Vec Frame Global). g.items) given) sim.new) }
{
    match answer {
        EventAnswer::Query(query) => Ok(Some(sim.take(query)?)),
        _ => Ok(None),
    }
}

/// Makes a query over a connection and has come what the devices give for it. It tells whether there was a query.
fn make<K: Keeper>(
    office: &mut Office<K>,
    sim: &mut Sim,
    conn: Conn,
    event: &Event,
    told: &mut Vec<EventAnswer>,
) -> Result<bool, DrillFault>
    ensures ok { K.is_clean (keeper_of office.new) → IfOk result (λ asked. (events : List Event) × (more : List EventAnswer) × (told.new.items ≡ told.old.items ++ more)
        × Makes sim.old conn event.now asked events more sim.new × Leads office.old office.new events more) }
    ensures err { K.is_clean (keeper_of office.new) → OnErr result ((events : List Event) × (more : List EventAnswer)
        × ((events ≡ []) ⊎ (events ≡ event.now ∷ [])) × Leads office.old office.new events more) }
    ensures counts { Counts office.old office.new }
{
    told.reserve(1)?;
    let answer = office.step(event);
    let given = given_for(sim, &answer);
    let _ = told.push(answer);
    match given? {
        Some(given) => {
            arrive_all(office, conn, given, told)?;
            Ok(true)
        }
        None => Ok(false),
    }
}

/// Does a step. It tells over which connection a query was made, if one was.
fn go<K: Keeper>(
    office: &mut Office<K>,
    sim: &mut Sim,
    step: &DrillStep,
    told: &mut Vec<EventAnswer>,
) -> Result<Option<Conn>, DrillFault>
    ensures ok { K.is_clean (keeper_of office.new) → IfOk result (λ over. (events : List Event) × (more : List EventAnswer) × (told.new.items ≡ told.old.items ++ more)
        × Does sim.old step.now over events more sim.new × Leads office.old office.new events more) }
    ensures err { K.is_clean (keeper_of office.new) → OnErr result ((events : List Event) × (more : List EventAnswer)
        × Begins step.now events × Leads office.old office.new events more) }
    ensures counts { Counts office.old office.new }
{
    match step {
        DrillStep::Set(unit_id, table, address, number) => {
            sim.set(*unit_id, *table, *address, *number);
            Ok(None)
        }
        DrillStep::Make(event) => match conn_of(event) {
            Some(conn) => {
                let asked = make(office, sim, conn, event, told)?;
                Ok(if asked { Some(conn) } else { None })
            }
            None => Ok(None),
        },
    }
}

/// The connection of the last query.
fn last_over(last: Option<Conn>, over: Option<Conn>) -> Option<Conn>
    ensures { result ≡ last_over last over }
{
    match over {
        Some(conn) => Some(conn),
        None => last,
    }
}

/// Does steps in their order. It tells the connection of the last query.
fn go_through<K: Keeper>(
    office: &mut Office<K>,
    sim: &mut Sim,
    steps: &[DrillStep],
    told: &mut Vec<EventAnswer>,
) -> Result<Option<Conn>, DrillFault>
    requires { told.old.items ≡ [] }
    ensures ok { K.is_clean (keeper_of office.new) → IfOk result (λ last. (events : List Event)
        × DoAll sim.old (reverse steps.now) events told.new.items sim.new last × Leads office.old office.new events told.new.items) }
    ensures err { K.is_clean (keeper_of office.new) → OnErr result ((events : List Event) × (told : List EventAnswer)
        × BreaksOff sim.old steps.now events told × Leads office.old office.new events told) }
    ensures counts { Counts office.old office.new }
{
    let mut last = None;
    for step in steps {
        let over = go(office, sim, step, told)?;
        last = last_over(last, over);
    }
    Ok(last)
}

/// Has come over the connection of the last query, if there was one, what devices still hold.
fn finish<K: Keeper>(
    office: &mut Office<K>,
    sim: &mut Sim,
    last: Option<Conn>,
    told: &mut Vec<EventAnswer>,
) -> Result<(), DrillFault>
    ensures ok { K.is_clean (keeper_of office.new) → OnOk result ((held : List Frame) × (more : List EventAnswer) × (told.new.items ≡ told.old.items ++ more)
        × Continues sim.old Rest held sim.new × Leads office.old office.new (BringsHeld last held) more) }
    ensures err { OnErr result (office.new ≡ office.old) }
    ensures counts { Counts office.old office.new }
{
    let held = sim.rest()?;
    match last {
        Some(conn) => {
            arrive_all(office, conn, held, told)?;
            Ok(())
        }
        None => Ok(()),
    }
}

/// Plays steps in their order: numbers that are set in simulated devices, and asks and sends of an office. A query
/// that was made goes to the devices, and each frame that they give comes at once over the query's connection; at the
/// end the frames that they still hold come over the connection of the last query. It gives the answers of all events,
/// of those steps and of the frames, in their order.
pub fn drill<K: Keeper>(
    alloc: Global,
    office: &mut Office<K>,
    sim: &mut Sim,
    steps: &[DrillStep],
) -> Result<Vec<EventAnswer>, DrillFault>
    ensures runs { K.is_clean (keeper_of office.new) → MatchResult result
        (λ told. (events : List Event) × Drills sim.old steps.now events told.items sim.new
        × Leads office.old office.new events told.items)
        (λ _. (events : List Event) × (told : List EventAnswer) × BreaksOff sim.old steps.now events told
        × Leads office.old office.new events told) }
    ensures counts { Counts office.old office.new }
{
    let mut told = Vec::new(alloc);
    let last = go_through(office, sim, steps, &mut told)?;
    finish(office, sim, last, &mut told)?;
    Ok(told)
}
