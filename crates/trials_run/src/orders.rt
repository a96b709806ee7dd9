//! Orders: one in the middle of a slot, several that wait, and requests that are no new ones.
use crate::ahead::SOON;
use crate::guest::Speech;
use crate::scenes::{
    AllTold, Behind, IMAGE, Left, Look, keep_up_in, look_behind_new, world, world_of,
};
use crate::wire::{Spell, Trouble, Wire};
use crate::world::World;
use office_core::OfficeError;
use office_plays::refusing::Refusing;
use office_plays::steps::Happens::{self, Load, Order};
use office_plays::steps::push;
use poll_book::{Keeper, MemKeeper, StoreFault};
use std::alloc::Global;
use std::test::Fail;
use telling::{Trial, twice};

pub(crate) const ORDER: &str =
    "PUT /callers/ann/orders/k1 HTTP/1.1\r\nContent-Length: 26\r\n\r\n{\"point\":\"lim\",\"value\":80}";

pub(crate) const ASKED: &str = "GET /callers/ann/orders/k1 HTTP/1.1\r\n\r\n";

pub(crate) const WAITING: &str =
    "HTTP/1.1 201 Created\r\nContent-Type: application/json\r\nContent-Length: 29\r\nConnection: close\r\n\r\n{\"order\":1,\"state\":\"waiting\"}";

const DONE: &str =
    "HTTP/1.1 200 OK\r\nContent-Type: application/json\r\nContent-Length: 26\r\nConnection: close\r\n\r\n{\"order\":1,\"state\":\"done\"}";

/// Asks a device for the register that is ordered, and the reply with 80.
const QUERY: &[u8] = &[0, 9, 0, 0, 0, 6, 17, 3, 0, 40, 0, 1];

const EIGHTY: &[u8] = &[0, 9, 0, 0, 0, 5, 17, 3, 2, 0, 80];

/// Slot 101 ends at 8 seconds, and the worlds before that.
const ENDS: u64 = 7_500;

/// Expects that the register has the value that was ordered.
fn assert_set(trial: &Trial<'_>, wire: &mut Wire) -> Result<(), OfficeError> {
    let mut reply = [0u8; 11];
    wire.take(QUERY, ENDS)?;
    wire.read(&mut reply, ENDS);
    trial.told(&"register", &reply.as_slice(), &EIGHTY);
    Ok(())
}

/// Expects what the callers heard.
fn assert_heard(trial: &Trial<'_>, world: &World) {
    for (guest, expected) in world.guests.all.iter().zip([WAITING, DONE]) {
        trial.told(&"heard", &guest.heard.as_slice(), &expected.as_bytes());
    }
}

/// Expects that the roof has the value that was ordered.
fn assert_roof(trial: &Trial<'_>, world: &mut World) -> Result<(), OfficeError> {
    match world.wires.first_mut() {
        Some(wire) => assert_set(trial, wire),
        None => Err(OfficeError::WrongLine),
    }
}

/// The callers heard that an order waits, and that it is done.
pub(crate) struct OrderDone;

impl Look<MemKeeper> for OrderDone {
    fn look(&self, trial: &Trial<'_>, left: &mut Left<MemKeeper>) -> Result<(), OfficeError> {
        assert_heard(trial, &left.world);
        Ok(())
    }
}

/// The same, and the roof has the value.
struct Set;

impl Look<MemKeeper> for Set {
    fn look(&self, trial: &Trial<'_>, left: &mut Left<MemKeeper>) -> Result<(), OfficeError> {
        assert_heard(trial, &left.world);
        assert_roof(trial, &mut left.world)
    }
}

fn ordered(trial: &Trial<'_>) -> Result<(), OfficeError> {
    let speeches = [Speech::at_once(5_000, ORDER), Speech::at_once(5_001, ASKED)];
    let world = world(trial.alloc(), ENDS, &[], &speeches)?;
    look_behind_new(trial, &[], world, &Set)
}

#[test]
fn an_order_is_sent_at_once(rt: HostRuntime) -> Result<(), Fail> {
    Ok(twice!(rt, ordered)?)
}

/// A register of the device in the cellar that an order sets.
const CELLAR_LIMIT: &[Happens] = &[Load("l2", "top,m2,holding,40,uint16,,,setting,\n")];

const ORDER_BELOW: &str =
    "PUT /callers/ann/orders/k1 HTTP/1.1\r\nContent-Length: 26\r\n\r\n{\"point\":\"top\",\"value\":80}";

/// The same in the cellar, whose line is the second one of the site.
fn ordered_below(trial: &Trial<'_>) -> Result<(), OfficeError> {
    let speeches = [
        Speech::at_once(5_000, ORDER_BELOW),
        Speech::at_once(5_001, ASKED),
    ];
    let world = world(trial.alloc(), ENDS, &[], &speeches)?;
    look_behind_new(trial, CELLAR_LIMIT, world, &OrderDone)
}

#[test]
fn an_order_is_sent_over_the_line_of_its_device(rt: HostRuntime) -> Result<(), Fail> {
    Ok(twice!(rt, ordered_below)?)
}

/// Devices without a register that can be set.
const UNSETTABLE: Behind = Behind {
    image: "[[unit]]\nid = 17\nholding_start = 41\nholding = [0]\n",
    spells: &[],
};

/// The query of the roof, which is for the register that is set too, and what was ordered are refused.
const REFUSED: AllTold = AllTold(
    "1970-01-01T00:08:22Z office: line roof is up\n1970-01-01T00:08:22Z office: line cellar is up\n1970-01-01T00:08:22Z office: line roof polled slot 100: asked 1 recorded 0 excepted 1 refused 0 in 0 ms\n1970-01-01T00:08:22Z office: line cellar polled slot 100: asked 1 recorded 1 excepted 0 refused 0 in 0 ms\n1970-01-01T00:08:25Z office: line roof polled slot 101: asked 1 recorded 0 excepted 1 refused 0 in 0 ms\n1970-01-01T00:08:25Z office: line cellar polled slot 101: asked 1 recorded 1 excepted 0 refused 0 in 0 ms\n1970-01-01T00:08:27Z office: device m1 of line roof refused what was ordered, by exception 2\n",
);

/// The device answers by exception 2 (illegal data address).
fn refused(trial: &Trial<'_>) -> Result<(), OfficeError> {
    let speeches = [Speech::at_once(5_000, ORDER)];
    let world = world_of(trial.alloc(), ENDS, &[UNSETTABLE; 2], &speeches)?;
    look_behind_new(trial, &[], world, &REFUSED)
}

#[test]
fn a_refused_order_is_told(rt: HostRuntime) -> Result<(), Fail> {
    Ok(twice!(rt, refused)?)
}

/// Orders that wait, of which the last one is for 80.
const WAIT: &[Happens] = &[
    Order("k1", "lim", 10),
    Order("k2", "lim", 20),
    Order("k3", "lim", 30),
    Order("k4", "lim", 80),
];

/// The roof can't be reached for four seconds, so that it is connected to after seven.
const ROOF_AWAY: [Behind; 2] = [
    Behind {
        image: IMAGE,
        spells: &[Spell {
            trouble: Trouble::Away,
            unit: None,
            from: 0,
            to: 4_000,
        }],
    },
    Behind {
        image: IMAGE,
        spells: &[],
    },
];

/// Expects that the roof was asked five times at one moment.
fn assert_asked(trial: &Trial<'_>, world: &World) {
    let asked = world.wires.first().map(|wire| wire.asked.as_slice());
    let expected: [(u64, u8); 5] = [(7_000, 17); 5];
    trial.told(&"asked", &asked, &Some(expected.as_slice()));
}

/// All were sent, the last one last.
struct AllSent;

impl Look<MemKeeper> for AllSent {
    fn look(&self, trial: &Trial<'_>, left: &mut Left<MemKeeper>) -> Result<(), OfficeError> {
        assert_asked(trial, &left.world);
        assert_roof(trial, &mut left.world)
    }
}

/// Four orders and a read are sent over one connection, at one moment.
fn waited(trial: &Trial<'_>) -> Result<(), OfficeError> {
    let world = world_of(trial.alloc(), ENDS, &ROOF_AWAY, &[])?;
    look_behind_new(trial, WAIT, world, &AllSent)
}

#[test]
fn orders_that_wait_are_sent_in_one_round(rt: HostRuntime) -> Result<(), Fail> {
    Ok(twice!(rt, waited)?)
}

/// So many times the same request comes.
const REPEATS: u16 = 40;

/// The same request, which comes so many times.
fn repeats(alloc: Global, times: u16) -> Result<Vec<Speech>, OfficeError> {
    let mut speeches = Vec::new(alloc);
    for number in 0..times {
        let comes = u64::from(number) * 20 + 5_000;
        push(&mut speeches, Speech::at_once(comes, ORDER))?;
    }
    Ok(speeches)
}

/// What a store is asked, and the roof, where a request comes so many times.
fn asked_by(trial: &Trial<'_>, times: u16) -> Result<(u32, usize), OfficeError> {
    let alloc = trial.alloc();
    let keeper = Refusing::new(alloc, u32::MAX, StoreFault::Other);
    let world = world(alloc, ENDS, &[], &repeats(alloc, times)?)?;
    let left = keep_up_in(alloc, keeper, &[], world)?;
    let asked = left.world.wires.first().map_or(0, |wire| wire.asked.len());
    Ok((left.office.into_keeper().calls, asked))
}

/// Each costs three look-ups, and no query.
fn repeated(trial: &Trial<'_>) -> Result<(), OfficeError> {
    let (once, asked) = asked_by(trial, 1)?;
    let more = asked_by(trial, REPEATS)?;
    let calls = u32::from(REPEATS) * 3 - 3;
    trial.told(&"more", &more, &(once.saturating_add(calls), asked));
    Ok(())
}

#[test]
fn a_request_that_is_repeated_wakes_no_line(rt: HostRuntime) -> Result<(), Fail> {
    Ok(twice!(rt, repeated)?)
}

/// The roof answers a second later.
pub(crate) const ROOF_LATE: [Behind; 2] = [
    Behind {
        image: IMAGE,
        spells: &[Spell {
            trouble: Trouble::Late(1_000),
            unit: None,
            from: 0,
            to: u64::MAX,
        }],
    },
    Behind {
        image: IMAGE,
        spells: &[],
    },
];

/// The roof was asked for its reading as each slot began, and for the order in the midst of the second round.
struct SentBetween;

impl Look<MemKeeper> for SentBetween {
    fn look(&self, trial: &Trial<'_>, left: &mut Left<MemKeeper>) -> Result<(), OfficeError> {
        assert_heard(trial, &left.world);
        let asked = left.world.wires.first().map(|wire| wire.asked.as_slice());
        let expected: [(u64, u8); 3] = [(0, 17), (3_000, 17), (3_500, 17)];
        trial.told(&"asked", &asked, &Some(expected.as_slice()));
        Ok(())
    }
}

/// An order comes while a round waits for an answer.
fn between(trial: &Trial<'_>) -> Result<(), OfficeError> {
    let speeches = [Speech::at_once(3_500, ORDER), Speech::at_once(4_501, ASKED)];
    let world = world_of(trial.alloc(), ENDS, &ROOF_LATE, &speeches)?;
    look_behind_new(trial, &[], world, &SentBetween)
}

#[test]
fn an_order_is_sent_while_a_round_is_under_way(rt: HostRuntime) -> Result<(), Fail> {
    Ok(twice!(rt, between)?)
}

/// What the roof was asked, and when.
pub(crate) struct AskedAt(pub &'static [(u64, u8)]);

impl<K: Keeper> Look<K> for AskedAt {
    fn look(&self, trial: &Trial<'_>, left: &mut Left<K>) -> Result<(), OfficeError> {
        let asked = left.world.wires.first().map(|wire| wire.asked.as_slice());
        trial.told(&"asked", &asked, &Some(self.0));
        Ok(())
    }
}

/// Of slot 102 the roof is asked for its reading once it has answered to the order, which was sent in slot 101.
const SENT_ONCE: AskedAt = AskedAt(&[(0, 17), (3_000, 17), (7_500, 17), (8_500, 17)]);

/// A slot ends while an order is waited for.
fn waits_on(trial: &Trial<'_>) -> Result<(), OfficeError> {
    let speeches = [Speech::at_once(7_500, ORDER)];
    let world = world_of(trial.alloc(), 9_800, &ROOF_LATE, &speeches)?;
    look_behind_new(trial, &[], world, &SENT_ONCE)
}

#[test]
fn an_order_that_waits_is_not_sent_again_in_the_next_slot(rt: HostRuntime) -> Result<(), Fail> {
    Ok(twice!(rt, waits_on)?)
}

/// The roof takes three seconds from the seventh on.
const ROOF_GETS_LATE: [Behind; 2] = [
    Behind {
        image: IMAGE,
        spells: &[Spell {
            trouble: Trouble::Late(3_000),
            unit: None,
            from: 7_000,
            to: u64::MAX,
        }],
    },
    Behind {
        image: IMAGE,
        spells: &[],
    },
];

/// Of slot 102 the roof is asked once it answers, though nothing was asked in that slot before.
const TAKEN_UP_AGAIN: AskedAt = AskedAt(&[(0, 17), (3_000, 17), (7_500, 17), (10_500, 17)]);

/// An order that waits as a slot begins is given up, and answered later.
fn given_up(trial: &Trial<'_>) -> Result<(), OfficeError> {
    let speeches = [Speech::at_once(7_500, ORDER)];
    let world = world_of(trial.alloc(), 12_000, &ROOF_GETS_LATE, &speeches)?;
    look_behind_new(trial, &[], world, &TAKEN_UP_AGAIN)
}

#[test]
fn a_slot_waits_for_a_device_whose_order_was_given_up(rt: HostRuntime) -> Result<(), Fail> {
    Ok(twice!(rt, given_up)?)
}

/// The roof is away for half a second, and takes a second and a half from then on.
const ROOF_AWAY_AND_LATE: [Behind; 2] = [
    Behind {
        image: IMAGE,
        spells: &[
            Spell {
                trouble: Trouble::Away,
                unit: None,
                from: 5_000,
                to: 5_500,
            },
            Spell {
                trouble: Trouble::Late(1_500),
                unit: None,
                from: 6_500,
                to: u64::MAX,
            },
        ],
    },
    Behind {
        image: IMAGE,
        spells: &[],
    },
];

/// The connection stays, and what it is asked in slot 102 waits for the answer to the order.
const WAITED_FOR: AskedAt = AskedAt(&[(0, 17), (3_000, 17), (7_000, 17), (8_500, 17)]);

/// Over a connection that was made anew an order is sent a second before a slot begins.
fn anew(trial: &Trial<'_>) -> Result<(), OfficeError> {
    let speeches = [Speech::at_once(7_000, ORDER)];
    let world = world_of(trial.alloc(), 9_800, &ROOF_AWAY_AND_LATE, &speeches)?;
    look_behind_new(trial, &[], world, &WAITED_FOR)
}

#[test]
fn an_order_has_its_time_though_a_slot_begins(rt: HostRuntime) -> Result<(), Fail> {
    Ok(twice!(rt, anew)?)
}

/// The roof takes a second from slot 101 on, and is away for a moment.
const ROOF_LATE_AND_LOST: [Behind; 2] = [
    Behind {
        image: IMAGE,
        spells: &[
            Spell {
                trouble: Trouble::Late(1_000),
                unit: None,
                from: 3_000,
                to: u64::MAX,
            },
            Spell {
                trouble: Trouble::Away,
                unit: None,
                from: 5_500,
                to: 5_600,
            },
        ],
    },
    Behind {
        image: IMAGE,
        spells: &[],
    },
];

/// The order is sent again as soon as there is a connection.
const SENT_ANEW: AskedAt = AskedAt(&[(5_000, 17), (6_500, 17)]);

/// A connection is lost over which an order was sent, while the line waits for slot 103.
fn lost(trial: &Trial<'_>) -> Result<(), OfficeError> {
    let speeches = [Speech::at_once(5_000, ORDER)];
    let world = world_of(trial.alloc(), ENDS, &ROOF_LATE_AND_LOST, &speeches)?;
    look_behind_new(trial, SOON, world, &SENT_ANEW)
}

#[test]
fn an_order_that_was_lost_is_sent_over_the_next_connection(rt: HostRuntime) -> Result<(), Fail> {
    Ok(twice!(rt, lost)?)
}
