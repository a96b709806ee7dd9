//! Callers who take their time.
use crate::guest::{Guest, Speech};
use crate::orders::WAITING;
use crate::scenes::{Left, Look, look_behind_new, world};
use office_core::OfficeError;
use office_plays::steps::push;
use poll_book::MemKeeper;
use std::alloc::Global;
use std::test::Fail;
use telling::{Trial, twice};

/// Half a head.
const HALF: &str = "GET /points/e/readings/100";

const WHOLE: &str = "GET /points/e/readings/100/101 HTTP/1.1\r\n\r\n";

const ANSWER: &str =
    "HTTP/1.1 200 OK\r\nContent-Type: application/json\r\nContent-Length: 46\r\nConnection: close\r\n\r\n{\"point\":\"e\",\"readings\":[[100,\"0\"],[101,\"3\"]]}";

/// Expects what a caller heard, and when its connection was closed.
fn assert_guest(trial: &Trial<'_>, guest: &Guest, heard: &str, gone: u64) {
    trial.told(&"heard", &guest.heard.as_slice(), &heard.as_bytes());
    trial.told(&"gone", &guest.gone, &Some(gone));
}

/// The number of the caller that finds all 64 places taken; the first one has 0.
const LAST: u16 = 64;

const NEXT: u16 = 65;

/// When a caller before that one comes: one every 10 milliseconds.
fn comes(number: u16) -> u64 {
    1_000 + 10 * u64::from(number)
}

/// All places are taken by callers who say half a head, and one more comes.
fn crowd(alloc: Global) -> Result<Vec<Speech>, OfficeError> {
    let mut speeches = Vec::new(alloc);
    for number in 0..LAST {
        push(&mut speeches, Speech::at_once(comes(number), HALF))?;
    }
    push(&mut speeches, Speech::at_once(3_500, WHOLE))?;
    Ok(speeches)
}

/// Keeps an office up in a world in which these callers come and a write takes so many bytes at most, and has what
/// they heard looked at.
fn look_at_guests<L: Look<MemKeeper>>(
    trial: &Trial<'_>,
    speeches: &[Speech],
    most: usize,
    look: &L,
) -> Result<(), OfficeError> {
    let world = world(trial.alloc(), 12_000, &[], speeches)?.with_most(most);
    look_behind_new(trial, &[], world, look)
}

/// Each heard this, and went then.
#[derive(Clone, Copy)]
struct Each {
    heard: &'static str,
    gone: u64,
}

impl Look<MemKeeper> for Each {
    fn look(&self, trial: &Trial<'_>, left: &mut Left<MemKeeper>) -> Result<(), OfficeError> {
        for guest in &left.world.guests.all {
            assert_guest(trial, guest, self.heard, self.gone);
        }
        Ok(())
    }
}

/// The first goes for the last one, and each other once it has been in its head for five seconds.
struct AfterCrowd;

impl Look<MemKeeper> for AfterCrowd {
    fn look(&self, trial: &Trial<'_>, left: &mut Left<MemKeeper>) -> Result<(), OfficeError> {
        for (number, guest) in (0u16..).zip(&left.world.guests.all) {
            match number {
                0 => assert_guest(trial, guest, "", 3_500),
                LAST => assert_guest(trial, guest, ANSWER, 3_500),
                _ => assert_guest(trial, guest, "", comes(number).saturating_add(5_000)),
            }
        }
        Ok(())
    }
}

fn crowded(trial: &Trial<'_>) -> Result<(), OfficeError> {
    look_at_guests(trial, &crowd(trial.alloc())?, usize::MAX, &AfterCrowd)
}

#[test]
fn the_longest_in_its_head_goes_for_another(rt: HostRuntime) -> Result<(), Fail> {
    Ok(twice!(rt, crowded)?)
}

/// A head of which the body doesn't come, and one of which a part comes every three seconds.
const NO_BODY: &str = "PUT /callers/ann/orders/k1 HTTP/1.1\r\nContent-Length: 200\r\n\r\n";

const SLOW_BODY: &str =
    "PUT /callers/ann/orders/k1 HTTP/1.1\r\nContent-Length: 200\r\n\r\naaaaaaaaaaaaaaaaaaaaaaaaaaaaaaaaaaaaaaaaaaaaaaaaaaaaaaaaaaaaaaaaaaaaaaaaaaaaaaaaaaaaaaaaaaaaaaaaaaaaaaaaaaaaaaaaaaaaaaaaaaaaaaaaaaaaaaaaaaaaaaaaaaaaaaaaaaaaaaaaaaaaaaaaaaaaaaaa";

/// All places are taken by callers whose body doesn't come, the first by one whose body is slow; and one more of these
/// comes, and then another one.
fn slow_bodies(alloc: Global) -> Result<Vec<Speech>, OfficeError> {
    let mut speeches = Vec::new(alloc);
    let first = Speech {
        most: NO_BODY.len(),
        pause: 3_000,
        ..Speech::at_once(comes(0), SLOW_BODY)
    };
    push(&mut speeches, first)?;
    for number in 1..LAST {
        push(&mut speeches, Speech::at_once(comes(number), NO_BODY))?;
    }
    push(&mut speeches, Speech::at_once(3_500, NO_BODY))?;
    push(&mut speeches, Speech::at_once(11_900, WHOLE))?;
    Ok(speeches)
}

/// For the one more the first goes once it has been there for ten seconds, and for the other one the next, which moved
/// nothing in the last ten.
struct AfterSlowBodies;

impl Look<MemKeeper> for AfterSlowBodies {
    fn look(&self, trial: &Trial<'_>, left: &mut Left<MemKeeper>) -> Result<(), OfficeError> {
        for (number, guest) in (0u16..).zip(&left.world.guests.all) {
            match number {
                0 => assert_guest(trial, guest, "", 11_000),
                1 => assert_guest(trial, guest, "", 11_900),
                NEXT => assert_guest(trial, guest, ANSWER, 11_900),
                _ => trial.told(&"gone", &guest.gone, &None),
            }
        }
        Ok(())
    }
}

fn held(trial: &Trial<'_>) -> Result<(), OfficeError> {
    look_at_guests(
        trial,
        &slow_bodies(trial.alloc())?,
        usize::MAX,
        &AfterSlowBodies,
    )
}

#[test]
fn one_that_moved_nothing_goes_for_another(rt: HostRuntime) -> Result<(), Fail> {
    Ok(twice!(rt, held)?)
}

/// One says a byte every 20 milliseconds, of which there are 43.
fn slow(trial: &Trial<'_>) -> Result<(), OfficeError> {
    let speech = Speech {
        most: 1,
        pause: 20,
        ..Speech::at_once(4_000, WHOLE)
    };
    let each = Each {
        heard: ANSWER,
        gone: 4_840,
    };
    look_at_guests(trial, &[speech], usize::MAX, &each)
}

#[test]
fn a_caller_may_say_a_byte_at_a_time(rt: HostRuntime) -> Result<(), Fail> {
    Ok(twice!(rt, slow)?)
}

/// A write takes seven bytes at most.
fn narrow(trial: &Trial<'_>) -> Result<(), OfficeError> {
    let each = Each {
        heard: ANSWER,
        gone: 4_000,
    };
    look_at_guests(trial, &[Speech::at_once(4_000, WHOLE)], 7, &each)
}

#[test]
fn an_answer_may_take_many_writes(rt: HostRuntime) -> Result<(), Fail> {
    Ok(twice!(rt, narrow)?)
}

/// What it says takes longer to be read than all may take in a turn, so that the other places are owed one.
fn paced(trial: &Trial<'_>) -> Result<(), OfficeError> {
    let speeches = [Speech::at_once(4_000, WHOLE)];
    let world = world(trial.alloc(), 12_000, &[], &speeches)?.with_pace(30);
    let each = Each {
        heard: ANSWER,
        gone: 4_030,
    };
    look_behind_new(trial, &[], world, &each)
}

#[test]
fn an_answer_waits_for_no_more_than_the_others_turn(rt: HostRuntime) -> Result<(), Fail> {
    Ok(twice!(rt, paced)?)
}

/// A head whose lines end by LF alone (RFC 9112, section 2.2).
const SHORT_ENDS: &str = "PUT /callers/ann/orders/k1 HTTP/1.1\nContent-Length: 26\n\n";

const ORDER: &str =
    "PUT /callers/ann/orders/k1 HTTP/1.1\nContent-Length: 26\n\n{\"point\":\"lim\",\"value\":80}";

/// One says the head, and six seconds later the body: a head may take five, and both together thirty.
fn short_ends(trial: &Trial<'_>) -> Result<(), OfficeError> {
    let speech = Speech {
        most: SHORT_ENDS.len(),
        pause: 6_000,
        ..Speech::at_once(4_000, ORDER)
    };
    let each = Each {
        heard: WAITING,
        gone: 10_000,
    };
    look_at_guests(trial, &[speech], usize::MAX, &each)
}

/// A body that doesn't come is waited for until the caller has been there for thirty seconds.
fn bodiless(trial: &Trial<'_>) -> Result<(), OfficeError> {
    let world = world(
        trial.alloc(),
        32_000,
        &[],
        &[Speech::at_once(1_000, NO_BODY)],
    )?;
    let each = Each {
        heard: "",
        gone: 31_000,
    };
    look_behind_new(trial, &[], world, &each)
}

#[test]
fn an_exchange_takes_thirty_seconds_at_most(rt: HostRuntime) -> Result<(), Fail> {
    Ok(twice!(rt, bodiless)?)
}

#[test]
fn a_head_may_end_by_line_feeds_alone(rt: HostRuntime) -> Result<(), Fail> {
    Ok(twice!(rt, short_ends)?)
}

/// One stays once its answer is written: it is closed a second later, so that the answer comes whole.
fn staying(trial: &Trial<'_>) -> Result<(), OfficeError> {
    let speech = Speech {
        stays: true,
        ..Speech::at_once(4_000, WHOLE)
    };
    let each = Each {
        heard: ANSWER,
        gone: 5_000,
    };
    look_at_guests(trial, &[speech], usize::MAX, &each)
}

#[test]
fn a_caller_has_a_second_behind_its_answer(rt: HostRuntime) -> Result<(), Fail> {
    Ok(twice!(rt, staying)?)
}

/// Each heard this.
struct AllHeard(&'static str);

impl Look<MemKeeper> for AllHeard {
    fn look(&self, trial: &Trial<'_>, left: &mut Left<MemKeeper>) -> Result<(), OfficeError> {
        for guest in &left.world.guests.all {
            trial.told(&"heard", &guest.heard.as_slice(), &self.0.as_bytes());
        }
        Ok(())
    }
}

/// Eight come at once, each of which takes a second: the last ones have their turn when five are over.
fn unheard(trial: &Trial<'_>) -> Result<(), OfficeError> {
    let world = world(
        trial.alloc(),
        16_000,
        &[],
        &[Speech::at_once(4_000, WHOLE); 8],
    )?;
    look_behind_new(trial, &[], world.with_pace(1_000), &AllHeard(ANSWER))
}

#[test]
fn what_a_caller_said_in_time_is_heard_though_others_took_theirs(
    rt: HostRuntime,
) -> Result<(), Fail> {
    Ok(twice!(rt, unheard)?)
}

/// One more than there are places for come at once.
fn at_once(trial: &Trial<'_>) -> Result<(), OfficeError> {
    let speeches = [Speech::at_once(4_000, WHOLE); 65];
    look_at_guests(trial, &speeches, usize::MAX, &AllHeard(ANSWER))
}

#[test]
fn nobody_goes_for_another_before_it_was_read(rt: HostRuntime) -> Result<(), Fail> {
    Ok(twice!(rt, at_once)?)
}

/// A head, and the same with its body, which is no order.
const HEAD: &str = "PUT /callers/ann/orders/k1 HTTP/1.1\r\nContent-Length: 4\r\n\r\n";

const NO_ORDER: &str = "PUT /callers/ann/orders/k1 HTTP/1.1\r\nContent-Length: 4\r\n\r\nnone";

/// All places are taken by callers whose body comes some seconds behind the head, and who stay; and one more comes.
fn staying_crowd(alloc: Global) -> Result<Vec<Speech>, OfficeError> {
    let mut speeches = Vec::new(alloc);
    for number in 0..LAST {
        let speech = Speech {
            most: HEAD.len(),
            pause: 5_500,
            stays: true,
            ..Speech::at_once(comes(number), NO_ORDER)
        };
        push(&mut speeches, speech)?;
    }
    push(&mut speeches, Speech::at_once(3_500, WHOLE))?;
    Ok(speeches)
}

/// The one more has the place of the first as soon as that one is closed, a second behind its answer.
struct AfterTheFirst;

impl Look<MemKeeper> for AfterTheFirst {
    fn look(&self, trial: &Trial<'_>, left: &mut Left<MemKeeper>) -> Result<(), OfficeError> {
        for (number, guest) in (0u16..).zip(&left.world.guests.all) {
            match number {
                LAST => assert_guest(trial, guest, ANSWER, 7_500),
                _ => {
                    let gone = comes(number).saturating_add(6_500);
                    trial.told(&"gone", &guest.gone, &Some(gone));
                }
            }
        }
        Ok(())
    }
}

fn waited_for(trial: &Trial<'_>) -> Result<(), OfficeError> {
    let speeches = staying_crowd(trial.alloc())?;
    look_at_guests(trial, &speeches, usize::MAX, &AfterTheFirst)
}

#[test]
fn a_place_is_taken_as_soon_as_it_is_free(rt: HostRuntime) -> Result<(), Fail> {
    Ok(twice!(rt, waited_for)?)
}
