//! Stores that refuse.
use crate::ahead::SOON;
use crate::busy;
use crate::guest::Speech;
use crate::orders::{AskedAt, ORDER, WAITING};
use crate::scenes::{
    AllTold, Behind, IMAGE, Left, Look, assert_readings, assert_told, keep_up_in, look_behind,
    office_over, world, world_of,
};
use crate::wire::{Spell, Trouble};
use crate::world::Setting;
use office_core::{Office, OfficeError};
use office_plays::refusing::Refusing;
use office_plays::steps::Happens::{self, Load};
use office_run::RunFault;
use poll_book::StoreFault;
use std::test::Fail;
use telling::{Trial, twice};

/// Keeps an office up over a store that refuses some calls; expects how that ends, and what is told.
fn ran_over(
    trial: &Trial<'_>,
    keeper: Refusing,
    expected: Result<(), RunFault>,
    told: &str,
) -> Result<Office<Refusing>, OfficeError> {
    let alloc = trial.alloc();
    let world = world(alloc, 18_000, &[], &[])?;
    let left = keep_up_in(alloc, keeper, &[], world)?;
    trial.told(&"ended", &left.ended, &expected);
    assert_told(trial, &left.world, told)?;
    Ok(left.office)
}

/// No change is taken for a while.
fn full(trial: &Trial<'_>) -> Result<(), OfficeError> {
    let keeper = Refusing::changes(trial.alloc(), 5, 9, StoreFault::Full);
    let mut office = ran_over(
        trial,
        keeper,
        Ok(()),
        "1970-01-01T00:08:22Z office: line roof is up\n1970-01-01T00:08:22Z office: line cellar is up\n1970-01-01T00:08:25Z office: the store refuses: full\n1970-01-01T00:08:28Z office: the store takes what comes again\n",
    )?;
    assert_readings(
        trial,
        &mut office,
        "e",
        &[(100, 0), (101, 6), (102, 8), (103, 13)],
    )
}

#[test]
fn a_slot_is_begun_again_where_the_store_was_full(rt: HostRuntime) -> Result<(), Fail> {
    Ok(twice!(rt, full)?)
}

/// The same, and an order comes that is kept before the slot is begun again.
fn full_until_an_order(trial: &Trial<'_>) -> Result<(), OfficeError> {
    let alloc = trial.alloc();
    let keeper = Refusing::changes(alloc, 5, 9, StoreFault::Full);
    let world = world(alloc, 18_000, &[], &[Speech::at_once(5_000, ORDER)])?;
    let mut left = keep_up_in(alloc, keeper, &[], world)?;
    assert_told(
        trial,
        &left.world,
        "1970-01-01T00:08:22Z office: line roof is up\n1970-01-01T00:08:22Z office: line cellar is up\n1970-01-01T00:08:25Z office: the store refuses: full\n1970-01-01T00:08:27Z office: the store takes what comes again\n1970-01-01T00:08:27Z office: device m1 of line roof did what was ordered\n",
    )?;
    assert_readings(
        trial,
        &mut left.office,
        "e",
        &[(100, 0), (101, 6), (102, 8), (103, 13)],
    )
}

#[test]
fn an_order_leaves_a_slot_that_is_begun_again(rt: HostRuntime) -> Result<(), Fail> {
    Ok(twice!(rt, full_until_an_order)?)
}

/// From a call on each is refused: each line asks a second later, then two, and so on.
fn refusing_all(trial: &Trial<'_>) -> Result<(), OfficeError> {
    let keeper = Refusing::from(trial.alloc(), 41, StoreFault::Other);
    let office = ran_over(
        trial,
        keeper,
        Ok(()),
        "1970-01-01T00:08:22Z office: line roof is up\n1970-01-01T00:08:22Z office: line cellar is up\n1970-01-01T00:08:30Z office: the store refuses: other\n",
    )?;
    trial.told(&"few calls", &(office.into_keeper().calls < 60), &true);
    Ok(())
}

#[test]
fn a_store_that_refuses_all_is_asked_now_and_then(rt: HostRuntime) -> Result<(), Fail> {
    Ok(twice!(rt, refusing_all)?)
}

/// One call is told that a file failed.
fn passing(trial: &Trial<'_>) -> Result<(), OfficeError> {
    let keeper = Refusing::new(trial.alloc(), 41, StoreFault::Disk);
    let mut office = ran_over(
        trial,
        keeper,
        Ok(()),
        "1970-01-01T00:08:22Z office: line roof is up\n1970-01-01T00:08:22Z office: line cellar is up\n1970-01-01T00:08:30Z office: the store refuses: disk\n1970-01-01T00:08:30Z office: the store takes what comes again\n",
    )?;
    assert_readings(
        trial,
        &mut office,
        "e",
        &[(100, 0), (101, 3), (102, 8), (103, 13)],
    )
}

#[test]
fn a_run_goes_on_where_a_file_failed_once(rt: HostRuntime) -> Result<(), Fail> {
    Ok(twice!(rt, passing)?)
}

/// From a call on each is told that a file failed.
fn broken(trial: &Trial<'_>) -> Result<(), OfficeError> {
    let keeper = Refusing::from(trial.alloc(), 41, StoreFault::Disk);
    let fault = Err(RunFault::Store(StoreFault::Disk));
    let office = ran_over(
        trial,
        keeper,
        fault,
        "1970-01-01T00:08:22Z office: line roof is up\n1970-01-01T00:08:22Z office: line cellar is up\n1970-01-01T00:08:30Z office: the store refuses: disk\n",
    )?;
    trial.told(&"calls", &office.into_keeper().calls, &43);
    Ok(())
}

#[test]
fn a_run_ends_where_the_store_is_broken(rt: HostRuntime) -> Result<(), Fail> {
    Ok(twice!(rt, broken)?)
}

/// The store is full as the first line is to be opened: it is opened a second later.
fn unopened(trial: &Trial<'_>) -> Result<(), OfficeError> {
    let keeper = Refusing::changes(trial.alloc(), 1, 2, StoreFault::Full);
    let mut office = ran_over(
        trial,
        keeper,
        Ok(()),
        "1970-01-01T00:08:22Z office: line roof is down: store full\n1970-01-01T00:08:22Z office: the store refuses: full\n1970-01-01T00:08:22Z office: line cellar is up\n1970-01-01T00:08:22Z office: the store takes what comes again\n1970-01-01T00:08:23Z office: line roof is up\n",
    )?;
    assert_readings(
        trial,
        &mut office,
        "e",
        &[(100, 1), (101, 3), (102, 8), (103, 13)],
    )
}

#[test]
fn a_line_that_could_not_be_opened_is_opened_again(rt: HostRuntime) -> Result<(), Fail> {
    Ok(twice!(rt, unopened)?)
}

const UNAVAILABLE: &str =
    "HTTP/1.1 503 Service Unavailable\r\nContent-Type: application/json\r\nContent-Length: 17\r\nConnection: close\r\n\r\n{\"error\":\"store\"}";

/// The store is full as an order comes.
fn unordered(trial: &Trial<'_>) -> Result<(), OfficeError> {
    let alloc = trial.alloc();
    let keeper = Refusing::changes(alloc, 5, 6, StoreFault::Full);
    let speeches = [Speech::at_once(1_000, ORDER), Speech::at_once(2_000, ORDER)];
    let world = world(alloc, 2_500, &[], &speeches)?;
    let left = keep_up_in(alloc, keeper, &[], world)?;
    for (guest, expected) in left.world.guests.all.iter().zip([UNAVAILABLE, WAITING]) {
        trial.told(&"heard", &guest.heard.as_slice(), &expected.as_bytes());
    }
    assert_told(
        trial,
        &left.world,
        "1970-01-01T00:08:22Z office: line roof is up\n1970-01-01T00:08:22Z office: line cellar is up\n1970-01-01T00:08:23Z office: the store refuses: full\n1970-01-01T00:08:24Z office: the store takes what comes again\n1970-01-01T00:08:24Z office: device m1 of line roof did what was ordered\n",
    )?;
    Ok(())
}

#[test]
fn an_order_that_was_refused_may_come_again(rt: HostRuntime) -> Result<(), Fail> {
    Ok(twice!(rt, unordered)?)
}

/// The head of `GET /points` and what stands before the first point.
const BEGUN: &str =
    "HTTP/1.1 200 OK\r\nContent-Type: application/json\r\nConnection: close\r\n\r\n{\"points\":[";

/// The store refuses once, as the first point of a page is looked up.
fn unshown(trial: &Trial<'_>) -> Result<(), OfficeError> {
    let alloc = trial.alloc();
    let keeper = Refusing::new(alloc, 40, StoreFault::Other);
    let asked = Speech::at_once(4_000, "GET /points HTTP/1.1\r\n\r\n");
    let left = keep_up_in(alloc, keeper, &[], world(alloc, 9_000, &[], &[asked])?)?;
    for guest in left.world.guests.all.iter() {
        trial.told(&"heard", &guest.heard.as_slice(), &BEGUN.as_bytes());
        trial.told(&"gone", &guest.gone, &Some(4_000));
    }
    assert_told(
        trial,
        &left.world,
        "1970-01-01T00:08:22Z office: line roof is up\n1970-01-01T00:08:22Z office: line cellar is up\n1970-01-01T00:08:26Z office: the store refuses: other\n1970-01-01T00:08:30Z office: the store takes what comes again\n",
    )?;
    Ok(())
}

#[test]
fn a_page_that_the_store_refuses_breaks_off_and_is_told(rt: HostRuntime) -> Result<(), Fail> {
    Ok(twice!(rt, unshown)?)
}

/// Three devices on one line.
const SITE: &str =
    "[[line]]\nname = \"roof\"\naddress = \"127.0.0.1:502\"\n[[device]]\nname = \"a\"\nline = \"roof\"\nunit = 1\n[[device]]\nname = \"b\"\nline = \"roof\"\nunit = 2\n[[device]]\nname = \"c\"\nline = \"roof\"\nunit = 3\n";

/// Each of the three counts seconds.
const THREE: &str =
    "[[unit]]\nid = 1\nholding_start = 41\nholding = [0]\n[[unit]]\nid = 2\nholding_start = 41\nholding = [0]\n[[unit]]\nid = 3\nholding_start = 41\nholding = [0]\n";

const DEVICES: Behind = Behind {
    image: THREE,
    spells: &[],
};

const POINTS: &[Happens] = &[Load(
    "l1",
    "a,a,holding,41,uint16,,,gauge,\nb,b,holding,41,uint16,,,gauge,\nc,c,holding,41,uint16,,,gauge,\n",
)];

/// The readings of slot 101 came a second later.
struct BegunOnceMore;

impl Look<Refusing> for BegunOnceMore {
    fn look(&self, trial: &Trial<'_>, left: &mut Left<Refusing>) -> Result<(), OfficeError> {
        assert_readings(trial, &mut left.office, "a", &[(100, 0), (101, 4)])?;
        assert_readings(trial, &mut left.office, "c", &[(100, 0), (101, 4)])
    }
}

/// What three devices answered at once is refused: that is one refusal of a round.
fn refused_at_once(trial: &Trial<'_>) -> Result<(), OfficeError> {
    let alloc = trial.alloc();
    let keeper = Refusing::changes(alloc, 5, 8, StoreFault::Full);
    let office = office_over(alloc, keeper, SITE, POINTS)?;
    let world = world_of(alloc, 6_500, &[DEVICES], &[])?;
    look_behind(trial, office, world, &BegunOnceMore)
}

#[test]
fn a_slot_is_begun_again_a_second_after_all_of_it_was_refused(rt: HostRuntime) -> Result<(), Fail> {
    Ok(twice!(rt, refused_at_once)?)
}

/// It answers nothing in slot 101.
const SILENT: Behind = Behind {
    image: IMAGE,
    spells: &[Spell {
        trouble: Trouble::Silent,
        unit: None,
        from: 3_000,
        to: 9_000,
    }],
};

const UP_THOUGH_REFUSED: AllTold = AllTold(
    "1970-01-01T00:08:22Z office: line roof is up\n1970-01-01T00:08:22Z office: line roof polled slot 100: asked 1 recorded 2 excepted 0 refused 0 in 0 ms\n1970-01-01T00:08:30Z office: line roof is down: nothing was answered in time\n1970-01-01T00:08:31Z office: line roof is up\n1970-01-01T00:08:31Z office: the store refuses: full\n1970-01-01T00:08:32Z office: line roof polled slot 102: asked 1 recorded 2 excepted 0 refused 0 in 0 ms\n1970-01-01T00:08:32Z office: the store takes what comes again\n",
);

/// The first answer of a line that was told to be down is refused: the line is up.
fn refused_as_it_is_down(trial: &Trial<'_>) -> Result<(), OfficeError> {
    let alloc = trial.alloc();
    let keeper = Refusing::changes(alloc, 4, 5, StoreFault::Full);
    let office = office_over(alloc, keeper, busy::SITE, busy::POINTS)?;
    let world = world_of(alloc, 11_000, &[SILENT], &[])?;
    look_behind(trial, office, world, &UP_THOUGH_REFUSED)
}

#[test]
fn a_line_is_up_though_the_store_refuses_its_answer(rt: HostRuntime) -> Result<(), Fail> {
    Ok(twice!(rt, refused_as_it_is_down)?)
}

/// The first device answers nothing in slot 100.
const FIRST_IS_SILENT: Behind = Behind {
    image: THREE,
    spells: &[Spell {
        trouble: Trouble::Silent,
        unit: Some(1),
        from: 0,
        to: 2_500,
    }],
};

const BACK_THOUGH_REFUSED: AllTold = AllTold(
    "1970-01-01T00:08:22Z office: line roof is up\n1970-01-01T00:08:24Z office: line roof polled slot 100: asked 3 recorded 2 excepted 0 refused 0 in 2000 ms\n1970-01-01T00:08:24Z office: device a of line roof is silent\n1970-01-01T00:08:25Z office: device a of line roof answers again\n1970-01-01T00:08:25Z office: the store refuses: full\n1970-01-01T00:08:26Z office: line roof polled slot 101: asked 1 recorded 1 excepted 0 refused 0 in 0 ms\n1970-01-01T00:08:26Z office: the store takes what comes again\n",
);

/// The first answer of a device that was told to be silent is refused: the device answers again.
fn refused_as_it_is_silent(trial: &Trial<'_>) -> Result<(), OfficeError> {
    let alloc = trial.alloc();
    let keeper = Refusing::changes(alloc, 6, 7, StoreFault::Full);
    let office = office_over(alloc, keeper, SITE, POINTS)?;
    let world = world_of(alloc, 6_500, &[FIRST_IS_SILENT], &[])?;
    look_behind(trial, office, world, &BACK_THOUGH_REFUSED)
}

#[test]
fn a_device_answers_again_though_the_store_refuses_its_answer(rt: HostRuntime) -> Result<(), Fail> {
    Ok(twice!(rt, refused_as_it_is_silent)?)
}

/// The roof, which waits for slot 103, is sent the order once more, a second later.
const SENT_AGAIN: AskedAt = AskedAt(&[(5_000, 17), (6_000, 17)]);

/// What a device answers to an order is refused while its line waits for a slot to come.
fn refused_as_it_waits(trial: &Trial<'_>) -> Result<(), OfficeError> {
    let alloc = trial.alloc();
    let keeper = Refusing::changes(alloc, 8, 9, StoreFault::Full);
    let world = world(alloc, 7_500, &[], &[Speech::at_once(5_000, ORDER)])?;
    let mut left = keep_up_in(alloc, keeper, SOON, world)?;
    SENT_AGAIN.look(trial, &mut left)
}

#[test]
fn an_order_is_sent_again_a_second_after_its_answer_was_refused(
    rt: HostRuntime,
) -> Result<(), Fail> {
    Ok(twice!(rt, refused_as_it_waits)?)
}

/// Before slot 101 is begun again the clock is set back by the length of a slot.
const SET_BACK: &[Setting] = &[Setting {
    at: 3_500,
    ahead: 0,
    back: 5_000,
}];

/// What was answered in slot 101 is refused: it is begun as the clock comes to it once more.
fn refused_before_the_clock_is_set_back(trial: &Trial<'_>) -> Result<(), OfficeError> {
    let alloc = trial.alloc();
    let keeper = Refusing::changes(alloc, 5, 7, StoreFault::Full);
    let world = world(alloc, 14_000, &[], &[])?.with_settings(SET_BACK);
    let mut left = keep_up_in(alloc, keeper, &[], world)?;
    assert_readings(
        trial,
        &mut left.office,
        "e",
        &[(100, 0), (101, 8), (102, 13)],
    )
}

#[test]
fn a_slot_that_was_refused_is_begun_though_the_clock_was_set_back(
    rt: HostRuntime,
) -> Result<(), Fail> {
    Ok(twice!(rt, refused_before_the_clock_is_set_back)?)
}

/// The first device lacks the register of its point, and the second has one.
const LACKING: &[Happens] = &[Load(
    "l1",
    "a,a,holding,45,uint16,,,gauge,\nb,b,holding,41,uint16,,,gauge,\n",
)];

/// The second device answers nothing from the middle of slot 101 to that of slot 102.
const SECOND_IS_SILENT: Behind = Behind {
    image: THREE,
    spells: &[Spell {
        trouble: Trouble::Silent,
        unit: Some(2),
        from: 3_500,
        to: 12_000,
    }],
};

/// Its reading of slot 103 came a second later.
struct BegunAfterASecond;

impl Look<Refusing> for BegunAfterASecond {
    fn look(&self, trial: &Trial<'_>, left: &mut Left<Refusing>) -> Result<(), OfficeError> {
        assert_readings(trial, &mut left.office, "b", &[(100, 0), (103, 14)])
    }
}

/// Its answers in slots 101 and 103 are refused, and rounds ended between these.
fn refused_now_and_then(trial: &Trial<'_>) -> Result<(), OfficeError> {
    let alloc = trial.alloc();
    let keeper = Refusing::changes(alloc, 3, 5, StoreFault::Full);
    let office = office_over(alloc, keeper, SITE, LACKING)?;
    let world = world_of(alloc, 16_500, &[SECOND_IS_SILENT], &[])?;
    look_behind(trial, office, world, &BegunAfterASecond)
}

#[test]
fn a_slot_is_begun_again_a_second_later_once_a_round_has_ended(
    rt: HostRuntime,
) -> Result<(), Fail> {
    Ok(twice!(rt, refused_now_and_then)?)
}
