//! Pages over HTTP, which are shown part by part.
use crate::guest::Speech;
use crate::scenes::{Left, Look, look_behind_new, world};
use crate::wire::{Spell, Trouble};
use office_core::OfficeError;
use office_plays::steps::Happens::{self, Load};
use office_plays::steps::push;
use poll_book::MemKeeper;
use std::test::Fail;
use telling::{Trial, twice};

/// The points, each with its last reading.
const POINTS: &str =
    "HTTP/1.1 200 OK\r\nContent-Type: application/json\r\nConnection: close\r\n\r\n\
    {\"points\":[\
    {\"device\":\"m1\",\"last\":{\"slot\":101,\"time\":\"1970-01-01T00:08:25Z\",\"value\":\"3\",\"void\":false},\
    \"name\":\"e\",\"role\":\"counter\",\"total\":\"3\"},\
    {\"device\":\"m1\",\"last\":{\"slot\":101,\"time\":\"1970-01-01T00:08:25Z\",\"value\":\"0\",\"void\":false},\
    \"name\":\"lim\",\"role\":\"setting\",\"total\":null},\
    {\"device\":\"m2\",\"last\":{\"slot\":101,\"time\":\"1970-01-01T00:08:25Z\",\"value\":\"3\",\"void\":false},\
    \"name\":\"f\",\"role\":\"gauge\",\"total\":null}]}\n";

/// What two lines and three points came to in two slots.
const METRICS: &str = "HTTP/1.1 200 OK\r\n\
    Content-Type: application/openmetrics-text; version=1.0.0; charset=utf-8\r\n\
    Connection: close\r\n\
    \r\n\
    # TYPE kimjolde_line_up gauge\n\
    # HELP kimjolde_line_up Whether the line is up.\n\
    kimjolde_line_up{line=\"roof\"} 1\n\
    kimjolde_line_up{line=\"cellar\"} 1\n\
    # TYPE kimjolde_line_rounds counter\n\
    # HELP kimjolde_line_rounds Rounds that ended uncut, with or without the readings of a silent device.\n\
    kimjolde_line_rounds_total{line=\"roof\"} 2\n\
    kimjolde_line_rounds_total{line=\"cellar\"} 2\n\
    # TYPE kimjolde_line_rounds_cut counter\n\
    # HELP kimjolde_line_rounds_cut Rounds that were cut.\n\
    kimjolde_line_rounds_cut_total{line=\"roof\"} 0\n\
    kimjolde_line_rounds_cut_total{line=\"cellar\"} 0\n\
    # TYPE kimjolde_line_queries counter\n\
    # HELP kimjolde_line_queries Queries that were sent.\n\
    kimjolde_line_queries_total{line=\"roof\"} 2\n\
    kimjolde_line_queries_total{line=\"cellar\"} 2\n\
    # TYPE kimjolde_line_readings counter\n\
    # HELP kimjolde_line_readings Readings that were recorded.\n\
    kimjolde_line_readings_total{line=\"roof\"} 4\n\
    kimjolde_line_readings_total{line=\"cellar\"} 2\n\
    # TYPE kimjolde_line_exceptions counter\n\
    # HELP kimjolde_line_exceptions Queries that were answered by an exception.\n\
    kimjolde_line_exceptions_total{line=\"roof\"} 0\n\
    kimjolde_line_exceptions_total{line=\"cellar\"} 0\n\
    # TYPE kimjolde_line_refused_frames counter\n\
    # HELP kimjolde_line_refused_frames Frames that were refused, since they answered no query.\n\
    kimjolde_line_refused_frames_total{line=\"roof\"} 0\n\
    kimjolde_line_refused_frames_total{line=\"cellar\"} 0\n\
    # TYPE kimjolde_line_last_round_seconds gauge\n\
    # UNIT kimjolde_line_last_round_seconds seconds\n\
    # HELP kimjolde_line_last_round_seconds How long the last round that ended uncut took.\n\
    kimjolde_line_last_round_seconds{line=\"roof\"} 0.000\n\
    kimjolde_line_last_round_seconds{line=\"cellar\"} 0.000\n\
    # TYPE kimjolde_store_faults counter\n\
    # HELP kimjolde_store_faults Calls that the store refused.\n\
    kimjolde_store_faults_total 0\n\
    # TYPE kimjolde_point_value gauge\n\
    # HELP kimjolde_point_value The number of the last reading, with its scale.\n\
    kimjolde_point_value{device=\"m1\",point=\"e\"} 3\n\
    kimjolde_point_value{device=\"m1\",point=\"lim\"} 0\n\
    kimjolde_point_value{device=\"m2\",point=\"f\"} 3\n\
    # TYPE kimjolde_point_time_seconds gauge\n\
    # UNIT kimjolde_point_time_seconds seconds\n\
    # HELP kimjolde_point_time_seconds When the slot of the last reading began, since 1970.\n\
    kimjolde_point_time_seconds{device=\"m1\",point=\"e\"} 505\n\
    kimjolde_point_time_seconds{device=\"m1\",point=\"lim\"} 505\n\
    kimjolde_point_time_seconds{device=\"m2\",point=\"f\"} 505\n\
    # TYPE kimjolde_point_accumulated gauge\n\
    # HELP kimjolde_point_accumulated How far a counter went by its readings, with its scale.\n\
    kimjolde_point_accumulated{device=\"m1\",point=\"e\"} 3\n\
    # EOF\n";

/// A site of two devices has no third.
const NONE: &str =
    "HTTP/1.1 404 Not Found\r\nContent-Type: application/json\r\nContent-Length: 21\r\nConnection: close\r\n\r\n{\"error\":\"not found\"}";

/// What is asked for, and what is heard.
const ANSWERS: &[(&str, &str)] = &[
    ("GET /points HTTP/1.1\r\n\r\n", POINTS),
    ("GET /metrics HTTP/1.1\r\n\r\n", METRICS),
    ("GET /devices/2 HTTP/1.1\r\n\r\n", NONE),
];

/// Twenty points more, so that no part has all of them.
const MORE: &[Happens] = &[Load(
    "l2",
    "p0,m2,holding,40,uint16,,,gauge,\n\
    p1,m2,holding,40,uint16,,,gauge,\n\
    p2,m2,holding,40,uint16,,,gauge,\n\
    p3,m2,holding,40,uint16,,,gauge,\n\
    p4,m2,holding,40,uint16,,,gauge,\n\
    p5,m2,holding,40,uint16,,,gauge,\n\
    p6,m2,holding,40,uint16,,,gauge,\n\
    p7,m2,holding,40,uint16,,,gauge,\n\
    p8,m2,holding,40,uint16,,,gauge,\n\
    p9,m2,holding,40,uint16,,,gauge,\n\
    p10,m2,holding,40,uint16,,,gauge,\n\
    p11,m2,holding,40,uint16,,,gauge,\n\
    p12,m2,holding,40,uint16,,,gauge,\n\
    p13,m2,holding,40,uint16,,,gauge,\n\
    p14,m2,holding,40,uint16,,,gauge,\n\
    p15,m2,holding,40,uint16,,,gauge,\n\
    p16,m2,holding,40,uint16,,,gauge,\n\
    p17,m2,holding,40,uint16,,,gauge,\n\
    p18,m2,holding,40,uint16,,,gauge,\n\
    p19,m2,holding,40,uint16,,,gauge,\n",
)];

/// What is asked for, and what stands in the answer in this order.
const PAGES: &[(&str, &[&str])] = &[
    (
        "GET / HTTP/1.1\r\n\r\n",
        &[
            "HTTP/1.1 200 OK\r\nContent-Type: text/html; charset=utf-8\r\nConnection: close\r\n\r\n<!doctype html>\n",
            "roof",
            "cellar",
            "Orders that wait",
            ">m1<",
            ">e<",
            ">lim<",
            ">m2<",
            ">f<",
            "</body>\n</html>\n",
        ],
    ),
    (
        "GET /points HTTP/1.1\r\n\r\n",
        &[
            "HTTP/1.1 200 OK\r\nContent-Type: application/json\r\nConnection: close\r\n\r\n{\"points\":[{",
            "\"name\":\"e\"",
            "\"name\":\"lim\"",
            "\"name\":\"f\"",
            "\"name\":\"p0\"",
            "\"name\":\"p1\"",
            "\"name\":\"p2\"",
            "\"name\":\"p3\"",
            "\"name\":\"p4\"",
            "\"name\":\"p5\"",
            "\"name\":\"p6\"",
            "\"name\":\"p7\"",
            "\"name\":\"p8\"",
            "\"name\":\"p9\"",
            "\"name\":\"p10\"",
            "\"name\":\"p11\"",
            "\"name\":\"p12\"",
            "\"name\":\"p13\"",
            "\"name\":\"p14\"",
            "\"name\":\"p15\"",
            "\"name\":\"p16\"",
            "\"name\":\"p17\"",
            "\"name\":\"p18\"",
            "\"name\":\"p19\"",
            "}]}\n",
        ],
    ),
    (
        "GET /devices/1 HTTP/1.1\r\n\r\n",
        &[
            "HTTP/1.1 200 OK\r\nContent-Type: text/html; charset=utf-8\r\nConnection: close\r\n\r\n<!doctype html>\n",
            ">m2<",
            ">f<",
            "<svg",
            "</body>\n</html>\n",
        ],
    ),
];

/// The callers come at this millisecond of the run, in slot 101.
const COME: u64 = 4_000;

/// Each heard its answer at once.
struct Answered;

impl Look<MemKeeper> for Answered {
    fn look(&self, trial: &Trial<'_>, left: &mut Left<MemKeeper>) -> Result<(), OfficeError> {
        for (guest, (_, answer)) in left.world.guests.all.iter().zip(ANSWERS) {
            trial.told(&"heard", &guest.heard.as_slice(), &answer.as_bytes());
            trial.told(&"gone", &guest.gone, &Some(COME));
        }
        Ok(())
    }
}

fn told_whole(trial: &Trial<'_>) -> Result<(), OfficeError> {
    let mut speeches = Vec::new(trial.alloc());
    for (request, _) in ANSWERS {
        push(&mut speeches, Speech::at_once(COME, request))?;
    }
    let world = world(trial.alloc(), 12_000, &[], &speeches)?;
    look_behind_new(trial, &[], world, &Answered)
}

#[test]
fn points_and_metrics_are_told(rt: HostRuntime) -> Result<(), Fail> {
    Ok(twice!(rt, told_whole)?)
}

/// The text behind the first of each of these, one behind the other, and nothing where one lacks.
fn behind<'t>(text: &'t str, parts: &[&str]) -> Option<&'t str> {
    let mut left = text;
    for part in parts {
        let (_, rest) = left.split_once(*part)?;
        left = rest;
    }
    Some(left)
}

/// Each was shown its page at once.
struct Shown;

impl Look<MemKeeper> for Shown {
    fn look(&self, trial: &Trial<'_>, left: &mut Left<MemKeeper>) -> Result<(), OfficeError> {
        for (guest, (_, parts)) in left.world.guests.all.iter().zip(PAGES) {
            let heard = str::from_utf8(guest.heard.as_slice()).unwrap_or("no text");
            trial.told(&"behind the page", &behind(heard, parts), &Some(""));
            trial.told(&"gone", &guest.gone, &Some(COME));
        }
        Ok(())
    }
}

fn told_in_parts(trial: &Trial<'_>) -> Result<(), OfficeError> {
    let mut speeches = Vec::new(trial.alloc());
    for (request, _) in PAGES {
        push(&mut speeches, Speech::at_once(COME, request))?;
    }
    let world = world(trial.alloc(), 12_000, &[], &speeches)?;
    look_behind_new(trial, MORE, world, &Shown)
}

#[test]
fn pages_are_shown_part_by_part(rt: HostRuntime) -> Result<(), Fail> {
    Ok(twice!(rt, told_in_parts)?)
}

/// The cellar's round of slot 101 is cut as its connection ends, and begun again. Then the connection ends once more,
/// and nothing lacks in a round behind that.
const LOST_TWICE: &[Spell] = &[
    Spell {
        trouble: Trouble::Late(2_000),
        unit: None,
        from: 3_000,
        to: 4_000,
    },
    Spell {
        trouble: Trouble::Away,
        unit: None,
        from: 4_000,
        to: 4_500,
    },
    Spell {
        trouble: Trouble::Away,
        unit: None,
        from: 6_000,
        to: 6_500,
    },
];

const COUNTS: &[&str] = &[
    "kimjolde_line_rounds_total{line=\"cellar\"} 3\n",
    "kimjolde_line_rounds_cut_total{line=\"cellar\"} 1\n",
    "kimjolde_line_last_round_seconds{line=\"cellar\"} 0.000\n",
    "# EOF\n",
];

/// These counts were told.
struct Counted;

impl Look<MemKeeper> for Counted {
    fn look(&self, trial: &Trial<'_>, left: &mut Left<MemKeeper>) -> Result<(), OfficeError> {
        for guest in &left.world.guests.all {
            let heard = str::from_utf8(guest.heard.as_slice()).unwrap_or("no text");
            trial.told(&"behind the counts", &behind(heard, COUNTS), &Some(""));
        }
        Ok(())
    }
}

fn lost_twice(trial: &Trial<'_>) -> Result<(), OfficeError> {
    let speeches = [Speech::at_once(7_500, "GET /metrics HTTP/1.1\r\n\r\n")];
    let world = world(trial.alloc(), 12_000, LOST_TWICE, &speeches)?;
    look_behind_new(trial, &[], world, &Counted)
}

#[test]
fn each_round_is_counted_once_as_it_ended(rt: HostRuntime) -> Result<(), Fail> {
    Ok(twice!(rt, lost_twice)?)
}
