//! Reports over HTTP.
use crate::guest::Speech;
use crate::scenes::{Left, Look, look_behind_new, world};
use office_core::OfficeError;
use office_plays::steps::push;
use poll_book::MemKeeper;
use std::test::Fail;
use telling::{Trial, twice};

/// What is asked for, and what is answered: a counter, the same in slots without a reading, one that isn't a counter,
/// an unknown point, slots in the wrong order, and another method.
const EXCHANGES: &[(&str, &str)] = &[
    (
        "GET /points/e/report/100/101 HTTP/1.1\r\n\r\n",
        "HTTP/1.1 200 OK\r\nContent-Type: text/plain; charset=utf-8\r\nContent-Length: 44\r\nConnection: close\r\n\r\npoint e\n       100  0\n       101  3\ntotal 3\n",
    ),
    (
        "GET /points/e/report/102/102 HTTP/1.1\r\n\r\n",
        "HTTP/1.1 200 OK\r\nContent-Type: text/plain; charset=utf-8\r\nContent-Length: 16\r\nConnection: close\r\n\r\npoint e\ntotal 3\n",
    ),
    (
        "GET /points/f/report/101/101 HTTP/1.1\r\n\r\n",
        "HTTP/1.1 200 OK\r\nContent-Type: text/plain; charset=utf-8\r\nContent-Length: 22\r\nConnection: close\r\n\r\npoint f\n       101  3\n",
    ),
    (
        "GET /points/g/report/100/101 HTTP/1.1\r\n\r\n",
        "HTTP/1.1 404 Not Found\r\nContent-Type: application/json\r\nContent-Length: 21\r\nConnection: close\r\n\r\n{\"error\":\"not found\"}",
    ),
    (
        "GET /points/e/report/101/100 HTTP/1.1\r\n\r\n",
        "HTTP/1.1 400 Bad Request\r\nContent-Type: application/json\r\nContent-Length: 23\r\nConnection: close\r\n\r\n{\"error\":\"bad request\"}",
    ),
    (
        "PUT /points/e/report/100/101 HTTP/1.1\r\n\r\n",
        "HTTP/1.1 405 Method Not Allowed\r\nContent-Type: application/json\r\nContent-Length: 18\r\nConnection: close\r\nAllow: GET\r\n\r\n{\"error\":\"method\"}",
    ),
];

/// The callers come at this millisecond of the run, in slot 101.
const COME: u64 = 4_000;

/// Each heard its answer at once.
struct Answered;

impl Look<MemKeeper> for Answered {
    fn look(&self, trial: &Trial<'_>, left: &mut Left<MemKeeper>) -> Result<(), OfficeError> {
        for (guest, (_, answer)) in left.world.guests.all.iter().zip(EXCHANGES) {
            trial.told(&"heard", &guest.heard.as_slice(), &answer.as_bytes());
            trial.told(&"gone", &guest.gone, &Some(COME));
        }
        Ok(())
    }
}

fn asked(trial: &Trial<'_>) -> Result<(), OfficeError> {
    let mut speeches = Vec::new(trial.alloc());
    for (request, _) in EXCHANGES {
        push(&mut speeches, Speech::at_once(COME, request))?;
    }
    let world = world(trial.alloc(), 12_000, &[], &speeches)?;
    look_behind_new(trial, &[], world, &Answered)
}

#[test]
fn a_report_is_told_as_text(rt: HostRuntime) -> Result<(), Fail> {
    Ok(twice!(rt, asked)?)
}
