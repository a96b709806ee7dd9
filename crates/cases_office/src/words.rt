//! Rows of command lines: the job that words ask for.
use crate::shell::{text_of, words_of};
use case_pages::Trouble;
use office_words::{Errand, Job, WordFault, read_words};
use std::alloc::{AllocError, Global};

/// An errand, with its values in the order of its fields.
fn errand_text(alloc: Global, errand: &Errand) -> Result<String, AllocError> {
    match errand {
        Errand::Load { caller, key, list } => {
            let (caller, key) = (text_of(caller.as_bytes()), text_of(key.as_bytes()));
            format!(in alloc; "load {caller} {key} {list}")
        }
        Errand::Poll { slot, line } => format!(in alloc; "poll {slot} {line}"),
        Errand::Order {
            caller,
            key,
            point,
            value,
        } => {
            let (caller, key) = (text_of(caller.as_bytes()), text_of(key.as_bytes()));
            format!(in alloc; "order {caller} {key} {point} {value}")
        }
        Errand::Void {
            caller,
            key,
            point,
            slot,
        } => {
            let (caller, key) = (text_of(caller.as_bytes()), text_of(key.as_bytes()));
            format!(in alloc; "void {caller} {key} {point} {slot}")
        }
        Errand::Report { point, from, to } => format!(in alloc; "report {point} {from} {to}"),
        Errand::Run { every, bind, port } => format!(in alloc; "run {every} {bind} {port}"),
        Errand::Serve { port, count } => format!(in alloc; "serve {port} {count:?}"),
    }
}

fn job_text(alloc: Global, job: &Job) -> Result<String, AllocError> {
    match job {
        Job::Replay => String::from_str(alloc, "replay"),
        Job::Plan { site, list } => format!(in alloc; "plan {site} {list}"),
        Job::Discover {
            site,
            timeout,
            device,
        } => format!(in alloc; "discover {site} {timeout} {device}"),
        Job::Sim { image, port } => format!(in alloc; "sim {image} {port:?}"),
        Job::Migrate { store, timeout } => format!(in alloc; "migrate {store} {timeout}"),
        Job::Office {
            store,
            site,
            timeout,
            errand,
        } => {
            let errand = errand_text(alloc, errand)?;
            format!(in alloc; "{store} {site} {timeout}: {errand}")
        }
    }
}

/// What a line asks for: a job with its values, for an office behind its store and its site, or `command`.
pub(crate) fn job(alloc: Global, input: &str) -> Result<String, Trouble> {
    match read_words(alloc, words_of(alloc, input)?) {
        Ok(job) => Ok(job_text(alloc, &job)?),
        Err(WordFault::Words) => Ok(String::from_str(alloc, "command")?),
        Err(WordFault::Memory) => Err(Trouble::Memory),
    }
}
