//! The job of each command, by the values that its matches have.
ghost use Rattle.clap.specs.Words.{found_of, rows_of, subcommand_rows_of};
ghost use Rattle.office_words.specs.Jobs.{discover_of, errand_job_in, errand_view, job_found, job_view, load_of, migrate_of, office_of, order_of, plan_of, poll_of, report_of, run_of, serve_of, sim_of, void_of};
ghost use Rattle.office_words.specs.Values.{Gives};

use crate::given::{
    caller, key, number, number_if_given, period, port, port_if_given, seconds, text, value,
};
use crate::{Errand, Job, WordFault};
use clap::ArgMatches;
use poll_book::MOST_APART;
use std::alloc::Global;

/// An errand in the office that the values name.
#[tactic(auto, unfolding(crate::specs::Jobs::office_of))]
fn in_office(alloc: Global, matches: &ArgMatches, errand: Errand) -> Result<Job, WordFault>
    ensures { Gives job_view result (office_of (rows_of (found_of matches.now)) (errand_view errand)) }
{
    let store = text(alloc, matches, "store")?;
    let site = text(alloc, matches, "site")?;
    let timeout = seconds(matches, "timeout")?;
    Ok(Job::Office {
        store,
        site,
        timeout,
        errand,
    })
}

#[tactic(auto, unfolding(crate::specs::Jobs::load_of))]
fn load(alloc: Global, matches: &ArgMatches) -> Result<Job, WordFault>
    ensures { Gives job_view result (load_of (rows_of (found_of matches.now))) }
{
    let caller = caller(matches, "caller")?;
    let key = key(matches, "key")?;
    let list = text(alloc, matches, "list")?;
    in_office(alloc, matches, Errand::Load { caller, key, list })
}

#[tactic(auto, unfolding(crate::specs::Jobs::plan_of))]
fn plan(alloc: Global, matches: &ArgMatches) -> Result<Job, WordFault>
    ensures { Gives job_view result (plan_of (rows_of (found_of matches.now))) }
{
    let site = text(alloc, matches, "site")?;
    let list = text(alloc, matches, "list")?;
    Ok(Job::Plan { site, list })
}

#[tactic(auto, unfolding(crate::specs::Jobs::discover_of))]
fn discover(alloc: Global, matches: &ArgMatches) -> Result<Job, WordFault>
    ensures { Gives job_view result (discover_of (rows_of (found_of matches.now))) }
{
    let site = text(alloc, matches, "site")?;
    let timeout = seconds(matches, "timeout")?;
    let device = text(alloc, matches, "device")?;
    Ok(Job::Discover {
        site,
        timeout,
        device,
    })
}

#[tactic(auto, unfolding(crate::specs::Jobs::poll_of))]
fn poll(alloc: Global, matches: &ArgMatches) -> Result<Job, WordFault>
    ensures { Gives job_view result (poll_of (rows_of (found_of matches.now))) }
{
    let slot = number(matches, "slot")?;
    let line = text(alloc, matches, "line")?;
    in_office(alloc, matches, Errand::Poll { slot, line })
}

#[tactic(auto, unfolding(crate::specs::Jobs::order_of))]
fn order(alloc: Global, matches: &ArgMatches) -> Result<Job, WordFault>
    ensures { Gives job_view result (order_of (rows_of (found_of matches.now))) }
{
    let caller = caller(matches, "caller")?;
    let key = key(matches, "key")?;
    let point = text(alloc, matches, "point")?;
    let value = value(matches, "value")?;
    let errand = Errand::Order {
        caller,
        key,
        point,
        value,
    };
    in_office(alloc, matches, errand)
}

#[tactic(auto, unfolding(crate::specs::Jobs::void_of))]
fn void(alloc: Global, matches: &ArgMatches) -> Result<Job, WordFault>
    ensures { Gives job_view result (void_of (rows_of (found_of matches.now))) }
{
    let caller = caller(matches, "caller")?;
    let key = key(matches, "key")?;
    let point = text(alloc, matches, "point")?;
    let slot = number(matches, "slot")?;
    let errand = Errand::Void {
        caller,
        key,
        point,
        slot,
    };
    in_office(alloc, matches, errand)
}

#[tactic(auto, unfolding(crate::specs::Jobs::migrate_of))]
fn migrate(alloc: Global, matches: &ArgMatches) -> Result<Job, WordFault>
    ensures { Gives job_view result (migrate_of (rows_of (found_of matches.now))) }
{
    let store = text(alloc, matches, "store")?;
    let timeout = seconds(matches, "timeout")?;
    Ok(Job::Migrate { store, timeout })
}

#[tactic(auto, unfolding(crate::specs::Jobs::report_of))]
fn report(alloc: Global, matches: &ArgMatches) -> Result<Job, WordFault>
    ensures { Gives job_view result (report_of (rows_of (found_of matches.now))) }
{
    let point = text(alloc, matches, "point")?;
    let from = number(matches, "from")?;
    let to = number(matches, "to")?;
    if from > to || to - from > MOST_APART {
        return Err(WordFault::Words);
    }
    in_office(alloc, matches, Errand::Report { point, from, to })
}

#[tactic(auto, unfolding(crate::specs::Jobs::serve_of))]
fn serve(alloc: Global, matches: &ArgMatches) -> Result<Job, WordFault>
    ensures { Gives job_view result (serve_of (rows_of (found_of matches.now))) }
{
    let port = port(matches, "port")?;
    let count = number_if_given(matches, "count")?;
    in_office(alloc, matches, Errand::Serve { port, count })
}

#[tactic(auto, unfolding(crate::specs::Jobs::run_of))]
fn run(alloc: Global, matches: &ArgMatches) -> Result<Job, WordFault>
    ensures { Gives job_view result (run_of (rows_of (found_of matches.now))) }
{
    let timeout = seconds(matches, "timeout")?;
    let every = period(matches, "every")?;
    let bind = text(alloc, matches, "bind")?;
    let port = port(matches, "port")?;
    if u32::from(timeout) >= every {
        return Err(WordFault::Words);
    }
    in_office(alloc, matches, Errand::Run { every, bind, port })
}

#[tactic(auto, unfolding(crate::specs::Jobs::sim_of))]
fn sim(alloc: Global, matches: &ArgMatches) -> Result<Job, WordFault>
    ensures { Gives job_view result (sim_of (rows_of (found_of matches.now))) }
{
    let image = text(alloc, matches, "image")?;
    let port = port_if_given(matches, "port")?;
    Ok(Job::Sim { image, port })
}

/// The job of a command of this name that does an errand in an office.
fn errand_job(alloc: Global, name: &str, matches: &ArgMatches) -> Result<Job, WordFault>
    ensures { Gives job_view result (errand_job_in (name.now, rows_of (found_of matches.now))) }
{
    match name {
        "load" => load(alloc, matches),
        "poll" => poll(alloc, matches),
        "order" => order(alloc, matches),
        "void" => void(alloc, matches),
        "report" => report(alloc, matches),
        "serve" => serve(alloc, matches),
        "run" => run(alloc, matches),
        _ => Err(WordFault::Words),
    }
}

/// The job of the command that was found.
pub(crate) fn job_in(alloc: Global, matches: &ArgMatches) -> Result<Job, WordFault>
    ensures { Gives job_view result (job_found (subcommand_rows_of matches.now)) }
{
    match matches.subcommand() {
        Some(("replay", _)) => Ok(Job::Replay),
        Some(("plan", inner)) => plan(alloc, inner),
        Some(("discover", inner)) => discover(alloc, inner),
        Some(("sim", inner)) => sim(alloc, inner),
        Some(("migrate", inner)) => migrate(alloc, inner),
        Some((name, inner)) => errand_job(alloc, name, inner),
        None => Err(WordFault::Words),
    }
}
