//! What each command does. Faults are found in the order of its steps: an address, the site, a list or an image, the
//! store, names, the line, and the work itself.
ghost use Rattle.std.specs.Prelude.{IfOk};
ghost use Rattle.point_list.specs.Sites.{IsSound};

use crate::errands::print;
use crate::output::Output;
use crate::staying::ip_address;
use crate::{Failure, Fault, Host, Stores, Task, Why, answer_lines, answer_stream, discover, plan};
use line_source::LineSource;
use mb_map::Sim;
use mb_mbap::Counted;
use office_script::{Replayed, replay};
use office_words::{Errand, Job, WordFault, help_of, read_words};
use point_list::Site;
use poll_book::StoreFault;
use std::alloc::Global;

/// The status of a program that did what it was asked for.
const DONE: u8 = 0;

/// The status where a script has a line of another form.
const FAULTY: u8 = 2;

fn site_of<H: Host>(host: &mut H, path: &str) -> Result<Site, Failure>
    ensures { IfOk result IsSound }
{
    let bytes = host.read_file(path)?;
    match Site::from_toml(host.alloc(), &bytes) {
        Ok(site) => Ok(site),
        Err(error) => Err(Failure::from(error).of(host.alloc(), path)),
    }
}

fn sim_of<H: Host>(host: &mut H, path: &str) -> Result<Sim, Failure> {
    let bytes = host.read_file(path)?;
    match Sim::from_image(host.alloc(), &bytes) {
        Ok(sim) => Ok(sim),
        Err(error) => Err(Failure::from(error).of(host.alloc(), path)),
    }
}

fn replay_input<H: Host>(host: &mut H) -> Result<u8, Failure> {
    let alloc = host.alloc();
    let mut reader = Counted::new(host.input());
    let mut writer = Counted::new(Output(host));
    match replay(alloc, &mut reader, &mut writer)? {
        Replayed::Done => Ok(DONE),
        Replayed::FaultLine(_) => Ok(FAULTY),
    }
}

fn plan_file<H: Host>(host: &mut H, site: &str, list: &str) -> Result<(), Failure> {
    let site = site_of(host, site)?;
    let bytes = host.read_file(list)?;
    match plan(host.alloc(), &site, &bytes) {
        Ok(text) => print(host, text.as_str()),
        Err(failure) => Err(failure.of(host.alloc(), list)),
    }
}

/// No device, line or point of a name is known.
pub(crate) fn unknown(alloc: Global, name: &str, why: &'static str) -> Failure {
    Failure::new(Fault::Unknown, Why::Words(why)).of(alloc, name)
}

/// The chain of models of the device with a unit identifier at an address, as it is printed.
fn discover_at<H: Host>(
    host: &mut H,
    address: &str,
    unit: u8,
    timeout: u16,
) -> Result<String, Failure> {
    let (reader, writer) = host.connect(address, timeout)?;
    let (reader, writer) = (Counted::new(reader), Counted::new(writer));
    let mut source = LineSource::new(host.alloc(), unit, reader, writer);
    discover(host.alloc(), &mut source)
}

/// Asks a device which models it has.
fn discover_device<H: Host>(
    host: &mut H,
    site: &str,
    timeout: u16,
    name: &str,
) -> Result<(), Failure> {
    let site = site_of(host, site)?;
    let Some(device) = site.device(name) else {
        return Err(unknown(host.alloc(), name, "the site has no device of this name"));
    };
    let Some(line) = site.lines.as_slice().get(device.line as usize) else {
        return Err(unknown(host.alloc(), name, "the site has no line for this device"));
    };
    match discover_at(host, line.address.as_str(), device.unit, timeout) {
        Ok(text) => print(host, text.as_str()),
        Err(failure) => Err(failure.of(host.alloc(), name)),
    }
}

fn simulate_lines<H: Host>(host: &mut H, image: &str) -> Result<(), Failure> {
    let mut sim = sim_of(host, image)?;
    let alloc = host.alloc();
    let mut reader = Counted::new(host.input());
    let mut writer = Counted::new(Output(host));
    match answer_lines(alloc, &mut sim, &mut reader, &mut writer) {
        Ok(()) => Ok(()),
        Err(fault) => Err(Failure::from(fault)),
    }
}

fn simulate_port<H: Host>(host: &mut H, image: &str, port: u16) -> Result<(), Failure> {
    let mut sim = sim_of(host, image)?;
    let (reader, writer) = host.accept(port)?;
    let (mut reader, mut writer) = (Counted::new(reader), Counted::new(writer));
    answer_stream(host.alloc(), &mut sim, &mut reader, &mut writer)
}

/// The list that an errand loads, or no bytes.
fn list_of<H: Host>(host: &mut H, errand: &Errand) -> Result<Vec<u8>, Failure> {
    match errand {
        Errand::Load { list, .. } => host.read_file(list.as_str()),
        _ => Ok(Vec::new(host.alloc())),
    }
}

/// Whether it is the store that a fault is of.
fn is_of_store(fault: Fault) -> bool {
    matches!(
        fault,
        Fault::Store(StoreFault::Full | StoreFault::Disk | StoreFault::Other)
            | Fault::BadVersion
            | Fault::NotOffice
            | Fault::SiteDiffers
    )
}

fn work<H: Stores>(
    host: &mut H,
    store: &str,
    site: &str,
    timeout: u16,
    errand: &Errand,
) -> Result<(), Failure> {
    if let Errand::Run { bind, .. } = errand {
        ip_address(host.alloc(), bind.as_str())?;
    }
    let site = site_of(host, site)?;
    let list = list_of(host, errand)?;
    let task = Task {
        errand,
        list: &list,
        timeout,
    };
    match host.work(store, site, &task) {
        Ok(()) => Ok(()),
        Err(failure) => Err(of_store(host.alloc(), failure, store)),
    }
}

/// The same failure of a store, with its file and why.
fn of_store(alloc: Global, failure: Failure, store: &str) -> Failure {
    if is_of_store(failure.fault) {
        failure.explained().of(alloc, store)
    } else {
        failure
    }
}

fn migrate_store<H: Stores>(host: &mut H, store: &str, timeout: u16) -> Result<(), Failure> {
    match host.migrate(store, timeout) {
        Ok(done) => {
            let text = format!(in host.alloc(); "{done}\n")?;
            print(host, text.as_str())
        }
        Err(failure) => Err(of_store(host.alloc(), failure, store)),
    }
}

fn carry_out<H: Stores>(host: &mut H, job: &Job) -> Result<u8, Failure> {
    match job {
        Job::Replay => return replay_input(host),
        Job::Plan { site, list } => plan_file(host, site.as_str(), list.as_str())?,
        Job::Discover {
            site,
            timeout,
            device,
        } => discover_device(host, site.as_str(), *timeout, device.as_str())?,
        Job::Sim { image, port: None } => simulate_lines(host, image.as_str())?,
        Job::Sim {
            image,
            port: Some(port),
        } => simulate_port(host, image.as_str(), *port)?,
        Job::Migrate { store, timeout } => migrate_store(host, store.as_str(), *timeout)?,
        Job::Office {
            store,
            site,
            timeout,
            errand,
        } => work(host, store.as_str(), site.as_str(), *timeout, errand)?,
    }
    Ok(DONE)
}

/// Prints the help that words ask for which are no job.
fn help<H: Host>(host: &mut H, words: Vec<String>) -> Result<u8, Failure> {
    let Some(text) = help_of(host.alloc(), words)? else {
        return Err(Failure::new(
            Fault::Command,
            Why::Words("'office --help' says which words there are"),
        ));
    };
    print(host, text.as_str())?;
    Ok(DONE)
}

fn obey<H: Stores>(host: &mut H, words: Vec<String>) -> Result<u8, Failure> {
    let again = words.clone()?;
    match read_words(host.alloc(), words) {
        Ok(job) => carry_out(host, &job),
        Err(WordFault::Memory) => Err(Failure::from(Fault::Memory)),
        Err(WordFault::Words) => help(host, again),
    }
}

/// Tells on standard error what ended a command, and gives the program's status, which alone tells it where that can't
/// be written.
pub fn end_with<H: Host>(host: &mut H, failure: &Failure) -> u8 {
    let _ = host.complain(failure);
    failure.fault.status()
}

/// Does what the words after the program's name ask for, tells a fault on standard error, and gives the program's
/// status: 0 where it is done, and what `Fault::status` says of a fault, 2 for a script's line of another form.
pub fn run<H: Stores>(host: &mut H, words: Vec<String>) -> u8 {
    match obey(host, words) {
        Ok(status) => status,
        Err(failure) => end_with(host, &failure),
    }
}
