//! What is done in an office, wherever its store is.
use crate::output::Output;
use crate::running::unknown;
use crate::{Failure, Fault, Host, Stay, Why, load, order, poll, void};
use mb_mbap::Counted;
use office_core::Office;
use office_report::write_report;
use office_words::Errand;
use point_list::Site;
use poll_book::{Caller, Keeper, Key};
use std::alloc::{AllocError, Global};

/// An errand, the list that it loads, if it loads one, and for how many seconds it waits at most: for the store, for a
/// connection, for each read and each write.
#[derive(Clone, Copy)]
pub struct Task<'a> {
    pub errand: &'a Errand,
    pub list: &'a [u8],
    pub timeout: u16,
}

fn load_list<H: Host, K: Keeper>(
    host: &mut H,
    office: &mut Office<K>,
    caller: &Caller,
    key: &Key,
    list: &[u8],
) -> Result<(), Failure> {
    let text = load(host.alloc(), office, caller, key, list)?;
    print(host, text.as_str())
}

/// Prints a text as it stands.
pub(crate) fn print<H: Host>(host: &mut H, text: &str) -> Result<(), Failure> {
    match host.print(text.as_bytes()) {
        Ok(()) => Ok(()),
        Err(_) => Err(Failure::new(Fault::File, Why::Words("standard output can't be written"))),
    }
}

/// The address of a line, if the site has it.
fn address_of(alloc: Global, site: &Site, line: &str) -> Result<Option<String>, AllocError> {
    for known in site.lines.as_slice() {
        if known.name.as_str() == line {
            let address = String::from_str(alloc, known.address.as_str())?;
            return Ok(Some(address));
        }
    }
    Ok(None)
}

fn poll_line<H: Host, K: Keeper>(
    host: &mut H,
    office: &mut Office<K>,
    slot: u32,
    timeout: u16,
    line: &str,
) -> Result<(), Failure> {
    let Some(address) = address_of(host.alloc(), office.site(), line)? else {
        return Err(unknown(host.alloc(), line, "the site has no line of this name"));
    };
    let (reader, writer) = host.connect(address.as_str(), timeout)?;
    match poll(host.alloc(), office, line, slot, reader, writer) {
        Ok(text) => print(host, text.as_str()),
        Err(failure) => Err(failure.of(host.alloc(), address.as_str())),
    }
}

fn order_setting<H: Host, K: Keeper>(
    host: &mut H,
    office: &mut Office<K>,
    caller: &Caller,
    key: &Key,
    point: &str,
    value: i128,
) -> Result<(), Failure> {
    let text = order(host.alloc(), office, caller, key, point, value)?;
    print(host, text.as_str())
}

fn void_slot<H: Host, K: Keeper>(
    host: &mut H,
    office: &mut Office<K>,
    caller: &Caller,
    key: &Key,
    point: &str,
    slot: u32,
) -> Result<(), Failure> {
    let text = void(host.alloc(), office, caller, key, point, slot)?;
    print(host, text.as_str())
}

fn report_point<H: Host, K: Keeper>(
    host: &mut H,
    office: &mut Office<K>,
    point: &str,
    from: u32,
    to: u32,
) -> Result<(), Failure> {
    if from > to {
        return Err(Failure::new(
            Fault::Command,
            Why::Words("the last slot lies before the first"),
        ));
    }
    let alloc = host.alloc();
    let mut writer = Counted::new(Output(host));
    if write_report(alloc, office, point, from, to, &mut writer)? {
        Ok(())
    } else {
        Err(unknown(alloc, point, "no point of this name is known"))
    }
}

/// Does a task in an office.
pub fn work_in<H: Host, K: Keeper>(
    host: &mut H,
    office: &mut Office<K>,
    task: &Task<'_>,
) -> Result<(), Failure> {
    match task.errand {
        Errand::Load { caller, key, .. } => load_list(host, office, caller, key, task.list),
        Errand::Poll { slot, line } => {
            poll_line(host, office, *slot, task.timeout, line.as_str())
        }
        Errand::Order {
            caller,
            key,
            point,
            value,
        } => order_setting(host, office, caller, key, point.as_str(), *value),
        Errand::Void {
            caller,
            key,
            point,
            slot,
        } => void_slot(host, office, caller, key, point.as_str(), *slot),
        Errand::Report { point, from, to } => {
            report_point(host, office, point.as_str(), *from, *to)
        }
        Errand::Serve { port, count } => host.serve(office, *port, *count, task.timeout),
        Errand::Run { every, bind, port } => {
            let stay = Stay {
                every: *every,
                timeout: task.timeout,
                bind: bind.as_str(),
                port: *port,
            };
            host.stay_up(office, &stay)
        }
    }
}
