//! Plays the cases of the program `office` that are written as data: pages whose blocks are consoles, requests over
//! HTTP, and rows. The program's own library does what the words say, over files that the pages have, stores in
//! memory or in files, and devices that are played in the same process.
#![tactic(auto)]

mod console;
mod curl;
mod cut;
mod databases;
mod disks;
mod excerpts;
mod exchanges;
mod inputs;
mod page;
mod peers;
mod requests;
mod shell;
mod sources;
mod wire;
mod words;
mod world;

use crate::page::Pages;
use case_pages::play_pages;
use std::io;
use std::process::ExitCode;

fn main(rt: HostRuntime) -> io::Result<ExitCode> {
    let mut pages = Pages { rt: &rt };
    match play_pages(&rt, &mut pages) {
        Ok(status) => Ok(status),
        Err(trouble) => {
            eprintln!(rt; "cases_office: {trouble}")?;
            Ok(ExitCode::FAILURE)
        }
    }
}
