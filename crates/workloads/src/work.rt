//! How much of a job is done, and how its digest is printed.
use std::io;
use workload_plant::Digest;

#[derive(Clone, Copy)]
pub enum Size {
    /// As bench/run times it.
    Whole,
    /// A little.
    Small,
}

impl Size {
    /// So many, or as many as a little of it has.
    pub fn of(self, whole: u32, small: u32) -> u32 {
        match self {
            Size::Whole => whole,
            Size::Small => small,
        }
    }
}

/// What there is; a job ends where there is nothing.
pub fn granted<T>(answer: Option<T>) -> io::Result<T> {
    match answer {
        Some(answer) => Ok(answer),
        None => Err(io::Error::other("it was refused")),
    }
}

pub fn print_digest(rt: &impl Print, job: &str, digest: &Digest) -> io::Result<()> {
    let number = digest.number();
    println!(rt; "{job} {number}")
}
