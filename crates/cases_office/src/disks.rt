//! The disk of the stores that a console makes, as words behind `console` say: `room N`, `fails`, or `files`.
use case_pages::Trouble;
use office_plays::refusing::Refusing;
use poll_book::StoreFault;
use std::alloc::Global;

#[derive(Clone, Copy)]
pub(crate) enum Disk {
    Sound,
    /// It has room for so many changes of a store, and then it is full.
    Room(u32),
    /// Each call of a store fails.
    Failing,
    /// It is sound, and a store on it is a database.
    Files,
}

impl Disk {
    pub(crate) fn of(words: &str) -> Result<Disk, Trouble> {
        let room = words.strip_prefix(" room ");
        match room.and_then(|count| count.parse::<u32>().ok()) {
            Some(count) => Ok(Disk::Room(count)),
            None if words.is_empty() => Ok(Disk::Sound),
            None if words == " fails" => Ok(Disk::Failing),
            None if words == " files" => Ok(Disk::Files),
            None => Err(Trouble::Page("no disk of this kind")),
        }
    }

    /// The keeper of a new store, of which the call of a number is refused where the disk is sound.
    pub(crate) fn keeper(self, alloc: Global, refused: u32) -> Refusing {
        match self {
            Disk::Sound | Disk::Files => Refusing::new(alloc, refused, StoreFault::Disk),
            Disk::Room(count) => Refusing::changes(alloc, count, u32::MAX, StoreFault::Full),
            Disk::Failing => Refusing::from(alloc, 0, StoreFault::Disk),
        }
    }
}
