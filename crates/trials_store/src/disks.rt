//! A file that fails: it grows no longer than so many bytes, and one of its calls fails.
ghost use Rattle.std.specs.Prelude.{◌≡◌, ◌+◌, ◌&&◌, not, false};
ghost use Rattle.sqlite_disk.specs.Disk.{CountsFault};
ghost use Rattle.sqlite_disk.specs.Refusal.{finds_no_room};
ghost use Rattle.sqlite_disk.specs.Tally.{both_counts};

use sqlite_disk::{Disk, Tally};
use std::io;

/// One of the two files of a database.
#[derive(Clone, Copy, Debug)]
pub(crate) enum Which {
    Log,
    Db,
}

impl Which {
    /// What holds of the log and of the database file, where one thing holds of this file.
    pub(crate) fn both<T: Copy>(self, it: T, other: T) -> (T, T) {
        match self {
            Which::Log => (it, other),
            Which::Db => (other, it),
        }
    }
}

/// Refuses what would lie past its room, fails the call of a number, counted from 0, and does all else
/// as the file inside.
#[derive(Drop)]
pub(crate) struct Failing<D: Disk> {
    inner: D,
    room: usize,
    refused: u64,
    failing: u64,
    calls: u64,
    failed: u64,
    sync_failed: bool,
}

impl<D: Disk> Failing<D> {
    pub(crate) fn new(inner: D, room: usize, failing: u64) -> Failing<D>
        ensures inner { result.inner ≡ inner }
        ensures usable { result.sync_failed ≡ false }
    {
        Failing {
            inner,
            room,
            refused: 0,
            failing,
            calls: 0,
            failed: 0,
            sync_failed: false,
        }
    }

    /// How many of its calls came.
    pub(crate) fn calls(&self) -> u64 {
        self.calls
    }

    /// Whether its call of that number came, and failed.
    pub(crate) fn has_failed(&self) -> bool {
        self.failed > 0
    }
}

/// Counts a call, and fails that of this number.
fn count(calls: &mut u64, failing: u64, failed: &mut u64) -> io::Result<()>
    ensures faults { CountsFault result failed.old failed.new }
    ensures kind { finds_no_room result ≡ false }
{
    let call = *calls;
    *calls = call.saturating_add(1);
    if call == failing {
        *failed = failed.saturating_add(1);
        return Err(io::Error::other("this call fails"));
    }
    Ok(())
}

impl<D: Disk> Disk for Failing<D> {
    ghost seen = { λ f. D.Disk.seen f.inner };

    ghost may_leave = { λ f. D.Disk.may_leave f.inner };

    ghost is_usable = { λ f. D.Disk.is_usable f.inner && not f.sync_failed };

    ghost faults = { λ f. D.Disk.faults f.inner + f.refused + f.failed };

    ghost tally_of = { λ f. both_counts (D.Disk.tally_of f.inner) (record { caught = 0; refused = f.refused }) };

    ghost is_clean = { λ f. D.Disk.is_clean f.inner };

    ghost key_of = { λ f. D.Disk.key_of f.inner };

    ghost is_fair = { λ f. D.Disk.is_fair f.inner };

    ghost fair_if_clean = { λ f. D.Disk.fair_if_clean f.inner };

    ghost seen_may_stay = { λ f. D.Disk.seen_may_stay f.inner };

    fn mixes(&self) -> bool {
        false
    }

    fn key(&self) -> u64 {
        self.inner.key()
    }

    fn tally(&self) -> Tally {
        self.inner.tally().plus(Tally {
            caught: 0,
            refused: self.refused,
        })
    }

    fn may_be_used(&self) -> bool {
        self.inner.may_be_used() && !self.sync_failed
    }

    fn len(&mut self) -> io::Result<usize> {
        count(&mut self.calls, self.failing, &mut self.failed)?;
        self.inner.len()
    }

    fn read_at(&mut self, at: usize, buf: &mut [u8]) -> io::Result<()> {
        count(&mut self.calls, self.failing, &mut self.failed)?;
        self.inner.read_at(at, buf)
    }

    fn read_checked(&mut self, key: u64, want: u64, at: usize, buf: &mut [u8]) -> io::Result<()> {
        count(&mut self.calls, self.failing, &mut self.failed)?;
        self.inner.read_checked(key, want, at, buf)
    }

    fn write_at(&mut self, at: usize, bytes: &[u8]) -> io::Result<()> {
        count(&mut self.calls, self.failing, &mut self.failed)?;
        if at > self.room || bytes.len() > self.room - at {
            self.refused = self.refused.saturating_add(1);
            return Err(io::ErrorKind::StorageFull.into());
        }
        self.inner.write_at(at, bytes)
    }

    fn set_len(&mut self, len: usize) -> io::Result<()> {
        count(&mut self.calls, self.failing, &mut self.failed)?;
        self.inner.set_len(len)
    }

    fn sync(&mut self) -> io::Result<()> {
        if let Err(error) = count(&mut self.calls, self.failing, &mut self.failed) {
            self.sync_failed = true;
            return Err(error);
        }
        self.inner.sync()
    }
}
