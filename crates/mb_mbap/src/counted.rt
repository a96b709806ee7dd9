//! Readers and writers that count their faults and ends.
ghost use Rattle.std.specs.Prelude.{◌≡◌, ◌+◌, ◌≤◌, ◌^◌, ◌<◌, length};
ghost use Rattle.std.specs.Io.{ReadsAtMost, WritesAtMost};
ghost use Rattle.std.specs.Io.KnownBytes.{Keeps, Appends, Consumes, ReadConsumes, WriteAppends};
ghost use Rattle.std.specs.Prelude.{OnOk};
ghost use Rattle.mb_mbap.specs.Counted.{inner_of, failures_of, ends_of, one_more, failures_after, ends_after};

use std::io::{self, Read, Write};

/// A reader or a writer that counts the calls which answered a fault, and the reads which met the
/// end. What it reads and writes is known through it as it is of the one inside.
#[derive(Drop)]
pub struct Counted<T> {
    inner: T,
    failures: u64,
    ends: u64,
}

impl<T> Counted<T> {
    /// Counts from 0.
    pub fn new(inner: T) -> Counted<T>
        ensures inner { inner_of result ≡ inner }
        ensures failures { failures_of result ≡ 0 }
        ensures ends { ends_of result ≡ 0 }
    {
        Counted {
            inner,
            failures: 0,
            ends: 0,
        }
    }

    /// The reader or writer inside.
    pub fn into_inner(self) -> T
        ensures { result ≡ inner_of self }
    {
        self.inner
    }

    /// How many calls answered a fault. At its greatest value it stays.
    pub fn failures(&self) -> u64
        ensures { result ≡ failures_of self.now }
    {
        self.failures
    }

    /// How many reads met the end: gave no byte for a room that isn't empty. At its greatest value
    /// it stays.
    pub fn ends(&self) -> u64
        ensures { result ≡ ends_of self.now }
    {
        self.ends
    }

    /// Passes on what a call answered, counted where it is a fault.
    fn pass<A>(&mut self, outcome: io::Result<A>) -> io::Result<A>
        ensures same { result ≡ outcome }
        ensures inner { inner_of self.new ≡ inner_of self.old }
        ensures failures { failures_of self.new ≡ failures_after (failures_of self.old) outcome }
        ensures ends { ends_of self.new ≡ ends_of self.old }
    {
        match outcome {
            Ok(value) => Ok(value),
            Err(e) => {
                self.failures = self.failures.saturating_add(1);
                Err(e)
            }
        }
    }
}

impl<R: Read> Read for Counted<R> {
    ghost remaining = { λ c. R.remaining (inner_of c) };

    fn read(&mut self, buf: &mut [u8]) -> io::Result<usize>
        ensures bound { ReadsAtMost result buf.new }
        ensures bytes { ReadConsumes (R.remaining (inner_of self.old)) (R.remaining (inner_of self.new)) result buf.new }
        ensures failures { failures_of self.new ≡ failures_after (failures_of self.old) result }
        ensures ends { ends_of self.new ≡ ends_after (ends_of self.old) result (length buf.old) }
    {
        match self.inner.read(buf) {
            Ok(n) => {
                if n == 0 && !buf.is_empty() {
                    self.ends = self.ends.saturating_add(1);
                }
                Ok(n)
            }
            Err(e) => {
                self.failures = self.failures.saturating_add(1);
                Err(e)
            }
        }
    }

    fn read_exact(&mut self, buf: &mut [u8]) -> io::Result<()>
        ensures bytes { OnOk result (Consumes (R.remaining (inner_of self.old)) (R.remaining (inner_of self.new)) buf.new) }
        ensures failures { failures_of self.new ≡ failures_after (failures_of self.old) result }
        ensures ends { ends_of self.new ≡ ends_of self.old }
    {
        let outcome = self.inner.read_exact(buf);
        self.pass(outcome)
    }
}

impl<W: Write> Write for Counted<W> {
    ghost contents = { λ c. W.contents (inner_of c) };

    fn write(&mut self, buf: &[u8]) -> io::Result<usize>
        ensures bound { WritesAtMost result buf.now }
        ensures bytes { WriteAppends (W.contents (inner_of self.old)) (W.contents (inner_of self.new)) result buf.now }
        ensures failures { failures_of self.new ≡ failures_after (failures_of self.old) result }
        ensures ends { ends_of self.new ≡ ends_of self.old }
    {
        let outcome = self.inner.write(buf);
        self.pass(outcome)
    }

    fn flush(&mut self) -> io::Result<()>
        ensures bytes { Keeps (W.contents (inner_of self.old)) (W.contents (inner_of self.new)) }
        ensures failures { failures_of self.new ≡ failures_after (failures_of self.old) result }
        ensures ends { ends_of self.new ≡ ends_of self.old }
    {
        let outcome = self.inner.flush();
        self.pass(outcome)
    }

    fn write_all(&mut self, buf: &[u8]) -> io::Result<()>
        ensures bytes { OnOk result (Appends (W.contents (inner_of self.old)) (W.contents (inner_of self.new)) buf.now) }
        ensures failures { failures_of self.new ≡ failures_after (failures_of self.old) result }
        ensures ends { ends_of self.new ≡ ends_of self.old }
    {
        let outcome = self.inner.write_all(buf);
        self.pass(outcome)
    }
}
