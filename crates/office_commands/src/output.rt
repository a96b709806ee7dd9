//! A host's standard output as a writer.
use crate::Host;
use std::io::{self, Write};

#[derive(Drop)]
pub(crate) struct Output<'a, H: Host>(pub(crate) &'a mut H);

impl<H: Host> Write for Output<'_, H> {
    fn write(&mut self, buf: &[u8]) -> io::Result<usize> {
        self.0.print(buf)?;
        Ok(buf.len())
    }

    fn flush(&mut self) -> io::Result<()> {
        Ok(())
    }
}
