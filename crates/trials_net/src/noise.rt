//! Frames that nothing asked for.
use std::io::{self, Read};

/// Frames of 256 bytes that answer nothing, without end.
#[derive(Clone, Copy)]
pub(crate) struct Noise;

impl Read for Noise {
    ghost use Rattle.std.specs.Prelude.{None};

    ghost remaining = { λ _. None };

    fn read(&mut self, buf: &mut [u8]) -> io::Result<usize> {
        let mut frame = [0u8; 256];
        frame[..8].copy_from_slice(&[0, 9, 0, 0, 0, 250, 17, 7]);
        let count = buf.len().min(256);
        buf[..count].copy_from_slice(&frame[..count]);
        Ok(count)
    }
}
