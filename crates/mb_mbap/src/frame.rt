//! A unit with its MBAP header, and its bytes.
ghost use Rattle.std.specs.Prelude.{◌≡◌, ◌≤◌, length};
ghost use Rattle.mb_mbap.specs.Stream.{spelled};

use byteorder::{BigEndian, ByteOrder};
use mb_pdu::Unit;
use std::fmt;
use std::marker::Model;

/// A unit with what the MBAP header says of it.
#[derive(Clone, Debug, PartialEq, Eq, Drop)]
pub struct Frame {
    /// The transaction identifier, which a server copies into its reply.
    pub transaction: u16,
    /// The unit identifier: the device behind the connection.
    pub unit_id: u8,
    /// The request or the reply.
    pub unit: Unit,
}

/// The 8 to 260 bytes of a frame.
#[derive(Drop)]
pub struct FrameBytes {
    bytes: [u8; 260],
    len: usize,
}

impl Model for FrameBytes {
    ghost use Rattle.std.specs.Prelude.{ℕ, ◌≤◌, List, take};

    ghost Value = { List ℕ };

    ghost view = { λ b. take b.len b.bytes };

    ghost invariant = { λ b. (8 ≤ b.len) × (b.len ≤ 260) };
}

impl FrameBytes {
    /// The bytes, header first.
    pub fn as_bytes(&self) -> &[u8]
        ensures value { result.now ≡ self.now }
        ensures least { 8 ≤ length self.now }
        ensures most { length self.now ≤ 260 }
    {
        &self.bytes[..self.len]
    }
}

impl fmt::Debug for FrameBytes {
    fn fmt<W: fmt::Write>(&self, f: &mut fmt::Formatter<W>) -> fmt::Result {
        fmt::Debug::fmt(&self.as_bytes(), f)
    }
}

impl Frame {
    /// The spelling of the frame: transaction identifier, protocol identifier 0, the length of
    /// what follows, unit identifier, unit (Modbus Messaging on TCP/IP, section 3.1.3).
    /// It takes no memory.
    pub fn encode(&self) -> FrameBytes
        ensures { result ≡ spelled self.now }
    {
        let unit = self.unit.as_bytes();
        let len = 7 + unit.len();
        let mut bytes = [0; 260];
        BigEndian::write_u16(&mut bytes, self.transaction);
        BigEndian::write_u16(&mut bytes[4..], unit.len() as u16 + 1);
        bytes[6] = self.unit_id;
        bytes[7..len].copy_from_slice(unit);
        FrameBytes { bytes, len }
    }
}
