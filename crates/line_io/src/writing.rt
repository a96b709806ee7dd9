//! Bytes and frames that are written to a stream.
ghost use Rattle.std.specs.Prelude.{◌≡◌, IfErr, OnOk};
ghost use Rattle.std.specs.Io.KnownBytes.{Appends};
ghost use Rattle.mb_mbap.specs.Counted.{HasRisen, failures_of, inner_of};
ghost use Rattle.mb_mbap.specs.Stream.{spelled};

use mb_mbap::{Counted, Frame};
use std::io::Write;

/// Writes all of these bytes. Where it fails, a beginning of them may be written.
pub fn write<W: Write, E: Drop>(writer: &mut Counted<W>, bytes: &[u8], fault: E) -> Result<(), E>
    ensures written { OnOk result (Appends (W.contents (inner_of writer.old)) (W.contents (inner_of writer.new)) bytes.now) }
    ensures calm { OnOk result (failures_of writer.new ≡ failures_of writer.old) }
    ensures failed { IfErr result (λ e. (e ≡ fault) × HasRisen (failures_of writer.old) (failures_of writer.new)) }
{
    match writer.write_all(bytes) {
        Ok(()) => Ok(()),
        Err(_) => Err(fault),
    }
}

/// Writes a frame.
pub fn write_frame<W: Write, E: Drop>(
    writer: &mut Counted<W>,
    frame: &Frame,
    fault: E,
) -> Result<(), E>
    ensures written { OnOk result (Appends (W.contents (inner_of writer.old)) (W.contents (inner_of writer.new)) (spelled frame.now)) }
    ensures calm { OnOk result (failures_of writer.new ≡ failures_of writer.old) }
    ensures failed { IfErr result (λ e. (e ≡ fault) × HasRisen (failures_of writer.old) (failures_of writer.new)) }
{
    write(writer, frame.encode().as_bytes(), fault)
}
