//! Bytes that are one whole frame.
ghost use Rattle.std.specs.Prelude.{◌≡◌, ◌≤◌, length, IfErr, IfOk, Ok};
ghost use Rattle.std.specs.Result.{result_ok};
ghost use Rattle.mb_mbap.specs.declared.frame.Frame.{Frame as AFrame};
ghost use Rattle.mb_mbap.specs.Stream.{IsFrame, spelled};
ghost use Rattle.mb_mbap.specs.Whole.{IsNoFrame, frame_of};

use crate::fault::FrameFault;
use crate::frame::Frame;
use crate::judging::{Step, step_of};

/// The frame that bytes are, or why they are none.
fn whole(bytes: &[u8]) -> Result<Frame, FrameFault>
    ensures frame { IfOk result (λ f. IsFrame f × (spelled f ≡ bytes.now)) }
    ensures fault { IfErr result (λ fault. IsNoFrame bytes.now fault) }
{
    match step_of(bytes) {
        Step::More => Err(FrameFault::Short),
        Step::Bad(fault) => Err(fault),
        Step::Whole(frame) => {
            if bytes.len() > 7 + frame.unit.as_bytes().len() {
                return Err(FrameFault::Long);
            }
            Ok(frame)
        }
    }
}

impl Frame {
    /// The frame that these bytes are, no less and no more: the inverse of `encode` (Modbus
    /// Messaging on TCP/IP, section 3.1.3). It takes no memory.
    ///
    /// `Short` comes where the bytes are a part of a frame, `Long` where more bytes follow one,
    /// and `NotModbus` and `BadLength` for their header.
    pub fn decode(bytes: &[u8]) -> Result<Frame, FrameFault>
        ensures frame { IfOk result (λ f. IsFrame f × (spelled f ≡ bytes.now)) }
        ensures inverse { (f : AFrame) → IsFrame f → spelled f ≡ bytes.now → result ≡ Ok f }
        ensures fault { IfErr result (λ fault. IsNoFrame bytes.now fault) }
        // The same, computed.
        ensures value { result_ok result ≡ frame_of bytes.now }
    {
        whole(bytes)
    }
}
