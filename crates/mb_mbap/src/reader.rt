//! The reader of frames, fed in pieces.
ghost use Rattle.std.specs.Prelude.{◌≡◌, ℕ, [], ◌++◌, List, None, Some, IfOk, OnErr};
ghost use Rattle.mb_mbap.specs.declared.frame.Frame.{Frame};
ghost use Rattle.mb_mbap.specs.Stream.{Splits, IsOpen, fault_of};
ghost use Rattle.mb_mbap.specs.Feeding.{FeedMeans, StandsFor, Adds};

use crate::fault::FrameFault;
use crate::frame::Frame;
use crate::held::Held;
use crate::judging::Step;
use std::alloc::{AllocError, Global};
use std::marker::Model;

/// What a piece completes: its whole frames up to the first bad header, and the fault there.
#[derive(Debug, Drop)]
pub struct Fed {
    /// The frames, in the order of the stream.
    pub frames: Vec<Frame>,
    /// Why no frame can follow, where one can't.
    pub fault: Option<FrameFault>,
}

/// A reader of frames. Contracts see it as the bytes that it holds, fewer than a frame, or as
/// none after a bad header.
#[derive(Drop)]
pub struct FrameReader {
    alloc: Global,
    rest: [u8; 259],
    len: usize,
    failed: bool,
}

impl Model for FrameReader {
    ghost use Rattle.std.specs.Prelude.{List, ℕ, Option};

    ghost Value = { Option (List ℕ) };

    ghost use Rattle.mb_mbap.specs.Places.{held_by, IsReader};

    ghost view = { held_by };

    ghost invariant = { IsReader };
}

impl FrameReader {
    /// A reader at the start of a stream. It takes no memory.
    #[tactic(auto, using(crate::proofs::Rests::open_empty))]
    pub fn new(alloc: Global) -> FrameReader
        ensures { result ≡ Some [] }
    {
        FrameReader {
            alloc,
            rest: [0; 259],
            len: 0,
            failed: false,
        }
    }

    /// Takes the next piece of the stream, of any length. Memory is taken for the list of
    /// frames alone; where it is refused nothing has changed, and the piece may be fed again.
    pub fn feed(&mut self, piece: &[u8]) -> Result<Fed, AllocError>
        // Of every stream that was fed so far: the frames given so far and these are its frames.
        ensures stream { IfOk result (λ fed. (stream : List ℕ) (before : List Frame) → StandsFor self.old stream before
            → Adds self.old stream before piece.now fed.frames.items fed.fault self.new) }
        // Of the bytes held alone, for a caller that keeps no stream.
        ensures ok { IfOk result (λ fed. FeedMeans self.old piece.now fed.frames.items fed.fault self.new) }
        ensures err { OnErr result (self.new ≡ self.old) }
    {
        let fed = self.take_piece(piece)?;
        Ok(fed)
    }

    fn take_piece(&mut self, piece: &[u8]) -> Result<Fed, AllocError>
        ensures ok { IfOk result (λ fed. FeedMeans self.old piece.now fed.frames.items fed.fault self.new) }
        ensures err { OnErr result (self.new ≡ self.old) }
    {
        let mut frames = Vec::new(self.alloc);
        if self.failed {
            return Ok(Fed {
                frames,
                fault: Some(FrameFault::Failed),
            });
        }
        let mut held = Held::from_bytes(&self.rest[..self.len]);
        let fault = take_frames(&mut held, piece, &mut frames)?;
        if fault.is_some() {
            self.failed = true;
        } else {
            let kept = held.as_bytes();
            let len = kept.len();
            self.rest[..len].copy_from_slice(kept);
            self.len = len;
        }
        Ok(Fed { frames, fault })
    }
}

/// Takes the frames that the piece completes out of the bytes held and the piece.
pub(crate) fn take_frames(
    held: &mut Held,
    piece: &[u8],
    frames: &mut Vec<Frame>,
) -> Result<Option<FrameFault>, AllocError>
    requires none { frames.old.items ≡ [] }
    requires open { IsOpen held.old }
    ensures { IfOk result (λ fault. (rest : List ℕ) × Splits (held.old ++ piece.now) frames.new.items rest
        × (fault ≡ fault_of rest) × (fault ≡ None → rest ≡ held.new)) }
{
    let mut at = 0;
    while at < piece.len() {
        let (taken, step) = held.take(&piece[at..]);
        at += taken;
        match step {
            Step::More => {}
            Step::Whole(frame) => frames.push(frame)?,
            Step::Bad(fault) => return Ok(Some(fault)),
        }
    }
    Ok(None)
}
