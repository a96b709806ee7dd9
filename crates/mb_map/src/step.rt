//! What becomes of the reply to one frame.
ghost use Rattle.std.specs.Prelude.{◌≡◌};
ghost use Rattle.mb_map.specs.Queue.{is_sound};

/// What becomes of the reply to one frame.
#[derive(Clone, Copy, Debug, PartialEq, Eq)]
pub enum Step {
    /// It leaves with its frame.
    Pass,
    /// It never leaves. The request is performed all the same.
    Drop,
    /// It leaves twice with its frame.
    Twice,
    /// It leaves so many frames later, 1 to 255, or with a rest before that.
    Hold(u8),
}

impl Step {
    /// Whether it doesn't hold a reply for 0 frames.
    pub(crate) fn is_sound(self) -> bool
        ensures { result ≡ is_sound self }
    {
        match self {
            Step::Hold(frames) => frames > 0,
            Step::Pass | Step::Drop | Step::Twice => true,
        }
    }
}
