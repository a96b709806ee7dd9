//! Frames that came and weren't looked at yet.
ghost use Rattle.std.specs.Prelude.{◌≡◌, [], IfSome, IfNone};
ghost use Rattle.line_source.specs.LineSources.{Answers, IsAnswer, IsOther, Tells};

use mb_mbap::Frame;
use mb_pdu::{Reply, Request, Span};
use std::alloc::Global;
use std::marker::Model;

/// The frames of a piece that weren't looked at yet. Contracts see the list of them.
#[derive(Debug, Drop)]
pub(crate) struct Waiting {
    frames: Vec<Frame>,
    /// How many of them were looked at.
    seen: usize,
}

impl Model for Waiting {
    ghost use Rattle.std.specs.Prelude.{List, ◌≤◌, length, drop};
    ghost use Rattle.mb_mbap.specs.declared.frame.Frame.{Frame};

    ghost Value = { List Frame };

    ghost view = { λ w. drop w.seen w.frames.items };

    ghost invariant = { λ w. w.seen ≤ length w.frames.items };
}

/// The reply that a frame brings, if it answers.
fn reply_in(query: &Frame, span: Span, frame: &Frame) -> Option<Reply>
    ensures answer { IfSome result (λ reply. IsAnswer query.now span reply frame.now) }
    ensures other { IfNone result (IsOther query.now span frame.now) }
{
    if frame.transaction != query.transaction || frame.unit_id != query.unit_id {
        return None;
    }
    match Reply::decode(&Request::ReadHolding(span), frame.unit.as_bytes()) {
        Ok(reply) => Some(reply),
        Err(_) => None,
    }
}

/// The place of the first frame that answers, and its reply.
fn first_reply(query: &Frame, span: Span, frames: &[Frame]) -> Option<(usize, Reply)>
    ensures { Answers query.now span result frames.now }
{
    for (place, frame) in frames.iter().enumerate() {
        if let Some(reply) = reply_in(query, span, frame) {
            return Some((place, reply));
        }
    }
    None
}

impl Waiting {
    /// No frame waits.
    pub(crate) fn none(alloc: Global) -> Waiting
        ensures { result ≡ [] }
    {
        Waiting {
            frames: Vec::new(alloc),
            seen: 0,
        }
    }

    /// These frames wait.
    pub(crate) fn new(frames: Vec<Frame>) -> Waiting
        ensures { result ≡ frames.items }
    {
        Waiting { frames, seen: 0 }
    }

    /// Looks at the frames up to the first that answers, and gives its reply; or at all of them, where none answers.
    pub(crate) fn take_reply(&mut self, query: &Frame, span: Span) -> Option<Reply>
        ensures { Tells query.now span result self.old self.new }
    {
        match first_reply(query, span, &self.frames[self.seen..]) {
            Some((place, reply)) => {
                self.seen += place + 1;
                Some(reply)
            }
            None => {
                self.seen = self.frames.len();
                None
            }
        }
    }
}
