//! Replies without bits, read where they stand: a `Reply` has room for 2,000 bits, and is moved whole.
ghost use Rattle.std.specs.Prelude.{◌≡◌, ◌≤◌, IfErr, IfOk, IfSome, Some, None, false, is_some, true};
ghost use Rattle.mb_pdu.specs.Replies.{answers, answers_normal, function_of, normal_of, spells_reply};
ghost use Rattle.mb_pdu.specs.declared.reply.Normal.TheVariants.{Echo};
ghost use Rattle.poll_match.specs.Briefs as brief;
ghost use Rattle.poll_match.specs.Queries.{is_valid, request_of, write_request};
ghost use Rattle.poll_match.specs.Window.{query_refusal};

use crate::asked::{Asked, Matched, Payload};
use crate::error::MatchError;
use mb_mbap::Frame;
use mb_pdu::{Registers, Reply, Unit, exception_in, pair_unit, words_in};

/// A reply without bits, an eighth of the size of a `Reply`.
#[derive(Debug, Drop)]
pub enum BriefReply {
    /// The registers that 03 or 04 read.
    Registers(Registers),
    /// What 05, 06 and 16 answer.
    Written,
    /// An exception with its code.
    Excepted(u8),
}

/// The query that a frame answers, and the reply without bits that it brings.
#[derive(Debug, Drop)]
pub struct FoundBrief {
    /// Its number among the queries of its connection, from 0.
    pub number: u32,
    pub asked: Asked,
    pub reply: BriefReply,
}

impl BriefReply {
    /// The same as a `Reply`.
    pub fn into_reply(self) -> Reply
        ensures { result ≡ brief.whole self }
    {
        match self {
            BriefReply::Registers(words) => Reply::Registers(words),
            BriefReply::Written => Reply::Written,
            BriefReply::Excepted(code) => Reply::Excepted(code),
        }
    }
}

impl Payload {
    /// The answer to its write: the write again by functions 05 and 06, its start and quantity by 16.
    fn echo(self, address: u16) -> Unit
        ensures { normal_of (write_request address self) ≡ Echo result }
    {
        match self {
            Payload::Coil(_) | Payload::One(_) => self.unit(address),
            Payload::Two(_) => pair_unit(16, address, 2),
            Payload::Four(_) => pair_unit(16, address, 4),
        }
    }
}

impl Asked {
    /// Whether coils or discrete inputs are read.
    pub(crate) fn reads_bits(&self) -> bool
        ensures { result ≡ brief.reads_bits self.now }
    {
        match self {
            Asked::Read { read, .. } => read.function == 1 || read.function == 2,
            Asked::Write { .. } => false,
        }
    }

    /// The function of its request.
    fn function(&self) -> u8
        requires { is_valid self.now ≡ true }
        ensures value { result ≡ function_of (request_of self.now) }
        ensures small { result ≤ 23 }
    {
        match self {
            Asked::Read { read, .. } => read.function,
            Asked::Write { payload, .. } => match payload {
                Payload::Coil(_) => 5,
                Payload::One(_) => 6,
                Payload::Two(_) | Payload::Four(_) => 16,
            },
        }
    }

    /// The normal reply without bits that the bytes spell.
    fn normal_in(&self, bytes: &[u8]) -> Option<BriefReply>
        requires valid { is_valid self.now ≡ true }
        requires no_bits { brief.reads_bits self.now ≡ false }
        ensures found { IfSome result (λ reply. spells_reply (request_of self.now) (brief.whole reply) bytes.now) }
        ensures test { is_some result ≡ answers_normal (function_of (request_of self.now)) (normal_of (request_of self.now)) bytes.now }
    {
        match self {
            Asked::Read { read, .. } => {
                match words_in(read.function, read.span.quantity, bytes) {
                    Some(words) => Some(BriefReply::Registers(words)),
                    None => None,
                }
            }
            Asked::Write {
                address,
                payload,
                ..
            } => {
                if bytes == payload.echo(*address).as_bytes() {
                    Some(BriefReply::Written)
                } else {
                    None
                }
            }
        }
    }

    /// The reply without bits that the bytes spell.
    fn reply_in(&self, bytes: &[u8]) -> Option<BriefReply>
        requires valid { is_valid self.now ≡ true }
        requires no_bits { brief.reads_bits self.now ≡ false }
        ensures found { IfSome result (λ reply. spells_reply (request_of self.now) (brief.whole reply) bytes.now) }
        ensures test { is_some result ≡ answers (request_of self.now) bytes.now }
    {
        match exception_in(self.function(), bytes) {
            Some(code) => Some(BriefReply::Excepted(code)),
            None => self.normal_in(bytes),
        }
    }
}

/// The reply without bits that a frame brings to a query, or the first refusal that holds.
pub(crate) fn brief_reply_to(query: &Matched, frame: &Frame) -> Result<BriefReply, MatchError>
    requires valid { is_valid query.now.asked ≡ true }
    requires no_bits { brief.reads_bits query.now.asked ≡ false }
    ensures refused { IfErr result (λ e. query_refusal query.now frame.now ≡ Some e) }
    ensures accepted { IfOk result (λ _. query_refusal query.now frame.now ≡ None) }
    ensures reply { IfOk result (λ reply. spells_reply (request_of query.now.asked) (brief.whole reply) frame.now.unit) }
{
    if frame.unit_id != query.asked.unit_id() {
        return Err(MatchError::WrongUnit);
    }
    if query.settled {
        return Err(MatchError::Repeat);
    }
    match query.asked.reply_in(frame.unit.as_bytes()) {
        Some(reply) => Ok(reply),
        None => Err(MatchError::WrongReply),
    }
}
