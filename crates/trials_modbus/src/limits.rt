//! Requests, replies and their parts made by calls, at their limits and one past them.
use mb_pdu::{Bits, Registers, Reply, Request, Span, Unit, UnitError, laws};
use std::test::Fail;
use telling::Trial;

fn read_of(function: u8, quantity: u16) -> Request {
    let span = Span {
        start: 0xFFFF,
        quantity,
    };
    match function {
        1 => Request::ReadCoils(span),
        2 => Request::ReadDiscrete(span),
        3 => Request::ReadHolding(span),
        _ => Request::ReadInput(span),
    }
}

// The calls of requests and replies stand in functions without clauses: a test needs none of their promises, and
// each would be a fact in each of its goals.

fn is_valid(request: &Request) -> bool {
    request.is_valid()
}

fn fits(reply: &Reply, request: &Request) -> bool {
    reply.fits(request)
}

fn reply_of(request: &Request, bytes: &[u8]) -> Result<Reply, UnitError> {
    Reply::decode(request, bytes)
}

/// The quantities are within their limits or not, also where no bytes spell the request.
fn quantities(trial: &Trial<'_>) {
    for (function, limit) in [(1u8, 2000u16), (2, 2000), (3, 125), (4, 125)] {
        for (quantity, expected) in [
            (0, false),
            (1, true),
            (limit, true),
            (limit.saturating_add(1), false),
            (65535, false),
        ] {
            let told = is_valid(&read_of(function, quantity));
            trial.told(&(function, quantity), &told, &expected);
        }
    }
}

/// A reply has as many registers as a valid request asked for; an exception fits each, and an echo no read.
fn fitting(trial: &Trial<'_>) {
    let Some(words) = Registers::from_slice(&[0; 125]) else {
        return trial.told(&"words", &None, &Some(125));
    };
    let reply = Reply::Registers(words);
    for (quantity, expected) in [(124, false), (125, true), (126, false)] {
        let request = read_of(4, quantity);
        let told = [&reply, &Reply::Excepted(6), &Reply::Written].map(|it| fits(it, &request));
        trial.told(&quantity, &told, &[expected, true, false]);
    }
}

/// A request past its limit has no normal reply, however many registers come.
fn too_many(trial: &Trial<'_>) {
    let mut bytes = [0; 252];
    bytes[0] = 4;
    bytes[1] = 250;
    let told = reply_of(&read_of(4, 126), &bytes);
    trial.told(&126, &told, &Err(UnitError::WrongReply));
}

fn holds_bytes(bytes: &[u8]) -> Option<bool> {
    Some(Unit::from_bytes(bytes)?.as_bytes() == bytes)
}

fn holds_words(words: &[u16]) -> Option<bool> {
    Some(Registers::from_slice(words)?.as_slice() == words)
}

fn holds_bits(bits: &[bool]) -> Option<bool> {
    Some(Bits::from_slice(bits)?.as_slice() == bits)
}

/// Whether units, registers and bits hold what they are made of, where there are such.
fn parts(trial: &Trial<'_>) {
    let (bytes, words, bits) = ([7; 254], [7; 126], [true; 2001]);
    for (length, told, expected) in [
        (0, holds_bytes(&[]), None),
        (1, holds_bytes(&bytes[..1]), Some(true)),
        (253, holds_bytes(&bytes[..253]), Some(true)),
        (254, holds_bytes(&bytes), None),
        (0, holds_words(&[]), None),
        (1, holds_words(&words[..1]), Some(true)),
        (125, holds_words(&words[..125]), Some(true)),
        (126, holds_words(&words), None),
        (0, holds_bits(&[]), None),
        (1, holds_bits(&bits[..1]), Some(true)),
        (2000, holds_bits(&bits[..2000]), Some(true)),
        (2001, holds_bits(&bits), None),
    ] {
        trial.told(&length, &told, &expected);
    }
}

#[test]
fn values_at_their_limits(rt: HostRuntime) -> Result<(), Fail> {
    let trial = Trial::new(&rt);
    quantities(&trial);
    fitting(&trial);
    too_many(&trial);
    parts(&trial);
    Ok(trial.ended::<UnitError>(Ok(()))?)
}

#[test]
fn laws_are_called(_rt: HostRuntime) {
    laws::one_value();
    laws::one_spelling();
    laws::answers_tells();
}
