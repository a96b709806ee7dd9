//! The events that lines ask for.
ghost use Rattle.std.specs.Prelude.{◌≡◌, IfOk, option_map};
ghost use Rattle.sunspec.specs.Digits.{number_within};
ghost use Rattle.office_script.specs.Words.{bytes_of, texts};
ghost use Rattle.office_script.specs.Commands as commands;
ghost use Rattle.office_script.specs.Commands.{ask_of, byte_limit, caller_name, event_for, event_of, event_of_words, frame_in, line_key, list_with, open_of, order_of, point_of, read_of, reply_of, restart_of, send_of, verb_of, void_of, word_limit};

use crate::cutting::words;
use crate::hexadecimal::bytes;
use crate::word::{is_text, key, number, text, value};
use mb_mbap::Frame;
use mb_pdu::Span;
use office_core::Event;
use point_list::{Items, is_ascii};
use poll_book::{Caller, Key};
use poll_match::Conn;
use read_planner::Read;
use std::alloc::{AllocError, Global};

/// The header of a point list, with the end of its line.
const HEADER: &[u8] = b"name,device,table,address,type,length,scale,role,roll\n";

/// The list of the header and one record.
fn list_with(alloc: Global, fields: &[u8]) -> Result<Items<u8>, AllocError>
    ensures { IfOk result (λ list. list ≡ list_with fields.now) }
{
    let mut list = Vec::from_slice(alloc, HEADER)?;
    list.extend_from_slice(fields)?;
    Ok(Items::from_vec(list))
}

/// Who asks for what a script asks for.
fn caller() -> Caller
    ensures { result ≡ caller_name }
{
    match Caller::new("replay") {
        Some(caller) => caller,
        None => unreachable!(),
    }
}

/// The key of the list on the line of a number.
fn line_key(alloc: Global, number: u32) -> Result<Key, AllocError>
    ensures { IfOk result (λ key. key ≡ line_key number) }
{
    let text = format!(in alloc; "p{number}")?;
    match Key::new(text.as_str()) {
        Some(key) => Ok(key),
        None => unreachable!(),
    }
}

/// `point RECORD`, by what follows the space, on the line of a number.
fn point(alloc: Global, fields: &[u8], number: u32) -> Result<Option<Event>, AllocError>
    ensures { IfOk result (λ event. event ≡ point_of number fields.now) }
{
    if !is_ascii(fields) {
        return Ok(None);
    }
    let key = line_key(alloc, number)?;
    let list = list_with(alloc, fields)?;
    Ok(Some(Event::Load(caller(), key, list)))
}

/// The event that orders, where each part could be read.
fn ordering(
    alloc: Global,
    key: Option<Key>,
    point: &[u8],
    value: Option<i128>,
) -> Result<Option<Event>, AllocError>
    ensures { IfOk result (λ event. event ≡ commands.ordering key point.now value) }
{
    let Some(key) = key else {
        return Ok(None);
    };
    let Some(value) = value else {
        return Ok(None);
    };
    if !is_text(point) {
        return Ok(None);
    }
    let point = text(alloc, point)?;
    Ok(Some(Event::Order(caller(), key, point, value)))
}

/// `order KEY POINT VALUE`.
fn order(alloc: Global, words: &[&[u8]]) -> Result<Option<Event>, AllocError>
    ensures { IfOk result (λ event. event ≡ order_of (texts words.now)) }
{
    if words.len() != 3 {
        return Ok(None);
    }
    ordering(alloc, key(words[0]), words[1], value(words[2]))
}

/// The event that voids a slot, where each part could be read.
fn voiding(
    alloc: Global,
    key: Option<Key>,
    point: &[u8],
    slot: Option<u32>,
) -> Result<Option<Event>, AllocError>
    ensures { IfOk result (λ event. event ≡ commands.voiding key point.now slot) }
{
    let Some(key) = key else {
        return Ok(None);
    };
    let Some(slot) = slot else {
        return Ok(None);
    };
    if !is_text(point) {
        return Ok(None);
    }
    let point = text(alloc, point)?;
    Ok(Some(Event::Void(caller(), key, point, slot)))
}

/// `void KEY POINT SLOT`.
fn void(alloc: Global, words: &[&[u8]]) -> Result<Option<Event>, AllocError>
    ensures { IfOk result (λ event. event ≡ void_of (texts words.now)) }
{
    if words.len() != 3 {
        return Ok(None);
    }
    voiding(alloc, key(words[0]), words[1], number(words[2], u32::MAX))
}

/// `open LINE`.
fn open(alloc: Global, words: &[&[u8]]) -> Result<Option<Event>, AllocError>
    ensures { IfOk result (λ event. event ≡ open_of (texts words.now)) }
{
    if words.len() != 1 {
        return Ok(None);
    }
    if !is_text(words[0]) {
        return Ok(None);
    }
    Ok(Some(Event::Open(text(alloc, words[0])?)))
}

/// The read that three words are: function, start and quantity.
fn read(function: &[u8], start: &[u8], quantity: &[u8]) -> Option<Read>
    ensures { result ≡ read_of (number_within byte_limit function.now) (number_within word_limit start.now) (number_within word_limit quantity.now) }
{
    let function = number(function, 255)? as u8;
    let start = number(start, 65535)? as u16;
    let quantity = number(quantity, 65535)? as u16;
    Some(Read {
        function,
        span: Span { start, quantity },
    })
}

/// The event that asks a device, where each part could be read.
fn asking(
    alloc: Global,
    conn: Option<u32>,
    device: &[u8],
    slot: Option<u32>,
    read: Option<Read>,
) -> Result<Option<Event>, AllocError>
    ensures { IfOk result (λ event. event ≡ commands.asking conn device.now slot read) }
{
    let Some(conn) = conn else {
        return Ok(None);
    };
    let Some(slot) = slot else {
        return Ok(None);
    };
    let Some(read) = read else {
        return Ok(None);
    };
    if !is_text(device) {
        return Ok(None);
    }
    let device = text(alloc, device)?;
    Ok(Some(Event::Ask(Conn::new(conn), device, slot, read)))
}

/// `ask CONNECTION DEVICE SLOT FUNCTION START QUANTITY`.
fn ask(alloc: Global, words: &[&[u8]]) -> Result<Option<Event>, AllocError>
    ensures { IfOk result (λ event. event ≡ ask_of (texts words.now)) }
{
    if words.len() != 6 {
        return Ok(None);
    }
    let conn = number(words[0], u32::MAX);
    let slot = number(words[2], u32::MAX);
    let read = read(words[3], words[4], words[5]);
    asking(alloc, conn, words[1], slot, read)
}

/// `send CONNECTION ORDER`.
fn send(words: &[&[u8]]) -> Option<Event>
    ensures { result ≡ send_of (texts words.now) }
{
    if words.len() != 2 {
        return None;
    }
    let conn = number(words[0], u32::MAX)?;
    let order = number(words[1], u32::MAX)?;
    Some(Event::Send(Conn::new(conn), order))
}

/// The frame that words spell, byte by byte.
fn frame(alloc: Global, words: &[&[u8]]) -> Result<Option<Frame>, AllocError>
    ensures { IfOk result (λ frame. frame ≡ frame_in (bytes_of (texts words.now))) }
{
    match bytes(alloc, words)? {
        Some(bytes) => Ok(Frame::decode(&bytes).ok()),
        None => Ok(None),
    }
}

/// `reply CONNECTION` and the bytes of one whole frame.
fn reply(alloc: Global, words: &[&[u8]]) -> Result<Option<Event>, AllocError>
    ensures { IfOk result (λ event. event ≡ reply_of (texts words.now)) }
{
    let Some((conn, bytes)) = words.split_first() else {
        return Ok(None);
    };
    let Some(conn) = number(conn, u32::MAX) else {
        return Ok(None);
    };
    match frame(alloc, bytes)? {
        Some(frame) => Ok(Some(Event::Arrive(Conn::new(conn), frame))),
        None => Ok(None),
    }
}

/// `restart`, alone.
fn restart(words: &[&[u8]]) -> Option<Event>
    ensures { result ≡ restart_of (texts words.now) }
{
    if words.is_empty() {
        Some(Event::Restart)
    } else {
        None
    }
}

/// What a line asks for by words.
#[derive(Clone, Copy)]
enum Verb {
    Open,
    Ask,
    Reply,
    Order,
    Void,
    Send,
    Restart,
}

fn verb_named(name: &[u8]) -> Option<Verb>
    ensures { result ≡ verb_of name.now }
{
    if name == b"open".as_slice() {
        Some(Verb::Open)
    } else if name == b"ask".as_slice() {
        Some(Verb::Ask)
    } else if name == b"reply".as_slice() {
        Some(Verb::Reply)
    } else if name == b"order".as_slice() {
        Some(Verb::Order)
    } else if name == b"void".as_slice() {
        Some(Verb::Void)
    } else if name == b"send".as_slice() {
        Some(Verb::Send)
    } else if name == b"restart".as_slice() {
        Some(Verb::Restart)
    } else {
        None
    }
}

/// The event that a verb and the words behind it ask for.
fn event_for(alloc: Global, verb: Verb, words: &[&[u8]]) -> Result<Option<Event>, AllocError>
    ensures { IfOk result (λ event. event ≡ event_for verb (texts words.now)) }
{
    match verb {
        Verb::Open => open(alloc, words),
        Verb::Ask => ask(alloc, words),
        Verb::Reply => reply(alloc, words),
        Verb::Order => order(alloc, words),
        Verb::Void => void(alloc, words),
        Verb::Send => Ok(send(words)),
        Verb::Restart => Ok(restart(words)),
    }
}

/// The event that words ask for, of which the first names it.
fn event_of_words(alloc: Global, words: &[&[u8]]) -> Result<Option<Event>, AllocError>
    ensures { IfOk result (λ event. event ≡ event_of_words (texts words.now)) }
{
    let Some((name, rest)) = words.split_first() else {
        return Ok(None);
    };
    match verb_named(name) {
        Some(verb) => event_for(alloc, verb, rest),
        None => Ok(None),
    }
}

/// The record of a line `point RECORD`.
fn record_in<'a>(line: &'a [u8]) -> Option<&'a [u8]>
    ensures { option_map (λ r. r.now) result ≡ commands.record_in line.now }
{
    if line.len() >= 6 && &line[..6] == b"point ".as_slice() {
        Some(&line[6..])
    } else {
        None
    }
}

/// The event that the line of a number asks for.
pub(crate) fn event(alloc: Global, line: &[u8], number: u32) -> Result<Option<Event>, AllocError>
    ensures { IfOk result (λ event. event ≡ event_of number line.now) }
{
    if let Some(fields) = record_in(line) {
        return point(alloc, fields, number);
    }
    let words = words(alloc, line)?;
    event_of_words(alloc, &words)
}
