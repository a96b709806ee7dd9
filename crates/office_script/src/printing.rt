//! Answers as lines of text.
ghost use Rattle.std.specs.Prelude.{◌≡◌, ◌++◌, OnOk, codes, decimal, flat_map};
ghost use Rattle.mb_mbap.specs.Stream.{spelled};
ghost use Rattle.office_script.specs.Printing.{answer_line, arrival_line, fault_line, line_end, numbered_line, refusal_line, refusal_name, request_line, spaced_byte};

use crate::hexadecimal::push_byte;
use itoa::Buffer;
use mb_mbap::Frame;
use office_core::{Arrival, EventAnswer, OfficeError, RequestAnswer};
use office_report::request_text;
use std::alloc::{AllocError, Global};

pub(crate) fn push_number(out: &mut Vec<u8>, number: u32) -> Result<(), AllocError>
    ensures { OnOk result (out.new.items ≡ out.old.items ++ decimal number) }
{
    let mut buffer = Buffer::new();
    out.extend_from_slice(buffer.format(number).as_bytes())
}

/// Words and a number as a line.
fn push_numbered(out: &mut Vec<u8>, words: &[u8], number: u32) -> Result<(), AllocError>
    ensures { OnOk result (out.new.items ≡ out.old.items ++ numbered_line words.now number) }
{
    out.extend_from_slice(words)?;
    push_number(out, number)?;
    Ok(out.push(b'\n')?)
}

fn push_bytes(alloc: Global, out: &mut Vec<u8>, bytes: &[u8]) -> Result<(), AllocError>
    ensures { OnOk result (out.new.items ≡ out.old.items ++ flat_map spaced_byte bytes.now) }
{
    for byte in bytes {
        out.push(b' ')?;
        push_byte(alloc, out, *byte)?;
    }
    Ok(())
}

fn push_query(alloc: Global, out: &mut Vec<u8>, frame: &Frame) -> Result<(), AllocError>
    ensures { OnOk result (out.new.items ≡ out.old.items ++ (codes "query" ++ flat_map spaced_byte (spelled frame.now) ++ line_end)) }
{
    out.extend_from_slice(b"query")?;
    push_bytes(alloc, out, frame.encode().as_bytes())?;
    Ok(out.push(b'\n')?)
}

fn push_refusal(out: &mut Vec<u8>, why: &[u8]) -> Result<(), AllocError>
    ensures { OnOk result (out.new.items ≡ out.old.items ++ refusal_line why.now) }
{
    out.extend_from_slice(b"refused ")?;
    out.extend_from_slice(why)?;
    Ok(out.push(b'\n')?)
}

fn refusal_name(error: OfficeError) -> &'static [u8]
    ensures { result.now ≡ refusal_name error }
{
    match error {
        OfficeError::NoConnection => b"NoConnection",
        OfficeError::WrongLine => b"WrongLine",
        OfficeError::NoRead => b"NoRead",
        OfficeError::NoOrder => b"NoOrder",
        OfficeError::Settled => b"Settled",
        OfficeError::NotNext => b"NotNext",
        OfficeError::Exhausted => b"Exhausted",
        OfficeError::SiteDiffers => b"SiteDiffers",
        OfficeError::NoQuery => b"NoQuery",
        OfficeError::WrongUnit => b"WrongUnit",
        OfficeError::Repeat => b"Repeat",
        OfficeError::WrongReply => b"WrongReply",
        OfficeError::Store(_) => b"Store",
    }
}

fn push_request(alloc: Global, out: &mut Vec<u8>, told: RequestAnswer) -> Result<(), AllocError>
    ensures { OnOk result (out.new.items ≡ out.old.items ++ request_line told) }
{
    let text = request_text(alloc, &told)?;
    out.extend_from_slice(text.as_bytes())?;
    Ok(out.push(b'\n')?)
}

fn push_arrival(out: &mut Vec<u8>, arrival: Arrival) -> Result<(), AllocError>
    ensures { OnOk result (out.new.items ≡ out.old.items ++ arrival_line arrival) }
{
    match arrival {
        Arrival::Recorded(count) => push_numbered(out, b"recorded ", count),
        Arrival::Settled => out.extend_from_slice(b"settled\n"),
        Arrival::Excepted(code) => push_numbered(out, b"excepted ", u32::from(code)),
    }
}

/// Writes the line of an answer.
pub(crate) fn push_answer(
    alloc: Global,
    out: &mut Vec<u8>,
    answer: &EventAnswer,
) -> Result<(), AllocError>
    ensures { OnOk result (out.new.items ≡ out.old.items ++ answer_line answer.now) }
{
    match answer {
        EventAnswer::Request(told) => push_request(alloc, out, *told),
        EventAnswer::Opened(conn) => push_numbered(out, b"connection ", conn.number()),
        EventAnswer::Query(frame) => push_query(alloc, out, frame),
        EventAnswer::Arrived(arrival) => push_arrival(out, *arrival),
        EventAnswer::Restarted => out.extend_from_slice(b"restarted\n"),
        EventAnswer::Refused(error) => push_refusal(out, refusal_name(*error)),
    }
}

/// Writes the line that ends a script at a line of another form.
pub(crate) fn push_fault(out: &mut Vec<u8>, number: u32) -> Result<(), AllocError>
    ensures { OnOk result (out.new.items ≡ out.old.items ++ fault_line number) }
{
    push_numbered(out, b"fault line ", number)
}
