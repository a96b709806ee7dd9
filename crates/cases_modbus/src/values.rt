//! Values of points, and how they are shown.
use crate::names::type_of;
use crate::texts::{hex_text, outcome, refusal, unless};
use case_pages::{Trouble, hex_of};
use mb_pdu::Registers;
use std::alloc::{AllocError, Global};
use std::str;
use sunspec::{
    PointType, SunError, Value, WordOrder, read_ordered, read_value, scaled_text, shown_ordered,
    shown_text, to_ordered, to_registers,
};

/// What registers mean, if they can be registers of the type.
fn value_of(kind: &PointType, words: &[u16]) -> Option<Value> {
    if kind.is_sized() && kind.has_registers(words) {
        Some(read_value(kind, words))
    } else {
        None
    }
}

/// The same of registers that are sent in an order.
fn value_in_order(kind: &PointType, order: WordOrder, words: &[u16]) -> Option<Value> {
    if kind.is_sized() && kind.has_registers(words) {
        Some(read_ordered(kind, order, words))
    } else {
        None
    }
}

/// A number, a text in quotation marks, or `-`.
pub(crate) fn value_text(alloc: Global, value: &Value) -> Result<String, AllocError> {
    match value {
        Value::Number(number) => number.to_string(alloc),
        Value::Text(text) => {
            let text = str::from_utf8(text.as_bytes()).unwrap_or("?");
            format!(in alloc; "\"{text}\"")
        }
        Value::Unimplemented => String::from_str(alloc, "-"),
    }
}

fn numbered(word: &str) -> Result<i128, Trouble> {
    word.parse::<i128>().map_err(|_| Trouble::Page("no number"))
}

fn scale_of(word: &str) -> Result<i32, Trouble> {
    word.parse::<i32>().map_err(|_| Trouble::Page("no scale"))
}

/// A type's word, and what stands behind it.
fn typed(input: &str) -> Result<(PointType, &str), Trouble> {
    let (word, rest) = split(input)?;
    let kind = type_of(word).ok_or(Trouble::Page("no type"))?;
    Ok((kind, rest))
}

fn split(input: &str) -> Result<(&str, &str), Trouble> {
    input.split_once(' ').ok_or(Trouble::Page("a word alone"))
}

/// An order's word, and what stands behind it.
fn ordered(input: &str) -> Result<(WordOrder, &str), Trouble> {
    let (word, rest) = split(input)?;
    let order = word
        .parse::<WordOrder>()
        .map_err(|_| Trouble::Page("no order"))?;
    Ok((order, rest))
}

/// The registers that bytes in hexadecimal digits are.
fn registers_of(alloc: Global, text: &str) -> Result<Vec<u16>, Trouble> {
    let mut words = Vec::new(alloc);
    for pair in hex_of(alloc, text)?.chunks(2) {
        let [high, low] = pair else {
            return Err(Trouble::Page("half a register"));
        };
        words.push(u16::from_be_bytes([*high, *low]))?;
    }
    Ok(words)
}

fn bytes_text(alloc: Global, words: &[u16]) -> Result<String, AllocError> {
    let mut bytes = Vec::new(alloc);
    for word in words {
        bytes.extend_from_slice(&word.to_be_bytes())?;
    }
    hex_text(alloc, &bytes)
}

/// The text of a value, or that there is none.
fn found(alloc: Global, value: Option<Value>) -> Result<String, Trouble> {
    match value {
        Some(value) => Ok(value_text(alloc, &value)?),
        None => Ok(String::from_str(alloc, "no registers of the type")?),
    }
}

/// `TYPE REGISTERS`.
pub(crate) fn read(alloc: Global, input: &str) -> Result<String, Trouble> {
    let (kind, words) = typed(input)?;
    found(alloc, value_of(&kind, &registers_of(alloc, words)?))
}

/// `ORDER TYPE REGISTERS`.
pub(crate) fn read_in_order(alloc: Global, input: &str) -> Result<String, Trouble> {
    let (order, point) = ordered(input)?;
    let (kind, words) = typed(point)?;
    let words = registers_of(alloc, words)?;
    found(alloc, value_in_order(&kind, order, &words))
}

fn written(kind: &PointType, number: i128) -> Result<Registers, SunError> {
    to_registers(kind, number)
}

fn written_in_order(
    kind: &PointType,
    order: WordOrder,
    number: i128,
) -> Result<Registers, SunError> {
    to_ordered(kind, order, number)
}

/// The registers of a number in hexadecimal digits, which have to mean the number again.
fn again(
    alloc: Global,
    words: &[u16],
    value: Option<Value>,
    number: i128,
) -> Result<String, Trouble> {
    unless(
        value == Some(Value::Number(number)),
        ", read as ANOTHER NUMBER",
        bytes_text(alloc, words)?,
    )
}

/// `TYPE NUMBER`.
pub(crate) fn write(alloc: Global, input: &str) -> Result<String, Trouble> {
    let (kind, number) = typed(input)?;
    let number = numbered(number)?;
    match written(&kind, number) {
        Ok(registers) => {
            let words = registers.as_slice();
            again(alloc, words, value_of(&kind, words), number)
        }
        Err(error) => refusal(alloc, &error),
    }
}

/// `ORDER TYPE NUMBER`.
pub(crate) fn write_in_order(alloc: Global, input: &str) -> Result<String, Trouble> {
    let (order, point) = ordered(input)?;
    let (kind, number) = typed(point)?;
    let number = numbered(number)?;
    match written_in_order(&kind, order, number) {
        Ok(registers) => {
            let words = registers.as_slice();
            again(alloc, words, value_in_order(&kind, order, words), number)
        }
        Err(error) => refusal(alloc, &error),
    }
}

/// `NUMBER SCALE`.
pub(crate) fn scaled(alloc: Global, input: &str) -> Result<String, Trouble> {
    let (number, scale) = split(input)?;
    outcome(
        alloc,
        scaled_text(alloc, numbered(number)?, scale_of(scale)?),
    )
}

fn text_of(
    alloc: Global,
    kind: &PointType,
    words: &[u16],
    scale: i32,
) -> Result<Option<String>, SunError> {
    if kind.is_sized() && kind.has_registers(words) {
        shown_text(alloc, kind, words, scale)
    } else {
        Ok(None)
    }
}

/// `SCALE TYPE REGISTERS`: the text, if the registers are implemented.
pub(crate) fn shown(alloc: Global, input: &str) -> Result<String, Trouble> {
    let (scale, point) = split(input)?;
    let (kind, words) = typed(point)?;
    let words = registers_of(alloc, words)?;
    outcome(alloc, text_of(alloc, &kind, &words, scale_of(scale)?))
}

fn text_in_order(
    alloc: Global,
    kind: &PointType,
    order: WordOrder,
    words: &[u16],
    scale: i32,
) -> Result<Option<String>, SunError> {
    if kind.is_sized() && kind.has_registers(words) {
        shown_ordered(alloc, kind, order, words, scale)
    } else {
        Ok(None)
    }
}

/// `ORDER SCALE TYPE REGISTERS`.
pub(crate) fn shown_in_order(alloc: Global, input: &str) -> Result<String, Trouble> {
    let (order, point) = ordered(input)?;
    let (scale, point) = split(point)?;
    let (kind, words) = typed(point)?;
    let words = registers_of(alloc, words)?;
    outcome(
        alloc,
        text_in_order(alloc, &kind, order, &words, scale_of(scale)?),
    )
}
