//! Values of a command line, each in its form.
ghost use Rattle.office_words.specs.Values.{Gives, caller_of, key_of, number_of, period_of, port_of, seconds_of, value_of};

use crate::WordFault;
use poll_book::{Caller, Key};
use sunspec::digits::{signed, within};

pub(crate) fn number(text: &str) -> Result<u32, WordFault>
    ensures { Gives (λ n. n) result (number_of text.now) }
{
    match within(text.as_bytes(), u128::from(u32::MAX)) {
        Some(number) => Ok(number as u32),
        None => Err(WordFault::Words),
    }
}

pub(crate) fn port(text: &str) -> Result<u16, WordFault>
    ensures { Gives (λ n. n) result (port_of text.now) }
{
    match within(text.as_bytes(), u128::from(u16::MAX)) {
        Some(port) => Ok(port as u16),
        None => Err(WordFault::Words),
    }
}

pub(crate) fn seconds(text: &str) -> Result<u16, WordFault>
    ensures { Gives (λ n. n) result (seconds_of text.now) }
{
    match within(text.as_bytes(), 3600) {
        None | Some(0) => Err(WordFault::Words),
        Some(seconds) => Ok(seconds as u16),
    }
}

pub(crate) fn period(text: &str) -> Result<u32, WordFault>
    ensures { Gives (λ n. n) result (period_of text.now) }
{
    match within(text.as_bytes(), 86_400) {
        None | Some(0) => Err(WordFault::Words),
        Some(seconds) => Ok(seconds as u32),
    }
}

pub(crate) fn value(text: &str) -> Result<i128, WordFault>
    ensures { Gives (λ z. z) result (value_of text.now) }
{
    match signed(text.as_bytes()) {
        Some(value) => Ok(value),
        None => Err(WordFault::Words),
    }
}

pub(crate) fn caller(text: &str) -> Result<Caller, WordFault>
    ensures { Gives (λ c. c) result (caller_of text.now) }
{
    match Caller::new(text) {
        Some(caller) => Ok(caller),
        None => Err(WordFault::Words),
    }
}

pub(crate) fn key(text: &str) -> Result<Key, WordFault>
    ensures { Gives (λ k. k) result (key_of text.now) }
{
    match Key::new(text) {
        Some(key) => Ok(key),
        None => Err(WordFault::Words),
    }
}
