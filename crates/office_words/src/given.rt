//! Values of an option or a place as the words give them.
ghost use Rattle.std.specs.Prelude.{◌≡◌, option_and_then, option_map, string_bytes};
ghost use Rattle.clap.specs.Words.{first_of, found_of, rows_of};
ghost use Rattle.office_words.specs.Values.{Gives, caller_of, if_given, key_of, number_of, period_of, port_of, seconds_of, value_of};

use crate::{WordFault, values};
use clap::ArgMatches;
use poll_book::{Caller, Key};
use std::alloc::Global;

fn found<'a>(matches: &ArgMatches<'a>, id: &str) -> Option<&'a str>
    ensures { option_map (λ s. s.now) result ≡ first_of id.now (rows_of (found_of matches.now)) }
{
    matches.get_str(id)
}

fn word<'a>(matches: &ArgMatches<'a>, id: &str) -> Result<&'a str, WordFault>
    ensures { Gives (λ s. s.now) result (first_of id.now (rows_of (found_of matches.now))) }
{
    match found(matches, id) {
        Some(word) => Ok(word),
        None => Err(WordFault::Words),
    }
}

pub(crate) fn text(alloc: Global, matches: &ArgMatches, id: &str) -> Result<String, WordFault>
    ensures { Gives string_bytes result (first_of id.now (rows_of (found_of matches.now))) }
{
    let word = word(matches, id)?;
    Ok(String::from_str(alloc, word)?)
}

pub(crate) fn number(matches: &ArgMatches, id: &str) -> Result<u32, WordFault>
    ensures { Gives (λ n. n) result (option_and_then number_of (first_of id.now (rows_of (found_of matches.now)))) }
{
    values::number(word(matches, id)?)
}

pub(crate) fn port(matches: &ArgMatches, id: &str) -> Result<u16, WordFault>
    ensures { Gives (λ n. n) result (option_and_then port_of (first_of id.now (rows_of (found_of matches.now)))) }
{
    values::port(word(matches, id)?)
}

pub(crate) fn seconds(matches: &ArgMatches, id: &str) -> Result<u16, WordFault>
    ensures { Gives (λ n. n) result (option_and_then seconds_of (first_of id.now (rows_of (found_of matches.now)))) }
{
    values::seconds(word(matches, id)?)
}

pub(crate) fn period(matches: &ArgMatches, id: &str) -> Result<u32, WordFault>
    ensures { Gives (λ n. n) result (option_and_then period_of (first_of id.now (rows_of (found_of matches.now)))) }
{
    values::period(word(matches, id)?)
}

pub(crate) fn value(matches: &ArgMatches, id: &str) -> Result<i128, WordFault>
    ensures { Gives (λ z. z) result (option_and_then value_of (first_of id.now (rows_of (found_of matches.now)))) }
{
    values::value(word(matches, id)?)
}

pub(crate) fn caller(matches: &ArgMatches, id: &str) -> Result<Caller, WordFault>
    ensures { Gives (λ c. c) result (option_and_then caller_of (first_of id.now (rows_of (found_of matches.now)))) }
{
    values::caller(word(matches, id)?)
}

pub(crate) fn key(matches: &ArgMatches, id: &str) -> Result<Key, WordFault>
    ensures { Gives (λ k. k) result (option_and_then key_of (first_of id.now (rows_of (found_of matches.now)))) }
{
    values::key(word(matches, id)?)
}

/// The number of an option, if it is given.
pub(crate) fn number_if_given(matches: &ArgMatches, id: &str) -> Result<Option<u32>, WordFault>
    ensures { Gives (λ o. o) result (if_given number_of (first_of id.now (rows_of (found_of matches.now)))) }
{
    match found(matches, id) {
        Some(word) => Ok(Some(values::number(word)?)),
        None => Ok(None),
    }
}

/// The port of an option, if it is given.
pub(crate) fn port_if_given(matches: &ArgMatches, id: &str) -> Result<Option<u16>, WordFault>
    ensures { Gives (λ o. o) result (if_given port_of (first_of id.now (rows_of (found_of matches.now)))) }
{
    match found(matches, id) {
        Some(word) => Ok(Some(values::port(word)?)),
        None => Ok(None),
    }
}
