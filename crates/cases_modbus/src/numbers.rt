//! Numbers as digits spell them in lists, scripts and commands.
use crate::texts::shown;
use case_pages::Trouble;
use std::alloc::Global;
use sunspec::digits;

/// What stands between the quotation marks at the front, and behind them.
fn quoted(input: &str) -> Option<(&str, &str)> {
    input.strip_prefix('"')?.split_once('"')
}

fn number_of(input: &str) -> Option<Option<u128>> {
    let (text, limits) = quoted(input)?;
    let text = text.as_bytes();
    match limits.trim_start().split_once(' ') {
        Some((places, limit)) => {
            let (places, limit) = (places.parse::<usize>().ok()?, limit.parse::<u128>().ok()?);
            Some(digits::number(text, places, limit))
        }
        None => Some(digits::within(text, limits.trim_start().parse::<u128>().ok()?)),
    }
}

/// `"DIGITS" LIMIT`, or `"DIGITS" MOST LIMIT` where there may be only so many digits.
pub(crate) fn number(alloc: Global, input: &str) -> Result<String, Trouble> {
    let number = number_of(input).ok_or(Trouble::Page("no digits and limit"))?;
    Ok(shown(alloc, &number)?)
}

/// `"DIGITS"`.
pub(crate) fn scale(alloc: Global, input: &str) -> Result<String, Trouble> {
    let (text, _) = quoted(input).ok_or(Trouble::Page("no digits"))?;
    Ok(shown(alloc, &digits::scale(text.as_bytes()))?)
}
