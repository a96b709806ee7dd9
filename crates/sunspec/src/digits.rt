//! Numbers as digits alone spell them, for the fields of a point list and the words of a script or
//! a command: texts that come in, where the rest of the crate writes texts that go out. It stands
//! here since this is the lowest crate below both. std's `parse` isn't the same: it takes a `+`, and
//! any number of digits where a field has room for five.

ghost use Rattle.std.specs.Prelude.{◌≡◌, ◌≤◌, ◌+◌, ◌-◌, ◌*◌, ◌&&◌, None, Some, if◌then◌else◌, nat_le, neg_ℤ, pos};
ghost use Rattle.std.specs.Char.{is_ascii_digit};
ghost use Rattle.sunspec.specs.Digits.{least_signed, number_of, number_within, scale_of, signed_of};

/// The number that one or more digits spell, with any number of zeros in front, if it is at most
/// `limit`.
pub fn within(text: &[u8], limit: u128) -> Option<u128>
    ensures { result ≡ number_within limit text.now }
{
    if text.is_empty() {
        return None;
    }
    let mut number = 0;
    for byte in text {
        number = more(number, *byte, limit)?;
    }
    Some(number)
}

// The number with one more digit, if the byte is one and the limit allows it.
fn more(number: u128, byte: u8, limit: u128) -> Option<u128>
    ensures { let next = 10 * number + (byte - 48) in
        result ≡ (if is_ascii_digit byte && nat_le next limit then Some next else None) }
{
    if !byte.is_ascii_digit() {
        return None;
    }
    let next = number
        .checked_mul(10)?
        .checked_add(u128::from(byte - b'0'))?;
    if next <= limit { Some(next) } else { None }
}

/// The number that 1 to `most` digits spell, if it is at most `limit`. Zeros in front count as
/// digits.
pub fn number(text: &[u8], most: usize, limit: u128) -> Option<u128>
    ensures { result ≡ number_of most limit text.now }
{
    if text.len() > most {
        return None;
    }
    within(text, limit)
}

/// The scale, -10 to 10, that one or two digits with or without a minus before them spell.
pub fn scale(text: &[u8]) -> Option<i8>
    ensures { result ≡ scale_of text.now }
{
    match text {
        [b'-', rest @ ..] => number(rest, 2, 10).map(|n| -(n as i8)),
        _ => number(text, 2, 10).map(|n| n as i8),
    }
}

/// The number that digits with or without a minus before them spell, if 128 bits hold it.
pub fn signed(text: &[u8]) -> Option<i128>
    ensures { result ≡ signed_of text.now }
{
    match text {
        [b'-', rest @ ..] => within(rest, i128::MIN.unsigned_abs()).map(|size| negative(size)),
        _ => within(text, i128::MAX as u128).map(|number| number as i128),
    }
}

// The number that is so far below 0.
fn negative(size: u128) -> i128
    requires { size ≤ least_signed }
    ensures { result ≡ neg_ℤ (pos size) }
{
    if size == 0 {
        return 0;
    }
    -((size - 1) as i128) - 1
}
