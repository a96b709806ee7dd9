//! The fields of a head.
ghost use Rattle.std.specs.Prelude.{◌≡◌, ◌≤◌, All, find, length, map, option_map};
ghost use Rattle.httparse.specs.Spans.{header_bytes, IsHeaderWithin};
ghost use Rattle.sunspec.specs.Digits.{number_of};
ghost use Rattle.office_http.specs.Fields.{count_in, is_named, length_of, length_within, named_count};
ghost use Rattle.office_http.specs.Spanned.{value_at};

use httparse::spans::HeaderSpan;
use sunspec::digits;

/// The length of a body, as the fields give it.
#[derive(Clone, Copy)]
pub(crate) enum Length {
    /// There is none, or another coding of the body.
    Missing,
    /// It is there twice, or no number of 1 to 10 digits.
    Bad,
    TooLarge,
    Of(usize),
}

/// A body has so many bytes at most.
const MOST_BODY: u128 = 262_144;

/// Whether a field has this name, in either case.
fn has_name(bytes: &[u8], header: HeaderSpan, name: &[u8]) -> bool
    requires { IsHeaderWithin (length bytes.now) header }
    ensures { result ≡ is_named name.now (header_bytes bytes.now header) }
{
    header.name.of(bytes).eq_ignore_ascii_case(name)
}

/// How many fields have this name.
fn count_named(bytes: &[u8], headers: &[HeaderSpan], name: &[u8]) -> usize
    requires { All (IsHeaderWithin (length bytes.now)) headers.now }
    ensures { result ≡ named_count name.now (map (header_bytes bytes.now) headers.now) }
{
    let mut count = 0;
    for header in headers {
        if has_name(bytes, *header, name) {
            count += 1;
        }
    }
    count
}

/// The value of the first field with this name.
fn value_named<'b>(bytes: &'b [u8], headers: &[HeaderSpan], name: &[u8]) -> Option<&'b [u8]>
    requires { All (IsHeaderWithin (length bytes.now)) headers.now }
    ensures { value_at result ≡ option_map (λ f. f.1) (find (is_named name.now) (map (header_bytes bytes.now) headers.now)) }
{
    for header in headers {
        if has_name(bytes, *header, name) {
            return Some(header.value.of(bytes));
        }
    }
    None
}

/// The length that a field's value gives.
fn length_of(value: &[u8]) -> Length
    ensures { result ≡ length_within (number_of 10 9999999999 value.now) }
{
    match digits::number(value, 10, 9_999_999_999) {
        None => Length::Bad,
        Some(length) => {
            if length > MOST_BODY {
                Length::TooLarge
            } else {
                Length::Of(length as usize)
            }
        }
    }
}

/// The length of the body.
pub(crate) fn body_length(bytes: &[u8], headers: &[HeaderSpan]) -> Length
    requires { All (IsHeaderWithin (length bytes.now)) headers.now }
    ensures length { result ≡ length_of (map (header_bytes bytes.now) headers.now) }
    ensures limit { count_in result ≤ 262144 }
{
    if count_named(bytes, headers, b"transfer-encoding") > 0 {
        return Length::Missing;
    }
    let count = count_named(bytes, headers, b"content-length");
    if count == 0 {
        return Length::Missing;
    }
    if count > 1 {
        return Length::Bad;
    }
    match value_named(bytes, headers, b"content-length") {
        Some(value) => length_of(value),
        None => Length::Missing,
    }
}
