//! The records of a point list's text.
ghost use Rattle.std.specs.Prelude.{◌≡◌, ◌≤◌, ◌<◌, ℕ, List, [], IfOk, IfSome, OnOk, drop, length, map, not, option_map, take};
ghost use Rattle.std.specs.List.{position, position_or_len};
ghost use Rattle.csv.specs.Reading.{strip_bom};
ghost use Rattle.csv.specs.Records.{fields_of, partial_of};
ghost use Rattle.csv.specs.declared.parser.State.TheVariants as st;
ghost use Rattle.point_list.specs.Lists.{records_of};
ghost use Rattle.point_list.specs.Records.{behind, ends_field, ends_record, is_quote, next_at, next_behind, next_from, taken_as};

use csv::{ByteRecord, ErrorKind, ReaderBuilder};
use std::alloc::{AllocError, Global};

/// From so many bytes on a text is read by the reader of `csv`, which makes tables first, as much work as some thirty
/// rows of a list, and then takes less time for each field, above all for empty ones.
const LONG: usize = 2048;

/// The bytes behind a byte order mark.
#[tactic(auto, unfolding(csv::specs::Reading::strip_bom))]
fn without_mark(bytes: &[u8]) -> &[u8]
    ensures { result.now ≡ strip_bom bytes.now }
{
    match bytes {
        [0xEF, 0xBB, 0xBF, rest @ ..] => rest,
        _ => bytes,
    }
}

/// Whether a byte ends a record.
#[inline(always)]
fn ends_record(byte: u8) -> bool
    ensures { result ≡ ends_record byte }
{
    byte == b'\r' || byte == b'\n'
}

/// Whether a byte ends a field without quotes.
#[inline(always)]
fn ends_field(byte: u8) -> bool
    ensures { result ≡ ends_field byte }
{
    byte == b',' || ends_record(byte)
}

/// Where the next record begins.
fn record_start(text: &[u8]) -> Option<usize>
    ensures { result ≡ position (λ byte. not (ends_record byte)) text.now }
{
    text.iter().position(|byte| !ends_record(*byte))
}

/// Where a field without quotes ends.
#[inline(always)]
fn field_end(text: &[u8]) -> Option<usize>
    ensures { result ≡ position ends_field text.now }
{
    text.iter().position(|byte| ends_field(*byte))
}

/// Where the next quote stands.
fn quote_in(text: &[u8]) -> Option<usize>
    ensures { result ≡ position is_quote text.now }
{
    text.iter().position(|byte| *byte == b'"')
}

/// The text from the next record's first byte on, if there is a record.
fn next_start(text: &[u8]) -> Option<&[u8]>
    ensures same { next_from st.StartRecord [] [] text.now ≡ next_at (option_map (λ s. s.now) result) }
    ensures short { IfSome result (λ rest. length rest.now ≤ length text.now) }
    ensures some { IfSome result (λ rest. 0 < length rest.now) }
{
    match record_start(text) {
        Some(at) => Some(&text[at..]),
        None => None,
    }
}

/// A field without quotes, and the text from its end on.
#[inline(always)]
fn split_plain(text: &[u8]) -> (&[u8], &[u8])
    ensures part { result.0.now ≡ take (position_or_len ends_field text.now) text.now }
    ensures rest { result.1.now ≡ drop (position_or_len ends_field text.now) text.now }
{
    match field_end(text) {
        Some(at) => text.split_at(at),
        None => (text, b""),
    }
}

/// The bytes before the next quote, and the text from it on.
fn split_quoted(text: &[u8]) -> (&[u8], &[u8])
    ensures part { result.0.now ≡ take (position_or_len is_quote text.now) text.now }
    ensures rest { result.1.now ≡ drop (position_or_len is_quote text.now) text.now }
{
    match quote_in(text) {
        Some(at) => text.split_at(at),
        None => (text, b""),
    }
}

/// The text behind a byte, if it begins with that.
#[inline(always)]
fn behind(text: &[u8], byte: u8) -> Option<&[u8]>
    ensures rest { option_map (λ s. s.now) result ≡ behind byte text.now }
    ensures short { IfSome result (λ rest. length rest.now < length text.now) }
{
    match text.split_first() {
        Some((first, rest)) if *first == byte => Some(rest),
        _ => None,
    }
}

/// The text behind its first byte, if there is one.
#[inline(always)]
fn without_first(text: &[u8]) -> &[u8]
    ensures { result.now ≡ drop 1 text.now }
{
    match text.split_first() {
        Some((_, rest)) => rest,
        None => text,
    }
}

/// Gathers the bytes up to the closing quote of a field, whose opening quote is passed; gives the
/// text behind it.
fn read_inside<'a>(text: &'a [u8], quoted: &mut Vec<u8>) -> Result<&'a [u8], AllocError>
    ensures same { IfOk result (λ rest. (fields : List (List ℕ)) → next_from st.InQuoted fields [] text.now ≡ next_from st.InField fields quoted.new.items rest.now) }
    ensures short { IfOk result (λ rest. length rest.now ≤ length text.now) }
{
    quoted.clear();
    let mut rest = text;
    'parts: loop {
        let (part, end) = split_quoted(rest);
        quoted.extend_from_slice(part)?;
        let Some(after) = behind(end, b'"') else {
            return Ok(end);
        };
        let Some(more) = behind(after, b'"') else {
            return Ok(after);
        };
        quoted.push(b'"')?;
        rest = more;
    }
}

/// Reads a field behind its opening quote.
#[inline(never)]
fn read_quoted<'a>(
    text: &'a [u8],
    row: &mut ByteRecord,
    quoted: &mut Vec<u8>,
) -> Result<&'a [u8], AllocError>
    requires { partial_of row.old ≡ [] }
    ensures same { IfOk result (λ rest. next_from st.InQuoted (fields_of row.old) [] text.now ≡ next_behind (fields_of row.new) rest.now) }
    ensures partial { OnOk result (partial_of row.new ≡ []) }
    ensures short { IfOk result (λ rest. length rest.now ≤ length text.now) }
{
    let after = read_inside(text, quoted)?;
    let (part, rest) = split_plain(after);
    quoted.extend_from_slice(part)?;
    row.push_field(quoted.as_slice())?;
    Ok(rest)
}

/// Reads a field that doesn't begin with a quote.
#[inline(always)]
fn read_plain<'a>(text: &'a [u8], row: &mut ByteRecord) -> Result<&'a [u8], AllocError>
    requires { partial_of row.old ≡ [] }
    ensures same { IfOk result (λ rest. next_from st.InField (fields_of row.old) [] text.now ≡ next_behind (fields_of row.new) rest.now) }
    ensures partial { OnOk result (partial_of row.new ≡ []) }
    ensures short { IfOk result (λ rest. length rest.now ≤ length text.now) }
{
    let (part, rest) = split_plain(text);
    row.push_field(part)?;
    Ok(rest)
}

/// Reads the next field of a record; gives the text behind it.
#[inline(always)]
fn read_field<'a>(
    text: &'a [u8],
    row: &mut ByteRecord,
    quoted: &mut Vec<u8>,
) -> Result<&'a [u8], AllocError>
    requires { partial_of row.old ≡ [] }
    ensures same { IfOk result (λ rest. next_from st.StartField (fields_of row.old) [] text.now ≡ next_behind (fields_of row.new) rest.now) }
    ensures partial { OnOk result (partial_of row.new ≡ []) }
    ensures short { IfOk result (λ rest. length rest.now ≤ length text.now) }
{
    match behind(text, b'"') {
        Some(inside) => read_quoted(inside, row, quoted),
        None => read_plain(text, row),
    }
}

/// Reads the next record of a text, if there is one; gives the text behind it.
fn read_record<'a>(
    text: &'a [u8],
    row: &mut ByteRecord,
    quoted: &mut Vec<u8>,
) -> Result<Option<&'a [u8]>, AllocError>
    ensures same { IfOk result (λ r. next_from st.StartRecord [] [] text.now ≡ taken_as (fields_of row.new) (option_map (λ s. s.now) r)) }
    ensures short { IfOk result (λ r. IfSome r (λ rest. length rest.now < length text.now)) }
{
    row.clear();
    let Some(start) = next_start(text) else {
        return Ok(None);
    };
    let mut rest = start;
    'fields: loop {
        let end = read_field(rest, row, quoted)?;
        let Some(more) = behind(end, b',') else {
            return Ok(Some(without_first(end)));
        };
        rest = more;
    }
}

/// The records of a short text.
fn short_records(alloc: Global, bytes: &[u8]) -> Result<Vec<ByteRecord>, AllocError>
    ensures { IfOk result (λ v. map fields_of v.items ≡ records_of bytes.now) }
{
    let mut rows = Vec::new(alloc);
    let mut row = ByteRecord::new(alloc);
    let mut quoted = Vec::new(alloc);
    let mut rest = without_mark(bytes);
    'records: while let Some(more) = read_record(rest, &mut row, &mut quoted)? {
        rows.push(row.clone()?)?;
        rest = more;
    }
    Ok(rows)
}

/// The records of a long text.
fn long_records(alloc: Global, bytes: &[u8]) -> Result<Vec<ByteRecord>, AllocError>
    ensures { IfOk result (λ v. map fields_of v.items ≡ records_of bytes.now) }
{
    // Flexible, so that the number of fields is left to the checks.
    let reader = ReaderBuilder::new()
        .has_headers(false)
        .flexible(true)
        .from_reader(alloc, bytes);
    let mut rows = Vec::new(alloc);
    for row in reader.into_byte_records() {
        let row = match row {
            Ok(row) => row,
            Err(e) => match e.into_kind() {
                ErrorKind::Io(_) => return Err(AllocError),
                ErrorKind::OutOfMemory => return Err(AllocError),
                _ => unreachable!(),
            },
        };
        if rows.push(row).is_err() {
            return Err(AllocError);
        }
    }
    Ok(rows)
}

/// The records of a text.
pub(crate) fn records(alloc: Global, bytes: &[u8]) -> Result<Vec<ByteRecord>, AllocError>
    ensures { IfOk result (λ v. map fields_of v.items ≡ records_of bytes.now) }
{
    if bytes.len() < LONG {
        short_records(alloc, bytes)
    } else {
        long_records(alloc, bytes)
    }
}
