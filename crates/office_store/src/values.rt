//! Values of the database.

ghost use Rattle.std.specs.Prelude.{◌≡◌, IfErr, IfOk, Some};
ghost use Rattle.sqlite_value.specs.Value.{owned};
ghost use Rattle.sqlite_value.specs.Order.{column};
ghost use Rattle.office_store.specs.Faults.{IsOfForm};
ghost use Rattle.office_store.specs.Rows.{flag_of, long_of, number_below, number_of, small_of, wide_of, words_of};

use poll_book::{StoreFault, Words};
use sqlite::Row;
use sqlite::types::ValueRef;
use std::alloc::Global;

/// The value in a column, NULL past the last.
pub(crate) fn value_at(row: &Row, at: usize) -> ValueRef<'_>
    ensures { owned result ≡ column row.now at }
{
    match row.get_ref(at) {
        Ok(value) => value,
        Err(_) => ValueRef::Null,
    }
}

pub(crate) fn number_of(value: ValueRef<'_>) -> Option<u32>
    ensures { result ≡ number_of (owned value.entry) }
{
    match value {
        ValueRef::Int(n) => match u32::try_from(n) {
            Ok(n) => Some(n),
            Err(_) => None,
        },
        _ => None,
    }
}

pub(crate) fn flag_of(value: ValueRef<'_>) -> Option<bool>
    ensures { result ≡ flag_of (owned value.entry) }
{
    match value {
        ValueRef::Int(0) => Some(false),
        ValueRef::Int(1) => Some(true),
        _ => None,
    }
}

/// The registers that bytes are, two bytes a register, most significant first.
pub(crate) fn words_of(alloc: Global, value: ValueRef<'_>) -> Result<Words, StoreFault>
    ensures shown { IfOk result (λ words. words_of (owned value.entry) ≡ Some words) }
    ensures told { IfErr result IsOfForm }
{
    let ValueRef::Blob(bytes) = value else {
        return Err(StoreFault::Other);
    };
    if bytes.is_empty() || bytes.len() > 250 {
        return Err(StoreFault::Other);
    }
    let mut words = [0; 125];
    let mut count = 0;
    let mut left = bytes;
    while let [high, low, rest @ ..] = left {
        words[count] = u16::from(*high) * 256 + u16::from(*low);
        count += 1;
        left = rest;
    }
    if !left.is_empty() {
        return Err(StoreFault::Other);
    }
    Ok(Words::new(alloc, &words[..count])?)
}

pub(crate) fn address_of(value: ValueRef<'_>) -> Option<u16>
    ensures { result ≡ number_below 65536 (owned value.entry) }
{
    match value {
        ValueRef::Int(n) => match u16::try_from(n) {
            Ok(n) => Some(n),
            Err(_) => None,
        },
        _ => None,
    }
}

pub(crate) fn byte_of(value: ValueRef<'_>) -> Option<u8>
    ensures { result ≡ number_below 256 (owned value.entry) }
{
    match value {
        ValueRef::Int(n) => match u8::try_from(n) {
            Ok(n) => Some(n),
            Err(_) => None,
        },
        _ => None,
    }
}

pub(crate) fn small_of(value: ValueRef<'_>) -> Option<i8>
    ensures { result ≡ small_of (owned value.entry) }
{
    match value {
        ValueRef::Int(n) => match i8::try_from(n) {
            Ok(n) => Some(n),
            Err(_) => None,
        },
        _ => None,
    }
}

/// Sixteen bytes, most significant first.
pub(crate) fn wide_of(value: ValueRef<'_>) -> Option<u128>
    ensures { result ≡ wide_of (owned value.entry) }
{
    let ValueRef::Blob(bytes) = value else {
        return None;
    };
    match bytes.split_first_chunk::<16>() {
        Some((sum, [])) => Some(u128::from_be_bytes(*sum)),
        _ => None,
    }
}

pub(crate) fn long_of(value: ValueRef<'_>) -> Option<u64>
    ensures { result ≡ long_of (owned value.entry) }
{
    match value {
        ValueRef::Blob(bytes) => match bytes {
            [a, b, c, d, e, f, g, h] => Some(u64::from_be_bytes([*a, *b, *c, *d, *e, *f, *g, *h])),
            _ => None,
        },
        _ => None,
    }
}
