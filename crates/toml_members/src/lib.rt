//! Members of a table of TOML: numbers up to a limit, texts and arrays, or what is wrong with them.
//!
//! `crates/tour/src/members.rt` is a short example.
#![tactic(auto)]

ghost use Rattle.std.specs.Prelude.{◌≡◌, ◌≢◌, ◌≤◌, option_map, IfErr, IfOk, None, Some};
ghost use Rattle.toml.specs.Data.{Members, get_member};
ghost use Rattle.toml.specs.View.{items_view, table_view, view};
ghost use Rattle.toml_members.specs.Members.{IsDocument, IsFaultOf, entries_at, kind_fault, number_at, number_fault, number_in, optional_at, optional_entries_at, text_at};
ghost use Rattle.toml_members.specs.declared.error.DocumentError.TheVariants.{Memory};

mod error;

pub use error::{DocumentError, MemberError, MemberFault};
use std::alloc::Global;
use toml::{Table, Value};

/// The line of a text, from 1, on which a byte stands.
fn line_of(bytes: &[u8], place: usize) -> usize {
    let before = bytes.iter().take(place);
    before
        .filter(|byte| **byte == b'\n')
        .count()
        .saturating_add(1)
}

/// The document that a text is, or the line on which it stops being one.
pub fn document(alloc: Global, bytes: &[u8]) -> Result<Table, DocumentError>
    ensures document { IfOk result (λ document. IsDocument bytes.now (table_view document)) }
    ensures none { IfErr result (λ e. e ≢ Memory
        → (document : Members) → ¬ IsDocument bytes.now document) }
{
    toml::table_from_slice(alloc, bytes).map_err(|e| match e.span() {
        Some(span) => DocumentError::NotToml(line_of(bytes, span.start)),
        None => DocumentError::Memory,
    })
}

/// The member at a key.
pub fn member<'a>(table: &'a Table, key: &str) -> Option<&'a Value>
    ensures { option_map (λ v. view v.now) result ≡ get_member key.now (table_view table.now) }
{
    table.get(key)
}

/// The text at a key.
#[tactic(auto, unfolding(crate::specs::Members::text_at))]
pub fn text_at<'a>(table: &'a Table, key: &'static str) -> Result<&'a str, MemberError>
    ensures text { IfOk result (λ text. text_at key.now (table_view table.now) ≡ Some text.now) }
    ensures none { IfErr result (λ _. text_at key.now (table_view table.now) ≡ None) }
    ensures fault { IfErr result (IsFaultOf kind_fault key.now (table_view table.now)) }
{
    match member(table, key) {
        Some(Value::String(text)) => Ok(text.as_str()),
        Some(_) => Err(MemberError::new(key, MemberFault::WrongKind)),
        None => Err(MemberError::new(key, MemberFault::Missing)),
    }
}

/// A value as a whole number up to a limit.
pub fn number_in(value: &Value, limit: u32) -> Result<u32, MemberFault>
    ensures number { IfOk result (λ n. number_in limit (view value.now) ≡ Some n) }
    ensures within { IfOk result (λ n. n ≤ limit) }
    ensures none { IfErr result (λ _. number_in limit (view value.now) ≡ None) }
    ensures fault { IfErr result (λ fault. fault ≡ number_fault (Some (view value.now))) }
{
    let Value::Integer(number) = value else {
        return Err(MemberFault::WrongKind);
    };
    match u32::try_from(*number) {
        Ok(number) if number <= limit => Ok(number),
        _ => Err(MemberFault::OutOfRange),
    }
}

/// The whole number at a key, up to a limit.
#[tactic(auto, unfolding(crate::specs::Members::number_at))]
pub fn number_at(table: &Table, key: &'static str, limit: u32) -> Result<u32, MemberError>
    ensures number { IfOk result (λ n. number_at key.now limit (table_view table.now) ≡ Some n) }
    ensures within { IfOk result (λ n. n ≤ limit) }
    ensures none { IfErr result (λ _. number_at key.now limit (table_view table.now) ≡ None) }
    ensures fault { IfErr result (IsFaultOf number_fault key.now (table_view table.now)) }
{
    match member(table, key) {
        Some(value) => number_in(value, limit).map_err(|fault| MemberError::new(key, fault)),
        None => Err(MemberError::new(key, MemberFault::Missing)),
    }
}

/// The same where the member may be missing, and is then 0.
#[tactic(auto, unfolding(crate::specs::Members::optional_at))]
pub fn optional_at(table: &Table, key: &'static str, limit: u32) -> Result<u32, MemberError>
    ensures number { IfOk result (λ n. optional_at key.now limit (table_view table.now) ≡ Some n) }
    ensures within { IfOk result (λ n. n ≤ limit) }
    ensures none { IfErr result (λ _. optional_at key.now limit (table_view table.now) ≡ None) }
    ensures fault { IfErr result (IsFaultOf number_fault key.now (table_view table.now)) }
{
    match member(table, key) {
        Some(value) => number_in(value, limit).map_err(|fault| MemberError::new(key, fault)),
        None => Ok(0),
    }
}

/// The entries of the array at a key.
#[tactic(auto, unfolding(crate::specs::Members::entries_at))]
pub fn entries_at<'a>(table: &'a Table, key: &'static str) -> Result<&'a [Value], MemberError>
    ensures entries { IfOk result (λ entries. entries_at key.now (table_view table.now)
        ≡ Some (items_view entries.now)) }
    ensures none { IfErr result (λ _. entries_at key.now (table_view table.now) ≡ None) }
    ensures fault { IfErr result (IsFaultOf kind_fault key.now (table_view table.now)) }
{
    match member(table, key) {
        Some(Value::Array(entries)) => Ok(entries.as_slice()),
        Some(_) => Err(MemberError::new(key, MemberFault::WrongKind)),
        None => Err(MemberError::new(key, MemberFault::Missing)),
    }
}

/// The same where the member may be missing, and then has no entries.
#[tactic(auto, unfolding(crate::specs::Members::optional_entries_at))]
pub fn optional_entries_at<'a>(
    table: &'a Table,
    key: &'static str,
) -> Result<&'a [Value], MemberError>
    ensures entries { IfOk result (λ entries. optional_entries_at key.now (table_view table.now)
        ≡ Some (items_view entries.now)) }
    ensures none { IfErr result (λ _. optional_entries_at key.now (table_view table.now) ≡ None) }
    ensures fault { IfErr result (IsFaultOf kind_fault key.now (table_view table.now)) }
{
    match member(table, key) {
        Some(Value::Array(entries)) => Ok(entries.as_slice()),
        Some(_) => Err(MemberError::new(key, MemberFault::WrongKind)),
        None => Ok(&[]),
    }
}
