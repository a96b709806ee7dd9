//! The cells of one table of a device.
ghost use Rattle.std.specs.Prelude.{ℕ, map, slice_index, IfSome, IfNone, ◌≡◌, ◌↔◌, ◌≤◌, ◌<◌, ◌+◌, ◌∷◌, [], length, IsTrue, IsSome, IfOk, IfErr, vec_len};
ghost use Rattle.std.specs.List.{enumerate_from};
ghost use Rattle.std.specs.Bool.{OnTrue, OnFalse};
ghost use Rattle.mb_pdu.specs.Grammar.{IsQuantity};
ghost use Rattle.mb_map.specs.Tables.{zeros, cell_at, AreBits, IsWhole, Holds, written};
ghost use Rattle.mb_map.specs.Device.{Reads, number_of};

use crate::error::MapError;
use mb_pdu::{Bits, Registers, Span};
use std::alloc::Global;
use std::marker::Model;

/// The cells of one table: numbers from a start address on, none past the address 65,535.
#[derive(Debug, Drop)]
pub(crate) struct Cells {
    start: u32,
    numbers: Vec<u16>,
}

impl Model for Cells {
    ghost use Rattle.std.specs.Prelude.{ℕ, ◌+◌, ◌≤◌, List, vec_len};
    ghost use Rattle.std.specs.List.{enumerate_from};

    ghost Value = { List (ℕ × ℕ) };

    ghost view = { λ c. enumerate_from c.start c.numbers.items };

    ghost invariant = { λ c. c.start + vec_len c.numbers ≤ 65536 };
}

impl Cells {
    /// So many cells of zero.
    pub(crate) fn zeroed(alloc: Global, start: u32, size: u32) -> Result<Cells, MapError>
        requires { start + size ≤ 65536 }
        ensures made { IfOk result (λ cells. cells ≡ zeros start size) }
        ensures memory { IfErr result (λ e. e ≡ MapError.Memory) }
    {
        let numbers = vec![in alloc; 0; size as usize]?;
        Ok(Cells { start, numbers })
    }

    /// Cells that hold these numbers.
    pub(crate) fn from_numbers(start: u32, numbers: Vec<u16>) -> Cells
        requires { start + vec_len numbers ≤ 65536 }
        ensures { result ≡ enumerate_from start numbers.items }
    {
        Cells { start, numbers }
    }

    /// The number at an address.
    pub(crate) fn get(&self, address: u16) -> Option<u16>
        ensures { result ≡ cell_at address self.now }
    {
        let address = u32::from(address);
        if address < self.start {
            return None;
        }
        match self.numbers.get((address - self.start) as usize) {
            Some(number) => Some(*number),
            None => None,
        }
    }

    /// Whether a range of addresses is whole in the table.
    pub(crate) fn has(&self, start: u16, quantity: usize) -> bool
        requires some { 0 < quantity }
        requires few { quantity ≤ 65535 }
        ensures { IsTrue result ↔ IsWhole start quantity self.now }
    {
        let start = u32::from(start) as usize;
        self.start as usize <= start && start + quantity <= self.start as usize + self.numbers.len()
    }

    /// The numbers of a range that is whole in the table.
    pub(crate) fn range(&self, start: u16, quantity: usize) -> &[u16]
        requires some { 0 < quantity }
        requires whole { IsWhole start quantity self.now }
        ensures count { length result.now ≡ quantity }
        ensures numbers { Holds start result.now self.now }
    {
        let place = (u32::from(start) - self.start) as usize;
        &self.numbers.as_slice()[place..place + quantity]
    }

    /// Writes numbers over a range that is whole in the table.
    pub(crate) fn write(&mut self, start: u16, numbers: &[u16])
        requires some { 0 < length numbers.now }
        requires whole { IsWhole start (length numbers.now) self.old }
        ensures { self.new ≡ written start numbers.now self.old }
    {
        let place = (u32::from(start) - self.start) as usize;
        self.numbers.as_mut_slice()[place..place + numbers.len()].copy_from_slice(numbers);
    }
    /// The bits of a span, or none where it isn't whole in the table.
    pub(crate) fn bits(&self, span: Span) -> Option<Bits>
        requires quantity { IsQuantity 2000 span.quantity }
        requires bits { AreBits self.now }
        ensures found { IfSome result (λ bits. IsWhole span.start span.quantity self.now × Reads self.now span (map number_of bits)) }
        ensures none { IfNone result (IsWhole span.start span.quantity self.now → ⊥) }
    {
        let quantity = usize::from(span.quantity);
        if !self.has(span.start, quantity) {
            return None;
        }
        bits_of(self.range(span.start, quantity))
    }

    /// The registers of a span, or none where it isn't whole in the table.
    pub(crate) fn registers(&self, span: Span) -> Option<Registers>
        requires { IsQuantity 125 span.quantity }
        ensures found { IfSome result (λ words. IsWhole span.start span.quantity self.now × Reads self.now span words) }
        ensures none { IfNone result (IsWhole span.start span.quantity self.now → ⊥) }
    {
        let quantity = usize::from(span.quantity);
        if !self.has(span.start, quantity) {
            return None;
        }
        Registers::from_slice(self.range(span.start, quantity))
    }

    /// Puts a number at an address, or tells that the table lacks it and changes nothing.
    pub(crate) fn set(&mut self, address: u16, number: u16) -> bool
        ensures test { IsTrue result ↔ IsSome (cell_at address self.old) }
        ensures done { OnTrue result (self.new ≡ written address (number ∷ []) self.old) }
        ensures refused { OnFalse result (self.new ≡ self.old) }
    {
        self.put(address, &[number])
    }

    /// Writes numbers from an address on, or tells that the range isn't whole in the table and
    /// changes nothing.
    pub(crate) fn put(&mut self, start: u16, numbers: &[u16]) -> bool
        requires some { 0 < length numbers.now }
        requires few { length numbers.now ≤ 65535 }
        ensures test { IsTrue result ↔ IsWhole start (length numbers.now) self.old }
        ensures done { OnTrue result (self.new ≡ written start numbers.now self.old) }
        ensures refused { OnFalse result (self.new ≡ self.old) }
    {
        if !self.has(start, numbers.len()) {
            return false;
        }
        self.write(start, numbers);
        true
    }
}

/// The bits that numbers of 0 and 1 stand for.
fn bits_of(numbers: &[u16]) -> Option<Bits>
    requires some { 0 < length numbers.now }
    requires few { length numbers.now ≤ 2000 }
    requires bits { (k : ℕ) → slice_index numbers.now k ≤ 1 }
    ensures some { IsSome result }
    ensures bits { IfSome result (λ bits. map number_of bits ≡ numbers.now) }
{
    let mut bits = [false; 2000];
    for (k, number) in numbers.iter().enumerate() {
        bits[k] = *number == 1;
    }
    Bits::from_slice(&bits[..numbers.len()])
}
