//! A device's answer to a request over its tables.
ghost use Rattle.std.specs.Prelude.{if◌then◌else◌, ◌≡◌, ◌↔◌, ◌≤◌, ◌<◌, ◌∷◌, [], length, map, IsTrue, IfSome, IfNone};
ghost use Rattle.std.specs.Bool.{OnTrue, OnFalse};
ghost use Rattle.mb_pdu.specs.Grammar.{IsQuantity, IsValid};
ghost use Rattle.mb_map.specs.Tables.{IsWhole, written as written_cells};
ghost use Rattle.mb_map.specs.Device.{DeviceStep, Does, IsInside, IsMasked, Reads, code_of, exception, number_of};
ghost use Rattle.mb_pdu.specs.declared.reply.Reply.TheVariants as AReply;

use crate::mapping::Mapping;
use mb_pdu::{Registers, Reply, Request, Span, Unit, UnitError};

/// An exception to a request: its function byte with the highest bit set, and a code.
pub(crate) fn exception(request: &Unit, code: u8) -> Unit
    ensures { result ≡ exception request.now code }
{
    let function = request.as_bytes()[0];
    Unit::from_bytes(&[function | 0x80, code]).unwrap()
}

/// The code for bytes that are no request.
fn code_of(fault: UnitError) -> u8
    ensures { result ≡ code_of fault }
{
    match fault {
        UnitError::UnknownFunction(_) => 1,
        _ => 3,
    }
}

fn written(done: bool) -> Option<Reply>
    ensures { result ≡ (if done then Some AReply.Written else None) }
{
    if done { Some(Reply::Written) } else { None }
}

impl Mapping {
    /// Performs a request of any bytes and answers it.
    ///
    /// A function that isn't known is answered with exception 01, any other bytes that are no
    /// request with 03, and a range that isn't whole in its table with 02; then nothing is
    /// changed. Exception 04 never comes. Function 23 checks both of its ranges, then writes,
    /// and then reads (Modbus Application Protocol V1.1b3, 6.1 to 6.17 and 7).
    pub fn reply(&mut self, request: &Unit) -> Unit
        ensures { DeviceStep self.old request.now result self.new }
    {
        match Request::decode(request.as_bytes()) {
            Ok(decoded) => match self.perform(&decoded) {
                Some(reply) => reply.encode(&decoded),
                None => exception(request, 2),
            },
            Err(fault) => exception(request, code_of(fault)),
        }
    }

    // The normal reply, or none and no change where a range isn't whole in its table.
    fn perform(&mut self, request: &Request) -> Option<Reply>
        requires { IsValid request.now }
        ensures done { IfSome result (λ reply. IsInside request.now self.old × Does request.now self.old reply self.new) }
        ensures outside { IfNone result (IsInside request.now self.old → ⊥) }
        ensures same { IfNone result (self.new ≡ self.old) }
    {
        match request {
            Request::ReadCoils(span) => Some(Reply::Bits(self.coils.bits(*span)?)),
            Request::ReadDiscrete(span) => Some(Reply::Bits(self.discrete.bits(*span)?)),
            Request::ReadHolding(span) => Some(Reply::Registers(self.holding.registers(*span)?)),
            Request::ReadInput(span) => Some(Reply::Registers(self.input.registers(*span)?)),
            Request::WriteCoil { address, on } => written(self.write_coils(*address, &[*on])),
            Request::WriteRegister { address, value } => written(
                self.holding.put(*address, &[*value]),
            ),
            Request::WriteCoils { start, bits } => written(self.write_coils(
                *start,
                bits.as_slice(),
            )),
            Request::WriteRegisters { start, words } => written(
                self.holding.put(*start, words.as_slice()),
            ),
            Request::MaskWrite {
                address,
                and_mask,
                or_mask,
            } => written(self.mask(*address, *and_mask, *or_mask)),
            Request::ReadWrite {
                read,
                write_start,
                words,
            } => Some(Reply::Registers(self.write_and_read(
                *read,
                *write_start,
                words.as_slice(),
            )?)),
        }
    }

    // Writes bits over coils, or tells that the range isn't whole and changes nothing.
    fn write_coils(&mut self, start: u16, bits: &[bool]) -> bool
        requires some { 0 < length bits.now }
        requires few { length bits.now ≤ 1968 }
        ensures test { IsTrue result ↔ IsWhole start (length bits.now) self.old.coils }
        ensures done { OnTrue result (self.new ≡ record self.old { coils = written_cells start (map number_of bits.now) self.old.coils }) }
        ensures refused { OnFalse result (self.new ≡ self.old) }
    {
        let mut numbers = [0; 1968];
        for (k, bit) in bits.iter().enumerate() {
            numbers[k] = u16::from(*bit);
        }
        self.coils.put(start, &numbers[..bits.len()])
    }

    // Changes a register by masks, or tells that the table lacks it and changes nothing.
    fn mask(&mut self, address: u16, and_mask: u16, or_mask: u16) -> bool
        ensures test { IsTrue result ↔ IsWhole address 1 self.old.holding }
        ensures done { OnTrue result (IsMasked address and_mask or_mask self.old self.new) }
        ensures refused { OnFalse result (self.new ≡ self.old) }
    {
        match self.holding.get(address) {
            Some(old) => {
                let new = (old & and_mask) | (or_mask & !and_mask);
                self.holding.put(address, &[new])
            }
            None => false,
        }
    }

    // Writes registers and then reads a span, or none and no change where a range isn't whole.
    fn write_and_read(&mut self, read: Span, start: u16, words: &[u16]) -> Option<Registers>
        requires read { IsQuantity 125 read.quantity }
        requires write { IsQuantity 121 (length words.now) }
        ensures inside { IfSome result (λ _. IsWhole read.start read.quantity self.old.holding × IsWhole start (length words.now) self.old.holding) }
        ensures outside { IfNone result (IsWhole read.start read.quantity self.old.holding × IsWhole start (length words.now) self.old.holding → ⊥) }
        ensures done { IfSome result (λ _. self.new ≡ record self.old { holding = written_cells start words.now self.old.holding }) }
        ensures found { IfSome result (λ found. Reads self.new.holding read found) }
        ensures same { IfNone result (self.new ≡ self.old) }
    {
        if !self.holding.has(read.start, usize::from(read.quantity))
            || !self.holding.put(start, words)
        {
            return None;
        }
        self.holding.registers(read)
    }
}
