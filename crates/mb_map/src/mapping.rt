//! The four tables of a device.
ghost use Rattle.std.specs.Prelude.{◌≡◌, ◌≢◌, IfErr, ◌↔◌, ◌≤◌, ◌<◌, ◌+◌, ◌∷◌, [], IsTrue, IsSome, IfOk, IfSome, IsErrOf};
ghost use Rattle.std.specs.Bool.{OnTrue, OnFalse};
ghost use Rattle.mb_map.specs.Tables.{cell_at, cells_of, greatest, with_cells, written, zero_tables, IsTooLarge};

use crate::cells::Cells;
use crate::error::MapError;
use mb_pdu::Table;
use std::alloc::Global;
use std::marker::Model;

/// The four tables of a device. A bit cell holds 0 or 1.
#[derive(Debug, Drop)]
pub struct Mapping {
    pub(crate) coils: Cells,
    pub(crate) discrete: Cells,
    pub(crate) input: Cells,
    pub(crate) holding: Cells,
}

impl Model for Mapping {
    ghost use Rattle.mb_map.specs.Tables.{Tables, AreBits};

    ghost Value = { Tables };

    ghost view = { λ m. record { coils = m.coils; discrete = m.discrete; input = m.input; holding = m.holding } };

    ghost invariant = { λ m. AreBits m.coils × AreBits m.discrete };
}

/// Whether a table of this start and size would pass the last address.
fn is_too_large(start: u32, size: u32) -> bool
    ensures { IsTrue result ↔ (65536 < start + size) }
{
    u64::from(start) + u64::from(size) > 65536
}

/// The greatest number that a cell of a table may hold.
fn greatest(table: Table) -> u16
    ensures { result ≡ greatest table }
{
    match table {
        Table::Coil | Table::Discrete => 1,
        Table::Input | Table::Holding => u16::MAX,
    }
}

impl Mapping {
    /// Tables of these sizes, all from address 0 on, with zero in every cell.
    ///
    /// `TooLarge` comes exactly where a size is over 65,536, else `Memory` where it is refused.
    pub fn new(
        alloc: Global,
        nb_bits: u32,
        nb_input_bits: u32,
        nb_registers: u32,
        nb_input_registers: u32,
    ) -> Result<Mapping, MapError>
        ensures made { IfOk result (λ mapping. mapping ≡ zero_tables 0 nb_bits 0 nb_input_bits 0 nb_registers 0 nb_input_registers) }
        ensures too_large { IsErrOf result MapError.TooLarge ↔ IsTooLarge 0 nb_bits 0 nb_input_bits 0 nb_registers 0 nb_input_registers }
        ensures other { IfErr result (λ e. e ≢ MapError.BadImage) }
    {
        Mapping::new_start_address(
            alloc,
            0,
            nb_bits,
            0,
            nb_input_bits,
            0,
            nb_registers,
            0,
            nb_input_registers,
        )
    }

    /// Tables of these starts and sizes, with zero in every cell.
    ///
    /// `TooLarge` comes exactly where a start plus its size is over 65,536, else `Memory` where
    /// it is refused.
    pub fn new_start_address(
        alloc: Global,
        start_bits: u32,
        nb_bits: u32,
        start_input_bits: u32,
        nb_input_bits: u32,
        start_registers: u32,
        nb_registers: u32,
        start_input_registers: u32,
        nb_input_registers: u32,
    ) -> Result<Mapping, MapError>
        ensures made { IfOk result (λ mapping. mapping ≡ zero_tables start_bits nb_bits start_input_bits nb_input_bits start_registers nb_registers start_input_registers nb_input_registers) }
        ensures too_large { IsErrOf result MapError.TooLarge ↔ IsTooLarge start_bits nb_bits start_input_bits nb_input_bits start_registers nb_registers start_input_registers nb_input_registers }
        ensures other { IfErr result (λ e. e ≢ MapError.BadImage) }
    {
        if is_too_large(start_bits, nb_bits)
            || is_too_large(start_input_bits, nb_input_bits)
            || is_too_large(start_registers, nb_registers)
            || is_too_large(start_input_registers, nb_input_registers)
        {
            return Err(MapError::TooLarge);
        }
        Ok(Mapping {
            coils: Cells::zeroed(alloc, start_bits, nb_bits)?,
            discrete: Cells::zeroed(alloc, start_input_bits, nb_input_bits)?,
            input: Cells::zeroed(alloc, start_input_registers, nb_input_registers)?,
            holding: Cells::zeroed(alloc, start_registers, nb_registers)?,
        })
    }

    /// The number at an address of a table, 0 or 1 for a bit; none outside the table.
    pub fn get(&self, table: Table, address: u16) -> Option<u16>
        ensures value { result ≡ cell_at address (cells_of table self.now) }
        ensures small { IfSome result (λ number. number ≤ greatest table) }
    {
        match table {
            Table::Coil => self.coils.get(address),
            Table::Discrete => self.discrete.get(address),
            Table::Input => self.input.get(address),
            Table::Holding => self.holding.get(address),
        }
    }

    /// Puts a number at an address of a table. It is refused, and nothing is changed, for an
    /// address outside the table and for a bit over 1.
    pub fn set(&mut self, table: Table, address: u16, number: u16) -> bool
        ensures test { IsTrue result ↔ (IsSome (cell_at address (cells_of table self.old)) × (number ≤ greatest table)) }
        ensures done { OnTrue result (self.new ≡ with_cells table (written address (number ∷ []) (cells_of table self.old)) self.old) }
        ensures refused { OnFalse result (self.new ≡ self.old) }
    {
        if number > greatest(table) {
            return false;
        }
        match table {
            Table::Coil => self.coils.set(address, number),
            Table::Discrete => self.discrete.set(address, number),
            Table::Input => self.input.set(address, number),
            Table::Holding => self.holding.set(address, number),
        }
    }
}
