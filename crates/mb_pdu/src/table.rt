//! The four tables of a device, by name.
ghost use Rattle.std.specs.Prelude.{Some};
ghost use Rattle.mb_pdu.specs.Tables.{table_name};

use std::fmt;

/// One of the four tables of a device (Modbus Application Protocol V1.1b3, 4.3). It prints as
/// `coil`, `discrete`, `input` or `holding`, the words of a point list.
#[derive(Clone, Copy, Debug, PartialEq, Eq, Hash)]
pub enum Table {
    /// Bits that are read and written.
    Coil,
    /// Bits that are only read.
    Discrete,
    /// Registers that are only read.
    Input,
    /// Registers that are read and written.
    Holding,
}

impl fmt::Display for Table {
    ghost output = { λ table. Some (table_name table) };

    fn fmt<W: fmt::Write>(&self, f: &mut fmt::Formatter<W>) -> fmt::Result {
        f.pad(match self {
            Table::Coil => "coil",
            Table::Discrete => "discrete",
            Table::Input => "input",
            Table::Holding => "holding",
        })
    }
}
