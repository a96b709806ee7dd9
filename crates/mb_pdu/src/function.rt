//! Function codes (Modbus Application Protocol V1.1b3, section 5.1).
pub(crate) const READ_COILS: u8 = 1;

pub(crate) const READ_DISCRETE: u8 = 2;

pub(crate) const READ_HOLDING: u8 = 3;

pub(crate) const READ_INPUT: u8 = 4;

pub(crate) const WRITE_COIL: u8 = 5;

pub(crate) const WRITE_REGISTER: u8 = 6;

pub(crate) const WRITE_COILS: u8 = 15;

pub(crate) const WRITE_REGISTERS: u8 = 16;

pub(crate) const MASK_WRITE: u8 = 22;

pub(crate) const READ_WRITE: u8 = 23;

/// What an exception adds to the function code (section 7).
pub(crate) const EXCEPTION: u8 = 0x80;
