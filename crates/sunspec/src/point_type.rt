//! Types of points: their names, their sizes and what their registers hold.
ghost use Rattle.std.specs.Prelude.{◌≡◌, ◌↔◌, ◌^◌, ◌-◌, ◌≤◌, IfSome, IsTrue, MatchResult, None, Some};
ghost use Rattle.sunspec.specs.Value.{AreRegistersOf};
ghost use Rattle.sunspec.specs.PointType.{IsSized, bits, bits_of, can_be_swapped, coded, is_unimplemented, named, resized, row, row_shown};

use std::fmt;
use std::str::FromStr;
use thiserror::Error;

/// The type of a point. `Str` carries its number of registers, 1 to 125. It prints as its name, without
/// the length of a string.
#[derive(Clone, Copy, Debug, PartialEq, Eq, Hash)]
pub enum PointType {
    Int16,
    Uint16,
    Acc16,
    Enum16,
    Bitfield16,
    Sunssf,
    Int32,
    Uint32,
    Acc32,
    Enum32,
    Bitfield32,
    Int64,
    Uint64,
    Acc64,
    Ipaddr,
    Str(u8),
    Bit,
}

/// What the registers of a type hold.
#[derive(Clone, Copy, Debug, PartialEq, Eq)]
pub enum Content {
    /// A number in two's complement, 16 bits a register.
    Signed,
    /// A number of 16 bits a register.
    Unsigned,
    /// The same, written as four bytes.
    Address,
    /// 0 or 1, in one cell.
    Bit,
    /// Bytes, two a register, up to the first zero byte.
    Text,
}

/// A row of the table of types.
#[derive(Clone, Copy, Debug, PartialEq, Eq)]
pub struct Row {
    pub code: u8,
    pub name: &'static str,
    pub registers: u16,
    pub content: Content,
    /// The sum of the registers that means that the point is not implemented.
    pub unimplemented: Option<u64>,
    /// Whether a counter may have the type.
    pub counts: bool,
    /// Whether numbers of the type are scaled.
    pub scaled: bool,
    /// Whether an order may set a point of the type.
    pub can_be_set: bool,
}

// What points of a type are for.
#[derive(Clone, Copy)]
struct Uses {
    counts: bool,
    scaled: bool,
    can_be_set: bool,
}

const COUNTER: Uses = Uses {
    counts: true,
    scaled: true,
    can_be_set: true,
};

const TOTAL: Uses = Uses {
    counts: true,
    scaled: true,
    can_be_set: false,
};

const NUMBER: Uses = Uses {
    counts: false,
    scaled: true,
    can_be_set: true,
};

const CHOICE: Uses = Uses {
    counts: false,
    scaled: false,
    can_be_set: true,
};

const NEITHER: Uses = Uses {
    counts: false,
    scaled: false,
    can_be_set: false,
};

impl Row {
    const fn new(
        code: u8,
        name: &'static str,
        registers: u16,
        content: Content,
        unimplemented: Option<u64>,
        uses: Uses,
    ) -> Row
        ensures { row_shown result ≡ record {
          code = code;
          name = name.now;
          registers = registers;
          content = content;
          unimplemented = unimplemented;
          counts = uses.counts;
          scaled = uses.scaled;
          can_be_set = uses.can_be_set;
        } }
    {
        Row {
            code,
            name,
            registers,
            content,
            unimplemented,
            counts: uses.counts,
            scaled: uses.scaled,
            can_be_set: uses.can_be_set,
        }
    }
}

impl Row {
    /// How many bits the numbers of the type have: 16 a register, 1 for a bit, 0 for a string.
    pub fn bits(&self) -> u32
        ensures { result ≡ bits self.now.content self.now.registers }
    {
        match self.content {
            Content::Signed | Content::Unsigned | Content::Address => 16 * self.registers as u32,
            Content::Bit => 1,
            Content::Text => 0,
        }
    }

    /// Whether registers of this sum mean that the point is not implemented.
    pub fn is_unimplemented(&self, sum: u64) -> bool
        ensures { result ≡ is_unimplemented self.now.unimplemented sum }
    {
        self.unimplemented == Some(sum)
    }
}

/// The greatest number of so many bits.
pub(crate) fn greatest_of(bits: u32) -> u64
    requires { bits ≤ 64 }
    ensures { result ≡ 2 ^ bits - 1 }
{
    ((1u128 << bits) - 1) as u64
}

impl PointType {
    const ALL: [PointType; 17] = [
        PointType::Int16,
        PointType::Uint16,
        PointType::Acc16,
        PointType::Enum16,
        PointType::Bitfield16,
        PointType::Sunssf,
        PointType::Int32,
        PointType::Uint32,
        PointType::Acc32,
        PointType::Enum32,
        PointType::Bitfield32,
        PointType::Int64,
        PointType::Uint64,
        PointType::Acc64,
        PointType::Ipaddr,
        PointType::Str(1),
        PointType::Bit,
    ];

    /// The row of the table for this type (SunSpec Device Information Model, point types).
    // In a caller that wants a column or two the rest of the row falls away.
    #[inline(always)]
    #[tactic(auto, unfolding(crate::specs::PointType::row))]
    pub fn row(&self) -> Row
        ensures { row_shown result ≡ row self.now }
    {
        use Content::{Address, Signed, Text, Unsigned};
        match self {
            Self::Int16 => Row::new(1, "int16", 1, Signed, Some(0x8000), NUMBER),
            Self::Uint16 => Row::new(2, "uint16", 1, Unsigned, Some(0xFFFF), COUNTER),
            Self::Acc16 => Row::new(3, "acc16", 1, Unsigned, Some(0), TOTAL),
            Self::Enum16 => Row::new(4, "enum16", 1, Unsigned, Some(0xFFFF), CHOICE),
            Self::Bitfield16 => Row::new(5, "bitfield16", 1, Unsigned, Some(0xFFFF), CHOICE),
            Self::Sunssf => Row::new(6, "sunssf", 1, Signed, Some(0x8000), NEITHER),
            Self::Int32 => Row::new(7, "int32", 2, Signed, Some(0x8000_0000), NUMBER),
            Self::Uint32 => Row::new(8, "uint32", 2, Unsigned, Some(0xFFFF_FFFF), COUNTER),
            Self::Acc32 => Row::new(9, "acc32", 2, Unsigned, Some(0), TOTAL),
            Self::Enum32 => Row::new(10, "enum32", 2, Unsigned, Some(0xFFFF_FFFF), CHOICE),
            Self::Bitfield32 => Row::new(11, "bitfield32", 2, Unsigned, Some(0xFFFF_FFFF), CHOICE),
            Self::Int64 => Row::new(12, "int64", 4, Signed, Some(0x8000_0000_0000_0000), NUMBER),
            Self::Uint64 => Row::new(13, "uint64", 4, Unsigned, Some(u64::MAX), COUNTER),
            Self::Acc64 => Row::new(14, "acc64", 4, Unsigned, Some(0), TOTAL),
            Self::Ipaddr => Row::new(15, "ipaddr", 2, Address, Some(0), NEITHER),
            Self::Str(registers) => Row::new(
                16,
                "string",
                *registers as u16,
                Text,
                Some(0),
                NEITHER,
            ),
            Self::Bit => Row::new(17, "bit", 1, Content::Bit, None, CHOICE),
        }
    }

    /// How many registers a point of the type takes; a bit takes one cell.
    pub fn registers(&self) -> u16
        ensures { result ≡ (row self.now).registers }
    {
        self.row().registers
    }

    /// The name of the type, without the length of a string.
    pub fn name(&self) -> &'static str
        ensures { result.now ≡ (row self.now).name }
    {
        self.row().name
    }

    /// The number that stands for the type in the store, 1 to 17.
    pub fn code(&self) -> u8
        ensures { result ≡ (row self.now).code }
    {
        self.row().code
    }

    /// Whether a counter may have the type.
    pub fn counts(&self) -> bool
        ensures { result ≡ (row self.now).counts }
    {
        self.row().counts
    }

    /// Whether numbers of the type are scaled.
    pub fn is_scaled(&self) -> bool
        ensures { result ≡ (row self.now).scaled }
    {
        self.row().scaled
    }

    /// Whether an order may set a point of the type.
    pub fn can_be_set(&self) -> bool
        ensures { result ≡ (row self.now).can_be_set }
    {
        self.row().can_be_set
    }

    /// Whether a device may send the registers of the type with the least significant one first: those
    /// of a number that has two or four.
    pub fn can_be_swapped(&self) -> bool
        ensures { result ≡ can_be_swapped self.now }
    {
        let row = self.row();
        match row.content {
            Content::Text => false,
            _ => row.registers == 2 || row.registers == 4,
        }
    }

    /// The greatest number of the type's bits: 2^16 - 1, 2^32 - 1 or 2^64 - 1, 1 for a bit and 0
    /// for a string. A counter rolls over after it unless its list says otherwise.
    pub fn greatest(&self) -> u64
        ensures { result ≡ 2 ^ bits_of self.now - 1 }
    {
        greatest_of(self.row().bits())
    }

    /// Whether a string has 1 to 125 registers; every other type passes.
    pub fn is_sized(&self) -> bool
        ensures { IsTrue result ↔ IsSized self.now }
    {
        match self {
            PointType::Str(registers) => (1..=125).contains(registers),
            _ => true,
        }
    }

    /// Whether these can be the registers of a point: as many as the type has, and 0 or 1 for a
    /// bit.
    pub fn has_registers(&self, words: &[u16]) -> bool
        ensures { IsTrue result ↔ AreRegistersOf self.now words.now }
    {
        match self {
            PointType::Bit => words.len() == 1 && words[0] <= 1,
            kind => words.len() == kind.registers() as usize,
        }
    }

    /// The type of a code. A string comes with one register: `with_registers` gives it its length.
    pub fn from_code(code: u8) -> Option<PointType>
        ensures { result ≡ coded code }
    {
        Self::ALL
            .iter()
            .copied()
            .find(|kind| kind.row().code == code)
    }

    /// The type of a name as `name` gives it. A string comes with one register: `with_registers`
    /// gives it its length.
    pub fn from_name(name: &str) -> Option<PointType>
        ensures { result ≡ named name.now }
    {
        Self::ALL
            .iter()
            .copied()
            .find(|kind| kind.row().name == name)
    }

    /// The type of this name with so many registers, if there is one: a string of any length from
    /// 1 to 125, every other type with its own number alone.
    pub fn with_registers(&self, registers: u16) -> Option<PointType>
        ensures kind { result ≡ resized self.now registers }
        ensures sized { IfSome result (λ kind. IsSized kind) }
    {
        match self {
            PointType::Str(_) => {
                if registers == 0 || registers > 125 {
                    return None;
                }
                Some(PointType::Str(registers as u8))
            }
            kind => {
                if kind.registers() == registers {
                    Some(*kind)
                } else {
                    None
                }
            }
        }
    }
}

impl fmt::Display for PointType {
    ghost output = { λ kind. Some (row kind).name };

    fn fmt<W: fmt::Write>(&self, f: &mut fmt::Formatter<W>) -> fmt::Result {
        f.pad(self.name())
    }
}

/// No type has this name, or this code.
#[derive(Clone, Copy, Debug, PartialEq, Eq, Error)]
#[error("unknown type")]
pub struct PointTypeError;

/// As `from_code`.
impl TryFrom<u8> for PointType {
    type Error = PointTypeError;

    ghost try_from_gives = { λ code result. MatchResult result
        (λ kind. coded code ≡ Some kind)
        (λ _. coded code ≡ None) };

    fn try_from(code: u8) -> Result<PointType, PointTypeError> {
        PointType::from_code(code).ok_or(PointTypeError)
    }
}

/// As `from_name`.
impl FromStr for PointType {
    type Err = PointTypeError;

    ghost from_str_gives = { λ name result. MatchResult result
        (λ kind. named name ≡ Some kind)
        (λ _. named name ≡ None) };

    fn from_str(name: &str) -> Result<PointType, PointTypeError> {
        PointType::from_name(name).ok_or(PointTypeError)
    }
}
