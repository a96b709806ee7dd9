//! The tables of a device, and what they answer.
use crate::names::table_of;
use crate::texts::{hex_text, outcome, shown};
use case_pages::{Outcomes, Trouble, hex_of};
use mb_map::{MapError, Mapping};
use mb_pdu::{Table, Unit};
use std::alloc::Global;

fn numbers_of(alloc: Global, text: &str) -> Result<Vec<u32>, Trouble> {
    let numbers = text.split(' ').filter_map(|word| word.parse::<u32>().ok());
    Ok(numbers.collect(alloc)?)
}

fn tables_of(alloc: Global, sizes: &[u32]) -> Option<Result<Mapping, MapError>> {
    match sizes {
        [bits, words] => Some(Mapping::new(alloc, *bits, *bits, *words, *words)),
        [start, bits, words] => Some(Mapping::new_start_address(
            alloc, *start, *bits, *start, *bits, *start, *words, *start, *words,
        )),
        [a, b, c, d, e, f, g, h] => Some(Mapping::new_start_address(
            alloc, *a, *b, *c, *d, *e, *f, *g, *h,
        )),
        _ => None,
    }
}

/// Two tables of bits and two of registers: `BITS REGISTERS` says how many there are of each, from address 0 on,
/// `START BITS REGISTERS` from which address on, and eight numbers the start and the size of each.
fn mapping_of(alloc: Global, sizes: &str) -> Result<Result<Mapping, MapError>, Trouble> {
    tables_of(alloc, &numbers_of(alloc, sizes)?).ok_or(Trouble::Page("no sizes of tables"))
}

/// That tables were made.
#[derive(Clone, Copy, Debug)]
struct Tabled;

/// Whether tables of these sizes are made.
pub(crate) fn sizes(alloc: Global, input: &str) -> Result<String, Trouble> {
    outcome(alloc, mapping_of(alloc, input)?.map(|_| Tabled))
}

/// A device under way through the rows of a block.
#[derive(Drop)]
pub(crate) struct Tables {
    alloc: Global,
    mapping: Mapping,
}

impl Tables {
    /// Memory is asked for once more where it was refused.
    pub(crate) fn new(alloc: Global, sizes: &str) -> Result<Tables, Trouble> {
        let made = match mapping_of(alloc, sizes)? {
            Err(MapError::Memory) => mapping_of(alloc, sizes)?,
            other => other,
        };
        let mapping = made.map_err(|_| Trouble::Page("no tables"))?;
        Ok(Tables { alloc, mapping })
    }
}

/// `TABLE ADDRESS`.
fn place_of(input: &str) -> Option<(Table, u16)> {
    let (table, address) = input.split_once(' ')?;
    Some((table_of(table)?, address.parse::<u16>().ok()?))
}

/// `TABLE ADDRESS NUMBER`.
pub(crate) fn cell_of(input: &str) -> Option<(Table, u16, u16)> {
    let (place, number) = input.rsplit_once(' ')?;
    let (table, address) = place_of(place)?;
    Some((table, address, number.parse::<u16>().ok()?))
}

/// What comes of `TABLE ADDRESS NUMBER`.
fn set(mapping: &mut Mapping, input: &str) -> Option<bool> {
    let (table, address, number) = cell_of(input)?;
    Some(mapping.set(table, address, number))
}

impl Outcomes for Tables {
    /// The reply to a unit, or what comes of `set TABLE ADDRESS NUMBER` or `get TABLE ADDRESS`.
    fn outcome(&mut self, input: &str) -> Result<String, Trouble> {
        if let Some(cell) = input.strip_prefix("set ") {
            return Ok(shown(self.alloc, &set(&mut self.mapping, cell))?);
        }
        if let Some((table, address)) = input.strip_prefix("get ").and_then(place_of) {
            return Ok(shown(self.alloc, &self.mapping.get(table, address))?);
        }
        let Some(asked) = Unit::from_bytes(&hex_of(self.alloc, input)?) else {
            return Err(Trouble::Page("no unit"));
        };
        Ok(hex_text(self.alloc, self.mapping.reply(&asked).as_bytes())?)
    }
}
