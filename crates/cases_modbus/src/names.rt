//! Tables and types by their words.
use crate::texts::unless;
use case_pages::Trouble;
use mb_pdu::Table;
use std::alloc::Global;
use sunspec::PointType;

pub(crate) fn table_of(word: &str) -> Option<Table> {
    match word {
        "coil" => Some(Table::Coil),
        "discrete" => Some(Table::Discrete),
        "input" => Some(Table::Input),
        "holding" => Some(Table::Holding),
        _ => None,
    }
}

/// The type of a name, with the registers of a string: `string(8)`.
pub(crate) fn type_of(word: &str) -> Option<PointType> {
    match word.strip_prefix("string(") {
        Some(length) => Some(PointType::Str(length.strip_suffix(')')?.parse::<u8>().ok()?)),
        None => PointType::from_name(word),
    }
}

/// The type of a name, also with so many registers, or of a code.
fn found(input: &str) -> Option<PointType> {
    if let Ok(code) = input.parse::<u8>() {
        return PointType::from_code(code);
    }
    match input.split_once(' ') {
        Some((name, registers)) => {
            PointType::from_name(name)?.with_registers(registers.parse::<u16>().ok()?)
        }
        None => PointType::from_name(input),
    }
}

/// Whether a type's own name and code, with its number of registers, give it again.
fn is_found_again(kind: PointType) -> bool {
    [
        PointType::from_name(kind.name()),
        PointType::from_code(kind.code()),
    ]
    .iter()
    .all(|it| it.is_some_and(|it| it.with_registers(kind.registers()) == Some(kind)))
}

/// What a type has, or that there is none.
pub(crate) fn kind(alloc: Global, input: &str) -> Result<String, Trouble> {
    let Some(kind) = found(input) else {
        return Ok(String::from_str(alloc, "no type")?);
    };
    let (code, registers, greatest) = (kind.code(), kind.registers(), kind.greatest());
    let orders = if kind.can_be_swapped() {
        ", in either order"
    } else {
        ""
    };
    let text = format!(in alloc;
        "{kind:?}: code {code}, registers {registers}, to {greatest}{orders}",
    )?;
    unless(
        is_found_again(kind),
        ", and ANOTHER TYPE by its name or code",
        text,
    )
}
