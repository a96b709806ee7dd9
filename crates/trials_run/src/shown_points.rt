//! Points with readings, as tests show them.
use mb_pdu::Table;
use office_pages::Seen;
use point_list::{Label, Name, Point, Role};
use poll_book::{ReadingRow, ShownReading, Words};
use std::alloc::{AllocError, Global};
use sunspec::{PointType, WordOrder};

/// A point of tenths, of a device whose name has to be escaped everywhere.
pub(crate) fn point(name: &str, role: Role) -> Result<Point, AllocError> {
    let (Some(name), Some(device)) = (Name::new(name.as_bytes()), Label::new(b"m\\<\"1\"")) else {
        return Err(AllocError);
    };
    Ok(Point {
        name,
        device,
        table: Table::Holding,
        address: 107,
        kind: PointType::Uint16,
        scale: -1,
        role,
        roll: 65535,
        order: WordOrder::Big,
    })
}

/// A reading of one register.
pub(crate) fn reading(
    alloc: Global,
    slot: u32,
    register: u16,
    voided: bool,
) -> Result<ShownReading, AllocError> {
    let reading = ReadingRow {
        point: 1,
        slot,
        words: Words::new(alloc, &[register])?,
        counted: !voided,
    };
    Ok(ShownReading { reading, voided })
}

/// A counter that is read and voided, a gauge that its device doesn't have, and a setting without a reading.
pub(crate) fn seen(alloc: Global) -> Result<[Seen; 3], AllocError> {
    Ok([
        Seen {
            point: point("e", Role::Counter)?,
            last: Some(reading(alloc, 29_405_000, 65_000, true)?),
            total: Some(665_725),
        },
        Seen {
            point: point("f", Role::Gauge)?,
            last: Some(reading(alloc, 29_404_999, 65_535, false)?),
            total: None,
        },
        Seen {
            point: point("g", Role::Setting)?,
            last: None,
            total: None,
        },
    ])
}
