//! Laws of the definitions alone.

ghost use Rattle.std.specs.Prelude.{◌≡◌, ◌≢◌, ◌⊎◌, ◌≤◌, ◌<◌, ◌+◌, ◌-◌, ◌*◌, ◌^◌, ℕ, All, None, Some};
ghost use Rattle.poll_book.specs.declared.rows.PointRow.{PointRow};
ghost use Rattle.poll_book.specs.declared.rows.Reading.{Reading};
ghost use Rattle.poll_book.specs.Tables.{AreByKey, Key, Readings, reading_at, with_row};
ghost use Rattle.poll_book.specs.Totals.{reading_number, removed, repaired, total, value_after, value_before};

/// A reading in a slot in which its point has none changes the point's total by the steps between the
/// nearest counted readings and itself, wherever the slot is: the repaired total is the total of all
/// readings. Where there is one on either side, the total stays, or it rises by a whole roll. A reading
/// that doesn't count, or one of another point, changes nothing. Totals have room for this: a point has
/// at most a reading for each slot.
pub fn repaired_total()
    ensures repaired { (known : PointRow) (slot value : ℕ) (reading : Reading) (table : Readings) → AreByKey table
        → reading_at table (known.number, slot) ≡ None → reading_number known.point reading ≡ Some value
        → total known table + (known.point.roll + 1) ≤ 2 ^ 127 - 1
        → total known (with_row (known.number, slot) reading table)
        ≡ repaired (total known table) (value_before known slot table) value (value_after known slot table) known.point.roll }
    ensures late { (known : PointRow) (slot value before after : ℕ) (reading : Reading) (table : Readings) → AreByKey table
        → reading_at table (known.number, slot) ≡ None → reading_number known.point reading ≡ Some value
        → value_before known slot table ≡ Some before → value_after known slot table ≡ Some after
        → (total known (with_row (known.number, slot) reading table) ≡ total known table)
        ⊎ (total known (with_row (known.number, slot) reading table) ≡ total known table + (known.point.roll + 1)) }
    ensures not_counted { (known : PointRow) (slot : ℕ) (reading : Reading) (table : Readings) → AreByKey table
        → reading_at table (known.number, slot) ≡ None → reading_number known.point reading ≡ None
        → total known (with_row (known.number, slot) reading table) ≡ total known table }
    ensures of_another { (known : PointRow) (key : Key) (reading : Reading) (table : Readings) → key.0 ≢ known.number
        → total known (with_row key reading table) ≡ total known table }
    ensures small { (known : PointRow) (table : Readings) → AreByKey table → All (λ row. row.0.1 < 2 ^ 32) table
        → total known table ≤ 2 ^ 32 * known.point.roll }
{}

/// A reading that counts and is written over by one that doesn't, as where its slot is voided, changes the
/// point's total by the steps between the nearest counted readings and itself: the total from which it is
/// removed is the total of what still counts. Where there is one on either side, the total stays, or it
/// falls by a whole roll.
pub fn removed_total()
    ensures removed { (known : PointRow) (slot value : ℕ) (there reading : Reading) (table : Readings) → AreByKey table
        → reading_at table (known.number, slot) ≡ Some there → reading_number known.point there ≡ Some value → reading_number known.point reading ≡ None
        → total known table + (known.point.roll + 1) ≤ 2 ^ 127 - 1
        → total known (with_row (known.number, slot) reading table)
        ≡ removed (total known table) (value_before known slot table) value (value_after known slot table) known.point.roll }
    ensures between { (known : PointRow) (slot value before after : ℕ) (there reading : Reading) (table : Readings) → AreByKey table
        → reading_at table (known.number, slot) ≡ Some there → reading_number known.point there ≡ Some value → reading_number known.point reading ≡ None
        → value_before known slot table ≡ Some before → value_after known slot table ≡ Some after
        → (total known (with_row (known.number, slot) reading table) ≡ total known table)
        ⊎ (total known (with_row (known.number, slot) reading table) + (known.point.roll + 1) ≡ total known table) }
{}
