//! Rows of readings are written.

ghost use Rattle.std.specs.Prelude.{◌≡◌, ◌⊎◌, ◌≤◌, ℕ, [], IfOk, IsTrue, List, OnOk, if◌then◌else◌, length, take};
ghost use Rattle.sqlite.specs.Values.{bound};
ghost use Rattle.sqlite.specs.Effect.{Database};
ghost use Rattle.sqlite.specs.Held.{state};
ghost use Rattle.sqlite.specs.State.{HasCleanDisk, KeepsCommit, Survives};
ghost use Rattle.poll_book.specs.Tables.{Tables, reading_at, with_row, with_rows};
ghost use Rattle.poll_book.specs.Changes.{HasWords, KeepWords, as_rows};
ghost use Rattle.office_store.specs.Rows.{IsRowOf, register_bytes};
ghost use Rattle.office_store.specs.Writing.{Within};

use crate::run::{add, run};
use poll_book::{ReadingRow, StoreFault, Words};
use sqlite::types::{ToSql, ValueRef};
use sqlite::{Alter, Transaction, params};

/// Writes the bytes of registers, two a register and most significant first, and says how many
/// they are.
pub(crate) fn put_words(words: &[u16], bytes: &mut [u8; 250]) -> usize
    requires { length words.now ≤ 125 }
    ensures written { take result bytes.new ≡ register_bytes words.now }
    ensures short { result ≤ 250 }
{
    let mut place = 0;
    for word in words {
        bytes[place] = (word / 256) as u8;
        bytes[place + 1] = (word % 256) as u8;
        place += 2;
    }
    place
}

/// Adds a reading; false, and nothing has changed, where its key is taken.
fn add_reading<S: Alter>(
    tx: &mut Transaction<'_, S>,
    point: u32,
    slot: u32,
    words: &Words,
    counted: bool,
) -> Result<bool, StoreFault>
    ensures same_reference { tx.new.conn.ghost_name ≡ tx.old.conn.ghost_name }
    ensures put { HasCleanDisk (state S.Store tx.new.conn.now) → (base : Database) → (kept : Tables) → Within (state S.Store tx.old.conn.now) base kept
        → IfOk result (λ is_added. Within (state S.Store tx.new.conn.now) base (if is_added
        then record kept { readings = with_row (point, slot) (record { words = words.now; counted = counted }) kept.readings } else kept)) }
    ensures inside { HasCleanDisk (state S.Store tx.new.conn.now) → IsTrue (state S.Store tx.old.conn.now).in_transaction → OnOk result (IsTrue (state S.Store tx.new.conn.now).in_transaction) }
    ensures opened { HasCleanDisk (state S.Store tx.new.conn.now) → IsTrue (state S.Store tx.old.conn.now).in_transaction → OnOk result (IsTrue (state S.Store tx.old.conn.now).is_open) }
    ensures kept { HasCleanDisk (state S.Store tx.new.conn.now) → KeepsCommit (state S.Store tx.old.conn.now) (state S.Store tx.new.conn.now) }
    ensures survives { Survives (state S.Store tx.old.conn.now) (state S.Store tx.new.conn.now) (λ _. ⊥) }
{
    let mut bytes = [0; 250];
    let len = put_words(words.as_slice(), &mut bytes);
    add(
        tx,
        "INSERT INTO reading(point, slot, words, counted) VALUES (?1, ?2, ?3, ?4)",
        params![point, slot, &bytes[..len], counted],
    )
}

/// Says how many rows it changed.
fn set_mark<S: Alter>(
    tx: &mut Transaction<'_, S>,
    point: u32,
    slot: u32,
    counted: bool,
) -> Result<usize, StoreFault>
    ensures same_reference { tx.new.conn.ghost_name ≡ tx.old.conn.ghost_name }
    ensures put { HasCleanDisk (state S.Store tx.new.conn.now) → (base : Database) → (kept : Tables) → Within (state S.Store tx.old.conn.now) base kept
        → (words : List ℕ) → HasWords words (reading_at kept.readings (point, slot))
        → IfOk result (λ changed. changed ≡ 1 → Within (state S.Store tx.new.conn.now) base (record kept { readings = with_row (point, slot) (record { words = words; counted = counted }) kept.readings })) }
    ensures inside { HasCleanDisk (state S.Store tx.new.conn.now) → IsTrue (state S.Store tx.old.conn.now).in_transaction → OnOk result (IsTrue (state S.Store tx.new.conn.now).in_transaction) }
    ensures kept { HasCleanDisk (state S.Store tx.new.conn.now) → KeepsCommit (state S.Store tx.old.conn.now) (state S.Store tx.new.conn.now) }
    ensures survives { Survives (state S.Store tx.old.conn.now) (state S.Store tx.new.conn.now) (λ _. ⊥) }
{
    run(
        tx,
        "UPDATE reading SET counted = ?3 WHERE point = ?1 AND slot = ?2",
        params![point, slot, counted],
    )
}

/// Writes over the mark of a reading that is there.
fn mark_reading<S: Alter>(
    tx: &mut Transaction<'_, S>,
    point: u32,
    slot: u32,
    counted: bool,
) -> Result<(), StoreFault>
    ensures same_reference { tx.new.conn.ghost_name ≡ tx.old.conn.ghost_name }
    ensures put { HasCleanDisk (state S.Store tx.new.conn.now) → (base : Database) → (kept : Tables) → Within (state S.Store tx.old.conn.now) base kept
        → (words : List ℕ) → HasWords words (reading_at kept.readings (point, slot))
        → OnOk result (Within (state S.Store tx.new.conn.now) base (record kept { readings = with_row (point, slot) (record { words = words; counted = counted }) kept.readings })) }
    ensures inside { HasCleanDisk (state S.Store tx.new.conn.now) → IsTrue (state S.Store tx.old.conn.now).in_transaction → OnOk result (IsTrue (state S.Store tx.new.conn.now).in_transaction) }
    ensures kept { HasCleanDisk (state S.Store tx.new.conn.now) → KeepsCommit (state S.Store tx.old.conn.now) (state S.Store tx.new.conn.now) }
    ensures survives { Survives (state S.Store tx.old.conn.now) (state S.Store tx.new.conn.now) (λ _. ⊥) }
{
    if set_mark(tx, point, slot, counted)? == 1 {
        Ok(())
    } else {
        Err(StoreFault::Other)
    }
}

/// Puts a reading at a key that has none, or its mark where the key has one with these registers.
pub(crate) fn put_reading<S: Alter>(
    tx: &mut Transaction<'_, S>,
    point: u32,
    slot: u32,
    words: &Words,
    counted: bool,
) -> Result<(), StoreFault>
    ensures same_reference { tx.new.conn.ghost_name ≡ tx.old.conn.ghost_name }
    ensures put { HasCleanDisk (state S.Store tx.new.conn.now) → (base : Database) → (kept : Tables) → Within (state S.Store tx.old.conn.now) base kept
        → HasWords words.now (reading_at kept.readings (point, slot))
        → OnOk result (Within (state S.Store tx.new.conn.now) base (record kept { readings = with_row (point, slot) (record { words = words.now; counted = counted }) kept.readings })) }
    ensures inside { HasCleanDisk (state S.Store tx.new.conn.now) → IsTrue (state S.Store tx.old.conn.now).in_transaction → OnOk result (IsTrue (state S.Store tx.new.conn.now).in_transaction) }
    ensures opened { HasCleanDisk (state S.Store tx.new.conn.now) → IsTrue (state S.Store tx.old.conn.now).in_transaction → OnOk result (IsTrue (state S.Store tx.old.conn.now).is_open) }
    ensures kept { HasCleanDisk (state S.Store tx.new.conn.now) → KeepsCommit (state S.Store tx.old.conn.now) (state S.Store tx.new.conn.now) }
    ensures survives { Survives (state S.Store tx.old.conn.now) (state S.Store tx.new.conn.now) (λ _. ⊥) }
{
    if add_reading(tx, point, slot, words, counted)? {
        return Ok(());
    }
    mark_reading(tx, point, slot, counted)
}

/// The values of a reading's row, whose registers are written to these bytes.
fn values_of<'a>(row: &ReadingRow, bytes: &'a mut [u8; 250]) -> [ValueRef<'a>; 4]
    ensures { IsRowOf row.now (bound result) }
{
    let len = put_words(row.words.as_slice(), bytes);
    [
        row.point.to_sql(),
        row.slot.to_sql(),
        bytes[..len].to_sql(),
        row.counted.to_sql(),
    ]
}

/// Adds five readings by one statement; false, and nothing has changed, where they are fewer or more, or a key of
/// theirs is taken.
fn add_five<S: Alter>(tx: &mut Transaction<'_, S>, rows: &[ReadingRow]) -> Result<bool, StoreFault>
    ensures same_reference { tx.new.conn.ghost_name ≡ tx.old.conn.ghost_name }
    ensures put { HasCleanDisk (state S.Store tx.new.conn.now) → (base : Database) → (kept : Tables) → Within (state S.Store tx.old.conn.now) base kept
        → IfOk result (λ is_added. Within (state S.Store tx.new.conn.now) base (if is_added
        then record kept { readings = with_rows (as_rows rows.now) kept.readings } else kept)) }
    ensures inside { HasCleanDisk (state S.Store tx.new.conn.now) → IsTrue (state S.Store tx.old.conn.now).in_transaction → OnOk result (IsTrue (state S.Store tx.new.conn.now).in_transaction) }
    ensures opened { HasCleanDisk (state S.Store tx.new.conn.now) → IsTrue (state S.Store tx.old.conn.now).in_transaction → IfOk result (λ is_added. IsTrue is_added → IsTrue (state S.Store tx.old.conn.now).is_open) }
    ensures kept { HasCleanDisk (state S.Store tx.new.conn.now) → KeepsCommit (state S.Store tx.old.conn.now) (state S.Store tx.new.conn.now) }
    ensures survives { Survives (state S.Store tx.old.conn.now) (state S.Store tx.new.conn.now) (λ _. ⊥) }
{
    let [a, b, c, d, e] = rows else {
        return Ok(false);
    };
    let [mut of_a, mut of_b, mut of_c, mut of_d, mut of_e] = [[0; 250]; 5];
    // The last one goes first, and so on to the first.
    let values = [
        values_of(e, &mut of_e),
        values_of(d, &mut of_d),
        values_of(c, &mut of_c),
        values_of(b, &mut of_b),
        values_of(a, &mut of_a),
    ];
    add(
        tx,
        "INSERT INTO reading(point, slot, words, counted) VALUES (?, ?, ?, ?), (?, ?, ?, ?), (?, ?, ?, ?), (?, ?, ?, ?), (?, ?, ?, ?)",
        values.as_flattened(),
    )
}

/// Puts readings at different keys, each where none is, or its mark where one with its registers is, by a statement
/// of its own.
fn put_each<S: Alter>(tx: &mut Transaction<'_, S>, rows: &[ReadingRow]) -> Result<(), StoreFault>
    ensures same_reference { tx.new.conn.ghost_name ≡ tx.old.conn.ghost_name }
    ensures put { HasCleanDisk (state S.Store tx.new.conn.now) → (base : Database) → (kept : Tables) → Within (state S.Store tx.old.conn.now) base kept
        → KeepWords kept.readings (as_rows rows.now)
        → OnOk result (Within (state S.Store tx.new.conn.now) base (record kept { readings = with_rows (as_rows rows.now) kept.readings })) }
    ensures inside { HasCleanDisk (state S.Store tx.new.conn.now) → IsTrue (state S.Store tx.old.conn.now).in_transaction → OnOk result (IsTrue (state S.Store tx.new.conn.now).in_transaction) }
    ensures opened { HasCleanDisk (state S.Store tx.new.conn.now) → IsTrue (state S.Store tx.old.conn.now).in_transaction → OnOk result ((rows.now ≡ []) ⊎ IsTrue (state S.Store tx.old.conn.now).is_open) }
    ensures kept { HasCleanDisk (state S.Store tx.new.conn.now) → KeepsCommit (state S.Store tx.old.conn.now) (state S.Store tx.new.conn.now) }
    ensures survives { Survives (state S.Store tx.old.conn.now) (state S.Store tx.new.conn.now) (λ _. ⊥) }
{
    // The last one goes first, and so on to the first.
    let mut left = rows.len();
    while left > 0 {
        left -= 1;
        let row = &rows[left];
        put_reading(tx, row.point, row.slot, &row.words, row.counted)?;
    }
    Ok(())
}

/// Puts a few readings at different keys, each where none is, or its mark where one with its registers is: five that
/// are new by one statement, others one by one.
fn put_few<S: Alter>(tx: &mut Transaction<'_, S>, rows: &[ReadingRow]) -> Result<(), StoreFault>
    ensures same_reference { tx.new.conn.ghost_name ≡ tx.old.conn.ghost_name }
    ensures put { HasCleanDisk (state S.Store tx.new.conn.now) → (base : Database) → (kept : Tables) → Within (state S.Store tx.old.conn.now) base kept
        → KeepWords kept.readings (as_rows rows.now)
        → OnOk result (Within (state S.Store tx.new.conn.now) base (record kept { readings = with_rows (as_rows rows.now) kept.readings })) }
    ensures inside { HasCleanDisk (state S.Store tx.new.conn.now) → IsTrue (state S.Store tx.old.conn.now).in_transaction → OnOk result (IsTrue (state S.Store tx.new.conn.now).in_transaction) }
    ensures opened { HasCleanDisk (state S.Store tx.new.conn.now) → IsTrue (state S.Store tx.old.conn.now).in_transaction → OnOk result ((rows.now ≡ []) ⊎ IsTrue (state S.Store tx.old.conn.now).is_open) }
    ensures kept { HasCleanDisk (state S.Store tx.new.conn.now) → KeepsCommit (state S.Store tx.old.conn.now) (state S.Store tx.new.conn.now) }
    ensures survives { Survives (state S.Store tx.old.conn.now) (state S.Store tx.new.conn.now) (λ _. ⊥) }
{
    if add_five(tx, rows)? {
        return Ok(());
    }
    put_each(tx, rows)
}

/// Puts readings at different keys, each where none is, or its mark where one with its registers is.
pub(crate) fn put_readings<S: Alter>(
    tx: &mut Transaction<'_, S>,
    rows: &[ReadingRow],
) -> Result<(), StoreFault>
    ensures same_reference { tx.new.conn.ghost_name ≡ tx.old.conn.ghost_name }
    ensures put { HasCleanDisk (state S.Store tx.new.conn.now) → (base : Database) → (kept : Tables) → Within (state S.Store tx.old.conn.now) base kept
        → KeepWords kept.readings (as_rows rows.now)
        → OnOk result (Within (state S.Store tx.new.conn.now) base (record kept { readings = with_rows (as_rows rows.now) kept.readings })) }
    ensures inside { HasCleanDisk (state S.Store tx.new.conn.now) → IsTrue (state S.Store tx.old.conn.now).in_transaction → OnOk result (IsTrue (state S.Store tx.new.conn.now).in_transaction) }
    ensures opened { HasCleanDisk (state S.Store tx.new.conn.now) → IsTrue (state S.Store tx.old.conn.now).in_transaction → OnOk result ((rows.now ≡ []) ⊎ IsTrue (state S.Store tx.old.conn.now).is_open) }
    ensures kept { HasCleanDisk (state S.Store tx.new.conn.now) → KeepsCommit (state S.Store tx.old.conn.now) (state S.Store tx.new.conn.now) }
    ensures survives { Survives (state S.Store tx.old.conn.now) (state S.Store tx.new.conn.now) (λ _. ⊥) }
{
    // The last ones go first, and so on to the first.
    for few in rows.rchunks(5) {
        put_few(tx, few)?;
    }
    Ok(())
}
