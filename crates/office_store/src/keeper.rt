//! A keeper over tables of a database.

ghost use Rattle.std.specs.Prelude.{◌≡◌, ◌≢◌, ◌⊎◌, ◌≤◌, length, List, [], ◌∷◌, false, IfOk, IfErr, IsTrue, Some};
ghost use Rattle.sqlite.specs.Held.{state};
ghost use Rattle.sqlite.specs.State.{HasCleanDisk, Shown, FailsToQuery};
ghost use Rattle.sqlite_value.specs.Order.{Row, column};
ghost use Rattle.poll_book.specs.declared.fault.StoreFault.{StoreFault};
ghost use Rattle.office_store.specs.Faults.{fault_of};
ghost use Rattle.office_store.specs.Earlier.{WasHeld};
ghost use Rattle.office_store.specs.Kept.{Holds, Keeps};
ghost use Rattle.poll_book.specs.Tables.{Tables};
ghost use Rattle.office_store.specs.Rows.{number_of};
ghost use Rattle.office_store.specs.Texts.{version_text};
ghost use Rattle.poll_book.specs.Fault.{CountsRefusal, IsCountedOn};
ghost use Rattle.poll_book.specs.Looks.{CountsShown};

use crate::apply::apply;
use crate::ask::ask;
use crate::ends::{self, Ends};
use crate::error::{StoreError, fault_of};
use crate::values::{number_of, value_at};
use crate::waiting::{self, WaitingOrder};
use crate::{numbers, points, readings, requests, settings, shown, totals, voids};
use poll_book::{
    Caller, Change, Keeper, KeptRequest, Key, Neighbours, PointRow, Reading, Setting, SettingRow,
    ShownReading, StoreFault,
};
use sqlite::{Alter, Connection};
use std::alloc::Global;

/// A keeper over the tables of a database, which no transaction changes but its own.
#[derive(Drop)]
pub struct SqlKeeper<S: Alter> {
    alloc: Global,
    connection: Connection<S>,
    // The orders that wait, once they were read.
    waiting: Option<Vec<WaitingOrder>>,
    // Where the readings of points end, once it was read.
    ends: Ends,
    // Where the voids of points end, as far as questions told it.
    void_ends: Ends,
    // How many calls were refused, up to the greatest count.
    refusals: u64,
    // How many were when a void was last told: where more are, the database may be closed.
    refusals_told: u64,
    // How many look-ups were made, up to the greatest count.
    lookups: u64,
    ghost idle: { connection.in_transaction ≡ false },
}

impl<S: Alter> SqlKeeper<S> {
    ghost use Rattle.office_store.specs.Keepers.{IsKeptBy, connection_of, looked_by, refused_by};

    /// The keeper of the tables, if they are of version 2. It reads the version alone and changes
    /// nothing. An error gives the connection back.
    pub fn open(mut connection: Connection<S>) -> Result<SqlKeeper<S>, (StoreError, Connection<S>)>
        ensures kept { IfOk result (λ keeper. Keeps (state S.Store connection) (state S.Store (connection_of keeper))) }
        ensures holds { IfOk result (λ keeper. (kept : Tables) → Holds (state S.Store connection) kept → IsKeptBy keeper kept) }
        ensures was_open { IfOk result (λ keeper. HasCleanDisk (state S.Store (connection_of keeper)) → IsTrue (state S.Store connection).is_open) }
        ensures settled { IfOk result (λ _. IsTrue (state S.Store connection).is_open → (state S.Store connection).now ≡ (state S.Store connection).committed) }
        ensures given_back { IfErr result (λ error. Keeps (state S.Store connection) (state S.Store error.1)) }
        ensures counted { IfOk result (λ keeper. (refused_by keeper ≡ 0) × (looked_by keeper ≡ 0)) }
        ensures known { IfOk result (λ keeper. HasCleanDisk (state S.Store (connection_of keeper))
            → (row : Row) × Shown version_text [] (state S.Store connection) (state S.Store (connection_of keeper)) (row ∷ []) × (number_of (column row 0) ≡ Some 2)) }
        ensures earlier { IfOk result (λ keeper. HasCleanDisk (state S.Store (connection_of keeper)) → (kept : Tables) → ¬ WasHeld (state S.Store connection) kept) }
        ensures bad_version { IfErr result (λ error. error.0 ≡ StoreError.BadVersion → HasCleanDisk (state S.Store error.1)
            → (row : Row) × Shown version_text [] (state S.Store connection) (state S.Store error.1) (row ∷ []) × (number_of (column row 0) ≢ Some 2)) }
        ensures not_office { IfErr result (λ error. error.0 ≡ StoreError.NotOffice → HasCleanDisk (state S.Store error.1)
            → Shown version_text [] (state S.Store connection) (state S.Store error.1) []
            ⊎ ((cause : _) × FailsToQuery version_text [] (state S.Store connection) (state S.Store error.1) cause × (fault_of cause ≡ StoreFault.Other))) }
        ensures other { IfErr result (λ error. error.0 ≡ StoreError.Store StoreFault.Other → HasCleanDisk (state S.Store error.1)
            → IsTrue connection.in_transaction ⊎ ((rows : List Row) × Shown version_text [] (state S.Store connection) (state S.Store error.1) rows × (2 ≤ length rows))) }
        ensures failed { IfErr result (λ error. (fault : StoreFault) → error.0 ≡ StoreError.Store fault → fault ≢ StoreFault.Other → HasCleanDisk (state S.Store error.1)
            → (cause : _) × FailsToQuery version_text [] (state S.Store connection) (state S.Store error.1) cause × (fault_of cause ≡ fault)) }
    {
        if !connection.is_autocommit() {
            return Err((StoreError::Store(StoreFault::Other), connection));
        }
        let rows = match ask(
            &mut connection,
            "SELECT value FROM meta WHERE name = 'version'",
            &[],
        ) {
            Ok(rows) => rows,
            Err(error) => {
                let fault = fault_of(error);
                let told = if fault == StoreFault::Other {
                    StoreError::NotOffice
                } else {
                    StoreError::Store(fault)
                };
                return Err((told, connection));
            }
        };
        let alloc = *rows.allocator();
        match rows.as_slice() {
            [] => Err((StoreError::NotOffice, connection)),
            [row] => {
                if number_of(value_at(row, 0)) == Some(2) {
                    Ok(SqlKeeper {
                        alloc,
                        connection,
                        waiting: None,
                        ends: Ends::new(alloc),
                        void_ends: Ends::new(alloc),
                        refusals: 0,
                        refusals_told: 0,
                        lookups: 0,
                    })
                } else {
                    Err((StoreError::BadVersion, connection))
                }
            }
            _ => Err((StoreError::Store(StoreFault::Other), connection)),
        }
    }

    /// The connection again.
    pub fn into_connection(self) -> Connection<S>
        ensures { result ≡ connection_of self }
    {
        self.connection
    }
}

/// A call's answer. One that is refused is counted.
fn counted<T>(refusals: &mut u64, answer: Result<T, StoreFault>) -> Result<T, StoreFault>
    ensures answer { result ≡ answer }
    ensures counted { CountsRefusal refusals.old refusals.new result }
{
    if answer.is_err() {
        *refusals = refusals.saturating_add(1);
    }
    answer
}

/// One look-up more.
fn count_look(lookups: &mut u64)
    ensures { IsCountedOn lookups.old lookups.new }
{
    *lookups = lookups.saturating_add(1);
}

/// An answer, whose readings are counted as look-ups, with one more for their marks.
fn looked<T>(lookups: &mut u64, answer: Result<Vec<T>, StoreFault>) -> Result<Vec<T>, StoreFault>
    ensures answer { result ≡ answer }
    ensures looked { CountsShown lookups.old lookups.new result }
{
    if let Ok(shown) = &answer
        && !shown.is_empty()
    {
        *lookups = lookups.saturating_add(1).saturating_add(shown.len() as u64);
    }
    answer
}

impl<S: Alter> Neighbours for SqlKeeper<S> {
    ghost use Rattle.sqlite.specs.Held.{state};
    ghost use Rattle.sqlite.specs.State.{HasCleanDisk};
    ghost use Rattle.office_store.specs.Kept.{MayLeave};
    ghost use Rattle.office_store.specs.Keepers.{IsKeptBy, connection_of, looked_by, refused_by};

    ghost holds = { IsKeptBy };

    ghost is_clean = { λ k. HasCleanDisk (state S.Store (connection_of k)) };

    ghost may_leave = { λ k. MayLeave (state S.Store (connection_of k)) };

    ghost may_refuse = { λ _. Unit {0} };

    ghost refused = { refused_by };

    ghost looked = { looked_by };

    fn reading(&mut self, point: &PointRow, slot: u32) -> Result<Option<Reading>, StoreFault> {
        count_look(&mut self.lookups);
        let found = readings::reading_at(self.alloc, &mut self.connection, point, slot);
        counted(&mut self.refusals, found)
    }

    fn has_reading(&mut self, point: &PointRow, slot: u32) -> Result<bool, StoreFault> {
        count_look(&mut self.lookups);
        let has = ends::has_reading(&mut self.connection, &mut self.ends, point.number, slot);
        counted(&mut self.refusals, has)
    }

    fn end(&mut self, point: &PointRow) -> Result<u64, StoreFault> {
        count_look(&mut self.lookups);
        let end = readings::end_of(&mut self.connection, point.number);
        counted(&mut self.refusals, end)
    }

    fn voided(&mut self, point: &PointRow, slot: u32) -> Result<bool, StoreFault> {
        count_look(&mut self.lookups);
        let is = ends::is_void(
            &mut self.connection,
            &mut self.void_ends,
            self.refusals != self.refusals_told,
            point.number,
            slot,
        );
        if is.is_ok() {
            self.refusals_told = self.refusals;
        }
        counted(&mut self.refusals, is)
    }

    fn before(&mut self, point: &PointRow, slot: u32) -> Result<Option<u64>, StoreFault> {
        count_look(&mut self.lookups);
        let found = readings::value_before(self.alloc, &mut self.connection, point, slot);
        counted(&mut self.refusals, found)
    }

    fn after(&mut self, point: &PointRow, slot: u32) -> Result<Option<u64>, StoreFault> {
        count_look(&mut self.lookups);
        let found = ends::value_after(self.alloc, &mut self.connection, &self.ends, point, slot);
        counted(&mut self.refusals, found)
    }

    fn total(&mut self, point: &PointRow) -> Result<u128, StoreFault> {
        count_look(&mut self.lookups);
        let sum = totals::total(&mut self.connection, point.number);
        counted(&mut self.refusals, sum)
    }

    fn lookups(&self) -> u64 {
        self.lookups
    }

    fn refusals(&self) -> u64 {
        self.refusals
    }
}

impl<S: Alter> Keeper for SqlKeeper<S> {
    fn points(&mut self, alloc: Global) -> Result<Vec<PointRow>, StoreFault> {
        let found = points::all_points(alloc, &mut self.connection);
        counted(&mut self.refusals, found)
    }

    fn readings(
        &mut self,
        alloc: Global,
        point: &PointRow,
        from: u32,
        to: u32,
    ) -> Result<Vec<ShownReading>, StoreFault> {
        let found = shown::shown_between(
            alloc,
            &mut self.connection,
            &self.void_ends,
            point,
            from,
            to,
        );
        let told = counted(&mut self.refusals, found);
        looked(&mut self.lookups, told)
    }

    fn request(
        &mut self,
        alloc: Global,
        caller: &Caller,
        key: &Key,
    ) -> Result<Option<KeptRequest>, StoreFault> {
        let found = requests::request_at(alloc, &mut self.connection, caller, key);
        counted(&mut self.refusals, found)
    }

    fn setting(&mut self, number: u32) -> Result<Option<Setting>, StoreFault> {
        let found = settings::setting_at(&mut self.connection, number);
        counted(&mut self.refusals, found)
    }

    fn oldest_waiting(&mut self, device: &str) -> Result<Option<SettingRow>, StoreFault> {
        let found = waiting::oldest_waiting(
            self.alloc,
            &mut self.connection,
            &mut self.waiting,
            device,
        );
        counted(&mut self.refusals, found)
    }

    fn orders(&mut self) -> Result<u32, StoreFault> {
        let last = settings::last_order(&mut self.connection);
        counted(&mut self.refusals, last)
    }

    fn voids(&mut self) -> Result<u64, StoreFault> {
        let count = voids::count(&mut self.connection);
        counted(&mut self.refusals, count)
    }

    fn connections(&mut self) -> Result<u32, StoreFault> {
        let last = numbers::last_connection(&mut self.connection);
        counted(&mut self.refusals, last)
    }

    fn apply(&mut self, change: &Change) -> Result<(), StoreFault> {
        let written = apply(self.alloc, &mut self.connection, change);
        let is_written = written.is_ok();
        self.waiting = waiting::followed(self.waiting.take(), &change.setting, is_written);
        self.ends.follow(change.readings.as_slice(), is_written);
        self.void_ends.follow_void(change.void);
        counted(&mut self.refusals, written)
    }
}
