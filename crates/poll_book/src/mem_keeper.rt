//! A keeper in memory.
ghost use Rattle.std.specs.Prelude.{◌≡◌, IsErr, MatchResult, Ok};
ghost use Rattle.poll_book.specs.Tables.{no_tables};
ghost use Rattle.poll_book.specs.Fault.{CountsRefusal, IsCountedOn};
ghost use Rattle.poll_book.specs.Looks.{CountsShown};

use crate::caller::{Caller, Key};
use crate::fault::StoreFault;
use crate::keeper::{Keeper, Neighbours};
use crate::mem_tables::MemTables;
use crate::requests::KeptRequest;
use crate::rows::{Change, PointRow, Reading, Setting, SettingRow};
use crate::shown::ShownReading;
use std::alloc::{AllocError, Global};
use std::marker::Model;

/// A keeper in memory. It refuses by `Memory` alone, and never leaves half a change.
#[derive(Drop)]
pub struct MemKeeper {
    tables: MemTables,
    // How many calls were refused, up to the greatest count.
    refusals: u64,
    // How many look-ups were made, up to the greatest count.
    lookups: u64,
}

impl Model for MemKeeper {
    ghost use Rattle.std.specs.Prelude.{ℕ};
    ghost use Rattle.poll_book.specs.Tables.{Tables};

    ghost Value = { Tables × ℕ × ℕ };

    ghost view = { λ k. (k.tables, k.refusals, k.lookups) };
}

impl MemKeeper {
    /// A keeper of no point, no reading, no order and no request, before the first connection, which
    /// refused nothing and looked nothing up.
    pub fn new(alloc: Global) -> MemKeeper
        ensures { result ≡ (no_tables, 0, 0) }
    {
        MemKeeper {
            tables: MemTables::new(alloc),
            refusals: 0,
            lookups: 0,
        }
    }
}

/// A call's answer. One that is refused is counted.
fn counted<T>(refusals: &mut u64, answer: Result<T, AllocError>) -> Result<T, StoreFault>
    ensures answer { MatchResult result (λ value. answer ≡ Ok value) (λ fault. (fault ≡ StoreFault.Memory) × IsErr answer) }
    ensures counted { CountsRefusal refusals.old refusals.new result }
{
    match answer {
        Ok(value) => Ok(value),
        Err(_) => {
            *refusals = refusals.saturating_add(1);
            Err(StoreFault::Memory)
        }
    }
}

/// One look-up more.
fn count_look(lookups: &mut u64)
    ensures { IsCountedOn lookups.old lookups.new }
{
    *lookups = lookups.saturating_add(1);
}

/// An answer, whose readings are counted as look-ups, with one more for their marks.
fn looked<T>(lookups: &mut u64, answer: Result<Vec<T>, StoreFault>) -> Result<Vec<T>, StoreFault>
    ensures answer { result ≡ answer }
    ensures looked { CountsShown lookups.old lookups.new result }
{
    if let Ok(shown) = &answer
        && !shown.is_empty()
    {
        *lookups = lookups.saturating_add(1).saturating_add(shown.len() as u64);
    }
    answer
}

impl Neighbours for MemKeeper {
    ghost use Rattle.std.specs.Prelude.{◌≡◌};
    ghost use Rattle.poll_book.specs.declared.fault.StoreFault.TheVariants.{Memory};

    ghost holds = { λ k kept. k.0 ≡ kept };

    ghost is_clean = { λ _. Unit {0} };

    ghost may_leave = { λ k kept. k.0 ≡ kept };

    ghost may_refuse = { λ fault. fault ≡ Memory };

    ghost refused = { λ k. k.1 };

    ghost looked = { λ k. k.2 };

    fn reading(&mut self, point: &PointRow, slot: u32) -> Result<Option<Reading>, StoreFault> {
        count_look(&mut self.lookups);
        let found = self.tables.reading(point.number, slot);
        counted(&mut self.refusals, found)
    }

    fn has_reading(&mut self, point: &PointRow, slot: u32) -> Result<bool, StoreFault> {
        count_look(&mut self.lookups);
        Ok(self.tables.has_reading(point.number, slot))
    }

    fn end(&mut self, point: &PointRow) -> Result<u64, StoreFault> {
        count_look(&mut self.lookups);
        Ok(self.tables.end(point.number))
    }

    fn voided(&mut self, point: &PointRow, slot: u32) -> Result<bool, StoreFault> {
        count_look(&mut self.lookups);
        Ok(self.tables.voided(point.number, slot))
    }

    fn before(&mut self, point: &PointRow, slot: u32) -> Result<Option<u64>, StoreFault> {
        count_look(&mut self.lookups);
        Ok(self.tables.before(point, slot))
    }

    fn after(&mut self, point: &PointRow, slot: u32) -> Result<Option<u64>, StoreFault> {
        count_look(&mut self.lookups);
        Ok(self.tables.after(point, slot))
    }

    fn total(&mut self, point: &PointRow) -> Result<u128, StoreFault> {
        count_look(&mut self.lookups);
        Ok(self.tables.total(point.number))
    }

    fn lookups(&self) -> u64 {
        self.lookups
    }

    fn refusals(&self) -> u64 {
        self.refusals
    }
}

impl Keeper for MemKeeper {
    fn points(&mut self, alloc: Global) -> Result<Vec<PointRow>, StoreFault> {
        let points = self.tables.points(alloc);
        counted(&mut self.refusals, points)
    }

    fn readings(
        &mut self,
        alloc: Global,
        point: &PointRow,
        from: u32,
        to: u32,
    ) -> Result<Vec<ShownReading>, StoreFault> {
        let shown = self.tables.readings(alloc, point.number, from, to);
        let told = counted(&mut self.refusals, shown);
        looked(&mut self.lookups, told)
    }

    fn request(
        &mut self,
        alloc: Global,
        caller: &Caller,
        key: &Key,
    ) -> Result<Option<KeptRequest>, StoreFault> {
        let found = self.tables.request(alloc, caller, key);
        counted(&mut self.refusals, found)
    }

    fn setting(&mut self, number: u32) -> Result<Option<Setting>, StoreFault> {
        let found = self.tables.setting(number);
        counted(&mut self.refusals, found)
    }

    fn oldest_waiting(&mut self, device: &str) -> Result<Option<SettingRow>, StoreFault> {
        let found = self.tables.oldest_waiting(device);
        counted(&mut self.refusals, found)
    }

    fn orders(&mut self) -> Result<u32, StoreFault> {
        Ok(self.tables.orders())
    }

    fn voids(&mut self) -> Result<u64, StoreFault> {
        Ok(self.tables.voids())
    }

    fn connections(&mut self) -> Result<u32, StoreFault> {
        Ok(self.tables.connections())
    }

    fn apply(&mut self, change: &Change) -> Result<(), StoreFault> {
        let written = self.tables.write(change);
        counted(&mut self.refusals, written)
    }
}
