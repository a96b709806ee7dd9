//! A keeper in memory that refuses some of its calls.
ghost use Rattle.std.specs.Prelude.{◌≡◌};
ghost use Rattle.poll_book.specs.Fault.{CountsRefusal, IsCountedOn};
ghost use Rattle.poll_book.specs.Looks.{CountsShown};

use poll_book::{
    Caller, Change, Keeper, KeptRequest, Key, MemKeeper, Neighbours, PointRow, Reading, Setting,
    SettingRow, ShownReading, StoreFault,
};
use std::alloc::Global;

/// Which calls are refused.
#[derive(Clone, Copy, Debug, PartialEq, Eq)]
enum Refused {
    /// All from the one of this number on, up to the one before another number.
    Calls(u32, u32),
    /// The changes of these numbers.
    Changes(u32, u32),
}

/// Refuses some calls, or some changes, which are counted from 0, and keeps all else.
#[derive(Drop)]
pub struct Refusing {
    kept: MemKeeper,
    refused: Refused,
    fault: StoreFault,
    pub calls: u32,
    changes: u32,
    // How many calls were refused, up to the greatest count.
    refusals: u64,
    // How many look-ups were made, up to the greatest count.
    lookups: u64,
}

/// What a call of the kept keeper answers. One that is refused is counted.
fn counted<T>(refusals: &mut u64, answer: Result<T, StoreFault>) -> Result<T, StoreFault>
    ensures same { result ≡ answer }
    ensures counted { CountsRefusal refusals.old refusals.new result }
{
    if answer.is_err() {
        *refusals = refusals.saturating_add(1);
    }
    answer
}

/// One look-up more.
fn count_look(lookups: &mut u64)
    ensures { IsCountedOn lookups.old lookups.new }
{
    *lookups = lookups.saturating_add(1);
}

/// An answer, whose readings are counted as look-ups, with one more for their marks.
fn looked<T>(lookups: &mut u64, answer: Result<Vec<T>, StoreFault>) -> Result<Vec<T>, StoreFault>
    ensures same { result ≡ answer }
    ensures looked { CountsShown lookups.old lookups.new result }
{
    if let Ok(shown) = &answer
        && !shown.is_empty()
    {
        *lookups = lookups.saturating_add(1).saturating_add(shown.len() as u64);
    }
    answer
}

impl Refusing {
    fn with(alloc: Global, refused: Refused, fault: StoreFault) -> Refusing {
        Refusing {
            kept: MemKeeper::new(alloc),
            refused,
            fault,
            calls: 0,
            changes: 0,
            refusals: 0,
            lookups: 0,
        }
    }

    /// Refuses the call of this number.
    pub fn new(alloc: Global, at: u32, fault: StoreFault) -> Refusing {
        Refusing::with(alloc, Refused::Calls(at, at.saturating_add(1)), fault)
    }

    /// Refuses each call from this number on.
    pub fn from(alloc: Global, at: u32, fault: StoreFault) -> Refusing {
        Refusing::with(alloc, Refused::Calls(at, u32::MAX), fault)
    }

    /// Refuses each change from this number on, up to the one before another number.
    pub fn changes(alloc: Global, from: u32, to: u32, fault: StoreFault) -> Refusing {
        Refusing::with(alloc, Refused::Changes(from, to), fault)
    }

    /// Whether the next call, or the next change, is refused.
    fn refuses(&self) -> bool {
        match self.refused {
            Refused::Calls(from, to) => from <= self.calls && self.calls < to,
            Refused::Changes(from, to) => from <= self.changes && self.changes < to,
        }
    }

    fn count(&mut self) -> Result<(), StoreFault>
        ensures same { self.new.kept ≡ self.old.kept }
        ensures counted { CountsRefusal self.old.refusals self.new.refusals result }
        ensures looked { self.new.lookups ≡ self.old.lookups }
    {
        let is_refused = self.refuses() && matches!(self.refused, Refused::Calls(..));
        self.calls = self.calls.saturating_add(1);
        self.answer(is_refused)
    }

    fn count_change(&mut self) -> Result<(), StoreFault>
        ensures same { self.new.kept ≡ self.old.kept }
        ensures counted { CountsRefusal self.old.refusals self.new.refusals result }
        ensures looked { self.new.lookups ≡ self.old.lookups }
    {
        let is_refused = self.refuses();
        self.calls = self.calls.saturating_add(1);
        self.changes = self.changes.saturating_add(1);
        self.answer(is_refused)
    }

    fn answer(&mut self, is_refused: bool) -> Result<(), StoreFault>
        ensures same { self.new.kept ≡ self.old.kept }
        ensures counted { CountsRefusal self.old.refusals self.new.refusals result }
        ensures looked { self.new.lookups ≡ self.old.lookups }
    {
        if is_refused {
            self.refusals = self.refusals.saturating_add(1);
            Err(self.fault)
        } else {
            Ok(())
        }
    }
}

impl Neighbours for Refusing {
    ghost holds = { λ k tables. k.kept.0 ≡ tables };

    ghost is_clean = { λ _. Unit {0} };

    ghost may_leave = { λ k tables. k.kept.0 ≡ tables };

    ghost may_refuse = { λ _. Unit {0} };

    ghost refused = { λ k. k.refusals };

    ghost looked = { λ k. k.lookups };

    fn reading(&mut self, point: &PointRow, slot: u32) -> Result<Option<Reading>, StoreFault> {
        count_look(&mut self.lookups);
        self.count()?;
        let answer = self.kept.reading(point, slot);
        counted(&mut self.refusals, answer)
    }

    fn has_reading(&mut self, point: &PointRow, slot: u32) -> Result<bool, StoreFault> {
        count_look(&mut self.lookups);
        self.count()?;
        let answer = self.kept.has_reading(point, slot);
        counted(&mut self.refusals, answer)
    }

    fn end(&mut self, point: &PointRow) -> Result<u64, StoreFault> {
        count_look(&mut self.lookups);
        self.count()?;
        let answer = self.kept.end(point);
        counted(&mut self.refusals, answer)
    }

    fn voided(&mut self, point: &PointRow, slot: u32) -> Result<bool, StoreFault> {
        count_look(&mut self.lookups);
        self.count()?;
        let answer = self.kept.voided(point, slot);
        counted(&mut self.refusals, answer)
    }

    fn before(&mut self, point: &PointRow, slot: u32) -> Result<Option<u64>, StoreFault> {
        count_look(&mut self.lookups);
        self.count()?;
        let answer = self.kept.before(point, slot);
        counted(&mut self.refusals, answer)
    }

    fn after(&mut self, point: &PointRow, slot: u32) -> Result<Option<u64>, StoreFault> {
        count_look(&mut self.lookups);
        self.count()?;
        let answer = self.kept.after(point, slot);
        counted(&mut self.refusals, answer)
    }

    fn total(&mut self, point: &PointRow) -> Result<u128, StoreFault> {
        count_look(&mut self.lookups);
        self.count()?;
        let answer = self.kept.total(point);
        counted(&mut self.refusals, answer)
    }

    fn lookups(&self) -> u64 {
        self.lookups
    }

    fn refusals(&self) -> u64 {
        self.refusals
    }
}

impl Keeper for Refusing {
    fn points(&mut self, alloc: Global) -> Result<Vec<PointRow>, StoreFault> {
        self.count()?;
        let answer = self.kept.points(alloc);
        counted(&mut self.refusals, answer)
    }

    fn readings(
        &mut self,
        alloc: Global,
        point: &PointRow,
        from: u32,
        to: u32,
    ) -> Result<Vec<ShownReading>, StoreFault> {
        self.count()?;
        let answer = self.kept.readings(alloc, point, from, to);
        let told = counted(&mut self.refusals, answer);
        looked(&mut self.lookups, told)
    }

    fn request(
        &mut self,
        alloc: Global,
        caller: &Caller,
        key: &Key,
    ) -> Result<Option<KeptRequest>, StoreFault> {
        self.count()?;
        let answer = self.kept.request(alloc, caller, key);
        counted(&mut self.refusals, answer)
    }

    fn setting(&mut self, number: u32) -> Result<Option<Setting>, StoreFault> {
        self.count()?;
        let answer = self.kept.setting(number);
        counted(&mut self.refusals, answer)
    }

    fn oldest_waiting(&mut self, device: &str) -> Result<Option<SettingRow>, StoreFault> {
        self.count()?;
        let answer = self.kept.oldest_waiting(device);
        counted(&mut self.refusals, answer)
    }

    fn orders(&mut self) -> Result<u32, StoreFault> {
        self.count()?;
        let answer = self.kept.orders();
        counted(&mut self.refusals, answer)
    }

    fn voids(&mut self) -> Result<u64, StoreFault> {
        self.count()?;
        let answer = self.kept.voids();
        counted(&mut self.refusals, answer)
    }

    fn connections(&mut self) -> Result<u32, StoreFault> {
        self.count()?;
        let answer = self.kept.connections();
        counted(&mut self.refusals, answer)
    }

    fn apply(&mut self, change: &Change) -> Result<(), StoreFault> {
        self.count_change()?;
        let answer = self.kept.apply(change);
        counted(&mut self.refusals, answer)
    }
}
