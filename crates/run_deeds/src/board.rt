//! What is shown of a run beside what the office keeps.
ghost use Rattle.std.specs.Prelude.{◌≡◌, ◌+◌, ◌-◌, ◌^◌, IfOk, length, min, slice_set};

use office_pages::Tally;
use run_beat::{ClockTime, Slots};
use std::alloc::{AllocError, Global};

/// How a line stands, and what it came to.
#[derive(Clone, Copy, Debug)]
pub struct Standing {
    /// Whether it was told that it is up, and not since that it is down.
    pub is_up: bool,
    pub tally: Tally,
}

/// What is shown of a run beside what the office keeps.
#[derive(Drop)]
pub struct Board {
    pub slots: Slots,
    /// The time of the turn.
    pub clock: ClockTime,
    /// How often the store refused something.
    pub store_faults: u64,
    lines: Vec<Standing>,
}

impl Board {
    ghost use Rattle.run_deeds.specs.Boards.{lines_on};

    /// Of so many lines, of which none is up.
    pub fn new(
        alloc: Global,
        slots: Slots,
        clock: ClockTime,
        lines: usize,
    ) -> Result<Board, AllocError>
        ensures same { IfOk result (λ board. (board.slots ≡ slots) × (board.clock ≡ clock)) }
        ensures none { IfOk result (λ board. (board.store_faults ≡ 0) × (length (lines_on board) ≡ lines)) }
    {
        let down = Standing {
            is_up: false,
            tally: Tally::default(),
        };
        Ok(Board {
            slots,
            clock,
            store_faults: 0,
            lines: vec![in alloc; down; lines]?,
        })
    }

    /// The line at a place stands so now. Where there is none, nothing is noted.
    pub fn note(&mut self, place: usize, standing: Standing)
        ensures lines { lines_on self.new ≡ slice_set (lines_on self.old) place standing }
        ensures same { (self.new.slots ≡ self.old.slots) × (self.new.clock ≡ self.old.clock) × (self.new.store_faults ≡ self.old.store_faults) }
    {
        if let Some(line) = self.lines.get_mut(place) {
            *line = standing;
        }
    }

    /// How the lines stand, in the site's order.
    pub fn lines(&self) -> &[Standing]
        ensures { result.now ≡ lines_on self.now }
    {
        self.lines.as_slice()
    }

    /// The store refused something.
    pub fn note_refusal(&mut self)
        ensures counted { self.new.store_faults ≡ min (self.old.store_faults + 1) (2 ^ 64 - 1) }
        ensures same { (self.new.slots ≡ self.old.slots) × (self.new.clock ≡ self.old.clock) × (lines_on self.new ≡ lines_on self.old) }
    {
        self.store_faults = self.store_faults.saturating_add(1);
    }
}
