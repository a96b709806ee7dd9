//! How many bytes a caller moved lately.
ghost use Rattle.std.specs.Prelude.{◌≡◌};

use run_beat::Moment;

/// Bytes are counted for so many seconds.
const SECONDS: usize = 10;

/// The bytes that were moved in a second of the run.
#[derive(Clone, Copy, Debug, PartialEq, Eq)]
struct Second {
    number: u64,
    bytes: usize,
}

/// The bytes that a caller sent or took in the last ten seconds.
#[derive(Clone, Copy, Debug, PartialEq, Eq)]
pub(crate) struct Moved {
    // Each at the place that its number leaves when it is divided by ten.
    seconds: [Second; SECONDS],
}

/// The second of the run at a moment.
fn second_at(now: Moment) -> u64 {
    Moment::new(0).until(now) / 1_000
}

impl Moved {
    /// None was moved.
    pub fn none() -> Moved {
        Moved {
            seconds: [Second {
                number: 0,
                bytes: 0,
            }; SECONDS],
        }
    }

    /// So many more were moved.
    pub fn add(&mut self, now: Moment, bytes: usize) {
        let number = second_at(now);
        let place = (number % 10) as usize;
        let former = self.seconds[place];
        let before = if former.number == number {
            former.bytes
        } else {
            0
        };
        self.seconds[place] = Second {
            number,
            bytes: before.saturating_add(bytes),
        };
    }

    /// So many were moved in this second of the run and the nine before it.
    pub fn total(&self, now: Moment) -> usize {
        let number = second_at(now);
        let mut total: usize = 0;
        for second in &self.seconds {
            if number - second.number.min(number) < 10 {
                total = total.saturating_add(second.bytes);
            }
        }
        total
    }
}
