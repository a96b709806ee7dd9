//! Files of simulators, and simulators under way through the rows of a block.
use crate::streams::frames_text;
use crate::tables::cell_of;
use crate::texts::{outcome, shown};
use case_pages::{Block, Outcomes, Trouble, bytes_of, file_of, hex_of};
use mb_map::{MapError, Sim};
use mb_mbap::Frame;
use mb_pdu::Unit;
use std::alloc::Global;

/// That a file was read.
#[derive(Clone, Copy, Debug)]
struct Read;

/// What is wrong with a simulator file, and where, if anything is.
pub(crate) fn image(alloc: Global, input: &str) -> Result<String, Trouble> {
    let text = bytes_of(alloc, input)?;
    outcome(alloc, Sim::from_image(alloc, &text).map(|_| Read))
}

#[derive(Drop)]
pub(crate) struct Simulator {
    alloc: Global,
    sim: Sim,
    /// The replies that a row got which couldn't be shown: a request is taken once.
    replies: Option<Vec<Frame>>,
}

fn trouble(error: MapError) -> Trouble {
    match error {
        MapError::Memory => Trouble::Memory,
        _ => Trouble::Page("no simulator file"),
    }
}

impl Simulator {
    /// The simulator of a page's file. Memory is asked for once more where it was refused.
    pub(crate) fn new(alloc: Global, page: &[Block<'_>], name: &str) -> Result<Simulator, Trouble> {
        let text = file_of(page, name)?;
        let read = match Sim::from_toml(alloc, text.as_bytes()) {
            Err(MapError::Memory) => Sim::from_toml(alloc, text.as_bytes()),
            other => other,
        };
        Ok(Simulator {
            alloc,
            sim: read.map_err(trouble)?,
            replies: None,
        })
    }

    fn take(&mut self, input: &str) -> Result<Vec<Frame>, Trouble> {
        if input == "rest" {
            return self.sim.rest().map_err(trouble);
        }
        let (head, unit) = input.split_once(": ").ok_or(Trouble::Page("no unit"))?;
        let unit = hex_of(self.alloc, unit)?;
        let frame = frame_of(head, &unit).ok_or(Trouble::Page("no frame"))?;
        self.sim.take(&frame).map_err(trouble)
    }
}

/// The frame of a transaction identifier with a unit identifier, and of a unit.
fn frame_of(head: &str, unit: &[u8]) -> Option<Frame> {
    let (transaction, unit_id) = head.split_once(' ')?;
    Some(Frame {
        transaction: transaction.parse::<u16>().ok()?,
        unit_id: unit_id.parse::<u8>().ok()?,
        unit: Unit::from_bytes(unit)?,
    })
}

/// What comes of `UNIT TABLE ADDRESS NUMBER`.
fn set(sim: &mut Sim, input: &str) -> Option<bool> {
    let (unit_id, cell) = input.split_once(' ')?;
    let (table, address, number) = cell_of(cell)?;
    Some(sim.set(unit_id.parse::<u8>().ok()?, table, address, number))
}

impl Outcomes for Simulator {
    /// The replies that leave with a frame, or at `rest`, or what comes of `set UNIT TABLE ADDRESS NUMBER`.
    fn outcome(&mut self, input: &str) -> Result<String, Trouble> {
        if let Some(cell) = input.strip_prefix("set ") {
            return Ok(shown(self.alloc, &set(&mut self.sim, cell))?);
        }
        let replies = match self.replies.take() {
            Some(replies) => replies,
            None => self.take(input)?,
        };
        match frames_text(self.alloc, &replies) {
            Ok(text) => Ok(text),
            Err(_) => {
                self.replies = Some(replies);
                Err(Trouble::Memory)
            }
        }
    }
}
