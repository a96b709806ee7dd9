//! Scripts of a plant: its devices are asked slot after slot, and one reply in a hundred comes a slot late, one in a
//! thousand twice, and one in a thousand never. Orders and voids come now and then.
use crate::work::{Size, granted, print_digest};
use mb_mbap::Counted;
use office_script::{Replayed, replay};
use std::alloc::{AllocError, Global};
use std::io;
use workload_plant::{Block, Dice, Digest, Plant, SETTING, blocks, echo_bytes, image, reply_bytes};

/// A script as it is written.
#[derive(Drop)]
struct Script {
    alloc: Global,
    plant: Plant,
    dice: Dice,
    text: String,
    // The lines of replies that come a slot late.
    late: String,
    // How many queries each line's connection made.
    asked: Vec<u32>,
    orders: u32,
}

const DIGITS: &[u8; 16] = b"0123456789ABCDEF";

fn digit(number: u8) -> char {
    DIGITS.get(number as usize).copied().map_or('0', char::from)
}

/// The line of a reply over a connection.
fn push_reply(text: &mut String, conn: u32, frame: &[u8]) -> Result<(), AllocError> {
    write!(text, "reply {conn}")?;
    for byte in frame {
        text.push(' ')?;
        text.push(digit(byte >> 4))?;
        text.push(digit(byte & 15))?;
    }
    text.push('\n')
}

impl Script {
    fn new(alloc: Global, plant: Plant) -> Result<Script, AllocError> {
        let mut asked = Vec::new(alloc);
        for _ in 0..plant.lines {
            asked.push(0u32)?;
        }
        Ok(Script {
            alloc,
            plant,
            dice: Dice::new(plant.seed),
            text: String::new(alloc),
            late: String::new(alloc),
            asked,
            orders: 0,
        })
    }

    /// The devices, their points and settings, and a connection for each line.
    fn open(&mut self) -> Result<(), AllocError> {
        for device in 0..self.plant.devices {
            let (line, unit) = (self.plant.line_of(device), self.plant.unit_of(device));
            writeln!(self.text, "device meter-{device} line-{line} {unit}")?;
        }
        for device in 0..self.plant.devices {
            self.plant
                .push_points(self.alloc, &mut self.text, "point ", device)?;
            self.plant.push_setting(&mut self.text, "point ", device)?;
        }
        for line in 0..self.plant.lines {
            writeln!(self.text, "open line-{line}")?;
        }
        Ok(())
    }

    /// The transaction identifier of the next query to a device.
    fn transaction(&mut self, device: u32) -> u16 {
        let line = self.plant.line_of(device);
        match self.asked.get_mut(line as usize) {
            Some(count) => {
                let transaction = (*count & 0xFFFF) as u16;
                *count = count.wrapping_add(1);
                transaction
            }
            None => 0,
        }
    }

    /// A frame that may be late, repeated or lost.
    fn push_frame(&mut self, conn: u32, frame: &[u8]) -> Result<(), AllocError> {
        if self.dice.once_in(1_000) {
            return Ok(());
        }
        if self.dice.once_in(100) {
            return push_reply(&mut self.late, conn, frame);
        }
        push_reply(&mut self.text, conn, frame)?;
        if self.dice.once_in(1_000) {
            push_reply(&mut self.text, conn, frame)?;
        }
        Ok(())
    }

    fn unit(&self, device: u32) -> u8 {
        (self.plant.unit_of(device) & 0xFF) as u8
    }

    /// The query of a block, and what comes of it.
    fn ask(
        &mut self,
        device: u32,
        slot: u32,
        block: Block,
        words: &[u16],
    ) -> Result<(), AllocError> {
        let conn = self.plant.line_of(device).wrapping_add(1);
        let (start, quantity) = (block.start, block.quantity);
        writeln!(
            self.text,
            "ask {conn} meter-{device} {slot} 3 {start} {quantity}"
        )?;
        let from = start as usize;
        let words = words.get(from..).unwrap_or(&[]);
        let words = words.get(..quantity as usize).unwrap_or(words);
        let transaction = self.transaction(device);
        let frame = reply_bytes(self.alloc, transaction, self.unit(device), words)?;
        self.push_frame(conn, &frame)
    }

    /// An order that is sent and done, and a void.
    fn order(&mut self, slot: u32) -> Result<(), AllocError> {
        let device = self.dice.below(self.plant.devices);
        let value = self.dice.below(10_000);
        let conn = self.plant.line_of(device).wrapping_add(1);
        self.orders = self.orders.wrapping_add(1);
        let order = self.orders;
        writeln!(self.text, "order k{order} meter-{device}.limit {value}")?;
        writeln!(self.text, "send {conn} {order}")?;
        let transaction = self.transaction(device);
        let value = (value & 0xFFFF) as u16;
        let frame = echo_bytes(self.alloc, transaction, self.unit(device), SETTING, value)?;
        push_reply(&mut self.text, conn, &frame)?;
        let voided = slot.saturating_sub(self.dice.below(5));
        writeln!(self.text, "void v{order} meter-{device}.p1 {voided}")
    }

    fn slot(&mut self, slot: u32, blocks: &[Block]) -> Result<(), AllocError> {
        for device in 0..self.plant.devices {
            let words = image(self.alloc, &self.plant, device, slot)?;
            for block in blocks {
                self.ask(device, slot, *block, &words)?;
            }
        }
        if self.dice.once_in(10) {
            self.order(slot)?;
        }
        Ok(())
    }

    /// What was late comes behind the replies of the next slot.
    fn slots(&mut self, slots: u32) -> Result<(), AllocError> {
        let blocks = blocks(self.alloc, self.plant.points)?;
        for slot in 0..slots {
            let late = String::from_str(self.alloc, self.late.as_str())?;
            self.late.clear();
            self.slot(slot, &blocks)?;
            self.text.push_str(late.as_str())?;
        }
        Ok(())
    }
}

fn written(alloc: Global, plant: Plant, slots: u32) -> Result<String, AllocError> {
    let mut script = Script::new(alloc, plant)?;
    script.open()?;
    script.slots(slots)?;
    Ok(script.text)
}

/// What is printed of a script; `None` where it wasn't played to its end.
fn printed(alloc: Global, script: &[u8]) -> Option<Vec<u8>> {
    let mut reader = Counted::new(script);
    let mut writer = Counted::new(Vec::new(alloc));
    match replay(alloc, &mut reader, &mut writer) {
        Ok(Replayed::Done) => Some(writer.into_inner()),
        _ => None,
    }
}

fn play(alloc: Global, digest: &mut Digest, plant: Plant, slots: u32) -> io::Result<()> {
    let script = written(alloc, plant, slots)?;
    let printed = granted(printed(alloc, script.as_bytes()))?;
    digest.add(&printed);
    Ok(())
}

/// A day's part of a site of 25 devices.
pub fn replayed(rt: &HostRuntime, seed: u32, size: Size) -> io::Result<()> {
    let plant = Plant {
        lines: 5,
        devices: size.of(25, 10),
        points: 40,
        seed,
    };
    let mut digest = Digest::new();
    play(rt.alloc(), &mut digest, plant, size.of(1_000, 8))?;
    print_digest(rt, "replay", &digest)
}

/// So many sites are played, the first by the job's own seed, and each by another for each seed.
const SITES: u32 = 4;

/// Sites of 243 devices, whose points come one by one.
pub fn points(rt: &HostRuntime, seed: u32, size: Size) -> io::Result<()> {
    let mut digest = Digest::new();
    for site in 0..SITES {
        let plant = Plant {
            lines: size.of(50, 5),
            devices: size.of(243, 20),
            points: 40,
            seed: seed.wrapping_mul(2 * site + 1).wrapping_add(site),
        };
        play(rt.alloc(), &mut digest, plant, size.of(8, 2))?;
    }
    print_digest(rt, "points", &digest)
}
