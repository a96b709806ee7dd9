//! Chains of models, and model 1, in devices that are written as stretches of registers:
//! `40000: SunS 1 66; 40070: 65535`.
use crate::texts::{refusal, shown};
use crate::values::value_text;
use case_pages::Trouble;
use mb_pdu::Registers;
use std::alloc::{AllocError, Global};
use sunspec::{Chain, Common, Model, RegisterSource, SourceFault, SunError, common, discover};

/// Of more models than these only the number is shown.
const SHOWN: usize = 8;

/// A device that has some registers, and counts what is asked of it.
#[derive(Drop)]
struct Device {
    cells: Vec<(u16, u16)>,
    /// The number of the read that fails, from 1 on.
    failing: u64,
    failures: u64,
    reads: u64,
    /// The address behind the last read.
    next: u32,
    /// How many reads began before that.
    returns: u64,
}

impl RegisterSource for Device {
    ghost use Rattle.std.specs.Prelude.{None};

    // What is read of it is nothing that a contract speaks of.
    ghost image = { λ _. None };

    ghost failed = { λ device. device.failures };

    fn read(&mut self, start: u16, quantity: u16) -> Result<Option<Registers>, SourceFault> {
        self.reads = self.reads.saturating_add(1);
        if u32::from(start) < self.next {
            self.returns = self.returns.saturating_add(1);
        }
        self.next = u32::from(start) + u32::from(quantity);
        if self.reads == self.failing {
            self.failures = self.failures.saturating_add(1);
            return Err(SourceFault);
        }
        Ok(registers_in(self.cells.as_slice(), start, quantity))
    }

    fn failures(&self) -> u64 {
        self.failures
    }
}

ghost use Rattle.std.specs.Prelude.{◌≡◌, ◌≤◌, IfSome, length};

fn registers_in(cells: &[(u16, u16)], start: u16, quantity: u16) -> Option<Registers>
    requires some { 1 ≤ quantity }
    requires few { quantity ≤ 125 }
    ensures { IfSome result (λ words. length words ≡ quantity) }
{
    let mut words = [0; 125];
    for place in 0..quantity {
        words[place as usize] = register(cells, start.checked_add(place)?)?;
    }
    Registers::from_slice(&words[..quantity as usize])
}

/// The register at an address.
fn register(cells: &[(u16, u16)], address: u16) -> Option<u16> {
    let cell = cells.iter().find(|cell| cell.0 == address)?;
    Some(cell.1)
}

/// The registers of a word: a number, also so many times, or a text of two bytes in each.
fn push_word(words: &mut Vec<u16>, word: &str) -> Result<(), AllocError> {
    let (number, times) = word.split_once('*').unwrap_or((word, "1"));
    let (Ok(number), Ok(times)) = (number.parse::<u16>(), times.parse::<u16>()) else {
        for pair in word.as_bytes().chunks_exact(2) {
            words.push(u16::from_be_bytes([pair[0], pair[1]]))?;
        }
        return Ok(());
    };
    for _ in 0..times {
        words.push(number)?;
    }
    Ok(())
}

fn words_of(alloc: Global, text: &str) -> Result<Vec<u16>, AllocError> {
    let mut words = Vec::new(alloc);
    for word in text.split(' ') {
        push_word(&mut words, word)?;
    }
    Ok(words)
}

impl Device {
    /// A stretch is an address with the registers from it on, or the number of the read that fails.
    fn new(alloc: Global, input: &str) -> Result<Device, Trouble> {
        let mut device = Device {
            cells: Vec::new(alloc),
            failing: 0,
            failures: 0,
            reads: 0,
            next: 0,
            returns: 0,
        };
        for stretch in input.split("; ") {
            device.push(alloc, stretch)?;
        }
        Ok(device)
    }

    fn push(&mut self, alloc: Global, stretch: &str) -> Result<(), Trouble> {
        let (place, words) = stretch.split_once(": ").unwrap_or((stretch, ""));
        if let Some(failing) = place.strip_prefix("fails ") {
            self.failing = failing.parse::<u64>().unwrap_or(0);
            return Ok(());
        }
        let Ok(first) = place.parse::<u16>() else {
            return Err(Trouble::Page("no stretch of registers"));
        };
        for (place, word) in (0u16..).zip(words_of(alloc, words)?.iter()) {
            self.cells.push((first.wrapping_add(place), *word))?;
        }
        Ok(())
    }

    /// What came of it, how many reads there were, how many of them began before the end of the one before, and how
    /// many failed.
    fn read_for(&self, alloc: Global, text: &str) -> Result<String, Trouble> {
        let (reads, returns, failures) = (self.reads, self.returns, self.failures);
        Ok(format!(in alloc; "{text}; reads {reads}, back {returns}, failed {failures}")?)
    }
}

fn found(alloc: Global, device: &mut Device) -> Result<Chain, SunError> {
    discover(alloc, device)
}

fn said(device: &mut Device, chain: &Chain) -> Result<Option<Common>, SunError> {
    common(device, chain)
}

fn chain_text(alloc: Global, chain: &Chain) -> Result<String, AllocError> {
    let (base, end, count) = (chain.base, chain.end, chain.models.len());
    if count > SHOWN {
        return format!(in alloc; "{count} models, base {base}, end {end}");
    }
    shown(alloc, chain)
}

/// The chain of a device and the reads that found it, or why there is none.
pub(crate) fn chain(alloc: Global, input: &str) -> Result<String, Trouble> {
    let mut device = Device::new(alloc, input)?;
    let text = match found(alloc, &mut device) {
        Ok(chain) => chain_text(alloc, &chain)?,
        Err(error) => refusal(alloc, &error)?,
    };
    device.read_for(alloc, text.as_str())
}

fn common_text(alloc: Global, values: &Common) -> Result<String, AllocError> {
    let mut text = String::new(alloc);
    for (name, value) in [
        ("Mn ", &values.mn),
        (", Md ", &values.md),
        (", Opt ", &values.opt),
        (", Vr ", &values.vr),
        (", SN ", &values.sn),
        (", DA ", &values.da),
    ] {
        text.push_str(name)?;
        text.push_str(value_text(alloc, value)?.as_str())?;
    }
    Ok(text)
}

/// Model 1 at an address with a length.
fn model_of(text: &str) -> Option<Model> {
    let (address, length) = text.split_once(' ')?;
    Some(Model {
        id: 1,
        address: address.parse::<u16>().ok()?,
        length: length.parse::<u16>().ok()?,
    })
}

/// What model 1 of a device's chain says, and the reads once its chain is known. `ADDRESS LENGTH / ` before a device
/// stands for a chain of such a model 1 alone, also one that the device doesn't have.
pub(crate) fn common_model(alloc: Global, input: &str) -> Result<String, Trouble> {
    let (model, input) = input.split_once(" / ").unwrap_or(("", input));
    let chain = match model_of(model) {
        Some(model) => Chain {
            base: 0,
            models: vec![in alloc; model]?,
            end: 65535,
        },
        None => match found(alloc, &mut Device::new(alloc, input)?) {
            Ok(chain) => chain,
            Err(error) => return refusal(alloc, &error),
        },
    };
    let mut device = Device::new(alloc, input)?;
    let text = match said(&mut device, &chain) {
        Ok(Some(values)) => common_text(alloc, &values)?,
        Ok(None) => String::from_str(alloc, "no model 1")?,
        Err(error) => refusal(alloc, &error)?,
    };
    device.read_for(alloc, text.as_str())
}
