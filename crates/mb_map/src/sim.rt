//! A simulator of devices behind one connection, whose replies leave by a script.
ghost use Rattle.std.specs.Prelude.{◌≡◌, ◌↔◌, ◌&&◌, [], IfErr, IfOk, IsTrue, OnErr};
ghost use Rattle.std.specs.Bool.{OnFalse, OnTrue};
ghost use Rattle.std.specs.List.{list_all};
ghost use Rattle.mb_map.specs.Queue.{differ, is_sound};
ghost use Rattle.mb_map.specs.Schedule.{CanSet, Continues, StandsFor, begun, step_at, tables_at, with_set};
ghost use Rattle.mb_map.specs.Schedule.Call.{Rest, Set, Take};

use crate::devices::{repeated_id, set_number};
use crate::error::MapError;
use crate::held::Held;
use crate::mapping::Mapping;
use crate::queue::{due_count, give_all, held_count, own_count, pass_on};
use crate::step::Step;
use mb_mbap::Frame;
use mb_pdu::Table;
use std::alloc::Global;
use std::marker::Model;

/// Devices behind one connection, whose replies leave by a script.
#[derive(Debug, Drop)]
pub struct Sim {
    alloc: Global,
    devices: Vec<(u8, Mapping)>,
    script: Vec<Step>,
    used: usize,
    held: Vec<Held>,
}

impl Model for Sim {
    ghost use Rattle.std.specs.Prelude.{◌≢◌, ◌≤◌, ◌<◌, All, drop, vec_len};
    ghost use Rattle.mb_map.specs.declared.step.Step.TheVariants.{Hold};
    ghost use Rattle.mb_map.specs.declared.held.Held.{Held as AHeld};
    ghost use Rattle.mb_map.specs.Queue.{HaveOwnIds};
    ghost use Rattle.mb_map.specs.Schedule.{Simulated};

    ghost Value = { Simulated };

    ghost view = { λ s. record { devices = s.devices.items; script = drop s.used s.script.items; held = s.held.items } };

    ghost invariant = { λ s. HaveOwnIds s.devices.items × All (λ step. step ≢ Hold 0) s.script.items × All (λ (h : AHeld). 0 < h.left) s.held.items × (s.used ≤ vec_len s.script) };
}

/// The step of the next frame: past the end of the script, pass.
fn step_at(script: &[Step], used: usize) -> Step
    ensures { result ≡ step_at script.now used }
{
    match script.get(used) {
        Some(step) => *step,
        None => Step::Pass,
    }
}

/// Whether no step holds a reply for 0 frames.
fn steps_are_sound(script: &[Step]) -> bool
    ensures { result ≡ list_all is_sound script.now }
{
    script.iter().all(|step| step.is_sound())
}

impl Sim {
    /// Whether `new` takes these devices and this script: the unit identifiers of the devices
    /// differ, and no step holds a reply for 0 frames.
    pub fn can_begin(devices: &[(u8, Mapping)], script: &[Step]) -> bool
        ensures { result ≡ (differ devices.now && list_all is_sound script.now) }
    {
        repeated_id(devices).is_none() && steps_are_sound(script)
    }

    /// A simulator of devices under their unit identifiers, which differ. The script has a step
    /// for each frame from the first on, and past its end every step is `Pass`; no step holds a
    /// reply for 0 frames. `can_begin` tests both.
    pub fn new(alloc: Global, devices: Vec<(u8, Mapping)>, script: Vec<Step>) -> Sim
        requires devices { IsTrue (differ devices.items) }
        requires script { IsTrue (list_all is_sound script.items) }
        ensures begun { result ≡ begun devices.items script.items }
        ensures stands { StandsFor devices.items script.items [] [] result }
    {
        Sim {
            alloc,
            devices,
            script,
            used: 0,
            held: Vec::new(alloc),
        }
    }

    /// Takes a frame: performs its request, and gives the replies that leave with it, its own
    /// first and then held ones in the order of their frames.
    ///
    /// It uses one step of the script. A unit identifier without a device is answered with
    /// exception 0B. After `Memory` nothing was performed and no step was used.
    pub fn take(&mut self, frame: &Frame) -> Result<Vec<Frame>, MapError>
        ensures taken { IfOk result (λ replies. Continues self.old (Take frame.now) replies.items self.new) }
        ensures memory { IfErr result (λ e. e ≡ MapError.Memory) }
        ensures same { OnErr result (self.new ≡ self.old) }
    {
        let step = step_at(self.script.as_slice(), self.used);
        let count = own_count(step) + due_count(self.held.as_slice());
        let mut replies = Vec::with_capacity(self.alloc, count)?;
        self.held.reserve(held_count(step))?;
        self.used = self.used.saturating_add(1).min(self.script.len());
        pass_on(
            self.devices.as_mut_slice(),
            step,
            &mut self.held,
            frame,
            &mut replies,
        );
        Ok(replies)
    }

    /// Gives out every held reply, in the order of their frames. After `Memory` all are still
    /// held.
    pub fn rest(&mut self) -> Result<Vec<Frame>, MapError>
        ensures rested { IfOk result (λ replies. Continues self.old Rest replies.items self.new) }
        ensures memory { IfErr result (λ e. e ≡ MapError.Memory) }
        ensures same { OnErr result (self.new ≡ self.old) }
    {
        let mut replies = Vec::with_capacity(self.alloc, self.held.len())?;
        give_all(self.held.as_slice(), &mut replies);
        self.held.clear();
        Ok(replies)
    }
    /// Puts a number at an address of a table of the device of a unit identifier. It is refused,
    /// and nothing is changed, where no device has the identifier, for an address outside the
    /// table, and for a bit over 1. The script and the held replies stay as they are.
    pub fn set(&mut self, unit_id: u8, table: Table, address: u16, number: u16) -> bool
        ensures test { IsTrue result ↔ CanSet (tables_at unit_id self.old.devices) table address number }
        ensures done { OnTrue result (self.new ≡ record self.old { devices = with_set unit_id table address number self.old.devices }) }
        ensures continues { OnTrue result (Continues self.old (Set unit_id table address number) [] self.new) }
        ensures refused { OnFalse result (self.new ≡ self.old) }
    {
        set_number(self.devices.as_mut_slice(), unit_id, table, address, number)
    }
}
