//! Turns: each is called once, whatever the others do.
ghost use Rattle.std.specs.Prelude.{◌≡◌, ◌⊎◌, ◌-◌, ◌^◌, ℕ, Bool, Err, IsTrue, List, MatchResult, Result, ⊤};
ghost use Rattle.run_beat.specs.Turns.{EachSteps, Turn, Turns, any_more};
ghost use Rattle.run_beat.specs.declared.sockets.SocketFault.{SocketFault};

use crate::sockets::SocketFault;

/// What all that is called works on: the office, and the system's sockets.
pub trait World {
    /// A wait may lead from the one to the other, where it is told whether there is more to do, and
    /// ends so.
    ghost waits: { Self → Bool → Result (Unit {0}) SocketFault → Self → Type 0 } = { λ _ _ _ _. ⊤ };

    /// The run is to end.
    ghost stopped: { Self → Bool };

    /// Whether the run is to end.
    fn is_stopped(&self) -> bool
        ensures { result ≡ stopped self.now };

    /// Waits until something may be ready or due; not at all where there is more to do at once. It
    /// fails where no turn is possible any more.
    fn wait(&mut self, is_more: bool) -> Result<(), SocketFault>
        ensures { waits self.old is_more result self.new };
}

/// Something that has its turn: a line, or a caller's place.
pub trait Called<W: World> {
    /// One call may lead from the one to the other, and from the one world to the other, and tell
    /// whether there is more to do. Of a member that counts its calls: it counts one more.
    ghost steps: { Self → W → Bool → Self → W → Type 0 };

    /// Its turn, in a world; tells whether there may be more to do at once.
    fn call(&mut self, world: &mut W) -> bool
        ensures { steps self.old world.old result self.new world.new };
}

/// Calls each once, in their order; tells whether one of them may have more to do at once.
pub fn call_each<W: World, M: Called<W>>(members: &mut [M], world: &mut W) -> bool
    ensures { (mores : List Bool) × EachSteps M.steps members.old world.old mores members.new world.new × (result ≡ any_more mores) }
{
    let mut is_more = false;
    for member in members.iter_mut() {
        is_more |= member.call(world);
    }
    is_more
}

/// A turn: each line is called once, and each caller's place; then it waits, not at all where one of
/// them may have more to do at once.
pub fn turn<W: World, L: Called<W>, C: Called<W>>(
    lines: &mut [L],
    callers: &mut [C],
    world: &mut W,
) -> Result<(), SocketFault>
    ensures { Turn L.steps C.steps W.waits lines.old callers.old world.old result lines.new callers.new world.new }
{
    let of_lines = call_each(lines, world);
    let of_callers = call_each(callers, world);
    world.wait(of_lines | of_callers)
}

/// Turns until the run is to end, or no turn is possible any more. Each line and each caller's place
/// was called as often as any other: once in each turn. It ends after 2⁶⁴ − 1 turns too, which takes
/// 584 years at a turn a nanosecond.
pub fn run<W: World, L: Called<W>, C: Called<W>>(
    lines: &mut [L],
    callers: &mut [C],
    world: &mut W,
) -> Result<(), SocketFault>
    ensures { (turns : ℕ) × MatchResult result
        (λ _. Turns L.steps C.steps W.waits turns lines.old callers.old world.old lines.new callers.new world.new
        × (IsTrue (W.stopped world.new) ⊎ (turns ≡ 2 ^ 64 - 1)))
        (λ fault. (some : List L) × (others : List C) × (between : W)
        × Turns L.steps C.steps W.waits turns lines.old callers.old world.old some others between
        × Turn L.steps C.steps W.waits some others between (Err fault) lines.new callers.new world.new) }
{
    for _ in 0..u64::MAX {
        if world.is_stopped() {
            return Ok(());
        }
        turn(lines, callers, world)?;
    }
    Ok(())
}
