//! The turns of an office that stays up.
ghost use Rattle.std.specs.Prelude.{◌≡◌, ◌≤◌, ◌||◌, [], IfOk, is_some, length};
ghost use Rattle.run_beat.specs.declared.sockets.Source.TheVariants as source;
ghost use Rattle.point_list.specs.Sites.{IsSound};
ghost use Rattle.office_core.specs.Offices.{site_of};
ghost use Rattle.office_core.specs.Proceeding.{GoesAlong, Nothing};
ghost use Rattle.run_callers.specs.Callers.{at_of, session_at};
ghost use Rattle.run_deeds.specs.Deeds.{GoesBy};
ghost use Rattle.run_deeds.specs.Doings.{Runs};
ghost use Rattle.run_lines.specs.Lines.{Keeps, place_of, state_at, terms_of};
ghost use Rattle.run_callers.specs.Sessions.{Acting, Exchanges};
ghost use Rattle.run_lines.specs.Wires.{Lined};
ghost use Rattle.office_run.specs.Beginnings.{AreDown, AreEmpty, all_terms, site_terms};
ghost use Rattle.office_run.specs.Parts.{AreServed, AreWired};

use crate::pass::Pass;
use office_core::Office;
use point_list::Site;
use poll_book::{Keeper, StoreFault};
use run_beat::{
    Called, MOST_CALLERS, MOST_LINES, Moment, Slots, SocketFault, Sockets, Watch, World,
};
use run_callers::{Hold, News, Place, orders_of};
use run_deeds::Board;
use run_lines::{Ahead, Event, Journal, Line, Times, Turned, earlier};
use std::alloc::{AllocError, Global};
use thiserror::Error;

/// A turn waits for so many milliseconds at most.
const MOST_WAIT: u64 = 60_000;

/// So many milliseconds lie between two look-ups of where a line is, at least, since a look-up waits.
const LOOK_UP_MILLIS: u32 = 60_000;

/// Why no office can stay up.
#[derive(Clone, Copy, Debug, PartialEq, Eq, Error)]
pub enum RunFault {
    #[error("memory was refused")]
    Memory,
    #[error("{0}")]
    Sockets(SocketFault),
    /// The store is broken: a call was told so, and so was another one right behind it.
    #[error("store {0}")]
    Store(StoreFault),
    /// The counter of a number is counted in a slot that begins in a day or later: the clock was another one as that was polled, or
    /// slots had another length.
    #[error("point {point} is counted in slot {slot}, a day from now or later")]
    Ahead { point: u32, slot: u32 },
}

impl From<AllocError> for RunFault {
    fn from(_: AllocError) -> RunFault {
        RunFault::Memory
    }
}

impl From<SocketFault> for RunFault {
    fn from(fault: SocketFault) -> RunFault {
        RunFault::Sockets(fault)
    }
}

/// What all that is called works on.
#[derive(Drop)]
struct Running<'a, K: Keeper, S: Sockets> {
    office: &'a mut Office<K>,
    sockets: &'a mut S,
    watch: Watch,
    times: Times,
    // What of those that had their turn is due first.
    due: Option<Moment>,
    // Whether one of the places was free.
    is_free: bool,
    // Which caller goes first where another one waits.
    least: Option<Held>,
    // Whose place is wanted for a caller that waits.
    wanted: Option<usize>,
    // So many orders came for each line, and so many slots were voided.
    orders: &'a mut Vec<u64>,
    voids: u64,
    // Which line that can't be reached has been looked up longest ago.
    unreached: Option<Unreached>,
    // Which line is to be looked up now, and from when on another one may be.
    to_look_up: Option<usize>,
    may_look_up: Moment,
    journal: &'a mut Journal,
    // What pages show beside what the office keeps.
    board: &'a mut Board,
    // Whether the clock is held, and whether it stands behind the last slot that was begun on a line.
    is_held: bool,
    is_behind: bool,
    from: u32,
    // What the store refused, as it was told.
    refused: Option<StoreFault>,
    // Why the run ends, before it is to.
    fault: Option<RunFault>,
    lines: Pass,
    callers: Pass,
}

/// A caller that may go for another one: how soon, and its place.
#[derive(Clone, Copy)]
struct Held {
    hold: Hold,
    at: usize,
}

/// A line that can't be reached: when it was looked up last where it is, and its place.
#[derive(Clone, Copy)]
struct Unreached {
    looked_up: Moment,
    place: usize,
}

impl<K: Keeper, S: Sockets> Running<'_, K, S> {
    /// The moment of now; that of the turn, where the clock fails, which the next wait tells.
    fn moment(&self) -> Moment {
        self.sockets.now().unwrap_or(self.times.now)
    }

    /// Something is due at a moment.
    fn expect(&mut self, due: Option<Moment>)
        ensures { (self.new.office ≡ self.old.office) × (self.new.sockets ≡ self.old.sockets) }
    {
        self.due = earlier(self.due, due);
    }

    /// An order for a line was accepted.
    fn wake(&mut self, line: u16)
        ensures { (self.new.office ≡ self.old.office) × (self.new.sockets ≡ self.old.sockets) }
    {
        if let Some(orders) = self.orders.get_mut(usize::from(line)) {
            *orders = orders.wrapping_add(1);
        }
    }

    /// The store refused something: where a file failed it is asked once more, and is broken where it fails again.
    fn note_refusal(&mut self, fault: StoreFault)
        ensures along { (self.new.office.ghost_name ≡ self.old.office.ghost_name) × GoesAlong Nothing self.old.office.now self.new.office.now }
        ensures sockets { self.new.sockets ≡ self.old.sockets }
    {
        self.board.note_refusal();
        if self.refused != Some(fault) {
            self.refused = Some(fault);
            self.journal.tell(&Event::Refused(fault));
        }
        if fault == StoreFault::Disk {
            let again = orders_of(self.office);
            if again == Err(StoreFault::Disk) {
                self.fault = Some(RunFault::Store(fault));
            }
        }
    }

    /// The store kept something.
    fn note_kept(&mut self)
        ensures { (self.new.office ≡ self.old.office) × (self.new.sockets ≡ self.old.sockets) }
    {
        if self.refused.is_some() {
            self.refused = None;
            self.journal.tell(&Event::Kept);
        }
    }

    /// A line had its turn.
    fn note_line(&mut self, line: &Line, turned: Turned)
        ensures along { (self.new.office.ghost_name ≡ self.old.office.ghost_name) × GoesAlong Nothing self.old.office.now self.new.office.now }
        ensures sockets { self.new.sockets ≡ self.old.sockets }
    {
        self.note_turn(line, &turned);
        if let Some(fault) = turned.refused {
            self.note_refusal(fault);
        }
    }

    /// The same, but for what the store refused.
    fn note_turn(&mut self, line: &Line, turned: &Turned)
        ensures { (self.new.office ≡ self.old.office) × (self.new.sockets ≡ self.old.sockets) }
    {
        self.expect(line.due());
        self.board.note(line.place(), line.standing());
        self.note_unreached(line);
        self.from = self.from.max(line.from());
        if let Some(Ahead { point, slot }) = turned.ahead {
            self.fault = Some(RunFault::Ahead { point, slot });
        }
        if turned.has_kept {
            self.note_kept();
        }
    }

    /// Notes a line that can't be reached.
    fn note_unreached(&mut self, line: &Line)
        ensures { (self.new.office ≡ self.old.office) × (self.new.sockets ≡ self.old.sockets) }
    {
        if let Some(looked_up) = line.unreached() {
            let is_longer = self
                .unreached
                .is_none_or(|unreached| looked_up < unreached.looked_up);
            if is_longer {
                let place = line.place();
                self.unreached = Some(Unreached { looked_up, place });
            }
        }
    }

    /// Looks up where a line is, if that is to be done now.
    fn look_up(&mut self, line: &mut Line)
        ensures office { self.new.office ≡ self.old.office }
        ensures name { self.new.sockets.ghost_name ≡ self.old.sockets.ghost_name }
        ensures acts { S.acts self.old.sockets.now [] self.new.sockets.now }
        ensures line { Keeps line.old line.new }
    {
        if self.to_look_up != Some(line.place()) {
            return;
        }
        self.to_look_up = None;
        let before = self.moment();
        let is_name = self.sockets.look_up(line.place());
        let now = self.moment();
        line.note_look_up(now);
        if is_name {
            self.may_look_up = now.after(LOOK_UP_MILLIS);
            let millis = before.until(now);
            let line = line.name();
            self.journal.tell(&Event::LookedUp { line, millis });
        }
    }

    /// Whether a line may do something in this turn. If not, it is noted how it stands.
    fn admit_line(&mut self, line: &mut Line) -> bool
        ensures same { (self.new.office ≡ self.old.office) × (self.new.sockets ≡ self.old.sockets) }
        ensures line { Keeps line.old line.new }
    {
        let now = self.moment();
        let is_admitted = self.lines.admit(line.served(), now);
        if is_admitted {
            line.serve(self.lines.number(), self.voids);
        } else {
            self.expect(line.due());
            self.note_unreached(line);
        }
        is_admitted
    }

    /// Whether a place may do something in this turn. If not, it is noted how it stands.
    fn admit(&mut self, place: &mut Place) -> bool
        ensures same { (self.new.office ≡ self.old.office) × (self.new.sockets ≡ self.old.sockets) }
        ensures place { (at_of place.new ≡ at_of place.old) × (session_at place.new ≡ session_at place.old) }
    {
        let now = self.moment();
        if place.at() == 0 {
            self.callers.begin_turn(now);
        }
        let is_admitted = self.callers.admit(place.served(), now);
        if is_admitted {
            place.serve(self.callers.number());
        } else {
            self.note(place);
        }
        is_admitted
    }

    /// A place did something.
    fn note_place(&mut self, place: &mut Place)
        ensures along { (self.new.office.ghost_name ≡ self.old.office.ghost_name) × GoesAlong Nothing self.old.office.now self.new.office.now }
        ensures sockets { self.new.sockets ≡ self.old.sockets }
        ensures place { (at_of place.new ≡ at_of place.old) × (session_at place.new ≡ session_at place.old) }
    {
        self.note(place);
        if let Some(news) = place.news() {
            self.note_news(news);
        }
    }

    /// What became of what a caller asked for.
    fn note_news(&mut self, news: News)
        ensures along { (self.new.office.ghost_name ≡ self.old.office.ghost_name) × GoesAlong Nothing self.old.office.now self.new.office.now }
        ensures sockets { self.new.sockets ≡ self.old.sockets }
    {
        if let Some(line) = news.ordered {
            self.wake(line);
            self.note_kept();
        }
        if news.has_voided {
            self.voids = self.voids.wrapping_add(1);
        }
        if let Some(fault) = news.refused {
            self.note_refusal(fault);
        }
    }

    /// A place had its turn.
    fn note(&mut self, place: &Place)
        ensures { (self.new.office ≡ self.old.office) × (self.new.sockets ≡ self.old.sockets) }
    {
        let now = self.times.now;
        self.expect(place.due());
        self.expect(place.slow_from(now));
        self.is_free |= place.is_free();
        if let Some(hold) = place.hold(now) {
            let is_first = self.least.is_none_or(|least| hold < least.hold);
            if is_first {
                let at = place.at();
                self.least = Some(Held { hold, at });
            }
        }
    }

    /// Sends the caller of a place away that is wanted for another one.
    fn make_room(&mut self, place: &mut Place)
        ensures office { self.new.office ≡ self.old.office }
        ensures name { self.new.sockets.ghost_name ≡ self.old.sockets.ghost_name }
        ensures at { at_of place.new ≡ at_of place.old }
        ensures acts { Acting (source.Caller (at_of place.old)) (λ acts. S.acts self.old.sockets.now acts self.new.sockets.now) (session_at place.old) (session_at place.new) }
    {
        if self.wanted == Some(place.at()) {
            place.clear(self.sockets);
        }
    }

    /// Tells what the clock does, where that is new.
    fn tell_clock(&mut self)
        ensures { (self.new.office ≡ self.old.office) × (self.new.sockets ≡ self.old.sockets) }
    {
        self.journal.set_clock(self.times.clock);
        self.board.clock = self.times.clock;
        let is_held = self.times.slot().is_none();
        if self.times.has_jumped {
            self.journal.tell(&Event::Jumped);
        } else if self.is_held && !is_held {
            self.journal.tell(&Event::Followed);
        }
        self.is_held = is_held;
        let Some(slot) = self.times.slot() else {
            return;
        };
        let is_behind = slot < self.from;
        if is_behind && !self.is_behind {
            self.journal.tell(&Event::Behind { slot: self.from });
        } else if self.is_behind && !is_behind {
            self.journal.tell(&Event::CaughtUp);
        }
        self.is_behind = is_behind;
    }

    /// Chooses who goes for a caller that waits, and which line is looked up.
    fn choose(&mut self)
        ensures office { self.new.office ≡ self.old.office }
        ensures sockets { self.new.sockets ≡ self.old.sockets }
        ensures fault { self.new.fault ≡ self.old.fault }
    {
        self.wanted = match self.least {
            Some(least) if !self.is_free && self.sockets.has_caller() => Some(least.at),
            _ => None,
        };
        self.to_look_up = match self.unreached {
            Some(unreached) if self.may_look_up <= self.times.now => Some(unreached.place),
            _ => None,
        };
    }

    /// How the run ended, where no fault of the system ended it.
    fn ended(&self) -> Result<(), RunFault> {
        match self.fault {
            Some(fault) => Err(fault),
            None => Ok(()),
        }
    }

    /// So many milliseconds may pass, if nothing comes: less what the turn itself took.
    fn patience(&self) -> u64 {
        let times = &self.times;
        let Ok(now) = self.sockets.now() else {
            return 0;
        };
        let most = times.slots.until_next(times.clock).min(MOST_WAIT);
        let most = match self.due {
            Some(due) => most.min(times.now.until(due)),
            None => most,
        };
        most.saturating_sub(times.now.until(now))
    }
}

impl<K: Keeper, S: Sockets> World for Running<'_, K, S> {
    // Nothing is done with the office, nor with the sockets.
    ghost waits = { λ old _ _ new. (new.office ≡ old.office) × (new.sockets.ghost_name ≡ old.sockets.ghost_name)
        × S.acts old.sockets.now [] new.sockets.now };

    ghost stopped = { λ world. is_some world.fault || S.stopped world.sockets.now };

    fn is_stopped(&self) -> bool {
        self.fault.is_some() || self.sockets.is_stopped()
    }

    fn wait(&mut self, is_more: bool) -> Result<(), SocketFault> {
        self.choose();
        let has_told = self.journal.write(self.sockets);
        let is_more = is_more || has_told || self.fault.is_some();
        let most = if is_more || self.wanted.is_some() || self.to_look_up.is_some() {
            0
        } else {
            self.patience()
        };
        self.sockets.wait(most)?;
        // What is to be told may be taken only now, and the run may end.
        self.journal.write(self.sockets);
        self.times = Times::of(self.sockets, self.times.slots, &mut self.watch)?;
        self.due = self.watch.held_until(self.times.now);
        self.tell_clock();
        self.lines.begin_turn(self.times.now);
        self.is_free = false;
        self.least = None;
        self.unreached = None;
        Ok(())
    }
}

impl<K: Keeper, S: Sockets> Called<Running<'_, K, S>> for Line {
    // The office and the sockets are the same ones, and what is done with them is of this line alone, and what its connection allows.
    ghost steps = { λ line old _ line' new. (new.office.ghost_name ≡ old.office.ghost_name) × (new.sockets.ghost_name ≡ old.sockets.ghost_name)
        × (place_of line' ≡ place_of line) × (terms_of line' ≡ terms_of line)
        × Lined (terms_of line) (source.Line (place_of line)) old.office.now new.office.now (λ acts. S.acts old.sockets.now acts new.sockets.now) (state_at line) (state_at line') };

    fn call(&mut self, world: &mut Running<'_, K, S>) -> bool {
        if !world.admit_line(self) {
            // What it had to do behind its turn in this pass is still to be done, and what is owed, too.
            return true;
        }
        world.look_up(self);
        let orders = world.orders.get(self.place()).copied().unwrap_or(0);
        let turned = self.turn(
            world.office,
            world.sockets,
            world.journal,
            world.times,
            orders,
        );
        let is_more = turned.is_more;
        world.note_line(self, turned);
        is_more
    }
}

impl<K: Keeper, S: Sockets> Called<Running<'_, K, S>> for Place {
    // The same of this place and its caller's session.
    ghost steps = { λ place old _ place' new. (new.office.ghost_name ≡ old.office.ghost_name) × (new.sockets.ghost_name ≡ old.sockets.ghost_name)
        × (at_of place' ≡ at_of place)
        × Exchanges (source.Caller (at_of place)) old.office.now new.office.now (λ acts. S.acts old.sockets.now acts new.sockets.now) (session_at place) (session_at place') };

    fn call(&mut self, world: &mut Running<'_, K, S>) -> bool {
        if !world.admit(self) {
            return true;
        }
        world.make_room(self);
        let is_more = self.turn(world.office, world.sockets, world.board, world.times.now);
        world.note_place(self);
        is_more
    }
}

/// The lines of a site, of which none has a connection.
fn lines_of(alloc: Global, site: &Site, timeout: u32) -> Result<Vec<Line>, AllocError>
    requires { IsSound site.now }
    ensures down { IfOk result (λ lines. AreDown 0 lines.items) }
    ensures terms { IfOk result (λ lines. all_terms lines.items ≡ site_terms site.now) }
{
    let mut lines = Vec::new(alloc);
    for place in 0..MOST_LINES {
        let Some(line) = site.lines.as_slice().get(place) else {
            return Ok(lines);
        };
        let most = usize::from(site.outstanding(place as u16));
        let name = line.name.clone()?;
        lines.push(Line::new(alloc, place, name, most, timeout))?;
    }
    Ok(lines)
}

/// Empty places for callers.
fn places(alloc: Global) -> Result<Vec<Place>, AllocError>
    ensures { IfOk result (λ places. AreEmpty 0 places.items × (length places.items ≡ 64)) }
{
    let mut places = Vec::new(alloc);
    for at in 0..MOST_CALLERS {
        places.push(Place::new(alloc, at))?;
    }
    Ok(places)
}

/// What a run begins at.
#[derive(Clone, Copy)]
struct Outset {
    watch: Watch,
    times: Times,
}

/// Turns in a world until the run is to end.
fn stay<K: Keeper, S: Sockets>(
    lines: &mut Vec<Line>,
    places: &mut Vec<Place>,
    world: &mut Running<'_, K, S>,
) -> Result<(), RunFault>
    requires lines { AreDown 0 lines.old.items }
    requires places { AreEmpty 0 places.old.items }
    requires few { length places.old.items ≤ 64 }
    ensures { (world.new.office.ghost_name ≡ world.old.office.ghost_name) × (world.new.sockets.ghost_name ≡ world.old.sockets.ghost_name)
        × GoesBy world.old.office.now world.new.office.now (λ acts. S.acts world.old.sockets.now acts world.new.sockets.now)
        (λ now deeds. AreWired (all_terms lines.old.items) now deeds × AreServed now deeds) }
{
    run_beat::run(lines, places, world)?;
    world.ended()
}

/// Turns until the run is to end.
fn turns<K: Keeper, S: Sockets>(
    office: &mut Office<K>,
    sockets: &mut S,
    orders: &mut Vec<u64>,
    journal: &mut Journal,
    board: &mut Board,
    lines: &mut Vec<Line>,
    places: &mut Vec<Place>,
    outset: Outset,
) -> Result<(), RunFault>
    requires lines { AreDown 0 lines.old.items }
    requires places { AreEmpty 0 places.old.items }
    requires few { length places.old.items ≤ 64 }
    ensures { GoesBy office.old office.new (λ acts. S.acts sockets.old acts sockets.new) (λ now deeds. AreWired (all_terms lines.old.items) now deeds × AreServed now deeds) }
{
    let mut world = Running {
        office,
        sockets,
        watch: outset.watch,
        times: outset.times,
        due: None,
        is_free: false,
        least: None,
        wanted: None,
        orders,
        voids: 0,
        unreached: None,
        to_look_up: None,
        may_look_up: Moment::new(0),
        journal,
        board,
        is_held: false,
        is_behind: false,
        from: 0,
        refused: None,
        fault: None,
        lines: Pass::at(outset.times.now),
        callers: Pass::new(),
    };
    stay(lines, places, &mut world)
}

/// Keeps an office up until the run is to end: each line of its site polls each slot, over a connection that stays
/// and is made again where it was lost; an order that comes is sent at once; and callers are answered. A device
/// is given so many milliseconds for each answer. A fault is memory's as it begins, the system's, the store's where it
/// is broken, or a counter's that is counted in a slot a day ahead.
pub fn run<K: Keeper, S: Sockets>(
    alloc: Global,
    office: &mut Office<K>,
    sockets: &mut S,
    slots: Slots,
    timeout: u32,
) -> Result<(), RunFault>
    ensures along { GoesAlong Runs office.old office.new }
    ensures deeds { GoesBy office.old office.new (λ acts. S.acts sockets.old acts sockets.new)
        (λ now deeds. AreWired (site_terms (site_of office.old)) now deeds × AreServed now deeds) }
{
    let mut lines = lines_of(alloc, office.site(), timeout)?;
    let mut places = places(alloc)?;
    let mut orders = vec![in alloc; 0; MOST_LINES]?;
    let mut watch = Watch::new(slots);
    let times = Times::of(sockets, slots, &mut watch)?;
    let mut journal = Journal::new(alloc, times.clock);
    let mut board = Board::new(alloc, slots, times.clock, lines.len())?;
    turns(
        office,
        sockets,
        &mut orders,
        &mut journal,
        &mut board,
        &mut lines,
        &mut places,
        Outset { watch, times },
    )
}
