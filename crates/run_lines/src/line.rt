//! A line of the site: its connection, its rounds, and when something of it is due.
ghost use Rattle.std.specs.Prelude.{◌≡◌, ◌≤◌, ◌∷◌, [], None};
ghost use Rattle.office_core.specs.Proceeding.{GoesAlong, Nothing};
ghost use Rattle.run_lines.specs.Times.{slot_in};
ghost use Rattle.run_lines.specs.Wires.{BeginsAt, Begun, Down, GivesUp, Lined, WiredBy, rested};
ghost use Rattle.run_beat.specs.Acts.{Closes};

mod rounds;

use crate::ahead::Lookout;
use crate::event::{Event, Told};
use crate::journal::Journal;
use crate::link::{Connection, Link, Taken};
use crate::loss::{Loss, Stop};
use crate::noise::Noise;
use crate::station::Stations;
use crate::times::{Times, earlier};
use crate::turned::{Turned, refused_in};
use office_core::{Arrival, Office};
use office_net::open_line;
use office_pages::Tally;
use point_list::Text;
use poll_book::Keeper;
use run_beat::{Beat, Came, Connected, Delay, Moment, Sent, Sockets, Source, Stage};
use run_deeds::Standing;
use std::alloc::Global;
use std::mem;

/// So many bytes are read of a line in a turn at most: what answers nothing costs others some 30 frames a turn.
const PIECE: usize = 260;

/// A line of the site.
#[derive(Drop)]
pub struct Line {
    alloc: Global,
    place: usize,
    // So many of its queries may wait.
    most: usize,
    ghost few: { most ≤ 16 },
    // For so many milliseconds its devices are waited for.
    timeout: u32,
    beat: Beat,
    stations: Stations,
    connection: Connection,
    // So many orders had come for it when its last round over this connection began.
    orders: Option<u64>,
    // The clock's slot as that one began; none while the clock was held.
    offered: Option<u32>,
    // So many had come when the round that is under way was told last.
    woken: u64,
    // Whether the slot counts as not begun behind the round that is under way.
    is_unbegun: bool,
    // The clock's slot as the round that is under way began, which ends with that one.
    begun_in: u32,
    // Whether a round began in this turn.
    has_begun: bool,
    // The slot is begun again then, since the store refused something of it.
    retry: Option<Moment>,
    // Whether none is begun before that: the store refused as one was to be begun.
    is_paused: bool,
    // Whether what the store refused in this turn was an answer.
    has_refused: bool,
    refusals: Delay,
    noise: Noise,
    // Whether it couldn't be reached since it was looked up where it is, and when that was.
    is_unreached: bool,
    looked_up: Moment,
    // Since when it takes no bytes.
    stuck: Option<Moment>,
    told: Told,
    // Whether the store kept something in this turn.
    has_kept: bool,
    // What its rounds came to, and what they had come to as the last one ended.
    tally: Tally,
    since: Tally,
    // Its counters, as far as they are counted in slots to come.
    lookout: Lookout,
    // The pass in which it did something last.
    served: u64,
}

/// Whether the store has something else since it arrived.
fn is_kept(arrival: Arrival) -> bool {
    matches!(arrival, Arrival::Recorded(1..) | Arrival::Settled)
}

/// One more is counted.
pub(crate) fn one_more(count: &mut u64) {
    *count = count.saturating_add(1);
}

impl Line {
    ghost use Rattle.run_lines.specs.Lines.{Advances, Handles, IsOne, IsSame, Keeps, Tends, place_of, served_in, source_of, state_at, terms_of, unreached_since, wire_at};

    /// A line without a connection, of a name, of whose queries so many may wait, and whose devices are given so many
    /// milliseconds.
    pub fn new(alloc: Global, place: usize, name: Text, most: usize, timeout: u32) -> Line
        requires { most ≤ 16 }
        ensures { (place_of result ≡ place) × (terms_of result ≡ record { name = name; most = most }) × (state_at result ≡ record { from = 0; wire = Down }) }
    {
        Line {
            alloc,
            place,
            most,
            timeout,
            beat: Beat::new(timeout),
            stations: Stations::new(alloc, name),
            connection: Connection::Down,
            orders: None,
            offered: None,
            woken: 0,
            is_unbegun: false,
            begun_in: 0,
            has_begun: false,
            retry: None,
            is_paused: false,
            has_refused: false,
            refusals: Delay::none(),
            noise: Noise::none(),
            is_unreached: false,
            looked_up: Moment::new(0),
            stuck: None,
            told: Told::Nothing,
            has_kept: false,
            tally: Tally::default(),
            since: Tally::default(),
            lookout: Lookout::new(),
            served: 0,
        }
    }

    /// Its place among the lines of the site, from 0 on.
    pub fn place(&self) -> usize
        ensures { result ≡ place_of self.now }
    {
        self.place
    }

    /// The pass in which it did something last; 0 before the first.
    pub fn served(&self) -> u64
        ensures { result ≡ served_in self.now }
    {
        self.served
    }

    /// It has its turn in a pass; so many slots were voided since the run began.
    pub fn serve(&mut self, pass: u64, voids: u64)
        ensures keeps { Keeps self.old self.new }
        ensures served { served_in self.new ≡ pass }
    {
        self.served = pass;
        self.lookout.note_voids(voids);
    }

    /// No slot before this one is begun.
    pub fn from(&self) -> u32
        ensures { result ≡ (state_at self.now).from }
    {
        self.beat.from()
    }

    /// When something of it is due, if nothing comes before.
    pub fn due(&self) -> Option<Moment> {
        let due = match self.beat.stage() {
            Stage::Resting { .. } => self.retry,
            Stage::Closed { until } => Some(until.max(self.noise.until())),
            _ => self.beat.due(),
        };
        match self.stuck {
            Some(since) => earlier(due, Some(since.after(self.timeout))),
            None => due,
        }
    }

    fn source(&self) -> Source
        ensures { result ≡ source_of self.now }
    {
        Source::Line(self.place)
    }

    /// Its name in the site.
    pub fn name(&self) -> &str
        ensures { result.now ≡ (terms_of self.now).name }
    {
        self.stations.line()
    }

    /// When it was looked up last where it is, if it couldn't be reached since.
    pub fn unreached(&self) -> Option<Moment>
        ensures { result ≡ unreached_since self.now }
    {
        if self.is_unreached {
            Some(self.looked_up)
        } else {
            None
        }
    }

    /// How it stands, and what it came to.
    pub fn standing(&self) -> Standing {
        Standing {
            is_up: self.told == Told::Up,
            tally: self.tally,
        }
    }

    /// It was looked up where it is.
    pub fn note_look_up(&mut self, now: Moment)
        ensures keeps { Keeps self.old self.new }
        ensures unreached { unreached_since self.new ≡ None }
    {
        self.is_unreached = false;
        self.looked_up = now;
    }

    /// Tells that it is up, where that is new.
    fn tell_up(&mut self, journal: &mut Journal)
        ensures { Keeps self.old self.new }
    {
        if self.told != Told::Up {
            self.told = Told::Up;
            journal.tell(&Event::Up {
                line: self.stations.line(),
            });
        }
    }

    /// Tells that it is up, where it was told that its connection ended, and it is asked nothing that it could answer.
    fn tell_stands(&mut self, journal: &mut Journal)
        ensures { Keeps self.old self.new }
    {
        if self.told == Told::Down(Loss::Ended) && self.stations.have_no_reads() {
            self.tell_up(journal);
        }
    }

    /// Tells that it is down, where that is new. What was told first stands until it is up again.
    fn tell_down(&mut self, journal: &mut Journal, why: Loss)
        ensures { Keeps self.old self.new }
    {
        if matches!(self.told, Told::Down(_)) {
            return;
        }
        self.told = Told::Down(why);
        journal.tell(&Event::Down {
            line: self.stations.line(),
            why,
        });
    }

    /// Tells that it is down, where it can't be reached and that is new.
    fn tell_unreached(&mut self, journal: &mut Journal)
        ensures { Keeps self.old self.new }
    {
        if self.is_unreached && matches!(self.connection, Connection::Down) {
            self.tell_down(journal, Loss::Unreached);
        }
    }

    /// Closes its connection, if there is one. It is left alone for a while.
    fn lose<S: Sockets>(&mut self, sockets: &mut S, journal: &mut Journal, now: Moment, why: Loss)
        ensures same { IsSame self.old self.new }
        ensures down { wire_at self.new ≡ Down }
        ensures acts { S.acts sockets.old (Closes (source_of self.old) ∷ []) sockets.new }
    {
        sockets.close(self.source());
        self.count_cut();
        self.connection = Connection::Down;
        self.stuck = None;
        self.retry = None;
        self.beat.fail(now);
        if why == Loss::Noise {
            self.noise.cut(now);
        }
        self.is_unreached |= why == Loss::Unreached;
        self.tell_down(journal, why);
    }

    /// Begins a connection, if it is due.
    fn begin<S: Sockets>(&mut self, sockets: &mut S, now: Moment)
        requires { wire_at self.old ≡ Down }
        ensures same { IsSame self.old self.new }
        ensures acts { WiredBy (terms_of self.old) (source_of self.old) (λ acts. S.acts sockets.old acts sockets.new) (wire_at self.old) (wire_at self.new) }
    {
        if !self.beat.is_due(now) || now < self.noise.until() {
            return;
        }
        match sockets.connect(self.place) {
            Ok(()) => {
                self.connection = Connection::Begun;
                self.beat.begin(now);
            }
            Err(_) => {
                self.is_unreached = true;
                self.beat.fail(now);
            }
        }
    }

    /// The connection that was begun stands.
    fn open<K: Keeper>(
        &mut self,
        office: &mut Office<K>,
        journal: &mut Journal,
        now: Moment,
    ) -> Result<(), Stop>
        requires { wire_at self.old ≡ Begun }
        ensures { Tends result self.old self.new office.old office.new (λ acts. acts ≡ []) }
    {
        let conn = match open_line(office, self.stations.line()) {
            Ok(conn) => conn,
            Err(error) => return Err(Stop::Lost(Loss::Office(error))),
        };
        self.connection = Connection::Up(Link::new(self.alloc, conn, now));
        self.is_unreached = false;
        self.orders = None;
        self.beat.open();
        if !self.told.is_of_answers() {
            self.tell_up(journal);
        }
        Ok(())
    }

    /// Looks whether the connection that was begun stands; tells whether it does.
    fn connect<K: Keeper, S: Sockets>(
        &mut self,
        office: &mut Office<K>,
        sockets: &S,
        journal: &mut Journal,
        now: Moment,
    ) -> Result<bool, Stop>
        requires { wire_at self.old ≡ Begun }
        ensures { Tends result self.old self.new office.old office.new (λ acts. acts ≡ []) }
    {
        match sockets.connected(self.place) {
            Connected::Yes => {
                self.open(office, journal, now)?;
                Ok(true)
            }
            Connected::NotYet if !self.beat.is_due(now) => Ok(false),
            _ => Err(Stop::Lost(Loss::Unreached)),
        }
    }

    /// Counts what a frame brought.
    fn count(&mut self, arrival: Arrival)
        ensures { Keeps self.old self.new }
    {
        self.has_kept |= is_kept(arrival);
        match arrival {
            Arrival::Recorded(readings) => {
                let total = self.tally.readings.saturating_add(u64::from(readings));
                self.tally.readings = total;
            }
            Arrival::Excepted(_) => one_more(&mut self.tally.exceptions),
            Arrival::Settled => {}
        }
    }

    /// Counts the queries that were made over the connection since.
    fn count_queries(&mut self)
        ensures { Keeps self.old self.new }
    {
        if let Connection::Up(link) = &mut self.connection {
            let total = self.tally.queries.saturating_add(link.take_asked());
            self.tally.queries = total;
        }
    }

    /// A device answered, and the store refused that.
    fn note_refused(&mut self, journal: &mut Journal)
        ensures { Keeps self.old self.new }
    {
        self.has_refused = true;
        self.tell_up(journal);
    }

    /// Takes the next frame that came, if there is one; tells whether it was one that the store has nothing to do with.
    fn take_one<K: Keeper>(
        &mut self,
        office: &mut Office<K>,
        journal: &mut Journal,
        now: Moment,
    ) -> Result<bool, Stop>
        ensures { Tends result self.old self.new office.old office.new (λ acts. acts ≡ []) }
    {
        let Connection::Up(link) = &mut self.connection else {
            return Err(Stop::Lost(Loss::Ended));
        };
        match link.take(office, &mut self.stations, journal, now)? {
            Some(Taken::Answer(arrival)) => {
                self.count(arrival);
                self.tell_up(journal);
                Ok(false)
            }
            Some(Taken::Refused(fault)) => {
                self.note_refused(journal);
                Err(Stop::Refused(fault))
            }
            Some(Taken::Repeat) => {
                one_more(&mut self.tally.refused);
                Ok(true)
            }
            Some(Taken::Noise(count)) => {
                one_more(&mut self.tally.refused);
                self.noise.add(0, count);
                Ok(true)
            }
            None => Ok(false),
        }
    }

    /// Takes frames that came, up to the first that is an answer: each of these is a commit.
    fn take_some<K: Keeper>(
        &mut self,
        office: &mut Office<K>,
        journal: &mut Journal,
        now: Moment,
    ) -> Result<(), Stop>
        ensures { Tends result self.old self.new office.old office.new (λ acts. acts ≡ []) }
    {
        for _ in 0..PIECE {
            let may_go_on = self.take_one(office, journal, now)?;
            if !may_go_on {
                return Ok(());
            }
        }
        Ok(())
    }

    /// The same, unless too much came that answers nothing.
    fn take<K: Keeper>(
        &mut self,
        office: &mut Office<K>,
        journal: &mut Journal,
        now: Moment,
    ) -> Result<(), Stop>
        ensures { Tends result self.old self.new office.old office.new (λ acts. acts ≡ []) }
    {
        self.take_some(office, journal, now)?;
        if self.noise.is_too_much() {
            return Err(Stop::Lost(Loss::Noise));
        }
        Ok(())
    }

    /// Reads a piece, unless something that came wasn't taken yet; tells whether something came.
    fn read<S: Sockets>(&mut self, sockets: &mut S) -> Result<bool, Stop>
        ensures { Handles result self.old self.new (λ acts. S.acts sockets.old acts sockets.new) }
    {
        let source = self.source();
        let Connection::Up(link) = &mut self.connection else {
            return Err(Stop::Lost(Loss::Ended));
        };
        if link.has_more() {
            return Ok(true);
        }
        let mut piece = [0u8; PIECE];
        match sockets.read(source, &mut piece) {
            Came::Bytes(count) => {
                self.noise.add(count, 0);
                link.feed(&piece[..count])?;
                Ok(true)
            }
            Came::Nothing => Ok(false),
            Came::Ended | Came::Failed => Err(Stop::Lost(Loss::Ended)),
        }
    }

    /// The same, and takes some of it.
    fn receive<K: Keeper, S: Sockets>(
        &mut self,
        office: &mut Office<K>,
        sockets: &mut S,
        journal: &mut Journal,
        now: Moment,
    ) -> Result<bool, Stop>
        ensures { Tends result self.old self.new office.old office.new (λ acts. S.acts sockets.old acts sockets.new) }
    {
        let has_come = self.read(sockets)?;
        if has_come {
            self.take(office, journal, now)?;
        }
        Ok(has_come)
    }

    /// Gives up the queries of each device that wasn't heard of in time.
    fn give_up(&mut self, now: Moment)
        ensures same { IsSame self.old self.new }
        ensures given { GivesUp (wire_at self.old) (wire_at self.new) }
    {
        if let Connection::Up(link) = &mut self.connection {
            link.give_up_late(&mut self.stations, self.timeout, now);
        }
    }

    /// Tells the round that is under way that orders came, where they did.
    fn wake<K: Keeper>(&mut self, office: &mut Office<K>, orders: u64) -> Result<(), Stop>
        ensures along { GoesAlong Nothing office.old office.new }
        ensures keeps { Keeps self.old self.new }
    {
        if self.woken == orders {
            return Ok(());
        }
        self.woken = orders;
        match &mut self.connection {
            Connection::Up(link) => {
                link.wake(office)?;
                Ok(())
            }
            _ => Err(Stop::Lost(Loss::Ended)),
        }
    }

    /// Makes the queries that may be made, where a round is under way.
    fn ask<K: Keeper>(&mut self, office: &mut Office<K>, now: Moment) -> Result<(), Stop>
        ensures { Tends result self.old self.new office.old office.new (λ acts. acts ≡ []) }
    {
        match &mut self.connection {
            Connection::Up(link) => link.ask(office, &self.stations, self.most, now),
            _ => Err(Stop::Lost(Loss::Ended)),
        }
    }

    /// Goes on with the round that is under way.
    fn go_on_asking<K: Keeper>(
        &mut self,
        office: &mut Office<K>,
        orders: u64,
        now: Moment,
    ) -> Result<(), Stop>
        ensures { Tends result self.old self.new office.old office.new (λ acts. acts ≡ []) }
    {
        self.wake(office, orders)?;
        self.ask(office, now)
    }

    /// Begins a round, where one is to be begun, and makes its first queries.
    fn begin_asking<K: Keeper>(
        &mut self,
        office: &mut Office<K>,
        times: Times,
        orders: u64,
    ) -> Result<(), Stop>
        ensures goes { Advances result self.old self.new office.old office.new (λ acts. acts ≡ []) }
        ensures by_clock { BeginsAt (slot_in times) (state_at self.old) (state_at self.new) }
    {
        let now = times.now;
        let has_begun = self.start(office, times, orders)?;
        if !has_begun {
            return Ok(());
        }
        self.ask(office, now)
    }

    /// Writes what waits to be written; tells whether something was.
    fn write<S: Sockets>(&mut self, sockets: &mut S, now: Moment) -> Result<bool, Stop>
        ensures { Handles result self.old self.new (λ acts. S.acts sockets.old acts sockets.new) }
    {
        let source = self.source();
        let Connection::Up(link) = &mut self.connection else {
            return Err(Stop::Lost(Loss::Ended));
        };
        if link.pending().is_empty() {
            return Ok(false);
        }
        match sockets.write(source, link.pending()) {
            Sent::Bytes(count) => {
                link.wrote(count);
                self.stuck = None;
                Ok(true)
            }
            Sent::Nothing => {
                let since = self.stuck.unwrap_or(now);
                self.stuck = Some(since);
                if since.after(self.timeout) <= now {
                    return Err(Stop::Lost(Loss::Stuck));
                }
                Ok(false)
            }
            Sent::Failed => Err(Stop::Lost(Loss::Ended)),
        }
    }

    /// Goes on with the round that is under way.
    fn go_on_round<K: Keeper>(
        &mut self,
        office: &mut Office<K>,
        journal: &mut Journal,
        times: &Times,
        orders: u64,
    ) -> Result<(), Stop>
        ensures { Tends result self.old self.new office.old office.new (λ acts. acts ≡ []) }
    {
        let now = times.now;
        self.give_up(now);
        self.go_on_asking(office, orders, now)?;
        self.settle(journal, *times)
    }

    /// Goes on with the round that is under way, or begins one.
    fn poll<K: Keeper>(
        &mut self,
        office: &mut Office<K>,
        journal: &mut Journal,
        times: Times,
        orders: u64,
    ) -> Result<(), Stop>
        ensures goes { Advances result self.old self.new office.old office.new (λ acts. acts ≡ []) }
        ensures by_clock { BeginsAt (slot_in times) (state_at self.old) (state_at self.new) }
    {
        self.go_on_round(office, journal, &times, orders)?;
        self.look_ahead(office, &times)?;
        self.begin_asking(office, times, orders)
    }

    /// Counts what answers nothing anew in each slot.
    fn note_slot(&mut self, times: &Times)
        ensures { Keeps self.old self.new }
    {
        if let Some(slot) = times.slot() {
            self.noise.begin(slot);
        }
    }

    /// Goes on over a connection that stands; tells whether there may be more to do at once.
    fn go_on<K: Keeper, S: Sockets>(
        &mut self,
        office: &mut Office<K>,
        sockets: &mut S,
        journal: &mut Journal,
        times: Times,
        orders: u64,
    ) -> Result<bool, Stop>
        ensures goes { Advances result self.old self.new office.old office.new (λ acts. S.acts sockets.old acts sockets.new) }
        ensures by_clock { BeginsAt (slot_in times) (state_at self.old) (state_at self.new) }
    {
        let now = times.now;
        self.note_slot(&times);
        let has_read = self.receive(office, sockets, journal, now)?;
        self.poll(office, journal, times, orders)?;
        let has_written = self.write(sockets, now)?;
        Ok(has_read | has_written)
    }

    /// Does what is to be done, as it stands; tells whether there may be more to do at once.
    fn act<K: Keeper, S: Sockets>(
        &mut self,
        office: &mut Office<K>,
        sockets: &mut S,
        journal: &mut Journal,
        times: Times,
        orders: u64,
    ) -> Result<bool, Stop>
        ensures goes { Advances result self.old self.new office.old office.new (λ acts. S.acts sockets.old acts sockets.new) }
        ensures by_clock { BeginsAt (slot_in times) (state_at self.old) (state_at self.new) }
    {
        let now = times.now;
        match self.connection {
            Connection::Down => {
                self.begin(sockets, now);
                Ok(false)
            }
            Connection::Begun => self.connect(office, sockets, journal, now),
            Connection::Up(_) => self.go_on(office, sockets, journal, times, orders),
        }
    }

    /// The store refused: the round that is under way ends, and the slot is begun again a while later. Where one was to
    /// be begun, none is before. What else it refuses until then, as other answers that had come, leaves that moment.
    fn refuse(&mut self, now: Moment)
        ensures same { IsSame self.old self.new }
        ensures rested { wire_at self.new ≡ rested (wire_at self.old) }
    {
        let is_pending = self.retry.is_some_and(|moment| now < moment);
        self.is_unbegun = false;
        let was_answer = mem::replace(&mut self.has_refused, false);
        let was_to_begin = !was_answer && self.round().is_none();
        self.is_paused = was_to_begin || (is_pending && self.is_paused);
        self.end_round();
        if !is_pending {
            self.refusals = self.refusals.longer();
            self.retry = Some(now.after(self.refusals.millis()));
        }
    }

    /// Tells whether its counters are counted in slots to come, where that is new.
    fn tell_ahead<K: Keeper>(&mut self, office: &Office<K>, journal: &mut Journal, times: &Times)
        ensures { Keeps self.old self.new }
    {
        if let Some(slot) = times.slot() {
            let line = self.stations.line();
            self.lookout.tell(office, journal, line, slot);
        }
    }

    /// Counts what was asked, and tells what is new of it and of its counters.
    fn note<K: Keeper>(&mut self, office: &Office<K>, journal: &mut Journal, times: &Times)
        ensures { Keeps self.old self.new }
    {
        self.count_queries();
        self.tell_unreached(journal);
        self.tell_ahead(office, journal, times);
    }

    /// Its turn.
    pub fn turn<K: Keeper, S: Sockets>(
        &mut self,
        office: &mut Office<K>,
        sockets: &mut S,
        journal: &mut Journal,
        times: Times,
        orders: u64,
    ) -> Turned
        ensures one { IsOne self.old self.new }
        ensures by_clock { BeginsAt (slot_in times) (state_at self.old) (state_at self.new) }
        ensures lined { Lined (terms_of self.old) (source_of self.old) office.old office.new (λ acts. S.acts sockets.old acts sockets.new) (state_at self.old) (state_at self.new) }
    {
        let now = times.now;
        let acted = self.act(office, sockets, journal, times, orders);
        self.note(office, journal, &times);
        let has_begun = mem::replace(&mut self.has_begun, false);
        let mut turned = Turned {
            is_more: false,
            refused: None,
            has_kept: mem::replace(&mut self.has_kept, false),
            ahead: None,
        };
        match acted {
            // What is to be asked in a round that just began may be nothing: then it is done at once.
            Ok(is_more) => turned.is_more = is_more | has_begun,
            Err(stop) => match stop {
                Stop::Lost(why) => {
                    self.lose(sockets, journal, now, why);
                    turned.refused = refused_in(why);
                }
                Stop::Refused(fault) => {
                    self.refuse(now);
                    turned.is_more = true;
                    turned.refused = Some(fault);
                }
                Stop::Ahead(ahead) => turned.ahead = Some(ahead),
            },
        }
        turned
    }
}
