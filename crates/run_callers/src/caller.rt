//! A caller's exchange.
ghost use Rattle.std.specs.Prelude.{◌≡◌, ◌≢◌, ◌++◌, [], List, MatchResult, None, OnOk, string_bytes, true, ℕ};
ghost use Rattle.office_core.specs.Proceeding.{GoesAlong, Nothing};
ghost use Rattle.office_http.specs.Deciding.{Lacks};
ghost use Rattle.office_http.specs.Exchanges.{bytes_of, routes_of};
ghost use Rattle.office_http.specs.declared.routes.Routes.TheVariants.{Extended};
ghost use Rattle.office_http.specs.declared.heard.Heard.TheVariants as heards;
ghost use Rattle.office_http.specs.Heard.{meaning_of};
ghost use Rattle.office_http.specs.Answers.{unavailable_text};
ghost use Rattle.office_http.specs.Meanings as pages;
ghost use Rattle.office_net.specs.Serving.{written_for};
ghost use Rattle.run_beat.specs.declared.sockets.Source.{Source as ASource};
ghost use Rattle.office_http.specs.declared.heard.Page.{Page as APage};
ghost use Rattle.run_callers.specs.Sessions.{Acting, Comes, Exchanges, Heard as HeardAll, Hearing as HearingOf, Session};
ghost use Rattle.run_callers.specs.declared.caller.Mood.TheVariants as moods;

use crate::looks::fault_of;
use crate::moved::Moved;
use crate::showing::Showing;
use office_core::Office;
use office_http::{Exchange, Heard, Page, Routes, answer};
use office_net::{has_page, last_order, respond};
use poll_book::{Keeper, StoreFault};
use run_beat::{
    CLOSING_MILLIS, Came, EXCHANGE_MILLIS, HEAD_MILLIS, Moment, Outbox, Sent, Slots, Sockets,
    Source,
};
use run_deeds::Board;
use std::alloc::{AllocError, Global};
use std::mem;

/// A caller that has been there for so many milliseconds may go for another one.
const SLOW_MILLIS: u32 = 10_000;

/// So many bytes are read of a caller in a turn at most.
const PIECE: usize = 4096;

/// Of a page no more is put behind the answer while so many bytes wait to be written.
const ENOUGH: usize = 16_384;

/// How an exchange stands.
#[derive(Clone, Copy, Debug, PartialEq, Eq)]
pub(crate) enum Mood {
    /// Bytes of the request are to come.
    Hearing,
    /// The answer is to be written.
    Answering,
    /// All is written; what still comes is dropped, so that the caller gets the answer.
    Closing,
}

/// How soon a caller goes where another one waits for its place: the least goes first.
#[derive(Clone, Copy, Debug, PartialEq, Eq, PartialOrd, Ord)]
pub enum Hold {
    /// It is in its head, since it came.
    InHead(Moment),
    /// It has been there for ten seconds, and moved so many bytes in the last ten.
    Slow(usize),
}

/// The caller is to go.
#[derive(Clone, Copy, Debug, PartialEq, Eq)]
pub(crate) struct Gone;

impl From<AllocError> for Gone {
    fn from(_: AllocError) -> Gone {
        Gone
    }
}

/// A caller that is connected.
#[derive(Drop)]
pub(crate) struct Caller {
    alloc: Global,
    exchange: Exchange,
    mood: Mood,
    out: Outbox,
    // What a page shows behind the answer, if one is shown.
    showing: Option<Showing>,
    // It came at this moment.
    since: Moment,
    // Its exchange is over at this one.
    until: Moment,
    // Whether it was read of, and had no more to say.
    has_paused: bool,
    moved: Moved,
    // What became of what it asked for, of which nobody was told yet.
    news: News,
    // It is offered what there is. While it is heard no whole request is there, and nothing is to be written.
    ghost offers: { routes_of exchange ≡ Extended },
    ghost lacks: { mood ≡ moods.Hearing → Lacks Extended (bytes_of exchange) },
    ghost unwritten: { mood ≡ moods.Hearing → out ≡ [] },
    ghost unshown: { mood ≡ moods.Hearing → showing ≡ None },
}

/// What became of what a caller asked for.
#[derive(Clone, Copy, Debug)]
pub struct News {
    /// An order for this line was accepted.
    pub ordered: Option<u16>,
    /// Whether a slot was voided, or may have been.
    pub has_voided: bool,
    /// What the store refused.
    pub refused: Option<StoreFault>,
}

/// Nothing yet.
const NO_NEWS: News = News {
    ordered: None,
    has_voided: false,
    refused: None,
};

/// The line of the device of a point.
fn line_of<K: Keeper>(office: &Office<K>, point: &str) -> Option<u16> {
    let row = office.point(point)?;
    let device = office.site().device(row.point.device.as_str())?;
    Some(device.line)
}

/// The number of the last order, where the store tells it.
pub fn orders_of<K: Keeper>(office: &mut Office<K>) -> Result<u32, StoreFault>
    ensures { GoesAlong Nothing office.old office.new }
{
    match last_order(office) {
        Ok(number) => Ok(number),
        Err(error) => Err(fault_of(error)),
    }
}

/// Whether there are other orders than up to this number; where the store doesn't tell it, whether one was answered.
fn has_more<K: Keeper>(office: &mut Office<K>, before: u32, is_told: bool) -> bool
    ensures { GoesAlong Nothing office.old office.new }
{
    match orders_of(office) {
        Ok(number) => number != before,
        Err(_) => is_told,
    }
}

/// Does what was asked for, which is no page, and gives the bytes of the answer.
fn done<K: Keeper>(
    alloc: Global,
    office: &mut Office<K>,
    heard: &Heard,
) -> Result<String, StoreFault>
    requires { (page : APage) → heard.now ≢ heards.Page page }
    ensures { Comes office.old office.new (λ meaning. meaning ≡ meaning_of heard.now) (written_for result) None }
{
    respond(alloc, office, heard)
}

/// Gives the head of a page, and the page from its beginning on, if it is one of the site's.
fn begun<K: Keeper>(
    alloc: Global,
    office: &mut Office<K>,
    page: Page,
    slots: Slots,
) -> Result<(String, Option<Showing>), StoreFault>
    ensures { MatchResult result
        (λ told. Comes office.old office.new (λ meaning. meaning ≡ pages.page page) (string_bytes told.0) told.1)
        (λ _. Comes office.old office.new (λ meaning. meaning ≡ pages.page page) unavailable_text None) }
{
    let head = respond(alloc, office, &Heard::Page(page))?;
    if !has_page(office.site(), page) {
        return Ok((head, None));
    }
    Ok((head, Some(Showing::first(page, slots))))
}

impl Caller {
    ghost use Rattle.run_callers.specs.Callers.{session_of};

    /// One that was just taken.
    pub fn new(alloc: Global, now: Moment) -> Caller
        ensures { session_of result ≡ HearingOf [] }
    {
        Caller {
            alloc,
            exchange: Exchange::new(alloc, Routes::Extended),
            mood: Mood::Hearing,
            out: Outbox::new(alloc),
            showing: None,
            since: now,
            until: now.after(EXCHANGE_MILLIS),
            has_paused: false,
            moved: Moved::none(),
            news: NO_NEWS,
        }
    }

    /// When it has to go.
    pub fn due(&self) -> Moment {
        if self.is_in_head() {
            self.until.min(self.since.after(HEAD_MILLIS))
        } else {
            self.until
        }
    }

    /// How soon it goes where another one waits; none where it has to be waited for. Of one that was just taken nothing
    /// was read yet. What it asks for is done within a turn, so nothing of that is under way.
    pub fn hold(&self, now: Moment) -> Option<Hold> {
        let is_in_head = self.is_in_head();
        if is_in_head && self.has_paused {
            Some(Hold::InHead(self.since))
        } else if !is_in_head && self.slow_from() <= now {
            Some(Hold::Slow(self.moved.total(now)))
        } else {
            None
        }
    }

    /// From when on it may go for another one, though its head is whole.
    pub fn slow_from(&self) -> Moment {
        self.since.after(SLOW_MILLIS)
    }

    /// Whether its head isn't whole.
    fn is_in_head(&self) -> bool {
        self.mood == Mood::Hearing && !self.exchange.has_head()
    }

    /// What became of what it asked for since this was asked last.
    pub fn news(&mut self) -> News
        ensures { session_of self.new ≡ session_of self.old }
    {
        mem::replace(&mut self.news, NO_NEWS)
    }

    /// Does what an order for a point asks for. Where it was accepted, it is noted for which line, also where memory is
    /// refused for the answer.
    fn order<K: Keeper>(
        &mut self,
        office: &mut Office<K>,
        heard: &Heard,
        point: &str,
    ) -> Result<String, StoreFault>
        requires { (page : APage) → heard.now ≢ heards.Page page }
        ensures came { Comes office.old office.new (λ meaning. meaning ≡ meaning_of heard.now) (written_for result) None }
        ensures same { (self.new.mood ≡ self.old.mood) × (self.new.out ≡ self.old.out) × (self.new.exchange ≡ self.old.exchange) × (self.new.showing ≡ self.old.showing) }
    {
        let before = orders_of(office)?;
        let told = done(self.alloc, office, heard);
        let is_told = told.is_ok();
        if has_more(office, before, is_told) {
            self.news.ordered = line_of(office, point);
        }
        told
    }

    /// Does what was asked for.
    fn respond<K: Keeper>(
        &mut self,
        office: &mut Office<K>,
        heard: &Heard,
        slots: Slots,
    ) -> Result<String, StoreFault>
        requires answering { self.old.mood ≡ Mood.Answering }
        requires unshown { self.old.showing ≡ None }
        ensures came { Comes office.old office.new (λ meaning. meaning ≡ meaning_of heard.now) (written_for result) self.new.showing }
        ensures same { (self.new.mood ≡ self.old.mood) × (self.new.out ≡ self.old.out) × (self.new.exchange ≡ self.old.exchange) }
    {
        match heard {
            Heard::Page(page) => {
                let (head, showing) = begun(self.alloc, office, *page, slots)?;
                self.showing = showing;
                Ok(head)
            }
            Heard::Order { point, .. } => self.order(office, heard, point.as_str()),
            Heard::Void { .. } => {
                self.news.has_voided = true;
                done(self.alloc, office, heard)
            }
            _ => done(self.alloc, office, heard),
        }
    }

    /// Does what was asked for, and puts the answer there to be written: where it is one, it is so only once what was
    /// asked for is done.
    fn answer<K: Keeper>(
        &mut self,
        office: &mut Office<K>,
        heard: &Heard,
        slots: Slots,
    ) -> Result<(), AllocError>
        requires answering { self.old.mood ≡ Mood.Answering }
        requires unwritten { self.old.out ≡ [] }
        requires unshown { self.old.showing ≡ None }
        ensures came { (text : List ℕ) × Comes office.old office.new (λ meaning. meaning ≡ meaning_of heard.now) text self.new.showing × OnOk result (self.new.out ≡ text) }
        ensures mood { self.new.mood ≡ Mood.Answering }
    {
        match self.respond(office, heard, slots) {
            Ok(text) => self.out.push(text.as_bytes()),
            Err(fault) => {
                self.news.refused = Some(fault);
                self.out.push(answer::unavailable())
            }
        }
    }

    /// Takes bytes of the request.
    fn hear<K: Keeper>(
        &mut self,
        office: &mut Office<K>,
        piece: &[u8],
        slots: Slots,
    ) -> Result<(), AllocError>
        requires { self.old.mood ≡ Mood.Hearing }
        ensures { (source : ASource) → MatchResult result
            (λ _. Exchanges source office.old office.new (λ acts. acts ≡ []) (HearingOf (bytes_of self.old.exchange ++ piece.now)) (session_of self.new))
            (λ _. (session : Session) × Exchanges source office.old office.new (λ acts. acts ≡ []) (HearingOf (bytes_of self.old.exchange ++ piece.now)) session) }
    {
        match self.exchange.take(piece) {
            Ok(None) => Ok(()),
            Ok(Some(heard)) => {
                self.mood = Mood::Answering;
                self.answer(office, &heard, slots)
            }
            Err(_) => {
                self.mood = Mood::Answering;
                self.out.push(answer::unavailable())
            }
        }
    }

    /// No more of the request comes.
    fn end<K: Keeper>(&mut self, office: &mut Office<K>, slots: Slots) -> Result<(), AllocError>
        requires { self.old.mood ≡ Mood.Hearing }
        ensures { (source : ASource) → MatchResult result
            (λ _. Exchanges source office.old office.new (λ acts. acts ≡ []) (HeardAll (bytes_of self.old.exchange)) (session_of self.new))
            (λ _. (session : Session) × Exchanges source office.old office.new (λ acts. acts ≡ []) (HeardAll (bytes_of self.old.exchange)) session) }
    {
        self.mood = Mood::Answering;
        let heard = self.exchange.end();
        self.answer(office, &heard, slots)
    }

    /// Reads a piece of the request; tells whether something came.
    fn read<K: Keeper, S: Sockets>(
        &mut self,
        office: &mut Office<K>,
        sockets: &mut S,
        source: Source,
        slots: Slots,
        now: Moment,
    ) -> Result<bool, Gone>
        requires { self.old.mood ≡ Mood.Hearing }
        ensures { MatchResult result
            (λ _. Exchanges source office.old office.new (λ acts. S.acts sockets.old acts sockets.new) (session_of self.old) (session_of self.new))
            (λ _. (session : Session) × Exchanges source office.old office.new (λ acts. S.acts sockets.old acts sockets.new) (session_of self.old) session) }
    {
        let mut piece = [0u8; PIECE];
        match sockets.read(source, &mut piece) {
            Came::Nothing => {
                if self.due() <= now {
                    return Err(Gone);
                }
                self.has_paused = true;
                return Ok(false);
            }
            Came::Failed => return Err(Gone),
            Came::Ended => self.end(office, slots)?,
            Came::Bytes(count) => {
                self.moved.add(now, count);
                self.hear(office, &piece[..count], slots)?;
            }
        }
        Ok(true)
    }

    /// Reads a piece behind the answer, and drops it; tells whether something came.
    fn drop_one<S: Sockets>(&self, sockets: &mut S, source: Source) -> Result<bool, Gone>
        requires { self.now.mood ≡ Mood.Closing }
        ensures { MatchResult result
            (λ _. Acting source (λ acts. S.acts sockets.old acts sockets.new) (session_of self.now) (session_of self.now))
            (λ _. (session : Session) × Acting source (λ acts. S.acts sockets.old acts sockets.new) (session_of self.now) session) }
    {
        let mut piece = [0u8; PIECE];
        match sockets.read(source, &mut piece) {
            Came::Nothing => Ok(false),
            Came::Failed | Came::Ended => Err(Gone),
            Came::Bytes(_) => Ok(true),
        }
    }

    /// Whether all of the answer is written, and of the page that it shows, if it does.
    fn is_written(&self) -> bool
        ensures { result ≡ true → (self.now.showing ≡ None) × (self.now.out ≡ []) }
    {
        self.showing.is_none() && self.out.is_empty()
    }

    /// Writes on; tells whether something was written.
    fn write<S: Sockets>(
        &mut self,
        sockets: &mut S,
        source: Source,
        now: Moment,
    ) -> Result<bool, Gone>
        requires { self.old.mood ≡ Mood.Answering }
        ensures { MatchResult result
            (λ _. Acting source (λ acts. S.acts sockets.old acts sockets.new) (session_of self.old) (session_of self.new))
            (λ _. (session : Session) × Acting source (λ acts. S.acts sockets.old acts sockets.new) (session_of self.old) session) }
    {
        if self.out.is_empty() {
            return Err(Gone);
        }
        match sockets.write(source, self.out.pending()) {
            Sent::Nothing => return Ok(false),
            Sent::Failed => return Err(Gone),
            Sent::Bytes(count) => {
                self.moved.add(now, count);
                self.out.wrote(count);
            }
        }
        if self.is_written() {
            sockets.finish(source);
            self.mood = Mood::Closing;
            self.until = now.after(CLOSING_MILLIS);
        }
        Ok(true)
    }

    /// Puts what a page shows next behind what waits to be written, unless that is enough; tells whether it did.
    fn show<K: Keeper>(&mut self, office: &mut Office<K>, board: &Board) -> Result<bool, Gone>
        requires { self.old.mood ≡ Mood.Answering }
        ensures went { (source : ASource) → MatchResult result
            (λ _. Exchanges source office.old office.new (λ acts. acts ≡ []) (session_of self.old) (session_of self.new))
            (λ _. (session : Session) × Exchanges source office.old office.new (λ acts. acts ≡ []) (session_of self.old) session) }
        ensures mood { self.new.mood ≡ Mood.Answering }
    {
        let Some(showing) = self.showing else {
            return Ok(false);
        };
        if self.out.pending().len() >= ENOUGH {
            return Ok(false);
        }
        match showing.go_on(self.alloc, office, board) {
            Ok(shown) => {
                self.out.push(shown.text.as_bytes())?;
                self.showing = shown.next;
                Ok(true)
            }
            Err(fault) => {
                self.news.refused = Some(fault);
                Err(Gone)
            }
        }
    }

    /// Shows what a page shows next, if one is shown, and writes on; tells whether there may be more to do at once.
    fn write_on<K: Keeper, S: Sockets>(
        &mut self,
        office: &mut Office<K>,
        sockets: &mut S,
        board: &Board,
        source: Source,
        now: Moment,
    ) -> Result<bool, Gone>
        requires { self.old.mood ≡ Mood.Answering }
        ensures { MatchResult result
            (λ _. Exchanges source office.old office.new (λ acts. S.acts sockets.old acts sockets.new) (session_of self.old) (session_of self.new))
            (λ _. (session : Session) × Exchanges source office.old office.new (λ acts. S.acts sockets.old acts sockets.new) (session_of self.old) session) }
    {
        let has_shown = self.show(office, board)?;
        if has_shown && self.out.is_empty() {
            return Ok(true);
        }
        let has_written = self.write(sockets, source, now)?;
        Ok(has_shown || has_written)
    }

    /// Goes on with the exchange; tells whether there may be more to do at once. What came of its head is read before
    /// it is judged as late, since it may have been there for as long as others had their turns.
    pub fn go_on<K: Keeper, S: Sockets>(
        &mut self,
        office: &mut Office<K>,
        sockets: &mut S,
        board: &Board,
        source: Source,
        now: Moment,
    ) -> Result<bool, Gone>
        ensures { MatchResult result
            (λ _. Exchanges source office.old office.new (λ acts. S.acts sockets.old acts sockets.new) (session_of self.old) (session_of self.new))
            (λ _. (session : Session) × Exchanges source office.old office.new (λ acts. S.acts sockets.old acts sockets.new) (session_of self.old) session) }
    {
        if self.until <= now {
            return Err(Gone);
        }
        match self.mood {
            Mood::Hearing => self.read(office, sockets, source, board.slots, now),
            Mood::Answering => self.write_on(office, sockets, board, source, now),
            Mood::Closing => self.drop_one(sockets, source),
        }
    }
}
