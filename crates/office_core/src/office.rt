//! The office over any keeper.
ghost use Rattle.std.specs.Prelude.{All, Contains, ◌≡◌, ◌<◌, ◌≤◌, ◌⊎◌, ◌∷◌, ◌+◌, ◌*◌, ℕ, IfOk, IfErr, IfSome, OnErr, MatchResult, Some, None, length, false, true, option_map};
ghost use Rattle.poll_book.specs.Fault.{Accounts, HasCause};
ghost use Rattle.poll_book.specs.Looks.{IsRaisedAtMost};
ghost use Rattle.poll_book.specs.Tables.{Tables, Within};
ghost use Rattle.poll_book.specs.Requests.{request_at};
ghost use Rattle.point_list.specs.Lists.{point_limit};
ghost use Rattle.point_list.specs.Sites.{IsSound};
ghost use Rattle.office_core.specs.ByDevice.{AreDevicesOf};
ghost use Rattle.office_core.specs.ByName.{AreNamesOf};
ghost use Rattle.office_core.specs.ByNumber.{AreNumbersOf};
ghost use Rattle.office_core.specs.Sites.{has_devices};
ghost use Rattle.office_core.specs.History as history;
ghost use Rattle.office_core.specs.Loads as loads;
ghost use Rattle.office_core.specs.Standing.{Closes, Goes, Runs, is_refusal};

use crate::arrival::keep_brought;
use crate::by_device::ByDevice;
use crate::by_name::ByName;
use crate::by_number::ByNumber;
use crate::changes::{connection_change, request_change, with_request};
use crate::commit::{commit, write};
use crate::error::OfficeError;
use crate::event::{Arrival, Event, EventAnswer, RequestAnswer};
use crate::growing::{add_points, follow_behind, take_names};
use crate::judging::judge_ask;
use crate::lacking::some_lacks;
use crate::loads::{Judged, judge_list};
use crate::orders::{judge_order, judge_send};
use crate::requests::{list_again, list_row, order_again, order_row, void_again, void_row};
use crate::site::{has_devices, line_place};
use crate::voids::judge_void;
use mb_mbap::Frame;
use mb_pdu::Reply;
use point_list::{MOST_POINTS, Role, Site};
use poll_book::{
    Caller, Keeper, KeptRequest, Key, OrderState, PointRow, SettingRow, ShownReading, StoreFault,
};
use poll_match::{Asked, Conn, Matcher};
use read_planner::Read;
use std::alloc::{AllocError, Global};

/// The number of the last connection: the keeper's, but never less than one that is open, whatever
/// the keeper says.
fn last_made<K: Keeper>(keeper: &mut K, greatest: u32) -> Result<u32, StoreFault>
    ensures value { K.is_clean keeper.new → (kept : Tables) → K.holds keeper.old kept → greatest ≤ kept.connections
        → IfOk result (λ last. last ≡ kept.connections) }
    ensures above { IfOk result (λ last. greatest ≤ last) }
    ensures cause { Accounts K.may_refuse (K.refused keeper.old) (K.refused keeper.new) result }
    ensures same { Within (K.holds keeper.old) (K.holds keeper.new) }
    ensures leaves { K.is_clean keeper.new → Within (K.may_leave keeper.new) (K.may_leave keeper.old) }
    ensures clean { K.is_clean keeper.new → K.is_clean keeper.old }
{
    match keeper.connections() {
        Ok(made) if made >= greatest => Ok(made),
        Ok(_) => Ok(greatest),
        Err(fault) => Err(fault),
    }
}

/// The first request of a caller under a key.
fn former<K: Keeper>(
    alloc: Global,
    keeper: &mut K,
    caller: &Caller,
    key: &Key,
) -> Result<Option<KeptRequest>, StoreFault>
    ensures value { K.is_clean keeper.new → (kept : Tables) → K.holds keeper.old kept
        → IfOk result (λ found. found ≡ request_at kept.requests (caller.now, key.now)) }
    ensures cause { Accounts K.may_refuse (K.refused keeper.old) (K.refused keeper.new) result }
    ensures looked { K.looked keeper.new ≡ K.looked keeper.old }
    ensures same { Within (K.holds keeper.old) (K.holds keeper.new) }
    ensures leaves { K.is_clean keeper.new → Within (K.may_leave keeper.new) (K.may_leave keeper.old) }
    ensures clean { K.is_clean keeper.new → K.is_clean keeper.old }
{
    keeper.request(alloc, caller, key)
}

fn close_former(matcher: &mut Matcher, former: Option<Conn>)
    ensures { Closes former matcher.old matcher.new }
{
    if let Some(former) = former {
        matcher.close(former);
    }
}

/// An office over a keeper of points, readings and its last connection number.
#[derive(Drop)]
pub struct Office<K: Keeper> {
    keeper: K,
    site: Site,
    // A copy of the keeper's, so that an ask makes no store call.
    points: Vec<PointRow>,
    by_device: ByDevice,
    by_name: ByName,
    by_number: ByNumber,
    matcher: Matcher,
    alloc: Global,
    ghost few: { length points.items ≤ point_limit },
    ghost devices: { AreDevicesOf points.items by_device },
    ghost names: { AreNamesOf points.items by_name },
    ghost sound: { IsSound site },
    ghost numbers: { AreNumbersOf points.items by_number },
}

impl<K: Keeper> Office<K> {
    ghost use Rattle.office_core.specs.History.{History, Restart, tables, points, settings, requests, open_line};
    ghost use Rattle.office_core.specs.Lacking.{lacks};
    ghost use Rattle.poll_book.specs.Orders.{as_setting, last_order, oldest_waiting, point_at};
    ghost use Rattle.office_core.specs.Errors.{IsCaused, IsOfStore, is_of_store};
    ghost use Rattle.poll_match.specs.Window.{KeepsQuery, held};
    ghost use Rattle.mb_mbap.specs.declared.frame.Frame.{Frame as AFrame};
    ghost use Rattle.office_core.specs.Arriving.{IsAnswered};
    ghost use Rattle.office_core.specs.Looking.{covered_of};
    ghost use Rattle.office_core.specs.Queries.{Answers};
    ghost use Rattle.poll_book.specs.Showing.{as_shown};
    ghost use Rattle.office_core.specs.Offices.{AccountsFor, AnswerCaused, CauseFrom, CountedFrom, Counts, IsAlike, LeavesRun, LeavesSo, LeavesUnused, OnlyAsked, Shows, Stands, StandsUnused, arrived, asked_so, keeper_of, last_reading_at, last_reading_of, opened, order_state_of, points_of, readings_at, readings_of, site_of, told_so, total_at, total_of, value_after_at};

    /// An office over what a keeper holds, with no connection open. A keeper that can't be read is
    /// given back with `Store`, and one with a point whose device isn't in the site with
    /// `SiteDiffers`. More than 10,000 points are no office's: that is `Store(Other)`.
    pub fn new(alloc: Global, mut keeper: K, site: Site) -> Result<Office<K>, (OfficeError, K)>
        requires { IsSound site }
        ensures stands { IfOk result (λ office. K.is_clean (keeper_of office) → (before : History) → K.holds keeper (tables before) → Stands office (Restart site ∷ before)) }
        ensures leaves { IfOk result (λ office. K.is_clean (keeper_of office) → Within (K.may_leave (keeper_of office)) (K.may_leave keeper)) }
        ensures devices { IfOk result (λ office. K.is_clean (keeper_of office) → (kept : Tables) → K.holds keeper kept → has_devices site kept.points ≡ true) }
        ensures differs { IfErr result (λ e. e.0 ≡ OfficeError.SiteDiffers → K.is_clean e.1 → (kept : Tables) → K.holds keeper kept → has_devices site kept.points ≡ false) }
        ensures cause { IfErr result (λ e. IsCaused (HasCause K.may_refuse (K.refused keeper) (K.refused e.1)) e.0
            ⊎ (K.is_clean e.1 → (kept : Tables) → K.holds keeper kept → point_limit < length kept.points)) }
        ensures counted { MatchResult result (λ office. K.refused (keeper_of office) ≡ K.refused keeper) (λ e. K.refused keeper ≤ K.refused e.1) }
        ensures same { MatchResult result (λ office. Within (K.holds keeper) (K.holds (keeper_of office))) (λ e. Within (K.holds keeper) (K.holds e.1)) }
        ensures clean { MatchResult result (λ office. K.is_clean (keeper_of office) → K.is_clean keeper) (λ e. K.is_clean e.1 → K.is_clean keeper) }
    {
        let points = match keeper.points(alloc) {
            Ok(points) => points,
            Err(fault) => return Err((OfficeError::Store(fault), keeper)),
        };
        if !has_devices(&site, &points) {
            return Err((OfficeError::SiteDiffers, keeper));
        }
        if points.len() > MOST_POINTS {
            return Err((OfficeError::Store(StoreFault::Other), keeper));
        }
        let mut by_number = ByNumber::new();
        by_number.catch_up(&points);
        Ok(Office {
            keeper,
            site,
            points,
            by_device: ByDevice::new(alloc),
            by_name: ByName::new(alloc),
            by_number,
            matcher: Matcher::new(alloc),
            alloc,
        })
    }

    /// The keeper again.
    pub fn into_keeper(self) -> K
        ensures { result ≡ keeper_of self }
    {
        self.keeper
    }

    // The work of `load` and of `step`.
    pub(crate) fn step_load(
        &mut self,
        caller: &Caller,
        key: &Key,
        list: &[u8],
    ) -> Result<RequestAnswer, OfficeError>
        ensures goes { K.is_clean (keeper_of self.new) → Goes (Stands self.old) (Stands self.new) (Event.Load caller.now key.now list.now) (told_so result) }
        ensures leaves { K.is_clean (keeper_of self.new) → LeavesSo self.old self.new (Event.Load caller.now key.now list.now) (told_so result) }
        ensures accounts { AccountsFor IsOfStore self.old self.new result }
        ensures same { is_refusal (told_so result) ≡ true → IsAlike self.old self.new }
    {
        if let Some(first) = former(self.alloc, &mut self.keeper, caller, key)? {
            return Ok(list_again(&first, list));
        }
        self.load_new(caller, key, list)
    }

    // A list under a key that wasn't used.
    fn load_new(
        &mut self,
        caller: &Caller,
        key: &Key,
        list: &[u8],
    ) -> Result<RequestAnswer, OfficeError>
        ensures goes { K.is_clean (keeper_of self.new) → Goes (StandsUnused self.old (caller.now, key.now)) (Stands self.new) (Event.Load caller.now key.now list.now) (told_so result) }
        ensures leaves { K.is_clean (keeper_of self.new) → LeavesUnused (caller.now, key.now) self.old self.new (Event.Load caller.now key.now list.now) (told_so result) }
        ensures accounts { AccountsFor IsOfStore self.old self.new result }
        ensures same { is_refusal (told_so result) ≡ true → IsAlike self.old self.new }
    {
        let Judged {
            outcome,
            points,
            names,
        } = judge_list(self.alloc, &self.site, &self.points, &self.by_name, list)?;
        let request = list_row(self.alloc, caller, key, list, outcome)?;
        self.points.reserve(points.len())?;
        let change = request_change(self.alloc, points, None, request);
        commit(&mut self.keeper, &change)?;
        take_names(&mut self.by_name, names);
        add_points(
            &mut self.points,
            &mut self.by_device,
            &mut self.by_name,
            &mut self.by_number,
            change.points.as_slice(),
        );
        Ok(RequestAnswer::Kept {
            first: true,
            outcome,
        })
    }

    // The work of `order` and of `step`.
    pub(crate) fn step_order(
        &mut self,
        caller: &Caller,
        key: &Key,
        point: &str,
        value: i128,
    ) -> Result<RequestAnswer, OfficeError>
        ensures goes { K.is_clean (keeper_of self.new) → Goes (Stands self.old) (Stands self.new) (Event.Order caller.now key.now point.now value) (told_so result) }
        ensures leaves { K.is_clean (keeper_of self.new) → LeavesSo self.old self.new (Event.Order caller.now key.now point.now value) (told_so result) }
        ensures accounts { AccountsFor IsOfStore self.old self.new result }
        ensures same { is_refusal (told_so result) ≡ true → IsAlike self.old self.new }
    {
        if let Some(first) = former(self.alloc, &mut self.keeper, caller, key)? {
            return Ok(order_again(&first, point, value));
        }
        self.order_new(caller, key, point, value)
    }

    // An order under a key that wasn't used.
    fn order_new(
        &mut self,
        caller: &Caller,
        key: &Key,
        point: &str,
        value: i128,
    ) -> Result<RequestAnswer, OfficeError>
        ensures goes { K.is_clean (keeper_of self.new) → Goes (StandsUnused self.old (caller.now, key.now)) (Stands self.new) (Event.Order caller.now key.now point.now value) (told_so result) }
        ensures leaves { K.is_clean (keeper_of self.new) → LeavesUnused (caller.now, key.now) self.old self.new (Event.Order caller.now key.now point.now value) (told_so result) }
        ensures accounts { AccountsFor IsOfStore self.old self.new result }
        ensures same { is_refusal (told_so result) ≡ true → IsAlike self.old self.new }
    {
        let (outcome, setting) = judge_order(
            self.alloc,
            &mut self.keeper,
            &self.points,
            &self.by_name,
            point,
            value,
        )?;
        let request = order_row(self.alloc, caller, key, point, value, outcome)?;
        let change = request_change(self.alloc, Vec::new(self.alloc), setting, request);
        write(&mut self.keeper, change)?;
        self.by_name.catch_up_one(&self.points);
        Ok(RequestAnswer::Kept {
            first: true,
            outcome,
        })
    }

    // The work of `void` and of `step`.
    pub(crate) fn step_void(
        &mut self,
        caller: &Caller,
        key: &Key,
        point: &str,
        slot: u32,
    ) -> Result<RequestAnswer, OfficeError>
        ensures goes { K.is_clean (keeper_of self.new) → Goes (Stands self.old) (Stands self.new) (Event.Void caller.now key.now point.now slot) (told_so result) }
        ensures leaves { K.is_clean (keeper_of self.new) → LeavesSo self.old self.new (Event.Void caller.now key.now point.now slot) (told_so result) }
        ensures accounts { AccountsFor IsOfStore self.old self.new result }
        ensures looks { IsRaisedAtMost 6 (K.looked (keeper_of self.old)) (K.looked (keeper_of self.new)) }
        ensures same { is_refusal (told_so result) ≡ true → IsAlike self.old self.new }
    {
        if let Some(first) = former(self.alloc, &mut self.keeper, caller, key)? {
            return Ok(void_again(&first, point, slot));
        }
        self.void_new(caller, key, point, slot)
    }

    // A void under a key that wasn't used.
    fn void_new(
        &mut self,
        caller: &Caller,
        key: &Key,
        point: &str,
        slot: u32,
    ) -> Result<RequestAnswer, OfficeError>
        ensures goes { K.is_clean (keeper_of self.new) → Goes (StandsUnused self.old (caller.now, key.now)) (Stands self.new) (Event.Void caller.now key.now point.now slot) (told_so result) }
        ensures leaves { K.is_clean (keeper_of self.new) → LeavesUnused (caller.now, key.now) self.old self.new (Event.Void caller.now key.now point.now slot) (told_so result) }
        ensures accounts { AccountsFor IsOfStore self.old self.new result }
        ensures looks { IsRaisedAtMost 6 (K.looked (keeper_of self.old)) (K.looked (keeper_of self.new)) }
        ensures same { is_refusal (told_so result) ≡ true → IsAlike self.old self.new }
    {
        let (outcome, change) = judge_void(
            self.alloc,
            &mut self.keeper,
            &self.points,
            &self.by_name,
            point,
            slot,
        )?;
        let request = void_row(self.alloc, caller, key, point, slot, outcome)?;
        write(&mut self.keeper, with_request(change, request))?;
        self.by_name.catch_up_one(&self.points);
        Ok(RequestAnswer::Kept {
            first: true,
            outcome,
        })
    }

    // The work of `open_line` and of `step`.
    pub(crate) fn step_open(&mut self, line: &str) -> Result<Conn, OfficeError>
        ensures goes { K.is_clean (keeper_of self.new) → Goes (Stands self.old) (Stands self.new) (Event.Open line.now) (opened result) }
        ensures leaves { K.is_clean (keeper_of self.new) → LeavesSo self.old self.new (Event.Open line.now) (opened result) }
        ensures accounts { AccountsFor IsCaused self.old self.new result }
        ensures same { OnErr result (IsAlike self.old self.new) }
    {
        let Some(line) = line_place(&self.site, line) else {
            return Err(OfficeError::WrongLine);
        };
        let last = last_made(&mut self.keeper, self.matcher.greatest())?;
        if last >= u32::MAX {
            return Err(OfficeError::Exhausted);
        }
        let conn = Conn::new(last + 1);
        let former = self.matcher.conn_of(line);
        self.matcher.open(conn, line)?;
        let change = connection_change(self.alloc, conn.number());
        if let Err(fault) = write(&mut self.keeper, change) {
            self.matcher.close(conn);
            return Err(OfficeError::Store(fault));
        }
        close_former(&mut self.matcher, former);
        Ok(conn)
    }

    // The work of `ask` and of `step`.
    pub(crate) fn step_ask(
        &mut self,
        conn: Conn,
        device: &str,
        slot: u32,
        read: Read,
    ) -> Result<Frame, OfficeError>
        ensures goes { K.is_clean (keeper_of self.new) → Goes (Stands self.old) (Stands self.new) (Event.Ask conn device.now slot read) (asked_so result) }
        ensures leaves { K.is_clean (keeper_of self.new) → LeavesSo self.old self.new (Event.Ask conn device.now slot read) (asked_so result) }
        ensures no_store { IfErr result (λ e. is_of_store e ≡ false) }
        ensures same { OnErr result (IsAlike self.old self.new) }
        ensures keeper { keeper_of self.new ≡ keeper_of self.old }
    {
        let line = self.matcher.line_of(conn);
        let to = judge_ask(
            &self.site,
            &self.points,
            &self.by_device,
            line,
            device,
            &read,
        )?;
        let asked = Asked::Read {
            unit_id: to.unit_id,
            device: to.place,
            slot,
            read,
            known: self.points.len() as u32,
        };
        Ok(self.matcher.next_query(conn, asked)?)
    }

    // The work of `send_order` and of `step`.
    pub(crate) fn step_send(&mut self, conn: Conn, number: u32) -> Result<Frame, OfficeError>
        ensures goes { K.is_clean (keeper_of self.new) → Goes (Stands self.old) (Stands self.new) (Event.Send conn number) (asked_so result) }
        ensures leaves { K.is_clean (keeper_of self.new) → LeavesSo self.old self.new (Event.Send conn number) (asked_so result) }
        ensures cause { IfErr result (λ e. IsCaused (CountedFrom self.old self.new) e) }
        ensures counts { Counts self.old self.new }
        ensures same { OnErr result (IsAlike self.old self.new) }
    {
        let line = self.matcher.line_of(conn);
        let asked = judge_send(
            &mut self.keeper,
            &self.site,
            &self.points,
            &self.by_number,
            line,
            number,
        )?;
        Ok(self.matcher.next_query(conn, asked)?)
    }

    // The work of `arrive` and of `step`.
    pub(crate) fn step_arrive(&mut self, conn: Conn, frame: &Frame) -> Result<Arrival, OfficeError>
        ensures goes { K.is_clean (keeper_of self.new) → Goes (Stands self.old) (Stands self.new) (Event.Arrive conn frame.now) (arrived result) }
        ensures leaves { K.is_clean (keeper_of self.new) → LeavesSo self.old self.new (Event.Arrive conn frame.now) (arrived result) }
        ensures accounts { AccountsFor IsCaused self.old self.new result }
        ensures looks { IsRaisedAtMost (5 * length (covered_of self.old conn frame.now)) (K.looked (keeper_of self.old)) (K.looked (keeper_of self.new)) }
        ensures same { OnErr result (IsAlike self.old self.new) }
    {
        let Some(found) = self.matcher.find_brief(conn, frame)? else {
            return self.arrive_bits(conn, frame);
        };
        let reply = found.reply.into_reply();
        self.take_reply(conn, found.number, &found.asked, &reply)
    }

    // The same, by a call that finds bits too. It serves for any frame, but it moves room for 2,000 bits from call to
    // call.
    fn arrive_bits(&mut self, conn: Conn, frame: &Frame) -> Result<Arrival, OfficeError>
        ensures goes { K.is_clean (keeper_of self.new) → Goes (Stands self.old) (Stands self.new) (Event.Arrive conn frame.now) (arrived result) }
        ensures leaves { K.is_clean (keeper_of self.new) → LeavesSo self.old self.new (Event.Arrive conn frame.now) (arrived result) }
        ensures accounts { AccountsFor IsCaused self.old self.new result }
        ensures looks { IsRaisedAtMost (5 * length (covered_of self.old conn frame.now)) (K.looked (keeper_of self.old)) (K.looked (keeper_of self.new)) }
        ensures same { OnErr result (IsAlike self.old self.new) }
    {
        let found = self.matcher.find(conn, frame)?;
        self.take_reply(conn, found.number, &found.asked, &found.reply)
    }

    // Writes what a reply to a query of a connection brings, and marks the query as answered.
    fn take_reply(
        &mut self,
        conn: Conn,
        number: u32,
        asked: &Asked,
        reply: &Reply,
    ) -> Result<Arrival, OfficeError>
        requires kept { KeepsQuery (held conn self.old.matcher) number }
        requires answers { Answers asked.now reply.now }
        ensures goes { (frame : AFrame) → IsAnswered self.old.matcher conn frame number asked.now reply.now → K.is_clean (keeper_of self.new)
            → Goes (Stands self.old) (Stands self.new) (Event.Arrive conn frame) (arrived result) }
        ensures leaves { (frame : AFrame) → IsAnswered self.old.matcher conn frame number asked.now reply.now → K.is_clean (keeper_of self.new)
            → LeavesSo self.old self.new (Event.Arrive conn frame) (arrived result) }
        ensures accounts { AccountsFor IsCaused self.old self.new result }
        ensures looks { (frame : AFrame) → IsAnswered self.old.matcher conn frame number asked.now reply.now
            → IsRaisedAtMost (5 * length (covered_of self.old conn frame)) (K.looked (keeper_of self.old)) (K.looked (keeper_of self.new)) }
        ensures same { OnErr result (IsAlike self.old self.new) }
    {
        let arrival = keep_brought(
            self.alloc,
            &mut self.keeper,
            &self.site,
            &self.points,
            &self.by_device,
            asked,
            reply,
        )?;
        self.matcher.settle(conn, number);
        follow_behind(&mut self.by_device, &self.points, &arrival);
        Ok(arrival)
    }

    /// Closes all connections, as a new start with the same site does.
    pub fn restart(&mut self)
        ensures goes { Goes (Stands self.old) (Stands self.new) Event.Restart EventAnswer.Restarted }
        ensures leaves { LeavesSo self.old self.new Event.Restart EventAnswer.Restarted }
        ensures keeper { keeper_of self.new ≡ keeper_of self.old }
    {
        self.matcher.close_all();
    }

    /// One event, answered as the call of its name answers it.
    pub fn step(&mut self, event: &Event) -> EventAnswer
        ensures goes { K.is_clean (keeper_of self.new) → Goes (Stands self.old) (Stands self.new) event.now result }
        ensures leaves { K.is_clean (keeper_of self.new) → LeavesSo self.old self.new event.now result }
        ensures cause { AnswerCaused (CauseFrom self.old self.new) result }
        ensures counts { Counts self.old self.new }
        ensures same { is_refusal result ≡ true → IsAlike self.old self.new }
    {
        match event {
            Event::Load(caller, key, list) => {
                EventAnswer::from(self.step_load(caller, key, list.as_slice()))
            }
            Event::Order(caller, key, point, value) => {
                EventAnswer::from(self.step_order(caller, key, point.as_str(), *value))
            }
            Event::Void(caller, key, point, slot) => {
                EventAnswer::from(self.step_void(caller, key, point.as_str(), *slot))
            }
            Event::Open(line) => EventAnswer::from(self.step_open(line.as_str())),
            Event::Ask(conn, device, slot, read) => {
                EventAnswer::from(self.step_ask(*conn, device.as_str(), *slot, *read))
            }
            Event::Send(conn, number) => EventAnswer::from(self.step_send(*conn, *number)),
            Event::Arrive(conn, frame) => EventAnswer::from(self.step_arrive(*conn, frame)),
            Event::Restart => {
                self.restart();
                EventAnswer::Restarted
            }
        }
    }

    /// Many events, in order, each with its answer. Without memory for the answers none is taken.
    pub fn run(&mut self, events: &[Event]) -> Result<Vec<EventAnswer>, AllocError>
        ensures each { IfOk result (λ told. length told.items ≡ length events.now) }
        ensures runs { K.is_clean (keeper_of self.new) → IfOk result (λ told. Runs (Stands self.old) (Stands self.new) events.now told.items) }
        ensures leaves { K.is_clean (keeper_of self.new) → IfOk result (λ told. LeavesRun self.old self.new events.now told.items) }
        ensures cause { IfOk result (λ told. All (AnswerCaused (CauseFrom self.old self.new)) told.items) }
        ensures counts { Counts self.old self.new }
        ensures memory { OnErr result (self.new ≡ self.old) }
    {
        let mut told = Vec::with_capacity(self.alloc, events.len())?;
        for event in events {
            let answer = self.step(event);
            let _ = told.push(answer);
        }
        Ok(told)
    }

    // The readings of a known point in the slots from the one to the other; `None` where there is no point.
    fn readings_at(
        &mut self,
        known: Option<PointRow>,
        from: u32,
        to: u32,
    ) -> Result<Option<Vec<ShownReading>>, OfficeError>
        ensures value { K.is_clean (keeper_of self.new) → (before : History) → Stands self.old before
            → IfOk result (λ rows. Shows (readings_at before known from to) rows) }
        ensures accounts { AccountsFor IsOfStore self.old self.new result }
        ensures asked { OnlyAsked self.old self.new }
    {
        let Some(row) = known else {
            return Ok(None);
        };
        Ok(Some(self.keeper.readings(self.alloc, &row, from, to)?))
    }

    /// The readings of a point in the slots `from` to `to`, by slot, each with whether its slot is voided;
    /// `None` for an unknown point.
    pub fn readings(
        &mut self,
        point: &str,
        from: u32,
        to: u32,
    ) -> Result<Option<Vec<ShownReading>>, OfficeError>
        ensures value { K.is_clean (keeper_of self.new) → (before : History) → Stands self.old before
            → IfOk result (λ rows. Shows (readings_of before point.now from to) rows) }
        ensures accounts { AccountsFor IsOfStore self.old self.new result }
        ensures asked { OnlyAsked self.old self.new }
    {
        let known = self.point(point);
        self.readings_at(known, from, to)
    }

    /// The same of the point of a number.
    pub fn readings_numbered(
        &mut self,
        number: u32,
        from: u32,
        to: u32,
    ) -> Result<Option<Vec<ShownReading>>, OfficeError>
        ensures value { K.is_clean (keeper_of self.new) → (before : History) → Stands self.old before
            → IfOk result (λ rows. Shows (readings_at before (point_at (points before) number) from to) rows) }
        ensures accounts { AccountsFor IsOfStore self.old self.new result }
        ensures asked { OnlyAsked self.old self.new }
    {
        let known = self.point_numbered(number);
        self.readings_at(known, from, to)
    }

    // The last reading of a known point; `None` where there is no point, or no reading of it.
    fn last_at(&mut self, known: Option<PointRow>) -> Result<Option<ShownReading>, OfficeError>
        ensures value { K.is_clean (keeper_of self.new) → (before : History) → Stands self.old before
            → IfOk result (λ last. option_map as_shown last ≡ last_reading_at before known) }
        ensures accounts { AccountsFor IsOfStore self.old self.new result }
        ensures asked { OnlyAsked self.old self.new }
    {
        let Some(row) = known else {
            return Ok(None);
        };
        let end = self.keeper.end(&row)?;
        if end == 0 {
            return Ok(None);
        }
        let slot = (end - 1) as u32;
        let mut last = self.keeper.readings(self.alloc, &row, slot, slot)?;
        Ok(last.pop())
    }

    /// The last reading of a point, whether it counts or not, with whether its slot is voided; `None` where the point
    /// is unknown or has no reading.
    pub fn last(&mut self, point: &str) -> Result<Option<ShownReading>, OfficeError>
        ensures value { K.is_clean (keeper_of self.new) → (before : History) → Stands self.old before
            → IfOk result (λ last. option_map as_shown last ≡ last_reading_of before point.now) }
        ensures accounts { AccountsFor IsOfStore self.old self.new result }
        ensures asked { OnlyAsked self.old self.new }
    {
        let known = self.point(point);
        self.last_at(known)
    }

    /// The same of the point of a number.
    pub fn last_numbered(&mut self, number: u32) -> Result<Option<ShownReading>, OfficeError>
        ensures value { K.is_clean (keeper_of self.new) → (before : History) → Stands self.old before
            → IfOk result (λ last. option_map as_shown last ≡ last_reading_at before (point_at (points before) number)) }
        ensures accounts { AccountsFor IsOfStore self.old self.new result }
        ensures asked { OnlyAsked self.old self.new }
    {
        let known = self.point_numbered(number);
        self.last_at(known)
    }

    /// Whether some known point of a device that a read covers has no reading in the slot.
    pub fn lacks(&mut self, device: &str, slot: u32, read: &Read) -> Result<bool, OfficeError>
        ensures value { K.is_clean (keeper_of self.new) → (before : History) → Stands self.old before
            → IfOk result (λ some. some ≡ lacks before device.now slot read.now) }
        ensures accounts { AccountsFor IsOfStore self.old self.new result }
        ensures asked { OnlyAsked self.old self.new }
    {
        Ok(some_lacks(
            &mut self.keeper,
            &self.points,
            &self.by_device,
            device.as_bytes(),
            slot,
            read,
        )?)
    }

    // How far a known counter went; `None` where there is no point, or no counter.
    fn total_at(&mut self, known: Option<PointRow>) -> Result<Option<u128>, OfficeError>
        ensures value { K.is_clean (keeper_of self.new) → (before : History) → Stands self.old before
            → IfSome known (Contains (points before)) → IfOk result (λ sum. sum ≡ total_at before known) }
        ensures accounts { AccountsFor IsOfStore self.old self.new result }
        ensures asked { OnlyAsked self.old self.new }
    {
        let Some(row) = known else {
            return Ok(None);
        };
        let Role::Counter = row.point.role else {
            return Ok(None);
        };
        Ok(Some(self.keeper.total(&row)?))
    }

    /// How far a counter went by its counted readings; `None` where no counter of this name is
    /// known.
    pub fn total(&mut self, point: &str) -> Result<Option<u128>, OfficeError>
        ensures value { K.is_clean (keeper_of self.new) → (before : History) → Stands self.old before
            → IfOk result (λ sum. sum ≡ total_of before point.now) }
        ensures accounts { AccountsFor IsOfStore self.old self.new result }
        ensures asked { OnlyAsked self.old self.new }
    {
        let known = self.point(point);
        self.total_at(known)
    }

    /// The same of the point of a number.
    pub fn total_numbered(&mut self, number: u32) -> Result<Option<u128>, OfficeError>
        ensures value { K.is_clean (keeper_of self.new) → (before : History) → Stands self.old before
            → IfOk result (λ sum. sum ≡ total_at before (point_at (points before) number)) }
        ensures accounts { AccountsFor IsOfStore self.old self.new result }
        ensures asked { OnlyAsked self.old self.new }
    {
        let known = self.point_numbered(number);
        self.total_at(known)
    }

    /// The value of the nearest counted reading of the counter of a number after a slot, of those whose slot isn't
    /// voided; `None` where there is none, or where no counter of this number is known.
    pub fn value_after(&mut self, number: u32, slot: u32) -> Result<Option<u64>, OfficeError>
        ensures value { K.is_clean (keeper_of self.new) → (before : History) → Stands self.old before
            → IfOk result (λ value. value ≡ value_after_at before (point_at (points before) number) slot) }
        ensures accounts { AccountsFor IsOfStore self.old self.new result }
        ensures asked { OnlyAsked self.old self.new }
    {
        let Some(row) = self.point_numbered(number) else {
            return Ok(None);
        };
        let Role::Counter = row.point.role else {
            return Ok(None);
        };
        Ok(self.keeper.after(&row, slot)?)
    }

    /// The first request of a caller under a key, and what became of it; `None` where the key wasn't
    /// used.
    pub fn request_of(
        &mut self,
        caller: &Caller,
        key: &Key,
    ) -> Result<Option<KeptRequest>, OfficeError>
        ensures value { K.is_clean (keeper_of self.new) → (before : History) → Stands self.old before
            → IfOk result (λ found. found ≡ request_at (requests before) (caller.now, key.now)) }
        ensures accounts { AccountsFor IsOfStore self.old self.new result }
        ensures asked { OnlyAsked self.old self.new }
    {
        Ok(former(self.alloc, &mut self.keeper, caller, key)?)
    }

    /// How an order stands; `None` where there is no order of this number.
    pub fn order_state(&mut self, number: u32) -> Result<Option<OrderState>, OfficeError>
        ensures value { K.is_clean (keeper_of self.new) → (before : History) → Stands self.old before
            → IfOk result (λ state. state ≡ order_state_of before number) }
        ensures accounts { AccountsFor IsOfStore self.old self.new result }
        ensures asked { OnlyAsked self.old self.new }
    {
        match self.keeper.setting(number)? {
            Some(setting) => Ok(Some(setting.state)),
            None => Ok(None),
        }
    }

    /// The oldest order that waits on the device of a name; `None` where none does.
    pub fn waiting(&mut self, device: &str) -> Result<Option<SettingRow>, OfficeError>
        ensures value { K.is_clean (keeper_of self.new) → (before : History) → Stands self.old before
            → IfOk result (λ found. option_map as_setting found ≡ oldest_waiting (points before) device.now (settings before)) }
        ensures accounts { AccountsFor IsOfStore self.old self.new result }
        ensures asked { OnlyAsked self.old self.new }
    {
        Ok(self.keeper.oldest_waiting(device)?)
    }

    /// The number of the last order, 0 before the first.
    pub fn orders(&mut self) -> Result<u32, OfficeError>
        ensures value { K.is_clean (keeper_of self.new) → (before : History) → Stands self.old before
            → IfOk result (λ orders. orders ≡ last_order (settings before)) }
        ensures accounts { AccountsFor IsOfStore self.old self.new result }
        ensures asked { OnlyAsked self.old self.new }
    {
        Ok(self.keeper.orders()?)
    }

    /// The known points, by their numbers.
    pub fn points(&self) -> &[PointRow]
        ensures value { result.now ≡ points_of self.now }
        ensures history { (before : History) → Stands self.now before → result.now ≡ points before }
    {
        self.points.as_slice()
    }

    /// The known point of a name.
    pub fn point(&self, name: &str) -> Option<PointRow>
        ensures { (before : History) → Stands self.now before → result ≡ loads.known_named (points before) name.now }
    {
        self.by_name.find(&self.points, name.as_bytes())
    }

    /// The known point of a number. What is told of it by its number is what is told of it by its name
    /// (`laws::numbered_points`); and it isn't searched for.
    pub fn point_numbered(&self, number: u32) -> Option<PointRow>
        ensures { (before : History) → Stands self.now before → result ≡ point_at (points before) number }
    {
        self.by_number.find(&self.points, number)
    }

    /// The site in force.
    pub fn site(&self) -> &Site
        ensures value { result.now ≡ site_of self.now }
        ensures history { (before : History) → Stands self.now before → result.now ≡ history.site_of before }
        ensures sound { IsSound result.now }
    {
        &self.site
    }

    /// The place of a connection's line in the site; `None` where the connection isn't open.
    pub fn line_of(&self, conn: Conn) -> Option<u16>
        ensures { (before : History) → Stands self.now before → result ≡ open_line before conn }
    {
        self.matcher.line_of(conn)
    }
}
