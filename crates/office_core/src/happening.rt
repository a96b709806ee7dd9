//! What may change an office, each call told as what happens to it.
ghost use Rattle.std.specs.Prelude.{◌≡◌, ◌*◌, IfErr, OnErr, false, length, true};
ghost use Rattle.mb_pdu.specs.Replies.{IsBytes};
ghost use Rattle.poll_book.specs.Looks.{IsRaisedAtMost};
ghost use Rattle.point_list.specs.Edition.{Second};
ghost use Rattle.office_core.specs.Errors.{IsCaused, IsOfStore, is_of_store};
ghost use Rattle.office_core.specs.Following.{Follows, Happens, MayLeave, Went};
ghost use Rattle.office_core.specs.History.{Ask, Load, Open, Order, Send, Void};
ghost use Rattle.office_core.specs.Legal.{AreWords};
ghost use Rattle.office_core.specs.Looking.{covered_of};
ghost use Rattle.office_core.specs.Messages.{arriving};
ghost use Rattle.office_core.specs.Offices.{AccountsFor, CountedFrom, Counts, IsAlike, LeavesSo, Stands, arrived, asked_so, keeper_of, opened, told_so};
ghost use Rattle.office_core.specs.Standing.{Goes, is_refusal, is_store};
ghost use Rattle.office_core.specs.declared.event.Event.TheVariants as event;
ghost use Rattle.office_core.specs.declared.event.EventAnswer.TheVariants as answer;

use crate::error::OfficeError;
use crate::event::{Arrival, RequestAnswer};
use crate::laws::any_message;
use crate::office::Office;
use mb_mbap::Frame;
use poll_book::{Caller, Keeper, Key};
use poll_match::Conn;
use read_planner::Read;

/// What bytes are.
fn are_bytes(bytes: &[u8])
    ensures { IsBytes bytes.now }
{}

/// What a caller and a key are.
fn are_words(caller: &Caller, key: &Key)
    ensures { AreWords (caller.now, key.now) }
{
    let _caller = caller.as_bytes();
    let _key = key.as_bytes();
}

impl<K: Keeper> Office<K> {
    /// Makes the points of a list known, all or none, and keeps what became of it under the caller's
    /// key. A list is refused for its own first fault, then at the first row whose name is known with
    /// another definition, then where more than 10,000 points would be known; a point that is known
    /// already changes nothing. The same list under the key again is told what became of the first,
    /// and another request gets `KeyReused`. The error is `Store` alone: then nothing is kept.
    pub fn load(
        &mut self,
        caller: &Caller,
        key: &Key,
        list: &[u8],
    ) -> Result<RequestAnswer, OfficeError>
        ensures goes { K.is_clean (keeper_of self.new) → Goes (Stands self.old) (Stands self.new) (event.Load caller.now key.now list.now) (told_so result) }
        ensures leaves { K.is_clean (keeper_of self.new) → LeavesSo self.old self.new (event.Load caller.now key.now list.now) (told_so result) }
        ensures went { K.is_clean (keeper_of self.new) → Went self.old self.new (λ _. Load Second caller.now key.now list.now) answer.Request result }
        ensures accounts { AccountsFor IsOfStore self.old self.new result }
        ensures same { is_refusal (told_so result) ≡ true → IsAlike self.old self.new }
    {
        any_message();
        are_bytes(list);
        are_words(caller, key);
        self.step_load(caller, key, list)
    }

    /// Orders that the point of a name is set to a value, which isn't scaled, and keeps what became
    /// of it under the caller's key. Refusals, in this order: no point of this name is known; its role
    /// isn't setting; no registers of its type have the value; 1,000,000 orders exist. The same order
    /// under the key again is told what became of the first, and another request gets `KeyReused`.
    /// The error is `Store` alone: then nothing is kept.
    pub fn order(
        &mut self,
        caller: &Caller,
        key: &Key,
        point: &str,
        value: i128,
    ) -> Result<RequestAnswer, OfficeError>
        ensures goes { K.is_clean (keeper_of self.new) → Goes (Stands self.old) (Stands self.new) (event.Order caller.now key.now point.now value) (told_so result) }
        ensures leaves { K.is_clean (keeper_of self.new) → LeavesSo self.old self.new (event.Order caller.now key.now point.now value) (told_so result) }
        ensures went { K.is_clean (keeper_of self.new) → Went self.old self.new (λ _. Order caller.now key.now point.now value) answer.Request result }
        ensures accounts { AccountsFor IsOfStore self.old self.new result }
        ensures same { is_refusal (told_so result) ≡ true → IsAlike self.old self.new }
    {
        any_message();
        are_bytes(point.as_bytes());
        are_words(caller, key);
        self.step_order(caller, key, point, value)
    }

    /// Takes a slot of the counter of a name out of its total for good, whether its reading came before or
    /// comes after, and keeps what became of that under the caller's key. The reading stays. Refusals, in this
    /// order: no point of this name is known; its role isn't counter; 1,000,000 slots are voided and this isn't
    /// one of them. A slot that was voided before is accepted again without effect. The same void under the key
    /// again is told what became of the first, and another request gets `KeyReused`. The error is `Store` alone:
    /// then nothing is kept.
    pub fn void(
        &mut self,
        caller: &Caller,
        key: &Key,
        point: &str,
        slot: u32,
    ) -> Result<RequestAnswer, OfficeError>
        ensures goes { K.is_clean (keeper_of self.new) → Goes (Stands self.old) (Stands self.new) (event.Void caller.now key.now point.now slot) (told_so result) }
        ensures leaves { K.is_clean (keeper_of self.new) → LeavesSo self.old self.new (event.Void caller.now key.now point.now slot) (told_so result) }
        ensures went { K.is_clean (keeper_of self.new) → Went self.old self.new (λ _. Void caller.now key.now point.now slot) answer.Request result }
        ensures accounts { AccountsFor IsOfStore self.old self.new result }
        ensures looks { IsRaisedAtMost 6 (K.looked (keeper_of self.old)) (K.looked (keeper_of self.new)) }
        ensures same { is_refusal (told_so result) ≡ true → IsAlike self.old self.new }
    {
        any_message();
        are_bytes(point.as_bytes());
        are_words(caller, key);
        self.step_void(caller, key, point, slot)
    }

    /// Opens a line, and closes its former connection. The new one takes the number after the
    /// keeper's last. `WrongLine` for a line that isn't in the site, `Exhausted` where no number is
    /// left, and `Store`: then the former connection stays open, and the number isn't used.
    pub fn open_line(&mut self, line: &str) -> Result<Conn, OfficeError>
        ensures goes { K.is_clean (keeper_of self.new) → Goes (Stands self.old) (Stands self.new) (event.Open line.now) (opened result) }
        ensures leaves { K.is_clean (keeper_of self.new) → LeavesSo self.old self.new (event.Open line.now) (opened result) }
        ensures went { K.is_clean (keeper_of self.new) → Went self.old self.new (λ _. Open line.now) answer.Opened result }
        ensures accounts { AccountsFor IsCaused self.old self.new result }
        ensures same { OnErr result (IsAlike self.old self.new) }
    {
        any_message();
        are_bytes(line.as_bytes());
        self.step_open(line)
    }

    /// Asks a device of a connection's line for the values of a slot, and gives the frame to send.
    /// Refusals, in this order: `NoConnection`; `WrongLine` for a device that isn't one of the
    /// connection's line; `NoRead` for a read that isn't valid, passes address 65,535 or holds no
    /// known point whole; `Exhausted`. It makes no store call and takes no memory.
    pub fn ask(
        &mut self,
        conn: Conn,
        device: &str,
        slot: u32,
        read: Read,
    ) -> Result<Frame, OfficeError>
        ensures goes { K.is_clean (keeper_of self.new) → Goes (Stands self.old) (Stands self.new) (event.Ask conn device.now slot read) (asked_so result) }
        ensures leaves { K.is_clean (keeper_of self.new) → LeavesSo self.old self.new (event.Ask conn device.now slot read) (asked_so result) }
        ensures went { K.is_clean (keeper_of self.new) → Went self.old self.new (λ _. Ask conn device.now slot read) answer.Query result }
        ensures no_store { IfErr result (λ e. is_of_store e ≡ false) }
        ensures same { OnErr result (IsAlike self.old self.new) }
        ensures keeper { keeper_of self.new ≡ keeper_of self.old }
    {
        any_message();
        are_bytes(device.as_bytes());
        let _number = conn.number();
        self.step_ask(conn, device, slot, read)
    }

    /// Sends a waiting order to its device over a connection, and gives the frame to send; an order may
    /// be sent again while it waits. Refusals, in this order: `NoConnection`; `NoOrder`; `WrongLine`
    /// where the device of its point isn't one of the connection's line; `Settled`; `NotNext` where an
    /// older order waits on that device; `Exhausted`; and `Store`, by a fault that the keeper answered,
    /// since what is sent takes no memory.
    pub fn send_order(&mut self, conn: Conn, number: u32) -> Result<Frame, OfficeError>
        ensures goes { K.is_clean (keeper_of self.new) → Goes (Stands self.old) (Stands self.new) (event.Send conn number) (asked_so result) }
        ensures leaves { K.is_clean (keeper_of self.new) → LeavesSo self.old self.new (event.Send conn number) (asked_so result) }
        ensures went { K.is_clean (keeper_of self.new) → Went self.old self.new (λ _. Send conn number) answer.Query result }
        ensures cause { IfErr result (λ e. IsCaused (CountedFrom self.old self.new) e) }
        ensures counts { Counts self.old self.new }
        ensures same { OnErr result (IsAlike self.old self.new) }
    {
        any_message();
        let _number = conn.number();
        self.step_send(conn, number)
    }

    /// A frame came over a connection. A normal reply to a read gives a reading of the query's slot
    /// to each point that the read covers and that was known when it was asked; a point that has
    /// one in the slot keeps it. A reply to an order settles it, where it waits: a normal one as done, an
    /// exception as refused, but for codes 5 and 6. `NoConnection`, `NoQuery`, `WrongUnit`, `Repeat` and `WrongReply`
    /// are the refusals, in this order, then `Store`: the query stays open then.
    pub fn arrive(&mut self, conn: Conn, frame: &Frame) -> Result<Arrival, OfficeError>
        ensures goes { K.is_clean (keeper_of self.new) → Goes (Stands self.old) (Stands self.new) (event.Arrive conn frame.now) (arrived result) }
        ensures leaves { K.is_clean (keeper_of self.new) → LeavesSo self.old self.new (event.Arrive conn frame.now) (arrived result) }
        ensures went { K.is_clean (keeper_of self.new) → Went self.old self.new (λ now. arriving now conn frame.now) answer.Arrived result }
        ensures came { K.is_clean (keeper_of self.new) → is_store (arrived result) ≡ false
            → Happens (Follows self.old) (Follows self.new) (MayLeave self.old) (MayLeave self.new) (λ now. arriving now conn frame.now) (arrived result) }
        ensures accounts { AccountsFor IsCaused self.old self.new result }
        ensures looks { IsRaisedAtMost (5 * length (covered_of self.old conn frame.now)) (K.looked (keeper_of self.old)) (K.looked (keeper_of self.new)) }
        ensures same { OnErr result (IsAlike self.old self.new) }
    {
        any_message();
        are_bytes(frame.unit.as_bytes());
        self.step_arrive(conn, frame)
    }
}
