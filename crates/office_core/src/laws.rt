//! Laws of the definitions alone.

ghost use Rattle.std.specs.Prelude.{[], ◌≡◌, ◌⊎◌, ◌↔◌, ◌≤◌, ℕ, ◌+◌, ◌*◌, All, Contains, false, List, ◌++◌, length, Some, IsSome, slice_get};
ghost use Rattle.sunspec.specs.declared.word_order.WordOrder.TheVariants as WordOrder;
ghost use Rattle.read_planner.specs.Place.{CanBeRead};
ghost use Rattle.poll_book.specs.declared.requests.KeptRequest.{KeptRequest};
ghost use Rattle.poll_book.specs.declared.rows.OrderState.{OrderState};
ghost use Rattle.poll_book.specs.declared.rows.OrderState.TheVariants.{Waiting};
ghost use Rattle.poll_book.specs.declared.rows.PointRow.{PointRow};
ghost use Rattle.poll_book.specs.declared.rows.Reading.{Reading};
ghost use Rattle.poll_book.specs.declared.rows.Setting.{Setting};
ghost use Rattle.poll_book.specs.Orders.{is_waiting, point_at, setting_at, last_order};
ghost use Rattle.poll_book.specs.Requests.{RequestKey, request_at};
ghost use Rattle.poll_book.specs.Tables.{Tables, reading_at};
ghost use Rattle.office_core.specs.declared.event.Event.{Event};
ghost use Rattle.office_core.specs.declared.event.EventAnswer.{EventAnswer};
ghost use Rattle.office_core.specs.Fitting.{IsFitting};
ghost use Rattle.office_core.specs.History.{Happening, History, after, points, readings, settings, requests, tables, total, voids};
ghost use Rattle.office_core.specs.Leavings.{IsOfRefused, LeftBy, happened};
ghost use Rattle.office_core.specs.Legal.{Legal, MayHappen};
ghost use Rattle.office_core.specs.Loads.{known_named};
ghost use Rattle.office_core.specs.Messages.{IsMessage, happening_of};
ghost use Rattle.office_core.specs.Queries.{Writing};
ghost use Rattle.office_core.specs.Standing.{Sees};
ghost use Rattle.office_core.specs.FirstArrivals.{IsReadingOf, AreBySlot, sum_of_steps, numbers_of};
ghost use Rattle.office_core.specs.Losses.{HasReadingsOf, first_slot, last_slot};
ghost use Rattle.office_core.specs.OldHistories.{IsOld};
ghost use Rattle.office_core.specs.SameArrivals.{HaveSameArrivals, HasEqualCopies};
ghost use Rattle.office_core.specs.AskedAgain.{AgreeOnWords, HaveSameSlots};
ghost use Rattle.office_core.specs.KeptRequests.{IsFirstRequest, OrderedUnder};
ghost use Rattle.office_core.specs.SettledOrders.{IsSend, IsOldest, IsSettledBy};

/// The reading of a point in a slot is what the earliest unit gave to it that was the first reply to
/// a query of that slot; and a total is the sum of the steps from slot to slot, over the slots whose
/// readings count and that aren't voided, whatever the order in which they came.
pub fn first_arrivals()
    ensures some { (before : History) (point slot : ℕ) (reading : Reading) → Legal before
        → (reading_at (readings before) (point, slot) ≡ Some reading) ↔ IsReadingOf before point slot reading }
    ensures slots { (before : History) (known : PointRow) → (pairs : List (ℕ × ℕ)) × AreBySlot before known pairs }
    ensures total { (before : History) (known : PointRow) (pairs : List (ℕ × ℕ)) → AreBySlot before known pairs
        → total before known ≡ sum_of_steps known.point.roll (numbers_of pairs) }
{}

/// Order, repeats and delays change nothing: two histories in which callers and the office did the same,
/// and the same units came for the same queries, leave the same readings, totals and settings, where what
/// came twice for one query, for one point and slot, or for one order says the same.
pub fn order_free()
    ensures readings { (one other : History) → Legal one → Legal other → HaveSameArrivals one other → HasEqualCopies one
        → readings one ≡ readings other }
    ensures totals { (one other : History) → Legal one → Legal other → HaveSameArrivals one other → HasEqualCopies one
        → (known : PointRow) → total one known ≡ total other known }
    ensures orders { (one other : History) → Legal one → Legal other → HaveSameArrivals one other → HasEqualCopies one
        → settings one ≡ settings other }
{}

/// Asking again changes nothing: two histories with the same points, in which the same slots of a point
/// have readings, leave the same readings, and the same totals where the same slots are voided, however often
/// reads were asked and whatever was lost on the way, where any two replies that give words to one slot of a
/// point give it the same.
pub fn asked_again()
    ensures readings { (one other : History) → Legal one → Legal other → points one ≡ points other → HaveSameSlots one other → AgreeOnWords one other
        → readings one ≡ readings other }
    ensures totals { (one other : History) → Legal one → Legal other → points one ≡ points other → voids one ≡ voids other → HaveSameSlots one other → AgreeOnWords one other
        → (known : PointRow) → total one known ≡ total other known }
{}

/// Readings that are lost never raise a total. Take two histories with the same points and voids, of which the one
/// has each reading of a counter that the other has: its total is no smaller; and where the least and the
/// greatest slot that count are the same, it is greater by whole rounds of the counter, at most one for
/// each reading more that counts.
pub fn losses()
    ensures lost { (less more : History) (known : PointRow) → Legal less → Legal more → points less ≡ points more → voids less ≡ voids more
        → Contains (points less) known → HasReadingsOf more less known → total less known ≤ total more known }
    ensures rounds { (less more : History) (known : PointRow) → Legal less → Legal more → points less ≡ points more → voids less ≡ voids more
        → Contains (points less) known → HasReadingsOf more less known
        → (xs ys : List (ℕ × ℕ)) → AreBySlot less known xs → AreBySlot more known ys
        → first_slot xs ≡ first_slot ys → last_slot xs ≡ last_slot ys
        → (k : ℕ) × (total less known + k * (known.point.roll + 1) ≡ total more known) × (k + length xs ≤ length ys) }
{}

/// In a history as there were before lists could say an order of words and slots could be voided, no point has
/// its registers swapped and no slot is voided.
pub fn old_histories()
    ensures plain { (before : History) → IsOld before → All (λ (known : PointRow). known.point.order ≡ WordOrder.Big) (points before) }
    ensures unvoided { (before : History) → IsOld before → voids before ≡ [] }
{}

/// What is kept under a caller's key is the first request under it, with what became of it where it
/// stood, whatever came after.
pub fn kept_requests()
    ensures { (before : History) (key : RequestKey) (request : KeptRequest)
        → (request_at (requests before) key ≡ Some request) ↔ IsFirstRequest before key request }
{}

/// One order a key: an order has one key, and two different orders have different keys. The orders
/// are those that requests became, and they are numbered from 1 on.
pub fn one_order_a_key()
    ensures one_key { (before : History) (a b : RequestKey) (number : ℕ)
        → OrderedUnder before a number → OrderedUnder before b number → a ≡ b }
    ensures one_order { (before : History) (key : RequestKey) (m n : ℕ)
        → OrderedUnder before key m → OrderedUnder before key n → m ≡ n }
    ensures orders { (before : History) (number : ℕ)
        → IsSome (setting_at (settings before) number) ↔ ((key : RequestKey) × OrderedUnder before key number) }
    ensures numbered { (before : History) (number : ℕ)
        → IsSome (setting_at (settings before) number) ↔ ((1 ≤ number) × (number ≤ last_order (settings before))) }
{}

/// No order overtakes an older one of its device: an order is sent only while it waits and is the
/// oldest of its device that does.
pub fn no_overtaking()
    ensures { (before : History) (c n : ℕ) (w : Writing) (sending : History)
        → (send : IsSend before c n w sending) → IsOldest sending send.number }
{}

/// An order stands as the earliest reply says that is the first to one of its sends and is normal, or
/// an exception with a code other than 5 (acknowledge) and 6 (server device busy). Where none came it
/// waits, and how it stands never changes after that.
pub fn settled_orders()
    ensures settled { (before : History) (order : ℕ) (state : OrderState) → Legal before → is_waiting state ≡ false
        → ((setting : Setting) × (setting_at (settings before) order ≡ Some setting) × (setting.state ≡ state)) ↔ IsSettledBy before order state }
    ensures waits { (before : History) (order : ℕ) (setting : Setting) → Legal before
        → setting_at (settings before) order ≡ Some setting → setting.state ≡ Waiting
        → (state : OrderState) → IsSettledBy before order state → ⊥ }
    ensures never_changes { (before : History) (later : List Happening) (order : ℕ) (setting : Setting)
        → setting_at (settings before) order ≡ Some setting → is_waiting setting.state ≡ false
        → setting_at (settings (later ++ before)) order ≡ Some setting }
{}

/// Whatever comes to an office can be told as what happened: a message may happen after any history,
/// and it is seen as it came. A frame that answers the query that it names is a reply to it, and any
/// other frame is noise.
pub fn any_message()
    ensures may_happen { (before : History) (seen : Event) → IsMessage seen → MayHappen before (happening_of before seen) }
    ensures seen { (before : History) (seen : Event) → IsMessage seen → Sees before (happening_of before seen) seen }
{}

/// What an office keeps of a point has the form of its type, whatever came: its type and its scale
/// are such as there are, and each of its readings has as many registers as the type, a cell 0 or 1.
pub fn fitting_tables()
    ensures { (before : History) → Legal before → IsFitting (tables before) }
{}

/// From a history whose tables alone a crash might leave, a crash after events that were told so leaves
/// the tables of what happened, which is all that the store didn't refuse, in order; or those of what
/// happened before one event that the store refused, and then that event, where nothing that happened
/// after it changed a table. It may leave each of these, and nothing else.
pub fn crash_leavings()
    ensures { (before : History) (rest : List Happening) (told : List EventAnswer) (left : Tables)
        → LeftBy before (λ kept. kept ≡ tables before) rest told left
        ↔ ((left ≡ tables (after before (happened rest told))) ⊎ IsOfRefused before rest told left) }
{}

/// The points that were accepted can be read: each ends by the last address.
pub fn readable_points()
    ensures { (before : History) → Legal before → All (λ known. CanBeRead known.point) (points before) }
{}

/// Each known point is the one of its number and the one of its name, and the first has number 1. So who asks by the
/// number of a row is told what is told by its name.
pub fn numbered_points()
    ensures numbers { (before : History) (place : ℕ) (known : PointRow) → slice_get (points before) place ≡ Some known
        → known.number ≡ place + 1 }
    ensures numbered { (before : History) (known : PointRow) → Contains (points before) known
        → point_at (points before) known.number ≡ Some known }
    ensures named { (before : History) (known : PointRow) → Contains (points before) known
        → known_named (points before) known.point.name ≡ Some known }
{}
