//! Laws of the definitions alone.
ghost use Rattle.std.specs.Prelude.{◌≡◌, ◌⊎◌, ◌≤◌, ℕ, Contains, List, Some, false, true};
ghost use Rattle.read_planner.specs.declared.Read.{Read as AskedRead};
ghost use Rattle.poll_book.specs.declared.rows.Setting.{Setting};
ghost use Rattle.office_core.specs.History.{History};
ghost use Rattle.office_core.specs.Legal.{Legal};
ghost use Rattle.office_core.specs.Lacking.{lacks};
ghost use Rattle.office_net.specs.declared.job.LineJob.TheVariants.{Order, Read};
ghost use Rattle.office_net.specs.Moves.{IsRun, Move, Start, is_due, jobs_in, next_order, told, waiting_in};
ghost use Rattle.office_net.specs.Rounds.{most_of};
ghost use Rattle.office_net.specs.Turned.{AllAsked, IsAsked, IsSent, IsSettled};

/// After any move of a round at most as many of its queries wait as may. What came before a move of a
/// round is a round's too, so this speaks of every moment.
pub fn at_most_outstanding()
    ensures { (start : Start) (moves : List Move) → IsRun start moves → waiting_in start moves ≤ start.most }
{}

/// As many may as the site says of the connection's line, which after any history that may be is 1
/// to 16.
pub fn one_to_sixteen()
    ensures { (before : History) (conn : ℕ) → Legal before → (1 ≤ most_of before conn) × (most_of before conn ≤ 16) }
{}

/// A round makes a query only for what was due as it began: no read is asked whose points all had a
/// reading then, and no order is sent to a device on which none waited.
pub fn asks_what_was_due()
    ensures { (start : Start) (moves : List Move) → IsRun start moves → AllAsked (λ job. is_due start.slot start.before job ≡ true) moves }
{}

/// Where each job had its turn, each read was asked or all its points have a reading.
pub fn reads_were_asked()
    ensures { (start : Start) (moves : List Move) (device : List ℕ) (read : AskedRead)
        → IsRun start moves → jobs_in moves ≡ start.jobs → Contains start.jobs (Read device read)
        → IsAsked (Read device read) moves ⊎ (lacks (told start moves) device start.slot read ≡ false) }
{}

/// Where each job had its turn, of each device the oldest order that waited as the round began was
/// sent, or it waits no longer.
pub fn orders_were_sent()
    ensures { (start : Start) (moves : List Move) (device : List ℕ) (order : ℕ) (setting : Setting)
        → IsRun start moves → jobs_in moves ≡ start.jobs → Contains start.jobs (Order device)
        → next_order start.before device ≡ Some (order, setting)
        → IsSent start order moves ⊎ IsSettled (told start moves) order }
{}
