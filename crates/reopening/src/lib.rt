//! What an office stands for that is opened again on what a crash left of another.
//!
//! The calls are those that the program makes as it opens a store; `docs/PROVED.md` says what they promise together.
#![tactic(auto)]

ghost use Rattle.std.specs.Prelude.{◌≡◌, [], ◌∷◌, List, false, IfErr, IfOk, IfSome, IsTrue, MatchResult};
ghost use Rattle.sqlite.specs.Held.{state};
ghost use Rattle.sqlite.specs.State.{HasCleanDisk};
ghost use Rattle.poll_book.specs.Tables.{Tables, no_tables};
ghost use Rattle.office_store.specs.Earlier.{WasHeld};
ghost use Rattle.office_store.specs.Kept.{Holds, IsHeld, MayLeave};
ghost use Rattle.office_store.specs.Keepers.{IsKeptBy, connection_of};
ghost use Rattle.office_core.specs.History.{Happening, History, Restart, tables};
ghost use Rattle.office_core.specs.Leavings.{IsTold};
ghost use Rattle.office_core.specs.Offices.{Stands, keeper_of};
ghost use Rattle.point_list.specs.Sites.{IsSound};
ghost use Rattle.reopening.specs.Leftover.{IsLeftOf};
ghost use Rattle.reopening.specs.Making.{IsBareOrEmpty, IsLeftByMaking, IsRefusal};

use office_core::{Event, EventAnswer, Office, OfficeError};
use office_store::{SqlKeeper, StoreError, create, laws, migrate};
use point_list::Site;
use sqlite::{Alter, Connection};
use std::alloc::Global;

/// An office over the tables of a connection, if it is one's and fits the site.
pub fn over<S: Alter + Drop>(
    alloc: Global,
    connection: Connection<S>,
    site: Site,
) -> Option<Office<SqlKeeper<S>>>
    requires { IsSound site }
    ensures stands { IfSome result (λ office. HasCleanDisk (state S.Store (connection_of (keeper_of office))) → (before : History)
        → Holds (state S.Store connection) (tables before) → Stands office (Restart site ∷ before)) }
    ensures leaves { IfSome result (λ office. HasCleanDisk (state S.Store (connection_of (keeper_of office))) → (left : Tables)
        → MayLeave (state S.Store (connection_of (keeper_of office))) left → MayLeave (state S.Store connection) left) }
    ensures clean { IfSome result (λ office. HasCleanDisk (state S.Store (connection_of (keeper_of office))) → HasCleanDisk (state S.Store connection)) }
    ensures was_open { IfSome result (λ office. HasCleanDisk (state S.Store (connection_of (keeper_of office))) → IsTrue (state S.Store connection).is_open) }
    ensures settled { IfSome result (λ _. IsTrue (state S.Store connection).is_open → (state S.Store connection).now ≡ (state S.Store connection).committed) }
{
    let Ok(keeper) = SqlKeeper::open(connection) else {
        return None;
    };
    match Office::new(alloc, keeper, site) {
        Ok(office) => Some(office),
        Err(_) => None,
    }
}

/// Runs events in an office over a connection's tables, and opens an office again over what another
/// connection found: what the office answered, it, and the other.
///
/// Where a crash of the first may leave what the second connection found, the other office stands for
/// the events that were answered without a refusal of the store, or for those and one more, whole,
/// followed by a restart.
pub fn run_and_reopen<S: Alter + Drop>(
    alloc: Global,
    connection: Connection<S>,
    site: Site,
    events: &[Event],
    found: Connection<S>,
    site_again: Site,
) -> Option<(Vec<EventAnswer>, Office<SqlKeeper<S>>, Office<SqlKeeper<S>>)>
    requires first { IsSound site }
    requires again { IsSound site_again }
    ensures { IfSome result (λ it. HasCleanDisk (state S.Store (connection_of (keeper_of it.1))) → HasCleanDisk (state S.Store (connection_of (keeper_of it.2)))
        → (before : History) (rest : List Happening) → Holds (state S.Store connection) (tables before) → IsTold (Restart site ∷ before) rest events.now it.0.items
        → (state S.Store (connection_of (keeper_of it.1))).may_leave (state S.Store found).now.trees
        → (left : History) × Stands it.2 (Restart site_again ∷ left) × IsLeftOf (Restart site ∷ before) rest it.0.items left) }
{
    laws::stands_once();
    laws::office_or_not();
    laws::lists_office();
    let _ = connection.schema();
    let _ = found.schema();
    let mut office = over(alloc, connection, site)?;
    let Ok(told) = office.run(events) else {
        return None;
    };
    let again = over(alloc, found, site_again)?;
    Some((told, office, again))
}

/// Makes an office's tables. What a stop of that may leave, as another connection shows it, has no table, or it is an
/// office that knows nothing.
fn make_beside<S: Alter>(fresh: &mut Connection<S>, found: &Connection<S>)
    requires idle { fresh.old.in_transaction ≡ false }
    requires found_idle { found.now.in_transaction ≡ false }
    ensures { IsLeftByMaking (state S.Store fresh.old) (state S.Store fresh.new) (state S.Store found.now).now.trees → IsTrue (state S.Store found.now).is_open
        → IsBareOrEmpty (state S.Store found.now) }
{
    let _ = fresh.is_autocommit();
    let _ = fresh.schema();
    let _ = found.is_autocommit();
    let _ = found.schema();
    // Whatever it answers: a stop inside it doesn't come to that.
    let _ = create(fresh);
}

/// Makes an office's tables on a connection whose database has none, and opens an office over what another connection
/// found: the office, or why it isn't opened.
///
/// Where a stop before the making, inside it or behind it may leave what the second connection found, that has no
/// table, or it is an office that knows nothing. Only the latter is opened. What isn't opened is refused as no office,
/// for want of a table or for a limit on steps, or by a fault of the store itself, and never for its version.
pub fn create_and_reopen<S: Alter + Drop>(
    alloc: Global,
    fresh: &mut Connection<S>,
    found: Connection<S>,
    site: Site,
) -> Result<Result<Office<SqlKeeper<S>>, (OfficeError, SqlKeeper<S>)>, (StoreError, Connection<S>)>
    requires sound { IsSound site }
    requires idle { fresh.old.in_transaction ≡ false }
    requires found_idle { found.in_transaction ≡ false }
    ensures left { IsLeftByMaking (state S.Store fresh.old) (state S.Store fresh.new) (state S.Store found).now.trees → IsTrue (state S.Store found).is_open
        → IsBareOrEmpty (state S.Store found) }
    ensures opened { IsLeftByMaking (state S.Store fresh.old) (state S.Store fresh.new) (state S.Store found).now.trees → IfOk result (λ made. MatchResult made
        (λ office. HasCleanDisk (state S.Store (connection_of (keeper_of office))) → IsHeld (state S.Store found) no_tables × Stands office (Restart site ∷ []))
        (λ error. HasCleanDisk (state S.Store (connection_of error.1)) → IsHeld (state S.Store found) no_tables × IsKeptBy error.1 no_tables)) }
    ensures refused { IsLeftByMaking (state S.Store fresh.old) (state S.Store fresh.new) (state S.Store found).now.trees → IfErr result (λ error.
        HasCleanDisk (state S.Store error.1) → IsRefusal (state S.Store found) (state S.Store error.1) error.0) }
{
    make_beside(fresh, &found);
    match SqlKeeper::open(found) {
        Ok(keeper) => Ok(Office::new(alloc, keeper, site)),
        Err(error) => Err(error),
    }
}

/// Makes an office's tables of those of version 1, and opens an office over them, if it fits the site.
///
/// It stands for what the earlier tables stood for, followed by a restart, and a crash leaves that.
pub fn migrate_and_open<S: Alter + Drop>(
    alloc: Global,
    mut connection: Connection<S>,
    site: Site,
) -> Option<Office<SqlKeeper<S>>>
    requires sound { IsSound site }
    requires idle { connection.in_transaction ≡ false }
    ensures stands { IfSome result (λ office. HasCleanDisk (state S.Store (connection_of (keeper_of office))) → (before : History)
        → WasHeld (state S.Store connection) (tables before) → Stands office (Restart site ∷ before)) }
    ensures leaves { IfSome result (λ office. HasCleanDisk (state S.Store (connection_of (keeper_of office))) → (before : History)
        → WasHeld (state S.Store connection) (tables before) → (left : Tables) → MayLeave (state S.Store (connection_of (keeper_of office))) left → left ≡ tables before) }
{
    laws::stands_once();
    if migrate(&mut connection).is_err() {
        return None;
    }
    over(alloc, connection, site)
}
