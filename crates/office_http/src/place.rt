//! The parts of a target.
ghost use Rattle.std.specs.Prelude.{◌≡◌, ◌++◌, ℕ, List, IfSome, IfNone, codes};
ghost use Rattle.office_http.specs.declared.routes.Routes.{Routes as Offered};
ghost use Rattle.office_http.specs.Routes.{the_routes};
ghost use Rattle.office_http.specs.Places.{IsPlain, Names, spell};
ghost use Rattle.office_http.specs.Found.{place_of};

use crate::heard::Page;
use crate::routes::{Route, route_for};
use matchit::Router;

/// What a target names.
#[derive(Clone, Copy)]
pub(crate) enum Place<'t> {
    Orders {
        caller: &'t str,
        key: &'t str,
    },
    Lists {
        caller: &'t str,
        key: &'t str,
    },
    Voids {
        caller: &'t str,
        key: &'t str,
    },
    Readings {
        point: &'t str,
        from: &'t str,
        to: &'t str,
    },
    Total {
        point: &'t str,
    },
    Report {
        point: &'t str,
        from: &'t str,
        to: &'t str,
    },
    Page(Page),
    Device {
        place: &'t str,
    },
}

/// What stands before the first slash, and behind it.
fn at_slash<'t>(text: &'t str) -> Option<(&'t str, &'t str)>
    ensures some { IfSome result (λ x. (text.now ≡ spell x.0.now x.1.now) × IsPlain x.0.now) }
    ensures none { IfNone result ((a b : List ℕ) → text.now ≡ spell a b → ⊥) }
{
    text.split_once('/')
}

/// What stands behind a front.
fn behind<'t>(text: &'t str, front: &str) -> Option<&'t str>
    ensures some { IfSome result (λ rest. text.now ≡ front.now ++ rest.now) }
    ensures none { IfNone result ((rest : List ℕ) → text.now ≡ front.now ++ rest → ⊥) }
{
    text.strip_prefix(front)
}

/// What stands between a front and the first slash after it, and what stands behind the second front.
fn parts<'t>(target: &'t str, front: &str, second: &str) -> Option<(&'t str, &'t str)>
    ensures some { IfSome result (λ x. (target.now ≡ front.now ++ spell x.0.now (second.now ++ x.1.now)) × IsPlain x.0.now) }
    ensures none { IfNone result ((a b : List ℕ) → target.now ≡ front.now ++ spell a (second.now ++ b) → IsPlain a → ⊥) }
{
    let rest = behind(target, front)?;
    let Some((first, more)) = at_slash(rest) else {
        return None;
    };
    let Some(last) = behind(more, second) else {
        return None;
    };
    Some((first, last))
}

/// What stands before a back.
fn before<'t>(text: &'t str, back: &str) -> Option<&'t str>
    ensures some { IfSome result (λ rest. text.now ≡ rest.now ++ back.now) }
    ensures none { IfNone result ((rest : List ℕ) → text.now ≡ rest ++ back.now → ⊥) }
{
    text.strip_suffix(back)
}

/// What stands between the front and the back of a target.
fn middle<'t>(target: &'t str, front: &str, back: &str) -> Option<&'t str>
    ensures some { IfSome result (λ m. target.now ≡ front.now ++ (m.now ++ back.now)) }
    ensures none { IfNone result ((m : List ℕ) → target.now ≡ front.now ++ (m ++ back.now) → ⊥) }
{
    let rest = behind(target, front)?;
    let Some(part) = before(rest, back) else {
        return None;
    };
    Some(part)
}

/// A point and two slots, with that between the point and the slots.
fn range<'t>(target: &'t str, second: &str) -> Option<(&'t str, &'t str, &'t str)>
    ensures some { IfSome result (λ x. (target.now ≡ codes "/points/" ++ spell x.0.now (second.now ++ spell x.1.now x.2.now)) × IsPlain x.0.now × IsPlain x.1.now) }
    ensures none { IfNone result ((a b c : List ℕ) → target.now ≡ codes "/points/" ++ spell a (second.now ++ spell b c) → IsPlain a → ⊥) }
{
    let (point, slots) = parts(target, "/points/", second)?;
    let Some((from, to)) = at_slash(slots) else {
        return None;
    };
    Some((point, from, to))
}

/// What a target names of the routes that the router has, if it is one of them.
pub(crate) fn place_of<'t>(router: &Router<Route>, target: &'t str) -> Option<Place<'t>>
    ensures { (routes : Offered) → router.now ≡ the_routes routes → Names routes target.now (place_of result) }
{
    match route_for(router, target)? {
        Route::Orders => {
            let (caller, key) = parts(target, "/callers/", "orders/")?;
            Some(Place::Orders { caller, key })
        }
        Route::Lists => {
            let (caller, key) = parts(target, "/callers/", "lists/")?;
            Some(Place::Lists { caller, key })
        }
        Route::Voids => {
            let (caller, key) = parts(target, "/callers/", "voids/")?;
            Some(Place::Voids { caller, key })
        }
        Route::Readings => {
            let (point, from, to) = range(target, "readings/")?;
            Some(Place::Readings { point, from, to })
        }
        Route::Total => {
            let point = middle(target, "/points/", "/total")?;
            Some(Place::Total { point })
        }
        Route::Report => {
            let (point, from, to) = range(target, "report/")?;
            Some(Place::Report { point, from, to })
        }
        Route::Page(page) => Some(Place::Page(page)),
        Route::Device => {
            let place = behind(target, "/devices/")?;
            Some(Place::Device { place })
        }
    }
}
