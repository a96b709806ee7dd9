//! The routes of an office.
ghost use Rattle.std.specs.Prelude.{◌≡◌, IfOk, OnOk};
ghost use Rattle.matchit.specs.Seek.{first};
ghost use Rattle.office_http.specs.Routes.{caller_routes, page_routes, point_routes, the_routes, value_of, with_route};

use crate::heard::Page;
use matchit::Router;
use std::alloc::{AllocError, Global};

/// Which routes are offered.
#[derive(Clone, Copy, Debug, PartialEq, Eq)]
pub enum Routes {
    /// Lists, orders and voids of callers, readings and totals of points.
    Basic,
    /// These, reports of points, and pages.
    Extended,
}

/// What a target asks for.
#[derive(Clone, Copy)]
pub(crate) enum Route {
    Orders,
    Lists,
    Voids,
    Readings,
    Total,
    Report,
    Page(Page),
    Device,
}

fn add(router: &mut Router<Route>, pattern: &str, route: Route) -> Result<(), AllocError>
    ensures { OnOk result (router.new ≡ with_route pattern.now route router.old) }
{
    match router.insert(pattern, route) {
        Ok(()) => Ok(()),
        Err(_) => Err(AllocError),
    }
}

fn add_callers(router: &mut Router<Route>) -> Result<(), AllocError>
    ensures { OnOk result (router.new ≡ caller_routes router.old) }
{
    add(router, "/callers/{caller}/orders/{key}", Route::Orders)?;
    add(router, "/callers/{caller}/lists/{key}", Route::Lists)?;
    add(router, "/callers/{caller}/voids/{key}", Route::Voids)?;
    Ok(())
}

fn add_points(router: &mut Router<Route>) -> Result<(), AllocError>
    ensures { OnOk result (router.new ≡ point_routes router.old) }
{
    add(
        router,
        "/points/{point}/readings/{from}/{to}",
        Route::Readings,
    )?;
    add(router, "/points/{point}/total", Route::Total)?;
    Ok(())
}

fn add_pages(router: &mut Router<Route>) -> Result<(), AllocError>
    ensures { OnOk result (router.new ≡ page_routes router.old) }
{
    add(router, "/points", Route::Page(Page::Points))?;
    add(router, "/metrics", Route::Page(Page::Metrics))?;
    add(router, "/", Route::Page(Page::Office))?;
    Ok(())
}

/// A router of these routes.
pub(crate) fn router_of(alloc: Global, routes: Routes) -> Result<Router<Route>, AllocError>
    ensures { IfOk result (λ router. router ≡ the_routes routes) }
{
    let mut router = Router::new(alloc);
    add_callers(&mut router)?;
    add_points(&mut router)?;
    match routes {
        Routes::Basic => Ok(router),
        Routes::Extended => {
            add(
                &mut router,
                "/points/{point}/report/{from}/{to}",
                Route::Report,
            )?;
            add_pages(&mut router)?;
            add(&mut router, "/devices/{place}", Route::Device)?;
            Ok(router)
        }
    }
}

/// The route of a target.
pub(crate) fn route_for(router: &Router<Route>, target: &str) -> Option<Route>
    ensures { result ≡ value_of (first router.now target.now) }
{
    match router.at(target) {
        Ok(found) => Some(*found.value),
        Err(_) => None,
    }
}
