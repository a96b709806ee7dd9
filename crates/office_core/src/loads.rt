//! What becomes of a list that is loaded.
ghost use Rattle.std.specs.Prelude.{◌≡◌, ◌≢◌, ◌≤◌, ◌+◌, [], List, length, option_map, None, Some, IfOk, IfErr, IfSome, OnOk, Ok, Err};
ghost use Rattle.std.specs.List.{position};
ghost use Rattle.std.specs.Str.{bytes_eq};
ghost use Rattle.point_list.specs.Edition.{Second};
ghost use Rattle.point_list.specs.Lists.{point_limit};
ghost use Rattle.point_list.specs.Resolving.{ArePointsOf};
ghost use Rattle.point_list.specs.Sites.{IsSound};
ghost use Rattle.point_list.specs.declared.point.ListRow.{ListRow};
ghost use Rattle.office_core.specs.ByName.{AreNamesOf};
ghost use Rattle.office_core.specs.Loads as loads;

use crate::by_name::ByName;
use point_list::{
    ListError, ListFault, MOST_POINTS, Point, SEARCHES_OF_A_SORT, Site, is_same_name, read_points,
};
use poll_book::{Outcome, PointRow, Reason, RequestFault, StoreFault};
use std::alloc::{AllocError, Global};

fn place_named(known: &[PointRow], name: &[u8]) -> Option<usize>
    ensures { result ≡ position (λ point. bytes_eq point.point.name name.now) known.now }
{
    known
        .iter()
        .position(|point| is_same_name(point.point.name.as_bytes(), name))
}

/// The known point of a name.
#[inline(always)]
pub(crate) fn known_named(known: &[PointRow], name: &[u8]) -> Option<PointRow>
    ensures { result ≡ loads.known_named known.now name.now }
{
    let place = place_named(known, name)?;
    Some(known[place])
}

fn is_same_meaning(a: &Point, b: &Point) -> bool
    ensures { result ≡ loads.same_meaning a.now b.now }
{
    a.kind.code() == b.kind.code()
        && a.kind.registers() == b.kind.registers()
        && a.scale == b.scale
        && a.order == b.order
}

fn is_same_point(a: &Point, b: &Point) -> bool
    ensures { result ≡ loads.same_point a.now b.now }
{
    a.name == b.name
        && a.device == b.device
        && a.table == b.table
        && a.address == b.address
        && is_same_meaning(a, b)
        && a.role == b.role
        && a.roll == b.roll
}

/// The rows of the points that aren't known, numbered on, or the number of the first row of a list whose name is
/// known with another definition. The first row is the second record. Each name is looked for once.
fn new_points(
    alloc: Global,
    known: &[PointRow],
    names: &ByName,
    points: &[Point],
) -> Result<Result<Vec<PointRow>, u32>, AllocError>
    requires names_of { AreNamesOf known.now names.now }
    requires many { length known.now ≤ point_limit }
    requires few { length points.now ≤ point_limit }
    ensures rows { IfOk result (λ told. IfOk told (λ rows. rows.items ≡ loads.numbered_on (length known.now) (loads.unknown_of known.now points.now))) }
    ensures agree { IfOk result (λ told. OnOk told ((rows : List ListRow) → ArePointsOf rows points.now
        → None ≡ option_map (λ row. row.row) (loads.differing known.now rows))) }
    ensures differ { IfOk result (λ told. IfErr told (λ row. (rows : List ListRow) → ArePointsOf rows points.now
        → Some row ≡ option_map (λ row. row.row) (loads.differing known.now rows))) }
{
    let mut rows = Vec::new(alloc);
    let mut row = 2u32;
    for point in points {
        match names.find(known, point.name.as_bytes()) {
            Some(there) => {
                if !is_same_point(&there.point, point) {
                    return Ok(Err(row));
                }
            }
            None => {
                let number = (known.len() + rows.len()) as u32 + 1;
                rows.push(PointRow {
                    number,
                    point: *point,
                })?;
            }
        }
        row += 1;
    }
    Ok(Ok(rows))
}

fn refused(fault: RequestFault, row: u32, column: u8) -> Outcome
    ensures { result ≡ loads.outcome (loads.Refused (record { fault = fault; row = row; column = column })) }
{
    Outcome::RefusedFor(Reason { fault, row, column })
}

/// All known points by name, if so many rows pay for it and what there is doesn't serve. It is refused where there is no
/// memory for that.
fn all_names(
    alloc: Global,
    known: &[PointRow],
    names: &ByName,
    rows: usize,
) -> Result<Option<ByName>, AllocError>
    requires many { length known.now ≤ point_limit }
    ensures { IfOk result (λ made. IfSome made (AreNamesOf known.now)) }
{
    if rows < SEARCHES_OF_A_SORT || names.is_ready(known) {
        return Ok(None);
    }
    let mut all = ByName::new(alloc);
    all.catch_up(known, known.len())?;
    Ok(Some(all))
}

/// What becomes of a list of these points, and the rows of those that it adds.
fn judge_known(
    alloc: Global,
    known: &[PointRow],
    names: &ByName,
    points: &[Point],
) -> Result<(Outcome, Vec<PointRow>), StoreFault>
    requires names_of { AreNamesOf known.now names.now }
    requires many { length known.now ≤ point_limit }
    requires few { length points.now ≤ point_limit }
    ensures outcome { IfOk result (λ x. (rows : List ListRow) → ArePointsOf rows points.now → x.0 ≡ loads.outcome (loads.loading_of known.now (Ok rows))) }
    ensures added { IfOk result (λ x. (rows : List ListRow) → ArePointsOf rows points.now → x.1.items ≡ loads.added (length known.now) (loads.loading_of known.now (Ok rows))) }
    ensures few { IfOk result (λ x. length known.now + length x.1.items ≤ point_limit) }
    ensures memory { IfErr result (λ e. e ≡ StoreFault.Memory) }
{
    let new = match new_points(alloc, known, names, points)? {
        Ok(new) => new,
        Err(row) => {
            return Ok((refused(RequestFault::PointDiffers, row, 1), Vec::new(alloc)));
        }
    };
    if known.len() + new.len() > MOST_POINTS {
        let fault = RequestFault::List(ListFault::TooManyPoints);
        return Ok((refused(fault, 0, 0), Vec::new(alloc)));
    }
    Ok((Outcome::Loaded(points.len() as u32), new))
}

/// What becomes of a list.
#[derive(Drop)]
pub(crate) struct Judged {
    pub(crate) outcome: Outcome,
    /// The rows of the points that it adds.
    pub(crate) points: Vec<PointRow>,
    /// All points that were known before by name, where the list put them together. They are kept once its change is
    /// written: what a list that is refused has taken is given back.
    pub(crate) names: Option<ByName>,
}

/// What becomes of a list of these points.
fn judge_points(
    alloc: Global,
    known: &[PointRow],
    names: &ByName,
    points: &[Point],
) -> Result<Judged, StoreFault>
    requires names_of { AreNamesOf known.now names.now }
    requires many { length known.now ≤ point_limit }
    requires few { length points.now ≤ point_limit }
    ensures names_of { IfOk result (λ x. IfSome x.names (AreNamesOf known.now)) }
    ensures outcome { IfOk result (λ x. (rows : List ListRow) → ArePointsOf rows points.now → x.outcome ≡ loads.outcome (loads.loading_of known.now (Ok rows))) }
    ensures added { IfOk result (λ x. (rows : List ListRow) → ArePointsOf rows points.now → x.points.items ≡ loads.added (length known.now) (loads.loading_of known.now (Ok rows))) }
    ensures few { IfOk result (λ x. length known.now + length x.points.items ≤ point_limit) }
    ensures memory { IfErr result (λ e. e ≡ StoreFault.Memory) }
{
    let all = all_names(alloc, known, names, points.len())?;
    let judged = match &all {
        Some(all) => judge_known(alloc, known, all, points),
        None => judge_known(alloc, known, names, points),
    };
    let (outcome, points) = judged?;
    Ok(Judged {
        outcome,
        points,
        names: all,
    })
}

fn judge_fault(alloc: Global, error: ListError) -> Result<Judged, StoreFault>
    ensures outcome { IfOk result (λ x. x.outcome ≡ loads.outcome (loads.Refused (loads.list_reason error))) }
    ensures added { IfOk result (λ x. x.points.items ≡ []) }
    ensures names { IfOk result (λ x. x.names ≡ None) }
    ensures fault { OnOk result (error.fault ≢ ListFault.Memory) }
    ensures memory { IfErr result (λ e. e ≡ StoreFault.Memory) }
{
    match error.fault {
        ListFault::Memory => Err(StoreFault::Memory),
        fault => Ok(Judged {
            outcome: refused(RequestFault::List(fault), error.row, error.column),
            points: Vec::new(alloc),
            names: None,
        }),
    }
}

/// What becomes of a list by a site and the points that are known.
pub(crate) fn judge_list(
    alloc: Global,
    site: &Site,
    known: &[PointRow],
    names: &ByName,
    list: &[u8],
) -> Result<Judged, StoreFault>
    requires sound { IsSound site.now }
    requires names_of { AreNamesOf known.now names.now }
    requires many { length known.now ≤ point_limit }
    ensures names_of { IfOk result (λ x. IfSome x.names (AreNamesOf known.now)) }
    ensures outcome { IfOk result (λ x. x.outcome ≡ loads.outcome (loads.loading Second site.now known.now list.now)) }
    ensures added { IfOk result (λ x. x.points.items ≡ loads.added (length known.now) (loads.loading Second site.now known.now list.now)) }
    ensures few { IfOk result (λ x. length known.now + length x.points.items ≤ point_limit) }
    ensures memory { IfErr result (λ e. e ≡ StoreFault.Memory) }
{
    match read_points(alloc, list, site) {
        Ok(points) => judge_points(alloc, known, names, points.as_slice()),
        Err(error) => judge_fault(alloc, error),
    }
}
