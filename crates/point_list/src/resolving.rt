//! Points by model, at the addresses that a site's chains give them.
ghost use Rattle.std.specs.Prelude.{◌≡◌, ◌≤◌, ◌+◌, ◌⊎◌, ◌==◌, Err, IfErr, IfOk, IfSome, List, MatchResult, None, Ok, Some, length, map};
ghost use Rattle.std.specs.List.{find};
ghost use Rattle.point_list.specs.Columns.{◌then◌};
ghost use Rattle.point_list.specs.Edition.{Second};
ghost use Rattle.point_list.specs.Lists.{IsMemory, point_limit, records_of};
ghost use Rattle.point_list.specs.Resolving.{ArePointsOf, first_misplaced, list_at, misplaced, model_at, point_placed};
ghost use Rattle.point_list.specs.Sites.{IsSound};
ghost use Rattle.point_list.specs.declared.point.ListRow.{ListRow};

use crate::error::{ListError, ListFault};
use crate::list::{MOST_POINTS, read_list};
use crate::point::{ListRow, Point};
use crate::site::Site;
use std::alloc::Global;
use sunspec::Model;

/// The first of these models that has the identifier.
fn model_of_id(models: &[Model], id: u16) -> Option<Model>
    ensures { result ≡ find (λ model. model.id == id) models.now }
{
    models.iter().copied().find(|model| model.id == id)
}

/// The model of an identifier that a device of the site has.
fn model_at(site: &Site, device: &str, id: u16) -> Option<Model>
    requires { IsSound site.now }
    ensures model { result ≡ model_at site.now device.now id }
    ensures room { IfSome result (λ model. model.address + 2 + model.length ≤ 65535) }
{
    let Some(device) = site.device(device) else {
        return None;
    };
    model_of_id(device.models.as_slice(), id)
}

/// The point of a row at its address, or why it has none.
fn placed(site: &Site, row: &ListRow) -> Result<Point, ListError>
    requires { IsSound site.now }
    ensures { MatchResult result
        (λ point. (misplaced site.now row.now ≡ None) × (point ≡ point_placed site.now row.now))
        (λ e. misplaced site.now row.now ≡ Some e) }
{
    let Some((id, offset)) = row.model else {
        return Ok(row.point);
    };
    let Some(model) = model_at(site, row.point.device.as_str(), id) else {
        return Err(ListError::new(ListFault::NoModel, row.row, 4));
    };
    if offset as u32 + row.point.kind.registers() as u32 > model.length as u32 + 2 {
        return Err(ListError::new(ListFault::PastModel, row.row, 4));
    }
    Ok(Point {
        address: model.address + offset,
        ..row.point
    })
}

/// The points of a list's rows, in their order. One that is placed by a model gets its address from
/// the first model of that identifier which the site has for its device: `NoModel` where there is
/// none, `PastModel` where the point's registers aren't all among those of the model, at the first
/// row of which one of them holds, both with column 4.
pub fn resolve(alloc: Global, rows: Vec<ListRow>, site: &Site) -> Result<Vec<Point>, ListError>
    requires { IsSound site.now }
    ensures points { IfOk result (λ v. (first_misplaced site.now rows.items ≡ None) × (v.items ≡ map (point_placed site.now) rows.items)) }
    ensures fault { IfErr result (λ e. IsMemory e ⊎ (first_misplaced site.now rows.items ≡ Some e)) }
{
    let mut points = Vec::new(alloc);
    // Room for all at once; where that is refused, it is asked for as points come.
    let _ = points.reserve(rows.len().min(MOST_POINTS));
    for row in rows.as_slice() {
        let point = placed(site, row)?;
        if points.push(point).is_err() {
            return Err(ListError::memory());
        }
    }
    Ok(points)
}

/// The points of a point list at a site, in the order of its records: `read_list`, and then `resolve`.
pub fn read_points(alloc: Global, bytes: &[u8], site: &Site) -> Result<Vec<Point>, ListError>
    requires { IsSound site.now }
    ensures points { IfOk result (λ v. (rows : List ListRow) × (list_at Second site.now (records_of bytes.now) ≡ Ok rows) × ArePointsOf rows v.items) }
    ensures few { IfOk result (λ v. length v.items ≤ point_limit) }
    ensures fault { IfErr result (λ e. IsMemory e ⊎ (list_at Second site.now (records_of bytes.now) ≡ Err e)) }
{
    match read_list(alloc, bytes, site) {
        Ok(rows) => resolve(alloc, rows, site),
        Err(e) => Err(e),
    }
}
