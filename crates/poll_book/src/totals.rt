//! Totals by the numbers of their points.
ghost use Rattle.std.specs.Prelude.{◌≡◌, ℕ, ◌+◌, ◌<◌, ◌≤◌, [], ◌∷◌, IfOk, IfErr, length, vec_len, vec_capacity};
ghost use Rattle.poll_book.specs.Tables.{with_sum, with_sums};
ghost use Rattle.poll_book.specs.Totals as counting;
ghost use Rattle.poll_book.specs.Totals.{totals_of};
ghost use Rattle.poll_book.specs.Changes.{as_sums};
ghost use Rattle.poll_book.specs.Histories.{IsAt, IsGap, IsRising};
ghost use Rattle.poll_book.specs.Marks.{total_point};

use crate::keyed::{Keyed, place_numbered};
use crate::rows::{PointRow, TotalRow};
use point_list::Role;

impl Keyed for TotalRow {
    ghost key_of = { total_point };

    fn key(&self) -> u32 {
        self.point
    }
}

/// Where the total of a point stands, or where it would go. Points are numbered from 1, and all may be counters.
fn total_place(totals: &[TotalRow], point: u32) -> Result<usize, usize>
    requires { IsRising total_point totals.now }
    ensures found { IfOk result (IsAt total_point totals.now point) }
    ensures absent { IfErr result (IsGap total_point totals.now point) }
{
    place_numbered(totals, point)
}

/// What is stored of a point; 0 of one that has no row.
pub(crate) fn stored_total(totals: &[TotalRow], point: u32) -> u128
    requires { IsRising total_point totals.now }
    ensures { result ≡ counting.stored_total (as_sums totals.now) point }
{
    match total_place(totals, point) {
        Ok(place) => totals[place].total,
        Err(_) => 0,
    }
}

/// Puts a total under its point. There is room for one more.
fn put_total(totals: &mut Vec<TotalRow>, row: TotalRow)
    requires rising { IsRising total_point totals.old.items }
    requires room { vec_len totals.old < vec_capacity totals.old }
    ensures rising { IsRising total_point totals.new.items }
    ensures put { as_sums totals.new.items ≡ with_sum row.point row.total (as_sums totals.old.items) }
    ensures longer { vec_len totals.new ≤ vec_len totals.old + 1 }
    ensures capacity { vec_capacity totals.old ≤ vec_capacity totals.new }
{
    match total_place(totals, row.point) {
        Ok(place) => totals[place] = row,
        Err(place) => {
            let _ = totals.insert(place, row);
        }
    }
}

/// Puts totals under their points, where there is room for all. Of two of one point the first stays.
pub(crate) fn put_totals(totals: &mut Vec<TotalRow>, rows: &[TotalRow])
    requires rising { IsRising total_point totals.old.items }
    requires room { vec_len totals.old + length rows.now ≤ vec_capacity totals.old }
    ensures rising { IsRising total_point totals.new.items }
    ensures put { as_sums totals.new.items ≡ with_sums (as_sums rows.now) (as_sums totals.old.items) }
{
    let mut left = rows.len();
    while left > 0 {
        left -= 1;
        put_total(totals, rows[left]);
    }
}

/// Puts the total 0 if the point is a counter. There is room for one more.
fn begin_total(totals: &mut Vec<TotalRow>, point: &PointRow)
    requires rising { IsRising total_point totals.old.items }
    requires room { vec_len totals.old < vec_capacity totals.old }
    ensures rising { IsRising total_point totals.new.items }
    ensures put { as_sums totals.new.items ≡ with_sums (totals_of (point.now ∷ []) []) (as_sums totals.old.items) }
    ensures longer { vec_len totals.new ≤ vec_len totals.old + 1 }
    ensures capacity { vec_capacity totals.old ≤ vec_capacity totals.new }
{
    if let Role::Counter = point.point.role {
        put_total(
            totals,
            TotalRow {
                point: point.number,
                total: 0,
            },
        );
    }
}

/// Puts the total 0 for each of these points that is a counter, from the first to the last, where there is room for all.
fn begin_upwards(totals: &mut Vec<TotalRow>, points: &[PointRow])
    requires rising { IsRising total_point totals.old.items }
    requires room { vec_len totals.old + length points.now ≤ vec_capacity totals.old }
    ensures rising { IsRising total_point totals.new.items }
    ensures put { as_sums totals.new.items ≡ with_sums (totals_of points.now []) (as_sums totals.old.items) }
    ensures room { (more : ℕ) → vec_len totals.old + length points.now + more ≤ vec_capacity totals.old → vec_len totals.new + more ≤ vec_capacity totals.new }
{
    for point in points {
        begin_total(totals, point);
    }
}

/// The same from the last to the first.
fn begin_downwards(totals: &mut Vec<TotalRow>, points: &[PointRow])
    requires rising { IsRising total_point totals.old.items }
    requires room { vec_len totals.old + length points.now ≤ vec_capacity totals.old }
    ensures rising { IsRising total_point totals.new.items }
    ensures put { as_sums totals.new.items ≡ with_sums (totals_of points.now []) (as_sums totals.old.items) }
    ensures room { (more : ℕ) → vec_len totals.old + length points.now + more ≤ vec_capacity totals.old → vec_len totals.new + more ≤ vec_capacity totals.new }
{
    let mut left = points.len();
    while left > 0 {
        left -= 1;
        begin_total(totals, &points[left]);
    }
}

/// Puts the total 0 for each of these points that is a counter, where there is room for all. Each total is 0, so any
/// order will do: points whose numbers rise throughout, as those of an office do, are put from the first, so that no
/// total has to move, and others from the last.
pub(crate) fn begin_totals(totals: &mut Vec<TotalRow>, points: &[PointRow])
    requires rising { IsRising total_point totals.old.items }
    requires room { vec_len totals.old + length points.now ≤ vec_capacity totals.old }
    ensures rising { IsRising total_point totals.new.items }
    ensures put { as_sums totals.new.items ≡ with_sums (totals_of points.now []) (as_sums totals.old.items) }
    ensures room { (more : ℕ) → vec_len totals.old + length points.now + more ≤ vec_capacity totals.old → vec_len totals.new + more ≤ vec_capacity totals.new }
{
    if points.is_sorted_by_key(|row| row.number) {
        begin_upwards(totals, points);
    } else {
        begin_downwards(totals, points);
    }
}
