//! Pages, of which a part is shown a turn, so that nothing waits for them.
ghost use Rattle.std.specs.Prelude.{◌≡◌, ◌≢◌, ◌++◌, codes, Contains, IfOk, IfSome, OnOk, string_bytes};
ghost use Rattle.office_core.specs.Following.{Follows};
ghost use Rattle.office_core.specs.History.{History, points};
ghost use Rattle.office_core.specs.Offices.{keeper_of};
ghost use Rattle.office_core.specs.Proceeding.{GoesAlong, Nothing};
ghost use Rattle.run_callers.specs.Pages.{AddsPart, AddsPoint, AddsSome, IsFirst, IsPart, comma, later_in_list};

use crate::looks::{curve, order_on, point_at, point_of, with_both, with_last, with_total};
use office_core::Office;
use office_core::laws::fitting_tables;
use office_http::Page;
use office_pages::{LineSeen, OrderSeen, Seen, json, metrics, page};
use office_report::reading_text;
use point_list::{Device, Site};
use poll_book::{Keeper, PointRow, SettingRow, StoreFault};
use run_beat::Slots;
use run_deeds::Board;
use std::alloc::{AllocError, Global};

/// So many points are shown in a turn at most: each is looked up.
const MOST_ROWS: usize = 16;

/// So many points are passed over in a turn at most, of devices that aren't shown.
const MOST_PASSED: usize = 512;

/// A curve has so many slots.
const CURVE_SLOTS: u32 = 96;

/// What of a page is shown.
#[derive(Clone, Copy, Debug, PartialEq, Eq)]
pub(crate) enum Part {
    /// What stands before the points.
    Top,
    /// The orders that wait, by device.
    Orders,
    /// The points.
    Points,
    /// The values of points.
    Values,
    /// The times of their last readings.
    Times,
    /// The totals of counters.
    Totals,
}

/// How far a page was shown.
#[derive(Clone, Copy, Debug, PartialEq, Eq)]
pub(crate) struct Showing {
    pub page: Page,
    slots: Slots,
    part: Part,
    // The place of the device or point that is next.
    next: usize,
}

/// What was shown, and what comes next.
#[derive(Drop)]
pub(crate) struct Shown {
    pub text: String,
    /// None where the page is whole.
    pub next: Option<Showing>,
}

/// The device of a page.
fn device_of(site: &Site, page: Page) -> Option<&Device> {
    match page {
        Page::Device(place) => site.devices.as_slice().get(place as usize),
        Page::Points | Page::Metrics | Page::Office => None,
    }
}

/// The place of a device in the site.
fn place_of(site: &Site, device: &str) -> Option<u16> {
    for (place, other) in site.devices.as_slice().iter().enumerate() {
        if other.name.as_str() == device {
            return u16::try_from(place).ok();
        }
    }
    None
}

/// The lines of the site, as they stand.
fn lines_of<'a>(
    alloc: Global,
    site: &'a Site,
    board: &Board,
) -> Result<Vec<LineSeen<'a>>, AllocError> {
    let mut lines = Vec::new(alloc);
    for (line, standing) in site.lines.as_slice().iter().zip(board.lines()) {
        lines.push(LineSeen {
            name: line.name.as_str(),
            address: line.address.as_str(),
            is_up: standing.is_up,
            tally: standing.tally,
        })?;
    }
    Ok(lines)
}

/// Whether a point is the first of those of its device that stand one behind the other.
fn begins_device<K: Keeper>(office: &Office<K>, known: &PointRow) -> bool {
    let before = (known.number as usize).checked_sub(2);
    match before.and_then(|before| office.points().get(before)) {
        Some(before) => before.point.device != known.point.device,
        None => true,
    }
}

/// What stands before the row of a point: all but the first stand behind others.
fn push_comma(known: &PointRow, text: &mut String) -> Result<(), AllocError>
    ensures { OnOk result (string_bytes text.new ≡ string_bytes text.old ++ comma known.now) }
{
    if known.number > 1 {
        text.push_str(json::between())
    } else {
        Ok(())
    }
}

/// The row of an order that waits on a device.
fn push_order<K: Keeper>(
    alloc: Global,
    office: &Office<K>,
    device: &str,
    order: &SettingRow,
    text: &mut String,
) -> Result<(), AllocError> {
    let Some(known) = point_of(office, order.point) else {
        return Ok(());
    };
    let value = reading_text(alloc, &known.point, order.words.as_slice())?;
    let seen = OrderSeen {
        device,
        number: order.number,
        point: known.point.name.as_str(),
        value: match &value {
            Some(value) => value.as_str(),
            None => "-",
        },
    };
    page::push_order(text, &seen)
}

impl Showing {
    /// A page from its beginning on.
    pub fn first(page: Page, slots: Slots) -> Showing
        ensures page { result.page ≡ page }
        ensures first { IsFirst result }
    {
        Showing {
            page,
            slots,
            part: Part::Top,
            next: 0,
        }
    }

    /// The same part, with this place as the next.
    fn at(&self, next: usize) -> Showing
        ensures { result ≡ record self.now { next = next } }
    {
        Showing {
            page: self.page,
            slots: self.slots,
            part: self.part,
            next,
        }
    }

    /// The part behind this one, if there is one.
    fn later(&self) -> Option<Showing>
        ensures page { IfSome result (λ later. later.page ≡ self.now.page) }
        ensures list { self.now.page ≡ Page.Points → result ≡ later_in_list self.now.part self.now }
    {
        let part = match (self.page, self.part) {
            (Page::Points | Page::Device(_), Part::Top) => Part::Points,
            (Page::Office, Part::Top) => Part::Orders,
            (Page::Office, Part::Orders) => Part::Points,
            (Page::Metrics, Part::Top) => Part::Values,
            (Page::Metrics, Part::Values) => Part::Times,
            (Page::Metrics, Part::Times) => Part::Totals,
            _ => return None,
        };
        Some(Showing {
            page: self.page,
            slots: self.slots,
            part,
            next: 0,
        })
    }

    /// What stands before the points.
    fn push_top(
        &self,
        alloc: Global,
        site: &Site,
        board: &Board,
        text: &mut String,
    ) -> Result<(), AllocError>
        ensures { self.now.page ≡ Page.Points → OnOk result (string_bytes text.new ≡ string_bytes text.old ++ codes "{\"points\":[") }
    {
        let seconds = board.clock.millis() / 1_000;
        match self.page {
            Page::Points => text.push_str(json::begin()),
            Page::Metrics => {
                let lines = lines_of(alloc, site, board)?;
                metrics::push_office(text, &lines, board.store_faults)?;
                text.push_str(metrics::values())
            }
            Page::Office => {
                let lines = lines_of(alloc, site, board)?;
                page::push_begin(text, "Kimjolde", seconds, board.store_faults)?;
                page::push_lines(text, &lines)?;
                page::push_orders_begin(text)
            }
            Page::Device(place) => {
                let name = match device_of(site, self.page) {
                    Some(device) => device.name.as_str(),
                    None => "",
                };
                page::push_begin(text, name, seconds, board.store_faults)?;
                text.push_str(page::points_begin())?;
                page::push_device(text, name, u16::try_from(place).ok())
            }
        }
    }

    /// What stands behind the last row of a part.
    fn push_end(&self, text: &mut String) -> Result<(), AllocError>
        ensures top { self.now.part ≡ Part.Top → OnOk result (string_bytes text.new ≡ string_bytes text.old) }
        ensures list { self.now.page ≡ Page.Points → self.now.part ≢ Part.Top → OnOk result (string_bytes text.new ≡ string_bytes text.old ++ codes "]}\n") }
    {
        match (self.page, self.part) {
            (_, Part::Top) => Ok(()),
            (Page::Points, _) => text.push_str(json::end()),
            (Page::Metrics, Part::Values) => text.push_str(metrics::times()),
            (Page::Metrics, Part::Times) => text.push_str(metrics::totals()),
            (Page::Metrics, _) => text.push_str(metrics::end()),
            (_, Part::Orders) => {
                text.push_str(page::orders_end())?;
                text.push_str(page::points_begin())
            }
            _ => {
                text.push_str(page::points_end())?;
                text.push_str(page::end())
            }
        }
    }

    /// The row of a point, where the part has one.
    fn push_row<K: Keeper>(
        &self,
        alloc: Global,
        office: &mut Office<K>,
        known: &PointRow,
        text: &mut String,
    ) -> Result<(), StoreFault>
        ensures { GoesAlong Nothing office.old office.new }
    {
        match self.part {
            Part::Values => metrics::push_value(alloc, text, &with_last(office, known)?)?,
            Part::Times => metrics::push_time(text, &with_last(office, known)?, self.slots)?,
            Part::Totals => metrics::push_total(alloc, text, &with_total(office, known)?)?,
            Part::Top | Part::Orders => {}
            Part::Points => {
                let seen = with_both(office, known)?;
                self.push_point(alloc, office, known, &seen, text)?;
            }
        }
        Ok(())
    }

    /// The row of a point as JSON.
    fn push_json<K: Keeper>(
        &self,
        alloc: Global,
        office: &mut Office<K>,
        known: &PointRow,
        text: &mut String,
    ) -> Result<(), StoreFault>
        ensures along { GoesAlong Nothing office.old office.new }
        ensures adds { K.is_clean (keeper_of office.new) → (now : History) → Follows office.old now
            → Contains (points now) known.now → OnOk result (AddsPoint now self.now.slots known.now (string_bytes text.old) (string_bytes text.new)) }
    {
        fitting_tables();
        push_comma(known, text)?;
        let seen = with_both(office, known)?;
        json::push_point(alloc, text, &seen, self.slots)?;
        Ok(())
    }

    /// The rows of the points that are next as JSON; gives the place of the first behind them, if points may be left.
    fn push_list<K: Keeper>(
        &self,
        alloc: Global,
        office: &mut Office<K>,
        text: &mut String,
    ) -> Result<Option<usize>, StoreFault>
        ensures along { GoesAlong Nothing office.old office.new }
        ensures adds { K.is_clean (keeper_of office.new) → (now : History) → Follows office.old now
            → IfOk result (AddsSome now self.now (string_bytes text.old) (string_bytes text.new)) }
    {
        let end = self.next.saturating_add(MOST_ROWS);
        for at in self.next..end {
            let Some(row) = point_at(office, at) else {
                return Ok(None);
            };
            self.push_json(alloc, office, &row, text)?;
        }
        Ok(Some(end))
    }

    /// The row of a point for a browser, behind the heading of its device where it is the first of these.
    fn push_point<K: Keeper>(
        &self,
        alloc: Global,
        office: &Office<K>,
        known: &PointRow,
        seen: &Seen,
        text: &mut String,
    ) -> Result<(), AllocError> {
        if begins_device(office, known) {
            let device = known.point.device;
            page::push_device(
                text,
                device.as_str(),
                place_of(office.site(), device.as_str()),
            )?;
        }
        page::push_point(alloc, text, seen, self.slots)
    }

    /// The rows of the points that are next; gives the place of the first behind them, if points may be left.
    fn push_rows<K: Keeper>(
        &self,
        alloc: Global,
        office: &mut Office<K>,
        text: &mut String,
    ) -> Result<Option<usize>, StoreFault>
        ensures { GoesAlong Nothing office.old office.new }
    {
        let end = self.next.saturating_add(MOST_ROWS);
        for at in self.next..end {
            let Some(known) = point_at(office, at) else {
                return Ok(None);
            };
            self.push_row(alloc, office, &known, text)?;
        }
        Ok(Some(end))
    }

    /// The row of a point of the device that is shown, with its curve.
    fn push_curve<K: Keeper>(
        &self,
        alloc: Global,
        office: &mut Office<K>,
        board: &Board,
        known: &PointRow,
        text: &mut String,
    ) -> Result<(), StoreFault>
        ensures { GoesAlong Nothing office.old office.new }
    {
        let seen = with_both(office, known)?;
        page::push_point(alloc, text, &seen, self.slots)?;
        let to = self.slots.slot_at(board.clock).unwrap_or(u32::MAX);
        let from = to.saturating_sub(CURVE_SLOTS - 1);
        if let Some(rows) = curve(office, known, from, to)? {
            page::push_curve(alloc, text, &known.point, &rows, from, to)?;
        }
        Ok(())
    }

    /// The row of the next point of the device that is shown; gives the place of the first point behind it, if points may be
    /// left.
    fn push_one_of<K: Keeper>(
        &self,
        alloc: Global,
        office: &mut Office<K>,
        board: &Board,
        text: &mut String,
    ) -> Result<Option<usize>, StoreFault>
        ensures { GoesAlong Nothing office.old office.new }
    {
        let end = self.next.saturating_add(MOST_PASSED);
        for at in self.next..end {
            let Some(known) = point_at(office, at) else {
                return Ok(None);
            };
            let is_shown = device_of(office.site(), self.page).is_some_and(|device| device
                .name
                .as_str()
                == known.point.device.as_str());
            if is_shown {
                self.push_curve(alloc, office, board, &known, text)?;
                return Ok(Some(at + 1));
            }
        }
        Ok(Some(end))
    }

    /// The orders that wait on the devices that are next; gives the place of the first device behind them, if devices may
    /// be left.
    fn push_orders<K: Keeper>(
        &self,
        alloc: Global,
        office: &mut Office<K>,
        text: &mut String,
    ) -> Result<Option<usize>, StoreFault>
        ensures { GoesAlong Nothing office.old office.new }
    {
        let end = self.next.saturating_add(MOST_ROWS);
        for at in self.next..end {
            let name = match office.site().devices.as_slice().get(at) {
                Some(device) => device.name.clone()?,
                None => return Ok(None),
            };
            if let Some(order) = order_on(office, name.as_str())? {
                push_order(alloc, office, name.as_str(), &order, text)?;
            }
        }
        Ok(Some(end))
    }

    /// What comes next in the part; gives the place of what is next behind that, if more may be left of the part.
    fn push<K: Keeper>(
        &self,
        alloc: Global,
        office: &mut Office<K>,
        board: &Board,
        text: &mut String,
    ) -> Result<Option<usize>, StoreFault>
        ensures along { GoesAlong Nothing office.old office.new }
        ensures list { K.is_clean (keeper_of office.new) → (now : History) → Follows office.old now → self.now.page ≡ Page.Points
            → IfOk result (AddsPart self.now.part now self.now (string_bytes text.old) (string_bytes text.new)) }
    {
        match (self.page, self.part) {
            (_, Part::Top) => {
                self.push_top(alloc, office.site(), board, text)?;
                Ok(None)
            }
            (Page::Points, _) => self.push_list(alloc, office, text),
            (Page::Office, Part::Orders) => self.push_orders(alloc, office, text),
            (Page::Device(_), _) => self.push_one_of(alloc, office, board, text),
            _ => self.push_rows(alloc, office, text),
        }
    }

    /// What comes next of the page.
    pub fn go_on<K: Keeper>(
        &self,
        alloc: Global,
        office: &mut Office<K>,
        board: &Board,
    ) -> Result<Shown, StoreFault>
        ensures along { GoesAlong Nothing office.old office.new }
        ensures part { K.is_clean (keeper_of office.new) → (now : History) → Follows office.old now
            → IfOk result (λ shown. IsPart now self.now (string_bytes shown.text) shown.next) }
    {
        let mut text = String::new(alloc);
        let place = self.push(alloc, office, board, &mut text)?;
        match place {
            Some(place) => {
                let next = Some(self.at(place));
                Ok(Shown { text, next })
            }
            None => {
                self.push_end(&mut text)?;
                let next = self.later();
                Ok(Shown { text, next })
            }
        }
    }
}
