//! Changes of one kind.
ghost use Rattle.std.specs.Prelude.{◌≡◌, [], Some, None};
ghost use Rattle.office_core.specs.Keeping.{asked_change, no_change};

use point_list::Items;
use poll_book::{Change, OrderState, PointRow, RequestRow, Setting, SettingRow};
use std::alloc::Global;

/// The change that counts a connection.
pub(crate) fn connection_change(alloc: Global, connections: u32) -> Change
    ensures { result ≡ record no_change { connections = Some connections } }
{
    Change {
        connections: Some(connections),
        ..Change::none(alloc)
    }
}

/// The change that settles an order.
pub(crate) fn state_change(alloc: Global, order: u32, setting: Setting, state: OrderState) -> Change
    ensures { result ≡ record no_change { setting = Some (record { number = order; point = setting.point; words = setting.words; state = state }) } }
{
    Change {
        setting: Some(SettingRow {
            number: order,
            point: setting.point,
            words: setting.words,
            state,
        }),
        ..Change::none(alloc)
    }
}

/// The change that keeps a new request, with the points or the setting that it adds.
pub(crate) fn request_change(
    alloc: Global,
    points: Vec<PointRow>,
    setting: Option<SettingRow>,
    request: RequestRow,
) -> Change
    ensures { result ≡ asked_change points.items setting request }
{
    Change {
        points: Items::from_vec(points),
        setting,
        request: Some(request),
        ..Change::none(alloc)
    }
}

/// A change with the request that it keeps besides.
pub(crate) fn with_request(change: Change, request: RequestRow) -> Change
    ensures { result ≡ record change { request = Some request } }
{
    Change {
        request: Some(request),
        ..change
    }
}
