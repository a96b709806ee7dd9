//! What a point's role and its registers are called, as words and numbers.
ghost use Rattle.std.specs.Prelude.{◌≡◌};
ghost use Rattle.point_list.specs.Columns.{role_name};
ghost use Rattle.office_pages.specs.Samples.{number_of};

use point_list::{Point, Role};
use sunspec::{Content, read_number};

/// The word of a list for a role.
pub(crate) fn role_word(role: Role) -> &'static str
    ensures { result.now ≡ role_name role }
{
    match role {
        Role::Gauge => "gauge",
        Role::Counter => "counter",
        Role::Setting => "setting",
    }
}

/// The number that registers of a point show; none of a text, of an address, and of a point that isn't implemented.
pub(crate) fn number_of(point: &Point, words: &[u16]) -> Option<i128>
    ensures { result ≡ number_of point.now words.now }
{
    match point.kind.row().content {
        Content::Address => None,
        _ => read_number(&point.kind, point.order, words),
    }
}
