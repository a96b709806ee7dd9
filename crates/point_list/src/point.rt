//! A point, and the row of a list that says it.
ghost use Rattle.std.specs.Prelude.{◌≡◌, ◌≢◌, MatchResult, Some};
ghost use Rattle.point_list.specs.Columns.{role_name};
ghost use Rattle.point_list.specs.declared.point.Role.{Role};

use crate::label::Label;
use crate::name::Name;
use mb_pdu::Table;
use std::fmt;
use std::str::FromStr;
use sunspec::{PointType, WordOrder};
use thiserror::Error;

/// What a point is for. It prints as `gauge`, `counter` or `setting`, the words of a list.
#[derive(Clone, Copy, Debug, PartialEq, Eq, Hash)]
pub enum Role {
    /// A value that goes up and down.
    Gauge,
    /// A count that only rises, and begins again at 0 after its roll.
    Counter,
    /// A value that orders set.
    Setting,
}

impl fmt::Display for Role {
    ghost output = { λ role. Some (role_name role) };

    fn fmt<W: fmt::Write>(&self, f: &mut fmt::Formatter<W>) -> fmt::Result {
        f.pad(match self {
            Role::Gauge => "gauge",
            Role::Counter => "counter",
            Role::Setting => "setting",
        })
    }
}

/// A text is no role.
#[derive(Clone, Copy, Debug, PartialEq, Eq, Error)]
#[error("none of gauge, counter, setting")]
pub struct RoleError;

impl FromStr for Role {
    type Err = RoleError;

    ghost from_str_gives = { λ text result. MatchResult result
        (λ role. text ≡ role_name role)
        (λ _. (role : Role) → text ≢ role_name role) };

    fn from_str(text: &str) -> Result<Role, RoleError> {
        match text {
            "gauge" => Ok(Role::Gauge),
            "counter" => Ok(Role::Counter),
            "setting" => Ok(Role::Setting),
            _ => Err(RoleError),
        }
    }
}

/// A point: where a device keeps a value, and what it means.
#[derive(Clone, Copy, Debug, PartialEq, Eq)]
pub struct Point {
    pub name: Name,
    /// The name of its device.
    pub device: Label,
    pub table: Table,
    /// The address of its first register or of its cell.
    pub address: u16,
    pub kind: PointType,
    /// The power of ten that its number is multiplied by, -10 to 10.
    pub scale: i8,
    pub role: Role,
    /// The greatest value of a counter before it begins again at 0; 0 for other roles.
    pub roll: u64,
    /// Which of its registers its device sends first.
    pub order: WordOrder,
}

/// A record of a list.
#[derive(Clone, Copy, Debug, PartialEq, Eq)]
pub struct ListRow {
    /// The number of the record, of which the header is 1.
    pub row: u32,
    /// A point that is placed by its model has the address 0 until `resolve` gives it its own.
    pub point: Point,
    /// The identifier of the model by which the point is placed, and the offset of its first register
    /// from that of the identifier.
    pub model: Option<(u16, u16)>,
}
