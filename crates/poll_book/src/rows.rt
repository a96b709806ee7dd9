//! The rows of a keeper's tables.
use crate::requests::RequestRow;
use crate::words::Words;
use point_list::{Items, Point};
use std::alloc::Global;

/// A known point. Points are numbered from 1, in the order in which they were accepted.
#[derive(Clone, Copy, Debug, PartialEq, Eq)]
pub struct PointRow {
    pub number: u32,
    pub point: Point,
}

/// What is kept of a point in a slot.
#[derive(Debug, Drop)]
pub struct Reading {
    pub words: Words,
    /// Whether it counts for the point's total.
    pub counted: bool,
}

/// A reading with its key, the number of its point and its slot.
#[derive(Debug, Drop)]
pub struct ReadingRow {
    pub point: u32,
    pub slot: u32,
    pub words: Words,
    /// Whether it counts for the point's total.
    pub counted: bool,
}

/// The total of a counter, with its key, the number of the point.
#[derive(Clone, Copy, Debug, PartialEq, Eq)]
pub struct TotalRow {
    pub point: u32,
    /// How far the counter went by its counted readings, 0 to 2^127 - 1.
    pub total: u128,
}

/// A slot of a counter that doesn't count for its total.
#[derive(Clone, Copy, Debug, PartialEq, Eq)]
pub struct VoidRow {
    /// The number of the point.
    pub point: u32,
    pub slot: u32,
}

/// How an order stands.
#[derive(Clone, Copy, Debug, PartialEq, Eq)]
pub enum OrderState {
    /// No reply has settled it.
    Waiting,
    /// Its device took it.
    Done,
    /// Its device refused it, with this exception code.
    Refused(u8),
}

/// What an order sets, and how it stands.
#[derive(Debug, Drop)]
pub struct Setting {
    /// The number of the point.
    pub point: u32,
    /// The registers of the value, or the cell as 0 or 1.
    pub words: Words,
    pub state: OrderState,
}

/// A setting with its key, the number of its order. Orders are numbered from 1, in the order in
/// which they were accepted.
#[derive(Debug, Drop)]
pub struct SettingRow {
    pub number: u32,
    /// The number of the point.
    pub point: u32,
    /// The registers of the value, or the cell as 0 or 1.
    pub words: Words,
    pub state: OrderState,
}

/// Rows that are written together, each under its key: points, readings and totals, a slot that is voided or
/// none, an order that is new or settled or none, a request or none, and a new connection number or none. A
/// counter that is accepted has the total 0 without a row of its own.
#[derive(Debug, Drop)]
pub struct Change {
    pub points: Items<PointRow>,
    pub readings: Items<ReadingRow>,
    pub totals: Items<TotalRow>,
    pub void: Option<VoidRow>,
    pub setting: Option<SettingRow>,
    pub request: Option<RequestRow>,
    pub connections: Option<u32>,
}

impl Change {
    ghost use Rattle.std.specs.Prelude.{◌≡◌, [], None};

    /// A change of nothing.
    pub fn none(alloc: Global) -> Change
        ensures { result ≡ record { points = []; readings = []; totals = []; void = None; setting = None; request = None; connections = None } }
    {
        Change {
            points: Items::from_vec(Vec::new(alloc)),
            readings: Items::from_vec(Vec::new(alloc)),
            totals: Items::from_vec(Vec::new(alloc)),
            void: None,
            setting: None,
            request: None,
            connections: None,
        }
    }
}
