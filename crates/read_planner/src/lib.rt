//! Reads of a device's points: what one query asks for, and the fewest reads that hold given points.
//!
//! `crates/tour/src/plans.rt` is a short example.
#![tactic(auto)]

ghost use Rattle.std.specs.Prelude.{◌≡◌};
ghost use Rattle.read_planner.specs.Read.{IsReadFunction, is_valid_read, limit_of, read_request};

pub mod laws;
mod place;
mod planning;
mod walk;

use mb_pdu::{Request, Span};
pub use place::can_be_read;
pub use planning::plan;

/// What a query asks for: a span of coils (function 1), discrete inputs (2), holding registers (3)
/// or input registers (4).
#[derive(Clone, Copy, Debug, PartialEq, Eq, Hash)]
pub struct Read {
    pub function: u8,
    pub span: Span,
}

/// How many items a read by this function may ask for: 2,000 bits or 125 registers, and none by
/// another function.
pub(crate) fn limit_of(function: u8) -> u16
    ensures { result ≡ limit_of function }
{
    match function {
        1 | 2 => 2000,
        3 | 4 => 125,
        _ => 0,
    }
}

impl Read {
    /// Whether the function is one of the four and the quantity is within its limit: 2,000 bits or
    /// 125 registers.
    pub fn is_valid(&self) -> bool
        ensures { result ≡ is_valid_read self.now }
    {
        1 <= self.span.quantity && self.span.quantity <= limit_of(self.function)
    }

    /// The request of the read.
    pub fn request(&self) -> Request
        requires { IsReadFunction self.now.function }
        ensures { result ≡ read_request self.now }
    {
        match self.function {
            1 => Request::ReadCoils(self.span),
            2 => Request::ReadDiscrete(self.span),
            3 => Request::ReadHolding(self.span),
            _ => Request::ReadInput(self.span),
        }
    }
}
