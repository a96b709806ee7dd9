//! The number of a connection.
ghost use Rattle.std.specs.Prelude.{◌≡◌};

use std::fmt;
use std::marker::Model;

/// The number of a connection, from 1. Contracts see the number.
#[derive(Clone, Copy, Debug, PartialEq, Eq, Hash)]
pub struct Conn {
    number: u32,
}

impl Model for Conn {
    ghost use Rattle.std.specs.Prelude.{ℕ};

    ghost Value = { ℕ };

    ghost view = { λ c. c.number };

    ghost inverse = { λ n. record { number = n } };
}

impl Conn {
    /// The connection of a number.
    pub fn new(number: u32) -> Conn
        ensures { result ≡ number }
    {
        Conn { number }
    }

    /// Its number.
    pub fn number(self) -> u32
        ensures { result ≡ self }
    {
        self.number
    }
}

impl fmt::Display for Conn {
    ghost use Rattle.std.specs.Prelude.{Some, decimal};

    ghost output = { λ conn. Some (decimal conn) };

    fn fmt<W: fmt::Write>(&self, f: &mut fmt::Formatter<W>) -> fmt::Result {
        let number = self.number;
        write!(f, "{number}")
    }
}
