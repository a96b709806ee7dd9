//! Why a text is no document, and what is wrong with a member of one.
ghost use Rattle.std.specs.Prelude.{◌≡◌};

use thiserror::Error;

/// Why a text is no document.
#[derive(Clone, Copy, Debug, PartialEq, Eq, Error)]
pub enum DocumentError {
    /// Memory was refused, which says nothing of the text.
    #[error("out of memory")]
    Memory,
    /// The text stops being TOML on this line.
    #[error("not TOML at line {0}")]
    NotToml(usize),
}

/// What is wrong with a member.
#[derive(Clone, Copy, Debug, PartialEq, Eq, Error)]
pub enum MemberFault {
    #[error("is missing")]
    Missing,
    #[error("is of another kind")]
    WrongKind,
    #[error("is out of range")]
    OutOfRange,
}

/// A fault with the key of its member. It prints as `unit is missing`.
#[derive(Clone, Copy, Debug, PartialEq, Eq, Error)]
#[error("{key} {fault}")]
pub struct MemberError {
    pub key: &'static str,
    pub fault: MemberFault,
}

impl MemberError {
    pub(crate) fn new(key: &'static str, fault: MemberFault) -> MemberError
        ensures named { result.key.now ≡ key.now }
        ensures fault { result.fault ≡ fault }
    {
        MemberError { key, fault }
    }
}
