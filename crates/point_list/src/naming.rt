//! Whether two names are the same.
ghost use Rattle.std.specs.Prelude.{◌≡◌, false};
ghost use Rattle.std.specs.Str.{bytes_eq};

fn ends_otherwise(a: &[u8], b: &[u8]) -> bool
    ensures { a.now ≡ b.now → result ≡ false }
{
    match (a.last(), b.last()) {
        (Some(last), Some(other)) => last != other,
        _ => false,
    }
}

/// Whether two names are the same bytes. Names of one list or site mostly begin alike, so their last bytes are compared
/// first.
#[inline(always)]
pub fn is_same_name(a: &[u8], b: &[u8]) -> bool
    ensures { result ≡ bytes_eq a.now b.now }
{
    !ends_otherwise(a, b) && a == b
}
