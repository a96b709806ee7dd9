//! Rows whose keys rise, and where a key stands among them.
ghost use Rattle.std.specs.Prelude.{IsTrue, IfOk, IfErr, length};
ghost use Rattle.poll_book.specs.Histories.{IsAt, IsGap, IsRising};

/// A row that is found by a number.
pub(crate) trait Keyed {
    ghost use Rattle.std.specs.Prelude.{◌≡◌, ℕ};

    ghost key_of: { Self → ℕ };

    /// The number.
    fn key(&self) -> u32
        ensures { result ≡ key_of self.now };
}

/// Whether the key comes after all others.
fn is_last<T: Keyed>(rows: &[T], key: u32) -> bool
    requires { IsRising T.key_of rows.now }
    ensures { IsTrue result → IsGap T.key_of rows.now key (length rows.now) }
{
    match rows.last() {
        Some(row) => row.key() < key,
        None => true,
    }
}

/// Whether the key stands at the place.
fn stands_at<T: Keyed>(rows: &[T], key: u32, place: usize) -> bool
    requires { IsRising T.key_of rows.now }
    ensures { IsTrue result → IsAt T.key_of rows.now key place }
{
    place < rows.len() && rows[place].key() == key
}

fn search<T: Keyed>(rows: &[T], key: u32) -> Result<usize, usize>
    requires { IsRising T.key_of rows.now }
    ensures found { IfOk result (IsAt T.key_of rows.now key) }
    ensures absent { IfErr result (IsGap T.key_of rows.now key) }
{
    rows.binary_search_by_key(&key, |row| row.key())
}

/// Where the key stands, or where it would go. A key after all others is found at once.
pub(crate) fn place_behind<T: Keyed>(rows: &[T], key: u32) -> Result<usize, usize>
    requires { IsRising T.key_of rows.now }
    ensures found { IfOk result (IsAt T.key_of rows.now key) }
    ensures absent { IfErr result (IsGap T.key_of rows.now key) }
{
    if is_last(rows, key) {
        return Err(rows.len());
    }
    search(rows, key)
}

/// The same, where all keys from 1 on may be there: then a key stands at its number less 1, which is tried first.
pub(crate) fn place_numbered<T: Keyed>(rows: &[T], key: u32) -> Result<usize, usize>
    requires { IsRising T.key_of rows.now }
    ensures found { IfOk result (IsAt T.key_of rows.now key) }
    ensures absent { IfErr result (IsGap T.key_of rows.now key) }
{
    let guess = key.saturating_sub(1) as usize;
    if stands_at(rows, key, guess) {
        return Ok(guess);
    }
    place_behind(rows, key)
}
