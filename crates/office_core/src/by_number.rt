//! Known points by their numbers.
ghost use Rattle.std.specs.List.{position};
ghost use Rattle.std.specs.Prelude.{◌≡◌, ◌≤◌, ◌+◌, ◌==◌, ◌&&◌, List, length};
ghost use Rattle.point_list.specs.Lists.{point_limit};
ghost use Rattle.poll_book.specs.Orders.{point_at};
ghost use Rattle.poll_book.specs.declared.rows.PointRow.{PointRow};
ghost use Rattle.office_core.specs.ByNumber.{AreNumbersOf};

use poll_book::PointRow;

/// Whether the first so many known points are numbered on from 1, as an office numbers them: the place of each is its
/// number less one then.
#[derive(Drop)]
pub(crate) struct ByNumber {
    count: usize,
    in_order: bool,
}

/// Whether points that are numbered on, or aren't, are so with one more behind so many.
fn goes_on(in_order: bool, number: u32, count: usize) -> bool
    requires { count ≤ point_limit }
    ensures { result ≡ (in_order && number == count + 1) }
{
    in_order && number as usize == count + 1
}

impl ByNumber {
    /// No point was looked at.
    pub(crate) fn new() -> ByNumber
        ensures { (known : List PointRow) → AreNumbersOf known result }
    {
        ByNumber {
            count: 0,
            in_order: true,
        }
    }

    /// Looks at the points that weren't looked at yet.
    pub(crate) fn catch_up(&mut self, known: &[PointRow])
        requires few { length known.now ≤ point_limit }
        requires of { AreNumbersOf known.now self.old }
        ensures { AreNumbersOf known.now self.new }
    {
        while self.count < known.len() {
            self.in_order = goes_on(self.in_order, known[self.count].number, self.count);
            self.count += 1;
        }
    }

    /// The place of the first known point of a number. It is looked for one by one where the points aren't known to be
    /// numbered on.
    fn place(&self, known: &[PointRow], number: u32) -> Option<usize>
        requires { AreNumbersOf known.now self.now }
        ensures { result ≡ position (λ row. row.number == number) known.now }
    {
        if !self.in_order || self.count < known.len() {
            return known.iter().position(|row| row.number == number);
        }
        if number == 0 || number as usize > known.len() {
            return None;
        }
        Some(number as usize - 1)
    }

    /// The known point of a number.
    pub(crate) fn find(&self, known: &[PointRow], number: u32) -> Option<PointRow>
        requires { AreNumbersOf known.now self.now }
        ensures { result ≡ point_at known.now number }
    {
        match self.place(known, number) {
            Some(place) => Some(known[place]),
            None => None,
        }
    }
}
