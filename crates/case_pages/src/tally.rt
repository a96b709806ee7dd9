//! The cases of a page, and those that came out otherwise.
use crate::Trouble;

/// Counts the cases of a page.
#[derive(Drop)]
pub struct Tally<'a, R: Print> {
    rt: &'a R,
    page: &'a str,
    cases: u64,
    differences: u64,
}

impl<'a, R: Print> Tally<'a, R> {
    /// A count of no case.
    pub fn new(rt: &'a R, page: &'a str) -> Tally<'a, R> {
        Tally {
            rt,
            page,
            cases: 0,
            differences: 0,
        }
    }

    pub fn cases(&self) -> u64 {
        self.cases
    }

    pub fn differences(&self) -> u64 {
        self.differences
    }

    /// Counts the case of a line. Where it was told otherwise than is wanted, the page, the line and both texts are
    /// printed.
    pub fn told(&mut self, line: usize, told: &str, wanted: &str) -> Result<(), Trouble> {
        self.cases = self.cases.saturating_add(1);
        if told != wanted {
            self.differences = self.differences.saturating_add(1);
            let page = self.page;
            println!(self.rt; "{page}:{line}: wanted\n{wanted}\n{page}:{line}: came\n{told}")?;
        }
        Ok(())
    }
}
