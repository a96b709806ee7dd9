//! Rows: a line for each case, `INPUT -> OUTCOME`.
use crate::{Block, Tally, Trouble};

/// What comes of the inputs of rows of one kind.
pub trait Outcomes {
    /// What comes of an input, as a text.
    fn outcome(&mut self, input: &str) -> Result<String, Trouble>;
}

/// What comes of an input, asked once more where memory was refused.
fn outcome_of<O: Outcomes>(outcomes: &mut O, input: &str) -> Result<String, Trouble> {
    match outcomes.outcome(input) {
        Err(Trouble::Memory) => outcomes.outcome(input),
        told => told,
    }
}

/// Plays the rows of a block: each line's last ` -> ` stands before the outcome.
pub fn play_rows<R: Print, O: Outcomes>(
    tally: &mut Tally<'_, R>,
    block: &Block<'_>,
    outcomes: &mut O,
) -> Result<(), Trouble> {
    let mut number = block.line;
    for line in block.text.lines() {
        number = number.saturating_add(1);
        let Some((input, wanted)) = line.rsplit_once(" -> ") else {
            return Err(Trouble::Page("a row without an arrow"));
        };
        let told = outcome_of(outcomes, input)?;
        tally.told(number, told.as_str(), wanted)?;
    }
    Ok(())
}
