//! Parts of files, as a page shows them.
use crate::console::count_case;
use crate::shell::{file, text_of};
use crate::world::World;
use case_pages::{Block, Tally, Trouble};

/// Whether a text has these lines in this order, perhaps with others between them.
fn has_lines(text: &str, part: &str) -> bool {
    let mut lines = text.lines();
    for line in part.lines() {
        if !lines.any(|it| it == line) {
            return false;
        }
    }
    true
}

/// Sees that a file has the lines of a block.
pub(crate) fn play<R: Print>(
    world: &mut World<'_>,
    tally: &mut Tally<'_, R>,
    block: &Block<'_>,
    name: &str,
) -> Result<(), Trouble> {
    let bytes = file(world, name)?;
    let told = if has_lines(text_of(&bytes), block.text) {
        block.text
    } else {
        "not these lines\n"
    };
    count_case(world, tally, block.line, told, block.text)
}
