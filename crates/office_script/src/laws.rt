//! Laws of the definitions alone.

ghost use Rattle.std.specs.Prelude.{◌≡◌, ◌≤◌, ◌++◌, ℕ, List, length};
ghost use Rattle.office_core.specs.History.{tables};
ghost use Rattle.office_core.specs.Legal.{Legal};
ghost use Rattle.office_script.specs.Printing.{report_of};
ghost use Rattle.office_script.specs.Scripts.{history_of, outcome_of, output_of};

use crate::input::SCRIPT_LIMIT;
use crate::player::Replayed;

/// Whatever a script that can be played says, what happens in it makes a legal history, so that the laws of
/// `office_core` hold of it; and a script that ends with its report ends with the tables of that
/// history.
pub fn legal_scripts()
    ensures legal { (script : List ℕ) → length script ≤ SCRIPT_LIMIT → Legal (history_of script) }
    ensures report { (script : List ℕ) → outcome_of script ≡ Replayed.Done
        → (answers : List ℕ) × (output_of script ≡ answers ++ report_of (tables (history_of script))) }
{}
