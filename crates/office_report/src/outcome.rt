//! What requests are answered, as texts.
ghost use Rattle.std.specs.Prelude.{◌≡◌, IfOk, string_bytes};
ghost use Rattle.office_report.specs.Outcomes.{outcome_text, request_text};

use office_core::RequestAnswer;
use poll_book::Outcome;
use std::alloc::{AllocError, Global};

/// What became of a request.
fn outcome_text(alloc: Global, outcome: &Outcome) -> Result<String, AllocError>
    ensures { IfOk result (λ text. string_bytes text ≡ outcome_text outcome.now) }
{
    match outcome {
        Outcome::Loaded(count) => format!(in alloc; "loaded {count}"),
        Outcome::Ordered(number) => format!(in alloc; "order {number}"),
        Outcome::Voided(slot) => format!(in alloc; "voided {slot}"),
        Outcome::RefusedFor(reason) => format!(in alloc; "refused {}", reason.fault),
    }
}

/// What a request is answered: what became of the first one under its key, as `loaded N`, `order N`,
/// `voided SLOT` or `refused TEXT`, or `key reused` where that was another.
pub fn request_text(alloc: Global, told: &RequestAnswer) -> Result<String, AllocError>
    ensures { IfOk result (λ text. string_bytes text ≡ request_text told.now) }
{
    match told {
        RequestAnswer::Kept { outcome, .. } => outcome_text(alloc, outcome),
        RequestAnswer::KeyReused => String::from_str(alloc, "key reused"),
    }
}
