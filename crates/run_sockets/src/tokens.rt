//! The tokens under which the system tells of sockets.
ghost use Rattle.std.specs.Prelude.{◌≡◌, ◌≤◌, ◌+◌, ◌↔◌, IfSome, IsNone, SomeIff};
ghost use Rattle.run_sockets.specs.Tokens.{IsPlace, number_of, token_at};

use mio::Token;
use run_beat::{MOST_CALLERS, MOST_LINES, Source};

/// The listener's token, behind those of all sources.
pub(crate) const LISTENER: Token = Token(MOST_LINES + MOST_CALLERS);

/// The token of standard input.
pub(crate) const INPUT: Token = Token(MOST_LINES + MOST_CALLERS + 1);

/// The token of standard error.
pub(crate) const ERROR: Token = Token(MOST_LINES + MOST_CALLERS + 2);

/// So many tokens there are.
pub(crate) const TOKENS: usize = MOST_LINES + MOST_CALLERS + 3;

/// The token of a source: none of a place that isn't there.
pub(crate) fn token_of(source: Source) -> Option<Token>
    ensures { SomeIff result (IsPlace source) (token_at (number_of source)) }
{
    match source {
        Source::Line(place) if place < MOST_LINES => Some(Token(place)),
        Source::Caller(place) if place < MOST_CALLERS => Some(Token(MOST_LINES + place)),
        _ => None,
    }
}

/// The source of a token: none of the listener, standard input and standard error.
pub(crate) fn source_of(token: Token) -> Option<Source>
    ensures found { IfSome result (λ source. IsPlace source × (number_of source ≡ token.0)) }
    ensures none { IsNone result ↔ (MOST_LINES + MOST_CALLERS ≤ token.0) }
{
    let number = token.0;
    if number < MOST_LINES {
        Some(Source::Line(number))
    } else if number < MOST_LINES + MOST_CALLERS {
        Some(Source::Caller(number - MOST_LINES))
    } else {
        None
    }
}
