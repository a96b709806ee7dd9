//! What the bytes of a connection mean, in a law. Its body is empty: only its contract counts.
ghost use Rattle.std.specs.Prelude.{◌≡◌, ℕ, List};
ghost use Rattle.office_http.specs.Meanings.{Meaning};
ghost use Rattle.office_http.specs.declared.routes.Routes.{Routes as Offered};
ghost use Rattle.office_http.specs.Deciding.{Means};

/// All the bytes of a connection mean one thing, whichever routes are offered.
pub fn one_meaning()
    ensures { (routes : Offered) (input : List ℕ) (a b : Meaning) → Means routes input a → Means routes input b → a ≡ b }
{}
