//! Laws of streams alone.
ghost use Rattle.std.specs.Prelude.{◌≡◌, ℕ, List};
ghost use Rattle.mb_mbap.specs.Stream.{Splits};
ghost use Rattle.mb_mbap.specs.declared.frame.Frame.{Frame};

/// A stream is read in one way: as these frames and this rest.
pub fn one_reading()
    ensures { (stream : List ℕ) (frames others : List Frame) (rest other : List ℕ)
        → Splits stream frames rest → Splits stream others other → (frames ≡ others) × (rest ≡ other) }
{}
