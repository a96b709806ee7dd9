//! Pieces and frames that are read from a stream.
ghost use Rattle.std.specs.Prelude.{◌≡◌, ◌⊎◌, ◌≤◌, ◌<◌, [], IfErr, IfOk, MatchResult, OnOk, length, take};
ghost use Rattle.std.specs.Io.KnownBytes.{Consumes};
ghost use Rattle.mb_mbap.specs.Counted.{HasRisen, ends_of, failures_of, inner_of};

use mb_mbap::Counted;
use std::io::Read;

/// Reads the next piece, which is empty at the end.
pub fn read_piece<R: Read, E: Drop>(
    reader: &mut Counted<R>,
    piece: &mut [u8],
    fault: E,
) -> Result<usize, E>
    ensures within { IfOk result (λ count. count ≤ length piece.new) }
    ensures same { length piece.new ≡ length piece.old }
    ensures bytes { MatchResult result
        (λ count. Consumes (R.remaining (inner_of reader.old)) (R.remaining (inner_of reader.new)) (take count piece.new))
        (λ _. Consumes (R.remaining (inner_of reader.old)) (R.remaining (inner_of reader.new)) []) }
    ensures ended { IfOk result (λ count. count ≡ 0 → 0 < length piece.old → HasRisen (ends_of reader.old) (ends_of reader.new)) }
    ensures going { IfOk result (λ count. 0 < count → ends_of reader.new ≡ ends_of reader.old) }
    ensures calm { OnOk result (failures_of reader.new ≡ failures_of reader.old) }
    ensures failed { IfErr result (λ e. (e ≡ fault) × HasRisen (failures_of reader.old) (failures_of reader.new)) }
{
    match reader.read(piece) {
        Ok(count) => Ok(count),
        Err(_) => Err(fault),
    }
}

/// Reads the next piece, of at most so many bytes. The end is a fault too.
pub fn read_some<R: Read, E: Drop>(
    reader: &mut Counted<R>,
    piece: &mut [u8],
    most: usize,
    fault: E,
) -> Result<usize, E>
    requires some { 0 < most }
    requires room { most ≤ length piece.old }
    ensures some { IfOk result (λ count. (0 < count) × (count ≤ most)) }
    ensures same { length piece.new ≡ length piece.old }
    ensures bytes { MatchResult result
        (λ count. Consumes (R.remaining (inner_of reader.old)) (R.remaining (inner_of reader.new)) (take count piece.new))
        (λ _. Consumes (R.remaining (inner_of reader.old)) (R.remaining (inner_of reader.new)) []) }
    ensures calm { OnOk result ((failures_of reader.new ≡ failures_of reader.old) × (ends_of reader.new ≡ ends_of reader.old)) }
    ensures failed { IfErr result (λ e. (e ≡ fault)
        × (HasRisen (failures_of reader.old) (failures_of reader.new) ⊎ HasRisen (ends_of reader.old) (ends_of reader.new))) }
{
    match reader.read(&mut piece[..most]) {
        Ok(0) => Err(fault),
        Ok(count) => Ok(count),
        Err(_) => Err(fault),
    }
}
