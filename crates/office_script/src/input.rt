//! Reading the whole of a script.
ghost use Rattle.std.specs.Prelude.{◌≡◌, ◌<◌, ◌≤◌, ◌⊎◌, length, IfOk, IfSome, IsErrOf};
ghost use Rattle.mb_mbap.specs.Counted.{inner_of, failures_of, HasRisen};

use mb_mbap::Counted;
use std::alloc::Global;
use std::io::Read;

/// The greatest length of a script in bytes.
pub const SCRIPT_LIMIT: usize = 67_108_864;

/// Why a script wasn't read.
#[derive(Clone, Copy, Debug, PartialEq, Eq)]
pub(crate) enum InputFault {
    Read,
    Memory,
}

/// Reads to the end.
pub(crate) fn read_script<R: Read>(
    alloc: Global,
    reader: &mut Counted<R>,
) -> Result<Vec<u8>, InputFault>
    ensures bytes { IfOk result (λ script. IfSome (R.remaining (inner_of reader.old)) (λ input. script.items ≡ input)) }
    ensures short { IfOk result (λ script. length script.items ≤ SCRIPT_LIMIT) }
    ensures read { IsErrOf result InputFault.Read → HasRisen (failures_of reader.old) (failures_of reader.new)
        ⊎ IfSome (R.remaining (inner_of reader.old)) (λ input. SCRIPT_LIMIT < length input) }
{
    let mut script = Vec::new(alloc);
    let mut piece = [0u8; 65536];
    while script.len() <= SCRIPT_LIMIT {
        let Ok(count) = reader.read(&mut piece) else {
            return Err(InputFault::Read);
        };
        if count == 0 {
            return Ok(script);
        }
        let Ok(()) = script.extend_from_slice(&piece[..count]) else {
            return Err(InputFault::Memory);
        };
    }
    Err(InputFault::Read)
}
