//! Bytes as two hexadecimal digits each.
ghost use Rattle.std.specs.Prelude.{◌≡◌, ◌++◌, ◌∷◌, [], IfOk, OnOk, option_map};
ghost use Rattle.hex.specs.Hex.{encode_upper};
ghost use Rattle.office_script.specs.Words.{byte_of, bytes_of, texts};

use hex::FromHex;
use std::alloc::{AllocError, Global};

/// The byte that two hexadecimal digits spell, in either case.
fn byte(word: &[u8]) -> Option<u8>
    ensures { result ≡ byte_of word.now }
{
    match <[u8; 1]>::from_hex(word) {
        Ok(bytes) => Some(bytes[0]),
        Err(_) => None,
    }
}

/// The bytes that words spell, each of them one.
pub fn bytes(alloc: Global, spelled: &[&[u8]]) -> Result<Option<Vec<u8>>, AllocError>
    ensures { IfOk result (λ bytes. option_map (λ v. v.items) bytes ≡ bytes_of (texts spelled.now)) }
{
    let mut bytes = Vec::with_capacity(alloc, spelled.len())?;
    for word in spelled {
        let Some(value) = byte(word) else {
            return Ok(None);
        };
        bytes.push(value)?;
    }
    Ok(Some(bytes))
}

/// Adds the digits of a byte, in upper case.
pub fn push_byte(alloc: Global, out: &mut Vec<u8>, byte: u8) -> Result<(), AllocError>
    ensures { OnOk result (out.new.items ≡ out.old.items ++ encode_upper (byte ∷ [])) }
{
    let digits = hex::encode_upper(alloc, [byte])?;
    out.extend_from_slice(digits.as_bytes())
}
