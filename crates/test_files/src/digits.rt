//! Bytes that are written as hexadecimal digits.

ghost use Rattle.std.specs.Prelude.{◌≡◌, IfOk, option_map};
ghost use Rattle.test_files.specs.Inputs.{bytes_written};

use hex::FromHexError;
use std::alloc::{AllocError as NoMemory, Global};

/// The bytes that the digits write; none where they are not hexadecimal digits, two for a byte.
pub(crate) fn decode(alloc: Global, digits: &str) -> Result<Option<Vec<u8>>, NoMemory>
    ensures { IfOk result (λ found. option_map (λ bytes. bytes.items) found
        ≡ bytes_written digits.now) }
{
    match hex::decode(alloc, digits) {
        Ok(bytes) => Ok(Some(bytes)),
        Err(FromHexError::OutOfMemory) => Err(NoMemory),
        Err(_) => Ok(None),
    }
}
