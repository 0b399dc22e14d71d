ghost use Rattle.std.specs.Prelude.{◌≡◌, ◌≢◌, ◌≤◌, [], length, IfOk, IfErr, IsTrue, ◌⊎◌};

use crate::files::FileFault;
use std::alloc::Global;
use std::io::{Read, Write};

/// How many bytes one call of the system is asked for at most.
const BLOCK: usize = 65536;

/// Reads to the end, if at most `limit` bytes come. A read of no bytes is the end.
pub fn read_all<R: Read>(alloc: Global, reader: &mut R, limit: u64) -> Result<Vec<u8>, FileFault>
    ensures { IfOk result (λ bytes. length bytes.items ≤ limit) }
{
    let mut bytes = Vec::new(alloc);
    let mut block = [0u8; BLOCK];
    let mut left = limit;
    'reading: loop {
        let Ok(count) = reader.read(&mut block) else {
            return Err(FileFault::Failed);
        };
        if count == 0 {
            return Ok(bytes);
        }
        if count as u64 > left {
            return Err(FileFault::TooLong);
        }
        left -= count as u64;
        if bytes.extend_from_slice(&block[..count]).is_err() {
            return Err(FileFault::Memory);
        }
    }
}

/// Writes all of these bytes, and tells whether it could. A write of no bytes is a fault.
pub fn write_all<W: Write>(writer: &mut W, bytes: &[u8]) -> bool
    ensures { bytes.now ≡ [] → IsTrue result }
{
    let mut rest = bytes;
    'pieces: while !rest.is_empty() {
        match writer.write(rest) {
            Ok(0) | Err(_) => return false,
            Ok(count) => rest = &rest[count..],
        }
    }
    true
}
