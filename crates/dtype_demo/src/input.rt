// SPDX-License-Identifier: Apache-2.0
// SPDX-FileCopyrightText: Copyright the Vortex contributors

ghost use Rattle.std.specs.Prelude.{◌≡◌, ◌+◌, ◌<◌, ◌≤◌, ◌⊎◌, length, vec_len, IfOk, IfErr, IfSome, IsErrOf};
ghost use Rattle.dtype_demo.specs.Input.{TakesAtMost, input_limit};

use crate::DemoFault;
use std::alloc::Global;
use std::io::Read;

/// The greatest number of bytes of input that the program accepts.
pub const INPUT_LIMIT: usize = 1_048_576;

// Returns the whole input, up to the limit. If there is more, only one byte past the limit is read. Each read except
// the last returns at least one byte, so the number of reads is at most one more than the number of bytes.
pub fn read_all<R: Read>(alloc: Global, reader: &mut R) -> Result<Vec<u8>, DemoFault>
    ensures all { IfOk result (λ v. IfSome (R.remaining reader.old) (λ bytes. v.items ≡ bytes)) }
    ensures within { IfOk result (λ v. vec_len v ≤ input_limit) }
    ensures too_long { IsErrOf result DemoFault.InputTooLong →
        IfSome (R.remaining reader.old) (λ bytes. input_limit < length bytes) }
    ensures unread { IsErrOf result DemoFault.ReadFailed →
        TakesAtMost input_limit (R.remaining reader.old) (R.remaining reader.new) }
    ensures errors { IfErr result (λ fault. (fault ≡ DemoFault.ReadFailed)
        ⊎ (fault ≡ DemoFault.InputTooLong) ⊎ (fault ≡ DemoFault.OutOfMemory)) }
    ensures no_more { TakesAtMost (input_limit + 1)
        (R.remaining reader.old) (R.remaining reader.new) }
{
    let mut bytes = Vec::new(alloc);
    let mut buffer = [0; 4096];
    while bytes.len() <= INPUT_LIMIT {
        let room = buffer.len().min(INPUT_LIMIT + 1 - bytes.len());
        let count = reader
            .read(&mut buffer[..room])
            .map_err(|_| DemoFault::ReadFailed)?;
        if count == 0 {
            return Ok(bytes);
        }
        bytes.extend_from_slice(&buffer[..count])?;
    }
    Err(DemoFault::InputTooLong)
}
