// SPDX-License-Identifier: Apache-2.0
// SPDX-FileCopyrightText: Copyright the Vortex contributors

// What exports write into buffers.
ghost use Rattle.vortex_logical_types.specs.AtOnce.{CopiesBoth};
ghost use Rattle.vortex_logical_types.specs.Vocabulary.{FillsWith};

use crate::errors::{OK, TOO_SMALL};

/// Writes the bytes to the front of `buffer` and the number of bytes to `length`, and returns 0. If the bytes don't
/// fit, it writes only their number and returns 7.
pub fn write_bytes(bytes: &[u8], buffer: &mut [u8], length: &mut usize) -> u32
    ensures { FillsWith bytes.now result (buffer.old, length.old) (buffer.new, length.new) }
{
    let size = bytes.len();
    *length = size;
    if size > buffer.len() {
        return TOO_SMALL;
    }
    buffer[..size].copy_from_slice(bytes);
    OK
}

/// Copies the items of two slices to the fronts of two buffers, and returns 0. If one of them doesn't fit, it copies
/// nothing and returns 7.
pub fn copy_both<X: Copy, Y: Copy>(
    first: &[X],
    second: &[Y],
    first_buffer: &mut [X],
    second_buffer: &mut [Y],
) -> u32
    ensures { CopiesBoth (first.now, second.now) result (first_buffer.old, second_buffer.old) (first_buffer.new, second_buffer.new) }
{
    let (first_count, second_count) = (first.len(), second.len());
    if first_count > first_buffer.len() || second_count > second_buffer.len() {
        return TOO_SMALL;
    }
    first_buffer[..first_count].copy_from_slice(first);
    second_buffer[..second_count].copy_from_slice(second);
    OK
}
