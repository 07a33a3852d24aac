// SPDX-License-Identifier: Apache-2.0
// SPDX-FileCopyrightText: Copyright the Vortex contributors

ghost use Rattle.std.specs.Prelude.{◌≡◌};
ghost use Rattle.c_nodes.specs.declared.write_fault.WriteFault.TheVariants.{OutOfMemory};

use std::alloc::{AllocError, AllocFailed};

/// Why `nodes_of` failed. The texts of a message are written as they are, so none of them is refused.
#[derive(Clone, Copy, Debug, PartialEq, Eq)]
pub enum WriteFault {
    /// An allocation failed.
    OutOfMemory,
    /// A message is nested in more than 128 others.
    TooDeep,
    /// A number of names, tags, types or bytes is above 2^32 - 1.
    OutOfRange,
}

impl From<AllocError> for WriteFault {
    ghost from_gives = { λ _ e. e ≡ OutOfMemory };

    fn from(_error: AllocError) -> WriteFault {
        WriteFault::OutOfMemory
    }
}

impl<T: Drop> From<AllocFailed<T>> for WriteFault {
    ghost from_gives = { λ _ e. e ≡ OutOfMemory };

    fn from(_error: AllocFailed<T>) -> WriteFault {
        WriteFault::OutOfMemory
    }
}
