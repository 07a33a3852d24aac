// SPDX-License-Identifier: Apache-2.0
// SPDX-FileCopyrightText: Copyright the Vortex contributors

ghost use Rattle.std.specs.Prelude.{◌≡◌};
ghost use Rattle.c_nodes.specs.declared.fault.NodeFault.TheVariants.{OutOfMemory};

use std::alloc::{AllocError, AllocFailed};

/// Why `message_of` failed.
#[derive(Clone, Copy, Debug, PartialEq, Eq)]
pub enum NodeFault {
    /// An allocation failed.
    OutOfMemory,
    /// A name or an id isn't UTF-8.
    NotUtf8,
    /// A message is nested in more than 128 others.
    TooDeep,
    /// The nodes and texts aren't those of one message.
    OutOfRange,
}

impl From<AllocError> for NodeFault {
    ghost from_gives = { λ _ e. e ≡ OutOfMemory };

    fn from(_error: AllocError) -> NodeFault {
        NodeFault::OutOfMemory
    }
}

impl<T: Drop> From<AllocFailed<T>> for NodeFault {
    ghost from_gives = { λ _ e. e ≡ OutOfMemory };

    fn from(_error: AllocFailed<T>) -> NodeFault {
        NodeFault::OutOfMemory
    }
}
