// SPDX-License-Identifier: Apache-2.0
// SPDX-FileCopyrightText: Copyright the Vortex contributors

ghost use Rattle.std.specs.Prelude.{◌≡◌, Some};
ghost use Rattle.dtype_demo.specs.declared.fault.DemoFault.TheVariants.{OutOfMemory};

use std::alloc::AllocError;
use std::error::Error;
use std::fmt;
use vortex_dtype::VortexError;

/// Why the program failed, for example `InputTooLong`, which prints `input too long`.
#[derive(Clone, Copy, Debug, PartialEq, Eq)]
pub enum DemoFault {
    /// The reader failed.
    ReadFailed,
    /// The writer failed.
    WriteFailed,
    /// The input has more than 1,048,576 bytes.
    InputTooLong,
    /// The input isn't UTF-8.
    NotUtf8,
    /// An allocation failed.
    OutOfMemory,
}

impl fmt::Display for DemoFault {
    ghost use Rattle.dtype_demo.specs.Faults.{fault_text};

    ghost output = { λ f. Some (fault_text f) };

    fn fmt<W: fmt::Write>(&self, f: &mut fmt::Formatter<W>) -> fmt::Result {
        match self {
            DemoFault::ReadFailed => write!(f, "read failed"),
            DemoFault::WriteFailed => write!(f, "write failed"),
            DemoFault::InputTooLong => write!(f, "input too long"),
            DemoFault::NotUtf8 => write!(f, "not UTF-8"),
            DemoFault::OutOfMemory => write!(f, "out of memory"),
        }
    }
}

impl Error for DemoFault {}

impl From<AllocError> for DemoFault {
    ghost from_gives = { λ _ e. e ≡ OutOfMemory };

    fn from(_error: AllocError) -> DemoFault {
        DemoFault::OutOfMemory
    }
}

// Running out of memory is the only error that the library calls of the program return.
impl From<VortexError> for DemoFault {
    ghost from_gives = { λ _ e. e ≡ OutOfMemory };

    fn from(_error: VortexError) -> DemoFault {
        DemoFault::OutOfMemory
    }
}
