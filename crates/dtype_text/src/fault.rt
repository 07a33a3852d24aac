// SPDX-License-Identifier: Apache-2.0
// SPDX-FileCopyrightText: Copyright the Vortex contributors

// Why a reader of bytes stops.
ghost use Rattle.std.specs.Prelude.{◌≡◌, length};
ghost use Rattle.dtype_text.specs.Read.{IsMemory, IsMisread};
ghost use Rattle.dtype_text.specs.declared.fault.Fault.TheVariants.{Memory, Misread, Refused};

use crate::text_error::Expected;
use dtype_base::VortexError;
use std::alloc::{AllocError, AllocFailed};

/// Why bytes can't be read. A reader at the front of bytes doesn't know where in a text it is, so a fault contains how
/// many bytes of the text are left at its place.
#[derive(Debug, Drop)]
pub enum Fault {
    /// An allocation failed.
    Memory,
    /// The library refuses a part of what the text spells.
    Refused(VortexError),
    /// A type begins here that is more than 128 levels deep.
    TooDeep { left: usize },
    /// This was expected here.
    Misread { left: usize, expected: Expected },
}

impl From<AllocError> for Fault {
    ghost from_gives = { λ _ e. e ≡ Memory };

    fn from(_error: AllocError) -> Fault {
        Fault::Memory
    }
}

impl<T: Drop> From<AllocFailed<T>> for Fault {
    ghost from_gives = { λ _ e. e ≡ Memory };

    fn from(_error: AllocFailed<T>) -> Fault {
        Fault::Memory
    }
}

impl From<VortexError> for Fault {
    ghost from_gives = { IsMemory };

    fn from(error: VortexError) -> Fault {
        match error {
            VortexError::OutOfMemory => Fault::Memory,
            error => Fault::Refused(error),
        }
    }
}

/// Returns the fault that this was expected at the front of these bytes.
pub fn misread(bytes: &[u8], expected: Expected) -> Fault
    ensures kind { IsMisread result }
    ensures place { result ≡ Misread (length bytes.now) expected }
{
    Fault::Misread {
        left: bytes.len(),
        expected,
    }
}
