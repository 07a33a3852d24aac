// SPDX-License-Identifier: Apache-2.0
// SPDX-FileCopyrightText: Copyright the Vortex contributors

// The formats of Arrow without a type of their own here: durations and intervals. They are kept as extensions, whose metadata
// is Arrow's format, so that they can be written back.
ghost use Rattle.std.specs.Prelude.{◌≡◌};
ghost use Rattle.dtype_types.specs.tree.TreeOf.{tree};
ghost use Rattle.c_arrow.specs.Kept.{byte_is, has_bytes as has_bytes_spec, only_if as only_if_spec, id_of, is_byte as is_byte_spec, is_kept_as as is_kept_as_spec, is_list as is_list_spec, kept_of, nullability_in as nullability_spec};

use dtype_base::{Nullability, PType};
use dtype_types::DType;

/// What a format says that has no type of its own here and is kept as an extension.
#[derive(Clone, Copy, Debug, PartialEq, Eq)]
pub enum Kept {
    /// `tDs`, `tDm`, `tDu` or `tDn`: a duration in seconds, milliseconds, microseconds or nanoseconds
    Duration,
    /// `tiM`: an interval of months
    Months,
    /// `tiD`: an interval of days and milliseconds
    Days,
    /// `tin`: an interval of months, days and nanoseconds
    Nanoseconds,
}

impl Kept {
    /// Returns what the format says, or `None` if it is another format.
    #[tactic(auto, unfolding(crate::specs::Kept::kept_of))]
    pub(crate) fn of(format: &str) -> Option<Kept>
        ensures { result ≡ kept_of format.now }
    {
        match format {
            "tDs" => Some(Kept::Duration),
            "tDm" => Some(Kept::Duration),
            "tDu" => Some(Kept::Duration),
            "tDn" => Some(Kept::Duration),
            "tiM" => Some(Kept::Months),
            "tiD" => Some(Kept::Days),
            "tin" => Some(Kept::Nanoseconds),
            _ => None,
        }
    }

    /// Returns the id of the extension.
    #[tactic(auto, unfolding(crate::specs::Kept::id_of))]
    pub(crate) fn id(self) -> &'static str
        ensures { result.now ≡ id_of self }
    {
        match self {
            Kept::Duration => "arrow.duration",
            Kept::Months => "arrow.interval",
            Kept::Days => "arrow.interval",
            Kept::Nanoseconds => "arrow.interval",
        }
    }

    /// Returns whether the storage type is a list, which takes a level.
    #[tactic(auto, unfolding(crate::specs::Kept::is_list))]
    pub(crate) fn is_list(self) -> bool
        ensures { result ≡ is_list_spec self }
    {
        match self {
            Kept::Duration => false,
            Kept::Months => false,
            Kept::Days => true,
            Kept::Nanoseconds => true,
        }
    }

    /// Returns the nullability of a type, if it is the storage type.
    #[tactic(auto, unfolding(crate::specs::Kept::nullability_in))]
    pub(crate) fn nullability_in(self, dtype: &DType) -> Option<Nullability>
        ensures { result ≡ nullability_spec self (tree dtype.now) }
    {
        match dtype {
            DType::Primitive(ptype, n) => only_if(self.is_kept_as(*ptype), *n),
            DType::FixedSizeList(element, size, n) => {
                only_if(self.has_bytes(*size) && is_byte(element), *n)
            }
            _ => None,
        }
    }

    // Returns whether values of this type are those of durations and of months.
    #[tactic(auto, unfolding(crate::specs::Kept::is_kept_as))]
    fn is_kept_as(self, ptype: PType) -> bool
        ensures { result ≡ is_kept_as_spec self ptype }
    {
        match (self, ptype) {
            (Kept::Duration, PType::I64) => true,
            (Kept::Months, PType::I32) => true,
            _ => false,
        }
    }

    // Returns whether so many bytes are those of the other intervals.
    #[tactic(auto, unfolding(crate::specs::Kept::has_bytes))]
    fn has_bytes(self, size: u32) -> bool
        ensures { result ≡ has_bytes_spec self size }
    {
        match self {
            Kept::Duration | Kept::Months => false,
            Kept::Days => size == 8,
            Kept::Nanoseconds => size == 16,
        }
    }
}

// Returns the nullability if this is so.
fn only_if(is_so: bool, n: Nullability) -> Option<Nullability>
    ensures { result ≡ only_if_spec is_so n }
{
    if is_so { Some(n) } else { None }
}

/// Returns whether values of this type are bytes that can't be null.
#[tactic(auto, unfolding(crate::specs::Kept::is_byte, crate::specs::Kept::byte_is))]
pub(crate) fn is_byte(dtype: &DType) -> bool
    ensures { result ≡ is_byte_spec (tree dtype.now) }
{
    let DType::Primitive(ptype, n) = dtype else {
        return false;
    };
    match (*ptype, *n) {
        (PType::U8, Nullability::NonNullable) => true,
        _ => false,
    }
}
