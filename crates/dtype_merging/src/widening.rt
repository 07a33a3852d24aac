// SPDX-License-Identifier: Apache-2.0
// SPDX-FileCopyrightText: Copyright the Vortex contributors

// Which numbers may be read as which.
ghost use Rattle.std.specs.Prelude.{◌≡◌};
ghost use Rattle.dtype_merging.specs.Widens.{common_decimal, common_ptype, decimal_reads, form_of, has_integers, ptype_reads, signed_above};

use dtype_base::{DecimalDType, PType};

/// Which types of numbers may be read as wider ones. It is the caller's choice, because a program that reads a number as a
/// wider one needs to convert it.
///
/// For example, `Widening::Integers` allows a column of `i32` to be read as one of `i64`.
#[derive(Clone, Copy, Debug, Default, PartialEq, Eq, Hash)]
pub enum Widening {
    /// Each type of numbers is read as the same type only.
    #[default]
    None,
    /// An integer type is also read as an integer type that has all its values, for example `i32` as `i64` and `u8` as
    /// `i16`, and a decimal as a decimal of the same scale and a greater precision. Floating-point types are read as the
    /// same type only.
    Integers,
}

impl Widening {
    // Returns whether this allows numbers of the first type to be read as numbers of the second.
    pub(crate) fn reads_ptype(self, from: PType, to: PType) -> bool
        ensures { result ≡ ptype_reads self from to }
    {
        match self {
            Widening::None => from == to,
            Widening::Integers => from == to || has_integers(from, to),
        }
    }

    // Returns whether this allows decimals of the first type to be read as decimals of the second.
    pub(crate) fn reads_decimal(self, from: DecimalDType, to: DecimalDType) -> bool
        ensures { result ≡ decimal_reads self from to }
    {
        match self {
            Widening::None => from.precision() == to.precision() && from.scale() == to.scale(),
            Widening::Integers => {
                from.precision() <= to.precision() && from.scale() == to.scale()
            }
        }
    }

    // Returns the least type as which numbers of both types can be read, or `None` if there is none.
    pub(crate) fn common_ptype(self, one: PType, other: PType) -> Option<PType>
        ensures { result ≡ common_ptype self one other }
    {
        if self.reads_ptype(one, other) {
            return Some(other);
        }
        if self.reads_ptype(other, one) {
            return Some(one);
        }
        let above = match signed_above(one) {
            Some(above) => above,
            None => signed_above(other)?,
        };
        if self.reads_ptype(one, above) && self.reads_ptype(other, above) {
            Some(above)
        } else {
            None
        }
    }

    // Returns the least decimal type as which decimals of both types can be read, or `None` if there is none.
    pub(crate) fn common_decimal(
        self,
        one: DecimalDType,
        other: DecimalDType,
    ) -> Option<DecimalDType>
        ensures { result ≡ common_decimal self one other }
    {
        if self.reads_decimal(one, other) {
            Some(other)
        } else if self.reads_decimal(other, one) {
            Some(one)
        } else {
            None
        }
    }
}

// Returns whether each integer of the first type is one of the second.
fn has_integers(from: PType, to: PType) -> bool
    ensures { result ≡ has_integers from to }
{
    match (form_of(from), form_of(to)) {
        (Some((signed, digits)), Some((may_be_signed, most))) => {
            (!signed || may_be_signed) && digits <= most
        }
        (None, _) | (Some(_), None) => false,
    }
}

// Returns whether the integers of the type have a sign, and how many binary digits they have besides. Returns `None` for a
// floating-point type.
fn form_of(ptype: PType) -> Option<(bool, u32)>
    ensures { result ≡ form_of ptype }
{
    match ptype {
        PType::U8 => Some((false, 8)),
        PType::U16 => Some((false, 16)),
        PType::U32 => Some((false, 32)),
        PType::U64 => Some((false, 64)),
        PType::I8 => Some((true, 7)),
        PType::I16 => Some((true, 15)),
        PType::I32 => Some((true, 31)),
        PType::I64 => Some((true, 63)),
        PType::F16 | PType::F32 | PType::F64 => None,
    }
}

// Returns the narrowest signed type that has all integers of this unsigned type, if there is one.
fn signed_above(ptype: PType) -> Option<PType>
    ensures { result ≡ signed_above ptype }
{
    match ptype {
        PType::U8 => Some(PType::I16),
        PType::U16 => Some(PType::I32),
        PType::U32 => Some(PType::I64),
        PType::U64
        | PType::I8
        | PType::I16
        | PType::I32
        | PType::I64
        | PType::F16
        | PType::F32
        | PType::F64 => None,
    }
}
