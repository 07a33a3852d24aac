// SPDX-License-Identifier: Apache-2.0
// SPDX-FileCopyrightText: Copyright the Vortex contributors

ghost use Rattle.std.specs.Prelude.{◌≡◌, ◌↔◌, IsTrue, Some, true, false};

use std::fmt;
use std::ops::{BitOr, BitOrAssign};

/// Whether values of a type may be null. For example, the type `i32?` is nullable, and the type `i32` isn't.
#[derive(Clone, Copy, Debug, Default, PartialEq, Eq, Hash)]
pub enum Nullability {
    /// No value of the type is null.
    #[default]
    NonNullable,
    /// A value of the type may be null.
    Nullable,
}

impl Nullability {
    ghost use Rattle.dtype_base.specs.Nullability.{long_text};

    /// Returns whether this is `Nullable`.
    pub fn is_nullable(&self) -> bool
        ensures { IsTrue result ↔ (self.now ≡ Nullability.Nullable) }
    {
        match self {
            Nullability::NonNullable => false,
            Nullability::Nullable => true,
        }
    }

    /// Returns the variant's name, `Nullable` or `NonNullable`, for messages to people.
    pub fn long_text(&self) -> &'static str
        ensures { result.now ≡ long_text self.now }
    {
        match self {
            Nullability::NonNullable => "NonNullable",
            Nullability::Nullable => "Nullable",
        }
    }
}

/// Returns `NonNullable` if both operands are `NonNullable`, and otherwise `Nullable`.
impl BitOr for Nullability {
    ghost use Rattle.dtype_base.specs.Nullability.{either};

    type Output = Nullability;

    ghost bitor_gives = { λ a b c. c ≡ either a b };

    fn bitor(self, other: Nullability) -> Nullability {
        match self {
            Nullability::NonNullable => other,
            Nullability::Nullable => Nullability::Nullable,
        }
    }
}

impl BitOrAssign for Nullability {
    ghost use Rattle.dtype_base.specs.Nullability.{either};

    ghost bitor_assign_gives = { λ a b c. c ≡ either a b };

    fn bitor_assign(&mut self, other: Nullability) {
        *self = *self | other;
    }
}

/// Returns `Nullable` for `true` and `NonNullable` for `false`.
impl From<bool> for Nullability {
    ghost use Rattle.dtype_base.specs.Nullability.{nullability_of};

    ghost from_gives = { λ b n. n ≡ nullability_of b };

    fn from(nullable: bool) -> Nullability {
        if nullable {
            Nullability::Nullable
        } else {
            Nullability::NonNullable
        }
    }
}

/// Returns `true` for `Nullable` and `false` for `NonNullable`.
impl From<Nullability> for bool {
    ghost use Rattle.dtype_base.specs.Nullability.{nullability_of};

    ghost from_gives = { λ n b. nullability_of b ≡ n };

    fn from(nullability: Nullability) -> bool {
        nullability.is_nullable()
    }
}

/// Prints `?` for `Nullable`, and nothing for `NonNullable`. For example, the text of a nullable `i32` is `i32?`, and
/// the text of a non-nullable one is `i32`.
impl fmt::Display for Nullability {
    ghost use Rattle.dtype_base.specs.Nullability.{nullability_text};

    ghost output = { λ n. Some (nullability_text n) };

    fn fmt<W: fmt::Write>(&self, f: &mut fmt::Formatter<W>) -> fmt::Result {
        match self {
            Nullability::NonNullable => write!(f, ""),
            Nullability::Nullable => write!(f, "?"),
        }
    }
}
