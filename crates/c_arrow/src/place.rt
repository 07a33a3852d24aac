// SPDX-License-Identifier: Apache-2.0
// SPDX-FileCopyrightText: Copyright the Vortex contributors

// Where a field is.
ghost use Rattle.std.specs.Prelude.{◌≡◌, ◌+◌, ◌-◌, ◌<◌, ◌||◌, IfOk, false};
ghost use Rattle.dtype_base.specs.Nullability.{nullability_of};
ghost use Rattle.c_arrow.specs.Faults.{Gives};
ghost use Rattle.c_arrow.specs.Read.{level};

use crate::fault::{ArrowFault, Column};
use dtype_base::Nullability;

/// Where a field is: whether its type is nullable, how many levels the type may have, and how many fields may be inside this
/// one.
#[derive(Clone, Copy)]
pub(crate) struct Place {
    pub(crate) nullable: bool,
    pub(crate) levels: u32,
    pub(crate) fields: u32,
}

impl Place {
    /// Returns the place of a field whose type is a part of the type here.
    pub(crate) fn part(self) -> Result<Place, ArrowFault>
        ensures level { Gives (λ p. p.levels) result (level self.levels) }
        ensures place { IfOk result (λ p. (p.levels + 1 ≡ self.levels) × (p.fields ≡ self.fields) × (p.nullable ≡ false)) }
    {
        match self.levels.checked_sub(1) {
            Some(levels) => Ok(Place {
                nullable: false,
                levels,
                fields: self.fields,
            }),
            None => Err(ArrowFault::TooDeep(Column { names: None })),
        }
    }

    /// Returns the place of an extension's storage type.
    pub(crate) fn storage(self) -> Result<Place, ArrowFault>
        ensures level { Gives (λ p. p.levels) result (level self.levels) }
        ensures place { IfOk result (λ p. (p.levels + 1 ≡ self.levels) × (p.fields ≡ self.fields) × (p.nullable ≡ self.nullable)) }
    {
        match self.levels.checked_sub(1) {
            Some(levels) => Ok(Place { levels, ..self }),
            None => Err(ArrowFault::TooDeep(Column { names: None })),
        }
    }

    /// Returns the place of a field whose type is the type here.
    pub(crate) fn made_nullable(self, nullable: bool) -> Place
        ensures { (result.nullable ≡ (self.nullable || nullable)) × (result.levels ≡ self.levels) × (result.fields ≡ self.fields) }
    {
        Place {
            nullable: self.nullable || nullable,
            ..self
        }
    }

    /// Returns the place of a field inside this one.
    pub(crate) fn inner(self) -> Place
        requires { 0 < self.fields }
        ensures { (result.nullable ≡ self.nullable) × (result.levels ≡ self.levels) × (result.fields ≡ self.fields - 1) }
    {
        Place {
            fields: self.fields - 1,
            ..self
        }
    }

    /// Returns the nullability of the type here.
    pub(crate) fn nullability(self) -> Nullability
        ensures { result ≡ nullability_of self.nullable }
    {
        Nullability::from(self.nullable)
    }
}
