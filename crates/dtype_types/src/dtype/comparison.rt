// SPDX-License-Identifier: Apache-2.0
// SPDX-FileCopyrightText: Copyright the Vortex contributors

// Comparisons of types by their nullabilities, at every depth.
ghost use Rattle.std.specs.Prelude.{◌↔◌, IsTrue};
ghost use Rattle.dtype_types.specs.nullability.Sub.{Sub};
ghost use Rattle.dtype_types.specs.tree.TreeOf.{tree};

use crate::DType;
use crate::dtype::equality::{NullabilityRule, equal_under};

#[tactic(auto, using(crate::specs::equality::EqualityLaws::sub_Decides))]
impl DType {
    /// Returns whether this type is a subset of the other. It is a subset if the two types are equal except for
    /// nullabilities, and the other type is nullable in each place in which this type is, at every depth. For example,
    /// `{a=i32, b=utf8}` is a subset of `{a=i32?, b=utf8}`. Each value of a subset is a value of the other type.
    ///
    /// The call doesn't allocate.
    pub fn eq_with_nullability_subset(&self, other: &DType) -> bool
        ensures { IsTrue result ↔ Sub (tree self.now) (tree other.now) }
    {
        equal_under(self, other, NullabilityRule::Within)
    }

    /// Returns whether the other type is a subset of this type. For example, the call returns `true` if this type is
    /// `i32?` and the other is `i32`. It returns what `eq_with_nullability_subset` returns if the two types are
    /// exchanged.
    ///
    /// The call doesn't allocate.
    pub fn eq_with_nullability_superset(&self, other: &DType) -> bool
        ensures { IsTrue result ↔ Sub (tree other.now) (tree self.now) }
    {
        equal_under(other, self, NullabilityRule::Within)
    }
}
