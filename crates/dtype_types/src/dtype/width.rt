// SPDX-License-Identifier: Apache-2.0
// SPDX-FileCopyrightText: Copyright the Vortex contributors

// The number of bytes that each value of a type takes.
ghost use Rattle.std.specs.Prelude.{◌≡◌, ◌↔◌, ◌++◌, ◌∷◌, ℕ, List, [], IfOk, IfSome, IsErr, IsSome, MatchResult};
ghost use Rattle.dtype_base.specs.declared.nullability.Nullability.{Nullability};
ghost use Rattle.dtype_base.specs.declared.vortex_error.VortexError.TheVariants.{WidthOverflow};
ghost use Rattle.dtype_types.specs.tree.Tree.{Tree, fixed_size_list};
ghost use Rattle.dtype_types.specs.tree.TreeOf.{tree};
ghost use Rattle.dtype_types.specs.tree.Width.{Fixed, HasWidePart, Measures, MeasuresFields, width};

use crate::DType;
use dtype_base::{DecimalType, VortexError, VortexResult};

// The width of a type, or why it has none.
#[derive(Clone, Copy)]
pub(crate) enum Width {
    // Some part is of variable width.
    Variable,
    // No part is of variable width, and the width of some part is above `usize::MAX`.
    TooWide,
    Bytes(usize),
}

impl Width {
    // Returns the width of a list of `size` elements of this width.
    fn times(self, size: u32) -> Width
        ensures { (t : Tree) (n : Nullability) → Measures self t
            → Measures result (fixed_size_list t size n) }
    {
        match self {
            Width::Variable => Width::Variable,
            Width::TooWide => Width::TooWide,
            Width::Bytes(bytes) => match bytes.checked_mul(size as usize) {
                Some(bytes) => Width::Bytes(bytes),
                None => Width::TooWide,
            },
        }
    }

    // Returns the width of a struct whose fields have this width together, followed by one more field.
    #[tactic(auto, using(crate::proofs::Widths::fixed_parts))]
    pub(crate) fn plus(self, field: Width) -> Width
        ensures { (ps : List (List ℕ × Tree)) (p : List ℕ × Tree) → MeasuresFields self ps
            → Measures field p.1 → MeasuresFields result (ps ++ p ∷ []) }
    {
        match self {
            Width::Variable => Width::Variable,
            Width::TooWide => match field {
                Width::Variable => Width::Variable,
                Width::TooWide | Width::Bytes(_) => Width::TooWide,
            },
            Width::Bytes(bytes) => match field {
                Width::Variable => Width::Variable,
                Width::TooWide => Width::TooWide,
                Width::Bytes(more) => match bytes.checked_add(more) {
                    Some(bytes) => Width::Bytes(bytes),
                    None => Width::TooWide,
                },
            },
        }
    }
}

impl DType {
    // Returns the width of the type.
    #[cycle(width)]
    pub(crate) fn width(&self) -> Width
        ensures { Measures result (tree self.now) }
    {
        match self {
            DType::Null => Width::Bytes(0),
            DType::Bool(_) => Width::Bytes(1),
            DType::Primitive(ptype, _) => Width::Bytes(ptype.byte_width()),
            DType::Decimal(decimal, _) => {
                Width::Bytes(DecimalType::smallest_decimal_value_type(decimal).byte_width())
            }
            DType::FixedSizeList(element, size, _) => element.width().times(*size),
            DType::Struct(fields, _) => fields.width(),
            DType::Extension(extension) => extension.width(),
            DType::Utf8(_)
            | DType::Binary(_)
            | DType::List(_, _)
            | DType::Map(_, _)
            | DType::Union(_, _)
            | DType::Variant(_) => Width::Variable,
        }
    }

    /// Returns the number of bytes that each value of the type takes, or `None` if the type is of variable width. These
    /// types are of fixed width:
    /// - `Null` takes 0 bytes and `Bool` takes 1 byte.
    /// - A `Primitive` takes the width of its primitive type.
    /// - A `Decimal` takes the width of the smallest storage type for its precision.
    /// - A `FixedSizeList` takes its size times the width of its element type.
    /// - A `Struct` takes the sum of the widths of its fields.
    /// - An `Extension` takes the width of its storage type.
    ///
    /// If one part of the type, such as an element type or a field, is of variable width, then so is the whole type.
    /// That is so even if the part is the element type of a fixed-size list of size 0.
    ///
    /// # Errors
    ///
    /// - `WidthOverflow` (19): the type is of fixed width, and its width or the width of some part of it is above
    ///   `usize::MAX`.
    pub fn element_size(&self) -> VortexResult<Option<usize>>
        ensures ok { MatchResult result
            (λ size. IsSome size ↔ Fixed (tree self.now)) (λ e. e ≡ WidthOverflow) }
        ensures too_wide { IsErr result ↔ (Fixed (tree self.now) × HasWidePart (tree self.now)) }
        ensures width { IfOk result (λ size. IfSome size (λ bytes. bytes ≡ width (tree self.now))) }
    {
        match self.width() {
            Width::Variable => Ok(None),
            Width::TooWide => Err(VortexError::WidthOverflow),
            Width::Bytes(bytes) => Ok(Some(bytes)),
        }
    }
}
