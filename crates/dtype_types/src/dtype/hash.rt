// SPDX-License-Identifier: Apache-2.0
// SPDX-FileCopyrightText: Copyright the Vortex contributors

// Hashes of types: one walk, with the nullabilities or without them.
ghost use Rattle.std.specs.Prelude.{◌≡◌, ◌<◌, fold};
ghost use Rattle.dtype_types.specs.equality.Hashes.{hash_of, kind_writes, hash_writes_ignoring_nullability};
ghost use Rattle.dtype_types.specs.tree.TreeOf.{tree};

use crate::{DType, Kind};
use dtype_base::Nullability;
use std::hash::{Hash, Hasher};

// Whether a hash covers the whole type, or the type with its nullabilities erased.
#[derive(Clone, Copy)]
pub(crate) enum HashMode {
    Whole,
    Erased,
}

impl HashMode {
    // Hashes one byte: the number of a type's kind, and whether it is nullable if nullabilities count.
    fn hash_head<H: Hasher>(self, number: u8, nullability: Nullability, state: &mut H)
        requires { number < 128 }
        ensures { state.new ≡ fold H.write state.old (kind_writes self number nullability) }
    {
        let mark = match (self, nullability) {
            (HashMode::Whole, Nullability::Nullable) => 1,
            _ => 0,
        };
        state.write_u8(2 * number + mark);
    }
}

// Hashes the type.
#[cycle(hash)]
pub(crate) fn hash_into<H: Hasher>(dtype: &DType, mode: HashMode, state: &mut H)
    ensures { state.new ≡ fold H.write state.old (hash_of mode (tree dtype.now)) }
{
    let number = dtype.kind().number();
    match dtype {
        DType::Null => mode.hash_head(number, Nullability::NonNullable, state),
        DType::Bool(n) => mode.hash_head(number, *n, state),
        DType::Primitive(ptype, n) => {
            mode.hash_head(Kind::Extension.number() + 1 + *ptype as u8, *n, state);
        }
        DType::Decimal(decimal, n) => {
            mode.hash_head(number, *n, state);
            state.write_u8(decimal.precision());
            state.write_i8(decimal.scale());
        }
        DType::Utf8(n) => mode.hash_head(number, *n, state),
        DType::Binary(n) => mode.hash_head(number, *n, state),
        DType::List(element, n) => {
            mode.hash_head(number, *n, state);
            hash_into(element, mode, state);
        }
        DType::FixedSizeList(element, size, n) => {
            mode.hash_head(number, *n, state);
            state.write_u32(*size);
            hash_into(element, mode, state);
        }
        DType::Map(map, n) => {
            mode.hash_head(number, *n, state);
            map.hash_into(mode, state);
        }
        DType::Struct(fields, n) => {
            mode.hash_head(number, *n, state);
            fields.hash_into(mode, state);
        }
        DType::Union(variants, n) => {
            mode.hash_head(number, *n, state);
            variants.hash_into(mode, state);
        }
        DType::Variant(n) => mode.hash_head(number, *n, state),
        DType::Extension(extension) => {
            mode.hash_head(number, Nullability::NonNullable, state);
            extension.hash_into(mode, state);
        }
    }
}

impl DType {
    /// Writes the type, without the nullabilities in it, to the hasher. Two types that are equal by
    /// `eq_ignore_nullability`, such as `list(i32?)` and `list(i32)?`, write the same.
    pub fn hash_ignore_nullability<H: Hasher>(&self, state: &mut H)
        ensures { state.new ≡ fold H.write state.old (hash_writes_ignoring_nullability (tree self.now)) }
    {
        hash_into(self, HashMode::Erased, state);
    }
}

impl Hash for DType {
    ghost use Rattle.dtype_types.specs.equality.HashLaws.{equal_types_hash_alike};
    ghost use Rattle.dtype_types.specs.equality.Hashes.{hash_writes};

    ghost hash_input = { λ d. hash_writes (tree d) };

    ghost respects_eq = { equal_types_hash_alike };

    fn hash<H: Hasher>(&self, state: &mut H) {
        hash_into(self, HashMode::Whole, state);
    }
}
