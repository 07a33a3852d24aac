// SPDX-License-Identifier: Apache-2.0
// SPDX-FileCopyrightText: Copyright the Vortex contributors

// How deep a type is.
ghost use Rattle.std.specs.Prelude.{◌≡◌, ◌+◌, map, nat_le};
ghost use Rattle.dtype_types.specs.tree.TreeOf.{tree};
ghost use Rattle.vortex_logical_types.specs.Levels.{levels as level_count, levels_over};

use dtype_types::{DType, DTypeIter};

/// The greatest number of levels below a type that is made by these exports. Dropping such a type can't exhaust the
/// stack.
pub const MAX_LEVELS: u32 = 128;

/// Returns whether the type has at most this many levels below it. For example, `list(i32)` has 1 level below it.
#[cycle(levels)]
pub fn fits(dtype: &DType, levels: u32) -> bool
    ensures { result ≡ nat_le (level_count (tree dtype.now)) levels }
{
    match dtype {
        DType::List(element, _) => part_fits(element, levels),
        DType::FixedSizeList(element, _, _) => part_fits(element, levels),
        DType::Map(map, _) => {
            part_fits(map.key_dtype(), levels) && part_fits(map.value_dtype(), levels)
        }
        DType::Struct(fields, _) => parts_fit(fields.fields(), levels),
        DType::Union(variants, _) => parts_fit(variants.variants(), levels),
        DType::Extension(extension) => part_fits(extension.storage_dtype(), levels),
        _ => true,
    }
}

#[cycle(levels)]
fn part_fits(dtype: &DType, levels: u32) -> bool
    ensures { result ≡ nat_le (1 + level_count (tree dtype.now)) levels }
{
    match levels.checked_sub(1) {
        Some(levels) => fits(dtype, levels),
        None => false,
    }
}

#[cycle(levels)]
fn parts_fit(dtypes: DTypeIter<'_>, levels: u32) -> bool
    ensures { result ≡ nat_le (levels_over (map tree dtypes.entry)) levels }
{
    for dtype in dtypes {
        if !part_fits(dtype, levels) {
            return false;
        }
    }
    true
}

/// Returns whether what has parts of these types has at most this many levels.
pub fn all_fit(dtypes: &[DType], levels: u32) -> bool
    ensures { result ≡ nat_le (levels_over (map tree dtypes.now)) levels }
{
    for dtype in dtypes {
        if !part_fits(dtype, levels) {
            return false;
        }
    }
    true
}
