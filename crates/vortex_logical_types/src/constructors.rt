// SPDX-License-Identifier: Apache-2.0
// SPDX-FileCopyrightText: Copyright the Vortex contributors

// Types: constructors.
ghost use Rattle.std.specs.Prelude.{◌≡◌, ◌+◌};
ghost use Rattle.dtype_base.specs.Nullability.{nullability_of};
ghost use Rattle.dtype_base.specs.Errors.{Makes};
ghost use Rattle.dtype_types.specs.tree.Tree as t;
ghost use Rattle.dtype_types.specs.tree.TreeOf.{tree};
ghost use Rattle.vortex_logical_types.specs.Levels.{levels};
ghost use Rattle.vortex_logical_types.specs.Slots.{type_in};
ghost use Rattle.vortex_logical_types.specs.Types.{makes_decimal, ptype_numbered};
ghost use Rattle.vortex_logical_types.specs.Vocabulary.{Puts, PutsOr, gives, in_range, on, unless_deep, unless_memory};

use crate::errors::{KIND, RANGE, TOO_DEEP};
use crate::failures::fail_with;
use crate::levels::{MAX_LEVELS, fits};
use crate::objects::{put, put_made};
use crate::views::as_dtype;
use c_objects::{Object, Slot};
use dtype_base::{DecimalDType, Nullability, PType, VortexResult};
use dtype_types::DType;
use std::alloc::Global;

/// Stores in `out` the null type, which is always nullable.
#[unsafe(no_mangle)]
pub extern "C" fn vlt_core_dtype_null(alloc: Global, out: &mut Slot) -> u32
    ensures { Puts type_in (unless_memory (gives t.null)) result out.old.value out.new.value }
{
    put(alloc, out, Object::DType(DType::Null))
}

/// Stores in `out` the type of booleans. The type is nullable if `nullable` is true.
#[unsafe(no_mangle)]
pub extern "C" fn vlt_core_dtype_bool(alloc: Global, nullable: bool, out: &mut Slot) -> u32
    ensures { Puts type_in (unless_memory (gives (t.bool (nullability_of nullable)))) result out.old.value out.new.value }
{
    let dtype = DType::Bool(Nullability::from(nullable));
    put(alloc, out, Object::DType(dtype))
}

/// Stores in `out` the type of UTF-8 strings. The type is nullable if `nullable` is true.
#[unsafe(no_mangle)]
pub extern "C" fn vlt_core_dtype_utf8(alloc: Global, nullable: bool, out: &mut Slot) -> u32
    ensures { Puts type_in (unless_memory (gives (t.utf8 (nullability_of nullable)))) result out.old.value out.new.value }
{
    let dtype = DType::Utf8(Nullability::from(nullable));
    put(alloc, out, Object::DType(dtype))
}

/// Stores in `out` the type of byte strings. The type is nullable if `nullable` is true.
#[unsafe(no_mangle)]
pub extern "C" fn vlt_core_dtype_binary(alloc: Global, nullable: bool, out: &mut Slot) -> u32
    ensures { Puts type_in (unless_memory (gives (t.binary (nullability_of nullable)))) result out.old.value out.new.value }
{
    let dtype = DType::Binary(Nullability::from(nullable));
    put(alloc, out, Object::DType(dtype))
}

/// Stores in `out` the variant type. Each of its values carries its own type. The type is nullable if `nullable` is
/// true.
#[unsafe(no_mangle)]
pub extern "C" fn vlt_core_dtype_variant(alloc: Global, nullable: bool, out: &mut Slot) -> u32
    ensures { Puts type_in (unless_memory (gives (t.variant (nullability_of nullable)))) result out.old.value out.new.value }
{
    let dtype = DType::Variant(Nullability::from(nullable));
    put(alloc, out, Object::DType(dtype))
}

/// Stores in `out` a primitive type. The number is 0 for u8, 1 for u16, 2 for u32, 3 for u64, 4 for i8, 5 for i16, 6
/// for i32, 7 for i64, 8 for f16, 9 for f32 and 10 for f64. Returns 9 if the number is above 10. The type is nullable
/// if `nullable` is true.
#[unsafe(no_mangle)]
pub extern "C" fn vlt_core_dtype_primitive(
    alloc: Global,
    number: u32,
    nullable: bool,
    out: &mut Slot,
) -> u32
    ensures { Puts type_in
        (in_range (ptype_numbered number) (λ p. unless_memory (gives (t.primitive p (nullability_of nullable)))))
        result out.old.value out.new.value }
{
    let Some(ptype) = ptype_of_number(number) else {
        return RANGE;
    };
    let dtype = DType::Primitive(ptype, Nullability::from(nullable));
    put(alloc, out, Object::DType(dtype))
}

fn ptype_of_number(number: u32) -> Option<PType>
    ensures { result ≡ ptype_numbered number }
{
    match number {
        0 => Some(PType::U8),
        1 => Some(PType::U16),
        2 => Some(PType::U32),
        3 => Some(PType::U64),
        4 => Some(PType::I8),
        5 => Some(PType::I16),
        6 => Some(PType::I32),
        7 => Some(PType::I64),
        8 => Some(PType::F16),
        9 => Some(PType::F32),
        10 => Some(PType::F64),
        _ => None,
    }
}

/// Stores in `out` the decimal type of this precision and this scale. The type is nullable if `nullable` is true.
///
/// Returns 101 if the precision is 0, 102 if the precision is above 76, 103 if the scale is above 76, and 104 if the
/// scale is above the precision. If several of these are so, it returns the first of these numbers. The error with its
/// numbers is in `error` then.
#[unsafe(no_mangle)]
pub extern "C" fn vlt_core_dtype_decimal(
    alloc: Global,
    precision: u8,
    scale: i8,
    nullable: bool,
    out: &mut Slot,
    error: &mut Slot,
) -> u32
    ensures { PutsOr type_in (unless_memory (makes_decimal precision scale (nullability_of nullable)))
        result out.old.value out.new.value error.old.value error.new.value }
{
    match DecimalDType::try_new(precision, scale) {
        Ok(decimal) => {
            let dtype = DType::Decimal(decimal, Nullability::from(nullable));
            put(alloc, out, Object::DType(dtype))
        }
        Err(why) => fail_with(alloc, error, why),
    }
}

/// Stores in `out` the list type with the element type in `element`. Its values are lists of any length. The list type
/// is nullable if `nullable` is true. Returns 6 if the element type has 128 levels.
#[unsafe(no_mangle)]
pub extern "C" fn vlt_core_dtype_list(
    alloc: Global,
    element: &mut Slot,
    nullable: bool,
    out: &mut Slot,
) -> u32
    ensures puts { Puts type_in
        (on (type_in element.old.value) (λ e. unless_deep (1 + levels e) (unless_memory (gives (t.list e (nullability_of nullable))))))
        result out.old.value out.new.value }
    ensures kept { element.new.value ≡ element.old.value }
{
    let Some(element) = as_dtype(element) else {
        return KIND;
    };
    if !fits(element, MAX_LEVELS - 1) {
        return TOO_DEEP;
    }
    let made = list_of(alloc, element, Nullability::from(nullable));
    put_made(alloc, out, made)
}

fn list_of(alloc: Global, element: &DType, n: Nullability) -> VortexResult<DType>
    ensures { Makes result (λ d. tree d ≡ t.list (tree element.now) n) }
{
    let made = DType::list(alloc, element.try_clone(alloc)?, n)?;
    Ok(made)
}

/// Stores in `out` the fixed-size list type with the element type in `element`. Its values are lists of exactly `size`
/// elements. The list type is nullable if `nullable` is true. Returns 6 if the element type has 128 levels.
#[unsafe(no_mangle)]
pub extern "C" fn vlt_core_dtype_fixed_size_list(
    alloc: Global,
    element: &mut Slot,
    size: u32,
    nullable: bool,
    out: &mut Slot,
) -> u32
    ensures puts { Puts type_in
        (on (type_in element.old.value)
        (λ e. unless_deep (1 + levels e) (unless_memory (gives (t.fixed_size_list e size (nullability_of nullable))))))
        result out.old.value out.new.value }
    ensures kept { element.new.value ≡ element.old.value }
{
    let Some(element) = as_dtype(element) else {
        return KIND;
    };
    if !fits(element, MAX_LEVELS - 1) {
        return TOO_DEEP;
    }
    let made = fixed_size_list_of(alloc, element, size, Nullability::from(nullable));
    put_made(alloc, out, made)
}

fn fixed_size_list_of(
    alloc: Global,
    element: &DType,
    size: u32,
    n: Nullability,
) -> VortexResult<DType>
    ensures { Makes result (λ d. tree d ≡ t.fixed_size_list (tree element.now) size n) }
{
    let made = DType::fixed_size_list(alloc, element.try_clone(alloc)?, size, n)?;
    Ok(made)
}
