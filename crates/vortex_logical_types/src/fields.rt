// SPDX-License-Identifier: Apache-2.0
// SPDX-FileCopyrightText: Copyright the Vortex contributors

// Fields: names with types, of which structs and unions are made.
ghost use Rattle.std.specs.Prelude.{◌≡◌, ◌++◌, ◌∷◌, ◌≤◌, [], IfErr, IfOk, IsErr, IsOk, map};
ghost use Rattle.dtype_types.specs.parts.Lookups.{field_names, field_types};
ghost use Rattle.dtype_types.specs.tree.TreeOf.{tree};
ghost use Rattle.vortex_logical_types.specs.Levels.{RefusesDeep, levels_over};
ghost use Rattle.vortex_logical_types.specs.Slots.{fields_in, pairs_of, type_in};
ghost use Rattle.vortex_logical_types.specs.Vocabulary.{Changes, Puts, gives, if_utf8, on_both, unless_memory};

use crate::errors::{KIND, LIBRARY, NOT_UTF8, OK, TOO_DEEP};
use crate::levels::{MAX_LEVELS, all_fit};
use crate::objects::put;
use crate::views::as_dtype;
use c_objects::{Object, Slot};
use dtype_base::{FieldName, FieldNames, VortexResult};
use dtype_types::DType;
use std::alloc::Global;
use std::str;

/// Stores in `out` an empty list of fields. A field is a name with a type. Structs and unions are made of such a list.
/// For example, the list of `id` with u64 and `city` with utf8 is made by this call and two calls of `vlt_fields_push`,
/// and `vlt_dtype_struct` makes the struct `{id=u64, city=utf8}` of it.
#[unsafe(no_mangle)]
pub extern "C" fn vlt_core_fields_new(alloc: Global, out: &mut Slot) -> u32
    ensures { Puts fields_in (unless_memory (gives [])) result out.old.value out.new.value }
{
    put(alloc, out, Object::Fields(Vec::new(alloc)))
}

/// Adds a field with this name and a copy of this type to the end of the list. A list may contain a name several times.
/// If the call doesn't return 0, the list is unchanged. Returns 3 if the name isn't UTF-8.
#[unsafe(no_mangle)]
pub extern "C" fn vlt_core_fields_push(
    alloc: Global,
    fields: &mut Slot,
    name: &[u8],
    dtype: &mut Slot,
) -> u32
    ensures changes { Changes fields_in
        (if_utf8 name.now (on_both (fields_in fields.old.value) (type_in dtype.old.value)
        (λ fs t. unless_memory (gives (fs ++ ((name.now, t) ∷ []))))))
        result fields.old.value fields.new.value }
    ensures kept { dtype.new.value ≡ dtype.old.value }
{
    let Ok(name) = str::from_utf8(name) else {
        return NOT_UTF8;
    };
    let (Some(object), Some(dtype)) = (fields.get_mut(), as_dtype(dtype)) else {
        return KIND;
    };
    let Object::Fields(fields) = object else {
        return KIND;
    };
    match pushed(alloc, fields, name, dtype) {
        Ok(()) => OK,
        Err(_) => LIBRARY,
    }
}

// Adds a field to the end of the list.
fn pushed(
    alloc: Global,
    fields: &mut Vec<(FieldName, DType)>,
    name: &str,
    dtype: &DType,
) -> VortexResult<()>
    ensures ok { IsOk result → pairs_of fields.new.items ≡ pairs_of fields.old.items ++ ((name.now, tree dtype.now) ∷ []) }
    ensures err { IsErr result → pairs_of fields.new.items ≡ pairs_of fields.old.items }
{
    fields.push((FieldName::new(alloc, name)?, dtype.try_clone(alloc)?))?;
    Ok(())
}

/// Returns copies of the names and of the types of the fields, or the number that the export returns: 6 if one of the
/// types has 128 levels.
pub fn parts_of(
    alloc: Global,
    fields: &Vec<(FieldName, DType)>,
) -> Result<(FieldNames, Vec<DType>), u32>
    ensures names { IfOk result (λ r. r.0 ≡ field_names (pairs_of fields.now.items)) }
    ensures dtypes { IfOk result (λ r. map tree r.1.items ≡ field_types (pairs_of fields.now.items)) }
    ensures fits { IfOk result (λ _. levels_over (field_types (pairs_of fields.now.items)) ≤ 128) }
    ensures refused { IfErr result (RefusesDeep (field_types (pairs_of fields.now.items))) }
{
    let Ok((names, dtypes)) = copies_of(alloc, fields) else {
        return Err(LIBRARY);
    };
    if !all_fit(&dtypes, MAX_LEVELS) {
        return Err(TOO_DEEP);
    }
    Ok((names, dtypes))
}

fn copies_of(
    alloc: Global,
    fields: &Vec<(FieldName, DType)>,
) -> VortexResult<(FieldNames, Vec<DType>)>
    ensures names { IfOk result (λ r. r.0 ≡ field_names (pairs_of fields.now.items)) }
    ensures dtypes { IfOk result (λ r. map tree r.1.items ≡ field_types (pairs_of fields.now.items)) }
{
    let mut names = Vec::with_capacity(alloc, fields.len())?;
    let mut dtypes = Vec::with_capacity(alloc, fields.len())?;
    for (name, dtype) in fields.iter() {
        names.push(name.try_clone(alloc)?)?;
        dtypes.push(dtype.try_clone(alloc)?)?;
    }
    Ok((FieldNames::from_vec(names), dtypes))
}
