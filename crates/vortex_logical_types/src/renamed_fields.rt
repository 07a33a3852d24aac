// SPDX-License-Identifier: Apache-2.0
// SPDX-FileCopyrightText: Copyright the Vortex contributors

// Structs: other names of the fields.
ghost use Rattle.std.specs.Prelude.{◌≡◌, ◌⊎◌, ◌++◌, ◌∷◌, [], IfOk, MatchResult, None, Some};
ghost use Rattle.dtype_edits.specs.EditedFields.{renamed};
ghost use Rattle.dtype_types.specs.nullability.Nullable.{nullability};
ghost use Rattle.dtype_types.specs.tree.Kinds.{struct_fields};
ghost use Rattle.dtype_types.specs.tree.Tree.{fields as fields_of, struct};
ghost use Rattle.vortex_logical_types.specs.Several.{paired, with_names};
ghost use Rattle.vortex_logical_types.specs.Slots.{type_in};
ghost use Rattle.vortex_logical_types.specs.Vocabulary.{Puts, gives, in_range, on, unless_memory, within};

use crate::changes::put_struct;
use crate::errors::{CONDITION, KIND, LIBRARY, RANGE, of_library};
use crate::names::names_of;
use crate::views::as_dtype;
use c_objects::Slot;
use dtype_base::{FieldName, VortexResult};
use dtype_edits::with_fields_renamed_allowing_repeats;
use std::alloc::Global;

/// Stores in `out` the struct with other names of its fields, whose types stay in the same order. It is nullable if the
/// struct in `dtype` is. Each field whose name is an old name gets the new name. All other fields keep their names, and
/// an old name that no field has changes nothing. If an old name is there twice, the first pair counts. Names can be
/// swapped. A name may occur several times afterwards.
///
/// `names` contains the bytes of an old name, of its new name, of the next old name, of its new name and so on, one name
/// directly after the other, and `name_lengths` contains the number of bytes of each name. For example, the bytes
/// `idskuatday` with the lengths 2, 3, 2 and 3 rename `id` to `sku` and `at` to `day`.
///
/// Returns 3 if a name isn't UTF-8, 5 if the type isn't a struct, and 9 if the lengths don't add up to the number of
/// bytes, or if the last old name has no new name.
#[unsafe(no_mangle)]
pub extern "C" fn vlt_core_struct_with_fields_renamed_allowing_repeats(
    alloc: Global,
    dtype: &mut Slot,
    names: &[u8],
    name_lengths: &[usize],
    out: &mut Slot,
) -> u32
    ensures puts { Puts type_in (unless_memory (with_names names.now name_lengths.now
        (λ ns. in_range (paired ns) (λ rs. on (type_in dtype.old.value)
        (λ t. within (struct_fields t) (λ fs. gives
        (struct (fields_of (renamed rs fs)) (nullability t))))))))
        result out.old.value out.new.value }
    ensures kept { dtype.new.value ≡ dtype.old.value }
{
    let names = match names_of(alloc, names, name_lengths) {
        Ok(names) => names,
        Err(code) => return code,
    };
    match table_of(alloc, names.as_slice()) {
        Ok(table) => rename(alloc, dtype, &table, out),
        Err(code) => code,
    }
}

fn rename(
    alloc: Global,
    dtype: &mut Slot,
    table: &Vec<(FieldName, FieldName)>,
    out: &mut Slot,
) -> u32
    ensures puts { Puts type_in (unless_memory (on (type_in dtype.old.value)
        (λ t. within (struct_fields t) (λ fs. gives
        (struct (fields_of (renamed table.now.items fs)) (nullability t))))))
        result out.old.value out.new.value }
    ensures kept { dtype.new.value ≡ dtype.old.value }
{
    let Some(dtype) = as_dtype(dtype) else {
        return KIND;
    };
    let Some(fields) = dtype.as_struct_fields_opt() else {
        return CONDITION;
    };
    match with_fields_renamed_allowing_repeats(alloc, fields, table) {
        Ok(made) => put_struct(alloc, out, made, dtype.nullability()),
        Err(error) => of_library(error),
    }
}

// Returns the pairs of an old and a new name that these names are in turn. If they aren't pairs, it returns the number
// that the export returns.
fn table_of(alloc: Global, names: &[FieldName]) -> Result<Vec<(FieldName, FieldName)>, u32>
    ensures { MatchResult result
        (λ v. paired names.now ≡ Some v.items)
        (λ code. ((code ≡ 9) × (paired names.now ≡ None)) ⊎ (code ≡ 100)) }
{
    let mut table = Vec::new(alloc);
    let mut rest = names;
    while let Some((old, others)) = rest.split_first() {
        let Some((new, others)) = others.split_first() else {
            return Err(RANGE);
        };
        match push_pair(alloc, &mut table, old, new) {
            Ok(()) => rest = others,
            Err(_) => return Err(LIBRARY),
        }
    }
    Ok(table)
}

// Adds copies of the two names.
fn push_pair(
    alloc: Global,
    table: &mut Vec<(FieldName, FieldName)>,
    old: &FieldName,
    new: &FieldName,
) -> VortexResult<()>
    ensures { IfOk result (λ _. table.new.items ≡ table.old.items ++ ((old.now, new.now) ∷ [])) }
{
    table.push((old.try_clone(alloc)?, new.try_clone(alloc)?))?;
    Ok(())
}
