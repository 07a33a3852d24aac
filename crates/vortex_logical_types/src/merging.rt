// SPDX-License-Identifier: Apache-2.0
// SPDX-FileCopyrightText: Copyright the Vortex contributors

// Types: merging by columns.
ghost use Rattle.std.specs.Prelude.{◌≡◌, MatchResult, Some, ⊤};
ghost use Rattle.dtype_merging.specs.MergedColumns.{columns_merged};
ghost use Rattle.dtype_types.specs.tree.TreeOf.{tree};
ghost use Rattle.vortex_logical_types.specs.Merging.{PutsPlace, finds_conflict};
ghost use Rattle.vortex_logical_types.specs.Slots.{path_in, type_in};
ghost use Rattle.vortex_logical_types.specs.Vocabulary.{Puts, found, gives, on_both, unless_memory};

use crate::errors::{KIND, LIBRARY, NONE, OK, of_library};
use crate::objects::put;
use crate::views::as_dtype;
use c_objects::{Object, Slot};
use dtype_base::VortexResult;
use dtype_merging::{MergeConflict, Widening, merge_columns, merge_conflict};
use dtype_paths::FieldPath;
use dtype_types::DType;
use std::alloc::Global;

/// Stores in `out` the least type as which values of both types can be read:
///
/// - A struct has the fields of the first type in their order, and then those that only the second has. A field that
///   both have is merged by these rules. A field that only one of the two has is nullable.
/// - `null` can be merged with every type, which is made nullable.
/// - Lists, fixed-size lists of the same size, maps, and extensions with the same id and the same metadata are merged
///   by their parts. Maps whose merged key type would be nullable can't be merged. The merged map declares sorted keys
///   only if both maps do, and if their key types are equal except for nullabilities.
/// - A union has the variants of the first type in their order, and then those that only the second has. A variant that
///   both have, with the same tag and the same name, is merged by these rules. A variant that only one of the two has
///   stays as it is. Unions in which a tag has two names, or a name has two tags, can't be merged.
/// - Structs in which a name repeats are merged field by field, if both have the same names in the same order, because
///   their columns can't be told apart by name.
/// - All other types are merged as `vlt_dtype_merge_nullability` merges them.
/// - A type that isn't an extension is nullable if one of the two is, at every depth.
///
/// For example, it is `{a=i32, b=utf8?}` for `{a=i32}` and `{b=utf8, a=i32}`. Returns 1 if there is no such type.
#[unsafe(no_mangle)]
pub extern "C" fn vlt_core_dtype_merge_columns(
    alloc: Global,
    one: &mut Slot,
    other: &mut Slot,
    out: &mut Slot,
) -> u32
    ensures puts { Puts type_in (on_both (type_in one.old.value) (type_in other.old.value)
        (λ t u. unless_memory (found (columns_merged Widening.None t u) gives))) result out.old.value out.new.value }
    ensures kept { (one.new.value ≡ one.old.value) × (other.new.value ≡ other.old.value) }
{
    let (Some(one), Some(other)) = (as_dtype(one), as_dtype(other)) else {
        return KIND;
    };
    match merge_columns(alloc, one, other, Widening::None) {
        Ok(Some(made)) => put(alloc, out, Object::DType(made)),
        Ok(None) => NONE,
        Err(error) => of_library(error),
    }
}

/// Stores in `path` the path to the first place at which two types can't be merged by `vlt_dtype_merge_columns`, in
/// `left` the type at this place in the first type, and in `right` the type at this place in the second. The first
/// place is the first one in the order of the fields of the first type. A path leads only into structs, lists and
/// fixed-size lists, so if the keys or values of two maps can't be merged, it is the path to the maps. The same is
/// true of unions, extensions, and structs in which a name repeats. For example, the call stores `customer.id`, `u64`
/// and `utf8` for `{customer={id=u64}}` and `{customer={id=utf8}}`. Returns 1 if the types can be merged.
#[unsafe(no_mangle)]
pub extern "C" fn vlt_core_dtype_merge_conflict(
    alloc: Global,
    one: &mut Slot,
    other: &mut Slot,
    path: &mut Slot,
    left: &mut Slot,
    right: &mut Slot,
) -> u32
    ensures puts { PutsPlace (on_both (type_in one.old.value) (type_in other.old.value)
        (λ t u. unless_memory (finds_conflict t u))) result
        (path.old.value, left.old.value, right.old.value) (path.new.value, left.new.value, right.new.value) }
    ensures kept { (one.new.value ≡ one.old.value) × (other.new.value ≡ other.old.value) }
{
    let (Some(one), Some(other)) = (as_dtype(one), as_dtype(other)) else {
        return KIND;
    };
    put_conflict(alloc, one, other, path, left, right)
}

fn put_conflict(
    alloc: Global,
    one: &DType,
    other: &DType,
    path: &mut Slot,
    left: &mut Slot,
    right: &mut Slot,
) -> u32
    ensures { PutsPlace (unless_memory (finds_conflict (tree one.now) (tree other.now))) result
        (path.old.value, left.old.value, right.old.value) (path.new.value, left.new.value, right.new.value) }
{
    match merge_conflict(alloc, one, other, Widening::None) {
        Ok(
            Some(
                MergeConflict {
                    path: place,
                    left: here,
                    right: there,
                },
            ),
        ) => {
            let Ok(boxes) = boxed(alloc, place, here, there) else {
                return LIBRARY;
            };
            path.put(boxes.0);
            left.put(boxes.1);
            right.put(boxes.2);
            OK
        }
        Ok(None) => NONE,
        Err(_) => LIBRARY,
    }
}

// Returns the path and copies of the two types as objects.
fn boxed(
    alloc: Global,
    path: FieldPath,
    left: &DType,
    right: &DType,
) -> VortexResult<(Box<Object>, Box<Object>, Box<Object>)>
    ensures { MatchResult result
        (λ r. (path_in (Some r.0.value) ≡ Some path) × (type_in (Some r.1.value) ≡ Some (tree left.now)) × (type_in (Some r.2.value) ≡ Some (tree right.now)))
        (λ e. ⊤) }
{
    let path = Box::new(alloc, Object::Path(path))?;
    let left = Box::new(alloc, Object::DType(left.try_clone(alloc)?))?;
    let right = Box::new(alloc, Object::DType(right.try_clone(alloc)?))?;
    Ok((path, left, right))
}
