// SPDX-License-Identifier: Apache-2.0
// SPDX-FileCopyrightText: Copyright the Vortex contributors

// The fields of a struct that paths step into.
ghost use Rattle.std.specs.Prelude.{◌<◌, [], IsTrue};
ghost use Rattle.dtype_base.specs.Errors.{Makes};
ghost use Rattle.dtype_types.specs.parts.Lookups.{field_names};
ghost use Rattle.dtype_types.specs.tree.TreeOf.{children};
ghost use Rattle.dtype_paths.specs.Cursors.{contains_below};
ghost use Rattle.dtype_projection.specs.private.Entered.{AreEntered, AreLookedUp, AreWhole};

use dtype_base::VortexResult;
use dtype_paths::FieldPathCursor;
use dtype_types::StructFields;
use std::alloc::Global;

// Returns the position of each field into which paths step, with the cursor after that step, in the order of the
// positions. If two fields have the same name, a path steps into the first. Each name with which paths continue is
// looked up once, whatever the number of fields is. These lookups take less time than inserting the names into the set
// took.
pub(crate) fn entered_fields<'a>(
    alloc: Global,
    fields: &StructFields,
    cursor: &FieldPathCursor<'a>,
) -> VortexResult<Vec<(usize, FieldPathCursor<'a>)>>
    ensures { Makes result
        (λ m. AreEntered (contains_below cursor.now) (field_names (children fields.now)) m.items) }
{
    let mut entered = looked_up(alloc, fields, cursor)?;
    entered.sort_unstable_by_key(|entry| entry.0);
    Ok(entered)
}

// Returns the position of each field into which paths step, with the cursor after that step, in no particular order.
fn looked_up<'a>(
    alloc: Global,
    fields: &StructFields,
    cursor: &FieldPathCursor<'a>,
) -> VortexResult<Vec<(usize, FieldPathCursor<'a>)>>
    ensures { Makes result (λ m. AreLookedUp (contains_below cursor.now)
        (field_names (children fields.now)) [] m.items) }
{
    let names = cursor.names();
    let mut entered = Vec::with_capacity(alloc, names.len().min(fields.nfields()))?;
    for (name, below) in names {
        if let Some(position) = fields.find(name.as_str()) {
            entered.push((position, below))?;
        }
    }
    Ok(entered)
}

// Returns whether the positions are all positions below `count`, `count` isn't 0, and a path ends at each cursor.
pub(crate) fn are_all_whole(entered: &[(usize, FieldPathCursor<'_>)], count: usize) -> bool
    ensures some { IsTrue result → 0 < count }
    ensures each { IsTrue result → AreWhole 0 count entered.now }
{
    for (i, (position, below)) in entered.iter().enumerate() {
        if *position != i || !below.is_end() {
            return false;
        }
    }
    0 < count && entered.len() == count
}
