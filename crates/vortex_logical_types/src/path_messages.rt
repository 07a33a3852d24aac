// SPDX-License-Identifier: Apache-2.0
// SPDX-FileCopyrightText: Copyright the Vortex contributors

// Messages of paths. No slot has one: they are read from names, and put as the paths that they describe.
ghost use Rattle.std.specs.Prelude.{◌≡◌, ◌⊎◌, ◌≤◌, drop, length, take, IfErr, IfOk, IsUtf8};
ghost use Rattle.dtype_messages.specs.PathNames.{part_name, part_names};
ghost use Rattle.vortex_logical_types.specs.Several.{NamesFault};
ghost use Rattle.vortex_logical_types.specs.Slots.{path_in};
ghost use Rattle.vortex_logical_types.specs.Steps.{HaveNoFault, RefusesName, describes_path, fault_code, part_cut, parts_cut, reads_parts, step_size};
ghost use Rattle.vortex_logical_types.specs.Vocabulary.{PutsOr, unless_memory};

use crate::failures::fail_with;
use crate::objects::put;
use crate::paths::ELEMENT;
use crate::steps::{Names, StepFault, code_of};
use c_objects::{Object, Slot};
use dtype_messages::pb;
use dtype_paths::FieldPath;
use std::alloc::Global;
use std::string::String;
use vortex_dtype::FieldPathProto;

/// Stores in `out` the path that the message of a path describes. The names of the parts of the message are passed in
/// the same way as to `vlt_path_from_steps`. The length 2^64 - 1 (`VLT_ELEMENT` in C) stands for a part without a kind.
/// Returns the number for the first fault of the names, in their order: 9 if fewer bytes are left than a length says, 3
/// if the name of a length isn't UTF-8, and 9 if bytes are left after the last name. If the names have no fault, a
/// message that has a part without a kind describes no path, and the call returns 136, with the error in `error`.
#[unsafe(no_mangle)]
pub extern "C" fn vlt_core_path_from_message(
    alloc: Global,
    names: &[u8],
    name_lengths: &[usize],
    out: &mut Slot,
    error: &mut Slot,
) -> u32
    ensures { PutsOr path_in (unless_memory (reads_parts names.now name_lengths.now))
        result out.old.value out.new.value error.old.value error.new.value }
{
    match message_of(alloc, names, name_lengths) {
        Ok(message) => put_described(alloc, &message, out, error),
        Err(fault) => code_of(fault),
    }
}

// Stores in `out` the path that the message describes, or the error in `error`.
fn put_described(alloc: Global, message: &pb::FieldPath, out: &mut Slot, error: &mut Slot) -> u32
    ensures { PutsOr path_in (unless_memory (describes_path message.now))
        result out.old.value out.new.value error.old.value error.new.value }
{
    match FieldPath::from_proto(alloc, message) {
        Ok(path) => put(alloc, out, Object::Path(path)),
        Err(why) => fail_with(alloc, error, why),
    }
}

// Returns the message of parts that these names and lengths are.
fn message_of(alloc: Global, names: &[u8], lengths: &[usize]) -> Result<pb::FieldPath, StepFault>
    ensures parts { IfOk result (λ m. part_names m ≡ parts_cut names.now lengths.now) }
    ensures right { IfOk result (λ _. HaveNoFault names.now lengths.now) }
    ensures fault { IfErr result (λ e. NamesFault step_size names.now lengths.now (fault_code e) ⊎ (fault_code e ≡ 100)) }
{
    let mut names = Names { rest: names };
    let mut path = Vec::with_capacity(alloc, lengths.len())?;
    for length in lengths {
        path.push(part(alloc, &mut names, *length)?)?;
    }
    if names.rest.is_empty() {
        Ok(pb::FieldPath { path })
    } else {
        Err(StepFault::Lengths)
    }
}

// Takes the next part, which has a name of this length, or no kind.
fn part(alloc: Global, names: &mut Names<'_>, wanted: usize) -> Result<pb::Field, StepFault>
    ensures part { IfOk result (λ f. part_name f ≡ part_cut names.old.rest.now wanted) }
    ensures fits { IfOk result (λ _. step_size wanted ≤ length names.old.rest.now) }
    ensures utf8 { IfOk result (λ _. IsUtf8 (take (step_size wanted) names.old.rest.now)) }
    ensures advance { IfOk result (λ _. names.new.rest.now ≡ drop (step_size wanted) names.old.rest.now) }
    ensures fault { IfErr result (λ e. RefusesName (step_size wanted) names.old.rest.now (fault_code e)) }
{
    if wanted == ELEMENT {
        return Ok(pb::Field { field_type: None });
    }
    let name = String::from_str(alloc, names.name(wanted)?)?;
    Ok(pb::Field {
        field_type: Some(pb::FieldType::Name(name)),
    })
}
