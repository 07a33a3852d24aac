// SPDX-License-Identifier: Apache-2.0
// SPDX-FileCopyrightText: Copyright the Vortex contributors

// Several names that come in as one text, and the length of each. The length `ELEMENT` stands for the step into the element,
// and has no bytes.
ghost use Rattle.std.specs.Prelude.{◌≡◌, ◌⊎◌, ◌≤◌, drop, take, IfErr, IfOk, IsUtf8, length};
ghost use Rattle.vortex_logical_types.specs.Several.{NamesFault};
ghost use Rattle.vortex_logical_types.specs.Slots.{path_in};
ghost use Rattle.vortex_logical_types.specs.Steps.{HaveNoFault, RefusesName, fault_code, reads_steps, step_cut, step_size, steps_cut};
ghost use Rattle.vortex_logical_types.specs.Vocabulary.{Puts, unless_memory};
ghost use Rattle.vortex_logical_types.specs.declared.steps.StepFault.TheVariants.{OutOfMemory};

use crate::errors::{LIBRARY, NOT_UTF8, RANGE};
use crate::objects::put;
use crate::paths::ELEMENT;
use c_objects::{Object, Slot};
use dtype_base::{FieldName, VortexError};
use dtype_paths::{Field, FieldPath};
use std::alloc::{AllocError, AllocFailed, Global};
use std::str;

/// Why the steps of a path can't be read.
#[derive(Clone, Copy, Debug, PartialEq, Eq)]
pub enum StepFault {
    /// An allocation failed.
    OutOfMemory,
    /// A name isn't UTF-8.
    NotUtf8,
    /// The lengths don't add up to the number of bytes.
    Lengths,
}

impl From<VortexError> for StepFault {
    ghost from_gives = { λ _ e. e ≡ OutOfMemory };

    fn from(_error: VortexError) -> StepFault {
        StepFault::OutOfMemory
    }
}

impl From<AllocError> for StepFault {
    ghost from_gives = { λ _ e. e ≡ OutOfMemory };

    fn from(_error: AllocError) -> StepFault {
        StepFault::OutOfMemory
    }
}

impl<T: Drop> From<AllocFailed<T>> for StepFault {
    ghost from_gives = { λ _ e. e ≡ OutOfMemory };

    fn from(_error: AllocFailed<T>) -> StepFault {
        StepFault::OutOfMemory
    }
}

/// The bytes of the names that haven't been read yet.
#[derive(Drop)]
pub struct Names<'a> {
    pub rest: &'a [u8],
}

impl<'a> Names<'a> {
    // Takes the next step, which has this length.
    fn step(&mut self, alloc: Global, wanted: usize) -> Result<Field, StepFault>
        ensures step { IfOk result (λ f. f ≡ step_cut self.old.rest.now wanted) }
        ensures fits { IfOk result (λ _. step_size wanted ≤ length self.old.rest.now) }
        ensures utf8 { IfOk result (λ _. IsUtf8 (take (step_size wanted) self.old.rest.now)) }
        ensures advance { IfOk result (λ _. self.new.rest.now ≡ drop (step_size wanted) self.old.rest.now) }
        ensures fault { IfErr result (λ e. RefusesName (step_size wanted) self.old.rest.now (fault_code e)) }
    {
        if wanted == ELEMENT {
            return Ok(Field::ElementType);
        }
        Ok(Field::Name(FieldName::new(alloc, self.name(wanted)?)?))
    }

    /// Removes the next name, which has this length, from the front of the bytes and returns it.
    pub fn name(&mut self, wanted: usize) -> Result<&'a str, StepFault>
        ensures name { IfOk result (λ n. n.now ≡ take wanted self.old.rest.now) }
        ensures fits { IfOk result (λ _. wanted ≤ length self.old.rest.now) }
        ensures utf8 { IfOk result (λ _. IsUtf8 (take wanted self.old.rest.now)) }
        ensures advance { IfOk result (λ _. self.new.rest.now ≡ drop wanted self.old.rest.now) }
        ensures fault { IfErr result (λ e. RefusesName wanted self.old.rest.now (fault_code e)) }
    {
        if wanted > self.rest.len() {
            return Err(StepFault::Lengths);
        }
        let (name, rest) = self.rest.split_at(wanted);
        self.rest = rest;
        match str::from_utf8(name) {
            Ok(name) => Ok(name),
            Err(_) => Err(StepFault::NotUtf8),
        }
    }
}

// Returns the steps that these names and lengths are.
fn steps_of(alloc: Global, names: &[u8], lengths: &[usize]) -> Result<Vec<Field>, StepFault>
    ensures steps { IfOk result (λ v. v.items ≡ steps_cut names.now lengths.now) }
    ensures right { IfOk result (λ _. HaveNoFault names.now lengths.now) }
    ensures fault { IfErr result (λ e. NamesFault step_size names.now lengths.now (fault_code e) ⊎ (fault_code e ≡ 100)) }
{
    let mut names = Names { rest: names };
    let mut steps = Vec::with_capacity(alloc, lengths.len())?;
    for length in lengths {
        steps.push(names.step(alloc, *length)?)?;
    }
    if names.rest.is_empty() {
        Ok(steps)
    } else {
        Err(StepFault::Lengths)
    }
}

/// Returns the number that an export returns if the steps can't be read.
pub fn code_of(fault: StepFault) -> u32
    ensures { result ≡ fault_code fault }
{
    match fault {
        StepFault::OutOfMemory => LIBRARY,
        StepFault::NotUtf8 => NOT_UTF8,
        StepFault::Lengths => RANGE,
    }
}

/// Stores in `out` the path of these steps. `names` contains the bytes of all names, one name directly after the other,
/// and `name_lengths` contains the number of bytes of the name of each step. The length 2^64 - 1 (`VLT_ELEMENT` in C)
/// stands for the step to the element, which has no bytes in `names`. Returns the number for the first fault of the
/// names, in their order: 9 if fewer bytes are left than a length says, 3 if the name of a length isn't UTF-8, and 9 if
/// bytes are left after the last name.
#[unsafe(no_mangle)]
pub extern "C" fn vlt_core_path_from_steps(
    alloc: Global,
    names: &[u8],
    name_lengths: &[usize],
    out: &mut Slot,
) -> u32
    ensures { Puts path_in (unless_memory (reads_steps names.now name_lengths.now)) result out.old.value out.new.value }
{
    match steps_of(alloc, names, name_lengths) {
        Ok(steps) => put(alloc, out, Object::Path(FieldPath::from_vec(steps))),
        Err(fault) => code_of(fault),
    }
}
