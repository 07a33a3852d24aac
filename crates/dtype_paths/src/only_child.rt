// SPDX-License-Identifier: Apache-2.0
// SPDX-FileCopyrightText: Copyright the Vortex contributors

ghost use Rattle.std.specs.Prelude.{◌≡◌, ◌∷◌, []};
ghost use Rattle.dtype_base.specs.Errors.{Makes};
ghost use Rattle.dtype_paths.specs.private.Children.{node_by};

use crate::Field;
use crate::child_list::ChildList;
use crate::step_key::{key_is_exact, step_key_of};
use dtype_base::VortexResult;
use std::alloc::Global;
use std::marker::Model;

/// The only child of a node, with the key of its step beside it. A lookup compares the keys first. It reads the name of
/// the step, which lies elsewhere in memory, only if the keys are equal and other steps can have the same key.
#[derive(Drop)]
pub(crate) struct OnlyChild {
    key: u64,
    step: Field,
    node_index: usize,
}

impl Model for OnlyChild {
    ghost use Rattle.std.specs.Prelude.{ℕ};
    ghost use Rattle.dtype_paths.specs.private.StepKeys.{IsStepKey};
    ghost use Rattle.dtype_paths.specs.declared.field.Field.{Field};

    ghost Value = { Field × ℕ };

    ghost view = { λ c. (c.step, c.node_index) };

    ghost invariant = { λ c. IsStepKey c.key c.step };
}

impl OnlyChild {
    // The child of the step.
    pub(crate) fn new(step: Field, node_index: usize) -> Self
        ensures { result ≡ (step, node_index) }
    {
        OnlyChild {
            key: step_key_of(&step),
            step,
            node_index,
        }
    }

    pub(crate) fn step(&self) -> &Field
        ensures { result.now ≡ self.now.0 }
    {
        &self.step
    }

    pub(crate) fn node_index(&self) -> usize
        ensures { result ≡ self.now.1 }
    {
        self.node_index
    }

    // Returns the index of the node to which the step leads.
    pub(crate) fn child(&self, step: &Field) -> Option<usize>
        ensures { result ≡ node_by (self.now ∷ []) step.now }
    {
        let key = step_key_of(step);
        if self.key == key && (key_is_exact(step) || *step == self.step) {
            Some(self.node_index)
        } else {
            None
        }
    }

    // Returns a list of the child, with room for more.
    pub(crate) fn to_list(&self, alloc: Global) -> VortexResult<ChildList>
        ensures { Makes result (λ l. l ≡ self.now ∷ []) }
    {
        let mut list = ChildList::with_room(alloc)?;
        list.push(self.step.try_clone(alloc)?, self.node_index)?;
        Ok(list)
    }

    // A copy: the same step leads to the same node.
    pub(crate) fn try_clone(&self, alloc: Global) -> VortexResult<Self>
        ensures { Makes result (λ c. c ≡ self.now) }
    {
        Ok(OnlyChild {
            key: self.key,
            step: self.step.try_clone(alloc)?,
            node_index: self.node_index,
        })
    }
}
