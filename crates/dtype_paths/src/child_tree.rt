// SPDX-License-Identifier: Apache-2.0
// SPDX-FileCopyrightText: Copyright the Vortex contributors

ghost use Rattle.std.specs.Prelude.{◌≡◌, ◌≤◌, ◌+◌, ℕ, [], length, Option, Some, IfErr, OnOk, IsTrue, false, if◌then◌else◌};
ghost use Rattle.std.specs.BTreeMap.{is_at, IsOrdered};
ghost use Rattle.std.specs.Iterator.{YieldsFirstBy};
ghost use Rattle.std.specs.List.{IsDistinct};
ghost use Rattle.std.specs.Map.{keys_of};
ghost use Rattle.std.specs.Ordering.{nat_cmp};
ghost use Rattle.dtype_base.specs.declared.vortex_error.VortexError.TheVariants.{OutOfMemory};
ghost use Rattle.dtype_paths.specs.private.ChildTrees.{at_key, led_by, IsFirst, IsTaken};
ghost use Rattle.dtype_paths.specs.private.Children.{borrowed_entry, node_by, LeadsTo};
ghost use Rattle.dtype_paths.specs.Equality.{same_field};
ghost use Rattle.dtype_paths.specs.private.StepKeys.{step_key};
ghost use Rattle.dtype_paths.specs.declared.field.Field.{Field};

use crate::Field;
use crate::step_key::step_key_of;
use dtype_base::VortexResult;
use std::alloc::Global;
use std::collections::{BTreeMap, btree_map};
use std::marker::Model;

/// Children in two B-trees. The first contains one step for each key and is ordered by the keys. The second contains
/// the other steps and is ordered by the steps. So the number of comparisons of a lookup is logarithmic in the number
/// of children, whatever the names are, and most of them are comparisons of numbers.
#[derive(Drop)]
pub(crate) struct ChildTree {
    by_key: BTreeMap<u64, (Field, usize)>,
    by_step: BTreeMap<Field, usize>,
}

impl Model for ChildTree {
    ghost use Rattle.std.specs.Prelude.{ℕ, List};
    ghost use Rattle.dtype_paths.specs.private.ChildTrees.{steps_in, IsChildTree};
    ghost use Rattle.dtype_paths.specs.declared.field.Field.{Field};

    ghost Value = { List (Field × ℕ) };

    ghost view = { λ t. steps_in t.by_key.entries t.by_step.entries };

    ghost invariant = { λ t. IsChildTree t.by_key.entries t.by_step.entries };
}

impl ChildTree {
    // No child. Doesn't allocate.
    pub(crate) fn new(alloc: Global) -> Self
        ensures { result ≡ [] }
    {
        ChildTree {
            by_key: BTreeMap::new(alloc),
            by_step: BTreeMap::new(alloc),
        }
    }

    // Returns the index of the node to which the step leads.
    #[tactic(auto, using(crate::proofs::ChildTrees::looked_up_first, crate::proofs::ChildTrees::looked_up_later))]
    pub(crate) fn child(&self, step: &Field) -> Option<usize>
        ensures { result ≡ node_by self.now step.now }
    {
        let key = step_key_of(step);
        if let Some(node_index) = found_at_key(&self.by_key, key, step) {
            return Some(node_index);
        }
        self.by_step.get(step).copied()
    }

    // How many children there are.
    #[tactic(auto, using(crate::proofs::ChildTrees::distinct_steps))]
    pub(crate) fn len(&self) -> usize
        ensures count { result ≡ length self.now }
        ensures once { IsDistinct same_field (keys_of self.now) }
    {
        self.by_key.len() + self.by_step.len()
    }

    // Makes the step lead to a node. After an error the children are unchanged.
    #[tactic(auto, using(crate::proofs::ChildTrees::led_more_by_step, crate::proofs::ChildTrees::led_more_by_key))]
    pub(crate) fn insert(&mut self, step: Field, node_index: usize) -> VortexResult<()>
        ensures added { OnOk result (LeadsTo (node_by self.old) step node_index (node_by self.new)) }
        ensures grown { OnOk result (length self.new ≤ length self.old + 1) }
        ensures errors { IfErr result (λ e. (e ≡ OutOfMemory) × (self.new ≡ self.old)) }
    {
        let key = step_key_of(&step);
        if is_taken(&self.by_key, key, &step) {
            self.by_step.insert(step, node_index)?;
        } else {
            put_at_key(&mut self.by_key, key, step, node_index)?;
        }
        Ok(())
    }

    // An iterator over the children.
    #[tactic(auto, using(crate::proofs::ChildTrees::distinct_steps))]
    pub(crate) fn iter(&self) -> ChildTreeIter<'_>
        ensures children { result ≡ self.now }
        ensures once { IsDistinct same_field (keys_of self.now) }
    {
        ChildTreeIter {
            by_key: self.by_key.values(),
            by_step: self.by_step.iter(),
        }
    }
}

/// The children in two B-trees that are left.
#[derive(Drop)]
pub(crate) struct ChildTreeIter<'a> {
    by_key: btree_map::Values<'a, u64, (Field, usize)>,
    by_step: btree_map::Iter<'a, Field, usize>,
}

impl<'a> Model for ChildTreeIter<'a> {
    ghost use Rattle.std.specs.Prelude.{ℕ, List, ◌++◌};
    ghost use Rattle.dtype_paths.specs.declared.field.Field.{Field};

    ghost Value = { List (Field × ℕ) };

    ghost view = { λ it. it.by_key ++ it.by_step };
}

impl<'a> ChildTreeIter<'a> {
    // The next step and the index of the node that it leads to.
    pub(crate) fn next(&mut self) -> Option<(&'a Field, usize)>
        ensures { YieldsFirstBy borrowed_entry (λ left. left) self.old result self.new }
    {
        if let Some((step, node_index)) = self.by_key.next() {
            return Some((step, *node_index));
        }
        let (step, node_index) = self.by_step.next()?;
        Some((step, *node_index))
    }
}

// Returns the index of the node to which the step leads, if the step at its key is this step.
fn found_at_key(by_key: &BTreeMap<u64, (Field, usize)>, key: u64, step: &Field) -> Option<usize>
    requires { key ≡ step_key step.now }
    ensures { result ≡ led_by step.now (at_key by_key.now.entries (step_key step.now)) }
{
    let (first, node_index) = by_key.get(&key)?;
    if first == step {
        Some(*node_index)
    } else {
        None
    }
}

// Puts the step at its key. After an error the map is unchanged.
fn put_at_key(
    by_key: &mut BTreeMap<u64, (Field, usize)>,
    key: u64,
    step: Field,
    node_index: usize,
) -> VortexResult<()>
    ensures added { OnOk result ((k : ℕ) → at_key by_key.new.entries k
        ≡ (if is_at (nat_cmp key) k then Some (step, node_index) else at_key by_key.old.entries k)) }
    ensures errors { IfErr result (λ e. (e ≡ OutOfMemory)
        × (by_key.new.entries ≡ by_key.old.entries)) }
    ensures ordered { IsOrdered nat_cmp by_key.new }
    ensures grown { OnOk result (length by_key.new.entries ≤ length by_key.old.entries + 1) }
{
    by_key.insert(key, (step, node_index))?;
    Ok(())
}

// Whether there is another step at the key of this one.
fn is_taken(by_key: &BTreeMap<u64, (Field, usize)>, key: u64, step: &Field) -> bool
    requires { key ≡ step_key step.now }
    ensures taken { IsTrue result → IsTaken by_key.now.entries step.now }
    ensures free { result ≡ false → IsFirst by_key.now.entries step.now }
{
    match by_key.get(&key) {
        Some((first, _)) => first != step,
        None => false,
    }
}
