// SPDX-License-Identifier: Apache-2.0
// SPDX-FileCopyrightText: Copyright the Vortex contributors

ghost use Rattle.std.specs.Prelude.{◌≡◌, ◌<◌, [], length, IfErr, OnOk};
ghost use Rattle.std.specs.Iterator.{YieldsFirstBy};
ghost use Rattle.std.specs.List.{IsDistinct};
ghost use Rattle.std.specs.Map.{keys_of};
ghost use Rattle.dtype_base.specs.Errors.{Makes};
ghost use Rattle.dtype_base.specs.declared.vortex_error.VortexError.TheVariants.{OutOfMemory};
ghost use Rattle.dtype_paths.specs.private.ChildIters.{entries_left};
ghost use Rattle.dtype_paths.specs.private.ChildTables.{tree_of};
ghost use Rattle.dtype_paths.specs.private.Children.{borrowed_entry, node_by, LeadsTo};
ghost use Rattle.dtype_paths.specs.Equality.{same_field};
ghost use Rattle.dtype_paths.specs.declared.field.Field.{Field};

use crate::Field;
use crate::child_iter::ChildIter;
use crate::child_tree::{ChildTree, ChildTreeIter};
use dtype_base::{VortexError, VortexResult, bucket_of_name};
use std::alloc::Global;
use std::marker::Model;
use std::slice;

// The number of trees of the table that is made of a full list.
const FIRST_TREES: usize = 16;

// The average number of children of a tree at which a table is full.
const FULL_LOAD: usize = 8;

// How many times as many trees the next larger table has.
const GROWTH: usize = 4;

/// Children in a hash table whose buckets are B-trees. A step is in the tree that the hash of its name selects, so a tree
/// has few steps. If names were chosen so that all of them are in the same tree, a lookup is logarithmic in the number of
/// children.
#[derive(Drop)]
pub(crate) struct ChildTable {
    trees: Vec<ChildTree>,
    count: usize,
}

impl Model for ChildTable {
    ghost use Rattle.std.specs.Prelude.{ℕ, List};
    ghost use Rattle.dtype_paths.specs.private.ChildTables.{steps_of, IsChildTable};
    ghost use Rattle.dtype_paths.specs.declared.field.Field.{Field};

    ghost Value = { List (Field × ℕ) };

    ghost view = { λ t. steps_of t.trees.items };

    ghost invariant = { λ t. IsChildTable t.trees.items t.count };
}

impl ChildTable {
    // No child, in this many trees.
    fn with_trees(alloc: Global, count: usize) -> VortexResult<Self>
        requires { 0 < count }
        ensures { Makes result (λ t. t ≡ []) }
    {
        let mut trees = Vec::with_capacity(alloc, count)?;
        for _ in 0..count {
            trees.push(ChildTree::new(alloc))?;
        }
        Ok(ChildTable { trees, count: 0 })
    }

    // Copies of these children, in this many trees.
    fn with_children(alloc: Global, count: usize, mut left: ChildIter<'_>) -> VortexResult<Self>
        requires some { 0 < count }
        requires once { IsDistinct same_field (keys_of (entries_left left)) }
        ensures { Makes result (λ t. (f : Field) → node_by t f ≡ node_by (entries_left left.entry) f) }
    {
        let mut table = ChildTable::with_trees(alloc, count)?;
        while let Some((step, node_index)) = left.next() {
            table.insert(step.try_clone(alloc)?, node_index)?;
        }
        Ok(table)
    }

    // A table of copies of these children.
    pub(crate) fn of(alloc: Global, left: ChildIter<'_>) -> VortexResult<Self>
        requires { IsDistinct same_field (keys_of (entries_left left)) }
        ensures { Makes result (λ t. (f : Field) → node_by t f ≡ node_by (entries_left left.entry) f) }
    {
        Ok(ChildTable::with_children(alloc, FIRST_TREES, left)?)
    }

    // Returns the index of the node to which the step leads.
    #[tactic(auto, using(crate::proofs::ChildTables::looked_up))]
    pub(crate) fn child(&self, step: &Field) -> Option<usize>
        ensures { result ≡ node_by self.now step.now }
    {
        self.trees[tree_of(step, self.trees.len())].child(step)
    }

    // How many children there are.
    #[tactic(auto, using(crate::proofs::ChildTables::distinct_steps))]
    pub(crate) fn len(&self) -> usize
        ensures count { result ≡ length self.now }
        ensures once { IsDistinct same_field (keys_of self.now) }
    {
        self.count
    }

    // Returns whether so many children are in the table that one more requires a larger table.
    pub(crate) fn is_full(&self) -> bool {
        self.count >= self.trees.len().saturating_mul(FULL_LOAD)
    }

    // Makes the step lead to a node. After an error the children are unchanged. A table can't count more than 2^64 - 1
    // children, for which no machine has the memory.
    pub(crate) fn insert(&mut self, step: Field, node_index: usize) -> VortexResult<()>
        ensures added { OnOk result (LeadsTo (node_by self.old) step node_index (node_by self.new)) }
        ensures errors { IfErr result (λ e. (e ≡ OutOfMemory) × (self.new ≡ self.old)) }
    {
        if self.count == usize::MAX {
            return Err(VortexError::OutOfMemory);
        }
        let position = tree_of(&step, self.trees.len());
        let before = self.trees[position].len();
        self.trees[position].insert(step, node_index)?;
        self.count = self.count - before + self.trees[position].len();
        Ok(())
    }

    // An iterator over the children.
    #[tactic(auto, using(crate::proofs::ChildTables::distinct_steps))]
    pub(crate) fn iter(&self) -> ChildTableIter<'_>
        ensures children { result ≡ self.now }
        ensures once { IsDistinct same_field (keys_of self.now) }
    {
        ChildTableIter {
            tree: self.trees[0].iter(),
            trees: self.trees[1..].iter(),
        }
    }

    // A copy: the same steps lead to the same nodes.
    pub(crate) fn try_clone(&self, alloc: Global) -> VortexResult<Self>
        ensures { Makes result (λ t. (f : Field) → node_by t f ≡ node_by self.now f) }
    {
        Ok(ChildTable::with_children(alloc, self.trees.len(), ChildIter::Table(self.iter()))?)
    }

    // A larger table of the same children.
    pub(crate) fn larger(&self, alloc: Global) -> VortexResult<Self>
        ensures { Makes result (λ t. (f : Field) → node_by t f ≡ node_by self.now f) }
    {
        let count = self.trees.len().saturating_mul(GROWTH);
        Ok(ChildTable::with_children(alloc, count, ChildIter::Table(self.iter()))?)
    }
}

/// The children of a table that are left: those that are left of one tree, and those of the trees after it.
#[derive(Drop)]
pub(crate) struct ChildTableIter<'a> {
    tree: ChildTreeIter<'a>,
    trees: slice::Iter<'a, ChildTree>,
}

impl<'a> Model for ChildTableIter<'a> {
    ghost use Rattle.std.specs.Prelude.{ℕ, List, ◌++◌};
    ghost use Rattle.std.specs.Slice.Iter.{iter_rest};
    ghost use Rattle.dtype_paths.specs.private.ChildTables.{steps_of};
    ghost use Rattle.dtype_paths.specs.declared.field.Field.{Field};

    ghost Value = { List (Field × ℕ) };

    ghost view = { λ it. it.tree ++ steps_of (iter_rest it.trees) };
}

impl<'a> ChildTableIter<'a> {
    // The next step and the index of the node that it leads to.
    pub(crate) fn next(&mut self) -> Option<(&'a Field, usize)>
        ensures { YieldsFirstBy borrowed_entry (λ left. left) self.old result self.new }
    {
        loop {
            let found = self.tree.next();
            if found.is_some() {
                return found;
            }
            self.tree = self.trees.next()?.iter();
        }
    }
}

// Returns the position of the tree of a step among this many trees.
#[tactic(auto, unfolding(crate::specs::private::ChildTables::tree_of))]
fn tree_of(step: &Field, count: usize) -> usize
    requires { 0 < count }
    ensures is { result ≡ tree_of count step.now }
    ensures within { result < count }
{
    match step.as_name() {
        Some(name) => bucket_of_name(name.as_bytes(), count),
        None => 0,
    }
}
