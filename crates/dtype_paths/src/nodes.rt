// SPDX-License-Identifier: Apache-2.0
// SPDX-FileCopyrightText: Copyright the Vortex contributors

ghost use Rattle.std.specs.Prelude.{◌≡◌, ◌≢◌, ◌≤◌, ◌<◌, ◌+◌, ◌==◌, ◌&&◌, ◌++◌, ◌∷◌, List, ℕ, Option, None, Some, length, drop, take, slice_get, map, min, is_some, if◌then◌else◌, IfOk, IsOkUnless, OnErr, OnOk};
ghost use Rattle.std.specs.Borrow.{sem};
ghost use Rattle.std.specs.Option.{option_copied};
ghost use Rattle.dtype_base.specs.Errors.{Makes};
ghost use Rattle.dtype_base.specs.declared.vortex_error.VortexError.TheVariants.{OutOfMemory};
ghost use Rattle.dtype_paths.specs.private.Children.{child};
ghost use Rattle.dtype_paths.specs.private.Lending.{LendsNode};
ghost use Rattle.dtype_paths.specs.Equality.{same_field};
ghost use Rattle.dtype_paths.specs.private.Trie.{chain, child_at, terminal_at, terminals, IsAlike, HasBranch, IsPrefixMatch};
ghost use Rattle.dtype_paths.specs.declared.field.Field.{Field};
ghost use Rattle.dtype_paths.specs.declared.node.Node.{Node};

use crate::children::Children;
use crate::node::Node;
use crate::path_match::PrefixMatch;
use crate::{Field, FieldPath};
use dtype_base::VortexResult;
use std::alloc::Global;
use std::marker::Model;
use std::mem;

/// The nodes of a trie in an arena, referred to by their indices. The root has index 0. It is stored beside the
/// vector of the others, so that a trie of the root alone doesn't allocate.
#[derive(Drop)]
pub(crate) struct Nodes {
    root: Node,
    rest: Vec<Node>,
}

impl Model for Nodes {
    ghost use Rattle.std.specs.Prelude.{List, ◌∷◌};
    ghost use Rattle.dtype_paths.specs.declared.node.Node.{Node};

    ghost Value = { List Node };

    ghost view = { λ n. n.root ∷ n.rest.items };
}

impl Nodes {
    // The root alone, where no path ends. Doesn't allocate.
    pub(crate) fn new(alloc: Global) -> Self
        ensures one { length result ≡ 1 }
        ensures terminal { terminal_at result 0 ≡ None }
        ensures steps { (f : Field) → child_at result 0 f ≡ None }
    {
        Nodes {
            root: Node::empty(),
            rest: Vec::new(alloc),
        }
    }

    // The root alone, with capacity for this many nodes after it.
    pub(crate) fn with_capacity(alloc: Global, nodes: usize) -> VortexResult<Self>
        ensures ok { Makes result (λ n. length n ≡ 1) }
        ensures terminal { IfOk result (λ n. terminal_at n 0 ≡ None) }
        ensures steps { IfOk result (λ n. (f : Field) → child_at n 0 f ≡ None) }
    {
        Ok(Nodes {
            root: Node::empty(),
            rest: Vec::with_capacity(alloc, nodes)?,
        })
    }

    // How many there are.
    pub(crate) fn len(&self) -> usize
        ensures { result ≡ length self.now }
    {
        self.rest.len() + 1
    }

    // The index of the root.
    pub(crate) fn root(&self) -> usize
        ensures { result ≡ 0 }
    {
        0
    }

    // Whether a path ends in the node.
    pub(crate) fn is_terminal(&self, node_index: usize) -> bool
        requires { node_index < length self.now }
        ensures { result ≡ is_some (terminal_at self.now node_index) }
    {
        self.at(node_index).terminal().is_some()
    }

    // The path that ends in the node, if it is a terminal.
    pub(crate) fn terminal(&self, node_index: usize) -> Option<&FieldPath>
        requires { node_index < length self.now }
        ensures { option_copied result ≡ terminal_at self.now node_index }
    {
        self.at(node_index).terminal()
    }

    // How many nodes are terminals.
    pub(crate) fn count_terminals(&self) -> usize
        ensures { result ≡ length (terminals self.now) }
    {
        let mut count = 0;
        for node_index in 0..self.len() {
            if self.is_terminal(node_index) {
                count += 1;
            }
        }
        count
    }

    // The node of this index.
    pub(crate) fn at(&self, node_index: usize) -> &Node
        requires { node_index < length self.now }
        ensures { slice_get self.now node_index ≡ Some result.now }
    {
        match node_index.checked_sub(1) {
            Some(in_rest) => &self.rest[in_rest],
            None => &self.root,
        }
    }

    // The node of this index, to be changed.
    #[inline(always)]
    fn at_mut(&mut self, node_index: usize) -> &mut Node
        requires { node_index < length self.old }
        ensures* writes_back { sem 𝓛 (LendsNode self.entry node_index result) }
        ensures value { slice_get self.old node_index ≡ Some result.now }
        ensures fits { length self.old ≤ u64.MAX }
    {
        match node_index.checked_sub(1) {
            Some(in_rest) => &mut self.rest[in_rest],
            None => &mut self.root,
        }
    }

    // Makes the node the terminal of the path.
    pub(crate) fn set_terminal(&mut self, node_index: usize, path: FieldPath)
        requires { node_index < length self.old }
        ensures long { length self.new ≡ length self.old }
        ensures steps { (i : ℕ) (f : Field) → child_at self.new i f ≡ child_at self.old i f }
        ensures terminals { (i : ℕ) → terminal_at self.new i ≡ (if i == node_index then Some path else terminal_at self.old i) }
    {
        self.at_mut(node_index).set_terminal(path);
    }

    // Appends the branch of the path after its prefix that is there: a chain of nodes, one for each further step, of
    // which the last is the path's terminal. The branch becomes a child of the prefix's node last, so that after an
    // error no node leads to what was appended; some of it may be there then.
    pub(crate) fn append_branch(
        &mut self,
        alloc: Global,
        path: FieldPath,
        prefix: PrefixMatch,
    ) -> VortexResult<()>
        requires { IsPrefixMatch self.old path prefix }
        ensures branch { OnOk result (HasBranch self.old prefix.here path prefix.len self.new) }
        ensures err { OnErr result (take (length self.old) self.new ≡ self.old) }
        ensures errors { IsOkUnless result OutOfMemory }
    {
        let step = path.parts()[prefix.len].try_clone(alloc)?;
        let first = self.len();
        self.push_chain(alloc, path, prefix.len + 1)?;
        self.add_child(alloc, prefix.here, step, first)
    }

    // Appends the chain of nodes that leads along the steps of the path from the step `at` on, and ends in its
    // terminal. After an error some of it may be there.
    fn push_chain(&mut self, alloc: Global, path: FieldPath, at: usize) -> VortexResult<()>
        requires { at ≤ length path }
        ensures chain { OnOk result (self.new ≡ self.old ++ chain path (length self.old) (drop at path)) }
        ensures kept { take (length self.old) self.new ≡ self.old }
        ensures errors { IsOkUnless result OutOfMemory }
    {
        let steps = &path.parts()[at..];
        self.rest.reserve(steps.len() + 1)?;
        for step in steps {
            let next = self.rest.len() + 2;
            self.rest
                .push(Node::with_child(step.try_clone(alloc)?, next))?;
        }
        self.rest.push(Node::leaf(path))?;
        Ok(())
    }

    // Adds a child to the node `here`, by a step that it has none for. After an error the children are unchanged.
    fn add_child(
        &mut self,
        alloc: Global,
        here: usize,
        step: Field,
        node_index: usize,
    ) -> VortexResult<()>
        requires node_index { here < length self.old }
        requires none { child_at self.old here step ≡ None }
        ensures long { length self.new ≡ length self.old }
        ensures terminals { (i : ℕ) → terminal_at self.new i ≡ terminal_at self.old i }
        ensures added { OnOk result ((i : ℕ) (f : Field) → child_at self.new i f
            ≡ (if i == here && same_field step f then Some node_index else child_at self.old i f)) }
        ensures err { OnErr result (self.new ≡ self.old) }
        ensures errors { IsOkUnless result OutOfMemory }
    {
        self.at_mut(here).add_child(alloc, step, node_index)
    }

    // Keeps the first nodes, this many, and drops the others.
    pub(crate) fn truncate(&mut self, len: usize)
        requires { 0 < len }
        ensures { self.new ≡ take len self.old }
    {
        self.rest.truncate(len - 1);
    }

    // Gives the node up, with an empty one in its stead, and takes it apart, which is one visit. There are no more nodes
    // than a `u64` counts.
    pub(crate) fn open(
        &mut self,
        node_index: usize,
        visits: &mut u64,
    ) -> (Option<FieldPath>, Children)
        requires { node_index < length self.old }
        ensures long { length self.new ≡ length self.old }
        ensures terminal { result.0 ≡ terminal_at self.old node_index }
        ensures steps { (f : Field) → child result.1 f ≡ child_at self.old node_index f }
        ensures others { (i : ℕ) → i ≢ node_index → slice_get self.new i ≡ slice_get self.old i }
        ensures visited { visits.new ≡ min (visits.old + 1) u64.MAX }
        ensures fits { length self.old ≤ u64.MAX }
    {
        mem::replace(self.at_mut(node_index), Node::empty()).open(visits)
    }

    // References to the paths that end in nodes. The list has room for one at each node, because counting the paths
    // first would read every node twice.
    pub(crate) fn gather<'a>(&'a self, alloc: Global) -> VortexResult<Vec<&'a FieldPath>>
        ensures { Makes result (λ v. map (λ x. x.now) v.items ≡ terminals self.now) }
    {
        let mut found = Vec::with_capacity(alloc, self.len())?;
        if let Some(path) = self.root.terminal() {
            found.push(path)?;
        }
        for node in &self.rest {
            if let Some(path) = node.terminal() {
                found.push(path)?;
            }
        }
        Ok(found)
    }

    // A copy of the nodes, with the same indices. It has room for some more nodes, so that the first insertion into it
    // doesn't copy all of them again.
    pub(crate) fn try_clone(&self, alloc: Global) -> VortexResult<Self>
        ensures { Makes result (λ n. IsAlike self.now n) }
    {
        let root = self.root.try_clone(alloc)?;
        let mut rest = Vec::with_capacity(alloc, with_room_for_more(self.rest.len()))?;
        for node in &self.rest {
            rest.push(node.try_clone(alloc)?)?;
        }
        Ok(Nodes { root, rest })
    }
}

// The room for a copy of this many nodes: an eighth more, rounded up. A copy of no nodes needs none.
fn with_room_for_more(count: usize) -> usize {
    count.saturating_add(count.div_ceil(8))
}
