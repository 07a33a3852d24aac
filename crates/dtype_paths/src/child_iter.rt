// SPDX-License-Identifier: Apache-2.0
// SPDX-FileCopyrightText: Copyright the Vortex contributors

ghost use Rattle.std.specs.Prelude.{◌≡◌, ◌<◌, ◌^◌, length};
ghost use Rattle.std.specs.Iterator.{YieldsFirstBy};
ghost use Rattle.dtype_paths.specs.private.Children.{borrowed_entry, borrowed_name};

use crate::Field;
use crate::child_list::Child;
use crate::child_table::ChildTableIter;
use dtype_base::FieldName;
use std::marker::Model;
use std::slice;

/// An iterator over the children of a node, in no promised order. It represents the children that `next` hasn't
/// returned yet.
#[derive(Drop)]
pub(crate) enum ChildIter<'a> {
    One(Option<(&'a Field, usize)>),
    List(slice::Iter<'a, Child>),
    Table(ChildTableIter<'a>),
}

impl<'a> ChildIter<'a> {
    ghost use Rattle.dtype_paths.specs.private.ChildIters.{entries_left, named_left};

    // The next step and the index of the node that it leads to.
    pub(crate) fn next(&mut self) -> Option<(&'a Field, usize)>
        ensures { YieldsFirstBy borrowed_entry entries_left self.old result self.new }
    {
        match self {
            ChildIter::One(only) => only.take(),
            ChildIter::List(list) => {
                let child = list.next()?;
                Some((child.step(), child.node_index()))
            }
            ChildIter::Table(table) => table.next(),
        }
    }

    // The next step that is a name, and the index of the node that it leads to.
    fn next_name(&mut self) -> Option<(&'a FieldName, usize)>
        ensures { YieldsFirstBy borrowed_name named_left self.old result self.new }
    {
        while let Some((step, node_index)) = self.next() {
            if let Field::Name(name) = step {
                return Some((name, node_index));
            }
        }
        None
    }
}

/// The children of a node that are left and whose steps are names, in no promised order, and how many they are.
#[derive(Drop)]
pub(crate) struct ChildNames<'a> {
    children: ChildIter<'a>,
    count: usize,
}

impl<'a> Model for ChildNames<'a> {
    ghost use Rattle.std.specs.Prelude.{◌≡◌, ℕ, List, length};
    ghost use Rattle.dtype_paths.specs.private.ChildIters.{named_left};

    ghost Value = { List (List ℕ × ℕ) };

    ghost view = { λ it. named_left it.children };

    ghost invariant = { λ it. it.count ≡ length (named_left it.children) };
}

impl<'a> ChildNames<'a> {
    ghost use Rattle.dtype_paths.specs.private.ChildIters.{named_left};

    // The names among these children, of which there are this many.
    pub(crate) fn new(children: ChildIter<'a>, count: usize) -> Self
        requires { count ≡ length (named_left children) }
        ensures names { result ≡ named_left children.entry }
        ensures fits { length result < 2 ^ 64 }
    {
        ChildNames { children, count }
    }

    // How many are left.
    pub(crate) fn len(&self) -> usize
        ensures { result ≡ length self.now }
    {
        self.count
    }

    // The next name and the index of the node that it leads to.
    pub(crate) fn next(&mut self) -> Option<(&'a FieldName, usize)>
        ensures { YieldsFirstBy borrowed_name (λ left. left) self.old result self.new }
    {
        let (name, node_index) = self.children.next_name()?;
        self.count -= 1;
        Some((name, node_index))
    }
}
