// SPDX-License-Identifier: Apache-2.0
// SPDX-FileCopyrightText: Copyright the Vortex contributors

ghost use Rattle.std.specs.Prelude.{◌≡◌, ◌<◌, ◌^◌, ℕ, IfSome, List, Some, length};
ghost use Rattle.std.specs.Iterator.{YieldsFirstBy, UpTo, item_count};
ghost use Rattle.std.specs.Iterator.SizeHint.{IsWithinCount};
ghost use Rattle.std.specs.List.{Contains};
ghost use Rattle.dtype_paths.specs.PathPredicates.{AreNames};
ghost use Rattle.dtype_paths.specs.private.Reached.{ends_below, IsReached};

use crate::FieldPathCursor;
use crate::child_iter::ChildNames;
use crate::trie::Trie;
use dtype_base::FieldName;
use std::fmt;
use std::iter::FusedIterator;

/// An iterator over the names with which paths of a cursor begin. For each name it returns a reference to the name, and
/// the cursor after the step to that name. It returns each name once, in no particular order. For example, for a cursor
/// that contains `b`, `c.d` and `c.e` it returns `b` and `c`.
///
/// In contracts it is the list of the names that it hasn't returned yet, each with the paths that the cursor after the
/// step to it contains.
#[derive(Drop)]
pub struct CursorNames<'a> {
    trie: &'a Trie,
    children: ChildNames<'a>,
    ghost reached: { (e : List ℕ × ℕ) → Contains children e → IsReached trie.now e.1 },
}

impl<'a> CursorNames<'a> {
    ghost use Rattle.dtype_paths.specs.Cursors.{names_left};

    // Returns an iterator over the names that lead on from this node. The caller proves that some path leads to the
    // node.
    #[tactic(auto, using(crate::proofs::NamesBelow::paths_fit), unfolding(crate::specs::Cursors::names_left))]
    pub(crate) fn new(trie: &'a Trie, node_index: usize) -> Self
        requires { IsReached trie.now node_index }
        ensures names { AreNames (ends_below trie.now node_index) (names_left result) }
        ensures fits { length (names_left result) < 2 ^ 64 }
    {
        CursorNames {
            trie,
            children: trie.names(node_index),
        }
    }
}

impl<'a> Iterator for CursorNames<'a> {
    type Item = (&'a FieldName, FieldPathCursor<'a>);

    ghost use Rattle.dtype_paths.specs.Cursors.{borrowed_below, names_left};

    ghost next_gives = { YieldsFirstBy borrowed_below names_left };

    ghost remaining = { item_count names_left };

    fn next(&mut self) -> Option<(&'a FieldName, FieldPathCursor<'a>)> {
        let (name, node_index) = self.children.next()?;
        Some((name, FieldPathCursor::at(self.trie, node_index)))
    }

    fn size_hint(&self) -> (usize, Option<usize>)
        ensures lower { IsWithinCount result.0 (item_count names_left self.now) }
        ensures upper { IfSome result.1 (UpTo (item_count names_left self.now)) }
        ensures exact { result ≡ (length (names_left self.now), Some (length (names_left self.now))) }
    {
        let left = self.len();
        (left, Some(left))
    }
}

#[tactic(auto, using(crate::proofs::NamesBelow::paths_counted), unfolding(crate::specs::Cursors::names_left))]
impl<'a> ExactSizeIterator for CursorNames<'a> {
    fn len(&self) -> usize {
        self.children.len()
    }
}

impl<'a> FusedIterator for CursorNames<'a> {}

/// Writes `CursorNames { .. }`, without the names.
impl<'a> fmt::Debug for CursorNames<'a> {
    fn fmt<W: fmt::Write>(&self, f: &mut fmt::Formatter<W>) -> fmt::Result {
        f.write_str("CursorNames { .. }")
    }
}
