// SPDX-License-Identifier: Apache-2.0
// SPDX-FileCopyrightText: Copyright the Vortex contributors

/// How far a path leads into a trie.
#[derive(Drop)]
pub(crate) enum PathMatch {
    /// All its steps lead from node to node. The last one leads to the node with this index.
    Whole(usize),
    /// Only its first steps lead from node to node, perhaps none of them. `PrefixMatch` contains how many do, and the
    /// node that they lead to.
    Prefix(PrefixMatch),
}

/// The first steps of a path, `len` of them, lead to the node `here`, and the next step leads nowhere from there.
#[derive(Drop)]
pub(crate) struct PrefixMatch {
    pub(crate) here: usize,
    pub(crate) len: usize,
}
