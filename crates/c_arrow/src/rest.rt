// SPDX-License-Identifier: Apache-2.0
// SPDX-FileCopyrightText: Copyright the Vortex contributors

// What remains to be read, and a field whose children haven't been read yet.
ghost use Rattle.std.specs.Prelude.{◌≡◌, []};
ghost use Rattle.c_arrow.specs.Faults.{Gives, IsFault, refused};
ghost use Rattle.c_arrow.specs.Read.{Reads, bytes_at, field_at, keys_of, name_of, sound, texts_at, unless, unless_wrong, wrong_count as wrong_count_spec};
ghost use Rattle.c_arrow.specs.Rests.{left, seen};
ghost use Rattle.c_arrow.specs.Views.{said};

use crate::fault::{ArrowFault, Problem};
use crate::format::Format;
use crate::keys::Keys;
use crate::node::ArrowNode;
use std::alloc::Global;
use std::str;

/// What hasn't been read.
#[derive(Drop)]
pub(crate) struct Rest<'a> {
    pub(crate) nodes: &'a [ArrowNode],
    pub(crate) texts: &'a [u8],
}

/// A field without its children.
#[derive(Clone, Copy)]
pub(crate) struct Field<'a> {
    pub(crate) node: ArrowNode,
    pub(crate) format: &'a [u8],
    pub(crate) name: &'a [u8],
    pub(crate) metadata: &'a [u8],
}

impl<'a> Rest<'a> {
    /// Takes the next node with its texts.
    #[tactic(auto, unfolding(crate::specs::Read::field_at), using(std::proofs::lemmas::Bool::Decides::nat_tests))]
    pub(crate) fn field(&mut self) -> Result<Field<'a>, ArrowFault>
        ensures { Reads seen result (left self.new) (field_at (left self.old)) }
    {
        match self.nodes {
            [node, rest @ ..] => {
                if node.has_dictionary > 1 {
                    return Err(ArrowFault::OutOfRange);
                }
                self.nodes = rest;
                self.texts_of(*node)
            }
            [] => Err(ArrowFault::OutOfRange),
        }
    }

    // Takes the texts of a node.
    #[tactic(auto, unfolding(crate::specs::Read::texts_at))]
    fn texts_of(&mut self, node: ArrowNode) -> Result<Field<'a>, ArrowFault>
        ensures { Reads seen result (left self.new) (texts_at node (left self.old)) }
    {
        let format = self.bytes(node.format_length)?;
        let name = self.bytes(node.name_length)?;
        let metadata = self.bytes(node.metadata_length)?;
        Ok(Field {
            node,
            format,
            name,
            metadata,
        })
    }

    // Takes this many bytes.
    #[tactic(auto, unfolding(crate::specs::Read::bytes_at))]
    fn bytes(&mut self, wanted: usize) -> Result<&'a [u8], ArrowFault>
        ensures { Reads (λ t. t.now) result (left self.new) (bytes_at wanted (left self.old)) }
    {
        if wanted > self.texts.len() {
            return Err(ArrowFault::OutOfRange);
        }
        let (text, rest) = self.texts.split_at(wanted);
        self.texts = rest;
        Ok(text)
    }

    /// Returns this number, or the number of nodes that are left if that is less. Each child has a node, so this is enough
    /// memory for so many children, and nodes that announce more than follow can't demand more.
    pub(crate) fn at_most(&self, wanted: usize) -> usize {
        let nodes = self.nodes.len();
        if wanted < nodes { wanted } else { nodes }
    }
}

impl<'a> Field<'a> {
    /// Returns the fault that this field is refused.
    pub(crate) fn refused(&self, alloc: Global, problem: Problem) -> ArrowFault
        ensures { IsFault result (refused [] self.now.format.now problem) }
    {
        ArrowFault::refused(alloc, self.format, problem)
    }

    /// Returns the name.
    #[tactic(auto, unfolding(crate::specs::Read::name_of), using(crate::proofs::Leaves::utf8, crate::proofs::FaultFacts::faults))]
    pub(crate) fn name(&self, alloc: Global) -> Result<&'a str, ArrowFault>
        ensures { Gives (λ t. t.now) result (name_of (seen self.now)) }
    {
        match str::from_utf8(self.name) {
            Ok(name) => Ok(name),
            Err(_) => Err(self.refused(alloc, Problem::Name)),
        }
    }

    /// Returns what the metadata says of an extension.
    #[tactic(auto, unfolding(crate::specs::Read::keys_of), using(crate::proofs::FaultFacts::faults))]
    pub(crate) fn keys(&self, alloc: Global) -> Result<Keys<'a>, ArrowFault>
        ensures { Gives said result (keys_of (seen self.now)) }
    {
        match Keys::of(self.metadata) {
            Some(keys) => Ok(keys),
            None => Err(self.refused(alloc, Problem::Metadata)),
        }
    }

    /// Fails if the node tells that something is wrong with the struct.
    #[tactic(auto, unfolding(crate::specs::Read::sound), using(crate::proofs::FaultFacts::faults, std::proofs::lemmas::Bool::Decides::nat_tests))]
    pub(crate) fn check_fault(&self, alloc: Global) -> Result<(), ArrowFault>
        ensures { Gives (λ u. u) result (sound (seen self.now)) }
    {
        if self.node.fault == 0 {
            return Ok(());
        }
        match Problem::of_number(self.node.fault) {
            Some(problem) => Err(self.refused(alloc, problem)),
            None => Err(ArrowFault::OutOfRange),
        }
    }

    /// Fails unless there are as many children as the format needs.
    #[tactic(auto, using(crate::proofs::FaultFacts::faults))]
    pub(crate) fn check_children(&self, alloc: Global, format: Format) -> Result<(), ArrowFault>
        ensures { Gives (λ u. u) result (unless_wrong (seen self.now) (wrong_count_spec format self.now.node.child_count)) }
    {
        match wrong_count(format, self.node.child_count) {
            Some(problem) => Err(self.refused(alloc, problem)),
            None => Ok(()),
        }
    }
}

// Returns the problem unless this is so.
fn unless_so(is_so: bool, problem: Problem) -> Option<Problem>
    ensures { result ≡ unless is_so problem }
{
    if is_so { None } else { Some(problem) }
}

// Returns what is wrong with so many children of a field with this format, if something is.
#[tactic(auto, unfolding(crate::specs::Read::wrong_count))]
fn wrong_count(format: Format, children: usize) -> Option<Problem>
    ensures { result ≡ wrong_count_spec format children }
{
    match format {
        Format::Struct | Format::Union => None,
        Format::List | Format::FixedSizeList(_) | Format::Map => {
            unless_so(children == 1, Problem::OneChild)
        }
        Format::RunEnds => unless_so(children == 2, Problem::TwoChildren),
        Format::Null
        | Format::Bool
        | Format::Primitive(_)
        | Format::Utf8
        | Format::Binary
        | Format::FixedSizeBinary(_)
        | Format::Decimal(_, _)
        | Format::Date(_)
        | Format::Time(_)
        | Format::Timestamp(_)
        | Format::Kept(_) => unless_so(children == 0, Problem::NoChildren),
    }
}
