// SPDX-License-Identifier: Apache-2.0
// SPDX-FileCopyrightText: Copyright the Vortex contributors

// Nodes and texts from types.
ghost use Rattle.std.specs.Prelude.{◌≡◌, Ok};
ghost use Rattle.dtype_text.specs.Read.{shown};
ghost use Rattle.dtype_types.specs.tree.Tree.{fixed_size_list as fixed_tree, struct as struct_tree, union as union_tree};
ghost use Rattle.dtype_types.specs.tree.TreeOf.{tree, extension_id, extension_metadata as metadata_bytes, extension_tree, fields_of, map_shown, variants_of};
ghost use Rattle.c_arrow.specs.Added.{Writes, WritesField, WritesFields, label_of, out, with_node};
ghost use Rattle.c_arrow.specs.Faults.{Gives};
ghost use Rattle.c_arrow.specs.Views.{map_tree, outer_of, written};
ghost use Rattle.c_arrow.specs.Write as write;
ghost use Rattle.c_arrow.specs.Write.{nodes_and_texts};

use crate::fault::{ArrowFault, Column, Problem};
use crate::formats_written::{
    bytes_format, check_nul, decimal_format, fixed_size_format, letter_of, union_format,
};
use crate::kept::is_byte;
use crate::keys::{extension_metadata, is_tensor};
use crate::node::{ArrowNode, flags_of};
use crate::reader::MAX_LEVELS;
use crate::temporal::Temporal;
use dtype_base::Nullability;
use dtype_types::{DType, ExtDTypeRef, MapDType, StructFields, UnionVariants};
use std::alloc::Global;

// What has been written.
#[derive(Drop)]
struct Flat {
    nodes: Vec<ArrowNode>,
    texts: Vec<u8>,
}

// The name of a field, its metadata, and whether its type is the storage type of an extension.
#[derive(Clone, Copy)]
struct Label<'a> {
    name: &'a [u8],
    metadata: &'a [u8],
    is_storage: bool,
}

// The name of the field between a map and its key and value.
const ENTRIES: &[u8] = b"entries";

/// Returns the nodes and the texts of the schema of the type. The name of the root is empty.
///
/// # Errors
///
/// - `Refused`: a part of the type has no Arrow type. The refusal names the field and says why.
/// - `TooDeep`: a type is nested in more than 128 others.
/// - `OutOfMemory`: an allocation fails.
#[tactic(auto, unfolding(crate::specs::Added::with_field))]
pub fn nodes_of(alloc: Global, dtype: &DType) -> Result<(Vec<ArrowNode>, Vec<u8>), ArrowFault>
    // The nodes and the texts of the schema, or the fault why there is none, unless memory runs out.
    ensures { Gives (λ r. (r.0.items, r.1.items)) result (nodes_and_texts (tree dtype.now)) }
{
    let mut flat = Flat {
        nodes: Vec::new(alloc),
        texts: Vec::new(alloc),
    };
    flat.field(alloc, Label::called(&[]), dtype, MAX_LEVELS)?;
    Ok((flat.nodes, flat.texts))
}

impl<'a> Label<'a> {
    // Returns the label of a field without metadata.
    fn called(name: &'a [u8]) -> Label<'a>
        ensures { label_of result ≡ write.called name.now }
    {
        Label {
            name,
            metadata: &[],
            is_storage: false,
        }
    }

    // Returns whether a fixed-size list of these elements is written as byte strings of one length.
    #[tactic(auto, unfolding(crate::specs::Write::are_bytes))]
    fn are_bytes(self, element: &DType) -> bool
        ensures { result ≡ write.are_bytes (label_of self.entry) (tree element.now) }
    {
        is_byte(element) && !is_tensor(self.metadata)
    }
}

// Returns the flags of a field that is no map.
fn nullable_flag(n: Nullability) -> u64
    ensures { result ≡ write.nullable_flag n }
{
    flags_of(n.is_nullable(), false)
}

impl Flat {
    // Adds the node of a field, with its texts.
    #[tactic(auto, unfolding(crate::specs::Added::with_node))]
    fn node(
        &mut self,
        label: Label<'_>,
        format: &[u8],
        flags: u64,
        child_count: usize,
    ) -> Result<(), ArrowFault>
        ensures { Writes result (out self.new) (Ok (with_node format.now flags (label_of label.entry) child_count (out self.old))) }
    {
        self.nodes.push(ArrowNode {
            flags,
            format_length: format.len(),
            name_length: label.name.len(),
            metadata_length: label.metadata.len(),
            child_count,
            has_dictionary: 0,
            fault: 0,
        })?;
        self.texts.extend_from_slice(format)?;
        self.texts.extend_from_slice(label.name)?;
        self.texts.extend_from_slice(label.metadata)?;
        Ok(())
    }

    // Adds a field without children.
    #[tactic(auto, using(crate::proofs::Writing::leaf_added))]
    fn leaf(&mut self, label: Label<'_>, format: &[u8], n: Nullability) -> Result<(), ArrowFault>
        ensures { WritesField result self.old self.new (write.leaf format.now (label_of label.entry) n) }
    {
        self.node(label, format, nullable_flag(n), 0)
    }

    // Adds a field of this type, with at most so many levels below it.
    #[cycle(writing)]
    #[tactic(auto, using(crate::proofs::WritingCalls::kinds, crate::proofs::Writing::one_added, crate::proofs::Writing::before_stops, crate::proofs::FaultFacts::faults))]
    fn field(
        &mut self,
        alloc: Global,
        label: Label<'_>,
        dtype: &DType,
        levels: u32,
    ) -> Result<(), ArrowFault>
        ensures { WritesField result self.old self.new (write.field_of levels (label_of label.entry) (tree dtype.now)) }
    {
        match dtype {
            DType::Null => self.leaf(label, b"n", Nullability::Nullable),
            DType::Bool(n) => self.leaf(label, b"b", *n),
            DType::Primitive(ptype, n) => self.leaf(label, letter_of(*ptype).as_bytes(), *n),
            DType::Decimal(decimal, n) => {
                let format = decimal_format(alloc, *decimal)?;
                self.leaf(label, format.as_bytes(), *n)
            }
            DType::Utf8(n) => self.leaf(label, b"u", *n),
            DType::Binary(n) => self.leaf(label, b"z", *n),
            DType::List(element, n) => {
                self.node(label, b"+l", nullable_flag(*n), 1)?;
                self.child(alloc, b"item", element, levels)
            }
            DType::FixedSizeList(element, size, n) => {
                self.fixed(alloc, label, element, *size, *n, levels)
            }
            DType::Map(map, n) => self.map(alloc, label, map, *n, levels),
            DType::Struct(fields, n) => self.structure(alloc, label, fields, *n, levels),
            DType::Union(variants, n) => self.union(alloc, label, variants, *n, levels),
            DType::Variant(_) => Err(ArrowFault::refused(alloc, &[], Problem::Variant)),
            DType::Extension(extension) => self.extension(alloc, label, extension, levels),
        }
    }

    // Adds a fixed-size list of these elements.
    #[cycle(writing)]
    fn fixed(
        &mut self,
        alloc: Global,
        label: Label<'_>,
        element: &DType,
        size: u32,
        n: Nullability,
        levels: u32,
    ) -> Result<(), ArrowFault>
        ensures { WritesField result self.old self.new (write.field_of levels (label_of label.entry) (fixed_tree (tree element.now) size n)) }
    {
        if label.are_bytes(element) {
            return self.bytes(alloc, label, size, n, levels);
        }
        let format = fixed_size_format(alloc, size)?;
        self.node(label, format.as_bytes(), nullable_flag(n), 1)?;
        self.child(alloc, b"item", element, levels)
    }

    // Adds byte strings of one length, which take a level as a list does.
    #[tactic(auto, using(crate::proofs::Writing::bytes_stops, crate::proofs::Writing::bytes_too_deep, crate::proofs::Writing::bytes_added))]
    fn bytes(
        &mut self,
        alloc: Global,
        label: Label<'_>,
        size: u32,
        n: Nullability,
        levels: u32,
    ) -> Result<(), ArrowFault>
        ensures { WritesField result self.old self.new (write.bytes_field levels (label_of label.entry) size n) }
    {
        let format = bytes_format(alloc, size)?;
        if levels == 0 {
            return Err(ArrowFault::TooDeep(Column { names: None }));
        }
        self.leaf(label, format.as_bytes(), n)
    }

    // Adds a child with this name and of this type, a level deeper. The name may be that of a field of a struct.
    #[cycle(writing)]
    #[tactic(auto, using(crate::proofs::Writing::child_too_deep, crate::proofs::Writing::child_deeper, crate::proofs::FaultFacts::stops_within))]
    fn child(
        &mut self,
        alloc: Global,
        name: &[u8],
        dtype: &DType,
        levels: u32,
    ) -> Result<(), ArrowFault>
        ensures { WritesField result self.old self.new (write.child_of levels name.now (tree dtype.now)) }
    {
        if levels == 0 {
            return Err(ArrowFault::TooDeep(Column { names: None }));
        }
        match self.named(alloc, name, dtype, levels - 1) {
            Ok(()) => Ok(()),
            Err(fault) => Err(fault.within(alloc, name)),
        }
    }

    // Adds a field with this name and of this type, if the name can be written.
    #[cycle(writing)]
    fn named(
        &mut self,
        alloc: Global,
        name: &[u8],
        dtype: &DType,
        levels: u32,
    ) -> Result<(), ArrowFault>
        ensures { WritesField result self.old self.new (write.named_of levels name.now (tree dtype.now)) }
    {
        check_nul(alloc, name)?;
        self.field(alloc, Label::called(name), dtype, levels)
    }

    // Adds an extension.
    #[cycle(writing)]
    #[tactic(auto, unfolding(crate::specs::Write::extension_at))]
    fn extension(
        &mut self,
        alloc: Global,
        label: Label<'_>,
        extension: &ExtDTypeRef,
        levels: u32,
    ) -> Result<(), ArrowFault>
        ensures { WritesField result self.old self.new (write.field_of levels (label_of label.entry) (extension_tree extension.now)) }
    {
        let temporal = Temporal::of(extension);
        if label.is_storage {
            self.inner_extension(alloc, label, temporal, levels)
        } else {
            self.outer_extension(alloc, label.name, extension, temporal, levels)
        }
    }

    // Adds an extension that is the storage type of another.
    #[tactic(auto, using(crate::proofs::Writing::inner_too_deep, crate::proofs::Writing::inner_temporal, crate::proofs::FaultFacts::faults))]
    fn inner_extension(
        &mut self,
        alloc: Global,
        label: Label<'_>,
        temporal: Option<Temporal<'_>>,
        levels: u32,
    ) -> Result<(), ArrowFault>
        ensures { WritesField result self.old self.new (write.inner_extension levels (label_of label.entry) (shown written temporal.entry)) }
    {
        match temporal {
            Some(_) if levels == 0 => Err(ArrowFault::TooDeep(Column { names: None })),
            Some(temporal) => self.temporal(alloc, label, &temporal, levels - 1),
            None => Err(ArrowFault::refused(alloc, &[], Problem::Extension)),
        }
    }

    // Adds an extension that is no other's storage type.
    #[cycle(writing)]
    #[tactic(auto, using(crate::proofs::Writing::outer_too_deep, crate::proofs::Writing::outer_temporal, crate::proofs::Writing::outer_deeper, crate::proofs::Writing::before_stops))]
    fn outer_extension(
        &mut self,
        alloc: Global,
        name: &[u8],
        extension: &ExtDTypeRef,
        temporal: Option<Temporal<'_>>,
        levels: u32,
    ) -> Result<(), ArrowFault>
        ensures { WritesField result self.old self.new (outer_of levels name.now (shown written temporal.entry) extension.now) }
    {
        if levels == 0 {
            return Err(ArrowFault::TooDeep(Column { names: None }));
        }
        match temporal {
            Some(temporal) => { self.temporal(alloc, Label::called(name), &temporal, levels - 1) }
            None => {
                let metadata = metadata_for(alloc, extension)?;
                let label = Label {
                    name,
                    metadata: &metadata,
                    is_storage: true,
                };
                self.field(alloc, label, extension.storage_dtype(), levels - 1)
            }
        }
    }

    // Adds a date, a time, a timestamp, a duration or an interval, whose storage type may have so many levels.
    #[tactic(auto, using(crate::proofs::Writing::temporal_stops))]
    fn temporal(
        &mut self,
        alloc: Global,
        label: Label<'_>,
        temporal: &Temporal<'_>,
        levels: u32,
    ) -> Result<(), ArrowFault>
        ensures { WritesField result self.old self.new (write.temporal levels (label_of label.entry) (written temporal.now)) }
    {
        check_nul(alloc, temporal.zone)?;
        level_if(temporal.is_list, levels)?;
        let mut format = Vec::from_slice(alloc, temporal.letters)?;
        format.extend_from_slice(temporal.zone)?;
        self.leaf(label, &format, temporal.nullability)
    }

    // Adds a map.
    #[cycle(writing)]
    #[tactic(auto, using(crate::proofs::Writing::map_added, crate::proofs::FaultFacts::stops_within))]
    fn map(
        &mut self,
        alloc: Global,
        label: Label<'_>,
        map: &MapDType,
        n: Nullability,
        levels: u32,
    ) -> Result<(), ArrowFault>
        ensures { WritesField result self.old self.new (write.field_of levels (label_of label.entry) (map_tree map.now n)) }
    {
        let flags = flags_of(n.is_nullable(), map.keys_sorted());
        self.node(label, b"+m", flags, 1)?;
        let entries = nullable_flag(Nullability::NonNullable);
        self.node(Label::called(ENTRIES), b"+s", entries, 2)?;
        match self.entries(alloc, map, levels) {
            Ok(()) => Ok(()),
            Err(fault) => Err(fault.within(alloc, ENTRIES)),
        }
    }

    // Adds the key and the value of a map.
    #[cycle(writing)]
    #[tactic(auto, using(crate::proofs::Writing::two_added))]
    fn entries(&mut self, alloc: Global, map: &MapDType, levels: u32) -> Result<(), ArrowFault>
        ensures { WritesFields result self.old self.new (write.entries_of levels (map_shown map.now).0 (map_shown map.now).1) }
    {
        self.child(alloc, b"key", map.key_dtype(), levels)?;
        self.child(alloc, b"value", map.value_dtype(), levels)
    }

    // Adds a struct.
    #[cycle(writing)]
    fn structure(
        &mut self,
        alloc: Global,
        label: Label<'_>,
        fields: &StructFields,
        n: Nullability,
        levels: u32,
    ) -> Result<(), ArrowFault>
        ensures { WritesField result self.old self.new (write.field_of levels (label_of label.entry) (struct_tree (fields_of fields.now) n)) }
    {
        self.node(label, b"+s", nullable_flag(n), fields.nfields())?;
        self.fields(alloc, fields, levels)
    }

    // Adds the fields of a struct.
    #[cycle(writing)]
    fn fields(
        &mut self,
        alloc: Global,
        fields: &StructFields,
        levels: u32,
    ) -> Result<(), ArrowFault>
        ensures { WritesFields result self.old self.new (write.children_of levels (fields_of fields.now)) }
    {
        for (name, dtype) in fields.pairs() {
            self.child(alloc, name.as_str().as_bytes(), dtype, levels)?;
        }
        Ok(())
    }

    // Adds a union.
    #[cycle(writing)]
    fn union(
        &mut self,
        alloc: Global,
        label: Label<'_>,
        variants: &UnionVariants,
        n: Nullability,
        levels: u32,
    ) -> Result<(), ArrowFault>
        ensures { WritesField result self.old self.new (write.field_of levels (label_of label.entry) (union_tree (variants_of variants.now) n)) }
    {
        let format = union_format(alloc, variants.type_ids())?;
        let format = format.as_bytes();
        self.node(label, format, nullable_flag(n), variants.len())?;
        self.variants(alloc, variants, levels)
    }

    // Adds the variants of a union.
    #[cycle(writing)]
    fn variants(
        &mut self,
        alloc: Global,
        variants: &UnionVariants,
        levels: u32,
    ) -> Result<(), ArrowFault>
        ensures { WritesFields result self.old self.new (write.children_of levels (variants_of variants.now)) }
    {
        for (name, _, dtype) in variants.triples() {
            self.child(alloc, name.as_str().as_bytes(), dtype, levels)?;
        }
        Ok(())
    }
}

// Returns how many levels are left, if one is taken or none.
#[tactic(auto, unfolding(crate::specs::Write::level_if))]
fn level_if(is_taken: bool, levels: u32) -> Result<u32, ArrowFault>
    ensures { Gives (λ l. l) result (write.level_if is_taken levels) }
{
    if !is_taken {
        return Ok(levels);
    }
    match levels.checked_sub(1) {
        Some(levels) => Ok(levels),
        None => Err(ArrowFault::TooDeep(Column { names: None })),
    }
}

// Returns the metadata that says which extension a field is.
#[tactic(auto, unfolding(crate::specs::Write::metadata_for), using(crate::proofs::FaultFacts::faults))]
fn metadata_for(alloc: Global, extension: &ExtDTypeRef) -> Result<Vec<u8>, ArrowFault>
    ensures { Gives (λ v. v.items) result (write.metadata_for (extension_id extension.now) (metadata_bytes extension.now)) }
{
    let id = extension.id().as_str().as_bytes();
    check_nul(alloc, id)?;
    match extension_metadata(alloc, id, extension.metadata_bytes())? {
        Some(metadata) => Ok(metadata),
        None => Err(ArrowFault::refused(alloc, &[], Problem::Length)),
    }
}
