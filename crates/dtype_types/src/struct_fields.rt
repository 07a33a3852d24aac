// SPDX-License-Identifier: Apache-2.0
// SPDX-FileCopyrightText: Copyright the Vortex contributors

ghost use Rattle.std.specs.Prelude.{◌≡◌, ◌⊎◌, ◌↔◌, IsTrue, ◌<◌, ◌^◌, ◌++◌, [], length, map, remove, vec_len, ◌+◌, ◌≤◌, IfOk, IsOk, IsOkUnless, slice_get, Some, fold, OnOk, string_bytes, All, IsSome, MatchBool, MatchResult, nat_lt};
ghost use Rattle.std.specs.Iterator.{IsFiniteIterable};
ghost use Rattle.std.specs.List.{AllByRecursion, zip};
ghost use Rattle.std.specs.Map.{values_of};
ghost use Rattle.std.specs.Option.{option_copied};
ghost use Rattle.dtype_base.specs.Errors.{Makes};
ghost use Rattle.dtype_base.specs.MadeFrom.{MadeFrom};
ghost use Rattle.dtype_base.specs.BinaryDigits.{binary_digits};
ghost use Rattle.dtype_base.specs.FieldNames.{SelectionError, first_place};
ghost use Rattle.dtype_base.specs.Comparisons.{comparisons, longest_bucket};
ghost use Rattle.dtype_base.specs.declared.vortex_error.VortexError.TheVariants.{DuplicateNames, IndexOutOfBounds, OutOfMemory};
ghost use Rattle.dtype_types.specs.tree.TreeOf.{tree};

use crate::dtype::equality::{NullabilityRule, equal_dtypes};
use crate::dtype::hash::{HashMode, hash_into};
use crate::dtype::indented_text::start_field;
use crate::dtype::nullability_bounds::{MergeRule, merge_dtypes};
use crate::dtype::width::Width;
use crate::field_dtype::into_dtypes;
use crate::field_list::FieldList;
use crate::named::Named;
use crate::{DType, DTypeIter, FieldDType, FieldIter};
use dtype_base::{FieldName, FieldNames, IndexedNames, VortexError, VortexResult};
use std::alloc::{AllocError, Global};
use std::fmt;
use std::hash::{Hash, Hasher};
use std::rc::Rc;

/// The fields of a struct, in order, each with a name and a type. A name may occur more than once, because the formats
/// from which types are read allow it. Each call that looks for a name finds the first field of that name.
///
/// For example, in the fields `int_col=i32?, int_col=i64?` the call `field("int_col")` returns `i32?`, and
/// `find("int_col")` returns 0. The call `project` with the names `int_col, int_col` returns
/// `int_col=i32?, int_col=i32?`.
#[derive(Debug, Drop)]
#[cycle(dtype)]
pub struct StructFields {
    shared: Rc<Named<DType>>,
}

impl StructFields {
    ghost use Rattle.dtype_types.specs.equality.Equality.{items_equal_under};
    ghost use Rattle.dtype_types.specs.nullability.Merged.{merge_items, rule_of};
    ghost use Rattle.dtype_types.specs.tree.Erase.{erase_items};
    ghost use Rattle.dtype_types.specs.parts.FieldTypes.{field_tree};
    ghost use Rattle.dtype_types.specs.texts.IndentedText.{indented_text, indented_braces};
    ghost use Rattle.dtype_types.specs.parts.Lookups.{first_named, field_names, field_types, Projects};
    ghost use Rattle.dtype_base.specs.Distinct.{Distinct};
    ghost use Rattle.dtype_types.specs.equality.Hashes.{counted_writes};
    ghost use Rattle.dtype_types.specs.tree.TreeOf.{fields_of, struct_pairs, children, shown};
    ghost use Rattle.dtype_types.specs.tree.Valid.{Valid, ValidItems};
    ghost use Rattle.dtype_types.specs.tree.Width.{MeasuresFields};

    /// Returns the struct without fields.
    ///
    /// # Errors
    ///
    /// - `OutOfMemory` (0): an allocation fails.
    pub fn empty(alloc: Global) -> VortexResult<Self>
        ensures { Makes result (λ s. children s ≡ []) }
    {
        StructFields::new(alloc, FieldNames::empty(alloc), Vec::new(alloc))
    }

    /// Returns the struct with these names and these types, in order. The caller must prove that there are as many
    /// names as types.
    ///
    /// # Errors
    ///
    /// - `OutOfMemory` (0): an allocation fails.
    #[tactic(auto, using(crate::proofs::Sides::pairs, crate::proofs::Parts::fields, crate::proofs::lemmas::Validity::valid_held))]
    pub fn new(alloc: Global, names: FieldNames, dtypes: Vec<DType>) -> VortexResult<Self>
        requires { length names ≡ vec_len dtypes }
        ensures ok { Makes result (λ s. children s ≡ zip names (map tree dtypes.items)) }
        ensures valid { All (λ d. Valid (tree d)) dtypes.items → IfOk result (λ s. ValidItems (fields_of s)) }
    {
        let names = IndexedNames::new(alloc, names)?;
        let shared = Rc::new(alloc, Named::new(names, dtypes))?;
        Ok(StructFields { shared })
    }

    /// Returns the struct with these names and these field types, in order. The caller must prove that there are as
    /// many names as types.
    ///
    /// # Errors
    ///
    /// - `OutOfMemory` (0): an allocation fails.
    #[tactic(auto, using(crate::proofs::PutTogether::given_fields))]
    pub fn from_fields(
        alloc: Global,
        names: FieldNames,
        dtypes: Vec<FieldDType>,
    ) -> VortexResult<Self>
        requires { length names ≡ vec_len dtypes }
        ensures ok { Makes result (λ s. children s ≡ zip names (map field_tree dtypes.items)) }
        ensures valid { All (λ d. Valid (field_tree d)) dtypes.items → IfOk result (λ s. ValidItems (fields_of s)) }
    {
        let dtypes = into_dtypes(alloc, dtypes)?;
        Ok(StructFields::new(alloc, names, dtypes)?)
    }

    /// Returns the struct of the fields that an iterator yields, in order. The caller must prove that the iterator
    /// ends.
    ///
    /// # Errors
    ///
    /// - `OutOfMemory` (0): an allocation fails.
    pub fn from_iter<I: IntoIterator<Item = (FieldName, FieldDType)>>(
        alloc: Global,
        fields: I,
    ) -> VortexResult<Self>
        requires { IsFiniteIterable I.into_iter_gives I.IntoIter.can_next I.IntoIter.remaining fields }
        ensures { Makes result (λ s. MadeFrom (I.into_iter_gives fields) I.IntoIter.next_gives (λ given.
            (children s ≡ map (λ p. (p.0, field_tree p.1)) given)
            × (All (λ p. Valid (field_tree p.1)) given → ValidItems (fields_of s)))) }
    {
        let fields = fields.into_iter();
        let (room, _) = fields.size_hint();
        let mut collected = FieldList::with_capacity(alloc, room)?;
        for (name, dtype) in fields {
            collected = collected.with(name, dtype.into_dtype())?;
        }
        collected.into_struct(alloc)
    }

    /// Returns the names of the fields, in order.
    #[tactic(auto, using(crate::proofs::Sides::pairs, crate::proofs::Parts::fields))]
    pub fn names(&self) -> &FieldNames
        ensures { result.now ≡ field_names (children self.now) }
    {
        self.shared.names()
    }

    // The types, in order.
    fn dtypes(&self) -> &[DType]
        ensures { result.now ≡ values_of (struct_pairs self.now) }
    {
        self.shared.dtypes()
    }

    /// Returns an iterator over the fields, in order. For each field it returns a reference to the name and a reference
    /// to the type.
    #[tactic(auto, using(crate::proofs::Sides::zip_sides, crate::proofs::Sides::pairs, crate::proofs::Parts::fields))]
    pub fn pairs(&self) -> FieldIter<'_>
        ensures lent { result ≡ struct_pairs self.now }
        ensures fits { length result < 2 ^ 64 }
    {
        FieldIter::new(self.shared.names().as_slice(), self.shared.dtypes())
    }

    /// Returns the number of fields.
    pub fn nfields(&self) -> usize
        ensures { result ≡ length (children self.now) }
    {
        self.shared.len()
    }

    /// Returns the name of the field at this position, or `None` if the position isn't below the number of fields.
    pub fn field_name(&self, index: usize) -> Option<&FieldName>
        ensures { option_copied result ≡ slice_get (field_names (children self.now)) index }
    {
        self.names().as_slice().get(index)
    }

    /// Returns the position of the first field with this name, or `None` if no field has it.
    ///
    /// The call searches an index of the names. `find_counted` describes how many names it compares.
    pub fn find(&self, name: &str) -> Option<usize>
        ensures { result ≡ first_place (field_names (children self.now)) name.now }
    {
        self.find_counted(name).0
    }

    /// Returns what `find` returns for this name, and the number of names that the search compared with it.
    ///
    /// That number is the same for every name, whether a field has the name or not. It is 0 if there are no fields.
    /// Otherwise it depends on the index, which distributes the names by their hashes among as many buckets as there
    /// are fields. Every lookup is a binary search among as many names as the longest bucket contains: it compares 1
    /// name if that bucket contains one name, 2 for two names, 3 for three or four names, and 4 for five to eight
    /// names. Even if all names are in one bucket, the number is at most 1 plus the number of binary digits of the
    /// number of fields. For example, it is at most 11 for 1000 fields.
    ///
    /// The call doesn't allocate.
    #[tactic(auto, using(crate::proofs::Parts::fields))]
    pub fn find_counted(&self, name: &str) -> (Option<usize>, u64)
        ensures first { result.0 ≡ first_place (field_names (children self.now)) name.now }
        ensures count { result.1 ≡ comparisons (longest_bucket (field_names (children self.now))) }
        ensures at_most { result.1 ≤ binary_digits (length (children self.now)) + 1 }
        ensures at_least { IsSome result.0 → 1 ≤ result.1 }
    {
        self.shared.find_counted(name)
    }

    /// Returns the type of the first field with this name, or `None` if no field has it.
    #[tactic(auto, using(crate::proofs::lemmas::Lookups::lookups))]
    pub fn field(&self, name: &str) -> Option<&DType>
        ensures { shown tree result ≡ first_named (children self.now) name.now }
    {
        self.field_by_index(self.find(name)?)
    }

    /// Returns the type of the field at this position, or `None` if the position isn't below the number of fields.
    #[tactic(auto, using(crate::proofs::Parts::get_tree, crate::proofs::Parts::types_shown))]
    pub fn field_by_index(&self, index: usize) -> Option<&DType>
        ensures { shown tree result ≡ slice_get (field_types (children self.now)) index }
    {
        self.dtypes().get(index)
    }

    /// Returns an iterator over the types of the fields, in order. It returns a reference to each type.
    #[tactic(auto, using(crate::proofs::Sides::pairs, crate::proofs::Parts::fields))]
    pub fn fields(&self) -> DTypeIter<'_>
        ensures all { map tree result ≡ field_types (children self.now) }
        ensures fits { length (map tree result) < 2 ^ 64 }
    {
        DTypeIter::new(self.dtypes())
    }

    /// Returns an iterator over the types of the fields, in order. The call does the same as `fields`.
    pub fn field_dtypes(&self) -> DTypeIter<'_>
        ensures all { map tree result ≡ field_types (children self.now) }
        ensures fits { length (map tree result) < 2 ^ 64 }
    {
        self.fields()
    }

    /// Returns whether the fields are equal if every nullability in them, at any depth, is ignored. The names and their
    /// order are compared. For example, `a=i32, b=utf8` and `a=i32?, b=utf8` are equal in this way, and `b=utf8, a=i32`
    /// isn't equal to them.
    #[tactic(auto, using(crate::proofs::KindLaws::erased_tests))]
    pub fn eq_ignore_nullability(&self, other: &Self) -> bool
        ensures { IsTrue result
            ↔ (erase_items (fields_of self.now) ≡ erase_items (fields_of other.now)) }
    {
        self.equal_under(other, NullabilityRule::Ignored)
    }

    // Returns whether the names of the two are equal, and their types are equal under the rule.
    #[cycle(equal_under)]
    #[tactic(auto, using(crate::proofs::Alongside::same_fields))]
    pub(crate) fn equal_under(&self, other: &StructFields, rule: NullabilityRule) -> bool
        ensures { result ≡ items_equal_under rule (fields_of self.now) (fields_of other.now) }
    {
        self.shared.names() == other.shared.names()
            && equal_dtypes(self.dtypes(), other.dtypes(), rule)
    }

    // Returns the bound of two structs that are equal except for nullabilities. It has the names and the index of this
    // one.
    #[cycle(merge_under)]
    #[tactic(auto, using(crate::proofs::MergedParts::merged_fields))]
    pub(crate) fn merge_under(
        &self,
        alloc: Global,
        other: &StructFields,
        rule: MergeRule,
    ) -> VortexResult<StructFields>
        requires { erase_items (fields_of self.now) ≡ erase_items (fields_of other.now) }
        ensures { Makes result (λ s. fields_of s ≡ merge_items (rule_of rule) (fields_of self.now) (fields_of other.now)) }
    {
        let dtypes = merge_dtypes(alloc, self.dtypes(), other.dtypes(), rule)?;
        let merged = self.shared.with_dtypes(alloc, dtypes)?;
        let shared = Rc::new(alloc, merged)?;
        Ok(StructFields { shared })
    }

    // Returns the width of a struct of these fields. It stops at the first field of variable width.
    #[cycle(width)]
    pub(crate) fn width(&self) -> Width
        ensures { MeasuresFields result (children self.now) }
    {
        let mut total = Width::Bytes(0);
        for dtype in self.dtypes() {
            total = total.plus(dtype.width());
            if let Width::Variable = total {
                return Width::Variable;
            }
        }
        total
    }

    // Hashes the number of fields, and each field.
    #[cycle(hash)]
    pub(crate) fn hash_into<H: Hasher>(&self, mode: HashMode, state: &mut H)
        ensures { state.new ≡ fold H.write state.old (counted_writes mode (fields_of self.now)) }
    {
        state.write_usize(self.nfields());
        for (name, dtype) in self.pairs() {
            name.hash(state);
            hash_into(dtype, mode, state);
        }
    }

    /// Returns the fields with these names, in the order of `projection`. A name that occurs twice in `projection`
    /// occurs twice in the result. If several fields have the same name, the first of them is selected. For example,
    /// projecting `a=i32, b=utf8` to `b, a, b` returns `b=utf8, a=i32, b=utf8`.
    ///
    /// # Errors
    ///
    /// - `FieldNotFound` (16): a name in `projection` isn't the name of any field. The error contains the position, in
    ///   `projection`, of the first such name.
    /// - `OutOfMemory` (0): an allocation fails, or a reference count is at its maximum.
    #[tactic(auto, using(crate::proofs::Selected::refused_of))]
    pub fn project(&self, alloc: Global, projection: &[FieldName]) -> VortexResult<Self>
        ensures ok { MatchResult result
            (λ s. Projects (children self.now) projection.now (children s))
            (λ e. (e ≡ OutOfMemory)
            ⊎ SelectionError (field_names (children self.now)) projection.now e) }
        ensures each { IfOk result (λ s. AllByRecursion
            (λ n. first_named (children s) n ≡ first_named (children self.now) n) projection.now) }
        ensures there { IsOk result → AllByRecursion
            (λ n. IsSome (first_named (children self.now) n)) projection.now }
        ensures valid { ValidItems (fields_of self.now) → IfOk result (λ s. ValidItems (fields_of s)) }
    {
        let (names, firsts) = self.shared.select(alloc, projection)?;
        let dtypes = self.copies_at(alloc, &firsts)?;
        let shared = Rc::new(alloc, Named::new(names, dtypes))?;
        Ok(StructFields { shared })
    }

    // Returns copies of the types at these positions, in the order of the positions.
    fn copies_at(&self, alloc: Global, positions: &[usize]) -> VortexResult<Vec<DType>>
        requires { All (λ i. i < length (values_of (struct_pairs self.now))) positions.now }
        ensures { Makes result (λ copies. map Some (map tree copies.items)
            ≡ map (slice_get (map tree (values_of (struct_pairs self.now)))) positions.now) }
    {
        let dtypes = self.dtypes();
        let mut copies = Vec::with_capacity(alloc, positions.len())?;
        for position in positions {
            copies.push_reserved(dtypes[*position].try_clone(alloc)?);
        }
        Ok(copies)
    }

    /// Returns the fields of this struct followed by those of the other. The names of all these fields have to be
    /// different. For example, merging `a=i32` with `b=utf8` returns `a=i32, b=utf8`.
    ///
    /// # Errors
    ///
    /// - `DuplicateNames` (18): a name occurs in both structs, or twice in one of them.
    /// - `OutOfMemory` (0): an allocation fails, or a reference count is at its maximum.
    #[tactic(auto, using(crate::proofs::lemmas::Validity::valid_joined, crate::proofs::Parts::names_shown))]
    pub fn disjoint_merge(&self, alloc: Global, other: &Self) -> VortexResult<Self>
        ensures ok { MatchResult result
            (λ s. children s ≡ children self.now ++ children other.now)
            (λ e. (e ≡ OutOfMemory) ⊎ ((e ≡ DuplicateNames)
            × ¬ (Distinct (field_names (children self.now ++ children other.now))))) }
        ensures distinct { IsOk result
            → Distinct (field_names (children self.now ++ children other.now)) }
        ensures valid { ValidItems (fields_of self.now) → ValidItems (fields_of other.now)
            → IfOk result (λ s. ValidItems (fields_of s)) }
    {
        let merged = self.joined(alloc, other)?;
        if !merged.shared.are_distinct() {
            return Err(VortexError::DuplicateNames);
        }
        Ok(merged)
    }

    // Returns the fields of this struct followed by those of the other, even if names repeat.
    fn joined(&self, alloc: Global, other: &Self) -> VortexResult<Self>
        ensures { Makes result (λ s. children s ≡ children self.now ++ children other.now) }
    {
        let count = self.nfields().saturating_add(other.nfields());
        let joined = FieldList::with_capacity(alloc, count)?
            .with_copies(alloc, self.pairs())?
            .with_copies(alloc, other.pairs())?;
        Ok(joined.into_struct(alloc)?)
    }

    /// Returns all fields except the one at this position.
    ///
    /// # Errors
    ///
    /// - `IndexOutOfBounds` (17): the position isn't below the number of fields. The error contains the position and
    ///   the number of fields.
    /// - `OutOfMemory` (0): an allocation fails, or a reference count is at its maximum.
    #[tactic(auto, using(crate::proofs::PutTogether::all_but, crate::proofs::Parts::names_shown))]
    pub fn without_field(&self, alloc: Global, index: usize) -> VortexResult<Self>
        ensures ok { MatchResult result
            (λ s. children s ≡ remove (children self.now) index)
            (λ e. MatchBool (nat_lt index (length (children self.now))) (e ≡ OutOfMemory)
            (e ≡ IndexOutOfBounds index (length (children self.now)))) }
        ensures within { IsOk result → index < length (children self.now) }
    {
        let fields = self.nfields();
        if index >= fields {
            return Err(VortexError::IndexOutOfBounds { index, fields });
        }
        let (names, dtypes) = (self.names().as_slice(), self.dtypes());
        let before = FieldIter::new(&names[..index], &dtypes[..index]);
        let behind = FieldIter::new(&names[index + 1..], &dtypes[index + 1..]);
        let left = FieldList::with_capacity(alloc, fields - 1)?
            .with_copies(alloc, before)?
            .with_copies(alloc, behind)?;
        Ok(left.into_struct(alloc)?)
    }

    /// Returns the fields as text over several lines. The first line is an opening brace, then each field has a line
    /// that begins with two spaces, and the last line is a closing brace. For example, the text of `{a=i32, b=utf8}`
    /// has the four lines `{`, `  a=i32,`, `  b=utf8` and `}`.
    ///
    /// If the type of a field is a struct, that struct is written over several lines too, and the lines of its fields
    /// and its closing brace begin with two more spaces. The same is done for a struct that is the element type of a
    /// list or of a fixed-size list. Every other type is written on one line.
    ///
    /// # Errors
    ///
    /// - `OutOfMemory` (0): an allocation fails.
    pub fn indented(&self, alloc: Global) -> VortexResult<String>
        ensures { Makes result (λ s. string_bytes s ≡ indented_text (fields_of self.now)) }
    {
        let mut text = String::new(alloc);
        self.write_indented(alloc, &mut text, "")?;
        Ok(text)
    }

    // Appends the indented text. The closing brace is indented by `indent`.
    #[cycle(indented)]
    pub(crate) fn write_indented(
        &self,
        alloc: Global,
        out: &mut String,
        indent: &str,
    ) -> VortexResult<()>
        ensures written { OnOk result (string_bytes out.new
            ≡ string_bytes out.old ++ indented_braces indent.now (fields_of self.now)) }
        ensures errors { IsOkUnless result OutOfMemory }
    {
        let inner = format!(in alloc; "{indent}  ")?;
        out.push_str("{\n")?;
        let mut separator = "";
        for (name, dtype) in self.pairs() {
            start_field(out, separator, inner.as_str(), name)?;
            dtype.write_indented(alloc, out, inner.as_str())?;
            separator = ",\n";
        }
        if self.nfields() > 0 {
            out.push_str("\n")?;
        }
        write!(out, "{indent}}}")?;
        Ok(())
    }

    /// Returns a copy of the fields, which shares the names and the types with the original.
    ///
    /// The call raises a reference count and doesn't allocate, so it doesn't use `_alloc`. The parameter is there so
    /// that the signature can stay the same if a later version has to allocate.
    ///
    /// # Errors
    ///
    /// - `OutOfMemory` (0): the reference count is at its maximum, so no further copy can be counted.
    pub fn try_clone(&self, _alloc: Global) -> VortexResult<Self>
        ensures { Makes result (λ s. struct_pairs s ≡ struct_pairs self.now) }
    {
        let shared = self.shared.clone()?;
        Ok(StructFields { shared })
    }
}

#[tactic(auto, using(crate::proofs::lemmas::Equality::equality))]
impl PartialEq for StructFields {
    ghost use Rattle.dtype_types.specs.equality.Equality.{same_items_by};
    ghost use Rattle.dtype_types.specs.equality.EqualityLaws.{same_items_by_equiv};
    ghost use Rattle.dtype_types.specs.tree.TreeOf.{children, fields_of};
    ghost use Rattle.std.specs.Cmp.{partial_equiv_from_equiv};

    ghost eq = { same_items_by fields_of };

    ghost laws = { partial_equiv_from_equiv (same_items_by_equiv fields_of) };

    fn eq(&self, other: &StructFields) -> bool
        ensures { IsTrue result ↔ (children self.now ≡ children other.now) }
    {
        self.equal_under(other, NullabilityRule::Compared)
    }
}

impl Eq for StructFields {
    ghost use Rattle.dtype_types.specs.tree.TreeOf.{fields_of};
    ghost use Rattle.dtype_types.specs.equality.EqualityLaws.{same_items_by_equiv};

    ghost laws = { same_items_by_equiv fields_of };
}

impl Hash for StructFields {
    ghost use Rattle.dtype_types.specs.tree.TreeOf.{fields_of};
    ghost use Rattle.dtype_types.specs.equality.HashLaws.{counted_writes_alike};
    ghost use Rattle.dtype_types.specs.equality.Hashes.{counted_writes};
    ghost use Rattle.dtype_types.specs.declared.dtype.hash.HashMode.TheVariants.{Whole};

    ghost hash_input = { λ x. counted_writes Whole (fields_of x) };

    ghost respects_eq = { counted_writes_alike fields_of };

    fn hash<H: Hasher>(&self, state: &mut H) {
        self.hash_into(HashMode::Whole, state);
    }
}

/// Collects the fields that an iterator yields into a struct, in order. So `collect` can return a `StructFields`. It
/// returns `AllocError` if an allocation fails.
impl FromIterator<(FieldName, FieldDType)> for StructFields {
    ghost use Rattle.dtype_types.specs.parts.FieldTypes.{AreValidFields, field_tree};
    ghost use Rattle.dtype_types.specs.tree.TreeOf.{children, fields_of};
    ghost use Rattle.dtype_types.specs.tree.Valid.{Valid, ValidItems};

    type Alloc = Global;

    ghost from_iter_gives = { λ given s. (children s ≡ map (λ p. (p.0, field_tree p.1)) given)
        × (AreValidFields given → ValidItems (fields_of s)) };

    fn from_iter<I: IntoIterator<Item = (FieldName, FieldDType)>>(
        alloc: Global,
        fields: I,
    ) -> Result<StructFields, AllocError> {
        match StructFields::from_iter(alloc, fields) {
            Ok(fields) => Ok(fields),
            Err(_) => Err(AllocError),
        }
    }
}

/// Writes the fields in braces, each as its name, `=` and its type, for example `{a=i32?, b=utf8}`.
impl fmt::Display for StructFields {
    ghost use Rattle.dtype_types.specs.texts.TextOf.{struct_text};

    ghost output = { λ s. Some (struct_text s) };

    #[cycle(text)]
    fn fmt<W: fmt::Write>(&self, f: &mut fmt::Formatter<W>) -> fmt::Result {
        write!(f, "{{")?;
        let mut separator = "";
        for (name, dtype) in self.pairs() {
            write!(f, "{separator}{name}=")?;
            dtype.fmt(f)?;
            separator = ", ";
        }
        write!(f, "}}")
    }
}
