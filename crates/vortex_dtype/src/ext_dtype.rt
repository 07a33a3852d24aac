// SPDX-License-Identifier: Apache-2.0
// SPDX-FileCopyrightText: Copyright the Vortex contributors

// Typed extensions.
ghost use Rattle.std.specs.Prelude.{◌≡◌, ◌⊎◌, IfOk, IfErr, OnOk, Some, None, true, false, MatchResult};
ghost use Rattle.dtype_base.specs.declared.nullability.Nullability.TheVariants.{NonNullable};
ghost use Rattle.dtype_base.specs.declared.vortex_error.VortexError.TheVariants.{OutOfMemory, MetadataRefused};
ghost use Rattle.dtype_types.specs.nullability.Nullable.{CanBeNonNullable, SetNull};
ghost use Rattle.dtype_types.specs.tree.TreeOf.{extension_id, extension_metadata, extension_tree, storage_tree, tree};
ghost use Rattle.dtype_types.specs.tree.Valid.{Valid};
ghost use Rattle.dtype_types.specs.tree.Tree.{extension};
ghost use Rattle.vortex_dtype.specs.Errors.{DowncastError, Unfit};
ghost use Rattle.vortex_dtype.specs.TypedOf.{metadata_of, storage_of, vtable_of};

use crate::ExtVTable;
use dtype_base::{Nullability, VortexError, VortexResult};
use dtype_types::{DType, ExtDTypeRef, ExtId};
use std::alloc::Global;
use std::fmt;

/// A typed extension type: a vtable, the decoded metadata, and a storage type that the metadata fits. For example, for
/// a vtable of dates the metadata may be a unit of time, and the storage type `i32`.
#[derive(Drop)]
pub struct ExtDType<V: ExtVTable> {
    vtable: V,
    metadata: V::Metadata,
    storage: DType,
}

impl<V: ExtVTable + Default> ExtDType<V> {
    /// Returns the extension type of the default vtable with this metadata and this storage type.
    ///
    /// The errors below are those for a valid storage type. For one that isn't valid, the contract leaves open which
    /// metadata the vtable accepts.
    ///
    /// # Errors
    ///
    /// If the storage type is valid:
    ///
    /// - `MetadataRefused` (22): the metadata doesn't fit the storage type.
    /// - `OutOfMemory` (0): an allocation fails. This error may be returned in place of `MetadataRefused`.
    pub fn try_new(alloc: Global, metadata: V::Metadata, storage: DType) -> VortexResult<Self>
        ensures vtable { IfOk result (λ x. V.is_default (vtable_of x)) }
        ensures made { IfOk result (λ x. (metadata_of x ≡ metadata) × (storage_of x ≡ tree storage)) }
        ensures fits { Valid (tree storage)
            → IfOk result (λ x. V.fits (vtable_of x) (V.meant metadata) (tree storage) ≡ true) }
        // the vtable that doesn't accept them is a default one
        ensures errors { Valid (tree storage) → IfErr result (λ e. (e ≡ OutOfMemory)
            ⊎ ((e ≡ MetadataRefused)
            × ((v : V) × V.is_default v × (V.fits v (V.meant metadata) (tree storage) ≡ false)))) }
    {
        ExtDType::try_with_vtable(alloc, V::default(), metadata, storage)
    }
}

impl<V: ExtVTable> ExtDType<V> {
    /// Returns the extension type of this vtable with this metadata and this storage type. If the storage type isn't
    /// valid, the contract doesn't specify which metadata the vtable accepts.
    ///
    /// # Errors
    ///
    /// If the storage type is valid:
    ///
    /// - `MetadataRefused` (22): the metadata doesn't fit the storage type.
    /// - `OutOfMemory` (0): an allocation fails. This error may be returned in place of `MetadataRefused`.
    pub fn try_with_vtable(
        alloc: Global,
        vtable: V,
        metadata: V::Metadata,
        storage: DType,
    ) -> VortexResult<Self>
        ensures made { IfOk result (λ x. (vtable_of x ≡ vtable)
            × (metadata_of x ≡ metadata) × (storage_of x ≡ tree storage)) }
        ensures fits { Valid (tree storage)
            → OnOk result (V.fits vtable (V.meant metadata) (tree storage) ≡ true) }
        ensures errors { Valid (tree storage) → IfErr result
            (λ e. (e ≡ OutOfMemory) ⊎ ((e ≡ MetadataRefused)
            × (V.fits vtable (V.meant metadata) (tree storage) ≡ false))) }
    {
        vtable.validate_dtype(alloc, &metadata, &storage)?;
        Ok(ExtDType {
            vtable,
            metadata,
            storage,
        })
    }

    /// Returns the id of the extension type.
    pub fn id(&self) -> &str
        ensures { result.now ≡ V.id_text (vtable_of self.now) }
    {
        self.vtable.id()
    }

    /// Returns a reference to the vtable.
    pub fn vtable(&self) -> &V
        ensures { result.now ≡ vtable_of self.now }
    {
        &self.vtable
    }

    /// Returns a reference to the metadata.
    pub fn metadata(&self) -> &V::Metadata
        ensures { result.now ≡ metadata_of self.now }
    {
        &self.metadata
    }

    /// Returns a reference to the storage type.
    pub fn storage_dtype(&self) -> &DType
        ensures { tree result.now ≡ storage_of self.now }
    {
        &self.storage
    }

    /// Returns the bytes that the vtable writes for the metadata.
    ///
    /// # Errors
    ///
    /// - `MetadataRefused` (22): the vtable can't write the metadata.
    /// - `OutOfMemory` (0): an allocation fails. This error may be returned in place of `MetadataRefused`.
    pub fn serialize_metadata(&self, alloc: Global) -> VortexResult<Vec<u8>>
        ensures { MatchResult result
            (λ v. V.writes (vtable_of self.now) (V.meant (metadata_of self.now)) ≡ Some v.items)
            (λ e. (e ≡ OutOfMemory) ⊎ ((e ≡ MetadataRefused)
            × (V.writes (vtable_of self.now) (V.meant (metadata_of self.now)) ≡ None))) }
    {
        self.vtable.serialize_metadata(alloc, &self.metadata)
    }

    /// Returns the erased form of the extension type, with the outer nullability of the storage type set to `n`. The
    /// erased form contains the id, the bytes that the vtable writes for the metadata, and the storage type. If `n` is
    /// `NonNullable`, the caller must prove that the storage type can be made non-nullable. For example, the type
    /// `Null` can't be made non-nullable.
    ///
    /// # Errors
    ///
    /// - `MetadataRefused` (22): the vtable can't write the metadata.
    /// - `OutOfMemory` (0): an allocation fails, or a reference count is at its maximum. This error may be returned in
    ///   place of `MetadataRefused`.
    #[tactic(auto, using(dtype_types::proofs::lemmas::Validity::validity))]
    pub fn with_nullability(&self, alloc: Global, n: Nullability) -> VortexResult<ExtDTypeRef>
        requires { n ≡ NonNullable → CanBeNonNullable (storage_of self.now) }
        ensures id { IfOk result (λ e. extension_id e ≡ V.id_text (vtable_of self.now)) }
        ensures ok { MatchResult result
            (λ e. V.writes (vtable_of self.now) (V.meant (metadata_of self.now))
            ≡ Some (extension_metadata e))
            (λ e. (e ≡ OutOfMemory) ⊎ ((e ≡ MetadataRefused)
            × (V.writes (vtable_of self.now) (V.meant (metadata_of self.now)) ≡ None))) }
        ensures storage { IfOk result (λ e. SetNull (storage_of self.now) n (storage_tree e)) }
        ensures valid { Valid (storage_of self.now) → IfOk result (λ e. Valid (extension_tree e)) }
    {
        let bytes = self.vtable.serialize_metadata(alloc, &self.metadata)?;
        let id = ExtId::new(alloc, self.vtable.id())?;
        let storage = self.storage.with_nullability(alloc, n)?;
        ExtDTypeRef::from_parts(alloc, id, bytes, storage)
    }

    /// Consumes the extension type and returns its erased form: its id, the bytes that the vtable writes for the
    /// metadata, and its storage type.
    ///
    /// # Errors
    ///
    /// - `MetadataRefused` (22): the vtable can't write the metadata.
    /// - `OutOfMemory` (0): an allocation fails. This error may be returned in place of `MetadataRefused`.
    pub fn erased(self, alloc: Global) -> VortexResult<ExtDTypeRef>
        ensures made { IfOk result (λ e. extension_tree e
            ≡ extension (V.id_text (vtable_of self)) (extension_metadata e) (storage_of self)) }
        ensures ok { MatchResult result
            (λ e. V.writes (vtable_of self) (V.meant (metadata_of self)) ≡ Some (extension_metadata e))
            (λ e. (e ≡ OutOfMemory) ⊎ ((e ≡ MetadataRefused)
            × (V.writes (vtable_of self) (V.meant (metadata_of self)) ≡ None))) }
        ensures valid { Valid (storage_of self) → IfOk result (λ e. Valid (extension_tree e)) }
    {
        let ExtDType {
            vtable,
            metadata,
            storage,
        } = self;
        let bytes = vtable.serialize_metadata(alloc, &metadata)?;
        let id = ExtId::new(alloc, vtable.id())?;
        ExtDTypeRef::from_parts(alloc, id, bytes, storage)
    }

    /// Returns the typed form of an erased extension type. It contains `vtable`, the metadata that the vtable reads
    /// from the bytes of the erased extension type, and the same storage type.
    ///
    /// # Errors
    ///
    /// Each error is returned together with the erased extension type, which is unchanged:
    ///
    /// - `ExtensionIdDiffers` (23): the id of the erased extension type isn't the id of the vtable. The storage type
    ///   makes no difference.
    /// - `MetadataRefused` (22): the ids are equal, but the vtable can't read the metadata, or the metadata that it
    ///   reads doesn't fit the storage type. If the storage type isn't valid, the contract doesn't specify which
    ///   metadata fits it.
    /// - `OutOfMemory` (0): an allocation fails.
    pub fn try_downcast(
        alloc: Global,
        erased: ExtDTypeRef,
        vtable: V,
    ) -> Result<ExtDType<V>, (ExtDTypeRef, VortexError)>
        ensures ok { MatchResult result
            (λ x. (vtable_of x ≡ vtable) × (storage_of x ≡ storage_tree erased))
            (λ p. p.0 ≡ erased) }
        ensures id { OnOk result (extension_id erased ≡ V.id_text vtable) }
        ensures read { IfOk result
            (λ x. V.reads vtable (extension_metadata erased) ≡ Some (V.meant (metadata_of x))) }
        ensures fits { Valid (storage_tree erased) → IfOk result
            (λ x. V.fits vtable (V.meant (metadata_of x)) (storage_tree erased) ≡ true) }
        ensures errors { IfErr result
            (λ p. DowncastError (extension_id erased) (V.id_text vtable) p.1) }
        ensures refused { Valid (storage_tree erased) → IfErr result (λ p. p.1 ≡ MetadataRefused
            → Unfit (V.reads vtable (extension_metadata erased))
            (λ m. V.fits vtable m (storage_tree erased))) }
    {
        match ExtDType::read_metadata(alloc, &erased, &vtable) {
            Err(fault) => Err((erased, fault)),
            Ok(metadata) => {
                let (_, _, storage) = erased.into_parts();
                Ok(ExtDType {
                    vtable,
                    metadata,
                    storage,
                })
            }
        }
    }

    // Reads the metadata and checks that it fits the storage type.
    fn read_metadata(alloc: Global, erased: &ExtDTypeRef, vtable: &V) -> VortexResult<V::Metadata>
        ensures id { OnOk result (extension_id erased.now ≡ V.id_text vtable.now) }
        ensures ok { MatchResult result
            (λ m. V.reads vtable.now (extension_metadata erased.now) ≡ Some (V.meant m))
            (DowncastError (extension_id erased.now) (V.id_text vtable.now)) }
        ensures errors { Valid (storage_tree erased.now) → IfErr result (λ e. e ≡ MetadataRefused
            → Unfit (V.reads vtable.now (extension_metadata erased.now))
            (λ m. V.fits vtable.now m (storage_tree erased.now))) }
        ensures fits { Valid (storage_tree erased.now) → IfOk result
            (λ m. V.fits vtable.now (V.meant m) (storage_tree erased.now) ≡ true) }
    {
        if erased.id().as_str() != vtable.id() {
            return Err(VortexError::ExtensionIdDiffers);
        }
        let metadata = vtable.deserialize_metadata(alloc, erased.metadata_bytes())?;
        ExtDType::validate(alloc, vtable, &metadata, erased.storage_dtype())?;
        Ok(metadata)
    }

    // Checks that the metadata fits the storage type. The only errors are 0 and 22, even if the storage type is invalid
    // and the vtable returns another error.
    fn validate(
        alloc: Global,
        vtable: &V,
        metadata: &V::Metadata,
        storage: &DType,
    ) -> VortexResult<()>
        ensures fits { Valid (tree storage.now)
            → OnOk result (V.fits vtable.now (V.meant metadata.now) (tree storage.now) ≡ true) }
        ensures errors { IfErr result (λ e. (e ≡ OutOfMemory) ⊎ (e ≡ MetadataRefused)) }
        ensures refused { Valid (tree storage.now) → IfErr result (λ e. e ≡ MetadataRefused
            → V.fits vtable.now (V.meant metadata.now) (tree storage.now) ≡ false) }
    {
        match vtable.validate_dtype(alloc, metadata, storage) {
            Ok(()) => Ok(()),
            Err(VortexError::OutOfMemory) => Err(VortexError::OutOfMemory),
            Err(_) => Err(VortexError::MetadataRefused),
        }
    }
}

/// Prints the vtable, the metadata and the storage type.
impl<V: ExtVTable + fmt::Debug> fmt::Debug for ExtDType<V>
where
    V::Metadata: fmt::Debug,
{
    fn fmt<W: fmt::Write>(&self, f: &mut fmt::Formatter<W>) -> fmt::Result {
        f.debug_struct("ExtDType")
            .field("vtable", &self.vtable)
            .field("metadata", &self.metadata)
            .field("storage", &self.storage)
            .finish()
    }
}
