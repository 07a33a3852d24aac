// SPDX-License-Identifier: Apache-2.0
// SPDX-FileCopyrightText: Copyright the Vortex contributors

// Plugins, by which a session reads the metadata of extension types.
ghost use Rattle.std.specs.Prelude.{◌≡◌, ◌⊎◌, IfOk, IfErr, Some, None};
ghost use Rattle.dtype_base.specs.declared.vortex_error.VortexError.TheVariants.{OutOfMemory, MetadataRefused};
ghost use Rattle.dtype_types.specs.tree.TreeOf.{tree};
ghost use Rattle.dtype_types.specs.tree.Valid.{Valid};
ghost use Rattle.vortex_dtype.specs.Meaning.{Lawful};

use crate::ExtVTable;
use dtype_base::VortexResult;
use dtype_types::DType;
use std::alloc::Global;
use std::marker::Model;

/// What a session knows about an extension type: its id, and how its metadata is read and written back.
///
/// In contracts a plugin is a function, `rewrites`. It takes metadata and a storage type, and returns the metadata that
/// the plugin writes back, or `None` if the plugin doesn't accept the metadata over this storage type.
///
/// Each implementation proves two laws about `rewrites` (`Lawful` of `specs/Meaning`). They are about valid storage
/// types and about metadata that consists of bytes:
/// - The metadata that the plugin writes back consists of bytes. If the plugin reads this metadata again, it writes it
///   back unchanged.
/// - The result doesn't depend on the outer nullability of the storage type.
pub trait ExtDTypePlugin: Drop {
    ghost use Rattle.std.specs.Prelude.{◌≡◌, ◌⊎◌, ℕ, List, Some, None, IfOk, IfErr};
    ghost use Rattle.dtype_base.specs.declared.vortex_error.VortexError.TheVariants.{OutOfMemory, MetadataRefused};
    ghost use Rattle.dtype_types.specs.tree.TreeOf.{tree};
    ghost use Rattle.dtype_types.specs.tree.Valid.{Valid};
    ghost use Rattle.vortex_dtype.specs.Meaning.{Lawful, Rewrites};

    // the text of the id
    ghost id_text: { Self → List ℕ };

    // the bytes that are written back for these bytes over this storage, if they are accepted
    ghost rewrites: { Self → Rewrites };

    /// Returns the id of the extension type.
    fn id(&self) -> &str
        ensures { result.now ≡ id_text self.now };

    /// Returns the metadata that the plugin writes back after it has read the bytes `metadata` of an extension type
    /// over `storage`. For example, a plugin whose metadata isn't case-sensitive may return `ab` for `AB`.
    ///
    /// # Errors
    ///
    /// If the storage type is valid:
    ///
    /// - `MetadataRefused` (22): the plugin doesn't accept the metadata over this storage type.
    /// - `OutOfMemory` (0): an allocation fails. This error may be returned in place of `MetadataRefused`.
    fn deserialize(&self, alloc: Global, metadata: &[u8], storage: &DType) -> VortexResult<Vec<u8>>
        ensures kept { Valid (tree storage.now)
            → IfOk result (λ v. rewrites self.now metadata.now (tree storage.now) ≡ Some v.items) }
        ensures errors { Valid (tree storage.now) → IfErr result
            (λ e. (e ≡ OutOfMemory) ⊎ ((e ≡ MetadataRefused)
            × (rewrites self.now metadata.now (tree storage.now) ≡ None))) };

    ghost lawful: { (p : Self) → Lawful (rewrites p) };
}

/// The plugin of an extension type that has a vtable. It calls the vtable to read metadata, to check that the metadata
/// fits the storage type, and to write the metadata back.
#[derive(Debug, Drop)]
pub struct PluginOf<V> {
    vtable: V,
}

/// In contracts the plugin is its vtable.
impl<V> Model for PluginOf<V> {
    ghost Value = { V };

    ghost view = { λ p. p.vtable };
}

impl<V: ExtVTable> PluginOf<V> {
    /// Returns the plugin of this vtable.
    ///
    /// Doesn't allocate.
    pub fn new(vtable: V) -> Self
        ensures { result ≡ vtable }
    {
        PluginOf { vtable }
    }
}

/// `deserialize` calls the vtable three times: `deserialize_metadata` reads the metadata, `validate_dtype` checks that
/// it fits the storage type, and `serialize_metadata` writes it back. The two laws of plugins follow from the laws of
/// vtables.
impl<V: ExtVTable> ExtDTypePlugin for PluginOf<V> {
    ghost use Rattle.vortex_dtype.specs.Typed.{rewritten};
    ghost use Rattle.vortex_dtype.specs.TypedLaws.{typed_laws};

    ghost id_text = { V.id_text };

    ghost rewrites = { λ v. rewritten (V.reads v) (V.writes v) (V.fits v) };

    fn id(&self) -> &str {
        self.vtable.id()
    }

    fn deserialize(
        &self,
        alloc: Global,
        metadata: &[u8],
        storage: &DType,
    ) -> VortexResult<Vec<u8>> {
        let typed = self.vtable.deserialize_metadata(alloc, metadata)?;
        self.vtable.validate_dtype(alloc, &typed, storage)?;
        self.vtable.serialize_metadata(alloc, &typed)
    }

    ghost lawful = { λ v. typed_laws (V.reads v) (V.writes v) (V.fits v) (V.typed v) };
}

// Returns the id of a boxed plugin.
pub(crate) fn boxed_id(plugin: &Box<dyn ExtDTypePlugin>) -> &str
    ensures { result.now ≡ id_text plugin.now }
{
    plugin.id()
}

// Returns the bytes that a boxed plugin writes back.
pub(crate) fn boxed_deserialize(
    plugin: &Box<dyn ExtDTypePlugin>,
    alloc: Global,
    metadata: &[u8],
    storage: &DType,
) -> VortexResult<Vec<u8>>
    ensures kept { Valid (tree storage.now)
        → IfOk result (λ v. rewrites plugin.now metadata.now (tree storage.now) ≡ Some v.items) }
    ensures errors { Valid (tree storage.now)
        → IfErr result (λ e. (e ≡ OutOfMemory)
        ⊎ ((e ≡ MetadataRefused) × (rewrites plugin.now metadata.now (tree storage.now) ≡ None))) }
{
    plugin.deserialize(alloc, metadata, storage)
}

/// Each plugin `plugin` is lawful (`Lawful`). For a valid storage type this means two things:
/// - If `deserialize` returns the metadata `c` for some metadata, it returns `c` for `c`. For example, a plugin that returns
///   `ab` for `AB` returns `ab` for `ab`.
/// - What it returns doesn't depend on the outer nullability of the storage type.
///
/// A caller calls this law if a theorem requires lawful plugins.
///
/// About [`ExtDTypePlugin`].
pub fn plugin_laws(plugin: &dyn ExtDTypePlugin)
    ensures { Lawful (rewrites plugin.now) }
{}
