// SPDX-License-Identifier: Apache-2.0
// SPDX-FileCopyrightText: Copyright the Vortex contributors

//! A plugin that looks at its storage: lists of tags.
use std::alloc::Global;
use vortex_dtype::{DType, ExtDTypePlugin, VortexError, VortexResult};

/// The plugin of `x.tags`, which takes lists of any element, without metadata.
#[derive(Debug, Drop)]
pub struct Tags;

impl ExtDTypePlugin for Tags {
    ghost use Rattle.std.specs.Prelude.{codes};
    ghost use Rattle.uses.specs.Plugins.{over_lists, over_lists_laws};

    ghost id_text = { λ _. codes "x.tags" };

    ghost rewrites = { λ _. over_lists };

    fn id(&self) -> &str {
        "x.tags"
    }

    fn deserialize(
        &self,
        alloc: Global,
        metadata: &[u8],
        storage: &DType,
    ) -> VortexResult<Vec<u8>> {
        match (storage.as_list_element_opt(), metadata) {
            (Some(_), []) => Ok(Vec::new(alloc)),
            _ => Err(VortexError::MetadataRefused),
        }
    }

    ghost lawful = { λ _. over_lists_laws };
}
