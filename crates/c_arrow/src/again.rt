// SPDX-License-Identifier: Apache-2.0
// SPDX-FileCopyrightText: Copyright the Vortex contributors

// Whether a schema that was made in another way than by `nodes_of` is one of a type.
ghost use Rattle.std.specs.Prelude.{◌≡◌, ◌↔◌, IfOk, IsTrue, Ok};
ghost use Rattle.dtype_types.specs.tree.TreeOf.{tree};
ghost use Rattle.c_arrow.specs.Read.{read_flat};

use crate::fault::ArrowFault;
use crate::node::ArrowNode;
use crate::reader::dtype_of;
use dtype_types::DType;
use std::alloc::{AllocError, Global};

/// Returns whether the type is read of these nodes and texts. For example, `i32?` is read of one node with the flag 2 and the
/// text `i`, and `utf8` of the text `U`, which `nodes_of` doesn't write.
///
/// A program that writes a type in another form than `nodes_of`, for example with large types and dictionaries, asks this of
/// what it wrote. So what it writes is read back as the type, however it chose the forms.
///
/// # Errors
///
/// `AllocError` if an allocation fails.
pub fn are_read_as(
    alloc: Global,
    dtype: &DType,
    nodes: &[ArrowNode],
    texts: &[u8],
) -> Result<bool, AllocError>
    ensures { IfOk result (λ b. IsTrue b ↔ (read_flat nodes.now texts.now ≡ Ok (tree dtype.now))) }
{
    match dtype_of(alloc, nodes, texts) {
        Ok(read) => Ok(read == *dtype),
        Err(ArrowFault::OutOfMemory) => Err(AllocError),
        Err(_) => Ok(false),
    }
}
