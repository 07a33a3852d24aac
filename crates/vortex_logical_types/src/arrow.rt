// SPDX-License-Identifier: Apache-2.0
// SPDX-FileCopyrightText: Copyright the Vortex contributors

// Types from and to the flat form of Arrow's schemas: nodes in pre-order, and the bytes of their texts.
ghost use Rattle.std.specs.Prelude.{◌≡◌, IfOk, string_bytes};
ghost use Rattle.c_arrow.specs.Faults.{names_in};
ghost use Rattle.dtype_types.specs.tree.TreeOf.{tree};
ghost use Rattle.vortex_logical_types.specs.Arrow.{FillsArrowOr, IsAbout, StoresFault, reads_arrow, writes_arrow};
ghost use Rattle.vortex_logical_types.specs.AtOnce.{FillsWithBoth};
ghost use Rattle.vortex_logical_types.specs.Slots.{type_in};
ghost use Rattle.vortex_logical_types.specs.Vocabulary.{PutsOr, on};

use crate::buffers::copy_both;
use crate::errors::{KIND, LIBRARY, RANGE};
use crate::failures::fail;
use crate::objects::put;
use crate::views::as_dtype;
use c_arrow::{ArrowFault, ArrowNode, Column, dtype_of, nodes_of};
use c_objects::{ArrowReason, Failure, Object, Slot};
use dtype_base::VortexError;
use dtype_types::DType;
use std::alloc::{AllocError, Global};

/// Stores in `out` the type of the Arrow schema that the nodes and the bytes of the texts describe. If there is none, the
/// first fault that is met in the order of the nodes is returned:
///
/// - 6 if a type is nested in more than 128 others.
/// - 9 if the nodes and texts are those of no schema: if nodes or bytes end too early, or if some are left.
/// - 10 if a field has no type here.
/// - the number of the library's error if it refuses the type of a field: for a decimal 101 to 104, for a map 109 if its
///   key type is nullable, and for a union 111 if it has more or fewer type ids than children, 112 if it has no children,
///   113 if a type id occurs twice, and 115 if a name occurs twice.
///
/// Unless the result is 9, or 100 because memory is short, `vlt_error_message` returns which field it is and why, for
/// example `column "a.item": the Arrow format "tdX" has no type here`.
#[unsafe(no_mangle)]
pub extern "C" fn vlt_core_dtype_from_arrow_nodes(
    alloc: Global,
    nodes: &[ArrowNode],
    texts: &[u8],
    out: &mut Slot,
    error: &mut Slot,
) -> u32
    ensures puts { PutsOr type_in (reads_arrow nodes.now texts.now) result out.old.value out.new.value error.old.value error.new.value }
{
    match dtype_of(alloc, nodes, texts) {
        Ok(dtype) => put(alloc, out, Object::DType(dtype)),
        Err(fault) => fail_with_fault(alloc, error, fault),
    }
}

/// Writes the nodes of the Arrow schema of the type to the front of `nodes`, the bytes of its texts to the front of
/// `texts`, and the numbers of both to `node_count` and `text_length`. If one of the two buffers is too small, the call
/// returns 7 and writes only the two numbers. It returns 6 if a type is nested in more than 128 others, and 10 if a part of
/// the type has no Arrow type. In both cases `vlt_error_message` returns which part it is and why.
///
/// Nodes and texts are plain bytes, so another thread can read them.
#[unsafe(no_mangle)]
pub extern "C" fn vlt_core_dtype_to_arrow_nodes(
    alloc: Global,
    dtype: &mut Slot,
    nodes: &mut [ArrowNode],
    node_count: &mut usize,
    texts: &mut [u8],
    text_length: &mut usize,
    error: &mut Slot,
) -> u32
    ensures fills { FillsArrowOr (on (type_in dtype.old.value) writes_arrow)
        result ((nodes.old, node_count.old), (texts.old, text_length.old)) ((nodes.new, node_count.new), (texts.new, text_length.new))
        error.old.value error.new.value }
    ensures kept { dtype.new.value ≡ dtype.old.value }
{
    let Some(dtype) = as_dtype(dtype) else {
        return KIND;
    };
    write(alloc, dtype, nodes, node_count, texts, text_length, error)
}

fn write(
    alloc: Global,
    dtype: &DType,
    nodes: &mut [ArrowNode],
    node_count: &mut usize,
    texts: &mut [u8],
    text_length: &mut usize,
    error: &mut Slot,
) -> u32
    ensures { FillsArrowOr (writes_arrow (tree dtype.now))
        result ((nodes.old, node_count.old), (texts.old, text_length.old)) ((nodes.new, node_count.new), (texts.new, text_length.new))
        error.old.value error.new.value }
{
    match nodes_of(alloc, dtype) {
        Ok((all_nodes, all_texts)) => {
            fill(
                &all_nodes,
                &all_texts,
                nodes,
                node_count,
                texts,
                text_length,
            )
        }
        Err(fault) => fail_with_fault(alloc, error, fault),
    }
}

// Writes nodes and texts to the fronts of two buffers, and their numbers beside them. If one doesn't fit, only the numbers are
// written.
fn fill(
    all_nodes: &[ArrowNode],
    all_texts: &[u8],
    nodes: &mut [ArrowNode],
    node_count: &mut usize,
    texts: &mut [u8],
    text_length: &mut usize,
) -> u32
    ensures { FillsWithBoth (all_nodes.now, all_texts.now) result
        ((nodes.old, node_count.old), (texts.old, text_length.old)) ((nodes.new, node_count.new), (texts.new, text_length.new)) }
{
    *node_count = all_nodes.len();
    *text_length = all_texts.len();
    copy_both(all_nodes, all_texts, nodes, texts)
}

// What the message says of a field whose type is nested too deeply.
const DEEP: &str = "nested more than 128 levels deep";

// Returns the number of a fault. If it is about a field, the reason is stored in the slot `error`.
fn fail_with_fault(alloc: Global, error: &mut Slot, fault: ArrowFault) -> u32
    ensures { StoresFault fault result error.old.value error.new.value }
{
    match fault {
        ArrowFault::OutOfMemory => LIBRARY,
        ArrowFault::OutOfRange => RANGE,
        ArrowFault::TooDeep(column) => match column.message(alloc, DEEP) {
            Ok(message) => {
                let reason = ArrowReason::TooDeep;
                fail(alloc, error, Failure::Arrow { reason, message })
            }
            Err(_) => LIBRARY,
        },
        ArrowFault::Library(column, why) => match library_message(alloc, &column, &why) {
            Ok(message) => {
                let reason = ArrowReason::Library(why);
                fail(alloc, error, Failure::Arrow { reason, message })
            }
            Err(_) => LIBRARY,
        },
        ArrowFault::Refused(refusal) => match refusal.message(alloc) {
            Ok(message) => {
                let reason = ArrowReason::Refused;
                fail(alloc, error, Failure::Arrow { reason, message })
            }
            Err(_) => LIBRARY,
        },
    }
}

// Returns the message that the library refuses the type of a field with this error.
fn library_message(alloc: Global, column: &Column, why: &VortexError) -> Result<String, AllocError>
    ensures { IfOk result (λ m. IsAbout (names_in column.now) (string_bytes m)) }
{
    let text = why.to_string(alloc)?;
    Ok(column.message(alloc, text.as_str())?)
}
