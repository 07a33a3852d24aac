// SPDX-License-Identifier: Apache-2.0
// SPDX-FileCopyrightText: Copyright the Vortex contributors

ghost use Rattle.std.specs.Prelude.{◌≡◌, ◌⊎◌, IfErr, OnOk};
ghost use Rattle.std.specs.Io.KnownBytes.{Appends};
ghost use Rattle.vortex_dtype.specs.TreeOf.{tree};
ghost use Rattle.dtype_demo.specs.Output.{answer_text, WritesOutput};

use crate::DemoFault;
use crate::cover::write_cover;
use crate::lines::{first_line, parse_line};
use std::alloc::Global;
use std::io::Write;
use vortex_dtype::{DType, FieldPath, FieldPathSet};

// Writes the answer to each line of the text, then the line of the least of their paths, and flushes the writer.
pub fn write_answers<W: Write>(
    alloc: Global,
    dtype: &DType,
    text: &str,
    writer: &mut W,
) -> Result<(), DemoFault>
    ensures written { OnOk result (WritesOutput (tree dtype.now) text.now
        (W.contents writer.old) (W.contents writer.new)) }
    ensures errors { IfErr result (λ fault.
        (fault ≡ DemoFault.WriteFailed) ⊎ (fault ≡ DemoFault.OutOfMemory)) }
{
    let mut paths = FieldPathSet::new(alloc);
    let mut rest = text;
    while !rest.is_empty() {
        let (line, after) = first_line(rest);
        let path = parse_line(alloc, line)?;
        answer(dtype, &path, writer)?;
        paths.insert(path)?;
        rest = after;
    }
    write_cover(alloc, paths, writer)?;
    writer.flush().map_err(|_| DemoFault::WriteFailed)?;
    Ok(())
}

// Writes the answer to one line: its path, and the type at that path.
fn answer<W: Write>(dtype: &DType, path: &FieldPath, writer: &mut W) -> Result<(), DemoFault>
    ensures written { OnOk result (Appends (W.contents writer.old) (W.contents writer.new)
        (answer_text (tree dtype.now) path.now)) }
    ensures errors { IfErr result (λ fault. fault ≡ DemoFault.WriteFailed) }
{
    let written = match path.resolve(dtype) {
        Some(found) => writeln!(writer, "{path} = {found}"),
        None => writeln!(writer, "{path} = none"),
    };
    written.map_err(|_| DemoFault::WriteFailed)
}
