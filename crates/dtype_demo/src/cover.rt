// SPDX-License-Identifier: Apache-2.0
// SPDX-FileCopyrightText: Copyright the Vortex contributors

ghost use Rattle.std.specs.Prelude.{◌≡◌, ◌⊎◌, map, IfErr, IfOk, IsOkUnless, OnOk, string_bytes};
ghost use Rattle.vortex_dtype.specs.Types.VortexError.TheVariants.{OutOfMemory};
ghost use Rattle.dtype_demo.specs.Output.{cover_text, IsCover, WritesCover};

use crate::DemoFault;
use std::alloc::Global;
use std::io::Write;
use vortex_dtype::{FieldPathSet, VortexResult};

// Writes the line of the least paths, which begins with `cover:`.
pub fn write_cover<W: Write>(
    alloc: Global,
    paths: FieldPathSet,
    writer: &mut W,
) -> Result<(), DemoFault>
    ensures written { OnOk result (WritesCover paths (W.contents writer.old) (W.contents writer.new)) }
    ensures errors { IfErr result (λ fault.
        (fault ≡ DemoFault.WriteFailed) ⊎ (fault ≡ DemoFault.OutOfMemory)) }
{
    let texts = cover_texts(alloc, paths)?;
    let line = spaced(alloc, &texts)?;
    writeln!(writer, "{line}").map_err(|_| DemoFault::WriteFailed)?;
    Ok(())
}

// Returns the texts of the least paths of the set, in the order of their bytes. The only error is `OutOfMemory` (0).
fn cover_texts(alloc: Global, paths: FieldPathSet) -> VortexResult<Vec<String>>
    ensures cover { IfOk result (λ v. IsCover paths (map (λ s. string_bytes s) v.items)) }
    ensures errors { IsOkUnless result OutOfMemory }
{
    let mut texts = Vec::new(alloc);
    for path in paths.into_iter()? {
        texts.push(path.to_string(alloc)?)?;
    }
    texts.sort()?;
    Ok(texts)
}

// Returns `cover:` and the texts, each after a space. The only error is `OutOfMemory` (0).
fn spaced(alloc: Global, texts: &[String]) -> VortexResult<String>
    ensures text { IfOk result (λ s.
        string_bytes s ≡ cover_text (map (λ t. string_bytes t) texts.now)) }
    ensures errors { IsOkUnless result OutOfMemory }
{
    let mut line = String::from_str(alloc, "cover:")?;
    for text in texts {
        line.push(' ')?;
        line.push_str(text.as_str())?;
    }
    Ok(line)
}
