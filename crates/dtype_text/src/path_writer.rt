// SPDX-License-Identifier: Apache-2.0
// SPDX-FileCopyrightText: Copyright the Vortex contributors

// The writer of paths.
ghost use Rattle.std.specs.Prelude.{◌≡◌, ◌++◌, IsOkUnless, OnErr, OnOk, string_bytes};
ghost use Rattle.std.specs.List.{flat_map};
ghost use Rattle.dtype_base.specs.declared.vortex_error.VortexError.TheVariants.{OutOfMemory};
ghost use Rattle.dtype_text.specs.PathGrammar.{StandsForPath};
ghost use Rattle.dtype_text.specs.PathSource.{HasTextSteps, IsTextStep, dotted_source, path_source, step_source};

use crate::writer::write_name;
use dtype_base::VortexResult;
use dtype_paths::{Field, FieldPath};

/// Appends the text of a path, for example `a.[].b`, or `.` for the root. `read_path` reads the same path from it. After an
/// error `out` is as it was.
///
/// # Errors
///
/// - `OutOfMemory` (0): an allocation fails.
#[tactic(auto, using(crate::proofs::PathAgain::written_path_stands))]
pub fn write_path(out: &mut String, path: &FieldPath) -> VortexResult<()>
    ensures written { OnOk result (string_bytes out.new ≡ string_bytes out.old ++ path_source path.now) }
    // The text that is appended stands for the path.
    ensures again { OnOk result (StandsForPath path.now (path_source path.now)) }
    ensures kept { OnErr result (string_bytes out.new ≡ string_bytes out.old) }
    ensures errors { IsOkUnless result OutOfMemory }
{
    let mut text = String::new(*out.allocator());
    write_steps(&mut text, path.parts())?;
    Ok(out.push_str(text.as_str())?)
}

// Appends the texts of steps, joined by dots, or a dot alone if there are none.
fn write_steps(out: &mut String, steps: &[Field]) -> VortexResult<()>
    ensures written { OnOk result (string_bytes out.new ≡ string_bytes out.old ++ path_source steps.now) }
    ensures texts { OnOk result (HasTextSteps steps.now) }
    ensures errors { IsOkUnless result OutOfMemory }
{
    match steps {
        [] => Ok(out.push_str(".")?),
        [first, later @ ..] => {
            write_step(out, first)?;
            write_later_steps(out, later)
        }
    }
}

// Appends the texts of steps, each behind a dot.
fn write_later_steps(out: &mut String, steps: &[Field]) -> VortexResult<()>
    ensures written { OnOk result (string_bytes out.new ≡ string_bytes out.old ++ flat_map dotted_source steps.now) }
    ensures texts { OnOk result (HasTextSteps steps.now) }
    ensures errors { IsOkUnless result OutOfMemory }
{
    for step in steps {
        write_dotted(out, step)?;
    }
    Ok(())
}

// Appends a dot and the text of a step.
fn write_dotted(out: &mut String, step: &Field) -> VortexResult<()>
    ensures written { OnOk result (string_bytes out.new ≡ string_bytes out.old ++ dotted_source step.now) }
    ensures texts { OnOk result (IsTextStep step.now) }
    ensures errors { IsOkUnless result OutOfMemory }
{
    out.push_str(".")?;
    write_step(out, step)
}

/// Appends the text of a step: a name, in quotes unless it can stand without them, or `[]` for the step to the element.
/// After an error `out` is as it was.
///
/// # Errors
///
/// - `OutOfMemory` (0): an allocation fails.
pub fn write_step(out: &mut String, step: &Field) -> VortexResult<()>
    ensures written { OnOk result (string_bytes out.new ≡ string_bytes out.old ++ step_source step.now) }
    ensures texts { OnOk result (IsTextStep step.now) }
    ensures kept { OnErr result (string_bytes out.new ≡ string_bytes out.old) }
    ensures errors { IsOkUnless result OutOfMemory }
{
    match step {
        Field::ElementType => Ok(out.push_str("[]")?),
        Field::Name(name) => write_name(out, name),
    }
}
