// SPDX-License-Identifier: Apache-2.0
// SPDX-FileCopyrightText: Copyright the Vortex contributors

//! A program that prints, for each field path on standard input, the type at that path in one fixed type.
//!
//! Each line of the input is a path, whose parts are separated by `.`. The part `[]` is the step to the element of a
//! list, every other part is a step to the field with that name, and the empty line is the root. The type is
//! `{a=list({b=u32})?, f=fixed_size_list(u8)[2]}`. For each line the program prints the path, ` = `, and the type at
//! the path, or `none` if there is none. For example, it prints `$a.[].$b = u32` for the line `a.[].b`. The last line
//! of the output is `cover:`, followed by the least paths: those of which no other path of the input is a prefix. They
//! are printed with a space before each, in the order of the bytes of their texts.
//!
//! Begin with `run`, which works on any reader and writer. The definitions are in `specs/`: `Lines` (the path of a
//! line), `DemoTree` (the type), `Output` (what is printed) and `Faults` (the texts of the errors). A last line without
//! a newline counts, and there is no line after a last newline.
//!
//! The clauses of `run` speak of what a reader has left to read and of what a writer has taken. Slices and vectors state
//! both, and the standard streams state neither. So for the program as it runs only the clause `unwritten` says
//! something, and the rest is tested (`tools/gate/faults`). The file `tests.rt` calls `run` with readers and writers that
//! state both, and with some that fail.
#![tactic(auto)]

ghost use Rattle.std.specs.Prelude.{◌≡◌, ◌+◌, ◌<◌, ◌≤◌, length, IsUtf8, IfErr, IfSome, IsErrOf, OnOk};
ghost use Rattle.dtype_demo.specs.DemoTree.{demo_tree};
ghost use Rattle.dtype_demo.specs.Faults.{BeforeWriting};
ghost use Rattle.dtype_demo.specs.Input.{TakesAtMost, input_limit};
ghost use Rattle.dtype_demo.specs.Output.{WritesOutput};

use answers::write_answers;
use dtype::demo_dtype;
use input::read_all;
use std::alloc::Global;
use std::io::{self, BufWriter, Read, Write};
use std::process::ExitCode;

mod answers;
mod cover;
mod dtype;
mod fault;
mod input;
mod lines;
#[cfg(test)]
mod tests;

pub use fault::DemoFault;

/// Reads the input from the reader, writes one line to the writer for each line of the input, then writes the line of
/// the least paths, and flushes the writer.
///
/// It first reads the whole input: at most 1,048,576 bytes, and one more to find that the input is too long. Then it
/// checks that the input is UTF-8. Only then does it write.
///
/// # Errors
///
/// The first three come in this order and before `WriteFailed`, and if one of them is returned, nothing has been
/// written. If one of the last two is returned, a part of the output may have been written.
///
/// - `ReadFailed`: the reader returns an error. (No clause says that `ReadFailed` comes only then, because the trait
///   `Read` says nothing of when a read fails: its clauses are about the bytes of a read that succeeds. The trait `Write`
///   says as little, so the same is true of `WriteFailed`. That there is no such error without a failed read or write is
///   tested.)
/// - `InputTooLong`: the input has more than 1,048,576 bytes.
/// - `NotUtf8`: the input isn't UTF-8.
/// - `WriteFailed`: the writer returns an error.
/// - `OutOfMemory`: an allocation fails, during the reading or during the writing.
pub fn run<R: Read, W: Write>(
    alloc: Global,
    reader: &mut R,
    writer: &mut W,
) -> Result<(), DemoFault>
    ensures answered { OnOk result (IfSome (R.remaining reader.old) (λ bytes.
        WritesOutput demo_tree bytes (W.contents writer.old) (W.contents writer.new))) }
    ensures within { OnOk result (IfSome (R.remaining reader.old) (λ bytes.
        length bytes ≤ input_limit)) }
    ensures text { OnOk result (IfSome (R.remaining reader.old) (λ bytes. IsUtf8 bytes)) }
    ensures too_long { IsErrOf result DemoFault.InputTooLong →
        IfSome (R.remaining reader.old) (λ bytes. input_limit < length bytes) }
    ensures not_utf8 { IsErrOf result DemoFault.NotUtf8 →
        IfSome (R.remaining reader.old) (λ bytes. ¬ (IsUtf8 bytes)) }
    ensures order { IsErrOf result DemoFault.NotUtf8 →
        IfSome (R.remaining reader.old) (λ bytes. length bytes ≤ input_limit) }
    ensures unread { IsErrOf result DemoFault.ReadFailed →
        TakesAtMost input_limit (R.remaining reader.old) (R.remaining reader.new) }
    ensures written_late { IsErrOf result DemoFault.WriteFailed →
        IfSome (R.remaining reader.old) (λ bytes. (length bytes ≤ input_limit) × IsUtf8 bytes) }
    ensures unwritten { IfErr result (λ fault. BeforeWriting fault → writer.new ≡ writer.old) }
    ensures no_more { TakesAtMost (input_limit + 1)
        (R.remaining reader.old) (R.remaining reader.new) }
{
    let bytes = read_all(alloc, reader)?;
    let text = str::from_utf8(&bytes).map_err(|_| DemoFault::NotUtf8)?;
    let dtype = demo_dtype(alloc)?;
    write_answers(alloc, &dtype, text, writer)
}

// Runs on the standard streams.
fn run_on_streams(rt: &(impl Input + Print + AllocGlobal)) -> Result<(), DemoFault> {
    let alloc = rt.alloc();
    let mut output = BufWriter::new(alloc, io::writer(rt)).map_err(|_| DemoFault::OutOfMemory)?;
    run(alloc, &mut rt.reader(), &mut output)
}

fn main(rt: HostRuntime) -> ExitCode {
    match run_on_streams(&rt) {
        Ok(()) => ExitCode::SUCCESS,
        Err(fault) => {
            let _ = eprintln!(rt; "{fault}");
            ExitCode::FAILURE
        }
    }
}
