// SPDX-License-Identifier: Apache-2.0
// SPDX-FileCopyrightText: Copyright the Vortex contributors

// Tests of `run`: examples of inputs, each read byte by byte, and a reader and a writer that fail once.
use crate::{DemoFault, run};
use std::alloc::Global;
use std::io::{self, ErrorKind, Read, Write};

const LINES: &[u8] = b"a.[].b\na.[]\na.b\nx\n";

const ANSWERS: &[u8] =
    b"$a.[].$b = u32\n$a.[] = {b=u32}\n$a.$b = none\n$x = none\ncover: $a.$b $a.[] $x\n";

// A reader that returns one byte a read. The read after so many fails, and the reads after it go on.
#[derive(Drop)]
struct FailingReader {
    bytes: &'static [u8],
    reads_left: usize,
}

impl Read for FailingReader {
    fn read(&mut self, buf: &mut [u8]) -> io::Result<usize> {
        if self.reads_left == 0 {
            self.reads_left = usize::MAX;
            return Err(io::Error::from(ErrorKind::Interrupted));
        }
        self.reads_left -= 1;
        let room = buf.len().min(1);
        self.bytes.read(&mut buf[..room])
    }
}

// A writer that takes at most two bytes a write. The write or the flush after so many fails, and those after it go on.
#[derive(Drop)]
struct FailingWriter {
    taken: Vec<u8>,
    writes_left: usize,
}

impl FailingWriter {
    fn count(&mut self) -> io::Result<()> {
        if self.writes_left == 0 {
            self.writes_left = usize::MAX;
            return Err(io::Error::from(ErrorKind::Other));
        }
        self.writes_left -= 1;
        Ok(())
    }
}

impl Write for FailingWriter {
    fn write(&mut self, buf: &[u8]) -> io::Result<usize> {
        self.count()?;
        let count = buf.len().min(2);
        self.taken.extend_from_slice(&buf[..count])?;
        Ok(count)
    }

    fn flush(&mut self) -> io::Result<()> {
        self.count()
    }
}

// The result of `run`, and what it wrote.
fn outcome<R: Read + Drop>(alloc: Global, mut reader: R) -> (Result<(), DemoFault>, Vec<u8>) {
    let mut written = Vec::new(alloc);
    let result = run(alloc, &mut reader, &mut written);
    (result, written)
}

#[test]
fn each_input_has_its_output(rt: HostRuntime) {
    let examples: [(&[u8], Result<(), DemoFault>, &[u8]); 6] = [
        (LINES, Ok(()), ANSWERS),
        (b"", Ok(()), b"cover:\n"),
        (
            b"\n",
            Ok(()),
            b" = {a=list({b=u32})?, f=fixed_size_list(u8)[2]}\ncover: \n",
        ),
        (b"a..b", Ok(()), b"$a.$.$b = none\ncover: $a.$.$b\n"),
        (
            b"f.[]\nf\n",
            Ok(()),
            b"$f.[] = u8\n$f = fixed_size_list(u8)[2]\ncover: $f\n",
        ),
        (b"\xff", Err(DemoFault::NotUtf8), b""),
    ];
    for (bytes, wanted, output) in examples {
        let reads_left = usize::MAX;
        let (result, written) = outcome(rt.alloc(), FailingReader { bytes, reads_left });
        assert!(rt;
            result == wanted && written.as_slice() == output,
            "{bytes:?}"
        );
    }
}

#[test]
fn an_input_that_is_too_long_is_refused(rt: HostRuntime) {
    let (result, written) = outcome(rt.alloc(), io::repeat(0xff).take(1_048_577));
    assert!(rt; result == Err(DemoFault::InputTooLong) && written.is_empty());
}

// There is a read for each byte, and one that finds the end.
#[test]
fn each_failed_read_is_reported(rt: HostRuntime) {
    for reads_left in 0..=LINES.len() {
        let bytes = LINES;
        let (result, written) = outcome(rt.alloc(), FailingReader { bytes, reads_left });
        assert!(rt;
            result == Err(DemoFault::ReadFailed) && written.is_empty(),
            "after {reads_left}"
        );
    }
}

fn failing_writer(alloc: Global, writes_left: usize) -> FailingWriter {
    FailingWriter {
        taken: Vec::new(alloc),
        writes_left,
    }
}

// The result of `run` on `LINES` with this writer.
fn written_to(alloc: Global, writer: &mut FailingWriter) -> Result<(), DemoFault> {
    let mut lines = LINES;
    run(alloc, &mut lines, writer)
}

#[test]
fn each_failed_write_is_reported(rt: HostRuntime) {
    let mut whole = failing_writer(rt.alloc(), usize::MAX);
    assert!(rt; written_to(rt.alloc(), &mut whole) == Ok(()) && whole.taken.as_slice() == ANSWERS);
    let writes = usize::MAX.wrapping_sub(whole.writes_left);
    assert!(rt; writes > ANSWERS.len() / 2);
    for writes_left in 0..writes {
        let mut writer = failing_writer(rt.alloc(), writes_left);
        let result = written_to(rt.alloc(), &mut writer);
        assert!(rt;
            result == Err(DemoFault::WriteFailed) && ANSWERS.starts_with(&writer.taken),
            "after {writes_left}"
        );
    }
}
