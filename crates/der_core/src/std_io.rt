//! Sources and sinks over std's readers and writers.
ghost use Rattle.std.specs.Prelude.{◌≡◌, ◌<◌, ◌+◌, ◌-◌, ◌^◌, ⊤, min, length, IfOk, IfErr, OnOk};
ghost use Rattle.std.specs.Io.{ReadsAtMost, WritesAtMost};
ghost use Rattle.std.specs.Io.KnownBytes.{Keeps, ReadConsumes, WriteAppends};
ghost use Rattle.der_core.specs.Words.{CountsFailure, IsFile};

use crate::error::{Error, ErrorKind, Result};
use crate::source_sink::{Close, Sink, Source};
use std::io::{Read, Write};

/// Counts one more failed call.
fn failed(faults: &mut u64) -> Error
    ensures counted { faults.new ≡ min (faults.old + 1) (2 ^ 64 - 1) }
    ensures file { IsFile result }
{
    *faults = faults.saturating_add(1);
    Error::new(ErrorKind::File)
}

/// A source over a std reader. Each error of it is counted, and returned as `File`. Std's files report no bytes.
#[derive(Debug, Drop)]
pub struct FromRead<R> {
    inner: R,
    faults: u64,
}

impl<R: Read> FromRead<R> {
    ghost use Rattle.der_core.specs.Words.{IsOpened, reader_of, read_faults};

    /// A source over this reader, which counts no failed call yet.
    pub fn new(inner: R) -> Self
        ensures reader { reader_of result ≡ inner }
        ensures faults { read_faults result ≡ 0 }
    {
        FromRead { inner, faults: 0 }
    }

    /// A source over what was opened. `File` if nothing was.
    pub fn opened<E: Drop>(reader: std::result::Result<R, E>) -> Result<Self>
        ensures { IsOpened reader result }
    {
        match reader {
            Ok(inner) => Ok(FromRead::new(inner)),
            Err(_) => Err(Error::new(ErrorKind::File)),
        }
    }

    /// The reader.
    pub fn get_ref(&self) -> &R
        ensures { result.now ≡ reader_of self.now }
    {
        &self.inner
    }

    /// Returns the reader.
    pub fn into_inner(self) -> R
        ensures { result ≡ reader_of self }
    {
        let FromRead { inner, faults: _ } = self;
        inner
    }
}

impl<R: Read> Source for FromRead<R> {
    ghost use Rattle.der_core.specs.Words.{reader_of, read_faults};

    ghost remaining = { λ source. R.remaining (reader_of source) };

    ghost failures = { read_faults };

    /// As of `Source`. The only error is `File`.
    fn read(&mut self, buf: &mut [u8]) -> Result<usize>
        ensures bound { ReadsAtMost result buf.new }
        ensures bytes { let before = R.remaining (reader_of self.old) in
            ReadConsumes before (R.remaining (reader_of self.new)) result buf.new }
        ensures faults { CountsFailure (read_faults self.old) (read_faults self.new) result }
        ensures file { IfErr result IsFile }
    {
        match self.inner.read(buf) {
            Ok(count) => Ok(count),
            Err(_) => Err(failed(&mut self.faults)),
        }
    }

    fn faults(&self) -> u64 {
        self.faults
    }
}

/// A sink over a std writer. Each error of the writer is counted, and returned as `File`; so is a write that takes
/// none of one or more bytes. Std's files report no bytes. That a writer of std is flushed or closed isn't said.
#[derive(Debug, Drop)]
pub struct ToWrite<W> {
    inner: W,
    faults: u64,
}

impl<W: Write> ToWrite<W> {
    ghost use Rattle.der_core.specs.Words.{IsCreated, writer_of, write_faults};

    /// A sink over this writer, which counts no failed call yet.
    pub fn new(inner: W) -> Self
        ensures writer { writer_of result ≡ inner }
        ensures faults { write_faults result ≡ 0 }
    {
        ToWrite { inner, faults: 0 }
    }

    /// A sink over what was created. `File` if nothing was.
    pub fn created<E: Drop>(writer: std::result::Result<W, E>) -> Result<Self>
        ensures { IsCreated writer result }
    {
        match writer {
            Ok(inner) => Ok(ToWrite::new(inner)),
            Err(_) => Err(Error::new(ErrorKind::File)),
        }
    }

    /// Returns the writer.
    pub fn into_inner(self) -> W
        ensures { result ≡ writer_of self }
    {
        let ToWrite { inner, faults: _ } = self;
        inner
    }
}

impl<W: Write> Sink for ToWrite<W> {
    ghost use Rattle.der_core.specs.Words.{writer_of, write_faults};

    ghost contents = { λ sink. W.contents (writer_of sink) };

    ghost failures = { write_faults };

    ghost is_flushed = { λ _. ⊤ };

    /// As of `Sink`. The only error is `File`, also where the writer takes none of one or more bytes.
    fn write(&mut self, bytes: &[u8]) -> Result<usize>
        ensures bound { WritesAtMost result bytes.now }
        ensures progress { 0 < length bytes.now → IfOk result (λ n. 0 < n) }
        ensures bytes { let before = W.contents (writer_of self.old) in
            WriteAppends before (W.contents (writer_of self.new)) result bytes.now }
        ensures faults { CountsFailure (write_faults self.old) (write_faults self.new) result }
        ensures file { IfErr result IsFile }
    {
        match self.inner.write(bytes) {
            Ok(count) if count > 0 || bytes.is_empty() => Ok(count),
            _ => Err(failed(&mut self.faults)),
        }
    }

    /// As of `Sink`. The only error is `File`.
    fn flush(&mut self) -> Result<()>
        ensures bytes { Keeps (W.contents (writer_of self.old)) (W.contents (writer_of self.new)) }
        ensures faults { CountsFailure (write_faults self.old) (write_faults self.new) result }
        ensures flushed { OnOk result ⊤ }
        ensures file { IfErr result IsFile }
    {
        match self.inner.flush() {
            Ok(()) => Ok(()),
            Err(_) => Err(failed(&mut self.faults)),
        }
    }

    fn faults(&self) -> u64 {
        self.faults
    }
}

impl<W: Write + Drop> Close for ToWrite<W> {
    ghost is_closed = { λ _. ⊤ };

    fn close(self) {}
}
