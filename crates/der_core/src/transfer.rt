//! Reading a source to its end, and writing all bytes to a sink.
ghost use Rattle.std.specs.Prelude.{◌≡◌, ◌≤◌, ◌⊎◌, length, IfOk, IfErr, OnOk};
ghost use Rattle.der_core.specs.Words.{WhyReadingStopped, WritesAll, GivesAll};

use crate::error::{Error, ErrorKind, Result};
use crate::length::Length;
use crate::source_sink::{Sink, Source};
use std::alloc::Global;

/// How many bytes are read at once.
const PIECE: usize = 65536;

/// Reads a source to its end. Ok: all that the source gave, at most `most` bytes, and no call of it failed. Err:
/// `File`, `OutOfMemory` or `Overflow`, as of `Document::read_from`, with `most` for the limit. It returns even if the
/// source never ends. What was read before an error is lost.
pub fn read_all<R: Source>(alloc: Global, source: &mut R, most: Length) -> Result<Vec<u8>>
    ensures all { IfOk result (λ bytes. GivesAll (R.remaining source.old) (R.remaining source.new) bytes.items) }
    ensures within { IfOk result (λ bytes. length bytes.items ≤ most) }
    ensures same { OnOk result (R.failures source.new ≡ R.failures source.old) }
    ensures err { IfErr result (λ e. WhyReadingStopped most e.kind (R.remaining source.old) (R.remaining source.new)
        (R.failures source.old) (R.failures source.new)) }
{
    let mut bytes = Vec::new(alloc);
    let mut piece = [0u8; PIECE];
    loop {
        let count = match source.read(&mut piece) {
            Ok(count) => count,
            Err(_) => return Err(Error::new(ErrorKind::File)),
        };
        if count == 0 {
            return Ok(bytes);
        }
        if count > most.to_usize() - bytes.len() {
            return Err(Error::new(ErrorKind::Overflow));
        }
        bytes.extend_from_slice(&piece[..count])?;
    }
}

/// Writes all the bytes to the sink, in order. The only error is `File`, if a write of the sink failed; the sink has
/// then taken a beginning of the bytes.
pub fn put_all<W: Sink>(bytes: &[u8], sink: &mut W) -> Result<()>
    ensures { WritesAll bytes.now result (W.contents sink.old) (W.contents sink.new)
        (W.failures sink.old) (W.failures sink.new) }
{
    let mut done = 0;
    while done < bytes.len() {
        match sink.write(&bytes[done..]) {
            Ok(count) => done += count,
            Err(_) => return Err(Error::new(ErrorKind::File)),
        }
    }
    Ok(())
}

/// Like `put_all`, and flushes.
pub(crate) fn write_all<W: Sink>(bytes: &[u8], sink: &mut W) -> Result<()>
    ensures written { WritesAll bytes.now result (W.contents sink.old) (W.contents sink.new)
        (W.failures sink.old) (W.failures sink.new) }
    ensures flushed { OnOk result (W.is_flushed sink.new) }
{
    put_all(bytes, sink)?;
    match sink.flush() {
        Ok(()) => Ok(()),
        Err(_) => Err(Error::new(ErrorKind::File)),
    }
}
