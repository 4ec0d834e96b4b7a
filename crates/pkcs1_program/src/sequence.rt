//! Reading a source as long as what came may begin a SEQUENCE.
ghost use Rattle.std.specs.Prelude.{◌≡◌, ◌≢◌, ◌≤◌, ◌⊎◌, length, IfOk, IfErr, IfNone, IfSome, IsTrue, OnOk};
ghost use Rattle.der_core.specs.Words.{GivesAll, WhyReadingStopped, limit, read_document};
ghost use Rattle.pkcs1_program.specs.Words.{GivesWrong, IsSequenceFront};

use der_core::{
    Document, Error, ErrorKind, Header, Length, Reader, Result, SliceReader, Source, Tag,
};
use std::alloc::Global;

/// How many bytes are read at once.
const PIECE: usize = 65536;

/// Whether the bytes begin with the header of a SEQUENCE, and aren't more than this announces.
fn is_front(bytes: &[u8]) -> bool
    ensures { IsTrue result → IsSequenceFront bytes.now }
{
    let Ok(mut reader) = SliceReader::new(bytes) else {
        return false;
    };
    match Header::decode(&mut reader) {
        Ok(header) => {
            header.tag.octet() == Tag::SEQUENCE.octet()
                && reader.remaining_len().to_usize() <= header.length.to_usize()
        }
        Err(_) => false,
    }
}

/// The fault of bytes that aren't a beginning of a SEQUENCE; `None` of those that are. Nothing is allocated for these.
fn fault_of(alloc: Global, bytes: &[u8]) -> Option<Error>
    ensures fault { IfSome result (λ e. (read_document bytes.now ≡ Err e.kind) × (e.kind ≢ ErrorKind.Incomplete)) }
    ensures front { IfNone result (IsSequenceFront bytes.now) }
{
    if is_front(bytes) {
        return None;
    }
    match Document::from_der(alloc, bytes) {
        Ok(_) => None,
        Err(error) => match error.kind() {
            ErrorKind::Incomplete | ErrorKind::OutOfMemory => None,
            _ => Some(error),
        },
    }
}

/// Reads a source to its end. Ok: this is all that it gave, and no call of it failed. It stops as soon as what came is
/// no beginning of a SEQUENCE, and with `Overflow` as soon as it is more than `Length::MAX` bytes, so it returns even
/// if the source never ends. Err: `File` if a call failed, `OutOfMemory` or `Overflow`, as of `Document::read_from`; or
/// what came has this fault as a document, which isn't that it is too short. What was read before an error is lost.
pub fn read_sequence<R: Source>(alloc: Global, source: &mut R) -> Result<Vec<u8>>
    ensures all { IfOk result (λ bytes. GivesAll (R.remaining source.old) (R.remaining source.new) bytes.items) }
    ensures front { IfOk result (λ bytes. IsSequenceFront bytes.items) }
    ensures quiet { OnOk result (R.failures source.new ≡ R.failures source.old) }
    ensures err { IfErr result (λ e. WhyReadingStopped limit e.kind (R.remaining source.old) (R.remaining source.new)
        (R.failures source.old) (R.failures source.new)
        ⊎ ((R.failures source.new ≡ R.failures source.old)
        × GivesWrong e.kind (R.remaining source.old) (R.remaining source.new))) }
{
    let mut bytes = Vec::new(alloc);
    let mut piece = [0u8; PIECE];
    loop {
        let count = match source.read(&mut piece) {
            Ok(count) => count,
            Err(_) => return Err(Error::new(ErrorKind::File)),
        };
        if count == 0 {
            return Ok(bytes);
        }
        if count > Length::MAX.to_usize() - bytes.len() {
            return Err(Error::new(ErrorKind::Overflow));
        }
        bytes.extend_from_slice(&piece[..count])?;
        if let Some(error) = fault_of(alloc, bytes.as_slice()) {
            return Err(error);
        }
    }
}
