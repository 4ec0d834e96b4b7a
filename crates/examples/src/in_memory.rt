//! A source and a sink of one's own.
ghost use Rattle.std.specs.Prelude.{◌≡◌, ⊤, IfOk, OnOk, Some};
ghost use Rattle.der_core.specs.Words.{IsDocument};

use der_core::{Document, Error, ErrorKind, Result, Sink, Source};
use std::alloc::Global;

/// A source of the octets of a slice.
#[derive(Drop)]
pub struct Bytes<'a> {
    /// What is left.
    pub left: &'a [u8],
}

impl Source for Bytes<'_> {
    ghost remaining = { λ s. Some s.left.now };

    ghost failures = { λ _. 0 };

    fn read(&mut self, buf: &mut [u8]) -> Result<usize> {
        let count = self.left.len().min(buf.len());
        let (given, left) = self.left.split_at(count);
        buf[..count].copy_from_slice(given);
        self.left = left;
        Ok(count)
    }

    fn faults(&self) -> u64 {
        0
    }
}

/// A sink that keeps what it takes, until memory for it is refused.
#[derive(Drop)]
pub struct Taken {
    /// What was taken.
    pub octets: Vec<u8>,
    /// How often memory was refused.
    pub refused: u64,
}

impl Sink for Taken {
    ghost contents = { λ s. Some s.octets.items };

    ghost failures = { λ s. s.refused };

    ghost is_flushed = { λ _. ⊤ };

    fn write(&mut self, bytes: &[u8]) -> Result<usize> {
        if self.octets.extend_from_slice(bytes).is_err() {
            self.refused = self.refused.saturating_add(1);
            return Err(Error::new(ErrorKind::File));
        }
        Ok(bytes.len())
    }

    fn flush(&mut self) -> Result<()> {
        Ok(())
    }

    fn faults(&self) -> u64 {
        self.refused
    }
}

/// A copy of the octets of a slice, which go through a document. Ok only if they are one whole SEQUENCE.
pub fn copy_document(alloc: Global, bytes: &[u8]) -> Result<Vec<u8>>
    ensures document { OnOk result (IsDocument bytes.now) }
    ensures copy { IfOk result (λ copy. copy.items ≡ bytes.now) }
{
    let document = Document::read_from(alloc, &mut Bytes { left: bytes })?;
    let mut sink = Taken {
        octets: Vec::new(alloc),
        refused: 0,
    };
    document.write_to(&mut sink)?;
    Ok(sink.octets)
}
