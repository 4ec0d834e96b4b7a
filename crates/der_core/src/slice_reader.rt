//! A reader over a slice.
ghost use Rattle.std.specs.Prelude.{ℕ, slice_index, ◌≤◌, ◌<◌, length};
ghost use Rattle.der_core.specs.Length.{limit};

use crate::error::{Error, ErrorKind, Result};
use crate::length::Length;
use crate::reader::{BytesLeft, Reader};

/// A reader over a slice of at most `Length::MAX` bytes.
#[derive(Drop)]
pub struct SliceReader<'a> {
    bytes: &'a [u8],
    failed: bool,
    ghost bounded: { length bytes.now ≤ limit },
    ghost octets: { (i : ℕ) → slice_index bytes.now i < 256 },
}

impl<'a> BytesLeft for SliceReader<'a> {
    ghost use Rattle.der_core.specs.Slices.{left_of};
    ghost use Rattle.der_core.specs.Laws.SliceReaders.{left_of-bounded, left_of-bytes};

    ghost left = { left_of };

    ghost bounded = { left_of-bounded };

    ghost bytes = { left_of-bytes };
}

impl<'a> SliceReader<'a> {
    ghost use Rattle.std.specs.Prelude.{◌≡◌, Some, IfOk, IfErr};
    ghost use Rattle.der_core.specs.Input.{left_in};
    ghost use Rattle.der_core.specs.Slices.{left_of};

    /// A reader that has all of the bytes left. `Overflow` exactly if they are more than `Length::MAX`.
    pub fn new(bytes: &'a [u8]) -> Result<SliceReader<'a>>
        ensures ok { IfOk result (λ reader. left_of reader ≡ Some bytes.now) }
        ensures err { IfErr result (λ e. (e.kind ≡ ErrorKind.Overflow) × (limit < length bytes.now)) }
    {
        if bytes.len() > Length::MAX.to_usize() {
            return Err(Error::new(ErrorKind::Overflow));
        }
        Ok(SliceReader {
            bytes,
            failed: false,
        })
    }

    /// The bytes that are left, or none if the reader has failed.
    pub fn rest(&self) -> &'a [u8]
        ensures { result.now ≡ left_in (left_of self.now) }
    {
        if self.failed { &[] } else { self.bytes }
    }
}

impl<'a> Reader<&'a [u8]> for SliceReader<'a> {
    fn remaining_len(&self) -> Length {
        if self.failed {
            Length::ZERO
        } else {
            Length::of(self.bytes.len())
        }
    }

    fn peek_octet(&self) -> Option<u8> {
        if self.failed {
            None
        } else {
            self.bytes.first().copied()
        }
    }

    fn read_slice(&mut self, len: Length) -> Result<&'a [u8]> {
        if self.failed {
            return Err(Error::new(ErrorKind::Failed));
        }
        let len = len.to_usize();
        if self.bytes.len() < len {
            return Err(self.error(ErrorKind::Incomplete));
        }
        let (front, rest) = self.bytes.split_at(len);
        self.bytes = rest;
        Ok(front)
    }

    fn nested(&mut self, len: Length) -> Result<SliceReader<'a>> {
        let bytes = self.read_slice(len)?;
        Ok(SliceReader {
            bytes,
            failed: false,
        })
    }

    fn error(&mut self, kind: ErrorKind) -> Error {
        self.failed = true;
        Error::new(kind)
    }

    fn finish(&mut self) -> Result<()> {
        if self.failed {
            return Err(Error::new(ErrorKind::Failed));
        }
        if !self.bytes.is_empty() {
            return Err(self.error(ErrorKind::TrailingData));
        }
        Ok(())
    }
}
