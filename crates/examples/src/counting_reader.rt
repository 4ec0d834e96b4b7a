//! A reader of one's own, and memory of one's own.
ghost use Rattle.std.specs.Prelude.{◌≡◌, ◌+◌, ◌-◌, ◌^◌, min};
ghost use Rattle.std.specs.Int.Digits.{number_from_digits};
ghost use Rattle.der_core.specs.Words.{ReadsFront, ReadsOrFails, bytes_of, front_of, integer_tag, left_of, left_of-bounded, left_of-bytes, number_of, tagged};

use der_core::{
    BytesLeft, Decode, Error, ErrorKind, Length, Memory, Reader, Result, SliceReader, UintRef,
};

/// Memory of one's own, of which the kernel never asks any.
#[derive(Clone, Copy, Drop)]
pub struct NoHeap;

impl Memory for NoHeap {
    ghost gives = { ⊥ };
}

/// A reader that counts the slices that it is asked for.
#[derive(Drop)]
pub struct CountingReader<'a> {
    /// The reader that gives them.
    pub inner: SliceReader<'a>,
    /// How many it was asked for.
    pub asked: u64,
}

impl BytesLeft for CountingReader<'_> {
    ghost left = { λ r. left_of r.inner };

    ghost bounded = { λ r. left_of-bounded r.inner };

    ghost bytes = { λ r. left_of-bytes r.inner };
}

impl<'a> Reader<&'a [u8]> for CountingReader<'a> {
    fn remaining_len(&self) -> Length {
        self.inner.remaining_len()
    }

    fn peek_octet(&self) -> Option<u8> {
        self.inner.peek_octet()
    }

    fn read_slice(&mut self, len: Length) -> Result<&'a [u8]>
        ensures read { let before = left_of self.old.inner in
            ReadsOrFails (λ s. s.now) result before (left_of self.new.inner) (front_of len) }
        ensures counted { self.new.asked ≡ min (self.old.asked + 1) (2 ^ 64 - 1) }
    {
        self.asked = self.asked.saturating_add(1);
        self.inner.read_slice(len)
    }

    fn nested(&mut self, len: Length) -> Result<CountingReader<'a>> {
        match self.inner.nested(len) {
            Ok(inner) => Ok(CountingReader { inner, asked: 0 }),
            Err(error) => Err(error),
        }
    }

    fn error(&mut self, kind: ErrorKind) -> Error {
        self.inner.error(kind)
    }

    fn finish(&mut self) -> Result<()> {
        self.inner.finish()
    }
}

/// The number at the front of what is left, or the first fault. Memory never runs out.
pub fn read_number<'a>(reader: &mut CountingReader<'a>) -> Result<UintRef<'a>>
    ensures { let before = left_of reader.old.inner in let after = left_of reader.new.inner in
        ReadsFront (λ n. number_from_digits 256 (bytes_of n)) (tagged integer_tag number_of) (λ _. ⊥)
        result before after }
{
    UintRef::decode(NoHeap, reader)
}
