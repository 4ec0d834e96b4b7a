//! Contents octets that are one encoding.
ghost use Rattle.der_core.specs.Words.{AllocatesAtFront, alone, alone_alike, alone_law, begins_with_any};

use crate::decode::{Decode, DecodeValue};
use crate::encode::{Encode, EncodeValue};
use crate::error::Result;
use crate::grammar::{Contents, Encoding};
use crate::memory::Memory;
use crate::prepend::Prepend;
use crate::writer::Writer;

/// Contents octets that are one encoding of a `T`, as those of `BIT STRING (CONTAINING T)`. `TrailingData` if octets
/// follow it.
#[derive(Clone, Copy, Debug, PartialEq, Eq, Drop)]
pub struct Containing<T>(pub T);

impl<T: Encoding> Contents for Containing<T> {
    ghost Value = { T.Value };

    ghost value = { λ inside. T.value inside.0 };

    ghost Spelling = { T.Spelling };

    ghost means = { T.means };

    ghost written = { T.written };

    ghost valid = { T.valid };

    ghost printed = { T.printed };

    ghost read_spelling = { alone T.read_spelling };

    ghost read = { alone T.read_front };

    ghost law = { alone_law T.law };

    ghost shortest = { T.shortest };

    ghost reads_alike = { alone_alike T.reads_alike };

    ghost begins = { begins_with_any };
}

impl<'a, M: Memory, T: Decode<&'a [u8], M>> DecodeValue<&'a [u8], M> for Containing<T> {
    ghost may_allocate = { AllocatesAtFront T.Decode.may_allocate };

    ghost asks_memory = { λ c asks. T.Decode.asks_memory asks.0 asks.3 };

    #[inline(always)]
    fn read_value(memory: M, contents: &'a [u8]) -> Result<Containing<T>> {
        let value = T::read_alone(memory, contents)?;
        Ok(Containing(value))
    }
}

impl<T: Encode> EncodeValue for Containing<T> {
    ghost refused = { T.Encode.refused };

    #[inline(always)]
    fn check_value(&self) -> Result<()> {
        self.0.check()
    }

    #[inline(always)]
    fn prepend_value<W: Prepend>(&self, writer: &mut W) {
        self.0.prepend(writer);
    }

    fn append_value<W: Writer>(&self, writer: &mut W) -> Result<()> {
        self.0.append(writer)
    }
}
