//! An INTEGER that has to be one number, such as the version of a structure that has only one.
ghost use Rattle.std.specs.Prelude.{◌<◌};
ghost use Rattle.der_core.specs.Words.{begins_with_any, expected, expected_law, nothing_asked, number_contents, one_spelling_shortest, reading_alike};

use crate::decode::DecodeValue;
use crate::encode::EncodeValue;
use crate::error::{Error, ErrorKind, Result};
use crate::grammar::{Contents, IntegerTag, TaggedBy};
use crate::memory::Memory;
use crate::prepend::Prepend;
use crate::tag::Tag;
use crate::writer::Writer;

/// The INTEGER `N`. Another number is `Value` of INTEGER.
#[derive(Clone, Copy, Debug, Drop)]
pub struct Expected<const N: u8>;

impl<const N: u8> Contents for Expected<N> {
    ghost Value = { Unit {0} };

    ghost value = { λ _. tt };

    ghost Spelling = { Unit {0} };

    ghost means = { λ s. s };

    ghost written = { λ v. v };

    ghost valid = { λ _. N < 256 };

    ghost printed = { λ _. number_contents N };

    ghost read_spelling = { expected N };

    ghost read = { expected N };

    ghost law = { expected_law N };

    ghost shortest = { one_spelling_shortest (λ _. N < 256) (λ _. number_contents N) };

    ghost reads_alike = { reading_alike (expected N) };

    ghost begins = { begins_with_any };
}

impl<const N: u8> TaggedBy for Expected<N> {
    type Marker = IntegerTag;
}

impl<'a, M: Memory, const N: u8> DecodeValue<&'a [u8], M> for Expected<N> {
    ghost may_allocate = { λ _. ⊥ };

    ghost asks_memory = { nothing_asked };

    #[inline(always)]
    fn read_value(memory: M, contents: &'a [u8]) -> Result<Expected<N>> {
        if u8::read_value(memory, contents)? != N {
            return Err(Error::new(ErrorKind::Value { tag: Tag::INTEGER }));
        }
        Ok(Expected)
    }
}

impl<const N: u8> EncodeValue for Expected<N> {
    ghost refused = { λ _. ⊥ };

    #[inline(always)]
    fn check_value(&self) -> Result<()> {
        Ok(())
    }

    #[inline(always)]
    fn prepend_value<W: Prepend>(&self, writer: &mut W) {
        N.prepend_value(writer);
    }

    fn append_value<W: Writer>(&self, writer: &mut W) -> Result<()> {
        N.append_value(writer)
    }
}
