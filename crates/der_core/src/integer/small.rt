//! INTEGER from 0 to 255, as `u8`.
ghost use Rattle.std.specs.Prelude.{◌≤◌, ◌<◌, ℕ, length};
ghost use Rattle.der_core.specs.Words.{Answers, begins_with_any, limit, nothing_asked, number_contents, one_spelling_shortest, reading_alike, small_law, small_of};

use crate::decode::DecodeValue;
use crate::encode::EncodeValue;
use crate::error::{Error, ErrorKind, Result};
use crate::grammar::{Contents, EqualByValue, IntegerTag, TaggedBy};
use crate::integer::uint::{append_number, integer, prepend_number};
use crate::memory::Memory;
use crate::prepend::Prepend;
use crate::tag::Tag;
use crate::writer::Writer;

/// The number with these contents octets.
fn small(contents: &[u8]) -> Result<u8>
    requires { length contents.now ≤ limit }
    ensures { Answers (λ n. n) result (small_of contents.now) }
{
    let number = integer(contents)?;
    let bytes = number.as_bytes();
    if bytes.len() > 1 {
        return Err(Error::new(ErrorKind::Value { tag: Tag::INTEGER }));
    }
    Ok(bytes[0])
}

impl Contents for u8 {
    ghost Value = { ℕ };

    ghost value = { λ n. n };

    ghost Spelling = { ℕ };

    ghost means = { λ n. n };

    ghost written = { λ n. n };

    ghost valid = { λ n. n < 256 };

    ghost printed = { number_contents };

    ghost read_spelling = { small_of };

    ghost read = { small_of };

    ghost law = { small_law };

    ghost shortest = { one_spelling_shortest (λ n. n < 256) number_contents };

    ghost reads_alike = { reading_alike small_of };

    ghost begins = { begins_with_any };
}

impl TaggedBy for u8 {
    type Marker = IntegerTag;
}

impl EqualByValue for u8 {
    ghost use Rattle.der_core.specs.Words.{number_decides};

    ghost decides = { λ a b. number_decides a b };
}

impl<'a, M: Memory> DecodeValue<&'a [u8], M> for u8 {
    ghost may_allocate = { λ _. ⊥ };

    ghost asks_memory = { nothing_asked };

    #[inline(always)]
    fn read_value(_memory: M, contents: &'a [u8]) -> Result<u8> {
        match contents {
            [number] if *number < 0x80 => Ok(*number),
            _ => small(contents),
        }
    }
}

impl EncodeValue for u8 {
    ghost refused = { λ _. ⊥ };

    #[inline(always)]
    fn check_value(&self) -> Result<()> {
        let _octet = *self; // which says that the number is below 256
        Ok(())
    }

    #[inline(always)]
    fn prepend_value<W: Prepend>(&self, writer: &mut W) {
        prepend_number(&[*self], writer);
    }

    fn append_value<W: Writer>(&self, writer: &mut W) -> Result<()> {
        append_number(&[*self], writer)
    }
}
