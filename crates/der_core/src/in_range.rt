//! An INTEGER in a range, such as the version of a structure that has several.
ghost use Rattle.std.specs.Prelude.{◌≡◌, ℕ};
ghost use Rattle.der_core.specs.Words.{IsInRange, begins_with_any, in_range, integer_tag, nothing_asked, number_contents, one_spelling_shortest, ranged, ranged_law, reading_alike};

use crate::decode::DecodeValue;
use crate::encode::EncodeValue;
use crate::error::{Error, ErrorKind, Result};
use crate::grammar::{Contents, IntegerTag, TaggedBy};
use crate::memory::Memory;
use crate::prepend::Prepend;
use crate::tag::Tag;
use crate::writer::Writer;

/// An INTEGER from `MIN` to `MAX`. Another number is `Value` of INTEGER, where it is read and where it is written.
#[derive(Clone, Copy, Debug, PartialEq, Eq, Drop)]
pub struct InRange<const MIN: u8, const MAX: u8>(pub u8);

impl<const MIN: u8, const MAX: u8> InRange<MIN, MAX> {
    /// Whether the number is in the range.
    #[inline(always)]
    fn is_within(self) -> bool
        ensures { result ≡ in_range MIN MAX self.entry.0 }
    {
        MIN <= self.0 && self.0 <= MAX
    }
}

impl<const MIN: u8, const MAX: u8> Contents for InRange<MIN, MAX> {
    ghost Value = { ℕ };

    ghost value = { λ number. number.0 };

    ghost Spelling = { ℕ };

    ghost means = { λ n. n };

    ghost written = { λ n. n };

    ghost valid = { IsInRange MIN MAX };

    ghost printed = { number_contents };

    ghost read_spelling = { ranged MIN MAX };

    ghost read = { ranged MIN MAX };

    ghost law = { ranged_law MIN MAX };

    ghost shortest = { one_spelling_shortest (IsInRange MIN MAX) number_contents };

    ghost reads_alike = { reading_alike (ranged MIN MAX) };

    ghost begins = { begins_with_any };
}

impl<const MIN: u8, const MAX: u8> TaggedBy for InRange<MIN, MAX> {
    type Marker = IntegerTag;
}

impl<'a, M: Memory, const MIN: u8, const MAX: u8> DecodeValue<&'a [u8], M> for InRange<MIN, MAX> {
    ghost may_allocate = { λ _. ⊥ };

    ghost asks_memory = { nothing_asked };

    #[inline(always)]
    fn read_value(memory: M, contents: &'a [u8]) -> Result<InRange<MIN, MAX>> {
        let number = InRange(u8::read_value(memory, contents)?);
        if !number.is_within() {
            return Err(Error::new(ErrorKind::Value { tag: Tag::INTEGER }));
        }
        Ok(number)
    }
}

impl<const MIN: u8, const MAX: u8> EncodeValue for InRange<MIN, MAX> {
    ghost refused = { λ tag. tag ≡ integer_tag };

    #[inline(always)]
    fn check_value(&self) -> Result<()> {
        if self.is_within() {
            Ok(())
        } else {
            Err(Error::new(ErrorKind::Value { tag: Tag::INTEGER }))
        }
    }

    #[inline(always)]
    fn prepend_value<W: Prepend>(&self, writer: &mut W) {
        self.0.prepend_value(writer);
    }

    fn append_value<W: Writer>(&self, writer: &mut W) -> Result<()> {
        self.0.append_value(writer)
    }
}
