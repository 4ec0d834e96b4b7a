//! BOOLEAN (X.690 8.2), as `bool`.
ghost use Rattle.std.specs.Prelude.{◌≡◌, Bool};
ghost use Rattle.der_core.specs.Words.{Answers, begins_with_any, boolean_contents, boolean_law, boolean_of, boolean_tag, nothing_asked, one_spelling_shortest, reading_alike};

use crate::decode::DecodeValue;
use crate::encode::EncodeValue;
use crate::error::{Error, ErrorKind, Result};
use crate::grammar::{Contents, TagMarker, TaggedBy};
use crate::length::Length;
use crate::memory::Memory;
use crate::prepend::Prepend;
use crate::tag::Tag;
use crate::writer::Writer;

/// The tag of BOOLEAN.
#[derive(Drop)]
pub struct BooleanTag;

impl TagMarker for BooleanTag {
    ghost TAG = { boolean_tag };

    const TAG: Tag = Tag::BOOLEAN;
}

impl Contents for bool {
    ghost Value = { Bool };

    ghost value = { λ b. b };

    ghost Spelling = { Bool };

    ghost means = { λ b. b };

    ghost written = { λ b. b };

    ghost valid = { λ _. Unit {0} };

    ghost printed = { boolean_contents };

    ghost read_spelling = { boolean_of };

    ghost read = { boolean_of };

    ghost law = { boolean_law };

    ghost shortest = { one_spelling_shortest (λ _. Unit {0}) boolean_contents };

    ghost reads_alike = { reading_alike boolean_of };

    ghost begins = { begins_with_any };
}

impl TaggedBy for bool {
    type Marker = BooleanTag;
}

/// The value with these contents octets: `Length` if there isn't one octet, `Value` if it is neither `00` nor
/// `ff`.
fn boolean(contents: &[u8]) -> Result<bool>
    ensures { Answers (λ b. b) result (boolean_of contents.now) }
{
    let tag = Tag::BOOLEAN;
    if contents.len() != 1 {
        return Err(Error::new(ErrorKind::Length { tag }));
    }
    if contents[0] == 0xff {
        Ok(true)
    } else if contents[0] == 0x00 {
        Ok(false)
    } else {
        Err(Error::new(ErrorKind::Value { tag }))
    }
}

impl<'a, M: Memory> DecodeValue<&'a [u8], M> for bool {
    ghost may_allocate = { λ _. ⊥ };

    ghost asks_memory = { nothing_asked };

    #[inline(always)]
    fn read_value(_memory: M, contents: &'a [u8]) -> Result<bool> {
        boolean(contents)
    }
}

impl EncodeValue for bool {
    ghost refused = { λ _. ⊥ };

    #[inline(always)]
    fn check_value(&self) -> Result<()> {
        Ok(())
    }

    #[inline(always)]
    fn prepend_value<W: Prepend>(&self, writer: &mut W) {
        writer.prepend(&[if *self { 0xff } else { 0x00 }]);
    }

    fn append_value<W: Writer>(&self, writer: &mut W) -> Result<()> {
        writer.write(&[if *self { 0xff } else { 0x00 }])
    }
}
