//! BIT STRINGs of whole octets (X.690 8.6).
ghost use Rattle.der_core.specs.Words.{AllocatesBehindZero, Answers, begins_with_any, behind_zero, behind_zero_alike, behind_zero_asks_as_contents, behind_zero_law, behind_zero_shortest, bit_string_tag, no_unused_bits, whole_octets};

use crate::decode::DecodeValue;
use crate::encode::EncodeValue;
use crate::error::{Error, ErrorKind, Result};
use crate::grammar::{Contents, TagMarker, TaggedBy};
use crate::length::Length;
use crate::memory::Memory;
use crate::octet_string::OctetStringRef;
use crate::prepend::Prepend;
use crate::tag::Tag;
use crate::writer::Writer;

/// The tag of BIT STRING.
#[derive(Drop)]
pub struct BitStringTag;

impl TagMarker for BitStringTag {
    ghost TAG = { bit_string_tag };

    const TAG: Tag = Tag::BIT_STRING;
}

/// A BIT STRING of whole octets, which are the contents octets of a `C`. If bits are unused it is `Value` of BIT STRING.
#[derive(Clone, Copy, Debug, PartialEq, Eq, Drop)]
pub struct BitString<C>(pub C);

/// A BIT STRING of any octets, which are borrowed.
pub type BitStringRef<'a> = BitString<OctetStringRef<'a>>;

impl<C: Contents> Contents for BitString<C> {
    ghost Value = { C.Value };

    ghost value = { λ bits. C.value bits.0 };

    ghost Spelling = { C.Spelling };

    ghost means = { C.means };

    ghost written = { C.written };

    ghost valid = { C.valid };

    ghost printed = { whole_octets C.printed };

    ghost read_spelling = { behind_zero C.read_spelling };

    ghost read = { behind_zero C.read };

    ghost law = { behind_zero_law C.law };

    ghost shortest = { behind_zero_shortest C.shortest };

    ghost reads_alike = { behind_zero_alike C.reads_alike };

    ghost begins = { begins_with_any };
}

impl<C> TaggedBy for BitString<C> {
    type Marker = BitStringTag;
}

/// The octets behind the number of unused bits, which has to be there, and 0.
#[inline(always)]
fn octets_behind(contents: &[u8]) -> Result<&[u8]>
    ensures { Answers (λ octets. (tt, octets.now)) result (no_unused_bits contents.now) }
{
    let tag = Tag::BIT_STRING;
    match contents {
        [] => Err(Error::new(ErrorKind::Length { tag })),
        [unused, ..] if *unused != 0 => Err(Error::new(ErrorKind::Value { tag })),
        [_, octets @ ..] => Ok(octets),
    }
}

impl<'a, M: Memory, C: DecodeValue<&'a [u8], M>> DecodeValue<&'a [u8], M> for BitString<C> {
    ghost may_allocate = { AllocatesBehindZero C.DecodeValue.may_allocate };

    ghost asks_memory = { behind_zero_asks_as_contents C.DecodeValue.asks_memory };

    #[inline(always)]
    fn read_value(memory: M, contents: &'a [u8]) -> Result<BitString<C>> {
        let octets = octets_behind(contents)?;
        let value = C::read_value(memory, octets)?;
        Ok(BitString(value))
    }
}

impl<C: EncodeValue> EncodeValue for BitString<C> {
    ghost refused = { C.EncodeValue.refused };

    #[inline(always)]
    fn check_value(&self) -> Result<()> {
        self.0.check_value()
    }

    #[inline(always)]
    fn prepend_value<W: Prepend>(&self, writer: &mut W) {
        self.0.prepend_value(writer);
        writer.prepend(&[0]);
    }

    fn append_value<W: Writer>(&self, writer: &mut W) -> Result<()> {
        writer.write(&[0])?;
        self.0.append_value(writer)
    }
}
