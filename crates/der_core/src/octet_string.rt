//! OCTET STRING (X.690 8.7).
ghost use Rattle.std.specs.Prelude.{◌≡◌, ◌≤◌, ◌<◌, ◌↔◌, ℕ, List, IsTrue, length, slice_index, IfOk, IfErr};
ghost use Rattle.der_core.specs.Length.{limit};
ghost use Rattle.der_core.specs.Readings.{octets_of_all};
ghost use Rattle.der_core.specs.Laws.Printed.Alike.{reading_alike};
ghost use Rattle.der_core.specs.Laws.Printed.Leaves.{octets_law};
ghost use Rattle.der_core.specs.Laws.Printed.Shortest.{one_spelling_shortest};
ghost use Rattle.der_core.specs.Printed.{begins_with_any};
ghost use Rattle.der_core.specs.Tags.{octet_string_tag};
ghost use Rattle.der_core.specs.Encodings.{AreBytes};
ghost use Rattle.der_core.specs.Laws.Encodings.{nothing_asked};

use crate::decode::DecodeValue;
use crate::encode::EncodeValue;
use crate::error::{Error, ErrorKind, Result};
use crate::grammar::{Contents, EqualByValue, TagMarker, TaggedBy};
use crate::length::Length;
use crate::memory::Memory;
use crate::prepend::Prepend;
use crate::tag::Tag;
use crate::writer::Writer;

/// An OCTET STRING of at most `Length::MAX` octets. It borrows them.
#[derive(Clone, Copy, Debug, PartialEq, Eq, Drop)]
pub struct OctetStringRef<'a> {
    bytes: &'a [u8],
    ghost bounded: { length bytes.now ≤ limit },
    ghost octets: { (i : ℕ) → slice_index bytes.now i < 256 },
}

impl<'a> OctetStringRef<'a> {
    ghost use Rattle.der_core.specs.OctetStringRefValue.{octets_of};

    /// The string of these octets.
    /// # Errors
    /// `Overflow` exactly if there are more than `Length::MAX`.
    pub fn new(bytes: &'a [u8]) -> Result<OctetStringRef<'a>>
        ensures ok { IfOk result (λ string. octets_of string ≡ bytes.now) }
        ensures err { IfErr result (λ e. (e.kind ≡ ErrorKind.Overflow) × (limit < length bytes.now)) }
    {
        if bytes.len() > Length::MAX.to_usize() {
            return Err(Error::new(ErrorKind::Overflow));
        }
        Ok(OctetStringRef { bytes })
    }

    /// The octets, borrowed from the input. They are at most `Length::MAX`.
    pub fn as_bytes(&self) -> &'a [u8]
        ensures octets { result.now ≡ octets_of self.now }
        ensures bound { length result.now ≤ limit }
    {
        self.bytes
    }

    /// How many octets there are.
    pub fn len(&self) -> Length
        ensures { result ≡ length (octets_of self.now) }
    {
        Length::of(self.bytes.len())
    }

    /// Whether there is no octet. An OCTET STRING may have none (X.690 8.7.2).
    pub fn is_empty(&self) -> bool
        ensures { IsTrue result ↔ (length (octets_of self.now) ≡ 0) }
    {
        self.bytes.is_empty()
    }
}

/// The tag of OCTET STRING.
#[derive(Drop)]
pub struct OctetStringTag;

impl TagMarker for OctetStringTag {
    ghost TAG = { octet_string_tag };

    const TAG: Tag = Tag::OCTET_STRING;
}

impl Contents for OctetStringRef<'_> {
    ghost use Rattle.der_core.specs.OctetStringRefValue.{octets_of};

    ghost Value = { List ℕ };

    ghost value = { octets_of };

    ghost Spelling = { List ℕ };

    ghost means = { λ o. o };

    ghost written = { λ o. o };

    ghost valid = { AreBytes };

    ghost printed = { λ o. o };

    ghost read_spelling = { octets_of_all };

    ghost read = { octets_of_all };

    ghost law = { octets_law };

    ghost shortest = { one_spelling_shortest AreBytes (λ o. o) };

    ghost reads_alike = { reading_alike octets_of_all };

    ghost begins = { begins_with_any };
}

impl TaggedBy for OctetStringRef<'_> {
    type Marker = OctetStringTag;
}

impl EqualByValue for OctetStringRef<'_> {
    ghost use Rattle.der_core.specs.Laws.Integer.{bytes_decide};

    ghost decides = { λ a b. bytes_decide a.bytes.now b.bytes.now };
}

impl<'a, M: Memory> DecodeValue<&'a [u8], M> for OctetStringRef<'a> {
    ghost may_allocate = { λ _. ⊥ };

    ghost asks_memory = { nothing_asked };

    #[inline(always)]
    fn read_value(_memory: M, contents: &'a [u8]) -> Result<OctetStringRef<'a>> {
        Ok(OctetStringRef { bytes: contents })
    }
}

impl EncodeValue for OctetStringRef<'_> {
    ghost refused = { λ _. ⊥ };

    #[inline(always)]
    fn check_value(&self) -> Result<()> {
        Ok(())
    }

    #[inline(always)]
    fn prepend_value<W: Prepend>(&self, writer: &mut W) {
        writer.prepend(self.bytes);
    }

    fn append_value<W: Writer>(&self, writer: &mut W) -> Result<()> {
        writer.write(self.bytes)
    }
}
