//! The attributes of containers, as opaque bytes.
ghost use Rattle.std.specs.Prelude.{◌≡◌, ◌<◌, ◌^◌, ℕ, List, length, slice_index};
ghost use Rattle.der_core.specs.Words.{AreBytes, begins_with_any, itself_once, nothing_asked, octets_law, octets_of_all, one_spelling_shortest, reading_alike};
ghost use Rattle.pkcs8_core.specs.Tags.{attributes_tag};

use pkcs1::der::{
    Contents, DecodeValue, EncodeValue, Memory, OneContents, Prepend, Result, Tag, TagMarker,
    TaggedBy, Writer,
};

/// The tag of attributes.
pub struct AttributesTag;

impl TagMarker for AttributesTag {
    ghost TAG = { attributes_tag };

    const TAG: Tag = Tag { octet: 0xa0 };
}

/// Attributes, whose contents aren't checked and may be longer than `Length::MAX`.
#[derive(Clone, Copy, Drop)]
pub struct Attributes<'a> {
    pub(crate) bytes: &'a [u8],
    pub(crate) ghost octets: { (i : ℕ) → slice_index bytes.now i < 256 },
    pub(crate) ghost short: { length bytes.now < 2 ^ 64 },
}

impl<'a> Attributes<'a> {
    ghost use Rattle.pkcs8_core.specs.ContainerValue.{attributes_of};

    /// Attributes with these contents.
    #[inline(always)]
    pub(crate) fn new(bytes: &'a [u8]) -> Attributes<'a>
        ensures { attributes_of result ≡ bytes.now }
    {
        Attributes { bytes }
    }
}

impl Contents for Attributes<'_> {
    ghost use Rattle.pkcs8_core.specs.ContainerValue.{attributes_of};

    ghost Value = { List ℕ };

    ghost value = { attributes_of };

    ghost Spelling = { List ℕ };

    ghost means = { λ octets. octets };

    ghost written = { λ octets. octets };

    ghost valid = { AreBytes };

    ghost printed = { λ octets. octets };

    ghost read_spelling = { octets_of_all };

    ghost read = { octets_of_all };

    ghost law = { octets_law };

    ghost shortest = { one_spelling_shortest AreBytes (λ octets. octets) };

    ghost reads_alike = { reading_alike octets_of_all };

    ghost begins = { begins_with_any };
}

impl TaggedBy for Attributes<'_> {
    type Marker = AttributesTag;
}

impl OneContents for Attributes<'_> {
    ghost once = { itself_once };
}

impl<'a, M: Memory> DecodeValue<&'a [u8], M> for Attributes<'a> {
    ghost may_allocate = { λ _. ⊥ };

    ghost asks_memory = { nothing_asked };

    #[inline(always)]
    fn read_value(_memory: M, contents: &'a [u8]) -> Result<Attributes<'a>> {
        Ok(Attributes::new(contents))
    }
}

impl EncodeValue for Attributes<'_> {
    ghost refused = { λ _. ⊥ };

    #[inline(always)]
    fn check_value(&self) -> Result<()> {
        Ok(())
    }

    #[inline(always)]
    fn prepend_value<W: Prepend>(&self, writer: &mut W) {
        writer.prepend(self.bytes);
    }

    fn append_value<W: Writer>(&self, writer: &mut W) -> Result<()> {
        writer.write(self.bytes)
    }
}
