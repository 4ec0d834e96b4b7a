//! Values under a tag of one's own (X.690 8.14).
ghost use Rattle.std.specs.Prelude.{◌≡◌};

use crate::containing::Containing;
use crate::decode::DecodeValue;
use crate::encode::EncodeValue;
use crate::error::Result;
use crate::grammar::{Contents, TagMarker, TaggedBy};
use crate::memory::Memory;
use crate::prepend::Prepend;
use crate::tag::Tag;
use crate::writer::Writer;
use std::marker::PhantomData;

/// The contents octets of a `C` under the tag of a marker, as in `[n] IMPLICIT` (8.14.3).
#[derive(Clone, Copy, Debug, PartialEq, Eq, Drop)]
pub struct Tagged<M, C> {
    /// What has these contents octets.
    pub contents: C,
    marker: PhantomData<M>,
}

/// `[n] EXPLICIT` (8.14.2): the contents octets are one encoding of a `T`.
pub type Explicit<M, T> = Tagged<M, Containing<T>>;

impl<M, C> Tagged<M, C> {
    /// These contents under the tag.
    #[inline(always)]
    pub fn new(contents: C) -> Tagged<M, C>
        ensures { result.contents ≡ contents }
    {
        Tagged {
            contents,
            marker: PhantomData,
        }
    }
}

impl<M, C: Contents> Contents for Tagged<M, C> {
    ghost Value = { C.Value };

    ghost value = { λ tagged. C.value tagged.contents };

    ghost Spelling = { C.Spelling };

    ghost means = { C.means };

    ghost written = { C.written };

    ghost valid = { C.valid };

    ghost printed = { C.printed };

    ghost read_spelling = { C.read_spelling };

    ghost read = { C.read };

    ghost law = { C.law };

    ghost shortest = { C.shortest };

    ghost reads_alike = { C.reads_alike };

    ghost begins = { C.begins };
}

impl<M: TagMarker, C> TaggedBy for Tagged<M, C> {
    type Marker = M;
}

impl<'a, K: TagMarker + Drop, M: Memory, C: DecodeValue<&'a [u8], M>> DecodeValue<&'a [u8], M>
    for Tagged<K, C> {
    ghost may_allocate = { C.DecodeValue.may_allocate };

    ghost asks_memory = { C.DecodeValue.asks_memory };

    #[inline(always)]
    fn read_value(memory: M, contents: &'a [u8]) -> Result<Tagged<K, C>> {
        let contents = C::read_value(memory, contents)?;
        Ok(Tagged::new(contents))
    }
}

impl<M: TagMarker, C: EncodeValue> EncodeValue for Tagged<M, C> {
    ghost refused = { C.EncodeValue.refused };

    #[inline(always)]
    fn check_value(&self) -> Result<()> {
        self.contents.check_value()
    }

    #[inline(always)]
    fn prepend_value<W: Prepend>(&self, writer: &mut W) {
        self.contents.prepend_value(writer);
    }

    fn append_value<W: Writer>(&self, writer: &mut W) -> Result<()> {
        self.contents.append_value(writer)
    }
}
