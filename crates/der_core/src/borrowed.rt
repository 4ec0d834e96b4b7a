//! Borrowed values.

use crate::encode::Encode;
use crate::error::Result;
use crate::grammar::Encoding;
use crate::prepend::Prepend;
use crate::tag::Tag;
use crate::writer::Writer;

/// A borrowed value, which is encoded as the value itself.
#[derive(Drop)]
pub struct Borrowed<'b, T>(pub &'b T);

impl<'b, T: Encoding> Encoding for Borrowed<'b, T> {
    ghost Value = { T.Value };

    ghost value = { λ b. T.value b.0.now };

    ghost Spelling = { T.Spelling };

    ghost means = { T.means };

    ghost written = { T.written };

    ghost valid = { T.valid };

    ghost printed = { T.printed };

    ghost read_spelling = { T.read_spelling };

    ghost read_front = { T.read_front };

    ghost law = { T.law };

    ghost shortest = { T.shortest };

    ghost some = { T.some };

    ghost reads_alike = { T.reads_alike };

    ghost starts = { T.starts };

    #[inline(always)]
    fn may_start_with(tag: Tag) -> bool {
        T::may_start_with(tag)
    }
}

impl<'b, T: Encode> Encode for Borrowed<'b, T> {
    ghost refused = { T.Encode.refused };

    #[inline(always)]
    fn check(&self) -> Result<()> {
        self.0.check()
    }

    #[inline(always)]
    fn prepend<W: Prepend>(&self, writer: &mut W) {
        self.0.prepend(writer);
    }

    fn append<W: Writer>(&self, writer: &mut W) -> Result<()> {
        self.0.append(writer)
    }
}
