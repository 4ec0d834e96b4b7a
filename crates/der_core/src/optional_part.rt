//! An OPTIONAL part in front of others, which is known by its tag.
ghost use Rattle.std.specs.Prelude.{◌≡◌, ◌≤◌, ◌⊎◌, Option, false, length, option_map};
ghost use Rattle.standard.specs.Statement as standard;
ghost use Rattle.der_core.specs.declared.error.ErrorKind.TheVariants as kinds;
ghost use Rattle.der_core.specs.Words.{AllocatesInParts, Optional, Prints, Returns, Tlv, last_shortest, limit, optional_alike, optional_begins, optional_front, optional_part_law, parts, parts_ask_as_each, row, row_alike, row_shortest, tagged, tagged_alike, tagged_shortest, tagged_starts, unless, unless_alike, unless_shortest};

use crate::decode::{DecodeValue, read_optional};
use crate::encode::{Encode, EncodeValue};
use crate::error::{Error, ErrorKind, Result};
use crate::grammar::{Contents, FixedTag};
use crate::memory::Memory;
use crate::parts::{DecodeParts, Row};
use crate::prepend::Prepend;
use crate::tag::Tag;
use crate::writer::Writer;

/// An OPTIONAL part that is known by its tag, and the row after it: `OptionalThen<T, (A, B)>`, an OPTIONAL last part, as
/// in `OptionalThen<T, Last<A>>`, or another OPTIONAL part, as in `OptionalThen<T, OptionalThen<U, Last<A>>>`. Where the
/// row may begin with that tag too, no value has contents: reading and writing are `Value` of the tag. An OPTIONAL part
/// may be left out, so a row may also begin as what follows that part does.
#[derive(Drop)]
pub struct OptionalThen<T, R>(pub Option<T>, pub R);

impl<T: Contents + FixedTag, R: Contents> Contents for OptionalThen<T, R> {
    ghost Value = { Option T.Value × R.Value };

    ghost value = { λ row. (option_map T.value row.0, R.value row.1) };

    ghost Spelling = { Option T.Spelling × R.Spelling };

    ghost means = { λ s. (option_map T.means s.0, R.means s.1) };

    ghost written = { λ v. (option_map T.written v.0, R.written v.1) };

    ghost valid = { λ s. standard.IfPresent T.valid s.0 × ((R.begins.with T.TAG.octet ≡ false) × R.valid s.1) };

    ghost printed = { row (standard.optional (λ s. standard.tlv T.TAG.octet (T.printed s))) R.printed };

    ghost read_spelling = { parts (optional_front T.TAG.octet (tagged T.TAG T.read_spelling))
        (unless (R.begins.with T.TAG.octet) (kinds.Value T.TAG) R.read_spelling) };

    ghost read = { parts (optional_front T.TAG.octet (tagged T.TAG T.read))
        (unless (R.begins.with T.TAG.octet) (kinds.Value T.TAG) R.read) };

    ghost law = { optional_part_law T.law R.law T.TAG R.begins };

    ghost shortest = { row_shortest (last_shortest (tagged_shortest T.shortest T.TAG.octet))
        (unless_shortest (R.begins.with T.TAG.octet) R.shortest) };

    ghost reads_alike = { row_alike (optional_alike (tagged_alike T.reads_alike T.TAG) T.TAG.octet)
        (unless_alike (R.begins.with T.TAG.octet) (kinds.Value T.TAG) R.reads_alike) };

    ghost begins = { optional_begins (tagged_starts T.printed T.TAG.octet) R.begins };
}

impl<T: Contents + FixedTag, R: Row> Row for OptionalThen<T, R> {
    #[inline(always)]
    fn may_begin_with(tag: Tag) -> bool {
        T::TAG.octet() == tag.octet() || R::may_begin_with(tag)
    }
}

/// Reads the row after a part with this tag: `Value` of the tag if the row may begin with it too.
#[inline(always)]
fn read_after<'a, R, M: Memory>(memory: M, bytes: &'a [u8], tag: Tag) -> Result<R>
where
    R: DecodeParts<&'a [u8], M> + Row,
    requires { length bytes.now ≤ limit }
    ensures { let read = unless (R.begins.with tag.octet) (kinds.Value tag) R.read in
        Returns R.value (read bytes.now) (R.DecodeParts.may_allocate bytes.now) result }
{
    if R::may_begin_with(tag) {
        return Err(Error::new(ErrorKind::Value { tag }));
    }
    R::read_parts(memory, bytes)
}

impl<'a, M, T, R> DecodeParts<&'a [u8], M> for OptionalThen<T, R>
where
    M: Memory,
    T: DecodeValue<&'a [u8], M> + FixedTag,
    R: DecodeParts<&'a [u8], M> + Row,
{
    ghost may_allocate = { let part = Prints T.valid (λ s. standard.tlv T.TAG.octet (T.printed s)) T.means in
        AllocatesInParts (Optional part) (Tlv T.TAG.octet T.DecodeValue.may_allocate) R.DecodeParts.may_allocate };

    ghost asks_memory = { let part = Prints T.valid (λ s. standard.tlv T.TAG.octet (T.printed s)) T.means in
        parts_ask_as_each (Optional part) (λ b t. T.DecodeValue.asks_memory t.contents t.holds)
        R.DecodeParts.asks_memory };

    #[inline(always)]
    fn read_parts(memory: M, contents: &'a [u8]) -> Result<OptionalThen<T, R>> {
        let (part, after) = read_optional(memory, contents)?;
        let rest = read_after(memory, after, T::TAG)?;
        Ok(OptionalThen(part, rest))
    }
}

impl<T: EncodeValue + FixedTag, R: EncodeValue + Row> EncodeValue for OptionalThen<T, R> {
    ghost refused = { λ t. (t ≡ T.TAG) ⊎ T.EncodeValue.refused t ⊎ R.EncodeValue.refused t };

    #[inline(always)]
    fn check_value(&self) -> Result<()> {
        if R::may_begin_with(T::TAG) {
            return Err(Error::new(ErrorKind::Value { tag: T::TAG }));
        }
        if let Some(part) = &self.0 {
            part.check()?;
        }
        self.1.check_value()
    }

    #[inline(always)]
    fn prepend_value<W: Prepend>(&self, writer: &mut W) {
        self.1.prepend_value(writer);
        if let Some(part) = &self.0 {
            part.prepend(writer);
        }
    }

    fn append_value<W: Writer>(&self, writer: &mut W) -> Result<()> {
        match &self.0 {
            Some(part) => {
                part.append(writer)?;
                self.1.append_value(writer)
            }
            None => self.1.append_value(writer),
        }
    }
}
