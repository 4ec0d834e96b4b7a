//! The last part of some contents: one encoding, or an OPTIONAL one.
ghost use Rattle.std.specs.Prelude.{◌≤◌, Option, length, option_map};
ghost use Rattle.standard.specs.Statement as standard;
ghost use Rattle.der_core.specs.Words.{AllocatesAtFront, AllocatesLast, Appends, Checks, RefusedAs, Tlv, alone, alone_alike, last, last_alike, last_begins, last_by_tag_law, last_law, last_part_asks_as_it, last_shortest, limit, optional_alike, optional_front, tagged, tagged_alike, tagged_shortest, tagged_starts};

use crate::decode::{Decode, DecodeValue, read_optional};
use crate::encode::{Encode, EncodeValue};
use crate::error::{Error, ErrorKind, Result};
use crate::grammar::{Contents, Encoding, FixedTag};
use crate::memory::Memory;
use crate::parts::{DecodeParts, Row};
use crate::prepend::Prepend;
use crate::tag::Tag;
use crate::writer::Writer;

/// An OPTIONAL last part: one encoding, or nothing. Whatever is left is read as the part.
#[derive(Drop)]
pub struct Last<T>(pub Option<T>);

/// A borrowed OPTIONAL last part, which is written as the part itself.
#[derive(Drop)]
pub struct BorrowedLast<'b, T>(pub &'b Option<T>);

impl<T: Encoding> Contents for Last<T> {
    ghost Value = { Option T.Value };

    ghost value = { λ last. option_map T.value last.0 };

    ghost Spelling = { Option T.Spelling };

    ghost means = { option_map T.means };

    ghost written = { option_map T.written };

    ghost valid = { standard.IfPresent T.valid };

    ghost printed = { standard.optional T.printed };

    ghost read_spelling = { last T.read_spelling };

    ghost read = { last T.read_front };

    ghost law = { last_law T.law T.some };

    ghost shortest = { last_shortest T.shortest };

    ghost reads_alike = { last_alike T.reads_alike };

    ghost begins = { last_begins T.starts };
}

impl<T: Encoding> Contents for BorrowedLast<'_, T> {
    ghost Value = { Option T.Value };

    ghost value = { λ last. option_map T.value last.0.now };

    ghost Spelling = { Option T.Spelling };

    ghost means = { option_map T.means };

    ghost written = { option_map T.written };

    ghost valid = { standard.IfPresent T.valid };

    ghost printed = { standard.optional T.printed };

    ghost read_spelling = { last T.read_spelling };

    ghost read = { last T.read_front };

    ghost law = { last_law T.law T.some };

    ghost shortest = { last_shortest T.shortest };

    ghost reads_alike = { last_alike T.reads_alike };

    ghost begins = { last_begins T.starts };
}

impl<T: Encoding> Row for Last<T> {
    #[inline(always)]
    fn may_begin_with(tag: Tag) -> bool {
        T::may_start_with(tag)
    }
}

impl<T: Encoding> Row for BorrowedLast<'_, T> {
    #[inline(always)]
    fn may_begin_with(tag: Tag) -> bool {
        Last::<T>::may_begin_with(tag)
    }
}

impl<'a, M: Memory, T: Decode<&'a [u8], M>> DecodeParts<&'a [u8], M> for Last<T> {
    ghost may_allocate = { AllocatesLast T.Decode.may_allocate };

    ghost asks_memory = { last_part_asks_as_it T.Decode.asks_memory };

    #[inline(always)]
    fn read_parts(memory: M, contents: &'a [u8]) -> Result<Last<T>> {
        if contents.is_empty() {
            return Ok(Last(None));
        }
        let part = T::read_alone(memory, contents)?;
        Ok(Last(Some(part)))
    }
}

/// Whether the part has an encoding, if it is there.
#[inline(always)]
fn check_optional<T: Encode>(part: &Option<T>) -> Result<()>
    ensures checks { let s = option_map T.written (option_map T.value part.now) in
        Checks (standard.IfPresent T.valid s) result }
    ensures tag { RefusedAs T.Encode.refused result }
{
    match part {
        Some(part) => part.check(),
        None => Ok(()),
    }
}

/// Writes the part in front of what was received, or counts it, if it is there.
#[inline(always)]
fn prepend_optional<T: Encode, W: Prepend>(part: &Option<T>, writer: &mut W)
    requires has { standard.IfPresent T.valid (option_map T.written (option_map T.value part.now)) }
    requires room { let octets = standard.optional T.printed (option_map T.written (option_map T.value part.now)) in
        W.has_room writer.old (length octets) × W.length_fits (length octets) }
    ensures { let octets = standard.optional T.printed (option_map T.written (option_map T.value part.now)) in
        W.prepended octets writer.old writer.new }
{
    if let Some(part) = part {
        part.prepend(writer);
    }
}

/// Appends the part, if it is there.
fn append_optional<T: Encode, W: Writer>(part: &Option<T>, writer: &mut W) -> Result<()>
    requires has { standard.IfPresent T.valid (option_map T.written (option_map T.value part.now)) }
    requires fits { let octets = standard.optional T.printed (option_map T.written (option_map T.value part.now)) in
        length octets ≤ limit }
    ensures appends { let s = option_map T.written (option_map T.value part.now) in
        let octets = standard.optional T.printed s in
        Appends (standard.IfPresent T.valid s) octets W.room W.written writer.old writer.new result }
    ensures kept { W.keeps writer.old writer.new }
{
    match part {
        Some(part) => part.append(writer),
        None => Ok(()),
    }
}

impl<T: Encode> EncodeValue for Last<T> {
    ghost refused = { T.Encode.refused };

    #[inline(always)]
    fn check_value(&self) -> Result<()> {
        check_optional(&self.0)
    }

    #[inline(always)]
    fn prepend_value<W: Prepend>(&self, writer: &mut W) {
        prepend_optional(&self.0, writer);
    }

    fn append_value<W: Writer>(&self, writer: &mut W) -> Result<()> {
        append_optional(&self.0, writer)
    }
}

impl<T: Encode> EncodeValue for BorrowedLast<'_, T> {
    ghost refused = { T.Encode.refused };

    #[inline(always)]
    fn check_value(&self) -> Result<()> {
        check_optional(self.0)
    }

    #[inline(always)]
    fn prepend_value<W: Prepend>(&self, writer: &mut W) {
        prepend_optional(self.0, writer);
    }

    fn append_value<W: Writer>(&self, writer: &mut W) -> Result<()> {
        append_optional(self.0, writer)
    }
}

/// An OPTIONAL last part that is known by its tag: octets that begin with another are `TrailingData`.
#[derive(Drop)]
pub struct LastByTag<T>(pub Last<T>);

impl<T: Contents + FixedTag> Contents for LastByTag<T> {
    ghost Value = { Option T.Value };

    ghost value = { λ part. option_map T.value part.0.0 };

    ghost Spelling = { Option T.Spelling };

    ghost means = { option_map T.means };

    ghost written = { option_map T.written };

    ghost valid = { standard.IfPresent T.valid };

    ghost printed = { standard.optional (λ s. standard.tlv T.TAG.octet (T.printed s)) };

    ghost read_spelling = { alone (optional_front T.TAG.octet (tagged T.TAG T.read_spelling)) };

    ghost read = { alone (optional_front T.TAG.octet (tagged T.TAG T.read)) };

    ghost law = { last_by_tag_law T.law T.TAG };

    ghost shortest = { last_shortest (tagged_shortest T.shortest T.TAG.octet) };

    ghost reads_alike = { alone_alike (optional_alike (tagged_alike T.reads_alike T.TAG) T.TAG.octet) };

    ghost begins = { last_begins (tagged_starts T.printed T.TAG.octet) };
}

impl<T: Contents + FixedTag> Row for LastByTag<T> {
    #[inline(always)]
    fn may_begin_with(tag: Tag) -> bool {
        T::TAG.octet() == tag.octet()
    }
}

impl<'a, M: Memory, T: DecodeValue<&'a [u8], M> + FixedTag> DecodeParts<&'a [u8], M>
    for LastByTag<T> {
    ghost may_allocate = { AllocatesAtFront (Tlv T.TAG.octet T.DecodeValue.may_allocate) };

    ghost asks_memory = { λ c t. T.DecodeValue.asks_memory t.3.contents t.3.holds };

    #[inline(always)]
    fn read_parts(memory: M, contents: &'a [u8]) -> Result<LastByTag<T>> {
        let (part, rest) = read_optional(memory, contents)?;
        if !rest.is_empty() {
            return Err(Error::new(ErrorKind::TrailingData));
        }
        Ok(LastByTag(Last(part)))
    }
}

impl<T: EncodeValue + FixedTag> EncodeValue for LastByTag<T> {
    ghost refused = { T.EncodeValue.refused };

    #[inline(always)]
    fn check_value(&self) -> Result<()> {
        self.0.check_value()
    }

    #[inline(always)]
    fn prepend_value<W: Prepend>(&self, writer: &mut W) {
        self.0.prepend_value(writer);
    }

    fn append_value<W: Writer>(&self, writer: &mut W) -> Result<()> {
        self.0.append_value(writer)
    }
}
