//! SEQUENCE OF (X.690 8.10), as a `Vec` of its items.
ghost use Rattle.std.specs.Prelude.{◌≤◌, List, length, map};
ghost use Rattle.std.specs.List.{AllByRecursion, concat};
ghost use Rattle.der_core.specs.Words.{begins_with_any, limit, RefusedAs, AllocatesForItems, AllHave, all_encodings, items, Checks, Appends, Prints, items_alike, items_law, list_shortest};

use crate::decode::{Decode, DecodeValue};
use crate::encode::{Encode, EncodeValue};
use crate::error::{Error, ErrorKind, Result};
use crate::grammar::{Contents, Encoding, SequenceTag, TaggedBy};
use crate::prepend::Prepend;
use crate::tag::Tag;
use crate::writer::Writer;
use std::alloc::Global;

impl<T: Encoding> Contents for Vec<T> {
    ghost Value = { List T.Value };

    ghost value = { λ v. map T.value v.items };

    ghost Spelling = { List T.Spelling };

    ghost means = { map T.means };

    ghost written = { map T.written };

    ghost valid = { AllByRecursion T.valid };

    ghost printed = { λ ss. concat (map T.printed ss) };

    ghost read_spelling = { items T.read_spelling };

    ghost read = { items T.read_front };

    ghost law = { items_law T.law T.some };

    ghost shortest = { list_shortest T.shortest };

    ghost reads_alike = { items_alike T.reads_alike };

    ghost begins = { begins_with_any };
}

impl<T> TaggedBy for Vec<T> {
    type Marker = SequenceTag;
}

impl<'a, T: Decode<&'a [u8], Global>> DecodeValue<&'a [u8], Global> for Vec<T> {
    ghost may_allocate = { AllocatesForItems (Prints T.valid T.printed T.means) T.Decode.may_allocate };

    ghost asks_memory = { λ _ _. tt };

    fn read_value(memory: Global, contents: &'a [u8]) -> Result<Vec<T>> {
        let mut items = Vec::new(memory);
        let mut left = contents;
        while !left.is_empty() {
            let (item, behind) = T::read_one(memory, left)?;
            if items.push(item).is_err() {
                return Err(Error::new(ErrorKind::OutOfMemory));
            }
            left = behind;
        }
        Ok(items)
    }
}

/// Whether each item has an encoding.
pub(crate) fn check_items<T: Encode>(items: &[T]) -> Result<()>
    ensures checks { Checks (AllHave (λ x. T.valid (T.written (T.value x))) items.now) result }
    ensures tag { RefusedAs T.Encode.refused result }
{
    for item in items {
        item.check()?;
    }
    Ok(())
}

/// Writes the encodings of the items in front of what was received, the last item first.
pub(crate) fn prepend_items<T: Encode, W: Prepend>(items: &[T], writer: &mut W)
    requires has { AllHave (λ x. T.valid (T.written (T.value x))) items.now }
    requires room { let octets = all_encodings (λ x. T.printed (T.written (T.value x))) items.now in
        W.has_room writer.old (length octets) × W.length_fits (length octets) }
    ensures { W.prepended (all_encodings (λ x. T.printed (T.written (T.value x))) items.now) writer.old writer.new }
{
    let mut left = items.len();
    while left > 0 {
        left -= 1;
        items[left].prepend(writer);
    }
}

/// Appends the encodings of the items.
pub(crate) fn append_items<T: Encode, W: Writer>(items: &[T], writer: &mut W) -> Result<()>
    requires has { AllHave (λ x. T.valid (T.written (T.value x))) items.now }
    requires fits { length (all_encodings (λ x. T.printed (T.written (T.value x))) items.now) ≤ limit }
    ensures appends { let have = AllHave (λ x. T.valid (T.written (T.value x))) items.now in
        let octets = all_encodings (λ x. T.printed (T.written (T.value x))) items.now in
        Appends have octets W.room W.written writer.old writer.new result }
    ensures kept { W.keeps writer.old writer.new }
{
    for item in items {
        item.append(writer)?;
    }
    Ok(())
}

impl<T: Encode> EncodeValue for Vec<T> {
    ghost refused = { T.Encode.refused };

    fn check_value(&self) -> Result<()> {
        check_items(self.as_slice())
    }

    fn prepend_value<W: Prepend>(&self, writer: &mut W) {
        prepend_items(self.as_slice(), writer);
    }

    fn append_value<W: Writer>(&self, writer: &mut W) -> Result<()> {
        append_items(self.as_slice(), writer)
    }
}
