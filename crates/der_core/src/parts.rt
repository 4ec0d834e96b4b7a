//! Parts of contents in a row, as a type: a nested pair that ends with `()`, as `(A, (B, ()))`, or with an OPTIONAL last
//! part, as `(A, Last<B>)`. A row is written as contents, `(Borrowed(&self.a), (Borrowed(&self.b), ())).value_len()`.
ghost use Rattle.std.specs.Prelude.{◌≡◌, ◌≤◌, ◌⊎◌, List, [], ℕ, length};
ghost use Rattle.der_core.specs.Words.{AllocatesInParts, Prints, Returns, end_law, limit, no_parts, nothing_asked, nothing_begins, one_spelling_shortest, parts, parts_ask_as_each, reading_alike, row, row_alike, row_begins, row_law, row_shortest};

use crate::decode::Decode;
use crate::encode::{Encode, EncodeValue};
use crate::error::{Error, ErrorKind, Result};
use crate::grammar::{Contents, Encoding};
use crate::memory::Memory;
use crate::prepend::Prepend;
use crate::reader::Octets;
use crate::tag::Tag;
use crate::writer::Writer;

/// Parts that are read from contents. Of these the type's `read` gives the value, or the kind of the first fault. Calls
/// return that, or `OutOfMemory` where the type may allocate.
pub trait DecodeParts<B: Octets, M: Memory>: Contents + Sized + Drop {
    /// The contents whose reading may allocate.
    ghost may_allocate: { List ℕ → Type 0 };

    /// The value of these contents octets, at most `Length::MAX`. Err: the first fault, or `OutOfMemory`.
    fn read_parts(memory: M, contents: B) -> Result<Self>
        requires { length (B.octets contents) ≤ limit }
        ensures { let c = B.octets contents in Returns Self.value (Self.read c) (may_allocate c) result };

    /// Memory is asked for only where there is any.
    ghost asks_memory: { (c : List ℕ) → Self.may_allocate c → M.gives };
}

/// A row that is asked which tags it may begin with, so that an OPTIONAL part can stand in front of it.
pub trait Row: Contents {
    /// False only if no row of the type begins with the octet of the tag.
    fn may_begin_with(tag: Tag) -> bool
        ensures { result ≡ Self.begins.with tag.octet };
}

impl Contents for () {
    ghost Value = { Unit {0} };

    ghost value = { λ _. tt };

    ghost Spelling = { Unit {0} };

    ghost means = { λ s. s };

    ghost written = { λ v. v };

    ghost valid = { λ _. Unit {0} };

    ghost printed = { λ _. [] };

    ghost read_spelling = { no_parts };

    ghost read = { no_parts };

    ghost law = { end_law };

    ghost shortest = { one_spelling_shortest (λ _. Unit {0}) (λ _. []) };

    ghost reads_alike = { reading_alike no_parts };

    ghost begins = { nothing_begins };
}

impl<A: Encoding, B: Contents> Contents for (A, B) {
    ghost Value = { A.Value × B.Value };

    ghost value = { λ parts. (A.value parts.0, B.value parts.1) };

    ghost Spelling = { A.Spelling × B.Spelling };

    ghost means = { λ s. (A.means s.0, B.means s.1) };

    ghost written = { λ v. (A.written v.0, B.written v.1) };

    ghost valid = { λ s. A.valid s.0 × B.valid s.1 };

    ghost printed = { row A.printed B.printed };

    ghost read_spelling = { parts A.read_spelling B.read_spelling };

    ghost read = { parts A.read_front B.read };

    ghost law = { row_law A.law B.law };

    ghost shortest = { row_shortest A.shortest B.shortest };

    ghost reads_alike = { row_alike A.reads_alike B.reads_alike };

    ghost begins = { row_begins A.starts B.printed };
}

impl Row for () {
    #[inline(always)]
    fn may_begin_with(_tag: Tag) -> bool {
        false
    }
}

impl<A: Encoding, B: Contents> Row for (A, B) {
    #[inline(always)]
    fn may_begin_with(tag: Tag) -> bool {
        A::may_start_with(tag)
    }
}

impl<'a, M: Memory> DecodeParts<&'a [u8], M> for () {
    ghost may_allocate = { λ _. ⊥ };

    ghost asks_memory = { nothing_asked };

    #[inline(always)]
    fn read_parts(_memory: M, contents: &'a [u8]) -> Result<()> {
        if contents.is_empty() {
            Ok(())
        } else {
            Err(Error::new(ErrorKind::TrailingData))
        }
    }
}

impl<'a, M: Memory, A: Decode<&'a [u8], M>, B: DecodeParts<&'a [u8], M>> DecodeParts<&'a [u8], M>
    for (A, B) {
    ghost may_allocate = { let first = Prints A.valid A.printed A.means in
        AllocatesInParts first A.Decode.may_allocate B.DecodeParts.may_allocate };

    ghost asks_memory = { let first = Prints A.valid A.printed A.means in
        parts_ask_as_each first A.Decode.asks_memory B.DecodeParts.asks_memory };

    #[inline(always)]
    fn read_parts(memory: M, contents: &'a [u8]) -> Result<(A, B)> {
        let (first, behind) = A::read_one(memory, contents)?;
        let rest = B::read_parts(memory, behind)?;
        Ok((first, rest))
    }
}

impl EncodeValue for () {
    ghost refused = { λ _. ⊥ };

    #[inline(always)]
    fn check_value(&self) -> Result<()> {
        Ok(())
    }

    #[inline(always)]
    fn prepend_value<W: Prepend>(&self, _writer: &mut W) {}

    #[inline(always)]
    fn append_value<W: Writer>(&self, _writer: &mut W) -> Result<()> {
        Ok(())
    }
}

impl<A: Encode, B: EncodeValue> EncodeValue for (A, B) {
    ghost refused = { λ tag. A.Encode.refused tag ⊎ B.EncodeValue.refused tag };

    #[inline(always)]
    fn check_value(&self) -> Result<()> {
        self.0.check()?;
        self.1.check_value()
    }

    #[inline(always)]
    fn prepend_value<W: Prepend>(&self, writer: &mut W) {
        self.1.prepend_value(writer);
        self.0.prepend(writer);
    }

    #[inline(always)]
    fn append_value<W: Writer>(&self, writer: &mut W) -> Result<()> {
        self.0.append(writer)?;
        self.1.append_value(writer)
    }
}
