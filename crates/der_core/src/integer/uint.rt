//! Unsigned numbers that borrow their bytes.
ghost use Rattle.std.specs.Prelude.{◌≡◌, ◌≤◌, ◌<◌, ◌+◌, ℕ, List, length, slice_index, OnOk, IfOk, IfErr, IfSome, IsOk, None, ⊤};
ghost use Rattle.std.specs.Int.Digits.{number_from_digits};
ghost use Rattle.der_core.specs.Length.{limit};
ghost use Rattle.der_core.specs.Integer.{HoldsNumber, IsCanonical, AreCanonicalOf, IsBitLength, EncodesNumbers};
ghost use Rattle.der_core.specs.IntegerReading.{integer_of, Answers, WhyNoNumber};
ghost use Rattle.der_core.specs.Laws.Printed.Alike.{reading_alike};
ghost use Rattle.der_core.specs.Laws.Printed.Leaves.{number_law, numbers_encode};
ghost use Rattle.der_core.specs.Laws.Printed.Shortest.{one_spelling_shortest};
ghost use Rattle.der_core.specs.Printed.{Prints, begins_with_any, number_contents, number_of};
ghost use Rattle.der_core.specs.Laws.Encodings.{nothing_asked};
ghost use Rattle.der_core.specs.Writing.{Appends};

use crate::decode::DecodeValue;
use crate::encode::EncodeValue;
use crate::error::{Error, ErrorKind, Result};
use crate::grammar::{Contents, Encoding, EqualByValue, IntegerTag, TaggedBy};
use crate::length::Length;
use crate::memory::Memory;
use crate::prepend::Prepend;
use crate::tag::Tag;
use crate::try_clone::TryClone;
use crate::writer::Writer;
use std::alloc::Global;

/// An unsigned number as big-endian bytes: no leading zeros, and one zero byte for 0. It borrows them.
#[derive(Clone, Copy, Debug, PartialEq, Eq, Drop)]
pub struct UintRef<'a> {
    bytes: &'a [u8],
    ghost canonical: { HoldsNumber bytes.now },
    ghost bounded: { length bytes.now ≤ limit },
}

/// A type that holds an unsigned number.
pub trait AsUintRef {
    ghost use Rattle.der_core.specs.UintRefValue.{bytes_of};

    /// Its bytes, most significant first, without leading zeros.
    ghost number: { Self → List ℕ };

    /// The same number, borrowed.
    fn as_uint_ref(&self) -> UintRef<'_>
        ensures { bytes_of result ≡ number self.now };
}

impl AsUintRef for UintRef<'_> {
    ghost use Rattle.der_core.specs.UintRefValue.{bytes_of};

    ghost number = { bytes_of };

    fn as_uint_ref(&self) -> UintRef<'_> {
        *self
    }
}

/// A type whose values are encoded as the unsigned numbers that they hold.
pub trait UintEncoding: AsUintRef + Encoding {
    /// The encodings of a value are those of its number.
    ghost encodes_number: { EncodesNumbers (Prints Self.valid Self.printed Self.means) Self.value Self.number };
}

impl UintEncoding for UintRef<'_> {
    ghost use Rattle.der_core.specs.UintRefValue.{bytes_of};

    ghost encodes_number = { numbers_encode bytes_of };
}

/// The bytes without needless leading zeros.
fn strip(bytes: &[u8]) -> &[u8]
    ensures number { number_from_digits 256 result.now ≡ number_from_digits 256 bytes.now }
    ensures fewest { 1 < length result.now → 0 < slice_index result.now 0 }
    ensures empty { length result.now ≡ 0 → length bytes.now ≡ 0 }
    ensures bound { length result.now ≤ length bytes.now }
{
    let mut rest = bytes;
    while rest.len() > 1 && rest[0] == 0 {
        rest = &rest[1..];
    }
    rest
}

impl<'a> UintRef<'a> {
    ghost use Rattle.der_core.specs.UintRefValue.{bytes_of};

    /// The number with these big-endian bytes, which may have leading zeros.
    /// # Errors
    /// `Length` of INTEGER exactly if there is no byte, `Overflow` exactly if more than `Length::MAX` bytes remain
    /// without leading zeros.
    pub fn new(bytes: &'a [u8]) -> Result<UintRef<'a>>
        ensures ok { IfOk result (λ number. AreCanonicalOf bytes.now (bytes_of number)) }
        ensures some { OnOk result (0 < length bytes.now) }
        ensures err { IfErr result (λ e. WhyNoNumber bytes.now e.kind) }
    {
        let bytes = strip(bytes);
        if bytes.is_empty() {
            return Err(Error::new(ErrorKind::Length { tag: Tag::INTEGER }));
        }
        if bytes.len() > Length::MAX.to_usize() {
            return Err(Error::new(ErrorKind::Overflow));
        }
        Ok(UintRef { bytes })
    }

    /// The number with these big-endian bytes. `None` exactly if there is no byte, if a needless zero stands in front,
    /// or if they are more than `Length::MAX`.
    #[inline(always)]
    pub fn from_canonical(bytes: &'a [u8]) -> Option<UintRef<'a>>
        ensures some { IfSome result (λ number. bytes_of number ≡ bytes.now) }
        ensures none { result ≡ None → IsCanonical bytes.now → limit < length bytes.now }
    {
        match bytes {
            [] | [0, _, ..] => None,
            _ if bytes.len() > Length::MAX.to_usize() => None,
            _ => Some(UintRef { bytes }),
        }
    }

    /// The number with these bytes, which have no needless leading zero.
    pub(super) fn over(bytes: &'a [u8]) -> UintRef<'a>
        requires canonical { HoldsNumber bytes.now }
        requires bounded { length bytes.now ≤ limit }
        ensures { bytes_of result ≡ bytes.now }
    {
        UintRef { bytes }
    }

    /// The bytes, most significant first: at least one, at most `Length::MAX`, and no needless zero in front.
    #[tactic(auto, using(crate::specs::Laws::Integer::holds_canonical))]
    pub fn as_bytes(&self) -> &'a [u8]
        ensures number { result.now ≡ bytes_of self.now }
        ensures canonical { IsCanonical result.now }
        ensures bound { length result.now ≤ limit }
    {
        self.bytes
    }

    /// The bit length of the number, as 2048 of the modulus of an RSA-2048 key: the least n with it below 2^n, 0 of 0.
    #[tactic(auto, using(crate::proofs::Integers::number_bit_length))]
    pub fn bit_len(&self) -> u64
        ensures { IsBitLength (number_from_digits 256 (bytes_of self.now)) result }
    {
        8 * self.bytes.len() as u64 - self.bytes[0].leading_zeros() as u64
    }
}

/// The number with these contents octets.
#[inline(always)]
pub(crate) fn integer(contents: &[u8]) -> Result<UintRef<'_>>
    requires { length contents.now ≤ limit }
    ensures { Answers (λ u. u.bytes.now) result (integer_of contents.now) }
{
    let tag = Tag::INTEGER;
    match contents {
        [0, rest @ ..] => match rest {
            [] => Ok(UintRef { bytes: contents }),
            [second, ..] if *second >= 0x80 => Ok(UintRef { bytes: rest }),
            [_, ..] => Err(Error::new(ErrorKind::Noncanonical { tag })),
        },
        [first, ..] if *first < 0x80 => Ok(UintRef { bytes: contents }),
        [] => Err(Error::new(ErrorKind::Length { tag })),
        [_, ..] => Err(Error::new(ErrorKind::Value { tag })),
    }
}

impl<'a> TryClone for UintRef<'a> {
    ghost never_out_of_memory = { λ _. ⊤ };

    /// The same number, over the same bytes. Never `OutOfMemory`.
    fn try_clone(&self, _alloc: Global) -> Result<UintRef<'a>> {
        Ok(*self)
    }
}

impl<'a> Contents for UintRef<'a> {
    ghost use Rattle.der_core.specs.UintRefValue.{bytes_of};

    ghost Value = { ℕ };

    ghost value = { λ u. number_from_digits 256 (bytes_of u) };

    ghost Spelling = { ℕ };

    ghost means = { λ n. n };

    ghost written = { λ n. n };

    ghost valid = { λ _. Unit {0} };

    ghost printed = { number_contents };

    ghost read_spelling = { number_of };

    ghost read = { number_of };

    ghost law = { number_law };

    ghost shortest = { one_spelling_shortest (λ _. Unit {0}) number_contents };

    ghost reads_alike = { reading_alike number_of };

    ghost begins = { begins_with_any };
}

impl<'a> TaggedBy for UintRef<'a> {
    type Marker = IntegerTag;
}

impl EqualByValue for UintRef<'_> {
    ghost use Rattle.der_core.specs.Laws.Printed.Leaves.{numbers_decide};

    ghost decides = { λ a b. numbers_decide a.bytes.now b.bytes.now a.canonical b.canonical };
}

impl<'a, M: Memory> DecodeValue<&'a [u8], M> for UintRef<'a> {
    ghost use Rattle.der_core.specs.UintRefValue.{bytes_of};

    ghost may_allocate = { λ _. ⊥ };

    ghost asks_memory = { nothing_asked };

    #[inline(always)]
    fn read_value(_memory: M, contents: &'a [u8]) -> Result<UintRef<'a>> {
        integer(contents)
    }
}

/// Writes the contents of the number with these bytes in front of what was received, or counts them.
#[inline(always)]
pub(crate) fn prepend_number<W: Prepend>(bytes: &[u8], writer: &mut W)
    requires canonical { HoldsNumber bytes.now }
    requires room { let n = length (number_contents (number_from_digits 256 bytes.now)) in
        W.has_room writer.old n × W.length_fits n }
    ensures { W.prepended (number_contents (number_from_digits 256 bytes.now)) writer.old writer.new }
{
    writer.prepend(bytes);
    if bytes[0] >= 0x80 {
        writer.prepend(&[0]);
    }
}

/// Appends the contents of the number with these bytes.
#[inline(always)]
pub(crate) fn append_number<W: Writer>(bytes: &[u8], writer: &mut W) -> Result<()>
    requires canonical { HoldsNumber bytes.now }
    requires fits { length (number_contents (number_from_digits 256 bytes.now)) ≤ limit }
    ensures appends { let octets = number_contents (number_from_digits 256 bytes.now) in
        Appends (Unit {0}) octets W.room W.written writer.old writer.new result }
    ensures kept { W.keeps writer.old writer.new }
{
    if bytes[0] >= 0x80 {
        writer.write(&[0])?;
    }
    writer.write(bytes)
}

impl EncodeValue for UintRef<'_> {
    ghost refused = { λ _. ⊥ };

    #[inline(always)]
    fn check_value(&self) -> Result<()> {
        Ok(())
    }

    #[inline(always)]
    fn prepend_value<W: Prepend>(&self, writer: &mut W) {
        prepend_number(self.bytes, writer);
    }

    fn append_value<W: Writer>(&self, writer: &mut W) -> Result<()> {
        append_number(self.bytes, writer)
    }
}
