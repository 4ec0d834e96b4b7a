//! Reading of values.
ghost use Rattle.std.specs.Prelude.{◌≡◌, ◌≤◌, ℕ, List, length, IfOk, option_map};
ghost use Rattle.standard.specs.Statement as standard;
ghost use Rattle.der_core.specs.Words.{Answers, Tlv, AllocatesAtFront, HoldsBytes, ReadsAll, ReadsFront, ReadsWhole, Returns, DecodesOrMemory, Prints, Spells, TellsNext, alone, limit, ok_of, optional_front, tagged, whole};

use crate::error::{Error, ErrorKind, Result};
use crate::grammar::{Contents, Encoding, FixedTag};
use crate::header::Header;
use crate::length::Length;
use crate::memory::{Memory, NoMemory};
use crate::reader::{Octets, Reader, reject_if_failed};
use crate::split::{begins_with, split_encoding};
use crate::tag::Tag;

/// A type whose values are read from their contents octets. Of these the type's `read` gives the value, or the kind of
/// the first fault. Calls return that, or `OutOfMemory` where the type may allocate.
pub trait DecodeValue<B: Octets, M: Memory>: Contents + Sized + Drop {
    /// The contents whose reading may allocate.
    ghost may_allocate: { List ℕ → Type 0 };

    /// The value of these contents octets, at most `Length::MAX`. Err: the first fault, or `OutOfMemory`.
    fn read_value(memory: M, contents: B) -> Result<Self>
        requires { length (B.octets contents) ≤ limit }
        ensures { let c = B.octets contents in Returns Self.value (Self.read c) (may_allocate c) result };

    /// Reads all that is left as the contents octets of a value. Exactly `header.length` bytes are left.
    #[inline(always)]
    fn decode_value<R: Reader<B>>(memory: M, reader: &mut R, header: Header) -> Result<Self>
        requires { HoldsBytes (R.left reader.old) header.length }
        ensures { let before = R.left reader.old in
            ReadsWhole Self.value Self.read may_allocate result before (R.left reader.new) }
    {
        let contents = reader.read_slice(header.length)?;
        match Self::read_value(memory, contents) {
            Ok(value) => Ok(value),
            Err(e) => Err(reader.error(e.kind())),
        }
    }

    /// Memory is asked for only where there is any.
    ghost asks_memory: { (c : List ℕ) → Self.may_allocate c → M.gives };
}

/// A type whose values are read from their encodings. Of the bytes the type's `read_front` gives the value in front,
/// or the kind of the first fault. Calls return that, or `OutOfMemory` where the type may allocate.
pub trait Decode<B: Octets, M: Memory>: Encoding + Sized + Drop {
    /// The encodings whose reading may allocate.
    ghost may_allocate: { List ℕ → Type 0 };

    /// The value of the encoding in front, and what follows it. Err: the first fault, or `OutOfMemory`.
    fn read_one(memory: M, bytes: B) -> Result<(Self, B)>
        requires { length (B.octets bytes) ≤ limit }
        ensures read { let b = B.octets bytes in let asked = AllocatesAtFront may_allocate b in
            Returns (λ split. (Self.value split.0, B.octets split.1)) (Self.read_front b) asked result }
        ensures rest { IfOk result (λ split. length (B.octets split.1) ≤ limit) };

    /// Reads the encoding at the front of what is left. Err: the first fault, or `OutOfMemory`.
    fn decode<R: Reader<B>>(memory: M, reader: &mut R) -> Result<Self>
        ensures { let before = R.left reader.old in
            ReadsFront Self.value Self.read_front may_allocate result before (R.left reader.new) };

    /// Reads all of the bytes as one encoding. Err: the first fault, `TrailingData` if bytes follow, or `OutOfMemory`.
    #[inline(always)]
    fn read_alone(memory: M, bytes: B) -> Result<Self>
        requires { length (B.octets bytes) ≤ limit }
        ensures { let b = B.octets bytes in
            Returns Self.value (alone Self.read_front b) (AllocatesAtFront may_allocate b) result }
    {
        let (value, rest) = Self::read_one(memory, bytes)?;
        if rest.octet_count() > 0 {
            return Err(Error::new(ErrorKind::TrailingData));
        }
        Ok(value)
    }

    /// Reads a whole slice. Ok only if it encodes a value of the type, and no other: then this value. Err: the first
    /// fault, `Overflow` if it is longer than `Length::MAX`, `TrailingData` if bytes follow, or `OutOfMemory`.
    #[inline(always)]
    fn from_der(memory: M, bytes: B) -> Result<Self>
        ensures encoding { let encodings = Prints Self.valid Self.printed Self.means in
            ReadsAll Self.value encodings may_allocate result (B.octets bytes) }
        ensures exact { let b = B.octets bytes in
            Returns Self.value (whole Self.read_front b) (AllocatesAtFront may_allocate b) result }
    {
        if bytes.octet_count() > Length::MAX.to_usize() {
            return Err(Error::new(ErrorKind::Overflow));
        }
        Self::read_alone(memory, bytes)
    }

    /// Memory is asked for only where there is any.
    ghost asks_memory: { (b : List ℕ) → Self.may_allocate b → M.gives };
}

impl<'a, M: Memory, T: DecodeValue<&'a [u8], M> + FixedTag> Decode<&'a [u8], M> for T {
    ghost may_allocate = { Tlv T.TAG.octet T.DecodeValue.may_allocate };

    ghost asks_memory = { λ b t. T.DecodeValue.asks_memory t.contents t.holds };

    #[inline(always)]
    fn read_one(memory: M, bytes: &'a [u8]) -> Result<(T, &'a [u8])> {
        read_tagged(memory, bytes, T::TAG)
    }

    #[inline(always)]
    fn decode<R: Reader<&'a [u8]>>(memory: M, reader: &mut R) -> Result<T> {
        decode_tagged(memory, reader, T::TAG)
    }
}

/// The value of the encoding with this tag in front, and what follows it. Err: the first fault, or `OutOfMemory`.
#[inline(always)]
pub fn read_tagged<'a, T: DecodeValue<&'a [u8], M>, M: Memory>(
    memory: M,
    bytes: &'a [u8],
    tag: Tag,
) -> Result<(T, &'a [u8])>
    requires { length bytes.now ≤ limit }
    ensures read { let asked = AllocatesAtFront (Tlv tag.octet T.may_allocate) bytes.now in
        Returns (λ split. (T.value split.0, split.1.now)) (tagged tag T.read bytes.now) asked result }
    ensures rest { IfOk result (λ split. length split.1.now ≤ limit) }
{
    let (contents, rest) = split_encoding(bytes, tag)?;
    let value = T::read_value(memory, contents)?;
    Ok((value, rest))
}

/// The encoding in front, if the first octet is that of the type's tag, and what follows it. Err: the first fault, or
/// `OutOfMemory`.
#[inline(always)]
pub fn read_optional<'a, T: DecodeValue<&'a [u8], M> + FixedTag, M: Memory>(
    memory: M,
    bytes: &'a [u8],
) -> Result<(Option<T>, &'a [u8])>
    requires { length bytes.now ≤ limit }
    ensures read { let asked = AllocatesAtFront (Tlv T.TAG.octet T.DecodeValue.may_allocate) bytes.now in
        let at = optional_front T.TAG.octet (tagged T.TAG T.read) in
        Returns (λ split. (option_map T.value split.0, split.1.now)) (at bytes.now) asked result }
    ensures rest { IfOk result (λ split. length split.1.now ≤ limit) }
{
    if !begins_with(bytes, T::TAG) {
        return Ok((None, bytes));
    }
    let (value, rest) = T::read_one(memory, bytes)?;
    Ok((Some(value), rest))
}

/// Reads a whole slice without memory. Ok exactly if it encodes a `T`: then this value. Err: the first fault.
#[inline(always)]
pub fn read_borrowed<'a, T: Decode<&'a [u8], NoMemory>>(bytes: &'a [u8]) -> Result<T>
    ensures read { standard.Decodes (Spells T.valid T.printed T.means) bytes.now (ok_of T.value result) }
    ensures exact { Answers T.value result (whole T.read_front bytes.now) }
{
    T::from_der(NoMemory, bytes)
}

/// Reads a whole slice of a type that may take memory. Ok only if it encodes a value of the type, and no other: then
/// this value. Err: the first fault, or `OutOfMemory` where the type may allocate.
#[inline(always)]
pub fn read_owned<'a, T: Decode<&'a [u8], M>, M: Memory>(memory: M, bytes: &'a [u8]) -> Result<T>
    ensures read { let asked = AllocatesAtFront T.Decode.may_allocate bytes.now in
        DecodesOrMemory T.value (Spells T.valid T.printed T.means) asked bytes.now result }
    ensures exact { let asked = AllocatesAtFront T.Decode.may_allocate bytes.now in
        Returns T.value (whole T.read_front bytes.now) asked result }
{
    T::from_der(memory, bytes)
}

/// Reads the encoding with this tag at the front of what is left. Err: the first fault, or `OutOfMemory`.
pub fn decode_tagged<'a, T: DecodeValue<&'a [u8], M>, M: Memory, R: Reader<&'a [u8]>>(
    memory: M,
    reader: &mut R,
    tag: Tag,
) -> Result<T>
    ensures { let at = tagged tag T.read in let may = Tlv tag.octet T.may_allocate in
        ReadsFront T.value at may result (R.left reader.old) (R.left reader.new) }
{
    let header = Header::decode(reader)?;
    if header.tag != tag {
        return Err(reader.error(ErrorKind::TagUnexpected {
            expected: tag,
            actual: header.tag,
        }));
    }
    let contents = reader.read_slice(header.length)?;
    match T::read_value(memory, contents) {
        Ok(value) => Ok(value),
        Err(e) => Err(reader.error(e.kind())),
    }
}

/// Whether the next octet is that of the tag. Nothing is read. `Failed` on a reader that has failed.
#[inline(always)]
pub fn is_tag_next<'a, R: Reader<&'a [u8]>>(reader: &mut R, tag: Tag) -> Result<bool>
    ensures { TellsNext tag.octet result (R.left reader.old) (R.left reader.new) }
{
    reject_if_failed(reader)?;
    Ok(reader.peek_octet() == Some(tag.octet()))
}

/// Reads an encoding if the next octet is the type's tag, else returns `None` and reads nothing. `Failed` on a reader
/// that has failed.
pub fn decode_optional<'a, T: DecodeValue<&'a [u8], M> + FixedTag, M: Memory, R: Reader<&'a [u8]>>(
    memory: M,
    reader: &mut R,
) -> Result<Option<T>>
    ensures { let may = Tlv T.TAG.octet T.DecodeValue.may_allocate in
        let at = optional_front T.TAG.octet (tagged T.TAG T.read) in
        ReadsFront (option_map T.value) at may result (R.left reader.old) (R.left reader.new) }
{
    if !is_tag_next(reader, T::TAG)? {
        return Ok(None);
    }
    let value = T::decode(memory, reader)?;
    Ok(Some(value))
}
